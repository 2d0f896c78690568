//! The rows of all tables as they are kept: of each table the versions of its rows.

ghost use Rattle.std.specs.Prelude.{◌≡◌, ◌+◌, ◌^◌, ◌<◌, ◌≤◌, List, [], ◌∷◌, replicate, IfOk, OnOk, OnErr};
ghost use Rattle.std.specs.Option.{option_copied};
ghost use Rattle.desk_values.specs.declared.value.Image.{Image as AnyImage};
ghost use Rattle.server_words.specs.Sound.{AreStanding};
ghost use Rattle.machine_stores.specs.Inside.Tables.{AreCut, no_versions};
ghost use Rattle.machine_stores.specs.Tables.{AreForgot, AreFrom, ArePut, AreTold, AreWithin, count_seen, least_seen, told_at};

use desk_values::{Copied, Image, Memory, Outcome};
use row_versions::Versions;
use server_words::Session;
use std::alloc::Global;

/// The versions of the first so many tables, of which these are the rows before all commits.
pub fn tables_of(alloc: Global, images: &[Image], count: usize) -> Result<Vec<Versions>, Memory>
    requires { AreStanding images.now }
    ensures { IfOk result (λ tables. AreTold 0 images.now [] tables.items) }
{
    let mut tables = empty_tables(alloc, count)?;
    put_images(&mut tables, 0, images)?;
    Ok(tables)
}

/// So many tables without versions.
fn empty_tables(alloc: Global, count: usize) -> Result<Vec<Versions>, Memory>
    ensures { IfOk result (λ tables. tables.items ≡ replicate count no_versions) }
{
    let mut tables = Vec::new(alloc);
    for _ in 0..count {
        tables.push(no_versions(alloc))?;
    }
    Ok(tables)
}

fn no_versions(alloc: Global) -> Versions
    ensures { result ≡ no_versions }
{
    Versions::new(alloc)
}

/// The row of this number, where at this commit it is not gone.
pub fn row_at(versions: &Versions, row: u64, number: u64) -> Option<&Image>
    requires { versions.now.floor ≤ number }
    ensures { option_copied result ≡ told_at versions.now.list number row }
{
    match versions.row_at(row, number) {
        Some(image) if image.left.is_some() => Some(image),
        _ => None,
    }
}

/// Puts what the commit after so many writes. An `Err` changes nothing.
pub fn put_commit(tables: &mut [Versions], before: u64, images: &[Image]) -> Result<(), Memory>
    requires room { before + 1 < 2 ^ 64 }
    requires within { AreWithin before tables.old }
    ensures ok { OnOk result (ArePut (before + 1) images.now tables.old tables.new) }
    ensures err { OnErr result (tables.new ≡ tables.old) }
{
    match put_images(tables, before + 1, images) {
        Ok(()) => Ok(()),
        Err(memory) => {
            cut_each(tables, before);
            Err(memory)
        }
    }
}

/// Puts images of a commit. An `Err` has put some of them.
fn put_images(tables: &mut [Versions], number: u64, images: &[Image]) -> Result<(), Memory>
    requires { AreWithin number tables.old }
    ensures ok { OnOk result (ArePut number images.now tables.old tables.new) }
    ensures some { (put : List AnyImage) × ArePut number put tables.old tables.new }
{
    for image in images {
        put_image(tables, number, image.copy()?)?;
    }
    Ok(())
}

/// Puts an image to its table. An `Err` changes nothing.
fn put_image(tables: &mut [Versions], number: u64, image: Image) -> Result<(), Memory>
    requires { AreWithin number tables.old }
    ensures ok { OnOk result (ArePut number (image ∷ []) tables.old tables.new) }
    ensures err { OnErr result (ArePut number [] tables.old tables.new) }
{
    let at = image.table as usize;
    if at >= tables.len() {
        return Ok(());
    }
    tables[at].put(number, image)?;
    Ok(())
}

/// Takes out the versions with a number over this one.
fn cut_each(tables: &mut [Versions], number: u64)
    requires { AreFrom number tables.old }
    ensures { AreCut number tables.old tables.new }
{
    for table in tables.iter_mut() {
        table.cut_above(number);
    }
}

/// Lets versions go that no session reads, once a transaction has ended.
#[tactic(auto, using(crate::proofs::Forgetting::forgot_same))]
pub fn forget_unread(
    tables: &mut Vec<Versions>,
    sessions: &[Session],
    count: u64,
    outcome: &Outcome,
)
    requires { AreFrom (least_seen count sessions.now) tables.old.items }
    ensures { AreForgot (least_seen count sessions.now) tables.old.items tables.new.items }
{
    if ends_transaction(outcome) {
        forget_each(tables, least_seen(sessions, count));
    }
}

// Whether a call with this outcome ends a transaction, or goes back in one.
fn ends_transaction(outcome: &Outcome) -> bool {
    matches!(
        outcome,
        Outcome::Committed(_) | Outcome::RolledBack | Outcome::Disconnected
    )
}

/// Reads go by this number and later ones from now on.
fn forget_each(tables: &mut [Versions], number: u64)
    requires { AreFrom number tables.old }
    ensures { AreForgot number tables.old tables.new }
{
    for table in tables.iter_mut() {
        table.forget_below(number);
    }
}

/// The least number that one of the sessions reads at, or this one.
fn least_seen(sessions: &[Session], count: u64) -> u64
    ensures { result ≡ least_seen count sessions.now }
{
    let mut least = count;
    for session in sessions {
        least = seen_by(session, least);
    }
    least
}

fn seen_by(session: &Session, count: u64) -> u64
    ensures { result ≡ count_seen session.now.snapshot count }
{
    match session.snapshot {
        Some(number) if number < count => number,
        _ => count,
    }
}
