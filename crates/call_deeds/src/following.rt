//! What a call does to its session and to what is committed.

ghost use Rattle.std.specs.Prelude.{◌≡◌, ◌+◌, ◌++◌, ℕ, List as Sequence, [], true, length, take, OnOk, OnErr};
ghost use Rattle.server_words.specs.declared.session.HeldKey.{HeldKey as AnyKey};
ghost use Rattle.server_words.specs.State.{disconnected, nothing};
ghost use Rattle.server_words.specs.View.{plain_view};
ghost use Rattle.machine_stores.specs.Holds.{HoldsMove, IsHolder};
ghost use Rattle.machine_stores.specs.Tables.{ArePut, AreWithin};
ghost use Rattle.server_words.specs.Writes.{holding};
ghost use Rattle.server_words.specs.Step.{snapshot_after, with_commit};
ghost use Rattle.server_words.specs.Decision.{committed_by, session_left};

use crate::holding::{free_own, hold_keys, hold_rows, tell_own};
use desk_values::{List, Memory};
use hold_index::HoldIndex;
use machine_stores::put_commit;
use row_versions::Versions;
use server_words::{Deed, Rows, Savepoints, Session, Transaction, Writing};
use std::alloc::Global;
use std::mem;

/// Writes and holds what a statement does in a table. An `Err` changes nothing.
fn write(
    own: &mut Transaction,
    holds: &mut HoldIndex,
    number: u32,
    table: u32,
    writing: Writing,
) -> Result<(), Memory>
    requires { IsHolder holds.old number own.old }
    ensures ok { OnOk result (own.new ≡ holding table own.old writing) }
    ensures err { OnErr result (own.new ≡ own.old) }
    ensures told { HoldsMove holds.old holds.new number own.old own.new }
{
    let rows = own.rows.len();
    let keys = own.keys.len();
    match write_some(own, holds, number, table, writing) {
        Ok(()) => Ok(()),
        Err(memory) => {
            take_back(own, holds, number, rows, keys);
            Err(memory)
        }
    }
}

/// Writes and holds what a statement does in a table. An `Err` has written nothing, and may hold some of it.
fn write_some(
    own: &mut Transaction,
    holds: &mut HoldIndex,
    number: u32,
    table: u32,
    writing: Writing,
) -> Result<(), Memory>
    requires { IsHolder holds.old number own.old }
    ensures ok { OnOk result (own.new ≡ holding table own.old writing) }
    ensures changes { OnErr result (own.new.changes ≡ own.old.changes) }
    ensures rows { (more : Sequence ℕ) × (own.new.rows ≡ own.old.rows ++ more) }
    ensures keys { (more : Sequence AnyKey) × (own.new.keys ≡ own.old.keys ++ more) }
    ensures told { HoldsMove holds.old holds.new number own.old own.new }
{
    hold_rows(&mut own.rows, holds, number, writing.rows.as_slice())?;
    hold_keys(&mut own.keys, holds, number, table, writing.keys.as_slice())?;
    own.changes.note(writing.images.into_vec())?;
    Ok(())
}

/// The transaction holds the first so many rows and keys.
fn take_back(own: &mut Transaction, holds: &mut HoldIndex, number: u32, rows: usize, keys: usize)
    ensures changes { own.new.changes ≡ own.old.changes }
    ensures rows { own.new.rows ≡ take rows own.old.rows }
    ensures keys { own.new.keys ≡ take keys own.old.keys }
    ensures told { HoldsMove holds.old holds.new number own.old own.new }
{
    free_own(holds, own);
    cut(&mut own.rows, rows);
    cut(&mut own.keys, keys);
    tell_own(holds, number, own);
}

/// Drops all but the first, so many.
fn cut<T: Drop>(list: &mut List<T>, count: usize)
    ensures { list.new ≡ take count list.old }
{
    let rest = List::new(list.allocator());
    let mut items = mem::replace(list, rest).into_vec();
    items.truncate(count);
    *list = List::from_vec(items);
}

/// Appends changes as a commit, where there are any, and puts their versions. An `Err` changes no row and no commit.
#[tactic(auto, using(crate::proofs::Puts::puts))]
fn append_commit(
    alloc: Global,
    commits: &mut Vec<Rows>,
    tables: &mut Vec<Versions>,
    changes: &Rows,
) -> Result<(), Memory>
    requires { AreWithin (length commits.old.items) tables.old.items }
    ensures commits { OnOk result (commits.new.items ≡ with_commit commits.old.items changes.now) }
    ensures tables { OnOk result (ArePut (length commits.old.items + 1) changes.now tables.old.items tables.new.items) }
    ensures err_commits { OnErr result (commits.new.items ≡ commits.old.items) }
    ensures err_tables { OnErr result (tables.new.items ≡ tables.old.items) }
{
    if changes.len() == 0 {
        return Ok(());
    }
    let kept = changes.copied(alloc)?;
    commits.reserve(1)?;
    put_commit(tables, commits.len() as u64, changes.as_slice())?;
    commits.push(kept).unwrap();
    Ok(())
}

/// Does what a call does: to the session, what is told of its holds, the commits and the versions of rows. An `Err` changes
/// nothing but how holds are told.
#[tactic(auto, using(crate::proofs::Puts::puts, crate::proofs::Held::stays))]
pub fn enact(
    alloc: Global,
    commits: &mut Vec<Rows>,
    tables: &mut Vec<Versions>,
    session: &mut Session,
    holds: &mut HoldIndex,
    number: u32,
    deed: Deed,
) -> Result<(), Memory>
    requires within { AreWithin (length commits.old.items) tables.old.items }
    requires holder { IsHolder holds.old number session.old.own }
    ensures commits { OnOk result (commits.new.items ≡ with_commit commits.old.items (committed_by (plain_view session.old) deed)) }
    ensures tables { OnOk result
        (ArePut (length commits.old.items + 1) (committed_by (plain_view session.old) deed) tables.old.items tables.new.items) }
    ensures session { OnOk result (session.new ≡ session_left session.old (length commits.old.items) deed) }
    ensures err_commits { OnErr result (commits.new.items ≡ commits.old.items) }
    ensures err_tables { OnErr result (tables.new.items ≡ tables.old.items) }
    ensures err_session { OnErr result (session.new ≡ session.old) }
    ensures told { HoldsMove holds.old holds.new number session.old.own session.new.own }
{
    match deed {
        Deed::Nothing => {}
        Deed::Connects(rights) => session.rights = Some(rights),
        Deed::Disconnects => leave(alloc, session, holds),
        Deed::Commits => {
            append_commit(alloc, commits, tables, &session.own.changes)?;
            end(alloc, session, holds);
        }
        Deed::RollsBack => end(alloc, session, holds),
        Deed::ReadsOnly => read_from(session, commits.len() as u64),
        Deed::Writes(table, writing) => write(&mut session.own, holds, number, table, writing)?,
        Deed::Marks(savepoint) => session.savepoints.set(savepoint)?,
        Deed::RollsBackTo(count, own) => go_back(session, holds, number, count, own),
    }
    Ok(())
}

/// The session is no longer connected.
fn leave(alloc: Global, session: &mut Session, holds: &mut HoldIndex)
    ensures session { session.new ≡ disconnected }
    ensures told { (number : ℕ) → HoldsMove holds.old holds.new number session.old.own nothing }
{
    free_own(holds, &session.own);
    *session = Session::new(alloc);
}

/// The transaction ends.
fn end(alloc: Global, session: &mut Session, holds: &mut HoldIndex)
    ensures session { session.new ≡ record { rights = session.old.rights; snapshot = None; own = nothing; savepoints = [] } }
    ensures told { (number : ℕ) → HoldsMove holds.old holds.new number session.old.own nothing }
{
    free_own(holds, &session.own);
    session.snapshot = None;
    session.own = Transaction::new(alloc);
    session.savepoints = Savepoints::new(alloc);
}

/// The transaction reads at this commit, where it does not read at one already.
fn read_from(session: &mut Session, commits: u64)
    ensures { session.new ≡ record session.old { snapshot = snapshot_after true session.old.snapshot commits } }
{
    if session.snapshot.is_none() {
        session.snapshot = Some(commits);
    }
}

/// The transaction has this again, and its first savepoints, so many.
fn go_back(
    session: &mut Session,
    holds: &mut HoldIndex,
    number: u32,
    count: usize,
    own: Transaction,
)
    ensures session { session.new ≡ record session.old { own = own; savepoints = take count session.old.savepoints } }
    ensures told { HoldsMove holds.old holds.new number session.old.own own }
{
    free_own(holds, &session.own);
    tell_own(holds, number, &own);
    session.own = own;
    session.savepoints.keep(count);
}
