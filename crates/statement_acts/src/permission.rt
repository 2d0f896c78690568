//! What a session's rights and its transaction forbid.

ghost use Rattle.std.specs.Prelude.{◌≡◌};
ghost use Rattle.sql_tree.specs.Plain.{plan_of};
ghost use Rattle.server_words.specs.View.{plain_view};
ghost use Rattle.server_words.specs.Causes.{is_under_way, lacks_savepoint, needs_write_access, sets_read_only, statement_fault};

use desk_schema::Rights;
use desk_values::Fault;
use server_words::Session;
use sql_eval::Ready;

/// The fault of a checked statement for the session's rights and transaction.
#[tactic(auto, unfolding(server_words::specs::Causes::statement_fault))]
pub fn statement_fault(session: &Session, ready: &Ready) -> Option<Fault>
    ensures { result ≡ statement_fault (plain_view session.now) (plan_of ready.now) }
{
    let Some(rights) = session.rights else {
        return Some(Fault::NotConnected);
    };
    let reads_only = rights == Rights::ReadOnly || session.snapshot.is_some();
    if reads_only && needs_write_access(ready) {
        Some(Fault::ReadOnly)
    } else if matches!(ready, Ready::SetReadOnly) && is_under_way(session) {
        Some(Fault::UnderWay)
    } else if lacks_savepoint(session, ready) {
        Some(Fault::NoSavepoint)
    } else {
        None
    }
}

/// Whether the statement writes, holds rows or draws.
fn needs_write_access(ready: &Ready) -> bool
    ensures { result ≡ needs_write_access (plan_of ready.now) }
{
    match ready {
        Ready::Select(_, _, _, _, for_update) => *for_update,
        Ready::Next(_) | Ready::Insert(..) | Ready::Update(..) | Ready::Delete(..) => true,
        Ready::Commit | Ready::Rollback | Ready::SetReadOnly => false,
        Ready::Savepoint(_) | Ready::RollbackTo(_) => false,
    }
}

/// Whether the statement goes back to a savepoint that the session does not have.
fn lacks_savepoint(session: &Session, ready: &Ready) -> bool
    ensures { result ≡ lacks_savepoint (plain_view session.now) (plan_of ready.now) }
{
    match ready {
        Ready::RollbackTo(name) => session.savepoints.place_of(name).is_none(),
        _ => false,
    }
}

/// Whether the session's transaction only reads, or has changes or savepoints, or holds something.
fn is_under_way(session: &Session) -> bool
    ensures { result ≡ is_under_way (plain_view session.now) }
{
    session.snapshot.is_some()
        || session.own.changes.len() > 0
        || session.own.rows.len() > 0
        || session.own.keys.len() > 0
        || session.savepoints.len() > 0
}
