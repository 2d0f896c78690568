ghost use Rattle.std.specs.Prelude.{◌≡◌, IfOk, IsErrOf};
ghost use Rattle.sql_eval.specs.Check.{check_of, first_fault};
ghost use Rattle.sql_eval.specs.SchemaNames.{numbered, table_number, table_of};
ghost use Rattle.sql_tree.specs.Plain.{plan_of};

use crate::error::CheckErr;
use crate::ready::Ready;
use crate::scope::Scope;
use crate::statement_kinds::keeps_kinds;
use crate::statement_names::{
    MissingBind, draws_unknown_sequence, gives_column_twice, lists_unknown_column,
    misplaces_column, names_unknown_table, statement_table,
};
use desk_schema::Schema;
use desk_values::{Binds, Fault};
use sql_tree::Statement;
use std::alloc::Global;

/// The statement with numbers for names, for these binds.
///
/// # Errors
///
/// `Refused` has the first of these faults that applies anywhere in the statement:
///
/// 1. `UnknownTable`: no table of the schema has that name.
/// 2. `UnknownColumn`: the table lacks a column; an INSERT's list or an UPDATE has one two times; an INSERT's input
///    mentions a column or ROWID.
/// 3. `UnknownSequence`: no sequence has that name.
/// 4. `BindMissing`: a bind was not given.
/// 5. `Kinds`: parts that do not go together, or more or fewer inputs than columns.
///
/// `Memory` says nothing of the statement.
pub fn check(
    alloc: Global,
    schema: &Schema,
    st: &Statement,
    binds: &Binds,
) -> Result<Ready, CheckErr>
    ensures ok { IfOk result (λ ready. check_of schema.now binds.now (plan_of st.now) ≡ Ok (plan_of ready)) }
    ensures refused { (fault : Fault) → IsErrOf result (CheckErr.Refused fault)
        → check_of schema.now binds.now (plan_of st.now) ≡ Err fault }
{
    let table = statement_table(schema, st);
    let scope = Scope { schema, table };
    let ready = st.renamed(alloc, &scope)?;
    match first_fault(scope, st, binds, &ready) {
        Some(fault) => Err(CheckErr::Refused(fault)),
        None => Ok(ready),
    }
}

/// The first fault of a statement, of which `ready` is the same with numbers for names.
#[tactic(auto, using(crate::proofs::Mapped::given_twice), unfolding(crate::specs::Check::first_fault))]
fn first_fault(scope: Scope<'_>, st: &Statement, binds: &Binds, ready: &Ready) -> Option<Fault>
    requires table { scope.table ≡ table_number scope.schema.now.tables (table_of (plan_of st.now)) }
    requires numbered { plan_of ready.now ≡ numbered scope.schema.now (plan_of st.now) }
    ensures { result ≡ first_fault scope.entry.schema.now binds.now (plan_of st.now) }
{
    if names_unknown_table(scope.schema, st) {
        return Some(Fault::UnknownTable);
    }
    if misplaces_column(scope, st) || lists_unknown_column(scope, st) || gives_column_twice(ready) {
        return Some(Fault::UnknownColumn);
    }
    if draws_unknown_sequence(scope, st) {
        return Some(Fault::UnknownSequence);
    }
    if st.any_leaf(&MissingBind { count: binds.len() }) {
        return Some(Fault::BindMissing);
    }
    if !keeps_kinds(scope, binds, ready) {
        return Some(Fault::Kinds);
    }
    None
}
