//! Which calls are SELECTs that hold nothing.

ghost use Rattle.std.specs.Prelude.{◌≡◌, IfOk};
ghost use Rattle.sql_reader.specs.Reading.{statement_of};
ghost use Rattle.sql_tree.specs.Plain.{plan_of};
ghost use Rattle.fence_law.specs.Plain.{holds_nothing, is_plain_select, reads_only};

use desk_values::{Call, Memory, Txt};
use sql_reader::{SqlErr, Statement, read_statement};
use std::alloc::Global;

/// Whether the text of a call spells a SELECT without FOR UPDATE.
pub fn is_plain_select(alloc: Global, call: &Call) -> Result<bool, Memory>
    ensures { IfOk result (λ plain. plain ≡ is_plain_select call.now) }
{
    match call {
        Call::Sql(text, _) => reads_only(alloc, text),
        Call::Connect(_) => Ok(false),
        Call::Disconnect => Ok(false),
    }
}

fn reads_only(alloc: Global, text: &Txt) -> Result<bool, Memory>
    ensures { IfOk result (λ reads. reads ≡ reads_only (statement_of text.now)) }
{
    match read_statement(alloc, text) {
        Ok(statement) => Ok(holds_nothing(&statement)),
        Err(SqlErr::Syntax) => Ok(false),
        Err(SqlErr::Memory) => Err(Memory),
    }
}

fn holds_nothing(statement: &Statement) -> bool
    ensures { result ≡ holds_nothing (plan_of statement.now) }
{
    match statement {
        Statement::Select(_, _, _, _, for_update) => !*for_update,
        _ => false,
    }
}
