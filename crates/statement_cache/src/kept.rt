//! What a text is, once it was read and checked.

ghost use Rattle.std.specs.Prelude.{◌≡◌, IfOk};
ghost use Rattle.statement_cache.specs.Kept.{outcome_of, outcome_of_text};

use desk_schema::Schema;
use desk_values::{Binds, Fault, Memory, Txt};
use sql_eval::{CheckErr, Ready, check};
use sql_reader::{SqlErr, read_statement};
use std::alloc::Global;

/// What a text is to a server.
#[derive(Drop)]
pub enum Kept {
    /// A statement that the checks pass, with numbers for names.
    Checked(Ready),
    /// A statement that a check refuses.
    Refused(Fault),
    /// No statement.
    Unreadable,
}

/// What a text is to a server of this schema with these binds.
pub fn read_kept(alloc: Global, schema: &Schema, text: &Txt, binds: &Binds) -> Result<Kept, Memory>
    ensures { IfOk result (λ kept. outcome_of_text schema.now text.now binds.now ≡ outcome_of kept) }
{
    let statement = match read_statement(alloc, text) {
        Ok(statement) => statement,
        Err(SqlErr::Syntax) => return Ok(Kept::Unreadable),
        Err(SqlErr::Memory) => return Err(Memory),
    };
    match check(alloc, schema, &statement, binds) {
        Ok(ready) => Ok(Kept::Checked(ready)),
        Err(CheckErr::Refused(fault)) => Ok(Kept::Refused(fault)),
        Err(CheckErr::Memory) => Err(Memory),
    }
}
