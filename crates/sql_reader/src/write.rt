ghost use Rattle.std.specs.Prelude.{◌≡◌, ◌≤◌, List, IfOk};
ghost use Rattle.sql_reader.specs.declared.token.Token.{Token};
ghost use Rattle.sql_reader.specs.Grammar.{IsStatementOf};
ghost use Rattle.sql_tree.specs.Plain.{Plan, plan_of, Name};
ghost use Rattle.sql_reader.specs.Spelling.{Spells, IsStatement};
ghost use Rattle.sql_reader.specs.Written.{opened, statement_tokens, written};

use crate::tree::Statement;
use crate::writer::text;
use desk_values::{Bytes, Memory};
use std::alloc::Global;

/// One text that spells the statement, one that some text spells: words of the language in upper case, names in
/// lower case, tokens a single space apart, no zero before a number's first digit, `<>` for what differs, no `;`, and
/// parentheses only where the tree needs them. It may have over 1,000 bytes, and then it is no [`Txt`].
///
/// [`Txt`]: desk_values::Txt
///
/// # Errors
///
/// `Memory` where memory runs out.
pub fn write_statement(alloc: Global, statement: &Statement) -> Result<Bytes, Memory>
    requires { IsStatement (plan_of statement.now) }
    ensures written { IfOk result (λ bytes. bytes ≡ written (plan_of statement.now)) }
    ensures spells { IfOk result (λ bytes. Spells bytes (plan_of statement.now)) }
{
    text(alloc, statement)
}
