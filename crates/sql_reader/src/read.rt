ghost use Rattle.std.specs.Prelude.{◌≡◌, ℕ, List, Some, IfOk};
ghost use Rattle.sql_tree.specs.Plain.{Plan, plan_of, Name};
ghost use Rattle.sql_reader.specs.Spelling.{Spells, IsStatement, Returns};
ghost use Rattle.sql_reader.specs.Reading.{statement_of};

use crate::error::SqlErr;
use crate::scanner::scan;
use crate::sentences::statement;
use crate::tree::Statement;
use desk_values::Txt;
use std::alloc::Global;

/// The one statement that the text spells: a part of SQL as ISO/IEC 9075-2 has it, with some forms of Oracle's (see
/// [`Statement`]). Words and names may be in either case, any spaces, tabs and line ends may stand between
/// tokens, and one `;` may end the statement.
///
/// # Errors
///
/// `Syntax` exactly where the text spells no statement, and `Memory` where memory runs out.
pub fn read_statement(alloc: Global, text: &Txt) -> Result<Statement, SqlErr>
    // What is given is a function of the text.
    ensures reads { Returns plan_of result (statement_of text.now) }
    // The text spells it.
    ensures ok { IfOk result (λ statement. Spells text.now (plan_of statement)) }
    // It can be written.
    ensures written { IfOk result (λ statement. IsStatement (plan_of statement)) }
    // What the text spells is given, unless memory runs out.
    ensures only { (statement : Plan Name) → Spells text.now statement → Returns plan_of result (Some statement) }
{
    read(alloc, text.as_str().as_bytes())
}

#[tactic(auto, unfolding(crate::specs::Reading::statement_of))]
fn read(alloc: Global, text: &[u8]) -> Result<Statement, SqlErr>
    ensures { Returns plan_of result (statement_of text.now) }
{
    let tokens = scan(alloc, text)?;
    statement(alloc, &tokens)
}
