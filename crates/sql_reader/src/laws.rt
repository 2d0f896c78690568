//! Laws of what a text spells and of what is written. A call does nothing: its clause is the law.

ghost use Rattle.std.specs.Prelude.{◌≡◌, ◌↔◌, ◌≤◌, ℕ, List, Some};
ghost use Rattle.sql_reader.specs.declared.token.Token.{Token};
ghost use Rattle.sql_reader.specs.Asking.{AsksIfSelect};
ghost use Rattle.sql_reader.specs.Grammar.{IsStatementOf};
ghost use Rattle.sql_reader.specs.Reading.{statement_of};
ghost use Rattle.sql_reader.specs.Spelling.{Spells};
ghost use Rattle.sql_reader.specs.Written.{opened, statement_tokens};
ghost use Rattle.sql_tree.specs.Plain.{Plan, Name};

/// The function by which a text is read is `Some` exactly where the text spells that statement.
pub fn statement_as_spelled()
    ensures { (text : List ℕ) (statement : Plan Name) → (statement_of text ≡ Some statement) ↔ Spells text statement }
{}

/// A text spells at most one statement.
pub fn one_statement()
    ensures { (text : List ℕ) (a b : Plan Name) → Spells text a → Spells text b → a ≡ b }
{}

/// No tokens that are the statement have fewer parentheses than those that are written.
pub fn fewest_parentheses()
    ensures { (statement : Plan Name) (tokens : List Token) → IsStatementOf tokens statement
        → opened (statement_tokens statement) ≤ opened tokens }
{}

/// A SELECT that is read asks for all columns or for at least one item.
pub fn selects_ask()
    ensures { (text : List ℕ) (statement : Plan Name) → statement_of text ≡ Some statement → AsksIfSelect statement }
{}
