//! From tokens to statements, by the rules of the grammar above expressions.

ghost use Rattle.std.specs.Prelude.{◌≡◌, map, ◌∷◌, [], List, Option};
ghost use Rattle.sql_reader.specs.declared.token.Token.{Token as OneToken};
ghost use Rattle.sql_tree.specs.Plain.{Term, Total, Entry, Change, term_of, condition_of, total_of, entry_of, change_of, asked_of, plan_of, Name};
ghost use Rattle.sql_reader.specs.Spelling.{Returns};
ghost use Rattle.sql_reader.specs.Inside.{Finds};
ghost use Rattle.sql_reader.specs.Reading.{expression_at, list_at, name_at, key_at, enclosed_at, counted_at, aggregate_at, draw_at, input_at, setting_at, where_at, order_at, for_update_at, from_at, is_aggregate_word, begins_aggregate, aggregates_at, rows_at, listed_at, dual_at, items_at, select_at, columns_at, inputs_at, insert_at, update_at, delete_at, set_at, to_at, rollback_at, savepoint_at, body_at, statement_at};
ghost use Rattle.sql_reader.specs.Limits.{list_limit};

use crate::descent::{after_sign, after_word, expect_sign, expect_word, part};
use crate::error::SqlErr;
use crate::part::Part;
use crate::token::{Sign, Token};
use crate::tree::{Agg, Expr, Input, Inputs, Items, Key, Keys, Names, Setting, Statement};
use desk_values::keyword::Keyword;
use desk_values::{Copied, List, Txt};
use std::alloc::Global;

/// How deep an expression may nest.
pub const NESTING_LIMIT: u32 = 32;

/// How many members a list may have.
pub const LIST_LIMIT: usize = 16;

/// What stands in a list with commas.
trait Member: Drop + Sized {
    /// The plain value of a member.
    ghost Plain: { Type 0 };

    ghost view: { Self → Plain };

    /// The member at the front, and the rest.
    ghost reading: { List OneToken → Option (Plain × List OneToken) };

    fn read(alloc: Global, tokens: &[Token]) -> Result<(Self, &[Token]), SqlErr>
        ensures { Returns (λ x. (view x.0, x.1.now)) result (reading tokens.now) };
}

// One to 16 members with commas between them.
fn list<T: Member>(alloc: Global, tokens: &[Token]) -> Result<(List<T>, &[Token]), SqlErr>
    ensures { Returns (λ x. (map T.view x.0, x.1.now)) result (list_at T.reading list_limit tokens.now) }
{
    let mut list = List::new(alloc);
    let mut rest = tokens;
    for _ in 0..LIST_LIMIT {
        let (member, after) = T::read(alloc, rest)?;
        list.push(member)?;
        match after_sign(Sign::Comma, after) {
            Some(more) => rest = more,
            None => return Ok((list, after)),
        }
    }
    Err(SqlErr::Syntax)
}

impl Member for Expr {
    ghost use Rattle.sql_tree.specs.Plain.{Term as Tree, Name, term_of as tree};
    ghost use Rattle.sql_reader.specs.Reading.{expression_at as read_expression};

    ghost Plain = { Tree Name };

    ghost view = { tree };

    ghost reading = { read_expression };

    fn read(alloc: Global, tokens: &[Token]) -> Result<(Expr, &[Token]), SqlErr> {
        expression(alloc, tokens)
    }
}

/// The expression at the front, and the rest.
pub fn expression(alloc: Global, tokens: &[Token]) -> Result<(Expr, &[Token]), SqlErr>
    ensures { Returns (λ x. (term_of x.0, x.1.now)) result (expression_at tokens.now) }
{
    part(alloc, Part::Disjunction, tokens, NESTING_LIMIT)
}

/// The name at the front, and the rest.
#[tactic(auto, unfolding(crate::specs::Reading::name_at))]
pub fn name(tokens: &[Token]) -> Result<(Txt, &[Token]), SqlErr>
    ensures { Returns (λ x. (x.0, x.1.now)) result (name_at tokens.now) }
{
    match tokens {
        [Token::Name(name), rest @ ..] => Ok((name.copy()?, rest)),
        _ => Err(SqlErr::Syntax),
    }
}

impl Member for Txt {
    ghost use Rattle.std.specs.Prelude.{ℕ, List as Bytes};
    ghost use Rattle.sql_reader.specs.Reading.{name_at as reading_of};

    ghost Plain = { Bytes ℕ };

    ghost view = { λ name. name };

    ghost reading = { reading_of };

    fn read(_alloc: Global, tokens: &[Token]) -> Result<(Txt, &[Token]), SqlErr> {
        name(tokens)
    }
}

#[tactic(auto, unfolding(crate::specs::Reading::key_at))]
fn key(tokens: &[Token]) -> Result<(Key, &[Token]), SqlErr>
    ensures { Returns (λ x. (x.0, x.1.now)) result (key_at tokens.now) }
{
    let (column, after) = name(tokens)?;
    if let Some(rest) = after_word(Keyword::Desc, after) {
        return Ok((Key { column, desc: true }, rest));
    }
    match after_word(Keyword::Asc, after) {
        Some(rest) => Ok((
            Key {
                column,
                desc: false,
            },
            rest,
        )),
        None => Ok((
            Key {
                column,
                desc: false,
            },
            after,
        )),
    }
}

impl Member for Key {
    ghost use Rattle.sql_tree.specs.declared.tree.Key.{Key as Plainly};
    ghost use Rattle.sql_tree.specs.Plain.{Name};
    ghost use Rattle.sql_reader.specs.Reading.{key_at as reading_of};

    ghost Plain = { Plainly Name };

    ghost view = { λ key. key };

    ghost reading = { reading_of };

    fn read(_alloc: Global, tokens: &[Token]) -> Result<(Key, &[Token]), SqlErr> {
        key(tokens)
    }
}

// An expression in parentheses.
#[tactic(auto, unfolding(crate::specs::Reading::enclosed_at))]
fn enclosed(alloc: Global, tokens: &[Token]) -> Result<(Expr, &[Token]), SqlErr>
    ensures { Returns (λ x. (term_of x.0, x.1.now)) result (enclosed_at tokens.now) }
{
    let inside = expect_sign(Sign::Open, tokens)?;
    let (expr, after) = expression(alloc, inside)?;
    Ok((expr, expect_sign(Sign::Close, after)?))
}

// A star in parentheses.
#[tactic(auto, unfolding(crate::specs::Reading::counted_at))]
fn counted(tokens: &[Token]) -> Result<&[Token], SqlErr>
    ensures { Returns (λ rest. rest.now) result (counted_at tokens.now) }
{
    let inside = expect_sign(Sign::Open, tokens)?;
    let after = expect_sign(Sign::Star, inside)?;
    expect_sign(Sign::Close, after)
}

#[tactic(auto, unfolding(crate::specs::Reading::aggregate_at))]
fn aggregate(alloc: Global, tokens: &[Token]) -> Result<(Agg, &[Token]), SqlErr>
    ensures { Returns (λ x. (total_of x.0, x.1.now)) result (aggregate_at tokens.now) }
{
    let [Token::Word(word), rest @ ..] = tokens else {
        return Err(SqlErr::Syntax);
    };
    match word {
        Keyword::Count => Ok((Agg::Count, counted(rest)?)),
        Keyword::Sum => {
            let (of, after) = enclosed(alloc, rest)?;
            Ok((Agg::Sum(of), after))
        }
        Keyword::Min => {
            let (of, after) = enclosed(alloc, rest)?;
            Ok((Agg::Min(of), after))
        }
        Keyword::Max => {
            let (of, after) = enclosed(alloc, rest)?;
            Ok((Agg::Max(of), after))
        }
        _ => Err(SqlErr::Syntax),
    }
}

impl Member for Agg {
    ghost use Rattle.sql_tree.specs.Plain.{Total as Plainly, Name, total_of as plain};
    ghost use Rattle.sql_reader.specs.Reading.{aggregate_at as reading_of};

    ghost Plain = { Plainly Name };

    ghost view = { plain };

    ghost reading = { reading_of };

    fn read(alloc: Global, tokens: &[Token]) -> Result<(Agg, &[Token]), SqlErr> {
        aggregate(alloc, tokens)
    }
}

// A name, a point and NEXTVAL, where they are first.
#[tactic(auto, unfolding(crate::specs::Reading::draw_at))]
fn draw(tokens: &[Token]) -> Option<(&Txt, &[Token])>
    ensures { Finds (λ x. (x.0.now, x.1.now)) result (draw_at tokens.now) }
{
    let (name, after) = first_name(tokens)?;
    let after_dot = after_sign(Sign::Dot, after)?;
    let rest = after_word(Keyword::Nextval, after_dot)?;
    Some((name, rest))
}

#[tactic(auto, unfolding(crate::specs::Reading::name_at))]
fn first_name(tokens: &[Token]) -> Option<(&Txt, &[Token])>
    ensures { Finds (λ x. (x.0.now, x.1.now)) result (name_at tokens.now) }
{
    match tokens {
        [Token::Name(name), rest @ ..] => Some((name, rest)),
        _ => None,
    }
}

#[tactic(auto, unfolding(crate::specs::Reading::input_at))]
fn input(alloc: Global, tokens: &[Token]) -> Result<(Input, &[Token]), SqlErr>
    ensures { Returns (λ x. (entry_of x.0, x.1.now)) result (input_at tokens.now) }
{
    if let Some((sequence, rest)) = draw(tokens) {
        return Ok((Input::Next(sequence.copy()?), rest));
    }
    let (value, rest) = expression(alloc, tokens)?;
    Ok((Input::Expr(value), rest))
}

impl Member for Input {
    ghost use Rattle.sql_tree.specs.Plain.{Entry as Plainly, Name, entry_of as plain};
    ghost use Rattle.sql_reader.specs.Reading.{input_at as reading_of};

    ghost Plain = { Plainly Name };

    ghost view = { plain };

    ghost reading = { reading_of };

    fn read(alloc: Global, tokens: &[Token]) -> Result<(Input, &[Token]), SqlErr> {
        input(alloc, tokens)
    }
}

#[tactic(auto, unfolding(crate::specs::Reading::setting_at))]
fn setting(alloc: Global, tokens: &[Token]) -> Result<(Setting, &[Token]), SqlErr>
    ensures { Returns (λ x. (change_of x.0, x.1.now)) result (setting_at tokens.now) }
{
    let (column, after) = name(tokens)?;
    let after_equal = expect_sign(Sign::Equal, after)?;
    let (to, rest) = expression(alloc, after_equal)?;
    Ok((Setting { column, to }, rest))
}

impl Member for Setting {
    ghost use Rattle.sql_tree.specs.Plain.{Change as Plainly, Name, change_of as plain};
    ghost use Rattle.sql_reader.specs.Reading.{setting_at as reading_of};

    ghost Plain = { Plainly Name };

    ghost view = { plain };

    ghost reading = { reading_of };

    fn read(alloc: Global, tokens: &[Token]) -> Result<(Setting, &[Token]), SqlErr> {
        setting(alloc, tokens)
    }
}

#[tactic(auto, unfolding(crate::specs::Reading::where_at))]
fn condition(alloc: Global, tokens: &[Token]) -> Result<(Option<Expr>, &[Token]), SqlErr>
    ensures { Returns (λ x. (condition_of x.0, x.1.now)) result (where_at tokens.now) }
{
    let Some(after) = after_word(Keyword::Where, tokens) else {
        return Ok((None, tokens));
    };
    let (expr, rest) = expression(alloc, after)?;
    Ok((Some(expr), rest))
}

#[tactic(auto, unfolding(crate::specs::Reading::order_at))]
fn order(alloc: Global, tokens: &[Token]) -> Result<(Keys, &[Token]), SqlErr>
    ensures { Returns (λ x. (x.0, x.1.now)) result (order_at tokens.now) }
{
    let Some(after) = after_word(Keyword::Order, tokens) else {
        return Ok((List::new(alloc), tokens));
    };
    list(alloc, expect_word(Keyword::By, after)?)
}

#[tactic(auto, unfolding(crate::specs::Reading::for_update_at))]
fn for_update(tokens: &[Token]) -> Result<(bool, &[Token]), SqlErr>
    ensures { Returns (λ x. (x.0, x.1.now)) result (for_update_at tokens.now) }
{
    match after_word(Keyword::For, tokens) {
        Some(after) => Ok((true, expect_word(Keyword::Update, after)?)),
        None => Ok((false, tokens)),
    }
}

// FROM and the table.
#[tactic(auto, unfolding(crate::specs::Reading::from_at))]
fn from(tokens: &[Token]) -> Result<(Txt, &[Token]), SqlErr>
    ensures { Returns (λ x. (x.0, x.1.now)) result (from_at tokens.now) }
{
    name(expect_word(Keyword::From, tokens)?)
}

fn is_aggregate(tokens: &[Token]) -> bool
    ensures { result ≡ begins_aggregate tokens.now }
{
    match tokens {
        [Token::Word(word), ..] => aggregate_word(*word),
        _ => false,
    }
}

fn aggregate_word(word: Keyword) -> bool
    ensures { result ≡ is_aggregate_word word }
{
    matches!(
        word,
        Keyword::Count | Keyword::Sum | Keyword::Min | Keyword::Max
    )
}

#[tactic(auto, unfolding(crate::specs::Reading::aggregates_at))]
fn select_aggregates(alloc: Global, tokens: &[Token]) -> Result<(Statement, &[Token]), SqlErr>
    ensures { Returns (λ x. (plan_of x.0, x.1.now)) result (aggregates_at tokens.now) }
{
    let (aggs, after) = list(alloc, tokens)?;
    let (table, after) = from(after)?;
    let (condition, rest) = condition(alloc, after)?;
    let keys = List::new(alloc);
    Ok((
        Statement::Select(table, Items::Aggs(aggs), condition, keys, false),
        rest,
    ))
}

// What comes after the items of a SELECT of rows.
#[tactic(auto, unfolding(crate::specs::Reading::rows_at))]
fn select_rows(
    alloc: Global,
    items: Items,
    tokens: &[Token],
) -> Result<(Statement, &[Token]), SqlErr>
    ensures { Returns (λ x. (plan_of x.0, x.1.now)) result (rows_at (asked_of items) tokens.now) }
{
    let (table, after) = from(tokens)?;
    let (condition, after) = condition(alloc, after)?;
    let (keys, after) = order(alloc, after)?;
    let (held, rest) = for_update(after)?;
    Ok((Statement::Select(table, items, condition, keys, held), rest))
}

fn select_listed(alloc: Global, tokens: &[Token]) -> Result<(Statement, &[Token]), SqlErr>
    ensures { Returns (λ x. (plan_of x.0, x.1.now)) result (listed_at tokens.now) }
{
    let (exprs, after) = list(alloc, tokens)?;
    select_rows(alloc, Items::Exprs(exprs), after)
}

#[tactic(auto, unfolding(crate::specs::Reading::dual_at))]
fn dual(tokens: &[Token]) -> Result<&[Token], SqlErr>
    ensures { Returns (λ rest. rest.now) result (dual_at tokens.now) }
{
    expect_word(Keyword::Dual, expect_word(Keyword::From, tokens)?)
}

fn select_items(alloc: Global, tokens: &[Token]) -> Result<(Statement, &[Token]), SqlErr>
    ensures { Returns (λ x. (plan_of x.0, x.1.now)) result (items_at tokens.now) }
{
    if let Some(after) = after_sign(Sign::Star, tokens) {
        return select_rows(alloc, Items::All, after);
    }
    if is_aggregate(tokens) {
        select_aggregates(alloc, tokens)
    } else {
        select_listed(alloc, tokens)
    }
}

#[tactic(auto, unfolding(crate::specs::Reading::select_at))]
fn select(alloc: Global, tokens: &[Token]) -> Result<(Statement, &[Token]), SqlErr>
    ensures { Returns (λ x. (plan_of x.0, x.1.now)) result (select_at tokens.now) }
{
    if let Some((sequence, after)) = draw(tokens) {
        let rest = dual(after)?;
        return Ok((Statement::Next(sequence.copy()?), rest));
    }
    select_items(alloc, tokens)
}

#[tactic(auto, unfolding(crate::specs::Reading::columns_at))]
fn columns(alloc: Global, tokens: &[Token]) -> Result<(Option<Names>, &[Token]), SqlErr>
    ensures { Returns (λ x. (x.0, x.1.now)) result (columns_at tokens.now) }
{
    let Some(inside) = after_sign(Sign::Open, tokens) else {
        return Ok((None, tokens));
    };
    let (names, after) = list(alloc, inside)?;
    Ok((Some(names), expect_sign(Sign::Close, after)?))
}

#[tactic(auto, unfolding(crate::specs::Reading::inputs_at))]
fn inputs(alloc: Global, tokens: &[Token]) -> Result<(Inputs, &[Token]), SqlErr>
    ensures { Returns (λ x. (map entry_of x.0, x.1.now)) result (inputs_at tokens.now) }
{
    let after = expect_word(Keyword::Values, tokens)?;
    let inside = expect_sign(Sign::Open, after)?;
    let (inputs, after) = list(alloc, inside)?;
    Ok((inputs, expect_sign(Sign::Close, after)?))
}

#[tactic(auto, unfolding(crate::specs::Reading::insert_at))]
fn insert(alloc: Global, tokens: &[Token]) -> Result<(Statement, &[Token]), SqlErr>
    ensures { Returns (λ x. (plan_of x.0, x.1.now)) result (insert_at tokens.now) }
{
    let after = expect_word(Keyword::Into, tokens)?;
    let (table, after) = name(after)?;
    let (names, after) = columns(alloc, after)?;
    let (inputs, rest) = inputs(alloc, after)?;
    Ok((Statement::Insert(table, names, inputs), rest))
}

#[tactic(auto, unfolding(crate::specs::Reading::update_at))]
fn update(alloc: Global, tokens: &[Token]) -> Result<(Statement, &[Token]), SqlErr>
    ensures { Returns (λ x. (plan_of x.0, x.1.now)) result (update_at tokens.now) }
{
    let (table, after) = name(tokens)?;
    let after = expect_word(Keyword::Set, after)?;
    let (sets, after) = list(alloc, after)?;
    let (condition, rest) = condition(alloc, after)?;
    Ok((Statement::Update(table, sets, condition), rest))
}

#[tactic(auto, unfolding(crate::specs::Reading::delete_at))]
fn delete(alloc: Global, tokens: &[Token]) -> Result<(Statement, &[Token]), SqlErr>
    ensures { Returns (λ x. (plan_of x.0, x.1.now)) result (delete_at tokens.now) }
{
    let (table, after) = from(tokens)?;
    let (condition, rest) = condition(alloc, after)?;
    Ok((Statement::Delete(table, condition), rest))
}

#[tactic(auto, unfolding(crate::specs::Reading::set_at))]
fn set_transaction(tokens: &[Token]) -> Result<(Statement, &[Token]), SqlErr>
    ensures { Returns (λ x. (plan_of x.0, x.1.now)) result (set_at tokens.now) }
{
    let after = expect_word(Keyword::Transaction, tokens)?;
    let after = expect_word(Keyword::Read, after)?;
    Ok((Statement::SetReadOnly, expect_word(Keyword::Only, after)?))
}

// What comes after ROLLBACK TO, where SAVEPOINT may be left out.
#[tactic(auto, unfolding(crate::specs::Reading::to_at))]
fn rollback_to(tokens: &[Token]) -> Result<(Statement, &[Token]), SqlErr>
    ensures { Returns (λ x. (plan_of x.0, x.1.now)) result (to_at tokens.now) }
{
    let after = match after_word(Keyword::Savepoint, tokens) {
        Some(rest) => rest,
        None => tokens,
    };
    let (savepoint, rest) = name(after)?;
    Ok((Statement::RollbackTo(savepoint), rest))
}

#[tactic(auto, unfolding(crate::specs::Reading::rollback_at))]
fn rollback(tokens: &[Token]) -> Result<(Statement, &[Token]), SqlErr>
    ensures { Returns (λ x. (plan_of x.0, x.1.now)) result (rollback_at tokens.now) }
{
    match after_word(Keyword::To, tokens) {
        Some(after) => rollback_to(after),
        None => Ok((Statement::Rollback, tokens)),
    }
}

#[tactic(auto, unfolding(crate::specs::Reading::savepoint_at))]
fn savepoint(tokens: &[Token]) -> Result<(Statement, &[Token]), SqlErr>
    ensures { Returns (λ x. (plan_of x.0, x.1.now)) result (savepoint_at tokens.now) }
{
    let (savepoint, rest) = name(tokens)?;
    Ok((Statement::Savepoint(savepoint), rest))
}

#[tactic(auto, unfolding(crate::specs::Reading::body_at))]
fn body(alloc: Global, tokens: &[Token]) -> Result<(Statement, &[Token]), SqlErr>
    ensures { Returns (λ x. (plan_of x.0, x.1.now)) result (body_at tokens.now) }
{
    let [Token::Word(word), rest @ ..] = tokens else {
        return Err(SqlErr::Syntax);
    };
    match word {
        Keyword::Select => select(alloc, rest),
        Keyword::Insert => insert(alloc, rest),
        Keyword::Update => update(alloc, rest),
        Keyword::Delete => delete(alloc, rest),
        Keyword::Commit => Ok((Statement::Commit, rest)),
        Keyword::Rollback => rollback(rest),
        Keyword::Savepoint => savepoint(rest),
        Keyword::Set => set_transaction(rest),
        _ => Err(SqlErr::Syntax),
    }
}

/// The statement that the tokens are.
#[tactic(auto, unfolding(crate::specs::Reading::statement_at))]
pub fn statement(alloc: Global, tokens: &[Token]) -> Result<Statement, SqlErr>
    ensures { Returns plan_of result (statement_at tokens.now) }
{
    let (statement, after) = body(alloc, tokens)?;
    let rest = match after_sign(Sign::Semicolon, after) {
        Some(rest) => rest,
        None => after,
    };
    if !rest.is_empty() {
        return Err(SqlErr::Syntax);
    }
    Ok(statement)
}
