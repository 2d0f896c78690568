//! From trees to text, token by token, each after one space. A chain of operators leans to the left, so this goes
//! some 500 levels deep at most, with a small frame each.

ghost use Rattle.std.specs.Prelude.{◌≡◌, ◌++◌, ◌∷◌, [], OnOk, IfOk, List, map};
ghost use Rattle.std.specs.List.{flat_map};
ghost use Rattle.std.specs.Char.{to_ascii_uppercase};
ghost use Rattle.sql_reader.specs.declared.token.Token.{Token as OneToken};
ghost use Rattle.sql_reader.specs.declared.token.Token.TheVariants as token;
ghost use Rattle.sql_tree.specs.Plain.{term_of, condition_of, total_of, entry_of, change_of, asked_of, plan_of, select, next};
ghost use Rattle.sql_reader.specs.Lexical.{quoted};
ghost use Rattle.sql_reader.specs.Grammar.{operator_token};
ghost use Rattle.desk_values.specs.Keyword.{keyword_word};
ghost use Rattle.sql_reader.specs.Written.{part_of, bare_tokens, expression_tokens, joined, aggregate_tokens, given_tokens, assignment_tokens, key_tokens, name_tokens, selection_tokens, where_tokens, order_tokens, for_update_tokens, columns_tokens, called, whole, inputs_tokens, further_tokens, first_word, written};
ghost use Rattle.sql_reader.specs.Inside.{spaced, spaced_all};

use crate::part::Part;
use crate::token::Sign;
use crate::tree::{
    Agg, Expr, Input, Inputs, Items, Key, Keys, Names, Op, Sets, Setting, Statement,
};
use desk_values::fields::{append_i64, append_u64};
use desk_values::keyword::Keyword;
use desk_values::{Bytes, List, Memory, Txt};
use std::alloc::Global;

fn upper(out: &mut Bytes, keyword: Keyword) -> Result<(), Memory>
    ensures { OnOk result (out.new ≡ out.old ++ map to_ascii_uppercase (keyword_word keyword)) }
{
    for byte in keyword.word() {
        out.push(byte.to_ascii_uppercase())?;
    }
    Ok(())
}

#[tactic(auto, unfolding(crate::specs::Inside::spaced))]
fn word(out: &mut Bytes, keyword: Keyword) -> Result<(), Memory>
    ensures { OnOk result (out.new ≡ out.old ++ spaced (token.Word keyword)) }
{
    out.push(b' ')?;
    upper(out, keyword)
}

#[tactic(auto, unfolding(crate::specs::Inside::spaced))]
fn sign(out: &mut Bytes, sign: Sign) -> Result<(), Memory>
    ensures { OnOk result (out.new ≡ out.old ++ spaced (token.Sign sign)) }
{
    out.push(b' ')?;
    out.append(sign.text())
}

#[tactic(auto, unfolding(crate::specs::Inside::spaced))]
fn name(out: &mut Bytes, name: &Txt) -> Result<(), Memory>
    ensures { OnOk result (out.new ≡ out.old ++ spaced (token.Name name.now)) }
{
    out.push(b' ')?;
    out.append(name.as_str().as_bytes())
}

#[tactic(auto, unfolding(crate::specs::Inside::spaced))]
fn number(out: &mut Bytes, number: i64) -> Result<(), Memory>
    ensures { OnOk result (out.new ≡ out.old ++ spaced (token.Number number)) }
{
    out.push(b' ')?;
    append_i64(number, out)
}

#[tactic(auto, unfolding(crate::specs::Inside::spaced))]
fn bind(out: &mut Bytes, number: u32) -> Result<(), Memory>
    ensures { OnOk result (out.new ≡ out.old ++ spaced (token.Bind number)) }
{
    out.push(b' ')?;
    out.push(b':')?;
    append_u64(u64::from(number), out)
}

// The bytes of a string, each quote twice.
fn content(out: &mut Bytes, bytes: &[u8]) -> Result<(), Memory>
    ensures { OnOk result (out.new ≡ out.old ++ flat_map quoted bytes.now) }
{
    for byte in bytes {
        if *byte == b'\'' {
            out.push(b'\'')?;
        }
        out.push(*byte)?;
    }
    Ok(())
}

#[tactic(auto, unfolding(crate::specs::Inside::spaced))]
fn string(out: &mut Bytes, text: &Txt) -> Result<(), Memory>
    ensures { OnOk result (out.new ≡ out.old ++ spaced (token.Text text.now)) }
{
    out.push(b' ')?;
    out.push(b'\'')?;
    content(out, text.as_str().as_bytes())?;
    out.push(b'\'')
}

fn operator(out: &mut Bytes, op: Op) -> Result<(), Memory>
    ensures { OnOk result (out.new ≡ out.old ++ spaced (operator_token op)) }
{
    match op {
        Op::Or => word(out, Keyword::Or),
        Op::And => word(out, Keyword::And),
        Op::Eq => sign(out, Sign::Equal),
        Op::Ne => sign(out, Sign::NotEqual),
        Op::Lt => sign(out, Sign::Less),
        Op::Le => sign(out, Sign::LessOrEqual),
        Op::Gt => sign(out, Sign::Greater),
        Op::Ge => sign(out, Sign::GreaterOrEqual),
        Op::Add => sign(out, Sign::Plus),
        Op::Sub => sign(out, Sign::Minus),
        Op::Mul => sign(out, Sign::Star),
        Op::Div => sign(out, Sign::Slash),
    }
}

// The part that an expression is without parentheses.
fn part(expr: &Expr) -> Part
    ensures { result ≡ part_of (term_of expr.now) }
{
    match expr {
        Expr::Neg(_) => Part::Factor,
        Expr::Not(_) => Part::Negation,
        Expr::Bin(op, _, _) => Part::of(*op),
        Expr::IsNull(_) => Part::Comparison,
        Expr::NotNull(_) => Part::Comparison,
        Expr::Null => Part::Primary,
        Expr::Int(_) => Part::Primary,
        Expr::Text(_) => Part::Primary,
        Expr::Bind(_) => Part::Primary,
        Expr::Column(_) => Part::Primary,
        Expr::RowId => Part::Primary,
    }
}

// An expression where the grammar wants that part: in parentheses where the wanted part is tighter than the
// expression.
#[cycle(written)]
fn expression(out: &mut Bytes, wanted: Part, expr: &Expr) -> Result<(), Memory>
    ensures { OnOk result (out.new ≡ out.old ++ spaced_all (expression_tokens wanted (term_of expr.now))) }
{
    if part(expr) <= wanted {
        return bare(out, expr);
    }
    sign(out, Sign::Open)?;
    bare(out, expr)?;
    sign(out, Sign::Close)
}

// An expression without parentheses around it.
#[cycle(written)]
fn bare(out: &mut Bytes, expr: &Expr) -> Result<(), Memory>
    ensures { OnOk result (out.new ≡ out.old ++ spaced_all (bare_tokens (term_of expr.now))) }
{
    match expr {
        Expr::Null => word(out, Keyword::Null),
        Expr::Int(value) => number(out, *value),
        Expr::Text(text) => string(out, text),
        Expr::Bind(place) => bind(out, *place),
        Expr::Column(column) => name(out, column),
        Expr::RowId => word(out, Keyword::Rowid),
        Expr::Neg(of) => {
            sign(out, Sign::Minus)?;
            expression(out, Part::Factor, of)
        }
        Expr::Not(of) => {
            word(out, Keyword::Not)?;
            expression(out, Part::Negation, of)
        }
        Expr::Bin(op, left, right) => {
            expression(out, Part::of(*op).left(), left)?;
            operator(out, *op)?;
            expression(out, Part::of(*op).right(), right)
        }
        Expr::IsNull(of) => {
            expression(out, Part::Sum, of)?;
            word(out, Keyword::Is)?;
            word(out, Keyword::Null)
        }
        Expr::NotNull(of) => {
            expression(out, Part::Sum, of)?;
            word(out, Keyword::Is)?;
            word(out, Keyword::Not)?;
            word(out, Keyword::Null)
        }
    }
}

// What stands in a list with commas.
trait Listed {
    ghost tokens: { Self → List OneToken };

    fn write(&self, out: &mut Bytes) -> Result<(), Memory>
        ensures { OnOk result (out.new ≡ out.old ++ spaced_all (tokens self.now)) };
}

// Members with commas between them.
fn list<T: Listed>(out: &mut Bytes, members: &[T]) -> Result<(), Memory>
    ensures { OnOk result (out.new ≡ out.old ++ spaced_all (joined T.tokens members.now)) }
{
    let Some((first, others)) = members.split_first() else {
        return Ok(());
    };
    first.write(out)?;
    further_members(out, others)
}

// Members with a comma before each.
fn further_members<T: Listed>(out: &mut Bytes, members: &[T]) -> Result<(), Memory>
    ensures { OnOk result (out.new ≡ out.old ++ spaced_all (flat_map (λ y. token.Sign Sign.Comma ∷ T.tokens y) members.now)) }
{
    for member in members {
        sign(out, Sign::Comma)?;
        member.write(out)?;
    }
    Ok(())
}

impl Listed for Expr {
    ghost use Rattle.sql_tree.specs.Plain.{term_of as plain};
    ghost use Rattle.sql_reader.specs.Written.{whole as tokens_of};

    ghost tokens = { λ expr. tokens_of (plain expr) };

    fn write(&self, out: &mut Bytes) -> Result<(), Memory> {
        expression(out, Part::Disjunction, self)
    }
}

// A word and an expression in parentheses.
fn call(out: &mut Bytes, function: Keyword, of: &Expr) -> Result<(), Memory>
    ensures { OnOk result (out.new ≡ out.old ++ spaced_all (called (token.Word function) (term_of of.now))) }
{
    word(out, function)?;
    sign(out, Sign::Open)?;
    expression(out, Part::Disjunction, of)?;
    sign(out, Sign::Close)
}

impl Listed for Agg {
    ghost use Rattle.sql_tree.specs.Plain.{total_of as plain};
    ghost use Rattle.sql_reader.specs.Written.{aggregate_tokens as tokens_of};

    ghost tokens = { λ agg. tokens_of (plain agg) };

    fn write(&self, out: &mut Bytes) -> Result<(), Memory> {
        match self {
            Agg::Count => {
                word(out, Keyword::Count)?;
                sign(out, Sign::Open)?;
                sign(out, Sign::Star)?;
                sign(out, Sign::Close)
            }
            Agg::Sum(of) => call(out, Keyword::Sum, of),
            Agg::Min(of) => call(out, Keyword::Min, of),
            Agg::Max(of) => call(out, Keyword::Max, of),
        }
    }
}

impl Listed for Input {
    ghost use Rattle.sql_tree.specs.Plain.{entry_of as plain};
    ghost use Rattle.sql_reader.specs.Written.{given_tokens as tokens_of};

    ghost tokens = { λ input. tokens_of (plain input) };

    fn write(&self, out: &mut Bytes) -> Result<(), Memory> {
        match self {
            Input::Expr(value) => expression(out, Part::Disjunction, value),
            Input::Next(sequence) => {
                name(out, sequence)?;
                sign(out, Sign::Dot)?;
                word(out, Keyword::Nextval)
            }
        }
    }
}

impl Listed for Setting {
    ghost use Rattle.sql_tree.specs.Plain.{change_of as plain};
    ghost use Rattle.sql_reader.specs.Written.{assignment_tokens as tokens_of};

    ghost tokens = { λ setting. tokens_of (plain setting) };

    fn write(&self, out: &mut Bytes) -> Result<(), Memory> {
        name(out, &self.column)?;
        sign(out, Sign::Equal)?;
        expression(out, Part::Disjunction, &self.to)
    }
}

impl Listed for Key {
    ghost use Rattle.sql_reader.specs.Written.{key_tokens as tokens_of};

    ghost tokens = { tokens_of };

    fn write(&self, out: &mut Bytes) -> Result<(), Memory> {
        name(out, &self.column)?;
        if self.desc {
            word(out, Keyword::Desc)?;
        }
        Ok(())
    }
}

impl Listed for Txt {
    ghost use Rattle.sql_reader.specs.Written.{name_tokens as tokens_of};

    ghost tokens = { λ name. tokens_of name };

    fn write(&self, out: &mut Bytes) -> Result<(), Memory> {
        name(out, self)
    }
}

#[tactic(auto, using(crate::proofs::Rewritten::joined_map))]
fn selection(out: &mut Bytes, items: &Items) -> Result<(), Memory>
    ensures { OnOk result (out.new ≡ out.old ++ spaced_all (selection_tokens (asked_of items.now))) }
{
    match items {
        Items::All => sign(out, Sign::Star),
        Items::Exprs(exprs) => list(out, exprs.as_slice()),
        Items::Aggs(aggs) => list(out, aggs.as_slice()),
    }
}

fn condition(out: &mut Bytes, condition: &Option<Expr>) -> Result<(), Memory>
    ensures { OnOk result (out.new ≡ out.old ++ spaced_all (where_tokens (condition_of condition.now))) }
{
    match condition {
        Some(expr) => {
            word(out, Keyword::Where)?;
            expression(out, Part::Disjunction, expr)
        }
        None => Ok(()),
    }
}

fn order(out: &mut Bytes, keys: &Keys) -> Result<(), Memory>
    ensures { OnOk result (out.new ≡ out.old ++ spaced_all (order_tokens keys.now)) }
{
    if keys.is_empty() {
        return Ok(());
    }
    word(out, Keyword::Order)?;
    word(out, Keyword::By)?;
    list(out, keys.as_slice())
}

fn for_update(out: &mut Bytes, held: bool) -> Result<(), Memory>
    ensures { OnOk result (out.new ≡ out.old ++ spaced_all (for_update_tokens held)) }
{
    if held {
        word(out, Keyword::For)?;
        word(out, Keyword::Update)?;
    }
    Ok(())
}

fn columns(out: &mut Bytes, names: &Option<Names>) -> Result<(), Memory>
    ensures { OnOk result (out.new ≡ out.old ++ spaced_all (columns_tokens names.now)) }
{
    match names {
        Some(names) => {
            sign(out, Sign::Open)?;
            list(out, names.as_slice())?;
            sign(out, Sign::Close)
        }
        None => Ok(()),
    }
}

#[tactic(auto, using(crate::proofs::Rewritten::joined_map))]
fn given(out: &mut Bytes, inputs: &Inputs) -> Result<(), Memory>
    ensures { OnOk result (out.new ≡ out.old ++ spaced_all (joined given_tokens (map entry_of inputs.now))) }
{
    list(out, inputs.as_slice())
}

#[tactic(auto, using(crate::proofs::Rewritten::joined_map))]
fn settings(out: &mut Bytes, sets: &Sets) -> Result<(), Memory>
    ensures { OnOk result (out.new ≡ out.old ++ spaced_all (joined assignment_tokens (map change_of sets.now))) }
{
    list(out, sets.as_slice())
}

fn inputs(out: &mut Bytes, inputs: &Inputs) -> Result<(), Memory>
    ensures { OnOk result (out.new ≡ out.old ++ spaced_all (inputs_tokens (map entry_of inputs.now))) }
{
    word(out, Keyword::Values)?;
    sign(out, Sign::Open)?;
    given(out, inputs)?;
    sign(out, Sign::Close)
}

fn from(out: &mut Bytes, table: &Txt) -> Result<(), Memory>
    ensures { OnOk result (out.new ≡ out.old ++ spaced_all (token.Word Keyword.From ∷ token.Name table.now ∷ [])) }
{
    word(out, Keyword::From)?;
    name(out, table)
}

// What comes after the first word.
fn further(out: &mut Bytes, statement: &Statement) -> Result<(), Memory>
    ensures { OnOk result (out.new ≡ out.old ++ spaced_all (further_tokens (plan_of statement.now))) }
{
    match statement {
        Statement::Select(table, items, condition, keys, held) => select(
            out, table, items, condition, keys, *held,
        ),
        Statement::Next(sequence) => next(out, sequence),
        Statement::Insert(table, names, values) => {
            word(out, Keyword::Into)?;
            name(out, table)?;
            columns(out, names)?;
            inputs(out, values)
        }
        Statement::Update(table, sets, filter) => {
            name(out, table)?;
            word(out, Keyword::Set)?;
            settings(out, sets)?;
            condition(out, filter)
        }
        Statement::Delete(table, filter) => {
            from(out, table)?;
            condition(out, filter)
        }
        Statement::Commit => Ok(()),
        Statement::Rollback => Ok(()),
        Statement::SetReadOnly => {
            word(out, Keyword::Transaction)?;
            word(out, Keyword::Read)?;
            word(out, Keyword::Only)
        }
        Statement::Savepoint(savepoint) => name(out, savepoint),
        Statement::RollbackTo(savepoint) => {
            word(out, Keyword::To)?;
            name(out, savepoint)
        }
    }
}

fn select(
    out: &mut Bytes,
    table: &Txt,
    items: &Items,
    filter: &Option<Expr>,
    keys: &Keys,
    held: bool,
) -> Result<(), Memory>
    ensures { OnOk result
        (out.new ≡ out.old
        ++ spaced_all (further_tokens (select table.now (asked_of items.now) (condition_of filter.now) keys.now held))) }
{
    selection(out, items)?;
    from(out, table)?;
    condition(out, filter)?;
    order(out, keys)?;
    for_update(out, held)
}

fn next(out: &mut Bytes, sequence: &Txt) -> Result<(), Memory>
    ensures { OnOk result (out.new ≡ out.old ++ spaced_all (further_tokens (next sequence.now))) }
{
    name(out, sequence)?;
    sign(out, Sign::Dot)?;
    word(out, Keyword::Nextval)?;
    word(out, Keyword::From)?;
    word(out, Keyword::Dual)
}

fn first(statement: &Statement) -> Keyword
    ensures { result ≡ first_word (plan_of statement.now) }
{
    match statement {
        Statement::Select(..) | Statement::Next(_) => Keyword::Select,
        Statement::Insert(..) => Keyword::Insert,
        Statement::Update(..) => Keyword::Update,
        Statement::Delete(..) => Keyword::Delete,
        Statement::Commit => Keyword::Commit,
        Statement::Rollback => Keyword::Rollback,
        Statement::SetReadOnly => Keyword::Set,
        Statement::Savepoint(_) => Keyword::Savepoint,
        Statement::RollbackTo(_) => Keyword::Rollback,
    }
}

/// The text of a statement: its tokens, parted by single spaces.
#[tactic(auto, using(crate::proofs::Rewritten::written_is))]
pub fn text(alloc: Global, statement: &Statement) -> Result<Bytes, Memory>
    ensures { IfOk result (λ bytes. bytes ≡ written (plan_of statement.now)) }
{
    let mut out = List::new(alloc);
    upper(&mut out, first(statement))?;
    further(&mut out, statement)?;
    Ok(out)
}
