//! From tokens to expressions, by the rules of the grammar from the loosest part to the tightest. It goes no deeper
//! than the text nests; a line of operators is read by a loop.

ghost use Rattle.std.specs.Prelude.{◌≡◌, ◌<◌};
ghost use Rattle.sql_tree.specs.Plain.{term_of};
ghost use Rattle.sql_reader.specs.Grammar.{looseness, right_of};
ghost use Rattle.sql_reader.specs.Spelling.{Returns};
ghost use Rattle.sql_reader.specs.Inside.{Finds};
ghost use Rattle.sql_reader.specs.Reading.{after_word, after_sign, operator_of, operator_at, chain_at, null_test, primary_in, factor_in, compared_in, comparison_in, negation_in, part_in, inner_at, part_at};

use crate::error::SqlErr;
use crate::part::Part;
use crate::token::{Sign, Token, word_operator};
use crate::tree::{Expr, Op};
use desk_values::Copied;
use desk_values::keyword::Keyword;
use std::alloc::Global;

/// What comes after the word, where it is first.
#[tactic(auto, unfolding(crate::specs::Reading::after_word))]
pub fn after_word(word: Keyword, tokens: &[Token]) -> Option<&[Token]>
    ensures { Finds (λ rest. rest.now) result (after_word word tokens.now) }
{
    match tokens {
        [Token::Word(found), rest @ ..] if found.same(word) => Some(rest),
        _ => None,
    }
}

/// What comes after the sign, where it is first.
#[tactic(auto, unfolding(crate::specs::Reading::after_sign))]
pub fn after_sign(sign: Sign, tokens: &[Token]) -> Option<&[Token]>
    ensures { Finds (λ rest. rest.now) result (after_sign sign tokens.now) }
{
    match tokens {
        [Token::Sign(found), rest @ ..] if *found == sign => Some(rest),
        _ => None,
    }
}

/// What comes after the word, which has to be first.
pub fn expect_word(word: Keyword, tokens: &[Token]) -> Result<&[Token], SqlErr>
    ensures { Returns (λ rest. rest.now) result (after_word word tokens.now) }
{
    after_word(word, tokens).ok_or(SqlErr::Syntax)
}

/// What comes after the sign, which has to be first.
pub fn expect_sign(sign: Sign, tokens: &[Token]) -> Result<&[Token], SqlErr>
    ensures { Returns (λ rest. rest.now) result (after_sign sign tokens.now) }
{
    after_sign(sign, tokens).ok_or(SqlErr::Syntax)
}

fn token_operator(token: &Token) -> Option<Op>
    ensures { result ≡ operator_of token.now }
{
    match token {
        Token::Word(word) => word_operator(*word),
        Token::Sign(sign) => sign.operator(),
        _ => None,
    }
}

// The operator of the part, where one is first, and what comes after it.
#[tactic(auto, unfolding(crate::specs::Reading::operator_at))]
fn operator(part: Part, tokens: &[Token]) -> Option<(Op, &[Token])>
    ensures { Finds (λ x. (x.0, x.1.now)) result (operator_at part tokens.now) }
{
    let (first, rest) = tokens.split_first()?;
    let op = token_operator(first)?;
    (Part::of(op) == part).then_some((op, rest))
}

// NULL or NOT NULL after IS.
#[tactic(auto, unfolding(crate::specs::Reading::null_test))]
fn null_test(alloc: Global, left: Expr, tokens: &[Token]) -> Result<(Expr, &[Token]), SqlErr>
    ensures { Returns (λ x. (term_of x.0, x.1.now)) result (null_test (term_of left) tokens.now) }
{
    if let Some(after) = after_word(Keyword::Not, tokens) {
        let rest = expect_word(Keyword::Null, after)?;
        return Ok((Expr::NotNull(Box::new(alloc, left)?), rest));
    }
    let rest = expect_word(Keyword::Null, tokens)?;
    Ok((Expr::IsNull(Box::new(alloc, left)?), rest))
}

/// The part of an expression at the front, nested at most `depth` deep, and the rest.
#[cycle(descent)]
#[tactic(auto, unfolding(crate::specs::Reading::part_at))]
pub fn part(
    alloc: Global,
    wanted: Part,
    tokens: &[Token],
    depth: u32,
) -> Result<(Expr, &[Token]), SqlErr>
    ensures { Returns (λ x. (term_of x.0, x.1.now)) result (part_at depth wanted tokens.now) }
{
    match wanted {
        Part::Disjunction => chain(alloc, Part::Disjunction, tokens, depth),
        Part::Conjunction => chain(alloc, Part::Conjunction, tokens, depth),
        Part::Negation => negation(alloc, tokens, depth),
        Part::Comparison => comparison(alloc, tokens, depth),
        Part::Sum => chain(alloc, Part::Sum, tokens, depth),
        Part::Product => chain(alloc, Part::Product, tokens, depth),
        Part::Factor => factor(alloc, tokens, depth),
        Part::Primary => primary(alloc, tokens, depth),
    }
}

// What nests in a part.
#[cycle(descent)]
fn nested(
    alloc: Global,
    inner: Part,
    tokens: &[Token],
    depth: u32,
) -> Result<(Expr, &[Token]), SqlErr>
    ensures { Returns (λ x. (term_of x.0, x.1.now)) result (inner_at depth inner tokens.now) }
{
    if depth == 0 {
        return Err(SqlErr::Syntax);
    }
    part(alloc, inner, tokens, depth - 1)
}

// A line of operators, which group to the left.
#[cycle(descent)]
fn chain(
    alloc: Global,
    line: Part,
    tokens: &[Token],
    depth: u32,
) -> Result<(Expr, &[Token]), SqlErr>
    requires { looseness (right_of line) < looseness line }
    ensures { Returns (λ x. (term_of x.0, x.1.now)) result (chain_at (part_at depth (right_of line)) line tokens.now) }
{
    let (first, after) = part(alloc, line.right(), tokens, depth)?;
    let mut left = first;
    let mut rest = after;
    for _ in 0..tokens.len() {
        let Some((op, after_operator)) = operator(line, rest) else {
            return Ok((left, rest));
        };
        let (right, after) = part(alloc, line.right(), after_operator, depth)?;
        left = Expr::Bin(op, Box::new(alloc, left)?, Box::new(alloc, right)?);
        rest = after;
    }
    Ok((left, rest))
}

#[cycle(descent)]
#[tactic(auto, unfolding(crate::specs::Reading::negation_in, crate::specs::Reading::part_at))]
fn negation(alloc: Global, tokens: &[Token], depth: u32) -> Result<(Expr, &[Token]), SqlErr>
    ensures { Returns (λ x. (term_of x.0, x.1.now)) result (part_at depth Part.Negation tokens.now) }
{
    if let Some(rest) = after_word(Keyword::Not, tokens) {
        let (of, rest) = nested(alloc, Part::Negation, rest, depth)?;
        return Ok((Expr::Not(Box::new(alloc, of)?), rest));
    }
    comparison(alloc, tokens, depth)
}

#[cycle(descent)]
#[tactic(auto, unfolding(crate::specs::Reading::comparison_in, crate::specs::Reading::compared_in, crate::specs::Reading::part_at))]
fn comparison(alloc: Global, tokens: &[Token], depth: u32) -> Result<(Expr, &[Token]), SqlErr>
    ensures { Returns (λ x. (term_of x.0, x.1.now)) result (part_at depth Part.Comparison tokens.now) }
{
    let (left, rest) = part(alloc, Part::Sum, tokens, depth)?;
    if let Some((op, after_operator)) = operator(Part::Comparison, rest) {
        let (right, rest) = part(alloc, Part::Sum, after_operator, depth)?;
        let left = Box::new(alloc, left)?;
        let right = Box::new(alloc, right)?;
        return Ok((Expr::Bin(op, left, right), rest));
    }
    match after_word(Keyword::Is, rest) {
        Some(after) => null_test(alloc, left, after),
        None => Ok((left, rest)),
    }
}

#[cycle(descent)]
#[tactic(auto, unfolding(crate::specs::Reading::factor_in, crate::specs::Reading::part_at))]
fn factor(alloc: Global, tokens: &[Token], depth: u32) -> Result<(Expr, &[Token]), SqlErr>
    ensures { Returns (λ x. (term_of x.0, x.1.now)) result (part_at depth Part.Factor tokens.now) }
{
    if let Some(rest) = after_sign(Sign::Minus, tokens) {
        let (of, rest) = nested(alloc, Part::Factor, rest, depth)?;
        return Ok((Expr::Neg(Box::new(alloc, of)?), rest));
    }
    primary(alloc, tokens, depth)
}

#[cycle(descent)]
#[tactic(auto, unfolding(crate::specs::Reading::primary_in, crate::specs::Reading::part_at))]
fn primary(alloc: Global, tokens: &[Token], depth: u32) -> Result<(Expr, &[Token]), SqlErr>
    ensures { Returns (λ x. (term_of x.0, x.1.now)) result (part_at depth Part.Primary tokens.now) }
{
    match tokens {
        [Token::Number(number), rest @ ..] => Ok((Expr::Int(*number), rest)),
        [Token::Text(text), rest @ ..] => Ok((Expr::Text(text.copy()?), rest)),
        [Token::Bind(number), rest @ ..] => Ok((Expr::Bind(*number), rest)),
        [Token::Name(name), rest @ ..] => Ok((Expr::Column(name.copy()?), rest)),
        [Token::Word(word), rest @ ..] => match word {
            Keyword::Null => Ok((Expr::Null, rest)),
            Keyword::Rowid => Ok((Expr::RowId, rest)),
            _ => Err(SqlErr::Syntax),
        },
        [Token::Sign(sign), rest @ ..] => match sign {
            Sign::Open => {
                let (of, after) = nested(alloc, Part::Disjunction, rest, depth)?;
                Ok((of, expect_sign(Sign::Close, after)?))
            }
            _ => Err(SqlErr::Syntax),
        },
        [] => Err(SqlErr::Syntax),
    }
}
