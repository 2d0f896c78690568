//! From bytes to tokens, from left to right. A token takes as many bytes as it can.

ghost use Rattle.std.specs.Prelude.{◌≡◌, ◌∷◌, IfOk, MatchOption, false};
ghost use Rattle.std.specs.List.{prefix_len};
ghost use Rattle.sql_reader.specs.Spelling.{Returns};
ghost use Rattle.sql_reader.specs.Lexical.{is_space, is_part, folded};
ghost use Rattle.desk_values.specs.Reading.{txt_in};
ghost use Rattle.sql_reader.specs.Reading.{word_at, value_at, number_at, bind_number, bind_at, content_at, string_at, sign_at, run_of, behind_run, token_at, step_at, tokens_at, scanned};
ghost use Rattle.sql_reader.specs.Inside.{begins_quote};

use crate::error::SqlErr;
use crate::token::{SIGNS, Sign, Token};
use desk_values::keyword::{Keyword, NAME_LIMIT};
use desk_values::{Txt, find_word};
use std::alloc::{AllocError, Global};

fn is_space(byte: u8) -> bool
    ensures { result ≡ is_space byte }
{
    byte == b' ' || byte == b'\t' || byte == b'\n' || byte == b'\r'
}

fn is_word_byte(byte: u8) -> bool
    ensures { result ≡ is_part byte }
{
    byte.is_ascii_alphanumeric() || byte == b'_'
}

// The letters, digits and `_` at the front, and the rest.
fn split_run(bytes: &[u8]) -> (&[u8], &[u8])
    ensures run { result.0.now ≡ run_of bytes.now }
    ensures rest { result.1.now ≡ behind_run bytes.now }
{
    bytes.split_at(run_len(bytes))
}

fn run_len(bytes: &[u8]) -> usize
    ensures { result ≡ prefix_len is_part bytes.now }
{
    bytes.iter().take_while(|byte| is_word_byte(**byte)).count()
}

#[tactic(auto, unfolding(desk_values::specs::Reading::txt_in))]
fn text_of(alloc: Global, bytes: &[u8]) -> Result<Txt, SqlErr>
    ensures { Returns (λ text. text) result (txt_in bytes.now) }
{
    Ok(Txt::from_bytes(alloc, bytes)?)
}

fn lower(alloc: Global, run: &[u8]) -> Result<Vec<u8>, AllocError>
    ensures { IfOk result (λ lower. lower.items ≡ folded run.now) }
{
    run.iter()
        .map(|byte| byte.to_ascii_lowercase())
        .collect(alloc)
}

#[tactic(auto, unfolding(crate::specs::Reading::word_at))]
fn word(alloc: Global, run: &[u8]) -> Result<Token, SqlErr>
    ensures { Returns (λ t. t) result (word_at run.now) }
{
    let folded = lower(alloc, run)?;
    if let Some(keyword) = find_word::<Keyword>(&folded) {
        return Ok(Token::Word(keyword));
    }
    if folded.len() > NAME_LIMIT {
        return Err(SqlErr::Syntax);
    }
    Ok(Token::Name(text_of(alloc, &folded)?))
}

#[tactic(auto, unfolding(crate::specs::Reading::number_at))]
fn number(run: &[u8]) -> Result<Token, SqlErr>
    ensures { Returns (λ t. t) result (number_at run.now) }
{
    let value = value(run).ok_or(SqlErr::Syntax)?;
    Ok(Token::Number(value))
}

// The number of the digits, where it is in range.
#[tactic(auto, unfolding(crate::specs::Reading::value_at))]
fn value(run: &[u8]) -> Option<i64>
    ensures { result ≡ value_at run.now }
{
    let mut value: u128 = 0;
    for digit in run {
        if !digit.is_ascii_digit() {
            return None;
        }
        let next = value * 10 + u128::from(*digit - b'0');
        if next > i64::MAX as u128 {
            return None;
        }
        value = next;
    }
    Some(value as i64)
}

#[tactic(auto, unfolding(crate::specs::Reading::bind_at))]
fn bind(run: &[u8]) -> Result<Token, SqlErr>
    ensures { Returns (λ t. t) result (bind_at run.now) }
{
    let number = bind_value(run).ok_or(SqlErr::Syntax)?;
    Ok(Token::Bind(number))
}

// A number from 1 to 16.
#[tactic(auto, unfolding(crate::specs::Reading::bind_number))]
fn bind_value(run: &[u8]) -> Option<u32>
    ensures { result ≡ bind_number run.now }
{
    match run {
        [digit] if b'1' <= *digit && *digit <= b'9' => Some(u32::from(*digit - b'0')),
        [ten, digit] if *ten == b'1' && b'0' <= *digit && *digit <= b'6' => {
            Some(u32::from(*digit - b'0') + 10)
        }
        _ => None,
    }
}

// The bytes of a string after its first quote, and the rest after the last.
fn content(alloc: Global, bytes: &[u8]) -> Result<(Vec<u8>, &[u8]), SqlErr>
    ensures { Returns (λ x. (x.0.items, x.1.now)) result (content_at bytes.now) }
{
    let mut content = Vec::new(alloc);
    let mut rest = bytes;
    while let Some((first, after)) = rest.split_first() {
        if *first != b'\'' {
            rest = after;
        } else if let Some(after_pair) = after_quote(after) {
            rest = after_pair;
        } else {
            return Ok((content, after));
        }
        content.push(*first)?;
    }
    Err(SqlErr::Syntax)
}

// What stands after a quote, where one is first.
fn after_quote(bytes: &[u8]) -> Option<&[u8]>
    ensures { MatchOption result (begins_quote bytes.now ≡ false) (λ rest. bytes.now ≡ 39 ∷ rest.now) }
{
    let (first, rest) = bytes.split_first()?;
    (*first == b'\'').then_some(rest)
}

#[tactic(auto, unfolding(crate::specs::Reading::string_at))]
fn string(alloc: Global, bytes: &[u8]) -> Result<(Token, &[u8]), SqlErr>
    ensures { Returns (λ x. (x.0, x.1.now)) result (string_at bytes.now) }
{
    let (content, rest) = content(alloc, bytes)?;
    Ok((Token::Text(text_of(alloc, &content)?), rest))
}

// The longest sign.
#[tactic(auto, unfolding(crate::specs::Reading::sign_at))]
fn sign(bytes: &[u8]) -> Result<(Token, &[u8]), SqlErr>
    ensures { Returns (λ x. (x.0, x.1.now)) result (sign_at bytes.now) }
{
    if let Some(rest) = bytes.strip_prefix(b"!=") {
        return Ok((Token::Sign(Sign::NotEqual), rest));
    }
    for sign in SIGNS {
        if let Some(rest) = bytes.strip_prefix(sign.text()) {
            return Ok((Token::Sign(sign), rest));
        }
    }
    Err(SqlErr::Syntax)
}

#[tactic(auto, unfolding(crate::specs::Reading::token_at))]
fn token<'a>(
    alloc: Global,
    first: u8,
    others: &'a [u8],
    bytes: &'a [u8],
) -> Result<(Token, &'a [u8]), SqlErr>
    requires { bytes.now ≡ first ∷ others.now }
    ensures { Returns (λ x. (x.0, x.1.now)) result (token_at first others.now) }
{
    if first.is_ascii_alphabetic() {
        let (run, rest) = split_run(bytes);
        return Ok((word(alloc, run)?, rest));
    }
    if first.is_ascii_digit() {
        let (run, rest) = split_run(bytes);
        return Ok((number(run)?, rest));
    }
    match first {
        b':' => {
            let (run, rest) = split_run(others);
            Ok((bind(run)?, rest))
        }
        b'\'' => string(alloc, others),
        _ => sign(bytes),
    }
}

// One space or one token, and the rest.
#[tactic(auto, unfolding(crate::specs::Reading::step_at))]
fn step(alloc: Global, bytes: &[u8]) -> Result<(Option<Token>, &[u8]), SqlErr>
    ensures { Returns (λ x. (x.0, x.1.now)) result (step_at bytes.now) }
{
    match bytes {
        [] => Ok((None, bytes)),
        [first, others @ ..] if is_space(*first) => Ok((None, others)),
        [first, others @ ..] => {
            let (token, rest) = token(alloc, *first, others, bytes)?;
            Ok((Some(token), rest))
        }
    }
}

/// The tokens that the bytes spell.
#[tactic(auto, unfolding(crate::specs::Reading::scanned))]
pub fn scan(alloc: Global, bytes: &[u8]) -> Result<Vec<Token>, SqlErr>
    ensures { Returns (λ tokens. tokens.items) result (scanned bytes.now) }
{
    let mut tokens = Vec::new(alloc);
    let mut rest = bytes;
    for _ in 0..bytes.len() {
        let (token, after) = step(alloc, rest)?;
        if let Some(token) = token {
            tokens.push(token)?;
        }
        rest = after;
    }
    if !rest.is_empty() {
        return Err(SqlErr::Syntax);
    }
    Ok(tokens)
}
