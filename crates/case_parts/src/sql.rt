//! Cases of the reader of SQL, one on each line: what to print, `form`, `read` or `error`, and a text. For each it prints
//! the written form of the statement that the text spells, which shows its tree, or that it is read; `syntax` where it
//! spells none. Of `error` it prints what the errors say. A control character stands in both as its code between `\` and
//! `;`, and so does `\`.

ghost use Rattle.sql_tree.specs.Plain.{plan_of};
ghost use Rattle.sql_reader.specs.Spelling.{IsStatement};

use case_text::{first_word, unescaped};
use desk_values::{Bytes, Memory, Txt};
use sql_reader::{CopiedTree, SqlErr, Statement, read_statement, write_statement};
use std::alloc::{AllocError, Global};
use std::fmt::Write;

/// What is printed of the text of a line.
pub fn answer(alloc: Global, line: &str) -> Result<String, anyhow::Error> {
    let (wanted, text) = first_word(line);
    let text = unescaped(alloc, text)?;
    let text = Txt::from_bytes(alloc, text.as_slice())?;
    match read_statement(alloc, &text) {
        Ok(statement) => shown(alloc, wanted, statement),
        Err(error) => refused(alloc, wanted, error),
    }
}

fn shown(alloc: Global, wanted: &str, statement: Statement) -> Result<String, anyhow::Error>
    requires { IsStatement (plan_of statement) }
{
    match wanted {
        "form" => form(alloc, statement),
        _ => Ok(String::from_str(alloc, "read")?),
    }
}

fn refused(alloc: Global, wanted: &str, error: SqlErr) -> Result<String, anyhow::Error> {
    match error {
        SqlErr::Memory => Err(Memory.into()),
        SqlErr::Syntax if wanted == "error" => errors(alloc),
        SqlErr::Syntax => Ok(String::from_str(alloc, "syntax")?),
    }
}

fn errors(alloc: Global) -> Result<String, anyhow::Error> {
    Ok(format!(in alloc; "{}; {}", SqlErr::Syntax, SqlErr::Memory)?)
}

// The written form of the statement, which is that of a copy too.
fn form(alloc: Global, statement: Statement) -> Result<String, anyhow::Error>
    requires { IsStatement (plan_of statement) }
{
    let written = write_statement(alloc, &statement)?;
    let written_again = form_of_copy(alloc, statement)?;
    Ok(shown_form(alloc, &written, &written_again)?)
}

fn form_of_copy(alloc: Global, statement: Statement) -> Result<Bytes, Memory>
    requires { IsStatement (plan_of statement) }
{
    let copy = statement.copy()?;
    drop(statement);
    write_statement(alloc, &copy)
}

fn shown_form(alloc: Global, written: &Bytes, written_again: &Bytes) -> Result<String, AllocError> {
    if written.as_slice() != written_again.as_slice() {
        return String::from_str(alloc, "a copy differs");
    }
    match str::from_utf8(written.as_slice()) {
        Ok(text) => escaped(alloc, text),
        Err(_) => String::from_str(alloc, "not a text"),
    }
}

// The text with `\` and control characters as codes.
fn escaped(alloc: Global, text: &str) -> Result<String, AllocError> {
    let mut line = String::new(alloc);
    for character in text.chars() {
        if character == '\\' || character.is_ascii_control() {
            let code = format!(in alloc; "\\{};", character as u32)?;
            line.push_str(code.as_str())?;
        } else {
            line.push(character)?;
        }
    }
    Ok(line)
}
