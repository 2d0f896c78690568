use crate::words::{first_word, txt};
use desk_values::{Binds, Call, ReadErr, read_value};
use std::alloc::Global;

/// The call of a line: `connect SERVICE`, `disconnect`, `sql TEXT`, or `bind VALUES sql TEXT`.
pub fn call_of(alloc: Global, text: &str) -> Result<Call, ReadErr> {
    let (word, rest) = first_word(text);
    match word {
        "disconnect" => Ok(Call::Disconnect),
        "connect" => Ok(Call::Connect(txt(alloc, rest)?)),
        "sql" => Ok(Call::Sql(txt(alloc, rest)?, Binds::new(alloc))),
        "bind" => bound(alloc, rest),
        _ => Err(ReadErr::Bad),
    }
}

// A statement behind the values of its binds.
fn bound(alloc: Global, text: &str) -> Result<Call, ReadErr> {
    let (values, text) = text.split_once(" sql ").ok_or(ReadErr::Bad)?;
    let values = values.strip_prefix('[').ok_or(ReadErr::Bad)?;
    let values = values.strip_suffix(']').ok_or(ReadErr::Bad)?;
    let text = txt(alloc, text)?;
    Ok(Call::Sql(text, binds_of(alloc, values)?))
}

// The values between the commas; none where there is no text.
fn binds_of(alloc: Global, text: &str) -> Result<Binds, ReadErr> {
    let mut binds = Binds::new(alloc);
    if !text.is_empty() {
        for value in text.split(',') {
            let value = read_value(alloc, value.as_bytes())?;
            binds.push(value).map_err(|_| ReadErr::Bad)?;
        }
    }
    Ok(binds)
}
