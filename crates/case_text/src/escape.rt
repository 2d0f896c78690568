use desk_values::{Bytes, List, ReadErr};
use std::alloc::Global;

/// The text on one line, with `|` for each line feed. `Bad` where the bytes are no text.
pub fn line_of_bytes(alloc: Global, bytes: &[u8]) -> Result<String, ReadErr> {
    let mut line: Bytes = List::new(alloc);
    for byte in bytes {
        line.push(if *byte == b'\n' { b'|' } else { *byte })?;
    }
    let text = str::from_utf8(line.as_slice()).map_err(|_| ReadErr::Bad)?;
    Ok(String::from_str(alloc, text)?)
}
