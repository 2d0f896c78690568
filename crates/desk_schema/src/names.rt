ghost use Rattle.std.specs.Prelude.{◌≡◌};
ghost use Rattle.std.specs.List.{list_all};
ghost use Rattle.desk_schema.specs.Name.{begins_with_letter, is_name_byte, is_name};

use desk_values::keyword::{NAME_LIMIT, is_keyword};

/// Whether the text is the name of a table, a column, a sequence or a service: a lower-case ASCII letter and at most 29
/// more lower-case ASCII letters, digits and `_`, but no word of SQL.
#[tactic(auto, unfolding(crate::specs::Name::is_name))]
pub fn is_name(text: &str) -> bool
    ensures { result ≡ is_name text.now }
{
    let bytes = text.as_bytes();
    begins_with_letter(bytes)
        && are_name_bytes(bytes)
        && bytes.len() <= NAME_LIMIT
        && !is_keyword(bytes)
}

fn begins_with_letter(bytes: &[u8]) -> bool
    ensures { result ≡ begins_with_letter bytes.now }
{
    match bytes {
        [first, ..] => first.is_ascii_lowercase(),
        [] => false,
    }
}

fn are_name_bytes(bytes: &[u8]) -> bool
    ensures { result ≡ list_all is_name_byte bytes.now }
{
    bytes.iter().all(|byte| is_name_byte(*byte))
}

fn is_name_byte(byte: u8) -> bool
    ensures { result ≡ is_name_byte byte }
{
    byte.is_ascii_lowercase() || byte.is_ascii_digit() || byte == b'_'
}
