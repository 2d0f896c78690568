//! Texts, character by character.

ghost use Rattle.std.specs.Prelude.{◌≡◌, ◌++◌, if◌then◌else◌, encode_utf8, OnOk};
ghost use Rattle.std.specs.List.{flat_map, list_any};
ghost use Rattle.std.specs.Str.{chars};
ghost use Rattle.replay_show.specs.Texts.{escape, is_unseen, is_within, quoted, quoted_char, shown, shown_char, unseen_ranges};

use desk_values::{Bytes, Memory, Txt};

// Characters that are not seen, from the first to the last of each range.
static UNSEEN: [(u32, u32); 25] = [
    (0x0, 0x1F),
    (0x7F, 0xA0),
    (0xAD, 0xAD),
    (0x34F, 0x34F),
    (0x61C, 0x61C),
    (0x115F, 0x1160),
    (0x1680, 0x1680),
    (0x17B4, 0x17B5),
    (0x180B, 0x180F),
    (0x2000, 0x200F),
    (0x2028, 0x202F),
    (0x205F, 0x206F),
    (0x2800, 0x2800),
    (0x3000, 0x3000),
    (0x3164, 0x3164),
    (0xE000, 0xF8FF),
    (0xFDD0, 0xFDEF),
    (0xFE00, 0xFE0F),
    (0xFEFF, 0xFEFF),
    (0xFFA0, 0xFFA0),
    (0xFFF0, 0xFFFB),
    (0x13430, 0x1343F),
    (0x1BCA0, 0x1BCA3),
    (0x1D173, 0x1D17A),
    (0xE0000, 0x10FFFF),
];

fn unseen_ranges() -> &'static [(u32, u32)]
    ensures { result.now ≡ unseen_ranges }
{
    &UNSEEN
}

/// Appends a text as it is shown.
pub(crate) fn append_shown(text: &Txt, to: &mut Bytes) -> Result<(), Memory>
    ensures { OnOk result (to.new ≡ to.old ++ shown text.now) }
{
    for character in text.as_str().chars() {
        append_char(character, to)?;
    }
    Ok(())
}

/// Appends a text within quotes.
pub(crate) fn append_quoted(text: &Txt, to: &mut Bytes) -> Result<(), Memory>
    ensures { OnOk result (to.new ≡ to.old ++ quoted text.now) }
{
    to.append(b"'")?;
    append_within(text, to)?;
    to.append(b"'")
}

fn append_within(text: &Txt, to: &mut Bytes) -> Result<(), Memory>
    ensures { OnOk result (to.new ≡ to.old ++ flat_map quoted_char (chars text.now)) }
{
    for character in text.as_str().chars() {
        append_quoted_char(character, to)?;
    }
    Ok(())
}

// Within quotes a quote stands twice.
fn append_quoted_char(character: char, to: &mut Bytes) -> Result<(), Memory>
    ensures { OnOk result (to.new ≡ to.old ++ quoted_char character) }
{
    if character == '\'' {
        to.append(b"''")
    } else {
        append_char(character, to)
    }
}

#[tactic(auto, unfolding(crate::specs::Texts::shown_char))]
fn append_char(character: char, to: &mut Bytes) -> Result<(), Memory>
    ensures { OnOk result (to.new ≡ to.old ++ shown_char character) }
{
    match character {
        '\n' => to.append(b"\\n"),
        '\r' => to.append(b"\\r"),
        '\t' => to.append(b"\\t"),
        '\\' => to.append(b"\\\\"),
        _ => append_other(character, to),
    }
}

// One that has no letter of its own.
fn append_other(character: char, to: &mut Bytes) -> Result<(), Memory>
    ensures { OnOk result (to.new ≡ to.old ++ (if is_unseen character then escape character else encode_utf8 character)) }
{
    if is_unseen(u32::from(character)) {
        return append_escape(u32::from(character), to);
    }
    let mut bytes = [0; 4];
    to.append(character.encode_utf8(&mut bytes).as_bytes())
}

// By its number.
fn append_escape(code: u32, to: &mut Bytes) -> Result<(), Memory>
    ensures { OnOk result (to.new ≡ to.old ++ escape code) }
{
    let digits = format!(in to.allocator(); "{code:X}")?;
    to.append(b"\\u{")?;
    to.append(digits.as_bytes())?;
    to.append(b"}")
}

#[tactic(auto, unfolding(crate::specs::Texts::is_unseen))]
fn is_unseen(code: u32) -> bool
    ensures { result ≡ is_unseen code }
{
    is_within_any(code, unseen_ranges()) || code % 0x1_0000 >= 0xFFFE
}

fn is_within_any(code: u32, ranges: &[(u32, u32)]) -> bool
    ensures { result ≡ list_any (is_within code) ranges.now }
{
    ranges
        .iter()
        .any(|range| range.0 <= code && code <= range.1)
}
