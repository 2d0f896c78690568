//! The values that `clap` found in the words, by their names.

ghost use Rattle.std.specs.Prelude.{◌≡◌, ◌≤◌, codes, length, IfSome, Some, option_map};
ghost use Rattle.std.specs.List.{list_all};
ghost use Rattle.clap.specs.Words.{first_of};
ghost use Rattle.desk_values.specs.Reading.{Reads, number_of};
ghost use Rattle.replay_history.specs.Mode.{mode_of};
ghost use Rattle.replay_history.specs.declared.mode.Mode.TheVariants.{Order};
ghost use Rattle.desk_words.specs.Command.{begins_with_letter, chosen, class_in, differing, is_name_byte, is_run_name, maybe, number_in, path_in, percent_in, placed, run_name_in};
ghost use Rattle.desk_words.specs.Limits.{default_port, lane_limit, port_limit, whole};
ghost use Rattle.desk_words.specs.Inside.Finding.{values_in};

use crate::limits::{DEFAULT_PORT, LANE_LIMIT, PATH_LIMIT, PORT_LIMIT, RUN_LIMIT, WHOLE};
use clap::ArgMatches;
use desk_values::fields::read_u64;
use desk_values::{ReadErr, Txt, TxtErr, find_word};
use replay_history::{Class, Mode, PERCENT_LIMIT};
use std::alloc::Global;

// The value under a name.
fn value_of<'w>(values: &ArgMatches<'w>, name: &str) -> Option<&'w str>
    ensures { option_map (λ text. text.now) result ≡ first_of name.now (values_in values.now) }
{
    values.get_str(name)
}

// The path that a text is. `Bad` where it has no byte or over 900.
fn path_in(alloc: Global, text: &str) -> Result<Txt, ReadErr>
    ensures { Reads result (path_in text.now) }
{
    if text.is_empty() || text.len() > PATH_LIMIT {
        return Err(ReadErr::Bad);
    }
    short_text(alloc, text)
}

// The name of a run that a text is. `Bad` where it is none.
fn run_name_in(alloc: Global, text: &str) -> Result<Txt, ReadErr>
    ensures { Reads result (run_name_in text.now) }
{
    if text.len() > RUN_LIMIT || !is_run_name(text.as_bytes()) {
        return Err(ReadErr::Bad);
    }
    short_text(alloc, text)
}

// A text, in memory of its own.
fn short_text(alloc: Global, text: &str) -> Result<Txt, ReadErr>
    requires { length text.now ≤ 900 }
    ensures { Reads result (Some text.now) }
{
    match Txt::from_bytes(alloc, text.as_bytes()) {
        Ok(copy) => Ok(copy),
        Err(TxtErr::Memory) => Err(ReadErr::Memory),
        Err(TxtErr::TooLong) => unreachable!(),
        Err(TxtErr::NotUtf8) => unreachable!(),
    }
}

// Whether a small letter comes first, and all are small letters, digits and `_`.
fn is_run_name(bytes: &[u8]) -> bool
    ensures { result ≡ is_run_name bytes.now }
{
    begins_with_letter(bytes) && are_name_bytes(bytes)
}

fn begins_with_letter(bytes: &[u8]) -> bool
    ensures { result ≡ begins_with_letter bytes.now }
{
    match bytes {
        [first, ..] => first.is_ascii_lowercase(),
        [] => false,
    }
}

fn are_name_bytes(bytes: &[u8]) -> bool
    ensures { result ≡ list_all is_name_byte bytes.now }
{
    bytes.iter().all(|byte| is_name_byte(*byte))
}

fn is_name_byte(byte: u8) -> bool
    ensures { result ≡ is_name_byte byte }
{
    byte.is_ascii_lowercase() || byte.is_ascii_digit() || byte == b'_'
}

// The class, where a call differs by it.
fn differing(class: Class) -> Option<Class>
    ensures { result ≡ differing class }
{
    match class {
        Class::Same => None,
        _ => Some(class),
    }
}

// The number that a text spells, where it lies between these, they too.
fn number_in(least: u32, most: u32, text: &str) -> Option<u32>
    ensures value { result ≡ number_in least most text.now }
    ensures limit { IfSome result (λ number. number ≤ most) }
{
    match read_u64(text.as_bytes()) {
        Some(number) if u64::from(least) <= number && number <= u64::from(most) => Some(
            number as u32,
        ),
        _ => None,
    }
}

/// The path at a place.
pub(crate) fn path_at(alloc: Global, values: &ArgMatches<'_>, name: &str) -> Result<Txt, ReadErr>
    ensures { Reads result (placed name.now path_in (values_in values.now)) }
{
    path_in(alloc, value_of(values, name).ok_or(ReadErr::Bad)?)
}

/// The number at a place, from 1.
pub(crate) fn number_at(values: &ArgMatches<'_>, name: &str, most: u32) -> Result<u32, ReadErr>
    ensures { Reads result (placed name.now (number_in 1 most) (values_in values.now)) }
{
    number_in(1, most, value_of(values, name).ok_or(ReadErr::Bad)?).ok_or(ReadErr::Bad)
}

/// The name of a run at a place.
pub(crate) fn run_at(alloc: Global, values: &ArgMatches<'_>, name: &str) -> Result<Txt, ReadErr>
    ensures { Reads result (placed name.now run_name_in (values_in values.now)) }
{
    run_name_in(alloc, value_of(values, name).ok_or(ReadErr::Bad)?)
}

/// The stamp.
pub(crate) fn stamp_at(values: &ArgMatches<'_>) -> Option<u64>
    ensures { result ≡ placed (codes "stamp") number_of (values_in values.now) }
{
    read_u64(value_of(values, "stamp")?.as_bytes())
}

/// The class of a divergence.
pub(crate) fn class_at(values: &ArgMatches<'_>) -> Option<Class>
    ensures { result ≡ placed (codes "class") class_in (values_in values.now) }
{
    differing(find_word(value_of(values, "class")?.as_bytes())?)
}

/// The mode that is said, or the captured order.
pub(crate) fn mode_of(values: &ArgMatches<'_>) -> Option<Mode>
    ensures { result ≡ chosen (codes "mode") mode_of Order (values_in values.now) }
{
    match value_of(values, "mode") {
        Some(word) => find_word(word.as_bytes()),
        None => Some(Mode::Order),
    }
}

/// The percentage that is said, or the whole.
pub(crate) fn percent_of(values: &ArgMatches<'_>, name: &str) -> Option<u32>
    ensures { result ≡ chosen name.now percent_in whole (values_in values.now) }
{
    match value_of(values, name) {
        Some(text) => number_in(0, PERCENT_LIMIT, text),
        None => Some(WHOLE),
    }
}

/// The path of the file that is said, if one is.
pub(crate) fn file_of(
    alloc: Global,
    values: &ArgMatches<'_>,
    name: &str,
) -> Result<Option<Txt>, ReadErr>
    ensures { Reads result (maybe name.now path_in (values_in values.now)) }
{
    match value_of(values, name) {
        Some(text) => Ok(Some(path_in(alloc, text)?)),
        None => Ok(None),
    }
}

/// The number of lanes that is said, if one is.
pub(crate) fn lanes_of(values: &ArgMatches<'_>) -> Option<Option<u32>>
    ensures { result ≡ maybe (codes "lanes") (number_in 1 lane_limit) (values_in values.now) }
{
    match value_of(values, "lanes") {
        Some(text) => Some(Some(number_in(1, LANE_LIMIT, text)?)),
        None => Some(None),
    }
}

/// The port that is said, or 7080.
pub(crate) fn port_of(values: &ArgMatches<'_>) -> Option<u16>
    ensures { result ≡ chosen (codes "port") (number_in 1 port_limit) default_port (values_in values.now) }
{
    match value_of(values, "port") {
        Some(text) => Some(number_in(1, PORT_LIMIT, text)? as u16),
        None => Some(DEFAULT_PORT),
    }
}

/// The port of a target that is said, if one is.
pub(crate) fn target_of(values: &ArgMatches<'_>) -> Option<Option<u16>>
    ensures { result ≡ maybe (codes "target") (number_in 1 port_limit) (values_in values.now) }
{
    match value_of(values, "target") {
        Some(text) => Some(Some(number_in(1, PORT_LIMIT, text)? as u16)),
        None => Some(None),
    }
}

/// The stamp that is said, if one is.
pub(crate) fn stamp_of(values: &ArgMatches<'_>) -> Option<Option<u64>>
    ensures { result ≡ maybe (codes "stamp") number_of (values_in values.now) }
{
    match value_of(values, "stamp") {
        Some(text) => Some(Some(read_u64(text.as_bytes())?)),
        None => Some(None),
    }
}
