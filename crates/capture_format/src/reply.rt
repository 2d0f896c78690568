//! Replies from their texts and as their texts.

ghost use Rattle.std.specs.Prelude.{◌≡◌, ◌++◌, ◌∷◌, map, Some, IfOk, OnOk, OnErr};
ghost use Rattle.std.specs.List.{flat_map, join_with_byte};
ghost use Rattle.desk_values.specs.declared.call.Reply.{Reply};
ghost use Rattle.desk_values.specs.Fields.{pieces};
ghost use Rattle.desk_values.specs.Good.{IsGoodReply};
ghost use Rattle.desk_values.specs.Text.{values_text, rows_text, left_text, image_text, images_text, outcome_text, made_text, reply_text};
ghost use Rattle.desk_values.specs.Reading.{Reads, number_below, each_of};
ghost use Rattle.capture_format.specs.ReplyReading.{fault_of, filled_of, open_rows_of, rows_of, left_of, image_of, images_of, word_outcome_of, field_outcome_of, outcome_of, draws_of, made_of, reply_of};
ghost use Rattle.capture_format.specs.Inside.Answers.{ReadsAs};

use crate::separated::{Piece, read_pieces};
use desk_values::fields::{append_u64, cut, cut_near, read_u32, read_u64};
use desk_values::{
    Bytes, Fault, Image, Images, List, Memory, Outcome, ReadErr, Reply, RowList, TABLE_LIMIT,
    Values, all_draws, read_values, rows_ascend, write_values,
};
use std::alloc::Global;

/// The reply that all the bytes spell: the outcome, the draws in brackets, and the made row behind `r` or `-`, with
/// spaces between. The outcome is `connected`, `disconnected`, `rolledback` or `marked`; `rows` with each row in brackets,
/// or `-`; `count` with how many rows; `committed` with the images, or `-`; or `refused` with the fault's number. An image
/// is `3:0:[i3,i7]`, that is the row's number, its table's, and the values that are left or `gone`; images ascend by row.
/// `Bad` exactly where the bytes spell no reply; `Memory` for want of memory.
pub fn read_reply(alloc: Global, bytes: &[u8]) -> Result<Reply, ReadErr>
    ensures ok { IfOk result (λ reply. IsGoodReply reply × (bytes.now ≡ reply_text reply)) }
    ensures only { (reply : Reply) → IsGoodReply reply → bytes.now ≡ reply_text reply → Reads result (Some reply) }
    ensures value { Reads result (reply_of bytes.now) }
{
    reply(alloc, bytes)
}

#[tactic(auto, unfolding(crate::specs::ReplyReading::reply_of))]
fn reply(alloc: Global, bytes: &[u8]) -> Result<Reply, ReadErr>
    ensures { Reads result (reply_of bytes.now) }
{
    let (outcome, rest) = outcome(alloc, bytes)?;
    let (draws, made) = cut_near(rest, b' ').ok_or(ReadErr::Bad)?;
    let draws = draws_in(alloc, draws)?;
    let made = made_in(made).ok_or(ReadErr::Bad)?;
    Ok(Reply {
        outcome,
        draws,
        made,
    })
}

// The outcome at the front, and what is left behind a space.
#[tactic(auto, unfolding(crate::specs::ReplyReading::outcome_of))]
fn outcome(alloc: Global, bytes: &[u8]) -> Result<(Outcome, &[u8]), ReadErr>
    ensures { ReadsAs (λ front. (front.0, front.1.now)) result (outcome_of bytes.now) }
{
    let (word, rest) = cut_near(bytes, b' ').ok_or(ReadErr::Bad)?;
    if let Some(outcome) = word_outcome(word) {
        return Ok((outcome, rest));
    }
    let (field, rest) = cut(rest, b' ').ok_or(ReadErr::Bad)?;
    Ok((field_outcome(alloc, word, field)?, rest))
}

#[tactic(auto, unfolding(crate::specs::ReplyReading::word_outcome_of))]
fn word_outcome(word: &[u8]) -> Option<Outcome>
    ensures { result ≡ word_outcome_of word.now }
{
    if word == b"rolledback".as_slice() {
        Some(Outcome::RolledBack)
    } else if word == b"marked".as_slice() {
        Some(Outcome::Marked)
    } else if word == b"connected".as_slice() {
        Some(Outcome::Connected)
    } else if word == b"disconnected".as_slice() {
        Some(Outcome::Disconnected)
    } else {
        None
    }
}

#[tactic(auto, unfolding(crate::specs::ReplyReading::field_outcome_of))]
fn field_outcome(alloc: Global, word: &[u8], field: &[u8]) -> Result<Outcome, ReadErr>
    ensures { Reads result (field_outcome_of word.now field.now) }
{
    if word == b"rows".as_slice() {
        Ok(Outcome::Rows(rows(alloc, field)?))
    } else if word == b"count".as_slice() {
        Ok(Outcome::Count(read_u64(field).ok_or(ReadErr::Bad)?))
    } else if word == b"committed".as_slice() {
        Ok(Outcome::Committed(images(alloc, field)?))
    } else if word == b"refused".as_slice() {
        Ok(Outcome::Refused(fault(field).ok_or(ReadErr::Bad)?))
    } else {
        Err(ReadErr::Bad)
    }
}

fn fault(field: &[u8]) -> Option<Fault>
    ensures { result ≡ fault_of field.now }
{
    Fault::from_number(read_u32(field)?)
}

#[tactic(auto, unfolding(crate::specs::ReplyReading::rows_of))]
fn rows(alloc: Global, bytes: &[u8]) -> Result<RowList, ReadErr>
    ensures { Reads result (rows_of bytes.now) }
{
    match bytes {
        b"-" => Ok(List::new(alloc)),
        [] => Err(ReadErr::Bad),
        _ => {
            let mut rows = rows_in(alloc, bytes)?;
            rows.fit();
            Ok(rows)
        }
    }
}

// One row directly behind the other.
fn rows_in(alloc: Global, bytes: &[u8]) -> Result<RowList, ReadErr>
    ensures { Reads result (open_rows_of (pieces 93 bytes.now)) }
{
    let mut rows = List::new(alloc);
    let mut rest = bytes;
    while let Some((row, after)) = cut(rest, b']') {
        rows.push(nonempty_values(alloc, &rest[..row.len() + 1])?)?;
        rest = after;
    }
    if rest.is_empty() {
        Ok(rows)
    } else {
        Err(ReadErr::Bad)
    }
}

// Values, at least one.
#[tactic(auto, unfolding(crate::specs::ReplyReading::filled_of))]
fn nonempty_values(alloc: Global, bytes: &[u8]) -> Result<Values, ReadErr>
    ensures { Reads result (filled_of bytes.now) }
{
    let values = read_values(alloc, bytes)?;
    if values.is_empty() {
        return Err(ReadErr::Bad);
    }
    Ok(values)
}

#[tactic(auto, unfolding(crate::specs::ReplyReading::images_of))]
fn images(alloc: Global, bytes: &[u8]) -> Result<Images, ReadErr>
    ensures { Reads result (images_of bytes.now) }
{
    if let b"-" = bytes {
        return Ok(List::new(alloc));
    }
    let mut images: Images = read_pieces(alloc, bytes, b';')?;
    images.fit();
    if rows_ascend(images.as_slice()) {
        Ok(images)
    } else {
        Err(ReadErr::Bad)
    }
}

#[tactic(auto, unfolding(crate::specs::ReplyReading::image_of))]
fn image(alloc: Global, bytes: &[u8]) -> Result<Image, ReadErr>
    ensures { Reads result (image_of bytes.now) }
{
    let (row, rest) = cut_near(bytes, b':').ok_or(ReadErr::Bad)?;
    let row = read_u64(row).ok_or(ReadErr::Bad)?;
    let (table, left) = cut_near(rest, b':').ok_or(ReadErr::Bad)?;
    let table = table_in(table).ok_or(ReadErr::Bad)?;
    let left = left_in(alloc, left)?;
    Ok(Image { row, table, left })
}

impl Piece for Image {
    ghost use Rattle.capture_format.specs.ReplyReading.{image_of as image_spelled};

    ghost reading = { image_spelled };

    fn read(alloc: Global, bytes: &[u8]) -> Result<Image, ReadErr> {
        image(alloc, bytes)
    }
}

// The number of a table.
#[tactic(auto, unfolding(desk_values::specs::Reading::number_below))]
fn table_in(bytes: &[u8]) -> Option<u32>
    ensures { result ≡ number_below 32 bytes.now }
{
    let table = read_u32(bytes)?;
    if table < TABLE_LIMIT {
        Some(table)
    } else {
        None
    }
}

#[tactic(auto, unfolding(crate::specs::ReplyReading::left_of))]
fn left_in(alloc: Global, bytes: &[u8]) -> Result<Option<Values>, ReadErr>
    ensures { Reads result (left_of bytes.now) }
{
    match bytes {
        b"gone" => Ok(None),
        _ => Ok(Some(nonempty_values(alloc, bytes)?)),
    }
}

#[tactic(auto, unfolding(crate::specs::ReplyReading::draws_of))]
fn draws_in(alloc: Global, bytes: &[u8]) -> Result<Values, ReadErr>
    ensures { Reads result (draws_of bytes.now) }
{
    let draws = read_values(alloc, bytes)?;
    if !all_draws(draws.as_slice()) {
        return Err(ReadErr::Bad);
    }
    Ok(draws)
}

// The made row, or `None` in the option for none.
#[tactic(auto, unfolding(crate::specs::ReplyReading::made_of))]
fn made_in(bytes: &[u8]) -> Option<Option<u64>>
    ensures { result ≡ made_of bytes.now }
{
    match bytes {
        b"-" => Some(None),
        [b'r', rest @ ..] => Some(Some(read_u64(rest)?)),
        _ => None,
    }
}

/// The one text of a good reply, as [`read_reply`] reads it. It fails for want of memory alone.
pub fn write_reply(alloc: Global, reply: &Reply) -> Result<Bytes, Memory>
    requires { IsGoodReply reply.now }
    ensures { IfOk result (λ bytes. bytes ≡ reply_text reply.now) }
{
    let mut text = List::new(alloc);
    push_reply(reply, &mut text)?;
    Ok(text)
}

/// Appends the one text of a reply, which [`read_reply`] reads again where the reply is good. An `Err` is want of memory,
/// and changes nothing.
pub fn append_reply(reply: &Reply, to: &mut Bytes) -> Result<(), Memory>
    ensures ok { OnOk result (to.new ≡ to.old ++ reply_text reply.now) }
    ensures err { OnErr result (to.new ≡ to.old) }
{
    // The text is made apart, so that a refusal leaves `to` as it was.
    let mut text = List::new(to.allocator());
    push_reply(reply, &mut text)?;
    to.append(text.as_slice())
}

fn push_reply(reply: &Reply, to: &mut Bytes) -> Result<(), Memory>
    ensures { OnOk result (to.new ≡ to.old ++ reply_text reply.now) }
{
    push_outcome(&reply.outcome, to)?;
    to.push(b' ')?;
    write_values(reply.draws.as_slice(), to)?;
    to.push(b' ')?;
    push_made(reply.made, to)?;
    Ok(())
}

fn push_outcome(outcome: &Outcome, to: &mut Bytes) -> Result<(), Memory>
    ensures { OnOk result (to.new ≡ to.old ++ outcome_text outcome.now) }
{
    match outcome {
        Outcome::Rows(rows) => {
            to.append(b"rows ")?;
            push_rows(rows.as_slice(), to)
        }
        Outcome::Count(count) => {
            to.append(b"count ")?;
            append_u64(*count, to)
        }
        Outcome::Committed(images) => {
            to.append(b"committed ")?;
            push_images(images.as_slice(), to)
        }
        Outcome::RolledBack => to.append(b"rolledback"),
        Outcome::Marked => to.append(b"marked"),
        Outcome::Connected => to.append(b"connected"),
        Outcome::Disconnected => to.append(b"disconnected"),
        Outcome::Refused(fault) => {
            to.append(b"refused ")?;
            append_u64(u64::from(fault.number()), to)
        }
    }
}

fn push_rows(rows: &[Values], to: &mut Bytes) -> Result<(), Memory>
    ensures { OnOk result (to.new ≡ to.old ++ rows_text rows.now) }
{
    if rows.is_empty() {
        return to.push(b'-');
    }
    push_row_texts(rows, to)?;
    Ok(())
}

fn push_row_texts(rows: &[Values], to: &mut Bytes) -> Result<(), Memory>
    ensures { OnOk result (to.new ≡ to.old ++ flat_map values_text rows.now) }
{
    for row in rows {
        write_values(row.as_slice(), to)?;
    }
    Ok(())
}

fn push_images(images: &[Image], to: &mut Bytes) -> Result<(), Memory>
    ensures { OnOk result (to.new ≡ to.old ++ images_text images.now) }
{
    let [first, others @ ..] = images else {
        return to.push(b'-');
    };
    push_image(first, to)?;
    push_more(others, to)?;
    Ok(())
}

// Each image behind a semicolon.
fn push_more(images: &[Image], to: &mut Bytes) -> Result<(), Memory>
    ensures { OnOk result (to.new ≡ to.old ++ flat_map (λ image. 59 ∷ image_text image) images.now) }
{
    for image in images {
        to.push(b';')?;
        push_image(image, to)?;
    }
    Ok(())
}

fn push_image(image: &Image, to: &mut Bytes) -> Result<(), Memory>
    ensures { OnOk result (to.new ≡ to.old ++ image_text image.now) }
{
    append_u64(image.row, to)?;
    to.push(b':')?;
    append_u64(u64::from(image.table), to)?;
    to.push(b':')?;
    append_left(&image.left, to)?;
    Ok(())
}

/// Appends what an image leaves of its row: the values by column in brackets with a comma between, or `gone` where the
/// row is deleted. An `Err` is want of memory, and changes nothing.
pub fn append_left(left: &Option<Values>, to: &mut Bytes) -> Result<(), Memory>
    ensures ok { OnOk result (to.new ≡ to.old ++ left_text left.now) }
    ensures err { OnErr result (to.new ≡ to.old) }
{
    match left {
        Some(values) => write_values(values.as_slice(), to),
        None => to.append(b"gone"),
    }
}

fn push_made(made: Option<u64>, to: &mut Bytes) -> Result<(), Memory>
    ensures { OnOk result (to.new ≡ to.old ++ made_text made) }
{
    match made {
        Some(row) => {
            to.push(b'r')?;
            append_u64(row, to)
        }
        None => to.push(b'-'),
    }
}
