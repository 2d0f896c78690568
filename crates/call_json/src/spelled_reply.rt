//! Replies from the one text that is written for them.

ghost use Rattle.std.specs.Prelude.{◌≡◌, ◌++◌, IfSome};
ghost use Rattle.std.specs.Str.{IsUtf8};
ghost use Rattle.serde_json.specs.Written.{compact_text};
ghost use Rattle.call_json.specs.Forms.{image_data, left_data, made_data, outcome_data, reply_text};

use crate::spelled::{Spelled, behind, count_front, ends, list_front, small_front};
use desk_values::{Image, List, Outcome, Reply, Values};
use std::alloc::Global;

// What an image leaves, at the front, and what stands behind it.
fn left_front(alloc: Global, bytes: &[u8]) -> Option<(Option<Values>, &[u8])>
    ensures { IfSome result (λ front. bytes.now ≡ compact_text (left_data front.0) ++ front.1.now) }
{
    if let Some(rest) = behind(bytes, b"null") {
        return Some((None, rest));
    }
    let (values, rest) = list_front(alloc, bytes)?;
    Some((Some(values), rest))
}

// The image at the front, and what stands behind it.
fn image_front(alloc: Global, bytes: &[u8]) -> Option<(Image, &[u8])>
    ensures { IfSome result (λ front. bytes.now ≡ compact_text (image_data front.0) ++ front.1.now) }
{
    let opened = behind(bytes, b"{\"now\":")?;
    let (left, after_left) = left_front(alloc, opened)?;
    let before_row = behind(after_left, b",\"row\":")?;
    let (row, after_row) = count_front(before_row)?;
    let before_table = behind(after_row, b",\"table\":")?;
    let (table, after_table) = small_front(before_table)?;
    let rest = behind(after_table, b"}")?;
    Some((Image { row, table, left }, rest))
}

impl Spelled for Image {
    ghost use Rattle.call_json.specs.Forms.{image_data as data_of_image};

    ghost meaning = { data_of_image };

    fn front(alloc: Global, bytes: &[u8]) -> Option<(Image, &[u8])> {
        image_front(alloc, bytes)
    }
}

// The row that was made, if one was, and what stands behind it.
fn made_front(bytes: &[u8]) -> Option<(Option<u64>, &[u8])>
    ensures { IfSome result (λ front. bytes.now ≡ compact_text (made_data front.0) ++ front.1.now) }
{
    if let Some(rest) = behind(bytes, b"null") {
        return Some((None, rest));
    }
    let opened = behind(bytes, b"{\"row\":")?;
    let (row, after_row) = count_front(opened)?;
    let rest = behind(after_row, b"}")?;
    Some((Some(row), rest))
}

fn rows_front(alloc: Global, bytes: &[u8]) -> Option<(Outcome, &[u8])>
    ensures { IfSome result (λ front. bytes.now ≡ compact_text (outcome_data front.0) ++ front.1.now) }
{
    let opened = behind(bytes, b"{\"rows\":")?;
    let (rows, after_rows) = list_front(alloc, opened)?;
    let rest = behind(after_rows, b"}")?;
    Some((Outcome::Rows(rows), rest))
}

fn counted_front(bytes: &[u8]) -> Option<(Outcome, &[u8])>
    ensures { IfSome result (λ front. bytes.now ≡ compact_text (outcome_data front.0) ++ front.1.now) }
{
    let opened = behind(bytes, b"{\"count\":")?;
    let (count, after_count) = count_front(opened)?;
    let rest = behind(after_count, b"}")?;
    Some((Outcome::Count(count), rest))
}

fn committed_front(alloc: Global, bytes: &[u8]) -> Option<(Outcome, &[u8])>
    ensures { IfSome result (λ front. bytes.now ≡ compact_text (outcome_data front.0) ++ front.1.now) }
{
    let opened = behind(bytes, b"{\"committed\":")?;
    let (images, after_images) = list_front(alloc, opened)?;
    let rest = behind(after_images, b"}")?;
    Some((Outcome::Committed(images), rest))
}

// Rows, how many were written, or images, at the front, and what stands behind it.
fn outcome_front(alloc: Global, bytes: &[u8]) -> Option<(Outcome, &[u8])>
    ensures { IfSome result (λ front. bytes.now ≡ compact_text (outcome_data front.0) ++ front.1.now) }
{
    if let Some(front) = rows_front(alloc, bytes) {
        return Some(front);
    }
    if let Some(front) = counted_front(bytes) {
        return Some(front);
    }
    committed_front(alloc, bytes)
}

/// The reply whose text all the bytes are, as it is written, where it tells of rows, of how many were written or of images, and drew
/// nothing. `None` of what is spelled otherwise, and for want of memory.
pub(crate) fn reply_as_written(alloc: Global, bytes: &[u8]) -> Option<Reply>
    ensures { IfSome result (λ reply. IsUtf8 bytes.now × (bytes.now ≡ reply_text reply)) }
{
    let Ok(_) = std::str::from_utf8(bytes) else {
        return None;
    };
    let opened = behind(bytes, b"{\"draws\":[],\"made\":")?;
    let (made, after_made) = made_front(opened)?;
    let before_outcome = behind(after_made, b",\"outcome\":")?;
    let (outcome, after_outcome) = outcome_front(alloc, before_outcome)?;
    ends(after_outcome, b"}")?;
    let draws = List::new(alloc);
    Some(Reply {
        outcome,
        draws,
        made,
    })
}
