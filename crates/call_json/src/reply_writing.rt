//! Replies as tokens of JSON.

ghost use Rattle.std.specs.Prelude.{◌≡◌, ◌++◌, OnOk, codes};
ghost use Rattle.std.specs.List.{flat_map};
ghost use Rattle.call_json.specs.Forms.{image_data, left_data, list_data, made_data, object_of_one, outcome_data, reply_data, values_data};
ghost use Rattle.call_json.specs.Inside.Tokens.{data_tokens, image_tokens, member_tokens, row_tokens};

use crate::writing::{push_count, push_list, push_values, push_yes};
use desk_values::{Image, Outcome, Reply, Values};
use json::{Token, Writer};
use std::alloc::AllocError;

/// A reply.
pub(crate) fn push_reply(reply: &Reply, to: &mut Writer) -> Result<(), AllocError>
    ensures tokens { OnOk result (to.new.tokens ≡ to.old.tokens ++ data_tokens (reply_data reply.now)) }
    ensures before { OnOk result (to.new.before ≡ to.old.before) }
{
    to.begin_object()?;
    push_list("draws", reply.draws.as_slice(), to)?;
    push_made(reply.made, to)?;
    push_told(&reply.outcome, to)?;
    to.end_object()
}

// The row that was made, behind its key.
fn push_made(made: Option<u64>, to: &mut Writer) -> Result<(), AllocError>
    ensures tokens { OnOk result (to.new.tokens ≡ to.old.tokens ++ member_tokens (codes "made") (made_data made)) }
    ensures before { OnOk result (to.new.before ≡ to.old.before) }
{
    to.key("made")?;
    push_row_number(made, to)
}

fn push_row_number(made: Option<u64>, to: &mut Writer) -> Result<(), AllocError>
    ensures tokens { OnOk result (to.new.tokens ≡ to.old.tokens ++ data_tokens (made_data made)) }
    ensures before { OnOk result (to.new.before ≡ to.old.before) }
{
    match made {
        None => to.token(Token::Null),
        Some(row) => {
            to.begin_object()?;
            push_count("row", row, to)?;
            to.end_object()
        }
    }
}

// The outcome, behind its key.
fn push_told(outcome: &Outcome, to: &mut Writer) -> Result<(), AllocError>
    ensures tokens { OnOk result (to.new.tokens ≡ to.old.tokens ++ member_tokens (codes "outcome") (outcome_data outcome.now)) }
    ensures before { OnOk result (to.new.before ≡ to.old.before) }
{
    to.key("outcome")?;
    push_outcome(outcome, to)
}

fn push_outcome(outcome: &Outcome, to: &mut Writer) -> Result<(), AllocError>
    ensures tokens { OnOk result (to.new.tokens ≡ to.old.tokens ++ data_tokens (outcome_data outcome.now)) }
    ensures before { OnOk result (to.new.before ≡ to.old.before) }
{
    match outcome {
        Outcome::Rows(rows) => push_found(rows.as_slice(), to),
        Outcome::Count(count) => {
            to.begin_object()?;
            push_count("count", *count, to)?;
            to.end_object()
        }
        Outcome::Committed(images) => push_committed(images.as_slice(), to),
        Outcome::RolledBack => push_yes("rolledback", to),
        Outcome::Marked => push_yes("marked", to),
        Outcome::Connected => push_yes("connected", to),
        Outcome::Disconnected => push_yes("disconnected", to),
        Outcome::Refused(fault) => {
            to.begin_object()?;
            push_count("refused", u64::from(fault.number()), to)?;
            to.end_object()
        }
    }
}

// What a SELECT found.
fn push_found(rows: &[Values], to: &mut Writer) -> Result<(), AllocError>
    ensures tokens { OnOk result (to.new.tokens ≡ to.old.tokens ++ data_tokens (object_of_one (codes "rows") (list_data values_data rows.now))) }
    ensures before { OnOk result (to.new.before ≡ to.old.before) }
{
    to.begin_object()?;
    to.key("rows")?;
    push_rows(rows, to)?;
    to.end_object()
}

// What a COMMIT left.
fn push_committed(images: &[Image], to: &mut Writer) -> Result<(), AllocError>
    ensures tokens { OnOk result (to.new.tokens ≡ to.old.tokens ++ data_tokens (object_of_one (codes "committed") (list_data image_data images.now))) }
    ensures before { OnOk result (to.new.before ≡ to.old.before) }
{
    to.begin_object()?;
    to.key("committed")?;
    push_images(images, to)?;
    to.end_object()
}

fn push_rows(rows: &[Values], to: &mut Writer) -> Result<(), AllocError>
    ensures tokens { OnOk result (to.new.tokens ≡ to.old.tokens ++ data_tokens (list_data values_data rows.now)) }
    ensures before { OnOk result (to.new.before ≡ to.old.before) }
{
    to.begin_array()?;
    push_each_row(rows, to)?;
    to.end_array()?;
    Ok(())
}

fn push_each_row(rows: &[Values], to: &mut Writer) -> Result<(), AllocError>
    ensures tokens { OnOk result (to.new.tokens ≡ to.old.tokens ++ flat_map row_tokens rows.now) }
    ensures before { OnOk result (to.new.before ≡ to.old.before) }
{
    for row in rows {
        push_values(row.as_slice(), to)?;
    }
    Ok(())
}

fn push_images(images: &[Image], to: &mut Writer) -> Result<(), AllocError>
    ensures tokens { OnOk result (to.new.tokens ≡ to.old.tokens ++ data_tokens (list_data image_data images.now)) }
    ensures before { OnOk result (to.new.before ≡ to.old.before) }
{
    to.begin_array()?;
    push_each_image(images, to)?;
    to.end_array()?;
    Ok(())
}

fn push_each_image(images: &[Image], to: &mut Writer) -> Result<(), AllocError>
    ensures tokens { OnOk result (to.new.tokens ≡ to.old.tokens ++ flat_map image_tokens images.now) }
    ensures before { OnOk result (to.new.before ≡ to.old.before) }
{
    for image in images {
        push_image(image, to)?;
    }
    Ok(())
}

fn push_image(image: &Image, to: &mut Writer) -> Result<(), AllocError>
    ensures tokens { OnOk result (to.new.tokens ≡ to.old.tokens ++ data_tokens (image_data image.now)) }
    ensures before { OnOk result (to.new.before ≡ to.old.before) }
{
    to.begin_object()?;
    push_now(&image.left, to)?;
    push_count("row", image.row, to)?;
    push_count("table", u64::from(image.table), to)?;
    to.end_object()
}

// What is left, behind its key.
fn push_now(left: &Option<Values>, to: &mut Writer) -> Result<(), AllocError>
    ensures tokens { OnOk result (to.new.tokens ≡ to.old.tokens ++ member_tokens (codes "now") (left_data left.now)) }
    ensures before { OnOk result (to.new.before ≡ to.old.before) }
{
    to.key("now")?;
    match left {
        None => to.token(Token::Null),
        Some(values) => push_values(values.as_slice(), to),
    }
}
