//! Replies, calls and events, and copies of them.

use capture_format::read_reply;
use case_text::{call_of, first_word, number_of, small_number};
use desk_values::{
    Call, Captured, Copied, Event, Image, Images, List, Memory, Outcome, ReadErr, Reply, RowList,
    Same, Values, read_values,
};
use std::alloc::Global;

pub fn answer(alloc: Global, word: &str, text: &str) -> Result<String, ReadErr> {
    match word {
        "call" => Ok(copied(alloc, &call_of(alloc, text)?)?),
        "rows" => put_together(
            alloc,
            Outcome::Rows(rows_of(alloc, text)?),
            List::new(alloc),
        ),
        "images" => put_together(
            alloc,
            Outcome::Committed(images_of(alloc, text)?),
            List::new(alloc),
        ),
        "draws" => put_together(alloc, Outcome::Marked, read_values(alloc, text.as_bytes())?),
        _ => Ok(of_reply(alloc, word, read_reply(alloc, text.as_bytes())?)?),
    }
}

// Of a reply that has a text.
fn of_reply(alloc: Global, word: &str, reply: Reply) -> Result<String, Memory> {
    match word {
        "start" => copied_event(alloc, &Event::Start(3, 250), &reply),
        "answer" => copied_event(alloc, &Event::Answer(3, reply.copy()?), &reply),
        "captured" => copied(alloc, &captured_of(reply)),
        _ => judged(alloc, &reply),
    }
}

// Of a reply of these parts, which may have no text.
fn put_together(alloc: Global, outcome: Outcome, draws: Values) -> Result<String, ReadErr> {
    let reply = Reply {
        outcome,
        draws,
        made: None,
    };
    Ok(judged(alloc, &reply)?)
}

// Whether the reply is good, and its copy the same.
fn judged(alloc: Global, reply: &Reply) -> Result<String, Memory> {
    let good = reply.good();
    let same = reply.copy()?.same(reply);
    Ok(format!(in alloc; "good {good}, copied {same}")?)
}

// Whether a copy of the value is the same.
fn copied<T: Copied + Same>(alloc: Global, value: &T) -> Result<String, Memory> {
    let same = value.copy()?.same(value);
    Ok(format!(in alloc; "copied {same}")?)
}

// What a copy of the event says, and whether the answer in it is this reply.
fn copied_event(alloc: Global, event: &Event, reply: &Reply) -> Result<String, Memory> {
    match &event.copy()? {
        Event::Start(stamp, pause) => Ok(format!(in alloc; "start {stamp} {pause}")?),
        Event::Answer(stamp, copy) => {
            let same = copy.same(reply);
            Ok(format!(in alloc; "answer {stamp}, copied {same}")?)
        }
    }
}

fn captured_of(reply: Reply) -> Captured {
    Captured {
        session: 1,
        place: 2,
        stamp: 3,
        seen: 4,
        number: 5,
        began: 6,
        ended: 7,
        call: Call::Disconnect,
        reply,
    }
}

/// Lists of values between `;`.
pub fn rows_of(alloc: Global, text: &str) -> Result<RowList, ReadErr> {
    let mut rows = List::new(alloc);
    for values in text.split(';') {
        rows.push(read_values(alloc, values.as_bytes())?)?;
    }
    Ok(rows)
}

// Images between `;`, each a row, a table, and the values that are left or `gone`.
fn images_of(alloc: Global, text: &str) -> Result<Images, ReadErr> {
    let mut images = List::new(alloc);
    for image in text.split(';') {
        let (row, rest) = first_word(image);
        let (table, values) = first_word(rest);
        images.push(Image {
            row: number_of(row)?,
            table: small_number(table),
            left: left_of(alloc, values)?,
        })?;
    }
    Ok(images)
}

fn left_of(alloc: Global, text: &str) -> Result<Option<Values>, ReadErr> {
    match text {
        "gone" => Ok(None),
        _ => Ok(Some(read_values(alloc, text.as_bytes())?)),
    }
}
