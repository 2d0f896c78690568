//! Replies and calls.

ghost use Rattle.std.specs.Prelude.{◌≡◌, ◌++◌, OnOk};
ghost use Rattle.desk_values.specs.declared.call.Outcome.TheVariants.{Refused};
ghost use Rattle.replay_show.specs.Values.{call_shown, cause_shown, draws_shown, images_shown, made_shown, outcome_shown, reply_shown, rows_shown};

use crate::readable::{Readable, append_counted, append_listed};
use crate::texts::append_shown;
use desk_schema::Schema;
use desk_values::fields::append_u64;
use desk_values::{Bytes, Call, Fault, Image, Memory, Outcome, Reply, Value, Values};

impl Readable for Reply {
    ghost readable = { reply_shown };

    fn append_to(&self, schema: &Schema, to: &mut Bytes) -> Result<(), Memory> {
        self.outcome.append_to(schema, to)?;
        append_draws(schema, self.draws.as_slice(), to)?;
        append_made(self.made, to)
    }
}

impl Readable for Outcome {
    ghost readable = { outcome_shown };

    fn append_to(&self, schema: &Schema, to: &mut Bytes) -> Result<(), Memory> {
        match self {
            Outcome::Rows(rows) => append_rows(schema, rows.as_slice(), to),
            Outcome::Count(count) => append_counted(*count, " row written", " rows written", to),
            Outcome::Committed(images) => append_images(schema, images.as_slice(), to),
            Outcome::RolledBack => to.append(b"rolled back"),
            Outcome::Marked => to.append(b"marked"),
            Outcome::Connected => to.append(b"connected"),
            Outcome::Disconnected => to.append(b"disconnected"),
            Outcome::Refused(fault) => append_refused(schema, *fault, to),
        }
    }
}

fn append_rows(schema: &Schema, rows: &[Values], to: &mut Bytes) -> Result<(), Memory>
    ensures { OnOk result (to.new ≡ to.old ++ rows_shown schema.now rows.now) }
{
    if rows.is_empty() {
        return to.append(b"no row");
    }
    append_counted(rows.len() as u64, " row: ", " rows: ", to)?;
    append_listed(schema, rows, to)
}

fn append_images(schema: &Schema, images: &[Image], to: &mut Bytes) -> Result<(), Memory>
    ensures { OnOk result (to.new ≡ to.old ++ images_shown schema.now images.now) }
{
    if images.is_empty() {
        return to.append(b"committed nothing");
    }
    to.append(b"committed: ")?;
    append_listed(schema, images, to)
}

fn append_refused(schema: &Schema, fault: Fault, to: &mut Bytes) -> Result<(), Memory>
    ensures { OnOk result (to.new ≡ to.old ++ outcome_shown schema.now (Refused fault)) }
{
    to.append(b"refused: ")?;
    to.append(cause(fault).as_bytes())?;
    to.append(b" (")?;
    append_u64(u64::from(fault.number()), to)?;
    to.append(b")")
}

// Why a call is refused.
fn cause(fault: Fault) -> &'static str
    ensures { result.now ≡ cause_shown fault }
{
    match fault {
        Fault::Syntax => "the text is no statement",
        Fault::UnknownTable => "no such table",
        Fault::UnknownColumn => "no such column, or one named twice",
        Fault::UnknownSequence => "no such sequence",
        Fault::UnknownService => "no such service",
        Fault::Kinds => "parts that do not go together",
        Fault::BindMissing => "no value for a bind",
        Fault::Locked => "another session holds the row or key",
        Fault::DuplicateKey => "the key is there already",
        Fault::NullValue => "Null in a column that is not null",
        Fault::OutOfRange => "a number out of its column's range",
        Fault::TextTooLong => "a text longer than its column",
        Fault::ZeroDivisor => "division by zero",
        Fault::Overflow => "overflow",
        Fault::ReadOnly => "only reading is allowed",
        Fault::NotConnected => "the session is not connected",
        Fault::AlreadyConnected => "connected already",
        Fault::UnderWay => "a transaction is under way",
        Fault::TooManyRows => "over 1,000 rows matched or changed",
        Fault::NoSavepoint => "no such savepoint",
    }
}

fn append_draws(schema: &Schema, draws: &[Value], to: &mut Bytes) -> Result<(), Memory>
    ensures { OnOk result (to.new ≡ to.old ++ draws_shown schema.now draws.now) }
{
    if draws.is_empty() {
        return Ok(());
    }
    to.append(b", drew ")?;
    append_listed(schema, draws, to)
}

fn append_made(made: Option<u64>, to: &mut Bytes) -> Result<(), Memory>
    ensures { OnOk result (to.new ≡ to.old ++ made_shown made) }
{
    match made {
        Some(row) => {
            to.append(b", made row ")?;
            append_u64(row, to)
        }
        None => Ok(()),
    }
}

/// Appends what is asked.
pub(crate) fn append_call(call: &Call, to: &mut Bytes) -> Result<(), Memory>
    ensures { OnOk result (to.new ≡ to.old ++ call_shown call.now) }
{
    match call {
        Call::Connect(service) => {
            to.append(b"connect ")?;
            append_shown(service, to)
        }
        Call::Sql(text, _) => append_shown(text, to),
        Call::Disconnect => to.append(b"disconnect"),
    }
}
