//! The generated capture.

ghost use Rattle.std.specs.Prelude.{◌≡◌, ◌<◌, ◌≤◌, ◌/◌, ◌++◌, ◌∷◌, ◌*◌, ◌+◌, ◌%◌, [], false, pos, codes, map, length, IfOk, OnOk};
ghost use Rattle.std.specs.List.{range_with_len};
ghost use Rattle.desk_values.specs.declared.value.Value.TheVariants.{Int as IntValue};
ghost use Rattle.desk_schema.specs.declared.line.StartLine.{StartLine};
ghost use Rattle.desk_schema.specs.declared.schema.Rights.TheVariants.{ReadWrite};
ghost use Rattle.desk_schema.specs.Draft.{finished};
ghost use Rattle.desk_schema.specs.Line.{with_name};
ghost use Rattle.desk_schema.specs.State.{added, nothing};
ghost use Rattle.server_words.specs.State.{State};
ghost use Rattle.capture_recorder.specs.Recording.{is_stranger};
ghost use Rattle.capture_recorder.specs.Generated.{about, account, call_in_round, call_in_turn, generated, generated_start};
ghost use Rattle.capture_recorder.specs.Inside.Declaring.{declared};
ghost use Rattle.capture_recorder.specs.Limits.{generated_sessions};

use crate::recorder::Recorder;
use desk_schema::{Draft, Kind, Rights, Start};
use desk_values::{Binds, Call, List, Memory, Txt, Value, Values};
use std::alloc::Global;

/// How many sessions the generated capture has.
pub const GENERATED_SESSIONS: u32 = 4;

/// The recorder of the first calls of the generated capture, so many of them. Its start and the lists of its
/// [`GENERATED_SESSIONS`] sessions are the capture. A line of the start that broke a rule would be told as want of memory;
/// `generated_law` says that none does.
pub fn generate(alloc: Global, calls: u32) -> Result<Recorder, Memory>
    requires least { 1 ≤ calls }
    requires most { calls ≤ 10000 }
    ensures value { IfOk result (λ recorder. recorder ≡ generated calls) }
    ensures count { IfOk result (λ recorder. length recorder.calls ≡ calls) }
{
    let start = start(alloc)?;
    let mut recorder = Recorder::load(alloc, &start)?;
    for i in 0..calls {
        let call = call(alloc, i)?;
        let began = 10 * u64::from(i);
        recorder.record(i % GENERATED_SESSIONS, &call, began, began + 5)?;
    }
    Ok(recorder)
}

// The start of the generated capture.
fn start(alloc: Global) -> Result<Start, Memory>
    ensures { IfOk result (λ start. start ≡ generated_start) }
{
    let mut draft = tables(alloc)?;
    for k in 1..101u32 {
        add_account(alloc, &mut draft, k)?;
    }
    let start = whole(draft)?;
    Ok(start)
}

fn add_account(alloc: Global, draft: &mut Draft, k: u32) -> Result<(), Memory>
    ensures { OnOk result (draft.new ≡ added draft.old (StartLine.Row k 0 (IntValue (pos k) ∷ IntValue (pos 1000) ∷ []))) }
{
    let mut values = List::new(alloc);
    values.push(Value::Int(i64::from(k)))?;
    values.push(Value::Int(1000))?;
    draft.add_row(u64::from(k), 0, values).map_err(|_| Memory)
}

fn whole(draft: Draft) -> Result<Start, Memory>
    ensures { IfOk result (λ start. finished start ≡ added draft (StartLine.NextRow 101)) }
{
    draft.finish(101).map_err(|_| Memory)
}

// Its service and its table.
fn tables(alloc: Global) -> Result<Draft, Memory>
    ensures { IfOk result (λ draft. draft ≡ declared) }
{
    let mut draft = nothing_declared(alloc)?;
    add_service(alloc, &mut draft)?;
    add_table(alloc, &mut draft)?;
    add_column(alloc, &mut draft, "id", Kind::Int(1, 100), true)?;
    add_column(alloc, &mut draft, "bal", Kind::Int(0, 1_000_000), false)?;
    Ok(draft)
}

// A line that broke a rule would be told as want of memory here and below; none does.
fn nothing_declared(alloc: Global) -> Result<Draft, Memory>
    ensures { IfOk result (λ draft. draft ≡ added (added nothing (StartLine.Head 1)) (StartLine.Level 1)) }
{
    Draft::new(alloc, 1).map_err(|_| Memory)
}

fn add_service(alloc: Global, draft: &mut Draft) -> Result<(), Memory>
    ensures { OnOk result (draft.new ≡ added draft.old (StartLine.Service (codes "main") ReadWrite)) }
{
    let name = word(alloc, "main")?;
    draft
        .add_service(&name, Rights::ReadWrite)
        .map_err(|_| Memory)
}

fn add_table(alloc: Global, draft: &mut Draft) -> Result<(), Memory>
    ensures { OnOk result (draft.new ≡ added draft.old (StartLine.Table (codes "acct"))) }
{
    let name = word(alloc, "acct")?;
    draft.add_table(&name).map_err(|_| Memory)
}

fn add_column(
    alloc: Global,
    draft: &mut Draft,
    name: &str,
    kind: Kind,
    not_null: bool,
) -> Result<(), Memory>
    ensures { OnOk result
        (draft.new ≡ added draft.old (StartLine.Column name.now (with_name draft.old.start.schema.sequences kind) not_null)) }
{
    let name = word(alloc, name)?;
    draft.add_col(&name, kind, not_null).map_err(|_| Memory)
}

// The call with stamp i.
fn call(alloc: Global, i: u32) -> Result<Call, Memory>
    requires { i < 10000 }
    ensures value { IfOk result (λ call. call ≡ call_in_round i (i / generated_sessions)) }
    ensures given { IfOk result (λ call. (state : State) → is_stranger state call ≡ false) }
{
    let round = i / GENERATED_SESSIONS;
    if round == 0 {
        return Ok(Call::Connect(word(alloc, "main")?));
    }
    call_in_turn(alloc, i, (round - 1) % 3)
}

// The call with stamp i that has this turn among update, read and commit.
fn call_in_turn(alloc: Global, i: u32, turn: u32) -> Result<Call, Memory>
    requires { i < 10000 }
    ensures value { IfOk result (λ call. call ≡ call_in_turn i turn) }
    ensures given { IfOk result (λ call. (state : State) → is_stranger state call ≡ false) }
{
    if turn == 0 {
        about(alloc, i, "UPDATE acct SET bal = bal + 1 WHERE id = :1")
    } else if turn == 1 {
        about(alloc, i, "SELECT bal FROM acct WHERE id = :1")
    } else {
        Ok(Call::Sql(word(alloc, "COMMIT")?, Binds::new(alloc)))
    }
}

// The statement about the account of the call with stamp i.
fn about(alloc: Global, i: u32, text: &str) -> Result<Call, Memory>
    requires { i < 10000 }
    ensures value { IfOk result (λ call. call ≡ about i text.now) }
    ensures given { IfOk result (λ call. (state : State) → is_stranger state call ≡ false) }
{
    let mut binds = List::new(alloc);
    binds.push(Value::Int(i64::from((7 * i) % 100 + 1)))?;
    Ok(Call::Sql(word(alloc, text)?, Binds::from_values(binds)))
}

// A text of the generated capture.
fn word(alloc: Global, text: &str) -> Result<Txt, Memory>
    ensures { IfOk result (λ word. word ≡ text.now) }
{
    Txt::from_bytes(alloc, text.as_bytes()).map_err(|_| Memory)
}
