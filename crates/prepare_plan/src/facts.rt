//! What is known of each call: the tables that it speaks of and those that it wrote.

ghost use Rattle.std.specs.Prelude.{◌≡◌, ◌<◌, ◌≤◌, ◌^◌, length, IfOk, IfSome};
ghost use Rattle.std.specs.Option.{option_copied};
ghost use Rattle.std.specs.List.{AllByRecursion};
ghost use Rattle.desk_values.specs.Good.{IsGoodImage};
ghost use Rattle.sql_tree.specs.Plain.{plan_of};
ghost use Rattle.sql_eval.specs.SchemaNames.{table_of};
ghost use Rattle.sql_reader.specs.Reading.{statement_of};
ghost use Rattle.captured_calls.specs.Facts.{facts_of, fact_of, refs_of, refs_of_call, only_table, refs_of_statement, tables_of_images, writes_of};
ghost use Rattle.std.specs.Prelude.{Some};
ghost use Rattle.desk_schema.specs.Schema.{place_ignoring_case, table_names};
ghost use Rattle.captured_calls.specs.Inside.{IsFit};
ghost use Rattle.prepare_plan.specs.Inside.{refs_of_plan};
ghost use Rattle.std.specs.Prelude.{List as AnyList};
ghost use Rattle.desk_values.specs.declared.value.Value.{Value};
ghost use Rattle.statement_cache.specs.Kept.{AreRight, outcome_of, outcome_of_text};

use crate::recorded::is_numbered;
use desk_schema::Schema;
use desk_values::{Binds, Call, Captured, Image, List, Memory, Outcome, TABLE_LIMIT, Txt};
use object_depends::{Fact, FactList};
use sql_eval::Ready;
use sql_reader::{SqlErr, read_statement};
use sql_tree::Statement;
use statement_cache::{Kept, Statements};
use std::alloc::Global;

/// The facts of the calls.
#[tactic(auto, unfolding(captured_calls::specs::Facts::facts_of))]
pub(crate) fn facts_of(
    alloc: Global,
    schema: &Schema,
    calls: &[Captured],
) -> Result<FactList, Memory>
    requires fit { AllByRecursion IsFit calls.now }
    requires tables { length schema.now.tables ≤ 32 }
    ensures { IfOk result (λ facts. facts ≡ facts_of schema.now calls.now) }
{
    let mut facts = List::new(alloc);
    let mut statements = Statements::new(alloc);
    for call in calls {
        facts.push(fact_of(alloc, schema, &mut statements, call)?)?;
    }
    Ok(facts)
}

fn fact_of(
    alloc: Global,
    schema: &Schema,
    statements: &mut Statements,
    call: &Captured,
) -> Result<Fact, Memory>
    requires fit { IsFit call.now }
    requires tables { length schema.now.tables ≤ 32 }
    requires right { AreRight schema.now statements.old }
    ensures fact { IfOk result (λ fact. fact ≡ fact_of schema.now call.now) }
    ensures right { AreRight schema.now statements.new }
{
    let writes = writes_of(call);
    let refs = if is_numbered(call) {
        writes
    } else {
        refs_of_call(alloc, schema, statements, &call.call)?
    };
    Ok(Fact {
        session: call.session,
        seen: call.seen,
        number: call.number,
        refs,
        writes,
    })
}

/// The tables that a numbered commit wrote.
fn writes_of(call: &Captured) -> u32
    requires { IsFit call.now }
    ensures { result ≡ writes_of call.now }
{
    match &call.reply.outcome {
        Outcome::Committed(images) => tables_of_images(images.as_slice()),
        _ => 0,
    }
}

fn tables_of_images(images: &[Image]) -> u32
    requires { AllByRecursion IsGoodImage images.now }
    ensures { result ≡ tables_of_images images.now }
{
    let mut tables = 0;
    for image in images {
        tables |= only(image.table);
    }
    tables
}

/// The tables that a call speaks of. Its text is read once, but for one that a check refuses.
fn refs_of_call(
    alloc: Global,
    schema: &Schema,
    statements: &mut Statements,
    call: &Call,
) -> Result<u32, Memory>
    requires tables { length schema.now.tables ≤ 32 }
    requires right { AreRight schema.now statements.old }
    ensures refs { IfOk result (λ refs. refs ≡ refs_of_call schema.now call.now) }
    ensures right { AreRight schema.now statements.new }
{
    match call {
        Call::Sql(text, binds) => {
            statements.learn(schema, text, binds);
            refs_of_known(alloc, schema, statements, text, binds)
        }
        Call::Connect(_) => Ok(0),
        Call::Disconnect => Ok(0),
    }
}

/// The tables that a text speaks of, where some texts are kept.
fn refs_of_known(
    alloc: Global,
    schema: &Schema,
    statements: &Statements,
    text: &Txt,
    binds: &Binds,
) -> Result<u32, Memory>
    requires tables { length schema.now.tables ≤ 32 }
    requires right { AreRight schema.now statements.now }
    ensures { IfOk result (λ refs. refs ≡ refs_of_statement schema.now (statement_of text.now)) }
{
    match statements.find(text, binds) {
        Some(kept) => refs_of_kept(alloc, schema, text, kept),
        None => refs_of_text(alloc, schema, text),
    }
}

/// The tables that a text speaks of that is this to a server.
fn refs_of_kept(alloc: Global, schema: &Schema, text: &Txt, kept: &Kept) -> Result<u32, Memory>
    requires { length schema.now.tables ≤ 32 }
    ensures { (binds : AnyList Value) → outcome_of_text schema.now text.now binds ≡ outcome_of kept.now
        → IfOk result (λ refs. refs ≡ refs_of_statement schema.now (statement_of text.now)) }
{
    match kept {
        Kept::Checked(ready) => Ok(refs_of_ready(ready)),
        Kept::Refused(_) => refs_of_text(alloc, schema, text),
        Kept::Unreadable => Ok(0),
    }
}

/// The tables that a checked statement speaks of.
fn refs_of_ready(ready: &Ready) -> u32
    ensures { IfSome (table_of (plan_of ready.now)) (λ table. table < 32) → result ≡ refs_of_plan (plan_of ready.now) }
{
    match ready {
        Ready::SetReadOnly => u32::MAX,
        Ready::Select(table, _, _, _, _) => only_within(*table),
        Ready::Insert(table, _, _) => only_within(*table),
        Ready::Update(table, _, _) => only_within(*table),
        Ready::Delete(table, _) => only_within(*table),
        Ready::Next(_) | Ready::Commit | Ready::Rollback => 0,
        Ready::Savepoint(_) | Ready::RollbackTo(_) => 0,
    }
}

/// The set of one table, none where there is no such.
fn only_within(table: u32) -> u32
    ensures { table < 32 → result ≡ 2 ^ table }
{
    if table < TABLE_LIMIT { only(table) } else { 0 }
}

fn refs_of_text(alloc: Global, schema: &Schema, text: &Txt) -> Result<u32, Memory>
    requires { length schema.now.tables ≤ 32 }
    ensures { IfOk result (λ refs. refs ≡ refs_of_statement schema.now (statement_of text.now)) }
{
    match read_statement(alloc, text) {
        Ok(statement) => Ok(refs_of_statement(schema, &statement)),
        Err(SqlErr::Syntax) => Ok(0),
        Err(SqlErr::Memory) => Err(Memory),
    }
}

fn refs_of_statement(schema: &Schema, statement: &Statement) -> u32
    requires { length schema.now.tables ≤ 32 }
    ensures { result ≡ refs_of_statement schema.now (Some (plan_of statement.now)) }
{
    match statement {
        Statement::SetReadOnly => u32::MAX,
        Statement::Select(table, _, _, _, _) => table_named(schema, table),
        Statement::Insert(table, _, _) => table_named(schema, table),
        Statement::Update(table, _, _) => table_named(schema, table),
        Statement::Delete(table, _) => table_named(schema, table),
        Statement::Next(_) | Statement::Commit | Statement::Rollback => 0,
        Statement::Savepoint(_) | Statement::RollbackTo(_) => 0,
    }
}

/// The table of this name, if there is one, as a set.
fn table_named(schema: &Schema, name: &Txt) -> u32
    requires { length schema.now.tables ≤ 32 }
    ensures { result ≡ only_table (place_ignoring_case (table_names schema.now.tables) name.now) }
{
    match schema.table_named(name) {
        Some(table) => only(table),
        None => 0,
    }
}

/// The set of one table.
fn only(table: u32) -> u32
    requires { table < 32 }
    ensures { result ≡ 2 ^ table }
{
    1 << table
}
