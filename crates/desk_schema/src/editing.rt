//! What an edit makes of a start.

ghost use Rattle.std.specs.Prelude.{◌≡◌, ◌<◌, ◌++◌, ◌∷◌, [], length, slice_set, IfOk};
ghost use Rattle.std.specs.List.{remove};
ghost use Rattle.desk_schema.specs.Change.{change_at, edited, with_column_at, with_rights, with_shape};
ghost use Rattle.desk_schema.specs.Draft.{JudgesUnlessMemory};
ghost use Rattle.desk_schema.specs.File.{IsStart};
ghost use Rattle.desk_schema.specs.Schema.{columns_of};
ghost use Rattle.desk_schema.specs.Inside.Declaring.{EditFits};

use crate::declaring::{Parts, declared};
use crate::draft::DraftErr;
use crate::edit::Edit;
use crate::schema::{Column, Kind, Rights, Service, Table};
use crate::start::Start;
use desk_values::{Copied, List, Memory, Txt};
use std::alloc::Global;

/// The start with an edit. `Rule` where it breaks a rule then.
pub(crate) fn edited(alloc: Global, start: &Start, edit: Edit) -> Result<Start, DraftErr>
    requires { EditFits start.now edit }
    ensures start { IfOk result (λ next. next ≡ edited edit start.now) }
    ensures rule { JudgesUnlessMemory result (IsStart (edited edit start.now)) }
{
    let parts = Parts::of(start);
    match edit {
        Edit::Level(level) => declared(alloc, Parts { level, ..parts }),
        Edit::Shape(table, column, kind, not_null) => {
            let tables = with_shape(alloc, parts.tables, table, column, kind, not_null)?;
            let tables = tables.as_slice();
            declared(alloc, Parts { tables, ..parts })
        }
        Edit::Next(sequence, next) => {
            let next_values = with_next(alloc, parts.next_values, sequence, next)?;
            let next_values = next_values.as_slice();
            declared(
                alloc,
                Parts {
                    next_values,
                    ..parts
                },
            )
        }
        Edit::Grant(place, rights) => {
            let services = with_rights(alloc, parts.services, place, rights)?;
            let services = services.as_slice();
            declared(alloc, Parts { services, ..parts })
        }
        Edit::Add(name, rights) => {
            let services = with_service(alloc, parts.services, name, rights)?;
            let services = services.as_slice();
            declared(alloc, Parts { services, ..parts })
        }
        Edit::Withdraw(place) => {
            let services = without_service(alloc, parts.services, place)?;
            let services = services.as_slice();
            declared(alloc, Parts { services, ..parts })
        }
    }
}

/// The tables, one of which holds something else in one of its columns.
fn with_shape(
    alloc: Global,
    tables: &[Table],
    table: u32,
    column: u32,
    kind: Kind,
    not_null: bool,
) -> Result<List<Table>, Memory>
    requires table { table < length tables.now }
    requires column { column < length (columns_of tables.now table) }
    ensures { IfOk result (λ all. all ≡ change_at (with_column_at (with_shape kind not_null) column) table tables.now) }
{
    let place = table as usize;
    let columns = tables[place].columns.as_slice();
    let columns = with_column(alloc, columns, column, kind, not_null)?;
    let mut tables = List::from_slice(alloc, tables)?.into_vec();
    tables[place].columns = columns;
    Ok(List::from_vec(tables))
}

fn with_column(
    alloc: Global,
    columns: &[Column],
    place: u32,
    kind: Kind,
    not_null: bool,
) -> Result<List<Column>, Memory>
    requires { place < length columns.now }
    ensures { IfOk result (λ all. all ≡ change_at (with_shape kind not_null) place columns.now) }
{
    let mut columns = List::from_slice(alloc, columns)?.into_vec();
    let name = columns[place as usize].name.copy()?;
    columns[place as usize] = Column {
        name,
        kind,
        not_null,
    };
    Ok(List::from_vec(columns))
}

fn with_next(
    alloc: Global,
    next_values: &[u64],
    sequence: u32,
    next: u64,
) -> Result<Vec<u64>, Memory>
    requires { sequence < length next_values.now }
    ensures { IfOk result (λ all. all.items ≡ slice_set next_values.now sequence next) }
{
    let mut all = Vec::new(alloc);
    all.extend_from_slice(next_values)?;
    all[sequence as usize] = next;
    Ok(all)
}

fn with_rights(
    alloc: Global,
    services: &[Service],
    place: u32,
    rights: Rights,
) -> Result<List<Service>, Memory>
    requires { place < length services.now }
    ensures { IfOk result (λ all. all ≡ change_at (with_rights rights) place services.now) }
{
    let mut services = List::from_slice(alloc, services)?.into_vec();
    services[place as usize].rights = rights;
    Ok(List::from_vec(services))
}

fn with_service(
    alloc: Global,
    services: &[Service],
    name: Txt,
    rights: Rights,
) -> Result<List<Service>, Memory>
    ensures { IfOk result (λ all. all ≡ services.now ++ record { name = name; rights = rights } ∷ []) }
{
    let mut services = List::from_slice(alloc, services)?;
    services.push(Service { name, rights })?;
    Ok(services)
}

fn without_service(alloc: Global, services: &[Service], place: u32) -> Result<List<Service>, Memory>
    requires { place < length services.now }
    ensures { IfOk result (λ all. all ≡ remove services.now place) }
{
    let mut services = List::from_slice(alloc, services)?.into_vec();
    let _gone = services.remove(place as usize);
    Ok(List::from_vec(services))
}
