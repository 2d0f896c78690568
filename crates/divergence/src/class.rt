ghost use Rattle.std.specs.Prelude.{◌≡◌, ◌&&◌, false, length, ◌==◌, if◌then◌else◌, IfOk, IsOk};
ghost use Rattle.divergence.specs.Bags.Equality.{same_bag, same_map};
ghost use Rattle.id_pairs.specs.Carrying.Carried.{carried_images, carried_rows};
ghost use Rattle.divergence.specs.Class.{class_between, equal_carried, holds_list, variant};

use crate::carry::Carry;
use crate::equality::{same_bag, same_map};
use desk_values::{Images, Memory, Outcome, Reply, RowList};
use remap_ids::IdMap;
use replay_history::Class;
use std::alloc::Global;

/// How the replayed reply to a call differs from the captured one: the first line that fits. Each captured id counts as its
/// image, and an outcome that holds an id without one equals nothing. Draws and made rows are not compared. It takes no
/// memory unless both outcomes hold rows, or both images.
pub fn class_of(
    alloc: Global,
    map: &IdMap,
    captured: &Reply,
    replayed: &Reply,
) -> Result<Class, Memory>
    ensures class { IfOk result (λ class. class ≡ class_between map.now.pairs captured.now replayed.now) }
    ensures succeeds { (holds_list captured.now.outcome && (variant captured.now.outcome == variant replayed.now.outcome)) ≡ false
        → IsOk result }
{
    match (&captured.outcome, &replayed.outcome) {
        (Outcome::Refused(fault), Outcome::Refused(other)) => {
            Ok(same_or(fault.number() == other.number(), Class::MutatedError))
        }
        (_, Outcome::Refused(_)) => Ok(Class::NewError),
        (Outcome::Refused(_), _) => Ok(Class::GoneError),
        (Outcome::Count(count), Outcome::Count(other)) => {
            Ok(same_or(*count == *other, Class::RowsModified))
        }
        (Outcome::Rows(rows), Outcome::Rows(others)) => class_of_rows(alloc, map, rows, others),
        (Outcome::Committed(images), Outcome::Committed(others)) => {
            let same = equal_images(alloc, map, images, others)?;
            Ok(same_or(same, Class::Images))
        }
        (Outcome::RolledBack, Outcome::RolledBack) => Ok(Class::Same),
        (Outcome::Marked, Outcome::Marked) => Ok(Class::Same),
        (Outcome::Connected, Outcome::Connected) => Ok(Class::Same),
        (Outcome::Disconnected, Outcome::Disconnected) => Ok(Class::Same),
        _ => Ok(Class::Shape),
    }
}

// Same, or else the class.
fn same_or(same: bool, class: Class) -> Class
    ensures { result ≡ (if same then Class.Same else class) }
{
    if same { Class::Same } else { class }
}

// Of two lists of rows. How many there are is compared first, which takes no memory.
fn class_of_rows(
    alloc: Global,
    map: &IdMap,
    rows: &RowList,
    others: &RowList,
) -> Result<Class, Memory>
    ensures { IfOk result
        (λ class. class
        ≡ (if length rows.now == length others.now
        then (if equal_carried same_bag (carried_rows map.now.pairs rows.now) others.now then Class.Same else Class.RowContents)
        else Class.RowsFetched)) }
{
    if rows.len() != others.len() {
        return Ok(Class::RowsFetched);
    }
    let same = match rows.carry(alloc, map)? {
        Some(carried) => same_bag(&carried, others)?,
        None => false,
    };
    Ok(same_or(same, Class::RowContents))
}

// Whether the commits are equal.
fn equal_images(
    alloc: Global,
    map: &IdMap,
    images: &Images,
    others: &Images,
) -> Result<bool, Memory>
    ensures { IfOk result (λ same. same ≡ equal_carried same_map (carried_images map.now.pairs images.now) others.now) }
{
    match images.carry(alloc, map)? {
        Some(carried) => same_map(alloc, carried.as_slice(), others.as_slice()),
        None => Ok(false),
    }
}
