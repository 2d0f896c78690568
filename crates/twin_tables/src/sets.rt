//! Lists that are compared as sets, under a map of ids.

ghost use Rattle.std.specs.Prelude.{◌≡◌, ◌↔◌, ℕ, List as Sequence, Option as Maybe, IfOk, IsTrue, Some};
ghost use Rattle.std.specs.Ordering.{nat_cmp};
ghost use Rattle.id_pairs.specs.Pairs.{IdPair};
ghost use Rattle.id_pairs.specs.Carrying.Carried.{carried_image, carried_number, carried_value, each_some};
ghost use Rattle.desk_values.specs.Sorting.{kind_then_value};
ghost use Rattle.server_words.specs.Views.{AreOnce, key_order};
ghost use Rattle.law_server.specs.Renaming.Twins.{AreSets};
ghost use Rattle.twin_tables.specs.Members.{carried_key, image_order, order_of_left};
ghost use Rattle.std.proofs.lemmas.Cmp.{nat_cmp_total};
ghost use Rattle.std.proofs.lemmas.Map.Lookups.{exact_unsigned};
ghost use Rattle.desk_values.proofs.ValueOrder.{value_total};
ghost use Rattle.server_words.proofs.Once.{key_exact, key_total, value_exact};
ghost use Rattle.twin_tables.specs.Orders.{image_exact, image_total};

use desk_values::{
    Copied, Image, Memory, Same, Value, Values, kind_then_value, same_items, value_by_value,
};
use remap_ids::{Id, IdMap};
use server_words::KeyId;
use std::alloc::Global;
use std::cmp::Ordering;

/// An item of a list that is compared as a set: it may have an image under a map of ids, and items have an order in which only
/// equal ones tie.
pub trait Member: Copied + Drop {
    ghost use Rattle.std.specs.declared.cmp.Ordering.{Ordering as Comparison};
    ghost use Rattle.std.specs.declared.cmp.Ordering.TheVariants.{Equal};
    ghost use Rattle.std.specs.Cmp.{IsTotalOrder};

    /// The item with each id replaced by its image, where each has one.
    ghost carried: { Sequence IdPair → Self → Maybe Self };

    /// How two compare.
    ghost order_of: { Self → Self → Comparison };

    /// The item with each id replaced by its image. `None` where an id has no image.
    fn carried(&self, map: &IdMap) -> Result<Option<Self>, Memory>
    where
        Self: Sized,
        ensures { IfOk result (λ other. other ≡ carried map.now.pairs self.now) };

    /// How two compare.
    fn order(&self, other: &Self) -> Ordering
        ensures { result ≡ order_of self.now other.now };

    // It is an order, and only equal items tie.
    ghost total: { IsTotalOrder order_of };

    ghost exact: { (x y : Self) → order_of x y ≡ Equal → x ≡ y };
}

impl Member for u64 {
    ghost carried = { carried_number };

    ghost order_of = { nat_cmp };

    ghost total = { nat_cmp_total };

    ghost exact = { exact_unsigned };

    fn carried(&self, map: &IdMap) -> Result<Option<u64>, Memory> {
        Ok(carried_number(map, *self))
    }

    fn order(&self, other: &u64) -> Ordering {
        self.cmp(other)
    }
}

impl Member for Value {
    ghost carried = { carried_value };

    ghost order_of = { kind_then_value };

    ghost total = { value_total };

    ghost exact = { value_exact };

    fn carried(&self, map: &IdMap) -> Result<Option<Value>, Memory> {
        match Id::of_value(self) {
            Some(id) => Ok(map.image(id).map(|image| image.to_value())),
            None => Ok(Some(self.copy()?)),
        }
    }

    fn order(&self, other: &Value) -> Ordering {
        kind_then_value(self, other)
    }
}

impl Member for KeyId {
    ghost carried = { carried_key };

    ghost order_of = { key_order };

    ghost total = { key_total };

    ghost exact = { key_exact };

    fn carried(&self, map: &IdMap) -> Result<Option<KeyId>, Memory> {
        match Member::carried(&self.key, map)? {
            Some(key) => Ok(Some(KeyId {
                table: self.table,
                key,
            })),
            None => Ok(None),
        }
    }

    fn order(&self, other: &KeyId) -> Ordering {
        self.table
            .cmp(&other.table)
            .then(kind_then_value(&self.key, &other.key))
    }
}

impl Member for Image {
    ghost carried = { carried_image };

    ghost order_of = { image_order };

    ghost total = { image_total };

    ghost exact = { image_exact };

    fn carried(&self, map: &IdMap) -> Result<Option<Image>, Memory> {
        let Some(row) = carried_number(map, self.row) else {
            return Ok(None);
        };
        let left = match &self.left {
            None => None,
            Some(values) => match carried_values(map, values)? {
                Some(others) => Some(others),
                None => return Ok(None),
            },
        };
        Ok(Some(Image {
            row,
            table: self.table,
            left,
        }))
    }

    fn order(&self, other: &Image) -> Ordering {
        self.row
            .cmp(&other.row)
            .then(self.table.cmp(&other.table))
            .then(order_of_left(&self.left, &other.left))
    }
}

/// The row that stands for a captured one.
pub fn carried_number(map: &IdMap, row: u64) -> Option<u64>
    ensures { result ≡ carried_number map.now.pairs row }
{
    match map.image(Id::Row(row)) {
        Some(Id::Row(other)) => Some(other),
        _ => None,
    }
}

// Values with each id replaced by its image, where each has one.
fn carried_values(map: &IdMap, values: &Values) -> Result<Option<Values>, Memory>
    ensures { IfOk result (λ others. others ≡ each_some (carried_value map.now.pairs) values.now) }
{
    let mut carried = Values::new(values.allocator());
    for value in values.as_slice() {
        match Member::carried(value, map)? {
            Some(other) => carried.push(other)?,
            None => return Ok(None),
        }
    }
    Ok(Some(carried))
}

// How what is left of two rows compares: a row that is gone stands first.
fn order_of_left(left: &Option<Values>, other: &Option<Values>) -> Ordering
    ensures { result ≡ order_of_left left.now other.now }
{
    match (left, other) {
        (None, None) => Ordering::Equal,
        (None, Some(_)) => Ordering::Less,
        (Some(_), None) => Ordering::Greater,
        (Some(values), Some(others)) => value_by_value(values.as_slice(), others.as_slice()),
    }
}

/// Whether the second list is, as a set, the first with each id replaced by its image. An id without an image makes it none.
pub fn twin_sets<T: Member + Same>(
    alloc: Global,
    map: &IdMap,
    items: &[T],
    others: &[T],
) -> Result<bool, Memory>
    ensures { IfOk result
        (λ twins. IsTrue twins ↔ AreSets (λ x y. T.carried map.now.pairs x ≡ Some y) items.now others.now) }
{
    let mut carried = Vec::new(alloc);
    for item in items {
        match item.carried(map)? {
            Some(other) => carried.push(other)?,
            None => return Ok(false),
        }
    }
    same_sets(carried, copies(alloc, others)?)
}

fn copies<T: Copied + Drop>(alloc: Global, items: &[T]) -> Result<Vec<T>, Memory>
    ensures { IfOk result (λ copies. copies.items ≡ items.now) }
{
    let mut copies = Vec::new(alloc);
    for item in items {
        copies.push(item.copy()?)?;
    }
    Ok(copies)
}

// Whether the two have the same items, each as often as it may.
fn same_sets<T: Member + Same>(items: Vec<T>, others: Vec<T>) -> Result<bool, Memory>
    ensures { IfOk result (λ same. IsTrue same ↔ AreSets (λ x y. x ≡ y) items.items others.items) }
{
    let items = ascending(items)?;
    let others = ascending(others)?;
    Ok(same_items(items.as_slice(), others.as_slice()))
}

// The items, each once, in their order.
fn ascending<T: Member + Same>(items: Vec<T>) -> Result<Vec<T>, Memory>
    ensures { IfOk result (λ once. AreOnce T.order_of items.items once.items) }
{
    let mut items = items;
    items.sort_by(|item, other| item.order(other))?;
    items.dedup_by(|item, before| item.order(before).is_eq());
    Ok(items)
}
