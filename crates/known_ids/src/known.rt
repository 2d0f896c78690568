//! Ids with the number of calls after which each is known.

ghost use Rattle.std.specs.Prelude.{true, ◌≡◌, ◌||◌, ◌<◌, ◌≤◌, ◌++◌, ◌∷◌, [], ℕ, nat_le, take, List, Some, OnOk, IfOk};
ghost use Rattle.std.specs.List.{flat_map, list_any};
ghost use Rattle.std.specs.Option.{option_copied};
ghost use Rattle.desk_values.specs.Ids.{ids_of_image, is_id};
ghost use Rattle.desk_values.specs.declared.value.Image.{Image as RowImage};
ghost use Rattle.desk_values.specs.declared.value.Value.{Value as AnyValue};
ghost use Rattle.desk_values.specs.declared.value.Value.TheVariants.{Row as RowId, Draw as DrawId};
ghost use Rattle.desk_values.specs.declared.capture.Captured.{Captured as Recorded};
ghost use Rattle.captured_calls.specs.Known.{given_by, ids_known, is_stranger};
ghost use Rattle.captured_calls.specs.Same.{same_value};
ghost use Rattle.replay_history.specs.Capture.{binds_of};
ghost use Rattle.known_ids.specs.Knowing.{KnowsCalls, KnowsJust, is_by, knows, since};

use desk_values::{Call, Captured, Image, Memory, Reply, Value};
use std::alloc::Global;
use std::collections::BTreeMap;

/// The ids of rows and those that calls gave. Of each it holds after how many calls it is known: those of the rows after
/// none.
#[derive(Drop)]
pub struct KnownIds {
    rows: BTreeMap<u64, usize>,
    draws: BTreeMap<(u32, u64), usize>,
}

impl KnownIds {
    /// The ids of the rows, and those that the calls gave, which stand by stamp.
    pub fn of_calls(alloc: Global, rows: &[Image], calls: &[Captured]) -> Result<KnownIds, Memory>
        ensures { IfOk result (λ known. KnowsCalls known rows.now calls.now) }
    {
        let mut known = KnownIds::of_rows(alloc, rows)?;
        for (k, call) in calls.iter().enumerate() {
            known.add_reply(&call.reply, k + 1)?;
        }
        Ok(known)
    }

    /// Whether an id is known after so many calls. A value that is no id is not.
    pub fn knows(&self, value: &Value, count: usize) -> bool
        ensures { result ≡ knows self.now count value.now }
    {
        match self.since(value) {
            Some(since) => since <= count,
            None => false,
        }
    }

    /// Whether some bind of the call is an id that is not known after so many calls.
    pub fn has_stranger(&self, call: &Call, count: usize) -> bool
        ensures { (rows : List RowImage) (calls : List Recorded) → KnowsCalls self.now rows calls
            → result ≡ list_any (is_stranger (ids_known rows (take count calls))) (binds_of call.now) }
    {
        match call {
            Call::Sql(_, binds) => self.is_any_stranger(binds.as_slice(), count),
            Call::Connect(_) => false,
            Call::Disconnect => false,
        }
    }

    fn is_any_stranger(&self, values: &[Value], count: usize) -> bool
        ensures { (known : List AnyValue) → KnowsJust self.now count known → result ≡ list_any (is_stranger known) values.now }
    {
        for value in values {
            if self.is_stranger(value, count) {
                return true;
            }
        }
        false
    }

    // Whether a value is an id that is not known after so many calls.
    fn is_stranger(&self, value: &Value, count: usize) -> bool
        ensures { (known : List AnyValue) → KnowsJust self.now count known → result ≡ is_stranger known value.now }
    {
        value.is_id() && !self.knows(value, count)
    }

    // After how many calls an id is known.
    fn since(&self, value: &Value) -> Option<usize>
        ensures { result ≡ since self.now value.now }
    {
        match value {
            Value::Row(row) => self.rows.get(row).copied(),
            Value::Draw(sequence, number) => self.draws.get(&(*sequence, *number)).copied(),
            _ => None,
        }
    }

    fn new(alloc: Global) -> KnownIds
        ensures { (count : ℕ) → KnowsJust result count [] }
    {
        KnownIds {
            rows: BTreeMap::new(alloc),
            draws: BTreeMap::new(alloc),
        }
    }

    // The ids of the rows.
    fn of_rows(alloc: Global, rows: &[Image]) -> Result<KnownIds, Memory>
        ensures { IfOk result (λ known. (count : ℕ) → KnowsJust known count (flat_map ids_of_image rows.now)) }
    {
        let mut known = KnownIds::new(alloc);
        for image in rows {
            known.add_image(image)?;
        }
        Ok(known)
    }

    // Adds the number of a row as known after so many calls.
    fn add_row(&mut self, row: u64, since: usize) -> Result<(), Memory>
        ensures then_on { OnOk result ((count : ℕ) (value : AnyValue) → since ≤ count → is_id value ≡ true
            → knows self.new count value ≡ (same_value value (RowId row) || knows self.old count value)) }
        ensures before { OnOk result ((count : ℕ) (value : AnyValue) → count < since → knows self.new count value ≡ knows self.old count value) }
    {
        let since = earlier(self.rows.get(&row).copied(), since);
        self.rows.insert(row, since)?;
        Ok(())
    }

    // Adds a value that was drawn.
    fn add_draw(&mut self, sequence: u32, number: u64, since: usize) -> Result<(), Memory>
        ensures then_on { OnOk result ((count : ℕ) (value : AnyValue) → since ≤ count → is_id value ≡ true
            → knows self.new count value ≡ (same_value value (DrawId sequence number) || knows self.old count value)) }
        ensures before { OnOk result ((count : ℕ) (value : AnyValue) → count < since → knows self.new count value ≡ knows self.old count value) }
    {
        let since = earlier(self.draws.get(&(sequence, number)).copied(), since);
        self.draws.insert((sequence, number), since)?;
        Ok(())
    }

    // Adds a value where it is an id.
    fn add(&mut self, value: &Value, since: usize) -> Result<(), Memory>
        ensures then_on { OnOk result ((count : ℕ) (known : List AnyValue) → since ≤ count → KnowsJust self.old count known
            → KnowsJust self.new count (known ++ value.now ∷ [])) }
        ensures before { OnOk result ((count : ℕ) (known : List AnyValue) → count < since → KnowsJust self.old count known
            → KnowsJust self.new count known) }
    {
        match value {
            Value::Row(row) => self.add_row(*row, since),
            Value::Draw(sequence, number) => self.add_draw(*sequence, *number, since),
            _ => Ok(()),
        }
    }

    // Adds those of the values that are ids.
    fn add_values(&mut self, values: &[Value], since: usize) -> Result<(), Memory>
        ensures then_on { OnOk result ((count : ℕ) (known : List AnyValue) → since ≤ count → KnowsJust self.old count known
            → KnowsJust self.new count (known ++ values.now)) }
        ensures before { OnOk result ((count : ℕ) (known : List AnyValue) → count < since → KnowsJust self.old count known
            → KnowsJust self.new count known) }
    {
        for value in values {
            self.add(value, since)?;
        }
        Ok(())
    }

    // Adds the ids of a row as known from the start.
    fn add_image(&mut self, image: &Image) -> Result<(), Memory>
        ensures { OnOk result ((count : ℕ) (known : List AnyValue) → KnowsJust self.old count known
            → KnowsJust self.new count (known ++ ids_of_image image.now)) }
    {
        self.add(&Value::Row(image.row), 0)?;
        if let Some(values) = &image.left {
            self.add_values(values.as_slice(), 0)?;
        }
        Ok(())
    }

    // Adds what a reply gives: what was drawn and what was made.
    fn add_reply(&mut self, reply: &Reply, since: usize) -> Result<(), Memory>
        ensures then_on { OnOk result ((count : ℕ) (known : List AnyValue) → since ≤ count → KnowsJust self.old count known
            → KnowsJust self.new count (known ++ given_by reply.now)) }
        ensures before { OnOk result ((count : ℕ) (known : List AnyValue) → count < since → KnowsJust self.old count known
            → KnowsJust self.new count known) }
    {
        self.add_values(reply.draws.as_slice(), since)?;
        if let Some(row) = reply.made {
            self.add(&Value::Row(row), since)?;
        }
        Ok(())
    }
}

// After how many calls an id is known that is given at two times.
fn earlier(first: Option<usize>, since: usize) -> usize
    ensures { (count : ℕ) → nat_le result count ≡ (nat_le since count || is_by first count) }
{
    match first {
        Some(first) => since.min(first),
        None => since,
    }
}
