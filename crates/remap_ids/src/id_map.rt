ghost use Rattle.std.specs.Prelude.{◌≡◌, ◌+◌, ◌<◌, ◌≤◌, ◌++◌, Some, slice_get, length, drop, min, map, IfNone, IfOk, IfSome, IsOk, OnOk, OnErr};
ghost use Rattle.std.specs.List.{AllByRecursion, Contains};
ghost use Rattle.id_pairs.specs.declared.Id.{Id as AnyId};
ghost use Rattle.id_pairs.specs.Ids.{id_value};
ghost use Rattle.id_pairs.specs.Pairs.{HasNoIdTwice, IsIdMap, all_new, image_in, learnt};
ghost use Rattle.remap_ids.specs.IdMap.{start_pairs};
ghost use Rattle.remap_ids.specs.MapsText.{maps_text, pair_line};
ghost use Rattle.remap_ids.specs.Sent.{HasLowIds, IsLow, sent, sent_service, sent_value, unknown};

use crate::learning::{add_drawn, add_made};
use crate::low_ids::UNKNOWN_FROM;
use crate::pairs::Pairs;
use crate::remap::Remap;
use crate::start_ids::add_rows;
use desk_schema::Start;
use desk_values::{Binds, Bytes, Call, Copied, List, Memory, Reply, Txt, Value, write_value};
use id_pairs::Id;
use std::alloc::Global;
use std::marker::Model;

/// Which replayed id stands for which captured one. Contracts see the pairs in the order in which they were learnt, how
/// many of them are the start's, and `spare`, how many more it takes without asking for memory. It never has an id twice on
/// one side.
#[derive(Drop)]
pub struct IdMap {
    pairs: Pairs,
    own: usize,
}

impl Model for IdMap {
    ghost use Rattle.std.specs.Prelude.{◌≤◌, length};
    ghost use Rattle.remap_ids.specs.IdMap.{IdMapView};

    ghost Value = { IdMapView };

    ghost view = { λ a. record { pairs = a.pairs.pairs; own = a.own; spare = a.pairs.spare } };

    ghost invariant = { λ a. a.own ≤ length a.pairs.pairs };
}

impl IdMap {
    /// The map of a start: each id of its rows, with itself.
    pub fn from_start(alloc: Global, start: &Start) -> Result<IdMap, Memory>
        ensures pairs { IfOk result (λ map. map.pairs ≡ start_pairs start.now) }
        ensures own { IfOk result (λ map. map.own ≡ length map.pairs) }
    {
        let mut pairs = Pairs::new(alloc);
        add_rows(&mut pairs, start.rows().as_slice())?;
        let own = pairs.len();
        Ok(IdMap { pairs, own })
    }

    /// The id that stands for a captured one, if one was learnt.
    pub fn image(&self, id: Id) -> Option<Id>
        ensures image { result ≡ image_in self.now.pairs id }
        ensures map { IsIdMap self.now.pairs }
    {
        self.pairs.image(id)
    }

    /// The captured id that a replayed one stands for, if one was learnt.
    pub fn origin(&self, id: Id) -> Option<Id>
        ensures some { IfSome result (λ captured. Contains self.now.pairs (captured, id)) }
        ensures none { IfNone result ((captured : AnyId) → ¬ Contains self.now.pairs (captured, id)) }
    {
        self.pairs.origin(id)
    }

    /// Makes the spare at least so many pairs.
    pub fn reserve(&mut self, pairs: u32) -> Result<(), Memory>
        ensures pairs { self.new.pairs ≡ self.old.pairs }
        ensures own { self.new.own ≡ self.old.own }
        ensures ok { OnOk result (pairs ≤ self.new.spare) }
        ensures succeeds { pairs ≤ self.old.spare → IsOk result }
        ensures spare { self.old.spare ≤ self.new.spare }
    {
        self.pairs.reserve(pairs as usize)?;
        Ok(())
    }

    /// Learns from two replies to one call: a pair for each place at which both have a draw of the same sequence, and
    /// behind them one for the rows, where both made a row. An `Err` changes nothing, and does not come where there is room
    /// for a pair of each place and one more.
    pub fn learn(&mut self, captured: &Reply, replayed: &Reply) -> Result<(), Memory>
        requires { HasNoIdTwice (self.old.pairs ++ learnt captured.now replayed.now) }
        ensures ok { OnOk result (self.new.pairs ≡ self.old.pairs ++ learnt captured.now replayed.now) }
        ensures err { OnErr result (self.new.pairs ≡ self.old.pairs) }
        ensures own { self.new.own ≡ self.old.own }
        ensures succeeds { min (length captured.now.draws) (length replayed.now.draws) + 1 ≤ self.old.spare → IsOk result }
        ensures spare { self.old.spare + length self.old.pairs ≤ self.new.spare + length self.new.pairs }
    {
        self.learn_fresh(captured, replayed)
    }

    /// The same, but that each pair is left out one of whose ids has a pair on its side by then.
    pub fn learn_fresh(&mut self, captured: &Reply, replayed: &Reply) -> Result<(), Memory>
        ensures ok { OnOk result (self.new.pairs ≡ all_new self.old.pairs (learnt captured.now replayed.now)) }
        ensures err { OnErr result (self.new.pairs ≡ self.old.pairs) }
        ensures own { self.new.own ≡ self.old.own }
        ensures succeeds { min (length captured.now.draws) (length replayed.now.draws) + 1 ≤ self.old.spare → IsOk result }
        ensures spare { self.old.spare + length self.old.pairs ≤ self.new.spare + length self.new.pairs }
    {
        let draws = captured.draws.as_slice();
        let others = replayed.draws.as_slice();
        self.pairs.reserve(draws.len().min(others.len()) + 1)?;
        add_drawn(&mut self.pairs, draws, others);
        add_made(&mut self.pairs, captured.made, replayed.made);
        Ok(())
    }

    /// The call that is sent in the place of a captured one: its service by the remap, and each id among its binds by its
    /// image. An id without an image is sent as one that no server knows.
    pub fn send(&self, remap: &Remap, call: &Call) -> Result<Call, Memory>
        requires { HasLowIds call.now }
        ensures { IfOk result (λ other. other ≡ sent self.now.pairs remap.now call.now) }
    {
        match call {
            Call::Connect(service) => Ok(Call::Connect(sent_name(remap, service)?)),
            Call::Sql(text, binds) => Ok(Call::Sql(text.copy()?, self.sent_binds(binds)?)),
            Call::Disconnect => Ok(Call::Disconnect),
        }
    }

    // The binds with each id by its image.
    fn sent_binds(&self, binds: &Binds) -> Result<Binds, Memory>
        requires { AllByRecursion IsLow binds.now }
        ensures { IfOk result (λ others. others ≡ map (sent_value self.now.pairs) binds.now) }
    {
        let mut values = List::new(self.pairs.allocator());
        for value in binds.as_slice() {
            values.push(self.sent_value(value)?)?;
        }
        Ok(Binds::from_values(values))
    }

    // The value, or where it is an id, the id that is sent in its place.
    fn sent_value(&self, value: &Value) -> Result<Value, Memory>
        requires { IsLow value.now }
        ensures { IfOk result (λ other. other ≡ sent_value self.now.pairs value.now) }
    {
        match Id::of_value(value) {
            Some(id) => Ok(self.image(id).unwrap_or(unknown(id)).to_value()),
            None => value.copy(),
        }
    }

    /// The text of the learnt pairs, in their order. The start's are not among them.
    pub fn maps_csv(&self) -> Result<Bytes, Memory>
        ensures { IfOk result (λ bytes. bytes ≡ maps_text (drop self.now.own self.now.pairs)) }
    {
        let mut bytes = List::new(self.pairs.allocator());
        bytes.append(b"captured,replayed\n")?;
        for place in self.own..self.pairs.len() {
            let (captured, replayed) = self.pairs.pair_at(place);
            push_pair(captured, replayed, &mut bytes)?;
        }
        Ok(bytes)
    }
}

// The service that is sent in the place of a captured one.
fn sent_name(remap: &Remap, service: &Txt) -> Result<Txt, Memory>
    ensures { IfOk result (λ other. other ≡ sent_service remap.now service.now) }
{
    match remap.sent(service) {
        Some(other) => other.copy(),
        None => service.copy(),
    }
}

// An id that no server gives out.
fn unknown(id: Id) -> Id
    requires { IsLow (id_value id) }
    ensures { result ≡ unknown id }
{
    match id {
        Id::Row(row) => Id::Row(row + UNKNOWN_FROM),
        Id::Draw(sequence, drawn) => Id::Draw(sequence, drawn + UNKNOWN_FROM),
    }
}

// The line of a pair.
fn push_pair(captured: Id, replayed: Id, to: &mut Bytes) -> Result<(), Memory>
    ensures { OnOk result (to.new ≡ to.old ++ pair_line (captured, replayed)) }
{
    write_value(&captured.to_value(), to)?;
    to.push(b',')?;
    write_value(&replayed.to_value(), to)?;
    to.push(b'\n')?;
    Ok(())
}
