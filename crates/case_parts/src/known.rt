//! The ids that a replay knows. Contracts see nothing of them.

use anyhow::anyhow;
use capture_format::{FormErr, read_start};
use desk_values::{Memory, Reply};
use divergence::{Class, class_of};
use id_pairs::Id;
use remap_ids::IdMap;
use std::alloc::Global;
use std::marker::Model;

/// The pairs of ids.
#[derive(Drop)]
pub struct Ids {
    map: IdMap,
}

impl Model for Ids {
    ghost Value = { Unit {0} };

    ghost view = { λ ids. tt };
}

impl Ids {
    /// No ids.
    pub fn none(alloc: Global) -> Result<Ids, anyhow::Error> {
        Ids::of_start(alloc, b"start 1\nlevel 1\nnextrow 1\nsessions 1\nend\n")
    }

    /// The ids of a start file.
    pub fn of_start(alloc: Global, bytes: &[u8]) -> Result<Ids, anyhow::Error> {
        match read_start(alloc, bytes) {
            Ok(file) => {
                let map = IdMap::from_start(alloc, &file.start)?;
                Ok(Ids { map })
            }
            Err(FormErr::Bad { line }) => Err(anyhow!("line {line} of the start is bad")),
            Err(FormErr::Memory) => Err(Memory.into()),
        }
    }

    /// Learns from a captured and a replayed reply.
    pub fn learn(&mut self, captured: &Reply, replayed: &Reply) -> Result<(), Memory> {
        self.map.learn_fresh(captured, replayed)
    }

    /// The id that stands for a captured one.
    pub fn image(&self, id: Id) -> Option<Id> {
        self.map.image(id)
    }

    /// How a replayed reply differs from the captured one.
    pub fn class(
        &self,
        alloc: Global,
        captured: &Reply,
        replayed: &Reply,
    ) -> Result<Class, Memory> {
        class_of(alloc, &self.map, captured, replayed)
    }
}
