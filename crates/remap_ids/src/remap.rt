ghost use Rattle.std.specs.Prelude.{◌≡◌, ◌<◌, ◌++◌, ◌∷◌, [], None, Some, length, slice_get, take, IfOk, OnErr, OnOk};
ghost use Rattle.std.specs.Option.{option_copied, option_map};
ghost use Rattle.std.specs.String.{string_bytes};
ghost use Rattle.desk_values.specs.Reading.{txt_in};
ghost use Rattle.csv.specs.Records.{fields_of};
ghost use Rattle.remap_ids.specs.Sent.{sent_service};
ghost use Rattle.remap_ids.specs.Services.{Tells, sent_for, service_pair, services_of, three_of, with_pair};
ghost use Rattle.remap_ids.specs.declared.remap.RemapErr.TheVariants.{Memory as OutOfMemory};

use csv::{ByteRecord, ReaderBuilder};
use desk_values::{Copied, Memory, Same, Txt, TxtErr};
use indexmap::IndexMap;
use std::alloc::{AllocError, AllocFailed, Global};
use std::marker::Model;
use thiserror::Error;

/// What the captured services are sent as. Contracts see the pairs in the order of the file.
#[derive(Drop)]
pub struct Remap {
    services: IndexMap<String, Txt>,
}

impl Model for Remap {
    ghost use Rattle.std.specs.Prelude.{List, map};
    ghost use Rattle.std.specs.String.{string_bytes};
    ghost use Rattle.remap_ids.specs.Services.{ServicePair};

    ghost Value = { List ServicePair };

    ghost view = { λ a. map (λ entry. (string_bytes entry.0, entry.1)) a.services.entries };
}

/// Why bytes are no remap file. Records count from 1.
#[derive(Clone, Copy, Debug, PartialEq, Eq, Error)]
pub enum RemapErr {
    /// The record is not the word `service` with two texts behind it.
    #[error("bad record {n}")]
    BadRow {
        /// The record's number.
        n: u64,
    },
    /// The record is of a service that an earlier record has.
    #[error("record {n} repeats a service")]
    TwiceFrom {
        /// The record's number.
        n: u64,
    },
    /// Want of memory.
    #[error("out of memory")]
    Memory,
}

impl From<AllocError> for RemapErr {
    ghost from_gives = { λ _ e. e ≡ OutOfMemory };

    fn from(_error: AllocError) -> RemapErr {
        RemapErr::Memory
    }
}

impl From<Memory> for RemapErr {
    ghost from_gives = { λ _ e. e ≡ OutOfMemory };

    fn from(_error: Memory) -> RemapErr {
        RemapErr::Memory
    }
}

impl Remap {
    /// The remap that sends each service as it is.
    pub fn none(alloc: Global) -> Remap
        ensures { result ≡ [] }
    {
        Remap {
            services: IndexMap::new(alloc),
        }
    }

    /// The remap of a file: CSV without a head record, each record the word `service`, a captured service and the one that
    /// is sent in its place. The first record that is not so, or has an earlier record's captured service, is refused.
    pub fn read(alloc: Global, bytes: &[u8]) -> Result<Remap, RemapErr>
        ensures { Tells result (λ remap. remap) (services_of bytes.now) }
    {
        let mut remap = Remap::none(alloc);
        let reader = ReaderBuilder::new()
            .has_headers(false)
            .flexible(true)
            .from_reader(alloc, bytes);
        for read in reader.into_byte_records() {
            let Ok(row) = read else {
                return Err(RemapErr::Memory);
            };
            remap.add(alloc, &row)?;
        }
        Ok(remap)
    }

    /// What is sent in the place of a captured service, if the remap has it.
    pub fn sent(&self, service: &Txt) -> Option<&Txt>
        ensures { option_copied result ≡ sent_for self.now service.now }
    {
        self.services.get(service.as_str())
    }

    fn allocator(&self) -> Global {
        *self.services.allocator()
    }

    // How many services it has.
    fn len(&self) -> usize
        ensures { result ≡ length self.now }
    {
        self.services.len()
    }

    // The service at a place, which has no other pair, and what is sent as it.
    fn pair_at(&self, place: usize) -> (&str, &Txt)
        requires { place < length self.now }
        ensures pair { slice_get self.now place ≡ Some (result.0.now, result.1.now) }
        ensures alone { sent_for (take place self.now) result.0.now ≡ None }
    {
        let (captured, sent) = self.services.as_slice().get_index(place).unwrap();
        (captured.as_str(), sent)
    }

    // Adds a service that has no pair yet.
    fn push(&mut self, captured: &str, sent: &Txt) -> Result<(), Memory>
        requires { sent_for self.old captured.now ≡ None }
        ensures { OnOk result (self.new ≡ self.old ++ (captured.now, sent.now) ∷ []) }
    {
        let name = String::from_str(*self.services.allocator(), captured)?;
        self.services.insert(name, sent.copy()?)?;
        Ok(())
    }

    // Adds what a record says. An `Err` tells of the record.
    fn add(&mut self, alloc: Global, row: &ByteRecord) -> Result<(), RemapErr>
        ensures { Tells result (λ _. self.new) (with_pair self.old (service_pair (fields_of row.now))) }
    {
        let n = self.services.len() as u64 + 1;
        let Some((captured, sent)) = pair_of(alloc, row)? else {
            return Err(RemapErr::BadRow { n });
        };
        if self.services.contains_key(captured.as_str()) {
            return Err(RemapErr::TwiceFrom { n });
        }
        match self.services.insert(captured, sent) {
            Ok(_) => Ok(()),
            Err(_) => Err(RemapErr::Memory),
        }
    }
}

impl Copied for Remap {
    fn copy(&self) -> Result<Remap, Memory> {
        let mut copy = Remap::none(self.allocator());
        for place in 0..self.len() {
            let (captured, sent) = self.pair_at(place);
            copy.push(captured, sent)?;
        }
        Ok(copy)
    }
}

impl Same for Remap {
    fn same(&self, other: &Remap) -> bool {
        if self.len() != other.len() {
            return false;
        }
        for place in 0..self.len() {
            let (captured, sent) = self.pair_at(place);
            let (captured_there, sent_there) = other.pair_at(place);
            if captured != captured_there || !sent.same(sent_there) {
                return false;
            }
        }
        true
    }
}

// What a record says, if it is a good one: the captured service, and the one that is sent.
fn pair_of(alloc: Global, row: &ByteRecord) -> Result<Option<(String, Txt)>, Memory>
    ensures { IfOk result (λ pair. option_map (λ p. (string_bytes p.0, p.1)) pair ≡ service_pair (fields_of row.now)) }
{
    let Some((word, captured, sent)) = three_fields(row) else {
        return Ok(None);
    };
    if word != b"service".as_slice() {
        return Ok(None);
    }
    let Some(captured) = text(alloc, captured)? else {
        return Ok(None);
    };
    let Some(sent) = text(alloc, sent)? else {
        return Ok(None);
    };
    Ok(Some((String::from_str(alloc, captured.as_str())?, sent)))
}

// The fields of a record of just three.
fn three_fields(row: &ByteRecord) -> Option<(&[u8], &[u8], &[u8])>
    ensures { option_map (λ fields. (fields.0.now, fields.1.now, fields.2.now)) result ≡ three_of (fields_of row.now) }
{
    if row.len() != 3 {
        return None;
    }
    Some((row.get(0)?, row.get(1)?, row.get(2)?))
}

// The text of these bytes, if they are one.
fn text(alloc: Global, bytes: &[u8]) -> Result<Option<Txt>, Memory>
    ensures { IfOk result (λ text. text ≡ txt_in bytes.now) }
{
    match Txt::from_bytes(alloc, bytes) {
        Ok(text) => Ok(Some(text)),
        Err(TxtErr::Memory) => Err(Memory),
        Err(TxtErr::TooLong) => Ok(None),
        Err(TxtErr::NotUtf8) => Ok(None),
    }
}
