//! The requests of a connection, as its bytes come.

ghost use Rattle.std.specs.Prelude.{◌≡◌, ◌+◌, ◌<◌, ◌≤◌, ◌++◌, [], length, drop, IfOk};
ghost use Rattle.http_requests.specs.Requests.{Begins, IsUnfinished};
ghost use Rattle.capture_http.specs.Inside.{BodyCame, HeadCame, LosesNothing, MoreCame, RequestCame, request_bytes};

use crate::conn_end::ConnEnd;
use crate::limits::{READ_LIMIT, REQUEST_BYTES};
use desk_files::Source;
use desk_values::Memory;
use http_requests::{Request, Routes, begun_request};
use std::alloc::Global;
use std::marker::Model;

/// The bytes of a connection that came and were not taken yet. Contracts see these bytes. Bytes that were taken are let go at
/// the next read.
#[derive(Drop)]
pub(crate) struct Reader {
    routes: Routes,
    held: Vec<u8>,
    taken: usize,
    chunk: [u8; READ_LIMIT],
}

impl Model for Reader {
    ghost use Rattle.std.specs.Prelude.{◌≤◌, ℕ, List, drop, length};

    ghost Value = { List ℕ };

    ghost view = { λ a. drop a.taken a.held.items };

    ghost invariant = { λ a. a.taken ≤ length a.held.items };
}

impl Reader {
    /// Nothing came yet.
    pub(crate) fn new(alloc: Global) -> Result<Reader, Memory>
        ensures { IfOk result (λ reader. reader ≡ []) }
    {
        Ok(Reader {
            routes: Routes::new(alloc)?,
            held: Vec::new(alloc),
            taken: 0,
            chunk: [0; READ_LIMIT],
        })
    }

    /// The bytes.
    pub(crate) fn bytes(&self) -> &[u8]
        ensures { result.now ≡ self.now }
    {
        &self.held[self.taken..]
    }

    /// Takes the first of them.
    pub(crate) fn take(&mut self, n: usize)
        requires { n ≤ length self.old }
        ensures { self.new ≡ drop n self.old }
    {
        self.taken += n;
    }

    /// Reads until a whole request is held. `Ended` where the input ends before.
    #[tactic(auto, using(crate::proofs::Keeping::loses_trans, crate::proofs::Keeping::stops_later))]
    pub(crate) fn next_request<I: Source>(&mut self, input: &mut I) -> Result<Request, ConnEnd>
        requires few { length self.old ≤ request_bytes }
        ensures kept { LosesNothing self.old (I.account input.old).content self.new (I.account input.new).content }
        ensures few { length self.new ≤ request_bytes }
        ensures came { RequestCame result self.new
            (I.account input.old).content (I.account input.new).content (I.account input.old).faults (I.account input.new).faults }
    {
        let request = match self.read_head(input) {
            Ok(request) => request,
            Err(end) => return Err(end),
        };
        match self.read_body(input, &request) {
            Ok(()) => Ok(request),
            Err(end) => Err(end),
        }
    }

    // Reads until a request begins what is held.
    #[tactic(auto, using(crate::proofs::Keeping::loses_refl, crate::proofs::Keeping::loses_trans, crate::proofs::Keeping::searched_later, crate::proofs::Keeping::stops_later))]
    fn read_head<I: Source>(&mut self, input: &mut I) -> Result<Request, ConnEnd>
        requires few { length self.old ≤ request_bytes }
        ensures kept { LosesNothing self.old (I.account input.old).content self.new (I.account input.new).content }
        ensures few { length self.new ≤ request_bytes }
        ensures came { HeadCame result self.new
            (I.account input.old).content (I.account input.new).content (I.account input.old).faults (I.account input.new).faults }
    {
        let mut searched = 0;
        loop {
            if let Some(request) = begun_request(&self.routes, self.bytes(), searched) {
                return Ok(request);
            }
            searched = self.bytes().len();
            match self.read_more(input) {
                Ok(()) => {}
                Err(end) => return Err(end),
            }
        }
    }

    // Reads until all of the request is held that begins it.
    #[tactic(auto, using(crate::proofs::Keeping::loses_refl, crate::proofs::Keeping::loses_trans, crate::proofs::Keeping::begins_later, crate::proofs::Keeping::stops_later, crate::proofs::Keeping::unfinished_small))]
    fn read_body<I: Source>(&mut self, input: &mut I, request: &Request) -> Result<(), ConnEnd>
        requires begins { Begins self.old request.now }
        requires few { length self.old ≤ request_bytes }
        ensures kept { LosesNothing self.old (I.account input.old).content self.new (I.account input.new).content }
        ensures few { length self.new ≤ request_bytes }
        ensures came { BodyCame result request.now self.new
            (I.account input.old).content (I.account input.new).content (I.account input.old).faults (I.account input.new).faults }
    {
        while !request.is_whole(self.bytes()) {
            match self.read_more(input) {
                Ok(()) => {}
                Err(end) => return Err(end),
            }
        }
        Ok(())
    }

    // Reads some bytes behind those that are held, which are less than a request. `Ended` where none are left.
    fn read_more<I: Source>(&mut self, input: &mut I) -> Result<(), ConnEnd>
        requires unfinished { IsUnfinished self.old }
        requires room { length self.old < request_bytes }
        ensures kept { LosesNothing self.old (I.account input.old).content self.new (I.account input.new).content }
        ensures few { length self.new ≤ request_bytes }
        ensures came { MoreCame result self.old self.new
            (I.account input.old).content (I.account input.new).content (I.account input.old).faults (I.account input.new).faults }
    {
        drop(self.held.drain(..self.taken));
        self.taken = 0;
        let asked = READ_LIMIT.min(REQUEST_BYTES - self.held.len());
        let chunk = &mut self.chunk[..];
        read_behind(input, &mut self.held, &mut chunk[..asked])
    }
}

// Reads bytes into a buffer, and from there behind those that are held. The room for them is taken first.
fn read_behind<I: Source>(
    input: &mut I,
    held: &mut Vec<u8>,
    buffer: &mut [u8],
) -> Result<(), ConnEnd>
    requires unfinished { IsUnfinished held.old.items }
    requires room { 0 < length buffer.old }
    ensures kept { LosesNothing held.old.items (I.account input.old).content held.new.items (I.account input.new).content }
    ensures few { length held.new.items ≤ length held.old.items + length buffer.old }
    ensures came { MoreCame result held.old.items held.new.items
        (I.account input.old).content (I.account input.new).content (I.account input.old).faults (I.account input.new).faults }
{
    if held.reserve(buffer.len()).is_err() {
        return Err(ConnEnd::Memory);
    }
    let n = match input.read(buffer) {
        Ok(n) => n,
        Err(_) => return Err(ConnEnd::SourceFault),
    };
    if n == 0 {
        return Err(ConnEnd::Ended);
    }
    match held.extend_from_slice(&buffer[..n]) {
        Ok(()) => Ok(()),
        Err(_) => Err(ConnEnd::Memory),
    }
}
