//! What is kept of texts, by a print of each text and its binds.

ghost use Rattle.std.specs.Prelude.{◌≡◌, ◌≤◌, ◌+◌, length, IfOk, IfSome, IsTrue};
ghost use Rattle.desk_values.specs.Limits.{text_limit};
ghost use Rattle.desk_schema.specs.Schema.{SchemaView};
ghost use Rattle.statement_cache.specs.Count.{bytes_of, counted};
ghost use Rattle.statement_cache.specs.Kept.{AreRight, IsRight, outcome_of, outcome_of_text};
ghost use Rattle.statement_cache.specs.Kinds.{kinds_of};
ghost use Rattle.statement_cache.specs.Limits.{bytes_limit};

use crate::kept::{Kept, read_kept};
use crate::kinds::{BindKind, are_of_kinds, kind_of_bind, kinds_of};
use desk_schema::Schema;
use desk_values::{Binds, Copied, Memory, Same, Txt};
use std::alloc::Global;
use std::collections::HashMap;
use std::marker::Model;

/// How many bytes may be counted: a text that is put in the place of another counts beside it.
const BYTES_LIMIT: usize = 16_777_216;

/// How many bytes are counted for each byte of a text: its tree takes no more.
const TREE_BYTES: usize = 48;

/// How many bytes are counted for each text beside those.
const BYTES_MORE: usize = 512;

/// What is known of a text.
#[derive(Drop)]
pub struct Known {
    text: Txt,
    kinds: Vec<BindKind>,
    kept: Kept,
}

/// Texts that were read and checked. Once they take too much memory all are let go, and each is read anew. Contracts see what is
/// known by the prints of texts.
pub struct Statements {
    alloc: Global,
    known: HashMap<u64, Known>,
    bytes: usize,
}

// Written out: a caller then drops it by one call, which keeps the caller's proof small.
impl Drop for Statements {
    fn drop(self) {
        let Statements {
            alloc: _alloc,
            known: _known,
            bytes: _bytes,
        } = self;
    }
}

impl Model for Statements {
    ghost use Rattle.std.specs.Coded.{coded×, coded_list, coded_ℕ};
    ghost use Rattle.statement_cache.specs.Kept.{Texts};
    ghost use Rattle.statement_cache.specs.Inside.{IsCounted};
    ghost use Rattle.statement_cache.specs.contracts.statements.Known.{the_row};

    ghost Value = { Texts };

    ghost coded = { coded_list (coded× coded_ℕ the_row.coded) };

    ghost view = { λ a. a.known.entries };

    ghost invariant = { λ a. IsCounted a.known.entries a.bytes };
}

impl Statements {
    /// No text. Takes no memory.
    pub fn new(alloc: Global) -> Statements
        ensures { (schema : SchemaView) → AreRight schema result }
    {
        Statements {
            alloc,
            known: no_texts(alloc),
            bytes: 0,
        }
    }

    /// What is kept of a text with binds of these kinds, if it is kept. Takes no memory.
    pub fn find(&self, text: &Txt, binds: &Binds) -> Option<&Kept>
        ensures { (schema : SchemaView) → AreRight schema self.now
            → IfSome result (λ kept. outcome_of_text schema text.now binds.now ≡ outcome_of kept.now) }
    {
        let known = self.known.get(&print_of(text, binds))?;
        if is_of(known, text, binds) {
            Some(&known.kept)
        } else {
            None
        }
    }

    /// Reads and checks a text, unless it is kept, and keeps what it is. Where memory is short for that it is not kept.
    pub fn learn(&mut self, schema: &Schema, text: &Txt, binds: &Binds)
        ensures { AreRight schema.now self.old → AreRight schema.now self.new }
    {
        if self.find(text, binds).is_some() {
            return;
        }
        let _ = self.read(schema, text, binds);
    }

    /// What is kept takes at most 16 MiB, as it is counted. It costs nothing.
    pub fn know_limit(&self)
        ensures { counted self.now ≤ bytes_limit }
    {
        let _bytes = self.bytes;
    }

    /// Reads and checks a text, and keeps what it is.
    fn read(&mut self, schema: &Schema, text: &Txt, binds: &Binds) -> Result<(), Memory>
        ensures { AreRight schema.now self.old → AreRight schema.now self.new }
    {
        let kept = read_kept(self.alloc, schema, text, binds)?;
        let known = known_of(self.alloc, text, binds, kept)?;
        self.put(print_of(text, binds), known);
        Ok(())
    }

    /// Puts what is known in the place of a print. Where all would take too much the others are let go before.
    fn put(&mut self, print: u64, known: Known)
        ensures { (schema : SchemaView) → IsRight schema known → AreRight schema self.old → AreRight schema self.new }
    {
        let more = bytes_of(&known.text);
        let bytes = with_room(self.alloc, &mut self.known, self.bytes, more);
        keep(&mut self.known, print, known);
        self.bytes = bytes + more;
    }
}

/// How many bytes are counted for a text.
fn bytes_of(text: &Txt) -> usize
    ensures value { result ≡ bytes_of text.now }
    ensures limit { result ≤ bytes_limit }
{
    length_of(text) * TREE_BYTES + BYTES_MORE
}

fn length_of(text: &Txt) -> usize
    ensures value { result ≡ length text.now }
    ensures limit { result ≤ text_limit }
{
    text.as_str().len()
}

/// Lets all texts go, for which so many bytes are counted, where some more would be too many; and how many are counted then.
fn with_room(alloc: Global, texts: &mut HashMap<u64, Known>, bytes: usize, more: usize) -> usize
    requires taken { counted texts.old.entries ≤ bytes }
    requires limit { bytes ≤ bytes_limit }
    requires more { more ≤ bytes_limit }
    ensures right { (schema : SchemaView) → AreRight schema texts.old.entries → AreRight schema texts.new.entries }
    ensures taken { counted texts.new.entries ≤ result }
    ensures limit { result + more ≤ bytes_limit }
{
    if more <= BYTES_LIMIT - bytes {
        return bytes;
    }
    *texts = no_texts(alloc);
    0
}

fn no_texts(alloc: Global) -> HashMap<u64, Known>
    ensures right { (schema : SchemaView) → AreRight schema result.entries }
    ensures none { counted result.entries ≡ 0 }
{
    HashMap::new(alloc)
}

/// What is known of a text for binds of the kinds of these.
fn known_of(alloc: Global, text: &Txt, binds: &Binds, kept: Kept) -> Result<Known, Memory>
    ensures { IfOk result (λ known. (schema : SchemaView) → outcome_of_text schema text.now binds.now ≡ outcome_of kept → IsRight schema known) }
{
    let kinds = kinds_of(alloc, binds.as_slice())?;
    let text = text.copy()?;
    Ok(Known { text, kinds, kept })
}

/// Whether this is known of the text, with binds of these kinds.
fn is_of(known: &Known, text: &Txt, binds: &Binds) -> bool
    ensures text { IsTrue result → known.now.text ≡ text.now }
    ensures kinds { IsTrue result → kinds_of binds.now ≡ known.now.kinds.items }
{
    known.text.same(text) && are_of_kinds(binds.as_slice(), &known.kinds)
}

/// Puts what is known in the place of a print. Where memory is short all stays.
fn keep(all: &mut HashMap<u64, Known>, print: u64, known: Known)
    ensures right { (schema : SchemaView) → IsRight schema known → AreRight schema all.old.entries → AreRight schema all.new.entries }
    ensures taken { counted all.new.entries ≤ counted all.old.entries + bytes_of known.text }
{
    match all.insert(print, known) {
        Ok(_) => {}
        Err(_) => {}
    }
}

/// A number that a text has with binds of its kinds. Others may have it too.
fn print_of(text: &Txt, binds: &Binds) -> u64 {
    let mut print: u64 = 14_695_981_039_346_656_037;
    for byte in text.as_str().as_bytes() {
        print = with_more(print, u64::from(*byte));
    }
    for bind in binds.as_slice() {
        print = with_more(print, number_of(kind_of_bind(bind)));
    }
    print
}

fn with_more(print: u64, more: u64) -> u64 {
    print.wrapping_mul(1_099_511_628_211).wrapping_add(more)
}

fn number_of(kind: BindKind) -> u64 {
    match kind {
        BindKind::Null => 256,
        BindKind::Int => 257,
        BindKind::Text => 258,
        BindKind::Row => 259,
        BindKind::Draw(sequence) => 260 + u64::from(sequence),
    }
}
