//! Versions of rows in one list, in the order of writing. Each names the place of the one of its row before it, and a map has the
//! place of each row's last.

ghost use Rattle.std.specs.Prelude.{◌≡◌, ℕ, List, cond, ◌+◌, ◌≤◌, ◌<◌, [], ◌∷◌, ◌++◌, All, Bool, true, false, if◌then◌else◌, is_some, nat_le, nat_lt, ◌&&◌, length, slice_index_or, slice_set, IfOk, OnOk, OnErr};
ghost use Rattle.std.specs.BTreeMap.{IsOrdered, get, is_at};
ghost use Rattle.std.specs.List.{filter, list_any};
ghost use Rattle.std.specs.Option.{IsSome, option_copied, option_map};
ghost use Rattle.std.specs.Ordering.{nat_cmp};
ghost use Rattle.row_versions.specs.declared.versions.Version.{Version as AnyVersion};
ghost use Rattle.row_versions.specs.History.{AreRowsAt, IsNextRow, IsPartOf, ReadsStay, is_of_row, left_of, looked, row_at, seen_of, up_to};
ghost use Rattle.row_versions.specs.Inside.Links.{ArePlacedBehind, AreLinked, Ascends, IsBehind, IsLinkedAt, all_left, is_marked, is_unplaced, last_place, listed, marked, places_below};

use desk_values::{Image, Memory};
use std::alloc::Global;
use std::collections::BTreeMap;
use std::marker::Model;
use std::ops::Bound;

/// An image of a row, and the number of the commit that wrote it.
#[derive(Drop)]
pub struct Version {
    number: u64,
    image: Image,
    // Where the row's version before it stands.
    before: Option<usize>,
    // Where an earlier one of the row stands, from which a search may go on; its own place where there is none.
    jump: usize,
    // How many of the row there are before it.
    depth: u32,
    // Whether reads need it, once that was looked at.
    is_needed: bool,
}

/// The versions of rows. Contracts see a list of images in the order of writing, each with the number of the commit that wrote
/// it, and the number from which on reads may go, the floor.
pub struct Versions {
    list: Vec<Version>,
    last: BTreeMap<u64, usize>,
    floor: u64,
    // How many versions there were when some were let go, or a number below which none is.
    left: usize,
}

// Written out: a caller then drops it by one call, which keeps the caller's proof small.
impl Drop for Versions {
    fn drop(self) {
        let Versions {
            list: _list,
            last: _last,
            floor: _floor,
            left: _left,
        } = self;
    }
}

/// Fewer versions are not looked through for some to let go.
const LEFT_AT_LEAST: usize = 64;

impl Model for Versions {
    ghost use Rattle.row_versions.specs.History.{History, seen_of};
    ghost use Rattle.row_versions.specs.Inside.Links.{IsKept};

    ghost Value = { History };

    ghost view = { λ a. record { list = seen_of a.list.items; floor = a.floor } };

    ghost invariant = { λ a. IsKept a.list.items a.last };
}

impl Versions {
    /// No version, and the floor 0. Takes no memory.
    pub fn new(alloc: Global) -> Versions
        ensures list { result.list ≡ [] }
        ensures floor { result.floor ≡ 0 }
    {
        Versions {
            list: Vec::new(alloc),
            last: BTreeMap::new(alloc),
            floor: 0,
            left: LEFT_AT_LEAST,
        }
    }

    /// Adds the image that a commit wrote, which has no lower number than any that is there. Want of memory changes nothing.
    pub fn put(&mut self, n: u64, image: Image) -> Result<(), Memory>
        requires { All (λ written. written.number ≤ n) self.old.list }
        ensures ok { OnOk result (self.new.list ≡ self.old.list ++ record { number = n; image = image } ∷ []) }
        ensures err { OnErr result (self.new.list ≡ self.old.list) }
        ensures floor { self.new.floor ≡ self.old.floor }
    {
        self.list.reserve(1)?;
        let before = self.last.insert(image.row, self.list.len())?;
        let (jump, depth) = jump_of(&self.list, before);
        let version = Version {
            number: n,
            image,
            before,
            jump,
            depth,
            is_needed: true,
        };
        self.list.push(version).unwrap();
        Ok(())
    }

    /// The row's last image with a number up to this one, which is not below the floor; `None` where it has none. Takes no
    /// memory, and looks at a logarithm of the row's versions.
    pub fn row_at(&self, row: u64, n: u64) -> Option<&Image>
        requires { self.now.floor ≤ n }
        ensures { option_copied result ≡ row_at self.now.list row n }
    {
        let at = self.last.get(&row).copied();
        version_at(&self.list, row, at, n)
    }

    /// The least row over this one that has a version, `None` where there is none. Takes no memory.
    pub fn row_after(&self, row: u64) -> Option<u64>
        ensures { IsNextRow self.now.list row result }
    {
        let range = (Bound::Excluded(row), Bound::Unbounded);
        let (next, _) = self.last.range(range).next()?;
        Some(*next)
    }

    /// The rows at a number that is not below the floor, in order: of each the last image with a number up to it, where it is not
    /// gone. Goes through the rows once.
    pub fn rows_at(&self, n: u64) -> Result<Vec<&Image>, Memory>
        requires { self.now.floor ≤ n }
        ensures { IfOk result (λ rows. AreRowsAt self.now.list n (looked rows.items)) }
    {
        rows_of(*self.list.allocator(), &self.list, &self.last, n)
    }

    /// Reads go by this number and later ones from now on. Versions that no such read finds are let go, each time that there are twice
    /// as many as there were left. A row that is gone counts as one without an image. Takes no memory: no image is copied.
    #[tactic(auto, using(crate::proofs::Needing::whole_part))]
    pub fn forget_below(&mut self, n: u64)
        requires { self.old.floor ≤ n }
        ensures reads { ReadsStay n self.old.list self.new.list }
        ensures fewer { IsPartOf self.new.list self.old.list }
        ensures floor { self.new.floor ≡ n }
    {
        self.floor = n;
        if self.list.len() / 2 >= self.left {
            self.prune();
            self.left = self.list.len().max(LEFT_AT_LEAST);
        }
    }

    // Lets go what reads from the floor on do not find. While it is at work the places of rows in the map are set anew.
    fn prune(&mut self)
        ensures reads { ReadsStay self.old.floor self.old.list self.new.list }
        ensures fewer { IsPartOf self.new.list self.old.list }
        ensures floor { self.new.floor ≡ self.old.floor }
    {
        let behind = self.list.len();
        place_behind(&mut self.last, &self.list, behind);
        mark(&mut self.list, &mut self.last, self.floor, behind);
        place_behind(&mut self.last, &self.list, behind);
        drop_unmarked(&mut self.list);
        link_all(&mut self.list, &mut self.last, behind);
        drop_behind(&mut self.last, behind);
    }

    /// Takes out each version with a number over this one, which is not below the floor. Takes no memory.
    pub fn cut_above(&mut self, n: u64)
        requires { self.old.floor ≤ n }
        ensures list { self.new.list ≡ up_to n self.old.list }
        ensures floor { self.new.floor ≡ self.old.floor }
    {
        while self.cut_last(n) {}
    }

    // Takes out the last version, where its number is over this one, and tells whether it did.
    fn cut_last(&mut self, n: u64) -> bool
        ensures list { up_to n self.new.list ≡ up_to n self.old.list }
        ensures fewer { result ≡ true → length self.new.list < length self.old.list }
        ensures done { result ≡ false → self.new.list ≡ up_to n self.old.list }
        ensures floor { self.new.floor ≡ self.old.floor }
    {
        if !is_last_over(&self.list, n) {
            return false;
        }
        let version = self.list.pop().unwrap();
        step_back(&mut self.last, version.image.row, version.before);
        true
    }
}

// Whether the last version has a number over this one.
fn is_last_over(list: &[Version], n: u64) -> bool
    ensures over { result ≡ true → (front : List AnyVersion) (last : AnyVersion) → list.now ≡ front ++ last ∷ [] → n < last.number }
    ensures some { result ≡ true → 0 < length list.now }
    ensures none { result ≡ false → Ascends 0 (seen_of list.now) → up_to n (seen_of list.now) ≡ seen_of list.now }
{
    match list.last() {
        Some(version) => version.number > n,
        None => false,
    }
}

// The row's last version is the one before.
fn step_back(last: &mut BTreeMap<u64, usize>, row: u64, before: Option<usize>)
    requires { IsSome (get nat_cmp last.old row) }
    ensures { (other : ℕ) → get nat_cmp last.new other ≡ cond (is_at (nat_cmp row) other) before (get nat_cmp last.old other) }
{
    match before {
        Some(before) => {
            let place = last.get_mut(&row).unwrap();
            *place = before;
        }
        None => {
            last.remove(&row);
        }
    }
}

// Where a version goes from which a search may go on, and how many there are before it, where the row's last one stands here: as far back as
// the jumps of the last two went together, where these are of one length, else to the last one. Which place it is costs time at most.
fn jump_of(list: &[Version], last: Option<usize>) -> (usize, u32) {
    let Some(at) = last else {
        return (list.len(), 0);
    };
    let Some(near) = list.get(at) else {
        return (list.len(), 0);
    };
    let depth = near.depth.wrapping_add(1);
    match far_of(list, near) {
        Some(far) => (far, depth),
        None => (at, depth),
    }
}

// Where the jump of the version goes to which this one jumps, where both are of one length.
fn far_of(list: &[Version], near: &Version) -> Option<usize> {
    let middle = list.get(near.jump)?;
    let far = list.get(middle.jump)?;
    let one = near.depth.wrapping_sub(middle.depth);
    let other = middle.depth.wrapping_sub(far.depth);
    if one == other {
        Some(middle.jump)
    } else {
        None
    }
}

// The row's last image with a number up to this one, where its last of all stands here.
fn version_at(list: &[Version], row: u64, last: Option<usize>, n: u64) -> Option<&Image>
    requires linked { AreLinked list.now }
    requires ascends { Ascends 0 (seen_of list.now) }
    requires last { last ≡ last_place row list.now }
    ensures { option_copied result ≡ row_at (seen_of list.now) row n }
{
    let mut next = last;
    while let Some(at) = next {
        let version = &list[at];
        if version.number <= n {
            return Some(&version.image);
        }
        next = behind(list, row, at, version, n);
    }
    None
}

// Where a search goes on behind a version with a greater number: where it jumps to, if that has a greater one too, else at the one before.
fn behind(list: &[Version], row: u64, at: usize, version: &Version, n: u64) -> Option<usize>
    ensures { IsBehind list.now row n at version.now.before result }
{
    if version.jump < at {
        if let Some(far) = list.get(version.jump) {
            if far.image.row == row && far.number > n {
                return Some(version.jump);
            }
        }
    }
    version.before
}

// The rows at a number, by the rows that the map has.
fn rows_of<'a>(
    alloc: Global,
    list: &'a [Version],
    last: &BTreeMap<u64, usize>,
    n: u64,
) -> Result<Vec<&'a Image>, Memory>
    requires linked { AreLinked list.now }
    requires ascends { Ascends 0 (seen_of list.now) }
    requires lasts { (row : ℕ) → get nat_cmp last.now row ≡ last_place row list.now }
    ensures rows { IfOk result (λ rows. looked rows.items ≡ all_left (seen_of list.now) n last.now.entries) }
    ensures order { IsOrdered nat_cmp last.now }
{
    let mut rows = Vec::new(alloc);
    for (row, at) in last {
        push_left(&mut rows, version_at(list, *row, Some(*at), n))?;
    }
    Ok(rows)
}

// Puts an image behind the others, where there is one that is not gone.
fn push_left<'a>(rows: &mut Vec<&'a Image>, image: Option<&'a Image>) -> Result<(), Memory>
    ensures { OnOk result (looked rows.new.items ≡ looked rows.old.items ++ listed (left_of (option_copied image.entry))) }
{
    if let Some(image) = image {
        if image.left.is_some() {
            rows.push(image)?;
        }
    }
    Ok(())
}

// Each row that has versions is placed behind all of them.
fn place_behind(last: &mut BTreeMap<u64, usize>, list: &[Version], behind: usize)
    ensures { (row : ℕ) → get nat_cmp last.new row
        ≡ (if list_any (is_of_row row) (seen_of list.now) then option_map (λ _. behind) (get nat_cmp last.old row) else get nat_cmp last.old row) }
{
    for version in list {
        set_place(last, version.image.row, behind);
    }
}

// The row has this place, where it has one.
fn set_place(last: &mut BTreeMap<u64, usize>, row: u64, place: usize)
    ensures { (other : ℕ) → get nat_cmp last.new other
        ≡ cond (is_at (nat_cmp row) other) (option_map (λ _. place) (get nat_cmp last.old other)) (get nat_cmp last.old other) }
{
    if let Some(found) = last.get_mut(&row) {
        *found = place;
    }
}

// Marks those that reads from a number on need, the last first. A row of which one was met is no more placed behind all.
fn mark(list: &mut Vec<Version>, last: &mut BTreeMap<u64, usize>, n: u64, behind: usize)
    requires behind { length list.old.items ≤ behind }
    requires placed { ArePlacedBehind behind list.old.items last.old }
    ensures list { list.new.items ≡ marked n list.old.items }
    ensures rows { (row : ℕ) → is_some (get nat_cmp last.new row) ≡ is_some (get nat_cmp last.old row) }
{
    let mut at = list.len();
    while at > 0 {
        at -= 1;
        let is_needed = meet(&list[at], last, n, at, behind);
        set_mark(list, at, is_needed);
    }
}

// Whether reads from a number on need a version, where the rows of those behind it that are up to the number are placed. So is its own then.
fn meet(
    version: &Version,
    last: &mut BTreeMap<u64, usize>,
    n: u64,
    at: usize,
    behind: usize,
) -> bool
    ensures needed { result ≡ (if nat_le version.now.number n then is_some version.now.image.left && is_unplaced behind (get nat_cmp last.old version.now.image.row) else true) }
    ensures last { (row : ℕ) → get nat_cmp last.new row
        ≡ (if nat_le version.now.number n then cond (is_at (nat_cmp version.now.image.row) row) (option_map (λ _. at) (get nat_cmp last.old row)) (get nat_cmp last.old row) else get nat_cmp last.old row) }
{
    if version.number > n {
        return true;
    }
    let is_last = is_unplaced(last, version.image.row, behind);
    set_place(last, version.image.row, at);
    version.image.left.is_some() && is_last
}

// Whether a row is placed behind all versions.
fn is_unplaced(last: &BTreeMap<u64, usize>, row: u64, behind: usize) -> bool
    ensures { result ≡ is_unplaced behind (get nat_cmp last.now row) }
{
    match last.get(&row) {
        Some(place) => *place == behind,
        None => false,
    }
}

// Marks a version.
fn set_mark(list: &mut Vec<Version>, at: usize, is_needed: bool)
    requires { at < length list.old.items }
    ensures { (version : AnyVersion) → list.new.items
        ≡ slice_set list.old.items at (record (slice_index_or list.old.items at version) { is_needed = is_needed }) }
{
    let version = &mut list[at];
    version.is_needed = is_needed;
}

fn drop_unmarked(list: &mut Vec<Version>)
    ensures list { list.new.items ≡ filter is_marked list.old.items }
    ensures len { length list.new.items ≤ length list.old.items }
{
    list.retain(|version| version.is_needed);
}

// Links the versions anew: each to the one of its row before it.
fn link_all(list: &mut Vec<Version>, last: &mut BTreeMap<u64, usize>, behind: usize)
    requires behind { length list.old.items ≤ behind }
    requires placed { ArePlacedBehind behind list.old.items last.old }
    ensures seen { seen_of list.new.items ≡ seen_of list.old.items }
    ensures len { length list.new.items ≡ length list.old.items }
    ensures linked { AreLinked list.new.items }
    ensures placed { (row : ℕ) → list_any (is_of_row row) (seen_of list.new.items) ≡ true → get nat_cmp last.new row ≡ last_place row list.new.items }
    ensures others { (row : ℕ) → list_any (is_of_row row) (seen_of list.new.items) ≡ false → get nat_cmp last.new row ≡ get nat_cmp last.old row }
{
    for at in 0..list.len() {
        let row = list[at].image.row;
        let before = placed(last, row, behind);
        link(list, at, before);
        set_place(last, row, at);
    }
}

// The place of a row, where it is placed in front of that.
fn placed(last: &BTreeMap<u64, usize>, row: u64, behind: usize) -> Option<usize>
    ensures { result ≡ places_below behind (get nat_cmp last.now row) }
{
    match last.get(&row) {
        Some(place) if *place < behind => Some(*place),
        _ => None,
    }
}

// Links a version to the one before it.
fn link(list: &mut Vec<Version>, at: usize, before: Option<usize>)
    requires { at < length list.old.items }
    ensures { (version : AnyVersion) → IsLinkedAt at before version list.old.items list.new.items }
{
    let (jump, depth) = jump_of(&list[..at], before);
    let version = &mut list[at];
    version.before = before;
    version.jump = jump;
    version.depth = depth;
}

// Rows that are placed behind all versions have none.
fn drop_behind(last: &mut BTreeMap<u64, usize>, behind: usize)
    ensures { (row : ℕ) → get nat_cmp last.new row ≡ places_below behind (get nat_cmp last.old row) }
{
    last.retain(
        |_row: &u64, place: &mut usize| -> bool
            ensures { (result ≡ nat_lt place.old behind) × (place.new ≡ place.old) }
        { *place < behind },
    );
}
