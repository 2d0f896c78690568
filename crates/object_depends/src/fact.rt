ghost use Rattle.std.specs.Prelude.{◌≡◌, ◌<◌, ◌≤◌, ◌↔◌, IsTrue, length};
ghost use Rattle.object_depends.specs.Facts.{has_table, is_commit, AreSound};
ghost use Rattle.object_depends.specs.Required.{shares_table};

use desk_values::{Copied, List, Memory, Same};

/// What a replay has to know of a call, to tell which calls it waits for.
#[derive(Clone, Copy, Debug, PartialEq, Eq)]
pub struct Fact {
    /// The session that makes the call.
    pub session: u32,
    /// How many numbered commits stand before it.
    pub seen: u64,
    /// Its own number among the commits that wrote something, from 1, or 0 where it is none.
    pub number: u64,
    /// A bit for each table that it references, from the lowest for table 0.
    pub refs: u32,
    /// A bit for each table that it wrote, where it is a numbered commit.
    pub writes: u32,
}

impl Copied for Fact {
    fn copy(&self) -> Result<Fact, Memory> {
        Ok(*self)
    }
}

impl Same for Fact {
    fn same(&self, other: &Fact) -> bool {
        self.session == other.session
            && self.seen == other.seen
            && self.number == other.number
            && self.refs == other.refs
            && self.writes == other.writes
    }
}

/// Facts by stamp.
pub type FactList = List<Fact>;

/// Whether a table stands in a set of tables.
pub fn has_table(tables: u32, table: u32) -> bool
    requires { table < 32 }
    ensures { result ≡ has_table tables table }
{
    (tables >> table) & 1 == 1
}

// Whether some table stands in both sets.
pub fn shares_table(left: u32, right: u32) -> bool
    ensures { result ≡ shares_table left right }
{
    left & right != 0
}

// Whether a call is a numbered commit.
pub fn is_commit(fact: &Fact) -> bool
    ensures { result ≡ is_commit fact.now }
{
    0 < fact.number
}

/// Whether the facts are sound: commits that have a number are counted up from 1 without a gap, and each call has seen
/// just those before it. Those of a legal capture are.
pub fn are_sound(facts: &[Fact]) -> bool
    requires { length facts.now ≤ 100000 }
    ensures { IsTrue result ↔ AreSound facts.now }
{
    let mut commits = 0;
    for fact in facts {
        if fact.seen != commits {
            return false;
        }
        if is_commit(fact) {
            commits += 1;
            if fact.number != commits {
                return false;
            }
        }
    }
    true
}
