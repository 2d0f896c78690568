ghost use Rattle.std.specs.Prelude.{EachIndex, ◌≡◌, ◌≤◌, ◌<◌, ◌↔◌, ◌⊎◌, ℕ, true, false, length, slice_set, slice_index, MatchOption, IfSome, IfOk, IsTrue};
ghost use Rattle.object_depends.specs.Facts.{AreSound, fact_at, is_commit};
ghost use Rattle.commit_gate.specs.declared.mark.Watch.TheVariants.{Table};
ghost use Rattle.commit_gate.specs.Inside.Marks.{AreTablesPassed};
ghost use Rattle.commit_gate.specs.Gates.{AreAllAnswered, AreRequiredAnswered, IsDoneOf, IsFirstOpen, IsPick, IsReady, IsReadyOf, IsTurn, NoneReady, front, is_in, new_gate, watches};

use crate::heads::{Heads, first_heads, put};
use crate::mark::{Mark, Watch, advance, advance_tables, first_mark, table_marks};
use desk_values::{List, Memory};
use object_depends::{Fact, FactList, Mode, has_table};
use std::alloc::Global;
use std::marker::Model;

/// Which calls of a replay are started and which are answered, and so which may be started. Contracts see it as the facts,
/// the mode, the started stamps and the answered ones.
///
/// Where the facts are sound, the calls that a call requires are those of a kind that stand before it: every call, the
/// numbered commits, those that wrote a table. A mark keeps the first call of its kind that is not answered, and how many
/// stand before it; a call may go once the marks that it waits for have come to it. So no list of required calls is walked.
#[derive(Drop)]
pub struct Gate {
    facts: FactList,
    mode: Mode,
    started: Vec<bool>,
    answered: Vec<bool>,
    every: Mark,
    commits: Mark,
    tables: Vec<Mark>,
    heads: Heads,
    // for each call the next one of its session, or the number of all calls
    nexts: Vec<u32>,
}

impl Model for Gate {
    ghost use Rattle.commit_gate.specs.Gates.{GateView};

    ghost Value = { GateView };

    ghost use Rattle.commit_gate.specs.Inside.Gate.{IsGate};
    ghost use Rattle.commit_gate.specs.View.{view_of};

    ghost view = { view_of };

    ghost invariant = { IsGate };
}

// Whether the marks of all these tables have come to a call.
fn tables_passed(marks: &[Mark], refs: u32, k: u32) -> bool
    requires { length marks.now ≡ 32 }
    ensures { IsTrue result ↔ AreTablesPassed marks.now refs k }
{
    for table in 0..32 {
        if has_table(refs, table) && marks[table as usize].at < k {
            return false;
        }
    }
    true
}

impl Gate {
    /// A gate where no call is started.
    pub fn new(alloc: Global, facts: &FactList, mode: Mode) -> Result<Gate, Memory>
        requires sound { AreSound facts.now }
        requires few { length facts.now ≤ 100000 }
        ensures { IfOk result (λ gate. gate ≡ new_gate facts.now mode) }
    {
        Gate::fresh(alloc, facts.as_slice(), mode)
    }

    fn fresh(alloc: Global, facts: &[Fact], mode: Mode) -> Result<Gate, Memory>
        requires sound { AreSound facts.now }
        requires few { length facts.now ≤ 100000 }
        ensures { IfOk result (λ gate. gate ≡ new_gate facts.now mode) }
    {
        let started = vec![in alloc; false; facts.len()]?;
        let answered = vec![in alloc; false; facts.len()]?;
        let every = first_mark(Watch::Every, facts, answered.as_slice());
        let commits = first_mark(Watch::Commits, facts, answered.as_slice());
        let tables = table_marks(alloc, facts, answered.as_slice())?;
        let (heads, nexts) = first_heads(alloc, facts)?;
        Ok(Gate {
            facts: List::from_slice(alloc, facts)?,
            mode,
            started,
            answered,
            every,
            commits,
            tables,
            heads,
            nexts,
        })
    }

    /// What a gate keeps. It does nothing: its contract is a law.
    ///
    /// Answered calls are started. Of a started call the calls of its session before it are answered, and so are those that
    /// it requires. And the facts are sound. For each fact it is kept whether its call is started and whether it is answered.
    pub fn order_is_kept(&self)
        ensures started { (k : ℕ) → is_in self.now.answered k ≡ true → is_in self.now.started k ≡ true }
        ensures turn { (j k : ℕ) → j < k
            → (fact_at self.now.facts j).session ≡ (fact_at self.now.facts k).session
            → is_in self.now.started k ≡ true → is_in self.now.answered j ≡ true }
        ensures required { (k : ℕ) → is_in self.now.started k ≡ true
            → AreRequiredAnswered self.now.mode self.now.facts self.now.answered k }
        ensures sound { AreSound self.now.facts }
        ensures started_len { length self.now.started ≡ length self.now.facts }
        ensures answered_len { length self.now.answered ≡ length self.now.facts }
    {
        let _ = self.facts.len();
    }

    // Whether the call of its session before a call, if any, is answered: the first that is not does not stand before it.
    fn is_turn(&self, session: u32, k: u32) -> bool
        requires stamp { k < length self.now.facts }
        requires session { session ≡ (fact_at self.now.facts k).session }
        ensures { IsTrue result ↔ IsTurn self.now.facts self.now.answered k }
    {
        match self.heads.get(&session) {
            Some(head) => k <= *head,
            None => false,
        }
    }

    // Whether the marks that a call waits for have come to it.
    fn marks_passed(&self, call: &Fact, k: u32) -> bool
        requires stamp { k < length self.now.facts }
        requires call { call.now ≡ fact_at self.now.facts k }
        ensures { IsTrue result ↔ AreRequiredAnswered self.now.mode self.now.facts self.now.answered k }
    {
        match self.mode {
            Mode::Off => true,
            Mode::Scn => k <= self.commits.at,
            Mode::Object => tables_passed(self.tables.as_slice(), call.refs, k),
            Mode::Order => k <= self.every.at,
            Mode::Fence if 0 < call.number => k <= self.every.at,
            Mode::Fence => k <= self.commits.at,
        }
    }

    /// Whether a call may be started: it is none of the started ones, and the call of its session before it and all that it
    /// requires are answered.
    pub fn ready(&self, k: u32) -> bool
        ensures { IsTrue result ↔ IsReady self.now k }
    {
        let stamp = k as usize;
        if stamp >= self.facts.len() || self.started[stamp] {
            return false;
        }
        let call = self.facts.as_slice()[stamp];
        self.is_turn(call.session, k) && self.marks_passed(&call, k)
    }

    /// Notes that a call is started.
    pub fn start(&mut self, k: u32)
        requires { IsReady self.old k }
        ensures noted { self.new ≡ record self.old { started = slice_set self.old.started k true } }
        ensures started { is_in self.new.started k ≡ true }
        ensures open { is_in self.new.answered k ≡ false }
    {
        self.started[k as usize] = true;
    }

    /// Notes that a call is answered.
    pub fn answer(&mut self, k: u32)
        requires started { is_in self.old.started k ≡ true }
        requires open { is_in self.old.answered k ≡ false }
        ensures { self.new ≡ record self.old { answered = slice_set self.old.answered k true } }
    {
        let stamp = k as usize;
        let session = self.facts.as_slice()[stamp].session;
        self.answered[stamp] = true;
        put(&mut self.heads, session, self.nexts[stamp]);
        let facts = self.facts.as_slice();
        let answered = self.answered.as_slice();
        self.every = advance(Watch::Every, self.every, facts, answered);
        self.commits = advance(Watch::Commits, self.commits, facts, answered);
        advance_tables(self.tables.as_mut_slice(), facts, answered);
    }

    /// The ready call of the first session of a lane that has one, or `None` where none of them has one. A session has at
    /// most one.
    pub fn pick(&self, lane: &[u32]) -> Option<u32>
        ensures { MatchOption result (EachIndex lane.now (λ i. NoneReady self.now (slice_index lane.now i))) (IsPick self.now lane.now) }
    {
        lane.iter().find_map(|session| self.ready_of(*session))
    }

    // The ready call of a session.
    fn ready_of(&self, session: u32) -> Option<u32>
        ensures { MatchOption result (NoneReady self.now session) (IsReadyOf self.now session) }
    {
        let k = *self.heads.get(&session)?;
        if self.ready(k) { Some(k) } else { None }
    }

    /// The least stamp that is not answered, or `None` where all are. It is started or ready.
    pub fn first_open(&self) -> Option<u32>
        ensures least { MatchOption result (AreAllAnswered self.now) (IsFirstOpen self.now) }
        ensures never_stuck { IfSome result (λ k. (is_in self.now.started k ≡ true) ⊎ IsReady self.now k) }
    {
        let first = self.every.at;
        if (first as usize) < self.facts.len() {
            Some(first)
        } else {
            None
        }
    }

    /// Whether every call of a lane's sessions is answered.
    pub fn done(&self, lane: &[u32]) -> bool
        ensures { IsTrue result ↔ EachIndex lane.now (λ i. IsDoneOf self.now (slice_index lane.now i)) }
    {
        lane.iter().all(|session| self.done_of(*session))
    }

    // Whether every call of a session is answered.
    fn done_of(&self, session: u32) -> bool
        ensures { IsTrue result ↔ IsDoneOf self.now session }
    {
        match self.heads.get(&session) {
            Some(head) => self.facts.len() <= *head as usize,
            None => true,
        }
    }

    /// How many numbered commits are answered, from number 1 on up to the first that is not.
    pub fn mark(&self) -> u64
        ensures { result ≡ front is_commit self.now.facts self.now.answered }
    {
        u64::from(self.commits.count)
    }

    /// The same of the numbered commits that wrote a table.
    pub fn table_mark(&self, table: u32) -> u64
        requires { table < 32 }
        ensures { result ≡ front (watches (Table table)) self.now.facts self.now.answered }
    {
        u64::from(self.tables[table as usize].count)
    }
}
