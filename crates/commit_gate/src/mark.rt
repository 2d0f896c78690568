//! Marks: the first call of a kind that is not answered.

ghost use Rattle.std.specs.Prelude.{◌≡◌, ◌+◌, ◌≤◌, ◌<◌, ℕ, length, vec_len, IfOk};
ghost use Rattle.commit_gate.specs.declared.mark.Watch.TheVariants.{Table};
ghost use Rattle.commit_gate.specs.Inside.Marks.{AreTableMarks, IsMark, IsPassed, IsWatch, mark_at};
ghost use Rattle.commit_gate.specs.Gates.{watches};

use desk_values::Memory;
use object_depends::{Fact, has_table};
use std::alloc::Global;

/// Which calls a mark counts.
#[derive(Clone, Copy)]
pub enum Watch {
    /// Every call.
    Every,
    /// The numbered commits.
    Commits,
    /// The numbered commits that wrote a table.
    Table(u32),
}

/// The first call of a kind that is not answered.
#[derive(Clone, Copy)]
pub struct Mark {
    /// Its stamp, or the number of all calls.
    pub at: u32,
    /// How many calls of the kind stand before it.
    pub count: u32,
}

// Whether a call is of the kind that is watched.
fn is_watched(watch: Watch, fact: &Fact) -> bool
    requires { IsWatch watch }
    ensures { result ≡ watches watch fact.now }
{
    match watch {
        Watch::Every => true,
        Watch::Commits => 0 < fact.number,
        Watch::Table(table) => 0 < fact.number && has_table(fact.writes, table),
    }
}

/// Moves a mark up to the first call of its kind that is not answered.
pub fn advance(watch: Watch, mark: Mark, facts: &[Fact], answered: &[bool]) -> Mark
    requires watch { IsWatch watch }
    requires few { length facts.now ≤ 100000 }
    requires lengths { length answered.now ≡ length facts.now }
    requires passed { IsPassed watch facts.now answered.now mark.at mark.count }
    ensures { IsMark watch facts.now answered.now result }
{
    let mut count = mark.count;
    for at in mark.at as usize..facts.len() {
        if is_watched(watch, &facts[at]) {
            if !answered[at] {
                return Mark {
                    at: at as u32,
                    count,
                };
            }
            count += 1;
        }
    }
    Mark {
        at: facts.len() as u32,
        count,
    }
}

/// The mark of a kind of calls, from the first call on.
pub fn first_mark(watch: Watch, facts: &[Fact], answered: &[bool]) -> Mark
    requires watch { IsWatch watch }
    requires few { length facts.now ≤ 100000 }
    requires lengths { length answered.now ≡ length facts.now }
    ensures { IsMark watch facts.now answered.now result }
{
    advance(watch, Mark { at: 0, count: 0 }, facts, answered)
}

/// The marks of the tables.
pub fn table_marks(alloc: Global, facts: &[Fact], answered: &[bool]) -> Result<Vec<Mark>, Memory>
    requires few { length facts.now ≤ 100000 }
    requires lengths { length answered.now ≡ length facts.now }
    ensures len { IfOk result (λ marks. vec_len marks ≡ 32) }
    ensures marks { IfOk result (λ marks. AreTableMarks facts.now answered.now marks.items 32) }
{
    let mut marks = Vec::new(alloc);
    for table in 0..32 {
        marks.push(first_mark(Watch::Table(table), facts, answered))?;
    }
    Ok(marks)
}

/// Moves the marks of the tables up.
pub fn advance_tables(marks: &mut [Mark], facts: &[Fact], answered: &[bool])
    requires len { length marks.old ≡ 32 }
    requires few { length facts.now ≤ 100000 }
    requires lengths { length answered.now ≡ length facts.now }
    requires passed { (table : ℕ) → table < 32
        → IsPassed (Table table) facts.now answered.now (mark_at marks.old table).at (mark_at marks.old table).count }
    ensures { AreTableMarks facts.now answered.now marks.new 32 }
{
    for table in 0..32 {
        let mark = marks[table as usize];
        marks[table as usize] = advance(Watch::Table(table), mark, facts, answered);
    }
}
