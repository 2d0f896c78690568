//! The first call of each session that is not answered, and the call of its session behind each call.

ghost use Rattle.std.specs.Prelude.{◌≡◌, ◌+◌, ◌≤◌, ◌<◌, ℕ, length, vec_len, IfOk, OnOk, IsSome, Some};
ghost use Rattle.std.specs.Ordering.{nat_cmp};
ghost use Rattle.std.specs.BTreeMap.{get};
ghost use Rattle.object_depends.specs.Facts.{fact_at};
ghost use Rattle.commit_gate.specs.Inside.Heads.{AreFirstHeads, AreNexts, IsNextFrom};

use desk_values::Memory;
use object_depends::Fact;
use std::alloc::Global;
use std::collections::BTreeMap;

/// By session the stamp of its first call that is not answered, or the number of all calls.
pub type Heads = BTreeMap<u32, u32>;

/// Puts a stamp in the place of a session's.
pub fn put(heads: &mut Heads, session: u32, stamp: u32)
    requires { IsSome (get nat_cmp heads.old session) }
    ensures here { get nat_cmp heads.new session ≡ Some stamp }
    ensures others { (other : ℕ) → (other ≡ session → ⊥) → get nat_cmp heads.new other ≡ get nat_cmp heads.old other }
{
    if let Some(head) = heads.get_mut(&session) {
        *head = stamp;
    }
}

/// By session its first call, where none is answered, and for each call the next one of its session.
pub fn first_heads(alloc: Global, facts: &[Fact]) -> Result<(Heads, Vec<u32>), Memory>
    requires { length facts.now ≤ 100000 }
    ensures len { IfOk result (λ made. vec_len made.1 ≡ length facts.now) }
    ensures heads { IfOk result (λ made. AreFirstHeads facts.now (get nat_cmp made.0) 0) }
    ensures nexts { IfOk result (λ made. AreNexts facts.now made.1.items 0) }
{
    let count = facts.len();
    let mut heads = BTreeMap::new(alloc);
    let mut nexts = vec![in alloc; 0; count]?;
    for step in 0..count {
        let k = count - 1 - step;
        nexts[k] = put_before(&mut heads, facts, k)?;
    }
    Ok((heads, nexts))
}

// Makes a call the first of its session, and gives the one that was.
fn put_before(heads: &mut Heads, facts: &[Fact], k: usize) -> Result<u32, Memory>
    requires few { length facts.now ≤ 100000 }
    requires k { k < length facts.now }
    requires heads { AreFirstHeads facts.now (get nat_cmp heads.old) (k + 1) }
    ensures heads { OnOk result (AreFirstHeads facts.now (get nat_cmp heads.new) k) }
    ensures next { IfOk result (IsNextFrom facts.now (fact_at facts.now k).session (k + 1)) }
{
    let next = insert(heads, facts[k].session, k as u32)?;
    Ok(next.unwrap_or(facts.len() as u32))
}

// Puts a stamp in the place of a session's, if there is one, which it gives.
fn insert(heads: &mut Heads, session: u32, stamp: u32) -> Result<Option<u32>, Memory>
    ensures old { IfOk result (λ old. old ≡ get nat_cmp heads.old session) }
    ensures here { OnOk result (get nat_cmp heads.new session ≡ Some stamp) }
    ensures others { OnOk result
        ((other : ℕ) → (other ≡ session → ⊥) → get nat_cmp heads.new other ≡ get nat_cmp heads.old other) }
{
    Ok(heads.insert(session, stamp)?)
}
