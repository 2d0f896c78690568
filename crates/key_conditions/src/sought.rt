//! The key that a condition asks for.

ghost use Rattle.std.specs.Prelude.{◌≡◌, IfOk};
ghost use Rattle.sql_tree.specs.Plain.{condition_of, term_of};
ghost use Rattle.key_conditions.specs.Sought.{asked_key, key_sought, of_sides};

use crate::parts::{constant_value, is_key, is_sound};
use desk_values::{Binds, Memory, Value};
use sql_eval::Checked;
use sql_tree::Op;
use std::alloc::Global;

/// The key that a condition asks for. It asks for one where it is `key = constant`, either side first, or an AND, at any depth, of
/// which one part is so, and where nothing is computed in it but constants that have a value. A constant has one value for all rows.
///
/// The column of the number 0 is the key. `level` is the level of the rules of values, and `binds` are those that the condition was
/// checked with.
pub fn key_sought(
    alloc: Global,
    level: u32,
    binds: &Binds,
    condition: &Option<Checked>,
) -> Result<Option<Value>, Memory>
    ensures { IfOk result (λ key. key ≡ key_sought level binds.now (condition_of condition.now)) }
{
    match condition {
        Some(condition) if is_sound(alloc, level, binds, condition) => {
            asked_key(alloc, level, binds, condition)
        }
        _ => Ok(None),
    }
}

/// The key that `=` asks for in a condition, or an AND of it.
fn asked_key(alloc: Global, level: u32, binds: &Binds, e: &Checked) -> Result<Option<Value>, Memory>
    ensures { IfOk result (λ key. key ≡ asked_key level binds.now (term_of e.now)) }
{
    match e {
        Checked::Bin(Op::Eq, left, right) => of_sides(alloc, level, binds, left, right),
        Checked::Bin(Op::And, left, right) => match asked_key(alloc, level, binds, left)? {
            Some(key) => Ok(Some(key)),
            None => asked_key(alloc, level, binds, right),
        },
        _ => Ok(None),
    }
}

/// The key that `=` of two parts asks for.
fn of_sides(
    alloc: Global,
    level: u32,
    binds: &Binds,
    left: &Checked,
    right: &Checked,
) -> Result<Option<Value>, Memory>
    ensures { IfOk result (λ key. key ≡ of_sides level binds.now (term_of left.now) (term_of right.now)) }
{
    if is_key(left) {
        constant_value(alloc, level, binds, right)
    } else if is_key(right) {
        constant_value(alloc, level, binds, left)
    } else {
        Ok(None)
    }
}
