//! The kinds of binds.

ghost use Rattle.std.specs.Prelude.{◌≡◌, IsTrue, ◌↔◌, IfOk, map};
ghost use Rattle.statement_cache.specs.Kinds.{kind_of_bind, kinds_of};

use desk_values::{Memory, Value};
use std::alloc::Global;

/// What the checks know of a bind.
#[derive(Clone, Copy, Debug, PartialEq, Eq)]
pub enum BindKind {
    /// A Null.
    Null,
    /// A number.
    Int,
    /// A text.
    Text,
    /// The id of a row.
    Row,
    /// A value drawn from the sequence of this number.
    Draw(u32),
}

/// The kind of a bind.
pub fn kind_of_bind(value: &Value) -> BindKind
    ensures { result ≡ kind_of_bind value.now }
{
    match value {
        Value::Null => BindKind::Null,
        Value::Int(_) => BindKind::Int,
        Value::Text(_) => BindKind::Text,
        Value::Row(_) => BindKind::Row,
        Value::Draw(sequence, _) => BindKind::Draw(*sequence),
    }
}

/// The kinds of binds in order.
pub fn kinds_of(alloc: Global, binds: &[Value]) -> Result<Vec<BindKind>, Memory>
    ensures { IfOk result (λ kinds. kinds.items ≡ kinds_of binds.now) }
{
    let mut kinds = Vec::new(alloc);
    for bind in binds {
        kinds.push(kind_of_bind(bind))?;
    }
    Ok(kinds)
}

/// Whether the binds are of these kinds.
pub fn are_of_kinds(binds: &[Value], kinds: &[BindKind]) -> bool
    ensures { IsTrue result → kinds_of binds.now ≡ kinds.now }
{
    match (binds, kinds) {
        ([], []) => true,
        ([bind, binds @ ..], [kind, kinds @ ..]) => {
            kind_of_bind(bind) == *kind && are_of_kinds(binds, kinds)
        }
        _ => false,
    }
}
