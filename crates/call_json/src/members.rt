//! Objects of just one key, of two, of three. A map gives its keys in order.

ghost use Rattle.std.specs.Prelude.{◌≡◌, option_map};
ghost use Rattle.serde_json.specs.View.{view, members_view};
ghost use Rattle.call_json.specs.Inside.Members.{all_three, both, only, sole};

use serde_json::{Map, Value as Json};

/// The only key of an object, and its value.
pub(crate) fn sole(members: &Map<String, Json>) -> Option<(&str, &Json)>
    ensures { option_map (λ m. (m.0.now, view m.1.now)) result ≡ sole (members_view members.now.entries) }
{
    let mut rest = members.iter();
    let (key, json) = rest.next()?;
    match rest.next() {
        Some(_) => None,
        None => Some((key.as_str(), json)),
    }
}

/// The value of an object whose only key is this one.
pub(crate) fn only<'j>(members: &'j Map<String, Json>, key: &str) -> Option<&'j Json>
    ensures { option_map (λ d. view d.now) result ≡ only key.now (members_view members.now.entries) }
{
    let (found, json) = sole(members)?;
    if found == key { Some(json) } else { None }
}

/// The values of an object with just these two keys, of which the first is less.
pub(crate) fn both<'j>(
    members: &'j Map<String, Json>,
    first: &str,
    second: &str,
) -> Option<(&'j Json, &'j Json)>
    ensures { option_map (λ p. (view p.0.now, view p.1.now)) result
        ≡ both first.now second.now (members_view members.now.entries) }
{
    let mut rest = members.iter();
    let (found, one) = rest.next()?;
    let (other, two) = rest.next()?;
    if rest.next().is_none() && found.as_str() == first && other.as_str() == second {
        Some((one, two))
    } else {
        None
    }
}

/// The values of an object with just these three keys, which ascend.
pub(crate) fn all_three<'j>(
    members: &'j Map<String, Json>,
    first: &str,
    second: &str,
    third: &str,
) -> Option<(&'j Json, &'j Json, &'j Json)>
    ensures { option_map (λ p. (view p.0.now, view p.1.now, view p.2.now)) result
        ≡ all_three first.now second.now third.now (members_view members.now.entries) }
{
    let mut rest = members.iter();
    let (found, one) = rest.next()?;
    let (other, two) = rest.next()?;
    let (last, three) = rest.next()?;
    if rest.next().is_some() {
        return None;
    }
    if found.as_str() == first && other.as_str() == second && last.as_str() == third {
        Some((one, two, three))
    } else {
        None
    }
}
