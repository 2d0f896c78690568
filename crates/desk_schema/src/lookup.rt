ghost use Rattle.std.specs.Prelude.{◌≡◌, ◌↔◌, ◌≤◌, List, ℕ, IsNone, IsTrue, length, map};
ghost use Rattle.std.specs.List.{Contains};
ghost use Rattle.desk_schema.specs.Schema.{IsNoName, place_ignoring_case, place_of};

use desk_values::Txt;

/// What has a name.
pub(crate) trait Named {
    /// The bytes of its name.
    ghost name_in: { Self → List ℕ };

    /// Its name.
    fn name(&self) -> &Txt
        ensures { result.now ≡ name_in self.now };
}

impl Named for Txt {
    ghost name_in = { λ text. text };

    fn name(&self) -> &Txt {
        self
    }
}

/// The place of the first item of this name, the case of ASCII letters ignored.
pub(crate) fn place_ignoring_case_in<N: Named>(items: &[N], name: &Txt) -> Option<u32>
    requires { length items.now ≤ 32 }
    ensures value { result ≡ place_ignoring_case (map N.name_in items.now) name.now }
    ensures none { IsNone result ↔ IsNoName (map N.name_in items.now) name.now }
{
    for (i, item) in items.iter().enumerate() {
        if item.name().as_str().eq_ignore_ascii_case(name.as_str()) {
            return Some(i as u32);
        }
    }
    None
}

/// The place of the first item of just this name.
pub(crate) fn place_in<N: Named>(items: &[N], name: &[u8]) -> Option<u32>
    requires { length items.now ≤ 32 }
    ensures { result ≡ place_of (map N.name_in items.now) name.now }
{
    for (i, item) in items.iter().enumerate() {
        if item.name().as_str().as_bytes() == name {
            return Some(i as u32);
        }
    }
    None
}

/// Whether an item has this name.
pub(crate) fn contains_name<N: Named>(items: &[N], name: &Txt) -> bool
    ensures { IsTrue result ↔ Contains (map N.name_in items.now) name.now }
{
    for item in items {
        if item.name().as_str() == name.as_str() {
            return true;
        }
    }
    false
}
