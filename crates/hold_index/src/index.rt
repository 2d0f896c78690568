//! Rows and keys by who holds them.

ghost use Rattle.std.specs.Prelude.{◌≡◌, ℕ, List, [], ◌∷◌, ◌++◌, None, Some, true, nat_eq, if◌then◌else◌};
ghost use Rattle.std.specs.List.{list_any};
ghost use Rattle.hold_index.specs.Inside.Numbers.{is_free, session_of};
ghost use Rattle.hold_index.specs.Told.{AreTold, PrintsMove, RowsMove, is_told, print_in, session_in};

use crate::numbers::Numbers;
use desk_values::Value;
use same_keys::print_of;
use std::alloc::Global;
use std::marker::Model;

/// Which session holds a row or a key of a table: keys by their prints. It is kept until two sessions have one print or memory
/// is short; from then on what is held is looked through.
pub struct HoldIndex {
    is_kept: bool,
    rows: Numbers,
    prints: Numbers,
}

// Written out: a caller then drops it by one call, which keeps the caller's proof small.
impl Drop for HoldIndex {
    fn drop(self) {
        let HoldIndex {
            is_kept: _is_kept,
            rows: _rows,
            prints: _prints,
        } = self;
    }
}

impl Model for HoldIndex {
    ghost use Rattle.hold_index.specs.Told.{Told};

    ghost Value = { Told };

    ghost view = { λ a. record { is_kept = a.is_kept; rows = a.rows.sessions.entries; prints = a.prints.sessions.entries } };
}

impl HoldIndex {
    /// Nobody holds anything. Takes no memory.
    pub fn new(alloc: Global) -> HoldIndex
        ensures { AreTold result (λ session. []) (λ session. []) }
    {
        HoldIndex {
            is_kept: true,
            rows: Numbers::new(alloc),
            prints: Numbers::new(alloc),
        }
    }

    /// Whether it is kept.
    pub fn is_kept(&self) -> bool
        ensures { result ≡ self.now.is_kept }
    {
        self.is_kept
    }

    /// Which session is noted for a row.
    pub fn holder_of_row(&self, row: u64) -> Option<u32>
        ensures { result ≡ session_in self.now.rows row }
    {
        self.rows.session_of(row)
    }

    /// Which session is noted for the print of a key.
    pub fn holder_of_key(&self, table: u32, key: &Value) -> Option<u32>
        ensures { result ≡ session_in self.now.prints (print_in table key.now) }
    {
        self.prints.session_of(print_in(table, key))
    }

    /// Whether the session is the one noted for a row.
    pub fn tells_row(&self, session: u32, row: u64) -> bool
        ensures { result ≡ is_told session (session_in self.now.rows row) }
    {
        is_told(session, self.holder_of_row(row))
    }

    /// Whether the session is the one noted for the print of a key.
    pub fn tells_key(&self, session: u32, table: u32, key: &Value) -> bool
        ensures { result ≡ is_told session (session_in self.now.prints (print_in table key.now)) }
    {
        is_told(session, self.holder_of_key(table, key))
    }

    /// The session holds one more row. Where another session is told of it, or memory is short, nothing is kept any more.
    pub fn hold_row(&mut self, session: u32, row: u64)
        ensures { (list : List ℕ) → RowsMove self.old self.new session list (list ++ row ∷ []) }
    {
        let stands = hold(self.is_kept, &mut self.rows, session, row);
        self.is_kept = stands;
    }

    /// The session holds one more key. Where another session is told of its print, or memory is short, nothing is kept any more.
    pub fn hold_key(&mut self, session: u32, table: u32, key: &Value)
        ensures { (list : List ℕ) → PrintsMove self.old self.new session list (list ++ print_in table key.now ∷ []) }
    {
        let print = print_in(table, key);
        let stands = hold(self.is_kept, &mut self.prints, session, print);
        self.is_kept = stands;
    }

    /// A session that holds these rows holds no row any more. Takes no memory.
    pub fn free_rows(&mut self, rows: &[u64])
        ensures { (session : ℕ) → RowsMove self.old self.new session rows.now [] }
    {
        take_all_out(&mut self.rows, rows);
    }

    /// No session is noted for the print of a key any more. Takes no memory.
    pub fn free_key(&mut self, table: u32, key: &Value)
        ensures kept { self.new.is_kept ≡ self.old.is_kept }
        ensures rows { self.new.rows ≡ self.old.rows }
        ensures prints { (n : ℕ) → session_in self.new.prints n ≡ (if nat_eq (print_in table key.now) n then None else session_in self.old.prints n) }
    {
        self.prints.take_out(print_in(table, key));
    }
}

/// The print of a key of a table.
fn print_in(table: u32, key: &Value) -> u64
    ensures { result ≡ print_in table key.now }
{
    u64::from(table)
        .wrapping_mul(11_400_714_819_323_198_485)
        .wrapping_add(print_of(key))
}

fn is_told(session: u32, holder: Option<u32>) -> bool
    ensures { result ≡ is_told session holder }
{
    match holder {
        Some(other) => session == other,
        None => false,
    }
}

/// Adds a number of a session, unless it is another's or nothing is kept, and tells whether it stands there.
fn hold(is_kept: bool, numbers: &mut Numbers, session: u32, number: u64) -> bool
    ensures kept { result ≡ true → is_kept ≡ true }
    ensures free { result ≡ true → is_free session (session_of numbers.old number) ≡ true }
    ensures added { result ≡ true → (n : ℕ)
        → session_of numbers.new n ≡ (if nat_eq number n then Some session else session_of numbers.old n) }
{
    is_kept && is_free(session, numbers.session_of(number)) && numbers.add(number, session)
}

fn is_free(session: u32, holder: Option<u32>) -> bool
    ensures { result ≡ is_free session holder }
{
    match holder {
        Some(other) => session == other,
        None => true,
    }
}

fn take_all_out(numbers: &mut Numbers, taken: &[u64])
    ensures { (n : ℕ) → session_of numbers.new n ≡ (if list_any (nat_eq n) taken.now then None else session_of numbers.old n) }
{
    for number in taken {
        numbers.take_out(*number);
    }
}
