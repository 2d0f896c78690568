//! Bytes are cut into requests in one way alone.

ghost use Rattle.std.specs.Prelude.{◌≡◌, ◌≤◌, ℕ, List, ◌++◌, length, take};
ghost use Rattle.http_requests.specs.Requests.{AreRequests, Cut, IsCut, own_of};

/// Of two lists of requests that the same bytes begin with, the shorter is a front of the longer.
pub fn requests_agree()
    ensures { (a b : List Cut) (r q : List ℕ) → AreRequests a → AreRequests b → own_of a ++ r ≡ own_of b ++ q
        → length a ≤ length b → a ≡ take (length a) b }
{}

/// Bytes are requests, and then less than one, in one way alone.
pub fn one_cut()
    ensures { (bytes : List ℕ) (a b : List Cut) (r q : List ℕ) → IsCut bytes a r → IsCut bytes b q → (a ≡ b) × (r ≡ q) }
{}
