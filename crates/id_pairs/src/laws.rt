//! Laws of lists of pairs that callers may rest on. The functions do nothing: their contracts are the laws.

ghost use Rattle.std.specs.Prelude.{◌≡◌, List, ◌++◌};
ghost use Rattle.id_pairs.specs.Pairs.{HasNoIdTwice, IdPair, all_new};

/// Where no id stands twice on one side, further pairs all go last, in their order.
pub fn new_pairs_go_last()
    ensures { (pairs others : List IdPair) → HasNoIdTwice (pairs ++ others) → all_new pairs others ≡ pairs ++ others }
{}
