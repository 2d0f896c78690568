//! What may be known of keys that are one, as `=` compares them at a level of the rules, and a number that they share.
//!
//! Enters: a key. Leaves: its print. It touches nothing, and its laws do nothing.
#![tactic(auto)]

mod key_prints;

ghost use Rattle.same_keys.specs.Print.{KeysSharePrints, SameKeysEitherWay};

pub use key_prints::print_of;

/// Values that are one key share a print, and are the same key as the same others.
pub fn keys_share_prints()
    ensures { KeysSharePrints }
{}

/// Two values are one key whichever comes first.
pub fn same_keys_either_way()
    ensures { SameKeysEitherWay }
{}
