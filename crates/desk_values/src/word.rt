//! Finite words: the members of a type in order, the word of each, and which member has a word.

ghost use Rattle.std.specs.Prelude.{◌≡◌, ◌↔◌, List, ℕ, Some};
ghost use Rattle.desk_values.specs.Word.{member_with_word, HasOwnWords};

/// A type of finitely many members, each with a word of its own.
pub trait Word: Copy + 'static {
    /// The word of a member.
    ghost word_of: { Self → List ℕ };

    /// The members.
    ghost members_of: { List Self };

    /// The members, each once, in their order.
    fn members() -> &'static [Self]
        ensures { result.now ≡ members_of };

    /// The member's word.
    fn word(self) -> &'static str
        ensures { result.now ≡ word_of self };

    // Each value is a member, and found by its word.
    ghost own_words: { HasOwnWords word_of members_of };
}

/// The member with this word. `None` where there is none.
pub fn find_word<W: Word>(bytes: &[u8]) -> Option<W>
    ensures value { result ≡ member_with_word W.word_of W.members_of bytes.now }
    ensures law { (member : W) → (result ≡ Some member) ↔ (W.word_of member ≡ bytes.now) }
{
    found_word(bytes)
}

#[tactic(auto, unfolding(crate::specs::Word::member_with_word))]
fn found_word<W: Word>(bytes: &[u8]) -> Option<W>
    ensures { result ≡ member_with_word W.word_of W.members_of bytes.now }
{
    W::members()
        .iter()
        .copied()
        .find(|member| member.word().as_bytes() == bytes)
}
