//! The words of SQL that are no names.

ghost use Rattle.std.specs.Prelude.{◌≡◌};
ghost use Rattle.desk_values.specs.Keyword.{keyword_word, same_keyword, is_keyword};

use crate::word::{Word, find_word};

/// The greatest number of bytes of a name.
pub const NAME_LIMIT: usize = 30;

/// A word of the statements that the desk reads, a part of ISO/IEC 9075-2 with some words of Oracle's. It can't be a
/// name. Each is spelled as its variant, in either case.
#[derive(Clone, Copy, Debug, PartialEq, Eq)]
pub enum Keyword {
    And,
    Asc,
    By,
    Commit,
    Count,
    Delete,
    Desc,
    Dual,
    For,
    From,
    Insert,
    Into,
    Is,
    Max,
    Min,
    Nextval,
    Not,
    Null,
    Only,
    Or,
    Order,
    Read,
    Rollback,
    Rowid,
    Savepoint,
    Select,
    Set,
    Sum,
    To,
    Transaction,
    Update,
    Values,
    Where,
}

/// The words, each once.
pub const KEYWORDS: [Keyword; 33] = [
    Keyword::And,
    Keyword::Asc,
    Keyword::By,
    Keyword::Commit,
    Keyword::Count,
    Keyword::Delete,
    Keyword::Desc,
    Keyword::Dual,
    Keyword::For,
    Keyword::From,
    Keyword::Insert,
    Keyword::Into,
    Keyword::Is,
    Keyword::Max,
    Keyword::Min,
    Keyword::Nextval,
    Keyword::Not,
    Keyword::Null,
    Keyword::Only,
    Keyword::Or,
    Keyword::Order,
    Keyword::Read,
    Keyword::Rollback,
    Keyword::Rowid,
    Keyword::Savepoint,
    Keyword::Select,
    Keyword::Set,
    Keyword::Sum,
    Keyword::To,
    Keyword::Transaction,
    Keyword::Update,
    Keyword::Values,
    Keyword::Where,
];

impl Keyword {
    /// Whether they are the same word.
    pub fn same(self, other: Keyword) -> bool
        ensures { result ≡ same_keyword self other }
    {
        self as u8 == other as u8
    }

    /// The bytes of the word in lower case.
    pub fn word(self) -> &'static [u8]
        ensures { result.now ≡ keyword_word self }
    {
        Word::word(self).as_bytes()
    }
}

impl Word for Keyword {
    ghost use Rattle.desk_values.specs.Keyword.{all_keywords, keywords_have_own_words};

    ghost word_of = { keyword_word };

    ghost members_of = { all_keywords };

    ghost own_words = { keywords_have_own_words };

    fn members() -> &'static [Keyword] {
        &KEYWORDS
    }

    // The word in lower case.
    fn word(self) -> &'static str {
        match self {
            Keyword::And => "and",
            Keyword::Asc => "asc",
            Keyword::By => "by",
            Keyword::Commit => "commit",
            Keyword::Count => "count",
            Keyword::Delete => "delete",
            Keyword::Desc => "desc",
            Keyword::Dual => "dual",
            Keyword::For => "for",
            Keyword::From => "from",
            Keyword::Insert => "insert",
            Keyword::Into => "into",
            Keyword::Is => "is",
            Keyword::Max => "max",
            Keyword::Min => "min",
            Keyword::Nextval => "nextval",
            Keyword::Not => "not",
            Keyword::Null => "null",
            Keyword::Only => "only",
            Keyword::Or => "or",
            Keyword::Order => "order",
            Keyword::Read => "read",
            Keyword::Rollback => "rollback",
            Keyword::Rowid => "rowid",
            Keyword::Savepoint => "savepoint",
            Keyword::Select => "select",
            Keyword::Set => "set",
            Keyword::Sum => "sum",
            Keyword::To => "to",
            Keyword::Transaction => "transaction",
            Keyword::Update => "update",
            Keyword::Values => "values",
            Keyword::Where => "where",
        }
    }
}

/// Whether the bytes are a word of SQL in lower case.
#[tactic(auto, unfolding(crate::specs::Keyword::is_keyword))]
pub fn is_keyword(bytes: &[u8]) -> bool
    ensures { result ≡ is_keyword bytes.now }
{
    find_word::<Keyword>(bytes).is_some()
}
