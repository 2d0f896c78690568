ghost use Rattle.std.specs.Prelude.{◌≡◌};
ghost use Rattle.sql_reader.specs.Words.{sign_text, keyword_operator, sign_operator};

use crate::tree::Op;
use desk_values::Txt;
use desk_values::keyword::Keyword;

/// A sign of one or two characters.
#[derive(Clone, Copy, Debug, PartialEq, Eq)]
pub(crate) enum Sign {
    /// `(`
    Open,
    /// `)`
    Close,
    /// `,`
    Comma,
    /// `.`
    Dot,
    /// `*`
    Star,
    /// `+`
    Plus,
    /// `-`
    Minus,
    /// `/`
    Slash,
    /// `=`
    Equal,
    /// `<>` or `!=`
    NotEqual,
    /// `<`
    Less,
    /// `<=`
    LessOrEqual,
    /// `>`
    Greater,
    /// `>=`
    GreaterOrEqual,
    /// `;`
    Semicolon,
}

/// The least part of a statement's text.
#[derive(Drop)]
pub(crate) enum Token {
    /// A word of the language.
    Word(Keyword),
    /// A name in lower case.
    Name(Txt),
    /// A number, never negative.
    Number(i64),
    /// The bytes of a string.
    Text(Txt),
    /// The number of a bind.
    Bind(u32),
    /// A sign.
    Sign(Sign),
}

/// The signs, the longer ones first.
pub(crate) const SIGNS: [Sign; 15] = [
    Sign::NotEqual,
    Sign::LessOrEqual,
    Sign::GreaterOrEqual,
    Sign::Less,
    Sign::Greater,
    Sign::Equal,
    Sign::Open,
    Sign::Close,
    Sign::Comma,
    Sign::Dot,
    Sign::Star,
    Sign::Plus,
    Sign::Minus,
    Sign::Slash,
    Sign::Semicolon,
];

/// The operator between two expressions that the word is.
pub(crate) fn word_operator(word: Keyword) -> Option<Op>
    ensures { result ≡ keyword_operator word }
{
    match word {
        Keyword::And => Some(Op::And),
        Keyword::Or => Some(Op::Or),
        _ => None,
    }
}

impl Sign {
    /// The operator between two expressions that the sign is.
    pub(crate) fn operator(self) -> Option<Op>
        ensures { result ≡ sign_operator self }
    {
        match self {
            Sign::Plus => Some(Op::Add),
            Sign::Minus => Some(Op::Sub),
            Sign::Star => Some(Op::Mul),
            Sign::Slash => Some(Op::Div),
            Sign::Equal => Some(Op::Eq),
            Sign::NotEqual => Some(Op::Ne),
            Sign::Less => Some(Op::Lt),
            Sign::LessOrEqual => Some(Op::Le),
            Sign::Greater => Some(Op::Gt),
            Sign::GreaterOrEqual => Some(Op::Ge),
            _ => None,
        }
    }

    /// The text of the sign.
    pub(crate) fn text(self) -> &'static [u8]
        ensures { result.now ≡ sign_text self }
    {
        match self {
            Sign::Open => b"(",
            Sign::Close => b")",
            Sign::Comma => b",",
            Sign::Dot => b".",
            Sign::Star => b"*",
            Sign::Plus => b"+",
            Sign::Minus => b"-",
            Sign::Slash => b"/",
            Sign::Equal => b"=",
            Sign::NotEqual => b"<>",
            Sign::Less => b"<",
            Sign::LessOrEqual => b"<=",
            Sign::Greater => b">",
            Sign::GreaterOrEqual => b">=",
            Sign::Semicolon => b";",
        }
    }
}
