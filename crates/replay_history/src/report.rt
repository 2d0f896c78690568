use desk_values::{Copied, List, Memory, Word};

/// How a replayed reply differs from the captured one: the first that fits, in this order but for `Same`. Oracle's
/// Database Testing Guide parts error divergence (an error that is new, gone or mutated) from data divergence (other
/// numbers of rows, modified or fetched). The classes go on from there: to the rows' contents, commits and replies of
/// other kinds.
#[derive(Clone, Copy, Debug, PartialEq, Eq)]
pub enum Class {
    /// It does not differ.
    Same,
    /// It is refused, and was not: error divergence, as the next two.
    NewError,
    /// It was refused, and is not.
    GoneError,
    /// It is refused for another cause.
    MutatedError,
    /// Another number of rows was written: data divergence, as all that follow.
    RowsModified,
    /// Another number of rows was fetched.
    RowsFetched,
    /// Other rows were fetched.
    RowContents,
    /// Another commit was made.
    Images,
    /// It is a reply of another kind.
    Shape,
}

impl Class {
    /// The classes, in their order.
    pub const ALL: [Class; 9] = [
        Class::Same,
        Class::NewError,
        Class::GoneError,
        Class::MutatedError,
        Class::RowsModified,
        Class::RowsFetched,
        Class::RowContents,
        Class::Images,
        Class::Shape,
    ];
}

impl Word for Class {
    ghost use Rattle.replay_history.specs.Class.{class_word, all_classes, classes_have_own_words};

    ghost word_of = { class_word };

    ghost members_of = { all_classes };

    ghost own_words = { classes_have_own_words };

    fn members() -> &'static [Class] {
        &Class::ALL
    }

    // The class's word in texts.
    fn word(self) -> &'static str {
        match self {
            Class::Same => "same",
            Class::NewError => "new-error",
            Class::GoneError => "gone-error",
            Class::MutatedError => "mutated-error",
            Class::RowsModified => "rows-modified",
            Class::RowsFetched => "rows-fetched",
            Class::RowContents => "row-contents",
            Class::Images => "images",
            Class::Shape => "shape",
        }
    }
}

/// A call whose reply differs.
#[derive(Clone, Copy, Debug, PartialEq, Eq)]
pub struct Line {
    /// The call's stamp.
    pub stamp: u32,
    /// Its session.
    pub session: u32,
    /// Its place in the session.
    pub place: u32,
    /// How its reply differs.
    pub class: Class,
}

impl Copied for Line {
    fn copy(&self) -> Result<Line, Memory> {
        Ok(*self)
    }
}

/// The calls whose replies differ, by stamp.
pub type Lines = List<Line>;

/// What a replay showed.
#[derive(Drop)]
pub struct Report {
    /// How many calls there were.
    pub calls: u64,
    /// How many there were of each class, in the order of [`Class::ALL`].
    pub counts: [u64; 9],
    /// One line per call that differs, stamps rising.
    pub lines: Lines,
}
