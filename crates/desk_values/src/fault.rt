ghost use Rattle.std.specs.Prelude.{◌≡◌, Some, IfSome};
ghost use Rattle.desk_values.specs.declared.fault.Fault.{Fault};
ghost use Rattle.desk_values.specs.Fault.{fault_number, fault_numbered, fault_rank};

/// Why a call is refused. The causes are the profile's own, each with a number.
#[derive(Clone, Copy, Debug, PartialEq, Eq)]
pub enum Fault {
    /// The text is no statement.
    Syntax,
    /// No such table.
    UnknownTable,
    /// No such column, or one that is named twice.
    UnknownColumn,
    /// No such sequence.
    UnknownSequence,
    /// No such service.
    UnknownService,
    /// Two kinds disagree.
    Kinds,
    /// A bind is missing.
    BindMissing,
    /// A row or a key is held by another session.
    Locked,
    /// A key stands twice in a table.
    DuplicateKey,
    /// Null in a column that takes none.
    NullValue,
    /// A number is out of its column's range.
    OutOfRange,
    /// A text is longer than its column.
    TextTooLong,
    /// A divisor is zero.
    ZeroDivisor,
    /// A number leaves 64 bits.
    Overflow,
    /// The session or its transaction may only read.
    ReadOnly,
    /// The session is not connected.
    NotConnected,
    /// The session is connected already.
    AlreadyConnected,
    /// A transaction is under way.
    UnderWay,
    /// Over 1,000 rows.
    TooManyRows,
    /// The session has no savepoint of this name.
    NoSavepoint,
}

const ALL: [Fault; 20] = [
    Fault::Syntax,
    Fault::UnknownTable,
    Fault::UnknownColumn,
    Fault::UnknownSequence,
    Fault::UnknownService,
    Fault::Kinds,
    Fault::BindMissing,
    Fault::Locked,
    Fault::DuplicateKey,
    Fault::NullValue,
    Fault::OutOfRange,
    Fault::TextTooLong,
    Fault::ZeroDivisor,
    Fault::Overflow,
    Fault::ReadOnly,
    Fault::NotConnected,
    Fault::AlreadyConnected,
    Fault::UnderWay,
    Fault::TooManyRows,
    Fault::NoSavepoint,
];

#[tactic(auto, unfolding(crate::specs::Fault::fault_numbered))]
fn numbered(number: u32) -> Option<Fault>
    ensures { result ≡ fault_numbered number }
{
    ALL.iter().copied().find(|fault| fault.number() == number)
}

impl Fault {
    /// The fault's number in texts.
    pub fn number(self) -> u32
        ensures { result ≡ fault_number self }
    {
        match self {
            Fault::Syntax => 10,
            Fault::UnknownTable => 11,
            Fault::UnknownColumn => 12,
            Fault::UnknownSequence => 13,
            Fault::UnknownService => 14,
            Fault::Kinds => 15,
            Fault::BindMissing => 16,
            Fault::Locked => 20,
            Fault::DuplicateKey => 21,
            Fault::NullValue => 22,
            Fault::OutOfRange => 23,
            Fault::TextTooLong => 24,
            Fault::ZeroDivisor => 25,
            Fault::Overflow => 26,
            Fault::ReadOnly => 27,
            Fault::NotConnected => 28,
            Fault::AlreadyConnected => 29,
            Fault::UnderWay => 32,
            Fault::TooManyRows => 33,
            Fault::NoSavepoint => 34,
        }
    }

    /// Where the fault stands in the order in which faults are told: of two that apply, the one of lower rank is told.
    pub fn rank(self) -> u32
        ensures { result ≡ fault_rank self }
    {
        match self {
            Fault::Syntax => 0,
            Fault::NotConnected => 1,
            Fault::AlreadyConnected => 2,
            Fault::UnknownService => 3,
            Fault::UnknownTable => 4,
            Fault::UnknownColumn => 5,
            Fault::UnknownSequence => 6,
            Fault::BindMissing => 7,
            Fault::Kinds => 8,
            Fault::ReadOnly => 9,
            Fault::UnderWay => 10,
            Fault::NoSavepoint => 11,
            Fault::ZeroDivisor => 12,
            Fault::Overflow => 13,
            Fault::TooManyRows => 14,
            Fault::Locked => 15,
            Fault::NullValue => 16,
            Fault::TextTooLong => 17,
            Fault::OutOfRange => 18,
            Fault::DuplicateKey => 19,
        }
    }

    /// The fault with this number, where there is one.
    pub fn from_number(number: u32) -> Option<Fault>
        ensures value { result ≡ fault_numbered number }
        ensures some { IfSome result (λ fault. fault_number fault ≡ number) }
        ensures only { (fault : Fault) → fault_number fault ≡ number → result ≡ Some fault }
    {
        numbered(number)
    }
}
