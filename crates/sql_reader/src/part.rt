ghost use Rattle.std.specs.Prelude.{◌≡◌};
ghost use Rattle.sql_reader.specs.Grammar.{line_of, right_of, left_of};

use crate::tree::Op;

/// A part of an expression, from the tightest to the loosest: a tighter part is less than a looser one.
#[derive(Clone, Copy, Debug, PartialEq, Eq, PartialOrd, Ord)]
pub(crate) enum Part {
    /// A single token, or parentheses.
    Primary,
    /// Unary minus before a factor.
    Factor,
    /// `*` and `/` between factors.
    Product,
    /// `+` and `-` between products.
    Sum,
    /// A comparison of two sums, or a test of one.
    Comparison,
    /// `NOT` before a negation.
    Negation,
    /// `AND` between negations.
    Conjunction,
    /// `OR` between conjunctions.
    Disjunction,
}

impl Part {
    /// What stands before an operator of this part.
    pub(crate) fn left(self) -> Part
        ensures { result ≡ left_of self }
    {
        match self {
            Part::Comparison => Part::Sum,
            part => part,
        }
    }

    /// What stands after an operator of this part.
    pub(crate) fn right(self) -> Part
        ensures { result ≡ right_of self }
    {
        match self {
            Part::Disjunction => Part::Conjunction,
            Part::Conjunction => Part::Negation,
            Part::Comparison => Part::Sum,
            Part::Sum => Part::Product,
            _ => Part::Factor,
        }
    }

    /// The part in which the operator stands.
    pub(crate) fn of(op: Op) -> Part
        ensures { result ≡ line_of op }
    {
        match op {
            Op::Or => Part::Disjunction,
            Op::And => Part::Conjunction,
            Op::Eq | Op::Ne | Op::Lt | Op::Le | Op::Gt | Op::Ge => Part::Comparison,
            Op::Add | Op::Sub => Part::Sum,
            Op::Mul | Op::Div => Part::Product,
        }
    }
}
