//! Laws of [`check`](crate::check), [`truth_of`](crate::truth_of), [`eval`](crate::eval) and [`total`](crate::total) that callers may rest on. The functions do nothing:
//! their contracts are the laws.

ghost use Rattle.sql_tree.specs.declared.tree.Op.TheVariants.{And, Or};
ghost use Rattle.sql_eval.specs.CheckLaws.{LowestRankIsTold, NothingIsOverlooked};
ghost use Rattle.sql_eval.specs.Laws.{AreStandardTables, GoesByTable, NotGoesByTable, NullIsNull, NullIsUnknown, RoundsDown, RoundsTowardZero, TruthFaultIsAmongParts, UnknownMeansNull, ValueFaultIsAmongParts, ValueHasItsKind};
ghost use Rattle.sql_eval.specs.Logic.{conjunction, disjunction};
ghost use Rattle.sql_eval.specs.TotalLaws.{MaxIsGreatest, MinIsLeast, TotalIgnoresOrder};

/// The checks tell the fault of lowest rank among those that apply to the statement, and none is overlooked.
pub fn faults_by_rank()
    ensures lowest { LowestRankIsTold }
    ensures none { NothingIsOverlooked }
{}

/// NOT, AND and OR go by the truth tables of three-valued logic (ISO/IEC 9075-2, boolean value expression).
pub fn three_valued_logic()
    ensures tables { AreStandardTables }
    ensures not { NotGoesByTable }
    ensures and { GoesByTable And conjunction }
    ensures or { GoesByTable Or disjunction }
{}

/// What Null does where the other side has a value: a comparison becomes unknown, a calculation Null, also by zero
/// (ISO/IEC 9075-2, comparison predicate and numeric value expression).
pub fn null_operands()
    ensures unknown { NullIsUnknown }
    ensures null { NullIsNull }
{}

/// No part is skipped: the fault of any part is that of the whole, the zero divisor before overflow. There is no other
/// fault, and an operator with a faulty operand adds none.
pub fn faults_of_parts()
    ensures value { ValueFaultIsAmongParts }
    ensures truth { TruthFaultIsAmongParts }
{}

/// An expression that keeps the rules of kinds has a value of its kind or Null, where the row's values fit their columns.
/// A comparison that keeps them is unknown only where one side is Null.
pub fn values_have_their_kind()
    ensures value { ValueHasItsKind }
    ensures unknown { UnknownMeansNull }
{}

/// A quotient by a number that is not 0 is the one next to the exact value: at level 1 on the side of 0, at level 2 on
/// that of minus infinity.
pub fn quotients_round()
    ensures toward_zero { RoundsTowardZero }
    ensures down { RoundsDown }
{}

/// Totals are what they say, in whatever order the rows stand: MIN and MAX are a value of their part that is at most, or
/// at least, every number and every text among these values, and Null only where there is no such value.
pub fn totals_of_rows()
    ensures order { TotalIgnoresOrder }
    ensures min { MinIsLeast }
    ensures max { MaxIsGreatest }
{}
