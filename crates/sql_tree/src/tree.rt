//! The trees of statements: a part of SQL as ISO/IEC 9075-2 has it, and beside it what is Oracle's: `FOR UPDATE` after
//! a `SELECT`, `ROWID`, `DUAL`, `NEXTVAL`, numbered binds and `!=`. Where a text is read, names are in lower case, and
//! each list has 1 to 16 members.

use desk_values::{List, Txt};

/// A statement of SQL.
#[derive(Drop)]
pub enum Statement<N = Txt> {
    /// `SELECT`: the table, what is asked for, which rows (all of them without a condition), the columns to order by
    /// (none: by row), and whether the rows are held by `FOR UPDATE`.
    Select(N, Items<N>, Option<Expr<N>>, List<Key<N>>, bool),
    /// `SELECT sequence.NEXTVAL FROM DUAL`: the next value of the named sequence.
    Next(N),
    /// `INSERT` of one row: the table, the columns that are given (all of them where none is named), and their
    /// values in the same order.
    Insert(N, Option<List<N>>, List<Input<N>>),
    /// `UPDATE`: the table, the columns that are set, and which rows (all of them without a condition).
    Update(N, List<Setting<N>>, Option<Expr<N>>),
    /// `DELETE`: the table, and which of its rows go (all of them without a condition).
    Delete(N, Option<Expr<N>>),
    /// `COMMIT`: the end of a transaction, whose changes last.
    Commit,
    /// `ROLLBACK`: the end of a transaction, whose changes are dropped.
    Rollback,
    /// `SET TRANSACTION READ ONLY`: the start of a transaction that only reads.
    SetReadOnly,
    /// `SAVEPOINT`: what the transaction has done so far is kept under this name.
    Savepoint(Txt),
    /// `ROLLBACK TO`, or `ROLLBACK TO SAVEPOINT`: what was done since the savepoint of this name is dropped.
    RollbackTo(Txt),
}

/// What a SELECT asks for.
#[derive(Drop)]
pub enum Items<N = Txt> {
    /// `*`: all columns of each row.
    All,
    /// These values of each row.
    Exprs(List<Expr<N>>),
    /// These values over all rows: one row.
    Aggs(List<Agg<N>>),
}

/// A value over all rows (a set function in ISO/IEC 9075-2).
#[derive(Drop)]
pub enum Agg<N = Txt> {
    /// `COUNT(*)`: how many rows there are.
    Count,
    /// `SUM`: the sum.
    Sum(Expr<N>),
    /// `MIN`: the least value.
    Min(Expr<N>),
    /// `MAX`: the greatest value.
    Max(Expr<N>),
}

/// A value of an INSERT.
#[derive(Drop)]
pub enum Input<N = Txt> {
    /// The value of an expression.
    Expr(Expr<N>),
    /// `sequence.NEXTVAL`: the next value of the named sequence.
    Next(N),
}

/// A column to order by (`ORDER BY` in ISO/IEC 9075-2).
#[derive(Drop)]
pub struct Key<N = Txt> {
    /// The column.
    pub column: N,
    /// Whether the greatest comes first (`DESC`); else the least does (`ASC`, or neither).
    pub desc: bool,
}

/// A new value of a column: `column = to` in an `UPDATE`.
#[derive(Drop)]
pub struct Setting<N = Txt> {
    /// The column.
    pub column: N,
    /// Its new value.
    pub to: Expr<N>,
}

/// An expression: a value or a condition. From the tightest to the loosest bind unary minus; `*` and `/`; `+` and
/// `-`; the comparisons, `IS NULL` and `IS NOT NULL`; `NOT`; `AND`; `OR`. The operators of one line group to the left,
/// and comparisons do not follow one another. Where a text is read, `NOT`, unary minus and parentheses nest at most 32
/// deep.
#[derive(Drop)]
pub enum Expr<N = Txt> {
    /// `NULL`
    Null,
    /// A whole number, never negative where it was read: a minus before it is `Neg`.
    Int(i64),
    /// A text. In SQL it stands between quotes, with each quote in it written twice.
    Text(Txt),
    /// `:1` to `:16`: the value of a bind, by its number from 1.
    Bind(u32),
    /// The value of the named column.
    Column(N),
    /// `ROWID`: the id of the row.
    RowId,
    /// Unary minus.
    Neg(Box<Expr<N>>),
    /// `NOT`
    Not(Box<Expr<N>>),
    /// An operator between two expressions.
    Bin(Op, Box<Expr<N>>, Box<Expr<N>>),
    /// `IS NULL`
    IsNull(Box<Expr<N>>),
    /// `IS NOT NULL`
    NotNull(Box<Expr<N>>),
}

/// An operator between two expressions.
#[derive(Clone, Copy, Debug, PartialEq, Eq)]
pub enum Op {
    /// `+`
    Add,
    /// `-`
    Sub,
    /// `*`
    Mul,
    /// `/`
    Div,
    /// `=`
    Eq,
    /// `<>`, which may be written `!=` too
    Ne,
    /// `<`
    Lt,
    /// `<=`
    Le,
    /// `>`
    Gt,
    /// `>=`
    Ge,
    /// `AND`
    And,
    /// `OR`
    Or,
}
