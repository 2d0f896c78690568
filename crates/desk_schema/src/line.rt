use crate::schema::Rights;
use desk_values::{Txt, Values};

/// What a column line says that the column holds.
#[derive(Drop)]
pub enum ColumnKind {
    /// Whole numbers from the first to the second, both included.
    Int(i64, i64),
    /// Texts of at most so many bytes of UTF-8.
    Text(u32),
    /// Values drawn from the sequence of this name.
    Seq(Txt),
}

/// A line of a start file.
#[derive(Drop)]
pub enum StartLine {
    /// The version of the format.
    Head(u32),
    /// The level of the SQL rules.
    Level(u32),
    /// A sequence's name and its next value.
    Seq(Txt, u64),
    /// A service's name and rights.
    Service(Txt, Rights),
    /// A table's name. The lines of its columns follow.
    Table(Txt),
    /// A column's name, kind and whether it is not null.
    Column(Txt, ColumnKind, bool),
    /// A row's number, the number of its table, and its values by column.
    Row(u64, u32, Values),
    /// The number of the next row.
    NextRow(u64),
    /// How many sessions were captured.
    Sessions(u32),
    /// The end of the file.
    End,
}
