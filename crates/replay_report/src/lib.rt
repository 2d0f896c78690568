//! What a replay showed: the report on it, and the texts of its journal, its report and its tables.
//!
//! Enters: a job and its history, rows, or the bytes of a journal. Leaves: the report, texts, or what the bytes spell. It
//! touches nothing but memory. A report is read by `report_format`, whose call is given out here too.
#![tactic(auto)]

mod differences;
mod journal;
mod journal_line;
pub mod laws;
mod report;
mod texts;

pub use differences::report_csv;
pub use file_lines::FormErr;
pub use journal::{Journal, read_journal};
pub use journal_line::JournalLine;
pub use replay_history::{Class, Line, Lines, Report};
pub use report::{report_heard, report_of};
pub use report_format::read_report;
pub use texts::{journal_text, report_text, tables_text};
