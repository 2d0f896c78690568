//! Reports on replays, read from their bytes.
//!
//! Enters: the bytes of a report. Leaves: the report that they spell, or the number of the first bad line. It touches nothing
//! but memory.
#![tactic(auto)]

mod draft;
pub mod laws;
mod line;
mod reading;

pub use file_lines::FormErr;
pub use line::ReportLine;
pub use reading::read_report;
