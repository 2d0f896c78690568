//! The data that every crate of the desk speaks of: values, calls, replies, events, and lists of them.
//!
//! Enters: bytes of a text, and parts that are put together. Leaves: values within their limits.
//! It touches nothing but memory.
#![tactic(auto)]

mod call;
mod capture;
mod comparison;
mod escape;
mod fault;
pub mod fields;
pub mod keyword;
pub mod laws;
mod limits;
mod list;
mod memory;
mod read_err;
mod reading;
mod reserved;
mod same;
mod sorting;
mod text;
mod value;
mod well_formed;
mod word;
mod writing;

pub use call::{Call, Outcome, Reply};
pub use capture::{CallList, Captured, Event, History, SessionLists};
pub use comparison::{same_key, text_order, value_equal, value_order, without_trailing_spaces};
pub use fault::Fault;
pub use limits::{LAST_MOMENT, SESSION_LIMIT};
pub use list::List;
pub use memory::{Copied, Memory};
pub use read_err::ReadErr;
pub use reading::{read_value, read_values};
pub use reserved::Reserved;
pub use same::{Same, same_items};
pub use sorting::{kind_then_value, sort_rows, value_by_value};
pub use text::{TEXT_LIMIT, Txt, TxtErr};
pub use value::{
    BIND_LIMIT, BindErr, Binds, Bytes, Image, Images, RowList, Stamps, TABLE_LIMIT, Value, Values,
};
pub use well_formed::{all_draws, rows_ascend};
pub use word::{Word, find_word};
pub use writing::{write_value, write_values};
