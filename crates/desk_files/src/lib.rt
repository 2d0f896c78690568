//! The outside world as traits: files by name, a sink and a source of bytes, a host of connections, and
//! a door by which time passes.
//!
//! Enters: names, bytes, connections and times. Leaves: bytes, times, and which fault came. The objects
//! in memory touch nothing but memory; the real ones touch the system's files, its standard output, its
//! network and its clock, and nothing is claimed of what those hold or tell.
#![tactic(auto)]

mod calls;
mod door;
mod fault;
mod files;
mod handing;
mod host;
mod mem_door;
mod mem_files;
mod mem_host;
mod mem_sink;
mod mem_source;
mod real_files;
mod real_host;
mod real_stream;
mod sink;
mod source;
mod std_sink;
mod writes;

pub use calls::Calls;
pub use door::{Door, SleepDoor};
pub use fault::{Failed, FileErr, WriteErr};
pub use files::{FILE_LIMIT, Files};
pub use host::Host;
pub use mem_door::{MemDoor, Passed};
pub use mem_files::MemFiles;
pub use mem_host::{MemConn, MemConns, MemHost};
pub use mem_sink::MemSink;
pub use mem_source::MemSource;
pub use real_files::{RealFiles, SUFFIX};
pub use real_host::RealHost;
pub use real_stream::{RealSink, RealSource};
pub use sink::Sink;
pub use source::Source;
pub use std_sink::StdSink;
pub use writes::{Write, write_all};
