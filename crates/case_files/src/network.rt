//! Sources and sinks of the network over streams that fail.

use crate::connections::taken;
use crate::devices::sent;
use crate::failing::Uneven;
use case_text::{first_word, small_number};
use desk_files::{RealSink, RealSource};
use desk_values::{Bytes, Memory};

// `INTERRUPTIONS ROOM`: a read of a stream that is interrupted so often, and two writes into this room.
pub fn answer(text: &str, to: &mut Bytes) -> Result<(), Memory> {
    let (interruptions, room) = first_word(text);
    let mut source = RealSource::new(Uneven::new(small_number(interruptions), 0));
    to.append(taken(&mut source, &mut [0; 4]))?;
    to.append(b"; ")?;
    let mut sink = RealSink::new(Uneven::new(0, small_number(room) as usize));
    for bytes in [b"abc", b"def"] {
        to.append(sent(&mut sink, bytes))?;
    }
    Ok(())
}
