ghost use Rattle.desk_values.specs.Reading.{Reads};
ghost use Rattle.capture_format.specs.Inside.NameReading.{as_name};

use desk_schema::is_name;
use desk_values::{ReadErr, Txt, TxtErr};
use std::alloc::Global;

/// The name that the bytes are. `Bad` where they are none.
pub(crate) fn read_name(alloc: Global, bytes: &[u8]) -> Result<Txt, ReadErr>
    ensures { Reads result (as_name bytes.now) }
{
    match Txt::from_bytes(alloc, bytes) {
        Ok(name) => {
            if is_name(name.as_str()) {
                Ok(name)
            } else {
                Err(ReadErr::Bad)
            }
        }
        Err(TxtErr::Memory) => Err(ReadErr::Memory),
        Err(TxtErr::TooLong) => Err(ReadErr::Bad),
        Err(TxtErr::NotUtf8) => Err(ReadErr::Bad),
    }
}
