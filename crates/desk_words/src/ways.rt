//! How a run goes.

ghost use Rattle.std.specs.Prelude.{◌≡◌};
ghost use Rattle.desk_values.specs.Reading.{Reads};
ghost use Rattle.desk_words.specs.Command.{ways_in};
ghost use Rattle.desk_words.specs.Inside.Finding.{values_in};

use crate::values::{file_of, lanes_of, mode_of, percent_of, target_of};
use clap::ArgMatches;
use desk_values::{ReadErr, Txt};
use replay_history::Mode;
use std::alloc::Global;

/// How a run goes.
#[derive(Drop)]
pub struct Ways {
    /// Which calls wait for which.
    pub mode: Mode,
    /// How many hundredths of the time before a call are its pause, but for a session's first call: 0 to 1,000.
    pub think: u32,
    /// The same for a session's first call.
    pub connect: u32,
    /// The file that says what the captured services are sent as, if there is one.
    pub remap: Option<Txt>,
    /// The file that says how the target differs from the captured start, if there is one.
    pub change: Option<Txt>,
    /// How many lanes serve the sessions, if that is said: 1 to 64.
    pub lanes: Option<u32>,
    /// The port of the server that the calls are sent to, if one is said: from 1 on. There is no change file then.
    pub target: Option<u16>,
}

/// How a run goes by the values behind `run`.
pub(crate) fn ways_in(alloc: Global, values: &ArgMatches<'_>) -> Result<Ways, ReadErr>
    ensures { Reads result (ways_in (values_in values.now)) }
{
    let mode = mode_of(values).ok_or(ReadErr::Bad)?;
    let think = percent_of(values, "think").ok_or(ReadErr::Bad)?;
    let connect = percent_of(values, "connect").ok_or(ReadErr::Bad)?;
    let remap = file_of(alloc, values, "remap")?;
    let change = file_of(alloc, values, "change")?;
    let lanes = lanes_of(values).ok_or(ReadErr::Bad)?;
    let target = target_of(values).ok_or(ReadErr::Bad)?;
    if change.is_some() && target.is_some() {
        return Err(ReadErr::Bad);
    }
    Ok(Ways {
        mode,
        think,
        connect,
        remap,
        change,
        lanes,
        target,
    })
}
