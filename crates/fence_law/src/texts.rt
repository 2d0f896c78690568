//! The file of the plain reads.

ghost use Rattle.std.specs.Prelude.{◌≡◌, IfOk, OnOk, ◌++◌};
ghost use Rattle.std.specs.List.{flat_map};
ghost use Rattle.std.specs.Fmt.{decimal};
ghost use Rattle.replay_history.specs.Texts.{line};
ghost use Rattle.fence_law.specs.Text.{fence_text};

use desk_values::fields::append_u64;
use desk_values::{Bytes, List, Memory, Stamps};
use std::alloc::Global;

/// The text of `fence.txt`: a line for each stamp.
pub fn fence_text(alloc: Global, stamps: &Stamps) -> Result<Bytes, Memory>
    ensures { IfOk result (λ text. text ≡ fence_text stamps.now) }
{
    let mut text = List::new(alloc);
    text.append(b"fence 1\n")?;
    append_stamps(stamps.as_slice(), &mut text)?;
    text.append(b"end\n")?;
    Ok(text)
}

fn append_stamps(stamps: &[u32], to: &mut Bytes) -> Result<(), Memory>
    ensures { OnOk result (to.new ≡ to.old ++ flat_map (λ stamp. line (decimal stamp)) stamps.now) }
{
    for stamp in stamps {
        append_stamp(*stamp, to)?;
    }
    Ok(())
}

fn append_stamp(stamp: u32, to: &mut Bytes) -> Result<(), Memory>
    ensures { OnOk result (to.new ≡ to.old ++ line (decimal stamp)) }
{
    append_u64(u64::from(stamp), to)?;
    to.push(b'\n')
}
