//! What a page and what is shown come to.

ghost use Rattle.std.specs.Prelude.{◌≡◌, ◌<◌, ◌≤◌, IfOk, IfSome, length};
ghost use Rattle.replay_page.specs.Data.{IsQuietPage};
ghost use Rattle.replay_show.specs.Shown.{seen};
ghost use Rattle.replay_cli.specs.Decision.{ToPage, ToShow};
ghost use Rattle.replay_cli.specs.Done.{IsDoneAlone, IsShown};
ghost use Rattle.replay_cli.specs.Inside.Work.{IsShowable};
ghost use Rattle.replay_cli.specs.Lines.{paged_line};

use crate::file_names::name_in;
use crate::plan::{Plan, append_counted};
use desk_files::Write;
use desk_values::{Bytes, List, Memory};
use replay_page::{Page, page_text};
use replay_show::{Shown, call_lines, differing_lines};
use std::alloc::Global;

/// A page of so many calls, of which so many differ.
pub(crate) fn paging(alloc: Global, page: Page, calls: u64, divergent: u64) -> Result<Plan, Memory>
    requires out { length page.out ≤ 900 }
    requires quiet { IsQuietPage page }
    ensures { IfOk result (λ plan. IsDoneAlone (ToPage page calls divergent) plan) }
{
    let name = name_in(alloc, &page.out, "/page.html")?;
    let bytes = page_text(alloc, page)?;
    let mut writes = List::new(alloc);
    writes.push(Write { name, bytes })?;
    Ok(Plan {
        line: paged_line(alloc, calls, divergent)?,
        differs: false,
        writes,
    })
}

/// Of how many calls a page is, and how many of them differ.
fn paged_line(alloc: Global, calls: u64, divergent: u64) -> Result<Bytes, Memory>
    ensures { IfOk result (λ line. line ≡ paged_line calls divergent) }
{
    let mut line = List::new(alloc);
    line.append(b"paged ")?;
    append_counted(calls, " calls, ", &mut line)?;
    append_counted(divergent, " divergent\n", &mut line)?;
    Ok(line)
}

/// The calls that differ, or the one with this stamp.
pub(crate) fn showing(alloc: Global, shown: &Shown, stamp: Option<u64>) -> Result<Plan, Memory>
    requires shown { IsShowable shown.now }
    requires stamp { IfSome stamp (λ k. k < length shown.now.calls.items) }
    ensures { IfOk result (λ plan. IsDoneAlone (ToShow (seen shown.now) stamp) plan) }
{
    Ok(Plan {
        line: lines_of(alloc, shown, stamp)?,
        differs: false,
        writes: List::new(alloc),
    })
}

fn lines_of(alloc: Global, shown: &Shown, stamp: Option<u64>) -> Result<Bytes, Memory>
    requires shown { IsShowable shown.now }
    requires stamp { IfSome stamp (λ k. k < length shown.now.calls.items) }
    ensures { IfOk result (λ lines. IsShown (seen shown.now) stamp lines) }
{
    match stamp {
        Some(stamp) => call_lines(alloc, shown, stamp as u32),
        None => differing_lines(alloc, shown),
    }
}
