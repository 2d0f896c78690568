//! A page of files, and its bytes.

ghost use Rattle.std.specs.Prelude.{◌≡◌, ◌++◌, ◌≤◌, length, IfOk, IsTrue, Some};
ghost use Rattle.desk_values.specs.Fields.{Lacks};
ghost use Rattle.desk_values.specs.Good.{IsTxt};
ghost use Rattle.serde_json.specs.Read.{read};
ghost use Rattle.serde_json.specs.View.{members_view, view};
ghost use Rattle.replay_page.specs.Data.{IsQuietPage, data_text, page_data, page_members, page_text};
ghost use Rattle.replay_page.specs.Viewer.{end, front};

use crate::building::{files_json, has_text, name_json};
use crate::viewer::{END, FRONT};
use desk_values::{Bytes, List, Memory, Txt, TxtErr};
use serde_json::{Map, Value as Json, put};
use std::alloc::Global;

/// A file, by its name in its folder.
#[derive(Drop)]
pub struct NamedText {
    /// The name.
    pub name: Txt,
    /// The bytes.
    pub bytes: Bytes,
}

/// What a page shows.
#[derive(Drop)]
pub struct Page {
    /// The capture's folder.
    pub capture: Txt,
    /// The folder of what the run left.
    pub out: Txt,
    /// The files of the capture.
    pub captured: List<NamedText>,
    /// The files of the run.
    pub replayed: List<NamedText>,
}

/// The bytes of a page: the front, the data, the end. The data are read back as what was put into them, and no byte `<` stands in
/// them, so that no text of a capture can end the script that they stand in. It fails for want of memory alone.
pub fn page_text(alloc: Global, page: Page) -> Result<Bytes, Memory>
    requires { IsQuietPage page }
    ensures text { IfOk result (λ bytes. bytes ≡ page_text page) }
    ensures quiet { IfOk result (λ bytes. Lacks 60 (data_text page)) }
    ensures reads_back { IfOk result (λ bytes. read (data_text page) ≡ Some (page_data page)) }
{
    let data_bytes = data_of(alloc, page)?;
    around(alloc, data_bytes)
}

/// The data of a page.
#[tactic(auto, using(crate::proofs::Datas::page_whole))]
fn data_of(alloc: Global, page: Page) -> Result<Bytes, Memory>
    requires { IsQuietPage page }
    ensures text { IfOk result (λ bytes. bytes ≡ data_text page) }
    ensures quiet { IfOk result (λ bytes. Lacks 60 (data_text page)) }
    ensures reads_back { IfOk result (λ bytes. read (data_text page) ≡ Some (page_data page)) }
{
    prove!(has_names(&page));
    let json = page_json(alloc, page)?;
    Ok(Bytes::from_vec(json.to_vec(alloc)?))
}

// What the types of a page say of the names of its folders, for clauses.
fn has_names(page: &Page) -> bool
    ensures holds { IsTrue result }
    ensures capture { IsTxt page.now.capture }
    ensures out { IsTxt page.now.out }
{
    has_text(&page.capture) && has_text(&page.out)
}

/// The data as a JSON value.
fn page_json(alloc: Global, page: Page) -> Result<Json, Memory>
    requires { IsQuietPage page }
    ensures { IfOk result (λ json. view json ≡ page_data page) }
{
    Ok(Json::Object(page_members(alloc, page)?))
}

fn page_members(alloc: Global, page: Page) -> Result<Map<String, Json>, Memory>
    requires { IsQuietPage page }
    ensures { IfOk result (λ members. members_view members.entries ≡ page_members page) }
{
    let capture = name_json(alloc, &page.capture)?;
    let out = name_json(alloc, &page.out)?;
    let captured = files_json(alloc, page.captured)?;
    let replayed = files_json(alloc, page.replayed)?;
    let mut members = Map::new(alloc);
    put(&mut members, alloc, "capture", capture)?;
    put(&mut members, alloc, "captured", captured)?;
    put(&mut members, alloc, "out", out)?;
    put(&mut members, alloc, "replayed", replayed)?;
    Ok(members)
}

/// The front, these bytes, and the end.
fn around(alloc: Global, middle: Bytes) -> Result<Bytes, Memory>
    ensures { IfOk result (λ bytes. bytes ≡ front ++ (middle ++ end)) }
{
    let first = front_text();
    let mut bytes = List::with_capacity(alloc, first.len().saturating_add(middle.len()))?;
    bytes.append(first.as_bytes())?;
    bytes.append(middle.as_slice())?;
    bytes.append(end_text().as_bytes())?;
    Ok(bytes)
}

#[tactic(auto, unfolding(crate::specs::Viewer::front))]
fn front_text() -> &'static str
    ensures { result.now ≡ front }
{
    FRONT
}

#[tactic(auto, unfolding(crate::specs::Viewer::end))]
fn end_text() -> &'static str
    ensures { result.now ≡ end }
{
    END
}

/// A file of a run, under this name.
pub fn named(alloc: Global, name: &str, bytes: Bytes) -> Result<NamedText, Memory>
    requires { length name.now ≤ 1000 }
    ensures { IfOk result (λ file. file ≡ record { name = name.now; bytes = bytes }) }
{
    match Txt::from_bytes(alloc, name.as_bytes()) {
        Ok(name) => Ok(NamedText { name, bytes }),
        Err(TxtErr::Memory) => Err(Memory),
        Err(TxtErr::TooLong) => unreachable!(),
        Err(TxtErr::NotUtf8) => unreachable!(),
    }
}
