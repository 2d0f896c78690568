//! Names and files as JSON values.

ghost use Rattle.std.specs.Prelude.{◌≡◌, IfOk, IsTrue};
ghost use Rattle.std.specs.List.{AllByRecursion};
ghost use Rattle.desk_values.specs.Good.{IsTxt};
ghost use Rattle.desk_values.specs.Text.{txt_text};
ghost use Rattle.serde_json.specs.Data.{string};
ghost use Rattle.serde_json.specs.View.{view};
ghost use Rattle.replay_page.specs.Data.{IsQuietFile, files_data};
ghost use Rattle.replay_page.specs.Quiet.{AreQuiet};

use crate::page::NamedText;
use desk_values::fields::append_text;
use desk_values::{Bytes, List, Memory, Txt};
use serde_json::{Map, Value as Json, put};
use std::alloc::Global;

/// A name, spelled as a text of the formats.
pub(crate) fn name_json(alloc: Global, name: &Txt) -> Result<Json, Memory>
    ensures { IfOk result (λ json. view json ≡ string (txt_text name.now)) }
{
    prove!(has_text(name));
    let mut text = List::new(alloc);
    append_text(name, &mut text)?;
    Ok(text_json(text))
}

/// What the type of a text says of it, for clauses.
pub(crate) fn has_text(text: &Txt) -> bool
    ensures holds { IsTrue result }
    ensures limits { IsTxt text.now }
{
    let _text = text.as_str();
    true
}

/// Bytes as a text. No byte is copied.
pub(crate) fn text_json(bytes: Bytes) -> Json
    requires { AreQuiet bytes }
    ensures { view result ≡ string bytes }
{
    match String::from_utf8(bytes.into_vec()) {
        Ok(text) => Json::String(text),
        Err(_) => unreachable!(),
    }
}

/// Files as an object.
pub(crate) fn files_json(alloc: Global, files: List<NamedText>) -> Result<Json, Memory>
    requires { AllByRecursion IsQuietFile files }
    ensures { IfOk result (λ json. view json ≡ files_data files) }
{
    let mut members = Map::new(alloc);
    for file in files.into_vec() {
        let text = text_json(file.bytes);
        put(&mut members, alloc, file.name.as_str(), text)?;
    }
    Ok(Json::Object(members))
}
