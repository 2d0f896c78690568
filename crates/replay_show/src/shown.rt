use desk_schema::Start;
use desk_values::CallList;
use object_depends::FactList;
use run_files::RunFiles;

/// A legal capture, and what the files of a run of it say.
#[derive(Drop)]
pub struct Shown {
    /// The start.
    pub start: Start,
    /// The calls by stamp.
    pub calls: CallList,
    /// What is known of each.
    pub facts: FactList,
    /// What the files of the run say.
    pub run: RunFiles,
}
