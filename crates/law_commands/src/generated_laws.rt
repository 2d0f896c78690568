//! The law of the generated capture: its start keeps the rules of starts.

ghost use Rattle.desk_schema.specs.File.{IsStart};
ghost use Rattle.capture_recorder.specs.Generated.{generated_start};

/// Each line of the start of the generated capture has what it needs, so that a draft takes it: what is told as want of memory
/// while it is made is want of memory.
pub fn generated_start_keeps_the_rules()
    ensures { IsStart generated_start }
{}
