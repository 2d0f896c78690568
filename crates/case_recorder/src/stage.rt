//! The lines of cases, one after the other.

use crate::doors::played;
use anyhow::anyhow;
use capture_format::read_start;
use desk_values::{Bytes, List};
use std::alloc::Global;
use std::marker::Model;
use std::sync::Wait;
use std::time::Clock;

/// The case that is being told. Contracts see nothing of it.
#[derive(Drop)]
pub struct Stage {
    /// The lines of the start file.
    start: Bytes,
    /// The lines of a script of doors so far, while it is being told.
    script: Option<Vec<String>>,
}

impl Model for Stage {
    ghost Value = { Unit {0} };

    ghost view = { λ stage. tt };
}

impl Stage {
    /// Nothing is told yet.
    pub fn new(alloc: Global) -> Stage {
        Stage {
            start: List::new(alloc),
            script: None,
        }
    }

    // Begins a case.
    fn begin(&mut self, alloc: Global) {
        self.start = List::new(alloc);
    }

    // Takes a line of the start file.
    fn add(&mut self, line: &str) -> Result<(), anyhow::Error> {
        self.start.append(line.as_bytes())?;
        Ok(self.start.append(b"\n")?)
    }

    // Takes a line of a script of doors. After its last line the answers to all are told.
    fn direct<R: Clock + Wait>(
        &mut self,
        rt: &R,
        alloc: Global,
        line: &str,
    ) -> Result<Option<String>, anyhow::Error> {
        match &mut self.script {
            Some(script) if line != "gather" => {
                script.push(String::from_str(alloc, line)?)?;
                Ok(None)
            }
            _ => self.play(rt, alloc),
        }
    }

    fn play<R: Clock + Wait>(
        &mut self,
        rt: &R,
        alloc: Global,
    ) -> Result<Option<String>, anyhow::Error> {
        let script = self.script.take().ok_or(anyhow!("no script"))?;
        match read_start(alloc, self.start.as_slice()) {
            Ok(file) => some(played(rt, alloc, &file.start, script.as_slice())),
            Err(_) => Err(anyhow!("no start file")),
        }
    }
}

fn some(answer: Result<String, anyhow::Error>) -> Result<Option<String>, anyhow::Error> {
    Ok(Some(answer?))
}

/// What a line is answered; the lines of a start file are not.
pub fn told<R: Clock + Wait>(
    rt: &R,
    alloc: Global,
    stage: &mut Stage,
    line: &str,
) -> Result<Option<String>, anyhow::Error> {
    if stage.script.is_some() {
        return stage.direct(rt, alloc, line);
    }
    if line == "doors" {
        stage.script = Some(Vec::new(alloc));
        return Ok(None);
    }
    if line.starts_with("case ") {
        stage.begin(alloc);
        return Ok(Some(String::from_str(alloc, line)?));
    }
    stage.add(line)?;
    Ok(None)
}
