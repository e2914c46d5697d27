ghost use Rattle.std.specs.Prelude.{◌≡◌, ◌∷◌, [], false, IfOk};
ghost use Rattle.cable_model.specs.Transcript.{conn_note};
ghost use Rattle.node_world.specs.Steps.{idle_said, silent_said, refused_said, read_said};

use cable_base::{ConnNo, Listed, OutOfMemory};
use cable_model::{Line, Note};
use std::alloc::Global;

/// What an event said: whether it was idle, and its lines.
#[derive(Debug, Drop)]
pub struct Said {
    pub idle: bool,
    pub lines: Listed<Line>,
}

/// An event that wasn't possible.
pub fn idle(alloc: Global) -> Said
    ensures { result ≡ idle_said }
{
    Said {
        idle: true,
        lines: Listed::empty(alloc),
    }
}

/// An event without lines.
pub fn silent(alloc: Global) -> Said
    ensures { result ≡ silent_said }
{
    Said {
        idle: false,
        lines: Listed::empty(alloc),
    }
}

/// An event of one line.
pub fn one_line(alloc: Global, line: Line) -> Result<Said, OutOfMemory>
    ensures { IfOk result (λ s. s ≡ record { idle = false; lines = line ∷ [] }) }
{
    let mut lines = Listed::empty(alloc);
    lines.push(line)?;
    Ok(Said { idle: false, lines })
}

/// An event of one line, a note of the connection.
pub fn noted(alloc: Global, conn: ConnNo, note: Note) -> Result<Said, OutOfMemory>
    ensures { IfOk result (λ s. s ≡ record { idle = false; lines = conn_note conn.0 note ∷ [] }) }
{
    one_line(
        alloc,
        Line::Note {
            conn: Some(conn),
            note,
        },
    )
}

/// What is said of a store event that failed: a note of no connection.
pub fn store_refused(alloc: Global) -> Result<Said, OutOfMemory>
    ensures { IfOk result (λ s. s ≡ refused_said) }
{
    one_line(
        alloc,
        Line::Note {
            conn: None,
            note: Note::StoreRefused,
        },
    )
}

/// What a read says: nothing, or where its turn was missed, that the store event failed.
pub fn read_said(alloc: Global, missed: bool) -> Result<Said, OutOfMemory>
    ensures { IfOk result (λ s. s ≡ read_said missed) }
{
    if missed {
        store_refused(alloc)
    } else {
        Ok(silent(alloc))
    }
}
