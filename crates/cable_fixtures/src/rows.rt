ghost use Rattle.std.specs.Prelude.{IfOk, IfSome};
ghost use Rattle.cable_base.specs.Squeeze.{IsSqueezedJson};

use cable_base::{Listed, Millis, Name, OutOfMemory, Row, RowId, Text, squeeze};
use cable_json::read_json;
use std::alloc::Global;

/// A list of names with these texts.
pub fn names(alloc: Global, texts: &[&str]) -> Result<Listed<Name>, OutOfMemory> {
    let mut names = Listed::empty(alloc);
    for text in texts {
        names.push(Name::new(alloc, text)?)?;
    }
    Ok(names)
}

/// The payload of a broadcast with this JSON, or nothing where the text isn't JSON.
pub fn payload(alloc: Global, text: &str) -> Result<Option<Text>, OutOfMemory>
    ensures { IfOk result (λ payload. IfSome payload IsSqueezedJson) }
{
    match read_json(alloc, text)? {
        Some(_) => Ok(Some(squeeze(alloc, text)?)),
        None => Ok(None),
    }
}

/// A row that was committed at the moment 1.
pub fn row(alloc: Global, id: u64, channel: &str, payload: &str) -> Result<Row, OutOfMemory> {
    Ok(Row {
        id: RowId(id),
        channel: Name::new(alloc, channel)?,
        payload: Text::new(alloc, payload)?,
        created_at: Millis(1),
    })
}
