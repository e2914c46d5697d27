ghost use Rattle.std.specs.Prelude.{◌≡◌, IsSome, IfOk};
ghost use Rattle.cable_base.specs.Squeeze.{squeezed, IsSqueezedJson};
ghost use Rattle.serde_json.specs.Read.{read};
ghost use Rattle.channel_book.specs.Json.{json_text};

use cable_base::{OutOfMemory, Text, squeeze};
use cable_json::read_json;
use std::alloc::Global;
use std::marker::Model;

/// Squeezed JSON.
#[derive(Debug, Drop)]
pub struct JsonText {
    text: Text,
}

impl Model for JsonText {
    ghost use Rattle.std.specs.Prelude.{List, ℕ};
    ghost use Rattle.cable_base.specs.Squeeze.{IsSqueezedJson};

    ghost Value = { List ℕ };

    ghost view = { λ j. j.text };

    ghost invariant = { λ j. IsSqueezedJson j.text };
}

impl JsonText {
    /// The squeezed text, where it is JSON.
    pub fn of(alloc: Global, text: &str) -> Result<Option<JsonText>, OutOfMemory>
        ensures { IfOk result (λ o. o ≡ json_text text.now) }
    {
        match read_json(alloc, text)? {
            Some(_) => Ok(Some(JsonText::squeezed(alloc, text)?)),
            None => Ok(None),
        }
    }

    /// The squeezed text of what is JSON.
    pub fn squeezed(alloc: Global, text: &str) -> Result<JsonText, OutOfMemory>
        requires { IsSome (read text.now) }
        ensures { IfOk result (λ j. j ≡ squeezed text.now) }
    {
        Ok(JsonText {
            text: squeeze(alloc, text)?,
        })
    }

    /// A text of its own with the same characters.
    pub fn to_text(&self, alloc: Global) -> Result<Text, OutOfMemory>
        ensures text { IfOk result (λ t. t ≡ self.now) }
        ensures json { IfOk result IsSqueezedJson }
    {
        self.text.copy(alloc)
    }
}
