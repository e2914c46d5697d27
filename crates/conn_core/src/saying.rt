ghost use Rattle.std.specs.Prelude.{◌≡◌, ◌++◌, map, All, IfOk};
ghost use Rattle.cable_base.specs.Squeeze.{IsSqueezedJson};
ghost use Rattle.cable_json.specs.Texts.{message_text};

use cable_base::{Listed, OutOfMemory, Text};
use cable_json::message;
use std::alloc::Global;

/// What is said to the client alone, as messages of the subscription.
pub fn says(alloc: Global, identifier: &str, says: &[Text]) -> Result<Listed<Text>, OutOfMemory>
    requires { All IsSqueezedJson says.now }
    ensures { IfOk result (λ texts. texts ≡ map (message_text identifier.now) says.now) }
{
    let mut texts = Listed::empty(alloc);
    for say in says {
        texts.push(message(alloc, identifier, say.as_str())?)?;
    }
    Ok(texts)
}
