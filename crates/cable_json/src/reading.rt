ghost use Rattle.std.specs.Prelude.{◌≡◌, IfOk, codes, option_map};
ghost use Rattle.serde_json.specs.Read.{read};
ghost use Rattle.serde_json.specs.View.{view};
ghost use Rattle.cable_json.specs.Commands.{Gives, CarriesJson, command_of, command_named, identifier_in, payload_in};
ghost use Rattle.cable_json.specs.Disconnects.{disconnect_of, may_reconnect};
ghost use Rattle.cable_json.specs.Members.{text_at};
ghost use Rattle.cable_base.specs.Squeeze.{IsSqueezedJson};

use crate::commands::{Command, CommandFault};
use cable_base::{OutOfMemory, Text, squeeze};
use serde_json::Value;
use std::alloc::Global;
use std::str::FromStr;

/// The JSON value of a text, or nothing where `serde_json` doesn't read it (RFC 8259, at most 127 nested arrays and objects).
pub fn read_json(alloc: Global, text: &str) -> Result<Option<Value>, OutOfMemory>
    ensures { IfOk result (λ o. option_map view o ≡ read text.now) }
{
    match Value::from_str(alloc, text) {
        Ok(value) => Ok(Some(value)),
        Err(error) => {
            if error.is_memory() {
                Err(OutOfMemory)
            } else {
                Ok(None)
            }
        }
    }
}

/// The string at a name, of an object that has one there.
fn text_in<'a>(value: &'a Value, name: &str) -> Option<&'a str>
    ensures { option_map (λ s. s.now) result ≡ text_at name.now (view value.now) }
{
    value.get(name).and_then(Value::as_str)
}

fn identifier(alloc: Global, value: &Value) -> Result<Text, CommandFault>
    ensures { Gives result (identifier_in (view value.now)) }
{
    let Some(text) = text_in(value, "identifier") else {
        return Err(CommandFault::NoIdentifier);
    };
    Ok(Text::new(alloc, text)?)
}

fn payload(alloc: Global, value: &Value) -> Result<Text, CommandFault>
    ensures given { Gives result (payload_in (view value.now)) }
    ensures json { IfOk result IsSqueezedJson }
{
    let Some(text) = text_in(value, "data") else {
        return Err(CommandFault::BadData);
    };
    if read_json(alloc, text)?.is_none() {
        return Err(CommandFault::BadData);
    }
    Ok(squeeze(alloc, text)?)
}

fn named(alloc: Global, name: &str, value: &Value) -> Result<Command, CommandFault>
    ensures given { Gives result (command_named name.now (view value.now)) }
    ensures json { IfOk result CarriesJson }
{
    match name {
        "subscribe" => Ok(Command::Subscribe {
            identifier: identifier(alloc, value)?,
        }),
        "unsubscribe" => Ok(Command::Unsubscribe {
            identifier: identifier(alloc, value)?,
        }),
        "message" => Ok(Command::Message {
            identifier: identifier(alloc, value)?,
            payload: payload(alloc, value)?,
        }),
        _ => Err(CommandFault::UnknownCommand),
    }
}

/// The command that a text is.
///
/// The rules are tried in the order of `CommandFault`, and the first that is broken is answered. Of a key that stands twice the
/// last one counts, and members that no rule names are passed over.
pub fn read_command(alloc: Global, text: &str) -> Result<Command, CommandFault>
    ensures command { Gives result (command_of text.now) }
    ensures json { IfOk result CarriesJson }
{
    let Some(value) = read_json(alloc, text)? else {
        return Err(CommandFault::BadJson);
    };
    if !value.is_object() {
        return Err(CommandFault::BadJson);
    }
    let Some(name) = text_in(&value, "command") else {
        return Err(CommandFault::UnknownCommand);
    };
    named(alloc, name, &value)
}

fn reconnects(value: &Value) -> bool
    ensures { result ≡ may_reconnect (view value.now) }
{
    value
        .get("reconnect")
        .and_then(Value::as_bool)
        .unwrap_or(true)
}

/// What a payload on a user's own stream says of connecting again, where it is a disconnect.
///
/// It is one where it is a JSON object whose member `type` is the string `disconnect`. The answer is then false exactly where the
/// member `reconnect` is the value `false`.
pub fn remote(alloc: Global, payload: &str) -> Result<Option<bool>, OutOfMemory>
    ensures { IfOk result (λ o. o ≡ disconnect_of payload.now) }
{
    let Some(value) = read_json(alloc, payload)? else {
        return Ok(None);
    };
    Ok(match text_in(&value, "type") {
        Some("disconnect") => Some(reconnects(&value)),
        _ => None,
    })
}
