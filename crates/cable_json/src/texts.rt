ghost use Rattle.std.specs.Prelude.{◌≡◌, IfOk, string_bytes};
ghost use Rattle.json.specs.Print.{quoted};
ghost use Rattle.cable_base.specs.Squeeze.{IsSqueezedJson};
ghost use Rattle.cable_json.specs.Texts.{welcome_text, ping_text, confirm_text, reject_text, message_text, disconnect_text};

use crate::reasons::Reason;
use cable_base::{OutOfMemory, Text};
use json::Writer;
use std::alloc::Global;

/// The room that is made for the quotes of a string and the escapes in it, in bytes. Where there are more of these the memory grows.
const QUOTING_ROOM: usize = 64;

/// The text as a JSON string, with the shortest escapes (RFC 8259, section 7). HTML characters stand as they are.
fn quoted_string(alloc: Global, text: &str) -> Result<String, OutOfMemory>
    ensures { IfOk result (λ s. string_bytes s ≡ quoted text.now) }
{
    let mut bytes = Vec::new(alloc);
    bytes.reserve(text.len().saturating_add(QUOTING_ROOM))?;
    let mut writer = Writer::new(bytes);
    writer.string(text)?;
    match String::from_utf8(writer.into_inner()) {
        Ok(quoted) => Ok(quoted),
        Err(_) => unreachable!(),
    }
}

/// The text that greets a client.
pub fn welcome(alloc: Global) -> Result<Text, OutOfMemory>
    ensures { IfOk result (λ t. t ≡ welcome_text) }
{
    Text::new(alloc, "{\"type\":\"welcome\"}")
}

/// The text that tells the moment, in whole seconds since 1970.
pub fn ping(alloc: Global, seconds: u64) -> Result<Text, OutOfMemory>
    ensures { IfOk result (λ t. t ≡ ping_text seconds) }
{
    Text::of(format!(in alloc; "{{\"type\":\"ping\",\"message\":{seconds}}}")?)
}

/// The text that confirms the subscription with this identifier.
pub fn confirm(alloc: Global, identifier: &str) -> Result<Text, OutOfMemory>
    ensures { IfOk result (λ t. t ≡ confirm_text identifier.now) }
{
    let identifier = quoted_string(alloc, identifier)?;
    Text::of(format!(in alloc;
        "{{\"identifier\":{identifier},\"type\":\"confirm_subscription\"}}"
    )?)
}

/// The text that refuses the subscription with this identifier.
pub fn reject(alloc: Global, identifier: &str) -> Result<Text, OutOfMemory>
    ensures { IfOk result (λ t. t ≡ reject_text identifier.now) }
{
    let identifier = quoted_string(alloc, identifier)?;
    Text::of(format!(in alloc; "{{\"identifier\":{identifier},\"type\":\"reject_subscription\"}}")?)
}

/// What stands around the identifier and the payload of a message, in bytes.
const MEMBERS_ROOM: usize = 26;

/// The text that carries a payload to the subscription with this identifier. The payload stands in it as it is, one level deeper:
/// where it nests 127 arrays and objects, the text nests 128, which `read_json` doesn't read.
pub fn message(alloc: Global, identifier: &str, payload: &str) -> Result<Text, OutOfMemory>
    requires { IsSqueezedJson payload.now }
    ensures { IfOk result (λ t. t ≡ message_text identifier.now payload.now) }
{
    let identifier = quoted_string(alloc, identifier)?;
    let mut line = String::new(alloc);
    line.reserve(
        identifier
            .len()
            .saturating_add(payload.len())
            .saturating_add(MEMBERS_ROOM),
    )?;
    line.push_str("{\"identifier\":")?;
    line.push_str(&identifier)?;
    line.push_str(",\"message\":")?;
    line.push_str(payload)?;
    line.push_str("}")?;
    Ok(Text::of(line)?)
}

/// The text that ends a connection, and says whether the client is to connect again.
pub fn disconnect(alloc: Global, reason: Reason, reconnect: bool) -> Result<Text, OutOfMemory>
    ensures { IfOk result (λ t. t ≡ disconnect_text reason reconnect) }
{
    let reason = reason.word();
    Text::of(format!(in alloc;
        "{{\"type\":\"disconnect\",\"reason\":\"{reason}\",\"reconnect\":{reconnect}}}"
    )?)
}
