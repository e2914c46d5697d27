ghost use Rattle.std.specs.Prelude.{◌≡◌, option_map};
ghost use Rattle.serde_json.specs.Data.{array, object};
ghost use Rattle.serde_json.specs.View.{view, items_view, members_view};
ghost use Rattle.cable_base.specs.Squeeze.{is_space};
ghost use Rattle.channel_book.specs.Answers.{is_blank, is_nothing, asked_by, asked_at};

use serde_json::{Map, Value};

/// The action of a payload that names none.
const RECEIVE: &str = "receive";

fn is_space(byte: u8) -> bool
    ensures { result ≡ is_space byte }
{
    byte == b' ' || byte == b'\t' || byte == b'\n' || byte == b'\r'
}

fn is_blank(text: &str) -> bool
    ensures { result ≡ is_blank text.now }
{
    text.as_bytes().iter().all(|byte| is_space(*byte))
}

#[tactic(auto, using(crate::proofs::Walk::no_items_is))]
fn has_no_items(items: &[Value]) -> bool
    ensures { result ≡ is_nothing (array (items_view items.now)) }
{
    items.is_empty()
}

fn has_no_members(members: &Map<String, Value>) -> bool
    ensures { result ≡ is_nothing (object (members_view members.now.entries)) }
{
    members.is_empty()
}

/// `null`, `false`, an empty list or an empty object.
fn is_nothing(value: &Value) -> bool
    ensures { result ≡ is_nothing (view value.now) }
{
    match value {
        Value::Null => true,
        Value::Bool(flag) => !flag,
        Value::Array(items) => has_no_items(items),
        Value::Object(members) => has_no_members(members),
        Value::Number(_) | Value::String(_) => false,
    }
}

/// The action that a value asks for.
fn asked_by(value: &Value) -> Option<&str>
    ensures { option_map (λ s. s.now) result ≡ asked_by (view value.now) }
{
    match value.as_str() {
        Some(text) => Some(if is_blank(text) { RECEIVE } else { text }),
        None => {
            if is_nothing(value) {
                Some(RECEIVE)
            } else {
                None
            }
        }
    }
}

/// The action that a payload asks for: the member `action` where it is a string with a character that isn't white space, and
/// `receive` where the member is missing, blank, `null`, `false`, or an empty list or object.
pub fn asked_at(action: Option<&Value>) -> Option<&str>
    ensures { option_map (λ s. s.now) result ≡ asked_at (option_map (λ v. view v.now) action.entry) }
{
    match action {
        Some(value) => asked_by(value),
        None => Some(RECEIVE),
    }
}
