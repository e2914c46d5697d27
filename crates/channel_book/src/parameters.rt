ghost use Rattle.std.specs.Prelude.{◌≡◌, [], is_some, option_map, option_and_then, IfOk};
ghost use Rattle.serde_json.specs.View.{view};
ghost use Rattle.channel_book.specs.Parameters.{fillable_text, parameter, can_fill, value_for};

use cable_base::{OutOfMemory, Text};
use serde_json::Value;
use std::alloc::Global;

/// A value can be filled in.
#[tactic(auto, using(crate::proofs::Fillable::fillable_kinds))]
fn is_fillable(value: &Value) -> bool
    ensures { result ≡ is_some (fillable_text (view value.now)) }
{
    value.is_string() || value.is_u64() || value.is_i64() || value.is_boolean()
}

/// What a value is filled in as: a string's characters, the digits of a whole number from -2^63 to 2^64 - 1 that isn't written as
/// `-0` and has neither fraction nor exponent, or `true` or `false`.
#[tactic(auto, using(crate::proofs::Fillable::as_text, crate::proofs::Fillable::as_unsigned, crate::proofs::Fillable::as_signed, crate::proofs::Fillable::as_word, crate::proofs::Fillable::as_nothing))]
fn fillable_text(alloc: Global, value: &Value) -> Result<Option<Text>, OutOfMemory>
    ensures { IfOk result (λ o. o ≡ fillable_text (view value.now)) }
{
    if let Some(text) = value.as_str() {
        return Ok(Some(Text::new(alloc, text)?));
    }
    if let Some(number) = value.as_u64() {
        return Ok(Some(Text::of(format!(in alloc; "{number}")?)?));
    }
    if let Some(number) = value.as_i64() {
        return Ok(Some(Text::of(format!(in alloc; "{number}")?)?));
    }
    match value.as_bool() {
        Some(true) => Ok(Some(Text::new(alloc, "true")?)),
        Some(false) => Ok(Some(Text::new(alloc, "false")?)),
        None => Ok(None),
    }
}

fn has_parameter(identifier: &Value, name: &str) -> bool
    ensures { result ≡ is_some (parameter name.now (view identifier.now)) }
{
    match identifier.get(name) {
        Some(value) => is_fillable(value),
        None => false,
    }
}

/// All these names have parameters that can be filled in.
pub fn can_fill(names: &[Text], identifier: &Value) -> bool
    ensures { result ≡ can_fill names.now (view identifier.now) }
{
    for name in names {
        if !has_parameter(identifier, name.as_str()) {
            return false;
        }
    }
    true
}

fn parameter(alloc: Global, identifier: &Value, name: &str) -> Result<Option<Text>, OutOfMemory>
    ensures { IfOk result (λ o. o ≡ parameter name.now (view identifier.now)) }
{
    match identifier.get(name) {
        Some(value) => fillable_text(alloc, value),
        None => Ok(None),
    }
}

/// What stands for a name: the user for `user`, and else the identifier's parameter of that name.
pub fn value_for(
    alloc: Global,
    user: &str,
    identifier: &Value,
    name: &str,
) -> Result<Text, OutOfMemory>
    ensures { IfOk result (λ t. t ≡ value_for user.now (view identifier.now) name.now) }
{
    if name == "user" {
        return Text::new(alloc, user);
    }
    match parameter(alloc, identifier, name)? {
        Some(value) => Ok(value),
        None => Text::new(alloc, ""),
    }
}
