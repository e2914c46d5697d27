ghost use Rattle.std.specs.Prelude.{◌≡◌, ◌==◌, Some, List, ℕ, map, option_map, IfOk, bytes_eq};
ghost use Rattle.std.specs.List.{list_any, slice_split};
ghost use Rattle.serde_json.specs.View.{view};
ghost use Rattle.channel_book.specs.Templates.{opens, closes, is_known, around_close, slot_with, slot_of, slots_of, template_with, template_of, filling};

use crate::names::Indexed;
use crate::parameters::value_for;
use cable_base::{Listed, Name, OutOfMemory, Text};
use serde_json::Value;
use std::alloc::{AllocError, Global};

/// A name in braces, and the text behind it.
#[derive(Debug, Drop)]
pub struct Slot {
    pub name: Text,
    pub rest: Text,
}

/// A text with names in braces.
#[derive(Debug, Drop)]
pub struct Template {
    /// As it stands in the book.
    pub text: Text,
    /// The text before the first name.
    pub head: Text,
    pub slots: Listed<Slot>,
}

/// The text cut at each `{`.
fn cut(alloc: Global, text: &str) -> Result<Vec<&str>, AllocError>
    ensures { IfOk result (λ v. map (λ s. s.now) v.items ≡ slice_split opens text.now) }
{
    text.split('{').collect(alloc)
}

pub fn has_close(text: &str) -> bool
    ensures { result ≡ list_any closes text.now }
{
    text.as_bytes().contains(&b'}')
}

/// What stands before and behind the first `}`.
fn around_close(text: &str) -> Option<(&str, &str)>
    ensures { option_map (λ p. (p.0.now, p.1.now)) result ≡ around_close text.now }
{
    text.split_once('}')
}

/// `user`, or one of the names that the channel requires.
fn is_known(names: &Indexed<Text>, name: &str) -> bool
    ensures { result ≡ is_known names.now name.now }
{
    name == "user" || names.contains(name)
}

fn slot_with(
    alloc: Global,
    names: &Indexed<Text>,
    name: &str,
    rest: &str,
) -> Result<Option<Slot>, OutOfMemory>
    ensures { IfOk result (λ o. o ≡ slot_with names.now name.now rest.now) }
{
    if is_known(names, name) && !has_close(rest) {
        Ok(Some(Slot {
            name: Text::new(alloc, name)?,
            rest: Text::new(alloc, rest)?,
        }))
    } else {
        Ok(None)
    }
}

/// The name and the text that stand behind a `{`.
fn slot_of(alloc: Global, names: &Indexed<Text>, part: &str) -> Result<Option<Slot>, OutOfMemory>
    ensures { IfOk result (λ o. o ≡ slot_of names.now part.now) }
{
    match around_close(part) {
        Some((name, rest)) => slot_with(alloc, names, name, rest),
        None => Ok(None),
    }
}

fn slots_of(
    alloc: Global,
    names: &Indexed<Text>,
    parts: &[&str],
) -> Result<Option<Listed<Slot>>, OutOfMemory>
    ensures { IfOk result (λ o. o ≡ slots_of names.now (map (λ s. s.now) parts.now)) }
{
    let mut slots = Listed::empty(alloc);
    for part in parts {
        let Some(slot) = slot_of(alloc, names, part)? else {
            return Ok(None);
        };
        slots.push(slot)?;
    }
    Ok(Some(slots))
}

fn template_with(
    alloc: Global,
    names: &Indexed<Text>,
    text: &str,
    parts: &[&str],
) -> Result<Option<Template>, OutOfMemory>
    ensures { IfOk result (λ o. o ≡ template_with names.now text.now (map (λ s. s.now) parts.now)) }
{
    let Some((head, parts)) = parts.split_first() else {
        return Ok(None);
    };
    if has_close(head) {
        return Ok(None);
    }
    let Some(slots) = slots_of(alloc, names, parts)? else {
        return Ok(None);
    };
    Ok(Some(Template {
        text: Text::new(alloc, text)?,
        head: Text::new(alloc, head)?,
        slots,
    }))
}

/// The template of a text.
pub fn template_of(
    alloc: Global,
    names: &Indexed<Text>,
    text: &str,
) -> Result<Option<Template>, OutOfMemory>
    ensures { IfOk result (λ o. o ≡ template_of names.now text.now) }
{
    let parts = cut(alloc, text)?;
    template_with(alloc, names, text, &parts)
}

/// The template with the user for `{user}` and the identifier's values for the other names.
pub fn fill(
    alloc: Global,
    template: &Template,
    user: &str,
    identifier: &Value,
) -> Result<Name, OutOfMemory>
    ensures { IfOk result (λ name. name ≡ filling user.now (view identifier.now) template.now) }
{
    let mut text = String::from_str(alloc, template.head.as_str())?;
    for slot in template.slots.as_slice() {
        let value = value_for(alloc, user, identifier, slot.name.as_str())?;
        text.push_str(value.as_str())?;
        text.push_str(slot.rest.as_str())?;
    }
    Ok(Name::of(Text::of(text)?))
}
