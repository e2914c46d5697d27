ghost use Rattle.std.specs.Prelude.{◌≡◌, ◌∷◌, ◌++◌, [], List, ℕ, Option, Result, Err, decimal, option_map, IfOk};
ghost use Rattle.serde_json.specs.Data.{Data};
ghost use Rattle.serde_json.specs.View.{view, items_view};
ghost use Rattle.channel_book.specs.Paths.{ReadsPart, here, within, each, list_of};

use crate::faults::ShapeFault;
use cable_base::{Listed, OutOfMemory, Text};
use serde_json::Value;
use std::alloc::Global;
use std::fmt::Display;

/// A part of a book that stands in lists. Its scope is what it is read against.
pub trait Part<S>: Sized {
    ghost part_of: { S → Data → Result Self (List ℕ) };

    fn read(alloc: Global, scope: &S, value: &Value) -> Result<Self, ShapeFault>
        ensures { ReadsPart result (part_of scope.now (view value.now)) };
}

/// The fault that the format is broken at this very place, unless memory is wanted to say so.
pub fn broken<T>(alloc: Global) -> Result<T, ShapeFault>
    ensures { ReadsPart result (Err []) }
{
    let path = Text::new(alloc, "")?;
    Err(ShapeFault::Broken { path })
}

/// What is there, or else the fault that the format is broken here.
pub fn here<T: Drop>(alloc: Global, part: Option<T>) -> Result<T, ShapeFault>
    ensures { ReadsPart result (here part) }
{
    match part {
        Some(part) => Ok(part),
        None => broken(alloc),
    }
}

fn member_path(alloc: Global, name: &str, path: &Text) -> Result<Text, OutOfMemory>
    ensures { IfOk result (λ longer. longer ≡ 47 ∷ name.now ++ path.now) }
{
    let path = path.as_str();
    Text::of(format!(in alloc; "/{name}{path}")?)
}

fn item_path(alloc: Global, place: usize, path: &Text) -> Result<Text, OutOfMemory>
    ensures { IfOk result (λ longer. longer ≡ 47 ∷ decimal place ++ path.now) }
{
    let path = path.as_str();
    Text::of(format!(in alloc; "/{place}{path}")?)
}

/// A part that stands in this member, whose faults get the member's step of the path.
#[tactic(auto, unfolding(crate::specs::Paths::within))]
pub fn in_member<T: Drop>(
    alloc: Global,
    name: &str,
    read: Result<T, ShapeFault>,
) -> Result<T, ShapeFault>
    ensures { (expected : Result T (List ℕ)) → ReadsPart read expected → ReadsPart result (within name.now expected) }
{
    match read {
        Ok(part) => Ok(part),
        Err(ShapeFault::Broken { path }) => Err(ShapeFault::Broken {
            path: member_path(alloc, name, &path)?,
        }),
        Err(ShapeFault::OutOfMemory) => Err(ShapeFault::OutOfMemory),
    }
}

/// A part that is this item of a list.
#[tactic(auto, unfolding(crate::specs::Paths::within))]
fn in_item<T: Drop>(
    alloc: Global,
    place: usize,
    read: Result<T, ShapeFault>,
) -> Result<T, ShapeFault>
    ensures { (expected : Result T (List ℕ)) → ReadsPart read expected → ReadsPart result (within (decimal place) expected) }
{
    match read {
        Ok(part) => Ok(part),
        Err(ShapeFault::Broken { path }) => Err(ShapeFault::Broken {
            path: item_path(alloc, place, &path)?,
        }),
        Err(ShapeFault::OutOfMemory) => Err(ShapeFault::OutOfMemory),
    }
}

/// The parts of a list.
pub fn each<S, P: Part<S> + Drop>(
    alloc: Global,
    scope: &S,
    items: &[Value],
) -> Result<Listed<P>, ShapeFault>
    ensures { ReadsPart result (each (P.part_of scope.now) 0 (items_view items.now)) }
{
    let mut parts = Listed::empty(alloc);
    for (i, item) in items.iter().enumerate() {
        let part = in_item(alloc, i, P::read(alloc, scope, item))?;
        parts.push(part)?;
    }
    Ok(parts)
}

/// A list of parts, which may be missing.
#[tactic(auto, unfolding(crate::specs::Paths::list_of))]
pub fn list_of<S, P: Part<S> + Drop>(
    alloc: Global,
    scope: &S,
    list: Option<&Value>,
) -> Result<Listed<P>, ShapeFault>
    ensures { ReadsPart result (list_of (P.part_of scope.now) (option_map (λ v. view v.now) list.entry)) }
{
    let Some(list) = list else {
        return Ok(Listed::empty(alloc));
    };
    let items = here(alloc, list.as_array())?;
    each(alloc, scope, items)
}
