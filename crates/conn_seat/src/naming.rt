ghost use Rattle.std.specs.Prelude.{◌≡◌, IfOk};
ghost use Rattle.cable_base.specs.Names.{own_name};

use cable_base::{Name, OutOfMemory, Text};
use std::alloc::Global;

/// The name of the stream that disconnects a user.
pub fn own_name(alloc: Global, user: &str) -> Result<Name, OutOfMemory>
    ensures { IfOk result (λ name. name ≡ own_name user.now) }
{
    let name = format!(in alloc; "action_cable/{user}")?;
    Ok(Name::of(Text::of(name)?))
}
