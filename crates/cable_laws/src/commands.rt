ghost use Rattle.std.specs.Prelude.{◌≡◌, ◌↔◌, List, ℕ, Err};
ghost use Rattle.cable_json.specs.declared.commands.CommandFault.{CommandFault};
ghost use Rattle.cable_json.specs.Commands.{command_of};
ghost use Rattle.cable_laws.specs.CommandFaults.{BreaksFirst};

/// A law, which computes nothing. A text has a fault exactly where it breaks the rule of that fault, and none of the rules before it.
pub fn commands_have_their_first_fault()
    ensures { (text : List ℕ) (f : CommandFault) → (command_of text ≡ Err f) ↔ BreaksFirst f text }
{}
