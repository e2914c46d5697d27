ghost use Rattle.std.specs.Prelude.{◌≡◌, ℕ, List, Option, Result, is_some, OnOk};
ghost use Rattle.cable_base.specs.Troubles.{HasTrouble};
ghost use Rattle.cable_base.specs.declared.faults.Trouble.{Trouble};
ghost use Rattle.cable_link.specs.Links.{Adds, Comes};
ghost use Rattle.cable_link.specs.declared.links.Came.{Came};

use cable_base::{Text, Trouble};

/// What a link gave.
#[derive(Debug, PartialEq, Eq, Drop)]
pub enum Came {
    /// A text of the client. It may be longer than what a desk takes.
    Text(Text),
    /// A message that isn't a text. It is passed over.
    Binary,
    /// The client has closed the link.
    Closed,
    /// Nothing, for now.
    Quiet,
}

/// A client as its session has it: texts come from it, and are said to it.
///
/// Each of the two calls names a relation between the link before, the arguments, the answer and the link after. A link counts its
/// faults. The count never falls, and one that stands at 2^64 - 1 counts as having risen.
pub trait Link {
    /// What is to come, in order, where it tells it.
    ghost coming: { Self → Option (List Came) };

    /// What was said, in order, where it tells it.
    ghost said: { Self → Option (List (List ℕ)) };

    /// How many faults it counted.
    ghost faults: { Self → ℕ };

    ghost gives: { Self → Result Came Trouble → Self → Type 0 };

    ghost says: { Self → (text : List ℕ) → Result (Unit {0}) Trouble → Self → Type 0 };

    /// What came next. An answer other than `Quiet` is the first item that is to come, and takes it. `Quiet` and a refusal take none.
    fn next(&mut self) -> Result<Came, Trouble>
        ensures gives { gives self.old result self.new }
        ensures comes { Comes (coming self.old) (coming self.new) result }
        ensures tells_coming { is_some (coming self.new) ≡ is_some (coming self.old) }
        ensures said { said self.new ≡ said self.old }
        ensures cause { HasTrouble (faults self.old) (faults self.new) result }
        ensures calm { OnOk result (faults self.new ≡ faults self.old) };

    /// Says a text. A refused one isn't said.
    fn say(&mut self, text: &str) -> Result<(), Trouble>
        ensures says { says self.old text.now result self.new }
        ensures adds { Adds (said self.old) (said self.new) text.now result }
        ensures tells_said { is_some (said self.new) ≡ is_some (said self.old) }
        ensures coming { coming self.new ≡ coming self.old }
        ensures cause { HasTrouble (faults self.old) (faults self.new) result }
        ensures calm { OnOk result (faults self.new ≡ faults self.old) };
}
