ghost use Rattle.std.specs.Prelude.{List, ℕ};
ghost use Rattle.cable_laws.specs.Placed.{ConfirmsAreTaken, MarksAreTaken};
ghost use Rattle.cable_model.specs.Legal.{Legal};
ghost use Rattle.cable_model.specs.Steps.{Step};

/// A law, which computes nothing. In every legal journal of a node, a want is taken by the first turn that is delivered, isn't missed
/// and was asked behind the entry that made the want: the Finish of its plan, or for the connection's own the Open with a user. The mark
/// of its hold is the table's last id at that turn's Read, and a want that no turn takes has none. That turn puts the confirmation, too,
/// and none else does: of each subscription that stands, where it takes the first want of its Subscribe.
pub fn holds_are_placed_by_turns()
    ensures marks { (c : ℕ) (past : List Step) → Legal past → MarksAreTaken c past }
    ensures confirmations { (c : ℕ) (past : List Step) → Legal past → ConfirmsAreTaken c past }
{}
