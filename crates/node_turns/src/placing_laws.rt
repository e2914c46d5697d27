ghost use Rattle.std.specs.Prelude.{◌≡◌, ℕ, Bool, List, ◌∷◌, take, true, false};
ghost use Rattle.cable_model.specs.declared.journals.ReadNote.{ReadNote};
ghost use Rattle.cable_model.specs.Legal.{Legal};
ghost use Rattle.cable_model.specs.Possible.{is_out};
ghost use Rattle.cable_model.specs.Steps.{Step};
ghost use Rattle.node_seats.specs.AreSeats.{AreSeats};
ghost use Rattle.node_seats.specs.declared.turning.Wanted.{Wanted};
ghost use Rattle.node_seats.specs.Numbers.{Numbers};
ghost use Rattle.subscriber_map.specs.HoldMaps.{HoldMap};
ghost use Rattle.node_turns.specs.Wished.{AreWished};
ghost use Rattle.node_turns.specs.Held.{AreHeld};
ghost use Rattle.node_turns.specs.Holding.{AreNew, placings_of, with_placings};

/// A law, which computes nothing. The Deliver of a turn that wasn't missed places the wants that the turn takes and that stand.
pub fn turns_place_their_wants()
    ensures new { (turn : ℕ) (note : ReadNote) (past : List Step) (v : Numbers) (gone : ℕ → Bool) (ws : List Wanted) (taken : ℕ) (m : HoldMap)
        → Legal past → is_out past ≡ true → note.failed ≡ false → AreSeats past v → AreWished past gone ws taken → AreHeld past m
        → AreNew (placings_of v note.last (take taken ws)) m }
    ensures held { (turn : ℕ) (note : ReadNote) (past : List Step) (v : Numbers) (gone : ℕ → Bool) (ws : List Wanted) (taken : ℕ) (m : HoldMap)
        → Legal past → is_out past ≡ true → note.failed ≡ false → AreSeats past v → AreWished past gone ws taken → AreHeld past m
        → AreHeld (Step.Deliver turn note ∷ past) (with_placings (placings_of v note.last (take taken ws)) m) }
{}
