ghost use Rattle.std.specs.Prelude.{◌≡◌, ℕ, List, [], ◌∷◌, Option, true};
ghost use Rattle.std.specs.FinMap as maps;
ghost use Rattle.cable_base.specs.declared.numbers.RowId.{RowId};
ghost use Rattle.cable_model.specs.declared.journals.ReadNote.{ReadNote};
ghost use Rattle.cable_model.specs.declared.plans.Plan.{Plan};
ghost use Rattle.cable_model.specs.Legal.{Legal};
ghost use Rattle.cable_model.specs.Steps.{Step};
ghost use Rattle.conn_seat.specs.Seated.{SeatOf};
ghost use Rattle.conn_seat.specs.Seats.{Seated};
ghost use Rattle.subscriber_map.specs.HoldMaps.{HoldMap};
ghost use Rattle.node_turns.specs.Held.{AreHeld, is_steady};
ghost use Rattle.node_turns.specs.Holding.{released};

/// A law, which computes nothing. The holds of a node are those of its journal, and entries that neither end nor place one leave them.
pub fn holds_are_the_journals()
    ensures boot { (last : ℕ) → AreHeld (Step.Boot last ∷ []) maps.empty }
    ensures steady { (e : Step) (past : List Step) (m : HoldMap) → is_steady e ≡ true → AreHeld past m → AreHeld (e ∷ past) m }
    ensures open { (c : ℕ) (token : List ℕ) (user : Option (List ℕ)) (past : List Step) (m : HoldMap)
        → Legal (Step.Open c token user ∷ past) → AreHeld past m → AreHeld (Step.Open c token user ∷ past) m }
    ensures missed { (turn : ℕ) (note : ReadNote) (past : List Step) (m : HoldMap)
        → note.failed ≡ true → AreHeld past m → AreHeld (Step.Deliver turn note ∷ past) m }
{}

/// A law, which computes nothing. A Finish ends the holds of the wants that its plan's change ends, and no other.
pub fn holds_end_with_their_wants()
    ensures { (c : ℕ) (puts : List (Option RowId)) (plan : Plan) (past : List Step) (s : Seated) (m : HoldMap)
        → Legal (Step.Finish c puts plan ∷ past) → SeatOf c past s → AreHeld past m
        → AreHeld (Step.Finish c puts plan ∷ past) (released c plan.change s.user s.subs m) }
{}
