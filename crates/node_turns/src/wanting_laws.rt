ghost use Rattle.std.specs.Prelude.{◌≡◌, ◌==◌, ℕ, Bool, List, [], ◌∷◌, ◌++◌, take, drop, length, Option, Some, true, false};
ghost use Rattle.cable_base.specs.declared.numbers.RowId.{RowId};
ghost use Rattle.cable_model.specs.declared.journals.ReadNote.{ReadNote};
ghost use Rattle.cable_model.specs.declared.plans.Plan.{Plan};
ghost use Rattle.cable_model.specs.Legal.{Legal};
ghost use Rattle.cable_model.specs.Pieces.{seat, confirm_puts};
ghost use Rattle.cable_model.specs.Possible.{is_out, is_over};
ghost use Rattle.cable_model.specs.Steps.{Step};
ghost use Rattle.cable_model.specs.Wants.{made, marks, turn_mark};
ghost use Rattle.conn_seat.specs.Seated.{SeatOf};
ghost use Rattle.conn_seat.specs.Seats.{Seated};
ghost use Rattle.conn_seat.specs.Turns.{placed_each, taken_by};
ghost use Rattle.node_seats.specs.AreSeats.{AreSeats};
ghost use Rattle.node_seats.specs.declared.turning.Wanted.{Wanted};
ghost use Rattle.node_seats.specs.Numbers.{Numbers, Opened, opened_at};
ghost use Rattle.node_seats.specs.Turned.{pieces_for, pairs_by};
ghost use Rattle.node_turns.specs.Wants.{confirms_of, wanted_but};
ghost use Rattle.node_turns.specs.Wished.{AreWished, own_wanted, wanted_with, is_plain};

/// A law, which computes nothing. The wants that turns are to take are those of the journal, entry by entry.
pub fn wants_are_the_journals()
    ensures boot { (last : ℕ) → AreWished (Step.Boot last ∷ []) (λ _. false) [] 0 }
    ensures plain { (e : Step) (past : List Step) (gone : ℕ → Bool) (ws : List Wanted) (taken : ℕ)
        → is_plain e ≡ true → AreWished past gone ws taken → AreWished (e ∷ past) gone ws taken }
    ensures open { (c : ℕ) (token : List ℕ) (user : Option (List ℕ)) (past : List Step) (gone : ℕ → Bool) (ws : List Wanted) (taken : ℕ)
        → Legal (Step.Open c token user ∷ past) → AreWished past gone ws taken
        → AreWished (Step.Open c token user ∷ past) gone (ws ++ own_wanted c user) taken }
    ensures finish { (c : ℕ) (puts : List (Option RowId)) (plan : Plan) (past : List Step) (gone : ℕ → Bool) (ws : List Wanted) (taken : ℕ)
        → Legal (Step.Finish c puts plan ∷ past) → AreWished past gone ws taken
        → AreWished (Step.Finish c puts plan ∷ past) gone (ws ++ wanted_with c (seat c past).taken (made c past) (seat c past).conn.subs plan.change) taken }
    ensures ask { (turn : ℕ) (past : List Step) (gone : ℕ → Bool) (ws : List Wanted) (taken : ℕ)
        → AreWished past gone ws taken → AreWished (Step.Ask turn ∷ past) gone ws (length ws) }
    ensures missed { (turn : ℕ) (note : ReadNote) (past : List Step) (gone : ℕ → Bool) (ws : List Wanted) (taken : ℕ)
        → note.failed ≡ true → AreWished past gone ws taken → AreWished (Step.Deliver turn note ∷ past) gone ws 0 }
    ensures found { (turn : ℕ) (note : ReadNote) (past : List Step) (gone : ℕ → Bool) (ws : List Wanted) (taken : ℕ)
        → Legal past → is_out past ≡ true → note.failed ≡ false → AreWished past gone ws taken
        → AreWished (Step.Deliver turn note ∷ past) gone (drop taken ws) 0 }
{}

/// A law, which computes nothing. Where the wants of a connection that is over are dropped, those that are left are what the journal says
/// of the others, and the turn that is out takes those of them that it took.
pub fn wants_of_others_stay()
    ensures { (c : ℕ) (past : List Step) (gone now : ℕ → Bool) (ws : List Wanted) (taken : ℕ)
        → is_over c past ≡ true → now c ≡ true → ((d : ℕ) → (d == c) ≡ false → now d ≡ gone d) → AreWished past gone ws taken
        → AreWished past now (wanted_but c ws) (length (wanted_but c (take taken ws))) }
{}

/// A law, which computes nothing. The confirmations that are due with the wants that the turn takes are those that the journal says.
pub fn confirmations_come_with_their_turn()
    ensures { (c : ℕ) (note : ReadNote) (past : List Step) (v : Numbers) (s : Seated) (gone : ℕ → Bool) (ws : List Wanted) (taken : ℕ)
        → Legal past → is_out past ≡ true → note.failed ≡ false → AreSeats past v → AreWished past gone ws taken → opened_at c v ≡ Some (Opened.Live s)
        → pieces_for c (confirms_of v (take taken ws)) ≡ confirm_puts (marks c past) (turn_mark c note past) (seat c past).conn.subs }
{}

/// A law, which computes nothing. Giving each want that the turn takes its mark is what the turn does to the streams.
pub fn marks_are_placed_by_the_turn()
    ensures { (c : ℕ) (note : ReadNote) (past : List Step) (s : Seated) (gone : ℕ → Bool) (ws : List Wanted) (taken : ℕ)
        → Legal past → is_out past ≡ true → note.failed ≡ false → SeatOf c past s → AreWished past gone ws taken
        → placed_each note.last (pairs_by c (take taken ws)) s.subs ≡ taken_by (turn_mark c note past) s.subs }
{}
