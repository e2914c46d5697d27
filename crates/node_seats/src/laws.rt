ghost use Rattle.std.specs.Prelude.{◌≡◌, ℕ, List, ◌∷◌, [], map, Option, Some, None, is_some, true, false};
ghost use Rattle.cable_base.specs.declared.numbers.ConnNo.{ConnNo};
ghost use Rattle.cable_base.specs.declared.numbers.RowId.{RowId};
ghost use Rattle.cable_json.specs.Commands.{command_of};
ghost use Rattle.cable_model.specs.declared.journals.ReadNote.{ReadNote};
ghost use Rattle.cable_model.specs.declared.pieces.Piece.TheVariants as piece;
ghost use Rattle.cable_model.specs.declared.plans.Change.{Change};
ghost use Rattle.cable_model.specs.declared.plans.Plan.{Plan};
ghost use Rattle.cable_model.specs.Pieces.{seat, deliver_puts};
ghost use Rattle.cable_model.specs.Plans.{Callbacks};
ghost use Rattle.cable_model.specs.Possible.{opened, is_opened, is_over, live_count, receiving, job_plan};
ghost use Rattle.cable_model.specs.Steps.{Step};
ghost use Rattle.cable_model.specs.Wants.{marks, turn_mark, user_of};
ghost use Rattle.conn_seat.specs.Seats.{Seated, Becomes, CanFinish, vacant, may_take_now, with_piece, with_taken};
ghost use Rattle.conn_seat.specs.Turns.{with_turn};
ghost use Rattle.node_seats.specs.Numbers.{Numbers, Opened, Rising, Moves, Lives, Prepares, Finished, Stops};
ghost use Rattle.node_seats.specs.Numbers.{opened_at, is_over_at, live_among, receiving_among, with_new};
ghost use Rattle.node_seats.specs.AreSeats.{AreSeats, AreWorked, Leaves};
ghost use Rattle.node_seats.specs.Turned.{Turns};

/// A law, which computes nothing. What a node answers of its numbers is what its journal says.
pub fn numbers_are_the_journals()
    ensures none { AreSeats [] [] }
    ensures used { (past : List Step) (v : Numbers) (c : ℕ) → AreSeats past v → is_some (opened_at c v) ≡ is_opened c past }
    ensures over { (past : List Step) (v : Numbers) (c : ℕ) → AreSeats past v → is_over_at c v ≡ is_over c past }
    ensures live { (past : List Step) (v : Numbers) → AreSeats past v → live_among v ≡ live_count past }
    ensures receiving { (past : List Step) (v : Numbers) → AreWorked past → AreSeats past v → map (λ (c : ConnNo). c.0) (receiving_among v) ≡ receiving past }
{}

/// A law, which computes nothing. Entries that open nothing and of which the journal says the same of each connection leave what is kept.
pub fn other_entries_leave_the_numbers()
    ensures { (past now : List Step) (v : Numbers) → opened now ≡ opened past → ((c : ℕ) → Leaves c past now) → AreSeats past v → AreSeats now v }
{}

/// A law, which computes nothing. An Open adds a number: with a connection, where the token has a user, and else as one that is over.
pub fn opens_are_entries()
    ensures user { (c : ℕ) (token user : List ℕ) (past : List Step) (v new : Numbers) (s : Seated)
        → AreSeats past v → is_opened c past ≡ false → Becomes (vacant user) s → new ≡ with_new c (Opened.Live s) v → Rising new
        → AreSeats (Step.Open c token (Some user) ∷ past) new }
    ensures refused { (c : ℕ) (token : List ℕ) (past : List Step) (v new : Numbers)
        → AreSeats past v → is_opened c past ≡ false → new ≡ with_new c Opened.Over v → Rising new → AreSeats (Step.Open c token None ∷ past) new }
{}

/// A law, which computes nothing. A piece that is put on a live connection is the entry that puts it: a text, the client's going, the
/// node's stop. Room that is made for pieces or for the change of a plan is no entry.
pub fn puts_on_numbers_are_entries()
    ensures room { (c : ℕ) (past : List Step) (v new : Numbers) → AreSeats past v → Moves c (Lives Becomes) v new → AreSeats past new }
    ensures plan { (change : Change) (c : ℕ) (past : List Step) (v new : Numbers) → AreSeats past v
        → Moves c (Lives (Prepares change)) v new → AreSeats past new }
    ensures text { (c : ℕ) (text : List ℕ) (past : List Step) (v new : Numbers) → AreWorked past → AreSeats past v
        → Moves c (Lives (λ s t. Becomes (with_piece (piece.Cmd (command_of text)) s) t)) v new → AreSeats (Step.In c text ∷ past) new }
    ensures gone { (c : ℕ) (past : List Step) (v new : Numbers) → AreWorked past → AreSeats past v
        → Moves c (Lives (λ s t. Becomes (with_piece piece.Gone s) t)) v new → AreSeats (Step.Drop c ∷ past) new }
    ensures stop { (past : List Step) (v new : Numbers) → AreWorked past → AreSeats past v → Stops v new → AreSeats (Step.Stop ∷ past) new }
{}

/// A law, which computes nothing. A take is the entry of a Take, where a piece may be taken, and else none.
pub fn takes_of_numbers_are_entries()
    ensures entry { (c : ℕ) (past : List Step) (v new : Numbers) → AreWorked past → AreSeats past v → Moves c (Lives (λ s t. Becomes (with_taken s) t)) v new
        → ((s : Seated) → opened_at c v ≡ Some (Opened.Live s) → may_take_now s ≡ true) → AreSeats (Step.Take c ∷ past) new }
    ensures none { (c : ℕ) (past : List Step) (v new : Numbers) → AreSeats past v → Moves c (Lives (λ s t. Becomes (with_taken s) t)) v new
        → ((s : Seated) → opened_at c v ≡ Some (Opened.Live s) → may_take_now s ≡ false) → AreSeats past new }
{}

/// A law, which computes nothing. A finish of the job's plan is the entry of a Finish with this plan.
pub fn finishes_of_numbers_are_entries()
    ensures { (r : Callbacks) (c : ℕ) (puts : List (Option RowId)) (plan : Plan) (past : List Step) (v new : Numbers)
        → AreWorked past → AreSeats past v → job_plan r c past ≡ Some plan → ((s : Seated) → opened_at c v ≡ Some (Opened.Live s) → CanFinish plan.change s)
        → Moves c (Finished plan.change) v new → AreSeats (Step.Finish c puts plan ∷ past) new }
{}

/// A law, which computes nothing. A Deliver gives the streams that its turn takes their mark, and puts its pieces. That of a turn that was
/// missed changes nothing.
pub fn turns_of_numbers_are_entries()
    ensures missed { (turn : ℕ) (note : ReadNote) (past : List Step) (v : Numbers) → note.failed ≡ true → AreSeats past v
        → AreSeats (Step.Deliver turn note ∷ past) v }
    ensures found { (turn : ℕ) (note : ReadNote) (past : List Step) (v new : Numbers) → AreWorked past → AreSeats past v → note.failed ≡ false
        → Turns (λ c s t. Becomes (with_turn (turn_mark c note past)
        (deliver_puts (user_of c past) (marks c past) (turn_mark c note past) (seat c past).conn.subs note.rows) s) t) v new
        → AreSeats (Step.Deliver turn note ∷ past) new }
{}
