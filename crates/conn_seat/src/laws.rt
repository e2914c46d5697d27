ghost use Rattle.std.specs.Prelude.{◌≡◌, ◌<◌, ◌+◌, ◌-◌, ◌^◌, ℕ, List, [], ◌∷◌, Option, Some, true, false};
ghost use Rattle.cable_base.specs.declared.numbers.RowId.{RowId};
ghost use Rattle.cable_base.specs.declared.numbers.SubNo.{SubNo};
ghost use Rattle.cable_base.specs.declared.numbers.WantNo.{WantNo};
ghost use Rattle.cable_base.specs.declared.rows.Row.{Row};
ghost use Rattle.cable_json.specs.Commands.{command_of};
ghost use Rattle.cable_model.specs.declared.pieces.Piece.{Piece};
ghost use Rattle.cable_model.specs.declared.pieces.Piece.TheVariants as piece;
ghost use Rattle.cable_model.specs.declared.plans.Change.{Change};
ghost use Rattle.cable_model.specs.declared.plans.Change.TheVariants as change;
ghost use Rattle.cable_model.specs.declared.plans.Plan.{Plan};
ghost use Rattle.cable_model.specs.Connection.{Planner};
ghost use Rattle.cable_model.specs.Journal.{is_of};
ghost use Rattle.cable_model.specs.Legal.{Legal};
ghost use Rattle.cable_model.specs.declared.journals.ReadNote.{ReadNote};
ghost use Rattle.cable_model.specs.Pieces.{Placed, seat, deliver_puts, sub_puts, unseated};
ghost use Rattle.cable_model.specs.Plans.{Callbacks, planner};
ghost use Rattle.cable_model.specs.Possible.{can_open, can_take, job_plan};
ghost use Rattle.cable_model.specs.Promise.{AllWorked};
ghost use Rattle.cable_model.specs.Steps.{Step};
ghost use Rattle.cable_model.specs.Wants.{makes, marks, turn_mark, user_of};
ghost use Rattle.conn_seat.specs.Seats.{Seated, Becomes, CanFinish, vacant, may_take_now, with_piece, with_taken, with_change};
ghost use Rattle.conn_core.specs.Subscriptions.{Subscription};
ghost use Rattle.conn_seat.specs.Turns.{with_turn, taken_by, placed_each, AreTaken, row_puts_for};
ghost use Rattle.conn_seat.specs.Seated.{SeatOf, AnswersAs, PlansAs, plan_of_piece, is_of_all, is_work_of};

/// A law, which computes nothing. A connection that was just opened with a user stands for its Open, where nothing was put under its
/// number before. In a legal journal nothing was.
pub fn opened_connections_sit()
    ensures sits { (c : ℕ) (token user : List ℕ) (past : List Step) (v : Seated)
        → seat c past ≡ unseated → Becomes (vacant user) v → SeatOf c (Step.Open c token (Some user) ∷ past) v }
    ensures unseated { (c : ℕ) (past : List Step) → Legal past → can_open c past ≡ true → seat c past ≡ unseated }
{}

/// A law, which computes nothing. Room that is made plays no part in what a connection stands for, nor does the change that room was
/// made for, and a put is the same with it.
pub fn room_plays_no_part()
    ensures pieces { (c : ℕ) (past : List Step) (v new : Seated) → SeatOf c past v → Becomes v new → SeatOf c past new }
    ensures change { (c : ℕ) (past : List Step) (v : Seated) (reserved : Option Change) → SeatOf c past v → SeatOf c past (record v { reserved = reserved }) }
    ensures put { (p : Piece) (v old new : Seated) → Becomes v old → Becomes (with_piece p old) new → Becomes (with_piece p v) new }
{}

/// A law, which computes nothing. An entry of another connection leaves a connection as it is, and so does one of the node that neither
/// puts nor places anything.
pub fn other_entries_leave_it()
    ensures { (c : ℕ) (e : Step) (past : List Step) (v : Seated) → is_of c e ≡ false → is_of_all e ≡ false → SeatOf c past v → SeatOf c (e ∷ past) v }
{}

/// A law, which computes nothing. A piece that is put is the entry that puts it: a text, the client's going, the node's stop.
pub fn puts_are_entries()
    ensures text { (pl : Planner) (c : ℕ) (text : List ℕ) (past : List Step) (v new : Seated)
        → AllWorked pl c past → SeatOf c past v → Becomes (with_piece (piece.Cmd (command_of text)) v) new → SeatOf c (Step.In c text ∷ past) new }
    ensures gone { (pl : Planner) (c : ℕ) (past : List Step) (v new : Seated)
        → AllWorked pl c past → SeatOf c past v → Becomes (with_piece piece.Gone v) new → SeatOf c (Step.Drop c ∷ past) new }
    ensures restart { (pl : Planner) (c : ℕ) (past : List Step) (v new : Seated)
        → AllWorked pl c past → SeatOf c past v → Becomes (with_piece piece.Restart v) new → SeatOf c (Step.Stop ∷ past) new }
{}

/// A law, which computes nothing. A take is the entry of a Take.
pub fn takes_are_entries()
    ensures { (pl : Planner) (c : ℕ) (past : List Step) (v new : Seated)
        → AllWorked pl c past → SeatOf c past v → may_take_now v ≡ true → Becomes (with_taken v) new → SeatOf c (Step.Take c ∷ past) new }
{}

/// A law, which computes nothing. A finish of the job's plan is the entry of a Finish with this plan. Only the plan of a closing piece
/// closes.
pub fn finishes_are_entries()
    ensures closing { (pl : Planner) (r : Callbacks) (c : ℕ) (plan : Plan) (past : List Step) (v : Seated)
        → AllWorked pl c past → job_plan r c past ≡ Some plan → SeatOf c past v → plan.change ≡ change.Close → v.closing ≡ true }
    ensures entry { (pl : Planner) (r : Callbacks) (c : ℕ) (puts : List (Option RowId)) (plan : Plan) (past : List Step) (v new : Seated)
        → AllWorked pl c past → job_plan r c past ≡ Some plan → SeatOf c past v → CanFinish plan.change v → Becomes (with_change plan.change v) new
        → SeatOf c (Step.Finish c puts plan ∷ past) new }
{}

/// A law, which computes nothing. The Deliver of a turn that was missed leaves a connection as it is. That of another turn gives the streams
/// that the turn takes their mark, and puts the turn's pieces.
pub fn turns_are_entries()
    ensures missed { (c turn : ℕ) (note : ReadNote) (past : List Step) (v : Seated) → note.failed ≡ true → SeatOf c past v
        → SeatOf c (Step.Deliver turn note ∷ past) v }
    ensures found { (pl : Planner) (c turn : ℕ) (note : ReadNote) (past : List Step) (v new : Seated)
        → AllWorked pl c past → SeatOf c past v → note.failed ≡ false
        → Becomes (with_turn (turn_mark c note past) (deliver_puts (user_of c past) (marks c past) (turn_mark c note past) (seat c past).conn.subs note.rows) v) new
        → SeatOf c (Step.Deliver turn note ∷ past) new }
{}

/// A law, which computes nothing. Placing each want that a turn took, in any order, is what the turn does to the streams. They are those
/// of the streams without a mark that were wanted up to what the turn's Ask found made.
pub fn places_are_the_turns()
    ensures { (seen : ℕ) (mark : RowId) (ts : List (SubNo × WantNo)) (subs : List Subscription)
        → AreTaken seen ts subs → placed_each mark ts subs ≡ taken_by (record { seen = seen; last = mark.0 } ∷ []) subs }
{}

/// A law, which computes nothing. What a row puts for the streams that are held is what the journal says of the connection's wants.
pub fn rows_go_to_held_streams()
    ensures { (c : ℕ) (past : List Step) (v : Seated) (row : Row) → SeatOf c past v
        → row_puts_for row v.subs ≡ sub_puts (marks c past) row (seat c past).conn.subs }
{}

/// A law, which computes nothing. What a connection answers is what the journal says of it.
pub fn answers_are_the_journals()
    ensures { (pl : Planner) (c : ℕ) (past : List Step) (v : Seated) → AllWorked pl c past → SeatOf c past v → AnswersAs c past v }
{}

/// A law, which computes nothing. The plan of the piece that is out is the journal's plan of the job, whatever the callbacks.
pub fn plans_are_the_journals()
    ensures { (pl : Planner) (c : ℕ) (past : List Step) (v : Seated) → AllWorked pl c past → SeatOf c past v → PlansAs c past v }
{}

/// A law, which computes nothing. The plan of the piece that is out can be finished, once room is made for it.
pub fn plans_can_be_finished()
    ensures { (pl : Planner) (r : Callbacks) (c : ℕ) (past : List Step) (v : Seated) (p : Placed)
        → AllWorked pl c past → SeatOf c past v → v.job ≡ Some p
        → v.reserved ≡ Some (plan_of_piece r v p.piece).change → v.made + makes (plan_of_piece r v p.piece).change < 2 ^ 64 - 1
        → CanFinish (plan_of_piece r v p.piece).change v }
{}

/// A law, which computes nothing. Where each piece was worked as it is planned, this goes on: with a Take that is possible, with a Finish
/// of the job's plan, and with each entry that is no Take or Finish of the connection.
pub fn pieces_go_on_being_worked()
    ensures take { (pl : Planner) (c : ℕ) (past : List Step) → AllWorked pl c past → can_take c past ≡ true → AllWorked pl c (Step.Take c ∷ past) }
    ensures finish { (r : Callbacks) (c : ℕ) (user : List ℕ) (puts : List (Option RowId)) (plan : Plan) (past : List Step)
        → user_of c past ≡ Some user → AllWorked (planner r user) c past → job_plan r c past ≡ Some plan → AllWorked (planner r user) c (Step.Finish c puts plan ∷ past) }
    ensures other { (pl : Planner) (c : ℕ) (e : Step) (past : List Step) → is_work_of c e ≡ false → AllWorked pl c past → AllWorked pl c (e ∷ past) }
{}
