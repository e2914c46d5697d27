ghost use Rattle.std.specs.Prelude.{◌≡◌, ◌+◌, ◌^◌, ◌≤◌, ℕ, List, true};
ghost use Rattle.cable_base.specs.declared.numbers.RowId.{RowId};
ghost use Rattle.cable_base.specs.declared.numbers.SubNo.{SubNo};
ghost use Rattle.cable_base.specs.declared.numbers.WantNo.{WantNo};
ghost use Rattle.cable_model.specs.declared.pieces.Piece.{Piece};
ghost use Rattle.cable_model.specs.declared.plans.Change.{Change};
ghost use Rattle.cable_model.specs.Connection.{Conn, changed};
ghost use Rattle.cable_model.specs.Plans.{Callbacks, plan_for, plan_of, task_of};
ghost use Rattle.cable_model.specs.Wants.{makes};
ghost use Rattle.conn_core.specs.Subscriptions.{Subscription, AreApart, WantsApart, placed_in, waits_in};
ghost use Rattle.conn_core.specs.Connections.{Connection, SubsBelow, AllWantsBelow, CanApply, connection_behind};
ghost use Rattle.conn_core.specs.Bare.{bare};
ghost use Rattle.conn_core.specs.Marked.{Marks, IsMarked, UnmarkedAbove, with_mark};

/// A law, which computes nothing. What `task` and `plan` make of a piece is the plan of that piece on the fold of the pieces before it,
/// whatever the marks.
pub fn plans_are_the_rules()
    ensures { (marks : Marks) (k : Conn) (c : Connection) (callbacks : Callbacks) (user : List ℕ) (p : Piece)
        → IsMarked marks k c → plan_for callbacks user (task_of (bare c.subs) p) ≡ plan_of callbacks user k p }
{}

/// A law, which computes nothing. What `apply` makes of a connection is the fold's step: it goes on showing the fold, with the marks that
/// it had and new wants without one.
pub fn changes_are_steps()
    ensures { (marks : Marks) (k : Conn) (c : Connection) (change : Change) (sub : SubNo) (first : WantNo)
        → IsMarked marks k c → UnmarkedAbove k.made marks → first.0 ≡ k.made + 1 → IsMarked marks (changed change sub.0 k) (connection_behind change sub first c) }
{}

/// A law, which computes nothing. What `place` makes of a connection has one mark more, and shows the same fold.
pub fn places_are_marks()
    ensures { (marks : Marks) (k : Conn) (c : Connection) (sub : SubNo) (want : WantNo) (mark : RowId)
        → IsMarked marks k c → WantsApart c.subs → waits_in sub want c.subs ≡ true → IsMarked (with_mark want mark marks) k (record c { subs = placed_in sub want mark c.subs }) }
{}

/// A law, which computes nothing. Each plan of a piece can be applied to the connection that the piece's task was made of, where the
/// numbers are above those that stand.
pub fn plans_can_be_applied()
    ensures { (callbacks : Callbacks) (user : List ℕ) (subs : List Subscription) (p : Piece) (sub : SubNo) (first : WantNo)
        → AreApart subs → SubsBelow sub subs → AllWantsBelow first subs
        → first.0 + makes (plan_for callbacks user (task_of (bare subs) p)).change ≤ 2 ^ 64
        → CanApply (plan_for callbacks user (task_of (bare subs) p)).change sub first subs }
{}
