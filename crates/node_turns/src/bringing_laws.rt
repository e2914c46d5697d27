ghost use Rattle.std.specs.Prelude.{◌≡◌, ◌≢◌, ℕ, ℤ, List, [], map, false};
ghost use Rattle.std.specs.List.{All};
ghost use Rattle.std.specs.List.Sorted.{IsPermutation};
ghost use Rattle.std.specs.FinMap as maps;
ghost use Rattle.cable_base.specs.declared.rows.Row.{Row};
ghost use Rattle.cable_model.specs.History.{held_names};
ghost use Rattle.cable_model.specs.Legal.{Legal};
ghost use Rattle.cable_model.specs.Pieces.{seat, rows_puts};
ghost use Rattle.cable_model.specs.Steps.{Step};
ghost use Rattle.cable_model.specs.Table.{contains};
ghost use Rattle.cable_model.specs.Wants.{marks, user_of};
ghost use Rattle.node_seats.specs.Turned.{pieces_for};
ghost use Rattle.subscriber_map.specs.HoldMaps.{HoldMap, holds_at};
ghost use Rattle.node_turns.specs.Held.{AreHeld};
ghost use Rattle.node_turns.specs.Holding.{rows_bring};

/// A law, which computes nothing. What rows put on a connection for the holds that the node has is what the journal says.
pub fn rows_go_to_their_holders()
    ensures { (c : ℕ) (rows : List Row) (past : List Step) (m : HoldMap) → Legal past → AreHeld past m → (seat c past).conn.over ≡ false
        → pieces_for c (rows_bring m rows) ≡ rows_puts (user_of c past) (marks c past) (seat c past).conn.subs rows }
{}

/// A law, which computes nothing. The names that have a hold are those that the journal says, and so are their hashes, in whatever order.
pub fn held_names_are_the_journals()
    ensures names { (hash : List ℕ → ℤ) (past : List Step) (m : HoldMap) (h : ℤ) → Legal past → AreHeld past m
        → All (λ name. holds_at m name ≢ []) (maps.keys m)
        → contains (map hash (maps.keys m)) h ≡ contains (map hash (held_names past)) h }
    ensures hashes { (hash : List ℕ → ℤ) (past : List Step) (m : HoldMap) (hs : List ℤ) (h : ℤ) → Legal past → AreHeld past m
        → All (λ name. holds_at m name ≢ []) (maps.keys m) → IsPermutation hs (map hash (maps.keys m))
        → contains hs h ≡ contains (map hash (held_names past)) h }
{}
