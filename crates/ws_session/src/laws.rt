ghost use Rattle.std.specs.Prelude.{◌≡◌, [], List, Option, Result, ℕ, IsOk};
ghost use Rattle.cable_base.specs.declared.numbers.ConnNo.{ConnNo};
ghost use Rattle.cable_link.specs.Memory.{MemTalk};
ghost use Rattle.node_core.specs.Nodes.{NodeState, past};
ghost use Rattle.ws_session.specs.declared.outcomes.PumpFault.{PumpFault};
ghost use Rattle.ws_session.specs.declared.outcomes.Pumped.{Pumped};
ghost use Rattle.ws_session.specs.Calls.{Both};
ghost use Rattle.ws_session.specs.OverNode.{Ends, IsUsed, SaysItsQueue, left_of, over_node};
ghost use Rattle.ws_session.specs.Pumping.{Makes, Round};
ghost use Rattle.ws_session.specs.Rounds.{AnyUse, PassesOn, PumpsOn};

use cable_link::Link;
use node_core::Desk;

/// A law, which computes nothing. Over any number of calls of a pump on one link, however others use the desk between them: the texts that the
/// link gave are offered in their order until each has its answer, and one that hasn't is what is kept; what the desk gave out was said
/// in its order, each text once, but for those that the link refused.
pub fn texts_are_passed_on_in_order<L: Link, D: Desk>()
    ensures { (conn : ConnNo) (kept kept' : Option (List ℕ)) (old new : Both L D) (rounds : List Round)
        → PumpsOn
        (record {
          link = record { gives = L.gives; says = L.says; coming = L.coming; said = L.said; faults = L.faults };
          desk = record { arrives = D.arrives; goes = D.goes; takes_out = D.takes_out; tells_over = D.tells_over };
        })
        AnyUse conn kept old rounds kept' new
        → PassesOn
        (record {
          link = record { gives = L.gives; says = L.says; coming = L.coming; said = L.said; faults = L.faults };
          desk = record { arrives = D.arrives; goes = D.goes; takes_out = D.takes_out; tells_over = D.tells_over };
        })
        kept old rounds kept' new }
{}

/// A law, which computes nothing. A pump between a link in memory and a node says what the node's journal queued on the connection.
pub fn texts_of_a_node_are_said()
    // Over any number of calls, while the node is used by others: in the order of the journal, each text once, but for those that the link refused.
    ensures queue { (conn : ConnNo) (kept kept' : Option (List ℕ)) (old new : Both MemTalk NodeState) (rounds : List Round)
        → PumpsOn over_node (IsUsed conn) conn kept old rounds kept' new → SaysItsQueue conn old rounds new }

    // By one call that isn't refused, all that is queued.
    ensures all { (conn : ConnNo) (kept kept' : Option (List ℕ)) (old new : Both MemTalk NodeState) (r : Round) (answer : Result Pumped PumpFault)
        → Makes over_node conn kept old r answer kept' new → IsOk answer → left_of conn new.desk (past new.desk) ≡ [] }

    // A call by which the session ends, and one whose link failed, leave a connection on which nothing more is put.
    ensures ends { (conn : ConnNo) (kept kept' : Option (List ℕ)) (old new : Both MemTalk NodeState) (r : Round) (answer : Result Pumped PumpFault)
        → Makes over_node conn kept old r answer kept' new → Ends conn answer new.desk }
{}
