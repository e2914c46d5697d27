ghost use Rattle.std.specs.Prelude.{◌≡◌, IsErrOf, IsOk, OnOk};
ghost use Rattle.cable_base.specs.Causes.{Rose};
ghost use Rattle.ws_session.specs.Halves.{answer_of};
ghost use Rattle.ws_session.specs.Pumping.{PumpsOnce};
ghost use Rattle.ws_session.specs.declared.outcomes.PumpFault.TheVariants as fault;

use crate::hearing::{Heard, hear};
use crate::outcomes::{PumpFault, Pumped};
use crate::saying::{Said, say_all};
use cable_base::{ConnNo, Text};
use cable_link::Link;
use node_core::Desk;

/// What is answered by what was heard and said.
fn pumped(heard: Heard, said: Said) -> Pumped
    ensures { result ≡ answer_of heard said }
{
    match heard {
        Heard::Closed => Pumped::Ended,
        Heard::Quiet | Heard::Something if said.over => Pumped::Ended,
        Heard::Quiet if !said.any => Pumped::Quiet,
        Heard::Quiet | Heard::Something => Pumped::Went,
    }
}

/// Pumps once between a client's link and the desk of its connection.
///
/// A text that is kept from an earlier call is offered to the desk, and then the link isn't asked. Else the link is asked once: a text that it
/// gives is offered, what isn't a text is passed over, and of a closed link the desk is told that the client has gone. A text that is offered
/// is kept where the connection is busy or memory is wanted, and dropped where the desk refuses it for another cause.
///
/// Then all that is queued on the connection is taken out, in order, and each text is said, once.
///
/// `Ended` is answered where the link gave that it is closed, or where the connection is over, once all that was queued is said. `Quiet` is
/// answered where it isn't the end, the link had nothing and nothing was said; else `Went`.
///
/// A refusal of the link ends the call: it isn't called again, and a text that it refused to say is lost. Where it failed, the desk is told that
/// the client has gone, and `LinkFault` is answered. `OutOfMemory` comes where the link or the desk wanted memory. What was done before stays.
pub fn pump_once<L: Link, D: Desk>(
    link: &mut L,
    desk: &mut D,
    conn: ConnNo,
    kept: &mut Option<Text>,
) -> Result<Pumped, PumpFault>
    ensures pumps { PumpsOnce
        (record {
          link = record { gives = L.gives; says = L.says; coming = L.coming; said = L.said; faults = L.faults };
          desk = record { arrives = D.arrives; goes = D.goes; takes_out = D.takes_out; tells_over = D.tells_over };
        })
        conn kept.old (record { link = link.old; desk = desk.old }) result kept.new (record { link = link.new; desk = desk.new }) }
    ensures cause { IsErrOf result fault.LinkFault → Rose (L.faults link.old) (L.faults link.new) }
    ensures calm { OnOk result (L.faults link.new ≡ L.faults link.old) }
{
    let heard = hear(link, desk, conn, kept)?;
    let said = say_all(link, desk, conn)?;
    Ok(pumped(heard, said))
}
