ghost use Rattle.std.specs.Prelude.{◌≡◌, IfOk, IfErr};
ghost use Rattle.ws_session.specs.Calls.{Sends};
ghost use Rattle.ws_session.specs.Halves.{SaysInVain, SaysOn, SendsInVain, is_text};

use crate::hearing::give_up;
use crate::outcomes::PumpFault;
use cable_base::ConnNo;
use cable_link::Link;
use conn_seat::Out;
use node_core::Desk;

/// What was said, as far as the answer of a call depends on it.
#[derive(Clone, Copy, Debug, PartialEq, Eq)]
pub struct Said {
    /// Whether a text was said.
    pub any: bool,
    /// Whether the connection was over, as the desk had nothing more.
    pub over: bool,
}

/// Sends what was taken out: says a text, passes over a note. Answers whether it was a text.
fn send<L: Link, D: Desk>(
    link: &mut L,
    desk: &mut D,
    conn: ConnNo,
    out: Out,
) -> Result<bool, PumpFault>
    ensures ok { IfOk result (λ _. Sends (record { gives = L.gives; says = L.says; coming = L.coming; said = L.said; faults = L.faults })
        link.old out link.new) }
    ensures desk { IfOk result (λ _. desk.new ≡ desk.old) }
    ensures text { IfOk result (λ text. text ≡ is_text out) }
    ensures err { IfErr result (λ f. SendsInVain (record { gives = L.gives; says = L.says; coming = L.coming; said = L.said; faults = L.faults }) D.goes conn
        (record { link = link.old; desk = desk.old }) out f (record { link = link.new; desk = desk.new })) }
{
    match out {
        Out::Text(text) => match link.say(text.as_str()) {
            Ok(()) => Ok(true),
            Err(trouble) => Err(give_up(desk, conn, trouble)),
        },
        Out::Note(_) => Ok(false),
    }
}

/// Takes out all that is queued, in order, and says each text, once. A text that the link refuses isn't said again.
///
/// Whether the connection is over is asked before the desk answers that it has nothing more: so a text that is queued together with the end
/// is still said. Once 2^64 - 1 were taken out, memory is taken to be wanted.
pub fn say_all<L: Link, D: Desk>(
    link: &mut L,
    desk: &mut D,
    conn: ConnNo,
) -> Result<Said, PumpFault>
    ensures ok { IfOk result (λ said. SaysOn
        (record {
          link = record { gives = L.gives; says = L.says; coming = L.coming; said = L.said; faults = L.faults };
          desk = record { arrives = D.arrives; goes = D.goes; takes_out = D.takes_out; tells_over = D.tells_over };
        })
        conn (record { link = link.old; desk = desk.old }) said (record { link = link.new; desk = desk.new })) }
    ensures err { IfErr result (λ f. SaysInVain
        (record {
          link = record { gives = L.gives; says = L.says; coming = L.coming; said = L.said; faults = L.faults };
          desk = record { arrives = D.arrives; goes = D.goes; takes_out = D.takes_out; tells_over = D.tells_over };
        })
        conn (record { link = link.old; desk = desk.old }) f (record { link = link.new; desk = desk.new })) }
{
    let mut any = false;
    for _ in 0..u64::MAX {
        let over = desk.is_over(conn);
        let Some(out) = desk.take_out(conn) else {
            return Ok(Said { any, over });
        };
        let text = send(link, desk, conn, out)?;
        any = any || text;
    }
    Err(PumpFault::OutOfMemory)
}
