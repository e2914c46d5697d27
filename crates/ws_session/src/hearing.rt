ghost use Rattle.std.specs.Prelude.{◌≡◌, Option, None, Ok, IfOk, IfErr};
ghost use Rattle.ws_session.specs.Calls.{Gives, GivesUp};
ghost use Rattle.ws_session.specs.Halves.{AsksInVain, HearsInVain, HearsOn, heard_of};
ghost use Rattle.ws_session.specs.Pumping.{Offer, Offers, Passes, goes_on_after, is_kept};

use crate::outcomes::PumpFault;
use cable_base::{ConnNo, OutOfMemory, Text, Trouble};
use cable_link::{Came, Link};
use node_core::{ArriveFault, Desk};

/// What a call heard, as far as its answer depends on it.
#[derive(Clone, Copy, Debug, PartialEq, Eq)]
pub enum Heard {
    /// The link is closed.
    Closed,
    /// Nothing came.
    Quiet,
    /// Something came, or a text was kept.
    Something,
}

/// What the answer depends on, of what was got.
fn heard_in(got: &Came) -> Heard
    ensures { result ≡ heard_of got.now }
{
    match got {
        Came::Text(_) | Came::Binary => Heard::Something,
        Came::Closed => Heard::Closed,
        Came::Quiet => Heard::Quiet,
    }
}

/// What the call is refused as where the link refused. Where the link failed, the desk is told that the client has gone.
pub fn give_up<D: Desk>(desk: &mut D, conn: ConnNo, trouble: Trouble) -> PumpFault
    ensures { GivesUp D.goes conn desk.old trouble result desk.new }
{
    match trouble {
        Trouble::OutOfMemory => PumpFault::OutOfMemory,
        Trouble::Failed => match desk.gone(conn) {
            Ok(_) => PumpFault::LinkFault,
            Err(OutOfMemory) => PumpFault::OutOfMemory,
        },
    }
}

/// Asks the link what came next.
fn ask<L: Link, D: Desk>(link: &mut L, desk: &mut D, conn: ConnNo) -> Result<Came, PumpFault>
    ensures ok { IfOk result (λ came. Gives (record { gives = L.gives; says = L.says; coming = L.coming; said = L.said; faults = L.faults })
        link.old (Ok came) link.new) }
    ensures desk { IfOk result (λ _. desk.new ≡ desk.old) }
    ensures err { IfErr result (λ f. AsksInVain (record { gives = L.gives; says = L.says; coming = L.coming; said = L.said; faults = L.faults }) D.goes conn
        (record { link = link.old; desk = desk.old }) f (record { link = link.new; desk = desk.new })) }
{
    match link.next() {
        Ok(came) => Ok(came),
        Err(trouble) => Err(give_up(desk, conn, trouble)),
    }
}

/// Whether a text that was answered so is kept: the connection is busy, or memory is wanted.
fn is_kept(answer: Result<(), ArriveFault>) -> bool
    ensures { result ≡ is_kept answer }
{
    match answer {
        Ok(()) | Err(ArriveFault::Unknown | ArriveFault::Shut | ArriveFault::TooLong) => false,
        Err(ArriveFault::Busy | ArriveFault::OutOfMemory) => true,
    }
}

/// Whether the call goes on after an answer: only want of memory ends it.
fn goes_on_after(answer: Result<(), ArriveFault>) -> Result<(), OutOfMemory>
    ensures { result ≡ goes_on_after answer }
{
    match answer {
        Err(ArriveFault::OutOfMemory) => Err(OutOfMemory),
        Ok(())
        | Err(
            ArriveFault::Unknown | ArriveFault::Shut | ArriveFault::TooLong | ArriveFault::Busy,
        ) => Ok(()),
    }
}

/// Offers a text to the desk. It is kept where the connection is busy or where memory is wanted, and else dropped.
fn offer<D: Desk>(
    desk: &mut D,
    conn: ConnNo,
    text: Text,
    kept: &mut Option<Text>,
) -> Result<(), OutOfMemory>
    requires { kept.old ≡ None }
    ensures { (offered : Option Offer) × Offers D.arrives conn desk.old text offered kept.new result desk.new }
{
    let answer = desk.arrive(conn, text.as_str());
    if is_kept(answer) {
        *kept = Some(text);
    }
    goes_on_after(answer)
}

/// Passes on what was got: a text is offered, of a closed link the desk is told, and all else is passed over.
fn pass_on<D: Desk>(
    desk: &mut D,
    conn: ConnNo,
    got: Came,
    kept: &mut Option<Text>,
) -> Result<(), OutOfMemory>
    requires { kept.old ≡ None }
    ensures { (offered : Option Offer) × Passes (record { arrives = D.arrives; goes = D.goes; takes_out = D.takes_out; tells_over = D.tells_over }) conn
        desk.old got offered kept.new result desk.new }
{
    match got {
        Came::Text(text) => offer(desk, conn, text, kept),
        Came::Closed => {
            desk.gone(conn)?;
            Ok(())
        }
        Came::Binary | Came::Quiet => Ok(()),
    }
}

/// Hears from the client: passes on the text that is kept, or what the link gives where none is.
pub fn hear<L: Link, D: Desk>(
    link: &mut L,
    desk: &mut D,
    conn: ConnNo,
    kept: &mut Option<Text>,
) -> Result<Heard, PumpFault>
    ensures ok { IfOk result (λ heard. HearsOn
        (record {
          link = record { gives = L.gives; says = L.says; coming = L.coming; said = L.said; faults = L.faults };
          desk = record { arrives = D.arrives; goes = D.goes; takes_out = D.takes_out; tells_over = D.tells_over };
        })
        conn kept.old (record { link = link.old; desk = desk.old }) heard kept.new (record { link = link.new; desk = desk.new })) }
    ensures err { IfErr result (λ f. HearsInVain
        (record {
          link = record { gives = L.gives; says = L.says; coming = L.coming; said = L.said; faults = L.faults };
          desk = record { arrives = D.arrives; goes = D.goes; takes_out = D.takes_out; tells_over = D.tells_over };
        })
        conn kept.old (record { link = link.old; desk = desk.old }) f kept.new (record { link = link.new; desk = desk.new })) }
{
    let got = match kept.take() {
        Some(text) => Came::Text(text),
        None => ask(link, desk, conn)?,
    };
    let heard = heard_in(&got);
    pass_on(desk, conn, got, kept)?;
    Ok(heard)
}
