ghost use Rattle.std.specs.Prelude.{◌≡◌, ◌<◌, ◌∷◌, ◌++◌, [], None, option_map, IfOk, OnOk, OnErr};
ghost use Rattle.cable_model.specs.Journal.{user_beside};
ghost use Rattle.cable_model.specs.Limits.{most_connections};
ghost use Rattle.cable_model.specs.Steps.{Step};
ghost use Rattle.cable_model.specs.Transcript.{greeting};
ghost use Rattle.node_seats.specs.Numbers.{Rising, live_among, opened_at};
ghost use Rattle.node_seats.specs.Outboxes.{Queues};
ghost use Rattle.node_core.specs.Nodes.{GoesOn, past, ReadsSame};
ghost use Rattle.conn_seat.specs.declared.outs.Out.TheVariants as out;
ghost use Rattle.node_turns.specs.Wished.{own_wanted};
ghost use Rattle.node_core.specs.Opening.{OpensAs, RefusesOpen, open_fault};

use crate::nodes::Node;
use cable_base::{ConnNo, OutOfMemory, SubNo, Text, WantNo};
use cable_json::{Reason, disconnect, welcome};
use cable_model::{Beside, Entry};
use channel_book::Callbacks;
use conn_seat::Out;
use node_seats::{Seats, Wanted};
use node_turns::Wants;
use std::alloc::Global;

/// Why a connection isn't opened. The first cause that holds is answered.
#[derive(Clone, Copy, Debug, PartialEq, Eq)]
pub enum OpenFault {
    /// The number was opened before on this node.
    Used,
    /// 1,000 connections of the node are live.
    Full,
    OutOfMemory,
}

impl From<OutOfMemory> for OpenFault {
    ghost use Rattle.std.specs.Prelude.{◌≡◌};
    ghost use Rattle.node_core.specs.declared.opening.OpenFault.TheVariants as fault;

    ghost from_gives = { λ _ e. e ≡ fault.OutOfMemory };

    fn from(_e: OutOfMemory) -> OpenFault {
        OpenFault::OutOfMemory
    }
}

/// What is said to a connection that opens.
fn greeting(alloc: Global, user: Option<&str>) -> Result<Out, OutOfMemory>
    ensures { IfOk result (λ o. o ≡ out.Text (greeting (option_map (λ u. u.now) user.entry))) }
{
    let text = match user {
        Some(_) => welcome(alloc)?,
        None => disconnect(alloc, Reason::Unauthorized, false)?,
    };
    Ok(Out::Text(text))
}

/// Puts the want of a connection's own name, where it has a user, behind those that turns are to take.
fn want_own(wants: &mut Wants, conn: ConnNo, user: Option<&str>)
    requires { 0 < wants.old.spare }
    ensures wanted { wants.new.wanted ≡ wants.old.wanted ++ own_wanted conn.0 (option_map (λ u. u.now) user.entry) }
    ensures taken { wants.new.taken ≡ wants.old.taken }
{
    if user.is_some() {
        wants.put(Wanted {
            conn,
            sub: SubNo(0),
            want: WantNo(0),
            confirms: false,
        });
    }
}

/// The user as it is kept beside the entry of an Open.
fn beside(alloc: Global, user: Option<&str>) -> Result<Beside, OutOfMemory>
    ensures { IfOk result (λ b. user_beside b ≡ option_map (λ u. u.now) user.entry) }
{
    Ok(match user {
        Some(user) => Beside::User {
            user: Some(Text::new(alloc, user)?),
        },
        None => Beside::User { user: None },
    })
}

/// Keeps the number, with a connection of the user or as one that is over, and queues its greeting.
fn keep(
    seats: &mut Seats,
    conn: ConnNo,
    user: Option<&str>,
    greeting: Out,
) -> Result<(), OutOfMemory>
    requires unused { opened_at conn.0 seats.old.entries ≡ None }
    requires room { live_among seats.old.entries < most_connections }
    ensures opens { OnOk result (OpensAs conn.0 (option_map (λ u. u.now) user.entry) seats.old.entries seats.new.entries) }
    ensures queues { OnOk result (Queues (record { conn = conn; out = greeting } ∷ []) seats.old.outs seats.new.outs) }
    ensures rising { OnOk result (Rising seats.new.entries) }
    ensures err { OnErr result (seats.new ≡ seats.old) }
{
    match user {
        Some(user) => seats.open(conn, user, greeting),
        None => seats.refuse(conn, greeting),
    }
}

impl Node {
    /// Opens a connection under this number, and queues what is said to it: the welcome, or where no user has the token the disconnect.
    /// A connection without a user is over at once.
    pub fn open_conn<C: Callbacks>(
        &mut self,
        conn: ConnNo,
        token: &str,
        callbacks: &C,
    ) -> Result<(), OpenFault>
        ensures no { self.new.no ≡ self.old.no }
        ensures fault { RefusesOpen (open_fault conn.0 (past self.old)) result }
        ensures ok { OnOk result (past self.new ≡ Step.Open conn.0 token.now ((C.answers callbacks.now).identify token.now) ∷ past self.old) }
        ensures goes { OnOk result (GoesOn self.old self.new) }
        ensures err { OnErr result (ReadsSame self.old self.new) }
    {
        if self.seats.is_used(conn) {
            return Err(OpenFault::Used);
        }
        if self.seats.is_full() {
            return Err(OpenFault::Full);
        }
        self.enter_open(conn, token, callbacks)?;
        Ok(())
    }

    /// Opens a connection that can be opened.
    fn enter_open<C: Callbacks>(
        &mut self,
        conn: ConnNo,
        token: &str,
        callbacks: &C,
    ) -> Result<(), OutOfMemory>
        requires { open_fault conn.0 (past self.old) ≡ None }
        ensures no { self.new.no ≡ self.old.no }
        ensures ok { OnOk result (past self.new ≡ Step.Open conn.0 token.now ((C.answers callbacks.now).identify token.now) ∷ past self.old) }
        ensures goes { OnOk result (GoesOn self.old self.new) }
        ensures err { OnErr result (ReadsSame self.old self.new) }
    {
        let user = callbacks.identify(token);
        let greeting = greeting(self.alloc, user)?;
        let beside = beside(self.alloc, user)?;
        let token = Text::new(self.alloc, token)?;
        // Room first: behind `keep`, which changes nothing where it fails, nothing can fail.
        self.wants.reserve(1)?;
        self.journal.reserve()?;
        keep(&mut self.seats, conn, user, greeting)?;
        want_own(&mut self.wants, conn, user);
        self.journal.enter(Entry::Open { conn, token }, beside);
        Ok(())
    }
}
