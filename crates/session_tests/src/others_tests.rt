use crate::clients::{are, failing, silent, with_text};
use crate::nodes::{ANN, BOB, CONFIRMED, Room, SUBSCRIBE, WELCOME};
use cable_base::{ConnNo, OutOfMemory, Text};
use cable_link::MemLink;
use std::alloc::Global;
use std::test::Fail;
use ws_session::{PumpFault, Pumped, pump_once};

/// How many pieces are worked at most, one after the other.
const PIECES: u32 = 8;

/// The session of a client that subscribes.
#[derive(Drop)]
struct Session {
    link: MemLink,
    conn: ConnNo,
    kept: Option<Text>,
}

impl Session {
    /// Its link fails at these calls.
    fn begin(alloc: Global, conn: ConnNo, calls: &[u64]) -> Result<Session, OutOfMemory> {
        let coming = with_text(alloc, silent(alloc), SUBSCRIBE)?;
        Ok(Session {
            link: MemLink::new(alloc, coming, failing(alloc, calls)?),
            conn,
            kept: None,
        })
    }

    fn pump(&mut self, room: &mut Room) -> Result<Pumped, PumpFault> {
        pump_once(&mut self.link, &mut room.node, self.conn, &mut self.kept)
    }

    /// Whether these texts were said to the client, in order.
    fn said(&self, texts: &[&str]) -> bool {
        are(self.link.said(), texts)
    }
}

/// Works what waits.
fn works_all(room: &mut Room) {
    for _ in 0..PIECES {
        if !room.work() {
            return;
        }
    }
}

/// Whether a client that subscribes is told what it has to be told.
fn is_served(session: &mut Session, room: &mut Room) -> bool {
    let first = session.pump(room);
    works_all(room);
    let second = session.pump(room);
    let third = session.pump(room);
    first == Ok(Pumped::Went)
        && second == Ok(Pumped::Went)
        && third == Ok(Pumped::Quiet)
        && session.said(&[WELCOME, CONFIRMED])
}

/// A node on which ann and bob are.
fn shared(alloc: Global) -> Result<Room, Fail> {
    let mut room = Room::empty(alloc)?;
    room.open(ANN, "t1")?;
    room.open(BOB, "t2")?;
    Ok(room)
}

/// Ann's link fails when it is asked, or when her welcome is said.
#[test]
fn a_link_that_fails_stops_no_other_session(rt: HostRuntime) -> Result<(), Fail> {
    let alloc = rt.alloc();
    for call in [1u64, 2] {
        let mut room = shared(alloc)?;
        let mut ann = Session::begin(alloc, ANN, &[call])?;
        let mut bob = Session::begin(alloc, BOB, &[])?;
        assert_eq!(rt; ann.pump(&mut room), Err(PumpFault::LinkFault));
        assert!(rt; room.receives(&[BOB]));
        assert!(rt; is_served(&mut bob, &mut room));
        assert!(rt; ann.said(&[]));
    }
    Ok(())
}
