ghost use Rattle.cable_link.specs.Memory.{AllCome};

use crate::clients::{are, failing, silent, with_binary, with_closed, with_text};
use crate::nodes::{ANN, CONFIRMED, SUBSCRIBE, WELCOME, works};
use cable_base::{NodeNo, RowId, Text};
use cable_link::{Came, MemLink};
use channel_book::Book;
use node_core::Node;
use std::alloc::Global;
use std::test::Fail;
use ws_session::{PumpFault, Pumped, pump_once};

const BOOK: &str = r#"{"tokens":{"t1":"ann"},"channels":[{"name":"Plain"}]}"#;

const RESTARTED: &str = r#"{"type":"disconnect","reason":"server_restart","reconnect":true}"#;

/// A session of ann on a node.
#[derive(Drop)]
struct Talk {
    link: MemLink,
    node: Node,
    kept: Option<Text>,
    book: Book,
}

/// What a session is taken through, with what has to come of it.
#[derive(Drop)]
enum Act {
    /// One call of the pump, which answers this.
    Pumps(Pumped),
    /// One call of the pump, which is refused.
    Refuses(PumpFault),
    /// A text is kept, or none is.
    Keeps(bool),
    /// The first piece that waits is worked.
    Works,
    /// None waits.
    IsIdle,
    /// The node stops.
    Stops,
    /// So many texts wait on the connection already.
    Waits(u64),
    /// The connection is live and not closing, or it isn't.
    Receives(bool),
    /// These texts were said to the client, in order.
    Said(&'static [&'static str]),
}

fn is_idle(node: &mut Node) -> bool {
    match node.take_next() {
        Ok(Some(job)) => {
            job.give_up();
            false
        }
        Ok(None) => true,
        Err(_) => false,
    }
}

fn receives(node: &Node) -> bool {
    match node.receiving() {
        Ok(conns) => conns.as_slice() == [ANN].as_slice(),
        Err(_) => false,
    }
}

/// Puts so many texts.
fn waits(node: &mut Node, count: u64) -> bool {
    for _ in 0..count {
        if node.arrive(ANN, SUBSCRIBE).is_err() {
            return false;
        }
    }
    true
}

impl Talk {
    /// A session on a connection that has just been opened.
    fn open(alloc: Global, coming: Vec<Came>, calls: &[u64]) -> Result<Talk, Fail>
        requires { AllCome coming.items }
    {
        let book = Book::read(alloc, BOOK)?;
        let mut node = Node::boot(alloc, NodeNo(1), RowId(0))?;
        node.open_conn(ANN, "t1", &book)?;
        Ok(Talk {
            link: MemLink::new(alloc, coming, failing(alloc, calls)?),
            node,
            kept: None,
            book,
        })
    }

    fn pump(&mut self) -> Result<Pumped, PumpFault> {
        pump_once(&mut self.link, &mut self.node, ANN, &mut self.kept)
    }

    /// Whether this comes of the act.
    fn does(&mut self, act: &Act) -> bool {
        match act {
            Act::Pumps(pumped) => self.pump() == Ok(*pumped),
            Act::Refuses(fault) => self.pump() == Err(*fault),
            Act::Keeps(keeps) => self.kept.is_some() == *keeps,
            Act::Works => works(&mut self.node, &self.book),
            Act::IsIdle => is_idle(&mut self.node),
            Act::Stops => self.node.stop().is_ok(),
            Act::Waits(count) => waits(&mut self.node, *count),
            Act::Receives(is_receiving) => receives(&self.node) == *is_receiving,
            Act::Said(texts) => are(self.link.said(), texts),
        }
    }

    /// The first of the acts, counted from 1, of which something else came.
    fn first_wrong(&mut self, acts: &[Act]) -> Option<usize> {
        for (at, act) in acts.iter().enumerate() {
            if !self.does(act) {
                return Some(at + 1);
            }
        }
        None
    }
}

#[test]
fn texts_go_both_ways(rt: HostRuntime) -> Result<(), Fail> {
    let alloc = rt.alloc();
    let coming = with_closed(with_binary(with_text(alloc, silent(alloc), SUBSCRIBE)?)?)?;
    let mut talk = Talk::open(alloc, coming, &[])?;
    let wrong = talk.first_wrong(&[
        Act::Pumps(Pumped::Went),
        Act::Said(&[WELCOME]),
        Act::Works,
        // What isn't a text is passed over.
        Act::Pumps(Pumped::Went),
        Act::IsIdle,
        Act::Said(&[WELCOME, CONFIRMED]),
        Act::Receives(true),
        Act::Pumps(Pumped::Ended),
        Act::Receives(false),
        Act::Works,
        Act::IsIdle,
    ]);
    assert_eq!(rt; wrong, None);
    Ok(())
}

/// What the client says needs be no command: the pump doesn't look.
#[test]
fn a_pump_goes_and_then_is_quiet(rt: HostRuntime) -> Result<(), Fail> {
    let alloc = rt.alloc();
    let mut talk = Talk::open(alloc, with_text(alloc, silent(alloc), "{}")?, &[])?;
    let wrong = talk.first_wrong(&[
        Act::Pumps(Pumped::Went),
        Act::Said(&[WELCOME]),
        Act::Pumps(Pumped::Quiet),
    ]);
    assert_eq!(rt; wrong, None);
    Ok(())
}

#[test]
fn a_pump_goes_and_then_ends_where_the_link_is_closed(rt: HostRuntime) -> Result<(), Fail> {
    let alloc = rt.alloc();
    let coming = with_closed(with_text(alloc, silent(alloc), "{}")?)?;
    let mut talk = Talk::open(alloc, coming, &[])?;
    let wrong = talk.first_wrong(&[Act::Pumps(Pumped::Went), Act::Pumps(Pumped::Ended)]);
    assert_eq!(rt; wrong, None);
    Ok(())
}

#[test]
fn a_pump_whose_link_refuses_the_welcome_closes_the_connection(
    rt: HostRuntime,
) -> Result<(), Fail> {
    let alloc = rt.alloc();
    let mut talk = Talk::open(alloc, with_text(alloc, silent(alloc), "{}")?, &[2])?;
    let wrong = talk.first_wrong(&[
        Act::Refuses(PumpFault::LinkFault),
        Act::Said(&[]),
        Act::Receives(false),
    ]);
    assert_eq!(rt; wrong, None);
    Ok(())
}

#[test]
fn a_quiet_link_with_something_to_say_is_not_quiet(rt: HostRuntime) -> Result<(), Fail> {
    let alloc = rt.alloc();
    let mut talk = Talk::open(alloc, silent(alloc), &[])?;
    let wrong = talk.first_wrong(&[
        Act::Pumps(Pumped::Went),
        Act::Pumps(Pumped::Quiet),
        Act::Pumps(Pumped::Quiet),
        Act::Said(&[WELCOME]),
        // The connection ends once its last text is said.
        Act::Stops,
        Act::Pumps(Pumped::Quiet),
        Act::Works,
        Act::Pumps(Pumped::Ended),
        Act::Said(&[WELCOME, RESTARTED]),
        Act::Pumps(Pumped::Ended),
    ]);
    assert_eq!(rt; wrong, None);
    Ok(())
}

#[test]
fn the_first_text_of_a_closed_link_is_said(rt: HostRuntime) -> Result<(), Fail> {
    let alloc = rt.alloc();
    let coming = with_closed(silent(alloc))?;
    let mut talk = Talk::open(alloc, coming, &[])?;
    let wrong = talk.first_wrong(&[
        Act::Pumps(Pumped::Ended),
        Act::Said(&[WELCOME]),
        Act::Receives(false),
    ]);
    assert_eq!(rt; wrong, None);
    Ok(())
}

#[test]
fn a_link_that_fails_closes_its_connection(rt: HostRuntime) -> Result<(), Fail> {
    let alloc = rt.alloc();
    // The link is asked first, and then the welcome is said.
    for call in [1, 2] {
        let coming = with_text(alloc, silent(alloc), SUBSCRIBE)?;
        let mut talk = Talk::open(alloc, coming, &[call])?;
        let wrong = talk.first_wrong(&[
            Act::Refuses(PumpFault::LinkFault),
            Act::Said(&[]),
            Act::Keeps(false),
            Act::Receives(false),
            Act::Works,
        ]);
        assert_eq!(rt; wrong, None);
    }
    Ok(())
}

#[test]
fn a_busy_connection_holds_up_its_link(rt: HostRuntime) -> Result<(), Fail> {
    let alloc = rt.alloc();
    let coming = with_closed(with_text(alloc, silent(alloc), SUBSCRIBE)?)?;
    let mut talk = Talk::open(alloc, coming, &[])?;
    let wrong = talk.first_wrong(&[
        Act::Waits(256),
        Act::Pumps(Pumped::Went),
        Act::Keeps(true),
        Act::Said(&[WELCOME]),
        // The link isn't read meanwhile: that it is closed isn't seen.
        Act::Pumps(Pumped::Went),
        Act::Keeps(true),
        Act::Receives(true),
        Act::Works,
        Act::Pumps(Pumped::Went),
        Act::Keeps(false),
        Act::Said(&[WELCOME, CONFIRMED]),
        Act::Pumps(Pumped::Ended),
        Act::Receives(false),
    ]);
    assert_eq!(rt; wrong, None);
    Ok(())
}

#[test]
fn a_text_that_is_too_long_is_dropped(rt: HostRuntime) -> Result<(), Fail> {
    let alloc = rt.alloc();
    let long = "x".repeat(alloc, 65_537)?;
    let coming = with_text(alloc, silent(alloc), long.as_str())?;
    let coming = with_text(alloc, coming, SUBSCRIBE)?;
    let mut talk = Talk::open(alloc, coming, &[])?;
    let wrong = talk.first_wrong(&[
        Act::Pumps(Pumped::Went),
        Act::Keeps(false),
        Act::IsIdle,
        Act::Pumps(Pumped::Went),
        Act::Works,
        Act::Pumps(Pumped::Went),
        Act::Said(&[WELCOME, CONFIRMED]),
    ]);
    assert_eq!(rt; wrong, None);
    Ok(())
}
