use crate::clients::{are, failing, silent, with_text};
use crate::told_desk::ToldDesk;
use cable_base::{ConnNo, Text};
use cable_link::MemLink;
use cable_model::Note;
use conn_seat::Out;
use node_core::ArriveFault;
use std::alloc::Global;
use std::test::Fail;
use ws_session::{PumpFault, Pumped, pump_once};

const ANN: ConnNo = ConnNo(7);

/// A session over a desk that is told what to answer.
#[derive(Drop)]
struct Talk {
    link: MemLink,
    desk: ToldDesk,
    kept: Option<Text>,
}

impl Talk {
    fn pump(&mut self) -> Result<Pumped, PumpFault> {
        pump_once(&mut self.link, &mut self.desk, ANN, &mut self.kept)
    }

    /// Whether these texts were offered to the desk, in order.
    fn offered(&self, texts: &[&str]) -> bool {
        are(self.desk.offered.as_slice(), texts)
    }

    /// Whether these texts were said to the client, in order.
    fn said(&self, texts: &[&str]) -> bool {
        are(self.link.said(), texts)
    }

    /// Whether so much is still queued.
    fn queues(&self, count: usize) -> bool {
        self.desk.queued.len() == count
    }
}

/// A session with a link from which `a` and `b` come, and which fails at these calls, and a desk that refuses a text for these causes and has
/// `x`, a note and `y` queued.
fn begin(alloc: Global, calls: &[u64], refusals: &[ArriveFault]) -> Result<Talk, Fail> {
    let coming = with_text(alloc, with_text(alloc, silent(alloc), "a")?, "b")?;
    let mut desk = ToldDesk::new(alloc);
    for refusal in refusals {
        desk.refusals.push_back(*refusal)?;
    }
    desk.queue("x")?;
    desk.queued.push_back(Out::Note(Note::TooLong))?;
    desk.queue("y")?;
    Ok(Talk {
        link: MemLink::new(alloc, coming, failing(alloc, calls)?),
        desk,
        kept: None,
    })
}

#[test]
fn a_text_is_offered_again_while_the_connection_is_busy(rt: HostRuntime) -> Result<(), Fail> {
    let mut talk = begin(rt.alloc(), &[], &[ArriveFault::Busy, ArriveFault::Busy])?;
    assert_eq!(rt; talk.pump(), Ok(Pumped::Went));
    assert!(rt; talk.kept.is_some() && talk.offered(&["a"]) && talk.said(&["x", "y"]));
    assert_eq!(rt; talk.pump(), Ok(Pumped::Went));
    assert!(rt; talk.kept.is_some() && talk.offered(&["a", "a"]));
    assert_eq!(rt; talk.pump(), Ok(Pumped::Went));
    assert!(rt; talk.kept.is_none() && talk.offered(&["a", "a", "a"]));
    assert_eq!(rt; talk.pump(), Ok(Pumped::Went));
    assert!(rt; talk.kept.is_none() && talk.offered(&["a", "a", "a", "b"]));
    assert_eq!(rt; talk.pump(), Ok(Pumped::Quiet));
    assert!(rt; talk.said(&["x", "y"]) && talk.desk.gone == 0);
    Ok(())
}

#[test]
fn a_text_that_is_refused_for_another_cause_is_dropped(rt: HostRuntime) -> Result<(), Fail> {
    for refusal in [
        ArriveFault::Unknown,
        ArriveFault::Shut,
        ArriveFault::TooLong,
    ] {
        let mut talk = begin(rt.alloc(), &[], &[refusal])?;
        assert_eq!(rt; talk.pump(), Ok(Pumped::Went));
        assert!(rt; talk.kept.is_none() && talk.offered(&["a"]));
        assert_eq!(rt; talk.pump(), Ok(Pumped::Went));
        assert!(rt; talk.kept.is_none() && talk.offered(&["a", "b"]));
    }
    Ok(())
}

#[test]
fn a_text_is_kept_where_its_desk_wants_memory(rt: HostRuntime) -> Result<(), Fail> {
    let mut talk = begin(rt.alloc(), &[], &[ArriveFault::OutOfMemory])?;
    assert_eq!(rt; talk.pump(), Err(PumpFault::OutOfMemory));
    assert!(rt; talk.kept.is_some() && talk.offered(&["a"]) && talk.said(&[]) && talk.queues(3));
    assert_eq!(rt; talk.pump(), Ok(Pumped::Went));
    assert!(rt; talk.kept.is_none() && talk.offered(&["a", "a"]) && talk.said(&["x", "y"]));
    Ok(())
}

#[test]
fn a_link_that_fails_ends_the_call_and_the_desk_is_told_once(rt: HostRuntime) -> Result<(), Fail> {
    let mut talk = begin(rt.alloc(), &[1], &[])?;
    assert_eq!(rt; talk.pump(), Err(PumpFault::LinkFault));
    assert!(rt; talk.desk.gone == 1 && talk.offered(&[]) && talk.said(&[]) && talk.queues(3));
    Ok(())
}

#[test]
fn a_text_that_the_link_refused_is_not_said_again(rt: HostRuntime) -> Result<(), Fail> {
    let mut talk = begin(rt.alloc(), &[2], &[])?;
    assert_eq!(rt; talk.pump(), Err(PumpFault::LinkFault));
    assert!(rt; talk.desk.gone == 1 && talk.offered(&["a"]) && talk.said(&[]) && talk.queues(2));
    assert_eq!(rt; talk.pump(), Ok(Pumped::Went));
    assert!(rt; talk.desk.gone == 1 && talk.offered(&["a", "b"]) && talk.said(&["y"]));
    Ok(())
}

#[test]
fn memory_for_a_client_that_has_gone_is_told(rt: HostRuntime) -> Result<(), Fail> {
    let mut talk = begin(rt.alloc(), &[1, 3], &[])?;
    talk.desk.wants_memory = true;
    assert_eq!(rt; talk.pump(), Err(PumpFault::OutOfMemory));
    assert_eq!(rt; talk.pump(), Err(PumpFault::OutOfMemory));
    assert!(rt; talk.desk.gone == 2 && talk.offered(&["a"]) && talk.said(&[]) && talk.queues(2));
    Ok(())
}

#[test]
fn a_connection_ends_once_all_that_was_queued_is_said(rt: HostRuntime) -> Result<(), Fail> {
    let mut talk = begin(rt.alloc(), &[], &[])?;
    talk.desk.over = true;
    assert_eq!(rt; talk.pump(), Ok(Pumped::Ended));
    assert!(rt; talk.desk.gone == 0 && talk.offered(&["a"]) && talk.said(&["x", "y"]));
    Ok(())
}

#[test]
fn a_text_that_is_queued_with_the_end_is_said(rt: HostRuntime) -> Result<(), Fail> {
    let alloc = rt.alloc();
    let mut talk = begin(alloc, &[], &[])?;
    talk.desk.queued_late = Some(Text::new(alloc, "z")?);
    assert_eq!(rt; talk.pump(), Ok(Pumped::Went));
    assert!(rt; talk.said(&["x", "y"]) && talk.queues(1));
    assert_eq!(rt; talk.pump(), Ok(Pumped::Ended));
    assert!(rt; talk.said(&["x", "y", "z"]) && talk.queues(0));
    Ok(())
}
