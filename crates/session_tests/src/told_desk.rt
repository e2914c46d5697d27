use cable_base::{ConnNo, OutOfMemory, Text};
use channel_book::Callbacks;
use conn_seat::Out;
use node_core::{ArriveFault, Desk, Job, OpenFault, Work};
use std::alloc::Global;
use std::collections::VecDeque;

/// A desk that answers as it is told, and tells what it was asked.
#[derive(Drop)]
pub struct ToldDesk {
    alloc: Global,
    /// What the next texts are refused for, first come first. A text behind these is taken.
    pub refusals: VecDeque<ArriveFault>,
    /// The texts that were offered, in order.
    pub offered: Vec<Text>,
    /// Whether memory is wanted where a client goes.
    pub wants_memory: bool,
    /// How often it was told that the client has gone.
    pub gone: u64,
    /// What is queued.
    pub queued: VecDeque<Out>,
    /// What is queued as soon as it answered that nothing is, together with the end of the connection.
    pub queued_late: Option<Text>,
    /// Whether the connection is over.
    pub over: bool,
}

impl ToldDesk {
    /// A desk that takes all, and has nothing queued.
    pub fn new(alloc: Global) -> ToldDesk {
        ToldDesk {
            alloc,
            refusals: VecDeque::new(alloc),
            offered: Vec::new(alloc),
            wants_memory: false,
            gone: 0,
            queued: VecDeque::new(alloc),
            queued_late: None,
            over: false,
        }
    }

    /// Queues a text.
    pub fn queue(&mut self, text: &str) -> Result<(), OutOfMemory> {
        let text = Text::new(self.alloc, text)?;
        self.queued.push_back(Out::Text(text))?;
        Ok(())
    }

    /// Notes a text that was offered.
    fn note(&mut self, text: &str) -> Result<(), OutOfMemory> {
        let text = Text::new(self.alloc, text)?;
        self.offered.push(text)?;
        Ok(())
    }

    /// Queues what is queued late, and ends the connection.
    fn end_late(&mut self) {
        if let Some(text) = self.queued_late.take() {
            self.over = true;
            let _ = self.queued.push_back(Out::Text(text));
        }
    }
}

impl Desk for ToldDesk {
    ghost opens = { λ old conn token user result new. Unit {0} };

    ghost arrives = { λ old conn text result new. Unit {0} };

    ghost goes = { λ old conn result new. Unit {0} };

    ghost takes = { λ old result new. Unit {0} };

    ghost finishes = { λ old work result new. Unit {0} };

    ghost takes_out = { λ old conn result new. Unit {0} };

    ghost tells_over = { λ n conn answer. Unit {0} };

    ghost forgets = { λ old conn new. Unit {0} };

    fn open_conn<C: Callbacks>(
        &mut self,
        _conn: ConnNo,
        _token: &str,
        _callbacks: &C,
    ) -> Result<(), OpenFault> {
        Ok(())
    }

    fn arrive(&mut self, _conn: ConnNo, text: &str) -> Result<(), ArriveFault> {
        if self.note(text).is_err() {
            return Err(ArriveFault::OutOfMemory);
        }
        match self.refusals.pop_front() {
            Some(refusal) => Err(refusal),
            None => Ok(()),
        }
    }

    fn gone(&mut self, _conn: ConnNo) -> Result<bool, OutOfMemory> {
        self.gone = self.gone.saturating_add(1);
        if self.wants_memory {
            return Err(OutOfMemory);
        }
        Ok(true)
    }

    fn take_next(&mut self) -> Result<Option<Job>, OutOfMemory> {
        Ok(None)
    }

    fn finish(&mut self, work: Work) -> Result<(), Work> {
        work.give_up();
        Ok(())
    }

    fn take_out(&mut self, _conn: ConnNo) -> Option<Out> {
        let out = self.queued.pop_front();
        if out.is_none() {
            self.end_late();
        }
        out
    }

    fn is_over(&self, _conn: ConnNo) -> bool {
        self.over
    }

    fn forget(&mut self, _conn: ConnNo) {}
}
