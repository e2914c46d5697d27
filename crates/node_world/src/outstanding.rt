ghost use Rattle.std.specs.Prelude.{◌≡◌};

use node_core::Work;
use poll_turn::{Caught, Turn};

/// The work of a job that is out. Where the world ends before it is finished, it is let go.
#[derive(Debug)]
pub struct OutWork {
    pub work: Work,
}

impl OutWork {
    /// The work, to be finished.
    pub fn into_work(self) -> Work
        ensures { result ≡ self.work }
    {
        let OutWork { work } = self;
        work
    }
}

impl Drop for OutWork {
    fn drop(self) {
        let OutWork { work } = self;
        work.give_up();
    }
}

/// A turn that is asked and not read. Where the world ends before that, it is let go.
#[derive(Debug)]
pub struct OutTurn {
    pub turn: Turn,
}

impl OutTurn {
    /// The turn, to be read.
    pub fn into_turn(self) -> Turn
        ensures { result ≡ self.turn }
    {
        let OutTurn { turn } = self;
        turn
    }
}

impl Drop for OutTurn {
    fn drop(self) {
        let OutTurn { turn } = self;
        turn.give_up();
    }
}

/// What a turn caught that isn't delivered. Where the world ends before that, it is let go.
#[derive(Debug)]
pub struct OutCaught {
    pub caught: Caught,
}

impl OutCaught {
    /// What was caught, to be delivered.
    pub fn into_caught(self) -> Caught
        ensures { result ≡ self.caught }
    {
        let OutCaught { caught } = self;
        caught
    }
}

impl Drop for OutCaught {
    fn drop(self) {
        let OutCaught { caught } = self;
        caught.give_up();
    }
}

/// The turn of the node's listener.
#[derive(Debug, Drop)]
pub enum TurnOut {
    None,
    Asked(OutTurn),
    Read(OutCaught),
}
