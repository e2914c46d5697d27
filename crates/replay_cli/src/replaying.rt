ghost use Rattle.std.specs.Prelude.{◌≡◌, ◌≤◌, ◌++◌, ◌∷◌, ℕ, List, [], position, MatchOption, OnOk};
ghost use Rattle.cable_model.specs.Breaks.{GoodLines, IsBegun};
ghost use Rattle.cable_model.specs.Script.{HasNoFeed};
ghost use Rattle.replay_cli.specs.Begun.{IsCut, Extends, EndsLine};
ghost use Rattle.replay_cli.specs.Inputs.{reading_of};
ghost use Rattle.replay_cli.specs.Outputs.{writing_of};
ghost use Rattle.replay_cli.specs.Replay.{HandsOut};
ghost use Rattle.replay_cli.specs.Stages.{IsAt};
ghost use Rattle.replay_cli.specs.Reading.{is_feed, HasRead, Flushes, PieceDoes, ReadDoes, EndDoes};

use crate::modes::Mode;
use crate::outputs::write_all;
use crate::printing::tail_text;
use crate::stages::{Stage, Work, take_line};
use cable_base::{Failed, MOST_LINE, MOST_SCRIPT, Sink, Source, Trouble};
use cable_model::{BreakReason, Status};
use node_world::World;
use std::alloc::Global;

/// How many bytes are asked for at a time, and at how many what is to be written goes out.
const PIECE: usize = 65_536;

/// A script that is replayed while its bytes come.
#[derive(Debug, Drop)]
pub struct Replaying {
    mode: Mode,
    stage: Stage,
    /// The bytes of the line that has begun.
    line: Vec<u8>,
    /// What is still to be written.
    out: Vec<u8>,
}

fn feed_at(bytes: &[u8]) -> Option<usize>
    ensures { result ≡ position is_feed bytes.now }
{
    bytes.iter().position(|b| *b == b'\n')
}

/// The bytes before the first line feed, and those behind it.
fn first_line(bytes: &[u8]) -> Option<(&[u8], &[u8])>
    ensures { MatchOption result (HasNoFeed bytes.now) (λ p. IsCut bytes.now p.0.now p.1.now) }
{
    let at = feed_at(bytes)?;
    Some((&bytes[..at], &bytes[at + 1..]))
}

impl Replaying {
    /// Nothing has come.
    pub fn begin(alloc: Global, mode: Mode) -> Replaying
        ensures mode { result.mode ≡ mode }
        ensures read { HasRead [] [] result }
    {
        Replaying {
            mode,
            stage: Stage::Header,
            line: Vec::new(alloc),
            out: Vec::new(alloc),
        }
    }

    /// Puts further bytes behind the line that has begun.
    fn extend_line(&mut self, bytes: &[u8]) -> Result<(), Status>
        requires { IsBegun self.old.line.items }
        ensures { Extends bytes.now self.old self.new result }
    {
        if MOST_LINE - self.line.len() < bytes.len() {
            return Err(Status::TooLong {
                line: self.stage.next_number(),
            });
        }
        self.line.extend_from_slice(bytes)?;
        Ok(())
    }

    /// The line that has begun is whole.
    fn end_line(&mut self, alloc: Global) -> Result<(), Status>
        requires { IsBegun self.old.line.items }
        ensures mode { self.new.mode ≡ self.old.mode }
        ensures works { EndsLine self.old self.new result }
        ensures clears { OnOk result (self.new.line.items ≡ []) }
    {
        take_line(alloc, self.mode, &mut self.stage, &self.line, &mut self.out)?;
        self.line.clear();
        Ok(())
    }

    /// Writes what is still to be written.
    pub fn flush<K: Sink>(&mut self, sink: &mut K) -> Result<(), Status>
        ensures faults { K.faults sink.old ≤ K.faults sink.new }
        ensures mode { self.new.mode ≡ self.old.mode }
        ensures wrote { Flushes (writing_of K.taken K.faults sink.old sink.new) self.old self.new result }
    {
        match write_all(sink, &self.out) {
            Ok(()) => {
                self.out.clear();
                Ok(())
            }
            Err(Trouble::Failed) => Err(Status::WriteFault),
            Err(Trouble::OutOfMemory) => Err(Status::OutOfMemory),
        }
    }

    /// Takes a whole line's last bytes, works it, and writes where enough has come together.
    fn take_whole<K: Sink>(
        &mut self,
        alloc: Global,
        bytes: &[u8],
        sink: &mut K,
    ) -> Result<(), Status>
        requires begun { IsBegun self.old.line.items }
        requires one { HasNoFeed bytes.now }
        ensures faults { K.faults sink.old ≤ K.faults sink.new }
        ensures mode { self.new.mode ≡ self.old.mode }
        ensures clears { OnOk result (self.new.line.items ≡ []) }
        ensures takes { (given taken : List ℕ) → HasRead given taken self.old
            → PieceDoes self.old.mode given taken (bytes.now ++ 10 ∷ []) (writing_of K.taken K.faults sink.old sink.new) self.new result }
    {
        self.extend_line(bytes)?;
        self.end_line(alloc)?;
        if self.out.len() < PIECE {
            return Ok(());
        }
        self.flush(sink)
    }

    /// Takes a piece of the script: works each line that becomes whole, and keeps the one that has begun.
    fn take_piece<K: Sink>(
        &mut self,
        alloc: Global,
        piece: &[u8],
        sink: &mut K,
    ) -> Result<(), Status>
        requires { IsBegun self.old.line.items }
        ensures faults { K.faults sink.old ≤ K.faults sink.new }
        ensures mode { self.new.mode ≡ self.old.mode }
        ensures takes { (given taken : List ℕ) → HasRead given taken self.old
            → PieceDoes self.old.mode given taken piece.now (writing_of K.taken K.faults sink.old sink.new) self.new result }
    {
        let mut rest = piece;
        while let Some((front, behind)) = first_line(rest) {
            self.take_whole(alloc, front, sink)?;
            rest = behind;
        }
        self.extend_line(rest)
    }

    /// Reads the source to its end, and works its lines. Before each read all is written that is to be written.
    pub fn read_all<S: Source, K: Sink>(
        &mut self,
        alloc: Global,
        source: &mut S,
        sink: &mut K,
    ) -> Result<(), Status>
        requires { HasRead [] [] self.old }
        ensures faults { K.faults sink.old ≤ K.faults sink.new }
        ensures mode { self.new.mode ≡ self.old.mode }
        ensures reads { ReadDoes self.old.mode (reading_of S.left S.ends S.faults source.old source.new) (writing_of K.taken K.faults sink.old sink.new) self.new result }
    {
        let mut buffer = [0u8; PIECE];
        let mut given = 0;
        // Each turn but the last takes a byte or more.
        for _ in 0..=MOST_SCRIPT {
            self.flush(sink)?;
            let count = match source.next_piece(&mut buffer) {
                Ok(count) => count,
                Err(Failed) => return Err(Status::ReadFault),
            };
            if count == 0 {
                return Ok(());
            }
            if MOST_SCRIPT - given < count {
                return Err(Status::TooMuch);
            }
            given += count;
            self.take_piece(alloc, &buffer[..count], sink)?;
        }
        unreachable!()
    }

    /// Nothing comes behind the bytes that came: puts what stands behind a whole script's lines to what is to be written.
    pub fn end(&mut self, alloc: Global) -> Result<(), Status>
        ensures mode { self.new.mode ≡ self.old.mode }
        ensures ends { (given taken : List ℕ) → HasRead given taken self.old → EndDoes given taken self.new result }
    {
        if !self.line.is_empty() {
            return Err(Status::Unended);
        }
        let (line, reason) = match &self.stage {
            Stage::Header => (1, BreakReason::NoHeader),
            Stage::Book => (2, BreakReason::NoBook),
            Stage::Lines { work, .. } => {
                if let Work::Run { tally, .. } = work {
                    let tail = tail_text(alloc, self.mode, tally)?;
                    self.out.extend_from_slice(tail.as_str().as_bytes())?;
                }
                return Ok(());
            }
        };
        Err(Status::BadScript { line, reason })
    }

    /// The world in which the lines were run, where a book was read.
    pub fn into_world(self) -> Option<World>
        ensures { (lines : GoodLines) → IsAt self.mode lines self.stage → HandsOut self.mode lines result }
    {
        let Replaying { stage, .. } = self;
        match stage {
            Stage::Lines {
                work: Work::Run { world, .. },
                ..
            } => Some(world),
            _ => None,
        }
    }
}
