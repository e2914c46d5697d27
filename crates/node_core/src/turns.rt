ghost use Rattle.std.specs.Prelude.{◌≡◌, ◌≤◌, ◌+◌, ◌∷◌, ◌++◌, [], suc, true, false, cond, length, not, None, Some, is_some, IfOk, IfErr, OnOk, OnErr, IsOk};
ghost use Rattle.cable_model.specs.Possible.{is_out, last_turn};
ghost use Rattle.cable_model.specs.Steps.{Step};
ghost use Rattle.node_turns.specs.Holding.{AreNew, placings_of, rows_bring, with_placings};
ghost use Rattle.node_seats.specs.Turned.{HasRoomFor, Roomier};
ghost use Rattle.poll_turn.specs.Turns.{TurnState};
ghost use Rattle.node_turns.specs.Wants.{confirms_of};
ghost use Rattle.node_core.specs.Nodes.{GoesOn, past, ReadsSame};
ghost use Rattle.node_core.specs.Serving.{conns_of, ListsOnce};
ghost use Rattle.node_core.specs.Turned.{IsNextTurn, is_expected};
ghost use Rattle.poll_turn.specs.Notes.{note_in};

use crate::nodes::Node;
use crate::serving::{conns_of, refresh_all};
use cable_base::{ConnNo, Listed, OutOfMemory, Row, Steps};
use cable_model::{Beside, Entry, ReadNote};
use node_seats::{Delivery, Seats, Wanted};
use node_turns::{add_confirms, add_rows, hold_all, placings};
use poll_turn::{Caught, Turn};
use run_queue::Ready;
use std::alloc::Global;
use std::sync::ledger::Ledger;
use subscriber_map::SubscriberMap;

/// A list with copies of these rows.
fn copied_rows(alloc: Global, rows: &[Row]) -> Result<Listed<Row>, OutOfMemory>
    ensures { IfOk result (λ rs. rs ≡ rows.now) }
{
    let mut copies = Vec::new(alloc);
    for row in rows {
        copies.push(row.copy(alloc)?)?;
    }
    Ok(Listed::of(copies))
}

/// What was caught as a note, where these are its rows.
fn note_with(caught: &Caught, rows: Listed<Row>) -> ReadNote
    requires { rows ≡ caught.now.rows }
    ensures { result ≡ note_in caught.now }
{
    ReadNote {
        failed: caught.is_missed(),
        lower: caught.lower(),
        upto: caught.upto(),
        last: caught.last(),
        rows,
    }
}

/// What a turn that isn't missed brings: its note, the pieces that it puts, and the connections that these are for, each once.
#[derive(Debug, Drop)]
struct Brought {
    note: ReadNote,
    deliveries: Vec<Delivery>,
    conns: Vec<ConnNo>,
}

/// What a turn that isn't missed brings. Room is made for it, and the wants that the turn took are held.
fn bring<L: Ledger>(
    alloc: Global,
    caught: &Caught,
    taken: &[Wanted],
    seats: &mut Seats,
    holders: &mut SubscriberMap,
    ready: &mut Ready,
    steps: &mut Steps<L>,
) -> Result<Brought, OutOfMemory>
    requires new { AreNew (placings_of seats.old.entries caught.now.last taken.now) holders.old }
    ensures note { IfOk result (λ b. b.note ≡ note_in caught.now) }
    ensures pieces { IfOk result (λ b. b.deliveries.items ≡ rows_bring holders.old caught.now.rows ++ confirms_of seats.old.entries taken.now) }
    ensures seats { Roomier seats.old.entries seats.new.entries }
    ensures outs { seats.new.outs ≡ seats.old.outs }
    ensures room { IfOk result (λ b. HasRoomFor b.deliveries.items seats.new.entries) }
    ensures held { OnOk result (holders.new ≡ with_placings (placings_of seats.old.entries caught.now.last taken.now) holders.old) }
    ensures err { OnErr result (holders.new ≡ holders.old) }
    ensures conns { IfOk result (λ b. ListsOnce (conns_of b.deliveries.items) b.conns.items) }
    ensures ready { ready.new.waiting ≡ ready.old.waiting }
    ensures ready_room { IfOk result (λ b. length b.conns.items ≤ ready.new.spare) }
    ensures steps { (steps.old ≤ steps.new) × (steps.new ≤ steps.old + length caught.now.rows) }
{
    let note = note_with(caught, copied_rows(alloc, caught.rows())?);
    let mut deliveries = Vec::new(alloc);
    add_rows(&mut deliveries, alloc, holders, caught.rows(), steps)?;
    add_confirms(&mut deliveries, taken, seats)?;
    let placed = placings(alloc, taken, seats, caught.last())?;
    let conns = conns_of(alloc, &deliveries)?;
    ready.reserve(conns.len() as u64)?;
    seats.reserve_all(alloc, &deliveries)?;
    hold_all(holders, &placed)?;
    Ok(Brought {
        note,
        deliveries,
        conns,
    })
}

impl Node {
    /// Asks the next turn, with the hashes of the names that are held. It takes the wants that no turn took. `None` comes exactly where a
    /// turn is out, and then nothing changes.
    pub fn ask(&mut self) -> Result<Option<Turn>, OutOfMemory>
        ensures no { self.new.no ≡ self.old.no }
        ensures answer { IfOk result (λ t. is_some t ≡ not (is_out (past self.old))) }
        ensures none { IfOk result (λ t. t ≡ None → ReadsSame self.old self.new) }
        ensures ok { IfOk result (λ t. past self.new ≡ cond (is_some t) (Step.Ask (suc (last_turn (past self.old))) ∷ past self.old) (past self.old)) }
        ensures turn { IfOk result (λ o. (t : TurnState) → o ≡ Some t → IsNextTurn t self.old) }
        ensures goes { GoesOn self.old self.new }
        ensures err { OnErr result (ReadsSame self.old self.new) }
    {
        if self.cursor.is_out() {
            return Ok(None);
        }
        if self.cursor.turns() == u64::MAX {
            return Err(OutOfMemory);
        }
        let hashes = self.holders.hashes(self.alloc)?;
        self.journal.reserve()?;
        let turn = self.cursor.ask(self.no, hashes);
        self.wants.take_all();
        let number = self.cursor.turns();
        self.journal
            .enter(Entry::Ask { turn: number }, Beside::Nothing);
        Ok(turn)
    }

    /// Whether this was caught for the turn of the node that is out, so that it can be delivered. It takes no memory.
    pub fn expects(&self, caught: &Caught) -> bool
        ensures { result ≡ is_expected caught.now self.now }
    {
        self.cursor.is_out()
            && caught.node() == self.no
            && caught.number() == self.cursor.turns()
            && caught.lower() == self.cursor.lower()
    }

    /// Delivers what the turn that is out caught. Of a turn that was missed nothing comes but that it ends, and it takes no memory. Else each
    /// row is put for the holds of its name whose mark is below its id, then the wants that the turn took and that stand are held, with
    /// the table's last id at the read as their mark, and then their confirmations are put. A row's name is looked up once at most, whatever
    /// its holds. What was caught comes back where memory is wanted, and then all is as before.
    pub fn deliver<L: Ledger>(&mut self, caught: Caught, steps: &mut Steps<L>) -> Result<(), Caught>
        requires { is_expected caught self.old ≡ true }
        ensures no { self.new.no ≡ self.old.no }
        ensures ok { OnOk result (past self.new ≡ Step.Deliver caught.number (note_in caught) ∷ past self.old) }
        ensures goes { GoesOn self.old self.new }
        ensures missed { caught.is_missed ≡ true → IsOk result }
        ensures steps { (steps.old ≤ steps.new) × (steps.new ≤ steps.old + length caught.rows) }
        ensures token { IfErr result (λ k. k ≡ caught) }
        ensures err { OnErr result (ReadsSame self.old self.new) }
    {
        if caught.is_missed() {
            self.miss(caught);
            return Ok(());
        }
        self.bring_in(caught, steps)
    }

    /// Ends the turn that is out, which was missed.
    fn miss(&mut self, caught: Caught)
        requires expected { is_expected caught self.old ≡ true }
        requires missed { caught.is_missed ≡ true }
        ensures no { self.new.no ≡ self.old.no }
        ensures ok { past self.new ≡ Step.Deliver caught.number (note_in caught) ∷ past self.old }
        ensures goes { GoesOn self.old self.new }
    {
        let turn = caught.number();
        let note = note_with(&caught, Listed::empty(self.alloc));
        self.wants.give_back();
        self.cursor.close(caught);
        self.journal
            .enter(Entry::Deliver { turn, note }, Beside::Nothing);
    }

    /// Delivers what the turn that is out found.
    fn bring_in<L: Ledger>(&mut self, caught: Caught, steps: &mut Steps<L>) -> Result<(), Caught>
        requires expected { is_expected caught self.old ≡ true }
        requires found { caught.is_missed ≡ false }
        ensures no { self.new.no ≡ self.old.no }
        ensures ok { OnOk result (past self.new ≡ Step.Deliver caught.number (note_in caught) ∷ past self.old) }
        ensures goes { GoesOn self.old self.new }
        ensures steps { (steps.old ≤ steps.new) × (steps.new ≤ steps.old + length caught.rows) }
        ensures token { IfErr result (λ k. k ≡ caught) }
        ensures err { OnErr result (ReadsSame self.old self.new) }
    {
        let Ok(brought) = bring(
            self.alloc,
            &caught,
            self.wants.taken(),
            &mut self.seats,
            &mut self.holders,
            &mut self.ready,
            steps,
        ) else {
            return Err(caught);
        };
        let Brought {
            note,
            deliveries,
            conns,
        } = brought;
        // From here on nothing can fail: `bring` made the room.
        let turn = caught.number();
        self.seats.place_all(self.wants.taken(), caught.last());
        self.seats.put_all(deliveries);
        refresh_all(&mut self.ready, &self.seats, &conns);
        self.cursor.close(caught);
        self.wants.drop_taken();
        self.journal
            .enter(Entry::Deliver { turn, note }, Beside::Nothing);
        Ok(())
    }
}
