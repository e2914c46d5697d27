ghost use Rattle.std.specs.Prelude.{◌≡◌, IfOk};
ghost use Rattle.cable_model.specs.Script.{rules_of};
ghost use Rattle.cable_model.specs.History.{start};
ghost use Rattle.node_world.specs.Parts.{held, FollowsWorld, FollowsSome};
ghost use Rattle.node_world.specs.Steps.{StepsIn, IsPlayed};

use crate::outstanding::{OutWork, TurnOut};
use crate::saying::Said;
use cable_base::{NodeNo, OutOfMemory};
use cable_model::Event;
use channel_book::Book;
use node_core::Node;
use std::alloc::Global;
use std::collections::BTreeMap;
use table_core::{MemKeeper, Table};

/// A booted node, and the turn of its listener.
#[derive(Debug, Drop)]
pub struct Post {
    pub node: Node,
    pub turn: TurnOut,
}

/// A connection that was opened: on which node, and the work of its job that is out.
#[derive(Debug, Drop)]
pub struct Opened {
    pub node: NodeNo,
    pub work: Option<OutWork>,
}

/// What a world is made of.
#[derive(Debug, Drop)]
pub struct Parts {
    pub book: Book,
    /// By the numbers of the nodes.
    pub posts: BTreeMap<u32, Post>,
    /// By the numbers of the connections.
    pub conns: BTreeMap<u64, Opened>,
    pub table: Table<MemKeeper>,
}

impl Parts {
    /// No node is booted, no connection was opened, and the table is empty.
    pub fn begin(alloc: Global, book: Book) -> Result<Parts, OutOfMemory>
        ensures book { IfOk result (λ p. p.book ≡ book) }
        ensures follows { IfOk result (λ p. FollowsWorld (rules_of book) (held p) start) }
    {
        let Ok(table) = Table::start(alloc, MemKeeper::empty(alloc)) else {
            return Err(OutOfMemory);
        };
        Ok(Parts {
            book,
            posts: BTreeMap::new(alloc),
            conns: BTreeMap::new(alloc),
            table,
        })
    }

    /// Steps one event.
    pub fn step(&mut self, alloc: Global, event: &Event) -> Result<Said, OutOfMemory>
        requires stands { FollowsSome (rules_of self.old.book) (held self.old) }
        requires played { IsPlayed event.now }
        ensures steps { IfOk result (λ s. StepsIn (rules_of self.old.book) event.now (held self.old) s (held self.new)) }
        ensures book { self.new.book ≡ self.old.book }
    {
        match event {
            Event::Boot { node } => self.boot(alloc, *node),
            Event::Open { node, conn, token } => self.open(alloc, *node, *conn, token.as_str()),
            Event::In { conn, text } => self.arrive(alloc, *conn, text.as_str()),
            Event::Drop { conn } => self.leave(alloc, *conn),
            Event::Stop { node } => self.stop(alloc, *node),
            Event::Take { conn } => self.take(alloc, *conn),
            Event::Put { conn, at } => self.put(alloc, *conn, *at),
            Event::Finish { conn } => self.finish(alloc, *conn),
            Event::Cast {
                at,
                channel,
                payload,
            } => self.cast(alloc, *at, channel.as_str(), payload.as_str()),
            Event::Trim {
                now,
                retention,
                batch,
            } => self.trim(alloc, *now, *retention, *batch),
            Event::Ask { node } => self.ask(alloc, *node),
            Event::Read { node } => self.read(alloc, *node),
            Event::Deliver { node } => self.deliver(alloc, *node),
            Event::Beat { node, now } => self.beat(alloc, *node, *now),
            Event::Fault => Ok(self.fault(alloc)),
        }
    }
}
