use cable_base::{ConnNo, NodeNo, RowId};
use channel_book::Book;
use node_core::{Job, Node, Work};
use std::alloc::Global;
use std::test::Fail;

pub const ANN: ConnNo = ConnNo(7);

pub const BOB: ConnNo = ConnNo(9);

const BOOK: &str = r#"{"tokens":{"t1":"ann","t2":"bob"},"channels":[{"name":"Plain"}]}"#;

pub const SUBSCRIBE: &str = r#"{"command":"subscribe","identifier":"{\"channel\":\"Plain\"}"}"#;

pub const WELCOME: &str = r#"{"type":"welcome"}"#;

pub const CONFIRMED: &str =
    r#"{"identifier":"{\"channel\":\"Plain\"}","type":"confirm_subscription"}"#;

/// A node with its book.
#[derive(Drop)]
pub struct Room {
    pub node: Node,
    book: Book,
}

impl Room {
    /// A node on which nobody is.
    pub fn empty(alloc: Global) -> Result<Room, Fail> {
        let book = Book::read(alloc, BOOK)?;
        let node = Node::boot(alloc, NodeNo(1), RowId(0))?;
        Ok(Room { node, book })
    }

    /// A client with this token comes.
    pub fn open(&mut self, conn: ConnNo, token: &str) -> Result<(), Fail> {
        self.node.open_conn(conn, token, &self.book)?;
        Ok(())
    }

    /// Works the first piece that waits, where there is one.
    pub fn work(&mut self) -> bool {
        works(&mut self.node, &self.book)
    }

    /// Whether these are live and not closing.
    pub fn receives(&self, conns: &[ConnNo]) -> bool {
        match self.node.receiving() {
            Ok(found) => found.as_slice() == conns,
            Err(_) => false,
        }
    }
}

fn finishes(node: &mut Node, work: Work) -> bool {
    if !node.fits(&work) {
        work.give_up();
        return false;
    }
    match node.finish(work) {
        Ok(()) => true,
        Err(work) => {
            work.give_up();
            false
        }
    }
}

fn works_job(node: &mut Node, book: &Book, job: Job) -> bool {
    match job.plan(book) {
        Ok(work) => finishes(node, work),
        Err(job) => {
            job.give_up();
            false
        }
    }
}

/// Works the first piece that waits, where there is one.
pub fn works(node: &mut Node, book: &Book) -> bool {
    match node.take_next() {
        Ok(Some(job)) => works_job(node, book, job),
        Ok(None) | Err(_) => false,
    }
}
