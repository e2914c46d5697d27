use cable_base::ConnNo;
use channel_book::Book;
use conn_seat::Out;
use node_core::Node;
use std::alloc::Global;

/// More pieces than wait on any connection.
const MOST_PIECES: u64 = 1_000;

/// Opens a connection with the token of the user of this number.
pub fn opens(node: &mut Node, alloc: Global, book: &Book, conn: ConnNo, user: u64) -> bool {
    match format!(in alloc; "t{user}") {
        Ok(token) => node.open_conn(conn, token.as_str(), book).is_ok(),
        Err(_) => false,
    }
}

/// Works the piece of a connection that waits longest. `false` where none waits.
fn works(node: &mut Node, book: &Book, conn: ConnNo) -> bool {
    let Ok(Some(job)) = node.take(conn) else {
        return false;
    };
    let work = match job.plan(book) {
        Ok(work) => work,
        Err(job) => {
            job.give_up();
            return false;
        }
    };
    if !node.fits(&work) {
        work.give_up();
        return false;
    }
    match node.finish(work) {
        Ok(()) => true,
        Err(work) => {
            work.give_up();
            false
        }
    }
}

/// Works all that waits on a connection.
pub fn work_off(node: &mut Node, book: &Book, conn: ConnNo) {
    for _ in 0..MOST_PIECES {
        if !works(node, book, conn) {
            return;
        }
    }
}

/// Works all that waits on these connections, which are numbered from 1.
pub fn work_all(node: &mut Node, book: &Book, conns: u64) {
    for number in 1..=conns {
        work_off(node, book, ConnNo(number));
    }
}

/// How many texts are queued on a connection, which are taken out.
pub fn count_texts(node: &mut Node, conn: ConnNo) -> u64 {
    for count in 0..u64::MAX {
        match node.take_out(conn) {
            Some(Out::Text(_) | Out::Note(_)) => {}
            None => return count,
        }
    }
    u64::MAX
}

/// How many texts are queued on so many connections from this number on, which are taken out.
pub fn count_all(node: &mut Node, first: u64, conns: u64) -> u64 {
    let mut count: u64 = 0;
    for number in first..first.saturating_add(conns) {
        count = count.saturating_add(count_texts(node, ConnNo(number)));
    }
    count
}
