use cable_base::{ConnNo, Millis, RowId};
use cable_model::{Entry, Note};
use channel_book::Book;
use conn_seat::Out;
use node_core::{ArriveFault, Job, Node, OpenFault, Work};
use std::alloc::Global;

/// A call of a node, with what it has to answer.
pub enum Act {
    /// Opens a connection with a token.
    Opens(ConnNo, &'static str),
    CannotOpen(ConnNo, OpenFault),
    /// Puts a text.
    Hears(ConnNo, &'static str),
    CannotHear(ConnNo, ArriveFault),
    /// The client goes. Whether there was something to close.
    Goes(ConnNo, bool),
    Stops,
    Beats(u64),
    /// This text was queued first, and is taken out.
    Says(ConnNo, &'static str),
    /// This note was queued first, and is taken out.
    Notes(ConnNo, Note),
    IsSilent(ConnNo),
    IsOver(ConnNo, bool),
    /// Forgets a connection, where it may be forgotten.
    Forgets(ConnNo, bool),
    /// Lets the log begin again, where it may. Where none is stored it always may, and nothing happens.
    Resets(bool),
    /// The log begins with the boot behind this row, and has so many entries. Where none is stored it is empty.
    Logs(RowId, u64),
    /// Opens as many connections as are live at most.
    OpensAll,
    /// Puts as many texts as may wait.
    HearsAll(ConnNo),
    /// Puts a text of 65,537 bytes.
    CannotHearLong(ConnNo, ArriveFault),
    /// The connection that a beat pings, and no other.
    Receives(ConnNo),
    /// The connection that is ready longest.
    IsReady(Option<ConnNo>),
    /// Takes the next piece, one of this connection, and leaves it out.
    Takes(ConnNo),
    /// Takes the next piece, one of this connection, and works it.
    Works(ConnNo),
    /// Takes the piece of this connection of ann, plans it, and lets its work go.
    Plans(ConnNo),
    /// There is no piece of this connection to take.
    HasNone(ConnNo),
    /// There is no piece to take.
    IsIdle,
}

/// Opens 1,000 connections.
fn opens_all(node: &mut Node, book: &Book) -> bool {
    for number in 0..1_000 {
        if node.open_conn(ConnNo(number), "t1", book).is_err() {
            return false;
        }
    }
    true
}

/// Puts 256 texts.
fn hears_all(node: &mut Node, conn: ConnNo) -> bool {
    for _ in 0..256 {
        if node.arrive(conn, "{}").is_err() {
            return false;
        }
    }
    true
}

fn cannot_hear_long(node: &mut Node, alloc: Global, conn: ConnNo, why: ArriveFault) -> bool {
    match "x".repeat(alloc, 65_537) {
        Ok(long) => node.arrive(conn, long.as_str()) == Err(why),
        Err(_) => false,
    }
}

/// Whether the connections that a beat pings are just this one.
fn receives(node: &Node, conn: ConnNo) -> bool {
    match node.receiving() {
        Ok(conns) => conns.as_slice() == [conn].as_slice(),
        Err(_) => false,
    }
}

fn logs(node: &Node, stores: bool, last: RowId, entries: u64) -> bool {
    if !stores {
        return node.log().is_empty() && node.log_len() == 0;
    }
    node.log().first() == Some(&Entry::Boot { last }) && node.log_len() == entries
}

/// Whether the work is the connection's, and broadcasts nothing. It is let go.
fn is_quiet(work: Work, conn: ConnNo) -> bool {
    let is_quiet = work.conn() == conn && work.next_cast().is_none();
    work.give_up();
    is_quiet
}

/// Plans the job of a connection of ann, and lets its work go.
fn plans_job(job: Job, book: &Book, conn: ConnNo) -> bool {
    if job.user() != "ann" || job.conn() != conn {
        job.give_up();
        return false;
    }
    match job.plan(book) {
        Ok(work) => is_quiet(work, conn),
        Err(job) => {
            job.give_up();
            false
        }
    }
}

fn plans(node: &mut Node, book: &Book, conn: ConnNo) -> bool {
    match node.take(conn) {
        Ok(Some(job)) => plans_job(job, book, conn),
        Ok(None) | Err(_) => false,
    }
}

/// Whether there is no piece of this connection to take.
fn has_none(node: &mut Node, conn: ConnNo) -> bool {
    match node.take(conn) {
        Ok(None) => true,
        Ok(Some(job)) => {
            job.give_up();
            false
        }
        Err(_) => false,
    }
}

/// Whether this text was queued first.
fn says(node: &mut Node, conn: ConnNo, text: &str) -> bool {
    match node.take_out(conn) {
        Some(Out::Text(said)) => said.as_str() == text,
        Some(Out::Note(_)) | None => false,
    }
}

/// Whether this note was queued first.
fn notes(node: &mut Node, conn: ConnNo, note: Note) -> bool {
    match node.take_out(conn) {
        Some(Out::Note(noted)) => noted == note,
        Some(Out::Text(_)) | None => false,
    }
}

/// Forgets the connection, where it may be forgotten.
fn forgets(node: &mut Node, conn: ConnNo) -> bool {
    if !node.may_forget(conn) {
        return false;
    }
    node.forget(conn);
    true
}

/// Lets the log begin again, where it may.
fn resets(node: &mut Node) -> bool {
    if !node.may_reset() {
        return false;
    }
    node.reset_log();
    true
}

/// Whether there is no piece to take.
fn is_idle(node: &mut Node) -> bool {
    match node.take_next() {
        Ok(None) => true,
        Ok(Some(job)) => {
            job.give_up();
            false
        }
        Err(_) => false,
    }
}

/// Takes the next piece.
fn next(node: &mut Node) -> Option<Job> {
    match node.take_next() {
        Ok(next) => next,
        Err(_) => None,
    }
}

/// Whether there is a job, of this connection. It is let go.
fn is_of(job: Option<Job>, conn: ConnNo) -> bool {
    match job {
        Some(job) => {
            let is_its = job.conn() == conn;
            job.give_up();
            is_its
        }
        None => false,
    }
}

/// Plans a job, which broadcasts nothing, and finishes its work.
fn ends(node: &mut Node, job: Job, book: &Book) -> bool {
    let work = match job.plan(book) {
        Ok(work) => work,
        Err(job) => {
            job.give_up();
            return false;
        }
    };
    if !node.fits(&work) {
        work.give_up();
        return false;
    }
    match node.finish(work) {
        Ok(()) => true,
        Err(work) => {
            work.give_up();
            false
        }
    }
}

/// Works the next piece, where it is one of this connection.
fn works(node: &mut Node, book: &Book, conn: ConnNo) -> bool {
    if node.next_ready() != Some(conn) {
        return false;
    }
    match next(node) {
        Some(job) => ends(node, job, book),
        None => false,
    }
}

/// Makes a call of a node that stores its log or doesn't, and tells whether it answers what it has to.
fn does(node: &mut Node, stores: bool, alloc: Global, book: &Book, act: &Act) -> bool {
    match act {
        Act::Opens(conn, token) => node.open_conn(*conn, token, book).is_ok(),
        Act::CannotOpen(conn, why) => node.open_conn(*conn, "t1", book) == Err(*why),
        Act::Hears(conn, text) => node.arrive(*conn, text).is_ok(),
        Act::CannotHear(conn, why) => node.arrive(*conn, "{}") == Err(*why),
        Act::Goes(conn, closes) => node.gone(*conn) == Ok(*closes),
        Act::Stops => node.stop().is_ok(),
        Act::Beats(now) => node.beat(Millis(*now)).is_ok(),
        Act::Says(conn, text) => says(node, *conn, text),
        Act::Notes(conn, note) => notes(node, *conn, *note),
        Act::IsSilent(conn) => node.take_out(*conn).is_none(),
        Act::IsOver(conn, over) => node.is_over(*conn) == *over,
        Act::Forgets(conn, done) => forgets(node, *conn) == *done,
        Act::Resets(done) => resets(node) == (*done || !stores),
        Act::Logs(last, entries) => logs(node, stores, *last, *entries),
        Act::OpensAll => opens_all(node, book),
        Act::HearsAll(conn) => hears_all(node, *conn),
        Act::CannotHearLong(conn, why) => cannot_hear_long(node, alloc, *conn, *why),
        Act::Receives(conn) => receives(node, *conn),
        Act::IsReady(conn) => node.next_ready() == *conn,
        Act::Takes(conn) => is_of(next(node), *conn),
        Act::Works(conn) => works(node, book, *conn),
        Act::Plans(conn) => plans(node, book, *conn),
        Act::HasNone(conn) => has_none(node, *conn),
        Act::IsIdle => is_idle(node),
    }
}

/// The place of the first call that answers something else, on a node that stores its log or doesn't.
pub fn first_fault(
    node: &mut Node,
    stores: bool,
    alloc: Global,
    book: &Book,
    acts: &[Act],
) -> Option<usize> {
    for (place, act) in acts.iter().enumerate() {
        if !does(node, stores, alloc, book, act) {
            return Some(place);
        }
    }
    None
}
