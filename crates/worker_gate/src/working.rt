ghost use Rattle.std.specs.Prelude.{◌≡◌, ◌<◌, [], IfOk, OnErr, OnOk, Err};
ghost use Rattle.cable_model.specs.Limits.{CanBeRow};
ghost use Rattle.table_core.specs.Keepers.{moment_limit};
ghost use Rattle.worker_gate.specs.Working.{Commits, CommitsCast, CommitsFirst, EndsWork, WantsMemory, WorksOnce, with_puts};

use crate::gates::Gate;
use cable_base::{ConnNo, Millis, OutOfMemory, RowId};
use cable_model::Origin;
use channel_book::{Callbacks, Cast};
use node_core::{Desk, Work};
use table_core::{Store, StoreFault};

/// Commits a cast for a connection, and answers what is to be noted of it: its row's id, or nothing where it was refused.
fn commit_cast<S: Store>(
    store: &mut S,
    conn: ConnNo,
    cast: &Cast,
    at: Millis,
) -> Result<Option<RowId>, OutOfMemory>
    requires row { CanBeRow cast.now.channel cast.now.payload }
    requires moment { at.0 < moment_limit }
    ensures ok { IfOk result (λ id. CommitsCast S.commits conn at.0 store.old cast.now id store.new) }
    ensures err { OnErr result (WantsMemory S.commits conn at.0 store.old cast.now store.new) }
{
    match store.commit(
        Origin::Conn(conn),
        cast.channel.as_str(),
        cast.payload.as_str(),
        at,
    ) {
        Ok(id) => Ok(Some(id)),
        Err(StoreFault::Failed | StoreFault::IdsSpent) => Ok(None),
        Err(StoreFault::OutOfMemory) => Err(OutOfMemory),
    }
}

/// Commits the casts of the work, in order, and notes each.
fn commit_casts<S: Store>(work: &mut Work, store: &mut S, at: Millis) -> Result<(), OutOfMemory>
    requires none { work.old.puts ≡ [] }
    requires moment { at.0 < moment_limit }
    ensures kept { work.new ≡ with_puts work.new.puts work.old }
    ensures ok { OnOk result (Commits S.commits work.old.conn at.0 store.old work.old.plan.casts work.new.puts store.new) }
    ensures err { OnErr result (CommitsFirst S.commits work.old.conn at.0 store.old work.old.plan.casts store.new) }
{
    let conn = work.conn();
    while let Some(cast) = work.next_cast() {
        let id = commit_cast(store, conn, cast, at)?;
        work.noted(id);
    }
    Ok(())
}

/// Commits the casts of the work, in order, and finishes it. Where memory is wanted, the work is given up.
fn end_work<D: Desk, S: Store>(
    desk: &mut D,
    store: &mut S,
    work: Work,
    at: Millis,
) -> Result<(), OutOfMemory>
    requires none { work.puts ≡ [] }
    requires moment { at.0 < moment_limit }
    ensures { EndsWork (record { takes = D.takes; finishes = D.finishes; commits = S.commits }) at.0
        (record { desk = desk.old; store = store.old }) work result (record { desk = desk.new; store = store.new }) }
{
    let mut work = work;
    if let Err(refused) = commit_casts(&mut work, store, at) {
        work.give_up();
        return Err(refused);
    }
    match desk.finish(work) {
        Ok(()) => Ok(()),
        Err(work) => {
            work.give_up();
            Err(OutOfMemory)
        }
    }
}

/// Works one piece: takes it, plans it with the callbacks, enters the gate, commits the casts of the plan in order at this moment, and
/// finishes it. `false` is answered exactly where none was ready. A commit that is refused is noted, and the work goes on. Where memory is
/// wanted once the piece is taken, it is given up: its connection keeps it out.
pub fn work_once<D: Desk, S: Store, C: Callbacks, G: Gate>(
    desk: &mut D,
    store: &mut S,
    callbacks: &C,
    gate: &G,
    at: Millis,
) -> Result<bool, OutOfMemory>
    requires { at.0 < moment_limit }
    ensures { WorksOnce (record { takes = D.takes; finishes = D.finishes; commits = S.commits }) (C.answers callbacks.now) at.0
        (record { desk = desk.old; store = store.old }) result (record { desk = desk.new; store = store.new }) }
{
    let Some(job) = desk.take_next()? else {
        return Ok(false);
    };
    let work = match job.plan(callbacks) {
        Ok(work) => work,
        Err(job) => {
            job.give_up();
            return Err(OutOfMemory);
        }
    };
    gate.enter(work.conn());
    end_work(desk, store, work, at)?;
    Ok(true)
}
