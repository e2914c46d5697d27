ghost use Rattle.std.specs.Prelude.{◌≡◌, IfOk, true};
ghost use Rattle.node_parts_tests.specs.FirstPieces.{CanBeFirst, HasFirstOut};

use cable_base::{ConnNo, Listed, Name, OutOfMemory, Text};
use cable_fixtures::{ANN, IDENTIFIER, quiet_plan, subscribe};
use cable_model::{Change, Plan};
use conn_seat::Out;
use node_seats::Seats;
use std::alloc::Global;
use std::test::Fail;

/// Opens a connection of this user, with this greeting.
pub fn greets(seats: &mut Seats, conn: ConnNo, user: &str, greeting: Out) -> bool {
    if seats.is_used(conn) || seats.is_full() {
        return false;
    }
    seats.open(conn, user, greeting).is_ok()
}

/// Keeps the number as one that is over, and queues this on it.
pub fn refuses(seats: &mut Seats, conn: ConnNo, greeting: Out) -> bool {
    if seats.is_used(conn) {
        return false;
    }
    seats.refuse(conn, greeting).is_ok()
}

/// Opens a connection of this user, whose greeting is the user's name.
pub fn opens(
    seats: &mut Seats,
    alloc: Global,
    conn: ConnNo,
    user: &str,
) -> Result<bool, OutOfMemory> {
    let greeting = Out::Text(Text::new(alloc, user)?);
    Ok(greets(seats, conn, user, greeting))
}

/// Opens ann's connection.
pub fn opens_ann(seats: &mut Seats, alloc: Global) -> Result<bool, OutOfMemory> {
    opens(seats, alloc, ANN, "ann")
}

/// Puts a piece on ann's connection, and takes it.
pub fn takes(seats: &mut Seats, alloc: Global) -> Result<bool, OutOfMemory> {
    let piece = subscribe(alloc, IDENTIFIER)?;
    if seats.get(ANN).is_none() {
        return Ok(false);
    }
    seats.put(ANN, piece)?;
    Ok(seats.take(ANN)?.is_some())
}

/// The plan of a first subscription that wants the streams `a` and `b`.
pub fn first_plan(alloc: Global) -> Result<Plan, OutOfMemory>
    ensures { IfOk result (λ plan. CanBeFirst plan.change) }
{
    let mut streams = Listed::empty(alloc);
    streams.push(Name::new(alloc, "a")?)?;
    streams.push(Name::new(alloc, "b")?)?;
    let identifier = Text::new(alloc, IDENTIFIER)?;
    Ok(quiet_plan(
        alloc,
        Change::Add {
            identifier,
            streams,
        },
    ))
}

/// Whether a piece of the connection is out, and no subscription of it stands.
fn has_first_out(seats: &Seats, conn: ConnNo) -> bool
    ensures { result ≡ true → HasFirstOut conn.0 seats.now.entries }
{
    match seats.get(conn) {
        Some(seat) => seat.has_job() && seat.subs().is_empty(),
        None => false,
    }
}

/// Ends the job of a connection that has no subscription with this plan, and queues these.
pub fn finishes(
    seats: &mut Seats,
    conn: ConnNo,
    plan: &Plan,
    outs: Vec<Out>,
) -> Result<bool, OutOfMemory>
    requires { CanBeFirst plan.now.change }
{
    if !has_first_out(seats, conn) {
        return Ok(false);
    }
    seats.reserve_plan(conn, plan, outs.len() as u64)?;
    seats.finish(conn, plan, outs);
    Ok(true)
}

/// Makes a first subscription on ann's connection, whose piece is out.
pub fn subscribes(seats: &mut Seats, alloc: Global) -> Result<bool, OutOfMemory> {
    let plan = first_plan(alloc)?;
    finishes(seats, ANN, &plan, Vec::new(alloc))
}

/// Ann's connection, with a subscription that has the number 1 and wants the streams `a` and `b`.
pub fn subscribed(alloc: Global) -> Result<Seats, Fail> {
    let mut seats = Seats::empty(alloc);
    if opens_ann(&mut seats, alloc)?
        && takes(&mut seats, alloc)?
        && subscribes(&mut seats, alloc)?
    {
        return Ok(seats);
    }
    Err(Fail::from("no subscription was made"))
}
