use crate::seat_fixtures::{opens, refuses};
use cable_base::{ConnNo, OutOfMemory, RowId, SubNo, WantNo};
use cable_fixtures::faulty;
use cable_model::{Note, Piece, Task};
use conn_seat::Out;
use node_seats::{Delivery, Errand, Seats, Wanted};
use std::alloc::Global;
use std::test::Fail;

const ANN: ConnNo = ConnNo(7);

const BEN: ConnNo = ConnNo(3);

/// Opens the connections of ann and ben.
fn opens_both(seats: &mut Seats, alloc: Global) -> Result<bool, OutOfMemory> {
    Ok(opens(seats, alloc, ANN, "ann")? && opens(seats, alloc, BEN, "ben")?)
}

fn put(seats: &mut Seats, conn: ConnNo, piece: Piece) -> Result<(), Fail> {
    if seats.get(conn).is_none() {
        return Err(Fail::from("it isn't live"));
    }
    seats.reserve(conn, 2)?;
    if seats.get(conn).is_none() {
        return Err(Fail::from("it isn't live"));
    }
    seats.put(conn, piece)?;
    Ok(())
}

/// Whether this is told of a text of ann that isn't JSON, the first piece of her connection.
fn is_of_ann(errand: &Errand) -> bool {
    errand.place == 1 && errand.user.as_str() == "ann" && errand.task == Task::Note(Note::BadJson)
}

/// Takes ann's first piece, a text that isn't JSON.
fn takes_of_ann(seats: &mut Seats) -> Result<bool, OutOfMemory> {
    match seats.take(ANN)? {
        Some(errand) => Ok(is_of_ann(&errand)),
        None => Ok(false),
    }
}

fn take(seats: &mut Seats, conn: ConnNo) -> Result<bool, Fail> {
    Ok(seats.take(conn)?.is_some())
}

fn numbers(seats: &Seats, alloc: Global) -> Result<Vec<u64>, OutOfMemory> {
    let mut numbers = Vec::new(alloc);
    for conn in seats.receiving(alloc)? {
        numbers.push(conn.0)?;
    }
    Ok(numbers)
}

#[test]
fn opens_and_refuses(rt: HostRuntime) -> Result<(), Fail> {
    let alloc = rt.alloc();
    let mut seats = Seats::empty(alloc);
    assert!(rt; opens_both(&mut seats, alloc)?);
    assert!(rt; refuses(&mut seats, ConnNo(5), Out::Note(Note::BadJson)));
    assert!(rt; seats.is_over(ConnNo(5)) && seats.is_used(ConnNo(5)));
    assert!(rt; seats.get(ConnNo(5)).is_none());
    assert!(rt; !seats.is_over(ANN) && !seats.is_full());
    assert!(rt; numbers(&seats, alloc)?.as_slice() == [3, 7].as_slice());
    match seats.get(ANN) {
        Some(seat) => assert_eq!(rt; seat.user(), "ann"),
        None => return Err(Fail::from("it isn't live")),
    }
    Ok(())
}

#[test]
fn takes_in_order(rt: HostRuntime) -> Result<(), Fail> {
    let alloc = rt.alloc();
    let mut seats = Seats::empty(alloc);
    assert!(rt; opens_both(&mut seats, alloc)?);
    put(&mut seats, ANN, faulty())?;
    put(&mut seats, ANN, Piece::Gone)?;
    assert!(rt; !take(&mut seats, BEN)?);
    assert!(rt; !take(&mut seats, ConnNo(5))?);
    assert!(rt; takes_of_ann(&mut seats)? && !take(&mut seats, ANN)?);
    assert!(rt; numbers(&seats, alloc)?.as_slice() == [3].as_slice());
    match seats.get(ANN) {
        Some(seat) => {
            assert!(rt; seat.job() == Some(&faulty()));
            assert!(rt; seat.is_closing() && seat.has_waiting());
        }
        None => return Err(Fail::from("it isn't live")),
    }
    Ok(())
}

#[test]
fn stops_each_live_one(rt: HostRuntime) -> Result<(), Fail> {
    let alloc = rt.alloc();
    let mut seats = Seats::empty(alloc);
    assert!(rt; opens_both(&mut seats, alloc)?);
    put(&mut seats, BEN, Piece::Gone)?;
    seats.stop();
    assert!(rt; numbers(&seats, alloc)?.is_empty());
    for (conn, piece) in [(ANN, Piece::Restart), (BEN, Piece::Gone)] {
        assert!(rt; take(&mut seats, conn)?);
        match seats.get(conn) {
            Some(seat) => assert!(rt; seat.job() == Some(&piece) && !seat.has_waiting()),
            None => return Err(Fail::from("it isn't live")),
        }
    }
    Ok(())
}

/// Pieces for two connections, and one for a number that wasn't opened.
fn deliveries(alloc: Global) -> Result<Vec<Delivery>, OutOfMemory> {
    let mut deliveries = Vec::new(alloc);
    for (conn, piece) in [
        (ANN, Piece::Confirm { sub: SubNo(4) }),
        (BEN, Piece::Remote { reconnect: true }),
        (ANN, faulty()),
        (ConnNo(5), Piece::Gone),
        (BEN, faulty()),
    ] {
        deliveries.push(Delivery { conn, piece })?;
    }
    Ok(deliveries)
}

fn deliver(seats: &mut Seats, alloc: Global) -> Result<(), OutOfMemory> {
    let deliveries = deliveries(alloc)?;
    seats.reserve_all(alloc, &deliveries)?;
    seats.put_all(deliveries);
    Ok(())
}

/// Whether this piece is taken first, and whether others wait behind it.
fn takes(seats: &mut Seats, conn: ConnNo, piece: &Piece, more: bool) -> Result<bool, Fail> {
    if !take(seats, conn)? {
        return Ok(false);
    }
    match seats.get(conn) {
        Some(seat) => Ok(seat.job() == Some(piece) && seat.has_waiting() == more),
        None => Ok(false),
    }
}

#[test]
fn delivers_to_two_connections(rt: HostRuntime) -> Result<(), Fail> {
    let alloc = rt.alloc();
    let mut seats = Seats::empty(alloc);
    assert!(rt; opens_both(&mut seats, alloc)?);
    deliver(&mut seats, alloc)?;
    assert!(rt; !seats.is_used(ConnNo(5)));
    assert!(rt; takes(&mut seats, ANN, &Piece::Confirm { sub: SubNo(4) }, true)?);
    assert!(rt; takes(&mut seats, BEN, &Piece::Remote { reconnect: true }, false)?);
    Ok(())
}

const WANTED: Wanted = Wanted {
    conn: ANN,
    sub: SubNo(1),
    want: WantNo(1),
    confirms: true,
};

#[test]
fn places_no_want_that_does_not_stand(rt: HostRuntime) -> Result<(), Fail> {
    let alloc = rt.alloc();
    let mut seats = Seats::empty(alloc);
    assert!(rt; opens(&mut seats, alloc, ANN, "ann")?);
    seats.place_all(
        &[
            Wanted {
                conn: BEN,
                ..WANTED
            },
            WANTED,
        ],
        RowId(7),
    );
    assert!(rt; !seats.is_used(BEN) && !take(&mut seats, ANN)?);
    match seats.get(ANN) {
        Some(seat) => assert!(rt; seat.subs().is_empty()),
        None => return Err(Fail::from("it isn't live")),
    }
    Ok(())
}
