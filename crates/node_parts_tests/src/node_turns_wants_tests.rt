use crate::seat_fixtures::{first_plan, opens_ann, subscribes, takes};
use cable_base::{ConnNo, OutOfMemory, SubNo, WantNo};
use cable_fixtures::ANN;
use cable_model::{Change, Piece};
use node_seats::{Delivery, Seats, Wanted};
use node_turns::{Wants, add_confirms};
use std::alloc::Global;
use std::test::Fail;

const BEN: ConnNo = ConnNo(8);

fn wanted(want: u64, confirms: bool) -> Wanted {
    Wanted {
        conn: ANN,
        sub: SubNo(1),
        want: WantNo(want),
        confirms,
    }
}

fn puts(wants: &mut Wants, want: u64) -> bool {
    if wants.reserve(1).is_err() {
        return false;
    }
    wants.put(wanted(want, false));
    true
}

/// Whether the turn that is out takes this want alone.
fn has_taken(wants: &Wants, wanted: Wanted) -> bool {
    wants.taken() == [wanted].as_slice()
}

/// A want that is made behind the ask isn't taken by the turn, and none is taken once the turn is missed.
fn takes_what_the_ask_found(wants: &mut Wants) -> bool {
    if !puts(wants, 1) {
        return false;
    }
    wants.take_all();
    let taken = puts(wants, 2) && has_taken(wants, wanted(1, false));
    wants.give_back();
    taken && wants.taken().is_empty()
}

/// What a turn took is gone once it is delivered.
fn drops_what_was_taken(wants: &mut Wants) -> bool {
    wants.take_all();
    let put = puts(wants, 3);
    wants.drop_taken();
    wants.take_all();
    put && has_taken(wants, wanted(3, false))
}

#[test]
fn takes_those_that_the_ask_found(rt: HostRuntime) {
    let mut wants = Wants::empty(rt.alloc());
    assert!(rt; takes_what_the_ask_found(&mut wants));
    assert!(rt; drops_what_was_taken(&mut wants));
}

/// Ben's want, with which his confirmation comes.
const BENS: Wanted = Wanted {
    conn: BEN,
    sub: SubNo(1),
    want: WantNo(1),
    confirms: true,
};

/// Puts two wants of ann's with one of ben's between them, which a turn takes, and another of ann's behind it.
fn puts_around_bens(wants: &mut Wants) -> bool {
    if wants.reserve(3).is_err() {
        return false;
    }
    wants.put(wanted(0, false));
    wants.put(BENS);
    wants.put(wanted(1, true));
    wants.take_all();
    puts(wants, 2)
}

/// Of ann's wants none is left, neither of those that the turn takes nor of those behind. The turn takes ben's as before, and once it is
/// missed the next one takes it again, and nothing else.
fn drops_those_of_ann(wants: &mut Wants) -> bool {
    wants.drop_those_of(ANN);
    let taken = has_taken(wants, BENS);
    wants.give_back();
    let given_back = wants.taken().is_empty();
    wants.take_all();
    taken && given_back && has_taken(wants, BENS)
}

#[test]
fn drops_those_of_one(rt: HostRuntime) {
    let mut wants = Wants::empty(rt.alloc());
    assert!(rt; puts_around_bens(&mut wants));
    assert!(rt; drops_those_of_ann(&mut wants));
}

/// Puts the wants that a change of ann's connection makes.
fn puts_change(wants: &mut Wants, seats: &Seats, change: &Change) -> Result<bool, OutOfMemory> {
    let Some(seat) = seats.get(ANN) else {
        return Ok(false);
    };
    if change.wants_made() > 2 || seat.made() > 0 {
        return Ok(false);
    }
    wants.reserve(2)?;
    wants.put_change(ANN, SubNo(1), seat, change);
    Ok(true)
}

/// The turn that is out takes the two wants of a first subscription. Its confirmation is due with the first.
fn takes_a_first_plan(
    wants: &mut Wants,
    alloc: Global,
    seats: &Seats,
) -> Result<bool, OutOfMemory> {
    let plan = first_plan(alloc)?;
    if !puts_change(wants, seats, &plan.change)? {
        return Ok(false);
    }
    wants.take_all();
    Ok(wants.taken() == [wanted(1, true), wanted(2, false)].as_slice())
}

/// The confirmations that are due with what the turn takes.
fn due(alloc: Global, wants: &Wants, seats: &Seats) -> Result<Vec<Delivery>, OutOfMemory> {
    let mut deliveries = Vec::new(alloc);
    add_confirms(&mut deliveries, wants.taken(), seats)?;
    Ok(deliveries)
}

/// Whether the first subscription is confirmed, and nothing else is delivered.
fn is_confirmation(deliveries: &[Delivery]) -> bool {
    match deliveries {
        [
            Delivery {
                conn,
                piece: Piece::Confirm { sub },
            },
        ] => *conn == ANN && *sub == SubNo(1),
        _ => false,
    }
}

/// The confirmation comes where the subscription stands, and only there.
fn confirms_what_stands(
    wants: &Wants,
    alloc: Global,
    seats: &mut Seats,
) -> Result<bool, OutOfMemory> {
    let early = due(alloc, wants, seats)?;
    if !subscribes(seats, alloc)? {
        return Ok(false);
    }
    let now = due(alloc, wants, seats)?;
    let elsewhere = due(alloc, wants, &Seats::empty(alloc))?;
    Ok(early.is_empty() && is_confirmation(&now) && elsewhere.is_empty())
}

#[test]
fn confirms_with_the_first(rt: HostRuntime) -> Result<(), Fail> {
    let alloc = rt.alloc();
    let mut seats = Seats::empty(alloc);
    let mut wants = Wants::empty(alloc);
    assert!(rt; opens_ann(&mut seats, alloc)? && takes(&mut seats, alloc)?);
    assert!(rt; takes_a_first_plan(&mut wants, alloc, &seats)?);
    assert!(rt; confirms_what_stands(&wants, alloc, &mut seats)?);
    Ok(())
}
