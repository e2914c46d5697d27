use cable_base::{NodeNo, Row, RowId};
use poll_turn::{Caught, Cursor, Turn, channel_hash};
use std::alloc::Global;
use std::test::Fail;

#[test]
fn hash_of_abc(rt: HostRuntime) {
    // The digest of `abc` is given by FIPS 180-4.
    let bytes = [0xba, 0x78, 0x16, 0xbf, 0x8f, 0x01, 0xcf, 0xea];
    assert_eq!(rt; channel_hash("abc"), i64::from_be_bytes(bytes));
}

/// A turn of node 1 for this hash, where none is out.
fn ask(cursor: &mut Cursor, alloc: Global, hash: i64) -> Result<Option<Turn>, Fail> {
    if cursor.turns() >= 100 {
        return Err(Fail::from("many turns"));
    }
    let hashes = [hash].to_vec(alloc)?;
    Ok(cursor.ask(NodeNo(1), hashes))
}

/// Whether a turn that is there is the one of this number, for the hash 7, above this id. It is left out.
fn is_turn(turn: Option<Turn>, number: u64, lower: RowId) -> bool {
    let Some(turn) = turn else { return false };
    let is_it = turn.node() == NodeNo(1)
        && turn.number() == number
        && turn.lower() == lower
        && turn.hashes() == [7].as_slice();
    turn.give_up();
    is_it
}

/// Closes the turn that is out, where it is the one that caught this, and tells where the cursor is then.
fn close(cursor: &mut Cursor, caught: Caught) -> Option<RowId> {
    let is_it = cursor.is_out()
        && caught.number() == cursor.turns()
        && caught.lower() == cursor.lower();
    if !is_it {
        caught.give_up();
        return None;
    }
    Some(cursor.close(caught))
}

/// Whether this is what a read caught that found nothing up to a row. It is closed, and the cursor moves there.
fn ends_at(cursor: &mut Cursor, caught: Caught, missed: bool, upto: RowId, last: RowId) -> bool {
    let is_it = caught.node() == NodeNo(1)
        && caught.is_missed() == missed
        && caught.upto() == upto
        && caught.last() == last
        && caught.rows().is_empty();
    close(cursor, caught) == Some(upto) && is_it
}

fn is_at(cursor: &Cursor, lower: RowId, turns: u64, out: bool) -> bool {
    cursor.lower() == lower && cursor.turns() == turns && cursor.is_out() == out
}

/// Asks a turn that is missed.
fn misses(cursor: &mut Cursor, alloc: Global, stays: RowId) -> Result<bool, Fail> {
    match ask(cursor, alloc, 7)? {
        Some(turn) => Ok(ends_at(cursor, turn.missed(), true, stays, stays)),
        None => Ok(false),
    }
}

/// Asks a turn that finds no row up to this one, where the last row is another.
fn finds(cursor: &mut Cursor, alloc: Global, upto: RowId, last: RowId) -> Result<bool, Fail> {
    let rows: Vec<Row> = Vec::new(alloc);
    match ask(cursor, alloc, 7)? {
        Some(turn) => Ok(ends_at(cursor, turn.found(upto, last, rows), false, upto, last)),
        None => Ok(false),
    }
}

/// A turn that was missed moves nothing, and another one moves the cursor to where the read ended.
#[test]
fn turns_move_a_cursor(rt: HostRuntime) -> Result<(), Fail> {
    let mut cursor = Cursor::at(RowId(3));
    assert!(rt; is_at(&cursor, RowId(3), 0, false));
    assert!(rt; misses(&mut cursor, rt.alloc(), RowId(3))?);
    assert!(rt; is_at(&cursor, RowId(3), 1, false));
    assert!(rt; finds(&mut cursor, rt.alloc(), RowId(5), RowId(6))?);
    assert!(rt; is_at(&cursor, RowId(5), 2, false));
    Ok(())
}

/// One turn is out at a time, and one that is given up stays out.
#[test]
fn one_turn_is_out(rt: HostRuntime) -> Result<(), Fail> {
    let mut cursor = Cursor::at(RowId(3));
    let first = ask(&mut cursor, rt.alloc(), 7)?;
    assert!(rt; is_turn(first, 1, RowId(3)));
    let second = ask(&mut cursor, rt.alloc(), 7)?;
    assert!(rt; !is_turn(second, 2, RowId(3)));
    assert!(rt; is_at(&cursor, RowId(3), 1, true));
    Ok(())
}
