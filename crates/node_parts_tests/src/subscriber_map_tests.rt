ghost use Rattle.std.specs.Prelude.{◌≡◌, ◌<◌};

use crate::hold_fixtures::{add, hold};
use cable_base::{ConnNo, OutOfMemory, Steps, WantNo};
use std::alloc::Global;
use std::marker::Brand;
use std::process::Abort;
use std::sync::ledger::{Blank, Ledger};
use std::test::Fail;
use subscriber_map::SubscriberMap;

/// The first eight bytes of the SHA-256 digests of `x` and of `a/b`.
const DIGEST_OF_X: [u8; 8] = [0x2d, 0x71, 0x16, 0x42, 0xb7, 0x26, 0xb0, 0x44];

const DIGEST_OF_A_B: [u8; 8] = [0xc1, 0x4c, 0xdd, 0xc0, 0x33, 0xf6, 0x4b, 0x9d];

/// Whether the map has the hashes of these digests, in whatever order, and no other.
fn has_hashes(
    map: &SubscriberMap,
    alloc: Global,
    digests: &[[u8; 8]],
) -> Result<bool, OutOfMemory> {
    let hashes = map.hashes(alloc)?;
    for digest in digests {
        if !hashes.contains(&i64::from_be_bytes(*digest)) {
            return Ok(false);
        }
    }
    Ok(hashes.len() == digests.len())
}

/// A name goes with its last hold.
fn names_go(rt: &impl Abort, alloc: Global, map: &mut SubscriberMap) -> Result<(), Fail> {
    assert!(rt; map.remove("a/b", ConnNo(2), WantNo(3)));
    assert!(rt; has_hashes(map, alloc, &[DIGEST_OF_X])?);
    for (conn, want, was, left) in [
        (1, 1, true, 1),
        (1, 2, false, 1),
        (2, 2, true, 1),
        (1, 3, true, 1),
        (2, 1, true, 0),
        (2, 1, false, 0),
    ] {
        assert_eq!(rt; map.remove("x", ConnNo(conn), WantNo(want)), was);
        assert_eq!(rt; map.names(alloc)?.as_slice().len(), left);
    }
    assert!(rt; has_hashes(map, alloc, &[])?);
    Ok(())
}

fn run<L: Ledger>(rt: &impl Abort, alloc: Global, blank: Blank) -> Result<(), Fail>
    requires name { blank.name ≡ L.name }
    requires parts { blank.parts ≡ L.parts }
    requires some { 0 < blank.parts }
{
    let mut steps = Steps::<L>::begin(blank);
    let mut map = SubscriberMap::empty(alloc);
    assert_eq!(rt; map.names(alloc)?.as_slice().len(), 0);

    // By connection, then by subscription, in whatever order they came.
    for (conn, sub, want) in [(2, 4, 1), (1, 9, 3), (2, 1, 2), (1, 10, 1)] {
        assert!(rt; add(&mut map, &mut steps, "x", hold(conn, sub, want, 5)));
    }
    assert!(rt; add(&mut map, &mut steps, "a/b", hold(2, 4, 3, 5)));
    let wanted = [
        hold(1, 9, 3, 5),
        hold(1, 10, 1, 5),
        hold(2, 1, 2, 5),
        hold(2, 4, 1, 5),
    ];
    assert_eq!(rt; map.holders("x", &mut steps), wanted.as_slice());
    assert_eq!(rt; map.holders("X", &mut steps).len(), 0);
    let names = map.names(alloc)?;
    let [first, second] = names.as_slice() else {
        return Err(Fail::from("two names"));
    };
    assert_eq!(rt; first.as_str(), "a/b");
    assert_eq!(rt; second.as_str(), "x");
    assert!(rt; has_hashes(&map, alloc, &[DIGEST_OF_X, DIGEST_OF_A_B])?);
    names_go(rt, alloc, &mut map)
}

#[test]
fn holds_of_names(rt: HostRuntime) -> Result<(), Fail> {
    run::<Brand>(&rt, rt.alloc(), Blank::new(1))
}
