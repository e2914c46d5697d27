ghost use Rattle.std.specs.Prelude.{IfOk};
ghost use Rattle.cable_link.specs.Memory.{AllCome};

use cable_base::{OutOfMemory, Text, Trouble};
use cable_link::{Came, Link, MemLink};
use std::alloc::Global;
use std::test::Fail;

/// A text, a message that is none, and the client's end.
fn coming(alloc: Global, text: &str) -> Result<Vec<Came>, OutOfMemory>
    ensures { IfOk result (λ v. AllCome v.items) }
{
    let mut coming = Vec::new(alloc);
    coming.push(Came::Text(Text::new(alloc, text)?))?;
    coming.push(Came::Binary)?;
    coming.push(Came::Closed)?;
    Ok(coming)
}

/// The calls that are to fail.
fn failing(alloc: Global, calls: &[u64]) -> Result<Vec<u64>, Fail> {
    let mut failing = Vec::new(alloc);
    failing.extend_from_slice(calls)?;
    Ok(failing)
}

#[test]
fn a_link_in_memory_gives_what_is_to_come_and_is_quiet_then(rt: HostRuntime) -> Result<(), Fail> {
    let alloc = rt.alloc();
    let mut link = MemLink::new(alloc, coming(alloc, "{}")?, Vec::new(alloc));
    assert_eq!(rt; link.next(), Ok(Came::Text(Text::new(alloc, "{}")?)));
    assert_eq!(rt; link.next(), Ok(Came::Binary));
    assert_eq!(rt; link.next(), Ok(Came::Closed));
    assert_eq!(rt; link.next(), Ok(Came::Quiet));
    assert_eq!(rt; link.next(), Ok(Came::Quiet));
    Ok(())
}

/// Calls of both kinds are counted together. One that fails gives nothing and says nothing.
#[test]
fn a_link_in_memory_fails_at_the_calls_that_are_listed(rt: HostRuntime) -> Result<(), Fail> {
    let alloc = rt.alloc();
    let mut link = MemLink::new(alloc, coming(alloc, "{}")?, failing(alloc, &[1, 4])?);
    assert_eq!(rt; link.next(), Err(Trouble::Failed));
    assert_eq!(rt; link.say("one"), Ok(()));
    assert_eq!(rt; link.next(), Ok(Came::Text(Text::new(alloc, "{}")?)));
    assert_eq!(rt; link.say("two"), Err(Trouble::Failed));
    assert_eq!(rt; link.say("three"), Ok(()));
    assert_eq!(rt; link.next(), Ok(Came::Binary));
    assert_eq!(rt; link.said().len(), 2);
    assert_eq!(rt; link.said()[0].as_str(), "one");
    assert_eq!(rt; link.said()[1].as_str(), "three");
    Ok(())
}
