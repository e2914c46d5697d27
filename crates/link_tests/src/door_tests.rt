use cable_base::Failed;
use cable_link::{Door, Entered, FailingDoor, ListenerDoor};
use mio::net::TcpListener;
use std::net::{Ipv4Addr, SocketAddr, SocketAddrV4, TcpStream};
use std::sync::Arc;
use std::sync::atomic::{AtomicBool, Ordering};
use std::test::Fail;
use std::time::Duration;

#[test]
fn a_listener_lets_in_who_comes_until_it_is_stopped(rt: HostRuntime) -> Result<(), Fail> {
    let any = SocketAddr::V4(SocketAddrV4::new(Ipv4Addr::new(127, 0, 0, 1), 0));
    let listener = TcpListener::bind(&rt, any)?;
    let port = listener.local_addr()?.port();
    let stop = Arc::new(rt.alloc(), AtomicBool::new(false))?;
    let wait = Duration::from_millis(20);
    let mut door = ListenerDoor::on(&rt, rt.alloc(), listener, wait, stop.clone()?)?;
    assert!(rt; matches!(door.accept(), Ok(Entered::Nobody)));
    let _one = TcpStream::connect(&rt, ("127.0.0.1", port))?;
    let _other = TcpStream::connect(&rt, ("127.0.0.1", port))?;
    assert!(rt; matches!(door.accept(), Ok(Entered::Socket(_))));
    assert!(rt; matches!(door.accept(), Ok(Entered::Socket(_))));
    assert!(rt; matches!(door.accept(), Ok(Entered::Nobody)));
    stop.store(true, Ordering::SeqCst);
    assert!(rt; matches!(door.accept(), Err(Failed)));
    assert!(rt; matches!(door.accept(), Err(Failed)));
    Ok(())
}

#[test]
fn a_failing_door_lets_nobody_in(rt: HostRuntime) {
    let mut door = FailingDoor::new();
    assert!(rt; matches!(door.accept(), Err(Failed)));
    assert!(rt; matches!(door.accept(), Err(Failed)));
}
