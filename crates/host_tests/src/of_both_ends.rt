use caller_host::TcpCaller;
use case_keeper::MemKeeper;
use client_form::Client;
use desk_client::submit;
use desk_host::{HostClock, TcpDoor};
use desk_serving::serve_door;
use serving_lines::desk;
use std::net::{Ipv4Addr, Net, OpenListener, SocketAddr, TcpListener};
use std::test::Fail;
use std::{io, thread};
use vet_base::Name;

/// The submission of an app by the developer `ann`.
const REQUEST: &[u8] =
    b"POST /cases HTTP/1.1\r\nx-desk-token: ann-token\r\ncontent-length: 96\r\n\r\n\
    {\"declaration\":\"flagged\",\"dex\":[\"ZGV4Cg==\"],\"layouts\":\"\",\"manifest\":\"manifest\",\
    \"reference\":\"r1\"}";

/// A port of this machine on which nobody listens.
fn free_port(rt: HostRuntime) -> io::Result<u16> {
    let listener = TcpListener::bind(&rt, SocketAddr::from((Ipv4Addr::LOCALHOST, 0)))?;
    Ok(listener.local_addr()?.port())
}

/// How many connections of the port a desk serves, which takes one.
fn served(rt: HostRuntime, port: u16) -> Option<u32> {
    let mut desk = desk(rt.alloc(), 1).ok()?;
    desk.office.port = port;
    let mut keeper = MemKeeper::new(rt.alloc());
    let mut door = TcpDoor::new(rt);
    let mut clock = HostClock::new(rt);
    serve_door(rt.alloc(), &desk, &mut keeper, &mut door, &mut clock, 1).ok()
}

/// The status of the reply that a client gets on the port, which dials again while nobody listens.
fn handed_in(rt: HostRuntime, port: u16) -> Option<u16> {
    let client = Client {
        port,
        token: Name::from_bytes(rt.alloc(), b"ann-token").ok()?,
        tries: 5,
    };
    let answered = submit(rt.alloc(), &client, REQUEST, &mut TcpCaller::new(rt)).ok()?;
    Some(answered.status)
}

#[test]
fn a_desk_and_a_client_in_two_threads_meet_over_loopback(rt: HostRuntime) -> Result<(), Fail> {
    let port = free_port(rt)?;
    let ends = thread::join(
        &rt,
        || -> Option<u32> { served(rt, port) },
        || -> Option<u16> { handed_in(rt, port) },
    );
    assert_eq!(rt; ends, (Some(1), Some(201)));
    Ok(())
}
