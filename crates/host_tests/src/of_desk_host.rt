use desk_host::{HostClock, TcpDoor};
use desk_links::{Clock, Door, Link, LinkFault};
use std::io;
use std::io::{Read, Write};
use std::net::{Ipv4Addr, Net, OpenListener, Shutdown, SocketAddr, TcpListener, TcpStream};
use std::test::Fail;

/// How many bytes two reads give, those that came first, and how many of four are taken.
type Talk = ([usize; 2], [u8; 3], usize);

fn talk<L: Link>(link: &mut L) -> Result<Talk, LinkFault> {
    let mut room = [0; 8];
    let first = link.read(&mut room)?;
    let asked = [room[0], room[1], room[2]];
    let second = link.read(&mut room)?;
    let taken = link.write(b"told")?;
    Ok(([first, second], asked, taken))
}

/// Asks, and tells that no more comes.
fn ask(peer: &mut TcpStream) -> io::Result<()> {
    peer.write_all(b"ask")?;
    peer.shutdown(Shutdown::Write)
}

/// The four bytes that a peer is told.
fn told(peer: &mut TcpStream) -> io::Result<[u8; 4]> {
    let mut told = [0; 4];
    peer.read_exact(&mut told)?;
    Ok(told)
}

/// A door over a listener on this machine, and where it listens.
fn listening(rt: HostRuntime) -> io::Result<(TcpDoor<HostRuntime>, SocketAddr)> {
    let listener = TcpListener::bind(&rt, SocketAddr::from((Ipv4Addr::LOCALHOST, 0)))?;
    let address = listener.local_addr()?;
    Ok((TcpDoor::over(rt, listener), address))
}

/// Whether a conversation is opened, what is said in it, what the peer is told, and how often the door failed.
type Conversation = (bool, Talk, [u8; 4], u64);

fn converse(
    rt: HostRuntime,
    door: &mut TcpDoor<HostRuntime>,
    peer: &mut TcpStream,
) -> Result<Conversation, Fail> {
    ask(peer)?;
    let is_open = door.next(rt.alloc(), 0)?;
    let talk = talk(door)?;
    let told = told(peer)?;
    Ok((is_open, talk, told, door.faults()))
}

fn conversation(rt: HostRuntime) -> Result<Conversation, Fail> {
    let (mut door, address) = listening(rt)?;
    let mut peer = TcpStream::connect(&rt, address)?;
    converse(rt, &mut door, &mut peer)
}

#[test]
fn a_door_takes_a_connection(rt: HostRuntime) -> Result<(), Fail> {
    let talk = ([3, 0], *b"ask", 4);
    assert_eq!(rt; conversation(rt)?, (true, talk, *b"told", 0));
    Ok(())
}

/// Sixteen peers that say nothing.
fn silent_peers(rt: HostRuntime, address: SocketAddr) -> io::Result<Vec<TcpStream>> {
    let mut peers = Vec::new(rt.alloc());
    for _ in 0..16 {
        peers.push(TcpStream::connect(&rt, address)?)?;
    }
    Ok(peers)
}

/// The conversation with a peer that comes behind silent ones.
fn conversation_behind(rt: HostRuntime) -> Result<Conversation, Fail> {
    let (mut door, address) = listening(rt)?;
    let _silent = silent_peers(rt, address)?;
    let mut peer = TcpStream::connect(&rt, address)?;
    converse(rt, &mut door, &mut peer)
}

#[test]
fn a_peer_that_asks_comes_before_silent_ones(rt: HostRuntime) -> Result<(), Fail> {
    let talk = ([3, 0], *b"ask", 4);
    assert_eq!(rt; conversation_behind(rt)?, (true, talk, *b"told", 0));
    Ok(())
}

/// Whether a read and a write without a connection fail, and how often the door failed then.
fn failures<D: Door>(door: &mut D) -> (bool, bool, u64) {
    let mut room = [0; 8];
    let read = door.read(&mut room).is_err();
    let written = door.write(b"told").is_err();
    (read, written, door.faults())
}

#[test]
fn without_a_connection_each_call_fails(rt: HostRuntime) -> Result<(), Fail> {
    assert_eq!(rt; failures(&mut TcpDoor::new(rt)), (true, true, 2));
    Ok(())
}

#[test]
fn the_day_is_a_late_one(rt: HostRuntime) -> Result<(), Fail> {
    // 1 January 2026.
    assert!(rt; HostClock::new(rt).today() >= 20_454);
    Ok(())
}
