//! Tests of connections (links) over sockets, connections with a deadline, and clocks.
use crate::connections::client_of;
use mb_wire::sockets::{Clock, DeadlineLink, FixedClock, SocketLink, SystemClock};
use mb_wire::{Link, LinkFailed, MemoryLink, Took};
use std::io::{self, Read};
use std::net::{TcpListener, TcpStream};
use std::test::Fail;

// Accepts the next client of a listening socket, and returns the connection to the client.
fn link_of(listener: &TcpListener) -> io::Result<SocketLink<TcpStream>> {
    SocketLink::new(listener.accept()?.0)
}

// Returns whether a connection reads the bytes that its client sent, then times out, and then
// writes bytes that the client reads. Afterwards the client closes the connection.
fn is_read_and_written(link: &mut SocketLink<TcpStream>, mut client: TcpStream) -> bool {
    let mut piece = [0; 16];
    let mut answer = [0; 3];
    link.take(&mut piece) == Ok(Took::Bytes(5))
        && piece.starts_with(b"hello")
        && link.take(&mut piece) == Ok(Took::Idle)
        && link.give(b"you") == Ok(3)
        && client.read_exact(&mut answer).is_ok()
        && &answer == b"you"
}

// Checks that a connection over a socket reads, times out and writes. The connection reports the
// end of input when the client closes, and no read fails.
#[test]
fn a_socket_reads_writes_times_out_and_ends(rt: HostRuntime) -> Result<(), Fail> {
    let listener = TcpListener::bind(&rt, "127.0.0.1:0")?;
    let client = client_of(&rt, &listener, b"hello")?;
    let mut link = link_of(&listener)?;
    let mut piece = [0; 16];
    assert!(rt; is_read_and_written(&mut link, client));
    assert!(rt; link.take(&mut piece) == Ok(Took::End));
    assert!(rt; [link.takes(), link.failures()] == [3, 0]);
    Ok(())
}

// Returns whether one read and one write of a connection succeed.
fn works_once<L: Link>(link: &mut L) -> bool {
    let mut piece = [0; 16];
    link.take(&mut piece) == Ok(Took::Bytes(3)) && link.give(b"you") == Ok(3)
}

// Returns whether another read and another write of a connection fail.
fn fails_twice<L: Link>(link: &mut L) -> bool {
    let mut piece = [0; 16];
    link.take(&mut piece) == Err(LinkFailed)
        && link.give(b"you") == Err(LinkFailed)
        && [link.takes(), link.failures()] == [2, 2]
}

// Checks that a connection with a deadline fails when the deadline has passed. Further calls do not
// reach the underlying connection.
#[test]
fn a_link_fails_after_its_deadline(rt: HostRuntime) {
    let mut given = [0; 8];
    let mut clock = FixedClock::new(&[10, 10, 11]);
    let mut inner = MemoryLink::new(b"hello", &mut given, 3, None);
    let mut link = DeadlineLink::new(&mut inner, &mut clock, 10);
    assert!(rt; works_once(&mut link));
    assert!(rt; fails_twice(&mut link));
    assert!(rt; inner.given() == b"you".as_slice());
}

// Checks that a fixed clock (for tests) returns its times in order, and then repeats the last time.
// The system clock shows a time after the first second of 2020.
#[test]
fn clocks_have_times(rt: HostRuntime) {
    let mut clock = FixedClock::new(&[5, 3]);
    assert!(rt; [clock.now(), clock.now(), clock.now()] == [5, 3, 3]);
    assert!(rt; FixedClock::new(&[]).now() == 0);
    assert!(rt; SystemClock::new(&rt).now() > 1_577_836_800);
}
