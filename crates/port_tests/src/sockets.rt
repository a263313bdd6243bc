//! Both ends of a connection, over loopback.

use crate::waiting::{Peer, meet};
use dr_ports::{Door, Failed, Link, Pipe};
use std::io::Write;
use std::net::TcpStream;
use tcp_ports::Patience;

/// Whether neither end does its part without the other.
fn fail_alone<D: Door, L: Link>(door: &mut D, link: &mut L) -> bool {
    door.accept() == Err(Failed)
        && link.send(b"lost") == Err(Failed)
        && link.open("127.0.0.1:1") == Err(Failed)
}

/// Whether a door and a link are joined at this port, by a byte that is sent: a door accepts who
/// has said something.
pub fn are_joined<D: Door, L: Link>(door: &mut D, link: &mut L, at: u16, address: &str) -> bool {
    door.listen(at) == Ok(())
        && link.open(address) == Ok(())
        && link.send(b"!") == Ok(1)
        && door.accept() == Ok(())
        && door.receive(&mut [0; 4]) == Ok(1)
}

/// Whether a text goes each way.
fn talk<D: Pipe, L: Pipe>(door: &mut D, link: &mut L) -> bool {
    let mut piece = [0; 4];
    link.send(b"ask") == Ok(3)
        && door.receive(&mut piece) == Ok(3)
        && piece == *b"ask\0"
        && door.send(b"told") == Ok(4)
        && link.receive(&mut piece) == Ok(4)
        && piece == *b"told"
}

/// Whether the door receives the end when the link is shut, and fails when it is shut itself.
fn end<D: Door, L: Link>(door: &mut D, link: &mut L) -> bool {
    let mut piece = [0; 4];
    link.shut();
    let ends = door.receive(&mut piece) == Ok(0);
    door.shut();
    ends && door.receive(&mut piece) == Err(Failed)
}

/// Whether both ends connect, do their parts, and end.
fn go<D: Door, L: Link>(door: &mut D, link: &mut L) -> bool {
    fail_alone(door, link)
        && are_joined(door, link, 27613, "127.0.0.1:27613")
        && talk(door, link)
        && end(door, link)
}

/// Whether a link that ends with bytes that it didn't read breaks the connection.
fn break_off<D: Door, L: Link>(door: &mut D, link: &mut L) -> bool {
    if !are_joined(door, link, 27615, "127.0.0.1:27615") {
        return false;
    }
    let is_sent = door.send(b"unread") == Ok(6);
    link.shut();
    is_sent && door.receive(&mut [0; 4]) == Err(Failed)
}

/// Whether a door that is joined accepts a connection at another address.
fn accepts_another<D: Door, L: Link>(rt: &HostRuntime, door: &mut D, link: &mut L) -> bool {
    if !are_joined(door, link, 27616, "127.0.0.2:27616") {
        return false;
    }
    match TcpStream::connect(rt, "127.0.0.3:27616") {
        Ok(mut second) => second.write(b"!").is_ok() && door.accept() == Ok(()),
        Err(_) => false,
    }
}

/// Whether a door accepts the one that speaks, of three who came: one before it hung up, and one
/// says nothing.
fn accepts_who_speaks<D: Door, L: Link>(rt: &HostRuntime, door: &mut D, link: &mut L) -> bool {
    if door.listen(27621).is_err() {
        return false;
    }
    let _gone = TcpStream::connect(rt, "127.0.0.1:27621").is_ok();
    match TcpStream::connect(rt, "127.0.0.1:27621") {
        Ok(_silent) => is_heard(door, link, "127.0.0.1:27621"),
        Err(_) => false,
    }
}

/// Whether a door accepts a link that says something.
fn is_heard<D: Door, L: Link>(door: &mut D, link: &mut L, address: &str) -> bool {
    let mut piece = [0; 4];
    link.open(address) == Ok(())
        && link.send(b"word") == Ok(4)
        && door.accept() == Ok(())
        && door.receive(&mut piece) == Ok(4)
        && piece == *b"word"
}

/// What both ends do.
#[derive(Clone, Copy)]
pub enum Course {
    Whole,
    Broken,
    Another,
    Heard,
}

/// Whether both ends do all of it.
pub fn takes<D: Door, L: Link>(
    rt: &HostRuntime,
    door: &mut D,
    link: &mut L,
    course: Course,
) -> bool {
    match course {
        Course::Whole => go(door, link),
        Course::Broken => break_off(door, link),
        Course::Another => accepts_another(rt, door, link),
        Course::Heard => accepts_who_speaks(rt, door, link),
    }
}

// A peer that ends with bytes that it didn't read breaks the connection.
#[test]
fn goes_over_loopback(rt: HostRuntime) {
    for course in [
        Course::Whole,
        Course::Broken,
        Course::Another,
        Course::Heard,
    ] {
        let (near, far) = (Patience::with_a_client(), Patience::with_a_relay());
        assert!(rt; meet(&rt, near, far, Peer::Prompt(course)));
    }
}
