// Doors at ports of this machine, and clients in the same process.
use crate::client::{ask, connected, free_port};
use load_io::{Door, Failed, Link, TcpDoor, send_all};
use std::alloc::Global;
use std::net::{Ipv4Addr, Net, TcpListener, TcpStream};
use std::test::Fail;
use std::time::Clock;
use std::{io, thread};

const ASKED: &[u8] = b"PUT /flights/XX210-12/dry/3 HTTP/1.1\r\nContent-Length: 0\r\n\r\n";

/// A long answer, which no two of its halves, quarters and so on have in common.
fn long_answer(alloc: Global) -> Result<Vec<u8>, Fail> {
    let mut answer = Vec::with_capacity(alloc, 1 << 20)?;
    for number in 0..1u32 << 18 {
        answer.extend_from_slice(&number.to_be_bytes())?;
    }
    Ok(answer)
}

/// Whether the link gives exactly this text and then its end.
fn is_heard<L: Link>(link: &mut L, text: &[u8]) -> bool {
    let mut left = text;
    let mut buf = [0; 16];
    for _ in 0..=text.len() {
        let Ok(count) = link.read(&mut buf) else {
            return false;
        };
        if count == 0 {
            return left.is_empty();
        }
        let Some(rest) = left.strip_prefix(&buf[..count]) else {
            return false;
        };
        left = rest;
    }
    false
}

/// Whether so many links come at the door, one after another, and each is heard and answered.
fn attends<D: Door>(door: &mut D, links: u32, asked: &[u8], answer: &[u8]) -> bool {
    for _ in 0..links {
        let Ok(Some(mut link)) = door.next() else {
            return false;
        };
        let is_answered = is_heard(&mut link, asked) && send_all(&mut link, answer).is_ok();
        door.done(link);
        if !is_answered {
            return false;
        }
    }
    true
}

/// Whether two clients get the answer, one after another. One sends single bytes, the other pieces of sixteen.
fn are_answered<Rt: Net + Clock>(
    rt: &Rt,
    alloc: Global,
    port: u16,
    due: &[u8],
) -> io::Result<bool> {
    let first = ask(rt, alloc, port, ASKED, 1)?;
    let second = ask(rt, alloc, port, ASKED, 16)?;
    Ok(first.as_slice() == due && second.as_slice() == due)
}

#[test]
fn links_come_one_after_another_and_are_answered_whole(rt: HostRuntime) -> Result<(), Fail> {
    let answer = long_answer(rt.alloc())?;
    let port = free_port(&rt)?;
    let mut door = TcpDoor::new(rt, port);
    let (are_attended, answered) = thread::join(
        &rt,
        || attends(&mut door, 2, ASKED, answer.as_slice()),
        || are_answered(&rt, rt.alloc(), port, answer.as_slice()),
    );
    assert!(rt; are_attended);
    assert!(rt; answered?);
    Ok(())
}

/// Whether a connection to the port comes, and then none to another address of this machine.
fn is_at_one_address<Rt: Net + Clock>(rt: &Rt, port: u16) -> bool {
    let Ok(_here) = connected(rt, port) else {
        return false;
    };
    TcpStream::connect(rt, (Ipv4Addr::new(127, 0, 0, 2), port)).is_err()
}

#[test]
fn a_door_stands_at_one_address_and_lets_it_go(rt: HostRuntime) -> Result<(), Fail> {
    let port = free_port(&rt)?;
    let mut door = TcpDoor::new(rt, port);
    let answered = thread::join(
        &rt,
        || attends(&mut door, 1, b"", b""),
        || is_at_one_address(&rt, port),
    );
    assert_eq!(rt; answered, (true, true));
    drop(door);
    assert!(rt; TcpStream::connect(&rt, (Ipv4Addr::LOCALHOST, port)).is_err());
    Ok(())
}

#[test]
fn a_port_that_is_taken_fails(rt: HostRuntime) -> Result<(), Fail> {
    let port = free_port(&rt)?;
    let _taken = TcpListener::bind(&rt, (Ipv4Addr::LOCALHOST, port))?;
    let mut door = TcpDoor::new(rt, port);
    for _ in 0..3 {
        assert!(rt; matches!(door.next(), Err(Failed)));
    }
    Ok(())
}
