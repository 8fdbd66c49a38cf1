// Doors of other kinds: one that never fails, and a real port with a client.
ghost use Rattle.std.specs.Prelude.{None};

use crate::examples::{joined, office};
use base_words::NoMemory;
use desk_serve::{DoorsRun, serve_doors};
use keeper::{Keeper, MemoryKeeper};
use load_io::{Door, Failed, SureDoor, SureLink, TcpDoor};
use placer::Direct;
use std::alloc::Global;
use std::io::{Read, Write};
use std::net::{Ipv4Addr, Net, TcpListener, TcpStream};
use std::process::Abort;
use std::sync::Wait;
use std::test::Fail;
use std::thread::Threads;
use std::{io, thread};
use worked_day::MORNING;

/// What comes after the limits in the morning.
const AFTER_LIMITS: &str = "PUT /flights/XX210-12/cabin/4";

/// The limits once more, at the edition before.
const LIMITS_AGAIN: &str = "\
    PUT /flights/XX210-12/limits/3 HTTP/1.1\r\n\
    Content-Length: 33\r\n\
    \r\n\
    {\"takeoff\":73500,\"landing\":66000}";

/// The answers to the morning up to the limits, and to the limits once more.
const ANSWERS: &str = "\
    HTTP/1.1 201 Created\r\n\
    Content-Type: application/json\r\n\
    Content-Length: 30\r\n\
    \r\n\
    {\"edition\":1,\"key\":\"XX210-12\"}HTTP/1.1 200 OK\r\n\
    Content-Type: application/json\r\n\
    Content-Length: 13\r\n\
    \r\n\
    {\"edition\":2}HTTP/1.1 200 OK\r\n\
    Content-Type: application/json\r\n\
    Content-Length: 13\r\n\
    \r\n\
    {\"edition\":3}HTTP/1.1 200 OK\r\n\
    Content-Type: application/json\r\n\
    Content-Length: 13\r\n\
    \r\n\
    {\"edition\":4}HTTP/1.1 409 Conflict\r\n\
    Content-Type: application/json\r\n\
    Content-Length: 28\r\n\
    \r\n\
    {\"error\":\"stale\",\"newest\":4}";

/// How often a client tries to connect. After each try other threads have the processor.
const MOST_TRIES: u32 = 1_000_000;

/// A door that is closed after one link of another one.
#[derive(Drop)]
struct OneLink<D> {
    door: D,
    came: bool,
}

impl<D: Door> Door for OneLink<D> {
    type Link = D::Link;

    ghost coming = { λ _. None };

    ghost handed = { λ _. None };

    ghost lent = { λ one. D.lent one.door };

    ghost faults = { λ one. D.faults one.door };

    fn next(&mut self) -> Result<Option<D::Link>, Failed> {
        if self.came {
            return Ok(None);
        }
        self.came = true;
        self.door.next()
    }

    fn done(&mut self, link: D::Link) {
        self.door.done(link);
    }
}

/// What is asked: the morning up to the limits, and the limits once more.
fn asked(alloc: Global) -> Result<Vec<u8>, NoMemory> {
    let Some((before, _)) = MORNING.split_once(AFTER_LIMITS) else {
        return joined(alloc, &[]);
    };
    joined(alloc, &[before, LIMITS_AGAIN])
}

/// What an office leaves that served the door.
fn served<Rt: Threads + Wait + Sync, D: Door + Send + Drop>(
    rt: &Rt,
    alloc: Global,
    door: D,
) -> Result<DoorsRun<MemoryKeeper, D>, NoMemory> {
    let (office, keeper) = office(alloc, MemoryKeeper::new(alloc), 100)?;
    let mut doors = Vec::with_capacity(alloc, 1)?;
    doors.push_reserved(door);
    Ok(serve_doors(rt, alloc, office, keeper, doors, &Direct))
}

/// How serving the door ended, how many entries there are, and the rows.
fn told<Rt: Threads + Wait + Sync, D: Door + Send + Drop>(
    rt: &Rt,
    alloc: Global,
    door: D,
) -> Result<Vec<u8>, NoMemory> {
    let mut run = served(rt, alloc, door)?;
    let count = run.history.len();
    let mut text = format!(in alloc; "{:?} {count}|", run.ending)?.into_bytes();
    for row in &run.keeper.load(alloc).map_err(|_| NoMemory)? {
        text.extend_from_slice(row.bytes.as_slice())?;
    }
    Ok(text)
}

/// What such a run begins with: five entries, the last of which changed nothing.
const DUE: &[u8] = b"Ok(Closed) 5|FLIGHT 2\nleg XX210 12 DAIAB FRA ARN\nedition 4\n";

#[test]
fn a_door_that_never_fails_is_served_to_its_end(rt: HostRuntime) -> Result<(), Fail> {
    let alloc = rt.alloc();
    let mut links = Vec::with_capacity(alloc, 1)?;
    links.push_reserved(SureLink::new(asked(alloc)?));
    let text = told(&rt, alloc, SureDoor::new(alloc, links)?)?;
    assert!(rt; text.starts_with(DUE));
    Ok(())
}

/// A connection to the port, as soon as there is one.
fn connected<Rt: Net<Listener = TcpListener, Stream = TcpStream>>(
    rt: &Rt,
    port: u16,
) -> Option<TcpStream> {
    for _ in 0..MOST_TRIES {
        if let Ok(stream) = TcpStream::connect(rt, (Ipv4Addr::LOCALHOST, port)) {
            return Some(stream);
        }
        thread::yield_now();
    }
    None
}

/// Sends the text in pieces of one byte, and adds what is answered up to so many bytes.
fn exchange(
    stream: &mut TcpStream,
    text: &[u8],
    due: usize,
    heard: &mut Vec<u8>,
) -> io::Result<()> {
    for byte in text {
        stream.write_all(&[*byte])?;
    }
    let mut piece = [0; 100];
    for _ in 0..due {
        if heard.len() >= due {
            break;
        }
        let count = stream.read(&mut piece)?;
        heard.extend_from_slice(&piece[..count])?;
    }
    Ok(())
}

/// What a client hears at the port. It stops the test where nobody listens there.
fn heard<Rt: Net<Listener = TcpListener, Stream = TcpStream> + Abort>(
    rt: &Rt,
    alloc: Global,
    port: u16,
) -> io::Result<Vec<u8>> {
    let asked = asked(alloc).expect(rt, "memory");
    let mut heard = Vec::new(alloc);
    let mut stream = connected(rt, port).expect(rt, "somebody listens at the port");
    exchange(&mut stream, &asked, ANSWERS.len(), &mut heard)?;
    Ok(heard)
}

/// A port of this machine at which nobody listens.
fn free_port<Rt: Net<Listener = TcpListener, Stream = TcpStream>>(rt: &Rt) -> io::Result<u16> {
    let listener = TcpListener::bind(rt, (Ipv4Addr::LOCALHOST, 0))?;
    Ok(listener.local_addr()?.port())
}

#[test]
fn a_client_at_a_real_port_is_answered(rt: HostRuntime) -> Result<(), Fail> {
    let alloc = rt.alloc();
    let port = free_port(&rt)?;
    let door = OneLink {
        door: TcpDoor::new(rt, port),
        came: false,
    };
    let (text, heard) = thread::join(&rt, || told(&rt, alloc, door), || heard(&rt, alloc, port));
    assert!(rt; text?.starts_with(DUE));
    assert!(rt; heard?.as_slice() == ANSWERS.as_bytes());
    Ok(())
}
