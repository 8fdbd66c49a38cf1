//! A client of a port of this machine.
ghost use Rattle.std.specs.Prelude.{◌<◌};

use std::alloc::Global;
use std::io::{self, ErrorKind, Read, Write};
use std::net::{Ipv4Addr, Net, OpenStream, Shutdown, TcpListener, TcpStream};
use std::thread;
use std::time::{Clock, Duration};

/// A port that nothing stood at just now. It is none of those that the system gives to the clients' ends of connections.
pub fn free_port<Rt: Net + Clock>(rt: &Rt) -> io::Result<u16> {
    let start = 10_000 + rt.monotonic()?.subsec_micros() % 20_000;
    for number in start..start + 100 {
        let port = u16::try_from(number).unwrap_or(1);
        if TcpListener::bind(rt, (Ipv4Addr::LOCALHOST, port)).is_ok() {
            return Ok(port);
        }
    }
    Err(io::Error::from(ErrorKind::AddrInUse))
}

/// A connection to the port, as soon as a door stands there, for twenty seconds. A read of it waits no longer either.
pub fn connected<Rt: Net + Clock>(rt: &Rt, port: u16) -> io::Result<Rt::Stream> {
    for _ in 0..2000 {
        if let Ok(stream) = TcpStream::connect(rt, (Ipv4Addr::LOCALHOST, port)) {
            stream.set_nodelay(true)?;
            stream.set_read_timeout(Some(Duration::from_secs(20)))?;
            return Ok(stream);
        }
        thread::sleep(rt, Duration::from_millis(10));
    }
    Err(io::Error::from(ErrorKind::TimedOut))
}

/// All that is answered at the port to these bytes, which are sent in pieces of this size, before the client's side is closed.
pub fn ask<Rt: Net + Clock>(
    rt: &Rt,
    alloc: Global,
    port: u16,
    asked: &[u8],
    piece: usize,
) -> io::Result<Vec<u8>>
    requires { 0 < piece }
{
    let mut stream = connected(rt, port)?;
    for part in asked.chunks(piece) {
        stream.write_all(part)?;
    }
    stream.shutdown(Shutdown::Write)?;
    let mut answer = Vec::new(alloc);
    stream.read_to_end(&mut answer)?;
    Ok(answer)
}
