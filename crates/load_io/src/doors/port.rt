// A door at a port of the system.
ghost use Rattle.std.specs.Prelude.{◌≡◌, ◌↔◌, ◌-◌, ◌<◌, ◌≤◌, None, Ok, IsTrue, IfOk, IfSome, OnErr};
ghost use Rattle.load_io.specs.Port.{most_links, gate_at, after_link, after_fault, Passes};

use crate::links::stream::TcpLink;
use crate::{Door, Failed};
use std::io::{self, ErrorKind};
use std::marker::Model;
use std::net::{Ipv4Addr, Net, OpenListener, OpenStream, TcpListener};
use std::thread;
use std::time::{Clock, Duration};

/// So many connections come in at a door at most. Then it is closed.
const MOST_LINKS: u32 = 1_000_000;

/// So often a connection is asked for at most, where it does not come for a reason that passes.
const MOST_TRIES: u32 = 600;

/// The system's numbers of the errors that pass: interrupted, no memory, no descriptor in the system or in the program, a
/// connection given up or reset, and no room for one.
const PASSING_CODES: [i32; 7] = [4, 12, 23, 24, 103, 104, 105];

/// A door at a port of this machine, which only this machine reaches. The port is bound when the first link is asked for,
/// and let go when the door closes or fails. Its links are hidden. It counts its failures up to the last value of the
/// counter.
#[derive(Drop)]
pub struct TcpDoor<Rt: Net + Clock> {
    rt: Rt,
    port: u16,
    listener: Option<Rt::Listener>,
    came: u32,
    lent: u32,
    faults: u64,
}

impl<Rt: Net + Clock> Model for TcpDoor<Rt> {
    ghost use Rattle.std.specs.Prelude.{◌≤◌};
    ghost use Rattle.load_io.specs.Port.{Gate, most_links};

    ghost Value = { Gate };

    ghost view = { λ door. record { port = door.port; came = door.came; lent = door.lent; faults = door.faults } };

    ghost invariant = { λ door. (door.lent ≤ door.came) × (door.came ≤ most_links) };
}

impl<Rt: Net + Clock> TcpDoor<Rt> {
    /// The door at this port, which is not bound yet. No failure has been counted yet.
    pub fn new(rt: Rt, port: u16) -> TcpDoor<Rt>
        ensures { result ≡ gate_at port }
    {
        TcpDoor {
            rt,
            port,
            listener: None,
            came: 0,
            lent: 0,
            faults: 0,
        }
    }
}

/// Whether a later try may give a connection: what failed concerns one connection alone, or there was no descriptor or no
/// memory for one.
fn passes(error: &io::Error) -> bool
    ensures { IsTrue result ↔ Passes error.now }
{
    match error.raw_os_error() {
        Some(code) => PASSING_CODES.contains(&code),
        None => false,
    }
}

/// Small answers are sent at once, and a client that neither sends nor takes a byte for half a minute fails a call.
fn prepare<S: OpenStream>(stream: &S) -> io::Result<()> {
    let patience = Some(Duration::from_secs(30));
    stream.set_nodelay(true)?;
    stream.set_read_timeout(patience)?;
    stream.set_write_timeout(patience)
}

/// The next connection. Where none comes for a reason that passes, it is tried again, a tenth of a second later.
fn accept<Rt: Net + Clock>(rt: &Rt, listener: &Rt::Listener) -> io::Result<Rt::Stream> {
    for _ in 0..MOST_TRIES {
        match listener.accept() {
            Ok((stream, _)) if prepare(&stream).is_ok() => return Ok(stream),
            Err(error) if !passes(&error) => return Err(error),
            _ => thread::sleep(rt, Duration::from_millis(100)),
        }
    }
    Err(io::Error::from(ErrorKind::TimedOut))
}

/// The next connection at the port, which is bound first where it is not yet.
fn accept_at<Rt: Net + Clock>(
    rt: &Rt,
    port: u16,
    listener: &mut Option<Rt::Listener>,
) -> io::Result<Rt::Stream> {
    if let Some(bound) = listener {
        return accept(rt, bound);
    }
    let bound = TcpListener::bind(rt, (Ipv4Addr::LOCALHOST, port))?;
    let stream = accept(rt, &bound)?;
    *listener = Some(bound);
    Ok(stream)
}

impl<Rt: Net + Clock> Door for TcpDoor<Rt>
where
    Rt::Stream: Send,
{
    type Link = TcpLink<Rt::Stream>;

    ghost coming = { λ _. None };

    ghost handed = { λ _. None };

    ghost lent = { λ door. door.lent };

    ghost faults = { λ door. door.faults };

    fn next(&mut self) -> Result<Option<TcpLink<Rt::Stream>>, Failed>
        ensures closed { (result ≡ Ok None) ↔ (self.old.came ≡ most_links) }
        ensures none { result ≡ Ok None → self.new ≡ self.old }
        ensures brought { IfOk result (λ next. IfSome next (λ _. self.new ≡ after_link self.old)) }
        ensures failed { OnErr result (self.new ≡ after_fault self.old) }
        ensures never_falls { self.old.faults ≤ self.new.faults }
    {
        if self.came == MOST_LINKS {
            self.listener = None;
            return Ok(None);
        }
        match accept_at(&self.rt, self.port, &mut self.listener) {
            Ok(stream) => {
                self.came += 1;
                self.lent += 1;
                Ok(Some(TcpLink::new(stream)))
            }
            Err(_) => {
                self.listener = None;
                self.faults = self.faults.saturating_add(1);
                Err(Failed)
            }
        }
    }

    fn done(&mut self, _link: TcpLink<Rt::Stream>)
        requires lent { 0 < self.old.lent }
        ensures handed { self.new ≡ record self.old { lent = self.old.lent - 1 } }
    {
        self.lent -= 1;
    }
}
