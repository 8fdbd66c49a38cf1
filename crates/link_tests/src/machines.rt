// A machine whose connections come after some failures, and take and give one byte at a time.
use load_io::{Door, Failed, Link, TcpDoor, send_all};
use std::io::{self, ErrorKind, Read, Write};
use std::net::{IpAddr, Ipv4Addr, Net, OpenListener, OpenStream, SocketAddr};
use std::os::fd::{AsRawFd, RawFd};
use std::sync::atomic::{AtomicU64, Ordering};
use std::time::{Clock, Duration};

const TEXT: &[u8] = b"GET /flights";

/// A machine, at whose port so many connections fail with this error of the system before one comes. It counts how long it was
/// slept at it, in milliseconds, and notes how a connection was prepared, the times in seconds.
#[derive(Drop)]
struct Machine {
    failing: u64,
    error: i32,
    /// The address that was bound: its four bytes, and its port.
    address: AtomicU64,
    asked: AtomicU64,
    slept: AtomicU64,
    is_direct: AtomicU64,
    read_patience: AtomicU64,
    write_patience: AtomicU64,
    taken: AtomicU64,
}

impl Machine {
    fn new(failing: u64, error: i32) -> Machine {
        Machine {
            failing,
            error,
            address: AtomicU64::new(0),
            asked: AtomicU64::new(0),
            slept: AtomicU64::new(0),
            is_direct: AtomicU64::new(0),
            read_patience: AtomicU64::new(0),
            write_patience: AtomicU64::new(0),
            taken: AtomicU64::new(0),
        }
    }
}

/// The machine as a runtime, a bound port of it, and a connection.
#[derive(Clone, Copy, Drop)]
struct On<'a>(&'a Machine);

#[derive(Drop)]
struct Port<'a>(&'a Machine);

#[derive(Drop)]
struct Connection<'a> {
    machine: &'a Machine,
    left: &'static [u8],
}

impl<'a> Net for On<'a> {
    type Stream = Connection<'a>;

    type Listener = Port<'a>;

    fn bind(&self, addr: SocketAddr) -> io::Result<Port<'a>> {
        if let IpAddr::V4(ip) = addr.ip() {
            let address = (u64::from(ip.to_bits()) << 16) + u64::from(addr.port());
            self.0.address.store(address, Ordering::SeqCst);
        }
        Ok(Port(self.0))
    }

    fn connect(&self, _addr: SocketAddr) -> io::Result<Connection<'a>> {
        Err(io::Error::from(ErrorKind::Unsupported))
    }
}

impl Clock for On<'_> {
    fn monotonic(&self) -> io::Result<Duration> {
        Err(io::Error::from(ErrorKind::Unsupported))
    }

    fn since_1970(&self) -> io::Result<Duration> {
        Err(io::Error::from(ErrorKind::Unsupported))
    }

    fn sleep(&self, duration: Duration) {
        let millis = u64::try_from(duration.as_millis()).unwrap_or(u64::MAX);
        self.0.slept.fetch_add(millis, Ordering::SeqCst);
    }
}

impl<'a> OpenListener for Port<'a> {
    type Stream = Connection<'a>;

    fn accept(&self) -> io::Result<(Connection<'a>, SocketAddr)> {
        if self.0.asked.fetch_add(1, Ordering::SeqCst) < self.0.failing {
            return Err(io::Error::from_raw_os_error(self.0.error));
        }
        let connection = Connection {
            machine: self.0,
            left: TEXT,
        };
        let client = SocketAddr::new(IpAddr::V4(Ipv4Addr::LOCALHOST), 40000);
        Ok((connection, client))
    }
}

impl AsRawFd for Port<'_> {
    fn as_raw_fd(&self) -> RawFd {
        -1
    }
}

impl AsRawFd for Connection<'_> {
    fn as_raw_fd(&self) -> RawFd {
        -1
    }
}

/// The whole seconds of a time-out.
fn seconds(patience: Option<Duration>) -> u64 {
    match patience {
        Some(duration) => duration.as_secs(),
        None => 0,
    }
}

impl OpenStream for Connection<'_> {
    fn set_nodelay(&self, nodelay: bool) -> io::Result<()> {
        let is_direct = u64::from(nodelay);
        self.machine.is_direct.store(is_direct, Ordering::SeqCst);
        Ok(())
    }

    fn set_read_timeout(&self, dur: Option<Duration>) -> io::Result<()> {
        let patience = seconds(dur);
        self.machine.read_patience.store(patience, Ordering::SeqCst);
        Ok(())
    }

    fn set_write_timeout(&self, dur: Option<Duration>) -> io::Result<()> {
        let patience = seconds(dur);
        self.machine
            .write_patience
            .store(patience, Ordering::SeqCst);
        Ok(())
    }
}

impl Read for Connection<'_> {
    fn read(&mut self, buf: &mut [u8]) -> io::Result<usize> {
        match (self.left, buf) {
            ([first, rest @ ..], [slot, ..]) => {
                *slot = *first;
                self.left = rest;
                Ok(1)
            }
            _ => Ok(0),
        }
    }
}

impl Write for Connection<'_> {
    fn write(&mut self, buf: &[u8]) -> io::Result<usize> {
        let Some(byte) = buf.first() else {
            return Ok(0);
        };
        let taken = self.machine.taken.fetch_add(1, Ordering::SeqCst);
        let due = TEXT.get(usize::try_from(taken).unwrap_or(usize::MAX));
        if due != Some(byte) {
            return Err(io::Error::from(ErrorKind::BrokenPipe));
        }
        Ok(1)
    }

    fn flush(&mut self) -> io::Result<()> {
        Ok(())
    }
}

/// Whether the next link comes at a door of this machine.
fn comes(machine: &Machine) -> bool {
    let mut door = TcpDoor::new(On(machine), 8101);
    matches!(door.next(), Ok(Some(_)))
}

#[test]
fn a_door_is_bound_to_its_port_of_this_machine_alone(rt: HostRuntime) {
    for port in [1, 8101, 8102, 65535] {
        let machine = Machine::new(0, 0);
        let mut door = TcpDoor::new(On(&machine), port);
        assert!(rt; matches!(door.next(), Ok(Some(_))));
        let address = machine.address.load(Ordering::SeqCst);
        // 127.0.0.1
        assert_eq!(rt; address, (0x7f000001 << 16) + u64::from(port));
    }
}

// The errors are those of Linux: interrupted, no memory, no descriptor in the system or in the program, a connection given up or
// reset, and no room for one.
#[test]
fn a_failure_that_passes_is_tried_again(rt: HostRuntime) {
    for error in [4, 12, 23, 24, 103, 104, 105] {
        let machine = Machine::new(3, error);
        assert!(rt; comes(&machine), "at {error}");
        assert_eq!(rt; machine.slept.load(Ordering::SeqCst), 300, "at {error}");
    }
}

// A minute, and no longer.
#[test]
fn a_failure_is_tried_again_600_times(rt: HostRuntime) {
    for (failing, does_come) in [(599, true), (600, false)] {
        let machine = Machine::new(failing, 24);
        assert_eq!(rt; comes(&machine), does_come, "at {failing}");
        assert_eq!(rt; machine.slept.load(Ordering::SeqCst), failing * 100);
    }
}

// What was bound is no port, or takes no connections.
#[test]
fn a_failure_that_stays_fails_at_once(rt: HostRuntime) {
    for error in [9, 22, 88, 95] {
        let machine = Machine::new(3, error);
        assert!(rt; !comes(&machine), "at {error}");
        assert_eq!(rt; machine.asked.load(Ordering::SeqCst), 1, "at {error}");
        assert_eq!(rt; machine.slept.load(Ordering::SeqCst), 0, "at {error}");
    }
}

#[test]
fn a_link_waits_for_half_a_minute(rt: HostRuntime) {
    let machine = Machine::new(0, 0);
    assert!(rt; comes(&machine));
    assert_eq!(rt; machine.is_direct.load(Ordering::SeqCst), 1);
    assert_eq!(rt; machine.read_patience.load(Ordering::SeqCst), 30);
    assert_eq!(rt; machine.write_patience.load(Ordering::SeqCst), 30);
}

/// Whether the link gives the text, one byte at a time, and then its end.
fn is_heard<L: Link>(link: &mut L) -> bool {
    let mut buf = [0; 16];
    for byte in TEXT {
        if link.read(&mut buf) != Ok(1) || buf.first() != Some(byte) {
            return false;
        }
    }
    link.read(&mut buf) == Ok(0)
}

#[test]
fn a_link_of_single_bytes_gives_and_takes_the_text(rt: HostRuntime) {
    let machine = Machine::new(0, 0);
    let mut door = TcpDoor::new(On(&machine), 8101);
    let Ok(Some(mut link)) = door.next() else {
        panic!(rt; "no link comes");
    };
    assert!(rt; is_heard(&mut link));
    assert_eq!(rt; send_all(&mut link, TEXT), Ok(()));
    assert_eq!(rt; machine.taken.load(Ordering::SeqCst), 12);
    assert_eq!(rt; link.write(b"/"), Err(Failed));
    door.done(link);
}
