//! Test clients over HTTP, and orders over the order protocol, along with their streams on a simulated network.
//! Contracts know the bytes that they send.

ghost use Rattle.std.specs.Prelude.{◌≡◌, None, Some, length, nat_lt};
ghost use Rattle.connections.specs.Tables.{with_removed};
ghost use Rattle.sockets.specs.Pollers.{unknown};

use connections::{AcceptOutcome, Accepted, Listener, Network, Received, Removed, Stream};
use sockets::SocketNetwork;
use std::alloc::Global;
use std::cell::{Cell, RefCell};
use std::io::{ErrorKind, Write};
use std::test::Fail;
use std::time::{Clock, Duration};
use std::{fmt, io};
use streams::Broken;

/// A client, or an order: what it sends, and whether it then closes its end of the connection. Next, the most bytes available at a time,
/// and the most that it accepts at a time. Last, the number of bytes after which reading fails, and the number after
/// which writing fails.
#[derive(Clone, Copy, Debug)]
pub struct TestClient<'a> {
    pub is_order: bool,
    pub sends: &'a [u8],
    pub closes_after_sending: bool,
    pub bytes_per_read: usize,
    pub bytes_per_write: usize,
    pub heard: usize,
    pub takes: usize,
}

impl<'a> TestClient<'a> {
    /// Returns a client that sends all of `sends` at once and accepts its whole response at once. Its stream doesn't
    /// fail.
    pub fn whole(sends: &'a [u8]) -> TestClient<'a> {
        TestClient {
            is_order: false,
            sends,
            closes_after_sending: true,
            bytes_per_read: usize::MAX,
            bytes_per_write: usize::MAX,
            heard: usize::MAX,
            takes: usize::MAX,
        }
    }

    /// Returns an order with the given message; the client doesn't close its end of the connection.
    pub fn order(message: &'a [u8]) -> TestClient<'a> {
        TestClient {
            is_order: true,
            closes_after_sending: false,
            ..TestClient::whole(message)
        }
    }

    /// Returns a client that sends and accepts at most `bytes_per_read` bytes at a time.
    pub fn slow(sends: &'a [u8], bytes_per_read: usize) -> TestClient<'a> {
        TestClient {
            bytes_per_read,
            bytes_per_write: bytes_per_read,
            ..TestClient::whole(sends)
        }
    }

    /// Returns a client that sends nothing and doesn't close its end of the connection.
    pub fn silent() -> TestClient<'a> {
        TestClient {
            closes_after_sending: false,
            ..TestClient::whole(&[])
        }
    }
}

/// Clients in the order in which they connect; `None` is a connection that fails while being accepted.
pub type TestClients<'a> = &'a [Option<TestClient<'a>>];

/// A server in a test: its clients, and which of them the network reports as ready after each wait, either all that
/// were accepted or only those with the listed numbers, in order. Next, the number of clients after which serving ends,
/// how many seconds pass between two readings of the clock, and the number of waits after which the network fails.
/// Last, the text of a file of clerks' codes, if there is a gate.
#[derive(Clone, Copy, Debug)]
pub struct Evening<'a> {
    pub clients: TestClients<'a>,
    pub told: Option<&'a [usize]>,
    pub connections: Option<u64>,
    pub seconds: u64,
    pub waits: u64,
    pub codes: Option<&'a str>,
}

impl<'a> Evening<'a> {
    /// Returns an evening with the given clients, during which all of them are served and no time passes.
    pub fn of(clients: TestClients<'a>) -> Evening<'a> {
        Evening {
            clients,
            told: None,
            connections: Some(clients.len() as u64),
            seconds: 0,
            waits: 10_000,
            codes: None,
        }
    }
}

/// A client's stream, and the page to which the bytes it accepts are written.
#[derive(Drop)]
pub struct TestStream<'s, 'p> {
    left: &'s [u8],
    client: TestClient<'s>,
    page: &'p RefCell<Vec<u8>>,
    now: usize,
    writable_now: usize,
}

impl<'s, 'p> TestStream<'s, 'p> {
    fn new(client: TestClient<'s>, page: &'p RefCell<Vec<u8>>) -> TestStream<'s, 'p> {
        TestStream {
            left: client.sends,
            client,
            page,
            now: client.bytes_per_read,
            writable_now: client.bytes_per_write,
        }
    }
}

impl Stream for TestStream<'_, '_> {
    ghost held = { λ t. Some t.left.now };

    ghost taken = { λ _. None };

    ghost failed = { λ _. None };

    ghost idle = { λ _. None };

    fn fetch(&mut self, room: &mut [u8]) -> Result<Received, Broken> {
        if self.client.heard == 0 {
            return Err(Broken);
        }
        if self.left.is_empty() {
            return Ok(if self.client.closes_after_sending {
                Received::End
            } else {
                Received::Nothing
            });
        }
        let most = self.now.min(self.client.heard);
        let count = room.len().min(self.left.len()).min(most);
        if count == 0 {
            self.now = self.client.bytes_per_read;
            return Ok(Received::Nothing);
        }
        let (now, later) = self.left.split_at(count);
        room[..count].copy_from_slice(now);
        self.left = later;
        self.now -= count;
        self.client.heard -= count;
        Ok(Received::Bytes(count))
    }

    fn put(&mut self, bytes: &[u8]) -> Result<usize, Broken> {
        if self.client.takes == 0 {
            return Err(Broken);
        }
        let count = bytes.len().min(self.writable_now).min(self.client.takes);
        if count == 0 {
            self.writable_now = self.client.bytes_per_write;
            return Ok(0);
        }
        let Ok(mut page) = self.page.try_borrow_mut() else {
            return Err(Broken);
        };
        match page.extend_from_slice(&bytes[..count]) {
            Ok(()) => {
                self.writable_now -= count;
                self.client.takes -= count;
                Ok(count)
            }
            Err(_) => Err(Broken),
        }
    }
}

/// The network on which clients connect, and the number of clients reported since the last wait.
#[derive(Drop)]
pub struct TestNetwork<'c, 'p> {
    evening: Evening<'c>,
    pages: &'p [RefCell<Vec<u8>>],
    clock: Jumping,
    next: usize,
    came: u64,
    told: usize,
}

impl<'c, 'p> TestNetwork<'c, 'p> {
    /// Returns the network of an evening, with a page for each client.
    pub fn new(evening: Evening<'c>, pages: &'p [RefCell<Vec<u8>>]) -> TestNetwork<'c, 'p> {
        TestNetwork {
            evening,
            pages,
            clock: Jumping::by(evening.seconds),
            next: 0,
            came: 0,
            told: 0,
        }
    }

    /// Accepts the next client under the given number.
    fn lets_in(&mut self, number: u64) {
        self.next = self.next.saturating_add(1);
        self.came = number.saturating_add(1);
    }
}

impl<'c, 'p> Network for TestNetwork<'c, 'p> {
    type Stream = TestStream<'c, 'p>;

    ghost known = { λ _. unknown };

    ghost pending = { λ coming. nat_lt coming.next (length coming.evening.clients.now) };

    fn now(&mut self) -> Result<u64, Broken> {
        now_by(&self.clock)
    }

    fn close(&mut self, removed: Removed<TestStream<'c, 'p>>)
        ensures { unknown ≡ with_removed unknown removed.entry }
    {
        drop(removed);
    }

    fn wait(&mut self, _most: Duration) -> Result<(), Broken> {
        if self.evening.waits == 0 {
            return Err(Broken);
        }
        self.evening.waits -= 1;
        self.told = 0;
        Ok(())
    }

    fn next_ready(&mut self) -> Option<u64> {
        let number = match self.evening.told {
            Some(numbers) => *numbers.get(self.told)?,
            None => self.told,
        } as u64;
        if number >= self.came {
            return None;
        }
        self.told = self.told.saturating_add(1);
        Some(number)
    }

    fn accept(&mut self, number: u64, clients_too: bool) -> AcceptOutcome<TestStream<'c, 'p>> {
        let clients = self.evening.clients;
        let (Some(next), Some(page)) = (clients.get(self.next), self.pages.get(self.next)) else {
            return AcceptOutcome::Nobody;
        };
        let Some(client) = next else {
            self.next = self.next.saturating_add(1);
            return AcceptOutcome::NotNow;
        };
        if client.is_order {
            self.lets_in(number);
            return AcceptOutcome::One(Accepted {
                listener: Listener::Orders,
                stream: TestStream::new(*client, page),
            });
        }
        if clients_too {
            self.lets_in(number);
            return AcceptOutcome::One(Accepted {
                listener: Listener::Clients,
                stream: TestStream::new(*client, page),
            });
        }
        AcceptOutcome::Nobody
    }

    fn has_pending(&self) -> bool {
        self.next < self.evening.clients.len()
    }
}

/// Returns `count` empty pages, one per client.
pub fn pages_of(alloc: Global, count: usize) -> Result<Vec<RefCell<Vec<u8>>>, Fail> {
    let mut pages = Vec::new(alloc);
    for _ in 0..count {
        pages.push(RefCell::new(Vec::new(alloc)))?;
    }
    Ok(pages)
}

/// Returns the contents of the pages, separated by line feeds.
pub fn joined(alloc: Global, pages: Vec<RefCell<Vec<u8>>>) -> Result<String, Fail> {
    let mut all = Vec::new(alloc);
    for (place, page) in pages.into_iter().enumerate() {
        if place > 0 {
            all.push(b'\n')?;
        }
        let page = page.into_inner();
        all.extend_from_slice(page.as_slice())?;
    }
    Ok(String::from_utf8(all)?)
}

/// The network on a port of the test's host, and the number of clients after which serving ends.
#[derive(Drop)]
pub struct Port {
    pub network: RefCell<SocketNetwork<Jumping>>,
    pub connections: u64,
}

impl fmt::Debug for Port {
    fn fmt<W: fmt::Write>(&self, f: &mut fmt::Formatter<W>) -> fmt::Result {
        write!(f, "a port, {} connections", self.connections)
    }
}

/// A clock that advances by a fixed number of seconds at each reading.
#[derive(Drop)]
pub struct Jumping {
    now: Cell<u64>,
    by: u64,
}

impl Jumping {
    pub fn by(seconds: u64) -> Jumping {
        Jumping {
            now: Cell::new(0),
            by: seconds,
        }
    }
}

/// Returns a clock's current time, in milliseconds.
fn now_by<C: Clock>(clock: &C) -> Result<u64, Broken> {
    match clock.monotonic() {
        Ok(since) => Ok(u64::try_from(since.as_millis()).unwrap_or(u64::MAX)),
        Err(_) => Err(Broken),
    }
}

impl Clock for Jumping {
    fn monotonic(&self) -> io::Result<Duration> {
        let now = self.now.get();
        self.now.set(now.saturating_add(self.by));
        Ok(Duration::from_secs(now))
    }

    fn since_1970(&self) -> io::Result<Duration> {
        self.monotonic()
    }
}

/// A writer that keeps the bytes it accepted before it failed.
#[derive(Drop)]
pub struct LimitedWriter {
    taken: Vec<u8>,
    room: usize,
}

impl LimitedWriter {
    /// Returns a writer that accepts `room` bytes, and then fails.
    pub fn new(alloc: Global, room: usize) -> LimitedWriter {
        LimitedWriter {
            taken: Vec::new(alloc),
            room,
        }
    }

    /// Returns the accepted bytes as text.
    pub fn text(self) -> Result<String, Fail> {
        let LimitedWriter { taken, .. } = self;
        Ok(String::from_utf8(taken)?)
    }
}

impl Write for LimitedWriter {
    fn write(&mut self, bytes: &[u8]) -> io::Result<usize> {
        let count = bytes.len().min(self.room);
        if count < bytes.len() && count == 0 {
            return Err(io::Error::from(ErrorKind::BrokenPipe));
        }
        match self.taken.extend_from_slice(&bytes[..count]) {
            Ok(()) => {
                self.room -= count;
                Ok(count)
            }
            Err(_) => Err(io::Error::from(ErrorKind::OutOfMemory)),
        }
    }

    fn flush(&mut self) -> io::Result<()> {
        Ok(())
    }
}
