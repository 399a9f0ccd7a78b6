//! Votes, their text, and the streams to which the text is written.

use crate::sheet_outputs::{is_text, is_told};
use std::alloc::{AllocError, Global};
use std::io;
use std::io::{ErrorKind, Read, Write};
use std::process::Abort;
use std::test::Fail;
use streams::{Broken, Counted, Sink, Source, put_all};
use votes::{Votes, quota, transfer_value};

/// A writer that accepts three bytes at a time, and fails once it is full.
#[derive(Drop)]
struct Narrow {
    page: Vec<u8>,
    room: usize,
}

impl Write for Narrow {
    fn write(&mut self, bytes: &[u8]) -> io::Result<usize> {
        let n = bytes.len().min(3);
        if n > self.room {
            return Err(io::Error::from(ErrorKind::BrokenPipe));
        }
        self.room -= n;
        self.page.extend_from_slice(&bytes[..n])?;
        Ok(n)
    }

    fn flush(&mut self) -> io::Result<()> {
        Ok(())
    }
}

/// A writer that accepts no bytes.
#[derive(Drop)]
struct Full;

impl Write for Full {
    fn write(&mut self, _bytes: &[u8]) -> io::Result<usize> {
        Ok(0)
    }

    fn flush(&mut self) -> io::Result<()> {
        Ok(())
    }
}

/// A stream that fails on the first call and on every second call after it; in between, a write accepts all bytes, and
/// a read returns one.
#[derive(Drop)]
struct TornStream {
    page: Vec<u8>,
    fails: bool,
}

impl TornStream {
    fn next(&mut self) -> io::Result<()> {
        self.fails = !self.fails;
        if self.fails {
            return Err(io::Error::from(ErrorKind::BrokenPipe));
        }
        Ok(())
    }
}

impl Write for TornStream {
    fn write(&mut self, bytes: &[u8]) -> io::Result<usize> {
        self.next()?;
        self.page.extend_from_slice(bytes)?;
        Ok(bytes.len())
    }

    fn flush(&mut self) -> io::Result<()> {
        Ok(())
    }
}

impl Read for TornStream {
    fn read(&mut self, room: &mut [u8]) -> io::Result<usize> {
        self.next()?;
        Ok(room.len().min(1))
    }
}

/// Returns the text of a value.
fn text_of(alloc: Global, votes: Votes) -> Result<String, AllocError> {
    format!(in alloc; "{votes}")
}

/// Returns the bytes of a value's text that an in-memory sink accepts.
fn written(alloc: Global, votes: Votes) -> Result<Vec<u8>, Broken> {
    let mut page = Vec::new(alloc);
    votes.write(&mut Counted::new(&mut page))?;
    Ok(page)
}

fn prints(rt: &(impl Abort + AllocGlobal), votes: Votes, text: &str) -> Result<(), Fail> {
    let printed = text_of(rt.alloc(), votes)?;
    is_text(rt, printed.as_str(), text);
    let page = written(rt.alloc(), votes)?;
    is_told(rt, &page, text);
    Ok(())
}

/// Returns quotas, transfer values, and zero.
fn values() -> [Votes; 6] {
    let surplus = Votes::from_units(250000);
    let credited = Votes::from_units(650000);
    [
        quota(4999500, 1),
        quota(4999500, 15),
        quota(0, 15),
        transfer_value(surplus, Votes::from_units(100000), credited),
        transfer_value(surplus, Votes::from_units(50000), credited),
        Votes::from_units(0),
    ]
}

/// The texts of those values.
const TEXTS: [&str; 6] = [
    "2499751.00000",
    "312469.00000",
    "1.00000",
    "0.38461",
    "0.19230",
    "0.00000",
];

#[test]
fn values_and_their_text(rt: HostRuntime) -> Result<(), Fail> {
    let values = values();
    for (votes, text) in values.iter().zip(&TEXTS) {
        prints(&rt, *votes, *text)?;
    }
    assert_eq!(&rt; quota(9, 2).units(), 400000);
    Ok(())
}

/// Writes a value to a writer with the given amount of room. Returns whether that was enough, the number of failures,
/// and the accepted bytes.
fn writes_narrowly(alloc: Global, room: usize) -> (bool, u64, Vec<u8>) {
    let mut narrow = Narrow {
        page: Vec::new(alloc),
        room,
    };
    let mut sink = Counted::new(&mut narrow);
    let is_whole = quota(4999500, 1).write(&mut sink).is_ok();
    let failures = sink.failures();
    let Narrow { page, .. } = narrow;
    (is_whole, failures, page)
}

/// Returns whether a prefix is accepted and one failure counted if there isn't room for the whole text.
fn keeps_a_beginning(alloc: Global, text: &[u8], room: usize) -> bool {
    let whole = room == text.len();
    let (is_whole, failures, page) = writes_narrowly(alloc, room);
    let page = page.as_slice();
    let is_beginning = text.starts_with(page) && whole == (page == text);
    is_beginning && is_whole == whole && failures == u64::from(!whole)
}

#[test]
fn a_sink_that_fails_keeps_a_beginning(rt: HostRuntime) {
    let text = b"2499751.00000".as_slice();
    for room in 0..=text.len() {
        assert!(rt; keeps_a_beginning(rt.alloc(), text, room), "room {room}");
    }
}

/// Returns how many of the given bytes a sink accepts. The sink has failed at most a few times before.
fn put<S: Sink>(sink: &mut S, bytes: &[u8]) -> Option<usize> {
    if sink.failures() > 9 {
        return None;
    }
    sink.put(bytes).ok()
}

/// Returns how many bytes are read from a source. The source has failed at most a few times before.
fn fetch<S: Source>(source: &mut S, room: &mut [u8]) -> Option<usize> {
    if source.failures() > 9 {
        return None;
    }
    source.fetch(room).ok()
}

/// Returns whether a sink accepts all the given bytes. The sink has failed at most a few times before.
fn takes_all<S: Sink>(sink: &mut S, bytes: &[u8]) -> bool {
    sink.failures() <= 9 && put_all(sink, bytes).is_ok()
}

/// Checks that writing to a sink without room fails.
fn is_full<S: Sink>(rt: &impl Abort, sink: &mut S) {
    assert!(rt; takes_all(sink, b"") && sink.failures() == 0);
    assert!(rt; !takes_all(sink, b"x") && sink.failures() == 1);
}

/// Checks that a source returns the given number of bytes, and what the buffer then contains.
fn gives<S: Source>(
    rt: &impl Abort,
    source: &mut S,
    room: &mut [u8],
    (count, held): (usize, &[u8]),
) {
    assert!(rt;
        fetch(source, room) == Some(count) && &*room == held,
        "{count} bytes given"
    );
}

/// Checks that a source of the text `ballot` returns it four bytes at a time.
fn gives_ballot<S: Source>(rt: &impl Abort, source: &mut S) {
    let mut room = [0; 4];
    gives(rt, source, &mut room, (4, b"ball"));
    gives(rt, source, &mut room, (2, b"otll"));
    gives(rt, source, &mut room, (0, b"otll"));
    assert_eq!(rt; source.failures(), 0);
}

/// Checks that `taken` bytes are accepted, or that the call fails if `taken` is `None`.
fn puts<S: Sink>(rt: &impl Abort, sink: &mut S, bytes: &[u8], taken: Option<usize>) {
    assert!(rt; put(sink, bytes) == taken, "{taken:?} taken");
}

/// Checks that `given` bytes are read, or that the call fails if `given` is `None`.
fn fetches<S: Source>(rt: &impl Abort, source: &mut S, room: &mut [u8], given: Option<usize>) {
    assert!(rt; fetch(source, room) == given, "{given:?} given");
}

/// Checks that a failure affects only the call in which it occurs.
fn fails_call_by_call<S: Sink + Source>(
    rt: &impl Abort,
    torn: &mut S,
    long: &[u8],
    room: &mut [u8],
) {
    puts(rt, torn, long, None);
    assert!(rt; Sink::failures(torn) == 1);
    puts(rt, torn, long, Some(long.len()));
    fetches(rt, torn, room, None);
    fetches(rt, torn, room, Some(1));
    assert!(rt; Source::failures(torn) == 2);
}

#[test]
fn streams_fail_call_by_call(rt: HostRuntime) {
    is_full(&rt, &mut Counted::new(Full));
    gives_ballot(&rt, &mut Counted::new(b"ballot".as_slice()));
    let torn = TornStream {
        page: Vec::new(rt.alloc()),
        fails: false,
    };
    fails_call_by_call(&rt, &mut Counted::new(torn), &[b'7'; 5000], &mut [0; 5000]);
}
