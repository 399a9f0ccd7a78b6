//! Orders sent to an office while it serves clients. They arrive at once or byte by byte, their connections break, they
//! are meant for a different file or sent by a different program, or they aren't orders at all.

use super::begun::{BEGUN, KEYED, KEYING};
use super::clients::{Evening, TestClient};
use super::disks::Disks;
use super::steps::{Case, SERVER_SETTINGS, Step};
use super::test_host::{TestHost, expect, expect_unchanged, run_parts};
use desk::version::VERSION;
use std::alloc::Global;
use std::process::Abort;
use std::test::Fail;

/// A keying's papers, as a file.
const PAPERS: &[u8] = b"paper,1,2,3\n1,1,2,\n2,,,1\n";

/// The words of the orders that are sent.
const STATUS: &[&str] = &["DB", "status", "7"];

const IMPORT: &[&str] = &["DB", "import-keying", "9", "12", "1", "FILE", "--id", "k1"];

const SCRIPT: &[&str] = &["DB", "replay", "SCRIPT"];

/// A script whose first line names a file and whose last line is refused.
const LINES: &[u8] =
    b"import-keying 9 12 1 FILE --id k1\ncandidate 7 4 Dee --id d1\nseal 7 --id s1\n";

const INIT: &[&str] = &["DB", "init"];

const MIGRATE: &[&str] = &["DB", "migrate"];

const SERVE: &[&str] = &["DB", "serve", "8080"];

const COPY: &[&str] = &["DB", "copy", "NEW"];

const JUDGE: &[&str] = &["DB", "judge", "12", "1", "maybe", "--id", "j1"];

const ELSEWHERE: &[&str] = &["DB", "status", "8"];

/// The files sent with those orders.
const KEYED_FILE: &[(&str, &[u8])] = &[("FILE", PAPERS)];

const SCRIPTED: &[(&str, &[u8])] = &[("SCRIPT", LINES), ("FILE", PAPERS)];

/// The output of those orders.
const IMPORTED: &[&str] = &["batch 12 round 1 keyed", "\n"];

/// An order, the file it is meant for, and the program that sends it.
#[derive(Clone, Copy)]
struct HandedOrder<'a> {
    version: &'a str,
    inode: u64,
    words: &'a [&'a str],
    files: &'a [(&'a str, &'a [u8])],
}

impl<'a> HandedOrder<'a> {
    /// Returns an order as this program sends it, for the file that is being served.
    fn of(words: &'a [&'a str]) -> HandedOrder<'a> {
        HandedOrder {
            version: VERSION,
            inode: SERVER_SETTINGS.file.inode,
            words,
            files: &[],
        }
    }

    /// Returns the order's message, built here byte by byte.
    fn message(&self, alloc: Global) -> Result<Vec<u8>, Fail> {
        let mut spelling = Vec::new(alloc);
        put_string(&mut spelling, self.version.as_bytes())?;
        spelling.extend_from_slice(&SERVER_SETTINGS.file.device.to_be_bytes())?;
        spelling.extend_from_slice(&self.inode.to_be_bytes())?;
        put_string(&mut spelling, b"/tmp")?;
        put_count(&mut spelling, self.words.len())?;
        for word in self.words {
            put_string(&mut spelling, word.as_bytes())?;
            spelling.push(0)?;
        }
        put_count(&mut spelling, self.files.len())?;
        for (path, bytes) in self.files {
            put_string(&mut spelling, path.as_bytes())?;
            spelling.push(1)?;
            put_string(&mut spelling, bytes)?;
        }
        let mut message = Vec::from_slice(alloc, &(spelling.len() as u64).to_be_bytes())?;
        message.extend_from_slice(&spelling)?;
        Ok(message)
    }
}

/// Appends a number as four bytes.
fn put_count(out: &mut Vec<u8>, count: usize) -> Result<(), Fail> {
    let Ok(count) = u32::try_from(count) else {
        return Err(Fail::from("no count of four bytes"));
    };
    Ok(out.extend_from_slice(&count.to_be_bytes())?)
}

/// Appends the number of bytes, then the bytes.
fn put_string(out: &mut Vec<u8>, bytes: &[u8]) -> Result<(), Fail> {
    put_count(out, bytes.len())?;
    Ok(out.extend_from_slice(bytes)?)
}

/// Appends a frame of the given kind, built here byte by byte.
fn put_frame(out: &mut Vec<u8>, kind: u8, bytes: &[u8]) -> Result<(), Fail> {
    out.push(kind)?;
    put_string(out, bytes)
}

/// Returns an order's output in frames: one per text, then one with the error output, then the status.
fn frames(alloc: Global, told: &[&str], status: u8, err: &str) -> Result<String, Fail> {
    let mut bytes = Vec::new(alloc);
    for text in told {
        put_frame(&mut bytes, 1, text.as_bytes())?;
    }
    if !err.is_empty() {
        put_frame(&mut bytes, 3, err.as_bytes())?;
    }
    put_frame(&mut bytes, 2, &[status])?;
    Ok(String::from_utf8(bytes)?)
}

/// Returns a step in which orders arrive at the same time, with their expected output.
fn told_of<'a>(orders: &'a [Option<TestClient<'a>>], told: &'a str) -> Case<'a> {
    let evening = Evening {
        connections: Some(0),
        ..Evening::of(orders)
    };
    (Step::Serve(evening), (0, told, "Ok(())"))
}

/// Checks that orders arriving at the same time have the given output.
fn are_told<'a, M: TestHost + Drop>(
    rt: &(impl Abort + AllocGlobal),
    host: M,
    orders: &'a [Option<TestClient<'a>>],
    told: &'a str,
) -> Result<M, Fail> {
    expect(rt, host, &[told_of(orders, told)])
}

/// Does the same as `are_told`, and checks that no row changes.
fn are_told_unchanged<'a, M: TestHost + Drop>(
    rt: &(impl Abort + AllocGlobal),
    host: M,
    orders: &'a [Option<TestClient<'a>>],
    told: &'a str,
) -> Result<M, Fail> {
    expect_unchanged(rt, host, &[told_of(orders, told)])
}

/// Orders that are refused, each with its status and the reason: sent by a different program, meant for a different
/// file, impossible while the office is being served, or invalid. They change nothing.
fn are_refused<M: TestHost + Drop>(rt: &(impl Abort + AllocGlobal), host: M) -> Result<M, Fail> {
    let alloc = rt.alloc();
    let older = HandedOrder {
        version: "1.2.0-older",
        ..HandedOrder::of(STATUS)
    };
    let elsewhere = HandedOrder {
        inode: SERVER_SETTINGS.file.inode + 1,
        ..HandedOrder::of(STATUS)
    };
    let mut messages = Vec::new(alloc);
    let mut told = String::new(alloc);
    for (given, status, err) in [
        (older, 3, "fault 102: store\n"),
        (elsewhere, 3, "fault 102: store\n"),
        (
            HandedOrder::of(INIT),
            3,
            "fault 111: office is being served\n",
        ),
        (
            HandedOrder::of(MIGRATE),
            3,
            "fault 111: office is being served\n",
        ),
        (
            HandedOrder::of(SERVE),
            3,
            "fault 111: office is being served\n",
        ),
        (HandedOrder::of(COPY), 3, "fault 110: copy not written\n"),
        (HandedOrder::of(JUDGE), 2, "bad verdict word\n"),
        (HandedOrder::of(ELSEWHERE), 1, "refused 5: no such ward\n"),
        (
            HandedOrder::of(SCRIPT),
            3,
            "file fault 8 at record 0: read failed\n",
        ),
    ] {
        if !messages.is_empty() {
            told.push('\n')?;
        }
        told.push_str(frames(alloc, &[], status, err)?.as_str())?;
        messages.push(given.message(alloc)?)?;
    }
    let orders: Vec<Option<TestClient<'_>>> = messages
        .iter()
        .map(|message| Some(TestClient::order(message)))
        .collect(alloc)?;
    are_told_unchanged(rt, host, &orders, told.as_str())
}

/// Messages that aren't orders. If one is too long or ends too early, its connection is closed; one that can't be
/// decoded gets the fault for a file locked by another program.
fn are_none<M: TestHost + Drop>(rt: &(impl Abort + AllocGlobal), host: M) -> Result<M, Fail> {
    let mut told = frames(rt.alloc(), &[], 3, "fault 102: store\n")?;
    told.push_str("\n\n")?;
    let early = TestClient {
        closes_after_sending: true,
        ..TestClient::order(b"\0\0\0\0\0\0\0\x04abc")
    };
    let orders = [
        Some(TestClient::order(b"\0\0\0\0\0\0\0\x03abc")),
        Some(TestClient::order(b"\0\0\0\0\x7f\0\0\0abc")),
        Some(early),
    ];
    are_told_unchanged(rt, host, &orders, told.as_str())
}

/// Returns an order, a client's keying, and an order that arrives a few bytes at a time.
fn around_a_keying<'a>(
    before: &'a [u8],
    keying: &'a [u8],
    behind: &'a [u8],
) -> [Option<TestClient<'a>>; 3] {
    let slow = TestClient {
        bytes_per_read: 3,
        bytes_per_write: 3,
        ..TestClient::order(behind)
    };
    [
        Some(TestClient::order(before)),
        Some(TestClient::whole(keying)),
        Some(slow),
    ]
}

/// Orders arrive while one client connects; they and the client get the given responses.
fn with_one_client<'a, M: TestHost + Drop>(
    rt: &(impl Abort + AllocGlobal),
    host: M,
    clients: &'a [Option<TestClient<'a>>],
    told: &'a str,
) -> Result<M, Fail> {
    let evening = Evening {
        connections: Some(1),
        ..Evening::of(clients)
    };
    let step = Step::Serve(evening);
    expect(rt, host, &[(step, (0, told, "Ok(())"))])
}

/// Orders are processed in turn with clients: an order before a keying prints the ward's status, and one after it
/// imports a keying. They arrive a few bytes at a time, and don't count as clients.
fn come_among_clients<M: TestHost + Drop>(
    rt: &(impl Abort + AllocGlobal),
    host: M,
) -> Result<M, Fail> {
    let alloc = rt.alloc();
    let status = HandedOrder::of(STATUS).message(alloc)?;
    let import = HandedOrder {
        files: KEYED_FILE,
        ..HandedOrder::of(IMPORT)
    };
    let import = import.message(alloc)?;
    let before =
        "ward 7 keying: 3 candidates, 1 batches, 0 taken, 0 differing, 0 doubtful open, 0 stages";
    let told = frames(alloc, &[before, "\n"], 0, "")?;
    let keyed = frames(alloc, IMPORTED, 0, "")?;
    let clients = around_a_keying(status.as_slice(), KEYING.as_bytes(), import.as_slice());
    let mut out = told;
    out.push('\n')?;
    out.push_str(KEYED)?;
    out.push('\n')?;
    out.push_str(keyed.as_str())?;
    with_one_client(rt, host, &clients, out.as_str())
}

/// A script is processed as a whole. A refusal is printed with its line number, and the effects of earlier lines remain.
fn follow_scripts<M: TestHost + Drop>(rt: &(impl Abort + AllocGlobal), host: M) -> Result<M, Fail> {
    let given = HandedOrder {
        files: SCRIPTED,
        ..HandedOrder::of(SCRIPT)
    };
    let message = given.message(rt.alloc())?;
    let told = frames(rt.alloc(), IMPORTED, 1, "line 2: refused 9: wrong phase\n")?;
    let orders = [Some(TestClient::order(message.as_slice()))];
    are_told(rt, host, &orders, told.as_str())
}

/// The connections of orders break at each byte that they accept. The first order stores the keying, and the others get
/// the same reply.
fn break_at_each_byte<M: TestHost + Drop>(
    rt: &(impl Abort + AllocGlobal),
    host: M,
) -> Result<M, Fail> {
    let alloc = rt.alloc();
    let given = HandedOrder {
        files: KEYED_FILE,
        ..HandedOrder::of(IMPORT)
    };
    let message = given.message(alloc)?;
    let whole = frames(alloc, IMPORTED, 0, "")?;
    let mut orders = Vec::new(alloc);
    let mut told = String::new(alloc);
    for takes in 0..whole.len() {
        orders.push(Some(TestClient {
            takes,
            ..TestClient::order(message.as_slice())
        }))?;
        told.push_str(whole.get(..takes).unwrap_or(""))?;
        told.push('\n')?;
    }
    orders.push(Some(TestClient::order(message.as_slice())))?;
    told.push_str(whole.as_str())?;
    are_told(rt, host, &orders, told.as_str())
}

fn are_handed_over<M: TestHost + Drop>(rt: &(impl Abort + AllocGlobal)) -> Result<(), Fail> {
    let host: M = run_parts(rt, BEGUN)?;
    let host = are_refused(rt, host)?;
    let host = are_none(rt, host)?;
    come_among_clients(rt, host)?;
    let host: M = run_parts(rt, BEGUN)?;
    follow_scripts(rt, host)?;
    let host: M = run_parts(rt, BEGUN)?;
    break_at_each_byte(rt, host)?;
    Ok(())
}

#[test]
fn orders_are_handed_over(rt: HostRuntime) -> Result<(), Fail> {
    are_handed_over::<Disks>(&rt)
}
