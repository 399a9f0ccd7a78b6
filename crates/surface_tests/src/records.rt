//! The second record in a file: the line of each command, and what a failure leaves.

ghost use Rattle.std.specs.Prelude.{Some, ⊤};

use desk::{DurableSink, RecordFault, Recorder, ScriptRecord};
use register::{Command, Request, Verdict};
use std::alloc::{AllocError, Global};
use std::process::Abort;
use std::test::Fail;
use streams::Broken;

/// A file in memory that allows a number of flushes.
#[derive(Drop)]
struct MemoryFile {
    flushed: Vec<u8>,
    pending: Vec<u8>,
    flushes: usize,
}

impl MemoryFile {
    fn new(alloc: Global, flushes: usize) -> MemoryFile {
        MemoryFile {
            flushed: Vec::new(alloc),
            pending: Vec::new(alloc),
            flushes,
        }
    }
}

impl DurableSink for MemoryFile {
    ghost kept = { λ f. Some (record { flushed = f.flushed.items; pending = f.pending.items }) };

    ghost broken = { λ _. ⊤ };

    fn append(&mut self, bytes: &[u8]) -> Result<(), Broken> {
        match self.pending.extend_from_slice(bytes) {
            Ok(()) => Ok(()),
            Err(AllocError) => Err(Broken),
        }
    }

    fn flush(&mut self) -> Result<(), Broken> {
        if self.flushes == 0 {
            return Err(Broken);
        }
        match self.flushed.extend_from_slice(&self.pending) {
            Ok(()) => {
                self.pending.clear();
                self.flushes -= 1;
                Ok(())
            }
            Err(AllocError) => Err(Broken),
        }
    }
}

/// Returns a request from the office, or from a clerk.
fn request(alloc: Global, actor: u32, id: &str, command: Command) -> Result<Request, AllocError> {
    Ok(Request {
        actor,
        id: String::from_str(alloc, id)?,
        command,
    })
}

/// Returns the marks of three papers.
fn papers(alloc: Global) -> Result<Vec<String>, AllocError> {
    let mut papers = Vec::new(alloc);
    for marks in ["1,2,", "D", ",,1"] {
        papers.push(String::from_str(alloc, marks)?)?;
    }
    Ok(papers)
}

/// Returns the commands that have only numbers, with the line of each.
fn numbers() -> [(Command, &'static str); 9] {
    [
        (Command::withdraw(7, 5), "withdraw 7 5 --id a1\n"),
        (Command::close_nominations(7), "close 7 --id a1\n"),
        (
            Command::add_batch(12, 7, 8, 4, 9),
            "batch 12 7 8 4 9 --id a1\n",
        ),
        (Command::again(12), "again 12 --id a1\n"),
        (Command::third(12, 5), "third 12 5 --id a1\n"),
        (
            Command::adjudicate(12, 6, Verdict::Reject(4)),
            "judge 12 6 reject:4 --id a1\n",
        ),
        (Command::seal(7), "seal 7 --id a1\n"),
        (Command::lot(7, 2, 1), "lot 7 2 1 --id a1\n"),
        (Command::declare(7), "declare 7 --id a1\n"),
    ]
}

/// Returns the commands that have texts, with the line of each.
fn texts(alloc: Global) -> Result<[(Command, &'static str); 4], AllocError> {
    Ok([
        (
            Command::add_ward(7, 2, String::from_str(alloc, "Harbour and Quay")?),
            "ward 7 2 \"Harbour and Quay\" --id a1\n",
        ),
        (
            Command::add_candidate(7, 1, String::from_str(alloc, "Ann \"Nan\" O'Hara")?),
            "candidate 7 1 \"Ann \"'\"'\"Nan\"'\"'\" O'Hara\" --id a1\n",
        ),
        (
            Command::add_candidate(7, 2, String::from_str(alloc, "-Bo")?),
            "candidate 7 2 --id a1 -- \"-Bo\"\n",
        ),
        (
            Command::adjudicate(12, 6, Verdict::Accept(String::from_str(alloc, "1,,")?)),
            "judge 12 6 accept:1,, --id a1\n",
        ),
    ])
}

/// Checks that a file has the given text, all of it flushed.
fn is_kept(rt: &impl Abort, file: &MemoryFile, text: &str) {
    let found = std::str::from_utf8(&file.flushed).unwrap_or("not UTF-8");
    assert_eq!(rt; found, text);
    assert!(rt; file.pending.is_empty());
}

/// Checks the line of a request.
fn has_line(rt: &impl Abort, alloc: Global, request: &Request, line: &str) {
    let mut script = ScriptRecord::new(alloc, MemoryFile::new(alloc, 1));
    assert!(rt; script.record(request).is_ok());
    is_kept(rt, &script.into_file(), line);
}

#[test]
fn each_command_has_a_line(rt: HostRuntime) -> Result<(), Fail> {
    for (command, line) in numbers() {
        let request = request(rt.alloc(), 0, "a1", command)?;
        has_line(&rt, rt.alloc(), &request, line);
    }
    for (command, line) in texts(rt.alloc())? {
        let request = request(rt.alloc(), 0, "a1", command)?;
        has_line(&rt, rt.alloc(), &request, line);
    }
    let counting = request(rt.alloc(), 0, "-a", Command::advance(7))?;
    has_line(&rt, rt.alloc(), &counting, "advance 7 --id=-a\n");
    let keying = Command::key(12, 1, papers(rt.alloc())?);
    let keying = request(rt.alloc(), 4, "k1", keying)?;
    has_line(&rt, rt.alloc(), &keying, "key 4 12 1 --id k1 1,2, D ,,1\n");
    Ok(())
}

#[test]
fn comments_are_recorded(rt: HostRuntime) -> Result<(), Fail> {
    let mut script = ScriptRecord::new(rt.alloc(), MemoryFile::new(rt.alloc(), 3));
    let first = request(rt.alloc(), 0, "s7", Command::seal(7))?;
    let second = request(rt.alloc(), 0, "s8", Command::seal(8))?;
    script.set_comment(String::from_str(rt.alloc(), "21:04:07 office")?);
    assert!(&rt; script.record(&first).is_ok());
    assert!(&rt; script.record(&second).is_ok());
    // A comment of two lines is left out.
    script.set_comment(String::from_str(rt.alloc(), "first\nseal 9 --id s9")?);
    assert!(&rt; script.record(&second).is_ok());
    is_kept(
        &rt,
        &script.into_file(),
        "# 21:04:07 office\nseal 7 --id s7\nseal 8 --id s8\nseal 8 --id s8\n",
    );
    Ok(())
}

#[test]
fn a_failure_is_final(rt: HostRuntime) -> Result<(), Fail> {
    let mut script = ScriptRecord::new(rt.alloc(), MemoryFile::new(rt.alloc(), 1));
    let sealing = request(rt.alloc(), 0, "s7", Command::seal(7))?;
    assert!(&rt; script.record(&sealing).is_ok());
    assert_eq!(&rt; script.try_record(&sealing), Err(RecordFault::File));
    assert_eq!(&rt; script.try_record(&sealing), Err(RecordFault::File));
    assert_eq!(&rt; script.fault(), Some(RecordFault::File));
    let file = script.into_file();
    assert_eq!(&rt; file.pending.len(), 15);

    // No order of a clerk seals a ward.
    let mut script = ScriptRecord::new(rt.alloc(), MemoryFile::new(rt.alloc(), 1));
    let other = request(rt.alloc(), 4, "s7", Command::seal(7))?;
    assert_eq!(&rt; script.try_record(&other), Err(RecordFault::NoLine));
    assert!(&rt; script.has_failed());
    is_kept(&rt, &script.into_file(), "");
    Ok(())
}
