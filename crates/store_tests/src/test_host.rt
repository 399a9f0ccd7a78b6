//! Test steps for an office on the disks of a host that can be stopped.
//!
//! They are generic over the host, so their proofs are short and don't depend on the store.

use super::steps::{Case, Step, StepPrinted};
use super::transcripts::read;
use std::alloc::Global;
use std::process::Abort;
use std::test::Fail;

/// The file that stops.
#[derive(Clone, Copy)]
pub enum File {
    Log,
    Database,
}

/// A part of a test's script.
#[derive(Clone, Copy, Debug)]
pub enum Act {
    /// Orders and their replies, as a transcript.
    Typed(&'static str),
    /// Both clerks of batch 12 key the given papers.
    Keyed(&'static str),
}

/// A host with the log and the database file of an office.
pub trait TestHost: Sized {
    /// Returns new files; the log fails after `log` calls, and the database file after `db` calls.
    fn stopping(alloc: Global, log: u64, db: u64) -> Self;

    /// Returns files with the same bytes, of which `file` fails after `calls` calls.
    fn copied(&self, alloc: Global, file: File, calls: u64) -> Result<Self, Fail>;

    /// Restarts the host: unsynced bytes are lost, and no call fails from then on.
    fn restarted(self) -> Self;

    /// Opens the database, and runs the steps on it. Nothing is printed if the store stops while the database is being opened.
    fn play(self, alloc: Global, script: &[Step<'_>]) -> Result<(Vec<StepPrinted>, Self), Fail>;

    /// Copies the office to other files. Nothing is printed if those stop while being opened.
    fn copy_onto(
        self,
        alloc: Global,
        onto: Self,
    ) -> Result<(Option<StepPrinted>, Self, Self), Fail>;
}

fn sorted(alloc: Global, rows: &str) -> Result<Vec<&str>, Fail> {
    let mut lines: Vec<&str> = rows.lines().collect(alloc)?;
    lines.sort()?;
    Ok(lines)
}

/// Returns whether both texts have the same rows, in any order.
pub fn are_same(alloc: Global, rows: &str, others: &str) -> Result<bool, Fail> {
    Ok(sorted(alloc, rows)?.as_slice() == sorted(alloc, others)?.as_slice())
}

/// Returns new files that never fail.
pub fn lasting<M: TestHost + Drop>(alloc: Global) -> M {
    M::stopping(alloc, u64::MAX, u64::MAX)
}

/// Runs the steps, each of which must have its expected result.
pub fn expect<M: TestHost + Drop>(
    rt: &(impl Abort + AllocGlobal),
    host: M,
    cases: &[Case<'_>],
) -> Result<M, Fail> {
    let script: Vec<Step<'_>> = cases.iter().map(|case| case.0).collect(rt.alloc())?;
    let (said, host) = host.play(rt.alloc(), &script)?;
    assert!(rt; said.len() == cases.len(), "{script:?}: {said:?}");
    for (said, (step, wanted)) in said.iter().zip(cases) {
        assert_eq!(rt; said.told(), *wanted, "{step:?}");
    }
    Ok(host)
}

/// Returns every row of every table.
pub fn rows<M: TestHost + Drop>(alloc: Global, host: M) -> Result<(String, M), Fail> {
    let (said, host) = host.play(alloc, &[Step::Contents])?;
    match said.first() {
        Some(said) => Ok((String::from_str(alloc, said.told().1)?, host)),
        None => Err(Fail::from("nothing was said")),
    }
}

/// Runs a transcript's orders, each of which must get the reply in the transcript.
pub fn follow<M: TestHost + Drop>(
    rt: &(impl Abort + AllocGlobal),
    host: M,
    transcript: &str,
) -> Result<M, Fail> {
    let asked = read(rt.alloc(), transcript)?;
    let cases: Vec<Case<'_>> = asked.iter().map(|typed| typed.case()).collect(rt.alloc())?;
    expect(rt, host, &cases)
}

/// Runs the steps, each of which must have its expected result and none of which may change a row.
pub fn expect_unchanged<M: TestHost + Drop>(
    rt: &(impl Abort + AllocGlobal),
    host: M,
    cases: &[Case<'_>],
) -> Result<M, Fail> {
    let (before, host) = rows(rt.alloc(), host)?;
    let (after, host) = rows(rt.alloc(), expect(rt, host, cases)?)?;
    assert_eq!(rt; before.as_str(), after.as_str());
    Ok(host)
}

/// Has both clerks of batch 12 key the given papers, which are the text of a file.
fn key<M: TestHost + Drop>(
    rt: &(impl Abort + AllocGlobal),
    host: M,
    papers: &str,
) -> Result<M, Fail> {
    let mut host = host;
    for clerk in ["4", "9"] {
        let words = [
            "DB",
            "import-keying",
            clerk,
            "12",
            "1",
            "FILE",
            "--id",
            "k1",
        ];
        let keyed = (0, "batch 12 round 1 keyed\n", "");
        host = expect(
            rt,
            host,
            &[(Step::FileOrder(&words, papers.as_bytes()), keyed)],
        )?;
    }
    Ok(host)
}

pub fn do_act<M: TestHost + Drop>(
    rt: &(impl Abort + AllocGlobal),
    host: M,
    asked: &Act,
) -> Result<M, Fail> {
    match asked {
        Act::Typed(transcript) => follow(rt, host, transcript),
        Act::Keyed(papers) => key(rt, host, papers),
    }
}

/// Runs the given parts on new files.
pub fn run_parts<M: TestHost + Drop>(
    rt: &(impl Abort + AllocGlobal),
    acts: &[Act],
) -> Result<M, Fail> {
    let mut host = lasting(rt.alloc());
    for one in acts {
        host = do_act(rt, host, one)?;
    }
    Ok(host)
}
