//! Scripts on files that stop: a prefix of their requests is stored. (Their other outcomes are covered by
//! examples/transcripts/replays.txt.)

use super::disks::Disks;
use super::steps::{Case, STOPPED, Step, TestFiles};
use super::stops::CALLS;
use super::test_host::{Act, File, TestHost, expect, rows, run_parts};
use super::transcripts::read;
use std::process::Abort;
use std::test::Fail;

const MADE: &[Act] = &[Act::Typed("$ init\noffice ready\n")];

/// The script's requests, as one order each.
const REQUESTS: &str = "$ ward 7 1 Harbour --id w1
ward 7 added
$ import-candidates FILE --id c
< ward,candidate,name
< 7,1,Ann
candidate 1 of ward 7 added
$ import-candidates FILE --id c
< ward,candidate,name
< 7,1,Ann
< 7,2,Bob
candidate 1 of ward 7 added
candidate 2 of ward 7 added
$ close 7 --id n1
ward 7 polled
$ batch 12 7 1 4 9 --id b1
batch 12 added
$ import-keying 4 12 1 FILE --id k1
< paper,1,2
< 1,1,2
batch 12 round 1 keyed
";

/// The files that the script names.
const STOPPED_SHELF: TestFiles<'static> = &[
    ("names.csv", b"ward,candidate,name\n7,1,Ann\n7,2,Bob\n"),
    ("clerk.csv", b"paper,1,2\n1,1,2\n"),
];

/// The script, and the same script with a refused line.
const STOPPED_SCRIPTS: [Case<'static>; 2] = [
    (
        Step::Script(
            b"ward 7 1 Harbour --id w1
import-candidates names.csv --id c
close 7 --id n1
batch 12 7 1 4 9 --id b1
import-keying 4 12 1 clerk.csv --id k1
",
            STOPPED_SHELF,
        ),
        (
            0,
            "ward 7 added
candidate 1 of ward 7 added
candidate 2 of ward 7 added
ward 7 polled
batch 12 added
batch 12 round 1 keyed
",
            "",
        ),
    ),
    (
        Step::Script(
            b"ward 7 1 Harbour --id w1
import-candidates names.csv --id c
seal 7 --id s1
close 7 --id n1
",
            STOPPED_SHELF,
        ),
        (
            1,
            "ward 7 added
candidate 1 of ward 7 added
candidate 2 of ward 7 added
",
            "line 3: refused 9: wrong phase\n",
        ),
    ),
];

/// Returns the rows after each prefix of the requests, beginning with the empty prefix.
fn beginnings<M: TestHost + Drop>(
    rt: &(impl Abort + AllocGlobal),
    host: M,
    requests: usize,
) -> Result<Vec<String>, Fail> {
    let (none, mut host) = rows(rt.alloc(), host)?;
    let mut all = vec![in rt.alloc(); none]?;
    for typed in read(rt.alloc(), REQUESTS)?.iter().take(requests) {
        let (found, behind) = rows(rt.alloc(), expect(rt, host, &[typed.case()])?)?;
        all.push(found)?;
        host = behind;
    }
    Ok(all)
}

/// Runs a script on disks, one of which stops after a number of calls, restarts them, and checks the rows: they must be
/// those after the acknowledged requests, or after one additional request. When repeated, the script must have its
/// whole output, and the rows must be the same as without the stop. Returns whether nothing stopped.
fn stop_script<M: TestHost + Drop>(
    rt: &(impl Abort + AllocGlobal),
    host: M,
    case: Case<'_>,
    beginnings: &[String],
) -> Result<bool, Fail> {
    let (script, whole) = case;
    let (said, left) = host.play(rt.alloc(), &[script])?;
    let told = match said.as_slice() {
        [] => STOPPED,
        [said] => said.told(),
        _ => return Err(Fail::from("more was said than was asked")),
    };
    let (status, out, err) = told;
    assert!(rt;
        told == whole
            || (status == STOPPED.0 && whole.1.starts_with(out) && err.ends_with(STOPPED.2)),
        "{told:?}"
    );
    let replies = out.lines().count();
    let (found, left) = rows(rt.alloc(), left.restarted())?;
    let mut may_stand = beginnings.iter().skip(replies).take(2);
    assert!(rt;
        may_stand.any(|rows| *rows == found),
        "{told:?} left other rows"
    );
    let (end, _) = rows(rt.alloc(), expect(rt, left, &[case])?)?;
    assert!(rt; beginnings.last() == Some(&end), "{told:?} sent again");
    Ok(told == whole)
}

/// Stops each of the scripts at each call on one file.
fn stop_scripts<M: TestHost + Drop>(
    rt: &(impl Abort + AllocGlobal),
    file: File,
) -> Result<(), Fail> {
    for case in STOPPED_SCRIPTS {
        let host: M = run_parts(rt, MADE)?;
        let copy = host.copied(rt.alloc(), file, u64::MAX)?;
        let beginnings = beginnings(rt, copy, case.1.1.lines().count())?;
        let mut ended = false;
        for calls in 0..CALLS {
            let stopping = host.copied(rt.alloc(), file, calls)?;
            if stop_script(rt, stopping, case, &beginnings)? {
                ended = true;
                break;
            }
        }
        assert!(rt; ended, "no run was long enough");
    }
    Ok(())
}

#[test]
fn a_script_stops_between_requests_at_its_log(rt: HostRuntime) -> Result<(), Fail> {
    stop_scripts::<Disks>(&rt, File::Log)
}

#[test]
fn a_script_stops_between_requests_at_its_database(rt: HostRuntime) -> Result<(), Fail> {
    stop_scripts::<Disks>(&rt, File::Database)
}
