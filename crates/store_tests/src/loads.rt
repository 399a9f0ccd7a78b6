//! A ward's papers and count, as the store reads them, call by call.

use super::begun::{
    DIFFERING, FOUR_COMES_LATE, GIVEN_OUT, NOMINATED, PAPER_BY_PAPER, SEALED, SET, TWO_STAGES,
};
use super::disks::Disks;
use super::steps::{Step, StepPrinted};
use super::test_host::{Act, TestHost, do_act, expect, follow, run_parts};
use sqlite::{Alter, Connection};
use std::alloc::Global;
use std::fmt::Write;
use std::process::Abort;
use std::test::Fail;
use store::{Fault, Store};

/// Returns the value that a call has read.
fn read<T>(loaded: Result<T, Fault>) -> Result<T, Fail> {
    match loaded {
        Ok(found) => Ok(found),
        Err(_) => Err(Fail::from("nothing is read")),
    }
}

/// Appends one line per bundle: its list, and the number of its papers.
fn write_bundles<S: Alter>(text: &mut String, store: &mut Store<S>, ward: u32) -> Result<(), Fail> {
    let ballots = read(store.load_bundles(ward))?;
    for (list, papers) in ballots.papers.iter() {
        writeln!(text, "{:?} {papers}", list.as_slice())?;
    }
    writeln!(text, "rejected {:?}", ballots.rejected)?;
    Ok(())
}

/// Appends one line per stored bundle: its holder, and the value of each paper in units.
fn write_book<S: Alter>(text: &mut String, store: &mut Store<S>, ward: u32) -> Result<(), Fail> {
    let Some(count) = read(store.load_book(ward))? else {
        text.push_str("no book\n")?;
        return Ok(());
    };
    for ((list, papers), at) in count.kept.bundles().iter().zip(count.kept.places()) {
        let (holder, units) = (at.holder, at.value.units());
        writeln!(text, "{:?} {papers} {holder} {units}", list.as_slice())?;
    }
    writeln!(text, "{} stages", count.kept.stages().len())?;
    Ok(())
}

/// Returns the results of the calls for a ward, as text.
fn told<S: Alter>(alloc: Global, store: &mut Store<S>, ward: u32) -> Result<String, Fail> {
    let mut text = String::new(alloc);
    let ballots = read(store.load_papers(ward))?;
    writeln!(text, "{} papers", ballots.papers.len())?;
    write_bundles(&mut text, store, ward)?;
    write_book(&mut text, store, ward)?;
    let lots = read(store.load_lots(ward))?;
    writeln!(text, "lots {lots:?}")?;
    Ok(text)
}

/// Opens the store, and returns the results of its calls for a ward.
pub fn loads<S: Alter + Drop>(
    alloc: Global,
    conn: Connection<S>,
    ward: u32,
) -> Result<(StepPrinted, Connection<S>), Fail> {
    let Ok(mut store) = Store::open_from(alloc, conn) else {
        return Err(Fail::from("no store is opened"));
    };
    let text = told(alloc, &mut store, ward);
    let conn = store.into_connection();
    Ok((StepPrinted::printed_only(alloc, text?), conn))
}

/// The worked ward before its first stage and after its second.
const SEALED_LOADS: &str = "9 papers
[1, 2] 4
[1, 3] 2
[2] 1
[3] 2
rejected [0, 0, 0, 0, 0]
no book
lots []
";

const STAGED_LOADS: &str = "9 papers
[1, 2] 4
[1, 3] 2
[2] 1
[3] 2
rejected [0, 0, 0, 0, 0]
[1, 2] 4 2 33333
[1, 3] 2 3 33333
[2] 1 2 100000
[3] 2 3 100000
2 stages
lots []
";

/// Two batches, each with as many papers as a batch may have, all equal.
const TWO_BATCHES: &str = "$ close 7 --id n1
ward 7 polled
$ batch 12 7 500 4 9 --id b1
batch 12 added
$ batch 13 7 500 4 9 --id b2
batch 13 added
";

const EQUAL_LOADS: &str = "1000 papers
[1, 2] 1000
rejected [0, 0, 0, 0, 0]
no book
lots []
";

/// A batch on which clerks 5 and 9 agree, but not clerk 4, whose number is the lowest.
const LATE_LOADS: &str = "2 papers
[1, 2] 1
[3] 1
rejected [0, 0, 0, 0, 0]
no book
lots []
";

const LATE: &[Act] = &[
    Act::Typed(NOMINATED),
    Act::Typed(GIVEN_OUT),
    Act::Typed(DIFFERING),
    Act::Typed(SET),
    Act::Typed(PAPER_BY_PAPER),
    Act::Typed(FOUR_COMES_LATE),
];

/// Reads ward 7 before it is sealed and afterwards, when papers are read in a different order; the results must be
/// equal.
fn read_twice<M: TestHost + Drop>(
    rt: &(impl Abort + AllocGlobal),
    host: M,
    seal: &str,
    told: &str,
) -> Result<(), Fail> {
    let read = [(Step::Loads(7), (0, told, ""))];
    let host = expect(rt, host, &read)?;
    let host = follow(rt, host, seal)?;
    expect(rt, host, &read)?;
    Ok(())
}

/// Both clerks of both batches key the same list on every paper.
fn thousand_papers<M: TestHost + Drop>(rt: &(impl Abort + AllocGlobal)) -> Result<M, Fail> {
    let mut rows = String::from_str(rt.alloc(), "< paper,1,2,3\n")?;
    for paper in 1..=500 {
        writeln!(rows, "< {paper},1,2,")?;
    }
    let mut host: M = run_parts(rt, &[Act::Typed(NOMINATED), Act::Typed(TWO_BATCHES)])?;
    for (clerk, batch) in [(4, 12), (9, 12), (4, 13), (9, 13)] {
        let keyed = format!(in rt.alloc();
            "$ import-keying {clerk} {batch} 1 FILE --id k{batch}\n{rows}batch {batch} round 1 keyed\n"
        )?;
        host = follow(rt, host, keyed.as_str())?;
    }
    Ok(host)
}

/// Checks what is read for the worked ward before its first stage and after its second.
fn read_in_count<M: TestHost + Drop>(rt: &(impl Abort + AllocGlobal)) -> Result<(), Fail> {
    let host: M = run_parts(rt, SEALED)?;
    let host = expect(rt, host, &[(Step::Loads(7), (0, SEALED_LOADS, ""))])?;
    let host = do_act(rt, host, &TWO_STAGES)?;
    expect(rt, host, &[(Step::Loads(7), (0, STAGED_LOADS, ""))])?;
    Ok(())
}

fn are_read_back<M: TestHost + Drop>(rt: &(impl Abort + AllocGlobal)) -> Result<(), Fail> {
    read_in_count::<M>(rt)?;
    let late: M = run_parts(rt, LATE)?;
    read_twice(
        rt,
        late,
        "$ seal 7 --id s1\nward 7 sealed: 2 valid, 0 rejected, quota 1.00000\n",
        LATE_LOADS,
    )?;
    let equal: M = thousand_papers(rt)?;
    read_twice(
        rt,
        equal,
        "$ seal 7 --id s1\nward 7 sealed: 1000 valid, 0 rejected, quota 334.00000\n",
        EQUAL_LOADS,
    )
}

#[test]
fn papers_and_counts_are_read_back(rt: HostRuntime) -> Result<(), Fail> {
    are_read_back::<Disks>(&rt)
}
