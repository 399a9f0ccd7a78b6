//! Copies of the office to other files: if those files stop at any call, they contain either nothing or the whole office.

use super::begun::{DIFFERING, GIVEN_OUT, NOMINATED};
use super::disks::Disks;
use super::steps::{Case, Step};
use super::test_host::{Act, File, TestHost, are_same, expect_unchanged, lasting, rows, run_parts};
use std::process::Abort;
use std::test::Fail;

/// A ward with a batch that differs.
const OFFICE: [Act; 3] = [
    Act::Typed(NOMINATED),
    Act::Typed(GIVEN_OUT),
    Act::Typed(DIFFERING),
];

/// More calls than a copy makes on either file.
const CALLS: u64 = 2000;

/// The output of a copy whose files stopped.
const NOT_WRITTEN: (u8, &str, &str) = (3, "", "fault 110: copy not written\n");

/// The output on empty files.
const NOTHING: Case<'static> = (
    Step::Order(&["DB", "wards"]),
    (3, "", "fault 105: wrong database\n"),
);

/// Copies an office to files that may stop, and checks what they contain afterwards: the whole office, or nothing,
/// which is allowed only if the copy wasn't acknowledged. Returns whether the copy was acknowledged.
fn copy_once<M: TestHost + Drop>(
    rt: &(impl Abort + AllocGlobal),
    office: M,
    onto: M,
    whole: &str,
) -> Result<(bool, M), Fail> {
    let (said, office, copy) = office.copy_onto(rt.alloc(), onto)?;
    let is_told = match &said {
        Some(said) if said.is_done() => true,
        Some(said) => {
            assert_eq!(rt; said.told(), NOT_WRITTEN);
            false
        }
        None => false,
    };
    let (found, copy) = rows(rt.alloc(), copy.restarted())?;
    if found.as_str().is_empty() {
        expect_unchanged(rt, copy, &[NOTHING])?;
    }
    let is_none = !is_told && found.as_str().is_empty();
    assert!(rt;
        is_none || are_same(rt.alloc(), found.as_str(), whole)?,
        "a part of a copy was left"
    );
    Ok((is_told, office))
}

/// Stops a copy at each call on one of its files in turn, until it finishes without a stop. The office must stay
/// unchanged.
fn copy_each<M: TestHost + Drop>(rt: &(impl Abort + AllocGlobal), file: File) -> Result<(), Fail> {
    let (whole, mut office): (String, M) = rows(rt.alloc(), run_parts(rt, &OFFICE)?)?;
    let blank: M = lasting(rt.alloc());
    for calls in 0..CALLS {
        let onto = blank.copied(rt.alloc(), file, calls)?;
        let (is_told, back) = copy_once(rt, office, onto, whole.as_str())?;
        office = back;
        if is_told {
            let (left, _) = rows(rt.alloc(), office)?;
            assert_eq!(rt; left.as_str(), whole.as_str());
            return Ok(());
        }
    }
    Err(Fail::from("no run was long enough"))
}

#[test]
fn a_copy_stops_whole(rt: HostRuntime) -> Result<(), Fail> {
    copy_each::<Disks>(&rt, File::Log)?;
    copy_each::<Disks>(&rt, File::Database)
}
