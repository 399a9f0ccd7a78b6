//! The functions of `votes` and `paper`: values and the streams to which their text is written, marks, and preferences.

ghost use Rattle.std.specs.Prelude.{◌-◌, ◌^◌, ◌<◌};

use paper::{
    Columns, Keyed, MarkFault, Marked, Marks, Prefs, Rejection, Standing, judge, next_available,
};
use std::alloc::{AllocError, Global};
use std::process::Abort;
use std::test::Fail;
use votes::{Broken, Counted, Sink, Source, Votes, quota, transfer_value};

/// Writes a value and a newline.
fn put<W: Sink>(sink: &mut W, value: Votes) -> Result<usize, Broken>
    requires { W.failed sink.old < 2 ^ 64 - 1 }
{
    value.write(sink)?;
    sink.put(b"\n")
}

/// Writes a value to memory, and also returns how many calls failed.
fn put_in_memory(alloc: Global, value: Votes) -> (Result<usize, Broken>, u64) {
    let mut page = Vec::new(alloc);
    let mut sink = Counted::new(&mut page);
    let outcome = put(&mut sink, value);
    (outcome, sink.failures())
}

fn fetch<R: Source>(source: &mut R, room: &mut [u8]) -> Result<usize, Broken>
    requires { R.failed source.old < 2 ^ 64 - 1 }
{
    source.fetch(room)
}

/// Reads from the given bytes, and also returns how many calls failed.
fn fetch_from(bytes: &[u8]) -> (Result<usize, Broken>, u64) {
    let mut room = [0; 4];
    let mut source = Counted::new(bytes);
    let outcome = fetch(&mut source, &mut room);
    (outcome, source.failures())
}

#[test]
fn votes_keep_their_calls(rt: HostRuntime) -> Result<(), Fail> {
    let surplus = Votes::from_units(250000);
    let received = Votes::from_units(100000);
    let value = transfer_value(surplus, received, Votes::from_units(650000));
    assert_eq!(&rt; value.units(), 38461);
    assert_eq!(&rt; quota(9, 2).units(), 400000);
    assert_eq!(&rt; fetch_from(b"abc"), (Ok(3), 0));
    match put_in_memory(rt.alloc(), value) {
        (Ok(taken), failures) => assert_eq!(&rt; (taken, failures), (1, 0)),
        (Err(Broken), failures) => assert_eq!(&rt; failures, 1),
    }
    Ok(())
}

fn three() -> Columns {
    Columns::empty().with(1).with(2).with(3)
}

fn read(text: &[u8], columns: Columns) -> Result<Keyed, MarkFault> {
    Marks::read(text, columns)
}

fn text_of(alloc: Global, keyed: &Keyed) -> Result<String, AllocError> {
    keyed.text(alloc)
}

fn judged(m: &Marked) -> Result<Prefs, Rejection> {
    judge(m)
}

/// Returns the preference after the first one, if all candidates continue.
fn second(prefs: &Prefs, columns: Columns) -> Option<u8> {
    let standing = Standing::new(columns, Columns::empty(), Columns::empty());
    next_available(prefs.as_slice(), 1, &standing)
}

/// Returns the marks of a paper that isn't doubtful.
fn marked(text: &[u8], columns: Columns) -> Result<Marked, Fail> {
    match read(text, columns)? {
        Keyed::Marked(marked) => Ok(marked),
        Keyed::Doubtful => Err(Fail::from("doubtful")),
    }
}

/// Returns the number of a fault; 0 if there is none.
fn fault_of(text: &[u8], columns: Columns) -> u32 {
    match read(text, columns) {
        Ok(_) => 0,
        Err(fault) => fault.number(),
    }
}

/// Returns the code of a rejection; 0 if there is none.
fn rejection_of(m: &Marked) -> u32 {
    match judged(m) {
        Ok(_) => 0,
        Err(why) => why.number(),
    }
}

#[test]
fn papers_keep_their_calls(rt: HostRuntime) -> Result<(), Fail> {
    let columns = three();
    assert!(&rt; columns.has(2) && columns.len() == 3);
    assert_eq!(&rt; fault_of(b"100,,", columns), 3);
    let paper = marked(b",,", columns)?;
    assert_eq!(&rt; rejection_of(&paper), 1);
    let prefs = Prefs::from_slice(&[2, 1, 3]).ok_or("no ranking")?;
    assert_eq!(&rt; second(&prefs, columns), Some(1));
    let text = text_of(rt.alloc(), &Keyed::Doubtful)?;
    assert_eq!(&rt; text.as_str(), "D");
    Ok(())
}
