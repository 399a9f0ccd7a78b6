//! Printing to a string, to a sink, and to a sink without room for the whole text.
//!
//! Tests are generic over what is printed, so their proofs are short and don't depend on it.

ghost use Rattle.std.specs.Prelude.{◌-◌, ◌^◌, ◌<◌};

use count::{Action, Stage};
use paper::Columns;
use std::alloc::{AllocError, Global};
use std::process::Abort;
use std::test::Fail;
use streams::{Broken, Counted, Sink};
use votes::Votes;

/// A value that is printed. A value that can't be printed results in an error.
pub trait Printed {
    /// Returns the value's text.
    fn text(&self, alloc: Global) -> Result<String, Fail>;

    /// Writes the value's text to a sink.
    fn write<W: Sink>(&self, sink: &mut W) -> Result<(), Broken>
        requires { W.failed sink.old < 2 ^ 64 - 1 };
}

/// Checks that a text is the expected one.
pub fn is_text(rt: &impl Abort, found: &str, wanted: &str) {
    assert_eq!(rt; found, wanted);
}

/// Checks that bytes are the expected text.
pub fn is_told(rt: &impl Abort, found: &[u8], wanted: &str) {
    is_text(
        rt,
        std::str::from_utf8(found).unwrap_or("not UTF-8"),
        wanted,
    );
}

/// Returns the bytes of a value's text that an in-memory sink accepts.
fn written<P: Printed>(alloc: Global, printed: &P) -> Result<Vec<u8>, Broken> {
    let mut page = Vec::new(alloc);
    printed.write(&mut Counted::new(&mut page))?;
    Ok(page)
}

/// Checks that a sink with room for 20 bytes fails once, and has accepted a prefix of the text.
fn breaks<P: Printed>(rt: &impl Abort, printed: &P, text: &str) {
    let mut room = [0; 20];
    let mut sink = Counted::new(room.as_mut_slice());
    assert!(rt; printed.write(&mut sink).is_err() && sink.failures() == 1);
    assert!(rt; text.as_bytes().starts_with(&room));
}

/// Writes the value to a sink, and to one with room for 20 bytes, and compares the bytes with the value's text.
fn reaches_sinks<P: Printed>(
    rt: &(impl Abort + AllocGlobal),
    printed: &P,
    text: &str,
) -> Result<(), Fail> {
    let page = written(rt.alloc(), printed)?;
    is_told(rt, &page, text);
    breaks(rt, printed, text);
    Ok(())
}

/// Prints the value to a string, which is returned, and to both sinks.
pub fn print<P: Printed>(rt: &(impl Abort + AllocGlobal), printed: &P) -> Result<String, Fail> {
    let text = printed.text(rt.alloc())?;
    reaches_sinks(rt, printed, text.as_str())?;
    Ok(text)
}

/// Prints the value, and checks its text.
pub fn prints<P: Printed>(
    rt: &(impl Abort + AllocGlobal),
    printed: &P,
    wanted: &str,
) -> Result<(), Fail> {
    let text = print(rt, printed)?;
    is_text(rt, text.as_str(), wanted);
    Ok(())
}

/// Returns candidates with the given numbers and names.
pub fn candidates_of(alloc: Global, named: &[(u8, &str)]) -> Result<Vec<(u8, String)>, AllocError> {
    let mut candidates = Vec::new(alloc);
    for (c, name) in named {
        candidates.push((*c, String::from_str(alloc, *name)?))?;
    }
    Ok(candidates)
}

/// Returns a stage at which candidates 1, 2 and 3 have the given numbers of units.
pub fn stage_of(action: Action, units: [u64; 3], elected: Columns, lost: u64) -> Stage {
    let mut votes = [Votes::from_units(0); 30];
    votes[0] = Votes::from_units(units[0]);
    votes[1] = Votes::from_units(units[1]);
    votes[2] = Votes::from_units(units[2]);
    Stage {
        action,
        votes,
        elected,
        non_transferable: Votes::from_units(0),
        lost: Votes::from_units(lost),
    }
}

/// Returns the three stages of a ward with two seats, in which candidates 1 and 3 are elected.
pub fn three_stages() -> [Stage; 3] {
    let nobody = Columns::empty();
    [
        stage_of(Action::First, [600000, 100000, 200000], nobody.with(1), 0),
        stage_of(Action::Surplus(1), [400000, 233332, 266666], nobody, 2),
        stage_of(
            Action::ExcludeLast(2),
            [400000, 233332, 266666],
            nobody.with(3),
            2,
        ),
    ]
}
