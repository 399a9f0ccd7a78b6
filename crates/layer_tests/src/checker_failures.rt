//! What the checker prints if files can't be read, allocations fail, or outputs fail. (Its other output is covered by
//! examples/checking.sh and examples/transcripts/checks.txt.)

ghost use Rattle.std.specs.Prelude.{◌-◌, ◌^◌, ◌<◌};

use crate::ballot_counts::{TIED, TIED_LINE, TIED_SHEET};
use crate::checker_texts::{BALLOTS, DECLARATION, SHEET};
use crate::sheet_outputs::is_told;
use checker::{ArgumentsFault, InputFiles, NotRead, run};
use std::alloc::{AllocError, Global};
use std::process::Abort;
use std::test::Fail;
use streams::{Counted, Sink};

/// The checker's output for the sheet.
const IS_SHEET: &str =
    "the text is the stage sheet that these ballots, rejected papers and lots give\n";

/// Three files that can be read; no others can.
#[derive(Clone, Copy)]
struct MemoryFiles<'a> {
    alloc: Global,
    ballots: &'a str,
    text: &'a str,
}

impl MemoryFiles<'_> {
    fn file(&self, text: &str) -> Result<Vec<u8>, NotRead> {
        match Vec::from_slice(self.alloc, text.as_bytes()) {
            Ok(bytes) => Ok(bytes),
            Err(_) => Err(NotRead::Memory),
        }
    }
}

impl MemoryFiles<'_> {
    fn none(&self) -> NotRead {
        match String::from_str(self.alloc, "there is none") {
            Ok(why) => NotRead::Because(why),
            Err(_) => NotRead::Memory,
        }
    }
}

impl InputFiles for MemoryFiles<'_> {
    fn read(&self, path: &str) -> Result<Vec<u8>, NotRead> {
        match path {
            "ballots" => self.file(self.ballots),
            "text" => self.file(self.text),
            "tied" => self.file(TIED),
            "large" => Err(NotRead::Memory),
            _ => Err(self.none()),
        }
    }

    fn names(&self, path: &str) -> Result<Vec<String>, NotRead> {
        if path == "large" {
            return Err(NotRead::Memory);
        }
        Err(self.none())
    }

    fn read_inside(&self, _path: &str, _name: &str) -> Result<Vec<u8>, NotRead> {
        Err(self.none())
    }
}

/// Returns the words of a text, separated by spaces.
fn words_of(alloc: Global, words: &str) -> Result<Vec<String>, AllocError> {
    let mut all = Vec::new(alloc);
    for word in words.split_whitespace() {
        all.push(String::from_str(alloc, word)?)?;
    }
    Ok(all)
}

/// Runs the checker with the given words, in a folder with the text and the ballots, and returns its status.
fn asked<O: Sink, E: Sink>(
    alloc: Global,
    words: &Result<Vec<String>, ArgumentsFault>,
    text: &str,
    out: &mut O,
    err: &mut E,
) -> u8
    requires out { O.failed out.old < 2 ^ 64 - 1 }
    requires err { E.failed err.old < 2 ^ 64 - 1 }
{
    let folder = MemoryFiles {
        alloc,
        ballots: BALLOTS,
        text,
    };
    run(alloc, words, &folder, out, err)
}

/// Runs the checker with the given words, and compares its output, error output and status with those expected.
fn tells(
    rt: &(impl Abort + AllocGlobal),
    words: &Result<Vec<String>, ArgumentsFault>,
    told: &(&str, &str, u8),
) {
    let (mut out, mut err) = (Vec::new(rt.alloc()), Vec::new(rt.alloc()));
    let (mut to_out, mut to_err) = (Counted::new(&mut out), Counted::new(&mut err));
    let status = asked(rt.alloc(), words, SHEET, &mut to_out, &mut to_err);
    is_told(rt, &out, told.0);
    is_told(rt, &err, told.1);
    assert!(rt; status == told.2);
}

/// Does the same as `tells` with words that are valid UTF-8.
fn asks(rt: &(impl Abort + AllocGlobal), words: &str, told: &(&str, &str, u8)) -> Result<(), Fail> {
    let words = Ok(words_of(rt.alloc(), words)?);
    tells(rt, &words, told);
    Ok(())
}

/// The checker's output if an allocation fails.
const MEMORY: (&str, &str, u8) = ("", "error: out of memory\n", 3);

/// The checker's output if a file can't be read.
const UNREAD: (&str, &str, u8) = ("", "error: no?ne can't be read: there is none\n", 3);

/// The checker's error output for words that lack the ballots, the value of an option, or a valid lot, and for a lot
/// that isn't among the tied candidates.
const NO_BALLOTS: &str = "error: give the path of the ballots; --help says more\n";

const NO_VALUE: &str = "error: the last option needs a value; --help says more\n";

const NO_LOT: &str =
    "error: give a lot as its stage and its candidate, such as --lot 3:4; --help says more\n";

const NOT_TIED: &str = "error: the lot for stage 2 names none of the tied
(correct the lot; without it the tied candidates are printed)
";

/// The checker's words, and its output.
const ASKED: [(&str, (&str, &str, u8)); 16] = [
    ("large", MEMORY),
    ("no\u{1b}ne", UNREAD),
    ("large text", MEMORY),
    ("ballots large", MEMORY),
    ("no\u{1b}ne nothing", UNREAD),
    ("ballots no\u{1b}ne", UNREAD),
    ("ballots text", (IS_SHEET, "", 0)),
    ("--count ballots", (SHEET, "", 0)),
    ("--count --declaration ballots", (DECLARATION, "", 0)),
    ("--count tied", (TIED_SHEET, TIED_LINE, 1)),
    ("--count no\u{1b}ne", UNREAD),
    ("--count large", MEMORY),
    ("--count", ("", NO_BALLOTS, 2)),
    ("--count tied --lot", ("", NO_VALUE, 2)),
    ("--count tied --lot 2:", ("", NO_LOT, 2)),
    ("--count tied --lot 2:1", ("", NOT_TIED, 2)),
];

/// Runs the checker with the given words and with outputs that accept as many bytes as their buffers hold, and returns
/// its status.
fn asked_over(
    alloc: Global,
    words: &str,
    text: &str,
    out: &mut [u8],
    err: &mut [u8],
) -> Result<u8, Fail> {
    let words = Ok(words_of(alloc, words)?);
    let (mut to_out, mut to_err) = (Counted::new(out), Counted::new(err));
    Ok(asked(alloc, &words, text, &mut to_out, &mut to_err))
}

/// Runs the checker with outputs that have room for exactly the expected bytes, and compares what they accepted.
fn breaks(
    rt: &(impl Abort + AllocGlobal),
    (words, text, out_told, err_told): &(&str, &str, &str, &str),
) -> Result<(), Fail> {
    let mut out = vec![in rt.alloc(); 0; out_told.len()]?;
    let mut err = vec![in rt.alloc(); 0; err_told.len()]?;
    let status = asked_over(rt.alloc(), *words, *text, &mut out, &mut err)?;
    assert!(rt; status == 3);
    is_told(rt, &out, *out_told);
    is_told(rt, &err, *err_told);
    Ok(())
}

/// Words, a text, and the bytes accepted by an output and an error output that have no room for more.
const BROKEN: [(&str, &str, &str, &str); 5] = [
    (
        "ballots text",
        SHEET,
        "the text",
        "error: the output failed\n",
    ),
    ("ballots text", SHEET, "", "error"),
    ("ballots text", "", "", "line 1"),
    ("--count tied", "", "Ward 1", "error: the output failed\n"),
    ("--count tied", "", TIED_SHEET, "lot needed"),
];

/// Checks the output if the checker's words can't be read.
fn tells_no_words(rt: &(impl Abort + AllocGlobal)) {
    let not_text = ("", "error: a word is not UTF-8\n", 2);
    tells(rt, &Err(ArgumentsFault::NotUtf8), &not_text);
    tells(rt, &Err(ArgumentsFault::Memory), &MEMORY);
}

#[test]
fn what_fails_is_told(rt: HostRuntime) -> Result<(), Fail> {
    tells_no_words(&rt);
    for (words, told) in &ASKED {
        asks(&rt, *words, told)?;
    }
    for case in &BROKEN {
        breaks(&rt, case)?;
    }
    Ok(())
}
