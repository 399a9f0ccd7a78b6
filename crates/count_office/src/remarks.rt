//! Remarks: what the program prints in addition for a person who gave an order at a terminal, in one line on the error output.
//!
//! A remark is made from what other orders print, which are performed in the same office, in the same way, and only read it. It
//! never changes an order's status. There is none if the error output isn't a terminal, if a new office has taken the place of this
//! one, or if anything that it needs fails.

ghost use Rattle.std.specs.Prelude.{◌≡◌, ◌-◌, ◌^◌, ◌<◌};

use crate::moved_note::has_note;
use crate::order_run::{OrderRun, perform_and_follow, perform_quietly};
use crate::remark_words::{fault_in, fields_remark, lot_remark, paper_remark, vacancy_remark};
use crate::screen::Screen;
use desk::{Errand, Job, Order, Task, order};
use register::{Command, CountCommand, KeyingCommand, Verdict, VerdictCommand};
use std::fs;
use std::io::IsTerminal;
use streams::{Broken, Counted, Sink, put_all};

/// The maximum number of bytes that are kept of what an order prints. A reply or a refusal on which there is a remark is shorter.
const MAX_KEPT: usize = 512;

/// The remark on marks with a field that isn't a mark.
const MARKS_WANTED: &str =
    "wanted: in each field a number from 1 to 99 without a leading zero, or nothing";

/// The first bytes of what an order printed on one of its outputs.
#[derive(Drop)]
struct Beginning {
    bytes: [u8; MAX_KEPT],
    count: usize,
}

impl Beginning {
    /// Keeps bytes as long as there is room.
    fn keep(&mut self, bytes: &[u8]) {
        for byte in bytes {
            if self.count < MAX_KEPT {
                self.bytes[self.count] = *byte;
                self.count += 1;
            }
        }
    }

    /// Returns the text that was kept; empty if it isn't UTF-8.
    fn text(&self) -> &str {
        match self.bytes.get(..self.count) {
            Some(bytes) => str::from_utf8(bytes).unwrap_or(""),
            None => "",
        }
    }
}

/// An output that keeps the first bytes that it was given. It accepts whatever the wrapped output accepts, and fails only if that
/// output fails.
#[derive(Drop)]
struct Overheard<'a, S> {
    sink: &'a mut S,
    beginning: Beginning,
}

impl<'a, S: Sink> Overheard<'a, S> {
    fn new(sink: &'a mut S) -> Overheard<'a, S>
        ensures { result.sink.now ≡ sink.old }
    {
        Overheard {
            sink,
            beginning: Beginning {
                bytes: [0; MAX_KEPT],
                count: 0,
            },
        }
    }
}

impl<S: Sink> Sink for Overheard<'_, S> {
    ghost taken = { λ s. S.taken s.sink.now };

    ghost failed = { λ s. S.failed s.sink.now };

    fn put(&mut self, bytes: &[u8]) -> Result<usize, Broken> {
        let n = self.sink.put(bytes)?;
        self.beginning.keep(&bytes[..n]);
        Ok(n)
    }

    fn failures(&self) -> u64 {
        self.sink.failures()
    }
}

/// What an order that was performed printed: its replies, and its errors.
#[derive(Clone, Copy)]
struct Printed<'a> {
    status: u8,
    replies: &'a str,
    errors: &'a str,
}

/// Returns what an order prints that only reads the office; `None` if it doesn't end with status 0.
fn answer(run: OrderRun<'_>, question: &[&str]) -> Option<String> {
    let alloc = run.rt.alloc();
    let order = order(alloc, question).ok()?;
    let asked = OrderRun {
        words: question,
        order: &order,
        ..run
    };
    let (mut answer, mut errors) = (Vec::new(alloc), Vec::new(alloc));
    let status = perform_quietly(
        asked,
        &mut Counted::new(&mut answer),
        &mut Counted::new(&mut errors),
    );
    match status {
        Some(0) => String::from_utf8(answer).ok(),
        _ => None,
    }
}

/// Returns what an order about one number prints that only reads the office.
fn answer_about(run: OrderRun<'_>, name: &str, number: u32) -> Option<String> {
    let number = format!(in run.rt.alloc(); "{number}").ok()?;
    answer(run, &[run.path, name, number.as_str()])
}

/// Returns the marks of a paper in a keying, counted from 1.
fn marks_of(keying: &KeyingCommand, paper: u32) -> Option<&str> {
    let place = paper.checked_sub(1)?;
    let marks = keying.papers.get(place as usize)?;
    Some(marks.as_str())
}

/// Returns the remark on marks that were refused, given those of the paper that the refusal names, and its batch.
fn remark_on_marks(run: OrderRun<'_>, batch: u32, marks: &str, fault: u32) -> Option<String> {
    let alloc = run.rt.alloc();
    if fault != 1 {
        return String::from_str(alloc, MARKS_WANTED).ok();
    }
    let fields = answer_about(run, "fields", batch)?;
    fields_remark(alloc, batch, marks, fields.as_str()).ok()?
}

/// Returns the remark on a verdict.
fn remark_on_verdict(
    run: OrderRun<'_>,
    asked: &VerdictCommand,
    printed: Printed<'_>,
) -> Option<String> {
    if printed.status == 0 {
        let papers = answer_about(run, "papers", asked.batch)?;
        return paper_remark(run.rt.alloc(), asked.batch, asked.paper, papers.as_str()).ok()?;
    }
    let (_, fault) = fault_in(printed.errors)?;
    match &asked.verdict {
        Verdict::Accept(marks) => remark_on_marks(run, asked.batch, marks.as_str(), fault),
        Verdict::Reject(_) => None,
    }
}

/// Returns the remark on a keying that was refused.
fn remark_on_keying(
    run: OrderRun<'_>,
    asked: &KeyingCommand,
    printed: Printed<'_>,
) -> Option<String> {
    let (paper, fault) = fault_in(printed.errors)?;
    remark_on_marks(run, asked.batch, marks_of(asked, paper)?, fault)
}

/// Returns the remark on a keying from a file that was refused. Such a file always has the right number of fields.
fn remark_on_file(run: OrderRun<'_>, printed: Printed<'_>) -> Option<String> {
    fault_in(printed.errors)?;
    String::from_str(run.rt.alloc(), MARKS_WANTED).ok()
}

/// Returns the remark on a lot or a declaration that was accepted.
fn remark_on_count(
    run: OrderRun<'_>,
    asked: &CountCommand,
    printed: Printed<'_>,
) -> Option<String> {
    let alloc = run.rt.alloc();
    if printed.status != 0 {
        return None;
    }
    match asked {
        CountCommand::Lot { ward, stage, .. } => {
            let sheet = answer_about(run, "sheet", *ward)?;
            lot_remark(alloc, *ward, *stage, printed.replies, sheet.as_str()).ok()?
        }
        CountCommand::Declare { ward } => {
            let wards = answer(run, &[run.path, "wards"])?;
            vacancy_remark(alloc, *ward, printed.replies, wards.as_str()).ok()?
        }
        CountCommand::Seal { .. } | CountCommand::Advance { .. } => None,
    }
}

/// Returns the remark on a command.
fn remark_on_command(run: OrderRun<'_>, command: &Command, printed: Printed<'_>) -> Option<String> {
    match command {
        Command::Verdict(asked) => remark_on_verdict(run, asked, printed),
        Command::Keying(asked) => remark_on_keying(run, asked, printed),
        Command::Count(asked) => remark_on_count(run, asked, printed),
        Command::Ward(_) | Command::Candidate(_) | Command::Batch(_) => None,
    }
}

/// Returns the remark on an order that was performed, if there is one.
fn remark_on(run: OrderRun<'_>, printed: Printed<'_>) -> Option<String> {
    match run.order {
        Order::Perform(Task::InOffice(Job::Run(Errand::Send(request)))) => {
            remark_on_command(run, &request.command, printed)
        }
        Order::Perform(Task::InOffice(Job::Run(Errand::ImportKeying(_)))) => {
            remark_on_file(run, printed)
        }
        _ => None,
    }
}

/// Returns whether a new office has taken the place of the one at a path, or whether that can't be found out.
fn may_have_moved(rt: &HostRuntime, path: &str) -> bool {
    match fs::canonicalize(rt, path) {
        Ok(database) => has_note(rt, database.as_str()).unwrap_or(true),
        Err(_) => true,
    }
}

/// Prints a remark on a terminal, where control characters are masked.
fn print_remark(rt: &HostRuntime, remark: &str) {
    let mut stderr = Screen::new(Counted::new(rt.stderr()), true);
    if put_all(&mut stderr, remark.as_bytes()).is_ok() {
        let _ = put_all(&mut stderr, b"\n");
    }
}

/// Performs an order as [`perform_and_follow`] does, and returns its status. If the error output is a terminal, prints the remark on
/// the order, if there is one.
pub fn perform_and_remark<O: Sink, E: Sink>(run: OrderRun<'_>, out: &mut O, err: &mut E) -> u8
    requires out { O.failed out.old < 2 ^ 64 - 1 }
    requires err { E.failed err.old < 2 ^ 64 - 1 }
{
    if !run.rt.stderr().is_terminal() {
        return perform_and_follow(run, out, err);
    }
    let mut heard_out = Overheard::new(out);
    let mut heard_err = Overheard::new(err);
    let status = perform_and_follow(run, &mut heard_out, &mut heard_err);
    if may_have_moved(run.rt, run.path) {
        return status;
    }
    let printed = Printed {
        status,
        replies: heard_out.beginning.text(),
        errors: heard_err.beginning.text(),
    };
    if let Some(remark) = remark_on(run, printed) {
        print_remark(run.rt, remark.as_str());
    }
    status
}
