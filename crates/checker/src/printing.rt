//! The program's output, and its exit status.

ghost use Rattle.std.specs.Prelude.{◌≡◌, ◌⊎◌, ◌-◌, ◌^◌, ◌<◌};
ghost use Rattle.checker.specs.Outputs.{BrokeOff, Tells, Took, broken_line, output_of, outputs_of};
ghost use Rattle.checker.specs.Reports.{memory_page, page_of};

use crate::report::{FAILED, Report, page_of};
use std::alloc::Global;
use streams::{Broken, Sink, put_all};

/// Prints a line saying that the output failed.
fn print_broken<E: Sink>(err: &mut E) -> u8
    requires { E.failed err.old < 2 ^ 64 - 1 }
    ensures told { let output = output_of E.taken E.failed in Took (output err.old) (output err.new) broken_line ⊎ BrokeOff (output err.old) (output err.new) broken_line }
    ensures status { result ≡ 3 }
{
    let _ = put_all(err, b"error: the output failed\n");
    FAILED
}

/// Prints one text to the output and another to the error output. Returns the status, or 3 if an output fails.
fn print_page<O: Sink, E: Sink>(
    text: &str,
    message: &str,
    status: u8,
    out: &mut O,
    err: &mut E,
) -> u8
    requires out { O.failed out.old < 2 ^ 64 - 1 }
    requires err { E.failed err.old < 2 ^ 64 - 1 }
    ensures { let outputs = outputs_of O.taken O.failed E.taken E.failed in
        Tells (outputs out.old err.old) (outputs out.new err.new) (record { out = text.now; err = message.now; status = status }) result }
{
    match put_all(out, text.as_bytes()) {
        Ok(()) => {}
        Err(Broken) => return print_broken(err),
    }
    match put_all(err, message.as_bytes()) {
        Ok(()) => status,
        Err(Broken) => FAILED,
    }
}

/// Prints an outcome and returns its status. If an allocation fails, prints a message saying so instead.
pub(crate) fn print_report<O: Sink, E: Sink>(
    alloc: Global,
    report: Report,
    out: &mut O,
    err: &mut E,
) -> u8
    requires out { O.failed out.old < 2 ^ 64 - 1 }
    requires err { E.failed err.old < 2 ^ 64 - 1 }
    ensures { let outputs = outputs_of O.taken O.failed E.taken E.failed in
        Tells (outputs out.old err.old) (outputs out.new err.new) (page_of report) result ⊎ Tells (outputs out.old err.old) (outputs out.new err.new) memory_page result }
{
    match page_of(alloc, report) {
        Ok(page) => print_page(page.out.as_str(), page.err.as_str(), page.status, out, err),
        Err(_) => print_page("", "error: out of memory\n", FAILED, out, err),
    }
}
