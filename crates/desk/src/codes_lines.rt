//! What is printed about a file of codes: the codes that were made, the clerks' slips, and why there are none.

ghost use Rattle.std.specs.Prelude.{◌≡◌, ◌-◌, ◌^◌, ◌<◌, ◌++◌, ◌∷◌, [], codes};
ghost use Rattle.std.specs.List.{flat_map};
ghost use Rattle.codes.specs.Faults.{fault_line, fault_text as codes_text};
ghost use Rattle.desk.specs.Pages.{IsErrorTold, IsPut, Shows, codes_and_office_made_page, codes_made_page, codes_page, codes_place, outputs_of, printed};

use crate::lines::{put_pieces, tell_text};
use codes::CodesFault;
use itoa::Buffer;
use streams::{Broken, Sink};

/// Writes the line number of a codes fault, as in ` at line 3`; writes nothing if the fault has no line.
fn put_place<W: Sink>(fault: CodesFault, sink: &mut W) -> Result<(), Broken>
    requires { W.failed sink.old < 2 ^ 64 - 1 }
    ensures { IsPut W.taken W.failed sink.old sink.new (codes_place (fault_line fault)) result }
{
    match fault.line() {
        Some(number) => put_pieces(&[" at line ", Buffer::new().format(number)], sink),
        None => Ok(()),
    }
}

/// Writes the line number and the text of a codes fault.
fn put_codes_text<W: Sink>(fault: CodesFault, sink: &mut W) -> Result<(), Broken>
    requires { W.failed sink.old < 2 ^ 64 - 1 }
    ensures { IsPut W.taken W.failed sink.old sink.new (codes_place (fault_line fault) ++ flat_map (λ piece. piece) (codes ": " ∷ codes_text fault ∷ codes "\n" ∷ [])) result }
{
    put_place(fault, sink)?;
    put_pieces(&[": ", fault.text(), "\n"], sink)
}

/// Writes a line that reports a codes fault.
fn put_codes_fault<W: Sink>(fault: CodesFault, sink: &mut W) -> Result<(), Broken>
    requires { W.failed sink.old < 2 ^ 64 - 1 }
    ensures { IsPut W.taken W.failed sink.old sink.new (codes_page fault).err result }
{
    put_pieces(
        &["codes fault ", Buffer::new().format(fault.number())],
        sink,
    )?;
    put_codes_text(fault, sink)
}

/// Prints why codes are refused or weren't made. Returns 1, or 3 if the error output fails.
pub fn tell_codes_fault<E: Sink>(fault: CodesFault, err: &mut E) -> u8
    requires { E.failed err.old < 2 ^ 64 - 1 }
    ensures { IsErrorTold E.taken E.failed err.old err.new (codes_page fault).err (codes_page fault).status result }
{
    match put_codes_fault(fault, err) {
        Ok(()) => 1,
        Err(Broken) => 3,
    }
}

/// Prints the number of clerks for whom codes were made. Returns 0, or 3 if the output fails.
pub fn tell_codes_made<O: Sink, E: Sink>(count: u32, out: &mut O, err: &mut E) -> u8
    requires out { O.failed out.old < 2 ^ 64 - 1 }
    requires err { E.failed err.old < 2 ^ 64 - 1 }
    ensures { let outputs = outputs_of O.taken O.failed E.taken E.failed in Shows (outputs out.old err.old) (outputs out.new err.new) (codes_made_page count) result }
{
    let mut digits = Buffer::new();
    let pieces = ["codes written: ", digits.format(count), "\n"];
    tell_text(&pieces, out, err)
}

/// Prints the page with clerks' slips. Returns 0, or 3 if the output fails.
pub fn tell_slips<O: Sink, E: Sink>(page: &str, out: &mut O, err: &mut E) -> u8
    requires out { O.failed out.old < 2 ^ 64 - 1 }
    requires err { E.failed err.old < 2 ^ 64 - 1 }
    ensures { let outputs = outputs_of O.taken O.failed E.taken E.failed in Shows (outputs out.old err.old) (outputs out.new err.new) (printed page.now) result }
{
    tell_text(&[page], out, err)
}

/// Prints that codes were made for `count` clerks, and one for the office. Returns 0, or 3 if the output fails.
pub fn tell_codes_and_office_made<O: Sink, E: Sink>(count: u32, out: &mut O, err: &mut E) -> u8
    requires out { O.failed out.old < 2 ^ 64 - 1 }
    requires err { E.failed err.old < 2 ^ 64 - 1 }
    ensures { let outputs = outputs_of O.taken O.failed E.taken E.failed in Shows (outputs out.old err.old) (outputs out.new err.new) (codes_and_office_made_page count) result }
{
    let mut digits = Buffer::new();
    let pieces = [
        "codes written: ",
        digits.format(count),
        ", and the office's\n",
    ];
    tell_text(&pieces, out, err)
}
