//! The lines that an order prints, and its exit status.

ghost use Rattle.std.specs.Prelude.{◌≡◌, ◌⊎◌, ◌-◌, ◌^◌, ◌<◌, ◌++◌};
ghost use Rattle.std.specs.List.{flat_map};
ghost use Rattle.keyfile.specs.Faults.{flaw_batch, flaw_between, flaw_clerk};
ghost use Rattle.desk.specs.Pages.{IsErrorTold, IsPut, Shows, fronted, line_front, migrated_text, note_line, noted, numbered_line, outputs_of, printed, status_of_file};
ghost use Rattle.desk.specs.Pages.{cut_note, failed, failure_number, failure_of, failure_text, no_form_text, page_of, refused, script_page};
ghost use Rattle.desk.specs.Pages.{unformed, unjournalled, unmended, unread, unsealed, words_page};

pub use crate::codes_lines::{
    tell_codes_and_office_made, tell_codes_fault, tell_codes_made, tell_slips,
};
use crate::scripts::ScriptFault;
use crate::words::{BAD_DIGEST, BAD_FORM, BAD_ORIGIN, BAD_TITLE, WordsFault};
use itoa::Buffer;
use keyfile::{FileFault, Flaw};
use register::{Refusal, Reply};
use store::{CopyFault, Fault, Migrated};
use streams::{Broken, Sink, put_all};
use thiserror::Error;

/// The message if replaying the journal doesn't reproduce its office, for example because the receipts and the other tables don't
/// match.
const NO_JOURNAL: &str = "no journal: what was written does not make this office";

/// The note if the last line of a script was cut, and isn't read.
const CUT_NOTE: &str = "note: the last line was cut, and is left out\n";

/// The reason why there is no form.
#[derive(Clone, Copy)]
pub(crate) enum NoForm {
    /// No lot is due in the ward.
    NoLot,
    /// The ward isn't declared, or doesn't exist.
    Undeclared,
}

/// The outcome of an order.
#[derive(Drop)]
pub(crate) enum LineOutcome {
    /// An office was created.
    Ready,
    /// An office was migrated, or already had this program's version.
    Migrated(Migrated),
    /// The reply to a request that was accepted, now or earlier; or a ward's status, or what comes next in its election.
    Replied(Reply),
    /// The reply to a request that was accepted earlier under this id with different content. A note says so.
    Noted { reply: Reply, id: String },
    /// A text to print verbatim, in which every line ends with a newline.
    Printed(String),
    /// No seat is left to fill in a count.
    CountFinished,
    /// A count needs a lot, so a request for another stage was refused. This is printed as a reply, not as a refusal.
    LotNeeded(Refusal),
    /// A request was refused.
    Refused(Refusal),
    /// The file was refused or couldn't be read.
    Unread(FileFault),
    /// The office reported a fault.
    Failed(Fault),
    /// A request wasn't recorded a second time, so it isn't acknowledged.
    Unrecorded,
    /// The copy was not confirmed.
    Uncopied(CopyFault),
    /// The office has no journal: the journal that was written doesn't reproduce the office.
    Unjournalled,
    /// A ward wasn't sealed because the number of papers given out differs from the expected number.
    Unsealed { given_out: u128, expected: u32 },
    /// The ward has no such form yet.
    Unformed(NoForm),
    /// No new office was made from the journal. This text, whose lines are terminated, says why.
    Unmended(String),
    /// A second record and the office aren't the same. This line, which is terminated, says how they differ.
    Unequal(String),
}

/// The reason why the program fails. 101 to 106 and 108 are faults of the office. 107 is an output that failed. 109 is a copy
/// that already exists, and 110 one that can't be written. 111 is an order that isn't allowed in an office that is being served.
/// 112 is a request that wasn't recorded a second time. 113 is an office whose file was removed or replaced while it was being
/// served.
#[derive(Clone, Copy, Debug, PartialEq, Eq, Drop, Error)]
#[error("{}", self.text())]
pub enum Failure {
    Office(Fault),
    Output,
    CopyTaken,
    CopyFailed,
    BeingServed,
    FileGone,
    SecondRecord,
}

impl Failure {
    fn number(&self) -> u32
        ensures { result ≡ failure_number self.now }
    {
        match self {
            Failure::Office(fault) => fault.number(),
            Failure::Output => 107,
            Failure::CopyTaken => 109,
            Failure::CopyFailed => 110,
            Failure::BeingServed => 111,
            Failure::FileGone => 113,
            Failure::SecondRecord => 112,
        }
    }

    fn text(&self) -> &'static str
        ensures { result.now ≡ failure_text self.now }
    {
        match self {
            Failure::Office(fault) => fault.text(),
            Failure::Output => "socket or output",
            Failure::CopyTaken => "copy is there already",
            Failure::CopyFailed => "copy not written",
            Failure::BeingServed => "office is being served",
            Failure::FileGone => "file gone or replaced",
            Failure::SecondRecord => "second record",
        }
    }
}

/// Writes pieces of text one after another.
pub(crate) fn put_pieces<W: Sink>(pieces: &[&str], sink: &mut W) -> Result<(), Broken>
    requires { W.failed sink.old < 2 ^ 64 - 1 }
    ensures { IsPut W.taken W.failed sink.old sink.new (flat_map (λ piece. piece.now) pieces.now) result }
{
    for piece in pieces {
        put_all(sink, piece.as_bytes())?;
    }
    Ok(())
}

/// Prints pieces of text to the output. Returns 0, or 3 if the output fails, which is reported to the error output.
pub(crate) fn tell_text<O: Sink, E: Sink>(pieces: &[&str], out: &mut O, err: &mut E) -> u8
    requires out { O.failed out.old < 2 ^ 64 - 1 }
    requires err { E.failed err.old < 2 ^ 64 - 1 }
    ensures { let outputs = outputs_of O.taken O.failed E.taken E.failed in Shows (outputs out.old err.old) (outputs out.new err.new) (printed (flat_map (λ piece. piece.now) pieces.now)) result }
{
    match put_pieces(pieces, out) {
        Ok(()) => 0,
        Err(Broken) => tell_failure(Failure::Output, err),
    }
}

/// Writes the prefix for a script's line, `line 3: `; writes nothing if there is none.
fn put_line_prefix<W: Sink>(line: Option<usize>, sink: &mut W) -> Result<(), Broken>
    requires { W.failed sink.old < 2 ^ 64 - 1 }
    ensures { IsPut W.taken W.failed sink.old sink.new (line_front line) result }
{
    match line {
        Some(number) => put_pieces(&["line ", Buffer::new().format(number), ": "], sink),
        None => Ok(()),
    }
}

/// Writes the prefix and then pieces of text.
fn put_line<W: Sink>(line: Option<usize>, pieces: &[&str], sink: &mut W) -> Result<(), Broken>
    requires { W.failed sink.old < 2 ^ 64 - 1 }
    ensures { IsPut W.taken W.failed sink.old sink.new (line_front line ++ flat_map (λ piece. piece.now) pieces.now) result }
{
    put_line_prefix(line, sink)?;
    put_pieces(pieces, sink)
}

/// Prints a line, given in pieces, to the error output, with the line number as a prefix if it concerns a script's line. Returns
/// the given status, or 3 if the error output fails.
pub(crate) fn tell_error<E: Sink>(
    line: Option<usize>,
    pieces: &[&str],
    status: u8,
    err: &mut E,
) -> u8
    requires { E.failed err.old < 2 ^ 64 - 1 }
    ensures { IsErrorTold E.taken E.failed err.old err.new (line_front line ++ flat_map (λ piece. piece.now) pieces.now) status result }
{
    match put_line(line, pieces, err) {
        Ok(()) => status,
        Err(Broken) => 3,
    }
}

/// Prints a kind, a number and a text on one line to the error output. Returns the given status, or 3 if the error output fails.
fn tell_numbered<E: Sink>(
    line: Option<usize>,
    kind: &str,
    number: u32,
    text: &str,
    status: u8,
    err: &mut E,
) -> u8
    requires { E.failed err.old < 2 ^ 64 - 1 }
    ensures { IsErrorTold E.taken E.failed err.old err.new (line_front line ++ numbered_line kind.now number text.now) status result }
{
    let mut digits = Buffer::new();
    let pieces = [kind, digits.format(number), ": ", text, "\n"];
    tell_error(line, &pieces, status, err)
}

/// Prints a refusal. Returns 1, or 3 if the error output fails.
fn tell_refusal<E: Sink>(line: Option<usize>, refusal: &Refusal, err: &mut E) -> u8
    requires { E.failed err.old < 2 ^ 64 - 1 }
    ensures { IsErrorTold E.taken E.failed err.old err.new (line_front line ++ (refused refusal.now).err) 1 result }
{
    tell_numbered(line, "refused ", refusal.number(), refusal.text(), 1, err)
}

/// Returns the status for a refused file: 1, or 3 if a read or an allocation failed.
fn status_of_file(fault: FileFault) -> u8
    ensures { result ≡ status_of_file fault }
{
    match fault.flaw {
        Flaw::ReadFailed | Flaw::Memory => 3,
        _ => 1,
    }
}

/// Returns the batch that a flaw names, in digits, or an empty string if it names none.
fn batch_of(flaw: Flaw, digits: &mut Buffer) -> &str
    ensures { result.now ≡ flaw_batch flaw }
{
    match flaw {
        Flaw::OtherKeying { batch, .. } => digits.format(batch),
        _ => "",
    }
}

/// Returns the text between the batch and the clerk that a flaw names.
fn text_before_clerk(flaw: Flaw) -> &'static str
    ensures { result.now ≡ flaw_between flaw }
{
    match flaw {
        Flaw::OtherKeying { .. } => ", clerk ",
        _ => "",
    }
}

/// Returns the clerk that a flaw names, in digits, or an empty string if it names none.
fn clerk_of(flaw: Flaw, digits: &mut Buffer) -> &str
    ensures { result.now ≡ flaw_clerk flaw }
{
    match flaw {
        Flaw::OtherKeying { clerk, .. } => digits.format(clerk),
        _ => "",
    }
}

/// Prints why a file is refused. Returns 1, or 3 if a read, an allocation or the error output failed.
fn tell_file_fault<E: Sink>(line: Option<usize>, fault: FileFault, err: &mut E) -> u8
    requires { E.failed err.old < 2 ^ 64 - 1 }
    ensures { IsErrorTold E.taken E.failed err.old err.new (line_front line ++ (unread fault).err) (status_of_file fault) result }
{
    let (mut number, mut record) = (Buffer::new(), Buffer::new());
    let (mut batch, mut clerk) = (Buffer::new(), Buffer::new());
    let pieces = [
        "file fault ",
        number.format(fault.number()),
        " at record ",
        record.format(fault.record_number),
        ": ",
        fault.flaw.words(),
        batch_of(fault.flaw, &mut batch),
        text_before_clerk(fault.flaw),
        clerk_of(fault.flaw, &mut clerk),
        "\n",
    ];
    tell_error(line, &pieces, status_of_file(fault), err)
}

/// Prints that an office has no journal. Returns 1, or 3 if the error output fails.
fn tell_no_journal<E: Sink>(line: Option<usize>, err: &mut E) -> u8
    requires { E.failed err.old < 2 ^ 64 - 1 }
    ensures { IsErrorTold E.taken E.failed err.old err.new (line_front line ++ unjournalled.err) 1 result }
{
    tell_error(line, &[NO_JOURNAL, "\n"], 1, err)
}

/// Prints that a ward wasn't sealed. Returns 1, or 3 if the error output fails.
fn tell_unsealed<E: Sink>(line: Option<usize>, given_out: u128, expected: u32, err: &mut E) -> u8
    requires { E.failed err.old < 2 ^ 64 - 1 }
    ensures { IsErrorTold E.taken E.failed err.old err.new (line_front line ++ (unsealed given_out expected).err) 1 result }
{
    let (mut given, mut wanted) = (Buffer::new(), Buffer::new());
    let pieces = [
        "not sealed: ",
        given.format(given_out),
        " papers were given out, ",
        wanted.format(expected),
        " were expected\n",
    ];
    tell_error(line, &pieces, 1, err)
}

/// Returns the reason why there is no form, in words.
fn no_form_text(why: NoForm) -> &'static str
    ensures { result.now ≡ no_form_text why }
{
    match why {
        NoForm::NoLot => "no lot is due",
        NoForm::Undeclared => "the ward is not declared",
    }
}

/// Prints that there is no form. Returns 1, or 3 if the error output fails.
fn tell_unformed<E: Sink>(line: Option<usize>, why: NoForm, err: &mut E) -> u8
    requires { E.failed err.old < 2 ^ 64 - 1 }
    ensures { IsErrorTold E.taken E.failed err.old err.new (line_front line ++ (unformed why).err) 1 result }
{
    tell_error(line, &["no form: ", no_form_text(why), "\n"], 1, err)
}

/// Returns the line number to print before a text: none if the text is empty.
fn line_before(line: Option<usize>, text: &str) -> Option<usize>
    ensures { line_front result ++ text.now ≡ (fronted line (unmended text.now)).err }
{
    if text.is_empty() { None } else { line }
}

/// Prints why no new office was made from the journal. Returns 1, or 3 if the error output fails.
fn tell_unmended<E: Sink>(line: Option<usize>, text: &str, err: &mut E) -> u8
    requires { E.failed err.old < 2 ^ 64 - 1 }
    ensures { IsErrorTold E.taken E.failed err.old err.new (fronted line (unmended text.now)).err 1 result }
{
    tell_error(line_before(line, text), &[text], 1, err)
}

/// Prints that the last line of a script was cut and isn't read. Returns 0, or 3 if the error output fails.
pub(crate) fn tell_cut_note<E: Sink>(err: &mut E) -> u8
    requires { E.failed err.old < 2 ^ 64 - 1 }
    ensures { IsErrorTold E.taken E.failed err.old err.new cut_note.err 0 result }
{
    tell_error(None, &[CUT_NOTE], 0, err)
}

/// Prints a failure and returns its status, 3.
fn tell_failure_at<E: Sink>(line: Option<usize>, failure: Failure, err: &mut E) -> u8
    requires { E.failed err.old < 2 ^ 64 - 1 }
    ensures { IsErrorTold E.taken E.failed err.old err.new (line_front line ++ (failed failure).err) 3 result }
{
    tell_numbered(line, "fault ", failure.number(), failure.text(), 3, err)
}

/// Prints a failure to the error output and returns its status, 3.
///
/// If the error output fails too, nothing more can be printed.
pub fn tell_failure<E: Sink>(failure: Failure, err: &mut E) -> u8
    requires { E.failed err.old < 2 ^ 64 - 1 }
    ensures { IsErrorTold E.taken E.failed err.old err.new (failed failure).err 3 result }
{
    tell_failure_at(None, failure, err)
}

/// Returns the failure to print for a copy that wasn't made. An allocation failure is reported as usual.
fn failure_of(fault: CopyFault) -> Failure
    ensures { result ≡ failure_of fault }
{
    match fault {
        CopyFault::Office(fault) => Failure::Office(fault),
        CopyFault::Taken => Failure::CopyTaken,
        CopyFault::Copy(Fault::Memory) => Failure::Office(Fault::Memory),
        CopyFault::Copy(_) => Failure::CopyFailed,
    }
}

/// Returns the outcome of a migration in words.
fn migrated_text(migrated: Migrated) -> &'static str
    ensures { result.now ≡ migrated_text migrated }
{
    match migrated {
        Migrated::Done => "office migrated",
        Migrated::Already => "office is at version 2",
    }
}

/// Writes the note that the request with an id was accepted earlier with different content. The note is prefixed with the line
/// number if it concerns a script's line.
fn put_note<W: Sink>(line: Option<usize>, id: &str, sink: &mut W) -> Result<(), Broken>
    requires { W.failed sink.old < 2 ^ 64 - 1 }
    ensures { IsPut W.taken W.failed sink.old sink.new (line_front line ++ note_line id.now) result }
{
    let pieces = [
        "note: ",
        id,
        " was kept before with other words; nothing was changed\n",
    ];
    put_line(line, &pieces, sink)
}

/// Prints to the error output the note about a request that was accepted earlier. Returns 0, or 3 if the error output fails.
fn tell_note<E: Sink>(line: Option<usize>, id: &str, err: &mut E) -> u8
    requires { E.failed err.old < 2 ^ 64 - 1 }
    ensures { IsErrorTold E.taken E.failed err.old err.new (line_front line ++ note_line id.now) 0 result }
{
    match put_note(line, id, err) {
        Ok(()) => 0,
        Err(Broken) => 3,
    }
}

/// Prints the note about a request that was accepted earlier, followed by the message that the output failed. Returns 3.
fn tell_note_and_failure<E: Sink>(line: Option<usize>, id: &str, err: &mut E) -> u8
    requires { E.failed err.old < 2 ^ 64 - 1 }
    ensures { IsErrorTold E.taken E.failed err.old err.new ((line_front line ++ note_line id.now) ++ (failed Failure.Output).err) 3 result }
{
    match put_note(line, id, err) {
        Ok(()) => tell_failure(Failure::Output, err),
        Err(Broken) => 3,
    }
}

/// Prints the reply to a request that was accepted earlier with different content, and the note that says so. Returns 0, or 3 if
/// either output fails, in which case only a prefix was written to it.
fn tell_noted<O: Sink, E: Sink>(
    line: Option<usize>,
    reply: &str,
    id: &str,
    out: &mut O,
    err: &mut E,
) -> u8
    requires out { O.failed out.old < 2 ^ 64 - 1 }
    requires err { E.failed err.old < 2 ^ 64 - 1 }
    ensures { let outputs = outputs_of O.taken O.failed E.taken E.failed in Shows (outputs out.old err.old) (outputs out.new err.new) (fronted line (noted id.now reply.now)) result }
{
    match put_pieces(&[reply, "\n"], out) {
        Ok(()) => tell_note(line, id, err),
        Err(Broken) => tell_note_and_failure(line, id, err),
    }
}

/// Prints an outcome and returns its status. The status is 0 if the outcome is printed to the output. If it is printed to the
/// error output, the status is 3 for a fault or a file that couldn't be read, and 1 otherwise. Status 1 means that a request or a
/// file was refused, that no seal, form, journal or mended office was made, or that a second record and the office differ. The status is also 3 if either output fails, in
/// which case only a prefix was written to it. If the outcome is that of a script's line, what is printed to the error output
/// begins with the line number.
pub(crate) fn tell<O: Sink, E: Sink>(
    line: Option<usize>,
    outcome: &LineOutcome,
    out: &mut O,
    err: &mut E,
) -> u8
    requires out { O.failed out.old < 2 ^ 64 - 1 }
    requires err { E.failed err.old < 2 ^ 64 - 1 }
    ensures { let outputs = outputs_of O.taken O.failed E.taken E.failed in Shows (outputs out.old err.old) (outputs out.new err.new) (fronted line (page_of outcome.now)) result }
{
    match outcome {
        LineOutcome::Ready => tell_text(&["office ready", "\n"], out, err),
        LineOutcome::Migrated(migrated) => tell_text(&[migrated_text(*migrated), "\n"], out, err),
        LineOutcome::Replied(reply) => tell_text(&[reply.as_str(), "\n"], out, err),
        LineOutcome::Noted { reply, id } => tell_noted(line, reply.as_str(), id.as_str(), out, err),
        LineOutcome::Printed(text) => tell_text(&[text.as_str()], out, err),
        LineOutcome::CountFinished => tell_text(&["count finished", "\n"], out, err),
        LineOutcome::LotNeeded(refusal) => tell_text(&[refusal.text(), "\n"], out, err),
        LineOutcome::Refused(refusal) => tell_refusal(line, refusal, err),
        LineOutcome::Unread(fault) => tell_file_fault(line, *fault, err),
        LineOutcome::Failed(fault) => tell_failure_at(line, Failure::Office(*fault), err),
        LineOutcome::Unrecorded => tell_failure_at(line, Failure::SecondRecord, err),
        LineOutcome::Uncopied(fault) => tell_failure_at(line, failure_of(*fault), err),
        LineOutcome::Unjournalled => tell_no_journal(line, err),
        LineOutcome::Unsealed {
            given_out,
            expected,
        } => { tell_unsealed(line, *given_out, *expected, err) }
        LineOutcome::Unformed(why) => tell_unformed(line, *why, err),
        LineOutcome::Unmended(text) => tell_unmended(line, text.as_str(), err),
        LineOutcome::Unequal(text) => tell_unmended(line, text.as_str(), err),
    }
}

/// Prints why a text isn't a script. Returns 2 for a line that isn't understood, and 3 if an allocation or the error output fails.
pub(crate) fn tell_script_fault<E: Sink>(fault: &ScriptFault, err: &mut E) -> u8
    requires { E.failed err.old < 2 ^ 64 - 1 }
    ensures { IsErrorTold E.taken E.failed err.old err.new (script_page fault.now).err (script_page fault.now).status result }
{
    match fault {
        ScriptFault::Memory => tell_failure(Failure::Office(Fault::Memory), err),
        ScriptFault::ScriptLine(number, flaw) => tell_error(Some(*number), &[flaw.text()], 2, err),
    }
}

/// Prints why the words aren't an order. Returns 0 for help, which is printed to the output; 2 for text that is printed to the
/// error output; and 3 if an allocation failed or either output fails. In the last case only a prefix was written to that output.
pub fn tell_words<O: Sink, E: Sink>(fault: &WordsFault, out: &mut O, err: &mut E) -> u8
    requires out { O.failed out.old < 2 ^ 64 - 1 }
    requires err { E.failed err.old < 2 ^ 64 - 1 }
    ensures { let outputs = outputs_of O.taken O.failed E.taken E.failed in Shows (outputs out.old err.old) (outputs out.new err.new) (words_page fault.now) result }
{
    match fault {
        WordsFault::Memory => tell_failure(Failure::Office(Fault::Memory), err),
        WordsFault::Verdict => tell_error(None, &["bad verdict word\n"], 2, err),
        WordsFault::Origin => tell_error(None, &[BAD_ORIGIN], 2, err),
        WordsFault::Digest => tell_error(None, &[BAD_DIGEST], 2, err),
        WordsFault::TitleAlone => tell_error(None, &[BAD_TITLE], 2, err),
        WordsFault::Form => tell_error(None, &[BAD_FORM], 2, err),
        WordsFault::Words { text, status: 0 } => tell_text(&[text.as_str()], out, err),
        WordsFault::Words { text, status } => tell_error(None, &[text.as_str()], *status, err),
    }
}
