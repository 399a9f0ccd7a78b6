//! Running the steps of an order: a single errand, or the orders of a script one after the other.

ghost use Rattle.std.specs.Prelude.{◌≡◌, ◌∷◌, [], ◌-◌, ◌^◌, ◌<◌, false, map, option_map, true, IfErr, IfOk};
ghost use Rattle.sqlite.specs.State.{HasCleanDisk};
ghost use Rattle.sqlite.specs.Held.{state};
ghost use Rattle.store.specs.StateTables.{KeepsConnection};
ghost use Rattle.office.specs.Answers.{WhenOpenAt};
ghost use Rattle.desk.specs.Lexing.{IsReplayOfBy, line_entry, typed_line_entry};
ghost use Rattle.desk.specs.Folders.{HoldsText, IsFileAt};
ghost use Rattle.desk.specs.Headline.{IsBegunBy, IsDone, IsDoneBy, IsPlayedBy};
ghost use Rattle.desk.specs.Pages.{Tells, outputs_of, page_of};
ghost use Rattle.desk.specs.Parts.{ComesTo, ComesToRecorded, IsUnreadScript};
ghost use Rattle.desk.specs.Records.{IsRecorded, StaysOnceFailed};
ghost use Rattle.desk.specs.Requests.{file_of};
ghost use Rattle.desk.specs.Scripts.{IsNumberedPart, lines_of};

use crate::counting::count_stages;
use crate::folders::Folder;
use crate::import::{UNOPENED, batch_requests, candidate_requests, keying_of};
use crate::lexer::part_read;
use crate::lines::{LineOutcome, tell, tell_cut_note, tell_script_fault};
use crate::orders::{Errand, Job, ReplayOrder};
use crate::overviews::answer_to;
use crate::printing::{index_of, text_of};
use crate::record::{NoRecord, Recorder};
use crate::requests::advances;
use crate::scripts::{
    ScriptFault, ScriptLine, ScriptStep, TypedLine, lines_in, script_steps, typed_lines,
};
use crate::sealing::seal_of;
use crate::sending::{combined_status, goes_on, send_all};
use crate::steps::next_of;
use crate::ward_status::ward_status_of;
use office::Office;
use sqlite::Alter;
use std::alloc::{AllocError, Global};
use std::io::{ErrorKind, Read};
use std::slice;
use store::Fault;
use streams::Sink;

/// Opens the file that an errand reads, if any.
fn opened<F: Folder>(folder: &F, errand: &Errand<'_>) -> Option<F::File>
    ensures { IsFileAt (F.held folder.now) (file_of errand.now) (option_map F.File.remaining result) }
{
    match errand.file() {
        Some(path) => folder.open(path),
        None => None,
    }
}

/// Runs an errand in an open office, prints the outcome, and returns the status. If the errand comes from a line of a script,
/// whatever is written to `err` begins with the line number. With `keep_going`, a refused request doesn't end the errand.
fn run<S: Alter, F: Folder, R: Recorder, O: Sink, E: Sink>(
    alloc: Global,
    office: &mut Office<S>,
    keep_going: bool,
    line: Option<usize>,
    errand: &Errand<'_>,
    folder: &F,
    recorder: &mut R,
    out: &mut O,
    err: &mut E,
) -> u8
    requires out { O.failed out.old < 2 ^ 64 - 1 }
    requires err { E.failed err.old < 2 ^ 64 - 1 }
    ensures ran { let outputs = outputs_of O.taken O.failed E.taken E.failed in Tells (outputs out.old err.old) (outputs out.new err.new) result
        (λ cut page. WhenOpenAt (state S.Store) office.old office.new (λ s. ComesToRecorded cut page
        (λ own answered. R.failed recorder.old ≡ false → IsRecorded s own answered (R.found recorder.old) (R.found recorder.new) (R.failed recorder.new))
        (λ course. IsPlayedBy (R.failed recorder.new) (state S.Store office.old.held) office.new.closed (state S.Store office.new.held)
        keep_going (F.held folder.now) s (record { line = line; errand = errand.now } ∷ []) course))) }
    ensures same { R.records recorder.new ≡ R.records recorder.old }
    ensures untouched { StaysOnceFailed R.failed recorder.old recorder.new (state S.Store office.old.held) (state S.Store office.new.held) }
    ensures keeps_connection { KeepsConnection (state S.Store office.old.held) (state S.Store office.new.held) }
    ensures clean { HasCleanDisk (state S.Store office.new.held) → HasCleanDisk (state S.Store office.old.held) }
{
    let file = opened(folder, errand);
    match errand {
        Errand::Send(request) => {
            let requests = slice::from_ref(request);
            send_all(office, keep_going, line, requests, recorder, out, err)
        }
        Errand::ImportCandidates { id, digest, .. } => {
            match candidate_requests(alloc, id, file, *digest) {
                Ok(requests) => send_all(office, keep_going, line, &requests, recorder, out, err),
                Err(outcome) => tell(line, &outcome, out, err),
            }
        }
        Errand::ImportBatches { id, digest, .. } => {
            match batch_requests(alloc, id, file, *digest) {
                Ok(requests) => send_all(office, keep_going, line, &requests, recorder, out, err),
                Err(outcome) => tell(line, &outcome, out, err),
            }
        }
        Errand::SealExpected(seal) => match seal_of(alloc, office, *seal) {
            Ok(request) => send_all(office, keep_going, line, &[request], recorder, out, err),
            Err(outcome) => tell(line, &outcome, out, err),
        },
        Errand::ImportKeying(keyed) => match keying_of(alloc, office, *keyed, file) {
            Ok(request) => send_all(office, keep_going, line, &[request], recorder, out, err),
            Err(outcome) => tell(line, &outcome, out, err),
        },
        Errand::Count { ward, id } => match advances(alloc, *ward, id) {
            Ok(requests) => count_stages(office, line, &requests, recorder, out, err),
            Err(_) => tell(line, &LineOutcome::Failed(Fault::Memory), out, err),
        },
        Errand::PrintNext { ward } => tell(line, &next_of(alloc, office, *ward), out, err),
        Errand::PrintStatus { ward } => tell(line, &ward_status_of(alloc, office, *ward), out, err),
        Errand::Print { ward, text } => tell(line, &text_of(office, *ward, *text), out, err),
        Errand::PrintIndex { title } => tell(line, &index_of(office, title), out, err),
        Errand::Ask(question) => tell(line, &answer_to(alloc, office, *question), out, err),
    }
}

/// Runs steps one after the other and prints each reply. A refusal or fault is printed after its line number. The sequence ends at
/// the first fault, at the first output that fails and, without `keep_going`, at the first refusal. A file is opened when its step
/// is run. The status is the last nonzero one, or 0.
fn run_steps<S: Alter, F: Folder, R: Recorder, O: Sink, E: Sink>(
    alloc: Global,
    office: &mut Office<S>,
    keep_going: bool,
    turns: &[ScriptStep<'_>],
    folder: &F,
    recorder: &mut R,
    out: &mut O,
    err: &mut E,
) -> u8
    requires out { O.failed out.old < 2 ^ 64 - 1 }
    requires err { E.failed err.old < 2 ^ 64 - 1 }
    ensures sent { let outputs = outputs_of O.taken O.failed E.taken E.failed in Tells (outputs out.old err.old) (outputs out.new err.new) result
        (λ cut page. WhenOpenAt (state S.Store) office.old office.new (λ s. ComesToRecorded cut page
        (λ own answered. R.failed recorder.old ≡ false → IsRecorded s own answered (R.found recorder.old) (R.found recorder.new) (R.failed recorder.new))
        (λ course. IsPlayedBy (R.failed recorder.new) (state S.Store office.old.held) office.new.closed (state S.Store office.new.held) keep_going (F.held folder.now) s turns.now course))) }
    ensures same { R.records recorder.new ≡ R.records recorder.old }
    ensures untouched { StaysOnceFailed R.failed recorder.old recorder.new (state S.Store office.old.held) (state S.Store office.new.held) }
    ensures keeps_connection { KeepsConnection (state S.Store office.old.held) (state S.Store office.new.held) }
    ensures clean { HasCleanDisk (state S.Store office.new.held) → HasCleanDisk (state S.Store office.old.held) }
{
    let mut ends = 0;
    for turn in turns {
        let status = run(
            alloc,
            office,
            keep_going,
            turn.line,
            &turn.errand,
            folder,
            recorder,
            out,
            err,
        );
        if !goes_on(keep_going, status) {
            return status;
        }
        ends = combined_status(ends, status);
    }
    ends
}

/// Prints the note that the end of a script is left out, and then runs the steps of the rest. If the note can't be written, runs none.
fn run_part<S: Alter, F: Folder, R: Recorder, O: Sink, E: Sink>(
    alloc: Global,
    office: &mut Office<S>,
    keep_going: bool,
    turns: &[ScriptStep<'_>],
    folder: &F,
    recorder: &mut R,
    out: &mut O,
    err: &mut E,
) -> u8
    requires out { O.failed out.old < 2 ^ 64 - 1 }
    requires err { E.failed err.old < 2 ^ 64 - 1 }
    ensures sent { let outputs = outputs_of O.taken O.failed E.taken E.failed in Tells (outputs out.old err.old) (outputs out.new err.new) result
        (λ cut page. WhenOpenAt (state S.Store) office.old office.new (λ s. ComesToRecorded cut page
        (λ own answered. R.failed recorder.old ≡ false → IsRecorded s own answered (R.found recorder.old) (R.found recorder.new) (R.failed recorder.new))
        (λ course. IsBegunBy (R.failed recorder.new) (state S.Store office.old.held) office.new.closed (state S.Store office.new.held) true keep_going (F.held folder.now) s turns.now course))) }
    ensures same { R.records recorder.new ≡ R.records recorder.old }
    ensures untouched { StaysOnceFailed R.failed recorder.old recorder.new (state S.Store office.old.held) (state S.Store office.new.held) }
    ensures keeps_connection { KeepsConnection (state S.Store office.old.held) (state S.Store office.new.held) }
    ensures clean { HasCleanDisk (state S.Store office.new.held) → HasCleanDisk (state S.Store office.old.held) }
{
    let status = tell_cut_note(err);
    if status != 0 {
        return status;
    }
    run_steps(alloc, office, keep_going, turns, folder, recorder, out, err)
}

/// Runs the steps of a script, after a note if the end of the script is left out.
fn begin_steps<S: Alter, F: Folder, R: Recorder, O: Sink, E: Sink>(
    alloc: Global,
    office: &mut Office<S>,
    keep_going: bool,
    left_out: bool,
    turns: &[ScriptStep<'_>],
    folder: &F,
    recorder: &mut R,
    out: &mut O,
    err: &mut E,
) -> u8
    requires out { O.failed out.old < 2 ^ 64 - 1 }
    requires err { E.failed err.old < 2 ^ 64 - 1 }
    ensures sent { let outputs = outputs_of O.taken O.failed E.taken E.failed in Tells (outputs out.old err.old) (outputs out.new err.new) result
        (λ cut page. WhenOpenAt (state S.Store) office.old office.new (λ s. ComesToRecorded cut page
        (λ own answered. R.failed recorder.old ≡ false → IsRecorded s own answered (R.found recorder.old) (R.found recorder.new) (R.failed recorder.new))
        (λ course. IsBegunBy (R.failed recorder.new) (state S.Store office.old.held) office.new.closed (state S.Store office.new.held) left_out keep_going (F.held folder.now) s turns.now course))) }
    ensures same { R.records recorder.new ≡ R.records recorder.old }
    ensures untouched { StaysOnceFailed R.failed recorder.old recorder.new (state S.Store office.old.held) (state S.Store office.new.held) }
    ensures keeps_connection { KeepsConnection (state S.Store office.old.held) (state S.Store office.new.held) }
    ensures clean { HasCleanDisk (state S.Store office.new.held) → HasCleanDisk (state S.Store office.old.held) }
{
    if left_out {
        run_part(alloc, office, keep_going, turns, folder, recorder, out, err)
    } else {
        run_steps(alloc, office, keep_going, turns, folder, recorder, out, err)
    }
}

/// Sends the orders in a script's lines once every line has been understood, after a note if the end of the script is left out. If a
/// line isn't understood, prints what is wrong with the first such line and sends nothing.
fn run_script<S: Alter, F: Folder, R: Recorder, O: Sink, E: Sink>(
    alloc: Global,
    office: &mut Office<S>,
    keep_going: bool,
    left_out: bool,
    lines: &[TypedLine<'_>],
    folder: &F,
    recorder: &mut R,
    out: &mut O,
    err: &mut E,
) -> u8
    requires out { O.failed out.old < 2 ^ 64 - 1 }
    requires err { E.failed err.old < 2 ^ 64 - 1 }
    ensures sent { let outputs = outputs_of O.taken O.failed E.taken E.failed in Tells (outputs out.old err.old) (outputs out.new err.new) result
        (λ cut page. WhenOpenAt (state S.Store) office.old office.new (λ s. ComesToRecorded cut page
        (λ own answered. R.failed recorder.old ≡ false → IsRecorded s own answered (R.found recorder.old) (R.found recorder.new) (R.failed recorder.new))
        (λ course. IsReplayOfBy (R.failed recorder.new) left_out keep_going (F.held folder.now) s (map typed_line_entry lines.now) course
        (state S.Store office.old.held) office.new.closed (state S.Store office.new.held)))) }
    ensures same { R.records recorder.new ≡ R.records recorder.old }
    ensures untouched { StaysOnceFailed R.failed recorder.old recorder.new (state S.Store office.old.held) (state S.Store office.new.held) }
    ensures keeps_connection { KeepsConnection (state S.Store office.old.held) (state S.Store office.new.held) }
    ensures clean { HasCleanDisk (state S.Store office.new.held) → HasCleanDisk (state S.Store office.old.held) }
{
    match script_steps(alloc, lines) {
        Ok(turns) => begin_steps(
            alloc, office, keep_going, left_out, &turns, folder, recorder, out, err,
        ),
        Err(fault) => tell_script_fault(&fault, err),
    }
}

/// What is read of a script: its lines, and whether its end is left out.
#[derive(Drop)]
struct ScriptPart {
    lines: Vec<ScriptLine>,
    left_out: bool,
}

/// Returns the contents of a script's file, or the reason why there are none. `file` is None if it couldn't be opened.
pub(crate) fn bytes_of<R: Read + Drop>(
    alloc: Global,
    file: Option<R>,
) -> Result<Vec<u8>, LineOutcome>
    ensures read { IfOk result (λ bytes. HoldsText (option_map R.remaining file) (λ text. bytes.items ≡ text)) }
    ensures unread { IfErr result (λ outcome. IsUnreadScript (page_of outcome)) }
{
    let Some(mut file) = file else {
        return Err(LineOutcome::Unread(UNOPENED));
    };
    let mut bytes = Vec::new(alloc);
    match file.read_to_end(&mut bytes) {
        Ok(_) => Ok(bytes),
        Err(error) if error.kind() == ErrorKind::OutOfMemory => Err(LineOutcome::Failed(
            Fault::Memory,
        )),
        Err(_) => Err(LineOutcome::Unread(UNOPENED)),
    }
}

/// Returns what is read of a text as a script. Fails if an allocation fails.
fn script_in(alloc: Global, text: &[u8], cut: bool) -> Result<ScriptPart, AllocError>
    ensures { IfOk result (λ script. IsNumberedPart cut (map line_entry script.lines.items) script.left_out text.now) }
{
    let part = part_read(text, cut);
    let lines = lines_in(alloc, part)?;
    Ok(ScriptPart {
        lines,
        left_out: part.len() < text.len(),
    })
}

/// Returns what is read of a script's file, or the reason why there is nothing.
fn script_of<R: Read + Drop>(
    alloc: Global,
    file: Option<R>,
    cut: bool,
) -> Result<ScriptPart, LineOutcome>
    ensures read { IfOk result (λ script. HoldsText (option_map R.remaining file) (IsNumberedPart cut (map line_entry script.lines.items) script.left_out)) }
    ensures unread { IfErr result (λ outcome. IsUnreadScript (page_of outcome)) }
{
    let bytes = match bytes_of(alloc, file) {
        Ok(bytes) => bytes,
        Err(outcome) => return Err(outcome),
    };
    match script_in(alloc, &bytes, cut) {
        Ok(script) => Ok(script),
        Err(AllocError) => Err(LineOutcome::Failed(Fault::Memory)),
    }
}

/// Sends the orders in a script's file one after the other, once every line has been understood; with `keep_going`, continues after
/// refusals. With `cut`, reads only the whole lines; if that leaves out the end of the file, a note says so first. If a line isn't
/// understood, the status is 2: the line is reported with its number, and nothing is sent.
fn replay<S: Alter, F: Folder, R: Recorder, O: Sink, E: Sink>(
    alloc: Global,
    office: &mut Office<S>,
    asked: ReplayOrder<'_>,
    folder: &F,
    recorder: &mut R,
    out: &mut O,
    err: &mut E,
) -> u8
    requires out { O.failed out.old < 2 ^ 64 - 1 }
    requires err { E.failed err.old < 2 ^ 64 - 1 }
    ensures ran { let outputs = outputs_of O.taken O.failed E.taken E.failed in Tells (outputs out.old err.old) (outputs out.new err.new) result
        (λ cut page. WhenOpenAt (state S.Store) office.old office.new (λ s. ComesToRecorded cut page
        (λ own answered. R.failed recorder.old ≡ false → IsRecorded s own answered (R.found recorder.old) (R.found recorder.new) (R.failed recorder.new))
        (λ course. IsDoneBy (R.failed recorder.new) (state S.Store office.old.held) office.new.closed (state S.Store office.new.held) (F.held folder.now) s (Job.Replay asked.entry) course))) }
    ensures same { R.records recorder.new ≡ R.records recorder.old }
    ensures untouched { StaysOnceFailed R.failed recorder.old recorder.new (state S.Store office.old.held) (state S.Store office.new.held) }
    ensures keeps_connection { KeepsConnection (state S.Store office.old.held) (state S.Store office.new.held) }
    ensures clean { HasCleanDisk (state S.Store office.new.held) → HasCleanDisk (state S.Store office.old.held) }
{
    let script = match script_of(alloc, folder.open(asked.file), asked.cut) {
        Ok(script) => script,
        Err(outcome) => return tell(None, &outcome, out, err),
    };
    let (keep_going, left_out) = (asked.keep_going, script.left_out);
    match typed_lines(alloc, &script.lines) {
        Ok(said) => run_script(
            alloc, office, keep_going, left_out, &said, folder, recorder, out, err,
        ),
        Err(_) => tell_script_fault(&ScriptFault::Memory, err),
    }
}

/// Does a job in an open office, prints the outcome, and returns the status. Each request that the office accepts is recorded
/// before its reply is printed.
///
/// If recording a request fails, it isn't acknowledged: fault 112 is printed, with status 3, and the job ends. The request remains in
/// effect in the office. From then on each request is refused with this fault, without asking the office.
///
/// Suppose that a stop before the job would have left a record of the office's state. Then a stop at any time leaves a record of the
/// state after the accepted requests in a prefix of the job's, which contains every answered request and at most one more.
pub fn follow_recorded<S: Alter, F: Folder, R: Recorder, O: Sink, E: Sink>(
    alloc: Global,
    office: &mut Office<S>,
    job: &Job<'_>,
    folder: &F,
    recorder: &mut R,
    out: &mut O,
    err: &mut E,
) -> u8
    requires out { O.failed out.old < 2 ^ 64 - 1 }
    requires err { E.failed err.old < 2 ^ 64 - 1 }
    ensures did { let outputs = outputs_of O.taken O.failed E.taken E.failed in Tells (outputs out.old err.old) (outputs out.new err.new) result
        (λ cut page. WhenOpenAt (state S.Store) office.old office.new (λ s. ComesToRecorded cut page
        (λ own answered. R.failed recorder.old ≡ false → IsRecorded s own answered (R.found recorder.old) (R.found recorder.new) (R.failed recorder.new))
        (λ course. IsDoneBy (R.failed recorder.new) (state S.Store office.old.held) office.new.closed (state S.Store office.new.held) (F.held folder.now) s job.now course))) }
    ensures same { R.records recorder.new ≡ R.records recorder.old }
    ensures untouched { StaysOnceFailed R.failed recorder.old recorder.new (state S.Store office.old.held) (state S.Store office.new.held) }
    ensures keeps_connection { KeepsConnection (state S.Store office.old.held) (state S.Store office.new.held) }
    ensures clean { HasCleanDisk (state S.Store office.new.held) → HasCleanDisk (state S.Store office.old.held) }
{
    match job {
        Job::Run(errand) => run(
            alloc, office, false, None, errand, folder, recorder, out, err,
        ),
        Job::Replay(asked) => replay(alloc, office, *asked, folder, recorder, out, err),
    }
}

/// Does a job in an open office, prints the outcome, and returns the status.
///
/// `perform` opens an office and then does the same. An office that is being served is already open, so an order sent to it is
/// performed here.
pub fn follow<S: Alter, F: Folder, O: Sink, E: Sink>(
    alloc: Global,
    office: &mut Office<S>,
    job: &Job<'_>,
    folder: &F,
    out: &mut O,
    err: &mut E,
) -> u8
    requires out { O.failed out.old < 2 ^ 64 - 1 }
    requires err { E.failed err.old < 2 ^ 64 - 1 }
    ensures did { let outputs = outputs_of O.taken O.failed E.taken E.failed in Tells (outputs out.old err.old) (outputs out.new err.new) result
        (λ cut page. WhenOpenAt (state S.Store) office.old office.new (λ s. ComesTo cut page (λ course.
        IsDone (state S.Store office.old.held) office.new.closed (state S.Store office.new.held) (F.held folder.now) s job.now course))) }
    ensures keeps_connection { KeepsConnection (state S.Store office.old.held) (state S.Store office.new.held) }
    ensures clean { HasCleanDisk (state S.Store office.new.held) → HasCleanDisk (state S.Store office.old.held) }
{
    follow_recorded(alloc, office, job, folder, &mut NoRecord, out, err)
}
