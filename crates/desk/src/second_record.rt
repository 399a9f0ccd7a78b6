//! Comparing the office with a second record of it: a script with one line for each request that was accepted, such as a journal.
//!
//! The requests of the record are replayed in an empty office in memory. If they don't lead to the state of the office, one of the two
//! may have one request more than the other, because a stop came between two writes. That one is looked for, and the requests without
//! it, or with it, are replayed in another empty office.

ghost use Rattle.std.specs.Prelude.{◌≡◌, ◌⊎◌, ◌++◌, ◌∷◌, [], ◌-◌, ◌^◌, ◌<◌, ◌≤◌, false, length, option_and_then, string_bytes, IfErr, IfOk, IfSome, Some};
ghost use Rattle.std.specs.List.{list_any};
ghost use Rattle.sqlite.specs.Held.{state};
ghost use Rattle.sqlite.specs.State.{HasCleanDisk};
ghost use Rattle.register.specs.Offices.{MapsAreSorted};
ghost use Rattle.rowcheck.specs.States.{state_of};
ghost use Rattle.tables.specs.Reading.{OnlyReads};
ghost use Rattle.store.specs.Openings.{IsBlank};
ghost use Rattle.office.specs.Answers.{WhenOpenAt};
ghost use Rattle.desk.specs.Folders.{File, IsFileAt};
ghost use Rattle.desk.specs.Journals.{AreSent, IsScriptOf};
ghost use Rattle.desk.specs.Mends.{StaysReadAt, out_of_memory};
ghost use Rattle.desk.specs.Pages.{IsErrorTold, Tells, outputs_of, page_of, printed, unequal, unjournalled};
ghost use Rattle.desk.specs.Scripts.{whole_lines};
ghost use Rattle.desk.specs.Seconds.{HasUngiven, IsCompared, IsDifference, IsNoRecord, IsSecondTold, IsTextTold};
ghost use Rattle.desk.specs.Seconds.{apart_text, first_ungiven, has_name, is_given, more_here_text, more_there_text, record_page, request_words, same_text, sender_words};

use crate::folders::Folder;
use crate::journal_check::{Draft, draft_of, requests_of};
use crate::lexer::whole_lines;
use crate::lines::{Failure, LineOutcome, tell, tell_error, tell_failure, tell_script_fault};
use crate::order_running::bytes_of;
use crate::orders::Errand;
use crate::scripts::{ScriptFault, ScriptStep, lines_in, script_steps, typed_lines};
use mending::subject_of;
use office::Office;
use register::Request;
use rowcheck::Rows;
use sqlite::{Alter, Connection};
use std::alloc::{AllocError, Global};
use store::Fault;
use streams::Sink;

/// What is printed if an order of the record does something other than send one given request.
const UNGIVEN: &str = "error: an order in a second record is one request, and names no file\n";

/// Two connections to empty databases, in which requests are replayed: those of the record; and then those without the last, or with
/// one more.
pub struct SecondTrial<T: Alter> {
    pub same: Connection<T>,
    pub other: Connection<T>,
}

/// The reason why a text isn't a second record.
#[derive(Drop)]
pub(crate) enum NoRecord {
    /// It isn't a script, or an allocation failed.
    Script(ScriptFault),
    /// The order on this line does something other than send one given request.
    Ungiven(Option<usize>),
}

// ---- the record

/// Returns true if an errand sends a given request.
fn is_given(errand: &Errand<'_>) -> bool
    ensures { result ≡ is_given errand.now }
{
    matches!(errand, Errand::Send(_))
}

/// Returns the line of the first step that does something other than send a given request.
fn ungiven_line(turns: &[ScriptStep<'_>]) -> Option<usize>
    ensures { result ≡ option_and_then (λ turn. turn.line) (first_ungiven turns.now) }
{
    for turn in turns {
        if !is_given(&turn.errand) {
            return turn.line;
        }
    }
    None
}

/// Returns the requests that steps send, or the line of the first that does something else. Fails if an allocation fails.
fn requests_given(
    alloc: Global,
    turns: Vec<ScriptStep<'_>>,
) -> Result<Result<Vec<Request>, NoRecord>, AllocError>
    ensures some { IfOk result (λ found. IfOk found (λ requests. AreSent turns.entry.items requests.items)) }
    ensures none { IfOk result (λ found. IfErr found (λ fault. HasUngiven turns.entry.items fault)) }
{
    let line = ungiven_line(&turns);
    let found = requests_of(alloc, turns)?;
    match found {
        Some(requests) => Ok(Ok(requests)),
        None => Ok(Err(NoRecord::Ungiven(line))),
    }
}

/// Returns the requests of a text's whole lines, or why they aren't a script of requests. Fails if an allocation fails.
fn record_in(alloc: Global, text: &[u8]) -> Result<Result<Vec<Request>, NoRecord>, AllocError>
    ensures some { IfOk result (λ found. IfOk found (λ requests. IsScriptOf (whole_lines text.now) requests.items)) }
    ensures none { IfOk result (λ found. IfErr found (λ fault. IsNoRecord (whole_lines text.now) fault)) }
{
    let lines = lines_in(alloc, whole_lines(text))?;
    let said = typed_lines(alloc, &lines)?;
    match script_steps(alloc, &said) {
        Ok(turns) => requests_given(alloc, turns),
        Err(ScriptFault::Memory) => Err(AllocError),
        Err(ScriptFault::ScriptLine(number, flaw)) => {
            Ok(Err(NoRecord::Script(ScriptFault::ScriptLine(number, flaw))))
        }
    }
}

// ---- what is printed

#[tactic(auto, unfolding(crate::specs::Seconds::sender_words))]
/// Returns the words for the sender of a request, if it was a clerk.
fn sender_words(alloc: Global, actor: u32) -> Result<String, AllocError>
    ensures { IfOk result (λ text. string_bytes text ≡ sender_words actor) }
{
    if actor == 0 {
        return String::from_str(alloc, "");
    }
    format!(in alloc; " of clerk {actor}")
}

#[tactic(auto, unfolding(crate::specs::Seconds::request_words))]
/// Returns the subject of a request, its sender and its id.
fn request_words(alloc: Global, request: &Request) -> Result<String, AllocError>
    ensures { IfOk result (λ text. string_bytes text ≡ request_words request.now) }
{
    let subject = subject_of(alloc, &request.command)?;
    let sender = sender_words(alloc, request.actor)?;
    let id = request.id.as_str();
    format!(in alloc; "{subject}{sender}, id {id}")
}

#[tactic(auto, unfolding(crate::specs::Seconds::same_text))]
/// Returns the line if the record and the office hold the same.
fn same_text(alloc: Global, path: &str, count: usize) -> Result<String, AllocError>
    ensures { IfOk result (λ text. string_bytes text ≡ same_text path.now count) }
{
    format!(in alloc; "{path} and this office hold the same, {count} requests\n")
}

#[tactic(auto, unfolding(crate::specs::Seconds::more_here_text))]
/// Returns the line if the office has this request more than the record.
fn more_here_text(alloc: Global, path: &str, request: &Request) -> Result<String, AllocError>
    ensures { IfOk result (λ text. string_bytes text ≡ more_here_text path.now request.now) }
{
    let words = request_words(alloc, request)?;
    format!(in alloc; "this office has one request more than {path}: {words}\n")
}

#[tactic(auto, unfolding(crate::specs::Seconds::more_there_text))]
/// Returns the line if the record has this request more than the office.
fn more_there_text(alloc: Global, path: &str, request: &Request) -> Result<String, AllocError>
    ensures { IfOk result (λ text. string_bytes text ≡ more_there_text path.now request.now) }
{
    let words = request_words(alloc, request)?;
    format!(in alloc; "{path} has one request more than this office: {words}\n")
}

#[tactic(auto, unfolding(crate::specs::Seconds::apart_text))]
/// Returns the line if the record and the office differ otherwise, with their numbers of requests.
fn apart_text(alloc: Global, path: &str, there: usize, here: usize) -> Result<String, AllocError>
    ensures { IfOk result (λ text. string_bytes text ≡ apart_text path.now there here) }
{
    format!(in alloc;
        "{path} is of another office, or they differ by more than one request: it has {there}, this office has {here}\n"
    )
}

/// Returns the outcome if the record and the office hold the same.
fn same_as(alloc: Global, path: &str, count: usize) -> LineOutcome
    ensures { (page_of result ≡ printed (same_text path.now count)) ⊎ (page_of result ≡ out_of_memory) }
{
    match same_text(alloc, path, count) {
        Ok(text) => LineOutcome::Printed(text),
        Err(AllocError) => LineOutcome::Failed(Fault::Memory),
    }
}

/// Returns the outcome if the record has this request more than the office.
fn more(alloc: Global, path: &str, request: &Request) -> LineOutcome
    ensures { (page_of result ≡ unequal (more_there_text path.now request.now)) ⊎ (page_of result ≡ out_of_memory) }
{
    match more_there_text(alloc, path, request) {
        Ok(text) => LineOutcome::Unequal(text),
        Err(AllocError) => LineOutcome::Failed(Fault::Memory),
    }
}

/// Returns the outcome if the record and the office differ otherwise, with their numbers of requests.
fn apart(alloc: Global, path: &str, there: usize, here: usize) -> LineOutcome
    ensures { (page_of result ≡ unequal (apart_text path.now there here)) ⊎ (page_of result ≡ out_of_memory) }
{
    match apart_text(alloc, path, there, here) {
        Ok(text) => LineOutcome::Unequal(text),
        Err(AllocError) => LineOutcome::Failed(Fault::Memory),
    }
}

/// Prints why a file isn't a second record. Returns 2, or 3 if an allocation or the error output fails.
fn tell_no_record<E: Sink>(fault: &NoRecord, err: &mut E) -> u8
    requires { E.failed err.old < 2 ^ 64 - 1 }
    ensures { IsErrorTold E.taken E.failed err.old err.new (record_page fault.now).err (record_page fault.now).status result }
{
    match fault {
        NoRecord::Script(why) => tell_script_fault(why, err),
        NoRecord::Ungiven(line) => tell_error(*line, &[UNGIVEN], 2, err),
    }
}

// ---- how they differ

/// Returns true if one of the requests has this actor and this id.
fn has_name(requests: &[Request], actor: u32, id: &str) -> bool
    ensures { result ≡ list_any (has_name actor id.now) requests.now }
{
    for request in requests {
        if (request.actor == actor) & (request.id.as_str() == id) {
            return true;
        }
    }
    false
}

/// Returns the first of these requests whose actor and id none of the others has.
fn first_unnamed(all: Vec<Request>, others: &[Request]) -> Option<Request>
    ensures { IfSome result (λ r. list_any (has_name r.actor (string_bytes r.id)) others.now ≡ false) }
{
    for request in all {
        if !has_name(others, request.actor, request.id.as_str()) {
            return Some(request);
        }
    }
    None
}

/// Returns a request in the journal of the office with these rows whose actor and id none of the others has; or the outcome if there is
/// no journal.
fn unnamed_in(
    alloc: Global,
    rows: &Rows,
    others: &[Request],
) -> Result<Option<Request>, LineOutcome>
    requires { MapsAreSorted (state_of rows.now) }
    ensures new { IfOk result (λ found. IfSome found (λ r. list_any (has_name r.actor (string_bytes r.id)) others.now ≡ false)) }
    ensures none { IfErr result (λ outcome. (page_of outcome ≡ unjournalled) ⊎ (page_of outcome ≡ out_of_memory)) }
{
    let all = match draft_of(alloc, rows) {
        Ok(Draft { requests, .. }) => requests,
        Err(AllocError) => return Err(LineOutcome::Failed(Fault::Memory)),
    };
    match all {
        Some(all) => Ok(first_unnamed(all, others)),
        None => Err(LineOutcome::Unjournalled),
    }
}

/// Requests, the last of which the office has more than the record, and the line that says so.
#[derive(Drop)]
struct OneMore {
    requests: Vec<Request>,
    line: String,
}

/// Returns the requests of the record with this one after them. Fails if an allocation fails.
fn with_one_more(
    alloc: Global,
    path: &str,
    mut requests: Vec<Request>,
    request: Request,
) -> Result<OneMore, AllocError>
    ensures requests { IfOk result (λ more. more.requests.items ≡ requests.items ++ request ∷ []) }
    ensures line { IfOk result (λ more. string_bytes more.line ≡ more_here_text path.now request) }
{
    let line = more_here_text(alloc, path, &request)?;
    requests.push(request)?;
    Ok(OneMore { requests, line })
}

/// Returns whether the office with these rows has just this request more than the record, and the connection in whose database the
/// requests of both were replayed.
fn more_here<T: Alter>(
    alloc: Global,
    path: &str,
    requests: Vec<Request>,
    request: Request,
    rows: &Rows,
    blank: Connection<T>,
) -> (LineOutcome, Connection<T>)
    requires { length requests.items ≤ length rows.now.receipts.items }
    ensures { HasCleanDisk (state T.Store result.1) → IsBlank (state T.Store blank) → IsDifference (state_of rows.now) path.now requests.items (page_of result.0) }
{
    let (there, here) = (requests.len(), rows.receipts.len());
    let more = match with_one_more(alloc, path, requests, request) {
        Ok(more) => more,
        Err(AllocError) => return (LineOutcome::Failed(Fault::Memory), blank),
    };
    let OneMore {
        requests: all,
        line,
    } = more;
    let (led, blank) = Office::leads_to(alloc, blank, &all, rows);
    match led {
        Ok(true) => (LineOutcome::Unequal(line), blank),
        Ok(false) => (apart(alloc, path, there, here), blank),
        Err(fault) => (LineOutcome::Failed(fault), blank),
    }
}

/// Returns whether the record has just its last request more than the office with these rows, and the connection in whose database those
/// before it were replayed.
fn more_there<T: Alter>(
    alloc: Global,
    path: &str,
    mut requests: Vec<Request>,
    rows: &Rows,
    blank: Connection<T>,
) -> (LineOutcome, Connection<T>)
    ensures { HasCleanDisk (state T.Store result.1) → IsBlank (state T.Store blank) → IsDifference (state_of rows.now) path.now requests.items (page_of result.0) }
{
    let (there, here) = (requests.len(), rows.receipts.len());
    let last = match requests.pop() {
        Some(last) => last,
        None => return (apart(alloc, path, there, here), blank),
    };
    let (led, blank) = Office::leads_to(alloc, blank, &requests, rows);
    match led {
        Ok(true) => (more(alloc, path, &last), blank),
        Ok(false) => (apart(alloc, path, there, here), blank),
        Err(fault) => (LineOutcome::Failed(fault), blank),
    }
}

/// Returns how the office with these rows differs from a record whose requests don't lead to it, and the connection in whose database
/// other requests were replayed.
fn difference<T: Alter>(
    alloc: Global,
    path: &str,
    requests: Vec<Request>,
    rows: &Rows,
    blank: Connection<T>,
) -> (LineOutcome, Connection<T>)
    requires { MapsAreSorted (state_of rows.now) }
    ensures { HasCleanDisk (state T.Store result.1) → IsBlank (state T.Store blank) → IsDifference (state_of rows.now) path.now requests.items (page_of result.0) }
{
    let (there, here) = (requests.len(), rows.receipts.len());
    if there >= here {
        return more_there(alloc, path, requests, rows, blank);
    }
    match unnamed_in(alloc, rows, &requests) {
        Ok(Some(request)) => more_here(alloc, path, requests, request, rows, blank),
        Ok(None) => (apart(alloc, path, there, here), blank),
        Err(outcome) => (outcome, blank),
    }
}

// ---- the comparison

/// Compares the office with these rows with the requests of a record, and returns the outcome and the connections.
fn compared<T: Alter>(
    alloc: Global,
    path: &str,
    requests: Vec<Request>,
    rows: &Rows,
    trial: SecondTrial<T>,
) -> (LineOutcome, SecondTrial<T>)
    requires { MapsAreSorted (state_of rows.now) }
    ensures { HasCleanDisk (state T.Store result.1.same) → HasCleanDisk (state T.Store result.1.other) → IsBlank (state T.Store trial.same) → IsBlank (state T.Store trial.other)
        → IsCompared (state_of rows.now) path.now requests.items (page_of result.0) }
{
    let SecondTrial { same: first, other } = trial;
    let (led, same) = Office::leads_to(alloc, first, &requests, rows);
    match led {
        Ok(true) => (
            same_as(alloc, path, requests.len()),
            SecondTrial { same, other },
        ),
        Ok(false) => {
            let (outcome, other) = difference(alloc, path, requests, rows, other);
            (outcome, SecondTrial { same, other })
        }
        Err(fault) => (LineOutcome::Failed(fault), SecondTrial { same, other }),
    }
}

/// Compares an open office, which stays open, with the requests of a record, and returns the outcome and the connections.
fn compared_open<S: Alter, T: Alter>(
    alloc: Global,
    office: &mut Office<S>,
    path: &str,
    requests: Vec<Request>,
    trial: SecondTrial<T>,
) -> (LineOutcome, SecondTrial<T>)
    ensures told { WhenOpenAt (state S.Store) office.old office.new (λ s. HasCleanDisk (state T.Store result.1.same) → HasCleanDisk (state T.Store result.1.other)
        → IsBlank (state T.Store trial.same) → IsBlank (state T.Store trial.other) → IsCompared s path.now requests.items (page_of result.0)) }
    ensures stays { StaysReadAt (state S.Store) office.old office.new }
    ensures reads { OnlyReads (state S.Store office.old.held) (state S.Store office.new.held) }
{
    match office.rows_open() {
        Ok(rows) => compared(alloc, path, requests, &rows, trial),
        Err(fault) => (LineOutcome::Failed(fault), trial),
    }
}

/// Compares an open office, which stays open, with a second record of it, and prints the outcome. Returns the status and the connections.
fn second_in<S: Alter, T: Alter, O: Sink, E: Sink>(
    alloc: Global,
    office: &mut Office<S>,
    path: &str,
    text: &[u8],
    trial: SecondTrial<T>,
    out: &mut O,
    err: &mut E,
) -> (u8, SecondTrial<T>)
    requires out { O.failed out.old < 2 ^ 64 - 1 }
    requires err { E.failed err.old < 2 ^ 64 - 1 }
    ensures told { let outputs = outputs_of O.taken O.failed E.taken E.failed in Tells (outputs out.old err.old) (outputs out.new err.new) result.0
        (λ _ page. WhenOpenAt (state S.Store) office.old office.new (λ s. HasCleanDisk (state T.Store result.1.same) → HasCleanDisk (state T.Store result.1.other)
        → IsBlank (state T.Store trial.same) → IsBlank (state T.Store trial.other) → IsTextTold s path.now text.now page)) }
    ensures stays { StaysReadAt (state S.Store) office.old office.new }
    ensures reads { OnlyReads (state S.Store office.old.held) (state S.Store office.new.held) }
{
    let found = match record_in(alloc, text) {
        Ok(found) => found,
        Err(AllocError) => return (tell_failure(Failure::Office(Fault::Memory), err), trial),
    };
    match found {
        Ok(requests) => {
            let (outcome, trial) = compared_open(alloc, office, path, requests, trial);
            (tell(None, &outcome, out, err), trial)
        }
        Err(fault) => (tell_no_record(&fault, err), trial),
    }
}

/// Compares an open office, which stays open, with a second record of it in a file, and prints the outcome. Returns the status and the
/// connections of the trial, which aren't closed.
///
/// The whole lines of the file are parsed as a script of requests, and replayed in the first database of the trial. If they lead to
/// exactly the state of the office, the status is 0. Otherwise it is 1. If one of the two has one request more, the line says which, and
/// shows that request. If the office has more of them, it is looked for in the office's journal; otherwise it is the last one of the
/// record. It is shown only if the requests with it, or without it, lead to the office in the second database. If they don't, the line
/// has both numbers of requests.
///
/// If a line of the file isn't understood, or its order is none that sends one given request, this is reported with its number and status
/// 2. A file that can't be read, and a fault, are reported with status 3. The office is only read, whatever the outcome.
pub fn second_open<S: Alter, T: Alter, F: Folder, O: Sink, E: Sink>(
    alloc: Global,
    office: &mut Office<S>,
    path: &str,
    folder: &F,
    trial: SecondTrial<T>,
    out: &mut O,
    err: &mut E,
) -> (u8, SecondTrial<T>)
    requires out { O.failed out.old < 2 ^ 64 - 1 }
    requires err { E.failed err.old < 2 ^ 64 - 1 }
    ensures told { let outputs = outputs_of O.taken O.failed E.taken E.failed in Tells (outputs out.old err.old) (outputs out.new err.new) result.0
        (λ _ page. WhenOpenAt (state S.Store) office.old office.new (λ s. HasCleanDisk (state T.Store result.1.same) → HasCleanDisk (state T.Store result.1.other)
        → IsBlank (state T.Store trial.same) → IsBlank (state T.Store trial.other)
        → (file : File) × IsFileAt (F.held folder.now) (Some path.now) file × IsSecondTold s path.now file page)) }
    ensures stays { StaysReadAt (state S.Store) office.old office.new }
    ensures reads { OnlyReads (state S.Store office.old.held) (state S.Store office.new.held) }
{
    match bytes_of(alloc, folder.open(path)) {
        Ok(bytes) => second_in(alloc, office, path, &bytes, trial, out, err),
        Err(outcome) => (tell(None, &outcome, out, err), trial),
    }
}
