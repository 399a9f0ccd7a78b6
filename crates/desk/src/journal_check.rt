//! Checking and printing the journal of the office: its accepted orders as a script. Before the journal is printed, it is parsed
//! and replayed in an empty office, which must end up in the same state.

ghost use Rattle.std.specs.Prelude.{◌≡◌, ◌-◌, ◌^◌, ◌<◌, List, true, string_bytes, IfNone, IfOk, IfSome};
ghost use Rattle.sqlite.specs.State.{HasCleanDisk};
ghost use Rattle.sqlite.specs.Held.{state};
ghost use Rattle.tables.specs.Reading.{OnlyReads};
ghost use Rattle.register.specs.Offices.{MapsAreSorted};
ghost use Rattle.register.specs.declared.command.Request.{Request};
ghost use Rattle.rowcheck.specs.States.{state_of};
ghost use Rattle.store.specs.Openings.{IsBlank};
ghost use Rattle.office.specs.Answers.{IsReadAt, WhenOpenAt};
ghost use Rattle.desk.specs.Journals.{AreSent, IsJournalTold, IsJournalled, IsScriptOf, IsScriptOfNone};
ghost use Rattle.desk.specs.Pages.{Tells, closed_page, outputs_of, page_of};

use crate::journal::journal_text;
use crate::lines::{LineOutcome, tell};
use crate::orders::Errand;
use crate::scripts::{ScriptFault, ScriptStep, lines_in, script_steps, typed_lines};
use office::Office;
use register::Request;
use rowcheck::Rows;
use sqlite::{Alter, Connection};
use std::alloc::{AllocError, Global};
use store::Fault;
use streams::Sink;

/// The text of a journal that hasn't been checked yet, and the requests that it parses to; None if it isn't a script of requests
/// only.
#[derive(Drop)]
pub(crate) struct Draft {
    pub(crate) text: String,
    pub(crate) requests: Option<Vec<Request>>,
}

/// Returns the requests that the given steps send; None if a step does anything other than send a given request.
pub(crate) fn requests_of(
    alloc: Global,
    turns: Vec<ScriptStep<'_>>,
) -> Result<Option<Vec<Request>>, AllocError>
    ensures some { IfOk result (λ found. IfSome found (λ requests. AreSent turns.entry.items requests.items)) }
    ensures none { IfOk result (λ found. IfNone found ((requests : List Request) → AreSent turns.entry.items requests → ⊥)) }
{
    let mut requests = Vec::new(alloc);
    for turn in turns {
        let ScriptStep { line: _, errand } = turn;
        match errand {
            Errand::Send(request) => requests.push(request)?,
            _ => return Ok(None),
        }
    }
    Ok(Some(requests))
}

/// Returns a script's requests; None if the text isn't a script of requests only.
pub(crate) fn requests_in(alloc: Global, text: &str) -> Result<Option<Vec<Request>>, AllocError>
    ensures some { IfOk result (λ found. IfSome found (λ requests. IsScriptOf text.now requests.items)) }
    ensures none { IfOk result (λ found. IfNone found (IsScriptOfNone text.now)) }
{
    let lines = lines_in(alloc, text.as_bytes())?;
    let said = typed_lines(alloc, &lines)?;
    match script_steps(alloc, &said) {
        Ok(turns) => requests_of(alloc, turns),
        Err(ScriptFault::Memory) => Err(AllocError),
        Err(ScriptFault::ScriptLine(_, _)) => Ok(None),
    }
}

/// Returns the text of the journal for an office with the given rows, and the requests it parses to.
pub(crate) fn draft_of(alloc: Global, rows: &Rows) -> Result<Draft, AllocError>
    requires { MapsAreSorted (state_of rows.now) }
    ensures some { IfOk result (λ draft. IfSome draft.requests (λ requests. IsScriptOf (string_bytes draft.text) requests.items)) }
    ensures none { IfOk result (λ draft. IfNone draft.requests (IsScriptOfNone (string_bytes draft.text))) }
{
    let text = journal_text(alloc, rows)?;
    let requests = requests_in(alloc, text.as_str())?;
    Ok(Draft { text, requests })
}

/// Returns the journal for an office with the given rows, or the reason why there is none: the text doesn't reproduce that office,
/// or a fault, `Memory` or `Store`, occurred. The journal is replayed in the empty database on a connection. That connection is
/// returned along with whatever the replay left in its database.
fn journal_of<T: Alter>(
    alloc: Global,
    rows: &Rows,
    blank: Connection<T>,
) -> (LineOutcome, Connection<T>)
    requires { MapsAreSorted (state_of rows.now) }
    ensures { HasCleanDisk (state T.Store result.1) → IsBlank (state T.Store blank) → IsJournalTold (state_of rows.now) (page_of result.0) }
{
    let Draft { text, requests } = match draft_of(alloc, rows) {
        Ok(draft) => draft,
        Err(AllocError) => return (LineOutcome::Failed(Fault::Memory), blank),
    };
    let Some(requests) = requests else {
        return (LineOutcome::Unjournalled, blank);
    };
    let (led, blank) = Office::leads_to(alloc, blank, &requests, rows);
    match led {
        Ok(true) => (LineOutcome::Printed(text), blank),
        Ok(false) => (LineOutcome::Unjournalled, blank),
        Err(fault) => (LineOutcome::Failed(fault), blank),
    }
}

/// Returns the journal of the office on a connection, or the reason why there is none.
fn journalled<S: Alter, T: Alter>(
    alloc: Global,
    conn: &mut Connection<S>,
    blank: Connection<T>,
) -> (LineOutcome, Connection<T>)
    ensures told { HasCleanDisk (state S.Store conn.new)
        → IsJournalled (page_of result.0) (state S.Store conn.old) (state S.Store conn.new) (state T.Store blank) (state T.Store result.1) }
    ensures reads { OnlyReads (state S.Store conn.old) (state S.Store conn.new) }
{
    match Office::rows(alloc, conn) {
        Ok(rows) => journal_of(alloc, &rows, blank),
        Err(fault) => (LineOutcome::Failed(fault), blank),
    }
}

/// Returns the journal of an open office, which stays open, or the reason why there is none.
fn journalled_open<S: Alter, T: Alter>(
    alloc: Global,
    office: &mut Office<S>,
    blank: Connection<T>,
) -> (LineOutcome, Connection<T>)
    ensures told { WhenOpenAt (state S.Store) office.old office.new
        (λ s. (HasCleanDisk (state T.Store result.1) → IsBlank (state T.Store blank) → IsJournalTold s (page_of result.0)) × IsReadAt s office.new.closed (state S.Store office.new.held)) }
    ensures reads { OnlyReads (state S.Store office.old.held) (state S.Store office.new.held) }
    ensures closed { office.old.closed ≡ true → (page_of result.0 ≡ closed_page) × (office.new ≡ office.old) }
{
    match office.rows_open() {
        Ok(rows) => journal_of(alloc, &rows, blank),
        Err(fault) => (LineOutcome::Failed(fault), blank),
    }
}

/// Prints the journal of an open office, which stays open, and returns the status. The other connection isn't closed.
///
/// The journal is checked and printed the same way as in `journal_office`, except that the office is already open. The office is
/// only read. A closed office is reported as such.
pub fn journal_open<S: Alter, T: Alter, O: Sink, E: Sink>(
    alloc: Global,
    office: &mut Office<S>,
    blank: Connection<T>,
    out: &mut O,
    err: &mut E,
) -> (u8, Connection<T>)
    requires out { O.failed out.old < 2 ^ 64 - 1 }
    requires err { E.failed err.old < 2 ^ 64 - 1 }
    ensures journalled { let outputs = outputs_of O.taken O.failed E.taken E.failed in Tells (outputs out.old err.old) (outputs out.new err.new) result.0
        (λ _ page. WhenOpenAt (state S.Store) office.old office.new (λ s. HasCleanDisk (state T.Store result.1) → IsBlank (state T.Store blank) → IsJournalTold s page)
        × (office.old.closed ≡ true → page ≡ closed_page)) }
    ensures stays { WhenOpenAt (state S.Store) office.old office.new (λ s. IsReadAt s office.new.closed (state S.Store office.new.held)) }
    ensures reads { OnlyReads (state S.Store office.old.held) (state S.Store office.new.held) }
    ensures closed { office.old.closed ≡ true → office.new ≡ office.old }
{
    let (outcome, blank) = journalled_open(alloc, office, blank);
    (tell(None, &outcome, out, err), blank)
}

/// Prints the journal of the office on an open connection, and returns the status. Neither connection is closed.
///
/// The journal is a script that `replay` accepts: each line is an order that was accepted. It needs no other file. Before it is
/// printed, it is parsed as a script and replayed in an empty office, which is created in the database on the other connection.
/// If the status is 0, every line was accepted there, and together they produced exactly the state of this office, including
/// every receipt. The office itself is only read.
///
/// If the text doesn't reproduce exactly this office, this is reported with status 1. That happens if the receipts and the other
/// tables don't match; nothing guarantees that it never happens otherwise. If the database contains no office, or a newer, older or
/// damaged one, the corresponding fault is reported (105, 106, 108, 103), with its cause. An allocation failure (101) or a failed
/// store (102) is reported without saying whether it happened while the office was being read or during the replay.
pub fn journal_office<S: Alter, T: Alter, O: Sink, E: Sink>(
    alloc: Global,
    conn: &mut Connection<S>,
    blank: Connection<T>,
    out: &mut O,
    err: &mut E,
) -> (u8, Connection<T>)
    requires out { O.failed out.old < 2 ^ 64 - 1 }
    requires err { E.failed err.old < 2 ^ 64 - 1 }
    ensures journalled { let outputs = outputs_of O.taken O.failed E.taken E.failed in Tells (outputs out.old err.old) (outputs out.new err.new) result.0
        (λ _ page. HasCleanDisk (state S.Store conn.new)
        → IsJournalled page (state S.Store conn.old) (state S.Store conn.new) (state T.Store blank) (state T.Store result.1)) }
    ensures reads { OnlyReads (state S.Store conn.old) (state S.Store conn.new) }
{
    let (outcome, blank) = journalled(alloc, conn, blank);
    (tell(None, &outcome, out, err), blank)
}
