//! Makes a new office from the journal of another, with some orders left out and others replaced.
//!
//! The orders of the journal are read back and replayed in an empty office, as for `journal`. Then they are sent, with the changes, to
//! another empty office, which is copied to the new database, whole or not at all. The existing office is only read.

ghost use Rattle.std.specs.Prelude.{◌≡◌, ◌⊎◌, ◌++◌, ◌-◌, ◌^◌, ◌<◌, false, codes, length, map, string_bytes, IfErr, IfOk};
ghost use Rattle.std.specs.List.{list_any};
ghost use Rattle.std.specs.Str.{bytes_eq};
ghost use Rattle.sqlite.specs.Held.{state};
ghost use Rattle.sqlite.specs.State.{HasCleanDisk};
ghost use Rattle.register.specs.Offices.{MapsAreSorted, OfficeState, empty_office};
ghost use Rattle.rowcheck.specs.States.{state_of};
ghost use Rattle.tables.specs.Reading.{OnlyReads};
ghost use Rattle.store.specs.Openings.{IsBlank};
ghost use Rattle.store.specs.StateTables.{IsAt};
ghost use Rattle.office.specs.Answers.{IsOpenAt, WhenOpenAt};
ghost use Rattle.office.specs.Runs.{LeadTo};
ghost use Rattle.mending.specs.Changes.{CanBeMade};
ghost use Rattle.mending.specs.Accounts.{IsMended};
ghost use Rattle.mending.specs.Mending.{mended};
ghost use Rattle.mending.specs.Reports.{end_line};
ghost use Rattle.desk.specs.Copying.{IsAsReported, LeavesNoneOrOffice};
ghost use Rattle.desk.specs.Journals.{IsScriptOf};
ghost use Rattle.desk.specs.Mends.{AreUnsendable, HoldsMended, IsMendedOpen, IsTried, IsUnread, StaysReadAt, differing, mended_text, missing_from, out_of_memory, script_of, unsent_text, ward_lines};
ghost use Rattle.desk.specs.Pages.{Tells, line, outputs_of, page_of, unmended};

use crate::copying::{CopyState, state_behind};
use crate::journal_check::{Draft, draft_of, requests_in};
use crate::lines::{LineOutcome, tell};
use crate::orders::MendOrder;
use crate::overviews::lines_on_wards;
use mending::{Changes, MendFault, Mended, Recipient, Sent, flaw_in, mend};
use office::{Answer, Office, ReadError};
use register::Request;
use rowcheck::Rows;
use sqlite::{Alter, Connection};
use std::alloc::{AllocError, Global};
use store::Fault;
use streams::Sink;

/// What is printed if the texts after `--with` aren't orders that can be sent.
const UNSENT: &str =
    "not mended: each --with is an order that is sent, as a line of a script, and that names no file\n";

/// Two connections to empty databases: one in which the journal is replayed, and one in which the new office is made before it is
/// copied.
pub struct MendTrial<T: Alter> {
    pub journal: Connection<T>,
    pub mended: Connection<T>,
}

/// The orders of an office, as in its journal, and the line on each of its wards.
#[derive(Drop)]
struct Journalled {
    orders: Vec<Request>,
    wards: Vec<String>,
}

// ---- the orders that replace others

/// Appends a line.
fn put_line(text: &mut String, words: &str) -> Result<(), AllocError>
    ensures { IfOk result (λ _. string_bytes text.new ≡ string_bytes text.old ++ line words.now) }
{
    text.push_str(words)?;
    text.push_str("\n")
}

/// Returns the script with these lines.
fn script_of(alloc: Global, lines: &[String]) -> Result<String, AllocError>
    ensures { IfOk result (λ text. string_bytes text ≡ script_of (map string_bytes lines.now)) }
{
    let mut text = String::new(alloc);
    for words in lines {
        put_line(&mut text, words.as_str())?;
    }
    Ok(text)
}

/// Returns the outcome for texts after `--with` that aren't orders that can be sent.
fn unsent(alloc: Global) -> LineOutcome
    ensures { (page_of result ≡ unmended unsent_text) ⊎ (page_of result ≡ out_of_memory) }
{
    match String::from_str(alloc, UNSENT) {
        Ok(text) => LineOutcome::Unmended(text),
        Err(AllocError) => LineOutcome::Failed(Fault::Memory),
    }
}

/// Parses these lines into orders, one per line. Returns the outcome to print if they aren't orders that can be sent, or if an
/// allocation fails. A blank line or a comment isn't an order either.
fn orders_in(alloc: Global, lines: &[String]) -> Result<Vec<Request>, LineOutcome>
    ensures ok { IfOk result (λ orders. IsScriptOf (script_of (map string_bytes lines.now)) orders.items) }
    ensures each { IfOk result (λ orders. length orders.items ≡ length lines.now) }
    ensures err { IfErr result (λ outcome. ((page_of outcome ≡ unmended unsent_text) × AreUnsendable (map string_bytes lines.now))
        ⊎ (page_of outcome ≡ out_of_memory)) }
{
    let Ok(script) = script_of(alloc, lines) else {
        return Err(LineOutcome::Failed(Fault::Memory));
    };
    match requests_in(alloc, script.as_str()) {
        Ok(Some(orders)) => {
            if orders.len() == lines.len() {
                Ok(orders)
            } else {
                Err(unsent(alloc))
            }
        }
        Ok(None) => Err(unsent(alloc)),
        Err(AllocError) => Err(LineOutcome::Failed(Fault::Memory)),
    }
}

// ---- the existing office

/// Returns the orders in the journal of the office with these rows, or the outcome to print if it has no journal. Replays them
/// in the empty database of a connection, which is returned.
fn orders_of<T: Alter>(
    alloc: Global,
    rows: &Rows,
    blank: Connection<T>,
) -> (Result<Vec<Request>, LineOutcome>, Connection<T>)
    requires { MapsAreSorted (state_of rows.now) }
    ensures leads { HasCleanDisk (state T.Store result.1) → IsBlank (state T.Store blank) → IfOk result.0 (λ orders. LeadTo orders.items (state_of rows.now)) }
    ensures told { IfErr result.0 (λ outcome. IsUnread (page_of outcome)) }
{
    let orders = match draft_of(alloc, rows) {
        Ok(Draft { requests, .. }) => requests,
        Err(AllocError) => return (Err(LineOutcome::Failed(Fault::Memory)), blank),
    };
    let Some(orders) = orders else {
        return (Err(LineOutcome::Unjournalled), blank);
    };
    let (led, blank) = Office::leads_to(alloc, blank, &orders, rows);
    match led {
        Ok(true) => (Ok(orders), blank),
        Ok(false) => (Err(LineOutcome::Unjournalled), blank),
        Err(fault) => (Err(LineOutcome::Failed(fault)), blank),
    }
}

/// Returns the line on each ward of an open office, which stays open.
fn wards_of<S: Alter>(alloc: Global, office: &mut Office<S>) -> Result<Vec<String>, Fault>
    ensures read { WhenOpenAt (state S.Store) office.old office.new
        (λ s. IfOk result (λ lines. (map string_bytes lines.items ≡ ward_lines s) × IsOpenAt s office.new.closed (state S.Store office.new.held))) }
    ensures stays { StaysReadAt (state S.Store) office.old office.new }
    ensures reads { OnlyReads (state S.Store office.old.held) (state S.Store office.new.held) }
{
    match office.wards() {
        Ok(wards) => match lines_on_wards(alloc, &wards) {
            Ok(lines) => Ok(lines),
            Err(AllocError) => Err(Fault::Memory),
        },
        Err(ReadError::Fault(fault)) => Err(fault),
        Err(ReadError::Refused(_)) => Err(Fault::Store),
    }
}

/// Returns the orders of an open office, which stays open, and the line on each of its wards; or the outcome if there are none.
/// Replays the orders in the empty database of a connection, which is returned.
fn orders_and_wards<S: Alter, T: Alter>(
    alloc: Global,
    office: &mut Office<S>,
    blank: Connection<T>,
) -> (Result<Journalled, LineOutcome>, Connection<T>)
    ensures leads { WhenOpenAt (state S.Store) office.old office.new (λ s. HasCleanDisk (state T.Store result.1) → IsBlank (state T.Store blank)
        → IfOk result.0 (λ found. LeadTo found.orders.items s × (map string_bytes found.wards.items ≡ ward_lines s))) }
    ensures stays { StaysReadAt (state S.Store) office.old office.new }
    ensures reads { OnlyReads (state S.Store office.old.held) (state S.Store office.new.held) }
    ensures told { IfErr result.0 (λ outcome. IsUnread (page_of outcome)) }
{
    let wards = match wards_of(alloc, office) {
        Ok(wards) => wards,
        Err(fault) => return (Err(LineOutcome::Failed(fault)), blank),
    };
    let rows = match office.rows_open() {
        Ok(rows) => rows,
        Err(fault) => return (Err(LineOutcome::Failed(fault)), blank),
    };
    let (orders, blank) = orders_of(alloc, &rows, blank);
    match orders {
        Ok(orders) => (Ok(Journalled { orders, wards }), blank),
        Err(outcome) => (Err(outcome), blank),
    }
}

// ---- what is printed

/// Returns whether this line is among the lines.
fn has_line(lines: &[String], words: &str) -> bool
    ensures { result ≡ list_any (bytes_eq words.now) (map string_bytes lines.now) }
{
    for other in lines {
        if words == other.as_str() {
            return true;
        }
    }
    false
}

/// Appends a mark and a line, unless the line is one of the others.
fn put_missing(
    text: &mut String,
    others: &[String],
    mark: &str,
    words: &str,
) -> Result<(), AllocError>
    ensures { IfOk result (λ _. string_bytes text.new ≡ string_bytes text.old ++ missing_from (map string_bytes others.now) mark.now words.now) }
{
    if has_line(others, words) {
        return Ok(());
    }
    text.push_str(mark)?;
    put_line(text, words)
}

/// Appends those of our lines that theirs don't include, each after a mark.
fn put_differing(
    text: &mut String,
    mark: &str,
    ours: &[String],
    theirs: &[String],
) -> Result<(), AllocError>
    ensures { IfOk result (λ _. string_bytes text.new ≡ string_bytes text.old ++ differing mark.now (map string_bytes ours.now) (map string_bytes theirs.now)) }
{
    for words in ours {
        put_missing(text, theirs, mark, words.as_str())?;
    }
    Ok(())
}

/// Returns what is printed about a new office, given the lines on wards of the old office and of the new one.
fn text_of(
    alloc: Global,
    mended: &Mended,
    before: &[String],
    after: &[String],
) -> Result<String, AllocError>
    ensures { IfOk result (λ text. string_bytes text ≡ string_bytes mended.now.text ++ (differing (codes "- ") (map string_bytes before.now) (map string_bytes after.now)
        ++ (differing (codes "+ ") (map string_bytes after.now) (map string_bytes before.now) ++ end_line mended.now.kept mended.now.replaced mended.now.left_out))) }
{
    let mut text = mended.text.clone()?;
    put_differing(&mut text, "- ", before, after)?;
    put_differing(&mut text, "+ ", after, before)?;
    let end = mended.end_line(alloc)?;
    text.push_str(end.as_str())?;
    Ok(text)
}

// ---- the new office

/// The mended office in memory, before it is copied to the new database.
struct NewOffice<T: Alter> {
    office: Office<T>,
}

impl<T: Alter> Recipient for NewOffice<T> {
    ghost is_at = { λ new s. (new.office.closed ≡ false) × IsAt s (state T.Store new.office.held) };

    ghost is_sound = { λ new. HasCleanDisk (state T.Store new.office.held) };

    fn send(&mut self, order: &Request) -> Result<Sent, MendFault> {
        match self
            .office
            .handle(order.actor, order.id.as_str(), &order.command)
        {
            Ok(Answer::Done(_)) => Ok(Sent::Accepted),
            Ok(Answer::Kept(_)) => Ok(Sent::Known),
            Ok(Answer::Refused(refusal)) => Ok(Sent::Denied(refusal)),
            Err(Fault::Memory) => Err(MendFault::Memory),
            Err(_) => Err(MendFault::Store),
        }
    }
}

/// Returns the corresponding fault of the office.
fn fault_of(fault: MendFault) -> Fault {
    match fault {
        MendFault::Memory => Fault::Memory,
        MendFault::Store => Fault::Store,
    }
}

/// Sends the orders, with the changes, to an empty office, and returns what is printed about it. `before` has the lines on wards of
/// the old office.
fn report<T: Alter>(
    alloc: Global,
    new: &mut NewOffice<T>,
    changes: Changes<'_>,
    before: &[String],
) -> Result<String, Fault>
    ensures mended { HasCleanDisk (state T.Store new.new.office.held) → new.old.office.closed ≡ false → IsAt empty_office (state T.Store new.old.office.held)
        → IfOk result (λ text. (string_bytes text ≡ mended_text (map string_bytes before.now) (mended changes.entry))
        × IsOpenAt (mended changes.entry).state new.new.office.closed (state T.Store new.new.office.held)) }
    ensures list { IsMended changes.entry (mended changes.entry) }
    ensures clean { HasCleanDisk (state T.Store new.new.office.held) → HasCleanDisk (state T.Store new.old.office.held) }
{
    let mended = match mend(alloc, new, changes) {
        Ok(mended) => mended,
        Err(fault) => return Err(fault_of(fault)),
    };
    let after = wards_of(alloc, &mut new.office)?;
    match text_of(alloc, &mended, before, &after) {
        Ok(text) => Ok(text),
        Err(AllocError) => Err(Fault::Memory),
    }
}

/// Sends the orders, with the changes, to an empty office, and copies the result to the new database.
fn copied<T: Alter, N: Alter>(
    alloc: Global,
    made: &mut NewOffice<T>,
    changes: Changes<'_>,
    before: &[String],
    new: &mut Connection<N>,
) -> (LineOutcome, CopyState)
    requires { CanBeMade changes }
    ensures made { HasCleanDisk (state T.Store made.new.office.held) → made.old.office.closed ≡ false → IsAt empty_office (state T.Store made.old.office.held)
        → IsTried (map string_bytes before.now) changes.entry (page_of result.0) result.1 (state N.Store new.old) (state N.Store new.new) }
    ensures whole { LeavesNoneOrOffice (state N.Store new.old) (state N.Store new.new) }
    ensures holds { HoldsMended result.1 (page_of result.0) (state N.Store new.old) (state N.Store new.new) }
    ensures untouched { IsAsReported result.1 new.old new.new }
    ensures clean { HasCleanDisk (state T.Store made.new.office.held) → HasCleanDisk (state T.Store made.old.office.held) }
{
    let text = match report(alloc, made, changes, before) {
        Ok(text) => text,
        Err(fault) => return (LineOutcome::Failed(fault), CopyState::Untouched),
    };
    match made.office.copy_open(new) {
        Ok(_) => (LineOutcome::Printed(text), CopyState::Whole),
        Err(fault) => (LineOutcome::Uncopied(fault), state_behind(fault)),
    }
}

/// Makes the office that results from the orders, with the changes, in the empty database of a connection, which is returned. Copies
/// it to the new database.
fn made<T: Alter, N: Alter>(
    alloc: Global,
    blank: Connection<T>,
    changes: Changes<'_>,
    before: &[String],
    new: &mut Connection<N>,
) -> (LineOutcome, CopyState, Connection<T>)
    requires { CanBeMade changes }
    ensures made { HasCleanDisk (state T.Store result.2) → IsBlank (state T.Store blank)
        → IsTried (map string_bytes before.now) changes.entry (page_of result.0) result.1 (state N.Store new.old) (state N.Store new.new) }
    ensures whole { LeavesNoneOrOffice (state N.Store new.old) (state N.Store new.new) }
    ensures holds { HoldsMended result.1 (page_of result.0) (state N.Store new.old) (state N.Store new.new) }
    ensures untouched { IsAsReported result.1 new.old new.new }
{
    match Office::create(alloc, blank) {
        Ok(office) => {
            let mut made = NewOffice { office };
            let (outcome, state) = copied(alloc, &mut made, changes, before, new);
            let NewOffice { office } = made;
            (outcome, state, office.into_connection())
        }
        Err((fault, conn)) => (LineOutcome::Failed(fault), CopyState::Untouched, conn),
    }
}

/// Makes the new office if the changes can be made to the orders.
fn checked<T: Alter, N: Alter>(
    alloc: Global,
    blank: Connection<T>,
    changes: Changes<'_>,
    before: &[String],
    new: &mut Connection<N>,
) -> (LineOutcome, CopyState, Connection<T>)
    ensures made { HasCleanDisk (state T.Store result.2) → IsBlank (state T.Store blank)
        → IsTried (map string_bytes before.now) changes.entry (page_of result.0) result.1 (state N.Store new.old) (state N.Store new.new) }
    ensures whole { LeavesNoneOrOffice (state N.Store new.old) (state N.Store new.new) }
    ensures holds { HoldsMended result.1 (page_of result.0) (state N.Store new.old) (state N.Store new.new) }
    ensures untouched { IsAsReported result.1 new.old new.new }
{
    match flaw_in(alloc, changes) {
        Ok(None) => made(alloc, blank, changes, before, new),
        Ok(Some(flaw)) => match flaw.text(alloc) {
            Ok(text) => (LineOutcome::Unmended(text), CopyState::Untouched, blank),
            Err(AllocError) => (
                LineOutcome::Failed(Fault::Memory),
                CopyState::Untouched,
                blank,
            ),
        },
        Err(AllocError) => (
            LineOutcome::Failed(Fault::Memory),
            CopyState::Untouched,
            blank,
        ),
    }
}

/// Makes a new office from the journal of an open one, which stays open. Returns the outcome, what the new database contains, and the
/// connections.
fn mended_open<S: Alter, T: Alter, N: Alter>(
    alloc: Global,
    office: &mut Office<S>,
    asked: &MendOrder<'_>,
    trial: MendTrial<T>,
    new: &mut Connection<N>,
) -> (LineOutcome, CopyState, MendTrial<T>)
    ensures made { WhenOpenAt (state S.Store) office.old office.new (λ s. HasCleanDisk (state T.Store result.2.journal) → HasCleanDisk (state T.Store result.2.mended)
        → IsBlank (state T.Store trial.journal) → IsBlank (state T.Store trial.mended)
        → IsMendedOpen s asked.now (page_of result.0) result.1 (state N.Store new.old) (state N.Store new.new)) }
    ensures stays { StaysReadAt (state S.Store) office.old office.new }
    ensures reads { OnlyReads (state S.Store office.old.held) (state S.Store office.new.held) }
    ensures whole { LeavesNoneOrOffice (state N.Store new.old) (state N.Store new.new) }
    ensures holds { HoldsMended result.1 (page_of result.0) (state N.Store new.old) (state N.Store new.new) }
    ensures untouched { IsAsReported result.1 new.old new.new }
{
    let instead = match orders_in(alloc, &asked.instead) {
        Ok(instead) => instead,
        Err(outcome) => return (outcome, CopyState::Untouched, trial),
    };
    let MendTrial {
        journal: blank,
        mended: second,
    } = trial;
    let (found, journal) = orders_and_wards(alloc, office, blank);
    let found = match found {
        Ok(found) => found,
        Err(outcome) => {
            let mended = second;
            return (outcome, CopyState::Untouched, MendTrial { journal, mended });
        }
    };
    let changes = Changes {
        orders: &found.orders,
        without: &asked.without,
        instead: &instead,
    };
    let (outcome, state, mended) = checked(alloc, second, changes, &found.wards, new);
    (outcome, state, MendTrial { journal, mended })
}

/// Makes a new office from the journal of an open one, which stays open, in the empty database of another connection. Prints which
/// orders were left out, which were replaced, and how the wards differ. Returns the status, what the new database contains, and the
/// connections of the trial, which aren't closed.
///
/// The orders are those of the journal, in its sequence. They are replayed in the first database of the trial, to check that they lead
/// to exactly the state of the office. Then they are sent, with the changes, to an empty office in the second one, as specified by
/// [`mend`](mending). That office is copied to the new database in one transaction, whole or not at all. So the new database has the
/// state that the resulting list of orders leads to, and each order in that list was accepted. Every order of the old office is in
/// that list unless a line says that it was left out or replaced.
///
/// If a name isn't that of an order, or an order after `--with` doesn't replace exactly one, the page says so with status 1, and
/// nothing is written. With status 0 the new database contains a whole office. The old office is only read, whatever the outcome. If
/// the new database can't be written, the failure is 110.
pub fn mend_open<S: Alter, T: Alter, N: Alter, O: Sink, E: Sink>(
    alloc: Global,
    office: &mut Office<S>,
    asked: &MendOrder<'_>,
    trial: MendTrial<T>,
    new: &mut Connection<N>,
    out: &mut O,
    err: &mut E,
) -> (u8, CopyState, MendTrial<T>)
    requires out { O.failed out.old < 2 ^ 64 - 1 }
    requires err { E.failed err.old < 2 ^ 64 - 1 }
    ensures made { let outputs = outputs_of O.taken O.failed E.taken E.failed in Tells (outputs out.old err.old) (outputs out.new err.new) result.0
        (λ _ page. HoldsMended result.1 page (state N.Store new.old) (state N.Store new.new)
        × WhenOpenAt (state S.Store) office.old office.new (λ s. HasCleanDisk (state T.Store result.2.journal) → HasCleanDisk (state T.Store result.2.mended)
        → IsBlank (state T.Store trial.journal) → IsBlank (state T.Store trial.mended)
        → IsMendedOpen s asked.now page result.1 (state N.Store new.old) (state N.Store new.new))) }
    ensures complete { result.0 ≡ 0 → (result.1 ≡ CopyState.Whole)
        × (HasCleanDisk (state N.Store new.new) → IsBlank (state N.Store new.old) → (s : OfficeState) × IsAt s (state N.Store new.new)) }
    ensures stays { StaysReadAt (state S.Store) office.old office.new }
    ensures reads { OnlyReads (state S.Store office.old.held) (state S.Store office.new.held) }
    ensures whole { LeavesNoneOrOffice (state N.Store new.old) (state N.Store new.new) }
    ensures untouched { IsAsReported result.1 new.old new.new }
{
    let (outcome, state, trial) = mended_open(alloc, office, asked, trial, new);
    (tell(None, &outcome, out, err), state, trial)
}
