//! Copying the office.

ghost use Rattle.std.specs.Prelude.{◌≡◌, ◌-◌, ◌^◌, ◌<◌, true, IfOk, string_bytes};
ghost use Rattle.sqlite.specs.State.{HasCleanDisk};
ghost use Rattle.sqlite.specs.Held.{state};
ghost use Rattle.tables.specs.Reading.{OnlyReads};
ghost use Rattle.register.specs.Offices.{OfficeState};
ghost use Rattle.store.specs.StateTables.{IsAt, KeepsConnection};
ghost use Rattle.store.specs.Openings.{IsBlank};
ghost use Rattle.office.specs.Answers.{IsReadAt, WhenOpenAt};
ghost use Rattle.desk.specs.Copying.{HoldsCopy, IsAsReported, IsCopied, IsCopiedOpen, copied_text, state_behind};
ghost use Rattle.desk.specs.Pages.{Tells, closed_page, outputs_of, page_of};

use crate::lines::{LineOutcome, tell};
use office::{Office, OfficeCounts};
use sqlite::{Alter, Connection};
use std::alloc::{AllocError, Global};
use store::{CopyFault, Fault};
use streams::Sink;

#[tactic(auto, unfolding(crate::specs::Copying::copied_text))]
/// Returns the line that says how much a copy contains, without its newline.
fn copied_text(alloc: Global, holdings: OfficeCounts) -> Result<String, AllocError>
    ensures { IfOk result (λ text. string_bytes text ≡ copied_text holdings) }
{
    let (wards, batches) = (holdings.wards, holdings.batches);
    let (keyings, receipts) = (holdings.keyings, holdings.receipts);
    format!(in alloc;
        "copied {wards} wards, {batches} batches, {keyings} keyings, {receipts} receipts"
    )
}

/// What the other database is known to contain after the order.
#[derive(Clone, Copy)]
pub enum CopyState {
    /// The whole office. The reply was printed, unless the output failed.
    Whole,
    /// What it contained before. Nothing was written.
    Untouched,
    /// Either what it contained before or the whole office. No reply is printed.
    Unknown,
}

/// Returns what the other database contains after the given fault.
pub(crate) fn state_behind(fault: CopyFault) -> CopyState
    ensures { result ≡ state_behind fault }
{
    match fault {
        CopyFault::Office(_) => CopyState::Untouched,
        CopyFault::Taken => CopyState::Untouched,
        CopyFault::Copy(_) => CopyState::Unknown,
    }
}

/// Copies the office. Returns the outcome and what the other database contains.
fn copied<S: Alter, T: Alter>(
    alloc: Global,
    conn: &mut Connection<S>,
    copy: &mut Connection<T>,
) -> (LineOutcome, CopyState)
    ensures holds { HoldsCopy result.1 (page_of result.0) (state T.Store copy.old) (state T.Store copy.new) }
    ensures copied { HasCleanDisk (state S.Store conn.new) → IsCopied (page_of result.0) result.1 (state S.Store conn.old) (state S.Store conn.new) (state T.Store copy.old) (state T.Store copy.new) }
    ensures untouched { IsAsReported result.1 copy.old copy.new }
    ensures reads { OnlyReads (state S.Store conn.old) (state S.Store conn.new) }
    ensures keeps_connection { KeepsConnection (state T.Store copy.old) (state T.Store copy.new) }
    ensures clean { HasCleanDisk (state T.Store copy.new) → HasCleanDisk (state T.Store copy.old) }
{
    match Office::copy(alloc, conn, copy) {
        Ok(holdings) => match copied_text(alloc, holdings) {
            Ok(text) => (LineOutcome::Replied(text), CopyState::Whole),
            Err(_) => (LineOutcome::Failed(Fault::Memory), CopyState::Unknown),
        },
        Err(fault) => (LineOutcome::Uncopied(fault), state_behind(fault)),
    }
}

/// Copies an open office, which stays open. Returns the outcome and what the other database contains.
fn copied_open<S: Alter, T: Alter>(
    alloc: Global,
    office: &mut Office<S>,
    copy: &mut Connection<T>,
) -> (LineOutcome, CopyState)
    ensures holds { HoldsCopy result.1 (page_of result.0) (state T.Store copy.old) (state T.Store copy.new) }
    ensures copied { WhenOpenAt (state S.Store) office.old office.new
        (λ s. IsCopiedOpen s (page_of result.0) result.1 (state S.Store office.old.held) (state S.Store office.new.held) (state T.Store copy.old) (state T.Store copy.new)
        × IsReadAt s office.new.closed (state S.Store office.new.held)) }
    ensures untouched { IsAsReported result.1 copy.old copy.new }
    ensures reads { OnlyReads (state S.Store office.old.held) (state S.Store office.new.held) }
    ensures closed { office.old.closed ≡ true → (page_of result.0 ≡ closed_page) × (office.new ≡ office.old) }
    ensures keeps_connection { KeepsConnection (state T.Store copy.old) (state T.Store copy.new) }
    ensures clean { HasCleanDisk (state T.Store copy.new) → HasCleanDisk (state T.Store copy.old) }
{
    match office.copy_open(copy) {
        Ok(holdings) => match copied_text(alloc, holdings) {
            Ok(text) => (LineOutcome::Replied(text), CopyState::Whole),
            Err(_) => (LineOutcome::Failed(Fault::Memory), CopyState::Unknown),
        },
        Err(fault) => (LineOutcome::Uncopied(fault), state_behind(fault)),
    }
}

/// Copies an open office, which stays open, into the empty database on another connection. Prints how much the copy contains, and
/// returns the status and what the other database contains. The other connection isn't closed.
///
/// The copy is made the same way as in `copy_office`, except that the office is already open. The office is only read. A closed
/// office is reported as such.
pub fn copy_open<S: Alter, T: Alter, O: Sink, E: Sink>(
    alloc: Global,
    office: &mut Office<S>,
    copy: &mut Connection<T>,
    out: &mut O,
    err: &mut E,
) -> (u8, CopyState)
    requires out { O.failed out.old < 2 ^ 64 - 1 }
    requires err { E.failed err.old < 2 ^ 64 - 1 }
    ensures copied { let outputs = outputs_of O.taken O.failed E.taken E.failed in Tells (outputs out.old err.old) (outputs out.new err.new) result.0
        (λ _ page. HoldsCopy result.1 page (state T.Store copy.old) (state T.Store copy.new)
        × WhenOpenAt (state S.Store) office.old office.new (λ s. IsCopiedOpen s page result.1 (state S.Store office.old.held) (state S.Store office.new.held) (state T.Store copy.old)
        (state T.Store copy.new))
        × (office.old.closed ≡ true → page ≡ closed_page)) }
    ensures stays { WhenOpenAt (state S.Store) office.old office.new (λ s. IsReadAt s office.new.closed (state S.Store office.new.held)) }
    ensures made { result.0 ≡ 0 → (result.1 ≡ CopyState.Whole)
        × (HasCleanDisk (state T.Store copy.new) → IsBlank (state T.Store copy.old) → (s : OfficeState) × IsAt s (state T.Store copy.new)) }
    ensures untouched { IsAsReported result.1 copy.old copy.new }
    ensures reads { OnlyReads (state S.Store office.old.held) (state S.Store office.new.held) }
    ensures closed { office.old.closed ≡ true → office.new ≡ office.old }
    ensures keeps_connection { KeepsConnection (state T.Store copy.old) (state T.Store copy.new) }
    ensures clean { HasCleanDisk (state T.Store copy.new) → HasCleanDisk (state T.Store copy.old) }
{
    let (outcome, state) = copied_open(alloc, office, copy);
    (tell(None, &outcome, out, err), state)
}

/// Copies the office on an open connection into the empty database on another one. Prints how much the copy contains, and returns
/// the status and what the other database contains. Neither connection is closed.
///
/// The whole copy is made in one transaction. Once the reply is printed, the copy contains exactly the state of the office,
/// including every receipt. If the program stops before that, the other database contains either nothing or the whole copy. The
/// office is only read, whatever the outcome.
///
/// If the database contains no office, or a newer, older or damaged one, the corresponding fault is reported (105, 106, 108, 103),
/// and nothing is copied. If the other database has a table with one of our names, 109 is reported, and that database isn't
/// changed. A copy that can't be written is reported as 110. An allocation failure, or a store that fails while the office is being
/// read, is reported as usual.
pub fn copy_office<S: Alter, T: Alter, O: Sink, E: Sink>(
    alloc: Global,
    conn: &mut Connection<S>,
    copy: &mut Connection<T>,
    out: &mut O,
    err: &mut E,
) -> (u8, CopyState)
    requires out { O.failed out.old < 2 ^ 64 - 1 }
    requires err { E.failed err.old < 2 ^ 64 - 1 }
    ensures copied { let outputs = outputs_of O.taken O.failed E.taken E.failed in Tells (outputs out.old err.old) (outputs out.new err.new) result.0
        (λ _ page. HoldsCopy result.1 page (state T.Store copy.old) (state T.Store copy.new)
        × (HasCleanDisk (state S.Store conn.new) → IsCopied page result.1 (state S.Store conn.old) (state S.Store conn.new) (state T.Store copy.old) (state T.Store copy.new))) }
    ensures made { result.0 ≡ 0 → (result.1 ≡ CopyState.Whole)
        × (HasCleanDisk (state T.Store copy.new) → IsBlank (state T.Store copy.old) → (s : OfficeState) × IsAt s (state T.Store copy.new)) }
    ensures untouched { IsAsReported result.1 copy.old copy.new }
    ensures reads { OnlyReads (state S.Store conn.old) (state S.Store conn.new) }
    ensures keeps_connection { KeepsConnection (state T.Store copy.old) (state T.Store copy.new) }
    ensures clean { HasCleanDisk (state T.Store copy.new) → HasCleanDisk (state T.Store copy.old) }
{
    let (outcome, state) = copied(alloc, conn, copy);
    (tell(None, &outcome, out, err), state)
}
