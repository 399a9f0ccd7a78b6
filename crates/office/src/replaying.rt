//! Reading a whole office, and replaying requests in an empty office to check whether they lead to it.

ghost use Rattle.std.specs.Prelude.{◌≡◌, true, false, Err, IfOk, IfErr, OnOk};
ghost use Rattle.std.specs.List.{list_all};
ghost use Rattle.sqlite.specs.Held.{state};
ghost use Rattle.sqlite.specs.State.{HasCleanDisk};
ghost use Rattle.register.specs.Offices.{MapsAreSorted, OfficeState};
ghost use Rattle.register.specs.Machine.{after};
ghost use Rattle.rowcheck.specs.States.{state_of};
ghost use Rattle.tables.specs.Reading.{OnlyReads};
ghost use Rattle.store.specs.StateTables.{IsAt};
ghost use Rattle.store.specs.Openings.{IsBlank};
ghost use Rattle.store.specs.Whole.{ReadsOffice};
ghost use Rattle.office.specs.Answers.{ClosedBy, IsMemoryOrStore, IsOpenAt, IsReadAt, WhenOpenAt, is_done, told};
ghost use Rattle.office.specs.Runs.{LeadTo, are_accepted};

use crate::answers::Answer;
use crate::open_office::Office;
use register::Request;
use rowcheck::{Rows, are_same};
use sqlite::{Alter, Connection};
use std::alloc::Global;
use store::{Fault, read_office};

/// Returns the reason why a call failed on an initially empty database: an allocation or the store failed.
fn trial_fault(fault: Fault) -> Fault
    ensures memory { fault ≡ Fault.Memory → result ≡ Fault.Memory }
    ensures other { ¬ (fault ≡ Fault.Memory) → result ≡ Fault.Store }
    ensures told { IsMemoryOrStore result }
{
    match fault {
        Fault::Memory => Fault::Memory,
        _ => Fault::Store,
    }
}

/// Returns true if an answer belongs to a request that was accepted just now.
fn is_done(answer: &Answer) -> bool
    ensures { result ≡ is_done (told answer.now) }
{
    matches!(answer, Answer::Done(_))
}

/// Returns true if every answer belongs to a request that was accepted just now.
fn are_done(answers: &[Answer]) -> bool
    ensures { result ≡ list_all (λ answer. is_done (told answer)) answers.now }
{
    answers.iter().all(|answer| is_done(answer))
}

/// Returns whether the office in a connection's database has the given entries. Fails with `Memory` or `Store` if the
/// office can't be read.
fn has_rows<S: Alter>(alloc: Global, conn: &mut Connection<S>, rows: &Rows) -> Result<bool, Fault>
    ensures same { HasCleanDisk (state S.Store conn.new) → (s : OfficeState) → IsAt s (state S.Store conn.old) → IfOk result (λ has. has ≡ true → s ≡ state_of rows.now) }
    ensures other { HasCleanDisk (state S.Store conn.new) → (s : OfficeState) → IsAt s (state S.Store conn.old) → IfOk result (λ has. has ≡ false → ¬ (s ≡ state_of rows.now)) }
    ensures told { IfErr result IsMemoryOrStore }
    ensures clean { HasCleanDisk (state S.Store conn.new) → HasCleanDisk (state S.Store conn.old) }
{
    match read_office(alloc, conn) {
        Ok(found) => Ok(are_same(&found, rows)),
        Err(fault) => Err(trial_fault(fault)),
    }
}

impl<S: Alter> Office<S> {
    /// Returns all entries of the office in a connection's database, in key order within each table. No office is open
    /// afterwards. Nothing is changed, whatever the outcome.
    ///
    /// Fails with the fault that `open_from` would report, for the same cause. Inside a transaction the fault is
    /// `Store`, and nothing is read.
    pub fn rows(alloc: Global, conn: &mut Connection<S>) -> Result<Rows, Fault>
        ensures { ReadsOffice (state S.Store conn.old) (state S.Store conn.new) result }
    {
        read_office(alloc, conn)
    }

    /// Returns all entries of this office, which stays open, in key order within each table. Nothing is changed,
    /// whatever the outcome.
    ///
    /// After `Memory` the office stays open; any other fault closes it. A closed office returns `Closed`.
    pub fn rows_open(&mut self) -> Result<Rows, Fault>
        ensures kept { WhenOpenAt (state S.Store) self.old self.new
            (λ s. IfOk result (λ rows. state_of rows ≡ s) × IfErr result IsMemoryOrStore × IsReadAt s self.new.closed (state S.Store self.new.held)) }
        ensures rise { IfOk result (λ rows. MapsAreSorted (state_of rows)) }
        ensures reads { OnlyReads (state S.Store self.old.held) (state S.Store self.new.held) }
        ensures opens { OnOk result (self.new.closed ≡ false) }
        ensures closes { IfErr result (ClosedBy self.new.closed) }
        ensures closed { self.old.closed ≡ true → (result ≡ Err Fault.Closed) × (self.new ≡ self.old) }
    {
        if self.closed {
            return Err(Fault::Closed);
        }
        match self.store.rows() {
            Ok(rows) => Ok(rows),
            Err(Fault::Memory) => Err(Fault::Memory),
            Err(_) => {
                self.closed = true;
                Err(Fault::Store)
            }
        }
    }

    /// Answers requests in order, and returns whether all of them were accepted. A fault is `Memory` or `Store`. The
    /// state after a fault is unspecified, since the office was created only for this trial.
    fn accepts_all(&mut self, requests: &[Request]) -> Result<bool, Fault>
        ensures all { WhenOpenAt (state S.Store) self.old self.new
            (λ s. IfOk result (λ yes. (yes ≡ are_accepted s requests.now) × IsOpenAt (after s requests.now) self.new.closed (state S.Store self.new.held))) }
        ensures told { IfErr result IsMemoryOrStore }
        ensures clean { HasCleanDisk (state S.Store self.new.held) → HasCleanDisk (state S.Store self.old.held) }
    {
        let run = self.run(requests);
        match run.fault {
            Some(fault) => Err(trial_fault(fault)),
            None => Ok(are_done(&run.answers)),
        }
    }

    /// Replays requests in an empty office, and returns whether they lead to the office with the given rows: each
    /// request is accepted, and at the end the entries are the same, including the receipts. The empty office is
    /// created in a connection's database, and the clauses guarantee the result if that database was empty. The
    /// connection is returned along with whatever the trial left in its database.
    ///
    /// Fails with `Memory` or `Store` if the trial couldn't be completed because an allocation or the trial's store
    /// failed. Nothing guarantees which of the two is reported. The rows are passed as an argument, so no other
    /// database is read or changed.
    pub fn leads_to(
        alloc: Global,
        blank: Connection<S>,
        requests: &[Request],
        rows: &Rows,
    ) -> (Result<bool, Fault>, Connection<S>)
        ensures leads { HasCleanDisk (state S.Store result.1) → IsBlank (state S.Store blank) → IfOk result.0 (λ yes. yes ≡ true → LeadTo requests.now (state_of rows.now)) }
        ensures fails { HasCleanDisk (state S.Store result.1) → IsBlank (state S.Store blank) → IfOk result.0 (λ yes. yes ≡ false → ¬ LeadTo requests.now (state_of rows.now)) }
        ensures told { IfErr result.0 IsMemoryOrStore }
    {
        let mut office = match Office::create(alloc, blank) {
            Ok(office) => office,
            Err((fault, conn)) => return (Err(trial_fault(fault)), conn),
        };
        let accepted = office.accepts_all(requests);
        let mut conn = office.into_connection();
        match accepted {
            Ok(true) => {
                let has = has_rows(alloc, &mut conn, rows);
                (has, conn)
            }
            Ok(false) => (Ok(false), conn),
            Err(fault) => (Err(fault), conn),
        }
    }
}
