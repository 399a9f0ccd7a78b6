//! Copying an office.

ghost use Rattle.std.specs.Prelude.{◌≡◌, ◌⊎◌, true, false, Err, IfErr, IfOk, IsTrue, OnOk};
ghost use Rattle.sqlite.specs.Held.{state};
ghost use Rattle.sqlite.specs.State.{HasCleanDisk};
ghost use Rattle.sqlite.specs.Tree.{Trees};
ghost use Rattle.register.specs.Offices.{OfficeState};
ghost use Rattle.tables.specs.Reading.{OnlyReads};
ghost use Rattle.store.specs.Copies.{CopiesAt, CopiesTo, IsUnbegun, StopsInCopying, holdings_of};
ghost use Rattle.store.specs.StateTables.{IsAt, StoresState, KeepsConnection};
ghost use Rattle.store.specs.Openings.{IsBlank};
ghost use Rattle.office.specs.Answers.{ClosedInCopying, IsReadAt, WhenOpenAt};

use crate::open_office::Office;
use sqlite::{Alter, Connection};
use std::alloc::Global;
use store::{CopyFault, Fault, OfficeCounts};

impl<S: Alter> Office<S> {
    /// Copies the office in a connection's database into the database on another connection, which must be empty, in
    /// one transaction. Returns how much the copy contains. Opening the copy yields exactly the state of the office,
    /// including every receipt. No office is open afterwards.
    ///
    /// Fails with `Office` if `open_from` would report a fault; in that case nothing is copied. The office is only
    /// read, whatever the outcome. Fails with `Taken` if the other database already has a table with one of our names,
    /// or if the other connection is inside a transaction. In these cases the other database is unchanged. After `Copy`
    /// it is either unchanged or contains the whole copy.
    pub fn copy<T: Alter>(
        alloc: Global,
        conn: &mut Connection<S>,
        copy: &mut Connection<T>,
    ) -> Result<OfficeCounts, CopyFault>
        ensures { CopiesTo S.Store T.Store conn.old conn.new copy.old copy.new result }
    {
        store::copy(alloc, conn, copy)
    }

    /// Copies this office, which stays open, into the database on another connection, which must be empty, in one
    /// transaction. Returns how much the copy contains. Opening the copy yields exactly the state of the office,
    /// including every receipt.
    ///
    /// `Office` gives the reason why the office couldn't be read: an allocation or the store failed. In that case
    /// nothing is copied, and any fault except `Memory` closes the office. `Taken` and `Copy` have the same meaning as
    /// for `copy`. A closed office returns `Closed`.
    pub fn copy_open<T: Alter>(
        &mut self,
        copy: &mut Connection<T>,
    ) -> Result<OfficeCounts, CopyFault>
        ensures copies { WhenOpenAt (state S.Store) self.old self.new
            (λ s. CopiesAt s (state T.Store copy.old) (state T.Store copy.new) result × IsReadAt s self.new.closed (state S.Store self.new.held)) }
        ensures cause { WhenOpenAt (state S.Store) self.old self.new (λ _. IsTrue (state S.Store self.old.held).is_open → IsBlank (state T.Store copy.old)
            → IfErr result (StopsInCopying (state S.Store self.old.held) (state S.Store self.new.held))) }
        ensures made { HasCleanDisk (state T.Store copy.new) → IsBlank (state T.Store copy.old) → IfOk result (λ h. (x : OfficeState) × (h ≡ holdings_of x) × IsAt x (state T.Store copy.new)) }
        ensures whole { HasCleanDisk (state T.Store copy.new) → IsBlank (state T.Store copy.old)
            → (trees : Trees) → (state T.Store copy.new).may_leave trees → (state T.Store copy.old).may_leave trees ⊎ ((x : OfficeState) × StoresState x trees) }
        ensures untouched { IfErr result (λ e. IsUnbegun e → copy.new ≡ copy.old) }
        ensures reads { OnlyReads (state S.Store self.old.held) (state S.Store self.new.held) }
        ensures keeps_connection { KeepsConnection (state T.Store copy.old) (state T.Store copy.new) }
        ensures clean { HasCleanDisk (state T.Store copy.new) → HasCleanDisk (state T.Store copy.old) }
        ensures opens { OnOk result (self.new.closed ≡ false) }
        ensures closes { IfErr result (ClosedInCopying self.new.closed) }
        ensures closed { self.old.closed ≡ true → (result ≡ Err (CopyFault.Office Fault.Closed)) × (self.new ≡ self.old) × (copy.new ≡ copy.old) }
    {
        if self.closed {
            return Err(CopyFault::Office(Fault::Closed));
        }
        match self.store.copy_to(copy) {
            Ok(holdings) => Ok(holdings),
            Err(CopyFault::Office(fault)) => {
                self.closed = fault != Fault::Memory;
                Err(CopyFault::Office(fault))
            }
            Err(CopyFault::Taken) => Err(CopyFault::Taken),
            Err(CopyFault::Copy(fault)) => Err(CopyFault::Copy(fault)),
        }
    }
}
