//! Migrating an office created by an earlier version of the program.

ghost use Rattle.store.specs.Migrations.{Migrates};

use crate::open_office::Office;
use sqlite::{Alter, Connection};
use std::alloc::Global;
use store::{Fault, Migrated};

impl<S: Alter> Office<S> {
    /// Migrates an office created by an earlier version of the program so that this version can open it. Its state
    /// stays the same, including every receipt, so a request that was accepted earlier is `Kept` if it is repeated. No
    /// office is open afterwards; `open_from` opens it.
    ///
    /// `WrongDatabase` and `NewerSchema` have the same meaning as for `open_from`. Fails with `Damaged` if no state has
    /// these rows as its tables, in either this version or the earlier one; in that case nothing is changed. After
    /// `Memory` and `Store`, the database contains either the unchanged earlier office or the complete new one; if
    /// there was no earlier office, nothing is changed. Fails with `Store` if the store failed, if rowids aren't
    /// distinct integers, or if the connection is inside a transaction.
    pub fn migrate(alloc: Global, conn: &mut Connection<S>) -> Result<Migrated, Fault>
        ensures { Migrates S.Store conn.old conn.new result }
    {
        store::migrate(alloc, conn)
    }
}
