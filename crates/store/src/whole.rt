//! Reads a whole office.

ghost use Rattle.sqlite.specs.Held.{state};
ghost use Rattle.store.specs.Whole.{ReadsOffice};

use crate::opening::checked_rows;
use rowcheck::Rows;
use sqlite::{Alter, Connection};
use std::alloc::Global;
use tables::Fault;

/// Returns all entries of the office in a connection's database, each table's in key order. No office is open
/// afterwards, and nothing is changed, whatever the outcome.
///
/// The rows are first checked as in `Store::open_from`, whose fault is returned. `WrongDatabase`, `Damaged`,
/// `OlderSchema` and `NewerSchema` depend on the contents of the database. `Memory` may be returned at any point, and
/// so may `Store`, if the store failed or rowids aren't distinct integers. Inside a transaction the fault is `Store`,
/// and nothing is read.
pub fn read_office<S: Alter>(alloc: Global, conn: &mut Connection<S>) -> Result<Rows, Fault>
    ensures { ReadsOffice (state S.Store conn.old) (state S.Store conn.new) result }
{
    if !conn.is_autocommit() {
        return Err(Fault::Store);
    }
    match checked_rows(alloc, conn) {
        Ok(rows) => Ok(rows),
        Err(fault) => Err(fault),
    }
}
