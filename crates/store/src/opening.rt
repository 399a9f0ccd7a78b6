//! Checks whether a database is the office of a state.

ghost use Rattle.std.specs.Prelude.{◌≡◌, [], ◌∷◌, true, false, IfOk, IfErr, IfSome, IfNone, OnOk, IsTrue};
ghost use Rattle.sqlite.specs.Effect.{Database, IsDatabase};
ghost use Rattle.sqlite.specs.State.{HasCleanDisk};
ghost use Rattle.sqlite.specs.Held.{state};
ghost use Rattle.register.specs.Offices.{OfficeState, MapsAreSorted};
ghost use Rattle.register.specs.StateConditions.{IsState};
ghost use Rattle.register.specs.Tabulated.{tabulation_entries, IsTabulationOf};
ghost use Rattle.rowcheck.specs.States.{state_of, tabulated};
ghost use Rattle.tables.specs.Schema.{BeginsTo, IsOfficeSchema};
ghost use Rattle.tables.specs.Contents.{RestsAt};
ghost use Rattle.tables.specs.Presence.{IsOurs};
ghost use Rattle.tables.specs.Reading.{OnlyReads, FailsToList};
ghost use Rattle.store.specs.EntryRows.{this_version};
ghost use Rattle.store.specs.StateTables.{HoldsState};
ghost use Rattle.store.specs.Openings.{IsFaultOf, TellsNoState, IsVersion, FaultOfRow, FaultOfRows, HasVersion, FaultOfOfficeTable, IsTabulatedAs, HoldsEntries};

use crate::listing::all_rows;
use crate::writing::VERSION;
use register::Tabulation;
use rowcheck::{
    Rows, all_agreed, all_counted, all_given_out, all_in_range, all_judged, all_keyed,
    all_nominated, is_tabulated,
};
use sqlite::{Alter, Connection, Row};
use std::alloc::Global;
use tables::listing::keyed_rows;
use tables::presence::{has_every_table, has_table};
use tables::value_conversion::integer_at;
use tables::{Fault, Table};

/// Checks that the row is that of an office with this program's version.
fn check_row(row: &Row) -> Result<(), Fault>
    ensures version { OnOk result (IsVersion this_version row.now) }
    ensures told { IfErr result (FaultOfRow row.now) }
{
    let one = integer_at(row, 0)?;
    let version = integer_at(row, 1)?;
    if one != 1 {
        return Err(Fault::Damaged);
    }
    if version < 1 {
        return Err(Fault::Damaged);
    }
    if version < i64::from(VERSION) {
        return Err(Fault::OlderSchema);
    }
    if version > i64::from(VERSION) {
        return Err(Fault::NewerSchema);
    }
    Ok(())
}

/// Checks that there is exactly one row, that of an office with this program's version.
fn check_rows(rows: &[Row]) -> Result<(), Fault>
    ensures version { OnOk result ((row : _) × (rows.now ≡ row ∷ []) × IsVersion this_version row) }
    ensures told { IfErr result (FaultOfRows rows.now) }
{
    if rows.is_empty() {
        return Err(Fault::WrongDatabase);
    }
    if rows.len() > 1 {
        return Err(Fault::Damaged);
    }
    check_row(&rows[0])?;
    Ok(())
}

/// Checks that the office table has the row of this version, and returns faults in the order in which opening an office
/// reports them.
fn check_office<S: Alter>(alloc: Global, conn: &mut Connection<S>) -> Result<(), Fault>
    requires { conn.old.in_transaction ≡ false }
    ensures holds { HasCleanDisk (state S.Store conn.new) → (db : Database) → BeginsTo Table.Office db.schema → IsDatabase db → RestsAt db (state S.Store conn.old)
        → OnOk result (HasVersion this_version db) }
    ensures told { HasCleanDisk (state S.Store conn.new) → (db : Database) → BeginsTo Table.Office db.schema → IsDatabase db → RestsAt db (state S.Store conn.old)
        → IfErr result (FaultOfOfficeTable db) }
    ensures fails { HasCleanDisk (state S.Store conn.new) → (db : Database) → BeginsTo Table.Office db.schema → RestsAt db (state S.Store conn.old)
        → IfErr result (FailsToList db (state S.Store conn.old) (state S.Store conn.new)) }
    ensures older { HasCleanDisk (state S.Store conn.new) → (db : Database) → BeginsTo Table.Office db.schema → RestsAt db (state S.Store conn.old)
        → IfErr result (λ f. f ≡ Fault.OlderSchema → IsTrue (state S.Store conn.new).is_open) }
    ensures opens { HasCleanDisk (state S.Store conn.new) → OnOk result (IsTrue (state S.Store conn.new).is_open) }
    ensures reads { OnlyReads (state S.Store conn.old) (state S.Store conn.new) }
    ensures outside { conn.new.in_transaction ≡ false }
{
    let rows = keyed_rows(alloc, conn, Table::Office)?;
    check_rows(&rows)?;
    Ok(())
}

/// Returns the tabulation of the counts if the given maps, which are in key order, form a state. The only error is
/// `Memory`.
pub(crate) fn tabulation_of_state(alloc: Global, rows: &Rows) -> Result<Option<Tabulation>, Fault>
    requires { MapsAreSorted (state_of rows.now) }
    ensures some { IfOk result (λ found. IfSome found (λ t. IsTabulatedAs (state_of rows.now) (tabulation_entries t))) }
    ensures none { IfOk result (λ found. IfNone found (¬ IsState (state_of rows.now))) }
    ensures cause { IfErr result (λ f. f ≡ Fault.Memory) }
{
    if !all_in_range(rows) {
        return Ok(None);
    }
    if !all_nominated(rows) {
        return Ok(None);
    }
    if !all_given_out(rows) {
        return Ok(None);
    }
    if !all_keyed(rows) {
        return Ok(None);
    }
    if !all_judged(rows) {
        return Ok(None);
    }
    if !all_agreed(rows) {
        return Ok(None);
    }
    match all_counted(alloc, rows) {
        Ok(Some(counted)) => Ok(Some(counted)),
        Ok(None) => Ok(None),
        Err(_) => Err(Fault::Memory),
    }
}

/// Returns whether the given maps, which are in key order, form a state with the given tabulation of its counts. The
/// only error is `Memory`.
fn are_of_state(alloc: Global, rows: &Rows) -> Result<bool, Fault>
    requires { MapsAreSorted (state_of rows.now) }
    ensures some { IfOk result (λ yes. yes ≡ true → IsTabulatedAs (state_of rows.now) (tabulated rows.now)) }
    ensures none { IfOk result (λ yes. yes ≡ false → ¬ IsTabulatedAs (state_of rows.now) (tabulated rows.now)) }
    ensures cause { IfErr result (λ f. f ≡ Fault.Memory) }
{
    match tabulation_of_state(alloc, rows) {
        Ok(Some(counted)) => Ok(is_tabulated(rows, &counted)),
        Ok(None) => Ok(false),
        Err(fault) => Err(fault),
    }
}

/// Returns the rows of all tables except the office table, after checking that they are those of a state.
fn checked_tables<S: Alter>(alloc: Global, conn: &mut Connection<S>) -> Result<Rows, Fault>
    requires { conn.old.in_transaction ≡ false }
    ensures holds { HasCleanDisk (state S.Store conn.new) → (db : Database) → IsOfficeSchema db.schema → IsDatabase db → RestsAt db (state S.Store conn.old)
        → IfOk result (λ rows. HoldsEntries db (state_of rows) × IsTabulationOf (tabulated rows) (state_of rows)) }
    ensures told { HasCleanDisk (state S.Store conn.new) → (db : Database) → IsOfficeSchema db.schema → RestsAt db (state S.Store conn.old)
        → IfErr result (TellsNoState db) }
    ensures fails { HasCleanDisk (state S.Store conn.new) → (db : Database) → IsOfficeSchema db.schema → RestsAt db (state S.Store conn.old)
        → IfErr result (FailsToList db (state S.Store conn.old) (state S.Store conn.new)) }
    ensures judged { IfOk result (λ rows. IsTabulatedAs (state_of rows) (tabulated rows)) }
    ensures opens { HasCleanDisk (state S.Store conn.new) → OnOk result (IsTrue (state S.Store conn.new).is_open) }
    ensures reads { OnlyReads (state S.Store conn.old) (state S.Store conn.new) }
    ensures outside { conn.new.in_transaction ≡ false }
{
    let rows = all_rows(alloc, conn)?;
    let of_state = are_of_state(alloc, &rows)?;
    if of_state {
        Ok(rows)
    } else {
        Err(Fault::Damaged)
    }
}

/// Returns the rows of the office in the database, checked as `check` does.
pub(crate) fn checked_rows<S: Alter>(alloc: Global, conn: &mut Connection<S>) -> Result<Rows, Fault>
    requires { conn.old.in_transaction ≡ false }
    ensures holds { HasCleanDisk (state S.Store conn.new) → (db : Database) → IsOurs db.schema → RestsAt db (state S.Store conn.old)
        → IfOk result (λ rows. HoldsState db (state_of rows) × IsTabulationOf (tabulated rows) (state_of rows)) }
    ensures told { HasCleanDisk (state S.Store conn.new) → (db : Database) → IsOurs db.schema → RestsAt db (state S.Store conn.old)
        → IfErr result (IsFaultOf db) }
    ensures fails { HasCleanDisk (state S.Store conn.new) → (db : Database) → IsOurs db.schema → RestsAt db (state S.Store conn.old)
        → IfErr result (FailsToList db (state S.Store conn.old) (state S.Store conn.new)) }
    ensures older { HasCleanDisk (state S.Store conn.new) → (db : Database) → IsOurs db.schema → RestsAt db (state S.Store conn.old)
        → IfErr result (λ f. f ≡ Fault.OlderSchema → IsTrue (state S.Store conn.new).is_open) }
    ensures judged { IfOk result (λ rows. IsTabulatedAs (state_of rows) (tabulated rows)) }
    ensures opens { HasCleanDisk (state S.Store conn.new) → OnOk result (IsTrue (state S.Store conn.new).is_open) }
    ensures reads { OnlyReads (state S.Store conn.old) (state S.Store conn.new) }
    ensures outside { conn.new.in_transaction ≡ false }
{
    if !has_table(conn, Table::Office) {
        return Err(Fault::WrongDatabase);
    }
    check_office(alloc, conn)?;
    if !has_every_table(conn) {
        return Err(Fault::Damaged);
    }
    let rows = checked_tables(alloc, conn)?;
    Ok(rows)
}

/// Checks that the database is the office of a state, by its rows alone, and changes nothing. Faults are returned in
/// this order. `WrongDatabase` if there is no office table or no row in it. `Damaged` if that table is not an office's.
/// `OlderSchema` if its version is 1, and `NewerSchema` if it is above 2, before any other table is read. Then
/// `Damaged` if a table is missing or no state has these rows. `Memory` may be returned at any point, and so may
/// `Store`, if the store failed or rowids aren't distinct integers.
pub fn check<S: Alter>(alloc: Global, conn: &mut Connection<S>) -> Result<(), Fault>
    requires { conn.old.in_transaction ≡ false }
    ensures holds { HasCleanDisk (state S.Store conn.new) → (db : Database) → IsOurs db.schema → RestsAt db (state S.Store conn.old)
        → OnOk result ((s : OfficeState) × HoldsState db s) }
    ensures told { HasCleanDisk (state S.Store conn.new) → (db : Database) → IsOurs db.schema → RestsAt db (state S.Store conn.old)
        → IfErr result (IsFaultOf db) }
    ensures fails { HasCleanDisk (state S.Store conn.new) → (db : Database) → IsOurs db.schema → RestsAt db (state S.Store conn.old)
        → IfErr result (FailsToList db (state S.Store conn.old) (state S.Store conn.new)) }
    ensures older { HasCleanDisk (state S.Store conn.new) → (db : Database) → IsOurs db.schema → RestsAt db (state S.Store conn.old)
        → IfErr result (λ f. f ≡ Fault.OlderSchema → IsTrue (state S.Store conn.new).is_open) }
    ensures opens { HasCleanDisk (state S.Store conn.new) → OnOk result (IsTrue (state S.Store conn.new).is_open) }
    ensures reads { OnlyReads (state S.Store conn.old) (state S.Store conn.new) }
    ensures outside { conn.new.in_transaction ≡ false }
{
    match checked_rows(alloc, conn) {
        Ok(_) => Ok(()),
        Err(fault) => Err(fault),
    }
}
