//! Lists all rows of a table, and the entries that they represent.

ghost use Rattle.std.specs.Prelude.{◌≡◌, ◌⊎◌, false, map, IfOk, IfErr, OnOk, IsTrue};
ghost use Rattle.sqlite.specs.Effect.{Database};
ghost use Rattle.sqlite.specs.State.{HasCleanDisk};
ghost use Rattle.sqlite.specs.Held.{state};
ghost use Rattle.tables.specs.Schema.{BeginsTo};
ghost use Rattle.std.specs.List.Sorted.{IsStrictlySortedBy};
ghost use Rattle.tables.specs.Rows.{at, column_places, row_cmp};
ghost use Rattle.tables.specs.Contents.{RestsAt};
ghost use Rattle.tables.specs.Reading.{OnlyReads, FailsToList, ListsKeyed, ListsEntries, HasInvalidRow, HoldsNone};

use crate::entry::Entries;
use crate::fault::Fault;
use crate::order::keys_rise;
use crate::reading::all_rows;
use crate::rowids::check_rowids;
use crate::table::Table;
use sqlite::{Alter, Connection, Row};
use std::alloc::Global;

/// Returns the entries of the given rows. Returns `Damaged` if a row doesn't represent an entry.
pub(crate) fn entries_of<E: Entries>(alloc: Global, rows: &[Row]) -> Result<Vec<E::Entry>, Fault>
    ensures reads { IfOk result (λ found. map (at (column_places E.TABLE)) rows.now ≡ map E.row_of found.items) }
    ensures cause { IfErr result (λ f. (f ≡ Fault.Memory) ⊎ ((f ≡ Fault.Damaged) × HasInvalidRow E.is_row rows.now)) }
{
    let mut entries = Vec::new(alloc);
    for row in rows {
        let entry = E::read(row)?;
        if entries.push(entry).is_err() {
            return Err(Fault::Memory);
        }
    }
    Ok(entries)
}

/// Returns all rows of a table in key order. For a table whose rows change, first checks that no two rows share a rowid.
pub fn keyed_rows<S: Alter>(
    alloc: Global,
    conn: &mut Connection<S>,
    table: Table,
) -> Result<Vec<Row>, Fault>
    requires { conn.old.in_transaction ≡ false }
    ensures lists { HasCleanDisk (state S.Store conn.new) → (db : Database) → BeginsTo table db.schema → RestsAt db (state S.Store conn.old)
        → IfOk result (λ rows. ListsKeyed table db rows.items) }
    ensures opens { HasCleanDisk (state S.Store conn.new) → OnOk result (IsTrue (state S.Store conn.new).is_open) }
    ensures reads { OnlyReads (state S.Store conn.old) (state S.Store conn.new) }
    ensures outside { conn.new.in_transaction ≡ false }
    ensures cause { HasCleanDisk (state S.Store conn.new) → (db : Database) → BeginsTo table db.schema → RestsAt db (state S.Store conn.old)
        → IfErr result (λ f. (f ≡ Fault.Memory) ⊎ (f ≡ Fault.Store)) }
    ensures fails { HasCleanDisk (state S.Store conn.new) → (db : Database) → BeginsTo table db.schema → RestsAt db (state S.Store conn.old)
        → IfErr result (FailsToList db (state S.Store conn.old) (state S.Store conn.new)) }
{
    if !table.changes_rows() {
        return all_rows(alloc, conn, table);
    }
    check_rowids(conn, table)?;
    let rows = all_rows(alloc, conn, table)?;
    Ok(rows)
}

/// Returns all entries of a table, in key order. Returns `Damaged` if a row doesn't represent an entry, or if its key
/// isn't above that of the preceding row.
pub fn all_entries<E: Entries, S: Alter>(
    alloc: Global,
    conn: &mut Connection<S>,
) -> Result<Vec<E::Entry>, Fault>
    requires { conn.old.in_transaction ≡ false }
    ensures lists { HasCleanDisk (state S.Store conn.new) → (db : Database) → BeginsTo E.TABLE db.schema → RestsAt db (state S.Store conn.old)
        → IfOk result (λ found. ListsEntries E.TABLE db (map E.row_of found.items)) }
    ensures cause { HasCleanDisk (state S.Store conn.new) → (db : Database) → BeginsTo E.TABLE db.schema → RestsAt db (state S.Store conn.old)
        → IfErr result (λ f. (f ≡ Fault.Memory) ⊎ ((f ≡ Fault.Store) ⊎ ((f ≡ Fault.Damaged) × HoldsNone E.TABLE E.is_row db))) }
    ensures fails { HasCleanDisk (state S.Store conn.new) → (db : Database) → BeginsTo E.TABLE db.schema → RestsAt db (state S.Store conn.old)
        → IfErr result (FailsToList db (state S.Store conn.old) (state S.Store conn.new)) }
    ensures rise { IfOk result (λ found. IsStrictlySortedBy (row_cmp E.TABLE) (map E.row_of found.items)) }
    ensures opens { HasCleanDisk (state S.Store conn.new) → OnOk result (IsTrue (state S.Store conn.new).is_open) }
    ensures reads { OnlyReads (state S.Store conn.old) (state S.Store conn.new) }
    ensures outside { conn.new.in_transaction ≡ false }
{
    let rows = keyed_rows(alloc, conn, E::TABLE)?;
    if !keys_rise(E::TABLE, &rows) {
        return Err(Fault::Damaged);
    }
    let entries = entries_of::<E>(alloc, &rows)?;
    Ok(entries)
}
