//! Reads rows outside a transaction.

ghost use Rattle.std.specs.Prelude.{◌≡◌, ◌⊎◌, ◌≤◌, [], ◌∷◌, true, false, ℕ, List, length, map, IfOk, IfErr, OnOk, IsTrue};
ghost use Rattle.std.specs.List.Sorted.{IsPermutation};
ghost use Rattle.sqlite.specs.Value.{owned};
ghost use Rattle.sqlite.specs.Order.{Row as Entry};
ghost use Rattle.sqlite.specs.Kind.TheVariants.{Integer};
ghost use Rattle.sqlite.specs.Values.{bound, bound_value};
ghost use Rattle.sqlite.specs.Effect.{Database};
ghost use Rattle.sqlite.specs.State.{HasCleanDisk, Shown};
ghost use Rattle.sqlite.specs.Held.{state};
ghost use Rattle.sqlite.specs.Given.{HasGiven};
ghost use Rattle.tables.specs.Texts.{scan_text, select_text, select_by_reference_text};
ghost use Rattle.tables.specs.Schema.{BeginsTo, shape, table_sought};
ghost use Rattle.tables.specs.Rows.{at, column_places, is_of, begins_key, begins_with, refers_to, tuples};
ghost use Rattle.tables.specs.Contents.{Contents, RestsAt, Rests, RestsIfOpen};
ghost use Rattle.tables.specs.Reading.{IsQuery, OnlyReads, FailsBy, Lists, Finds};
ghost use Rattle.tables.specs.Faults.{TellsQuery};
ghost use Rattle.tables.specs.Copying.{Copies, FailsToCopy, IsShownAfter, FailsAfter};

use crate::fault::{Fault, fault_of};
use crate::order::put_in_order;
use crate::table::{Reference, Table};
use crate::texts::{scan_text, select_by_reference_text, select_text};
use sqlite::{Alter, Connection, Row, Rows};
use sqlite_value::value::ValueRef;
use std::alloc::Global;

/// Returns the rows that a SELECT yields.
pub(crate) fn query<S: Alter>(
    conn: &mut Connection<S>,
    sql: &str,
    params: &[ValueRef<'_>],
) -> Result<Vec<Row>, Fault>
    requires { conn.old.in_transaction ≡ false }
    ensures shown { HasCleanDisk (state S.Store conn.new) → IfOk result (λ rows. Shown sql.now (bound params.now) (state S.Store conn.old) (state S.Store conn.new) rows.items) }
    ensures opens { HasCleanDisk (state S.Store conn.new) → IsQuery sql.now → OnOk result (IsTrue (state S.Store conn.new).is_open) }
    ensures reads { IsQuery sql.now → OnlyReads (state S.Store conn.old) (state S.Store conn.new) }
    ensures outside { conn.new.in_transaction ≡ false }
    ensures cause { IfErr result (TellsQuery sql.now (bound params.now) (state S.Store conn.old) (state S.Store conn.new)) }
{
    match conn.query_all(sql, params) {
        Ok(rows) => Ok(rows),
        Err(e) => Err(fault_of(e)),
    }
}

/// Appends a copy of the next row, and returns whether there was one.
fn copy_next<S: Alter>(rows: &mut Rows<'_, S>, found: &mut Vec<Row>) -> Result<bool, Fault>
    ensures same_reference { rows.new.conn.ghost_name ≡ rows.old.conn.ghost_name }
    ensures copies { HasCleanDisk (state S.Store rows.new.conn.now) → IfOk result (Copies S.Store rows.old.conn.now rows.new.conn.now found.old.items found.new.items) }
    ensures fails { HasCleanDisk (state S.Store rows.new.conn.now) → IfErr result (FailsToCopy S.Store rows.old.conn.now rows.new.conn.now) }
    ensures cause { IfErr result (λ f. (f ≡ Fault.Memory) ⊎ (f ≡ Fault.Store)) }
    ensures opens { HasCleanDisk (state S.Store rows.new.conn.now) → OnOk result (IsTrue (state S.Store rows.new.conn.now).is_open) }
    ensures reads { OnlyReads (state S.Store rows.old.conn.now) (state S.Store rows.new.conn.now) }
    ensures outside { rows.old.conn.now.in_transaction ≡ false → rows.new.conn.now.in_transaction ≡ false }
{
    rows.advance()?;
    let Some(row) = rows.get() else {
        return Ok(false);
    };
    let Ok(copy) = row.copy() else {
        return Err(Fault::Memory);
    };
    match found.push(copy) {
        Ok(()) => Ok(true),
        Err(_) => Err(Fault::Memory),
    }
}

/// Appends copies of all remaining rows. Also returns `Memory` if there are more than 2^64 - 2.
fn copy_rest<S: Alter>(rows: &mut Rows<'_, S>, found: &mut Vec<Row>) -> Result<(), Fault>
    ensures same_reference { rows.new.conn.ghost_name ≡ rows.old.conn.ghost_name }
    ensures shows { HasCleanDisk (state S.Store rows.new.conn.now) → (sql : List ℕ) → (params : Entry) → HasGiven S.Store sql params rows.old.conn.now found.old.items
        → OnOk result (IsShownAfter S.Store sql params rows.old.conn.now rows.new.conn.now found.new.items) }
    ensures fails { HasCleanDisk (state S.Store rows.new.conn.now) → (sql : List ℕ) → (params : Entry) → HasGiven S.Store sql params rows.old.conn.now found.old.items
        → IfErr result (FailsAfter S.Store sql params rows.old.conn.now rows.new.conn.now) }
    ensures cause { IfErr result (λ f. (f ≡ Fault.Memory) ⊎ (f ≡ Fault.Store)) }
    ensures opens { HasCleanDisk (state S.Store rows.new.conn.now) → OnOk result (IsTrue (state S.Store rows.new.conn.now).is_open) }
    ensures reads { OnlyReads (state S.Store rows.old.conn.now) (state S.Store rows.new.conn.now) }
    ensures outside { rows.old.conn.now.in_transaction ≡ false → rows.new.conn.now.in_transaction ≡ false }
{
    'rows: for _ in 0..u64::MAX {
        if !copy_next(rows, found)? {
            return Ok(());
        }
    }
    Err(Fault::Memory)
}

/// Returns all rows of a table with all their columns, in the order in which the table stores them. They are read one
/// at a time to keep `sqlite` from holding them all: it would keep that memory for later queries.
fn scanned_rows<S: Alter>(
    alloc: Global,
    conn: &mut Connection<S>,
    table: Table,
) -> Result<Vec<Row>, Fault>
    requires { conn.old.in_transaction ≡ false }
    ensures scans { HasCleanDisk (state S.Store conn.new) → (db : Database) → BeginsTo table db.schema → RestsAt db (state S.Store conn.old)
        → IfOk result (λ rows. IsPermutation (map (at (column_places table)) (tuples table db.trees)) rows.items) }
    ensures opens { HasCleanDisk (state S.Store conn.new) → OnOk result (IsTrue (state S.Store conn.new).is_open) }
    ensures reads { OnlyReads (state S.Store conn.old) (state S.Store conn.new) }
    ensures outside { conn.new.in_transaction ≡ false }
    ensures cause { IfErr result (λ f. (f ≡ Fault.Memory) ⊎ (f ≡ Fault.Store)) }
    ensures fails { HasCleanDisk (state S.Store conn.new) → (db : Database) → BeginsTo table db.schema → RestsAt db (state S.Store conn.old)
        → IfErr result (FailsBy (state S.Store conn.old) (state S.Store conn.new)) }
{
    let mut found = Vec::new(alloc);
    let mut rows = conn.query(scan_text(table), &[])?;
    copy_rest(&mut rows, &mut found)?;
    Ok(found)
}

/// Returns all rows of a table with all their columns, in key order. Requires only that the schema begin with the
/// tables up to this one. The rows are read in stored order and sorted here because `sqlite`, if asked for key order,
/// would look up each row through the key's index.
pub fn all_rows<S: Alter>(
    alloc: Global,
    conn: &mut Connection<S>,
    table: Table,
) -> Result<Vec<Row>, Fault>
    requires { conn.old.in_transaction ≡ false }
    ensures lists { HasCleanDisk (state S.Store conn.new) → (db : Database) → BeginsTo table db.schema → RestsAt db (state S.Store conn.old)
        → IfOk result (λ rows. Lists table (begins_with []) db rows.items) }
    ensures opens { HasCleanDisk (state S.Store conn.new) → OnOk result (IsTrue (state S.Store conn.new).is_open) }
    ensures reads { OnlyReads (state S.Store conn.old) (state S.Store conn.new) }
    ensures outside { conn.new.in_transaction ≡ false }
    ensures cause { IfErr result (λ f. (f ≡ Fault.Memory) ⊎ (f ≡ Fault.Store)) }
    ensures fails { HasCleanDisk (state S.Store conn.new) → (db : Database) → BeginsTo table db.schema → RestsAt db (state S.Store conn.old)
        → IfErr result (FailsBy (state S.Store conn.old) (state S.Store conn.new)) }
{
    let mut rows = scanned_rows(alloc, conn, table)?;
    match put_in_order(table, &mut rows) {
        Ok(()) => Ok(rows),
        Err(_) => Err(Fault::Memory),
    }
}

/// Returns the rows whose key begins with the given values, up to the whole key, with all their columns, in key order.
pub fn rows_beginning<S: Alter>(
    conn: &mut Connection<S>,
    table: Table,
    key: &[ValueRef<'_>],
) -> Result<Vec<Row>, Fault>
    requires outside { conn.old.in_transaction ≡ false }
    requires key { length key.now ≤ (shape table).key }
    ensures finds { HasCleanDisk (state S.Store conn.new) → (c : Contents) → Rests c (state S.Store conn.old)
        → IfOk result (λ rows. Finds table (begins_with (bound key.now)) c rows.items) }
    ensures opens { HasCleanDisk (state S.Store conn.new) → OnOk result (IsTrue (state S.Store conn.new).is_open) }
    ensures reads { OnlyReads (state S.Store conn.old) (state S.Store conn.new) }
    ensures outside { conn.new.in_transaction ≡ false }
    ensures cause { IfErr result (TellsQuery (select_text table (length key.now)) (bound key.now) (state S.Store conn.old) (state S.Store conn.new)) }
    ensures fails { HasCleanDisk (state S.Store conn.new) → (c : Contents) → RestsIfOpen c (state S.Store conn.old) → begins_key table (bound key.now) ≡ true
        → IfErr result (FailsBy (state S.Store conn.old) (state S.Store conn.new)) }
{
    query(conn, select_text(table, key.len()), key)
}

/// Returns the rows with the given value in a column outside the key, with all their columns, in key order.
pub fn rows_referring<S: Alter>(
    conn: &mut Connection<S>,
    reference: Reference,
    value: ValueRef<'_>,
) -> Result<Vec<Row>, Fault>
    requires { conn.old.in_transaction ≡ false }
    ensures finds { HasCleanDisk (state S.Store conn.new) → (c : Contents) → Rests c (state S.Store conn.old)
        → IfOk result (λ rows. Finds (table_sought reference) (refers_to reference (bound_value (owned value.entry))) c rows.items) }
    ensures opens { HasCleanDisk (state S.Store conn.new) → OnOk result (IsTrue (state S.Store conn.new).is_open) }
    ensures reads { OnlyReads (state S.Store conn.old) (state S.Store conn.new) }
    ensures outside { conn.new.in_transaction ≡ false }
    ensures cause { IfErr result (λ f. TellsQuery (select_by_reference_text reference) (bound_value (owned value.entry) ∷ []) (state S.Store conn.old) (state S.Store conn.new) f) }
    ensures fails { HasCleanDisk (state S.Store conn.new) → (c : Contents) → RestsIfOpen c (state S.Store conn.old) → is_of Integer (bound_value (owned value.entry)) ≡ true
        → IfErr result (FailsBy (state S.Store conn.old) (state S.Store conn.new)) }
{
    query(conn, select_by_reference_text(reference), &[value])
}
