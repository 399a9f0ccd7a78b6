//! Finds entries of a table: those with a given key or key prefix, or with a given value in another column.

ghost use Rattle.std.specs.Prelude.{◌≡◌, ◌≤◌, ◌⊎◌, true, false, length, filter, map, Option, option_map, IfOk, IfErr, IfSome, OnOk, IsTrue};
ghost use Rattle.std.specs.List.{AllByRecursion};
ghost use Rattle.std.specs.Option.{option_to_list};
ghost use Rattle.sqlite.specs.Order.{Row};
ghost use Rattle.sqlite.specs.Value.{owned};
ghost use Rattle.sqlite.specs.Kind.TheVariants.{Integer};
ghost use Rattle.sqlite.specs.Values.{bound, bound_value};
ghost use Rattle.sqlite.specs.State.{HasCleanDisk};
ghost use Rattle.sqlite.specs.Held.{state};
ghost use Rattle.tables.specs.Schema.{shape, table_sought};
ghost use Rattle.tables.specs.Rows.{at, column_places, is_of, begins_key, begins_with, refers_to};
ghost use Rattle.tables.specs.Contents.{Contents, RestsIfOpen};
ghost use Rattle.tables.specs.Reading.{OnlyReads, FailsBy, Finds, HasInvalidRow};

use crate::entry::Entries;
use crate::fault::Fault;
use crate::listing::entries_of;
use crate::reading::{rows_beginning, rows_referring};
use crate::table::Reference;
use sqlite::{Alter, Connection, Row};
use sqlite_value::value::ValueRef;
use std::alloc::Global;

/// Returns the entries whose key begins with the given values, in key order. Returns `Damaged` if a row doesn't
/// represent an entry.
pub fn entries_beginning<E: Entries, S: Alter>(
    alloc: Global,
    conn: &mut Connection<S>,
    key: &[ValueRef<'_>],
) -> Result<Vec<E::Entry>, Fault>
    requires outside { conn.old.in_transaction ≡ false }
    requires key { length key.now ≤ (shape E.TABLE).key }
    ensures finds { HasCleanDisk (state S.Store conn.new) → (c : Contents) → RestsIfOpen c (state S.Store conn.old)
        → IfOk result (λ found. Finds E.TABLE (begins_with (bound key.now)) c (map E.row_of found.items)) }
    ensures cause { HasCleanDisk (state S.Store conn.new) → (c : Contents) → RestsIfOpen c (state S.Store conn.old)
        → begins_key E.TABLE (bound key.now) ≡ true → AllByRecursion E.is_row (c E.TABLE) → IfErr result (FailsBy (state S.Store conn.old) (state S.Store conn.new)) }
    ensures cause_alone { HasCleanDisk (state S.Store conn.new) → (c : Contents) → RestsIfOpen c (state S.Store conn.old) → AllByRecursion E.is_row (c E.TABLE)
        → IfErr result (λ f. (f ≡ Fault.Memory) ⊎ (f ≡ Fault.Store)) }
    ensures opens { HasCleanDisk (state S.Store conn.new) → OnOk result (IsTrue (state S.Store conn.new).is_open) }
    ensures reads { OnlyReads (state S.Store conn.old) (state S.Store conn.new) }
    ensures outside { conn.new.in_transaction ≡ false }
{
    let rows = rows_beginning(conn, E::TABLE, key)?;
    let entries = entries_of::<E>(alloc, &rows)?;
    Ok(entries)
}

/// Returns the entries with the given value in a column outside the key, in key order. Returns `Damaged` if a row
/// doesn't represent an entry.
pub fn entries_referring<E: Entries, S: Alter>(
    alloc: Global,
    conn: &mut Connection<S>,
    reference: Reference,
    value: ValueRef<'_>,
) -> Result<Vec<E::Entry>, Fault>
    requires outside { conn.old.in_transaction ≡ false }
    requires table { table_sought reference ≡ E.TABLE }
    ensures finds { HasCleanDisk (state S.Store conn.new) → (c : Contents) → RestsIfOpen c (state S.Store conn.old)
        → IfOk result (λ found. Finds E.TABLE (refers_to reference (bound_value (owned value.entry))) c (map E.row_of found.items)) }
    ensures cause { HasCleanDisk (state S.Store conn.new) → (c : Contents) → RestsIfOpen c (state S.Store conn.old)
        → is_of Integer (bound_value (owned value.entry)) ≡ true → AllByRecursion E.is_row (c E.TABLE) → IfErr result (FailsBy (state S.Store conn.old) (state S.Store conn.new)) }
    ensures cause_alone { HasCleanDisk (state S.Store conn.new) → (c : Contents) → RestsIfOpen c (state S.Store conn.old) → AllByRecursion E.is_row (c E.TABLE)
        → IfErr result (λ f. (f ≡ Fault.Memory) ⊎ (f ≡ Fault.Store)) }
    ensures opens { HasCleanDisk (state S.Store conn.new) → OnOk result (IsTrue (state S.Store conn.new).is_open) }
    ensures reads { OnlyReads (state S.Store conn.old) (state S.Store conn.new) }
    ensures outside { conn.new.in_transaction ≡ false }
{
    let rows = rows_referring(conn, reference, value)?;
    let entries = entries_of::<E>(alloc, &rows)?;
    Ok(entries)
}

/// Returns the entry of a query's only row, if there is one.
fn first_entry<E: Entries>(rows: &[Row]) -> Result<Option<E::Entry>, Fault>
    ensures entry { (row : Option Row) → rows.now ≡ option_to_list row → IfOk result (λ found. option_map (at (column_places E.TABLE)) row ≡ option_map E.row_of found) }
    ensures cause { IfErr result (λ f. (f ≡ Fault.Memory) ⊎ ((f ≡ Fault.Damaged) × HasInvalidRow E.is_row rows.now)) }
{
    match rows {
        [] => Ok(None),
        [row, ..] => Ok(Some(E::read(row)?)),
    }
}

/// Returns the entry with the given key, if there is one. Returns `Damaged` if its row doesn't represent an entry.
pub fn find_entry<E: Entries, S: Alter>(
    conn: &mut Connection<S>,
    key: &[ValueRef<'_>],
) -> Result<Option<E::Entry>, Fault>
    requires outside { conn.old.in_transaction ≡ false }
    requires key { length key.now ≤ (shape E.TABLE).key }
    ensures found { HasCleanDisk (state S.Store conn.new) → (c : Contents) → RestsIfOpen c (state S.Store conn.old)
        → (row : Option Row) → filter (begins_with (bound key.now)) (c E.TABLE) ≡ option_to_list row → IfOk result (λ entry. option_map E.row_of entry ≡ row) }
    ensures cause { HasCleanDisk (state S.Store conn.new) → (c : Contents) → RestsIfOpen c (state S.Store conn.old)
        → (row : Option Row) → filter (begins_with (bound key.now)) (c E.TABLE) ≡ option_to_list row
        → begins_key E.TABLE (bound key.now) ≡ true → IfSome row E.is_row → IfErr result (FailsBy (state S.Store conn.old) (state S.Store conn.new)) }
    ensures cause_alone { HasCleanDisk (state S.Store conn.new) → (c : Contents) → RestsIfOpen c (state S.Store conn.old)
        → (row : Option Row) → filter (begins_with (bound key.now)) (c E.TABLE) ≡ option_to_list row → IfSome row E.is_row → IfErr result (λ f. (f ≡ Fault.Memory) ⊎ (f ≡ Fault.Store)) }
    ensures told { HasCleanDisk (state S.Store conn.new) → (c : Contents) → RestsIfOpen c (state S.Store conn.old)
        → (row : Option Row) → filter (begins_with (bound key.now)) (c E.TABLE) ≡ option_to_list row
        → begins_key E.TABLE (bound key.now) ≡ true → IfErr result (λ f. FailsBy (state S.Store conn.old) (state S.Store conn.new) f ⊎ ((f ≡ Fault.Damaged) × ¬ IfSome row E.is_row)) }
    ensures opens { HasCleanDisk (state S.Store conn.new) → OnOk result (IsTrue (state S.Store conn.new).is_open) }
    ensures reads { OnlyReads (state S.Store conn.old) (state S.Store conn.new) }
    ensures outside { conn.new.in_transaction ≡ false }
{
    let rows = rows_beginning(conn, E::TABLE, key)?;
    let entry = first_entry::<E>(&rows)?;
    Ok(entry)
}
