//! Reads rows by rowid: the rowid of the row with a given key, and adjacent rows.
//!
//! `sqlite` reads adjacent rows in half the time it takes to look each up by its key. Where rows are stored is not part
//! of a table's contents, so callers check whether the rows are the ones they need.

ghost use Rattle.std.specs.Prelude.{◌≡◌, true, false, length, map, filter, drop, IfOk, IfErr, IfSome, OnOk, IsTrue};
ghost use Rattle.std.specs.List.{AllByRecursion};
ghost use Rattle.std.specs.List.Sorted.{IsPermutation};
ghost use Rattle.sqlite_rules.specs.Lists.{Has};
ghost use Rattle.sqlite.specs.declared.types.Value.TheVariants.{Int as Number};
ghost use Rattle.sqlite.specs.Tree.{rowid};
ghost use Rattle.sqlite.specs.Values.{bound};
ghost use Rattle.sqlite.specs.Effect.{Database};
ghost use Rattle.sqlite.specs.State.{HasCleanDisk};
ghost use Rattle.sqlite.specs.Held.{state};
ghost use Rattle.tables.specs.Schema.{BeginsTo, shape, tree_of};
ghost use Rattle.tables.specs.Rows.{at, column_places, begins_key, begins_with};
ghost use Rattle.tables.specs.Contents.{Contents, RestsAt, RestsIfOpen};
ghost use Rattle.tables.specs.Reading.{OnlyReads, FailsBy, alone};
ghost use Rattle.tables.specs.RowidRanges.{run_of, StandsAt};

use crate::entry::Entries;
use crate::fault::Fault;
use crate::listing::entries_of;
use crate::reading::query;
use crate::table::Table;
use crate::texts::{select_between_text, select_rowid_text};
use crate::value_conversion::{integer, integer_at};
use sqlite::{Alter, Connection, Row};
use sqlite_value::value::ValueRef;
use std::alloc::Global;

/// Returns the rowids of the rows with the given key.
fn rowids_with<S: Alter>(
    conn: &mut Connection<S>,
    table: Table,
    key: &[ValueRef<'_>],
) -> Result<Vec<Row>, Fault>
    requires { conn.old.in_transaction ≡ false }
    ensures shows { HasCleanDisk (state S.Store conn.new) → length key.now ≡ (shape table).key → (db : Database) → BeginsTo table db.schema → RestsAt db (state S.Store conn.old)
        → IfOk result (λ rows. IsPermutation (map alone (filter (λ r. begins_with (bound key.now) (drop 1 r)) (db.trees (tree_of table)))) rows.items) }
    ensures opens { HasCleanDisk (state S.Store conn.new) → OnOk result (IsTrue (state S.Store conn.new).is_open) }
    ensures reads { OnlyReads (state S.Store conn.old) (state S.Store conn.new) }
    ensures outside { conn.new.in_transaction ≡ false }
    ensures fails { HasCleanDisk (state S.Store conn.new) → length key.now ≡ (shape table).key → (c : Contents) → RestsIfOpen c (state S.Store conn.old) → begins_key table (bound key.now) ≡ true
        → IfErr result (FailsBy (state S.Store conn.old) (state S.Store conn.new)) }
{
    query(conn, select_rowid_text(table), key)
}

/// Returns the rowid in the first row, which has no other columns, if the rowid is an integer.
fn first_rowid(rows: &[Row]) -> Result<Option<i64>, Fault>
    ensures id { IfOk result (λ found. IfSome found (λ n. (row : _) × Has rows.now row × (rowid row ≡ Number n))) }
    ensures cause { IfErr result (λ f. f ≡ Fault.Memory) }
{
    let [row, ..] = rows else {
        return Ok(None);
    };
    match integer_at(row, 0) {
        Ok(id) => Ok(Some(id)),
        Err(Fault::Memory) => Err(Fault::Memory),
        Err(_) => Ok(None),
    }
}

/// Returns the rowid of the row with the given key, if there is such a row and its rowid is an integer.
pub fn find_rowid<S: Alter>(
    conn: &mut Connection<S>,
    table: Table,
    key: &[ValueRef<'_>],
) -> Result<Option<i64>, Fault>
    requires { conn.old.in_transaction ≡ false }
    ensures there { HasCleanDisk (state S.Store conn.new) → length key.now ≡ (shape table).key → (db : Database) → BeginsTo table db.schema → RestsAt db (state S.Store conn.old)
        → IfOk result (λ found. IfSome found (StandsAt table (bound key.now) db.trees)) }
    ensures opens { HasCleanDisk (state S.Store conn.new) → OnOk result (IsTrue (state S.Store conn.new).is_open) }
    ensures reads { OnlyReads (state S.Store conn.old) (state S.Store conn.new) }
    ensures outside { conn.new.in_transaction ≡ false }
    ensures fails { HasCleanDisk (state S.Store conn.new) → length key.now ≡ (shape table).key → (c : Contents) → RestsIfOpen c (state S.Store conn.old) → begins_key table (bound key.now) ≡ true
        → IfErr result (FailsBy (state S.Store conn.old) (state S.Store conn.new)) }
{
    let rows = rowids_with(conn, table, key)?;
    let id = first_rowid(&rows)?;
    Ok(id)
}

/// Returns the rows with rowids from `low` to `high`, inclusive, with all their columns, in any order.
pub fn rows_between<S: Alter>(
    conn: &mut Connection<S>,
    table: Table,
    low: i64,
    high: i64,
) -> Result<Vec<Row>, Fault>
    requires { conn.old.in_transaction ≡ false }
    ensures shows { HasCleanDisk (state S.Store conn.new) → (db : Database) → BeginsTo table db.schema → RestsAt db (state S.Store conn.old)
        → IfOk result (λ rows. IsPermutation (map (at (column_places table)) (run_of table low high db.trees)) rows.items) }
    ensures opens { HasCleanDisk (state S.Store conn.new) → OnOk result (IsTrue (state S.Store conn.new).is_open) }
    ensures reads { OnlyReads (state S.Store conn.old) (state S.Store conn.new) }
    ensures outside { conn.new.in_transaction ≡ false }
    ensures fails { HasCleanDisk (state S.Store conn.new) → (c : Contents) → RestsIfOpen c (state S.Store conn.old) → IfErr result (FailsBy (state S.Store conn.old) (state S.Store conn.new)) }
{
    let bounds = [integer(low), integer(high)];
    query(conn, select_between_text(table), &bounds)
}

/// Returns the entries whose rows have rowids from `low` to `high`, inclusive, in any order. Returns `Damaged` if a row
/// doesn't represent an entry.
pub fn entries_between<E: Entries, S: Alter>(
    alloc: Global,
    conn: &mut Connection<S>,
    low: i64,
    high: i64,
) -> Result<Vec<E::Entry>, Fault>
    requires { conn.old.in_transaction ≡ false }
    ensures run { HasCleanDisk (state S.Store conn.new) → (c : Contents) → RestsIfOpen c (state S.Store conn.old)
        → IfOk result (λ found. IsPermutation (run_of E.TABLE low high (state S.Store conn.old).now.trees) (map E.row_of found.items)) }
    ensures are { HasCleanDisk (state S.Store conn.new) → (c : Contents) → RestsIfOpen c (state S.Store conn.old) → IfOk result (λ found. AllByRecursion (Has (c E.TABLE)) (map E.row_of found.items)) }
    ensures cause { HasCleanDisk (state S.Store conn.new) → (c : Contents) → RestsIfOpen c (state S.Store conn.old)
        → AllByRecursion E.is_row (c E.TABLE) → IfErr result (FailsBy (state S.Store conn.old) (state S.Store conn.new)) }
    ensures opens { HasCleanDisk (state S.Store conn.new) → OnOk result (IsTrue (state S.Store conn.new).is_open) }
    ensures reads { OnlyReads (state S.Store conn.old) (state S.Store conn.new) }
    ensures outside { conn.new.in_transaction ≡ false }
{
    let rows = rows_between(conn, E::TABLE, low, high)?;
    let entries = entries_of::<E>(alloc, &rows)?;
    Ok(entries)
}
