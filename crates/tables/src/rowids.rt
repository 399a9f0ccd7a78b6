//! Checks that no two rows share a rowid.

ghost use Rattle.std.specs.Prelude.{◌≡◌, ◌⊎◌, ◌<ℤ◌, ◌≤ℤ◌, [], true, false, IfOk, IfErr, OnOk, IsTrue};
ghost use Rattle.sqlite.specs.declared.types.Value.TheVariants.{Int as Number};
ghost use Rattle.sqlite.specs.Tree.{rowid};
ghost use Rattle.sqlite.specs.View.{is_int};
ghost use Rattle.sqlite.specs.Effect.{Database};
ghost use Rattle.sqlite.specs.State.{HasCleanDisk};
ghost use Rattle.sqlite.specs.Held.{state};
ghost use Rattle.tables.specs.Texts.{select_rowids_text};
ghost use Rattle.tables.specs.Schema.{BeginsTo, tree_of, changes_rows};
ghost use Rattle.tables.specs.Rows.{Keyed, HasWrongRowid, RepeatsRowid};
ghost use Rattle.tables.specs.Contents.{RestsAt};
ghost use Rattle.tables.specs.Reading.{OnlyReads, ListsRowids, RowidsRise, RowidsFailToRise, FailsToList};
ghost use Rattle.tables.specs.Faults.{TellsQuery};

use crate::fault::Fault;
use crate::reading::query;
use crate::table::Table;
use crate::texts::select_rowids_text;
use crate::value_conversion::integer_at;
use sqlite::{Alter, Connection, Row};

/// Returns the rowid in a row that has no other columns.
fn rowid_at(row: &Row) -> Result<i64, Fault>
    ensures id { IfOk result (λ n. rowid row.now ≡ Number n) }
    ensures cause { IfErr result (λ f. (f ≡ Fault.Memory) ⊎ ((f ≡ Fault.Store) × (is_int (rowid row.now) ≡ false))) }
{
    match integer_at(row, 0) {
        Ok(id) => Ok(id),
        Err(Fault::Damaged) => Err(Fault::Store),
        Err(fault) => Err(fault),
    }
}

/// Returns whether one rowid is below another.
fn is_below(id: i64, other: i64) -> bool
    ensures below { result ≡ true → id <ℤ other }
    ensures not_below { result ≡ false → other ≤ℤ id }
{
    id < other
}

/// Checks that each rowid is below the next one. Returns `Store` if one isn't.
fn check_each(rows: &[Row]) -> Result<(), Fault>
    ensures rise { OnOk result (RowidsRise rows.now) }
    ensures fall { IfErr result (λ f. (f ≡ Fault.Memory) ⊎ ((f ≡ Fault.Store) × RowidsFailToRise rows.now)) }
{
    for i in 0..rows.len() {
        let id = rowid_at(&rows[i])?;
        if i > 0 {
            let before = rowid_at(&rows[i - 1])?;
            if !is_below(before, id) {
                return Err(Fault::Store);
            }
        }
    }
    Ok(())
}

/// Returns the rowids of a table, in order.
fn all_rowids<S: Alter>(conn: &mut Connection<S>, table: Table) -> Result<Vec<Row>, Fault>
    requires outside { conn.old.in_transaction ≡ false }
    requires changes { changes_rows table ≡ true }
    ensures lists { HasCleanDisk (state S.Store conn.new) → (db : Database) → BeginsTo table db.schema → RestsAt db (state S.Store conn.old)
        → IfOk result (λ rows. ListsRowids table db rows.items) }
    ensures opens { HasCleanDisk (state S.Store conn.new) → OnOk result (IsTrue (state S.Store conn.new).is_open) }
    ensures reads { OnlyReads (state S.Store conn.old) (state S.Store conn.new) }
    ensures outside { conn.new.in_transaction ≡ false }
    ensures cause { IfErr result (TellsQuery (select_rowids_text table) [] (state S.Store conn.old) (state S.Store conn.new)) }
{
    query(conn, select_rowids_text(table), &[])
}

/// Checks that the rowids of a table whose rows change are integers and that no two rows share one. Returns `Store` if
/// not.
pub fn check_rowids<S: Alter>(conn: &mut Connection<S>, table: Table) -> Result<(), Fault>
    requires outside { conn.old.in_transaction ≡ false }
    requires changes { changes_rows table ≡ true }
    ensures keyed { HasCleanDisk (state S.Store conn.new) → (db : Database) → BeginsTo table db.schema → RestsAt db (state S.Store conn.old)
        → OnOk result (Keyed (db.trees (tree_of table))) }
    ensures opens { HasCleanDisk (state S.Store conn.new) → OnOk result (IsTrue (state S.Store conn.new).is_open) }
    ensures reads { OnlyReads (state S.Store conn.old) (state S.Store conn.new) }
    ensures outside { conn.new.in_transaction ≡ false }
    ensures cause { HasCleanDisk (state S.Store conn.new) → (db : Database) → BeginsTo table db.schema → RestsAt db (state S.Store conn.old)
        → IfErr result (λ f. TellsQuery (select_rowids_text table) [] (state S.Store conn.old) (state S.Store conn.new) f
        ⊎ ((f ≡ Fault.Memory) ⊎ ((f ≡ Fault.Store) × (HasWrongRowid (db.trees (tree_of table)) ⊎ RepeatsRowid (db.trees (tree_of table)))))) }
    ensures fails { HasCleanDisk (state S.Store conn.new) → (db : Database) → BeginsTo table db.schema → RestsAt db (state S.Store conn.old)
        → IfErr result (FailsToList db (state S.Store conn.old) (state S.Store conn.new)) }
{
    let rows = all_rowids(conn, table)?;
    check_each(&rows)?;
    Ok(())
}
