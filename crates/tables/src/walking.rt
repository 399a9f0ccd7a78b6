//! Passes entries on one at a time, without holding them all.

ghost use Rattle.std.specs.Prelude.{◌≡◌, ◌≤◌, ◌⊎◌, [], ◌∷◌, true, false, length, List, IfOk, IfErr, OnOk, IsTrue};
ghost use Rattle.std.specs.List.{AllByRecursion};
ghost use Rattle.sqlite.specs.Order.{Row};
ghost use Rattle.sqlite.specs.Values.{bound};
ghost use Rattle.sqlite.specs.State.{HasCleanDisk};
ghost use Rattle.sqlite.specs.Held.{state};
ghost use Rattle.sqlite.specs.Given.{HasGiven};
ghost use Rattle.tables.specs.Texts.{select_text};
ghost use Rattle.tables.specs.Schema.{shape};
ghost use Rattle.tables.specs.Rows.{begins_key, begins_with};
ghost use Rattle.tables.specs.Contents.{Contents, RestsIfOpen};
ghost use Rattle.tables.specs.Reading.{OnlyReads, FailsBy};
ghost use Rattle.tables.specs.Walking.{TakesNext, TakesFound, Visits, FailsToVisit};

use crate::entry::Entries;
use crate::fault::Fault;
use crate::texts::select_text;
use sqlite::{Alter, Connection, Rows};
use sqlite_value::value::ValueRef;

/// A consumer of entries, one at a time.
pub trait Visitor<E: Entries> {
    ghost use Rattle.tables.specs.declared.fault.Fault.{Fault};

    // The visitor has consumed these entries, in this order, and no others.
    ghost HasVisited: { Self → List E.Entry → Type 0 };

    // The faults that the visitor may return.
    ghost Stops: { Fault → Type 0 };

    /// Consumes another entry.
    fn visit(&mut self, entry: E::Entry) -> Result<(), Fault>
        ensures takes { OnOk result (TakesNext HasVisited self.old self.new entry) }
        ensures cause { IfErr result Stops };
}

/// Passes the entry of the next row to the visitor, and returns whether there was one.
fn visit_next<E: Entries, V: Visitor<E>, S: Alter>(
    rows: &mut Rows<'_, S>,
    visitor: &mut V,
) -> Result<bool, Fault>
    ensures same_reference { rows.new.conn.ghost_name ≡ rows.old.conn.ghost_name }
    ensures visits { HasCleanDisk (state S.Store rows.new.conn.now) → IfOk result (Visits S.Store E.TABLE E.row_of V.HasVisited rows.old.conn.now rows.new.conn.now visitor.old visitor.new) }
    ensures cause { HasCleanDisk (state S.Store rows.new.conn.now) → IfErr result (FailsToVisit S.Store E.is_row V.Stops rows.old.conn.now rows.new.conn.now) }
    ensures opens { HasCleanDisk (state S.Store rows.new.conn.now) → OnOk result (IsTrue (state S.Store rows.new.conn.now).is_open) }
    ensures reads { OnlyReads (state S.Store rows.old.conn.now) (state S.Store rows.new.conn.now) }
    ensures outside { rows.old.conn.now.in_transaction ≡ false → rows.new.conn.now.in_transaction ≡ false }
{
    rows.advance()?;
    let Some(row) = rows.get() else {
        return Ok(false);
    };
    let entry = E::read(row)?;
    visitor.visit(entry)?;
    Ok(true)
}

/// Passes the entries of all remaining rows to the visitor. Also returns `Memory` if there are more than 2^64 - 2.
fn visit_rest<E: Entries, V: Visitor<E>, S: Alter>(
    rows: &mut Rows<'_, S>,
    visitor: &mut V,
) -> Result<(), Fault>
    ensures same_reference { rows.new.conn.ghost_name ≡ rows.old.conn.ghost_name }
    ensures finds { HasCleanDisk (state S.Store rows.new.conn.now) → (key : Row) → length key ≤ (shape E.TABLE).key → HasGiven S.Store (select_text E.TABLE (length key)) key rows.old.conn.now []
        → (c : Contents) → RestsIfOpen c (state S.Store rows.old.conn.now) → OnOk result (TakesFound V.HasVisited E.row_of E.TABLE (begins_with key) c visitor.old visitor.new) }
    ensures cause { HasCleanDisk (state S.Store rows.new.conn.now) → (key : Row) → length key ≤ (shape E.TABLE).key → HasGiven S.Store (select_text E.TABLE (length key)) key rows.old.conn.now []
        → (c : Contents) → RestsIfOpen c (state S.Store rows.old.conn.now) → begins_key E.TABLE key ≡ true → AllByRecursion E.is_row (c E.TABLE)
        → IfErr result (λ f. FailsBy (state S.Store rows.old.conn.now) (state S.Store rows.new.conn.now) f ⊎ V.Stops f) }
    ensures cause_alone { HasCleanDisk (state S.Store rows.new.conn.now) → (key : Row) → length key ≤ (shape E.TABLE).key → HasGiven S.Store (select_text E.TABLE (length key)) key rows.old.conn.now []
        → (c : Contents) → RestsIfOpen c (state S.Store rows.old.conn.now) → AllByRecursion E.is_row (c E.TABLE) → IfErr result (λ f. (f ≡ Fault.Memory) ⊎ ((f ≡ Fault.Store) ⊎ V.Stops f)) }
    ensures opens { HasCleanDisk (state S.Store rows.new.conn.now) → OnOk result (IsTrue (state S.Store rows.new.conn.now).is_open) }
    ensures reads { OnlyReads (state S.Store rows.old.conn.now) (state S.Store rows.new.conn.now) }
    ensures outside { rows.old.conn.now.in_transaction ≡ false → rows.new.conn.now.in_transaction ≡ false }
{
    'rows: for _ in 0..u64::MAX {
        if !visit_next::<E, V, S>(rows, visitor)? {
            return Ok(());
        }
    }
    Err(Fault::Memory)
}

/// Passes the entries whose key begins with the given values to the visitor, one at a time, in key order, and returns
/// the visitor. Only rows that have been read ahead are held in memory.
///
/// A fault from the visitor ends the walk. Returns `Damaged` if a row doesn't represent an entry; also returns `Memory`
/// if there are more than 2^64 - 2 rows. In these cases the visitor is dropped, and the tables are unchanged.
pub fn walk_beginning<E: Entries, V: Visitor<E> + Drop, S: Alter>(
    conn: &mut Connection<S>,
    key: &[ValueRef<'_>],
    visitor: V,
) -> Result<V, Fault>
    requires outside { conn.old.in_transaction ≡ false }
    requires key { length key.now ≤ (shape E.TABLE).key }
    ensures finds { HasCleanDisk (state S.Store conn.new) → (c : Contents) → RestsIfOpen c (state S.Store conn.old)
        → IfOk result (TakesFound V.HasVisited E.row_of E.TABLE (begins_with (bound key.now)) c visitor) }
    ensures cause { HasCleanDisk (state S.Store conn.new) → (c : Contents) → RestsIfOpen c (state S.Store conn.old)
        → begins_key E.TABLE (bound key.now) ≡ true → AllByRecursion E.is_row (c E.TABLE) → IfErr result (λ f. FailsBy (state S.Store conn.old) (state S.Store conn.new) f ⊎ V.Stops f) }
    ensures cause_alone { HasCleanDisk (state S.Store conn.new) → (c : Contents) → RestsIfOpen c (state S.Store conn.old) → AllByRecursion E.is_row (c E.TABLE)
        → IfErr result (λ f. (f ≡ Fault.Memory) ⊎ ((f ≡ Fault.Store) ⊎ V.Stops f)) }
    ensures opens { HasCleanDisk (state S.Store conn.new) → OnOk result (IsTrue (state S.Store conn.new).is_open) }
    ensures reads { OnlyReads (state S.Store conn.old) (state S.Store conn.new) }
    ensures outside { conn.new.in_transaction ≡ false }
{
    let mut visitor = visitor;
    let mut rows = conn.query(select_text(E::TABLE, key.len()), key)?;
    visit_rest::<E, V, S>(&mut rows, &mut visitor)?;
    Ok(visitor)
}
