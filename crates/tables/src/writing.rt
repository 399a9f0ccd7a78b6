//! Writes entries inside a transaction.

ghost use Rattle.std.specs.Prelude.{◌≡◌, true, map};
ghost use Rattle.tables.specs.Schema.{changes_rows};
ghost use Rattle.tables.specs.Contents.{Sees, added, added_all, replaced, replaced_all};
ghost use Rattle.tables.specs.Writing.{Alters};

use crate::entry::Entries;
use crate::fault::Fault;
use crate::insertion::insert;
use crate::replacement::replace;
use sqlite::{Alter, Transaction};
use std::alloc::Global;

/// Inserts the row of an entry. After a fault, for example if a row with the same key exists, the last commit is unchanged.
pub fn add_entry<E: Entries, S: Alter>(
    alloc: Global,
    tx: &mut Transaction<'_, S>,
    entry: &E::Entry,
) -> Result<(), Fault>
    ensures { Alters S.Store tx.old.conn tx.new.conn result Sees (λ c. Sees (added E.TABLE (E.row_of entry.now) c)) }
{
    let values = E::values(entry, alloc)?;
    insert(tx, E::TABLE, &values)
}

/// Inserts the rows of the given entries, each as `add_entry` does. After a fault, the last commit is unchanged.
pub fn add_entries<E: Entries, S: Alter>(
    alloc: Global,
    tx: &mut Transaction<'_, S>,
    entries: &[E::Entry],
) -> Result<(), Fault>
    ensures { Alters S.Store tx.old.conn tx.new.conn result Sees (λ c. Sees (added_all E.TABLE (map E.row_of entries.now) c)) }
{
    for entry in entries {
        add_entry::<E, S>(alloc, tx, entry)?;
    }
    Ok(())
}

/// Inserts the rows of entries of one table, then those of entries of another. After a fault, the last commit is
/// unchanged.
pub fn add_both<E: Entries, F: Entries, S: Alter>(
    alloc: Global,
    tx: &mut Transaction<'_, S>,
    entries: &[E::Entry],
    others: &[F::Entry],
) -> Result<(), Fault>
    ensures { Alters S.Store tx.old.conn tx.new.conn result Sees (λ c. Sees (added_all F.TABLE (map F.row_of others.now) (added_all E.TABLE (map E.row_of entries.now) c))) }
{
    add_entries::<E, S>(alloc, tx, entries)?;
    add_entries::<F, S>(alloc, tx, others)
}

/// Updates the row with the entry's key to the entry's row; if there is no such row, nothing changes. After a fault,
/// the last commit is unchanged.
pub fn replace_entry<E: Entries, S: Alter>(
    alloc: Global,
    tx: &mut Transaction<'_, S>,
    entry: &E::Entry,
) -> Result<(), Fault>
    requires { changes_rows E.TABLE ≡ true }
    ensures { Alters S.Store tx.old.conn tx.new.conn result Sees (λ c. Sees (replaced E.TABLE (E.row_of entry.now) c)) }
{
    let values = E::values(entry, alloc)?;
    replace(tx, E::TABLE, &values)
}

/// Updates the rows with the given entries' keys, one after another, each as `replace_entry` does. After a fault, the
/// last commit is unchanged.
pub fn replace_entries<E: Entries, S: Alter>(
    alloc: Global,
    tx: &mut Transaction<'_, S>,
    entries: &[E::Entry],
) -> Result<(), Fault>
    requires { changes_rows E.TABLE ≡ true }
    ensures { Alters S.Store tx.old.conn tx.new.conn result Sees (λ c. Sees (replaced_all E.TABLE (map E.row_of entries.now) c)) }
{
    for entry in entries {
        replace_entry::<E, S>(alloc, tx, entry)?;
    }
    Ok(())
}
