//! Migrates an office made by an earlier program.

ghost use Rattle.std.specs.Prelude.{◌≡◌, ◌⊎◌, false, Err, IfOk, IfErr};
ghost use Rattle.sqlite.specs.Effect.{Database, IsDatabase};
ghost use Rattle.sqlite.specs.State.{HasCleanDisk};
ghost use Rattle.sqlite.specs.Held.{state};
ghost use Rattle.register.specs.Offices.{OfficeState};
ghost use Rattle.register.specs.Tabulated.{addition_entries};
ghost use Rattle.tables.specs.Contents.{RestsAt, SameContents};
ghost use Rattle.tables.specs.Presence.{IsOurs, IsOlderSchema};
ghost use Rattle.tables.specs.Reading.{OnlyReads};
ghost use Rattle.store.specs.declared.older.OlderForm.{OlderForm};
ghost use Rattle.store.specs.StateTables.{tables_of, HoldsState, IsAt, Commits, KeepsConnection};
ghost use Rattle.store.specs.Openings.{HasVersion};
ghost use Rattle.store.specs.Migrations.{older_tables, IsOlderState, HoldsOlder, RestsOlder, StoresOlder, WasAt, IsToldInMigration, FailsToMigrate, IsCompletedBy, TellsOlder, LeavesOlderOr, Migrates};

use crate::older::{Older, read_older};
use crate::opening::check;
use crate::writing::older::write_migration;
use sqlite::{Alter, Connection};
use std::alloc::Global;
use tables::Fault;

/// The outcome of a migration.
#[derive(Clone, Copy, PartialEq, Eq)]
pub enum Migrated {
    /// The office now has this program's version.
    Done,
    /// It already had this program's version.
    Already,
}

/// Writes the tables and rows that an older office lacks, and the version, in one transaction.
fn commit_migration<S: Alter>(
    alloc: Global,
    conn: &mut Connection<S>,
    older: &Older,
) -> Result<(), Fault>
    requires { conn.old.in_transaction ≡ false }
    ensures { Commits (state S.Store conn.old) (state S.Store conn.new) result
        (λ (s : OfficeState) st. RestsOlder older.now.form s st × IsCompletedBy older.now.form s (addition_entries older.now.missing)) tables_of }
{
    let mut tx = conn.transaction();
    write_migration(alloc, &mut tx, older)?;
    tx.commit()?;
    Ok(())
}

/// Migrates an office of the first version to this program's version.
fn migrate_older<S: Alter>(alloc: Global, conn: &mut Connection<S>) -> Result<Migrated, Fault>
    requires { conn.old.in_transaction ≡ false }
    ensures opened { HasCleanDisk (state S.Store conn.new) → (db : Database) → IsOlderSchema db.schema → HasVersion 1 db → RestsAt db (state S.Store conn.old)
        → IfOk result (λ m. (s : OfficeState) × WasAt db m s × IsAt s (state S.Store conn.new)) }
    ensures leaves { HasCleanDisk (state S.Store conn.new) → (db : Database) → IsOlderSchema db.schema → HasVersion 1 db → RestsAt db (state S.Store conn.old)
        → LeavesOlderOr db (state S.Store conn.old) (state S.Store conn.new) }
    ensures told { HasCleanDisk (state S.Store conn.new) → (db : Database) → IsOlderSchema db.schema → HasVersion 1 db → RestsAt db (state S.Store conn.old)
        → IfErr result (TellsOlder db) }
    ensures fails { HasCleanDisk (state S.Store conn.new) → (db : Database) → IsOlderSchema db.schema → HasVersion 1 db → RestsAt db (state S.Store conn.old)
        → IfErr result (FailsToMigrate db (state S.Store conn.old) (state S.Store conn.new)) }
    ensures unchanged { IfErr result (λ f. (f ≡ Fault.Memory) ⊎ ((f ≡ Fault.Store) ⊎ OnlyReads (state S.Store conn.old) (state S.Store conn.new))) }
    ensures keeps_connection { KeepsConnection (state S.Store conn.old) (state S.Store conn.new) }
    ensures clean { HasCleanDisk (state S.Store conn.new) → HasCleanDisk (state S.Store conn.old) }
    ensures outside { conn.new.in_transaction ≡ false }
{
    let older = read_older(alloc, conn)?;
    commit_migration(alloc, conn, &older)?;
    Ok(Migrated::Done)
}

/// Opens an office as `open_from` does, and migrates it if it turns out to have been made by an earlier program.
fn open_or_migrate<S: Alter>(alloc: Global, conn: &mut Connection<S>) -> Result<Migrated, Fault>
    requires { conn.old.in_transaction ≡ false }
    ensures opened { HasCleanDisk (state S.Store conn.new) → (db : Database) → IsOurs db.schema → IsOlderSchema db.schema → RestsAt db (state S.Store conn.old)
        → IfOk result (λ m. (s : OfficeState) × WasAt db m s × IsAt s (state S.Store conn.new)) }
    ensures leaves { HasCleanDisk (state S.Store conn.new) → (db : Database) → IsOurs db.schema → IsOlderSchema db.schema → RestsAt db (state S.Store conn.old)
        → LeavesOlderOr db (state S.Store conn.old) (state S.Store conn.new) }
    ensures told { HasCleanDisk (state S.Store conn.new) → (db : Database) → IsOurs db.schema → IsOlderSchema db.schema → RestsAt db (state S.Store conn.old)
        → IfErr result (IsToldInMigration db) }
    ensures fails { HasCleanDisk (state S.Store conn.new) → (db : Database) → IsOurs db.schema → IsOlderSchema db.schema → RestsAt db (state S.Store conn.old)
        → IfErr result (FailsToMigrate db (state S.Store conn.old) (state S.Store conn.new)) }
    ensures reads { HasCleanDisk (state S.Store conn.new) → (db : Database) → RestsAt db (state S.Store conn.old) → (s : OfficeState) → HoldsState db s
        → OnlyReads (state S.Store conn.old) (state S.Store conn.new) }
    ensures unchanged { IfErr result (λ f. (f ≡ Fault.Memory) ⊎ ((f ≡ Fault.Store) ⊎ OnlyReads (state S.Store conn.old) (state S.Store conn.new))) }
    ensures keeps_connection { KeepsConnection (state S.Store conn.old) (state S.Store conn.new) }
    ensures clean { HasCleanDisk (state S.Store conn.new) → HasCleanDisk (state S.Store conn.old) }
    ensures outside { conn.new.in_transaction ≡ false }
{
    match check(alloc, conn) {
        Ok(()) => Ok(Migrated::Already),
        Err(fault) => match fault {
            Fault::OlderSchema => migrate_older(alloc, conn),
            other => Err(other),
        },
    }
}

/// Does nothing; it is a lemma for callers. Older rows determine their state: states with equal older tables of the
/// same form are equal, so a database represents at most one of them. What a stop has left of an older office can be
/// identified again.
fn older_tables_determine_states()
    ensures equal { (form : OlderForm) (s t : OfficeState) → IsOlderState s → IsOlderState t → SameContents (older_tables form s) (older_tables form t) → s ≡ t }
    ensures alone { (db : Database) (form other : OlderForm) (s t : OfficeState) → HoldsOlder form db s → HoldsOlder other db t → (form ≡ other) × (s ≡ t) }
    ensures again { (form : OlderForm) (s : OfficeState) (db : Database) → IsDatabase db → StoresOlder form s db.trees → HoldsOlder form db s }
{}

/// Migrates an office made by an earlier program to this program's version. One transaction creates the tables that the
/// office lacks, inserts the rows of the tabulation of its counts, and sets the version. Everything that was accepted
/// remains, with its receipts. No office is open afterwards.
///
/// The rows are first checked as in `Store::open_from`; those of an older office are checked against the conditions
/// that applied to it. If the office already has this program's version, nothing else is done and nothing is changed.
/// `WrongDatabase` and `NewerSchema` are returned just as `open_from` returns them. Returns `Damaged` if the rows don't
/// form the tables of any state, if a table is missing, or if there is an extra one; in that case nothing is changed.
/// After `Memory` or `Store` an older office is either unchanged or completely migrated; if there was no older office,
/// nothing is changed. Returns `Store` if the store failed, if rowids aren't distinct integers, or if the connection is
/// inside a transaction.
pub fn migrate<S: Alter>(alloc: Global, conn: &mut Connection<S>) -> Result<Migrated, Fault>
    ensures { Migrates S.Store conn.old conn.new result }
{
    older_tables_determine_states();
    if !conn.is_autocommit() {
        return Err(Fault::Store);
    }
    open_or_migrate(alloc, conn)
}
