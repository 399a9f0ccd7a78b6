//! A store that keeps the state of an office.

ghost use Rattle.std.specs.Prelude.{◌≡◌, ◌⊎◌, true, false, Err, IfOk, IfErr, OnOk, OnErr, IsTrue};
ghost use Rattle.sqlite.specs.Tree.{Trees};
ghost use Rattle.sqlite.specs.State.{HasCleanDisk, Survives};
ghost use Rattle.sqlite.specs.Held.{state};
ghost use Rattle.register.specs.Offices.{OfficeState, empty_office};
ghost use Rattle.register.specs.StateConditions.{IsState};
ghost use Rattle.register.specs.Effects.{change_entry, with_change};
ghost use Rattle.register.specs.Tabulated.{addition_entries, IsTabulated};
ghost use Rattle.sqlite.specs.Effect.{Database};
ghost use Rattle.tables.specs.Contents.{Contents, SameContents, Rests, RestsAt, Stores};
ghost use Rattle.tables.specs.Presence.{has_some_table, has_every_table, IsOurs};
ghost use Rattle.tables.specs.Reading.{OnlyReads, FailsToList, FailsBy};
ghost use Rattle.store.specs.Copies.{CopiesTo};
ghost use Rattle.store.specs.StateTables.{tables_of, ChangesTo, HoldsState, IsAt, LeavesState, KeepsConnection};
ghost use Rattle.store.specs.Openings.{IsBlank, IsFaultOf, IsLeftAt};
ghost use Rattle.store.specs.Whole.{ReadsOffice};

use crate::copying::{CopyFault, OfficeCounts, copy as copy_between};
use crate::opening::check;
use crate::whole::read_office;
use crate::writing::{write_change, write_new_office};
use register::Change;
use rowcheck::Rows;
use sqlite::{Alter, Connection};
use std::alloc::Global;
use std::marker::Model;
use tables::Fault;
use tables::presence::{has_every_table, has_some_table};

/// A connection, between transactions, to the tables of an office. Contracts see the store as that connection.
pub struct Store<S: Alter> {
    pub(crate) conn: Connection<S>,
    pub(crate) alloc: Global,
}

impl<S: Alter> Model for Store<S> {
    ghost use Rattle.std.specs.Prelude.{◌≡◌, false};
    ghost use Rattle.sqlite.specs.Held.{Held, held_code};

    ghost Value = { Held S };

    ghost coded = { held_code S.code };

    ghost view = { λ s. s.conn };

    ghost invariant = { λ s. s.conn.in_transaction ≡ false };
}

/// Writes a change in one transaction.
fn commit_change<S: Alter>(
    alloc: Global,
    conn: &mut Connection<S>,
    change: &Change,
) -> Result<(), Fault>
    requires { conn.old.in_transaction ≡ false }
    ensures done { HasCleanDisk (state S.Store conn.new) → (c d : Contents) → ChangesTo (change_entry change.now) (addition_entries change.now.addition) c d → Rests c (state S.Store conn.old)
        → OnOk result (Rests d (state S.Store conn.new)) }
    ensures survives { (c d : Contents) → ChangesTo (change_entry change.now) (addition_entries change.now.addition) c d → Rests c (state S.Store conn.old)
        → Survives (state S.Store conn.old) (state S.Store conn.new) (Stores d) }
    ensures keeps_connection { KeepsConnection (state S.Store conn.old) (state S.Store conn.new) }
    ensures clean { HasCleanDisk (state S.Store conn.new) → HasCleanDisk (state S.Store conn.old) }
    ensures outside { conn.new.in_transaction ≡ false }
    ensures cause { IfErr result (λ f. (f ≡ Fault.Memory) ⊎ (f ≡ Fault.Store)) }
{
    let mut tx = conn.transaction();
    write_change(alloc, &mut tx, change)?;
    tx.commit()?;
    Ok(())
}

/// Creates the tables of an empty office in one transaction. If the database already has other tables, nothing in
/// `sqlite`'s clauses guarantees which tables the statements created, so this function checks that each of ours exists.
fn commit_new_office<S: Alter>(conn: &mut Connection<S>) -> Result<(), Fault>
    requires { conn.old.in_transaction ≡ false }
    ensures done { HasCleanDisk (state S.Store conn.new) → IsBlank (state S.Store conn.old) → OnOk result (Rests (tables_of empty_office) (state S.Store conn.new)) }
    ensures survives { IsBlank (state S.Store conn.old) → Survives (state S.Store conn.old) (state S.Store conn.new) (Stores (tables_of empty_office)) }
    ensures keeps_connection { KeepsConnection (state S.Store conn.old) (state S.Store conn.new) }
    ensures clean { HasCleanDisk (state S.Store conn.new) → HasCleanDisk (state S.Store conn.old) }
    ensures every { OnOk result (has_every_table (state S.Store conn.new).now.schema ≡ true) }
    ensures outside { conn.new.in_transaction ≡ false }
    ensures cause { IfErr result (λ f. (f ≡ Fault.Memory) ⊎ (f ≡ Fault.Store)) }
{
    let mut tx = conn.transaction();
    write_new_office(&mut tx)?;
    tx.commit()?;
    if !has_every_table(conn) {
        return Err(Fault::Store);
    }
    Ok(())
}

/// Does nothing; it is a lemma for callers. Rows determine their state: states with equal tables are equal, so a
/// database represents at most one state.
fn tables_determine_states()
    ensures equal { (s t : OfficeState) → IsState s → IsState t → SameContents (tables_of s) (tables_of t) → s ≡ t }
    ensures alone { (db : Database) → (s t : OfficeState) → HoldsState db s → HoldsState db t → s ≡ t }
{}

impl<S: Alter> Store<S> {
    /// Creates the tables of an empty office in the connection's database.
    ///
    /// Returns `WrongDatabase` if a table with the name of one of ours already exists; in that case nothing is changed.
    /// Also returns `Store` if the connection is inside a transaction. After any other fault, either all the tables
    /// exist or none do.
    pub fn create(alloc: Global, mut conn: Connection<S>) -> Result<Self, (Fault, Connection<S>)>
        ensures made { IfOk result (λ store. HasCleanDisk (state S.Store store) → IsBlank (state S.Store conn) → IsAt empty_office (state S.Store store)) }
        ensures stops { IfErr result (λ e. HasCleanDisk (state S.Store e.1) → IsBlank (state S.Store conn)
            → (trees : Trees) → (state S.Store e.1).may_leave trees → (state S.Store conn).may_leave trees ⊎ Stores (tables_of empty_office) trees) }
        ensures keeps_connection { IfOk result (λ store. KeepsConnection (state S.Store conn) (state S.Store store)) }
        ensures connection_too { IfErr result (λ e. KeepsConnection (state S.Store conn) (state S.Store e.1)) }
        ensures whole { IfOk result (λ store. has_every_table (state S.Store store).now.schema ≡ true) }
        ensures taken { has_some_table (state S.Store conn).now.schema ≡ true → OnOk result ⊥ }
        ensures wrong { has_some_table (state S.Store conn).now.schema ≡ true → conn.in_transaction ≡ false → IfErr result (λ e. e.0 ≡ Fault.WrongDatabase) }
        ensures inside { conn.in_transaction ≡ true → result ≡ Err (Fault.Store, conn) }
        ensures told { IfErr result (λ e. (e.0 ≡ Fault.Memory) ⊎ ((e.0 ≡ Fault.Store) ⊎ ((e.0 ≡ Fault.WrongDatabase) × (has_some_table (state S.Store conn).now.schema ≡ true) × (e.1 ≡ conn)))) }
    {
        if !conn.is_autocommit() {
            return Err((Fault::Store, conn));
        }
        if has_some_table(&conn) {
            return Err((Fault::WrongDatabase, conn));
        }
        match commit_new_office(&mut conn) {
            Ok(()) => Ok(Store { conn, alloc }),
            Err(fault) => Err((fault, conn)),
        }
    }

    /// Opens the office in the connection's database, and changes nothing.
    ///
    /// Returns `WrongDatabase` if there is no office table or no row in it; `OlderSchema` if an earlier program made
    /// the office, and `NewerSchema` if a later one did. Returns `Damaged` if the rows don't form the tables of any
    /// state, and `Store` if the store failed, if rowids aren't distinct integers, or if the connection is inside a
    /// transaction. The connection is returned with the fault, its database unchanged.
    pub fn open_from(alloc: Global, mut conn: Connection<S>) -> Result<Self, (Fault, Connection<S>)>
        ensures opened { IfOk result (λ store. HasCleanDisk (state S.Store store) → (db : Database) → IsOurs db.schema → RestsAt db (state S.Store conn)
            → (s : OfficeState) × HoldsState db s × IsAt s (state S.Store store)) }
        ensures told { IfErr result (λ e. HasCleanDisk (state S.Store e.1) → (db : Database) → IsOurs db.schema → RestsAt db (state S.Store conn) → IsFaultOf db e.0) }
        ensures reopens { IfOk result (λ store. HasCleanDisk (state S.Store store) → (db : Database) → RestsAt db (state S.Store conn)
            → (s : OfficeState) → IsLeftAt s db → IsAt s (state S.Store store)) }
        ensures refuses { IfErr result (λ e. HasCleanDisk (state S.Store e.1) → (db : Database) → RestsAt db (state S.Store conn)
            → (s : OfficeState) → IsLeftAt s db → (e.0 ≡ Fault.Memory) ⊎ (e.0 ≡ Fault.Store)) }
        ensures fails { IfErr result (λ e. HasCleanDisk (state S.Store e.1) → (db : Database) → IsOurs db.schema → RestsAt db (state S.Store conn)
            → FailsToList db (state S.Store conn) (state S.Store e.1) e.0) }
        ensures cause { IfErr result (λ e. HasCleanDisk (state S.Store e.1) → (db : Database) → RestsAt db (state S.Store conn) → (s : OfficeState) → IsLeftAt s db
            → FailsBy (state S.Store conn) (state S.Store e.1) e.0) }
        ensures reads { IfOk result (λ store. OnlyReads (state S.Store conn) (state S.Store store)) }
        ensures reads_too { IfErr result (λ e. OnlyReads (state S.Store conn) (state S.Store e.1)) }
        ensures inside { conn.in_transaction ≡ true → result ≡ Err (Fault.Store, conn) }
        ensures alone { (db : Database) → (s t : OfficeState) → HoldsState db s → HoldsState db t → s ≡ t }
        ensures equal { (s t : OfficeState) → IsState s → IsState t → SameContents (tables_of s) (tables_of t) → s ≡ t }
    {
        tables_determine_states();
        if !conn.is_autocommit() {
            return Err((Fault::Store, conn));
        }
        match check(alloc, &mut conn) {
            Ok(()) => Ok(Store { conn, alloc }),
            Err(fault) => Err((fault, conn)),
        }
    }

    /// Writes a change in one transaction, entirely or not at all. After a fault, either the old tables or the new ones
    /// may be found. Every fault occurs inside the transaction, because the first call, which begins it, allocates
    /// nothing and can't fail.
    pub fn commit(&mut self, change: &Change) -> Result<(), Fault>
        ensures done { HasCleanDisk (state S.Store self.new) → IsTrue (state S.Store self.old).is_open → (s : OfficeState) → IsAt s (state S.Store self.old)
            → IsTabulated s change.now → IsState (with_change (change_entry change.now) s) → OnOk result (IsAt (with_change (change_entry change.now) s) (state S.Store self.new)) }
        ensures stops { HasCleanDisk (state S.Store self.new) → IsTrue (state S.Store self.old).is_open → (s : OfficeState) → IsAt s (state S.Store self.old)
            → IsTabulated s change.now → (trees : Trees) → (state S.Store self.new).may_leave trees → Stores (tables_of s) trees ⊎ Stores (tables_of (with_change (change_entry change.now) s)) trees }
        ensures leaves { HasCleanDisk (state S.Store self.new) → IsTrue (state S.Store self.old).is_open → (s : OfficeState) → IsAt s (state S.Store self.old)
            → IsTabulated s change.now → IsState (with_change (change_entry change.now) s) → LeavesState (state S.Store self.new) (λ x. (x ≡ s) ⊎ (x ≡ with_change (change_entry change.now) s)) }
        ensures keeps_connection { KeepsConnection (state S.Store self.old) (state S.Store self.new) }
        ensures clean { HasCleanDisk (state S.Store self.new) → HasCleanDisk (state S.Store self.old) }
        ensures cause { IfErr result (λ f. (f ≡ Fault.Memory) ⊎ (f ≡ Fault.Store)) }
    {
        commit_change(self.alloc, &mut self.conn, change)
    }

    /// Copies the office into another database, which must be empty, in one transaction, and returns how much the copy
    /// contains. The office itself is only read.
    pub fn copy_to<T: Alter>(&mut self, copy: &mut Connection<T>) -> Result<OfficeCounts, CopyFault>
        ensures { CopiesTo S.Store T.Store self.old self.new copy.old copy.new result }
    {
        copy_between(self.alloc, &mut self.conn, copy)
    }

    /// Returns all entries of the office, each table's in key order. The office is only read.
    pub fn rows(&mut self) -> Result<Rows, Fault>
        ensures { ReadsOffice (state S.Store self.old) (state S.Store self.new) result }
    {
        read_office(self.alloc, &mut self.conn)
    }

    /// Returns the allocator used for everything that is read.
    pub(crate) fn allocator(&self) -> Global {
        self.alloc
    }

    /// Returns the connection, unchanged.
    pub fn into_connection(self) -> Connection<S>
        ensures { result ≡ self }
    {
        let Store { conn, alloc: _ } = self;
        conn
    }
}
