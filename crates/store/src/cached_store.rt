//! A store with a cache: what an open office keeps in memory about its batches.
//!
//! The invariant: while the connection is open, every entry of the cache is correct in the state that the store keeps.
//! Each change leads from one state to the next, so the invariant needs an initial state. The contract for opening an
//! office ensures that there is one if the tables with our names are ours. The invariant doesn't rely on that premise:
//! there is a cache only if the database's schema was found to be exactly that of an office (`schemas`). Otherwise, and
//! after `create`, everything is read from the tables.
//!
//! A read leaves the cache as it is, or refreshes it (`overviews::known`). Before a change is stored, every entry that
//! it may change is removed (`batch_cache::forget`). If a change fails, the cache is dropped.
//!
//! Callers see none of this: in contracts a `CachedStore` is its connection, and each function has the same clauses as
//! the function of that name in `Store`.

ghost use Rattle.std.specs.Prelude.{◌≡◌, ◌⊎◌, [], true, false, None, Err, IfOk, IfErr, IfSome, OnOk, IsTrue, MatchOption};
ghost use Rattle.std.specs.Option.{IsSomeAnd};
ghost use Rattle.sqlite.specs.Tree.{Trees};
ghost use Rattle.sqlite.specs.Effect.{Database};
ghost use Rattle.sqlite.specs.State.{HasCleanDisk};
ghost use Rattle.sqlite.specs.Held.{state};
ghost use Rattle.register.specs.Offices.{OfficeState, ReceiptEntry, empty_office};
ghost use Rattle.register.specs.StateConditions.{IsState};
ghost use Rattle.register.specs.Effects.{change_entry, effect_entry, with_change};
ghost use Rattle.register.specs.Tabulated.{IsTabulated};
ghost use Rattle.register.specs.Views.{IsViewOf};
ghost use Rattle.tables.specs.Contents.{SameContents, Stores, RestsAt};
ghost use Rattle.tables.specs.Presence.{has_some_table, has_every_table, IsOurs};
ghost use Rattle.tables.specs.Reading.{OnlyReads, FailsToList, FailsBy};
ghost use Rattle.store.specs.Copies.{CopiesTo};
ghost use Rattle.store.specs.Loads.{IsOpen};
ghost use Rattle.store.specs.Memories.{AreKnown, IsTied};
ghost use Rattle.store.specs.StateTables.{tables_of, HoldsState, IsAt, LeavesState, KeepsConnection};
ghost use Rattle.store.specs.Openings.{IsBlank, IsFaultOf, IsLeftAt};
ghost use Rattle.store.specs.Whole.{ReadsOffice};

use crate::batch_cache::{CachedBatch, forget};
use crate::copying::{CopyFault, OfficeCounts};
use crate::schemas::may_be_remembered;
use crate::storage::Store;
use register::{Change, Command, Effect, View};
use rowcheck::Rows;
use sqlite::{Alter, Connection};
use std::alloc::Global;
use std::marker::Model;
use tables::Fault;

mod reads;

/// A store, and a cache of its batches. Contracts see it as the store's connection.
pub struct CachedStore<S: Alter> {
    store: Store<S>,
    cache: Option<Vec<CachedBatch>>,
}

impl<S: Alter> Model for CachedStore<S> {
    ghost use Rattle.sqlite.specs.Held.{Held, held_code, state};

    ghost Value = { Held S };

    ghost coded = { held_code S.code };

    ghost use Rattle.store.specs.Memories.{IsTied};

    ghost view = { λ k. k.store };

    ghost invariant = { λ k. IsTied (state S.Store k.store) k.cache };
}

/// Removes from the cache, if there is one, everything that the effect may change.
fn forget_in(memory: &mut Option<Vec<CachedBatch>>, effect: &Effect)
    ensures { MatchOption memory.old (memory.new ≡ None) (λ old. IsSomeAnd memory.new (λ new. (s : OfficeState) (r : ReceiptEntry) → AreKnown s old.items
        → AreKnown (with_change (record { effect = effect_entry effect.now; receipt = r }) s) new.items)) }
{
    match memory {
        Some(known) => forget(known, effect),
        None => {}
    }
}

/// Returns an empty cache if `remembers` is true.
fn new_cache(alloc: Global, remembers: bool) -> Option<Vec<CachedBatch>>
    ensures { IfSome result (λ known. (remembers ≡ true) × (known.items ≡ [])) }
{
    if remembers {
        Some(Vec::new(alloc))
    } else {
        None
    }
}

/// Refreshes the cache, if there is one. If a row can't be read, the cache stays as it was: whatever isn't in it is
/// read when needed.
fn refresh_cache<S: Alter>(store: &mut Store<S>, cache: &mut Option<Vec<CachedBatch>>)
    ensures reads { OnlyReads (state S.Store store.old) (state S.Store store.new) }
    ensures keeps { HasCleanDisk (state S.Store store.new) → (s : OfficeState) → IsAt s (state S.Store store.old) → IsAt s (state S.Store store.new) }
    ensures tied { IsTied (state S.Store store.old) cache.old → IsTied (state S.Store store.new) cache.new }
{
    match cache {
        Some(known) => {
            let _refreshed = store.refresh(known);
        }
        None => {}
    }
}

impl<S: Alter> CachedStore<S> {
    /// Creates the tables of an empty office, as `Store::create` does. Nothing is cached.
    pub fn create(alloc: Global, conn: Connection<S>) -> Result<Self, (Fault, Connection<S>)>
        ensures made { IfOk result (λ cached_store. HasCleanDisk (state S.Store cached_store) → IsBlank (state S.Store conn) → IsAt empty_office (state S.Store cached_store)) }
        ensures stops { IfErr result (λ e. HasCleanDisk (state S.Store e.1) → IsBlank (state S.Store conn)
            → (trees : Trees) → (state S.Store e.1).may_leave trees → (state S.Store conn).may_leave trees ⊎ Stores (tables_of empty_office) trees) }
        ensures keeps_connection { IfOk result (λ cached_store. KeepsConnection (state S.Store conn) (state S.Store cached_store)) }
        ensures connection_too { IfErr result (λ e. KeepsConnection (state S.Store conn) (state S.Store e.1)) }
        ensures whole { IfOk result (λ cached_store. has_every_table (state S.Store cached_store).now.schema ≡ true) }
        ensures taken { has_some_table (state S.Store conn).now.schema ≡ true → OnOk result ⊥ }
        ensures wrong { has_some_table (state S.Store conn).now.schema ≡ true → conn.in_transaction ≡ false → IfErr result (λ e. e.0 ≡ Fault.WrongDatabase) }
        ensures inside { conn.in_transaction ≡ true → result ≡ Err (Fault.Store, conn) }
        ensures told { IfErr result (λ e. (e.0 ≡ Fault.Memory) ⊎ ((e.0 ≡ Fault.Store) ⊎ ((e.0 ≡ Fault.WrongDatabase) × (has_some_table (state S.Store conn).now.schema ≡ true) × (e.1 ≡ conn)))) }
    {
        match Store::create(alloc, conn) {
            Ok(store) => Ok(CachedStore { store, cache: None }),
            Err(handed_back) => Err(handed_back),
        }
    }

    /// Opens the office in the connection's database, as `Store::open_from` does. If the database has exactly the
    /// tables of an office, the overview of each batch is read into the cache.
    pub fn open_from(alloc: Global, conn: Connection<S>) -> Result<Self, (Fault, Connection<S>)>
        ensures opened { IfOk result (λ cached_store. HasCleanDisk (state S.Store cached_store) → (db : Database) → IsOurs db.schema → RestsAt db (state S.Store conn)
            → (s : OfficeState) × HoldsState db s × IsAt s (state S.Store cached_store)) }
        ensures told { IfErr result (λ e. HasCleanDisk (state S.Store e.1) → (db : Database) → IsOurs db.schema → RestsAt db (state S.Store conn) → IsFaultOf db e.0) }
        ensures reopens { IfOk result (λ cached_store. HasCleanDisk (state S.Store cached_store) → (db : Database) → RestsAt db (state S.Store conn)
            → (s : OfficeState) → IsLeftAt s db → IsAt s (state S.Store cached_store)) }
        ensures refuses { IfErr result (λ e. HasCleanDisk (state S.Store e.1) → (db : Database) → RestsAt db (state S.Store conn)
            → (s : OfficeState) → IsLeftAt s db → (e.0 ≡ Fault.Memory) ⊎ (e.0 ≡ Fault.Store)) }
        ensures fails { IfErr result (λ e. HasCleanDisk (state S.Store e.1) → (db : Database) → IsOurs db.schema → RestsAt db (state S.Store conn)
            → FailsToList db (state S.Store conn) (state S.Store e.1) e.0) }
        ensures cause { IfErr result (λ e. HasCleanDisk (state S.Store e.1) → (db : Database) → RestsAt db (state S.Store conn) → (s : OfficeState) → IsLeftAt s db
            → FailsBy (state S.Store conn) (state S.Store e.1) e.0) }
        ensures reads { IfOk result (λ cached_store. OnlyReads (state S.Store conn) (state S.Store cached_store)) }
        ensures reads_too { IfErr result (λ e. OnlyReads (state S.Store conn) (state S.Store e.1)) }
        ensures inside { conn.in_transaction ≡ true → result ≡ Err (Fault.Store, conn) }
        ensures alone { (db : Database) → (s t : OfficeState) → HoldsState db s → HoldsState db t → s ≡ t }
        ensures equal { (s t : OfficeState) → IsState s → IsState t → SameContents (tables_of s) (tables_of t) → s ≡ t }
    {
        let remembers = may_be_remembered(alloc, &conn);
        match Store::open_from(alloc, conn) {
            Ok(store) => {
                let mut store = store;
                let mut cache = new_cache(alloc, remembers);
                refresh_cache(&mut store, &mut cache);
                Ok(CachedStore { store, cache })
            }
            Err(handed_back) => Err(handed_back),
        }
    }

    /// Returns what the machine sees of the state for one request, just as `Store::load_view` does.
    pub fn load_view<'a>(
        &mut self,
        actor: u32,
        id: &'a str,
        command: &Command,
    ) -> Result<View<'a>, Fault>
        ensures shows { HasCleanDisk (state S.Store self.new) → (s : OfficeState) → IsAt s (state S.Store self.old) → IfOk result (IsViewOf s command.now) }
        ensures asked { IfOk result (λ view. (view.actor ≡ actor) × (view.id.now ≡ id.now)) }
        ensures cause { HasCleanDisk (state S.Store self.new) → (s : OfficeState) → IsAt s (state S.Store self.old) → IfErr result (FailsBy (state S.Store self.old) (state S.Store self.new)) }
        ensures opens { HasCleanDisk (state S.Store self.new) → OnOk result (IsTrue (state S.Store self.new).is_open) }
        ensures reads { OnlyReads (state S.Store self.old) (state S.Store self.new) }
        ensures keeps { HasCleanDisk (state S.Store self.new) → (s : OfficeState) → IsAt s (state S.Store self.old) → IsAt s (state S.Store self.new) }
        ensures kept { HasCleanDisk (state S.Store self.new) → IsTrue (state S.Store self.new).is_open → (s : OfficeState) → IsAt s (state S.Store self.new) → IsAt s (state S.Store self.old) }
    {
        self.store.open_store_rests();
        self.store.load_view(actor, id, command)
    }

    /// Writes a change in one transaction, as `Store::commit` does, and removes from the cache what the change may
    /// affect. The change must lead from the state that the store keeps to another state.
    pub fn commit(&mut self, change: &Change) -> Result<(), Fault>
        requires opened { IsOpen S.Store self.old }
        requires leads { HasCleanDisk (state S.Store self.old) → IsTrue (state S.Store self.old).is_open → (s : OfficeState) → IsAt s (state S.Store self.old)
            → IsTabulated s change.now × IsState (with_change (change_entry change.now) s) }
        ensures done { HasCleanDisk (state S.Store self.new) → IsTrue (state S.Store self.old).is_open → (s : OfficeState) → IsAt s (state S.Store self.old)
            → IsTabulated s change.now → IsState (with_change (change_entry change.now) s) → OnOk result (IsAt (with_change (change_entry change.now) s) (state S.Store self.new)) }
        ensures leaves { HasCleanDisk (state S.Store self.new) → IsTrue (state S.Store self.old).is_open → (s : OfficeState) → IsAt s (state S.Store self.old)
            → IsTabulated s change.now → IsState (with_change (change_entry change.now) s) → LeavesState (state S.Store self.new) (λ x. (x ≡ s) ⊎ (x ≡ with_change (change_entry change.now) s)) }
        ensures keeps_connection { KeepsConnection (state S.Store self.old) (state S.Store self.new) }
        ensures clean { HasCleanDisk (state S.Store self.new) → HasCleanDisk (state S.Store self.old) }
        ensures cause { IfErr result (λ f. (f ≡ Fault.Memory) ⊎ (f ≡ Fault.Store)) }
    {
        forget_in(&mut self.cache, &change.effect);
        match self.store.commit(change) {
            Ok(()) => Ok(()),
            Err(fault) => {
                self.cache = None;
                Err(fault)
            }
        }
    }

    /// Copies the office into another database, as `Store::copy_to` does.
    pub fn copy_to<T: Alter>(&mut self, copy: &mut Connection<T>) -> Result<OfficeCounts, CopyFault>
        ensures { CopiesTo S.Store T.Store self.old self.new copy.old copy.new result }
    {
        self.store.copy_to(copy)
    }

    /// Returns all entries of the office, as `Store::rows` does.
    pub fn rows(&mut self) -> Result<Rows, Fault>
        ensures { ReadsOffice (state S.Store self.old) (state S.Store self.new) result }
    {
        self.store.rows()
    }

    /// Returns the connection, unchanged.
    pub fn into_connection(self) -> Connection<S>
        ensures { result ≡ self }
    {
        let CachedStore { store, cache: _ } = self;
        store.into_connection()
    }
}
