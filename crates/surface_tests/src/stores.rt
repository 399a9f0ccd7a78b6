//! The functions of `store`: creating, opening, reading and committing.

use count::Bundles;
use paper::Prefs;
use register::{Ballots, Change, Command, Count, View};
use sqlite::{Alter, Connection};
use std::alloc::Global;
use store::{Fault, Store};

fn create<S: Alter>(
    alloc: Global,
    conn: Connection<S>,
) -> Result<Store<S>, (Fault, Connection<S>)> {
    Store::create(alloc, conn)
}

fn open_from<S: Alter>(
    alloc: Global,
    conn: Connection<S>,
) -> Result<Store<S>, (Fault, Connection<S>)> {
    Store::open_from(alloc, conn)
}

fn load_view<'a, S: Alter>(
    store: &mut Store<S>,
    actor: u32,
    id: &'a str,
    command: &Command,
) -> Result<View<'a>, Fault> {
    store.load_view(actor, id, command)
}

fn load_papers<S: Alter>(store: &mut Store<S>, ward: u32) -> Result<Ballots<Vec<Prefs>>, Fault> {
    store.load_papers(ward)
}

fn load_bundles<S: Alter>(store: &mut Store<S>, ward: u32) -> Result<Ballots<Bundles>, Fault> {
    store.load_bundles(ward)
}

fn load_lots<S: Alter>(store: &mut Store<S>, ward: u32) -> Result<Vec<(u8, u8)>, Fault> {
    store.load_lots(ward)
}

fn load_book<S: Alter>(store: &mut Store<S>, ward: u32) -> Result<Option<Count>, Fault> {
    store.load_book(ward)
}

fn commit<S: Alter>(store: &mut Store<S>, change: &Change) -> Result<(), Fault> {
    store.commit(change)
}

fn number_of(fault: &Fault) -> u32 {
    fault.number()
}
