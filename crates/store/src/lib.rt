//! The state of an office, stored in the tables of an `sqlite` database.
//!
//! `Store` holds a connection between two transactions. `create` makes the tables of an empty office, and `open_from`
//! finds the state that the rows of a database represent. `commit` stores a change in one transaction, entirely or not
//! at all. `load_view` reads the part of the state that one request needs. `load_status`, `load_next` and
//! `load_columns` read the status of a ward, its next step, and the columns of a batch's papers. `load_work` reads the
//! batches that a clerk keys, and `load_earlier_keying` reads the papers of a batch that the clerk keyed in an earlier
//! round. `load_sheet` and `load_counted` read the data from which a ward's sheet and declaration are written, and
//! `load_book` reads the ward's stored count. `load_wards`, `load_batches`, `load_doubtful`, `load_batch_papers`,
//! `load_differences` and `load_receipts` read the overviews. `load_differs_from_stored` compares a repeated request
//! with the data stored for it. `migrate` upgrades an office made by an earlier program to this version, and `copy`
//! copies an office into another database. `read_office` reads a whole office. `Store::copy_to` and `Store::rows` do
//! the same for an open office. A `Fault` says why a call failed.
//!
//! ```text
//! let mut store = Store::open_from(alloc, conn)?;
//! let view = store.load_view(actor, id, &command)?;
//! store.commit(&change)?;
//! ```
//!
//! The crate `tables` has the statements that work on any table; this crate defines the rows of a state.
#![tactic(auto)]

mod batch_cache;
mod cached_store;
mod clerk_work;
pub mod copying;
pub mod earlier_keyings;
mod entries;
mod listing;
pub mod migration;
pub mod older;
mod opening;
pub mod overviews;
mod repeats;
mod schemas;
mod status;
pub mod storage;
mod views;
pub mod whole;
mod writing;

pub use cached_store::CachedStore;
pub use copying::{CopyFault, OfficeCounts, copy};
pub use earlier_keyings::KeyedRound;
pub use migration::{Migrated, migrate};
pub use overviews::batches::{BatchOverview, BatchStanding};
pub use overviews::clerks::ClerkOverview;
pub use overviews::differences::{Differences, Shift};
pub use overviews::doubtful::{DoubtfulPaper, DoubtfulPapers};
pub use overviews::papers::{CountedPaper, CountedPapers, papers_told_are_counted};
pub use overviews::wards::{WardOverview, elected_in};
pub use rowcheck::Rows;
pub use storage::Store;
pub use tables::fault;
pub use tables::fault::Fault;
pub use whole::read_office;
