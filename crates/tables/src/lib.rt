//! The tables of an office in an `sqlite` store, and the statements that work on any of them.
//!
//! `Table` names the tables. Each statement is a function that makes one call, and is proved once for any table.
//! `insertion` adds a row; `replacement` and `removal` change the row with a given key. `reading` reads all rows, those
//! with a given key prefix, or those with a given value in another column; `rowid_ranges` reads adjacent rows. `making`
//! creates all tables, or only those that an older office lacks, and `presence` looks for them by name. Their contracts
//! state what the tables contain afterwards and what a stop may leave of them.
//!
//! An `impl` of `Entries` defines what the rows of a table represent; `listing`, `finding` and `writing` are the same
//! statements for entries, and `walking` passes entries on one at a time, without holding them all. A new table needs
//! only an `impl`. A `Fault` says why a call failed.
//!
//! ```text
//! add_entry::<Wards, S>(alloc, &mut tx, &ward)?;
//! let ward = find_entry::<Wards, S>(&mut conn, &[number(7)])?;
//! let batches = entries_referring::<Batches, S>(alloc, &mut conn, Reference::WardOfBatch, number(7))?;
//! ```
#![tactic(auto)]

pub mod fault;
pub mod table;
// Statements on rows.
mod execution;
pub mod insertion;
pub mod making;
pub mod order;
pub mod presence;
pub mod reading;
pub mod removal;
pub mod replacement;
pub mod rowid_ranges;
pub mod rowids;
pub mod texts;
pub mod value_conversion;
// Statements on entries.
pub mod entry;
pub mod finding;
pub mod listing;
pub mod walking;
pub mod writing;

pub use entry::Entries;
pub use fault::Fault;
pub use table::{Reference, SettableColumn, Table};
