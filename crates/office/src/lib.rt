//! The office: answers requests, and stores every accepted request before acknowledging it.
//!
//! `Office` is an office in any `sqlite` store. `create` creates an empty office, and `open_from` opens an existing
//! one. `migrate` brings an office created by an earlier version of the program up to this version, `copy` copies an
//! office into another database, and `rows` reads all entries of an office. `copy_open` and `rows_open` do the same for
//! an open office, which stays open. `leads_to` returns whether requests lead from an empty office to the given
//! entries. `handle` answers one request, and `run` a list of requests. `status`, `next_step`, `columns`, `work`,
//! `paper`, `earlier_keying`, `sheet`, `result`, `text` and `index` read the state and change nothing. So do `wards`,
//! `batches`, `doubtful`, `differences`, `papers` and `receipts`, which are for the office alone. `differs_from_stored`
//! returns whether the stored content of a repeated request differs from the request. A fault inside a transaction
//! closes the office. It then returns fault 104 until it is reopened, either in the state before the request or in the
//! one after it.
//!
//! ```text
//! let mut office = Office::open_from(alloc, conn)?;
//! match office.handle(0, "w1", &command)? {
//!     Answer::Done(reply) => ..,      // accepted, and stored
//!     Answer::Kept(reply) => ..,      // accepted before, under the same id
//!     Answer::Refused(why) => ..,     // nothing changed
//! }
//! ```
#![tactic(auto)]

pub mod answers;
mod copying;
mod deciding;
mod migration;
pub mod open_office;
mod replaying;
// Reading the state.
mod earlier_keyings;
mod index;
mod overviews;
mod reads;
mod sheets;

pub use answers::{Answer, ReadError, RunOutcome};
/// The original name of [`ReadError`].
pub use answers::ReadError as Stop;
/// The original name of [`RunOutcome`].
pub use answers::RunOutcome as Run;
pub use open_office::Office;
pub use register::{BallotPaper, NextStep, Receipt, Status, Work};
pub use sheets::{WardText, texts_are_there};
pub use store::{CopyFault, KeyedRound, Migrated, OfficeCounts, Rows};
