//! Import files of candidates, batches and keyings, each of which is either read completely or refused.
//!
//! [`read_candidates`] returns the [`CandidateRow`]s in a file, [`read_batches`] the [`BatchRow`]s, and [`read_keying`] the marks
//! text of each paper, in the form that the `paper` crate reads. A [`FileFault`] gives the first faulty record and its first
//! [`Flaw`]; the header is record 0. No row is returned before the whole file has been read. Each function can be given a
//! [`FileDigest`], and then returns no rows from a file with a different digest. [`plain`] contains versions for candidates and
//! keyings without these options.
//!
//! ```text
//! match read_keying(alloc, file, columns, 12, 4, None) {
//!     Ok(papers) => ..,                  // "1,2,", "D", ..
//!     Err(fault) => ..,                  // file fault 2 at record 2: record length
//! }
//! ```
#![tactic(auto)]

mod batches;
mod candidates;
mod digest;
mod fault;
mod fields;
mod format;
mod header;
mod keying;
pub mod plain;
mod records;
mod watched;

pub use batches::{BatchRow, read_batches};
pub use candidates::{CandidateRow, read_candidates};
pub use digest::FileDigest;
pub use fault::{FileFault, Flaw};
pub use keying::read_keying;
