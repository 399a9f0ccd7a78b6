//! Ballot papers: what a clerk keyed from a paper, its preferences, and whether it is valid.
//!
//! [`Marks::read`] parses the text of a [`Keyed`] paper, or returns the exact [`MarkFault`]; [`Keyed::text`] converts the paper
//! back to text. [`judge`] returns the preferences of a [`Marked`] paper, or the reason for its rejection. [`Columns`] is a set of
//! candidate numbers, iterated in ascending order. A [`Standing`] maps each number to a [`CandidateStatus`], which
//! [`next_available`] uses to skip preferences.
//!
//! ```text
//! let columns = Columns::empty().with(1).with(2).with(3);
//! if let Keyed::Marked(marked) = Marks::read(b"2,1,3", columns)? {
//!     let prefs = judge(&marked)?;                        // 2, 1, 3
//!     next_available(prefs.as_slice(), 1, &standing);     // Some(1), if 1 continues
//! }
//! ```
#![tactic(auto)]

// candidate numbers, in sets and in arrays
mod columns;
mod padded;
// what a clerk keyed, and its text
mod marked;
mod marks;
// the preferences of a paper, or the reason for its rejection
mod prefs;
mod validity;
// the status of each candidate, and the next available preference
mod standing;
// numbers written as digits, as they appear in files and paths
mod digits;

pub use columns::{Columns, MAX_CANDIDATES};
pub use digits::{are_digits, plain_number_in};
pub use marked::{Keyed, Marked};
pub use marks::{MarkFault, Marks};
pub use prefs::Prefs;
pub use standing::{CandidateStatus, Standing, available_from, next_available};
pub use validity::{Rejection, judge};
