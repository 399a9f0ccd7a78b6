//! Numbers of votes, exact to a hundred-thousandth of a vote.
//!
//! [`Votes`] is a number of units; one vote is [`ONE_VOTE`] units. [`quota`] and [`transfer_value`] are the two divisions in
//! a count by the single transferable vote. Both round down, and their clauses state exactly how. Votes are written as text
//! to a [`Sink`] from `streams`, whose types are re-exported here under their original names.
//!
//! ```text
//! let quota = quota(9, 2);                                    // prints 4.00000
//! let surplus = Votes::from_units(200000);
//! let value = transfer_value(surplus, Votes::from_units(100000), Votes::from_units(600000));
//! value.write(&mut Counted::new(&mut page))?;                 // writes 0.33333
//! ```
#![tactic(auto)]

// votes
mod units;

pub use streams::{Broken, Counted, Sink, Source};
pub use units::{MAX_PAPERS, MAX_SEATS, ONE_VOTE, Votes, quota, transfer_value};
