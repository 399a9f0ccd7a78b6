//! Checks whether rows form the state of an office.
//!
//! When an office is opened, its tables are read into `Rows`, and each function here returns whether the rows meet one of the
//! conditions. An office opens only if they meet all of them.
//!
//! Each condition is defined for a state in `register`'s `specs/StateConditions.antt`, for example `all_in_range`. The function
//! of the same name, `all_in_range(&rows)`, checks it for `state_of rows`. `all_counted` recounts the completed stages of each
//! count, once. If the counts are correct, it returns their tabulation; it returns `AllocError` if an allocation fails.
//! `is_tabulated` compares the rows of bundles and figures with that tabulation, one by one: they must be the tabulation of the
//! state (`IsTabulationOf`, in `specs/Tabulated.antt`). No list is searched once per row of another list. Lists in key order
//! are walked side by side, or the rows with the same key, which are adjacent, are found by bisection (`key_ranges`,
//! `finding`). There are two exceptions. All batches are scanned once per ward in count, of which there are at most 99. The
//! papers of a batch, of which there are at most 500, are scanned once per verdict on one of them.
//!
//! The conditions also have numbers, by which documents refer to them: `item1` to `item8`. Each function returns a `bool`;
//! `item7` and `item8` wrap it in a `Result`.
//!
//! `are_same` compares the rows of two offices, and `finding` returns the rows with a given key to callers that iterate over
//! the rows of an office.
#![tactic(auto)]

// Rows.
pub mod rows;
// Runs of rows, found by bisection.
mod key_ranges;
// Entries, also found by bisection.
pub mod finding;
// Comparing two offices.
mod sameness;
// The conditions, and what they read: the subjects of receipts, and the numbers in those subjects.
mod batches;
mod counts;
mod keyings;
mod nominations;
mod numbered_conditions;
mod plain;
mod polls;
mod ranges;
mod subjects;
mod tabulation;
mod verdicts;

pub use batches::all_given_out;
pub use counts::all_counted;
pub use keyings::all_keyed;
pub use nominations::all_nominated;
pub use polls::all_agreed;
pub use ranges::all_in_range;
pub use rows::Rows;
pub use sameness::are_same;
pub use tabulation::is_tabulated;
pub use verdicts::all_judged;

// The conditions by number.
pub use batches::all_given_out as item3;
pub use keyings::all_keyed as item4;
pub use nominations::all_nominated as item2;
pub use numbered_conditions::{item7, item8};
pub use polls::all_agreed as item6;
pub use ranges::all_in_range as item1;
pub use verdicts::all_judged as item5;
