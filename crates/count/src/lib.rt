//! The Order's count by the single transferable vote, stage by stage.
//!
//! A [`CountBook`] is a count in progress: the completed stages, what is [`Due`], and [`CountBook::advance`], which adds the one
//! stage that is due. [`ParcelBook`] stores the papers in parcels, as a teller does. [`BundleBook`] stores equal papers in
//! [`Bundles`], each [`Placed`] with one holder, and can resume another count in bundles. [`StoredCount`] resumes a stored count
//! one stage at a time, wherever it was read from. [`run_count`] counts to the end with the recorded lots, and [`count_to`] counts
//! a given number of stages. [`due_by`] and [`dues_to`] return what is due, given those lots.
//!
//! ```text
//! if can_be_counted(&candidates, seats, &papers) {
//!     let mut book = ParcelBook::new(alloc, candidates, seats, &papers)?;
//!     let end = run_count(&mut book, &lots)?;      // finished, or a lot is needed
//!     for stage in book.stages() { .. }            // each with votes, elected and sums
//! }
//! ```
#![tactic(auto)]

// the terms of a count, and its stages
mod bundles;
mod contest;
mod stages;
mod terms;
// the Order's rules for stages: who is elected, who is tied, what is due
mod due;
mod elected;
mod ties;
// a count in progress, a count to the end, and a count to a stage
mod book;
mod count_to_end;
mod so_far;
// papers in parcels, and how papers are passed on
mod moving;
mod parcel;
mod sorting_papers;
// the figures that a stage records for parcels
mod parcel_figures;
mod stage_adding;
// the book that stores parcels
mod parcel_act;
mod parcel_book;
// bundles of equal papers, their places and worth, and the book that stores them
mod bundle_act;
mod bundle_book;
mod bundle_figures;
mod placed;
mod places;
// the figures that a stage shows
mod figures;
// a count that resumes from stored data
mod stored_count;

pub use book::{AdvanceError, CountBook};
pub use bundle_book::{BundleBook, bundles_count_alike};
pub use bundles::Bundles;
pub use contest::{bundles_can_be_counted, can_be_counted};
pub use count_to_end::{CountEnd, run_count};
pub use figures::{FRACTIONS, Figure, NO_CANDIDATE, figures_of, stages_of_figures};
pub use parcel_book::ParcelBook;
pub use placed::Placed;
pub use so_far::{count_to, due_by, dues_to};
pub use stages::{Action, Due, Stage, TiedFor};
pub use stored_count::{NextStage, StoredCount};
/// The original name of [`TiedFor`].
pub use stages::TiedFor as Kind;
