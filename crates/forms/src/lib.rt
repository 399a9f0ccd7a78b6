//! The forms of an election evening, each of which is a page to print, black on white, on A4.
//!
//! [`covers_page`] has a cover for each batch, [`slips_page`] a slip for each clerk, [`verdicts_page`] the doubtful papers of a ward,
//! [`lot_page`] a lot, and [`declaration_page`] the wording of a declaration. Names are escaped, so they are never treated as markup,
//! and isolated, so their writing direction doesn't affect the surrounding text. This crate knows nothing about offices.
//!
//! ```text
//! covers_page(alloc, &[Cover { batch: 12, ward: 7, size: 50, first_clerk: 4, second_clerk: 9 }])
//! ```
#![tactic(auto)]

mod blocks;
mod candidates;
mod covers;
mod declarations;
mod escaping;
mod lots;
mod page;
mod slips;
mod verdicts;

pub use candidates::NamedCandidate;
pub use covers::{Cover, covers_page};
pub use declarations::declaration_page;
pub use lots::{LotPurpose, lot_page};
pub use slips::{Slip, slips_page};
pub use verdicts::{DoubtfulRow, verdicts_page};
