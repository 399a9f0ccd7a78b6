//! The printed texts of a ward: stage sheets, declarations, ballots, pages, tables and results as JSON; and an index page of all
//! wards.
//!
//! A [`Ward`] holds the data that they show, with its [`Poll`] if it is contested. [`write_sheet`], [`write_declaration`],
//! [`write_ballots`] and [`write_page`] write them to a sink, and allocate nothing. [`sheet_text`] and similar functions return
//! them as strings, [`spreadsheet_text`] returns the table, and [`results_text`] the JSON. [`can_be_printed`] checks the requirement
//! that all of them share. [`write_index`] writes the page of all wards, each a [`ListedWard`].
//!
//! ```text
//! let ward = Ward { number: 7, name: "Harbour", seats: 2, candidates: &candidates, poll: Some(poll) };
//! if can_be_printed(&ward) {
//!     write_sheet(&mut Counted::new(&mut page), &ward, book.stages())?;
//! }
//! ```
#![tactic(auto)]

mod ballots;
mod cells;
mod chart;
mod declaration;
mod each_candidate;
mod elected;
mod escaping;
mod fitness;
mod heading_lines;
mod index;
mod line;
mod look;
mod lots;
mod page;
mod results;
mod settled_ties;
mod sheets;
mod spreadsheet;
mod stage;
mod surplus_lines;
mod surpluses;
mod table;
mod texts;
mod ward;

pub use ballots::write_ballots;
pub use declaration::write_declaration;
pub use fitness::can_be_printed;
pub use index::{ListedWard, WardStanding, write_index};
pub use lots::ties_are_of_the_count;
pub use page::{CountShown, write_page};
pub use results::results_text;
pub use settled_ties::settled_ties_are_of_the_count;
pub use sheets::write_sheet;
pub use spreadsheet::spreadsheet_text;
pub use surpluses::{PassedOn, surpluses_of};
pub use texts::{ballots_text, declaration_text, index_text, page_text, sheet_text};
pub use ward::{Poll, Ward};
