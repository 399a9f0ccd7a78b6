//! Counts the ballots of a ward, and checks a stage sheet or a declaration against them: whether the text is exactly the result of
//! these ballots, rejected papers and lots. Needs nothing from an office.
//!
//! [`check`] reads the ballots, as printed by `ballots` or as written by other counting programs (BLT), counts them to the end with
//! the recorded lots, and compares. A [`Problem`] is the line of the ballots that isn't understood, or the lot that is missing.
//! [`count_ballots`] counts them the same way, and returns a [`CountText`] of the count. [`run`] executes the request in the
//! program's arguments: it reads the files through an [`InputFiles`], and prints the outcome to two outputs.
//!
//! ```text
//! match check(alloc, ballots, text)? {
//!     Checked::Sheet => ..,                         // the text is exactly the stage sheet of these ballots,
//!     Checked::Declaration => ..,                   // or exactly their declaration
//!     Checked::Differs { line, should_be } => ..,   // the first line that differs, and what it should be
//! }
//! ```
#![tactic(auto)]

// the outcome of a check
mod differences;
mod problem;
// splitting a text into lines and a line into words, and parsing words as numbers
mod numbers;
mod tokens;
// the content of a file so far, and what each line adds to it
mod comments;
mod file_content;
mod foreign_comments;
mod names;
mod papers;
mod ranks;
mod reading;
mod tally;
// the content of cast-vote records so far, and what each line adds to it
mod fields;
mod rank_fields;
mod ranked_paper;
mod records;
mod records_header;
mod records_ward;
// the ward in a file, its count with the lots, the texts of the count, and the comparison of a text with them
mod ballot_counts;
mod checking;
mod counting;
mod lot_lines;
mod lots;
mod reading_back;
mod wards;
// a published folder, made again from its ballots and compared
mod folder_checking;
mod folder_comparison;
mod folder_election;
mod folder_faults;
mod folder_files;
mod folder_index;
mod folder_texts;
mod folder_unmade;
mod folder_unsealed;
mod folder_wards;
// the program's request, and what it prints
mod arguments;
mod help;
mod hints;
mod input_files;
mod printing;
mod remedies;
mod report;
mod requests;
mod terminal_escaping;

pub use arguments::{ArgumentsFault, run};
pub use ballot_counts::{CountProblem, CountText, CountedText, count_ballots, count_records};
pub use checking::check;
pub use differences::Checked;
pub use folder_checking::{FolderChecked, check_folder};
pub use input_files::{InputFiles, NotRead};
pub use problem::{BallotsFlaw, Problem};
pub use reading_back::ballots_read_back;
pub use records_ward::RecordsWard;
