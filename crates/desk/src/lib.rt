//! The desk of the office: parses the words of an order, performs it, prints the outcome, and returns an exit status.
//!
//! [`order`](words) parses command-line words into an [`Order`](orders). [`perform`](perform) performs its task on an open
//! connection to any `sqlite` store and prints the resulting lines; [`plain`] does the same with a single file that is already
//! open. A [`Folder`](folders) opens the files that the order or its script names. [`lines`](lines) prints what is wrong with words
//! that aren't an order, and other failures. [`copy_office`](copying) performs an order to copy the office, and
//! [`journal_office`](journal_check) an order to print its journal, each on two connections; an order to serve is performed by
//! the program. In an office that is already open, such as one that is being served, [`follow`](order_running) does a job,
//! and `copy_open` and `journal_open` copy the office and print its journal. There [`mend_open`](mended_office) makes another
//! office from that journal, with some orders left out and others replaced, and [`second_open`](second_record) compares the office
//! with a second record of it. [`publish_open`](publishing) publishes its results in a folder. [`files_named_in`](script_files) returns the paths of the files that a script names, for a client
//! that sends them along with it. Which files, outputs and sockets these are is up to the program.
//!
//! ```text
//! match order(alloc, words) {
//!     Ok(Order::Perform(task)) => perform(alloc, &task, conn, folder, out, err),    // the status and the connection
//!     Ok(
//!         Order::Serve { .. }
//!         | Order::Copy { .. }
//!         | Order::Journal
//!         | Order::Second { .. }
//!         | Order::Mend(_)
//!         | Order::Publish(_)
//!         | Order::Codes { .. }
//!         | Order::Slips { .. },
//!     ) => ..,
//!     Err(fault) => tell_words(&fault, out, err),
//! }
//! ```
#![tactic(auto)]

// From words to an order.
mod matched_words;
mod order_commands;
mod order_entry;
mod order_meanings;
mod order_table;
pub mod orders;
mod verdicts;
pub mod version;
pub mod words;
// From a script to orders.
pub mod folders;
mod lexer;
pub mod script_files;
mod scripts;
// From an order to requests,
mod requests;
// and from requests to lines and a status.
mod candidate_names;
mod codes_lines;
pub mod copying;
mod counting;
mod fields;
mod import;
mod journal;
pub mod journal_check;
pub mod lines;
pub mod mended_office;
pub mod order_running;
mod overviews;
mod papers;
pub mod perform;
pub mod plain;
mod printing;
pub mod progress;
pub mod publishing;
pub mod record;
mod request_lines;
mod same_requests;
pub mod script_record;
mod sealing;
pub mod second_record;
mod sending;
pub mod slips;
mod steps;
mod ward_forms;
mod ward_status;

pub use copying::{CopyState, copy_office, copy_open};
pub use folders::Folder;
pub use journal_check::{journal_office, journal_open};
pub use lines::{
    Failure, tell_codes_and_office_made, tell_codes_fault, tell_codes_made, tell_failure,
    tell_slips, tell_words,
};
pub use mended_office::{MendTrial, mend_open};
pub use order_running::{follow, follow_recorded};
pub use orders::{
    Errand, ExpectedSeal, Form, Job, KeyingFile, MendOrder, Order, PublishOrder, Question,
    ReplayOrder, Task,
};
pub use progress::ProgressSink;
pub use publishing::{FolderFault, PublicFolder, publish_open};
pub use record::{NoRecord, Recorder};
pub use script_files::files_named_in;
pub use script_record::{DurableSink, RecordFault, ScriptRecord};
pub use second_record::{SecondTrial, second_open};
pub use slips::slips_of;
pub use words::{WordsFault, order};
