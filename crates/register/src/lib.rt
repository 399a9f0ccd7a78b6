//! The abstract machine of the office: how each request changes its state.
//!
//! A request consists of an actor, an id and a `Command`. The machine decides a request based on a `View`: the receipt, and
//! the part of the state that the request needs. The result is a `Decision`: the request is accepted, with a `Change` and a
//! reply; kept, because it was accepted earlier with the same id; or refused, for one specific reason. Nothing here accesses
//! a store.
//!
//! ```text
//! let decision = decide(alloc, &view, &command)?;
//! ```
//!
//! `specs/Machine.antt` defines the machine itself, on the maps defined in `specs/Offices.antt`. Each subject has its own
//! file, both here and in `specs/`, with the part of the state that its commands need, and with their objections, subjects,
//! replies and effects. The machine only dispatches on the subject.
#![tactic(auto)]

// Input.
pub mod command;
// State.
pub mod phase;
pub mod receipt;
// What the machine sees of the state.
pub mod view;
// What the machine decides.
pub mod decision;
pub mod refusal;
// Ranges of numbers and texts.
pub mod ranges;
// How marks are read, and when a batch counts as taken.
pub mod agreement;
pub mod marks;
// The progress of a ward, its poll, and what its count depends on.
pub mod elections;
pub mod next_steps;
pub mod polls;
pub mod status;
// What is stored about the counts, and what a stage adds to that.
mod additions;
pub mod tabulations;
// Lists of numbers as text.
mod texts;
// The commands, by subject.
pub mod batches;
pub mod candidates;
pub mod counts;
pub mod keyings;
pub mod verdicts;
pub mod wards;
// Comparing a repeated request with what is stored about the original one.
pub mod repeats;
// The machine, which dispatches on the subject.
mod machine;

pub use batches::{Batch, BatchCommand, ThirdClerk};
pub use candidates::{Candidate, CandidateCommand};
pub use command::{Command, Request};
pub use counts::{CountCommand, DrawnLot};
pub use decision::{Change, Decision, Effect, Reply};
pub use elections::{Count, CountedWard, Election, WardSheet};
pub use keyings::{KeyedPaper, KeyingCommand};
pub use machine::{decide, lists_make_states, paper_is_seen, rows_are_worked, work_is_seen};
pub use next_steps::NextStep;
pub use phase::Phase;
pub use polls::{Ballots, Judgement, KeepsPapers, NoPapers, PollTally};
pub use receipt::Receipt;
pub use refusal::{Reason, Refusal};
pub use status::{BallotPaper, Status, Work};
pub use tabulations::{Addition, PlacedBundle, StageFigure, Tabulation};
pub use verdicts::{JudgedPaper, Verdict, VerdictCommand};
pub use view::{CommandInput, View};
pub use wards::{Ward, WardCommand};
