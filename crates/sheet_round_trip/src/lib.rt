//! The laws of an office's own texts and folders. Anyone who checks a stage sheet and a declaration printed by the office, using only
//! the ballots of the ward, finds them confirmed. So does anyone who checks a folder in which the office published its results with
//! the ballots.
//!
//! `office` and `checker` are independent of each other; their definitions meet here. The laws, [`own_texts_are_confirmed`] and
//! [`own_folders_are_confirmed`], are all there is to call, and no program depends on this crate.
#![tactic(auto)]

mod laws;

pub use laws::{own_folders_are_confirmed, own_texts_are_confirmed};
