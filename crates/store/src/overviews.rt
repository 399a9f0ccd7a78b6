//! Overviews for the office only, read from the tables: its wards; the batches of a ward, and their papers as counted;
//! its doubtful papers; where the keyings of a batch differ; and the receipts.

pub mod batches;
pub mod clerks;
pub mod differences;
pub mod doubtful;
mod known;
mod known_wards;
pub mod papers;
mod piles;
mod receipts;
mod twins;
pub mod wards;
