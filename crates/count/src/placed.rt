//! The place of a bundle's papers.

use votes::Votes;

/// The place of the papers of one list of preferences after given stages: all have one holder and one value.
#[derive(Clone, Copy, PartialEq, Eq)]
pub struct Placed {
    /// The holder: a candidate's number, or 0 for no one.
    pub holder: u8,
    /// The value of each of them, at most one vote ("Transfer values").
    pub value: Votes,
}
