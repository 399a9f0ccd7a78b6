//! The status of a ward's election, a clerk's work, and the text of the papers to be keyed.

use crate::candidates::Candidate;
use crate::phase::Phase;
use crate::wards::Ward;
use paper::Columns;

/// The status of a ward's election: the ward (1 to 99), its phase, its number of candidates, its number of batches, and how
/// many stages of its count are done. A batch counts as taken if two keyings in its current round are equal, and as
/// differing if there are at least two keyings and no two of them are equal. A doubtful paper in a taken batch counts as
/// open until it has a verdict.
#[derive(Clone, Copy, PartialEq, Eq)]
pub struct Status {
    pub ward: u32,
    pub phase: Phase,
    pub candidates: usize,
    pub batches: usize,
    pub taken: usize,
    pub differing: usize,
    pub doubtful_open: usize,
    pub stages: u32,
}

/// A batch (1 to 9999) assigned to a clerk, with its ward (1 to 99), the columns and the number (1 to 500) of its papers,
/// and its current round (1 to 99). Also records whether the clerk has keyed it in that round.
#[derive(Clone, Copy, PartialEq, Eq)]
pub struct Work {
    pub batch: u32,
    pub ward: u32,
    pub columns: Columns,
    pub size: u32,
    pub round: u32,
    pub keyed: bool,
}

/// The text of a ballot paper: the ward, and its candidates, ordered by number.
#[derive(Drop)]
pub struct BallotPaper {
    pub ward: Ward,
    pub candidates: Vec<Candidate>,
}
