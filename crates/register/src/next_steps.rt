//! The next step in the election of a ward.

use crate::candidates::Candidate;
use crate::status::Status;
use count::Due;

/// The next step in the election of a ward, depending on the ward's progress.
#[derive(Drop)]
pub enum NextStep {
    /// Nominations are open, and the next step is to close them. So far, there are this many candidates (0 to 30) for this
    /// many seats (1 to 15).
    Nominations {
        candidates: usize,
        seats: u32,
    },
    /// Papers are being keyed and judged, with this status. The ward can be sealed once every batch is taken and every
    /// doubtful paper is judged.
    Papers(Status),
    /// The ward is sealed, and this is due in its count: a stage, with this number (1 to 31); a lot, which includes the
    /// number of its stage; or nothing, as in an uncontested ward. The candidates are those of the ward, ordered by number.
    Count {
        stage: u32,
        due: Due,
        candidates: Vec<Candidate>,
    },
    /// The ward is declared.
    Nothing,
}
