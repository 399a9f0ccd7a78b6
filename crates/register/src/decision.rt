//! What the machine decides.

use crate::batches::{Batch, ThirdClerk};
use crate::candidates::Candidate;
use crate::counts::DrawnLot;
use crate::keyings::KeyedPaper;
use crate::phase::Phase;
use crate::receipt::Receipt;
use crate::refusal::Refusal;
use crate::tabulations::Addition;
use crate::verdicts::JudgedPaper;
use crate::wards::Ward;

/// A line of text, without its newline.
pub type Reply = String;

/// What an accepted command does to the state, apart from the receipt.
#[derive(Drop)]
pub enum Effect {
    /// Adds this ward.
    WardAdded(Ward),
    /// Moves the ward with this number to this phase.
    WardMoved { ward: u32, phase: Phase },
    /// Adds this candidate.
    CandidateAdded(Candidate),
    /// Removes the candidate with this number from this ward. The number can then be used again.
    CandidateWithdrawn { ward: u32, candidate: u32 },
    /// Adds this batch.
    BatchAdded(Batch),
    /// Opens this round of the batch with this number.
    BatchReopened { batch: u32, round: u32 },
    /// Assigns this third clerk.
    ThirdSet(ThirdClerk),
    /// Adds these keyed papers, all from a single keying.
    PapersKeyed(Vec<KeyedPaper>),
    /// Adds this verdict on a paper.
    PaperJudged(JudgedPaper),
    /// Sets the number of completed stages in the count of this ward.
    StageCounted { ward: u32, done: u32 },
    /// Adds this lot.
    LotDrawn(DrawnLot),
}

/// Everything that an accepted request changes. It is stored either in full or not at all.
#[derive(Drop)]
pub struct Change {
    pub effect: Effect,
    /// What the request adds to the tabulation of the counts: nothing, unless it counts a stage.
    pub addition: Addition,
    pub receipt: Receipt,
}

/// The machine's response to a request.
#[derive(Drop)]
pub enum Decision {
    /// The request is accepted, with this change and this reply.
    Accepted(Change, Reply),
    /// The request was accepted earlier: this is the original reply, and nothing changes.
    Kept(Reply),
    /// The request is refused, and nothing changes.
    Refused(Refusal),
}
