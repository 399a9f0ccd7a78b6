//! Reasons for refusing a request.

ghost use Rattle.std.specs.Prelude.{◌≡◌, IfOk, string_bytes};
ghost use Rattle.register.specs.Reasons.{reason_number, reason_words, reason_text};

use crate::texts::listed;
use paper::Columns;
use std::alloc::{AllocError, Global};
use std::marker::Model;

/// The reason for refusing a request.
#[derive(Clone, Copy, PartialEq, Eq)]
pub enum Reason {
    /// The id doesn't consist of 1 to 40 characters from `a-z`, `0-9` and `-`.
    BadId,
    /// The receipt for this actor and id has a different subject.
    IdUsed,
    /// A number is out of range, or the actor may not send this command.
    NumberOutOfRange,
    /// The name isn't 1 to 120 bytes long, or contains a control character.
    BadName,
    /// There is no ward with this number.
    NoSuchWard,
    /// A ward with this number already exists.
    WardExists,
    /// There is no batch with this number.
    NoSuchBatch,
    /// A batch with this number already exists.
    BatchExists,
    /// The ward, or the batch's ward, isn't in the phase that the command requires.
    WrongPhase,
    /// A candidate with this number already exists in this ward.
    CandidateExists,
    /// There is no candidate with this number in this ward.
    NoSuchCandidate,
    /// The ward has no candidates.
    NoCandidates,
    /// The batch's two clerks are the same, or the third clerk already keys the batch.
    SameClerk,
    /// The actor isn't one of the batch's clerks.
    NotItsClerk,
    /// The round isn't the batch's current one.
    NotThisRound,
    /// The clerk has already keyed this round.
    AlreadyKeyed,
    /// The number of marks texts differs from the number of papers in the batch.
    WrongPaperCount,
    /// The marks text of this paper, the first invalid one, has the mark fault with this number.
    BadMarks { paper: u32, fault: u32 },
    /// The batch's current round has fewer than two keyings, or two equal ones.
    NoDifference,
    /// No two keyings in the batch's current round are equal.
    NotTaken,
    /// The batch has no paper with this number that was keyed as doubtful.
    NotDoubtful,
    /// The paper already has a verdict.
    AlreadyJudged,
    /// The paper is accepted as doubtful or with marks that make it invalid, or rejected with a code other than 3, 4 or
    /// 5.
    BadVerdict,
    /// A batch of the ward isn't taken, or a doubtful paper has no verdict.
    NotReady,
    /// No vacancy remains.
    CountFinished,
    /// The count is waiting for a lot at this stage, counted from 1, among these candidates.
    LotNeeded { stage: u8, among: Columns },
    /// The count isn't waiting for a lot at this stage.
    NoSuchLot,
    /// The candidate isn't one of those tied.
    NotAmong,
    /// A vacancy remains.
    CountNotFinished,
    /// The batch already has a third clerk.
    ThirdSet,
}

impl Reason {
    /// Returns the number of a reason, and its text up to the first number that the text includes, if any.
    fn told(self) -> (u32, &'static str)
        ensures number { result.0 ≡ reason_number self }
        ensures words { result.1.now ≡ reason_words self }
    {
        match self {
            Reason::BadId => (1, "bad id"),
            Reason::IdUsed => (2, "id used for another subject"),
            Reason::NumberOutOfRange => (3, "number out of range"),
            Reason::BadName => (4, "bad name"),
            Reason::NoSuchWard => (5, "no such ward"),
            Reason::WardExists => (6, "ward exists"),
            Reason::NoSuchBatch => (7, "no such batch"),
            Reason::BatchExists => (8, "batch exists"),
            Reason::WrongPhase => (9, "wrong phase"),
            Reason::CandidateExists => (10, "candidate exists"),
            Reason::NoSuchCandidate => (11, "no such candidate"),
            Reason::NoCandidates => (12, "no candidates"),
            Reason::SameClerk => (13, "clerks not different"),
            Reason::NotItsClerk => (14, "clerk not of this batch"),
            Reason::NotThisRound => (15, "not this round"),
            Reason::AlreadyKeyed => (16, "already keyed"),
            Reason::WrongPaperCount => (17, "wrong number of papers"),
            Reason::BadMarks { .. } => (18, "bad marks on paper "),
            Reason::NoDifference => (19, "keyings don't differ"),
            Reason::NotTaken => (20, "batch not taken"),
            Reason::NotDoubtful => (21, "paper not doubtful"),
            Reason::AlreadyJudged => (22, "already judged"),
            Reason::BadVerdict => (23, "bad verdict"),
            Reason::NotReady => (24, "not ready to seal"),
            Reason::CountFinished => (25, "count finished"),
            Reason::LotNeeded { .. } => (26, "lot needed at stage "),
            Reason::NoSuchLot => (27, "no such lot due"),
            Reason::NotAmong => (28, "not among the tied"),
            Reason::CountNotFinished => (29, "count not finished"),
            Reason::ThirdSet => (30, "third clerk is set"),
        }
    }

    /// Returns the text of the reason, including its numbers.
    fn text(&self, alloc: Global) -> Result<String, AllocError>
        ensures { IfOk result (λ text. string_bytes text ≡ reason_text self.now) }
    {
        let (_, words) = self.told();
        match self {
            Reason::BadMarks { paper, fault } => {
                format!(in alloc; "{words}{paper}, fault {fault}")
            }
            Reason::LotNeeded { stage, among } => {
                let candidates = listed(alloc, among)?;
                format!(in alloc; "{words}{stage} among {candidates}")
            }
            _ => String::from_str(alloc, words),
        }
    }
}

/// A refusal: the reason and its text. A refusal changes nothing and leaves no receipt.
///
/// In contracts, a refusal is modelled as its reason.
#[derive(Drop)]
pub struct Refusal {
    reason: Reason,
    text: String,
}

impl Model for Refusal {
    ghost use Rattle.std.specs.Prelude.{◌≡◌, string_bytes};
    ghost use Rattle.register.specs.declared.refusal.Reason.{Reason};
    ghost use Rattle.register.specs.Reasons.{reason_text};

    ghost Value = { Reason };

    ghost view = { λ r. r.reason };

    ghost invariant = { λ r. string_bytes r.text ≡ reason_text r.reason };
}

impl Refusal {
    /// Returns a refusal with the given reason and its text. Returns `AllocError` if an allocation fails.
    pub fn new(alloc: Global, reason: Reason) -> Result<Refusal, AllocError>
        ensures { IfOk result (λ refusal. refusal ≡ reason) }
    {
        let text = reason.text(alloc)?;
        Ok(Refusal { reason, text })
    }

    /// Returns the reason.
    pub fn reason(&self) -> Reason
        ensures { result ≡ self.now }
    {
        self.reason
    }

    /// Returns the number of the reason, which is printed with every refusal.
    pub fn number(&self) -> u32
        ensures { result ≡ reason_number self.now }
    {
        self.reason.told().0
    }

    /// Returns the text of the reason, without its number.
    pub fn text(&self) -> &str
        ensures { result.now ≡ reason_text self.now }
    {
        self.text.as_str()
    }
}
