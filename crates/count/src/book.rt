//! A count in progress, independent of how its papers are stored.

ghost use Rattle.std.specs.Prelude.{◌≡◌, ℕ, reverse, OnOk, OnErr, IfOk, IfErr, IfSome, IfNone, IsOkUnless, Some};
ghost use Rattle.count.specs.Law.Contest.{Contest, History, IsContest};
ghost use Rattle.count.specs.Law.Due.{due_after, drawn};
ghost use Rattle.count.specs.Law.Elected.{elected_after};
ghost use Rattle.count.specs.Law.Right.{IsRightByItself};
ghost use Rattle.count.specs.Law.Laws.{IsConserved, IsShort, FillsSeats, OnlyCandidatesHaveVotes, IsAmongSeveral};
ghost use Rattle.count.specs.Advance.{refusal, Advances};

use crate::stages::{Action, Due, Stage};
use paper::Columns;
use thiserror::Error;

/// The reason why a book didn't advance. The book is unchanged.
#[derive(Clone, Copy, Debug, PartialEq, Eq, Error)]
pub enum AdvanceError {
    /// 1: no vacancy remains.
    #[error("count finished")]
    Finished,
    /// 2: a lot is due, and none was passed.
    #[error("lot needed")]
    LotNeeded,
    /// 3: a lot is due, but the one passed names none of the tied candidates.
    #[error("lot not among the tied")]
    LotNotAmong,
    /// An allocation failed.
    #[error("memory")]
    Memory,
}

/// A count of a contest, stage by stage under the Order: the stages so far, and what is due.
pub trait CountBook {
    /// The candidates, seats, quota and papers.
    ghost contest: { Self → Contest };

    /// The stages so far, newest first.
    ghost history: { Self → History };

    /// Returns the stages so far, in order. They are correct for the contest and for the lots that their own actions name.
    /// The figures of each stage add up, and only candidates have votes. There is at most one stage per candidate, plus one.
    fn stages(&self) -> &[Stage]
        ensures is { reverse result.now ≡ history self.now }
        ensures right { IsRightByItself (contest self.now) (history self.now) }
        ensures conserved { IsConserved (contest self.now) (history self.now) }
        ensures others { OnlyCandidatesHaveVotes (contest self.now) (history self.now) }
        ensures short { IsShort (contest self.now) (history self.now) };

    /// Returns what is due: an action; a lot among two or more tied candidates; or nothing, if and only if no vacancy remains. In the
    /// last case as many candidates are elected as there are seats ("Transfer of ballot papers"; "Exclusion of candidates"; "Filling
    /// of last vacancies").
    fn due(&self) -> Due
        ensures is { result ≡ due_after (contest self.now) (history self.now) }
        ensures fair { IsContest (contest self.now) }
        ensures several { IsAmongSeveral result }
        ensures filled { result ≡ Due.Finished → FillsSeats (contest self.now) (history self.now) };

    /// Returns the candidates elected after the stages so far ("Quota"; "Filling of last vacancies").
    fn elected(&self) -> Columns
        ensures { result ≡ elected_after (contest self.now) (history self.now) };

    /// Returns the action that is due, using the lot if one is needed and ignoring it otherwise. Error 1 if the count is finished, 2
    /// if a lot is due and none is passed, 3 if the lot names a candidate who isn't tied. Moves no paper, and allocates nothing.
    fn action_by(&self, lot: Option<u8>) -> Result<Action, AdvanceError>
        ensures ok { IfOk result (λ action. drawn (contest self.now) (history self.now) lot (due_after (contest self.now) (history self.now)) ≡ Some action) }
        ensures err { IfErr result (λ e. refusal lot (due_after (contest self.now) (history self.now)) ≡ Some e) };

    /// Adds the one stage that is due, using the lot if one is needed and ignoring it otherwise.
    ///
    /// Error 1 if the count is finished, 2 if a lot is due and none is passed, 3 if the lot names a candidate who isn't tied; in
    /// these cases nothing is allocated. `Memory` if an allocation fails. The book is unchanged after every error.
    fn advance(&mut self, lot: Option<u8>) -> Result<(), AdvanceError>
        ensures same { contest self.new ≡ contest self.old }
        ensures ok { OnOk result (Advances (contest self.old) (history self.old) lot (history self.new)) }
        ensures err { OnErr result (history self.new ≡ history self.old) }
        ensures refused { IfSome (refusal lot (due_after (contest self.old) (history self.old))) (λ e. result ≡ Err e) }
        ensures otherwise { IfNone (refusal lot (due_after (contest self.old) (history self.old))) (IsOkUnless result AdvanceError.Memory) };
}
