//! Running a count from its current stage to the end.

ghost use Rattle.std.specs.Prelude.{◌≡◌, OnOk, OnErr, IfOk, IfSome, IfNone, None, Some};
ghost use Rattle.count.specs.Law.Contest.{IsContest};
ghost use Rattle.count.specs.Law.Due.{due_after, lot_for};
ghost use Rattle.count.specs.Law.Right.{IsRight, IsBeginning, IsWholeCount, OneBeginsOther};
ghost use Rattle.count.specs.Law.Laws.{FillsSeats};
ghost use Rattle.count.specs.Advance.{AdvancesBy, Advances, refusal, end_after};

use crate::book::{AdvanceError, CountBook};
use crate::stages::Due;
use paper::Columns;
use std::alloc::AllocError;

/// The reason why a count ended.
#[derive(Clone, Copy, Debug, PartialEq, Eq)]
pub enum CountEnd {
    /// No vacancy remains ("Filling of last vacancies").
    Finished,
    /// A lot is needed among the candidates in `among` for stage `stage`, counted from 1, and none is recorded.
    LotNeeded { stage: u8, among: Columns },
    /// A lot is needed for stage `stage`, counted from 1, but the recorded one names none of the tied candidates.
    LotNotAmong { stage: u8 },
}

/// Returns the candidate that the lot for the given stage names.
pub fn lot_at(lots: &[(u8, u8)], stage: u8) -> Option<u8>
    ensures { result ≡ lot_for lots.now stage }
{
    lots.iter().find(|lot| lot.0 == stage).map(|lot| lot.1)
}

/// Adds the stage that is due, if there is one.
fn advanced<B: CountBook>(book: &mut B, lot: Option<u8>) -> Result<Option<CountEnd>, AllocError>
    requires { refusal lot (due_after (B.contest book.old) (B.history book.old)) ≡ None }
    ensures same { B.contest book.new ≡ B.contest book.old }
    ensures none { IfOk result (λ end. end ≡ None) }
    ensures ok { OnOk result (Advances (B.contest book.old) (B.history book.old) lot (B.history book.new)) }
    ensures err { OnErr result (B.history book.new ≡ B.history book.old) }
{
    match book.advance(lot) {
        Ok(()) => Ok(None),
        Err(_) => Err(AllocError),
    }
}

/// Adds the stage that is due, or returns the reason why there is none.
#[tactic(auto, using(crate::proofs::Law::DueLemmas::due_lot))]
pub fn step<B: CountBook>(book: &mut B, lots: &[(u8, u8)]) -> Result<Option<CountEnd>, AllocError>
    ensures same { B.contest book.new ≡ B.contest book.old }
    ensures fair { IsContest (B.contest book.old) }
    ensures end { IfOk result (λ end. end ≡ end_after (B.contest book.old) lots.now (B.history book.old)) }
    ensures ended { IfOk result (λ end. IfSome end (λ _. B.history book.new ≡ B.history book.old)) }
    ensures stepped { IfOk result (λ end. IfNone end (AdvancesBy (B.contest book.old) lots.now (B.history book.old) (B.history book.new))) }
    ensures err { OnErr result (B.history book.new ≡ B.history book.old) }
{
    match book.due() {
        Due::Finished => Ok(Some(CountEnd::Finished)),
        Due::Act(_) => advanced(book, None),
        Due::Lot { stage, among, .. } => match lot_at(lots, stage) {
            None => Ok(Some(CountEnd::LotNeeded { stage, among })),
            Some(c) => {
                if among.has(c) {
                    advanced(book, Some(c))
                } else {
                    Ok(Some(CountEnd::LotNotAmong { stage }))
                }
            }
        },
    }
}

/// Adds stages until the count is finished or needs a lot that isn't recorded.
///
/// A lot is a pair of a stage, counted from 1, and the candidate that it names. If two are for the same stage, the first one is
/// used. The stages so far must be correct for these lots. The book then has the whole count: every list of stages that is correct
/// for the same lots and papers, in any order, is a prefix of it, and every complete count equals it. Of two correct lists, one is a
/// prefix of the other. If an allocation fails, the book has the stages added so far: they are correct, and the earlier stages are a
/// prefix of them.
#[tactic(auto, using(crate::proofs::Law::RightLemmas::beginnings))]
pub fn run_count<B: CountBook>(book: &mut B, lots: &[(u8, u8)]) -> Result<CountEnd, AllocError>
    requires { IsRight (B.contest book.old) lots.now (B.history book.old) }
    ensures same { B.contest book.new ≡ B.contest book.old }
    ensures right { IsRight (B.contest book.old) lots.now (B.history book.new) }
    ensures end { IfOk result (λ end. end_after (B.contest book.old) lots.now (B.history book.new) ≡ Some end) }
    ensures grown { IsBeginning (B.history book.old) (B.history book.new) }
    ensures whole { OnOk result (IsWholeCount (B.contest book.old) lots.now (B.history book.new)) }
    ensures unique { OneBeginsOther (B.contest book.old) lots.now }
    ensures filled { IfOk result (λ end. end ≡ CountEnd.Finished → FillsSeats (B.contest book.old) (B.history book.new)) }
{
    'stages: loop {
        match step(book, lots)? {
            Some(end) => return Ok(end),
            None => {}
        }
    }
}
