//! A count up to one of its stages, with the recorded lots.

ghost use Rattle.std.specs.Prelude.{◌≡◌, ◌+◌, ◌≤◌, ℕ, List, [], map, length, OnOk, OnErr, IfOk};
ghost use Rattle.std.specs.List.{range_with_len};
ghost use Rattle.std.specs.List.Sorted.{IsPermutation};
ghost use Rattle.count.specs.Law.Contest.{History};
ghost use Rattle.count.specs.Law.Due.{due_after};
ghost use Rattle.count.specs.Law.Right.{IsRight, reordered};
ghost use Rattle.count.specs.Law.Count.{with_next, stages_to, due_by as due_by_lots};

use crate::book::CountBook;
use crate::count_to_end::{lot_at, step};
use crate::stages::Due;
use std::alloc::{AllocError, Global};

/// Adds the next stage with the recorded lots, if there is one.
#[tactic(auto, using(crate::proofs::Law::CountLemmas::stages_next))]
fn advance_by<B: CountBook>(book: &mut B, lots: &[(u8, u8)]) -> Result<(), AllocError>
    ensures same { B.contest book.new ≡ B.contest book.old }
    ensures is { OnOk result (B.history book.new ≡ with_next (B.contest book.old) lots.now (B.history book.old)) }
    ensures err { OnErr result (B.history book.new ≡ B.history book.old) }
{
    step(book, lots)?;
    Ok(())
}

/// Counts a given number of stages, or as many as there are: a new book then has those stages of the count.
///
/// A lot is a pair of a stage, counted from 1, and the candidate that it names; if two are for the same stage, the first one is
/// used. These stages are correct for the lots, and the only correct ones; the order of the papers makes no difference.
/// `AllocError` if an allocation fails; the book then has the stages added so far, at most as many as requested, and they are
/// correct.
#[tactic(auto, using(crate::proofs::Law::CountLemmas::stages_counted), unfolding(crate::specs::Law::Count::stages_to))]
pub fn count_to<B: CountBook>(
    book: &mut B,
    lots: &[(u8, u8)],
    stages: usize,
) -> Result<(), AllocError>
    requires { B.history book.old ≡ [] }
    ensures same { B.contest book.new ≡ B.contest book.old }
    ensures is { OnOk result (B.history book.new ≡ stages_to (B.contest book.old) lots.now stages) }
    ensures err { OnErr result (IsRight (B.contest book.old) lots.now (B.history book.new)) }
    ensures err_few { OnErr result (length (B.history book.new) ≤ stages) }
    ensures right { (k : ℕ) → IsRight (B.contest book.old) lots.now (stages_to (B.contest book.old) lots.now k) }
    ensures only { (h : History) → IsRight (B.contest book.old) lots.now h → h ≡ stages_to (B.contest book.old) lots.now (length h) }
    ensures ordered { (papers : List (List ℕ)) (k : ℕ) → IsPermutation (B.contest book.old).papers papers
        → stages_to (reordered (B.contest book.old) papers) lots.now k ≡ stages_to (B.contest book.old) lots.now k }
{
    for _ in 0..stages {
        advance_by(book, lots)?;
    }
    Ok(())
}

/// Returns what is due, given the recorded lots: the next action, or the lot that the count is waiting for, or nothing. Moves
/// no paper, and allocates nothing.
#[tactic(auto, using(crate::proofs::Law::DueLemmas::due_lot, crate::proofs::Law::CountLemmas::due_lots))]
pub fn due_by<B: CountBook>(book: &B, lots: &[(u8, u8)]) -> Due
    ensures { result ≡ due_by_lots (B.contest book.now) lots.now (B.history book.now) }
{
    let due = book.due();
    match due {
        Due::Act(_) | Due::Finished => due,
        Due::Lot { stage, .. } => match book.action_by(lot_at(lots, stage)) {
            Ok(action) => Due::Act(action),
            Err(_) => due,
        },
    }
}

/// Counts a given number of stages with the recorded lots, and returns what is due before each of them and after the last; a new
/// book then has those stages. A lot is returned as due even if it is recorded. `AllocError` if an allocation fails; the book then
/// has the stages added so far, at most as many as requested, and they are correct.
#[tactic(auto, using(crate::proofs::Law::CountLemmas::stages_counted), unfolding(crate::specs::Law::Count::stages_to))]
pub fn dues_to<B: CountBook>(
    alloc: Global,
    book: &mut B,
    lots: &[(u8, u8)],
    stages: usize,
) -> Result<Vec<Due>, AllocError>
    requires { B.history book.old ≡ [] }
    ensures same { B.contest book.new ≡ B.contest book.old }
    ensures counted { OnOk result (B.history book.new ≡ stages_to (B.contest book.old) lots.now stages) }
    ensures err { OnErr result (IsRight (B.contest book.old) lots.now (B.history book.new)) }
    ensures err_few { OnErr result (length (B.history book.new) ≤ stages) }
    ensures is { IfOk result (λ dues. dues.items ≡ map (λ k. due_after (B.contest book.old) (stages_to (B.contest book.old) lots.now k)) (range_with_len 0 (stages + 1))) }
{
    let mut dues = Vec::new(alloc);
    for _ in 0..stages {
        dues.push(book.due())?;
        advance_by(book, lots)?;
    }
    dues.push(book.due())?;
    Ok(dues)
}
