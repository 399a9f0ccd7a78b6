//! The count of a ward with its lots, the basis of checks and counts of ballots.

ghost use Rattle.std.specs.Prelude.{◌≡◌, [], IfOk, IfErr};
ghost use Rattle.sheet.specs.Entries.{shown};
ghost use Rattle.sheet.specs.Wards.{CanBePrinted};
ghost use Rattle.checker.specs.Counts.{IsContestedCount, IsCountBy, IsNotCounted, IsWardCount, IsWardNotCounted, undrawn_at};
ghost use Rattle.checker.specs.Wards.{contest_in};
ghost use Rattle.checker.specs.declared.counting.WardCount.{WardCount};

use crate::lots::undrawn_by;
use crate::problem::Problem;
use crate::wards::{Election, numbers_of};
use count::{
    BundleBook, CountBook, CountEnd, Due, Stage, bundles_can_be_counted, dues_to, run_count,
};
use paper::Columns;
use std::alloc::Global;

/// The count of a ward.
#[derive(Drop)]
pub(crate) struct WardCount {
    /// The stages in order; none if the ward is uncontested.
    pub(crate) stages: Vec<Stage>,
    /// The candidates elected so far.
    pub(crate) elected: Columns,
    /// The reason why the count ended.
    pub(crate) end: CountEnd,
}

/// Returns the stage of the first recorded lot that isn't drawn; lots for later stages than the one the count waits at don't matter.
/// `None` if there is none, or if a lot names none of the tied candidates, since each caller refuses the count for that.
fn undrawn_at(end: &CountEnd, dues: &[Due], lots: &[(u8, u8)]) -> Option<u8>
    ensures { result ≡ undrawn_at end.now dues.now lots.now }
{
    match end {
        CountEnd::Finished | CountEnd::LotNeeded { .. } => undrawn_by(dues, lots),
        CountEnd::LotNotAmong { .. } => None,
    }
}

/// Counts to the end with the given lots.
fn counted_out<B: CountBook>(
    alloc: Global,
    book: &mut B,
    lots: &[(u8, u8)],
) -> Result<WardCount, Problem>
    requires { B.history book.old ≡ [] }
    ensures ok { IfOk result (λ count. IsCountBy (B.contest book.old) lots.now count) }
    ensures err { IfErr result (λ problem. IsNotCounted (B.contest book.old) lots.now problem) }
    ensures only { (count : WardCount) → IsCountBy (B.contest book.old) lots.now count → IfErr result (λ problem. problem ≡ Problem.Memory) }
{
    let Ok(dues) = dues_to(alloc, book, lots, 255) else {
        return Err(Problem::Memory);
    };
    let Ok(end) = run_count(book, lots) else {
        return Err(Problem::Memory);
    };
    let elected = book.elected();
    let Ok(stages) = Vec::from_slice(alloc, book.stages()) else {
        return Err(Problem::Memory);
    };
    let count = WardCount {
        stages,
        elected,
        end,
    };
    match undrawn_at(&count.end, &dues, lots) {
        Some(stage) => Err(Problem::LotNotNeeded { stage }),
        None => Ok(count),
    }
}

/// Counts a contested ward.
fn contested_count(alloc: Global, election: &Election) -> Result<WardCount, Problem>
    requires { CanBePrinted election.now.ward }
    ensures ok { IfOk result (λ count. IsContestedCount (shown election.now.ward) election.now.bundles.now election.now.lots.now count) }
    ensures err { IfErr result (λ problem. IsNotCounted (contest_in (shown election.now.ward) election.now.bundles.now) election.now.lots.now problem) }
    ensures only { (count : WardCount) → IsContestedCount (shown election.now.ward) election.now.bundles.now election.now.lots.now count → IfErr result (λ problem. problem ≡ Problem.Memory) }
{
    let numbers = numbers_of(&election.ward);
    let seats = election.ward.seats;
    if !bundles_can_be_counted(&numbers, seats, election.bundles) {
        return Err(Problem::NoContest);
    }
    let Ok(mut book) = BundleBook::new(alloc, numbers, seats, election.bundles) else {
        return Err(Problem::Memory);
    };
    counted_out(alloc, &mut book, election.lots)
}

/// Counts a ward with its lots. An uncontested ward has no stages, and all its candidates are elected.
///
/// The problem is that there is no contest, that a recorded lot isn't drawn, or that an allocation failed. If the ward has a count, it
/// is a failed allocation.
pub(crate) fn count_of(alloc: Global, election: &Election) -> Result<WardCount, Problem>
    requires { CanBePrinted election.now.ward }
    ensures ok { IfOk result (λ count. IsWardCount election.now.ward.poll (shown election.now.ward) election.now.bundles.now election.now.lots.now count) }
    ensures err { IfErr result (λ problem. IsWardNotCounted election.now.ward.poll (shown election.now.ward) election.now.bundles.now election.now.lots.now problem) }
    ensures only { (count : WardCount) → IsWardCount election.now.ward.poll (shown election.now.ward) election.now.bundles.now election.now.lots.now count
        → IfErr result (λ problem. problem ≡ Problem.Memory) }
{
    match election.ward.poll {
        Some(_) => contested_count(alloc, election),
        None => Ok(WardCount {
            stages: Vec::new(alloc),
            elected: numbers_of(&election.ward),
            end: CountEnd::Finished,
        }),
    }
}
