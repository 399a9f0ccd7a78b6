//! Checking whether a ward can be printed.

ghost use Rattle.std.specs.Prelude.{◌↔◌, map, IsTrue};
ghost use Rattle.sheet.specs.Wards.{Ascend, CanBePrinted, HasFewPapers};

use crate::ward::{Poll, Ward};
use paper::MAX_CANDIDATES;
use votes::{MAX_PAPERS, MAX_SEATS};

/// Returns whether candidate numbers are in ascending order, above the given bound, and at most the maximum.
fn ascend_above(low: u8, candidates: &[(u8, String)]) -> bool
    ensures { IsTrue result ↔ Ascend low (map (λ candidate. candidate.0) candidates.now) }
{
    let mut below = low;
    for candidate in candidates {
        if candidate.0 <= below || usize::from(candidate.0) > MAX_CANDIDATES {
            return false;
        }
        below = candidate.0;
    }
    true
}

/// Returns whether the poll, if there is one, has at most as many valid papers as a ward can have.
fn has_few_papers(poll: Option<Poll>) -> bool
    ensures { IsTrue result ↔ HasFewPapers poll }
{
    match poll {
        None => true,
        Some(poll) => poll.valid <= MAX_PAPERS,
    }
}

/// Returns whether the ward can be printed: it has 1 to [`MAX_SEATS`] seats, candidates in ascending order of their numbers,
/// which are 1 to [`MAX_CANDIDATES`], and at most [`MAX_PAPERS`] valid papers.
pub fn can_be_printed(ward: &Ward) -> bool
    ensures { IsTrue result ↔ CanBePrinted ward.now }
{
    if ward.seats < 1 || ward.seats > MAX_SEATS {
        return false;
    }
    if !has_few_papers(ward.poll) {
        return false;
    }
    ascend_above(0, ward.candidates)
}
