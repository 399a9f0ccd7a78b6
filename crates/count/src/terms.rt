//! The terms of a count.

ghost use Rattle.std.specs.Prelude.{◌≡◌, ◌<◌};
ghost use Rattle.count.specs.Bundles.{papers_of, AreBundles};
ghost use Rattle.count.specs.Inside.Placing.{contest_on};
ghost use Rattle.count.specs.Law.Contest.{contest_for, IsContest};

use crate::bundles::Bundles;
use paper::Columns;
use votes::{MAX_SEATS, Votes, quota};

/// The candidates, the seats that they contest, and the quota.
#[derive(Clone, Copy)]
pub struct Terms {
    pub candidates: Columns,
    pub seats: u8,
    pub quota: Votes,
}

/// Returns the terms of a contest with the papers of bundles. If no contest has this number of seats, the quota is that for the
/// nearest possible number.
pub fn terms_on(candidates: Columns, seats: u8, bundles: &Bundles) -> Terms
    ensures candidates { result.candidates ≡ candidates }
    ensures seats { result.seats ≡ seats }
    ensures is { IsContest (contest_for candidates seats (papers_of bundles.now)) → contest_on result bundles.now ≡ contest_for candidates seats (papers_of bundles.now) }
    ensures bundles { AreBundles bundles.now }
{
    let _ = bundles.len();
    Terms {
        candidates,
        seats,
        quota: quota(bundles.papers(), seats.max(1).min(MAX_SEATS)),
    }
}
