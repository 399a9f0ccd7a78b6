//! Whether a ballot paper is valid, and its preferences.

ghost use Rattle.std.specs.Prelude.{◌≡◌, ℕ, ◌+◌, ◌-◌, ◌<◌, ◌≤◌, IfOk, IsOk, IfSome, IfNone, Err};
ghost use Rattle.paper.specs.Bearers.{AreBearers};
ghost use Rattle.paper.specs.Marking.{Marking};
ghost use Rattle.paper.specs.Padded.{padded};
ghost use Rattle.paper.specs.Numbers.{rejection_code};
ghost use Rattle.paper.specs.Preferences.{IsPreferences, LowerMarksDecide, preferences, rejection_of};

use crate::columns::MAX_CANDIDATES;
use crate::marked::{Bearers, Marked, NUMBERS};
use crate::prefs::Prefs;
use thiserror::Error;

/// The reason for rejecting a ballot paper.
#[derive(Clone, Copy, Debug, PartialEq, Eq, Error)]
pub enum Rejection {
    #[error("no first preference")]
    NoFirstPreference,
    #[error("more than one first preference")]
    SeveralFirstPreferences,
    #[error("no official mark")]
    NoOfficialMark,
    #[error("voter identifiable")]
    VoterIdentifiable,
    #[error("void for uncertainty")]
    VoidForUncertainty,
}

impl Rejection {
    /// Returns the code of the rejection. Codes 1 and 2 are determined by the marks; codes 3 to 5 are decisions of the
    /// returning officer.
    pub fn number(&self) -> u32
        ensures { result ≡ rejection_code self.now }
    {
        match self {
            Rejection::NoFirstPreference => 1,
            Rejection::SeveralFirstPreferences => 2,
            Rejection::NoOfficialMark => 3,
            Rejection::VoterIdentifiable => 4,
            Rejection::VoidForUncertainty => 5,
        }
    }
}

/// Returns the preferences of a paper, according to its marks: the longest list such that each of the numbers 1, 2, 3, .. up
/// to its length appears next to exactly one candidate.
///
/// A paper is valid if and only if the number 1 appears next to exactly one candidate. It is rejected with
/// `NoFirstPreference` if the number 1 appears next to no candidate, and with `SeveralFirstPreferences` if it appears next to
/// more than one. Allocates nothing.
pub fn judge(m: &Marked) -> Result<Prefs, Rejection>
    ensures rejected { IfSome (rejection_of m.now) (λ rejection. result ≡ Err rejection) }
    ensures valid { IfNone (rejection_of m.now) (IsOk result) }
    ensures is { IfOk result (λ prefs. prefs ≡ preferences m.now) }
    ensures longest { IfOk result (IsPreferences m.now) }
    ensures lower { LowerMarksDecide m.now }
{
    let bearers = m.bearers();
    match bearers[1] {
        Bearers::Nobody => Err(Rejection::NoFirstPreference),
        Bearers::One(_) => Ok(Prefs::from_ranking(preferred(&bearers))),
        Bearers::Several => Err(Rejection::SeveralFirstPreferences),
    }
}

/// Returns an array with the preferences of a paper, padded with zeros, given the candidates who have each mark.
fn preferred(bearers: &[Bearers; NUMBERS]) -> [u8; MAX_CANDIDATES]
    ensures { (m : Marking) → AreBearers m bearers.now → result ≡ padded (preferences m) }
{
    let mut numbers = [0; MAX_CANDIDATES];
    for place in 0..MAX_CANDIDATES {
        match bearers[place + 1] {
            Bearers::One(c) => numbers[place] = c,
            Bearers::Nobody | Bearers::Several => return numbers,
        }
    }
    numbers
}
