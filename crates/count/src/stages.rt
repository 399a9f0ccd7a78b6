//! The stages of a count, and what is due next.

use paper::{Columns, MAX_CANDIDATES};
use std::fmt;
use votes::Votes;

/// The action of a stage; candidates are identified by their numbers, 1 to `MAX_CANDIDATES`.
#[derive(Clone, Copy, Debug, PartialEq, Eq)]
pub enum Action {
    /// Each paper is credited to its first preference, as one vote ("Transfer of ballot papers").
    First,
    /// The surplus of a candidate is transferred ("Transfer of ballot papers").
    Surplus(u8),
    /// A candidate is excluded, and the candidate's papers are transferred ("Exclusion of candidates").
    Exclude(u8),
    /// A candidate is excluded to fill the last vacancies; nothing is transferred ("Filling of last vacancies").
    ExcludeLast(u8),
}

impl fmt::Display for Action {
    ghost use Rattle.std.specs.Prelude.{Some};
    ghost use Rattle.count.specs.Actions.{action_text};

    ghost output = { λ action. Some (action_text action) };

    fn fmt<W: fmt::Write>(&self, f: &mut fmt::Formatter<W>) -> fmt::Result {
        match self {
            Action::First => f.write_str("first preferences"),
            Action::Surplus(c) => write!(f, "surplus of {c}"),
            Action::Exclude(c) => write!(f, "exclusion of {c}"),
            Action::ExcludeLast(c) => write!(f, "exclusion of {c}, last vacancies"),
        }
    }
}

/// A completed stage: its action, and the resulting figures.
#[derive(Clone, Copy, Debug, PartialEq, Eq)]
pub struct Stage {
    pub action: Action,
    /// The votes of candidate c at index c - 1 ("Transfer of ballot papers"), at most one per paper, and 0 for numbers that aren't
    /// candidates.
    pub votes: [Votes; MAX_CANDIDATES],
    /// The candidates newly elected at this stage ("Quota"; "Filling of last vacancies").
    pub elected: Columns,
    /// The total value of the papers without a next preference, over all stages up to this one ("Transfer of ballot papers"), at
    /// most one vote per paper.
    pub non_transferable: Votes,
    /// The loss by fractions on surpluses, over all stages up to this one ("Transfer values"), at most one vote per paper.
    pub lost: Votes,
}

/// The kind of tie between candidates.
#[derive(Clone, Copy, PartialEq, Eq)]
pub enum TiedFor {
    /// Equal highest surpluses ("Transfer of ballot papers").
    Surplus,
    /// Equal fewest votes ("Exclusion of candidates").
    Exclusion,
}

/// The next step of a count.
#[derive(Clone, Copy, PartialEq, Eq)]
pub enum Due {
    /// An action is due.
    Act(Action),
    /// A lot must be drawn for stage `stage`, counted from 1, among two or more candidates whose votes were equal at all
    /// stages ("Transfer of ballot papers"; "Exclusion of candidates").
    Lot {
        stage: u8,
        kind: TiedFor,
        among: Columns,
    },
    /// No vacancy remains ("Filling of last vacancies").
    Finished,
}
