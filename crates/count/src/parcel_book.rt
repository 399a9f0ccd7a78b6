//! A count in parcels.

ghost use Rattle.std.specs.Prelude.{◌≡◌, [], IfOk};
ghost use Rattle.count.specs.Law.Contest.{contest_for, IsContest};

use crate::book::{AdvanceError, CountBook};
use crate::due::{action_by, due, elected_with};
use crate::parcel::Holding;
use crate::parcel_act::act;
use crate::stages::{Action, Due, Stage};
use crate::terms::Terms;
use paper::{Columns, Prefs};
use std::alloc::{AllocError, Global};
use std::marker::Model;
use votes::quota;

/// A count whose papers are sorted into parcels, as in "Transfer of ballot papers" and "Exclusion of candidates". A parcel borrows
/// the preferences of each paper, starting with the one for its holder, and has the value at which they were received.
#[derive(Drop)]
pub struct ParcelBook<'a> {
    alloc: Global,
    terms: Terms,
    papers: &'a [Prefs],
    holdings: Vec<Holding<'a>>,
    stages: Vec<Stage>,
}

impl<'a> Model for ParcelBook<'a> {
    ghost use Rattle.std.specs.Prelude.{reverse};
    ghost use Rattle.count.specs.Books.{Book, contest_of};
    ghost use Rattle.count.specs.Inside.BookInvariants.{IsBook};

    ghost Value = { Book };

    ghost view = { λ a. record { contest = contest_of a.terms a.papers.now; history = reverse a.stages.items } };

    ghost invariant = { λ a. IsBook (contest_of a.terms a.papers.now) (reverse a.stages.items) a.holdings.items };
}

impl<'a> ParcelBook<'a> {
    /// Returns a count before its first stage; `AllocError` if an allocation fails.
    ///
    /// Requires more candidates than seats, 1 to `MAX_SEATS` seats, preferences only for candidates, and at most `MAX_PAPERS` papers;
    /// `can_be_counted` checks this.
    pub fn new(
        alloc: Global,
        candidates: Columns,
        seats: u8,
        papers: &'a [Prefs],
    ) -> Result<Self, AllocError>
        requires { IsContest (contest_for candidates seats papers.now) }
        ensures { IfOk result (λ book. book ≡ record { contest = contest_for candidates seats papers.now; history = [] }) }
    {
        Ok(ParcelBook {
            alloc,
            terms: Terms {
                candidates,
                seats,
                quota: quota(papers.len() as u32, seats),
            },
            papers,
            holdings: Vec::new(alloc),
            stages: Vec::new(alloc),
        })
    }
}

impl<'a> CountBook for ParcelBook<'a> {
    ghost contest = { λ b. b.contest };

    ghost history = { λ b. b.history };

    #[tactic(auto, using(crate::proofs::BookLemmas::book_laws))]
    fn stages(&self) -> &[Stage] {
        &self.stages
    }

    #[tactic(auto, using(crate::proofs::BookLemmas::book_facts))]
    fn due(&self) -> Due {
        due(&self.terms, &self.stages)
    }

    fn elected(&self) -> Columns {
        elected_with(&self.terms, &self.stages)
    }

    #[tactic(auto, using(crate::proofs::BookLemmas::book_facts))]
    fn action_by(&self, lot: Option<u8>) -> Result<Action, AdvanceError> {
        action_by(&self.terms, &self.stages, lot)
    }

    #[tactic(auto, using(crate::proofs::BookLemmas::book_facts))]
    fn advance(&mut self, lot: Option<u8>) -> Result<(), AdvanceError> {
        let action = action_by(&self.terms, &self.stages, lot)?;
        match act(
            self.alloc,
            &self.terms,
            self.papers,
            &mut self.holdings,
            &mut self.stages,
            &action,
        ) {
            Ok(()) => Ok(()),
            Err(_) => Err(AdvanceError::Memory),
        }
    }
}
