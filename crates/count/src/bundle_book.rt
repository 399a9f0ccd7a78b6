//! A count in bundles.

ghost use Rattle.std.specs.Prelude.{◌≡◌, ◌<◌, ℕ, List, [], map, reverse, length, slice_index_or, IfOk};
ghost use Rattle.count.specs.Books.{placed};
ghost use Rattle.std.specs.List.Sorted.{IsPermutation};
ghost use Rattle.count.specs.Bundles.{Bundle, papers_of, bundled, AreBundles};
ghost use Rattle.count.specs.Law.Count.{stages_to};
ghost use Rattle.count.specs.Inside.Placing.{contest_on};
ghost use Rattle.count.specs.Law.Contest.{contest_for, IsContest};
ghost use Rattle.count.specs.Law.Places.{place as place_of};
ghost use Rattle.count.specs.Law.Right.{IsRightForSome};

use crate::book::{AdvanceError, CountBook};
use crate::bundle_act::acted_on_bundles;
use crate::bundles::Bundles;
use crate::due::{action_by, due, elected_with};
use crate::placed::Placed;
use crate::places::no_places;
use crate::stages::{Action, Due, Stage};
use crate::terms::{Terms, terms_on};
use paper::Columns;
use std::alloc::{AllocError, Global};
use std::marker::Model;

/// A count that stores equal papers as one bundle, with one holder and one value. This is sound because the rules depend on nothing
/// in a paper but its preferences. The cost of a stage therefore depends on the number of bundles, not on the number of papers.
#[derive(Drop)]
pub struct BundleBook<'a> {
    alloc: Global,
    terms: Terms,
    bundles: &'a Bundles,
    places: Vec<Placed>,
    stages: Vec<Stage>,
}

impl<'a> Model for BundleBook<'a> {
    ghost use Rattle.std.specs.Prelude.{reverse};
    ghost use Rattle.count.specs.Books.{BundledBook};
    ghost use Rattle.count.specs.Inside.Placing.{contest_on, IsBundled};

    ghost Value = { BundledBook };

    ghost view = { λ a. record { contest = contest_on a.terms a.bundles.now; history = reverse a.stages.items; bundles = a.bundles.now } };

    ghost invariant = { λ a. IsBundled (contest_on a.terms a.bundles.now) (reverse a.stages.items) a.bundles.now a.places.items };
}

/// States the law of counting in bundles, for its callers. The bundles of given papers represent exactly those papers, in
/// another order. If a contest can be held with the papers, it can be held with those of the bundles, with the same stages for any
/// lots.
#[tactic(auto, using(crate::proofs::OrderLemmas::bundled_alike))]
pub fn bundles_count_alike()
    ensures papers { (papers : List (List ℕ)) → IsPermutation papers (papers_of (bundled papers)) }
    ensures contest { (candidates : List ℕ) (seats : ℕ) (papers : List (List ℕ)) → IsContest (contest_for candidates seats papers)
        → IsContest (contest_for candidates seats (papers_of (bundled papers))) }
    ensures stages { (candidates : List ℕ) (seats : ℕ) (papers : List (List ℕ)) (lots : List (ℕ × ℕ)) (k : ℕ)
        → stages_to (contest_for candidates seats (papers_of (bundled papers))) lots k ≡ stages_to (contest_for candidates seats papers) lots k }
{}

impl<'a> BundleBook<'a> {
    /// Returns a count before its first stage; `AllocError` if an allocation fails.
    ///
    /// Requires more candidates than seats, 1 to `MAX_SEATS` seats, and preferences only for candidates; `bundles_can_be_counted`
    /// checks this.
    pub fn new(
        alloc: Global,
        candidates: Columns,
        seats: u8,
        bundles: &'a Bundles,
    ) -> Result<Self, AllocError>
        requires { IsContest (contest_for candidates seats (papers_of bundles.now)) }
        ensures { IfOk result (λ book. book ≡ record { contest = contest_for candidates seats (papers_of bundles.now); history = []; bundles = bundles.now }) }
    {
        let places = no_places(alloc, bundles)?;
        Ok(BundleBook {
            alloc,
            terms: terms_on(candidates, seats, bundles),
            bundles,
            places,
            stages: Vec::new(alloc),
        })
    }

    /// Resumes a count from its stages so far and the places of its bundles after them.
    ///
    /// The requirements of `new` on candidates, seats and preferences apply here too. The stages must be correct for these papers
    /// and some lots. The places must be those of the bundles after these stages, in the order of the bundles. `AllocError` if an
    /// allocation fails.
    pub fn resume(
        alloc: Global,
        candidates: Columns,
        seats: u8,
        bundles: &'a Bundles,
        places: &[Placed],
        stages: &[Stage],
    ) -> Result<Self, AllocError>
        requires contest { IsContest (contest_for candidates seats (papers_of bundles.now)) }
        requires right { IsRightForSome (contest_for candidates seats (papers_of bundles.now)) (reverse stages.now) }
        requires places { places.now ≡ map (λ b. placed (place_of (contest_for candidates seats (papers_of bundles.now)) (reverse stages.now) b.0)) bundles.now }
        ensures { IfOk result (λ book. book ≡ record { contest = contest_for candidates seats (papers_of bundles.now); history = reverse stages.now; bundles = bundles.now }) }
    {
        let places = Vec::from_slice(alloc, places)?;
        let stages = Vec::from_slice(alloc, stages)?;
        let terms = terms_on(candidates, seats, bundles);
        Ok(BundleBook {
            alloc,
            terms,
            bundles,
            places,
            stages,
        })
    }

    /// Returns the places of the bundles after the stages so far, in the order of the bundles. Another book can resume from these
    /// places and the stages. The bundles are still those of the papers.
    pub fn places(&self) -> &[Placed]
        ensures places { result.now ≡ map (λ b. placed (place_of self.now.contest self.now.history b.0)) self.now.bundles }
        ensures bundles { (bundles : List Bundle) → AreBundles bundles → IsPermutation (papers_of bundles) self.now.contest.papers → bundles ≡ self.now.bundles }
    {
        &self.places
    }

    /// Returns the place of bundle `i` after the stages so far.
    pub fn place(&self, i: usize) -> Placed
        requires { i < length self.now.bundles }
        ensures { result ≡ placed (place_of self.now.contest self.now.history (slice_index_or self.now.bundles i ([], 0)).0) }
    {
        self.places[i]
    }
}

impl<'a> CountBook for BundleBook<'a> {
    ghost contest = { λ b. b.contest };

    ghost history = { λ b. b.history };

    #[tactic(auto, using(crate::proofs::BundleBookLemmas::book_laws))]
    fn stages(&self) -> &[Stage] {
        &self.stages
    }

    #[tactic(auto, using(crate::proofs::BundleBookLemmas::book_facts))]
    fn due(&self) -> Due {
        due(&self.terms, &self.stages)
    }

    fn elected(&self) -> Columns {
        elected_with(&self.terms, &self.stages)
    }

    fn action_by(&self, lot: Option<u8>) -> Result<Action, AdvanceError> {
        action_by(&self.terms, &self.stages, lot)
    }

    #[tactic(auto, using(crate::proofs::BundleBookLemmas::book_facts))]
    fn advance(&mut self, lot: Option<u8>) -> Result<(), AdvanceError> {
        let action = action_by(&self.terms, &self.stages, lot)?;
        match acted_on_bundles(
            self.alloc,
            &self.terms,
            self.bundles,
            &self.places,
            &self.stages,
            &action,
        ) {
            Ok((places, stages)) => {
                self.places = places;
                self.stages = stages;
                Ok(())
            }
            Err(_) => Err(AdvanceError::Memory),
        }
    }
}
