//! The candidates, the seats and the papers.

ghost use Rattle.std.specs.Prelude.{◌≡◌, ◌≤◌, map, IfOk};
ghost use Rattle.paper.specs.Ranking.{IsRanking};
ghost use Rattle.paper.specs.Columns.{max_candidates};
ghost use Rattle.votes.specs.Units.{max_papers, max_seats};
ghost use Rattle.checker.specs.Outcomes.{outcome};
ghost use Rattle.checker.specs.Papers.{papers_in, seats_in, with_bundle, with_list, with_size, with_withdrawn, withdrawn_from, withdrawn_in};
ghost use Rattle.checker.specs.Values.{told_of};

use crate::file_content::PaperTotals;
use crate::numbers::{candidate_in, number_in};
use crate::problem::BallotsFlaw;
use crate::ranks::{named_in, standing_of};
use paper::{Columns, MAX_CANDIDATES};
use std::alloc::{AllocError, Global};
use votes::{MAX_PAPERS, MAX_SEATS};

/// Parses the number of seats, which is at least 1.
fn seats_in(word: &[u8]) -> Result<u8, BallotsFlaw>
    ensures is { result ≡ seats_in word.now }
    ensures some { IfOk result (λ seats. 1 ≤ seats) }
    ensures few { IfOk result (λ seats. seats ≤ max_seats) }
{
    let seats = number_in(u32::from(MAX_SEATS), word)?;
    if seats == 0 {
        return Err(BallotsFlaw::NoSeat);
    }
    Ok(seats as u8)
}

/// Parses the number of papers, which is at least 1.
pub(crate) fn papers_in(word: &[u8]) -> Result<u32, BallotsFlaw>
    ensures is { result ≡ papers_in word.now }
    ensures some { IfOk result (λ papers. 1 ≤ papers) }
    ensures few { IfOk result (λ papers. papers ≤ max_papers) }
{
    let papers = number_in(MAX_PAPERS, word)?;
    if papers == 0 {
        return Err(BallotsFlaw::NoPapers);
    }
    Ok(papers)
}

/// Parses the number of a withdrawn candidate, which follows a minus.
fn withdrawn_in(highest: u8, word: &[u8]) -> Result<u8, BallotsFlaw>
    ensures is { result ≡ withdrawn_in highest word.now }
    ensures some { IfOk result (λ c. 1 ≤ c) }
    ensures few { IfOk result (λ c. c ≤ highest) }
{
    match word {
        [b'-', number @ ..] => candidate_in(highest, number),
        _ => Err(BallotsFlaw::NotNumber),
    }
}

/// Adds the withdrawn candidates in the given words to the set.
fn withdrawn_from(highest: u8, withdrawn: Columns, words: &[&[u8]]) -> Result<Columns, BallotsFlaw>
    requires { highest ≤ max_candidates }
    ensures { result ≡ withdrawn_from highest withdrawn (map (λ w. w.now) words.now) }
{
    let mut withdrawn = withdrawn;
    for word in words {
        withdrawn = withdrawn.with(withdrawn_in(highest, word)?);
    }
    Ok(withdrawn)
}

impl PaperTotals {
    /// Stores the highest candidate number and the number of seats.
    pub(crate) fn take_size(&mut self, words: &[&[u8]]) -> Result<(), BallotsFlaw>
        ensures { outcome result (told_of self.new) ≡ with_size (told_of self.old) (map (λ w. w.now) words.now) }
    {
        let [highest, seats] = words else {
            return Err(BallotsFlaw::Size);
        };
        let highest = number_in(MAX_CANDIDATES as u32, highest)?;
        let seats = seats_in(seats)?;
        self.highest = highest as u8;
        self.seats = seats;
        Ok(())
    }

    /// Stores the withdrawn candidates.
    pub(crate) fn take_withdrawn(&mut self, words: &[&[u8]]) -> Result<(), BallotsFlaw>
        ensures { outcome result (told_of self.new) ≡ with_withdrawn (told_of self.old) (map (λ w. w.now) words.now) }
    {
        self.withdrawn = withdrawn_from(self.highest, self.withdrawn, words)?;
        Ok(())
    }

    /// Adds one or more papers with the same preferences.
    pub(crate) fn add(
        &mut self,
        papers: u32,
        list: &[u8],
    ) -> Result<Result<(), BallotsFlaw>, AllocError>
        requires some { 1 ≤ papers }
        requires ranking { IsRanking list.now }
        ensures { IfOk result (λ told. outcome told (told_of self.new) ≡ with_list (told_of self.old) papers list.now) }
    {
        if list.is_empty() {
            return Ok(Err(BallotsFlaw::NoPreference));
        }
        if papers > MAX_PAPERS - self.bundles.papers() {
            return Ok(Err(BallotsFlaw::TooManyPapers));
        }
        self.bundles.add_papers(list, papers)?;
        Ok(Ok(()))
    }

    /// Adds a bundle, given the number of its papers and their preferences.
    pub(crate) fn take_bundle(
        &mut self,
        alloc: Global,
        words: &[&[u8]],
    ) -> Result<Result<(), BallotsFlaw>, AllocError>
        ensures { IfOk result (λ told. outcome told (told_of self.new) ≡ with_bundle (told_of self.old) (map (λ w. w.now) words.now)) }
    {
        let [weight, ranks @ ..] = words else {
            return Ok(Err(BallotsFlaw::NoPapers));
        };
        let papers = match papers_in(weight) {
            Ok(papers) => papers,
            Err(flaw) => return Ok(Err(flaw)),
        };
        let named = match named_in(alloc, self.highest, &self.withdrawn, ranks)? {
            Ok(named) => named,
            Err(flaw) => return Ok(Err(flaw)),
        };
        let list = standing_of(alloc, &self.withdrawn, named)?;
        self.add(papers, &list)
    }
}
