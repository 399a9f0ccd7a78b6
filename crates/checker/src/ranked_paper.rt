//! A paper in cast-vote records with a rank in each column.

ghost use Rattle.std.specs.Prelude.{◌≡◌, ◌≤◌, ◌<◌, ◌==◌, true, false, length, map, string_bytes, IfOk, OnOk};
ghost use Rattle.std.specs.List.{list_any};
ghost use Rattle.paper.specs.Columns.{max_candidates};
ghost use Rattle.paper.specs.Ranking.{IsRanking};
ghost use Rattle.checker.specs.Outcomes.{outcome};
ghost use Rattle.checker.specs.RankFields.{candidate_named, is_of, nothing_ranked, with_candidate, with_next, with_rank_within};

use crate::comments::is_word;
use crate::numbers::number_in;
use crate::problem::BallotsFlaw;
use paper::MAX_CANDIDATES;
use std::alloc::{AllocError, Global};
use std::marker::Model;

/// A paper as far as the fields of its line have been read.
#[derive(Drop)]
pub(crate) struct RankedPaper {
    /// The number of fields.
    fields: u8,
    /// The candidates before the first empty field.
    preferences: Vec<u8>,
    /// Whether no field has been empty so far.
    is_open: bool,
    /// The candidates after an empty field.
    later: Vec<u8>,
}

impl Model for RankedPaper {
    ghost use Rattle.paper.specs.Ranking.{IsRanking};
    ghost use Rattle.checker.specs.RankFields.{PaperEntry};

    ghost Value = { PaperEntry };

    ghost view = { λ a. record { fields = a.fields; preferences = a.preferences.items; is_open = a.is_open; later = a.later.items } };

    ghost invariant = { λ a. IsRanking a.preferences.items };
}

/// Returns whether the field names the candidate with the given number and name.
fn is_of(field: &[u8], c: u8, name: &str) -> bool
    ensures { result ≡ is_of field.now c name.now }
{
    if is_word(name, field) {
        return true;
    }
    match number_in(MAX_CANDIDATES as u32, field) {
        Ok(number) => number == u32::from(c),
        Err(_) => false,
    }
}

/// Returns the only candidate that the field names, by number or by name.
fn candidate_named(names: &[String], field: &[u8]) -> Result<u8, BallotsFlaw>
    requires { length names.now ≤ max_candidates }
    ensures is { result ≡ candidate_named (map string_bytes names.now) field.now }
    ensures some { IfOk result (λ c. 1 ≤ c) }
    ensures few { IfOk result (λ c. c ≤ max_candidates) }
{
    let mut found = None;
    for i in 0..names.len() {
        let c = i as u8 + 1;
        if !is_of(field, c, names[i].as_str()) {
            continue;
        }
        if found.is_some() {
            return Err(BallotsFlaw::SeveralCandidates);
        }
        found = Some(c);
    }
    match found {
        Some(c) => Ok(c),
        None => Err(BallotsFlaw::NotCandidate),
    }
}

/// Returns whether the candidate is in the list.
fn is_among(c: u8, list: &[u8]) -> bool
    ensures { result ≡ list_any (λ d. d == c) list.now }
{
    list.contains(&c)
}

impl RankedPaper {
    /// Returns the paper before the first field.
    pub(crate) fn new(alloc: Global) -> Result<RankedPaper, AllocError>
        ensures { IfOk result (λ paper. paper ≡ nothing_ranked) }
    {
        Ok(RankedPaper {
            fields: 0,
            preferences: Vec::with_capacity(alloc, MAX_CANDIDATES)?,
            is_open: true,
            later: Vec::new(alloc),
        })
    }

    /// Appends the next preference.
    fn add_preference(&mut self, c: u8) -> Result<(), AllocError>
        requires some { 1 ≤ c }
        requires few { c ≤ max_candidates }
        requires fields { self.old.fields < 255 }
        requires is_open { self.old.is_open ≡ true }
        requires is_new { list_any (λ d. d == c) self.old.preferences ≡ false }
        ensures { OnOk result (self.new ≡ with_next self.old c) }
    {
        self.preferences.push(c)?;
        self.fields += 1;
        Ok(())
    }

    /// Appends the next candidate after an empty field.
    fn add_later(&mut self, c: u8) -> Result<(), AllocError>
        requires fields { self.old.fields < 255 }
        requires is_closed { self.old.is_open ≡ false }
        ensures { OnOk result (self.new ≡ with_next self.old c) }
    {
        self.later.push(c)?;
        self.fields += 1;
        Ok(())
    }

    /// Appends the next candidate, who must not have appeared before.
    fn add(&mut self, c: u8) -> Result<Result<(), BallotsFlaw>, AllocError>
        requires some { 1 ≤ c }
        requires few { c ≤ max_candidates }
        requires fields { self.old.fields < 255 }
        ensures { IfOk result (λ told. outcome told self.new ≡ with_candidate self.old c) }
    {
        if is_among(c, &self.preferences) || is_among(c, &self.later) {
            return Ok(Err(BallotsFlaw::CandidateTwice));
        }
        if self.is_open {
            self.add_preference(c)?;
        } else {
            self.add_later(c)?;
        }
        Ok(Ok(()))
    }

    /// Processes the next field, given the number of rank columns.
    pub(crate) fn take(
        &mut self,
        names: &[String],
        ranks: u8,
        field: &[u8],
    ) -> Result<Result<(), BallotsFlaw>, AllocError>
        requires { length names.now ≤ max_candidates }
        ensures { IfOk result (λ told. outcome told self.new ≡ with_rank_within (map string_bytes names.now) ranks self.old field.now) }
    {
        if self.fields >= ranks {
            return Ok(Err(BallotsFlaw::FieldCount));
        }
        if field.is_empty() {
            self.is_open = false;
            self.fields += 1;
            return Ok(Ok(()));
        }
        match candidate_named(names, field) {
            Ok(c) => self.add(c),
            Err(flaw) => Ok(Err(flaw)),
        }
    }

    /// Returns whether a field has been read for each rank column.
    pub(crate) fn is_complete(&self, ranks: u8) -> bool
        ensures { result ≡ (self.now.fields == ranks) }
    {
        self.fields == ranks
    }

    /// Returns the preferences: the candidates before the first empty field.
    pub(crate) fn preferences(&self) -> &[u8]
        ensures is { result.now ≡ self.now.preferences }
        ensures ranking { IsRanking result.now }
    {
        &self.preferences
    }
}
