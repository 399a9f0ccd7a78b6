//! The page listing all wards, generated from their overviews.
#![tactic(auto, using(crate::proofs::StopLemmas::stops_of_memory))]

ghost use Rattle.std.specs.Prelude.{◌≡◌, false, true, nat_eq, map, IfOk, IfErr, OnOk, Err, string_bytes};
ghost use Rattle.std.specs.List.{filter, list_any};
ghost use Rattle.sqlite.specs.Held.{state};
ghost use Rattle.register.specs.Offices.{candidate_entry};
ghost use Rattle.sheet.specs.Index.{elected_shown, index, listed};
ghost use Rattle.store.specs.Overviews.{ward_view};
ghost use Rattle.tables.specs.Reading.{OnlyReads};
ghost use Rattle.office.specs.Answers.{WhenOpenAt};
ghost use Rattle.office.specs.Index.{index_answer, is_among_elected, listed_shown, standing_in};
ghost use Rattle.office.specs.Reads.{ReadWhenOpen, ReadFailsBy, ClosesAt};
ghost use Rattle.office.specs.Sheets.{candidate_shown};

use crate::answers::ReadError;
use crate::open_office::Office;
use paper::Columns;
use register::{Candidate, Phase};
use sheet::{ListedWard, WardStanding, index_text};
use sqlite::Alter;
use std::alloc::{AllocError, Global};
use store::{Fault, WardOverview};

/// Returns the public standing of a ward in the given phase.
fn standing_in(phase: Phase) -> WardStanding
    ensures { result ≡ standing_in phase }
{
    match phase {
        Phase::Nominations => WardStanding::Nominations,
        Phase::Keying => WardStanding::Keying,
        Phase::Sealed => WardStanding::Sealed,
        Phase::Declared => WardStanding::Declared,
    }
}

/// Returns true if a column has the number of a candidate.
fn has_number(number: u32, column: u8) -> bool
    ensures { result ≡ nat_eq number column }
{
    number == u32::from(column)
}

/// Returns true if the number of a candidate is among the given columns.
fn is_among(columns: &[u8], number: u32) -> bool
    ensures { result ≡ list_any (nat_eq number) columns.now }
{
    columns.iter().any(|column| has_number(number, *column))
}

/// Returns true if the elected candidates are known and the given candidate is one of them.
fn is_elected(elected: &Option<Columns>, candidate: &Candidate) -> bool
    ensures { result ≡ is_among_elected elected.now (candidate_entry candidate.now) }
{
    match elected {
        None => false,
        Some(elected) => is_among(elected.as_slice(), candidate.number),
    }
}

/// Returns the number and name of each elected candidate among the given ones.
fn elected_names(
    alloc: Global,
    elected: &Option<Columns>,
    candidates: &[Candidate],
) -> Result<Vec<(u32, String)>, AllocError>
    ensures { IfOk result (λ names. map elected_shown names.items ≡ map candidate_shown (filter (is_among_elected elected.now) (map candidate_entry candidates.now))) }
{
    let mut names = Vec::new(alloc);
    for candidate in candidates {
        if is_elected(elected, candidate) {
            names.push((candidate.number, candidate.name.clone()?))?;
        }
    }
    Ok(names)
}

/// Returns the list entry of a ward.
fn listed_of(alloc: Global, overview: &WardOverview) -> Result<ListedWard, AllocError>
    ensures { IfOk result (λ ward. listed ward ≡ listed_shown (ward_view overview.now)) }
{
    Ok(ListedWard {
        number: overview.ward.number,
        name: overview.ward.name.clone()?,
        seats: overview.ward.seats,
        standing: standing_in(overview.ward.phase),
        is_contested: (overview.ward.seats as usize) < overview.status.candidates,
        elected: elected_names(alloc, &overview.elected, &overview.candidates)?,
    })
}

/// Returns the list entries of all wards.
fn all_listed(alloc: Global, overviews: &[WardOverview]) -> Result<Vec<ListedWard>, AllocError>
    ensures { IfOk result (λ wards. map listed wards.items ≡ map listed_shown (map ward_view overviews.now)) }
{
    let mut wards = Vec::new(alloc);
    for overview in overviews {
        wards.push(listed_of(alloc, overview)?)?;
    }
    Ok(wards)
}

/// Returns the page listing all wards, given their overviews.
fn index_over(alloc: Global, title: &str, overviews: &[WardOverview]) -> Result<String, AllocError>
    ensures { IfOk result (λ text. string_bytes text ≡ index title.now (map listed_shown (map ward_view overviews.now))) }
{
    let wards = all_listed(alloc, overviews)?;
    index_text(alloc, title, &wards)
}

impl<S: Alter> Office<S> {
    /// Returns the page listing all wards, given their overviews. Fails only if an allocation fails, which leaves the
    /// office open.
    fn index_of(&mut self, title: &str, overviews: &[WardOverview]) -> Result<String, ReadError>
        ensures told { IfOk result (λ text. string_bytes text ≡ index title.now (map listed_shown (map ward_view overviews.now))) }
        ensures stopped { IfErr result (λ stop. (stop ≡ ReadError.Fault Fault.Memory) × (self.new.closed ≡ false)) }
        ensures held { self.new.held ≡ self.old.held }
        ensures open_still { OnOk result (self.new.closed ≡ self.old.closed) }
    {
        match index_over(self.alloc, title, overviews) {
            Ok(text) => Ok(text),
            Err(AllocError) => Err(self.stopped_by(Fault::Memory)),
        }
    }

    /// Returns the page listing all wards, to be displayed in public. It shows the standing of each ward and, once the
    /// ward is declared, who is elected and which seats stay empty. An empty title is left out.
    ///
    /// Nothing is changed. After `Memory` the office stays open; any other fault closes it. A closed office returns
    /// `Closed`.
    pub fn index(&mut self, title: &str) -> Result<String, ReadError>
        ensures reads { ReadWhenOpen (state S.Store) self.old self.new string_bytes (λ s. index_answer title.now s) result }
        ensures same { OnlyReads (state S.Store self.old.held) (state S.Store self.new.held) }
        ensures closes { IfErr result (ClosesAt self.new.closed) }
        ensures cause { WhenOpenAt (state S.Store) self.old self.new (λ s. IfErr result (ReadFailsBy (state S.Store self.old.held) (state S.Store self.new.held))) }
        ensures closed { self.old.closed ≡ true → (result ≡ Err (ReadError.Fault Fault.Closed)) × (self.new ≡ self.old) }
    {
        let overviews = match self.wards() {
            Ok(overviews) => overviews,
            Err(stop) => return Err(stop),
        };
        self.index_of(title, &overviews)
    }
}
