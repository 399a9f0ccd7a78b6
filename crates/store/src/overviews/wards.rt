//! Overviews of all wards, read from the tables.

ghost use Rattle.std.specs.Prelude.{◌≡◌, true, map, Some};
ghost use Rattle.register.specs.Offices.{candidate_entry, ward_entry, ward_at};
ghost use Rattle.register.specs.Elections.{ElectionEntry, elected_of, is_counted, is_declared};
ghost use Rattle.register.specs.Tabulated.{IsCountedWard};
ghost use Rattle.store.specs.Overviews.{candidates_told, declared_in, ward_view, ward_view_of, ward_views};
ghost use Rattle.store.specs.Loads.{Loads, IsOpen};

use crate::storage::Store;
use paper::Columns;
use register::marks::columns_of;
use register::{Candidate, CountedWard, Phase, Status, Ward};
use sqlite::Alter;
use tables::Fault;

/// A ward and its status; and, once it has been declared, the elected candidates and all candidates.
#[derive(Drop)]
pub struct WardOverview {
    pub ward: Ward,
    pub status: Status,
    pub elected: Option<Columns>,
    pub candidates: Vec<Candidate>,
}

/// Returns the elected candidates. In an uncontested ward, all the candidates are elected.
pub fn elected_in(counted: &CountedWard) -> Columns
    ensures { (e : ElectionEntry) → IsCountedWard e counted.now → is_counted e.ward.phase ≡ true → result ≡ elected_of e }
{
    match &counted.count {
        Some(count) => count.kept.elected(),
        None => columns_of(&counted.candidates),
    }
}

/// Returns whether a phase is that of a declared ward.
fn is_declared(phase: Phase) -> bool
    ensures { result ≡ is_declared phase }
{
    phase.number() == Phase::Declared.number()
}

impl<S: Alter> Store<S> {
    /// Returns the elected candidates of a ward and all its candidates, if it is declared.
    pub(crate) fn declared_in(
        &mut self,
        ward: &Ward,
    ) -> Result<(Option<Columns>, Vec<Candidate>), Fault>
        requires { IsOpen S.Store self.old }
        ensures { Loads S.Store self.old self.new result (λ s found. ward_at s ward.now.number ≡ Some (ward_entry ward.now)
            → (found.0 ≡ declared_in s (ward_entry ward.now)) × (map candidate_entry found.1.items ≡ candidates_told s (ward_entry ward.now))) }
    {
        if !is_declared(ward.phase) {
            return Ok((None, Vec::new(self.allocator())));
        }
        let found = self.load_counted(ward.number)?;
        match found {
            Some(counted) => {
                let elected = elected_in(&counted);
                Ok((Some(elected), counted.candidates))
            }
            None => Ok((None, Vec::new(self.allocator()))),
        }
    }

    /// Returns the overview of a ward: its status, and the elected candidates, if it is declared.
    fn ward_overview(&mut self, ward: Ward) -> Result<WardOverview, Fault>
        ensures { Loads S.Store self.old self.new result (λ s found. ward_at s ward.number ≡ Some (ward_entry ward) → ward_view found ≡ ward_view_of s (ward_entry ward)) }
    {
        let status = self.ward_status(&ward)?;
        let declared = self.declared_in(&ward)?;
        Ok(WardOverview {
            ward,
            status,
            elected: declared.0,
            candidates: declared.1,
        })
    }

    /// Returns the overviews of the given wards, which are all the wards of an office. They are read one after another.
    fn ward_overviews(&mut self, wards: Vec<Ward>) -> Result<Vec<WardOverview>, Fault>
        requires { IsOpen S.Store self.old }
        ensures { Loads S.Store self.old self.new result (λ s found. map ward_entry wards.items ≡ s.wards → map ward_view found.items ≡ ward_views s) }
    {
        let mut found = Vec::new(self.allocator());
        for ward in wards {
            let overview = self.ward_overview(ward)?;
            if found.push(overview).is_err() {
                return Err(Fault::Memory);
            }
        }
        Ok(found)
    }

    /// Returns the overviews of all wards, ordered by number, each with its status and its candidates. Once a ward has
    /// been declared, its overview has the elected candidates, according to its stored count. Changes nothing, and
    /// doesn't add to the states that a stop may leave behind. Returns `Memory` or `Store` if a row can't be read.
    pub fn load_wards(&mut self) -> Result<Vec<WardOverview>, Fault>
        ensures { Loads S.Store self.old self.new result (λ s found. map ward_view found.items ≡ ward_views s) }
    {
        let wards = self.all_wards()?;
        let found = self.ward_overviews(wards)?;
        Ok(found)
    }
}
