//! The names of a ward's candidates, by number.

ghost use Rattle.std.specs.Prelude.{◌≡◌, map, option_map, IfOk};
ghost use Rattle.register.specs.Offices.{candidate_entry};
ghost use Rattle.desk.specs.CandidateNames.{candidate_in, name_of, names_of, name_in, names_told};

use paper::MAX_CANDIDATES;
use register::Candidate;
use std::alloc::{AllocError, Global};

/// The length of the table: 0, which is not the number of any candidate, and 1 to the highest candidate number.
const PLACES: u32 = MAX_CANDIDATES as u32 + 1;

/// The names of a ward's candidates, each at the index of its number. The names at other indices are empty.
#[derive(Drop)]
pub(crate) struct NamesByNumber<'a> {
    places: Vec<&'a str>,
}

/// Returns the candidate with the given number.
pub(crate) fn candidate_in<'a>(candidates: &'a [Candidate], number: u32) -> Option<&'a Candidate>
    ensures { option_map (λ c. candidate_entry c.now) result ≡ candidate_in (map candidate_entry candidates.now) number }
{
    for candidate in candidates {
        if candidate.number == number {
            return Some(candidate);
        }
    }
    None
}

/// Returns the name of the candidate with the given number, or an empty string if there is none.
pub(crate) fn name_of<'a>(candidates: &'a [Candidate], number: u32) -> &'a str
    ensures { result.now ≡ name_of (map candidate_entry candidates.now) number }
{
    match candidate_in(candidates, number) {
        Some(candidate) => candidate.name.as_str(),
        None => "",
    }
}

impl<'a> NamesByNumber<'a> {
    #[tactic(auto, unfolding(crate::specs::CandidateNames::names_of))]
    /// Returns the names of the given candidates. Each number from 0 to 30 is looked up once, so that the name for a preference
    /// can then be found by index.
    pub(crate) fn new(
        alloc: Global,
        candidates: &'a [Candidate],
    ) -> Result<NamesByNumber<'a>, AllocError>
        ensures { IfOk result (λ names. names_told names ≡ names_of (map candidate_entry candidates.now)) }
    {
        let mut places = Vec::new(alloc);
        for number in 0..PLACES {
            places.push(name_of(candidates, number))?;
        }
        Ok(NamesByNumber { places })
    }

    /// Returns the name at an index, or an empty string if the index is out of range.
    pub(crate) fn name(&self, number: u8) -> &'a str
        ensures { result.now ≡ name_in (names_told self.now) number }
    {
        match self.places.get(usize::from(number)) {
            Some(name) => *name,
            None => "",
        }
    }
}
