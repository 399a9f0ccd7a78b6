//! The ward described by a file.

ghost use Rattle.std.specs.Prelude.{◌≡◌, ◌≤◌, length, map, string_bytes, IfOk};
ghost use Rattle.paper.specs.Columns.{IsCandidateSet, max_candidates};
ghost use Rattle.sheet.specs.Wards.{CanBePrinted, HasFewPapers};
ghost use Rattle.sheet.specs.Entries.{shown};
ghost use Rattle.checker.specs.Values.{ballots_of};
ghost use Rattle.checker.specs.Wards.{candidates_of, candidates_told, numbers_of, poll_by, ward_told};

use crate::file_content::WardBallots;
use count::Bundles;
use paper::Columns;
use sheet::{Poll, Ward};
use std::alloc::{AllocError, Global};

/// A ward, the bundles of its papers, and the lots with which it is counted. Each lot is a stage, counted from 1, and a candidate.
#[derive(Clone, Copy)]
pub(crate) struct Election<'a> {
    pub(crate) ward: Ward<'a>,
    pub(crate) bundles: &'a Bundles,
    pub(crate) lots: &'a [(u8, u8)],
}

/// Returns the candidates with the given names, numbered consecutively from 1; withdrawn numbers are skipped.
pub(crate) fn candidates_of(
    alloc: Global,
    withdrawn: &Columns,
    names: &[String],
) -> Result<Vec<(u8, String)>, AllocError>
    requires { length names.now ≤ max_candidates }
    ensures is { IfOk result (λ candidates. map (λ candidate. (candidate.0, string_bytes candidate.1)) candidates.items ≡ candidates_of withdrawn.now (map string_bytes names.now)) }
    ensures set { IfOk result (λ candidates. IsCandidateSet (map (λ candidate. candidate.0) candidates.items)) }
{
    let mut candidates = Vec::new(alloc);
    for (i, name) in names.iter().enumerate() {
        let c = i as u8 + 1;
        if withdrawn.has(c) {
            continue;
        }
        candidates.push((c, String::from_str(alloc, name.as_str())?))?;
    }
    Ok(candidates)
}

/// Returns the numbers of a ward's candidates.
pub(crate) fn numbers_of(ward: &Ward) -> Columns
    requires { CanBePrinted ward.now }
    ensures { result ≡ numbers_of (shown ward.now) }
{
    let mut columns = Columns::empty();
    for candidate in ward.candidates {
        columns = columns.with(candidate.0);
    }
    columns
}

/// Returns the poll of a ward, given the numbers of candidates and seats.
pub(crate) fn poll_by(
    rejected: Option<[u32; 5]>,
    bundles: &Bundles,
    candidates: usize,
    seats: u8,
) -> Option<Poll>
    ensures is { result ≡ poll_by rejected bundles.now candidates seats }
    ensures few { HasFewPapers result }
{
    let valid = bundles.papers();
    match rejected {
        Some(rejected) => Some(Poll { valid, rejected }),
        None => {
            if bundles.len() == 0 && candidates <= usize::from(seats) {
                return None;
            }
            Some(Poll {
                valid,
                rejected: [0; 5],
            })
        }
    }
}

/// Returns the ward described by a file, given its candidates.
pub(crate) fn ward_in<'a>(told: &'a WardBallots, candidates: &'a [(u8, String)]) -> Ward<'a>
    requires candidates { map (λ candidate. (candidate.0, string_bytes candidate.1)) candidates.now ≡ candidates_told (ballots_of told.now) }
    requires set { IsCandidateSet (map (λ candidate. candidate.0) candidates.now) }
    ensures is { shown result ≡ ward_told (ballots_of told.now) }
    ensures printable { CanBePrinted result }
{
    let seats = told.seats;
    Ward {
        number: told.comments.ward.unwrap_or(1),
        name: told.names.ward.as_str(),
        seats,
        candidates,
        poll: poll_by(
            told.comments.rejected,
            &told.bundles,
            candidates.len(),
            seats,
        ),
    }
}
