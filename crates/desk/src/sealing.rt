//! Sealing a ward, provided that the expected number of papers was given out.

ghost use Rattle.std.specs.Prelude.{◌≡◌, ◌≢◌, ◌⊎◌, map, IfErr, IfOk};
ghost use Rattle.sqlite.specs.Held.{state};
ghost use Rattle.tables.specs.Reading.{OnlyReads};
ghost use Rattle.store.specs.Overviews.{batch_view};
ghost use Rattle.office.specs.Answers.{WhenOpenAt};
ghost use Rattle.desk.specs.Orders.{sent_as};
ghost use Rattle.desk.specs.Pages.{failed, page_of, unsealed};
ghost use Rattle.desk.specs.Parts.{IsSealRead};
ghost use Rattle.desk.specs.Seals.{given_out, seal_request};

use crate::lines::{Failure, LineOutcome};
use crate::orders::ExpectedSeal;
use crate::requests::seal_request;
use office::{Office, ReadError};
use register::Request;
use sqlite::Alter;
use std::alloc::{AllocError, Global};
use store::{BatchOverview, Fault};

/// Returns how many papers were given out in the given batches. Their sizes always add up to less than 2^128.
fn given_out(batches: &[BatchOverview]) -> u128
    ensures { result ≡ given_out (map batch_view batches.now) }
{
    let mut papers = 0;
    for batch in batches {
        papers += u128::from(batch.batch.size);
    }
    papers
}

/// Returns the request that seals a ward if the number of papers given out is the expected one, or the reason why the request isn't
/// sent.
fn seal_for(alloc: Global, seal: ExpectedSeal<'_>, given_out: u128) -> Result<Request, LineOutcome>
    ensures sent { IfOk result (λ request. (given_out ≡ seal.entry.papers) × (sent_as request ≡ seal_request seal.entry)) }
    ensures unsent { IfErr result (λ outcome. ((given_out ≢ seal.entry.papers) × (page_of outcome ≡ unsealed given_out seal.entry.papers))
        ⊎ (page_of outcome ≡ failed (Failure.Office Fault.Memory))) }
{
    if given_out != u128::from(seal.papers) {
        return Err(LineOutcome::Unsealed {
            given_out,
            expected: seal.papers,
        });
    }
    match seal_request(alloc, seal) {
        Ok(request) => Ok(request),
        Err(AllocError) => Err(LineOutcome::Failed(Fault::Memory)),
    }
}

/// Returns the request that seals a ward if as many papers as expected were given out to its batches, or the reason why the request
/// isn't sent.
pub(crate) fn seal_of<S: Alter>(
    alloc: Global,
    office: &mut Office<S>,
    seal: ExpectedSeal<'_>,
) -> Result<Request, LineOutcome>
    ensures read { WhenOpenAt (state S.Store) office.old office.new
        (λ s. IsSealRead s seal.entry page_of result office.new.closed (state S.Store office.old.held) (state S.Store office.new.held)) }
    ensures same { OnlyReads (state S.Store office.old.held) (state S.Store office.new.held) }
{
    match office.batches(seal.ward) {
        Ok(batches) => seal_for(alloc, seal, given_out(&batches)),
        Err(ReadError::Refused(refusal)) => Err(LineOutcome::Refused(refusal)),
        Err(ReadError::Fault(fault)) => Err(LineOutcome::Failed(fault)),
    }
}
