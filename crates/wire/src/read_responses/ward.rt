//! The JSON for one ward, with its next step and its papers.

ghost use Rattle.std.specs.Prelude.{◌≡◌, ◌==◌, IfOk, find, map, option_map};
ghost use Rattle.serde_json.specs.View.{view};
ghost use Rattle.register.specs.NextSteps.{step_entry};
ghost use Rattle.store.specs.Overviews.{WardView, batch_view, ward_view};
ghost use Rattle.wire.specs.OfficeReads.{ward_papers_view, ward_read_view};
ghost use Rattle.wire.specs.OfficeReplies.{agreed_in, given_out, size_in, ward_read_data};
ghost use Rattle.wire.specs.Serving.{IsReadTold, found_response, refused_for, ward_response};
ghost use Rattle.wire.specs.Told.{IsTold};

use crate::candidates::candidates_value;
use crate::office_responses::{faulted, refused, valued};
use crate::read_responses::found::{WardPapers, WardRead};
use crate::read_responses::steps::step_value;
use crate::read_responses::wards::ward_value;
use crate::response::Response;
use office::ReadError;
use register::{NextStep, Reason, Refusal};
use serde_json::{Value, json};
use std::alloc::{AllocError, Global};
use store::{BatchOverview, BatchStanding, Fault, WardOverview};

/// Returns the total size of the batches.
fn given_out(batches: &[BatchOverview]) -> u64
    ensures { result ≡ given_out (map batch_view batches.now) }
{
    let mut papers: u64 = 0;
    for overview in batches {
        papers = papers.saturating_add(u64::from(overview.batch.size));
    }
    papers
}

/// Returns the size of a batch if it is taken, otherwise 0.
fn size_in(standing: BatchStanding, size: u32) -> u32
    ensures { result ≡ size_in standing size }
{
    match standing {
        BatchStanding::Taken => size,
        BatchStanding::Differing => 0,
        BatchStanding::Waiting => 0,
    }
}

/// Returns the total size of the taken batches.
fn agreed_in(batches: &[BatchOverview]) -> u64
    ensures { result ≡ agreed_in (map batch_view batches.now) }
{
    let mut papers: u64 = 0;
    for overview in batches {
        let size = size_in(overview.standing, overview.batch.size);
        papers = papers.saturating_add(u64::from(size));
    }
    papers
}

/// Returns a ward with its next step and its papers, as a JSON value.
fn read_value(
    alloc: Global,
    ward: &WardOverview,
    next: &NextStep,
    papers: &WardPapers,
) -> Result<Value, AllocError>
    ensures { IfOk result (λ value. view value ≡ ward_read_data (ward_view ward.now) (step_entry next.now) (ward_papers_view papers.now)) }
{
    let candidates = candidates_value(alloc, &papers.doubtful.candidates)?;
    let next = step_value(alloc, next)?;
    let ward = ward_value(alloc, ward)?;
    let (agreed, given_out) = (agreed_in(&papers.batches), given_out(&papers.batches));
    json!(in alloc; {
        "candidates": candidates, "next": next, "papers_agreed": agreed, "papers_given_out": given_out, "ward": ward
    })
}

/// Returns the ward with the given number from a list of wards.
fn ward_in(wards: &[WardOverview], number: u32) -> Option<&WardOverview>
    ensures { option_map (λ w. ward_view w.now) result ≡ find (λ (w : WardView). w.ward.number == number) (map ward_view wards.now) }
{
    for overview in wards {
        if overview.ward.number == number {
            return Some(overview);
        }
    }
    None
}

/// Returns the response saying that the ward doesn't exist.
fn no_such_ward(alloc: Global) -> Response
    ensures { IsTold (refused_for Reason.NoSuchWard) result }
{
    match Refusal::new(alloc, Reason::NoSuchWard) {
        Ok(why) => refused(alloc, &why),
        Err(_) => faulted(alloc, Fault::Memory),
    }
}

/// Returns the response with a ward, if it was found; otherwise the response saying that it doesn't exist.
fn answer_found(alloc: Global, ward: Option<&WardOverview>, found: &WardRead) -> Response
    ensures { IsTold (found_response (ward_read_view found.now) (option_map (λ w. ward_view w.now) ward.entry)) result }
{
    match ward {
        Some(ward) => valued(
            alloc,
            read_value(alloc, ward, &found.progress.next, &found.papers),
        ),
        None => no_such_ward(alloc),
    }
}

/// Returns the response with a ward, or with the refusal or fault.
pub(crate) fn answer_ward(alloc: Global, ward: u32, told: Result<WardRead, ReadError>) -> Response
    ensures { IsReadTold (ward_response ward) ward_read_view told result }
{
    match told {
        Ok(found) => answer_found(alloc, ward_in(&found.progress.wards, ward), &found),
        Err(ReadError::Refused(why)) => refused(alloc, &why),
        Err(ReadError::Fault(fault)) => faulted(alloc, fault),
    }
}
