//! The requests that orders send to the office.

ghost use Rattle.std.specs.Prelude.{◌≡◌, map, IfOk, string_bytes};
ghost use Rattle.keyfile.specs.Batches.{BatchRowEntry, batch_row_entry};
ghost use Rattle.keyfile.specs.Candidates.{CandidateEntry, candidate_entry};
ghost use Rattle.desk.specs.Orders.{asked_by, by_clerk, by_office, sent_as};
ghost use Rattle.desk.specs.Requests.{advance_at, advances, batch_asked, candidate_asked, id_at, keying_by, most_advances, requests_from};
ghost use Rattle.desk.specs.Seals.{seal_request};

use crate::orders::{ExpectedSeal, KeyingFile};
use keyfile::{BatchRow, CandidateRow};
use register::ranges::LAST_LOT_STAGE;
use register::{BatchCommand, CandidateCommand, Command, CountCommand, KeyingCommand, Request};
use std::alloc::{AllocError, Global};

/// The office itself, as the actor of these requests.
const OFFICE: u32 = 0;

/// Returns a request from the office itself.
pub(crate) fn by_office(id: String, command: Command) -> Request
    ensures { sent_as result ≡ by_office (string_bytes id) (asked_by command) }
{
    Request {
        actor: OFFICE,
        id,
        command,
    }
}

/// Returns a request from a clerk.
pub(crate) fn by_clerk(clerk: u32, id: String, command: Command) -> Request
    ensures { sent_as result ≡ by_clerk clerk (string_bytes id) (asked_by command) }
{
    Request {
        actor: clerk,
        id,
        command,
    }
}

/// Returns the request that stores a clerk's keying of the given papers, sent by the clerk.
pub(crate) fn keying_request(
    alloc: Global,
    keying: KeyingFile<'_>,
    papers: Vec<String>,
) -> Result<Request, AllocError>
    ensures { IfOk result (λ request. sent_as request ≡ keying_by keying.entry (map string_bytes papers.items)) }
{
    let id = String::from_str(alloc, keying.id)?;
    let command = KeyingCommand {
        batch: keying.batch,
        round: keying.round,
        papers,
    };
    Ok(by_clerk(keying.clerk, id, Command::Keying(command)))
}

#[tactic(auto, unfolding(crate::specs::Requests::id_at))]
/// Returns the request id for the record with the given number: the order's id, a hyphen, and the number.
fn id_at(alloc: Global, id: &str, number: usize) -> Result<String, AllocError>
    ensures { IfOk result (λ text. string_bytes text ≡ id_at id.now number) }
{
    format!(in alloc; "{id}-{number}")
}

/// A row of an import file. Each row is sent as one request from the office.
pub(crate) trait ImportRow: Drop {
    ghost use Rattle.desk.specs.Orders.{Asked};

    /// The entry that a row represents.
    ghost Entry: { Type 0 };

    ghost entry: { Self → Entry };

    /// What an entry requests.
    ghost asked: { Entry → Asked };

    /// Returns the command for the entry.
    fn command(&self) -> Result<Command, AllocError>
        ensures { IfOk result (λ command. asked_by command ≡ asked (entry self.now)) };
}

impl ImportRow for CandidateRow {
    ghost Entry = { CandidateEntry };

    ghost entry = { candidate_entry };

    ghost asked = { candidate_asked };

    /// Returns the command that adds the candidate.
    fn command(&self) -> Result<Command, AllocError> {
        Ok(Command::Candidate(CandidateCommand::Add {
            ward: self.ward,
            candidate: self.candidate,
            name: self.name.clone()?,
        }))
    }
}

impl ImportRow for BatchRow {
    ghost Entry = { BatchRowEntry };

    ghost entry = { batch_row_entry };

    ghost asked = { batch_asked };

    /// Returns the command that gives out the batch.
    fn command(&self) -> Result<Command, AllocError> {
        Ok(Command::Batch(BatchCommand::Add {
            batch: self.batch,
            ward: self.ward,
            size: self.size,
            first_clerk: self.first_clerk,
            second_clerk: self.second_clerk,
        }))
    }
}

/// Returns the request for the record with the given number.
fn request_at<T: ImportRow>(
    alloc: Global,
    id: &str,
    number: usize,
    row: &T,
) -> Result<Request, AllocError>
    ensures { IfOk result (λ request. sent_as request ≡ by_office (id_at id.now number) (T.asked (T.entry row.now))) }
{
    let command = row.command()?;
    Ok(by_office(id_at(alloc, id, number)?, command))
}

/// Returns the requests for the rows of a file, one per record.
pub(crate) fn requests_for<T: ImportRow>(
    alloc: Global,
    id: &str,
    rows: &[T],
) -> Result<Vec<Request>, AllocError>
    ensures { IfOk result (λ requests. map sent_as requests.items ≡ requests_from T.asked id.now 1 (map T.entry rows.now)) }
{
    let mut requests = Vec::new(alloc);
    for (i, row) in rows.iter().enumerate() {
        requests.push(request_at(alloc, id, i + 1, row)?)?;
    }
    Ok(requests)
}

/// Returns the request that seals a ward.
pub(crate) fn seal_request(alloc: Global, seal: ExpectedSeal<'_>) -> Result<Request, AllocError>
    ensures { IfOk result (λ request. sent_as request ≡ seal_request seal.entry) }
{
    let id = String::from_str(alloc, seal.id)?;
    let command = CountCommand::Seal { ward: seal.ward };
    Ok(by_office(id, Command::Count(command)))
}

/// Returns the request that counts a stage of a ward. `number` is its number within the order.
fn advance_at(alloc: Global, ward: u32, id: &str, number: usize) -> Result<Request, AllocError>
    ensures { IfOk result (λ request. sent_as request ≡ advance_at ward id.now number) }
{
    let id = id_at(alloc, id, number)?;
    Ok(by_office(id, Command::Count(CountCommand::Advance { ward })))
}

/// The highest stage number that a count can have. There are at most 30 candidates, and each stage after the first transfers the
/// papers of one of them, who then needs no further stage. So this is also the last stage for which a lot may be drawn.
const LAST_STAGE: u32 = LAST_LOT_STAGE;

/// The maximum number of requests in an order that counts: one more than the number of stages. The last one is refused.
const MOST_ADVANCES: usize = LAST_STAGE as usize + 1;

/// Returns the requests that count a ward's stages, starting with the first: as many as an order may send.
pub(crate) fn advances(alloc: Global, ward: u32, id: &str) -> Result<Vec<Request>, AllocError>
    ensures { IfOk result (λ requests. map sent_as requests.items ≡ advances ward id.now most_advances) }
{
    let mut requests = Vec::new(alloc);
    for before in 0..MOST_ADVANCES {
        requests.push(advance_at(alloc, ward, id, before + 1)?)?;
    }
    Ok(requests)
}
