//! Reading the requests in import files.

ghost use Rattle.std.specs.Prelude.{option_map, [], ◌∷◌, IfErr, IfOk};
ghost use Rattle.sqlite.specs.Held.{state};
ghost use Rattle.tables.specs.Reading.{OnlyReads};
ghost use Rattle.keyfile.specs.Batches.{batches};
ghost use Rattle.keyfile.specs.Candidates.{candidates};
ghost use Rattle.keyfile.specs.Digests.{asked_digest};
ghost use Rattle.keyfile.specs.Keying.{keying};
ghost use Rattle.office.specs.Answers.{WhenOpenAt};
ghost use Rattle.desk.specs.Parts.{IsKeyingRead, IsUnread};
ghost use Rattle.desk.specs.Pages.{page_of};
ghost use Rattle.desk.specs.Requests.{HoldsRequests, batch_asked, candidate_asked, keyings_for, requests_for};

use crate::lines::LineOutcome;
use crate::orders::KeyingFile;
use crate::requests::{keying_request, requests_for};
use keyfile::{FileDigest, FileFault, Flaw, read_batches, read_candidates, read_keying};
use office::{Office, ReadError};
use paper::Columns;
use register::Request;
use sqlite::Alter;
use std::alloc::{AllocError, Global};
use std::io::Read;
use store::Fault;

/// The fault of a file that can't be opened.
pub(crate) const UNOPENED: FileFault = FileFault {
    flaw: Flaw::ReadFailed,
    record_number: 0,
};

/// Returns the requests that add the candidates in a file, or the reason why there are none. `file` is None if it couldn't be
/// opened; otherwise it is read to the end. If a digest is given, the bytes that the requests are read from have that digest.
pub(crate) fn candidate_requests<R: Read + Drop>(
    alloc: Global,
    id: &str,
    file: Option<R>,
    digest: Option<FileDigest>,
) -> Result<Vec<Request>, LineOutcome>
    ensures rows { IfOk result (λ requests. HoldsRequests candidates (requests_for candidate_asked id.now) (asked_digest digest) (option_map R.remaining file) requests.items) }
    ensures refused { IfErr result (λ outcome. IsUnread candidates (asked_digest digest) (option_map R.remaining file) (page_of outcome)) }
{
    let Some(file) = file else {
        return Err(LineOutcome::Unread(UNOPENED));
    };
    let rows = match read_candidates(alloc, file, digest) {
        Ok(rows) => rows,
        Err(fault) => return Err(LineOutcome::Unread(fault)),
    };
    match requests_for(alloc, id, &rows) {
        Ok(requests) => Ok(requests),
        Err(_) => Err(LineOutcome::Failed(Fault::Memory)),
    }
}

/// Returns the requests that give out the batches in a file, or the reason why there are none. `file` is None if it couldn't be
/// opened; otherwise it is read to the end. If a digest is given, the bytes that the requests are read from have that digest.
pub(crate) fn batch_requests<R: Read + Drop>(
    alloc: Global,
    id: &str,
    file: Option<R>,
    digest: Option<FileDigest>,
) -> Result<Vec<Request>, LineOutcome>
    ensures rows { IfOk result (λ requests. HoldsRequests batches (requests_for batch_asked id.now) (asked_digest digest) (option_map R.remaining file) requests.items) }
    ensures refused { IfErr result (λ outcome. IsUnread batches (asked_digest digest) (option_map R.remaining file) (page_of outcome)) }
{
    let Some(file) = file else {
        return Err(LineOutcome::Unread(UNOPENED));
    };
    let rows = match read_batches(alloc, file, digest) {
        Ok(rows) => rows,
        Err(fault) => return Err(LineOutcome::Unread(fault)),
    };
    match requests_for(alloc, id, &rows) {
        Ok(requests) => Ok(requests),
        Err(_) => Err(LineOutcome::Failed(Fault::Memory)),
    }
}

/// Returns the request that stores the keying in a file whose papers have the given columns, or the reason why there is none.
/// `file` is None if it couldn't be opened; otherwise it is read to the end. If the file names a batch and a clerk, the request has
/// the same ones. If a digest is given, the bytes that the request is read from have that digest.
fn keying_in<R: Read + Drop>(
    alloc: Global,
    keyed: KeyingFile<'_>,
    columns: Columns,
    file: Option<R>,
) -> Result<Request, LineOutcome>
    ensures papers { let format = keying columns keyed.entry.batch keyed.entry.clerk in
        IfOk result (λ request. HoldsRequests format (keyings_for keyed.entry) (asked_digest keyed.entry.digest) (option_map R.remaining file) (request ∷ [])) }
    ensures refused { let format = keying columns keyed.entry.batch keyed.entry.clerk in
        IfErr result (λ outcome. IsUnread format (asked_digest keyed.entry.digest) (option_map R.remaining file) (page_of outcome)) }
{
    let Some(file) = file else {
        return Err(LineOutcome::Unread(UNOPENED));
    };
    let read = read_keying(alloc, file, columns, keyed.batch, keyed.clerk, keyed.digest);
    let papers = match read {
        Ok(papers) => papers,
        Err(fault) => return Err(LineOutcome::Unread(fault)),
    };
    match keying_request(alloc, keyed, papers) {
        Ok(request) => Ok(request),
        Err(AllocError) => Err(LineOutcome::Failed(Fault::Memory)),
    }
}

/// Returns the request that stores the keying of a batch in a file, or the reason why there is none. `file` is None if it couldn't
/// be opened.
///
/// The columns are those of the batch's ward. If there is no such batch, the file isn't read.
pub(crate) fn keying_of<S: Alter, R: Read + Drop>(
    alloc: Global,
    office: &mut Office<S>,
    keyed: KeyingFile<'_>,
    file: Option<R>,
) -> Result<Request, LineOutcome>
    ensures read { WhenOpenAt (state S.Store) office.old office.new
        (λ s. IsKeyingRead s keyed.entry (option_map R.remaining file) page_of result office.new.closed (state S.Store office.old.held) (state S.Store office.new.held)) }
    ensures same { OnlyReads (state S.Store office.old.held) (state S.Store office.new.held) }
{
    match office.columns(keyed.batch) {
        Ok(columns) => keying_in(alloc, keyed, columns, file),
        Err(ReadError::Refused(refusal)) => Err(LineOutcome::Refused(refusal)),
        Err(ReadError::Fault(fault)) => Err(LineOutcome::Failed(fault)),
    }
}
