//! The candidate file, for one ward or several: `ward,candidate,name`.

ghost use Rattle.std.specs.Prelude.{◌≡◌, false, ◌⊎◌, map, IfOk, IfErr, Ok, Err};
ghost use Rattle.keyfile.specs.Candidates.{CandidateEntry, candidate_entry, candidates, is_candidate_header, numbered};
ghost use Rattle.keyfile.specs.Digests.{IsFaultBy, IsReadAs, asked_digest};
ghost use Rattle.keyfile.specs.Files.{file_rows};
ghost use Rattle.keyfile.specs.Faults.{is_failed_read};
ghost use Rattle.paper.specs.Digits.{plain_number_in};
ghost use Rattle.keyfile.specs.Reading.{Known};
ghost use Rattle.keyfile.specs.Records.{file_records};

use crate::digest::FileDigest;
use crate::fault::{FileFault, Flaw};
use crate::format::{FileFormat, read_file};
use paper::plain_number_in;
use std::alloc::Global;
use std::io::Read;

/// The maximum number of candidates in a file: 30 in each of 99 wards.
const MOST_CANDIDATE_ROWS: u32 = 2970;

/// A candidate in an import file. The numbers have 1 to 5 digits, and the name is any text. Whether the numbers are in range is
/// checked when the candidate is added.
#[derive(Drop)]
pub struct CandidateRow {
    pub ward: u32,
    pub candidate: u32,
    pub name: String,
}

/// Returns the candidates in a file, in file order.
///
/// The header is `ward,candidate,name`, followed by at most 2970 records. The rows are those of the file's records as parsed by
/// `csv`. The fault is the first flaw of the first faulty record, except that `ReadFailed` and `Memory` may be reported at any
/// record up to that one.
///
/// If a digest is given, the rows are read from bytes that have that digest. A file with other bytes is refused with `OtherFile`,
/// whatever else is wrong with it.
pub fn read_candidates<R: Read + Drop>(
    alloc: Global,
    r: R,
    digest: Option<FileDigest>,
) -> Result<Vec<CandidateRow>, FileFault>
    ensures rows { IfOk result (λ rows. IsReadAs (asked_digest digest) (R.remaining r) (λ bytes. file_rows candidates (file_records bytes) ≡ Ok (map candidate_entry rows.items))) }
    ensures fault { IfErr result (λ fault. Known (R.remaining r) (λ bytes. IsFaultBy (asked_digest digest) candidates bytes fault)) }
{
    read_file(alloc, r, digest, &CandidateFormat)
}

/// The format of the candidate file.
#[derive(Drop)]
struct CandidateFormat;

impl FileFormat for CandidateFormat {
    type Row = CandidateRow;

    ghost Entry = { CandidateEntry };

    ghost format = { λ _. candidates };

    ghost entry = { candidate_entry };

    fn most(&self) -> u32 {
        MOST_CANDIDATE_ROWS
    }

    fn header_flaw(&self, fields: &[&str]) -> Option<Flaw> {
        if is_candidate_header(fields) {
            None
        } else {
            Some(Flaw::Header)
        }
    }

    fn read(&self, alloc: Global, _number: u32, fields: &[&str]) -> Result<CandidateRow, Flaw> {
        match fields {
            [ward, candidate, name] => candidate_row(alloc, ward, candidate, name),
            _ => Err(Flaw::RecordLength),
        }
    }
}

/// Returns true if the fields are the header.
fn is_candidate_header(fields: &[&str]) -> bool
    ensures { result ≡ is_candidate_header (map (λ f. f.now) fields.now) }
{
    match fields {
        [ward, candidate, name] => *ward == "ward" && *candidate == "candidate" && *name == "name",
        _ => false,
    }
}

/// Parses the numbers of the ward and the candidate, and returns the candidate with the given name.
fn candidate_row(
    alloc: Global,
    ward: &str,
    candidate: &str,
    name: &str,
) -> Result<CandidateRow, Flaw>
    ensures ok { IfOk result (λ row. numbered (plain_number_in ward.now) (plain_number_in candidate.now) name.now ≡ Ok (candidate_entry row)) }
    ensures err { IfErr result (λ flaw. (flaw ≡ Flaw.Memory) ⊎ (numbered (plain_number_in ward.now) (plain_number_in candidate.now) name.now ≡ Err flaw)) }
    ensures file { IfErr result (λ flaw. is_failed_read flaw ≡ false) }
{
    let (Some(ward), Some(candidate)) = (plain_number_in(ward), plain_number_in(candidate)) else {
        return Err(Flaw::Number);
    };
    let name = String::from_str(alloc, name)?;
    Ok(CandidateRow {
        ward,
        candidate,
        name,
    })
}
