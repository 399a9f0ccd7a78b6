//! The batch file, for one ward or several: `batch,ward,size,first clerk,second clerk`.

ghost use Rattle.std.specs.Prelude.{◌≡◌, false, ◌⊎◌, ◌∷◌, [], map, IfOk, IfErr, Ok, Err, None, Some};
ghost use Rattle.keyfile.specs.Batches.{BatchRowEntry, batch_in, batch_row_entry, batches, is_batch_header, names_clerks, names_pile};
ghost use Rattle.keyfile.specs.Digests.{IsFaultBy, IsReadAs, asked_digest};
ghost use Rattle.keyfile.specs.Files.{file_rows};
ghost use Rattle.keyfile.specs.Faults.{is_failed_read};
ghost use Rattle.paper.specs.Digits.{plain_number_in};
ghost use Rattle.keyfile.specs.Reading.{Known};
ghost use Rattle.keyfile.specs.Records.{file_records};

use crate::digest::FileDigest;
use crate::fault::{FileFault, Flaw};
use crate::format::{FileFormat, read_file};
use paper::plain_number_in;
use std::alloc::Global;
use std::io::Read;

/// The maximum number of batches in a file, which is the number of possible batch numbers.
const MOST_BATCH_ROWS: u32 = 9999;

/// A batch in an import file. The numbers have 1 to 5 digits. Whether they are in range is checked when the batch is given out.
#[derive(Drop)]
pub struct BatchRow {
    pub batch: u32,
    pub ward: u32,
    pub size: u32,
    pub first_clerk: u32,
    pub second_clerk: u32,
}

/// Returns the batches in a file, in file order.
///
/// The header is `batch,ward,size,first clerk,second clerk`, followed by at most 9999 records. The rows are those of the file's
/// records as parsed by `csv`. The fault is the first flaw of the first faulty record, except that `ReadFailed` and `Memory` may be
/// reported at any record up to that one.
///
/// If a digest is given, the rows are read from bytes that have that digest. A file with other bytes is refused with `OtherFile`,
/// whatever else is wrong with it.
pub fn read_batches<R: Read + Drop>(
    alloc: Global,
    r: R,
    digest: Option<FileDigest>,
) -> Result<Vec<BatchRow>, FileFault>
    ensures rows { IfOk result (λ rows. IsReadAs (asked_digest digest) (R.remaining r) (λ bytes. file_rows batches (file_records bytes) ≡ Ok (map batch_row_entry rows.items))) }
    ensures fault { IfErr result (λ fault. Known (R.remaining r) (λ bytes. IsFaultBy (asked_digest digest) batches bytes fault)) }
{
    read_file(alloc, r, digest, &BatchFormat)
}

/// The format of the batch file.
#[derive(Drop)]
struct BatchFormat;

impl FileFormat for BatchFormat {
    type Row = BatchRow;

    ghost Entry = { BatchRowEntry };

    ghost format = { λ _. batches };

    ghost entry = { batch_row_entry };

    fn most(&self) -> u32 {
        MOST_BATCH_ROWS
    }

    fn header_flaw(&self, fields: &[&str]) -> Option<Flaw> {
        if is_batch_header(fields) {
            None
        } else {
            Some(Flaw::Header)
        }
    }

    fn read(&self, _alloc: Global, _number: u32, fields: &[&str]) -> Result<BatchRow, Flaw> {
        match fields {
            [batch, ward, size, first_clerk, second_clerk] => {
                batch_row(batch, ward, size, first_clerk, second_clerk)
            }
            _ => Err(Flaw::RecordLength),
        }
    }
}

/// Returns true if the fields are the first three of the header, which describe the pile of papers.
fn names_pile(batch: &str, ward: &str, size: &str) -> bool
    ensures { result ≡ names_pile batch.now ward.now size.now }
{
    batch == "batch" && ward == "ward" && size == "size"
}

/// Returns true if the fields are the last two of the header, which name the clerks.
fn names_clerks(first: &str, second: &str) -> bool
    ensures { result ≡ names_clerks first.now second.now }
{
    first == "first clerk" && second == "second clerk"
}

/// Returns true if the fields are the header.
fn is_batch_header(fields: &[&str]) -> bool
    ensures { result ≡ is_batch_header (map (λ f. f.now) fields.now) }
{
    match fields {
        [batch, ward, size, first, second] => {
            names_pile(batch, ward, size) && names_clerks(first, second)
        }
        _ => false,
    }
}

/// Returns the number in a field.
fn number_in(field: &str) -> Result<u32, Flaw>
    ensures ok { IfOk result (λ number. plain_number_in field.now ≡ Some number) }
    ensures err { IfErr result (λ flaw. (flaw ≡ Flaw.Number) × (plain_number_in field.now ≡ None)) }
{
    match plain_number_in(field) {
        Some(number) => Ok(number),
        None => Err(Flaw::Number),
    }
}

/// Parses the five numbers of a batch.
fn batch_row(
    batch: &str,
    ward: &str,
    size: &str,
    first_clerk: &str,
    second_clerk: &str,
) -> Result<BatchRow, Flaw>
    ensures ok { IfOk result (λ row. batch_in (batch.now ∷ ward.now ∷ size.now ∷ first_clerk.now ∷ second_clerk.now ∷ []) ≡ Ok (batch_row_entry row)) }
    ensures err { IfErr result (λ flaw. batch_in (batch.now ∷ ward.now ∷ size.now ∷ first_clerk.now ∷ second_clerk.now ∷ []) ≡ Err flaw) }
    ensures file { IfErr result (λ flaw. is_failed_read flaw ≡ false) }
{
    Ok(BatchRow {
        batch: number_in(batch)?,
        ward: number_in(ward)?,
        size: number_in(size)?,
        first_clerk: number_in(first_clerk)?,
        second_clerk: number_in(second_clerk)?,
    })
}
