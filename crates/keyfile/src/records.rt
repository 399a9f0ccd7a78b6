//! Reading the records of an import file one at a time.

ghost use Rattle.std.specs.Prelude.{◌≡◌, false, ◌∷◌, ◌++◌, [], List, Option, ℕ, length, IfOk, IfErr, IfSome, IfNone};
ghost use Rattle.csv.specs.Reading.{error_kind, reader_source};
ghost use Rattle.csv.specs.Records.{fields_of};
ghost use Rattle.keyfile.specs.Faults.{flaw_of, is_failed_read, tells_failed_read};
ghost use Rattle.keyfile.specs.Inside.{EndsBefore, IsAfter, IsNext};
ghost use Rattle.keyfile.specs.Reading.{Known};
ghost use Rattle.keyfile.specs.Records.{Record, file_records};

use crate::fault::{FileFault, Flaw};
use crate::watched::LastRead;
use csv::{ByteRecord, Error, ErrorKind, Reader, ReaderBuilder};
use std::alloc::Global;
use std::io::Read;

/// Returns a reader at the beginning of a file. It treats the first record like any other; `csv` checks that all records have the
/// same length.
pub(crate) fn open<R: Read + Drop>(alloc: Global, r: R) -> Reader<R>
    ensures opened { IsAfter R.remaining (R.remaining (reader_source result)) [] result }
    ensures reader { reader_source result ≡ r }
{
    ReaderBuilder::new()
        .has_headers(false)
        .from_reader(alloc, r)
}

/// Returns the flaw for a `csv` error, given that no read failed.
fn flaw_of(error: &Error) -> Flaw
    ensures flaw { result ≡ flaw_of (error_kind error.now) }
    ensures file { is_failed_read result ≡ false }
{
    match error.kind() {
        ErrorKind::UnequalLengths { .. } => Flaw::RecordLength,
        _ => Flaw::Memory,
    }
}

/// Returns the next record, which has the given number, or None at the end of the file. Fails with `ReadFailed` if and only if the
/// file's last read failed.
pub(crate) fn next_record<R: Read + LastRead + Drop>(
    alloc: Global,
    file: &mut Reader<R>,
    number: u32,
) -> Result<Option<ByteRecord>, FileFault>
    ensures more { (bytes : Option (List ℕ)) (records : List Record) → IsAfter R.remaining bytes records file.old
        → IfOk result (λ o. IfSome o (λ raw. IsNext R.remaining bytes records (fields_of raw) file.new)) }
    ensures whole { (bytes : Option (List ℕ)) (records : List Record) → IsAfter R.remaining bytes records file.old
        → IfOk result (λ o. IfNone o (Known bytes (λ xs. file_records xs ≡ records))) }
    ensures err { (bytes : Option (List ℕ)) (records : List Record) → IsAfter R.remaining bytes records file.old
        → IfErr result (λ fault. (fault.record_number ≡ number) × EndsBefore bytes records fault.flaw) }
    ensures failed { tells_failed_read result ≡ R.failed (reader_source file.new) }
{
    let mut raw = ByteRecord::new(alloc);
    let read = file.read_byte_record(&mut raw);
    if file.get_ref().has_failed() {
        return Err(FileFault {
            flaw: Flaw::ReadFailed,
            record_number: number,
        });
    }
    match read {
        Ok(true) => Ok(Some(raw)),
        Ok(false) => Ok(None),
        Err(error) => Err(FileFault {
            flaw: flaw_of(&error),
            record_number: number,
        }),
    }
}
