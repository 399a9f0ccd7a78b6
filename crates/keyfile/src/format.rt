//! The formats of import files, and reading a whole file.

ghost use Rattle.std.specs.Prelude.{◌≡◌, false, ◌∷◌, ◌++◌, ◌+◌, ◌-◌, ◌^◌, ◌<◌, ◌≤◌, ◌⊎◌, [], List, Option, Some, None, ℕ, map, IfOk, IfErr, IfSome, IfNone, Ok, Err, OnOk};
ghost use Rattle.csv.specs.Reading.{reader_source};
ghost use Rattle.csv.specs.Records.{fields_of};
ghost use Rattle.keyfile.specs.Faults.{is_failed_read, tells_failed_read};
ghost use Rattle.keyfile.specs.Digests.{IsFaultBy, IsReadAs, asked_digest};
ghost use Rattle.keyfile.specs.Files.{Format, IsFaultOf, file_rows, read_as_text, text_header_flaw};
ghost use Rattle.keyfile.specs.Inside.{IsAfter, StandsAt};
ghost use Rattle.keyfile.specs.Reading.{Known};
ghost use Rattle.keyfile.specs.Records.{file_records};

use crate::digest::{FileDigest, read_whole};
use crate::fault::{FileFault, Flaw, at_record};
use crate::fields::texts;
use crate::records::{next_record, open};
use crate::watched::{LastRead, Watched};
use csv::{ByteRecord, Reader};
use std::alloc::Global;
use std::io::Read;

/// The format of an import file: its header, and the rows that its records are parsed into.
pub(crate) trait FileFormat {
    type Row: Drop;

    /// The entry that a row represents.
    ghost Entry: { Type 0 };

    ghost format: { Self → Format Entry };

    ghost entry: { Self.Row → Entry };

    /// Returns the maximum number of records after the header.
    fn most(&self) -> u32
        ensures is { result ≡ (format self.now).most }
        ensures few { result < 2 ^ 32 - 1 };

    /// Returns the flaw of the first record if it isn't a header of this format.
    fn header_flaw(&self, fields: &[&str]) -> Option<Flaw>
        ensures is { result ≡ (format self.now).header_flaw (map (λ f. f.now) fields.now) }
        ensures file { IfSome result (λ flaw. is_failed_read flaw ≡ false) };

    /// Returns the row for the record with the given number, or the record's first flaw, or `Memory` if an allocation fails.
    fn read(&self, alloc: Global, number: u32, fields: &[&str]) -> Result<Self::Row, Flaw>
        ensures ok { IfOk result (λ row. (format self.now).read number (map (λ f. f.now) fields.now) ≡ Ok (entry row)) }
        ensures err { IfErr result (λ flaw. (flaw ≡ Flaw.Memory) ⊎ ((format self.now).read number (map (λ f. f.now) fields.now) ≡ Err flaw)) }
        ensures file { IfErr result (λ flaw. is_failed_read flaw ≡ false) };
}

/// Returns the rows of a file, or its fault. If a digest is given, all bytes are first read and checked against it.
pub(crate) fn read_file<R: Read + Drop, F: FileFormat>(
    alloc: Global,
    r: R,
    digest: Option<FileDigest>,
    format: &F,
) -> Result<Vec<F::Row>, FileFault>
    ensures rows { IfOk result (λ rows. IsReadAs (asked_digest digest) (R.remaining r) (λ bytes. file_rows (F.format format.now) (file_records bytes) ≡ Ok (map F.entry rows.items))) }
    ensures fault { IfErr result (λ fault. Known (R.remaining r) (λ bytes. IsFaultBy (asked_digest digest) (F.format format.now) bytes fault)) }
{
    let mut file = Watched::new(r);
    match digest {
        Some(digest) => {
            let bytes = read_whole(alloc, &mut file, digest)?;
            let mut file = open(alloc, Watched::new(bytes.as_slice()));
            read_rows(alloc, &mut file, format)
        }
        None => {
            let mut file = open(alloc, file);
            read_rows(alloc, &mut file, format)
        }
    }
}

/// Returns the rows of a newly opened file, or its fault. The fault is `ReadFailed` if and only if the file's last read failed.
fn read_rows<R: Read + LastRead + Drop, F: FileFormat>(
    alloc: Global,
    file: &mut Reader<R>,
    format: &F,
) -> Result<Vec<F::Row>, FileFault>
    requires { IsAfter R.remaining (R.remaining (reader_source file.old)) [] file.old }
    ensures rows { IfOk result (λ rows. Known (R.remaining (reader_source file.old)) (λ bytes. file_rows (F.format format.now) (file_records bytes) ≡ Ok (map F.entry rows.items))) }
    ensures fault { IfErr result (λ fault. Known (R.remaining (reader_source file.old)) (λ bytes. IsFaultOf (F.format format.now) (file_records bytes) fault)) }
    ensures failed { tells_failed_read result ≡ R.failed (reader_source file.new) }
{
    read_header(alloc, file, format)?;
    let most = format.most();
    let mut rows = Vec::new(alloc);
    for number in 1..most + 1 {
        let Some(row) = next_row(alloc, file, format, number)? else {
            return Ok(rows);
        };
        if rows.push(row).is_err() {
            return Err(FileFault {
                flaw: Flaw::Memory,
                record_number: number,
            });
        }
    }
    check_end(alloc, file, format, most + 1)?;
    Ok(rows)
}

/// Reads the first record, which must be the header.
fn read_header<R: Read + LastRead + Drop, F: FileFormat>(
    alloc: Global,
    file: &mut Reader<R>,
    format: &F,
) -> Result<(), FileFault>
    ensures ok { (bytes : Option (List ℕ)) → IsAfter R.remaining bytes [] file.old
        → OnOk result (StandsAt R.remaining bytes (F.format format.now) 1 [] file.new) }
    ensures err { (bytes : Option (List ℕ)) → IsAfter R.remaining bytes [] file.old
        → IfErr result (λ fault. Known bytes (λ xs. IsFaultOf (F.format format.now) (file_records xs) fault)) }
    ensures failed { tells_failed_read result ≡ R.failed (reader_source file.new) }
{
    match next_record(alloc, file, 0)? {
        Some(raw) => at_record(0, check_header(alloc, &raw, format)),
        None => Err(FileFault {
            flaw: Flaw::Header,
            record_number: 0,
        }),
    }
}

/// Checks that a record is the header.
fn check_header<F: FileFormat>(alloc: Global, raw: &ByteRecord, format: &F) -> Result<(), Flaw>
    ensures ok { OnOk result (text_header_flaw (F.format format.now) (fields_of raw.now) ≡ None) }
    ensures err { IfErr result (λ flaw. (flaw ≡ Flaw.Memory) ⊎ (text_header_flaw (F.format format.now) (fields_of raw.now) ≡ Some flaw)) }
    ensures file { IfErr result (λ flaw. is_failed_read flaw ≡ false) }
{
    let fields = match texts(alloc, raw) {
        Ok(fields) => fields,
        Err(Flaw::Memory) => return Err(Flaw::Memory),
        Err(_) => return Err(Flaw::Header),
    };
    match format.header_flaw(&fields) {
        Some(flaw) => Err(flaw),
        None => Ok(()),
    }
}

/// Returns the row for the record with the given number, or None at the end of the file.
fn next_row<R: Read + LastRead + Drop, F: FileFormat>(
    alloc: Global,
    file: &mut Reader<R>,
    format: &F,
    number: u32,
) -> Result<Option<F::Row>, FileFault>
    requires { number ≤ (F.format format.now).most }
    ensures more { (bytes : Option (List ℕ)) (rows : List F.Entry) → StandsAt R.remaining bytes (F.format format.now) number rows file.old
        → IfOk result (λ o. IfSome o (λ row. StandsAt R.remaining bytes (F.format format.now) (number + 1) (rows ++ F.entry row ∷ []) file.new)) }
    ensures whole { (bytes : Option (List ℕ)) (rows : List F.Entry) → StandsAt R.remaining bytes (F.format format.now) number rows file.old
        → IfOk result (λ o. IfNone o (Known bytes (λ xs. file_rows (F.format format.now) (file_records xs) ≡ Ok rows))) }
    ensures err { (bytes : Option (List ℕ)) (rows : List F.Entry) → StandsAt R.remaining bytes (F.format format.now) number rows file.old
        → IfErr result (λ fault. Known bytes (λ xs. IsFaultOf (F.format format.now) (file_records xs) fault)) }
    ensures failed { tells_failed_read result ≡ R.failed (reader_source file.new) }
{
    match next_record(alloc, file, number)? {
        Some(raw) => Ok(Some(at_record(number, row_of(alloc, format, number, &raw))?)),
        None => Ok(None),
    }
}

/// Returns the row for the record with the given number, or its first flaw other than a wrong length or too many records.
fn row_of<F: FileFormat>(
    alloc: Global,
    format: &F,
    number: u32,
    raw: &ByteRecord,
) -> Result<F::Row, Flaw>
    ensures ok { IfOk result (λ row. read_as_text (F.format format.now) number (fields_of raw.now) ≡ Ok (F.entry row)) }
    ensures err { IfErr result (λ flaw. (flaw ≡ Flaw.Memory) ⊎ (read_as_text (F.format format.now) number (fields_of raw.now) ≡ Err flaw)) }
    ensures file { IfErr result (λ flaw. is_failed_read flaw ≡ false) }
{
    let fields = texts(alloc, raw)?;
    format.read(alloc, number, &fields)
}

/// Checks that the file ends before the record with the given number, which is the first one past the limit.
fn check_end<R: Read + LastRead + Drop, F: FileFormat>(
    alloc: Global,
    file: &mut Reader<R>,
    format: &F,
    number: u32,
) -> Result<(), FileFault>
    requires { number ≡ (F.format format.now).most + 1 }
    ensures whole { (bytes : Option (List ℕ)) (rows : List F.Entry) → StandsAt R.remaining bytes (F.format format.now) number rows file.old
        → OnOk result (Known bytes (λ xs. file_rows (F.format format.now) (file_records xs) ≡ Ok rows)) }
    ensures err { (bytes : Option (List ℕ)) (rows : List F.Entry) → StandsAt R.remaining bytes (F.format format.now) number rows file.old
        → IfErr result (λ fault. Known bytes (λ xs. IsFaultOf (F.format format.now) (file_records xs) fault)) }
    ensures failed { tells_failed_read result ≡ R.failed (reader_source file.new) }
{
    match next_record(alloc, file, number)? {
        None => Ok(()),
        Some(_) => Err(FileFault {
            flaw: Flaw::TooManyRecords,
            record_number: number,
        }),
    }
}
