//! Reading import files without options: no digest is given, and the header of a keying names neither batch nor clerk.

ghost use Rattle.std.specs.Prelude.{◌≡◌, List, ℕ, map, IfOk, IfErr, Ok, string_bytes};
ghost use Rattle.keyfile.specs.Candidates.{candidate_entry, candidates};
ghost use Rattle.keyfile.specs.Files.{IsFaultOf, file_rows};
ghost use Rattle.keyfile.specs.Keying.{AreReadAsKeyed, plain_keying};
ghost use Rattle.keyfile.specs.Reading.{Known};
ghost use Rattle.keyfile.specs.Records.{file_records};

use crate::candidates::CandidateRow;
use crate::fault::{FileFault, Flaw};
use crate::format::{FileFormat, read_file};
use crate::keying::{KeyingFormat, MOST_PAPERS, are_columns};
use paper::Columns;
use std::alloc::Global;
use std::io::Read;

/// Returns the candidates in a file, in file order. This is [`read_candidates`](crate::read_candidates) without a digest.
pub fn read_candidates<R: Read + Drop>(alloc: Global, r: R) -> Result<Vec<CandidateRow>, FileFault>
    ensures rows { IfOk result (λ rows. Known (R.remaining r) (λ bytes. file_rows candidates (file_records bytes) ≡ Ok (map candidate_entry rows.items))) }
    ensures fault { IfErr result (λ fault. Known (R.remaining r) (λ bytes. IsFaultOf candidates (file_records bytes) fault)) }
{
    crate::candidates::read_candidates(alloc, r, None)
}

/// Returns the marks texts in a file with a keying of papers that have the given columns, in paper order.
///
/// The header is `paper` followed by the columns in ascending order. A first field that names a batch and a clerk, such as `paper
/// 12/4`, isn't accepted here, because neither is known. Everything else is as in [`read_keying`](crate::read_keying).
pub fn read_keying<R: Read + Drop>(
    alloc: Global,
    r: R,
    columns: Columns,
) -> Result<Vec<String>, FileFault>
    ensures rows { IfOk result (λ papers. Known (R.remaining r) (λ bytes. file_rows (plain_keying columns) (file_records bytes) ≡ Ok (map string_bytes papers.items))) }
    ensures fault { IfErr result (λ fault. Known (R.remaining r) (λ bytes. IsFaultOf (plain_keying columns) (file_records bytes) fault)) }
    // a marks text means what the fields say
    ensures spelled { AreReadAsKeyed columns }
{
    read_file(alloc, r, None, &PlainFormat { columns })
}

/// The format of the file with a keying whose header names neither its batch nor its clerk.
#[derive(Drop)]
struct PlainFormat {
    columns: Columns,
}

impl FileFormat for PlainFormat {
    type Row = String;

    ghost Entry = { List ℕ };

    ghost format = { λ f. plain_keying f.columns };

    ghost entry = { string_bytes };

    fn most(&self) -> u32 {
        MOST_PAPERS
    }

    fn header_flaw(&self, fields: &[&str]) -> Option<Flaw> {
        let [first, numbers @ ..] = fields else {
            return Some(Flaw::Header);
        };
        if *first == "paper" && are_columns(numbers, self.columns.as_slice()) {
            return None;
        }
        Some(Flaw::Header)
    }

    // How a record is read doesn't depend on what the header names.
    fn read(&self, alloc: Global, number: u32, fields: &[&str]) -> Result<String, Flaw> {
        let keying = KeyingFormat {
            columns: self.columns,
            batch: 0,
            clerk: 0,
        };
        keying.read(alloc, number, fields)
    }
}
