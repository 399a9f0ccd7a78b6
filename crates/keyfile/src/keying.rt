//! The file with a clerk's keying of a batch: a header of `paper` and the candidates' numbers, followed by the papers.

ghost use Rattle.std.specs.Prelude.{◌≡◌, false, ◌++◌, ◌==◌, List, ℕ, length, map, IfOk, IfErr, OnOk, Ok, Err, string_bytes};
ghost use Rattle.std.specs.List.{join_with_byte, list_all, list_any};
ghost use Rattle.keyfile.specs.Faults.{is_failed_read};
ghost use Rattle.keyfile.specs.Digests.{IsFaultBy, IsReadAs, asked_digest};
ghost use Rattle.keyfile.specs.Files.{file_rows};
ghost use Rattle.keyfile.specs.Keying.{AreReadAsKeyed, are_columns, breaks_marks, field_text, is_doubtful, keying, marks_text, of_number};
ghost use Rattle.paper.specs.Digits.{plain_number_in};
ghost use Rattle.keyfile.specs.Reading.{Known};
ghost use Rattle.keyfile.specs.Records.{file_records};

use crate::digest::FileDigest;
use crate::fault::{FileFault, Flaw};
use crate::format::{FileFormat, read_file};
use crate::header::first_field_flaw;
use paper::{Columns, plain_number_in};
use std::alloc::{AllocError, Global};
use std::io::Read;

/// The maximum number of papers in a file: those of one batch.
pub(crate) const MOST_PAPERS: u32 = 500;

/// Returns the marks texts in a file with a clerk's keying of a batch whose papers have the given columns, in paper order.
///
/// The header is `paper` followed by the columns in ascending order. It is followed by at most 500 records, each of which consists
/// of a paper number (1, 2, 3, ..) and one field per column. A marks text is `D` if the first field is `D` and the others are
/// empty; otherwise it is the fields separated by commas. Whether the text is valid isn't checked here. The fault is the first flaw
/// of the first faulty record, except that `ReadFailed` and `Memory` may be reported at any record up to that one.
///
/// Instead of `paper`, the header may begin with `paper 12/4`, which says that the file is a keying of batch 12 by clerk 4. A file
/// for another batch or by another clerk is refused with `OtherKeying`, whatever its columns are; any other file with the wrong
/// columns is refused with `Header`. A header that isn't UTF-8 is also refused with `Header`, and names nothing. If a digest is
/// given, the papers are read from bytes that have that digest, and a file with other bytes is refused with `OtherFile`.
pub fn read_keying<R: Read + Drop>(
    alloc: Global,
    r: R,
    columns: Columns,
    batch: u32,
    clerk: u32,
    digest: Option<FileDigest>,
) -> Result<Vec<String>, FileFault>
    ensures rows { IfOk result (λ papers. IsReadAs (asked_digest digest) (R.remaining r) (λ bytes. file_rows (keying columns batch clerk) (file_records bytes) ≡ Ok (map string_bytes papers.items))) }
    ensures fault { IfErr result (λ fault. Known (R.remaining r) (λ bytes. IsFaultBy (asked_digest digest) (keying columns batch clerk) bytes fault)) }
    // a marks text means what the fields say
    ensures spelled { AreReadAsKeyed columns }
{
    let format = KeyingFormat {
        columns,
        batch,
        clerk,
    };
    read_file(alloc, r, digest, &format)
}

/// The format of the file with a clerk's keying of a batch.
#[derive(Drop)]
pub(crate) struct KeyingFormat {
    pub(crate) columns: Columns,
    pub(crate) batch: u32,
    pub(crate) clerk: u32,
}

impl FileFormat for KeyingFormat {
    type Row = String;

    ghost Entry = { List ℕ };

    ghost format = { λ f. keying f.columns f.batch f.clerk };

    ghost entry = { string_bytes };

    fn most(&self) -> u32 {
        MOST_PAPERS
    }

    fn header_flaw(&self, fields: &[&str]) -> Option<Flaw> {
        let [first, numbers @ ..] = fields else {
            return Some(Flaw::Header);
        };
        match first_field_flaw(first, self.batch, self.clerk) {
            Some(flaw) => Some(flaw),
            None if are_columns(numbers, self.columns.as_slice()) => None,
            None => Some(Flaw::Header),
        }
    }

    fn read(&self, alloc: Global, number: u32, fields: &[&str]) -> Result<String, Flaw> {
        match fields {
            [] => Err(Flaw::RecordLength),
            [paper, marks @ ..] => {
                check_paper(number, paper, marks)?;
                Ok(marks_text(alloc, marks)?)
            }
        }
    }
}

/// Returns true if the texts are the given numbers in decimal, one per column.
pub(crate) fn are_columns(texts: &[&str], columns: &[u8]) -> bool
    ensures { result ≡ are_columns (map (λ t. t.now) texts.now) columns.now }
{
    let mut rest = texts;
    for column in columns {
        let [text, others @ ..] = rest else {
            return false;
        };
        if plain_number_in(text) != Some(u32::from(*column)) {
            return false;
        }
        rest = others;
    }
    rest.is_empty()
}

/// Checks that the number of the paper is the number of the record, and that its mark fields can be joined.
#[tactic(auto, using(crate::proofs::MapLemmas::list_any_map))]
fn check_paper(number: u32, paper: &str, marks: &[&str]) -> Result<(), Flaw>
    ensures ok { OnOk result (of_number number (plain_number_in paper.now) (map (λ t. t.now) marks.now) ≡ Ok (marks_text (map (λ t. t.now) marks.now))) }
    ensures err { IfErr result (λ flaw. of_number number (plain_number_in paper.now) (map (λ t. t.now) marks.now) ≡ Err flaw) }
    ensures file { IfErr result (λ flaw. is_failed_read flaw ≡ false) }
{
    match plain_number_in(paper) {
        None => Err(Flaw::Number),
        Some(told) if told != number => Err(Flaw::PaperOrder),
        Some(_) if any_breaks(marks) => Err(Flaw::Marks),
        Some(_) => Ok(()),
    }
}

/// Returns true if any mark field contains a character that isn't allowed in a marks text.
fn any_breaks(marks: &[&str]) -> bool
    ensures { result ≡ list_any (λ t. breaks_marks t.now) marks.now }
{
    marks.iter().any(|mark| breaks_marks(mark))
}

/// Returns true if a mark field contains a comma, a double quote or a line break.
fn breaks_marks(mark: &str) -> bool
    ensures { result ≡ breaks_marks mark.now }
{
    mark.as_bytes()
        .iter()
        .any(|b| *b == b',' || *b == b'"' || *b == b'\n' || *b == b'\r')
}

/// Returns `D` if the first field is `D` and the others are empty; otherwise returns the fields separated by commas.
fn marks_text(alloc: Global, marks: &[&str]) -> Result<String, AllocError>
    ensures { IfOk result (λ text. string_bytes text ≡ marks_text (map (λ t. t.now) marks.now)) }
{
    if is_doubtful(marks) {
        return String::from_str(alloc, "D");
    }
    joined(alloc, marks)
}

/// Returns the fields separated by commas.
fn joined(alloc: Global, marks: &[&str]) -> Result<String, AllocError>
    ensures { IfOk result (λ text. string_bytes text ≡ join_with_byte 44 (map (λ t. t.now) marks.now)) }
{
    let mut text = String::new(alloc);
    for (i, mark) in marks.iter().enumerate() {
        push_field(&mut text, i, mark)?;
    }
    Ok(text)
}

/// Returns true if the first field is `D` and the others are empty.
#[tactic(auto, using(crate::proofs::MapLemmas::list_all_map))]
fn is_doubtful(marks: &[&str]) -> bool
    ensures { result ≡ is_doubtful (map (λ t. t.now) marks.now) }
{
    match marks {
        [] => false,
        [first, others @ ..] => *first == "D" && are_empty(others),
    }
}

/// Returns true if all mark fields are empty.
fn are_empty(marks: &[&str]) -> bool
    ensures { result ≡ list_all (λ t. length t.now == 0) marks.now }
{
    marks.iter().all(|mark| mark.is_empty())
}

/// Appends a field to a text, preceded by a comma unless it is the first.
fn push_field(text: &mut String, i: usize, mark: &str) -> Result<(), AllocError>
    ensures { OnOk result (string_bytes text.new ≡ string_bytes text.old ++ field_text i mark.now) }
{
    if i > 0 {
        text.push(',')?;
    }
    text.push_str(mark)?;
    Ok(())
}
