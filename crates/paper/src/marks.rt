//! Parses marks texts.

ghost use Rattle.std.specs.Prelude.{◌≡◌, ℕ, ◌+◌, ◌-◌, ◌<◌, ◌≤◌, ◌==◌, length, take, count_by, OnOk, IfOk, IfErr, Ok, Err};
ghost use Rattle.std.specs.List.{after_first, before_first, list_all, position_or_len};
ghost use Rattle.paper.specs.Columns.{max_candidates};
ghost use Rattle.paper.specs.Numbers.{fault_number};
ghost use Rattle.paper.specs.Padded.{padded};
ghost use Rattle.paper.specs.MarksText.{fields, is_digit, mark_in, marks_in, reading, spelling};

use crate::columns::{Columns, MAX_CANDIDATES};
use crate::marked::{Keyed, Marked};
use thiserror::Error;

/// The reason why a marks text is invalid.
#[derive(Clone, Copy, Debug, PartialEq, Eq, Error)]
pub enum MarkFault {
    #[error("wrong number of fields")]
    FieldCount,
    #[error("not a number")]
    NotANumber,
    #[error("number over 99")]
    TooLarge,
}

impl MarkFault {
    /// Returns the number of the fault: 1 for a wrong number of fields, 2 for a field that is neither empty nor a number without a
    /// leading zero, and 3 for a number above 99.
    pub fn number(&self) -> u32
        ensures { result ≡ fault_number self.now }
    {
        match self {
            MarkFault::FieldCount => 1,
            MarkFault::NotANumber => 2,
            MarkFault::TooLarge => 3,
        }
    }
}

/// The texts that clerks key for the marks on ballot papers.
pub struct Marks;

impl Marks {
    /// Parses the marks text of a paper with the given columns.
    ///
    /// The text of a doubtful paper is the letter `D`. Any other text has one field for each column, in ascending order and
    /// separated by commas; each field is empty or a number from 1 to 99 without a leading zero. A wrong number of fields is
    /// reported first, then the fault of the leftmost invalid field. Allocates nothing.
    pub fn read(text: &[u8], columns: Columns) -> Result<Keyed, MarkFault>
        ensures is { result ≡ reading columns text.now }
        // each keyed paper has exactly one spelling
        ensures spelled { IfOk result (λ keyed. spelling keyed ≡ text.now) }
    {
        if text == b"D".as_slice() {
            return Ok(Keyed::Doubtful);
        }
        let count = columns.as_slice().len();
        if count_fields(text) != count {
            return Err(MarkFault::FieldCount);
        }
        let marks = read_fields(text, count)?;
        Ok(Keyed::Marked(Marked::new(columns, marks)))
    }
}

/// Returns how many fields a text has.
#[tactic(auto, using(crate::proofs::Fields::field_counts))]
fn count_fields(text: &[u8]) -> usize
    ensures { result ≡ length (fields text.now) }
{
    count_commas(text) + 1
}

fn count_commas(text: &[u8]) -> usize
    ensures is { result ≡ count_by (λ b. b == 44) text.now }
    ensures within { result ≤ length text.now }
{
    text.iter().filter(|b| **b == b',').count()
}

/// Parses the fields of a text into the front of an array. The error is the fault of the leftmost invalid field.
fn read_fields(text: &[u8], count: usize) -> Result<[u8; MAX_CANDIDATES], MarkFault>
    requires all { length (fields text.now) ≡ count }
    requires few { count ≤ max_candidates }
    ensures ok { IfOk result (λ marks. marks_in (fields text.now) ≡ Ok (take count marks)) }
    ensures behind { IfOk result (λ marks. padded (take count marks) ≡ marks) }
    ensures err { IfErr result (λ fault. marks_in (fields text.now) ≡ Err fault) }
{
    let mut marks = [0; MAX_CANDIDATES];
    let mut rest = text;
    for i in 0..count {
        let (field, behind) = split_field(rest);
        marks[i] = read_field(field)?;
        rest = behind;
    }
    Ok(marks)
}

/// Splits a text at its first comma; returns the first field and the text after the comma.
fn split_field(text: &[u8]) -> (&[u8], &[u8])
    ensures field { result.0.now ≡ before_first (λ b. b == 44) text.now }
    ensures behind { result.1.now ≡ after_first (λ b. b == 44) text.now }
{
    let end = field_len(text);
    if end == text.len() {
        return (text, &text[end..]);
    }
    (&text[..end], &text[end + 1..])
}

/// Returns how many bytes precede the first comma.
fn field_len(text: &[u8]) -> usize
    ensures is { result ≡ position_or_len (λ b. b == 44) text.now }
    ensures within { result ≤ length text.now }
{
    text.iter().take_while(|b| **b != b',').count()
}

/// Parses the mark in a field; an empty field yields 0.
fn read_field(field: &[u8]) -> Result<u8, MarkFault>
    ensures is { result ≡ mark_in field.now }
    ensures small { IfOk result (λ mark. mark ≤ 99) }
{
    if field.is_empty() {
        return Ok(0);
    }
    if field[0] == b'0' || !all_digits(field) {
        return Err(MarkFault::NotANumber);
    }
    if field.len() > 2 {
        return Err(MarkFault::TooLarge);
    }
    if field.len() == 1 {
        return Ok(field[0] - b'0');
    }
    Ok((field[0] - b'0') * 10 + (field[1] - b'0'))
}

fn all_digits(field: &[u8]) -> bool
    ensures { result ≡ list_all is_digit field.now }
{
    field.iter().all(|b| *b >= b'0' && *b <= b'9')
}
