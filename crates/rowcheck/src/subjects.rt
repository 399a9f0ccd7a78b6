//! Subjects of receipts: a word, which identifies the form, followed by numbers.

ghost use Rattle.std.specs.Prelude.{◌≡◌};
ghost use Rattle.register.specs.Subjects.{is_office_subject, is_clerk_subject, is_about_ward, is_about_candidate, is_about_lot, is_about_batch, is_about_paper, is_about_keying, is_of_office};

use crate::plain::{are_plain_numbers, is_plain_number, parted};
use register::ranges::{
    FIRST_LOT_STAGE, LAST_BATCH, LAST_CANDIDATE, LAST_LOT_STAGE, LAST_ROUND, LAST_WARD, MOST_PAPERS,
};

fn is_about_ward(word: &[u8], number: &[u8]) -> bool
    ensures { result ≡ is_about_ward word.now number.now }
{
    let setting = word == b"ward".as_slice() || word == b"close".as_slice();
    let counting = word == b"seal".as_slice()
        || word == b"advance".as_slice()
        || word == b"declare".as_slice();
    (setting || counting) && is_plain_number(1, LAST_WARD, number)
}

fn is_about_candidate(word: &[u8], numbers: &[u8]) -> bool
    ensures { result ≡ is_about_candidate word.now numbers.now }
{
    (word == b"candidate".as_slice() || word == b"withdraw".as_slice())
        && are_plain_numbers(1, LAST_WARD, 1, LAST_CANDIDATE, numbers)
}

fn is_about_lot(word: &[u8], numbers: &[u8]) -> bool
    ensures { result ≡ is_about_lot word.now numbers.now }
{
    word == b"lot".as_slice()
        && are_plain_numbers(1, LAST_WARD, FIRST_LOT_STAGE, LAST_LOT_STAGE, numbers)
}

fn is_about_batch(word: &[u8], number: &[u8]) -> bool
    ensures { result ≡ is_about_batch word.now number.now }
{
    let keying = word == b"again".as_slice() || word == b"third".as_slice();
    (word == b"batch".as_slice() || keying) && is_plain_number(1, LAST_BATCH, number)
}

fn is_about_paper(word: &[u8], numbers: &[u8]) -> bool
    ensures { result ≡ is_about_paper word.now numbers.now }
{
    word == b"judge".as_slice() && are_plain_numbers(1, LAST_BATCH, 1, MOST_PAPERS, numbers)
}

fn is_about_keying(word: &[u8], numbers: &[u8]) -> bool
    ensures { result ≡ is_about_keying word.now numbers.now }
{
    word == b"key".as_slice() && are_plain_numbers(1, LAST_BATCH, 1, LAST_ROUND, numbers)
}

/// Returns whether a word and the numbers after it can be the subject of an office receipt. The numbers are read only if
/// the word requires numbers.
fn is_of_office(word: &[u8], numbers: &[u8]) -> bool
    ensures { result ≡ is_of_office word.now numbers.now }
{
    is_about_ward(word, numbers)
        || is_about_candidate(word, numbers)
        || is_about_lot(word, numbers)
        || is_about_batch(word, numbers)
        || is_about_paper(word, numbers)
}

/// Returns whether a text can be the subject of an office receipt.
pub(crate) fn is_office_subject(subject: &str) -> bool
    ensures { result ≡ is_office_subject subject.now }
{
    let (word, numbers) = parted(subject.as_bytes());
    is_of_office(word, numbers)
}

/// Returns whether a text can be the subject of a clerk's receipt.
pub(crate) fn is_clerk_subject(subject: &str) -> bool
    ensures { result ≡ is_clerk_subject subject.now }
{
    let (word, numbers) = parted(subject.as_bytes());
    is_about_keying(word, numbers)
}
