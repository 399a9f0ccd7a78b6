//! Drawing letters, and the text made of them.

ghost use Rattle.std.specs.Prelude.{◌≡◌, ◌++◌, ◌-◌, ◌^◌, ◌<◌, ◌≤◌, EachIndex, IfErr, IfOk, OnOk, length, slice_index, string_bytes};
ghost use Rattle.codes.specs.Drawing.{AreDrawn, IsDraw, IsDrawn, IsUndrawn, IsUnwritten};
ghost use Rattle.codes.specs.Making.{clerks_of, letter_of, letters_for, letters_with, line_of, office_code, office_line, text_of, text_with};

use crate::drawing::RandomSource;
use crate::fault::{CodesError, CodesFault};
use crate::holders::OFFICE_USER_NAME;
use crate::range::ClerkRange;
use std::alloc::{AllocError, Global};

/// The letters that codes are made of, none of which can be mistaken for another.
pub(crate) const LETTERS: &[u8; 24] = b"abcdefghjkmnprstuwxy2347";

/// The number of byte values that select a letter, the same number for each letter. Any other byte selects none.
const DRAWING_BYTES: u8 = 240;

/// The maximum number of bytes that are drawn per letter.
const MOST_BYTES: usize = 100;

/// The number of letters in a clerk's code.
const CODE_LETTERS: usize = 12;

/// The number of letters in the office's code.
const OFFICE_LETTERS: usize = 16;

/// The number of letters before the first hyphen of a code.
const FRONT_LETTERS: usize = 4;

/// The number of letters before the second hyphen of a code.
const MIDDLE_LETTERS: usize = 8;

/// The number of letters before the third hyphen of the office's code.
const LATER_LETTERS: usize = 12;

/// Returns the letter that a byte selects, if any.
fn letter_of(byte: u8) -> Option<u8>
    ensures { result ≡ letter_of byte }
{
    if byte < DRAWING_BYTES {
        Some(LETTERS[usize::from(byte) % LETTERS.len()])
    } else {
        None
    }
}

/// Draws a byte and appends the letter that it selects, if any.
fn draw_letter<D: RandomSource>(draws: &mut D, letters: &mut Vec<u8>) -> Result<(), CodesError>
    requires { D.failed draws.old < 2 ^ 64 - 1 }
    ensures ok { OnOk result (IsDraw (D.drawn draws.old) (D.drawn draws.new) letters.old.items letters.new.items) }
    ensures failed { OnOk result (D.failed draws.new ≡ D.failed draws.old) }
    ensures err { IfErr result (IsUndrawn (D.failed draws.old) (D.failed draws.new)) }
{
    let Ok(byte) = draws.draw() else {
        return Err(CodesError::Fault(CodesFault::NoRandom));
    };
    match letter_of(byte) {
        Some(letter) => {
            if letters.push(letter).is_err() {
                return Err(CodesError::Memory);
            }
            Ok(())
        }
        None => Ok(()),
    }
}

/// Returns the number of letters in the codes of the given clerks, with or without the office's.
fn letters_count(clerks: ClerkRange, office: bool) -> usize
    ensures is { result ≡ letters_with clerks office }
    ensures bound { result ≤ 2 ^ 36 }
{
    let count = CODE_LETTERS * clerks.count();
    if office {
        count + OFFICE_LETTERS
    } else {
        count
    }
}

/// Draws the letters of codes for the given clerks, with or without one for the office.
fn draw_letters<D: RandomSource>(
    alloc: Global,
    draws: &mut D,
    clerks: ClerkRange,
    office: bool,
) -> Result<Vec<u8>, CodesError>
    requires { D.failed draws.old < 2 ^ 64 - 1 }
    ensures ok { IfOk result (λ letters. AreDrawn clerks office (D.drawn draws.old) (D.drawn draws.new) letters.items) }
    ensures failed { OnOk result (D.failed draws.new ≡ D.failed draws.old) }
    ensures err { IfErr result (IsUnwritten clerks office (D.failed draws.old) (D.failed draws.new) (D.drawn draws.old) (D.drawn draws.new)) }
{
    let count = letters_count(clerks, office);
    let mut left = MOST_BYTES * count;
    let mut letters = Vec::new(alloc);
    while letters.as_slice().len() < count {
        if left == 0 {
            return Err(CodesError::Fault(CodesFault::BadRandom));
        }
        draw_letter(draws, &mut letters)?;
        left -= 1;
    }
    Ok(letters)
}

/// Appends letters to a text.
fn push_letters(text: &mut String, letters: &[u8]) -> Result<(), AllocError>
    requires { EachIndex letters.now (λ k. slice_index letters.now k < 128) }
    ensures { OnOk result (string_bytes text.new ≡ string_bytes text.old ++ letters.now) }
{
    for letter in letters {
        text.push(char::from(*letter))?;
    }
    Ok(())
}

/// Appends a clerk's line: the clerk's number, a space, and the code made of the given letters.
#[tactic(auto, using(crate::proofs::NumberLemmas::joined))]
fn push_line(alloc: Global, text: &mut String, clerk: u32, letters: &[u8]) -> Result<(), AllocError>
    requires enough { length letters.now ≡ 12 }
    requires ascii { EachIndex letters.now (λ k. slice_index letters.now k < 128) }
    ensures { OnOk result (string_bytes text.new ≡ string_bytes text.old ++ line_of clerk letters.now) }
{
    let front = format!(in alloc; "{clerk} ")?;
    text.push_str(front.as_str())?;
    push_letters(text, &letters[..FRONT_LETTERS])?;
    text.push('-')?;
    push_letters(text, &letters[FRONT_LETTERS..MIDDLE_LETTERS])?;
    text.push('-')?;
    push_letters(text, &letters[MIDDLE_LETTERS..])?;
    text.push('\n')?;
    Ok(())
}

/// Returns the lines of the given clerks, with twelve of the given letters each.
fn lines_by(alloc: Global, clerks: ClerkRange, letters: &[u8]) -> Result<String, AllocError>
    requires enough { length letters.now ≡ letters_for clerks }
    requires ascii { EachIndex letters.now (λ k. slice_index letters.now k < 128) }
    ensures { IfOk result (λ text. string_bytes text ≡ text_of (clerks_of clerks) letters.now) }
{
    let count = clerks.count();
    let mut text = String::new(alloc);
    let mut rest = letters;
    for index in 0..count {
        let (own, others) = rest.split_at(CODE_LETTERS);
        push_line(alloc, &mut text, clerks.first + index as u32, own)?;
        rest = others;
    }
    Ok(text)
}

/// Appends the office's code made of the given letters.
#[tactic(auto, using(crate::proofs::NumberLemmas::groups_joined))]
fn push_office_code(text: &mut String, letters: &[u8]) -> Result<(), AllocError>
    requires enough { length letters.now ≡ 16 }
    requires ascii { EachIndex letters.now (λ k. slice_index letters.now k < 128) }
    ensures { OnOk result (string_bytes text.new ≡ string_bytes text.old ++ office_code letters.now) }
{
    push_letters(text, &letters[..FRONT_LETTERS])?;
    text.push('-')?;
    push_letters(text, &letters[FRONT_LETTERS..MIDDLE_LETTERS])?;
    text.push('-')?;
    push_letters(text, &letters[MIDDLE_LETTERS..LATER_LETTERS])?;
    text.push('-')?;
    push_letters(text, &letters[LATER_LETTERS..])?;
    Ok(())
}

/// Appends the office's line: its name, a space, and the code made of the given letters.
#[tactic(auto, using(crate::proofs::NumberLemmas::line_joined))]
fn push_office_line(text: &mut String, letters: &[u8]) -> Result<(), AllocError>
    requires enough { length letters.now ≡ 16 }
    requires ascii { EachIndex letters.now (λ k. slice_index letters.now k < 128) }
    ensures { OnOk result (string_bytes text.new ≡ string_bytes text.old ++ office_line letters.now) }
{
    text.push_str(OFFICE_USER_NAME)?;
    text.push(' ')?;
    push_office_code(text, letters)?;
    text.push('\n')?;
    Ok(())
}

/// Returns the lines of the given clerks, with twelve of the given letters each. If a code is made for the office, its line
/// follows, with the remaining sixteen letters.
fn text_by(
    alloc: Global,
    clerks: ClerkRange,
    office: bool,
    letters: &[u8],
) -> Result<String, AllocError>
    requires enough { length letters.now ≡ letters_with clerks office }
    requires ascii { EachIndex letters.now (λ k. slice_index letters.now k < 128) }
    ensures { IfOk result (λ text. string_bytes text ≡ text_with clerks office letters.now) }
{
    if !office {
        return lines_by(alloc, clerks, letters);
    }
    let (own, rest) = letters.split_at(CODE_LETTERS * clerks.count());
    let mut text = lines_by(alloc, clerks, own)?;
    push_office_line(&mut text, rest)?;
    Ok(text)
}

/// Draws codes for the given clerks, with or without one for the office, and returns their lines. Fails with `NoRandom` if the
/// source fails, and with `BadRandom` if 100 bytes per letter yield too few letters.
pub(crate) fn draw_lines<D: RandomSource>(
    alloc: Global,
    draws: &mut D,
    clerks: ClerkRange,
    office: bool,
) -> Result<String, CodesError>
    requires { D.failed draws.old < 2 ^ 64 - 1 }
    ensures ok { IfOk result (λ text. IsDrawn clerks office (D.drawn draws.old) (D.drawn draws.new) (string_bytes text)) }
    ensures failed { OnOk result (D.failed draws.new ≡ D.failed draws.old) }
    ensures err { IfErr result (IsUnwritten clerks office (D.failed draws.old) (D.failed draws.new) (D.drawn draws.old) (D.drawn draws.new)) }
{
    let letters = draw_letters(alloc, draws, clerks, office)?;
    Ok(text_by(alloc, clerks, office, letters.as_slice())?)
}
