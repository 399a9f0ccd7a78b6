//! Making new codes.

ghost use Rattle.std.specs.Prelude.{◌≡◌, ◌+◌, ◌-◌, ◌^◌, ◌<◌, IfErr, IfOk, None, OnOk, true, map, option_map, string_bytes};
ghost use Rattle.std.specs.List.{list_all};
ghost use Rattle.codes.specs.Drawing.{IsMadeByDraws, IsMadeOf, IsUnmade, IsUnmadeByDraws};
ghost use Rattle.codes.specs.Files.{CodeEntry, code_entry, file_in, office_in};
ghost use Rattle.codes.specs.Making.{IsMadeFor, IsMadeWithOffice, are_from, clerks_of, is_file_for, is_letter, is_made, is_made_at, is_made_for_office};
ghost use Rattle.codes.specs.declared.fault.CodesError.TheVariants.{Memory};

use crate::drawing::RandomSource;
use crate::fault::{CodesError, CodesFault};
use crate::random_letters::{LETTERS, draw_lines};
use crate::range::ClerkRange;
use crate::reading::{CodeLine, entries_of, lines_of};
use std::alloc::Global;

/// The maximum number of files that are drawn.
const MOST_FILES: u32 = 100;

/// The number of bytes in a clerk's code.
const CODE_BYTES: usize = 14;

/// The number of bytes in the office's code.
const OFFICE_BYTES: usize = 19;

/// Returns true if a byte is one of the letters that codes are made of.
fn is_letter(byte: u8) -> bool
    ensures { result ≡ is_letter byte }
{
    LETTERS.iter().any(|letter| *letter == byte)
}

/// Returns true if all bytes are letters that codes are made of.
fn are_letters(text: &[u8]) -> bool
    ensures { result ≡ list_all is_letter text.now }
{
    text.iter().all(|byte| is_letter(*byte))
}

/// Returns true if a code has twelve letters, in groups of four separated by hyphens.
fn is_made(code: &[u8]) -> bool
    ensures { result ≡ is_made code.now }
{
    code.len() == CODE_BYTES
        && code[4] == b'-'
        && code[9] == b'-'
        && are_letters(&code[..4])
        && are_letters(&code[5..9])
        && are_letters(&code[10..])
}

/// Returns true if a code has sixteen letters, in groups of four separated by hyphens.
fn is_made_for_office(code: &[u8]) -> bool
    ensures { result ≡ is_made_for_office code.now }
{
    code.len() == OFFICE_BYTES
        && code[4] == b'-'
        && code[9] == b'-'
        && code[14] == b'-'
        && are_letters(&code[..4])
        && are_letters(&code[5..9])
        && are_letters(&code[10..14])
        && are_letters(&code[15..])
}

/// Returns true if the office has a code of sixteen letters, or if it has none and none is made for it.
fn is_made_at(office: bool, code: Option<&[u8]>) -> bool
    ensures { result ≡ is_made_at office (option_map (λ c. c.now) code.entry) }
{
    match code {
        Some(code) => office && is_made_for_office(code),
        None => !office,
    }
}

/// Returns true if every code in the given lines has the form of a new clerk's code.
fn all_made(all: &[CodeLine<'_>]) -> bool
    ensures { result ≡ list_all (λ (e : CodeEntry). is_made e.code) (map code_entry all.now) }
{
    for one in all {
        if !is_made(one.code) {
            return false;
        }
    }
    true
}

/// Returns true if the given lines are for exactly the given clerks, in order.
fn are_of(all: &[CodeLine<'_>], clerks: ClerkRange) -> bool
    ensures { result ≡ are_from clerks.first (clerks.last + 1) (map code_entry all.now) }
{
    let mut next = u64::from(clerks.first);
    for one in all {
        if u64::from(one.clerk) != next {
            return false;
        }
        next = next.saturating_add(1);
    }
    next == u64::from(clerks.last) + 1
}

/// Returns true if a text is a new codes file for exactly the given clerks, with or without one for the office. The only error
/// is a failed allocation.
fn is_made_for(
    alloc: Global,
    text: &[u8],
    clerks: ClerkRange,
    office: bool,
) -> Result<bool, CodesError>
    ensures ok { IfOk result (λ is. is ≡ is_file_for clerks office (file_in text.now)) }
    ensures err { IfErr result (λ why. why ≡ Memory) }
{
    let lines = lines_of(alloc, text)?;
    match entries_of(alloc, lines.as_slice()) {
        Ok(found) => Ok(
            are_of(found.clerks.as_slice(), clerks)
                && all_made(found.clerks.as_slice())
                && is_made_at(office, found.office),
        ),
        Err(CodesError::Fault(_)) => Ok(false),
        Err(CodesError::Memory) => Err(CodesError::Memory),
    }
}

/// Returns the text of a new codes file for the given clerks, with or without one for the office.
fn make_file<D: RandomSource>(
    alloc: Global,
    draws: &mut D,
    clerks: ClerkRange,
    office: bool,
) -> Result<String, CodesError>
    requires { D.failed draws.old < 2 ^ 64 - 1 }
    ensures reads { IfOk result (λ text. is_file_for clerks office (file_in (string_bytes text)) ≡ true) }
    ensures drawn { IfOk result (λ text. IsMadeByDraws clerks office (D.drawn draws.old) (D.drawn draws.new) (string_bytes text)) }
    ensures ok { OnOk result (D.failed draws.new ≡ D.failed draws.old) }
    ensures err { IfErr result (IsUnmadeByDraws clerks office (D.failed draws.old) (D.failed draws.new) (D.drawn draws.old) (D.drawn draws.new)) }
{
    let mut left = MOST_FILES;
    while left > 0 {
        left -= 1;
        let text = draw_lines(alloc, draws, clerks, office)?;
        if is_made_for(alloc, text.as_bytes(), clerks, office)? {
            return Ok(text);
        }
    }
    Err(CodesError::Fault(CodesFault::BadRandom))
}

/// Returns the text of a new codes file for the given clerks, one line each. Its letters are those that the last bytes drawn
/// select. The text is read back; if a code appears in it twice, all codes are drawn again.
///
/// Fails with `NoRandom` only if the source fails; the source's count of failures then increases by one. Fails with `BadRandom` if
/// 100 bytes per letter yield too few letters, or if 100 texts in a row are not codes files. The only other error is a failed
/// allocation.
pub fn make<D: RandomSource>(
    alloc: Global,
    draws: &mut D,
    clerks: ClerkRange,
) -> Result<String, CodesError>
    requires { D.failed draws.old < 2 ^ 64 - 1 }
    ensures reads { IfOk result (λ text. IsMadeFor (clerks_of clerks) (string_bytes text)) }
    ensures alone { IfOk result (λ text. office_in (string_bytes text) ≡ None) }
    ensures drawn { IfOk result (λ text. IsMadeOf clerks (D.drawn draws.old) (D.drawn draws.new) (string_bytes text)) }
    ensures ok { OnOk result (D.failed draws.new ≡ D.failed draws.old) }
    ensures err { IfErr result (IsUnmade clerks (D.failed draws.old) (D.failed draws.new) (D.drawn draws.old) (D.drawn draws.new)) }
{
    make_file(alloc, draws, clerks, false)
}

/// Returns the text of a new codes file for the given clerks, one line each, and for the office, whose line is the last one and
/// whose code has sixteen letters. It is made the same way as in [`make`], with the same errors.
pub fn make_with_office<D: RandomSource>(
    alloc: Global,
    draws: &mut D,
    clerks: ClerkRange,
) -> Result<String, CodesError>
    requires { D.failed draws.old < 2 ^ 64 - 1 }
    ensures reads { IfOk result (λ text. IsMadeWithOffice (clerks_of clerks) (string_bytes text)) }
    ensures drawn { IfOk result (λ text. IsMadeByDraws clerks true (D.drawn draws.old) (D.drawn draws.new) (string_bytes text)) }
    ensures ok { OnOk result (D.failed draws.new ≡ D.failed draws.old) }
    ensures err { IfErr result (IsUnmadeByDraws clerks true (D.failed draws.old) (D.failed draws.new) (D.drawn draws.old) (D.drawn draws.new)) }
{
    make_file(alloc, draws, clerks, true)
}
