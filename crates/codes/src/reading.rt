//! Reading the text of a codes file line by line.

ghost use Rattle.std.specs.Prelude.{◌≡◌, ◌≤◌, ◌⊎◌, ◌*◌, ◌+◌, ◌==◌, [], IfErr, IfOk, IfSome, List, Ok, Err, bytes_eq, length, map, option_and_then, option_map, ℕ};
ghost use Rattle.std.specs.List.{count_by, list_all, list_any, prefix_len};
ghost use Rattle.codes.specs.Codes.{AreApart, holders_of, office_of};
ghost use Rattle.codes.specs.Files.{CodeEntry, FileEntry, clerk_in, code_entry, codes_in, digit_in, entry_behind, entry_in, file_entry, file_from, front_of, has_code, holders_by, is_code};
ghost use Rattle.codes.specs.Files.{is_for_office, is_no_blank, is_no_hyphen, is_office_line, is_offices, is_strong, is_visible, lines_from, no_codes, office_behind, office_held, office_in};
ghost use Rattle.codes.specs.Files.{rest_of, weak_clerks, with_line, without_return};
ghost use Rattle.codes.specs.declared.fault.CodeFlaw.{CodeFlaw};
ghost use Rattle.codes.specs.declared.fault.CodesFault.TheVariants.{Line};
ghost use Rattle.codes.specs.declared.fault.CodesError.TheVariants as read_error;

use crate::fault::{CodeFlaw, CodesError, CodesFault};
use crate::holders::{Codes, OFFICE_USER_NAME, credentials_by, office_by};
use std::alloc::{AllocError, Global};
use std::mem;

/// The minimum number of bytes in a code.
const FEWEST_BYTES: usize = 8;

/// The maximum number of bytes in a code.
const MOST_BYTES: usize = 64;

/// The minimum number of bytes in a strong code, not counting hyphens.
const FEWEST_STRONG_BYTES: usize = 12;

/// The minimum number of bytes in the office's code, not counting hyphens.
const FEWEST_OFFICE_BYTES: usize = 16;

/// A clerk's line in a codes file: the clerk and that clerk's code.
#[derive(Clone, Copy)]
pub struct CodeLine<'a> {
    pub clerk: u32,
    pub code: &'a [u8],
}

/// The contents of a codes file: the clerks' lines, and the office's code, if there is a line for the office.
#[derive(Drop)]
pub struct FileLines<'a> {
    pub clerks: Vec<CodeLine<'a>>,
    pub office: Option<&'a [u8]>,
}

/// Returns the value of a digit.
fn digit_in(byte: u8) -> Option<u32>
    ensures is { result ≡ digit_in byte }
    ensures bound { IfSome result (λ digit. digit ≤ 9) }
{
    if byte.is_ascii_digit() {
        Some(u32::from(byte - b'0'))
    } else {
        None
    }
}

/// Returns the number that results from appending a digit, if all bytes are digits.
fn with_digit(value: Option<u32>, byte: u8) -> Option<u32>
    requires { IfSome value (λ v. v ≤ 99) }
    ensures is { result ≡ option_and_then (λ v. option_map (λ d. v * 10 + d) (digit_in byte)) value }
    ensures bound { IfSome value (λ v. v ≤ 9) → IfSome result (λ v. v ≤ 99) }
    ensures top { IfSome result (λ v. v ≤ 999) }
{
    match (value, digit_in(byte)) {
        (Some(value), Some(digit)) => Some(value * 10 + digit),
        _ => None,
    }
}

/// Parses a clerk's number: 1 to 3 digits, the first of which is not 0.
pub(crate) fn clerk_in(text: &[u8]) -> Option<u32>
    ensures is { result ≡ clerk_in text.now }
    ensures bound { IfSome result (λ clerk. clerk ≤ 999) }
{
    match text {
        [b'0', ..] => None,
        [a] => digit_in(*a),
        [a, b] => with_digit(digit_in(*a), *b),
        [a, b, c] => with_digit(with_digit(digit_in(*a), *b), *c),
        _ => None,
    }
}

/// Returns true if a byte is an ASCII letter, digit or punctuation character.
fn is_visible(byte: u8) -> bool
    ensures { result ≡ is_visible byte }
{
    byte > b' ' && byte < 127
}

/// Returns true if all bytes are ASCII letters, digits and punctuation characters.
fn all_visible(text: &[u8]) -> bool
    ensures { result ≡ list_all is_visible text.now }
{
    text.iter().all(|byte| is_visible(*byte))
}

/// Returns true if a text is a code.
fn is_code(text: &[u8]) -> bool
    ensures { result ≡ is_code text.now }
{
    text.len() >= FEWEST_BYTES && text.len() <= MOST_BYTES && all_visible(text)
}

/// Returns the number of bytes other than hyphens in a code.
fn count_other_bytes(code: &[u8]) -> usize
    ensures { result ≡ count_by is_no_hyphen code.now }
{
    code.iter().filter(|byte| **byte != b'-').count()
}

/// Returns true if a code is strong, that is, if it has at least twelve bytes other than hyphens.
fn is_strong(code: &[u8]) -> bool
    ensures { result ≡ is_strong code.now }
{
    count_other_bytes(code) >= FEWEST_STRONG_BYTES
}

/// Returns true if a code is long enough for the office, that is, if it has at least sixteen bytes other than hyphens.
fn is_for_office(code: &[u8]) -> bool
    ensures { result ≡ is_for_office code.now }
{
    count_other_bytes(code) >= FEWEST_OFFICE_BYTES
}

/// Returns the clerks whose codes aren't strong.
fn weak_clerks(alloc: Global, lines: &[CodeLine<'_>]) -> Result<Vec<u32>, AllocError>
    ensures { IfOk result (λ weak. weak.items ≡ weak_clerks (map code_entry lines.now)) }
{
    let mut weak = Vec::new(alloc);
    for line in lines {
        if !is_strong(line.code) {
            weak.push(line.clerk)?;
        }
    }
    Ok(weak)
}

/// Returns the number of bytes before the first space of a line.
fn front_length(line: &[u8]) -> usize
    ensures bound { result ≤ length line.now }
    ensures is { result ≡ prefix_len is_no_blank line.now }
{
    let mut length = 0;
    for byte in line {
        if *byte == b' ' {
            return length;
        }
        length += 1;
    }
    length
}

/// Splits a line at its first space, which is in neither part.
fn parts_of(line: &[u8]) -> (&[u8], &[u8])
    ensures front { result.0.now ≡ front_of line.now }
    ensures rest { result.1.now ≡ rest_of line.now }
{
    let length = front_length(line);
    (&line[..length], &line[line.len().min(length + 1)..])
}

/// Returns true if a line is the office's.
fn is_office_line(line: &[u8]) -> bool
    ensures { result ≡ is_office_line line.now }
{
    parts_of(line).0 == OFFICE_USER_NAME.as_bytes()
}

/// Parses a clerk's line: a clerk's number, a space, and a code.
fn entry_in(line: &[u8]) -> Result<CodeLine<'_>, CodeFlaw>
    ensures ok { IfOk result (λ found. entry_in line.now ≡ Ok (code_entry found)) }
    ensures err { IfErr result (λ flaw. entry_in line.now ≡ Err flaw) }
{
    let (front, code) = parts_of(line);
    let Some(clerk) = clerk_in(front) else {
        return Err(CodeFlaw::NoEntry);
    };
    if is_code(code) {
        Ok(CodeLine { clerk, code })
    } else {
        Err(CodeFlaw::BadCode)
    }
}

/// Returns a line without the carriage return at its end, if it has one.
fn without_return(line: &[u8]) -> &[u8]
    ensures { result.now ≡ without_return line.now }
{
    if !line.is_empty() && line[line.len() - 1] == b'\r' {
        &line[..line.len() - 1]
    } else {
        line
    }
}

/// Returns true if one of the given lines is for the given clerk.
fn has_clerk(before: &[CodeLine<'_>], clerk: u32) -> bool
    ensures { result ≡ list_any (λ (other : CodeEntry). other.clerk == clerk) (map code_entry before.now) }
{
    for other in before {
        if other.clerk == clerk {
            return true;
        }
    }
    false
}

/// Returns true if one of the given clerks' lines has the given code.
fn clerk_has_code(before: &[CodeLine<'_>], code: &[u8]) -> bool
    ensures { result ≡ list_any (λ (other : CodeEntry). bytes_eq other.code code.now) (map code_entry before.now) }
{
    for other in before {
        if other.code == code {
            return true;
        }
    }
    false
}

/// Returns true if the office has the given code.
fn is_offices(office: Option<&[u8]>, code: &[u8]) -> bool
    ensures { result ≡ is_offices (option_map (λ c. c.now) office.entry) code.now }
{
    match office {
        Some(own) => own == code,
        None => false,
    }
}

/// Returns true if a clerk or the office has the given code.
fn has_code(before: &FileLines<'_>, code: &[u8]) -> bool
    ensures { result ≡ has_code (file_entry before.now) code.now }
{
    clerk_has_code(before.clerks.as_slice(), code) || is_offices(before.office, code)
}

/// Parses a clerk's line that follows others, none of which may have the same clerk or code.
fn entry_behind<'a>(before: &FileLines<'_>, line: &'a [u8]) -> Result<CodeLine<'a>, CodeFlaw>
    ensures ok { IfOk result (λ found. entry_behind (file_entry before.now) (entry_in line.now) ≡ Ok (code_entry found)) }
    ensures err { IfErr result (λ flaw. entry_behind (file_entry before.now) (entry_in line.now) ≡ Err flaw) }
{
    let found = entry_in(line)?;
    if has_clerk(before.clerks.as_slice(), found.clerk) {
        return Err(CodeFlaw::ClerkTwice);
    }
    if has_code(before, found.code) {
        return Err(CodeFlaw::CodeTwice);
    }
    Ok(found)
}

/// Parses the office's line that follows others, none of which may be the office's or have the same code.
fn office_behind<'a>(before: &FileLines<'_>, line: &'a [u8]) -> Result<&'a [u8], CodeFlaw>
    ensures ok { IfOk result (λ code. office_behind (file_entry before.now) (rest_of line.now) ≡ Ok code.now) }
    ensures err { IfErr result (λ flaw. office_behind (file_entry before.now) (rest_of line.now) ≡ Err flaw) }
{
    let (_, code) = parts_of(line);
    if !is_code(code) {
        return Err(CodeFlaw::BadCode);
    }
    if !is_for_office(code) {
        return Err(CodeFlaw::ShortOffice);
    }
    if before.office.is_some() {
        return Err(CodeFlaw::OfficeTwice);
    }
    if has_code(before, code) {
        return Err(CodeFlaw::CodeTwice);
    }
    Ok(code)
}

impl<'a> FileLines<'a> {
    /// Parses another line, which has the given number. Fails if an allocation fails or something is wrong with the line.
    fn add(&mut self, number: usize, line: &'a [u8]) -> Result<(), CodesError>
        ensures ok { IfOk result (λ _. with_line (file_entry self.old) line.now ≡ Ok (file_entry self.new)) }
        ensures err { IfErr result (λ why. (why ≡ read_error.Memory)
            ⊎ ((flaw : CodeFlaw) × (why ≡ read_error.Fault (Line number flaw)) × (with_line (file_entry self.old) line.now ≡ Err flaw))) }
    {
        if is_office_line(line) {
            match office_behind(self, line) {
                Ok(code) => {
                    self.office = Some(code);
                    Ok(())
                }
                Err(flaw) => Err(CodesError::Fault(CodesFault::Line(number, flaw))),
            }
        } else {
            match entry_behind(self, line) {
                Ok(entry) => {
                    if self.clerks.push(entry).is_err() {
                        return Err(CodesError::Memory);
                    }
                    Ok(())
                }
                Err(flaw) => Err(CodesError::Fault(CodesFault::Line(number, flaw))),
            }
        }
    }
}

/// Splits the text of a file into lines.
pub fn lines_of(alloc: Global, text: &[u8]) -> Result<Vec<Vec<u8>>, AllocError>
    ensures { IfOk result (λ lines. map (λ line. line.items) lines.items ≡ lines_from [] text.now) }
{
    let mut lines = Vec::new(alloc);
    let mut line = Vec::new(alloc);
    for byte in text {
        if *byte == b'\n' {
            lines.push(mem::replace(&mut line, Vec::new(alloc)))?;
        } else {
            line.push(*byte)?;
        }
    }
    lines.push(line)?;
    Ok(lines)
}

/// Parses all lines of a file. Fails if an allocation fails, or with a fault for the first invalid line.
pub fn entries_of(alloc: Global, lines: &[Vec<u8>]) -> Result<FileLines<'_>, CodesError>
    ensures ok { IfOk result (λ found. file_from 1 no_codes (map (λ line. line.items) lines.now) ≡ Ok (file_entry found)) }
    ensures err { IfErr result (λ why. (why ≡ read_error.Memory)
        ⊎ ((fault : CodesFault) × (why ≡ read_error.Fault fault) × (file_from 1 no_codes (map (λ line. line.items) lines.now) ≡ Err fault))) }
{
    let mut found = FileLines {
        clerks: Vec::new(alloc),
        office: None,
    };
    for (index, line) in lines.iter().enumerate() {
        let line = without_return(line);
        if !line.is_empty() {
            found.add(index + 1, line)?;
        }
    }
    Ok(found)
}

impl Codes {
    /// Reads the codes in the text of a file. Fails if an allocation fails, or with a fault for the first invalid line.
    pub fn read(alloc: Global, text: &[u8]) -> Result<Codes, CodesError>
        ensures ok { IfOk result (λ own. (entries : List CodeEntry) × (codes_in text.now ≡ Ok entries) × (holders_of own ≡ holders_by entries) × (own.weak.items ≡ weak_clerks entries)) }
        ensures office { IfOk result (λ own. office_of own ≡ office_held (office_in text.now)) }
        ensures apart { IfOk result (λ own. AreApart (holders_of own) (office_of own)) }
        ensures err { IfErr result (λ why. (why ≡ read_error.Memory) ⊎ ((fault : CodesFault) × (why ≡ read_error.Fault fault) × (codes_in text.now ≡ Err fault))) }
    {
        let lines = lines_of(alloc, text)?;
        let found = entries_of(alloc, lines.as_slice())?;
        Ok(Codes {
            all: credentials_by(alloc, found.clerks.as_slice())?,
            weak: weak_clerks(alloc, found.clerks.as_slice())?,
            office: office_by(alloc, found.office)?,
        })
    }
}
