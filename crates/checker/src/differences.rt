//! The first difference between two texts.

ghost use Rattle.std.specs.Prelude.{◌≡◌, ◌+◌, ◌≤◌, length, string_bytes, IfOk};
ghost use Rattle.checker.specs.Differences.{IsComparison, behind_lines, common, ended_lines, first_line, nearer, same_lines};

use std::alloc::{AllocError, Global};

/// The outcome of a check.
#[derive(Drop)]
pub enum Checked {
    /// The text is exactly the stage sheet that results from the ballots.
    Sheet,
    /// The text is exactly the declaration that results from the ballots.
    Declaration,
    /// The text differs. The first line that differs is `line`, counted from 1. `should_be` is that line as it should be,
    /// including its line feed; empty if the text should have ended.
    Differs { line: u64, should_be: String },
}

/// Returns the longest common prefix of two texts.
fn common<'a>(text: &'a [u8], other: &[u8]) -> &'a [u8]
    ensures { result.now ≡ common text.now other.now }
{
    for i in 0..text.len() {
        if i >= other.len() {
            return &text[..i];
        }
        if text[i] != other[i] {
            return &text[..i];
        }
    }
    text
}

/// Returns the number of terminated lines in a text.
fn ended_lines(text: &[u8]) -> usize
    ensures is { result ≡ ended_lines text.now }
    ensures few { result ≤ length text.now }
{
    let mut lines = 0;
    for byte in text {
        if *byte == b'\n' {
            lines += 1;
        }
    }
    lines
}

/// Returns the number of the first line at which a text differs from another, counted from 1.
pub(crate) fn first_difference(text: &[u8], other: &[u8]) -> u64
    ensures { result ≡ same_lines text.now other.now + 1 }
{
    ended_lines(common(text, other)) as u64 + 1
}

/// Returns what remains of a text after the given number of lines.
fn behind_lines(lines: usize, text: &[u8]) -> &[u8]
    ensures { result.now ≡ behind_lines lines text.now }
{
    let mut left = lines;
    for i in 0..text.len() {
        if left == 0 {
            return &text[i..];
        }
        if text[i] != b'\n' {
            continue;
        }
        left -= 1;
    }
    &[]
}

/// Returns the first line of a text, including its line feed.
fn first_line(text: &[u8]) -> &[u8]
    ensures { result.now ≡ first_line text.now }
{
    for i in 0..text.len() {
        if text[i] == b'\n' {
            return &text[..i + 1];
        }
    }
    text
}

/// Returns the line that follows the given number of lines in a text; `AllocError` if an allocation fails.
fn line_behind(alloc: Global, lines: usize, text: &str) -> Result<String, AllocError>
    ensures { IfOk result (λ line. string_bytes line ≡ first_line (behind_lines lines text.now)) }
{
    let line = first_line(behind_lines(lines, text.as_bytes()));
    let bytes = Vec::from_slice(alloc, line)?;
    Ok(String::from_utf8(bytes).unwrap())
}

/// Returns the sheet or the declaration, whichever shares the longer prefix with the given text.
fn nearer<'a>(text: &[u8], sheet: &'a str, declaration: &'a str) -> &'a str
    ensures { result.now ≡ nearer text.now sheet.now declaration.now }
{
    if common(text, sheet.as_bytes()).len() < common(text, declaration.as_bytes()).len() {
        declaration
    } else {
        sheet
    }
}

/// Compares a text with a sheet and a declaration. The only error is a failed allocation.
pub(crate) fn comparison(
    alloc: Global,
    text: &[u8],
    sheet: &str,
    declaration: &str,
) -> Result<Checked, AllocError>
    ensures { IfOk result (λ checked. IsComparison text.now sheet.now declaration.now checked) }
{
    if text == sheet.as_bytes() {
        return Ok(Checked::Sheet);
    }
    if text == declaration.as_bytes() {
        return Ok(Checked::Declaration);
    }
    let should = nearer(text, sheet, declaration);
    let same = ended_lines(common(text, should.as_bytes()));
    let should_be = line_behind(alloc, same, should)?;
    Ok(Checked::Differs {
        line: same as u64 + 1,
        should_be,
    })
}
