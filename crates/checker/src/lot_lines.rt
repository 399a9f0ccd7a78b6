//! The line about the lot that a count is waiting for.

ghost use Rattle.std.specs.Prelude.{◌≡◌, ◌++◌, string_bytes, IfOk, OnOk};
ghost use Rattle.sheet.specs.Entries.{shown as shown_ward};
ghost use Rattle.checker.specs.Counts.{lot_line, tie_mark, tied_name, tied_names};

use crate::terminal_escaping::shown;
use itoa::Buffer;
use paper::Columns;
use sheet::Ward;
use std::alloc::{AllocError, Global};

/// Returns the separator before one of the tied candidates.
fn tie_mark(among: &Columns, c: u8) -> &'static str
    ensures { result.now ≡ tie_mark among.now c }
{
    match among.as_slice() {
        [first, ..] if *first != c => ", ",
        _ => "",
    }
}

/// Appends the number and the name of a candidate if the candidate is tied.
fn push_tied(text: &mut String, among: &Columns, candidate: &(u8, String)) -> Result<(), AllocError>
    ensures { OnOk result (string_bytes text.new ≡ string_bytes text.old ++ tied_name among.now candidate.now.0 (string_bytes candidate.now.1)) }
{
    let (c, name) = candidate;
    if !among.has(*c) {
        return Ok(());
    }
    text.push_str(tie_mark(among, *c))?;
    text.push_str(Buffer::new().format(*c))?;
    text.push_str(" ")?;
    text.push_str(name.as_str())
}

/// Returns the numbers and the names of the tied candidates.
fn tied_names(alloc: Global, ward: &Ward, among: &Columns) -> Result<String, AllocError>
    ensures { IfOk result (λ text. string_bytes text ≡ tied_names (shown_ward ward.now).candidates among.now) }
{
    let mut text = String::new(alloc);
    for candidate in ward.candidates {
        push_tied(&mut text, among, candidate)?;
    }
    Ok(text)
}

/// Returns the line about a lot that is needed: its stage, counted from 1, and the tied candidates.
pub(crate) fn lot_line(
    alloc: Global,
    ward: &Ward,
    stage: u8,
    among: &Columns,
) -> Result<String, AllocError>
    ensures { IfOk result (λ line. string_bytes line ≡ lot_line (shown_ward ward.now) stage among.now) }
{
    let tied = tied_names(alloc, ward, among)?;
    let line = format!(in alloc; "lot needed at stage {stage} among {tied}\n")?;
    shown(alloc, line.as_str())
}
