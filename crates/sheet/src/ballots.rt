//! The ballots of a ward, as a file in the format that counting programs share.

ghost use Rattle.std.specs.Prelude.{◌≡◌, ◌-◌, ◌^◌, ◌<◌, is_none, option_map};
ghost use Rattle.sheet.specs.Ballots.{ballots, bundle_line, comments, highest_number as highest_number_of, lot_comment, minus as minus_of, name_at as name_at_of, name_line, name_lines};
ghost use Rattle.sheet.specs.Ballots.{papers_text, rejected_comment, size_line, ward_comment, withdrawn, withdrawn_line, withdrawn_number};
ghost use Rattle.sheet.specs.Ballots.{numbers_of, name_or_withdrawn as name_or_withdrawn_of};
ghost use Rattle.sheet.specs.Entries.{shown};
ghost use Rattle.sheet.specs.Wards.{CanBePrinted};
ghost use Rattle.sheet.specs.Writing.{Writes};
ghost use Rattle.std.specs.List.{flat_map};

use crate::heading_lines::write_rejected_line;
use crate::line::{Piece, write_line, write_number, write_text};
use crate::ward::{Poll, Ward};
use count::Bundles;
use paper::Prefs;
use streams::{Broken, Sink};

/// Returns the highest candidate number, which is the last one; 0 if there are no candidates.
fn highest_number(ward: &Ward) -> u8
    ensures { result ≡ highest_number_of (shown ward.now).candidates }
{
    match ward.candidates.last() {
        None => 0,
        Some(candidate) => candidate.0,
    }
}

/// Returns the name of the candidate with the given number, if there is one.
fn name_at<'a>(ward: &Ward<'a>, c: u8) -> Option<&'a str>
    ensures { option_map (λ name. name.now) result ≡ name_at_of (shown ward.now).candidates c }
{
    for candidate in ward.candidates {
        if candidate.0 == c {
            return Some(candidate.1.as_str());
        }
    }
    None
}

/// Returns the name of the candidate with the given number, or the word for a withdrawn candidate.
pub fn name_or_withdrawn<'a>(ward: &Ward<'a>, c: u8) -> &'a str
    ensures { result.now ≡ name_or_withdrawn_of (name_at_of (shown ward.now).candidates c) }
{
    match name_at(ward, c) {
        None => "withdrawn",
        Some(name) => name,
    }
}

/// Returns whether no candidate has the given number.
fn is_missing(ward: &Ward, c: u8) -> bool
    ensures { result ≡ is_none (name_at_of (shown ward.now).candidates c) }
{
    name_at(ward, c).is_none()
}

/// Writes the highest candidate number and the number of seats.
fn write_size_line<W: Sink>(sink: &mut W, ward: &Ward) -> Result<(), Broken>
    requires { W.failed sink.old < 2 ^ 64 - 1 }
    ensures { Writes W.taken W.failed sink.old sink.new (size_line (shown ward.now)) result }
{
    let pieces = [
        Piece::Number(u64::from(highest_number(ward))),
        Piece::Text(" "),
        Piece::Number(u64::from(ward.seats)),
    ];
    write_line(sink, &pieces)
}

/// Returns the text that precedes the number of a withdrawn candidate.
fn minus(is_first: bool) -> &'static str
    ensures { result.now ≡ minus_of is_first }
{
    if is_first { "-" } else { " -" }
}

/// Writes the number of a withdrawn candidate.
fn write_withdrawn_number<W: Sink>(sink: &mut W, is_first: bool, c: u8) -> Result<(), Broken>
    requires { W.failed sink.old < 2 ^ 64 - 1 }
    ensures { Writes W.taken W.failed sink.old sink.new (withdrawn_number is_first c) result }
{
    write_text(sink, minus(is_first))?;
    write_number(sink, c)
}

/// Writes the numbers of the withdrawn candidates, if there are any.
fn write_withdrawn_line<W: Sink>(sink: &mut W, ward: &Ward) -> Result<(), Broken>
    requires { W.failed sink.old < 2 ^ 64 - 1 }
    ensures { Writes W.taken W.failed sink.old sink.new (withdrawn_line (withdrawn (shown ward.now))) result }
{
    let mut is_first = true;
    for below in 0..highest_number(ward) {
        if !is_missing(ward, below + 1) {
            continue;
        }
        write_withdrawn_number(sink, is_first, below + 1)?;
        is_first = false;
    }
    if is_first {
        return Ok(());
    }
    write_text(sink, "\n")
}

/// Writes the number of papers in a bundle, and their preferences.
fn write_bundle_line<W: Sink>(sink: &mut W, list: &Prefs, papers: u32) -> Result<(), Broken>
    requires { W.failed sink.old < 2 ^ 64 - 1 }
    ensures { Writes W.taken W.failed sink.old sink.new (bundle_line (list.now, papers)) result }
{
    let pieces = [
        Piece::Number(u64::from(papers)),
        Piece::Preferences(list.as_slice()),
        Piece::Text(" 0"),
    ];
    write_line(sink, &pieces)
}

/// Writes one line per bundle, in order.
fn write_bundle_lines<W: Sink>(sink: &mut W, bundles: &Bundles) -> Result<(), Broken>
    requires { W.failed sink.old < 2 ^ 64 - 1 }
    ensures { Writes W.taken W.failed sink.old sink.new (flat_map bundle_line bundles.now) result }
{
    for (list, papers) in bundles.iter() {
        write_bundle_line(sink, list, *papers)?;
    }
    Ok(())
}

/// Writes the name for the given number.
fn write_name_line<W: Sink>(sink: &mut W, ward: &Ward, c: u8) -> Result<(), Broken>
    requires { W.failed sink.old < 2 ^ 64 - 1 }
    ensures { Writes W.taken W.failed sink.old sink.new (name_line (shown ward.now).candidates c) result }
{
    write_line(sink, &[Piece::Quoted(name_or_withdrawn(ward, c))])
}

/// Writes the names for all numbers.
fn write_candidate_names<W: Sink>(sink: &mut W, ward: &Ward) -> Result<(), Broken>
    requires ward { CanBePrinted ward.now }
    requires failures { W.failed sink.old < 2 ^ 64 - 1 }
    ensures { Writes W.taken W.failed sink.old sink.new (flat_map (name_line (shown ward.now).candidates) (numbers_of (shown ward.now))) result }
{
    for below in 0..highest_number(ward) {
        write_name_line(sink, ward, below + 1)?;
    }
    Ok(())
}

/// Writes the names for all numbers, followed by the name of the ward.
fn write_name_lines<W: Sink>(sink: &mut W, ward: &Ward) -> Result<(), Broken>
    requires ward { CanBePrinted ward.now }
    requires failures { W.failed sink.old < 2 ^ 64 - 1 }
    ensures { Writes W.taken W.failed sink.old sink.new (name_lines (shown ward.now)) result }
{
    write_candidate_names(sink, ward)?;
    write_line(sink, &[Piece::Quoted(ward.name)])
}

/// Writes the number of the ward, as a comment.
fn write_ward_comment<W: Sink>(sink: &mut W, ward: &Ward) -> Result<(), Broken>
    requires { W.failed sink.old < 2 ^ 64 - 1 }
    ensures { Writes W.taken W.failed sink.old sink.new (ward_comment (shown ward.now)) result }
{
    let number = Piece::Number(u64::from(ward.number));
    write_line(sink, &[Piece::Text("# Ward "), number])
}

/// Writes the numbers of rejected papers as a comment, if the ward is contested.
fn write_rejected_comment<W: Sink>(sink: &mut W, poll: Option<Poll>) -> Result<(), Broken>
    requires { W.failed sink.old < 2 ^ 64 - 1 }
    ensures { Writes W.taken W.failed sink.old sink.new (rejected_comment poll) result }
{
    let Some(poll) = poll else {
        return Ok(());
    };
    write_text(sink, "# ")?;
    write_rejected_line(sink, &poll.rejected)
}

/// Writes the candidate drawn by lot, as a comment.
fn write_lot_comment<W: Sink>(sink: &mut W, lot: &(u8, u8)) -> Result<(), Broken>
    requires { W.failed sink.old < 2 ^ 64 - 1 }
    ensures { Writes W.taken W.failed sink.old sink.new (lot_comment lot.now) result }
{
    let (stage, candidate) = *lot;
    let pieces = [
        Piece::Text("# Lot at stage "),
        Piece::Number(u64::from(stage)),
        Piece::Text(": "),
        Piece::Number(u64::from(candidate)),
    ];
    write_line(sink, &pieces)
}

/// Writes the candidates drawn by lot, as comments.
fn write_lot_comments<W: Sink>(sink: &mut W, lots: &[(u8, u8)]) -> Result<(), Broken>
    requires { W.failed sink.old < 2 ^ 64 - 1 }
    ensures { Writes W.taken W.failed sink.old sink.new (flat_map lot_comment lots.now) result }
{
    for lot in lots {
        write_lot_comment(sink, lot)?;
    }
    Ok(())
}

/// Writes what the format doesn't provide for, as comments.
fn write_comments<W: Sink>(sink: &mut W, ward: &Ward, lots: &[(u8, u8)]) -> Result<(), Broken>
    requires { W.failed sink.old < 2 ^ 64 - 1 }
    ensures { Writes W.taken W.failed sink.old sink.new (comments (shown ward.now) lots.now) result }
{
    write_ward_comment(sink, ward)?;
    write_rejected_comment(sink, ward.poll)?;
    write_lot_comments(sink, lots)
}

/// Writes the part before the names.
fn write_papers<W: Sink>(sink: &mut W, ward: &Ward, bundles: &Bundles) -> Result<(), Broken>
    requires ward { CanBePrinted ward.now }
    requires failures { W.failed sink.old < 2 ^ 64 - 1 }
    ensures { Writes W.taken W.failed sink.old sink.new (papers_text (shown ward.now) bundles.now) result }
{
    write_size_line(sink, ward)?;
    write_withdrawn_line(sink, ward)?;
    write_bundle_lines(sink, bundles)?;
    write_line(sink, &[Piece::Text("0")])
}

/// Writes the ballots of a ward, as a file in the format that counting programs share: its bundles of equal valid papers, and the
/// recorded lots, each a stage and a candidate. An uncontested ward has no bundles.
///
/// Allocates nothing. `Broken` only if the sink fails; it has then accepted a prefix of the file, and its failure count is one
/// higher.
pub fn write_ballots<W: Sink>(
    sink: &mut W,
    ward: &Ward,
    bundles: &Bundles,
    lots: &[(u8, u8)],
) -> Result<(), Broken>
    requires ward { CanBePrinted ward.now }
    requires failures { W.failed sink.old < 2 ^ 64 - 1 }
    ensures { Writes W.taken W.failed sink.old sink.new (ballots (shown ward.now) bundles.now lots.now) result }
{
    write_papers(sink, ward, bundles)?;
    write_name_lines(sink, ward)?;
    write_comments(sink, ward, lots)
}
