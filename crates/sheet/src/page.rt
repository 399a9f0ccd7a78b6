//! The page with the result of a ward, for display, printing and signature.

ghost use Rattle.std.specs.Prelude.{◌≡◌, ◌-◌, ◌^◌, ◌<◌, ◌≤◌};
ghost use Rattle.votes.specs.Units.{max_papers, max_seats};
ghost use Rattle.sheet.specs.Entries.{shown};
ghost use Rattle.sheet.specs.Page.{chart_part, foot, grounds, note as note_of, opening as opening_of, page, page_head, papers_table};
ghost use Rattle.sheet.specs.Page.{rejected_in_all as in_all, signatures, stages_part, title_line, title_mark as mark_of, uncontested_text, ward_heading};
ghost use Rattle.sheet.specs.Wards.{CanBePrinted};
ghost use Rattle.sheet.specs.Writing.{Writes};

use crate::chart::{scale_of, write_chart};
use crate::elected::{left_in, write_elected, write_elected_items, write_empty_seats};
use crate::line::{Piece, write_line, write_text};
use crate::look::style;
use crate::lots::write_lots;
use crate::settled_ties::write_ties;
use crate::surplus_lines::write_surpluses;
use crate::surpluses::PassedOn;
use crate::table::write_tables;
use crate::ward::{Poll, Ward};
use count::Stage;
use streams::{Broken, Sink};
use votes::quota;

/// What a page shows of the count of a ward.
#[derive(Clone, Copy)]
pub struct CountShown<'a> {
    /// The stages so far, in order.
    pub stages: &'a [Stage],
    /// The lots drawn, each a stage and a candidate.
    pub lots: &'a [(u8, u8)],
    /// The papers that passed on with each surplus, as [`surpluses_of`](crate::surpluses_of) returns them.
    pub surpluses: &'a [PassedOn],
}

// ---- the head

/// Returns what separates a title from the text before it.
pub fn title_mark(title: &str) -> &'static str
    ensures { result.now ≡ mark_of title.now }
{
    if title.is_empty() { "" } else { ", " }
}

/// Writes a title, unless it is empty.
pub fn write_title<W: Sink>(sink: &mut W, title: &str) -> Result<(), Broken>
    requires { W.failed sink.old < 2 ^ 64 - 1 }
    ensures { Writes W.taken W.failed sink.old sink.new (title_line title.now) result }
{
    if title.is_empty() {
        return Ok(());
    }
    let pieces = [
        Piece::Text("<p class=\"title\" dir=\"auto\">"),
        Piece::Escaped(title),
        Piece::Text("</p>"),
    ];
    write_line(sink, &pieces)
}

/// Returns the note that says whether the result is declared.
fn note(is_declared: bool) -> &'static str
    ensures { result.now ≡ note_of is_declared }
{
    if is_declared {
        "<p class=\"declared\"><strong>Declared</strong></p>"
    } else {
        "<p class=\"open\"><strong>This is not a declared result.</strong> The ward is not declared yet, and this page may change.</p>"
    }
}

/// Writes the document's head, and the line for the top of each printed sheet.
fn write_opening<'a, W: Sink>(sink: &mut W, ward: &Ward<'a>, title: &'a str) -> Result<(), Broken>
    requires { W.failed sink.old < 2 ^ 64 - 1 }
    ensures { Writes W.taken W.failed sink.old sink.new (opening_of (shown ward.now) title.now) result }
{
    let pieces = [
        Piece::Text(
            "<!DOCTYPE html>\n<html lang=\"en\">\n<head>\n<meta charset=\"utf-8\">\n<meta name=\"viewport\" content=\"width=device-width, initial-scale=1\">\n<title>Ward ",
        ),
        Piece::Number(u64::from(ward.number)),
        Piece::Text(" "),
        Piece::Escaped(ward.name),
        Piece::Text(title_mark(title)),
        Piece::Escaped(title),
        Piece::Text("</title>\n<style>\n"),
        Piece::Text(style()),
        Piece::Text(
            "</style>\n</head>\n<body>\n<p class=\"running\" aria-hidden=\"true\"><span>Ward ",
        ),
        Piece::Named(ward.number, ward.name),
        Piece::Text("</span> <bdi>"),
        Piece::Escaped(title),
        Piece::Text("</bdi></p>"),
    ];
    write_line(sink, &pieces)
}

/// Writes the number and the name of the ward, and the status of its result.
fn write_ward_heading<W: Sink>(sink: &mut W, ward: &Ward, is_declared: bool) -> Result<(), Broken>
    requires { W.failed sink.old < 2 ^ 64 - 1 }
    ensures { Writes W.taken W.failed sink.old sink.new (ward_heading (shown ward.now) is_declared) result }
{
    let pieces = [
        Piece::Text("<h1>Ward "),
        Piece::Named(ward.number, ward.name),
        Piece::Text("</h1>\n"),
        Piece::Text(note(is_declared)),
    ];
    write_line(sink, &pieces)
}

/// Writes everything before the result.
fn write_page_head<W: Sink>(
    sink: &mut W,
    ward: &Ward,
    title: &str,
    is_declared: bool,
) -> Result<(), Broken>
    requires { W.failed sink.old < 2 ^ 64 - 1 }
    ensures { Writes W.taken W.failed sink.old sink.new (page_head (shown ward.now) title.now is_declared) result }
{
    write_opening(sink, ward, title)?;
    write_title(sink, title)?;
    write_ward_heading(sink, ward, is_declared)
}

// ---- what the result is based on

/// Returns the total number of rejected papers.
fn rejected_in_all(rejected: &[u32; 5]) -> u64
    ensures is { result ≡ in_all rejected.now }
    ensures few { result ≤ 2 ^ 35 }
{
    u64::from(rejected[0])
        + u64::from(rejected[1])
        + u64::from(rejected[2])
        + u64::from(rejected[3])
        + u64::from(rejected[4])
}

/// Writes the numbers of seats and papers, and the quota.
fn write_papers_table<W: Sink>(sink: &mut W, seats: u8, poll: &Poll) -> Result<(), Broken>
    requires some_seats { 1 ≤ seats }
    requires few_seats { seats ≤ max_seats }
    requires few { poll.now.valid ≤ max_papers }
    requires failures { W.failed sink.old < 2 ^ 64 - 1 }
    ensures { Writes W.taken W.failed sink.old sink.new (papers_table seats poll.now) result }
{
    let rejected = rejected_in_all(&poll.rejected);
    let pieces = [
        Piece::Text(
            "<div class=\"top\">\n<div>\n<h2>Papers</h2>\n<table class=\"papers\">\n<tr><th scope=\"row\">Seats</th><td>",
        ),
        Piece::Number(u64::from(seats)),
        Piece::Text("</td></tr>\n<tr><th scope=\"row\">Valid papers</th><td>"),
        Piece::Number(u64::from(poll.valid)),
        Piece::Text("</td></tr>\n<tr><th scope=\"row\">Quota, in votes</th><td>"),
        Piece::Value(quota(poll.valid, seats)),
        Piece::Text(
            "</td></tr>\n<tr><th scope=\"row\">Rejected, code 1: no first preference</th><td>",
        ),
        Piece::Number(u64::from(poll.rejected[0])),
        Piece::Text(
            "</td></tr>\n<tr><th scope=\"row\">Rejected, code 2: several first preferences</th><td>",
        ),
        Piece::Number(u64::from(poll.rejected[1])),
        Piece::Text(
            "</td></tr>\n<tr><th scope=\"row\">Rejected, code 3: no official mark</th><td>",
        ),
        Piece::Number(u64::from(poll.rejected[2])),
        Piece::Text(
            "</td></tr>\n<tr><th scope=\"row\">Rejected, code 4: voter identifiable</th><td>",
        ),
        Piece::Number(u64::from(poll.rejected[3])),
        Piece::Text(
            "</td></tr>\n<tr><th scope=\"row\">Rejected, code 5: void for uncertainty</th><td>",
        ),
        Piece::Number(u64::from(poll.rejected[4])),
        Piece::Text("</td></tr>\n<tr><th scope=\"row\">Rejected papers in all</th><td>"),
        Piece::Number(rejected),
        Piece::Text("</td></tr>\n<tr><th scope=\"row\">Papers in all</th><td>"),
        Piece::Number(u64::from(poll.valid) + rejected),
        Piece::Text("</td></tr>\n</table>\n</div>\n<div>"),
    ];
    write_line(sink, &pieces)
}

/// Writes a note saying that the ward is uncontested.
fn write_uncontested<W: Sink>(sink: &mut W, seats: u8) -> Result<(), Broken>
    requires { W.failed sink.old < 2 ^ 64 - 1 }
    ensures { Writes W.taken W.failed sink.old sink.new (uncontested_text seats) result }
{
    let pieces = [
        Piece::Text("<p>Seats: "),
        Piece::Number(u64::from(seats)),
        Piece::Text(
            ". The ward is uncontested: there is no poll, and all its candidates are elected.</p>",
        ),
    ];
    write_line(sink, &pieces)
}

/// Writes the chart of the stages, once there is one.
fn write_chart_part<W: Sink>(
    sink: &mut W,
    ward: &Ward,
    poll: &Poll,
    stages: &[Stage],
) -> Result<(), Broken>
    requires some_seats { 1 ≤ ward.now.seats }
    requires few_seats { ward.now.seats ≤ max_seats }
    requires few { poll.now.valid ≤ max_papers }
    requires failures { W.failed sink.old < 2 ^ 64 - 1 }
    ensures { Writes W.taken W.failed sink.old sink.new (chart_part (shown ward.now) poll.now stages.now) result }
{
    if stages.is_empty() {
        return Ok(());
    }
    write_chart(sink, ward, scale_of(ward.seats, poll, stages), stages)
}

/// Writes the stages as tables.
fn write_stages_part<W: Sink>(sink: &mut W, ward: &Ward, stages: &[Stage]) -> Result<(), Broken>
    requires { W.failed sink.old < 2 ^ 64 - 1 }
    ensures { Writes W.taken W.failed sink.old sink.new (stages_part (shown ward.now) stages.now) result }
{
    if stages.is_empty() {
        let none = Piece::Text("</div>\n</div>\n<h2>Stages</h2>\n<p>No stage is done yet.</p>");
        return write_line(sink, &[none]);
    }
    write_line(sink, &[Piece::Text("</div>\n</div>\n<h2>Stages</h2>")])?;
    write_tables(sink, ward, stages)
}

/// Writes what the result of a ward is based on: the chart, its papers, the ties and lots, the surpluses, and the stages.
fn write_grounds<W: Sink>(sink: &mut W, ward: &Ward, count: &CountShown) -> Result<(), Broken>
    requires ward { CanBePrinted ward.now }
    requires failures { W.failed sink.old < 2 ^ 64 - 1 }
    ensures { Writes W.taken W.failed sink.old sink.new (grounds (shown ward.now) ward.now.poll count.now.stages.now count.now.lots.now count.now.surpluses.now) result }
{
    let Some(poll) = ward.poll else {
        return write_uncontested(sink, ward.seats);
    };
    write_chart_part(sink, ward, &poll, count.stages)?;
    write_papers_table(sink, ward.seats, &poll)?;
    write_ties(sink, ward, count.stages)?;
    write_lots(sink, ward, count.stages, count.lots)?;
    write_surpluses(sink, ward, count.surpluses)?;
    write_stages_part(sink, ward, count.stages)
}

// ---- the foot

/// Writes the ward, its elected candidates and its empty seats, with lines below them for the date and three signatures.
fn write_signatures<W: Sink>(sink: &mut W, ward: &Ward, stages: &[Stage]) -> Result<(), Broken>
    requires { W.failed sink.old < 2 ^ 64 - 1 }
    ensures { Writes W.taken W.failed sink.old sink.new (signatures (shown ward.now) stages.now) result }
{
    let opening = [
        Piece::Text("<div class=\"sign\">\n<h2>Ward "),
        Piece::Named(ward.number, ward.name),
        Piece::Text(": elected</h2>\n<ul>"),
    ];
    write_line(sink, &opening)?;
    write_elected_items(sink, ward, stages)?;
    write_empty_seats(sink, left_in(ward, stages))?;
    write_text(
        sink,
        "</ul>\n<h2>Signed</h2>\n<p>Date</p>\n<p>Returning officer</p>\n<p>First witness</p>\n<p>Second witness</p>\n</div>\n</body>\n</html>\n",
    )
}

/// Writes the foot of the page, with a place to sign if the result is declared.
fn write_foot<W: Sink>(
    sink: &mut W,
    ward: &Ward,
    is_declared: bool,
    stages: &[Stage],
) -> Result<(), Broken>
    requires { W.failed sink.old < 2 ^ 64 - 1 }
    ensures { Writes W.taken W.failed sink.old sink.new (foot (shown ward.now) is_declared stages.now) result }
{
    if is_declared {
        return write_signatures(sink, ward, stages);
    }
    write_text(sink, "</body>\n</html>\n")
}

/// Writes the page of a ward, as one HTML file. It shows the title, the elected candidates, a chart of their votes, and the papers.
/// Then it explains the ties that earlier stages settled, the lots drawn, and the papers that passed on with each surplus. Tables of
/// the stages follow and, if the ward is declared, lines for signatures. An empty title is omitted. For an uncontested ward, the count
/// isn't read.
///
/// Allocates nothing. `Broken` only if the sink fails; it has then accepted a prefix of the page, and its failure count is one
/// higher.
pub fn write_page<W: Sink>(
    sink: &mut W,
    ward: &Ward,
    title: &str,
    is_declared: bool,
    count: &CountShown,
) -> Result<(), Broken>
    requires ward { CanBePrinted ward.now }
    requires failures { W.failed sink.old < 2 ^ 64 - 1 }
    ensures { Writes W.taken W.failed sink.old sink.new (page (shown ward.now) title.now is_declared count.now.stages.now count.now.lots.now count.now.surpluses.now) result }
{
    write_page_head(sink, ward, title, is_declared)?;
    write_elected(sink, ward, is_declared, count.stages)?;
    write_grounds(sink, ward, count)?;
    write_foot(sink, ward, is_declared, count.stages)
}
