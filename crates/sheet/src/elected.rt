//! The elected candidates, on a page.

ghost use Rattle.std.specs.Prelude.{◌≡◌, ◌-◌, ◌^◌, ◌<◌};
ghost use Rattle.sheet.specs.Cells.{from_place};
ghost use Rattle.sheet.specs.Entries.{shown};
ghost use Rattle.sheet.specs.Page.{elected_at, elected_end, elected_items, elected_text, empty_seat, empty_seats, item_at};
ghost use Rattle.sheet.specs.Page.{left_in as left_of_ward, open_end, seats_left as left_of, stay_empty as are_empty, unopposed_item};
ghost use Rattle.sheet.specs.Writing.{Writes};

use crate::each_candidate::{OfCandidate, write_each};
use crate::line::{Piece, write_line};
use crate::stage::votes_of;
use crate::ward::{Poll, Ward};
use count::Stage;
use streams::{Broken, Sink};

/// The item for a candidate who is elected at this stage, which has number `k`; empty for any other candidate.
#[derive(Clone, Copy)]
struct ItemAt<'a> {
    k: u64,
    stage: &'a Stage,
}

impl<'a> OfCandidate for ItemAt<'a> {
    ghost text = { λ i. item_at i.k i.stage.now };

    fn write<W: Sink>(&self, sink: &mut W, candidate: &(u8, String)) -> Result<(), Broken> {
        let (c, name) = candidate;
        if !self.stage.elected.has(*c) {
            return Ok(());
        }
        let pieces = [
            Piece::Text("<li><b>"),
            Piece::Named(*c, name.as_str()),
            Piece::Text("</b> <span>"),
            Piece::Value(votes_of(self.stage, *c)),
            Piece::Text(" votes, elected at stage "),
            Piece::Number(self.k),
            Piece::Text("</span></li>"),
        ];
        write_line(sink, &pieces)
    }
}

/// Writes the candidates elected at the given stage, in ascending order of their numbers.
fn write_elected_at<W: Sink>(
    sink: &mut W,
    ward: &Ward,
    earlier: &[Stage],
    stage: &Stage,
) -> Result<(), Broken>
    requires { W.failed sink.old < 2 ^ 64 - 1 }
    ensures { Writes W.taken W.failed sink.old sink.new (elected_at (shown ward.now) earlier.now stage.now) result }
{
    let k = earlier.len() as u64 + 1;
    write_each(sink, ward, &ItemAt { k, stage })
}

/// Writes the elected candidates, stage by stage.
fn write_elected_stages<W: Sink>(sink: &mut W, ward: &Ward, stages: &[Stage]) -> Result<(), Broken>
    requires { W.failed sink.old < 2 ^ 64 - 1 }
    ensures { Writes W.taken W.failed sink.old sink.new (from_place (elected_at (shown ward.now)) 0 stages.now) result }
{
    for k in 0..stages.len() {
        write_elected_at(sink, ward, &stages[..k], &stages[k])?;
    }
    Ok(())
}

/// A candidate of an uncontested ward.
#[derive(Clone, Copy)]
struct Unopposed;

impl OfCandidate for Unopposed {
    ghost text = { λ u. unopposed_item };

    fn write<W: Sink>(&self, sink: &mut W, candidate: &(u8, String)) -> Result<(), Broken> {
        let (c, name) = candidate;
        let pieces = [
            Piece::Text("<li><b>"),
            Piece::Named(*c, name.as_str()),
            Piece::Text("</b></li>"),
        ];
        write_line(sink, &pieces)
    }
}

/// Writes the elected candidates in the order of their election. For an uncontested ward, these are all candidates.
pub fn write_elected_items<W: Sink>(
    sink: &mut W,
    ward: &Ward,
    stages: &[Stage],
) -> Result<(), Broken>
    requires { W.failed sink.old < 2 ^ 64 - 1 }
    ensures { Writes W.taken W.failed sink.old sink.new (elected_items (shown ward.now) ward.now.poll stages.now) result }
{
    match ward.poll {
        None => write_each(sink, ward, &Unopposed),
        Some(_) => write_elected_stages(sink, ward, stages),
    }
}

/// Returns the number of seats that remain after the given stages.
fn seats_left(seats: u8, stages: &[Stage]) -> usize
    ensures { result ≡ left_of seats stages.now }
{
    let mut left = usize::from(seats);
    for stage in stages {
        left = left.saturating_sub(stage.elected.len());
    }
    left
}

/// Returns the number of seats of a ward that remain. In an uncontested ward, this is known without a count.
pub fn left_in(ward: &Ward, stages: &[Stage]) -> usize
    ensures { result ≡ left_of_ward (shown ward.now) ward.now.poll stages.now }
{
    match ward.poll {
        None => usize::from(ward.seats).saturating_sub(ward.candidates.len()),
        Some(_) => seats_left(ward.seats, stages),
    }
}

/// Returns whether the remaining seats will stay empty.
fn stay_empty(poll: Option<Poll>, is_declared: bool) -> bool
    ensures { result ≡ are_empty poll is_declared }
{
    match poll {
        None => true,
        Some(_) => is_declared,
    }
}

/// Writes a seat that stays empty.
fn write_empty_seat<W: Sink>(sink: &mut W) -> Result<(), Broken>
    requires { W.failed sink.old < 2 ^ 64 - 1 }
    ensures { Writes W.taken W.failed sink.old sink.new empty_seat result }
{
    write_line(sink, &[Piece::Text("<li class=\"empty\">empty seat</li>")])
}

/// Writes the given number of seats that stay empty, each on its own line.
pub fn write_empty_seats<W: Sink>(sink: &mut W, left: usize) -> Result<(), Broken>
    requires { W.failed sink.old < 2 ^ 64 - 1 }
    ensures { Writes W.taken W.failed sink.old sink.new (empty_seats left) result }
{
    for _ in 0..left {
        write_empty_seat(sink)?;
    }
    Ok(())
}

/// Writes the end of the list of elected candidates, with the number of seats that aren't filled yet.
fn write_open_end<W: Sink>(sink: &mut W, left: usize) -> Result<(), Broken>
    requires { W.failed sink.old < 2 ^ 64 - 1 }
    ensures { Writes W.taken W.failed sink.old sink.new (open_end left) result }
{
    if left == 0 {
        return write_line(sink, &[Piece::Text("</ul>")]);
    }
    let words = Piece::Text("</ul>\n<p>Seats not yet filled: ");
    let end = Piece::Text("</p>");
    write_line(sink, &[words, Piece::Number(left as u64), end])
}

/// Writes the end of the list of elected candidates, with the remaining seats: each that stays empty, or else their number.
fn write_elected_end<W: Sink>(sink: &mut W, is_final: bool, left: usize) -> Result<(), Broken>
    requires { W.failed sink.old < 2 ^ 64 - 1 }
    ensures { Writes W.taken W.failed sink.old sink.new (elected_end is_final left) result }
{
    if is_final {
        write_empty_seats(sink, left)?;
        return write_line(sink, &[Piece::Text("</ul>")]);
    }
    write_open_end(sink, left)
}

/// Writes the elected candidates and the remaining seats.
pub fn write_elected<W: Sink>(
    sink: &mut W,
    ward: &Ward,
    is_declared: bool,
    stages: &[Stage],
) -> Result<(), Broken>
    requires { W.failed sink.old < 2 ^ 64 - 1 }
    ensures { Writes W.taken W.failed sink.old sink.new (elected_text (shown ward.now) is_declared stages.now) result }
{
    let opening = Piece::Text("<h2>Elected</h2>\n<ul class=\"names\">");
    write_line(sink, &[opening])?;
    write_elected_items(sink, ward, stages)?;
    let is_final = stay_empty(ward.poll, is_declared);
    write_elected_end(sink, is_final, left_in(ward, stages))
}
