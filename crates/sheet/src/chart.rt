//! The chart of a ward's votes: one row per candidate, with a bar and its figures.

ghost use Rattle.std.specs.Prelude.{◌≡◌, ◌-◌, ◌+◌, ◌^◌, ◌<◌, ◌≤◌, IfSome, length};
ghost use Rattle.votes.specs.Units.{max_papers, max_seats};
ghost use Rattle.sheet.specs.Cells.{votes_or};
ghost use Rattle.sheet.specs.Chart.{bar, bar_length as length_of, figures, who, chart, chart_head, chart_line};
ghost use Rattle.sheet.specs.Chart.{chart_row, ending_by, ending_class as class_of, ending_of as ending_at, ending_stage as stage_of, ending_words as words_of};
ghost use Rattle.sheet.specs.Chart.{elected_place as elected_at_place, excluded_place as excluded_at_place, greatest, greatest_at, most_votes as most_of, scale_of as scale_by};
ghost use Rattle.sheet.specs.Entries.{shown};
ghost use Rattle.sheet.specs.Lines.{joined, line};
ghost use Rattle.sheet.specs.Writing.{Writes};
ghost use Rattle.std.specs.Prelude.{slice_get};

use crate::each_candidate::{OfCandidate, write_each};
use crate::line::{Piece, write_line, write_pieces};
use crate::look::{legend, patterns};
use crate::stage::votes_of;
use crate::ward::{Poll, Ward};
use count::Stage;
use streams::{Broken, Sink};
use votes::{Votes, quota};

/// The scale of the bars, in units: the quota, and the maximum of the quota and all votes.
#[derive(Clone, Copy)]
pub struct Scale {
    pub quota: u64,
    pub most: u64,
}

/// The final outcome for a candidate, with the number of its stage, counted from 1.
#[derive(Clone, Copy)]
pub enum Ending {
    /// The candidate is elected at this stage.
    Elected(u64),
    /// The candidate is excluded at this stage.
    Excluded(u64),
    /// The candidate is neither elected nor excluded by this stage, the last one.
    Neither(u64),
}

/// Returns the maximum of the given votes and another value.
fn greatest_of(most: u64, votes: &[Votes]) -> u64
    ensures { result ≡ greatest most votes.now }
{
    let mut top = most;
    for value in votes {
        if top < value.units() {
            top = value.units();
        }
    }
    top
}

/// Returns the maximum of the votes at the given stages and another value.
fn greatest_of_stages(most: u64, stages: &[Stage]) -> u64
    ensures { result ≡ greatest_at most stages.now }
{
    let mut top = most;
    for stage in stages {
        top = greatest_of(top, &stage.votes);
    }
    top
}

/// Returns the scale of the bars of a ward.
pub fn scale_of(seats: u8, poll: &Poll, stages: &[Stage]) -> Scale
    requires some_seats { 1 ≤ seats }
    requires few_seats { seats ≤ max_seats }
    requires few { poll.now.valid ≤ max_papers }
    ensures { result ≡ scale_by seats poll.now stages.now }
{
    let quota = quota(poll.valid, seats).units();
    Scale {
        quota,
        most: greatest_of_stages(quota, stages),
    }
}

/// Returns the length of a bar, out of 100.
fn bar_length(scale: Scale, units: u64) -> u64
    ensures is { result ≡ length_of scale units }
    ensures short { result ≤ 100 }
{
    let hundreds = u128::from(units) * 100 / u128::from(scale.most.max(1));
    if hundreds < 100 { hundreds as u64 } else { 100 }
}

/// Returns the given candidate's votes at the first stage.
fn first_votes(stages: &[Stage], c: u8) -> Votes
    ensures { result ≡ votes_or 0 (slice_get stages.now 0) c }
{
    match stages.first() {
        None => Votes::from_units(0),
        Some(stage) => votes_of(stage, c),
    }
}

/// Returns the most votes that the given candidate had at any stage.
fn most_votes(stages: &[Stage], c: u8) -> u64
    ensures { result ≡ most_of 0 stages.now c }
{
    let mut top = 0;
    for stage in stages {
        let units = votes_of(stage, c).units();
        if top < units {
            top = units;
        }
    }
    top
}

/// Returns the number of stages before the one at which the given candidate is elected.
pub fn elected_place(stages: &[Stage], c: u8) -> Option<usize>
    ensures is { result ≡ elected_at_place stages.now c }
    ensures within { IfSome result (λ place. place < length stages.now) }
{
    stages.iter().position(|stage| stage.elected.has(c))
}

/// Returns the number of stages before the one at which the given candidate is excluded.
pub fn excluded_place(stages: &[Stage], c: u8) -> Option<usize>
    ensures is { result ≡ excluded_at_place stages.now c }
    ensures within { IfSome result (λ place. place < length stages.now) }
{
    stages.iter().position(|stage| stage.action.excludes(c))
}

/// Returns the final outcome for the given candidate.
fn ending_of(stages: &[Stage], c: u8) -> Ending
    ensures { result ≡ ending_at stages.now c }
{
    match elected_place(stages, c) {
        Some(place) => Ending::Elected(place as u64 + 1),
        None => match excluded_place(stages, c) {
            Some(place) => Ending::Excluded(place as u64 + 1),
            None => Ending::Neither(stages.len() as u64),
        },
    }
}

/// Returns the class of a candidate's row.
fn ending_class(ending: Ending) -> &'static str
    ensures { result.now ≡ class_of ending }
{
    match ending {
        Ending::Elected(_) => "elected",
        Ending::Excluded(_) => "excluded",
        Ending::Neither(_) => "neither",
    }
}

/// Returns the outcome in words, to be followed by the number of the stage.
fn ending_words(ending: Ending) -> &'static str
    ensures { result.now ≡ words_of ending }
{
    match ending {
        Ending::Elected(_) => "<b>elected</b> at stage ",
        Ending::Excluded(_) => "excluded at stage ",
        Ending::Neither(_) => "not elected up to stage ",
    }
}

/// Returns the number of an outcome's stage.
fn ending_stage(ending: Ending) -> u64
    ensures { result ≡ stage_of ending }
{
    match ending {
        Ending::Elected(k) => k,
        Ending::Excluded(k) => k,
        Ending::Neither(k) => k,
    }
}

/// The data of a candidate's row: the votes at the first stage, the most votes, and the outcome.
#[derive(Clone, Copy)]
struct Told {
    scale: Scale,
    first: Votes,
    most: Votes,
    ending: Ending,
}

/// Writes the candidate, at the beginning of the row.
fn write_who<W: Sink>(sink: &mut W, ending: Ending, c: u8, name: &str) -> Result<(), Broken>
    requires { W.failed sink.old < 2 ^ 64 - 1 }
    ensures { Writes W.taken W.failed sink.old sink.new (who ending c name.now) result }
{
    let pieces = [
        Piece::Text("<li class=\""),
        Piece::Text(ending_class(ending)),
        Piece::Text("\"><span class=\"who\">"),
        Piece::Named(c, name),
        Piece::Text("</span>"),
    ];
    write_pieces(sink, &pieces)
}

/// Writes a bar: the votes at the first stage, then those gained later, and the quota.
fn write_bar<W: Sink>(sink: &mut W, scale: Scale, first: Votes, most: Votes) -> Result<(), Broken>
    requires { W.failed sink.old < 2 ^ 64 - 1 }
    ensures { Writes W.taken W.failed sink.old sink.new (joined (bar scale first most)) result }
{
    let kept = bar_length(scale, first.units());
    let all = bar_length(scale, most.units());
    let pieces = [
        Piece::Text("<svg class=\"bar\" aria-hidden=\"true\"><rect class=\"first\" width=\""),
        Piece::Number(kept),
        Piece::Text("%\" height=\"100%\"/><rect class=\"later\" x=\""),
        Piece::Number(kept),
        Piece::Text("%\" width=\""),
        Piece::Number(all.saturating_sub(kept)),
        Piece::Text("%\" height=\"100%\"/><rect class=\"quota\" x=\""),
        Piece::Number(bar_length(scale, scale.quota)),
        Piece::Text("%\" width=\"3\" height=\"100%\"/></svg>"),
    ];
    write_pieces(sink, &pieces)
}

/// Writes the figures next to a bar.
fn write_figures<W: Sink>(
    sink: &mut W,
    first: Votes,
    most: Votes,
    ending: Ending,
) -> Result<(), Broken>
    requires { W.failed sink.old < 2 ^ 64 - 1 }
    ensures { Writes W.taken W.failed sink.old sink.new (line (figures first most ending)) result }
{
    let pieces = [
        Piece::Text("<span class=\"had\">"),
        Piece::Value(first),
        Piece::Text(" at stage 1</span><span class=\"end\">"),
        Piece::Text(ending_words(ending)),
        Piece::Number(ending_stage(ending)),
        Piece::Text(", with "),
        Piece::Value(most),
        Piece::Text("</span></li>"),
    ];
    write_line(sink, &pieces)
}

/// Writes a row: the candidate, the bar, and its figures.
fn write_chart_line<W: Sink>(sink: &mut W, told: &Told, c: u8, name: &str) -> Result<(), Broken>
    requires { W.failed sink.old < 2 ^ 64 - 1 }
    ensures { Writes W.taken W.failed sink.old sink.new (chart_line told.now.scale told.now.first told.now.most told.now.ending c name.now) result }
{
    write_who(sink, told.ending, c, name)?;
    write_bar(sink, told.scale, told.first, told.most)?;
    write_figures(sink, told.first, told.most, told.ending)
}

/// The row of a candidate.
#[derive(Clone, Copy)]
struct ChartRow<'a> {
    scale: Scale,
    stages: &'a [Stage],
}

impl<'a> OfCandidate for ChartRow<'a> {
    ghost text = { λ r. chart_row r.scale r.stages.now };

    fn write<W: Sink>(&self, sink: &mut W, candidate: &(u8, String)) -> Result<(), Broken> {
        let (c, name) = candidate;
        let told = Told {
            scale: self.scale,
            first: first_votes(self.stages, *c),
            most: Votes::from_units(most_votes(self.stages, *c)),
            ending: ending_of(self.stages, *c),
        };
        write_chart_line(sink, &told, *c, name.as_str())
    }
}

/// Writes the part before the rows, which explains the bars.
fn write_chart_head<W: Sink>(sink: &mut W, quota: Votes) -> Result<(), Broken>
    requires { W.failed sink.old < 2 ^ 64 - 1 }
    ensures { Writes W.taken W.failed sink.old sink.new (chart_head quota) result }
{
    let pieces = [
        Piece::Text("<h2>Votes of each candidate</h2>\n"),
        Piece::Text(patterns()),
        Piece::Text(legend()),
        Piece::Value(quota),
        Piece::Text("</span></p>\n<ul class=\"chart\">"),
    ];
    write_line(sink, &pieces)
}

/// Writes the chart of the stages of a ward.
pub fn write_chart<W: Sink>(
    sink: &mut W,
    ward: &Ward,
    scale: Scale,
    stages: &[Stage],
) -> Result<(), Broken>
    requires { W.failed sink.old < 2 ^ 64 - 1 }
    ensures { Writes W.taken W.failed sink.old sink.new (chart (shown ward.now) scale stages.now) result }
{
    write_chart_head(sink, Votes::from_units(scale.quota))?;
    write_each(sink, ward, &ChartRow { scale, stages })?;
    write_line(sink, &[Piece::Text("</ul>")])
}
