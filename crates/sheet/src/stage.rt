//! The lines of one stage.

ghost use Rattle.std.specs.Prelude.{◌≡◌, ◌-◌, ◌^◌, ◌<◌};
ghost use Rattle.count.specs.Law.Contest.{votes_at};
ghost use Rattle.sheet.specs.Entries.{shown};
ghost use Rattle.sheet.specs.Stages.{is_elected_at as is_elected_of, is_excluded_at as is_excluded_of, fate_at as fate_of, letter as letter_of, heading, candidate_line, sum_line, sum_lines};
ghost use Rattle.sheet.specs.Sheet.{stage_text};
ghost use Rattle.sheet.specs.Writing.{Writes};

use crate::each_candidate::{OfCandidate, write_each};
use crate::line::{Piece, write_line};
use crate::ward::Ward;
use count::{Action, Stage};
use streams::{Broken, Sink};
use votes::Votes;

/// The standing of a candidate at a stage.
#[derive(Clone, Copy)]
pub enum Fate {
    /// The candidate is elected at this stage.
    NewlyElected,
    /// The candidate was elected at an earlier stage.
    Elected,
    /// The candidate is excluded at this stage.
    NewlyExcluded,
    /// The candidate was excluded at an earlier stage.
    Excluded,
    /// The candidate is neither elected nor excluded.
    Continuing,
}

/// Writes the number of a stage, and its action.
fn write_heading<W: Sink>(sink: &mut W, k: u64, action: Action) -> Result<(), Broken>
    requires { W.failed sink.old < 2 ^ 64 - 1 }
    ensures { Writes W.taken W.failed sink.old sink.new (heading k action) result }
{
    let pieces = [
        Piece::Text("Stage "),
        Piece::Number(k),
        Piece::Text(": "),
        Piece::Done(action),
    ];
    write_line(sink, &pieces)
}

/// Returns whether the candidate is newly elected at one of the given stages.
pub fn is_elected_at(stages: &[Stage], c: u8) -> bool
    ensures { result ≡ is_elected_of stages.now c }
{
    stages.iter().any(|stage| stage.elected.has(c))
}

/// Returns whether the candidate is excluded at one of the given stages.
pub fn is_excluded_at(stages: &[Stage], c: u8) -> bool
    ensures { result ≡ is_excluded_of stages.now c }
{
    stages.iter().any(|stage| stage.action.excludes(c))
}

/// Returns the standing of the candidate at the stage, given the stages before it.
pub fn fate_at(earlier: &[Stage], stage: &Stage, c: u8) -> Fate
    ensures { result ≡ fate_of earlier.now stage.now c }
{
    if stage.elected.has(c) {
        return Fate::NewlyElected;
    }
    if is_elected_at(earlier, c) {
        return Fate::Elected;
    }
    if stage.action.excludes(c) {
        return Fate::NewlyExcluded;
    }
    if is_excluded_at(earlier, c) {
        return Fate::Excluded;
    }
    Fate::Continuing
}

/// Returns a candidate's letter: `E` elected at this stage, `e` elected at an earlier stage, `x` excluded at this or an earlier
/// stage, `-` otherwise.
fn letter(fate: Fate) -> &'static str
    ensures { result.now ≡ letter_of fate }
{
    match fate {
        Fate::NewlyElected => "E",
        Fate::Elected => "e",
        Fate::NewlyExcluded | Fate::Excluded => "x",
        Fate::Continuing => "-",
    }
}

/// Returns the given candidate's votes at the given stage.
pub fn votes_of(stage: &Stage, c: u8) -> Votes
    ensures { result ≡ votes_at stage.now c }
{
    match stage.votes.get(usize::from(c.saturating_sub(1))) {
        None => Votes::from_units(0),
        Some(votes) => *votes,
    }
}

/// The line of a candidate at a stage, given the stages before it.
#[derive(Clone, Copy)]
struct CandidateLine<'a> {
    earlier: &'a [Stage],
    stage: &'a Stage,
}

impl<'a> OfCandidate for CandidateLine<'a> {
    ghost text = { λ l. candidate_line l.earlier.now l.stage.now };

    fn write<W: Sink>(&self, sink: &mut W, candidate: &(u8, String)) -> Result<(), Broken> {
        let (c, name) = candidate;
        let pieces = [
            Piece::NumberColumn(*c),
            Piece::Text(" "),
            Piece::ValueColumn(votes_of(self.stage, *c)),
            Piece::Text(" "),
            Piece::Text(letter(fate_at(self.earlier, self.stage, *c))),
            Piece::Text(" "),
            Piece::Text(name.as_str()),
        ];
        write_line(sink, &pieces)
    }
}

/// Writes a running total of a stage, with its label.
fn write_sum_line<W: Sink>(sink: &mut W, sum: Votes, what: &str) -> Result<(), Broken>
    requires { W.failed sink.old < 2 ^ 64 - 1 }
    ensures { Writes W.taken W.failed sink.old sink.new (sum_line sum what.now) result }
{
    let pieces = [
        Piece::Text("   "),
        Piece::ValueColumn(sum),
        Piece::Text(" "),
        Piece::Text(what),
    ];
    write_line(sink, &pieces)
}

/// Writes the running totals of a stage.
fn write_sum_lines<W: Sink>(sink: &mut W, stage: &Stage) -> Result<(), Broken>
    requires { W.failed sink.old < 2 ^ 64 - 1 }
    ensures { Writes W.taken W.failed sink.old sink.new (sum_lines stage.now) result }
{
    write_sum_line(sink, stage.non_transferable, "non-transferable")?;
    write_sum_line(sink, stage.lost, "lost by fractions")
}

/// Writes the stage, given the stages before it.
pub fn write_stage<W: Sink>(
    sink: &mut W,
    ward: &Ward,
    earlier: &[Stage],
    stage: &Stage,
) -> Result<(), Broken>
    requires { W.failed sink.old < 2 ^ 64 - 1 }
    ensures { Writes W.taken W.failed sink.old sink.new (stage_text (shown ward.now) earlier.now stage.now) result }
{
    write_heading(sink, earlier.len() as u64 + 1, stage.action)?;
    write_each(sink, ward, &CandidateLine { earlier, stage })?;
    write_sum_lines(sink, stage)
}
