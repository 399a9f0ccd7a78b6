//! The ties of a ward that earlier stages settled, on a page.

ghost use Rattle.std.specs.Prelude.{◌≡◌, ◌-◌, ◌^◌, ◌<◌, ◌+◌, ℕ, ◌∷◌, Option, length, reverse};
ghost use Rattle.count.specs.Law.Contest.{Contest, History, In, IsContest};
ghost use Rattle.count.specs.Law.Right.{IsRightBy, candidate_of as candidate_by};
ghost use Rattle.sheet.specs.Cells.{from_place};
ghost use Rattle.sheet.specs.Entries.{shown};
ghost use Rattle.sheet.specs.Ties.{IsSettled, is_level as is_level_with, parted_at as parted_by, tie_between as tie_of, tie_item, ties_at, ties_text};
ghost use Rattle.sheet.specs.Ties.{since_parted as since_parted_by, votes_then as votes_by};
ghost use Rattle.sheet.specs.Writing.{Writes};

use crate::cells::name_in;
use crate::each_candidate::{OfCandidate, write_each};
use crate::line::{Piece, write_line};
use crate::stage::{is_excluded_at, votes_of};
use crate::ward::Ward;
use count::{Action, Stage};
use streams::{Broken, Sink};
use votes::Votes;

/// The figures of a tie between two candidates, the chosen one and another: their equal votes, the number of the stage that settled
/// it, and the votes of each at that stage.
#[derive(Clone, Copy)]
pub struct Tie {
    pub votes: Votes,
    pub stage: u64,
    pub of_chosen: Votes,
    pub of_other: Votes,
}

/// Returns the given candidate's votes at the stage with the given number.
fn votes_then(stages: &[Stage], k: usize, c: u8) -> Votes
    ensures { result ≡ votes_by stages.now k c }
{
    match stages.get(k.saturating_sub(1)) {
        None => Votes::from_units(0),
        Some(stage) => votes_of(stage, c),
    }
}

/// Returns whether `d`, who is not excluded, has as many votes after the given stages as `c`.
fn is_level(stages: &[Stage], c: u8, d: u8) -> bool
    ensures { result ≡ is_level_with stages.now c d }
{
    let last = stages.len();
    !is_excluded_at(stages, d)
        && votes_then(stages, last, c).units() == votes_then(stages, last, d).units()
}

/// Returns how many stages are later than the most recent one at which two candidates had different votes.
fn since_parted(stages: &[Stage], c: u8, d: u8) -> Option<usize>
    ensures { result ≡ since_parted_by stages.now c d }
{
    stages.iter().rev().position(|stage| votes_of(stage, c).units() != votes_of(stage, d).units())
}

/// Returns the number of the most recent stage at which two candidates had different votes.
fn parted_at(stages: &[Stage], c: u8, d: u8) -> Option<usize>
    ensures { result ≡ parted_by stages.now c d }
{
    match since_parted(stages, c, d) {
        None => None,
        Some(later) => Some(stages.len().saturating_sub(later)),
    }
}

/// Returns the tie between two candidates after the given stages that an earlier stage settles, if there is one.
fn tie_between(stages: &[Stage], c: u8, d: u8) -> Option<Tie>
    ensures { result ≡ tie_of stages.now c d }
{
    if !is_level(stages, c, d) {
        return None;
    }
    let Some(k) = parted_at(stages, c, d) else {
        return None;
    };
    Some(Tie {
        votes: votes_then(stages, stages.len(), c),
        stage: k as u64,
        of_chosen: votes_then(stages, k, c),
        of_other: votes_then(stages, k, d),
    })
}

/// States the law of the ties that a page names as settled by an earlier stage, for its callers: the named figures are those by
/// which the count chose.
pub fn settled_ties_are_of_the_count()
    ensures { (contest : Contest) (handed : History → Stage → Option ℕ) (s : Stage) (before : History) (c d : ℕ) (tie : Tie) → IsContest contest → IsRightBy contest handed (s ∷ before)
        → candidate_by s.action ≡ Some c → In d contest.candidates → tie_of (reverse before) c d ≡ Some tie → IsSettled s.action tie }
{}

/// Returns the candidate that an action concerns.
fn candidate_of(action: Action) -> Option<u8>
    ensures { result ≡ candidate_by action }
{
    match action {
        Action::First => None,
        Action::Surplus(c) | Action::Exclude(c) | Action::ExcludeLast(c) => Some(c),
    }
}

/// The item for the tie of a candidate with the one that a stage concerns, given the stages before it; empty if there is no such tie.
#[derive(Clone, Copy)]
struct TieWith<'a> {
    earlier: &'a [Stage],
    action: Action,
    c: u8,
    name: &'a str,
}

/// Writes the item for a tie with the given other candidate.
fn write_tie<'a, W: Sink>(
    sink: &mut W,
    with: &TieWith<'a>,
    tie: Tie,
    d: u8,
    other: &'a str,
) -> Result<(), Broken>
    requires { W.failed sink.old < 2 ^ 64 - 1 }
    ensures { Writes W.taken W.failed sink.old sink.new (tie_item (length with.now.earlier.now + 1) with.now.action with.now.c with.now.name.now (Some tie) d other.now) result }
{
    let pieces = [
        Piece::Text("<li>Stage "),
        Piece::Number(with.earlier.len() as u64 + 1),
        Piece::Text(", "),
        Piece::DoneWith(with.action, with.name),
        Piece::Text(": "),
        Piece::Named(d, other),
        Piece::Text(" also had "),
        Piece::Value(tie.votes),
        Piece::Text(" votes. At stage "),
        Piece::Number(tie.stage),
        Piece::Text(", the most recent at which they differed, "),
        Piece::Named(with.c, with.name),
        Piece::Text(" had "),
        Piece::Value(tie.of_chosen),
        Piece::Text(" and "),
        Piece::Named(d, other),
        Piece::Text(" "),
        Piece::Value(tie.of_other),
        Piece::Text(".</li>"),
    ];
    write_line(sink, &pieces)
}

impl<'a> OfCandidate for TieWith<'a> {
    ghost text = { λ t d other. tie_item (length t.earlier.now + 1) t.action t.c t.name.now (tie_of t.earlier.now t.c d) d other };

    fn write<W: Sink>(&self, sink: &mut W, candidate: &(u8, String)) -> Result<(), Broken> {
        let (d, other) = candidate;
        let Some(tie) = tie_between(self.earlier, self.c, *d) else {
            return Ok(());
        };
        write_tie(sink, self, tie, *d, other.as_str())
    }
}

/// Writes the ties at a stage, given the stages before it.
fn write_ties_at<W: Sink>(
    sink: &mut W,
    ward: &Ward,
    earlier: &[Stage],
    stage: &Stage,
) -> Result<(), Broken>
    requires { W.failed sink.old < 2 ^ 64 - 1 }
    ensures { Writes W.taken W.failed sink.old sink.new (ties_at (shown ward.now) earlier.now stage.now) result }
{
    let action = stage.action;
    let Some(c) = candidate_of(action) else {
        return Ok(());
    };
    let name = name_in(ward, action);
    write_each(
        sink,
        ward,
        &TieWith {
            earlier,
            action,
            c,
            name,
        },
    )
}

/// Writes the ties at all stages, stage by stage.
fn write_ties_at_stages<W: Sink>(sink: &mut W, ward: &Ward, stages: &[Stage]) -> Result<(), Broken>
    requires { W.failed sink.old < 2 ^ 64 - 1 }
    ensures { Writes W.taken W.failed sink.old sink.new (from_place (ties_at (shown ward.now)) 0 stages.now) result }
{
    for k in 0..stages.len() {
        write_ties_at(sink, ward, &stages[..k], &stages[k])?;
    }
    Ok(())
}

/// Writes the heading of the ties and lots, and the ties that earlier stages settled.
pub fn write_ties<W: Sink>(sink: &mut W, ward: &Ward, stages: &[Stage]) -> Result<(), Broken>
    requires { W.failed sink.old < 2 ^ 64 - 1 }
    ensures { Writes W.taken W.failed sink.old sink.new (ties_text (shown ward.now) stages.now) result }
{
    write_line(sink, &[Piece::Text("<h2>Ties and lots</h2>\n<ul>")])?;
    write_ties_at_stages(sink, ward, stages)?;
    write_line(sink, &[Piece::Text("</ul>")])
}
