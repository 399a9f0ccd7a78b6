//! The lots of a ward, on a page.

ghost use Rattle.std.specs.Prelude.{◌≡◌, ◌-◌, ◌^◌, ◌<◌, slice_get, take};
ghost use Rattle.std.specs.List.{filter, flat_map};
ghost use Rattle.std.specs.Prelude.{ℕ, List, Option, reverse};
ghost use Rattle.count.specs.Books.{AreRankings};
ghost use Rattle.count.specs.Law.Contest.{Contest, History, In, IsContest};
ghost use Rattle.count.specs.Law.Due.{due_after};
ghost use Rattle.count.specs.Law.Right.{IsRightBy};
ghost use Rattle.count.specs.declared.stages.Due.TheVariants.{Lot};
ghost use Rattle.count.specs.declared.stages.TiedFor.{TiedFor};
ghost use Rattle.sheet.specs.Entries.{candidates_shown, shown};
ghost use Rattle.sheet.specs.Lots.{are_equal_at as are_equal_over, has_tied_above as tied_above_of, has_tied_below as tied_below_of, is_tied as is_tied_with, lot_item, lots_text};
ghost use Rattle.sheet.specs.Lots.{settled_at as settled_in, settled_by as settled_with, tie_mark as mark_of, tied_name};
ghost use Rattle.sheet.specs.Writing.{Writes};

use crate::ballots::name_or_withdrawn;
use crate::each_candidate::{OfCandidate, write_each};
use crate::line::{Piece, write_line, write_pieces};
use crate::stage::{is_excluded_at, votes_of};
use crate::ward::Ward;
use count::{Action, Stage};
use streams::{Broken, Sink};

/// Returns whether two candidates had equal votes at each of the given stages.
fn are_equal_at(stages: &[Stage], c: u8, d: u8) -> bool
    ensures { result ≡ are_equal_over stages.now c d }
{
    stages.iter().all(|stage| votes_of(stage, c).units() == votes_of(stage, d).units())
}

/// Returns whether the candidate was tied with the one drawn by lot.
fn is_tied(earlier: &[Stage], c: u8, d: u8) -> bool
    ensures { result ≡ is_tied_with earlier.now c d }
{
    !is_excluded_at(earlier, d) && are_equal_at(earlier, c, d)
}

/// Returns whether some tied candidate has a lower number than the given candidate.
fn has_tied_below(candidates: &[(u8, String)], earlier: &[Stage], c: u8, d: u8) -> bool
    ensures { result ≡ tied_below_of candidates.now earlier.now c d }
{
    candidates.iter().any(|candidate| candidate.0 < d && is_tied(earlier, c, candidate.0))
}

/// Returns whether some tied candidate has a higher number than the given candidate.
fn has_tied_above(candidates: &[(u8, String)], earlier: &[Stage], c: u8, d: u8) -> bool
    ensures { result ≡ tied_above_of candidates.now earlier.now c d }
{
    candidates.iter().any(|candidate| d < candidate.0 && is_tied(earlier, c, candidate.0))
}

/// Returns the separator before the name of a tied candidate.
fn tie_mark(has_below: bool, has_above: bool) -> &'static str
    ensures { result.now ≡ mark_of has_below has_above }
{
    if !has_below {
        return "";
    }
    if has_above { ", " } else { " and " }
}

/// The name of a candidate who was tied with the one drawn by lot; empty for any other candidate.
#[derive(Clone, Copy)]
struct TiedName<'a> {
    candidates: &'a [(u8, String)],
    earlier: &'a [Stage],
    named: u8,
}

impl<'a> OfCandidate for TiedName<'a> {
    ghost text = { λ t. tied_name (candidates_shown t.candidates.now) t.earlier.now t.named };

    fn write<W: Sink>(&self, sink: &mut W, candidate: &(u8, String)) -> Result<(), Broken> {
        let (c, name) = candidate;
        if !is_tied(self.earlier, self.named, *c) {
            return Ok(());
        }
        let below = has_tied_below(self.candidates, self.earlier, self.named, *c);
        let above = has_tied_above(self.candidates, self.earlier, self.named, *c);
        let mark = Piece::Text(tie_mark(below, above));
        write_pieces(sink, &[mark, Piece::Named(*c, name.as_str())])
    }
}

/// States the law of the candidates that a page names as tied for a lot, for its callers: they are those who are tied according to
/// the count.
pub fn ties_are_of_the_count()
    ensures { (contest : Contest) (handed : History → Stage → Option ℕ) (stages : History) (k c : ℕ) (kind : TiedFor) (tied : List ℕ) → IsContest contest → AreRankings contest.papers
        → IsRightBy contest handed stages → due_after contest stages ≡ Lot k kind tied → In c tied → filter (is_tied_with (reverse stages) c) contest.candidates ≡ tied }
{}

/// Returns what a lot decided, given the action of its stage.
fn settled_by(action: Action) -> &'static str
    ensures { result.now ≡ settled_with action }
{
    match action {
        Action::First => ": drawn ",
        Action::Surplus(_) => ": first the surplus of ",
        Action::Exclude(_) => ": excluded ",
        Action::ExcludeLast(_) => ": excluded ",
    }
}

/// Returns what the lot for the given stage decided, if that stage has been completed.
fn settled_at(stages: &[Stage], k: u8) -> &'static str
    ensures { result.now ≡ settled_in (slice_get stages.now (k - 1)) }
{
    match stages.get(usize::from(k.saturating_sub(1))) {
        None => ": drawn ",
        Some(stage) => settled_by(stage.action),
    }
}

/// Returns the stages before the one with the given number.
fn stages_before(stages: &[Stage], k: u8) -> &[Stage]
    ensures { result.now ≡ take (k - 1) stages.now }
{
    let before = usize::from(k.saturating_sub(1));
    if before < stages.len() {
        &stages[..before]
    } else {
        stages
    }
}

/// Writes a lot: its stage, the tied candidates, and what it decided.
fn write_lot_item<W: Sink>(
    sink: &mut W,
    ward: &Ward,
    stages: &[Stage],
    lot: &(u8, u8),
) -> Result<(), Broken>
    requires { W.failed sink.old < 2 ^ 64 - 1 }
    ensures { Writes W.taken W.failed sink.old sink.new (lot_item (shown ward.now) stages.now lot.now) result }
{
    let (k, named) = *lot;
    let opening = [
        Piece::Text("<li>Lot at stage "),
        Piece::Number(u64::from(k)),
        Piece::Text(" between "),
    ];
    write_pieces(sink, &opening)?;
    let tied = TiedName {
        candidates: ward.candidates,
        earlier: stages_before(stages, k),
        named,
    };
    write_each(sink, ward, &tied)?;
    let end = [
        Piece::Text(settled_at(stages, k)),
        Piece::Named(named, name_or_withdrawn(ward, named)),
        Piece::Text("</li>"),
    ];
    write_line(sink, &end)
}

/// Writes the lots in order.
fn write_lot_items<W: Sink>(
    sink: &mut W,
    ward: &Ward,
    stages: &[Stage],
    lots: &[(u8, u8)],
) -> Result<(), Broken>
    requires { W.failed sink.old < 2 ^ 64 - 1 }
    ensures { Writes W.taken W.failed sink.old sink.new (flat_map (lot_item (shown ward.now) stages.now) lots.now) result }
{
    for lot in lots {
        write_lot_item(sink, ward, stages, lot)?;
    }
    Ok(())
}

/// Writes the lots that were drawn, below the ties that earlier stages settled.
pub fn write_lots<W: Sink>(
    sink: &mut W,
    ward: &Ward,
    stages: &[Stage],
    lots: &[(u8, u8)],
) -> Result<(), Broken>
    requires { W.failed sink.old < 2 ^ 64 - 1 }
    ensures { Writes W.taken W.failed sink.old sink.new (lots_text (shown ward.now) stages.now lots.now) result }
{
    if lots.is_empty() {
        let none = Piece::Text("<p>No lot was drawn.</p>");
        return write_line(sink, &[none]);
    }
    write_line(sink, &[Piece::Text("<ul>")])?;
    write_lot_items(sink, ward, stages, lots)?;
    write_line(sink, &[Piece::Text("</ul>")])
}
