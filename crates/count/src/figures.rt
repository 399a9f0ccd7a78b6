//! The figures that a stage shows, one per candidate, and the parsing of stages from them.

ghost use Rattle.std.specs.Prelude.{◌≡◌, ℕ, ◌+◌, ◌≤◌, [], ◌∷◌, ◌++◌, length, map, reverse, IfOk, IfSome, IsSome, OnOk};
ghost use Rattle.paper.specs.Columns.{max_candidates};
ghost use Rattle.count.specs.Law.Contest.{Contest, History, IsContest};
ghost use Rattle.count.specs.Law.Elected.{elected_after};
ghost use Rattle.count.specs.Inside.Reading.{is_elected_mark as is_elected_mark_of, elected_shown, votes_shown, action_by as action_by_mark, action_shown};
ghost use Rattle.count.specs.Law.Right.{IsRightForSome};
ghost use Rattle.count.specs.Marks.{is_named as is_named_of, standing_mark as standing_mark_of, mark_by as mark_by_of, figure_of as figure_of_stage, figures_at, all_figures};

use crate::elected::{is_excluded, votes_after, without};
use crate::stages::{Action, Stage};
use paper::{Columns, MAX_CANDIDATES};
use std::alloc::{AllocError, Global};
use votes::Votes;

/// The number for the non-transferable votes among a stage's figures.
pub const NO_CANDIDATE: u32 = 0;

/// The number for the loss by fractions among a stage's figures.
pub const FRACTIONS: u32 = 99;

/// The mark of a continuing candidate, and of figures that don't belong to a candidate.
const CONTINUING: u32 = 0;

/// The mark of an elected candidate.
const ELECTED: u32 = 1;

/// The mark of a candidate excluded at an earlier stage.
const EXCLUDED: u32 = 2;

/// The mark of an elected candidate whose surplus is transferred at this stage.
const SURPLUS_NOW: u32 = 3;

/// The mark of a candidate excluded at this stage, whose papers are transferred.
const EXCLUDED_NOW: u32 = 4;

/// The mark of a candidate excluded at this stage to fill the last vacancies.
const EXCLUDED_LAST: u32 = 5;

/// A figure of a stage: a candidate's votes, in units, and mark. Marks are 0 continuing, 1 elected, 2 excluded earlier, 3 elected
/// with the surplus transferred at this stage, 4 excluded at this stage with transfer, 5 excluded at this stage without. The
/// figures of the non-transferable votes, `NO_CANDIDATE`, and of the loss by fractions, `FRACTIONS`, have mark 0.
#[derive(Clone, Copy, PartialEq, Eq)]
pub struct Figure {
    pub candidate: u32,
    pub units: u64,
    pub mark: u32,
}

/// Returns whether the given candidate was named as elected at some stage.
fn is_named(stages: &[Stage], c: u8) -> bool
    ensures { result ≡ is_named_of (reverse stages.now) c }
{
    stages.iter().any(|stage| stage.elected.has(c))
}

/// Returns the mark of the given candidate at a stage that doesn't act on the candidate.
fn standing_mark(stages: &[Stage], c: u8) -> u32
    ensures { result ≡ standing_mark_of (reverse stages.now) c }
{
    if is_named(stages, c) {
        return ELECTED;
    }
    if is_excluded(stages, c) {
        return EXCLUDED;
    }
    CONTINUING
}

/// Returns the mark of the given candidate at the stage of the action: that of the action if it acts on the candidate, otherwise the
/// other mark.
fn mark_by(action: &Action, c: u8, other: u32) -> u32
    ensures { result ≡ mark_by_of action.now c other }
{
    match action {
        Action::Surplus(d) if *d == c => SURPLUS_NOW,
        Action::Exclude(d) if *d == c => EXCLUDED_NOW,
        Action::ExcludeLast(d) if *d == c => EXCLUDED_LAST,
        _ => other,
    }
}

/// Returns the figure of the given candidate at the newest stage.
fn figure_of(newest: &Stage, stages: &[Stage], c: u8) -> Figure
    requires some { 1 ≤ c }
    requires few { c ≤ max_candidates }
    ensures { result ≡ figure_of_stage newest.now (reverse stages.now) c }
{
    Figure {
        candidate: u32::from(c),
        units: votes_after(newest, c).units(),
        mark: mark_by(&newest.action, c, standing_mark(stages, c)),
    }
}

/// Returns the figures of the last stage: the non-transferable votes, each candidate in ascending order, and the loss by fractions.
/// Empty if there is no stage. `AllocError` if an allocation fails.
pub fn figures_of(
    alloc: Global,
    candidates: &Columns,
    stages: &[Stage],
) -> Result<Vec<Figure>, AllocError>
    ensures { IfOk result (λ figures. figures.items ≡ figures_at candidates.now (reverse stages.now)) }
{
    let mut figures = Vec::new(alloc);
    let Some((newest, _)) = stages.split_last() else {
        return Ok(figures);
    };
    figures.push(Figure {
        candidate: NO_CANDIDATE,
        units: newest.non_transferable.units(),
        mark: CONTINUING,
    })?;
    for c in candidates.as_slice() {
        figures.push(figure_of(newest, stages, *c))?;
    }
    figures.push(Figure {
        candidate: FRACTIONS,
        units: newest.lost.units(),
        mark: CONTINUING,
    })?;
    Ok(figures)
}

/// Returns whether the mark is that of an elected candidate.
fn is_elected_mark(mark: u32) -> bool
    ensures { result ≡ is_elected_mark_of mark }
{
    mark == ELECTED || mark == SURPLUS_NOW
}

/// Returns the candidates who are marked as elected.
fn elected_in(candidates: &Columns, figures: &[Figure]) -> Columns
    requires { length figures.now ≡ length candidates.now }
    ensures { (f : ℕ → Figure) → figures.now ≡ map f candidates.now → result ≡ elected_shown f candidates.now }
{
    let mut chosen = Columns::empty();
    for (i, c) in candidates.as_slice().iter().enumerate() {
        if is_elected_mark(figures[i].mark) {
            chosen = chosen.with(*c);
        }
    }
    chosen
}

/// Returns the votes for all candidate numbers; 0 for those that no candidate has.
fn votes_in(candidates: &Columns, figures: &[Figure]) -> [Votes; MAX_CANDIDATES]
    requires { length figures.now ≡ length candidates.now }
    ensures { (f : ℕ → Figure) → figures.now ≡ map f candidates.now → result ≡ votes_shown f candidates.now }
{
    let mut votes = [Votes::from_units(0); MAX_CANDIDATES];
    for (i, c) in candidates.as_slice().iter().enumerate() {
        votes[usize::from(*c - 1)] = Votes::from_units(figures[i].units);
    }
    votes
}

/// Returns the action that the candidate's mark shows, if any.
fn action_by(mark: u32, c: u8) -> Option<Action>
    ensures { result ≡ action_by_mark mark c }
{
    match mark {
        SURPLUS_NOW => Some(Action::Surplus(c)),
        EXCLUDED_NOW => Some(Action::Exclude(c)),
        EXCLUDED_LAST => Some(Action::ExcludeLast(c)),
        _ => None,
    }
}

/// Returns the action that the candidates' marks show, or the action of the first stage if none shows one.
fn action_in(candidates: &Columns, figures: &[Figure]) -> Action
    requires { length figures.now ≡ length candidates.now }
    ensures { (f : ℕ → Figure) → figures.now ≡ map f candidates.now → result ≡ action_shown f candidates.now }
{
    for (i, c) in candidates.as_slice().iter().enumerate() {
        match action_by(figures[i].mark, *c) {
            Some(action) => return action,
            None => {}
        }
    }
    Action::First
}

/// Appends the stage that the figures show. Updates the elected candidates from those after the earlier stages to those after this one.
fn push_stage(
    candidates: &Columns,
    figures: &[Figure],
    elected: &mut Columns,
    stages: &mut Vec<Stage>,
) -> Result<(), AllocError>
    requires { length figures.now ≡ length candidates.now + 2 }
    ensures stage { OnOk result ((contest : Contest) (s : Stage) (before : History) → IsContest contest → IsRightForSome contest (s ∷ before) → contest.candidates ≡ candidates.now
        → figures.now ≡ figures_at candidates.now (s ∷ before) → elected.old ≡ elected_after contest before → stages.new.items ≡ stages.old.items ++ s ∷ []) }
    ensures elected { OnOk result ((contest : Contest) (s : Stage) (before : History) → IsContest contest → IsRightForSome contest (s ∷ before) → contest.candidates ≡ candidates.now
        → figures.now ≡ figures_at candidates.now (s ∷ before) → elected.new ≡ elected_after contest (s ∷ before)) }
{
    let last = candidates.len() + 1;
    let shown = &figures[1..last];
    let now = elected_in(candidates, shown);
    stages.push(Stage {
        action: action_in(candidates, shown),
        votes: votes_in(candidates, shown),
        // elected candidates stay elected, so those who weren't elected before are newly elected
        elected: without(&now, elected),
        non_transferable: Votes::from_units(figures[0].units),
        lost: Votes::from_units(figures[last].units),
    })?;
    *elected = now;
    Ok(())
}

/// Returns the stages with the given figures, in order. Each stage has one figure per candidate, plus two; `None` if the number of
/// figures doesn't match this. The figures of a count with these candidates yield all its stages; other figures yield whatever
/// their marks and units mean. `AllocError` if an allocation fails.
pub fn stages_of_figures(
    alloc: Global,
    candidates: &Columns,
    figures: &[Figure],
) -> Result<Option<Vec<Stage>>, AllocError>
    ensures is { IfOk result (λ found. IfSome found (λ stages. (contest : Contest) (history : History) → IsContest contest → IsRightForSome contest history
        → contest.candidates ≡ candidates.now → figures.now ≡ all_figures candidates.now history → stages.items ≡ reverse history)) }
    ensures some { IfOk result (λ found. (contest : Contest) (history : History) → IsContest contest → IsRightForSome contest history
        → contest.candidates ≡ candidates.now → figures.now ≡ all_figures candidates.now history → IsSome found) }
{
    let size = candidates.len() + 2;
    let mut stages = Vec::new(alloc);
    let mut elected = Columns::empty();
    let mut rest = figures;
    while rest.len() >= size {
        let (shown, others) = rest.split_at(size);
        push_stage(candidates, shown, &mut elected, &mut stages)?;
        rest = others;
    }
    if rest.is_empty() {
        Ok(Some(stages))
    } else {
        Ok(None)
    }
}
