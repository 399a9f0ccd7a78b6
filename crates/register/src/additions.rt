//! What the next stage adds to the tabulation of the counts.

ghost use Rattle.std.specs.Prelude.{◌≡◌, ℕ, List, map, IfOk};
ghost use Rattle.count.specs.Books.{placed};
ghost use Rattle.count.specs.Bundles.{Bundle};
ghost use Rattle.count.specs.Law.Places.{Place};
ghost use Rattle.register.specs.Tabulated.{placed_entry, figure_entry, addition_entries};
ghost use Rattle.register.specs.Additions.{IsAddedTo};
ghost use Rattle.register.specs.Walks.{moved_bundles, last_figures, all_added, moves_added};

use crate::elections::Count;
use crate::tabulations::{
    Addition, PlacedBundle, StageFigure, Tabulation, add_stage_figures, placed_bundle,
};
use count::{Bundles, NextStage, Placed, Stage, StoredCount, figures_of};
use paper::Columns;
use std::alloc::{AllocError, Global};

/// Returns a ward's bundles whose places have changed, with their new places. Returns `AllocError` if an allocation
/// fails.
fn moved_bundles(
    alloc: Global,
    ward: u32,
    bundles: &Bundles,
    before: &[Placed],
    now: &[Placed],
) -> Result<Vec<PlacedBundle>, AllocError>
    ensures { IfOk result (λ moved. map placed_entry moved.items ≡ moved_bundles ward bundles.now before.now now.now) }
{
    let mut moved = Vec::new(alloc);
    let (mut old_places, mut new_places) = (before, now);
    for (list, papers) in bundles.iter() {
        let (Some((old, other_old)), Some((new, other_new))) = (
            old_places.split_first(),
            new_places.split_first(),
        ) else {
            break;
        };
        if old != new {
            moved.push(placed_bundle(alloc, ward, list, *papers, new)?)?;
        }
        old_places = other_old;
        new_places = other_new;
    }
    Ok(moved)
}

/// Returns the figures of a ward's latest stage. Returns `AllocError` if an allocation fails.
fn last_figures(
    alloc: Global,
    ward: u32,
    candidates: &Columns,
    stages: &[Stage],
) -> Result<Vec<StageFigure>, AllocError>
    ensures { IfOk result (λ figures. map figure_entry figures.items ≡ last_figures ward candidates.now stages.now) }
{
    // memory can't hold more stages than a `u32` can count
    let Ok(stage) = u32::try_from(stages.len()) else {
        return Err(AllocError);
    };
    let shown = figures_of(alloc, candidates, stages)?;
    let mut figures = Vec::new(alloc);
    add_stage_figures(&mut figures, ward, stage, &shown)?;
    Ok(figures)
}

/// Returns what the first stage of a ward's count adds: the ward's entire tabulation. Returns `AllocError` if an
/// allocation fails.
fn first_addition(
    alloc: Global,
    ward: u32,
    kept: &StoredCount,
    next: &NextStage,
) -> Result<Addition, AllocError>
    ensures { IfOk result (λ addition. (now : List ℕ → Place) → next.now.places.items ≡ map (λ (b : Bundle). placed (now b.0)) kept.now.bundles
        → addition_entries addition ≡ all_added ward kept.now.candidates kept.now.bundles now next.now.stages.items) }
{
    let mut tabulation = Tabulation::empty(alloc);
    tabulation.add(
        alloc,
        ward,
        &kept.candidates(),
        kept.bundles(),
        &next.places,
        &next.stages,
    )?;
    Ok(Addition {
        placed: tabulation.bundles,
        moved: Vec::new(alloc),
        figures: tabulation.figures,
    })
}

/// Returns what a later stage of a ward's count adds: the bundles whose places have changed, and the stage's figures.
/// Returns `AllocError` if an allocation fails.
fn later_addition(
    alloc: Global,
    ward: u32,
    kept: &StoredCount,
    next: &NextStage,
) -> Result<Addition, AllocError>
    ensures { IfOk result (λ addition. addition_entries addition ≡ moves_added ward kept.now.candidates kept.now.bundles kept.now.places next.now.places.items next.now.stages.items) }
{
    Ok(Addition {
        placed: Vec::new(alloc),
        moved: moved_bundles(alloc, ward, kept.bundles(), kept.places(), &next.places)?,
        figures: last_figures(alloc, ward, &kept.candidates(), &next.stages)?,
    })
}

/// Returns what the next stage of a ward's count adds: the stage's figures and, at the first stage, all bundles, or at a
/// later stage, the bundles whose places have changed. Empty if no action is due. Returns `AllocError` if an allocation
/// fails.
pub(crate) fn addition_of(alloc: Global, ward: u32, count: &Count) -> Result<Addition, AllocError>
    ensures { IfOk result (λ addition. IsAddedTo ward count.now addition) }
{
    let kept = &count.kept;
    let Some(next) = kept.next_stage(alloc, &count.lots)? else {
        return Ok(Addition::none(alloc));
    };
    if kept.stages().is_empty() {
        return first_addition(alloc, ward, kept, &next);
    }
    later_addition(alloc, ward, kept, &next)
}
