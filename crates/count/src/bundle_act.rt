//! Adding the stage of an action, on bundles.

ghost use Rattle.std.specs.Prelude.{◌≡◌, ◌≤◌, reverse, IfOk};
ghost use Rattle.std.specs.List.{AllByRecursion};
ghost use Rattle.votes.specs.Units.{max_units};
ghost use Rattle.count.specs.Advance.{Adds};
ghost use Rattle.count.specs.Inside.Holdings.{newest_lost};
ghost use Rattle.count.specs.StoredCounts.{places_after};
ghost use Rattle.count.specs.Inside.Placing.{contest_on, IsDueInBook, IsSound};

use crate::bundle_figures::figured;
use crate::bundles::Bundles;
use crate::placed::Placed;
use crate::places::moved_places;
use crate::stage_adding::add_stage;
use crate::stages::{Action, Stage};
use crate::terms::Terms;
use std::alloc::{AllocError, Global};

/// Returns the places of the bundles and the stages after the given action; the old ones are unchanged. If the action isn't
/// due, the result is not part of any count. `AllocError` if an allocation fails.
pub fn acted_on_bundles(
    alloc: Global,
    terms: &Terms,
    bundles: &Bundles,
    places: &[Placed],
    stages: &[Stage],
    action: &Action,
) -> Result<(Vec<Placed>, Vec<Stage>), AllocError>
    requires sound { AllByRecursion IsSound places.now }
    requires lost { newest_lost (reverse stages.now) ≤ max_units }
    ensures places { IfOk result (λ next. IsDueInBook (contest_on terms.now bundles.now) (reverse stages.now) bundles.now places.now action.now
        → next.0.items ≡ places_after (contest_on terms.now bundles.now) (reverse next.1.items) bundles.now) }
    ensures stage { IfOk result (λ next. IsDueInBook (contest_on terms.now bundles.now) (reverse stages.now) bundles.now places.now action.now
        → Adds (contest_on terms.now bundles.now) (reverse stages.now) action.now (reverse next.1.items)) }
{
    let moved = moved_places(alloc, terms, bundles, places, stages, action)?;
    let stage = figured(terms, bundles, stages, action, places, &moved);
    let mut longer = Vec::from_slice(alloc, stages)?;
    longer.try_reserve(1)?;
    add_stage(terms, &mut longer, stage);
    Ok((moved, longer))
}
