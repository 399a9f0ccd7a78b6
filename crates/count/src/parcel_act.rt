//! Adding the stage of the action that is due.

ghost use Rattle.std.specs.Prelude.{◌≡◌, ℕ, reverse, OnOk, OnErr};
ghost use Rattle.count.specs.Advance.{Adds, IsDue};
ghost use Rattle.count.specs.Books.{contest_of};
ghost use Rattle.count.specs.Inside.BookInvariants.{AreHeld, IsBook};

use crate::moving::{moved_by, replace};
use crate::parcel::Holding;
use crate::parcel_figures::add_parcel_stage;
use crate::stages::{Action, Stage};
use crate::terms::Terms;
use paper::Prefs;
use std::alloc::{AllocError, Global};

/// Moves the papers as the due action requires, and adds its stage. `AllocError` if an allocation fails: since all allocations
/// precede the first move, holdings and stages are then unchanged.
pub fn act<'a>(
    alloc: Global,
    terms: &Terms,
    papers: &'a [Prefs],
    holdings: &mut Vec<Holding<'a>>,
    stages: &mut Vec<Stage>,
    action: &Action,
) -> Result<(), AllocError>
    requires book { IsBook (contest_of terms.now papers.now) (reverse stages.old.items) holdings.old.items }
    requires due { IsDue (contest_of terms.now papers.now) (reverse stages.old.items) action.now }
    ensures held { OnOk result (AreHeld (contest_of terms.now papers.now) (reverse stages.new.items) holdings.new.items) }
    ensures stage { OnOk result (Adds (contest_of terms.now papers.now) (reverse stages.old.items) action.now (reverse stages.new.items)) }
    ensures err { OnErr result (holdings.new.items ≡ holdings.old.items) }
    ensures err_stages { OnErr result (stages.new.items ≡ stages.old.items) }
{
    let moved = moved_by(alloc, terms, papers, holdings, stages, action)?;
    holdings.try_reserve(moved.len())?;
    stages.try_reserve(1)?;
    add_parcel_stage(terms, stages, action, &moved);
    replace(holdings, action, moved);
    Ok(())
}
