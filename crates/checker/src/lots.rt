//! Lots in the order of their stages, and recorded lots for stages at which no lot is drawn.

ghost use Rattle.std.specs.Prelude.{◌≡◌, ◌≤◌, length, IfOk, IfErr, OnOk};
ghost use Rattle.checker.specs.Checks.{is_drawn_by, is_lot, undrawn_by};
ghost use Rattle.checker.specs.Counts.{IsLotProblem, lots_of, place_in, with_lot, with_lots};

use crate::ballot_counts::CountProblem;
use crate::comments::is_drawn;
use crate::problem::Problem;
use count::Due;
use std::alloc::{AllocError, Global};

/// Returns whether a lot must be drawn.
fn is_lot(due: &Due) -> bool
    ensures { result ≡ is_lot due.now }
{
    match due {
        Due::Act(_) | Due::Finished => false,
        Due::Lot { .. } => true,
    }
}

/// Returns whether a lot is drawn for the given stage, given what is due before the first stages.
fn is_drawn_by(dues: &[Due], stage: u8) -> bool
    ensures { result ≡ is_drawn_by dues.now stage }
{
    match dues.get(usize::from(stage).saturating_sub(1)) {
        Some(due) => is_lot(due),
        None => false,
    }
}

/// Returns the stage of the first of the given lots that isn't drawn.
pub(crate) fn undrawn_by(dues: &[Due], lots: &[(u8, u8)]) -> Option<u8>
    ensures { result ≡ undrawn_by dues.now lots.now }
{
    for lot in lots {
        if !is_drawn_by(dues, lot.0) {
            return Some(lot.0);
        }
    }
    None
}

/// Returns the position for the given stage's lot in a list of lots ordered by stage.
fn place_in(stage: u8, lots: &[(u8, u8)]) -> usize
    ensures is { result ≡ place_in stage lots.now }
    ensures few { result ≤ length lots.now }
{
    for i in 0..lots.len() {
        if stage < lots[i].0 {
            return i;
        }
    }
    lots.len()
}

/// Inserts a lot, keeping the order of the stages.
fn add_lot(lots: &mut Vec<(u8, u8)>, lot: (u8, u8)) -> Result<(), AllocError>
    ensures { OnOk result (lots.new.items ≡ with_lot lots.old.items lot) }
{
    let place = place_in(lot.0, lots);
    lots.insert(place, lot)?;
    Ok(())
}

/// Returns the lots with further ones added, in the order of their stages; no two may be for the same stage.
fn with_lots(mut lots: Vec<(u8, u8)>, more: &[(u8, u8)]) -> Result<Vec<(u8, u8)>, CountProblem>
    ensures ok { IfOk result (λ all. with_lots lots.items more.now ≡ Ok all.items) }
    ensures err { IfErr result (λ problem. IsLotProblem (with_lots lots.items more.now) problem) }
{
    for lot in more {
        if is_drawn(lot.0, &lots) {
            return Err(CountProblem::LotTwice { stage: lot.0 });
        }
        if add_lot(&mut lots, *lot).is_err() {
            return Err(CountProblem::Ballots(Problem::Memory));
        }
    }
    Ok(lots)
}

/// Returns the recorded lots with further ones added, in the order of their stages; no two may be for the same stage.
pub(crate) fn lots_of(
    alloc: Global,
    recorded: &[(u8, u8)],
    added: &[(u8, u8)],
) -> Result<Vec<(u8, u8)>, CountProblem>
    ensures ok { IfOk result (λ lots. lots_of recorded.now added.now ≡ Ok lots.items) }
    ensures err { IfErr result (λ problem. IsLotProblem (lots_of recorded.now added.now) problem) }
{
    let lots = with_lots(Vec::new(alloc), recorded)?;
    with_lots(lots, added)
}
