//! The count of a ward in a journal.

ghost use Rattle.register.specs.Offices.{MapsAreSorted};
ghost use Rattle.rowcheck.specs.States.{state_of};

use crate::candidate_names::name_of;
use crate::journal::receipts::KeptReceipts;
use crate::journal::words::{put_comment, put_heading, put_order};
use register::ranges::LAST_LOT_STAGE;
use register::{DrawnLot, Receipt, Ward};
use rowcheck::finding::{candidates_of, lots_of};
use std::alloc::{AllocError, Global};

/// Appends an order, preceded by its reply as a comment, since the words of the order don't show it. Appends nothing if there is no
/// receipt.
fn put_told(text: &mut String, words: &str, receipt: Option<&Receipt>) -> Result<(), AllocError> {
    let Some(receipt) = receipt else {
        return Ok(());
    };
    put_comment(text, receipt.reply.as_str())?;
    put_order(text, words, Some(receipt))
}

/// Appends a lot of a ward, preceded by the name of the candidate that it chose.
fn put_lot(
    alloc: Global,
    text: &mut String,
    kept: &KeptReceipts<'_>,
    lot: &DrawnLot,
) -> Result<(), AllocError>
    requires { MapsAreSorted (state_of kept.now.rows.now) }
{
    let (ward, stage, candidate) = (lot.ward, lot.stage, lot.candidate);
    let name = name_of(candidates_of(kept.rows, ward), candidate);
    let says = format!(in alloc; "the lot names candidate {candidate}, {name}")?;
    put_comment(text, says.as_str())?;
    let subject = format!(in alloc; "lot {ward} {stage}")?;
    let words = format!(in alloc; "lot {ward} {stage} {candidate}")?;
    put_order(text, words.as_str(), kept.only(subject.as_str()))
}

/// Returns the lot for a stage from a ward's lots.
fn lot_at(lots: &[DrawnLot], stage: u32) -> Option<&DrawnLot> {
    lots.iter().find(|lot| lot.stage == stage)
}

/// Appends a stage of a ward's count: its lot and the order that counted it, if they exist.
fn put_stage(
    alloc: Global,
    text: &mut String,
    kept: &KeptReceipts<'_>,
    ward: u32,
    stage: u32,
) -> Result<(), AllocError>
    requires { MapsAreSorted (state_of kept.now.rows.now) }
{
    if let Some(lot) = lot_at(lots_of(kept.rows, ward), stage) {
        put_lot(alloc, text, kept, lot)?;
    }
    let words = format!(in alloc; "advance {ward}")?;
    let reply = format!(in alloc; "ward {ward} stage {stage} ")?;
    put_told(
        text,
        words.as_str(),
        kept.replied(words.as_str(), reply.as_str()),
    )
}

/// Appends all stages of a ward's count.
fn put_stages(
    alloc: Global,
    text: &mut String,
    kept: &KeptReceipts<'_>,
    ward: u32,
) -> Result<(), AllocError>
    requires { MapsAreSorted (state_of kept.now.rows.now) }
{
    for stage in 1..=LAST_LOT_STAGE {
        put_stage(alloc, text, kept, ward, stage)?;
    }
    Ok(())
}

/// Appends the seal, the count and the declaration of a ward, if they exist.
pub(crate) fn put_count(
    alloc: Global,
    text: &mut String,
    kept: &KeptReceipts<'_>,
    ward: &Ward,
) -> Result<(), AllocError>
    requires { MapsAreSorted (state_of kept.now.rows.now) }
{
    let (number, name) = (ward.number, ward.name.as_str());
    let sealing = format!(in alloc; "seal {number}")?;
    let declaring = format!(in alloc; "declare {number}")?;
    let (sealed, declared) = (kept.only(sealing.as_str()), kept.only(declaring.as_str()));
    if sealed.is_none() && declared.is_none() {
        return Ok(());
    }
    let heading = format!(in alloc; "ward {number}, {name}: count")?;
    put_heading(text, heading.as_str())?;
    put_told(text, sealing.as_str(), sealed)?;
    put_stages(alloc, text, kept, number)?;
    put_told(text, declaring.as_str(), declared)
}
