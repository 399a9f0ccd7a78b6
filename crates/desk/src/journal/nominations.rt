//! A ward's nominations in a journal.

ghost use Rattle.register.specs.Offices.{MapsAreSorted};
ghost use Rattle.rowcheck.specs.States.{state_of};

use crate::candidate_names::name_of;
use crate::journal::receipts::KeptReceipts;
use crate::journal::words::{put_heading, put_named, put_order};
use register::Ward;
use register::ranges::LAST_CANDIDATE;
use rowcheck::finding::candidates_of;
use std::alloc::{AllocError, Global};

/// Appends each addition of a candidate with the given number, and the withdrawal that followed it, if any. No table contains the
/// name of a withdrawn candidate, so a substitute is written.
fn put_candidate(
    alloc: Global,
    text: &mut String,
    kept: &KeptReceipts<'_>,
    ward: u32,
    number: u32,
) -> Result<(), AllocError>
    requires { MapsAreSorted (state_of kept.now.rows.now) }
{
    let adding = format!(in alloc; "candidate {ward} {number}")?;
    let withdrawal = format!(in alloc; "withdraw {ward} {number}")?;
    let withdrawn = format!(in alloc; "withdrawn candidate {number}")?;
    for time in 0..kept.count(adding.as_str()) {
        let gone = kept.numbered(withdrawal.as_str(), time);
        let name = match gone {
            Some(_) => withdrawn.as_str(),
            None => name_of(candidates_of(kept.rows, ward), number),
        };
        let added = kept.numbered(adding.as_str(), time);
        put_named(text, adding.as_str(), name, added)?;
        put_order(text, withdrawal.as_str(), gone)?;
    }
    Ok(())
}

/// Appends all of a ward's candidates, in numerical order.
fn put_candidates(
    alloc: Global,
    text: &mut String,
    kept: &KeptReceipts<'_>,
    ward: u32,
) -> Result<(), AllocError>
    requires { MapsAreSorted (state_of kept.now.rows.now) }
{
    for number in 1..=LAST_CANDIDATE {
        put_candidate(alloc, text, kept, ward, number)?;
    }
    Ok(())
}

/// Appends a ward, its candidates, and the close of its nominations.
pub(crate) fn put_nominations(
    alloc: Global,
    text: &mut String,
    kept: &KeptReceipts<'_>,
    ward: &Ward,
) -> Result<(), AllocError>
    requires { MapsAreSorted (state_of kept.now.rows.now) }
{
    let (number, seats) = (ward.number, ward.seats);
    let name = ward.name.as_str();
    let heading = format!(in alloc; "ward {number}, {name}: nominations")?;
    put_heading(text, heading.as_str())?;
    let subject = format!(in alloc; "ward {number}")?;
    let words = format!(in alloc; "ward {number} {seats}")?;
    put_named(text, words.as_str(), name, kept.only(subject.as_str()))?;
    put_candidates(alloc, text, kept, number)?;
    let closing = format!(in alloc; "close {number}")?;
    put_order(text, closing.as_str(), kept.only(closing.as_str()))
}
