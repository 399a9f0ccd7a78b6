//! A batch in a journal: its keyings, and the verdicts on its papers.

ghost use Rattle.register.specs.Offices.{MapsAreSorted};
ghost use Rattle.rowcheck.specs.States.{state_of};

use crate::journal::receipts::KeptReceipts;
use crate::journal::words::{put_heading, put_id, put_order};
use register::{Batch, JudgedPaper, KeyedPaper, ThirdClerk};
use rowcheck::finding::{keying_of, third_at, verdicts_of, ward_at};
use std::alloc::{AllocError, Global};

/// The round in which a journal adds a third clerk, regardless of when the clerk was actually added, since no table records that
/// round. The order is always accepted in this round: in any batch with a third clerk, the keyings of the first two clerks already
/// differ in it.
const FIRST_ROUND: u32 = 1;

/// Appends the order that gave out a batch.
fn put_given_out(
    alloc: Global,
    text: &mut String,
    kept: &KeptReceipts<'_>,
    batch: &Batch,
) -> Result<(), AllocError>
    requires { MapsAreSorted (state_of kept.now.rows.now) }
{
    let (number, ward, size) = (batch.number, batch.ward, batch.size);
    let (first, second) = (batch.first_clerk, batch.second_clerk);
    let name = match ward_at(kept.rows, ward) {
        Some(ward) => ward.name.as_str(),
        None => "",
    };
    let heading = format!(in alloc; "batch {number} of ward {ward}, {name}")?;
    put_heading(text, heading.as_str())?;
    let subject = format!(in alloc; "batch {number}")?;
    let words = format!(in alloc; "batch {number} {ward} {size} {first} {second}")?;
    put_order(text, words.as_str(), kept.only(subject.as_str()))
}

/// Appends the marks of a keying, one word per paper.
fn put_marks(text: &mut String, keying: &[KeyedPaper]) -> Result<(), AllocError> {
    for keyed in keying {
        text.push_str(" ")?;
        text.push_str(keyed.marks.as_str())?;
    }
    Ok(())
}

/// Appends a clerk's keying of a batch in a round, if there is one.
fn put_keying(
    alloc: Global,
    text: &mut String,
    kept: &KeptReceipts<'_>,
    batch: u32,
    round: u32,
    clerk: u32,
) -> Result<(), AllocError>
    requires { MapsAreSorted (state_of kept.now.rows.now) }
{
    let subject = format!(in alloc; "key {batch} {round}")?;
    let Some(receipt) = kept.of_actor(subject.as_str(), clerk) else {
        return Ok(());
    };
    let words = format!(in alloc; "key {clerk} {batch} {round}")?;
    text.push_str(words.as_str())?;
    put_id(text, receipt.id.as_str())?;
    put_marks(text, keying_of(kept.rows, batch, round, clerk))?;
    text.push_str("\n")
}

/// Appends the order that opened a round, if there is one.
fn put_opening(
    alloc: Global,
    text: &mut String,
    kept: &KeptReceipts<'_>,
    batch: u32,
    round: u32,
) -> Result<(), AllocError> {
    let words = format!(in alloc; "again {batch}")?;
    let reply = format!(in alloc; "batch {batch} round {round} open")?;
    put_order(
        text,
        words.as_str(),
        kept.replied(words.as_str(), reply.as_str()),
    )
}

/// Appends the third clerk of a batch.
fn put_third(
    alloc: Global,
    text: &mut String,
    kept: &KeptReceipts<'_>,
    third: &ThirdClerk,
) -> Result<(), AllocError> {
    let (batch, clerk) = (third.batch, third.clerk);
    let subject = format!(in alloc; "third {batch}")?;
    let words = format!(in alloc; "third {batch} {clerk}")?;
    put_order(text, words.as_str(), kept.only(subject.as_str()))
}

/// Appends a round of a batch: the order that opened it, and its keyings. In the first round it also appends the third clerk,
/// before that clerk's keying.
fn put_round(
    alloc: Global,
    text: &mut String,
    kept: &KeptReceipts<'_>,
    batch: &Batch,
    round: u32,
) -> Result<(), AllocError>
    requires { MapsAreSorted (state_of kept.now.rows.now) }
{
    let number = batch.number;
    put_opening(alloc, text, kept, number, round)?;
    put_keying(alloc, text, kept, number, round, batch.first_clerk)?;
    put_keying(alloc, text, kept, number, round, batch.second_clerk)?;
    let Some(third) = third_at(kept.rows, number) else {
        return Ok(());
    };
    if round == FIRST_ROUND {
        put_third(alloc, text, kept, &third)?;
    }
    put_keying(alloc, text, kept, number, round, third.clerk)
}

/// Appends all rounds of a batch.
fn put_rounds(
    alloc: Global,
    text: &mut String,
    kept: &KeptReceipts<'_>,
    batch: &Batch,
) -> Result<(), AllocError>
    requires { MapsAreSorted (state_of kept.now.rows.now) }
{
    for round in FIRST_ROUND..=batch.round {
        put_round(alloc, text, kept, batch, round)?;
    }
    Ok(())
}

/// Appends the verdict on a paper.
fn put_verdict(
    alloc: Global,
    text: &mut String,
    kept: &KeptReceipts<'_>,
    judged: &JudgedPaper,
) -> Result<(), AllocError> {
    let (batch, paper, code) = (judged.batch, judged.paper, judged.code);
    let marks = judged.marks.as_str();
    let subject = format!(in alloc; "judge {batch} {paper}")?;
    let words = if code == 0 {
        format!(in alloc; "judge {batch} {paper} accept:{marks}")?
    } else {
        format!(in alloc; "judge {batch} {paper} reject:{code}")?
    };
    put_order(text, words.as_str(), kept.only(subject.as_str()))
}

/// Appends a batch, its rounds, and the verdicts on its papers.
pub(crate) fn put_batch(
    alloc: Global,
    text: &mut String,
    kept: &KeptReceipts<'_>,
    batch: &Batch,
) -> Result<(), AllocError>
    requires { MapsAreSorted (state_of kept.now.rows.now) }
{
    put_given_out(alloc, text, kept, batch)?;
    put_rounds(alloc, text, kept, batch)?;
    for judged in verdicts_of(kept.rows, batch.number) {
        put_verdict(alloc, text, kept, judged)?;
    }
    Ok(())
}
