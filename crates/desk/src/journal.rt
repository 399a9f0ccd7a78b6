//! The text of a journal: the orders that an office accepted, in a sequence in which all of them are accepted again.
//!
//! There is one line per receipt. Whatever the receipt doesn't contain is taken from the other tables. First come the nominations,
//! ward by ward; then the papers, batch by batch, each batch with the verdicts on its papers; then the counts, ward by ward. This
//! way each order follows those that it depends on, and the rows of papers are in key order. The last line says how many orders
//! there are.
//!
//! No contract describes the text. Before printing it, the caller parses it and checks the office that results from replaying it
//! in an empty one.

ghost use Rattle.register.specs.Offices.{MapsAreSorted};
ghost use Rattle.rowcheck.specs.States.{state_of};

mod counts;
mod nominations;
mod papers;
mod receipts;
pub(crate) mod words;

use crate::journal::counts::put_count;
use crate::journal::nominations::put_nominations;
use crate::journal::papers::put_batch;
use crate::journal::receipts::{KeptReceipts, places_of};
use crate::journal::words::put_heading;
use rowcheck::Rows;
use std::alloc::{AllocError, Global};

/// The first lines of a journal.
const FRONT: &str =
    "# The orders that an office accepted, in a sequence in which each is accepted again.\n# 'replay' sends them to an empty office, and makes the same one.\n";

/// Appends the nominations of all wards.
fn put_all_nominations(
    alloc: Global,
    text: &mut String,
    kept: &KeptReceipts<'_>,
) -> Result<(), AllocError>
    requires { MapsAreSorted (state_of kept.now.rows.now) }
{
    for ward in &kept.rows.wards {
        put_nominations(alloc, text, kept, ward)?;
    }
    Ok(())
}

/// Appends all batches.
fn put_all_batches(
    alloc: Global,
    text: &mut String,
    kept: &KeptReceipts<'_>,
) -> Result<(), AllocError>
    requires { MapsAreSorted (state_of kept.now.rows.now) }
{
    for batch in &kept.rows.batches {
        put_batch(alloc, text, kept, batch)?;
    }
    Ok(())
}

/// Appends the counts of all wards.
fn put_all_counts(
    alloc: Global,
    text: &mut String,
    kept: &KeptReceipts<'_>,
) -> Result<(), AllocError>
    requires { MapsAreSorted (state_of kept.now.rows.now) }
{
    for ward in &kept.rows.wards {
        put_count(alloc, text, kept, ward)?;
    }
    Ok(())
}

/// Appends the last line, which says how many orders precede it, one per receipt. A text without this line has been truncated.
fn put_end(alloc: Global, text: &mut String, orders: usize) -> Result<(), AllocError> {
    let says = format!(in alloc; "end: {orders} orders")?;
    put_heading(text, says.as_str())
}

/// Returns the text of the journal for an office with the given rows.
pub(crate) fn journal_text(alloc: Global, rows: &Rows) -> Result<String, AllocError>
    requires { MapsAreSorted (state_of rows.now) }
{
    let places = places_of(alloc, &rows.receipts)?;
    let kept = KeptReceipts {
        rows,
        places: &places,
    };
    let mut text = String::from_str(alloc, FRONT)?;
    put_all_nominations(alloc, &mut text, &kept)?;
    put_all_batches(alloc, &mut text, &kept)?;
    put_all_counts(alloc, &mut text, &kept)?;
    put_end(alloc, &mut text, rows.receipts.len())?;
    Ok(text)
}
