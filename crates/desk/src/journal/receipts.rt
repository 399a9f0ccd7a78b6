//! The receipts of an office, indexed by subject.

use register::Receipt;
use rowcheck::Rows;
use std::alloc::{AllocError, Global};
use std::collections::HashMap;

/// The input of a journal: the rows of an office, and the positions of its receipts by subject.
#[derive(Clone, Copy)]
pub(crate) struct KeptReceipts<'a> {
    pub(crate) rows: &'a Rows,
    pub(crate) places: &'a HashMap<String, Vec<usize>>,
}

/// Returns the positions of receipts in their list, grouped by subject, in list order.
pub(crate) fn places_of(
    alloc: Global,
    receipts: &[Receipt],
) -> Result<HashMap<String, Vec<usize>>, AllocError> {
    let mut places = HashMap::new(alloc);
    for (place, receipt) in receipts.iter().enumerate() {
        put_place(alloc, &mut places, receipt.subject.as_str(), place)?;
    }
    Ok(places)
}

/// Appends a position to the positions of a subject's receipts.
fn put_place(
    alloc: Global,
    places: &mut HashMap<String, Vec<usize>>,
    subject: &str,
    place: usize,
) -> Result<(), AllocError> {
    let subject = String::from_str(alloc, subject)?;
    places.entry(subject)?.or_default().push(place)?;
    Ok(())
}

impl<'a> KeptReceipts<'a> {
    /// Returns the positions of the receipts for a subject.
    fn about(&self, subject: &str) -> &'a [usize] {
        let all = self.places;
        match all.get(subject) {
            Some(places) => places.as_slice(),
            None => &[],
        }
    }

    /// Returns the receipt at a position.
    fn receipt_at(&self, place: usize) -> Option<&'a Receipt> {
        let rows = self.rows;
        rows.receipts.get(place)
    }

    /// Returns the number of receipts for a subject.
    pub(crate) fn count(&self, subject: &str) -> usize {
        self.about(subject).len()
    }

    /// Returns the receipt with the given index among those for a subject, counting from 0.
    pub(crate) fn numbered(&self, subject: &str, number: usize) -> Option<&'a Receipt> {
        let place = self.about(subject).get(number)?;
        self.receipt_at(*place)
    }

    /// Returns a subject's receipt, if it has at most one.
    pub(crate) fn only(&self, subject: &str) -> Option<&'a Receipt> {
        self.numbered(subject, 0)
    }

    /// Returns an actor's receipt among those for a subject.
    pub(crate) fn of_actor(&self, subject: &str, actor: u32) -> Option<&'a Receipt> {
        for place in self.about(subject) {
            match self.receipt_at(*place) {
                Some(receipt) if receipt.actor == actor => return Some(receipt),
                _ => {}
            }
        }
        None
    }

    /// Returns the first receipt for a subject whose reply has the given prefix.
    pub(crate) fn replied(&self, subject: &str, front: &str) -> Option<&'a Receipt> {
        for place in self.about(subject) {
            match self.receipt_at(*place) {
                Some(receipt) if receipt.reply.as_str().starts_with(front) => return Some(receipt),
                _ => {}
            }
        }
        None
    }
}
