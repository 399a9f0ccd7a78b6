//! The reads of the officer's console, and the target of each.

ghost use Rattle.std.specs.Prelude.{◌≡◌, ◌≤◌, drop, length};
ghost use Rattle.wire.specs.OfficeTargets.{actor_in, batch_read, after_digits, leading_number, numbered_read, of_batch, of_ward, read_by, ward_read};

use crate::digits::{digits_length, number_of};

/// The prefix of a ward's targets.
const WARDS: &[u8] = b"/office/wards/";

/// The prefix of a batch's targets.
const BATCHES: &[u8] = b"/office/batches/";

/// The prefix of the target for an actor's receipts.
const ACTOR: &[u8] = b"/office/receipts?actor=";

/// A read of the officer's console.
#[derive(Clone, Copy, Debug, PartialEq, Eq)]
pub enum OfficeRead {
    /// All wards, and the number of receipts.
    Wards,
    /// A ward, with its candidates and its next step.
    Ward { ward: u32 },
    /// The batches of a ward.
    Batches { ward: u32 },
    /// The doubtful papers of a ward.
    Doubtful { ward: u32 },
    /// The papers on which a batch's keyings differ.
    Differences { batch: u32 },
    /// The papers of a batch, and how each counts.
    Papers { batch: u32 },
    /// The receipts of one actor, or of all actors.
    Receipts { actor: Option<u32> },
}

/// Returns the number at the start of a text.
pub(crate) fn leading_number(text: &[u8]) -> Option<u32>
    ensures { result ≡ leading_number text.now }
{
    number_of(&text[..digits_length(text)])
}

/// Returns the rest of a text after its leading digits.
pub(crate) fn after_digits(text: &[u8]) -> &[u8]
    ensures { result.now ≡ after_digits text.now }
{
    &text[digits_length(text)..]
}

/// Returns the read of a ward, given the part of the target after its number.
fn of_ward(rest: &[u8], ward: u32) -> Option<OfficeRead>
    ensures { result ≡ of_ward rest.now ward }
{
    if rest.is_empty() {
        return Some(OfficeRead::Ward { ward });
    }
    if rest == "/batches".as_bytes() {
        return Some(OfficeRead::Batches { ward });
    }
    if rest == "/doubtful".as_bytes() {
        return Some(OfficeRead::Doubtful { ward });
    }
    None
}

/// Returns the read of a batch, given the part of the target after its number.
fn of_batch(rest: &[u8], batch: u32) -> Option<OfficeRead>
    ensures { result ≡ of_batch rest.now batch }
{
    if rest == "/differences".as_bytes() {
        return Some(OfficeRead::Differences { batch });
    }
    if rest == "/papers".as_bytes() {
        return Some(OfficeRead::Papers { batch });
    }
    None
}

/// Returns the read of a ward, given the part of the target after the prefix.
fn ward_read(behind: &[u8]) -> Option<OfficeRead>
    ensures { result ≡ ward_read behind.now }
{
    match leading_number(behind) {
        Some(ward) => of_ward(after_digits(behind), ward),
        None => None,
    }
}

/// Returns the read of a batch, given the part of the target after the prefix.
fn batch_read(behind: &[u8]) -> Option<OfficeRead>
    ensures { result ≡ batch_read behind.now }
{
    match leading_number(behind) {
        Some(batch) => of_batch(after_digits(behind), batch),
        None => None,
    }
}

/// Parses an actor: 0, which is the office itself, or a number.
fn actor_in(text: &[u8]) -> Option<u32>
    ensures { result ≡ actor_in text.now }
{
    if text == "0".as_bytes() {
        return Some(0);
    }
    number_of(text)
}

/// Returns the read at a target that contains a number.
fn numbered_read(target: &[u8]) -> Option<OfficeRead>
    ensures { result ≡ numbered_read target.now }
{
    if target.starts_with(WARDS) {
        return ward_read(&target[WARDS.len()..]);
    }
    if target.starts_with(BATCHES) {
        return batch_read(&target[BATCHES.len()..]);
    }
    if target.starts_with(ACTOR) {
        return match actor_in(&target[ACTOR.len()..]) {
            Some(actor) => Some(OfficeRead::Receipts { actor: Some(actor) }),
            None => None,
        };
    }
    None
}

/// Returns the console's read at a target, if there is one.
pub(crate) fn read_by(target: &[u8]) -> Option<OfficeRead>
    ensures { result ≡ read_by target.now }
{
    if target == "/office/wards".as_bytes() {
        return Some(OfficeRead::Wards);
    }
    if target == "/office/receipts".as_bytes() {
        return Some(OfficeRead::Receipts { actor: None });
    }
    numbered_read(target)
}
