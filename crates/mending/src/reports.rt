//! What is printed about orders that are left out or replaced.

ghost use Rattle.std.specs.Prelude.{◌≡◌, IfOk, string_bytes};
ghost use Rattle.mending.specs.Reports.{cause_words, count_text, end_line, flaw_text, left_line, order_words, refusal_words, replaced_line};

use crate::changes::Flaw;
use crate::names::{order_name, subject_of};
use register::{Refusal, Request};
use std::alloc::{AllocError, Global};

/// The reason why an order is left out.
#[derive(Drop)]
pub(crate) enum Cause {
    /// The changes name it.
    Asked,
    /// It counts this ward, and an earlier order on the ward was left out or replaced.
    Changed(u32),
    /// It was refused.
    Refused(Refusal),
    /// The order that was to replace it was refused.
    Unaccepted(Refusal),
    /// Its id, or that of the order that was to replace it, was already used.
    Repeated,
}

#[tactic(auto, unfolding(crate::specs::Reports::refusal_words))]
/// Returns the text of a refusal.
fn refusal_words(alloc: Global, refusal: &Refusal) -> Result<String, AllocError>
    ensures { IfOk result (λ text. string_bytes text ≡ refusal_words refusal.now) }
{
    let (number, words) = (refusal.number(), refusal.text());
    format!(in alloc; "refused {number}: {words}")
}

#[tactic(auto, unfolding(crate::specs::Reports::cause_words))]
/// Returns the text that says why an order is left out.
fn cause_words(alloc: Global, cause: &Cause) -> Result<String, AllocError>
    ensures { IfOk result (λ text. string_bytes text ≡ cause_words cause.now) }
{
    match cause {
        Cause::Asked => String::from_str(alloc, "as asked"),
        Cause::Changed(ward) => format!(in alloc; "ward {ward} changed before it"),
        Cause::Refused(refusal) => refusal_words(alloc, refusal),
        Cause::Unaccepted(refusal) => {
            let words = refusal_words(alloc, refusal)?;
            format!(in alloc; "the order in its place is {words}")
        }
        Cause::Repeated => String::from_str(alloc, "its id was used before it"),
    }
}

#[tactic(auto, unfolding(crate::specs::Reports::order_words))]
/// Returns the name and the subject of an order.
fn order_words(alloc: Global, order: &Request) -> Result<String, AllocError>
    ensures { IfOk result (λ text. string_bytes text ≡ order_words order.now) }
{
    let name = order_name(alloc, order)?;
    let subject = subject_of(alloc, &order.command)?;
    format!(in alloc; "{name}, {subject}")
}

#[tactic(auto, unfolding(crate::specs::Reports::left_line))]
/// Returns the line for an order that is left out.
pub(crate) fn left_line(alloc: Global, order: &Request, cause: &Cause) -> Result<String, AllocError>
    ensures { IfOk result (λ text. string_bytes text ≡ left_line order.now cause.now) }
{
    let (words, why) = (order_words(alloc, order)?, cause_words(alloc, cause)?);
    format!(in alloc; "left out {words}: {why}\n")
}

#[tactic(auto, unfolding(crate::specs::Reports::replaced_line))]
/// Returns the line for an order that is replaced by another.
pub(crate) fn replaced_line(
    alloc: Global,
    order: &Request,
    other: &Request,
) -> Result<String, AllocError>
    ensures { IfOk result (λ text. string_bytes text ≡ replaced_line order.now other.now) }
{
    let (words, name) = (order_words(alloc, order)?, order_name(alloc, other)?);
    format!(in alloc; "replaced {words}: by {name}\n")
}

#[tactic(auto, unfolding(crate::specs::Reports::end_line))]
/// Returns the last line: how many orders were kept, replaced and left out.
pub(crate) fn end_line(
    alloc: Global,
    kept: usize,
    replaced: usize,
    left_out: usize,
) -> Result<String, AllocError>
    ensures { IfOk result (λ text. string_bytes text ≡ end_line kept replaced left_out) }
{
    format!(in alloc; "mended: {kept} orders kept, {replaced} replaced, {left_out} left out\n")
}

#[tactic(auto, unfolding(crate::specs::Reports::count_text))]
/// Returns the line that says what is wrong with a number of orders.
fn count_text(alloc: Global, count: usize, words: &str, subject: &str) -> Result<String, AllocError>
    ensures { IfOk result (λ text. string_bytes text ≡ count_text count words.now subject.now) }
{
    format!(in alloc; "not mended: {count} orders {words}{subject}\n")
}

impl Flaw {
    #[tactic(auto, unfolding(crate::specs::Reports::flaw_text))]
    /// Returns the line that says why the changes can't be made.
    pub fn text(&self, alloc: Global) -> Result<String, AllocError>
        ensures { IfOk result (λ text. string_bytes text ≡ flaw_text self.now) }
    {
        match self {
            Flaw::NoSuchOrder(name) => {
                let name = name.as_str();
                format!(in alloc; "not mended: no order has the name {name}\n")
            }
            Flaw::NotOne(count, subject) => {
                let words = "can be replaced, not just one: ";
                count_text(alloc, *count, words, subject.as_str())
            }
            Flaw::Several(count, subject) => {
                count_text(alloc, *count, "are to take one place: ", subject.as_str())
            }
        }
    }
}
