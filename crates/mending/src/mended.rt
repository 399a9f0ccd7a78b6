//! Sends the orders of an office, one by one, to an empty office, leaving some out and replacing others.

ghost use Rattle.std.specs.Prelude.{◌≡◌, ◌+◌, ◌-◌, ◌^◌, ◌<◌, find, map, option_map, string_bytes, IfOk, OnOk};
ghost use Rattle.std.specs.List.{list_any};
ghost use Rattle.std.specs.Str.{bytes_eq};
ghost use Rattle.register.specs.Offices.{empty_office};
ghost use Rattle.register.specs.declared.command.Request.{Request};
ghost use Rattle.mending.specs.Changes.{in_place_of, is_named};
ghost use Rattle.mending.specs.Mending.{IsPoint, MendPoint, after_other, after_sent, keeping, leaving, mend_one, mended, replacing, start, turns_of};
ghost use Rattle.mending.specs.Accounts.{IsMended};
ghost use Rattle.mending.specs.Reports.{end_line};

use crate::changes::Changes;
use crate::names::{order_name, takes_place_of};
use crate::places::{put_wards_about, ward_changed};
use crate::recipients::{MendFault, Recipient, Sent};
use crate::reports::{Cause, end_line, left_line, replaced_line};
use register::Request;
use std::alloc::{AllocError, Global};

/// The outcome for the orders: a line for each one that was replaced or left out, the wards that those were about, and how many
/// orders were kept, replaced and left out.
#[derive(Drop)]
pub struct Mended {
    pub text: String,
    pub changed: Vec<u32>,
    pub kept: usize,
    pub replaced: usize,
    pub left_out: usize,
}

/// Returns the order that replaces the given one, if any.
fn in_place_of<'a>(
    alloc: Global,
    instead: &'a [Request],
    order: &Request,
) -> Result<Option<&'a Request>, AllocError>
    ensures { IfOk result (λ found. option_map (λ r. r.now) found ≡ in_place_of instead.entry.now order.now) }
{
    for other in instead {
        if takes_place_of(alloc, order, other)? {
            return Ok(Some(other));
        }
    }
    Ok(None)
}

/// Returns whether this name is among the names.
fn has_name(names: &[String], own: &str) -> bool
    ensures { result ≡ list_any (bytes_eq own.now) (map string_bytes names.now) }
{
    for name in names {
        if own == name.as_str() {
            return true;
        }
    }
    false
}

/// Returns whether the name of an order is among the names.
fn is_named(alloc: Global, names: &[String], order: &Request) -> Result<bool, AllocError>
    ensures { IfOk result (λ is. is ≡ is_named (map string_bytes names.now) order.now) }
{
    let own = order_name(alloc, order)?;
    Ok(has_name(names, own.as_str()))
}

impl Mended {
    /// Returns the outcome before the first order.
    fn new(alloc: Global) -> Mended
        ensures point { IsPoint (start empty_office) result }
        ensures turns { turns_of result ≡ 0 }
    {
        Mended {
            text: String::new(alloc),
            changed: Vec::new(alloc),
            kept: 0,
            replaced: 0,
            left_out: 0,
        }
    }

    /// Counts an order that is kept.
    fn keep(&mut self)
        requires { turns_of self.old < 2 ^ 64 - 1 }
        ensures point { (p : MendPoint) → (r : Request) → IsPoint p self.old → IsPoint (keeping p r) self.new }
        ensures turns { turns_of self.new ≡ turns_of self.old + 1 }
    {
        self.kept += 1;
    }

    /// Records that an order is left out.
    fn leave(
        &mut self,
        alloc: Global,
        orders: &[Request],
        order: &Request,
        cause: &Cause,
    ) -> Result<(), AllocError>
        requires { turns_of self.old < 2 ^ 64 - 1 }
        ensures point { OnOk result ((p : MendPoint) → IsPoint p self.old → IsPoint (leaving orders.now p order.now cause.now) self.new) }
        ensures turns { OnOk result (turns_of self.new ≡ turns_of self.old + 1) }
    {
        put_wards_about(&mut self.changed, orders, &order.command)?;
        let line = left_line(alloc, order, cause)?;
        self.text.push_str(line.as_str())?;
        self.left_out += 1;
        Ok(())
    }

    /// Records that an order is replaced by another.
    fn replace(
        &mut self,
        alloc: Global,
        orders: &[Request],
        order: &Request,
        other: &Request,
    ) -> Result<(), AllocError>
        requires { turns_of self.old < 2 ^ 64 - 1 }
        ensures point { OnOk result ((p : MendPoint) → IsPoint p self.old → IsPoint (replacing orders.now p order.now other.now) self.new) }
        ensures turns { OnOk result (turns_of self.new ≡ turns_of self.old + 1) }
    {
        put_wards_about(&mut self.changed, orders, &order.command)?;
        put_wards_about(&mut self.changed, orders, &other.command)?;
        let line = replaced_line(alloc, order, other)?;
        self.text.push_str(line.as_str())?;
        self.replaced += 1;
        Ok(())
    }

    /// Records the outcome of an order that was sent: it is kept if it was accepted, and left out otherwise.
    fn put_sent(
        &mut self,
        alloc: Global,
        orders: &[Request],
        order: &Request,
        sent: Sent,
    ) -> Result<(), AllocError>
        requires { turns_of self.old < 2 ^ 64 - 1 }
        ensures point { OnOk result ((p : MendPoint) → IsPoint p self.old → IsPoint (after_sent orders.now p order.now sent) self.new) }
        ensures turns { OnOk result (turns_of self.new ≡ turns_of self.old + 1) }
    {
        match sent {
            Sent::Accepted => {
                self.keep();
                Ok(())
            }
            Sent::Known => self.leave(alloc, orders, order, &Cause::Repeated),
            Sent::Denied(refusal) => self.leave(alloc, orders, order, &Cause::Refused(refusal)),
        }
    }

    /// Records the outcome of another order that was sent in place of this one: this one is replaced if the other was accepted, and left
    /// out otherwise.
    fn put_other(
        &mut self,
        alloc: Global,
        orders: &[Request],
        order: &Request,
        other: &Request,
        sent: Sent,
    ) -> Result<(), AllocError>
        requires { turns_of self.old < 2 ^ 64 - 1 }
        ensures point { OnOk result ((p : MendPoint) → IsPoint p self.old → IsPoint (after_other orders.now p order.now other.now sent) self.new) }
        ensures turns { OnOk result (turns_of self.new ≡ turns_of self.old + 1) }
    {
        match sent {
            Sent::Accepted => self.replace(alloc, orders, order, other),
            Sent::Known => self.leave(alloc, orders, order, &Cause::Repeated),
            Sent::Denied(refusal) => self.leave(alloc, orders, order, &Cause::Unaccepted(refusal)),
        }
    }

    #[tactic(auto, unfolding(crate::specs::Mending::mend_one))]
    /// Processes an order. If another replaces it, that one is sent. Otherwise it is left out if it is named, or if it counts a ward and
    /// an earlier order on that ward was left out or replaced. Otherwise it is sent.
    fn take_turn<R: Recipient>(
        &mut self,
        alloc: Global,
        office: &mut R,
        changes: Changes<'_>,
        order: &Request,
    ) -> Result<(), MendFault>
        requires { turns_of self.old < 2 ^ 64 - 1 }
        ensures point { R.is_sound office.new → (p : MendPoint) → R.is_at office.old p.state → IsPoint p self.old
            → IfOk result (λ _. IsPoint (mend_one changes.entry p order.now) self.new × R.is_at office.new (mend_one changes.entry p order.now).state) }
        ensures turns { OnOk result (turns_of self.new ≡ turns_of self.old + 1) }
        ensures sound { R.is_sound office.new → R.is_sound office.old }
    {
        if let Some(other) = in_place_of(alloc, changes.instead, order)? {
            let sent = office.send(other)?;
            self.put_other(alloc, changes.orders, order, other, sent)?;
            return Ok(());
        }
        if is_named(alloc, changes.without, order)? {
            self.leave(alloc, changes.orders, order, &Cause::Asked)?;
            return Ok(());
        }
        if let Some(ward) = ward_changed(&self.changed, &order.command) {
            self.leave(alloc, changes.orders, order, &Cause::Changed(ward))?;
            return Ok(());
        }
        let sent = office.send(order)?;
        self.put_sent(alloc, changes.orders, order, sent)?;
        Ok(())
    }

    /// Returns the last line: how many orders were kept, replaced and left out.
    pub fn end_line(&self, alloc: Global) -> Result<String, AllocError>
        ensures { IfOk result (λ text. string_bytes text ≡ end_line self.now.kept self.now.replaced self.now.left_out) }
    {
        end_line(alloc, self.kept, self.replaced, self.left_out)
    }
}

#[tactic(auto, using(crate::proofs::TurnLemmas::mended_is))]
/// Sends the orders of an office, with the changes, to an empty office, and returns the outcome.
///
/// Afterwards the new office has the state to which the resulting list of orders leads, and each order in that list was accepted. Each
/// order of the original office is in that list unless the text has a line for it: it was replaced by another, or left out for a reason
/// that holds. The lines are in the sequence of the orders. After an error, nothing is known about the new office.
pub fn mend<R: Recipient>(
    alloc: Global,
    office: &mut R,
    changes: Changes<'_>,
) -> Result<Mended, MendFault>
    ensures mended { R.is_sound office.new → R.is_at office.old empty_office
        → IfOk result (λ m. IsPoint (mended changes.entry) m × R.is_at office.new (mended changes.entry).state) }
    ensures list { IsMended changes.entry (mended changes.entry) }
    ensures sound { R.is_sound office.new → R.is_sound office.old }
{
    let mut mended = Mended::new(alloc);
    for order in changes.orders {
        mended.take_turn(alloc, office, changes, order)?;
    }
    Ok(mended)
}
