//! Checks whether changes can be made to the orders of an office.

ghost use Rattle.std.specs.Prelude.{◌≡◌, ◌==◌, IfOk, IfNone, IfSome, true};
ghost use Rattle.std.specs.List.{list_all};
ghost use Rattle.mending.specs.Changes.{AreNamed, ArePlaced, CanBeMade, IsFlawOf, is_name_of_one, places_for};

use crate::changes::{Changes, Flaw};
use crate::names::{order_name, subject_of, takes_place_of};
use register::Request;
use std::alloc::{AllocError, Global};

/// Returns whether one of the orders has this name.
fn is_name_of_one(alloc: Global, orders: &[Request], name: &str) -> Result<bool, AllocError>
    ensures { IfOk result (λ is. is ≡ is_name_of_one orders.now name.now) }
{
    for order in orders {
        if order_name(alloc, order)?.as_str() == name {
            return Ok(true);
        }
    }
    Ok(false)
}

/// Returns how many of the orders the other order could replace.
fn places_for(alloc: Global, orders: &[Request], other: &Request) -> Result<usize, AllocError>
    ensures { IfOk result (λ count. count ≡ places_for orders.now other.now) }
{
    let mut count = 0;
    for order in orders {
        if takes_place_of(alloc, order, other)? {
            count += 1;
        }
    }
    Ok(count)
}

/// Returns a flaw if one of the names isn't the name of any order: the first such name.
fn flaw_of_names(alloc: Global, changes: Changes<'_>) -> Result<Option<Flaw>, AllocError>
    ensures none { IfOk result (λ found. IfNone found (AreNamed changes.entry)) }
    ensures some { IfOk result (λ found. IfSome found (IsFlawOf changes.entry)) }
{
    for name in changes.without {
        if !is_name_of_one(alloc, changes.orders, name)? {
            return Ok(Some(Flaw::NoSuchOrder(name.clone()?)));
        }
    }
    Ok(None)
}

/// Returns a flaw if one of the replacing orders could replace no order, or more than one: the first of those.
fn flaw_of_places(alloc: Global, changes: Changes<'_>) -> Result<Option<Flaw>, AllocError>
    ensures none { IfOk result (λ found. IfNone found (ArePlaced changes.entry)) }
    ensures some { AreNamed changes.entry → IfOk result (λ found. IfSome found (IsFlawOf changes.entry)) }
{
    for other in changes.instead {
        let count = places_for(alloc, changes.orders, other)?;
        if count != 1 {
            return Ok(Some(Flaw::NotOne(count, subject_of(alloc, &other.command)?)));
        }
    }
    Ok(None)
}

/// Returns a flaw if two of the replacing orders would replace the same order: the first of those.
fn flaw_of_others(alloc: Global, changes: Changes<'_>) -> Result<Option<Flaw>, AllocError>
    ensures none { IfOk result (λ found. IfNone found (list_all (λ other. places_for changes.entry.instead.now other == 1) changes.entry.instead.now ≡ true)) }
    ensures some { AreNamed changes.entry → ArePlaced changes.entry → IfOk result (λ found. IfSome found (IsFlawOf changes.entry)) }
{
    for other in changes.instead {
        let count = places_for(alloc, changes.instead, other)?;
        if count != 1 {
            return Ok(Some(Flaw::Several(count, subject_of(alloc, &other.command)?)));
        }
    }
    Ok(None)
}

/// Returns the first reason why the changes can't be made to the orders of the office; `None` if they can. Either no order has one of
/// the names; or, if each name is that of an order, one of the replacing orders doesn't match exactly one order; or, if each does, two
/// of them match the same one.
pub fn flaw_in(alloc: Global, changes: Changes<'_>) -> Result<Option<Flaw>, AllocError>
    ensures none { IfOk result (λ found. IfNone found (CanBeMade changes.entry)) }
    ensures some { IfOk result (λ found. IfSome found (IsFlawOf changes.entry)) }
{
    if let Some(flaw) = flaw_of_names(alloc, changes)? {
        return Ok(Some(flaw));
    }
    if let Some(flaw) = flaw_of_places(alloc, changes)? {
        return Ok(Some(flaw));
    }
    flaw_of_others(alloc, changes)
}
