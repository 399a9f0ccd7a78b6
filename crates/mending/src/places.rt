//! The wards that an order is about.

ghost use Rattle.std.specs.Prelude.{◌≡◌, ◌==◌, ◌++◌, IfOk};
ghost use Rattle.std.specs.List.{list_any};
ghost use Rattle.mending.specs.Changes.{place_of, ward_changed, ward_counted, ward_given, wards_about, wards_given};

use register::{BatchCommand, CandidateCommand, Command, CountCommand, Request, WardCommand};
use std::alloc::AllocError;

/// What a command is about: a ward, or a batch whose ward the command doesn't name.
#[derive(Clone, Copy)]
pub(crate) enum Place {
    Ward(u32),
    Batch(u32),
}

/// Returns the ward or batch that a command is about.
fn place_of(command: &Command) -> Place
    ensures { result ≡ place_of command.now }
{
    match command {
        Command::Ward(WardCommand::Add { ward, .. } | WardCommand::Close { ward }) => {
            Place::Ward(*ward)
        }
        Command::Candidate(
            CandidateCommand::Add { ward, .. } | CandidateCommand::Withdraw { ward, .. },
        ) => Place::Ward(*ward),
        Command::Batch(BatchCommand::Add { ward, .. }) => Place::Ward(*ward),
        Command::Batch(BatchCommand::Again { batch } | BatchCommand::Third { batch, .. }) => {
            Place::Batch(*batch)
        }
        Command::Keying(keying) => Place::Batch(keying.batch),
        Command::Verdict(verdict) => Place::Batch(verdict.batch),
        Command::Count(
            CountCommand::Seal { ward }
            | CountCommand::Advance { ward }
            | CountCommand::Lot { ward, .. }
            | CountCommand::Declare { ward },
        ) => Place::Ward(*ward),
    }
}

/// Returns the ward of this batch if the command gives it out.
fn ward_given(number: u32, command: &Command) -> Option<u32>
    ensures { result ≡ ward_given number command.now }
{
    match command {
        Command::Batch(BatchCommand::Add { batch, ward, .. }) if *batch == number => Some(*ward),
        _ => None,
    }
}

/// Appends the wards for which the orders give out this batch.
fn put_wards_given(wards: &mut Vec<u32>, orders: &[Request], batch: u32) -> Result<(), AllocError>
    ensures { IfOk result (λ _. wards.new.items ≡ wards.old.items ++ wards_given orders.now batch) }
{
    for order in orders {
        if let Some(ward) = ward_given(batch, &order.command) {
            wards.push(ward)?;
        }
    }
    Ok(())
}

/// Appends the wards that a command is about. For a batch, these are the wards for which the orders give it out.
pub(crate) fn put_wards_about(
    wards: &mut Vec<u32>,
    orders: &[Request],
    command: &Command,
) -> Result<(), AllocError>
    ensures { IfOk result (λ _. wards.new.items ≡ wards.old.items ++ wards_about orders.now command.now) }
{
    match place_of(command) {
        Place::Ward(ward) => {
            wards.push(ward)?;
            Ok(())
        }
        Place::Batch(batch) => put_wards_given(wards, orders, batch),
    }
}

/// Returns the ward in which a command counts a stage, records a lot or declares the result, if it does one of these.
fn ward_counted(command: &Command) -> Option<u32>
    ensures { result ≡ ward_counted command.now }
{
    match command {
        Command::Count(
            CountCommand::Advance { ward }
            | CountCommand::Lot { ward, .. }
            | CountCommand::Declare { ward },
        ) => Some(*ward),
        _ => None,
    }
}

/// Returns whether a ward is among these wards.
fn is_one_of(wards: &[u32], ward: u32) -> bool
    ensures { result ≡ list_any (λ w. w == ward) wards.now }
{
    wards.iter().any(|other| *other == ward)
}

/// Returns the ward that a command counts, if that ward is among those that changed.
pub(crate) fn ward_changed(changed: &[u32], command: &Command) -> Option<u32>
    ensures { result ≡ ward_changed changed.now command.now }
{
    let ward = ward_counted(command)?;
    if is_one_of(changed, ward) {
        Some(ward)
    } else {
        None
    }
}
