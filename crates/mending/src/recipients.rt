//! The office that orders are sent to, one by one.

ghost use Rattle.std.specs.Prelude.{◌≡◌, IfOk};
ghost use Rattle.register.specs.Machine.{state_after, step_of};
ghost use Rattle.register.specs.Offices.{OfficeState};
ghost use Rattle.mending.specs.Mending.{sent_of};

use register::{Refusal, Request};
use std::alloc::AllocError;

/// The outcome of an order that was sent.
#[derive(Drop)]
pub enum Sent {
    /// The order was accepted.
    Accepted,
    /// An order with this id was accepted earlier.
    Known,
    /// The order was refused.
    Denied(Refusal),
}

/// The reason why the new office couldn't be made.
#[derive(Clone, Copy)]
pub enum MendFault {
    /// An allocation failed.
    Memory,
    /// The store of the new office failed.
    Store,
}

impl From<AllocError> for MendFault {
    ghost use Rattle.mending.specs.declared.recipients.MendFault.TheVariants.{Memory};

    ghost from_gives = { λ _ why. why ≡ Memory };

    fn from(_: AllocError) -> MendFault {
        MendFault::Memory
    }
}

/// An office that orders are sent to.
pub trait Recipient {
    // The office is open at this state.
    ghost is_at: { Self → OfficeState → Type 0 };

    // The store of the office has not failed so far.
    ghost is_sound: { Self → Type 0 };

    /// Sends an order, and returns its outcome.
    fn send(&mut self, order: &Request) -> Result<Sent, MendFault>
        ensures sent { is_sound self.new → (s : OfficeState) → is_at self.old s → IfOk result (λ sent. (sent ≡ sent_of (step_of s order.now)) × is_at self.new (state_after s (step_of s order.now))) }
        ensures sound { is_sound self.new → is_sound self.old };
}
