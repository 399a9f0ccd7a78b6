//! A connection that was removed from the table in order to be closed.

use crate::client::ReceiveError;
use std::alloc::AllocError;

/// Why a connection is closed.
#[derive(Clone, Copy)]
pub enum CloseReason {
    /// The whole response has been sent.
    Done,
    /// Its stream failed.
    Broken,
    /// Its request can't be read to the end, or an allocation failed.
    Unreadable,
    /// Its time limit has expired.
    TimedOut,
    /// It is closed to make room for another.
    Evicted,
    /// Serving ends.
    Closing,
}

/// A connection that was removed from the table: its number in the order of acceptance, its stream, and the reason for closing
/// it.
#[derive(Drop)]
pub struct Removed<L> {
    pub number: u64,
    pub stream: L,
    pub why: CloseReason,
}

impl From<ReceiveError> for CloseReason {
    ghost use Rattle.connections.specs.Removals.{why_of};
    ghost use Rattle.std.specs.Prelude.{◌≡◌};

    ghost from_gives = { λ lost why. why ≡ why_of lost };

    fn from(lost: ReceiveError) -> CloseReason {
        match lost {
            ReceiveError::Stream => CloseReason::Broken,
            ReceiveError::Memory => CloseReason::Unreadable,
        }
    }
}

impl From<AllocError> for CloseReason {
    ghost use Rattle.connections.specs.declared.removed.CloseReason.{CloseReason};
    ghost use Rattle.std.specs.Prelude.{◌≡◌};

    ghost from_gives = { λ _ why. why ≡ CloseReason.Unreadable };

    fn from(_error: AllocError) -> CloseReason {
        CloseReason::Unreadable
    }
}
