//! The reasons why a message can't be decoded.

ghost use Rattle.std.specs.Prelude.{◌≡◌};
ghost use Rattle.order_protocol.specs.declared.fault.DecodeError.TheVariants.{Memory};

use std::alloc::{AllocError, AllocFailed};

/// What is wrong with the bytes: the first error from left to right.
#[derive(Clone, Copy, Debug, PartialEq, Eq)]
pub enum FormatError {
    /// A field extends past the end.
    Short,
    /// A flag is neither 0 nor 1.
    Flag,
    /// Bytes follow the last field.
    Trailing,
}

/// The reason why nothing was decoded.
#[derive(Debug, Drop)]
pub enum DecodeError {
    Memory,
    FormatError(FormatError),
}

impl From<AllocError> for DecodeError {
    ghost from_gives = { λ _ e. e ≡ Memory };

    fn from(_e: AllocError) -> DecodeError {
        DecodeError::Memory
    }
}

impl<T: Drop> From<AllocFailed<T>> for DecodeError {
    ghost from_gives = { λ _ e. e ≡ Memory };

    fn from(_e: AllocFailed<T>) -> DecodeError {
        DecodeError::Memory
    }
}
