//! Why a request couldn't be read.

ghost use Rattle.std.specs.Prelude.{◌≡◌};
ghost use Rattle.wire.specs.declared.read_failure.ReadFailure.TheVariants.{Broken, Memory};

use std::alloc::AllocError;
use streams::Broken;

/// Why a request couldn't be read.
#[derive(Clone, Copy, PartialEq, Eq)]
pub enum ReadFailure {
    /// The source failed; its failure count is one higher.
    Broken,
    /// An allocation failed.
    Memory,
}

impl From<Broken> for ReadFailure {
    ghost from_gives = { λ _ why. why ≡ Broken };

    fn from(_: Broken) -> ReadFailure {
        ReadFailure::Broken
    }
}

impl From<AllocError> for ReadFailure {
    ghost from_gives = { λ _ why. why ≡ Memory };

    fn from(_: AllocError) -> ReadFailure {
        ReadFailure::Memory
    }
}
