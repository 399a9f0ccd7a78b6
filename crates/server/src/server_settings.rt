//! The settings of a server.

ghost use Rattle.std.specs.Prelude.{◌≡◌, ⊤};

use std::alloc::AllocError;
use wire::HttpSettings;

/// A file, identified by its device number and its inode number.
#[derive(Clone, Copy)]
pub struct FileNumbers {
    pub device: u64,
    pub inode: u64,
}

/// The HTTP settings (the origin of a proxy, the gate, and what is shown in public, if any), the served file, to which the
/// orders that are handed over apply, and what an order needs besides the office.
pub struct ServerSettings<'a, A> {
    pub http: HttpSettings<'a>,
    pub file: FileNumbers,
    pub served_file: &'a A,
}

impl<A> Clone for ServerSettings<'_, A> {
    ghost is_clone = { λ x y. y ≡ x };

    ghost is_infallible = { λ _. ⊤ };

    fn clone(&self) -> Result<Self, AllocError> {
        Ok(*self)
    }
}

impl<A> Copy for ServerSettings<'_, A> {}
