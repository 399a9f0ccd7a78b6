//! A sink that writes to memory.

ghost use Rattle.std.specs.Prelude.{◌≡◌, [], Some};
ghost use Rattle.connections.specs.Clients.{failed_writes, written_in};

use std::alloc::{AllocError, Global};
use streams::{Broken, Sink};

/// The bytes written so far. Writing fails only if an allocation fails.
#[derive(Drop)]
pub struct VecSink {
    bytes: Vec<u8>,
    failed: u64,
}

impl VecSink {
    /// Returns an empty sink. Allocates nothing.
    pub fn new(alloc: Global) -> VecSink
        ensures bytes { written_in result ≡ [] }
        ensures failed { failed_writes result ≡ 0 }
    {
        VecSink {
            bytes: Vec::new(alloc),
            failed: 0,
        }
    }

    /// Returns the bytes written.
    pub fn into_bytes(self) -> Vec<u8>
        ensures { result.items ≡ written_in self }
    {
        self.bytes
    }
}

impl Sink for VecSink {
    ghost taken = { λ w. Some w.bytes.items };

    ghost failed = { λ w. w.failed };

    fn put(&mut self, bytes: &[u8]) -> Result<usize, Broken> {
        match self.bytes.extend_from_slice(bytes) {
            Ok(()) => Ok(bytes.len()),
            Err(AllocError) => {
                self.failed += 1;
                Err(Broken)
            }
        }
    }

    fn failures(&self) -> u64 {
        self.failed
    }
}
