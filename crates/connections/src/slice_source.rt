//! A source that reads from bytes in memory.

ghost use Rattle.std.specs.Prelude.{Some};

use streams::{Broken, Source};

/// The rest of a slice of bytes, as a source. It never fails.
#[derive(Drop)]
pub struct SliceSource<'a> {
    bytes: &'a [u8],
}

impl<'a> SliceSource<'a> {
    ghost use Rattle.std.specs.Prelude.{◌≡◌};
    ghost use Rattle.connections.specs.Clients.{left_of};

    /// Returns a source that yields all of these bytes.
    pub fn new(bytes: &'a [u8]) -> SliceSource<'a>
        ensures { left_of result ≡ bytes.now }
    {
        SliceSource { bytes }
    }
}

impl Source for SliceSource<'_> {
    ghost held = { λ g. Some g.bytes.now };

    ghost failed = { λ _. 0 };

    fn fetch(&mut self, room: &mut [u8]) -> Result<usize, Broken> {
        let count = self.bytes.len().min(room.len());
        let (given, left) = self.bytes.split_at(count);
        room[..count].copy_from_slice(given);
        self.bytes = left;
        Ok(count)
    }

    fn failures(&self) -> u64 {
        0
    }
}
