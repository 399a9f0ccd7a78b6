//! A connection's stream, whose calls never block.

ghost use Rattle.std.specs.Prelude.{◌≡◌, ℕ, ◌<◌, List, Option, length};
ghost use Rattle.std.specs.Io.KnownBytes.{Keeps};
ghost use Rattle.connections.specs.Streams.{Gives, Takes, failed_after, idle_after_read, idle_after_write};

use streams::Broken;

/// The result of a read.
#[derive(Clone, Copy)]
pub enum Received {
    /// A number of bytes, at least one.
    Bytes(usize),
    /// No bytes yet.
    Nothing,
    /// The end of the stream: no more bytes will come.
    End,
}

/// The bytes of a connection, in both directions. No call blocks.
pub trait Stream {
    /// The bytes still to come, if known.
    ghost held: { Self → Option (List ℕ) };

    /// The bytes accepted so far, if known.
    ghost taken: { Self → Option (List ℕ) };

    /// The number of calls that have failed so far, if known.
    ghost failed: { Self → Option ℕ };

    /// The number of calls that had nothing to read or could write nothing, if known.
    ghost idle: { Self → Option ℕ };

    /// Reads what has arrived into the buffer, from its start, as far as it fits.
    ///
    /// If it returns `Broken`, nothing was read, and the contents of the buffer are unspecified.
    fn fetch(&mut self, room: &mut [u8]) -> Result<Received, Broken>
        requires { 0 < length room.old }
        ensures gives { Gives (held self.old) (held self.new) room.new result }
        ensures untold { taken self.new ≡ taken self.old }
        ensures failed { failed self.new ≡ failed_after result (failed self.old) }
        ensures idle { idle self.new ≡ idle_after_read result (idle self.old) };

    /// Writes some of the bytes, starting with the first, and returns how many; 0 if the stream accepts nothing for now.
    fn put(&mut self, bytes: &[u8]) -> Result<usize, Broken>
        ensures takes { Takes (taken self.old) (taken self.new) bytes.now result }
        ensures unheard { Keeps (held self.old) (held self.new) }
        ensures failed { failed self.new ≡ failed_after result (failed self.old) }
        ensures idle { idle self.new ≡ idle_after_write result (idle self.old) };
}
