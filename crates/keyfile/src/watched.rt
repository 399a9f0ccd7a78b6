//! A reader that keeps track of whether its last read failed.

ghost use Rattle.std.specs.Prelude.{◌≡◌, Bool, false, is_err};
ghost use Rattle.std.specs.Io.{ReadsAtMost};
ghost use Rattle.std.specs.Io.KnownBytes.{ReadConsumes};
ghost use Rattle.keyfile.specs.Reading.{last_failed, reader_of};

use std::io::{self, Read};

/// A reader that can tell whether its last read failed.
pub(crate) trait LastRead {
    /// Whether the last read failed.
    ghost failed: { Self → Bool };

    /// Returns whether the last read failed.
    fn has_failed(&self) -> bool
        ensures { result ≡ failed self.now };
}

/// A reader that keeps track of whether its last read failed.
#[derive(Drop)]
pub(crate) struct Watched<R> {
    reader: R,
    failed: bool,
}

impl<R> Watched<R> {
    /// Wraps a reader, none of whose reads has failed yet.
    pub(crate) fn new(reader: R) -> Watched<R>
        ensures reader { reader_of result ≡ reader }
        ensures failed { last_failed result ≡ false }
    {
        Watched {
            reader,
            failed: false,
        }
    }
}

impl<R: Read> Read for Watched<R> {
    ghost remaining = { λ w. R.remaining w.reader };

    fn read(&mut self, buf: &mut [u8]) -> io::Result<usize>
        ensures bound { ReadsAtMost result buf.new }
        ensures bytes { ReadConsumes (R.remaining (reader_of self.old)) (R.remaining (reader_of self.new)) result buf.new }
        ensures failed { last_failed self.new ≡ is_err result }
    {
        let read = self.reader.read(buf);
        self.failed = read.is_err();
        read
    }
}

impl<R> LastRead for Watched<R> {
    ghost failed = { λ w. w.failed };

    fn has_failed(&self) -> bool {
        self.failed
    }
}
