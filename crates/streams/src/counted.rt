//! Wraps a standard-library reader or writer and counts its failures.

ghost use Rattle.std.specs.Prelude.{◌≡◌, ◌+◌, ◌-◌, ◌^◌, ◌<◌};
ghost use Rattle.streams.specs.Counted.{stream_of, failed_calls, taken_of, given_of};

use crate::streams::{Broken, Sink, Source};
use std::io;
use std::io::{Read, Write};

/// A sink made from a writer, or a source made from a reader.
///
/// An error from the writer or reader counts as a failure, and so does a write that accepts none of the bytes of a nonempty
/// slice.
#[derive(Drop)]
pub struct Counted<T> {
    stream: T,
    failed: u64,
}

impl<T> Counted<T> {
    /// Wraps a writer or a reader. No call has failed yet.
    pub fn new(stream: T) -> Counted<T>
        ensures stream { stream_of result ≡ stream }
        ensures failed { failed_calls result ≡ 0 }
    {
        Counted { stream, failed: 0 }
    }

    /// Counts a failure, and returns the error.
    fn broken(&mut self) -> Broken
        requires { failed_calls self.old < 2 ^ 64 - 1 }
        ensures stream { stream_of self.new ≡ stream_of self.old }
        ensures failed { failed_calls self.new ≡ failed_calls self.old + 1 }
    {
        self.failed += 1;
        Broken
    }
}

/// Returns how many of `len` bytes a writer accepted, given the result of a write. Returns `None` for a failure: an error, or no
/// bytes accepted when there are any to accept.
fn taken(answer: io::Result<usize>, len: usize) -> Option<usize>
    ensures { result ≡ taken_of len answer }
{
    match answer {
        Ok(n) if n > 0 || len == 0 => Some(n),
        _ => None,
    }
}

/// Returns how many bytes a reader supplied, given the result of a read. Returns `None` for an error, which counts as a failure.
fn count_read(answer: io::Result<usize>) -> Option<usize>
    ensures { result ≡ given_of answer }
{
    match answer {
        Ok(n) => Some(n),
        Err(_) => None,
    }
}

impl<T: Write> Sink for Counted<T> {
    ghost taken = { λ s. T.contents s.stream };

    ghost failed = { λ s. s.failed };

    fn put(&mut self, bytes: &[u8]) -> Result<usize, Broken> {
        match taken(self.stream.write(bytes), bytes.len()) {
            Some(n) => Ok(n),
            None => Err(self.broken()),
        }
    }

    fn failures(&self) -> u64 {
        self.failed
    }
}

impl<T: Read> Source for Counted<T> {
    ghost held = { λ s. T.remaining s.stream };

    ghost failed = { λ s. s.failed };

    fn fetch(&mut self, room: &mut [u8]) -> Result<usize, Broken> {
        match count_read(self.stream.read(room)) {
            Some(n) => Ok(n),
            None => Err(self.broken()),
        }
    }

    fn failures(&self) -> u64 {
        self.failed
    }
}
