//! Reporting the progress of a long order to a user who doesn't see its replies.

ghost use Rattle.std.specs.Prelude.{◌≡◌};

use std::io::Write;
use streams::{Broken, Sink};

/// The count is printed every time this many lines have been written.
const STEP: u64 = 100;

/// Counts lines, and reports the count to a writer at regular intervals.
#[derive(Drop)]
struct Meter<W> {
    told: W,
    lines: u64,
}

impl<W: Write> Meter<W> {
    fn count_line(&mut self) {
        self.lines = self.lines.saturating_add(1);
        if self.lines % STEP == 0 {
            // Failing to write a report doesn't stop the order.
            let _ = writeln!(self.told, "{} records done", self.lines);
        }
    }

    fn count(&mut self, bytes: &[u8]) {
        for byte in bytes {
            if *byte == b'\n' {
                self.count_line();
            }
        }
    }
}

/// An output that reports the number of lines to a writer after every hundredth line.
///
/// It accepts whatever the wrapped output accepts, and fails only if that output fails, never because of the writer.
#[derive(Drop)]
pub struct ProgressSink<'a, O, W> {
    out: &'a mut O,
    meter: Meter<W>,
}

impl<'a, O: Sink, W: Write> ProgressSink<'a, O, W> {
    /// Wraps an output, starting with a line count of 0.
    pub fn new(out: &'a mut O, told: W) -> ProgressSink<'a, O, W>
        ensures { result.out.now ≡ out.old }
    {
        ProgressSink {
            out,
            meter: Meter { told, lines: 0 },
        }
    }
}

impl<O: Sink, W: Write> Sink for ProgressSink<'_, O, W> {
    ghost taken = { λ s. O.taken s.out.now };

    ghost failed = { λ s. O.failed s.out.now };

    fn put(&mut self, bytes: &[u8]) -> Result<usize, Broken> {
        let n = self.out.put(bytes)?;
        self.meter.count(&bytes[..n]);
        Ok(n)
    }

    fn failures(&self) -> u64 {
        self.out.failures()
    }
}
