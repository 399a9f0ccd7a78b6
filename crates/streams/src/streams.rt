//! Byte sinks and byte sources, each of which counts failed calls.

ghost use Rattle.std.specs.Prelude.{◌≡◌, ℕ, ◌+◌, ◌-◌, ◌^◌, ◌<◌, ◌≤◌, List, length, take, IfOk, OnOk, OnErr, Option};
ghost use Rattle.std.specs.Io.KnownBytes.{Appends, Consumes, IsAtEnd, Keeps};
ghost use Rattle.streams.specs.Streams.{AppendsBeginning};

use thiserror::Error;

/// A call to a sink or a source failed, and its count of failures increased by one.
#[derive(Clone, Copy, Debug, PartialEq, Eq, Error)]
#[error("broken stream")]
pub struct Broken;

/// A destination for bytes that counts failed calls.
pub trait Sink {
    /// The bytes accepted so far, if known.
    ghost taken: { Self → Option (List ℕ) };

    /// The number of failed calls.
    ghost failed: { Self → ℕ };

    /// Accepts a prefix of the bytes, at least one byte if there are any, and returns its length.
    ///
    /// After `Broken`, the bytes accepted so far are unchanged.
    fn put(&mut self, bytes: &[u8]) -> Result<usize, Broken>
        requires { failed self.old < 2 ^ 64 - 1 }
        ensures within { IfOk result (λ n. n ≤ length bytes.now) }
        ensures some { IfOk result (λ n. 0 < length bytes.now → 0 < n) }
        ensures took { IfOk result (λ n. Appends (taken self.old) (taken self.new) (take n bytes.now)) }
        ensures ok { OnOk result (failed self.new ≡ failed self.old) }
        ensures kept { OnErr result (Keeps (taken self.old) (taken self.new)) }
        ensures err { OnErr result (failed self.new ≡ failed self.old + 1) };

    /// Returns the number of failed calls.
    fn failures(&self) -> u64
        ensures { result ≡ failed self.now };
}

/// A source of bytes that counts failed calls.
pub trait Source {
    /// The bytes still to be read, if known.
    ghost held: { Self → Option (List ℕ) };

    /// The number of failed calls so far.
    ghost failed: { Self → ℕ };

    /// Reads the next bytes into the front of a buffer and returns how many there are: 0 only if the buffer is empty or the
    /// source is exhausted.
    ///
    /// After `Broken`, the bytes still to be read are unchanged; the content of the buffer is unspecified.
    fn fetch(&mut self, room: &mut [u8]) -> Result<usize, Broken>
        requires { failed self.old < 2 ^ 64 - 1 }
        ensures within { IfOk result (λ n. n ≤ length room.new) }
        ensures gave { IfOk result (λ n. Consumes (held self.old) (held self.new) (take n room.new)) }
        ensures end { IfOk result (λ n. n ≡ 0 → 0 < length room.new → IsAtEnd (held self.new)) }
        ensures ok { OnOk result (failed self.new ≡ failed self.old) }
        ensures kept { OnErr result (Keeps (held self.old) (held self.new)) }
        ensures err { OnErr result (failed self.new ≡ failed self.old + 1) };

    /// Returns the number of failed calls.
    fn failures(&self) -> u64
        ensures { result ≡ failed self.now };
}

/// Writes all of the given bytes to a sink, in as many calls as needed.
///
/// Returns `Broken` only if a call to the sink fails. The sink has then accepted a prefix of the bytes, and its count of failures
/// is one higher.
pub fn put_all<W: Sink>(sink: &mut W, bytes: &[u8]) -> Result<(), Broken>
    requires { W.failed sink.old < 2 ^ 64 - 1 }
    ensures all { OnOk result (Appends (W.taken sink.old) (W.taken sink.new) bytes.now) }
    ensures ok { OnOk result (W.failed sink.new ≡ W.failed sink.old) }
    ensures cut_off { OnErr result (AppendsBeginning (W.taken sink.old) (W.taken sink.new) bytes.now) }
    ensures err { OnErr result (W.failed sink.new ≡ W.failed sink.old + 1) }
{
    let mut at = 0;
    while at < bytes.len() {
        let n = sink.put(&bytes[at..])?;
        at += n;
    }
    Ok(())
}
