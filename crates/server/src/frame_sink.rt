//! A sink for the output of an order while it is processed: it writes frames to a stream.

ghost use Rattle.std.specs.Prelude.{◌≡◌, ◌++◌, ◌≤◌, [], List, OnErr, OnOk, Some, length, take, ℕ};
ghost use Rattle.connections.specs.Streams.{HasTaken, stream_of};
ghost use Rattle.order_protocol.specs.Frames.{AreWhole, IsOver, SaysMore, output_of};
ghost use Rattle.server.specs.FrameSinks.{IsEnded, IsGoingOut, said_through};

use connections::{PendingResponse, Stream, deliver};
use order_protocol::{MAX_FRAME, put_end_frame, put_error_frames, put_output};
use std::alloc::{AllocError, Global};
use streams::{Broken, Sink};

/// The maximum size of the response to one order, in bytes. To get a longer response, stop `serve` first.
const MAX_ANSWER: usize = 32 << 20;

/// A sink for an order's replies. It appends them, in frames, to what the order has already printed, and sends as much as the
/// stream accepts without blocking. It fails if the stream fails, if an allocation fails, or if the response gets too long.
///
/// The sink owns the stream. The code that processes an order only knows a `Sink`, so if the sink merely borrowed the stream,
/// nothing would be known about the stream afterwards.
pub struct FrameSink<L> {
    pub stream: L,
    pub answer: PendingResponse,
    pub failed: u64,
}

/// Appends the given bytes of the error output, in frames, and then the last frame, which has the status. If an allocation
/// fails, either nothing is appended, or everything except the last frame.
fn put_end(out: &mut Vec<u8>, status: u8, err: &[u8]) -> Result<(), AllocError>
    ensures says { AreWhole out.old.items → (rest : List ℕ) × SaysMore out.old.items out.new.items [] rest × OnOk result ((rest ≡ err.now) × IsOver out.new.items status []) }
    ensures begins { take (length out.old.items) out.new.items ≡ out.old.items }
{
    put_error_frames(out, err)?;
    put_end_frame(out, status, &[])
}

impl<L: Stream> FrameSink<L> {
    /// Returns a sink that nothing has been printed to yet. Allocates nothing.
    pub fn new(alloc: Global, stream: L) -> FrameSink<L>
        requires { HasTaken (L.taken stream) [] }
        ensures taken { said_through (stream_of L.held L.taken L.failed) result ≡ Some [] }
        ensures failed { result.failed ≡ 0 }
    {
        FrameSink {
            stream,
            answer: PendingResponse {
                bytes: Vec::new(alloc),
                sent: 0,
            },
            failed: 0,
        }
    }

    /// Appends the error output, in as many frames as needed, and the last frame. Returns the stream and the response. If an
    /// allocation fails, the response ends at a frame boundary, without the last frame.
    pub fn end(self, status: u8, err: &[u8]) -> (L, PendingResponse)
        ensures { (said : List ℕ) → said_through (stream_of L.held L.taken L.failed) self ≡ Some said → IsEnded (stream_of L.held L.taken L.failed) said status err.now result.0 result.1 }
    {
        let FrameSink {
            stream,
            mut answer,
            failed: _,
        } = self;
        match put_end(&mut answer.bytes, status, err) {
            Ok(()) => (stream, answer),
            Err(_) => (stream, answer),
        }
    }
}

/// Appends bytes to a response, in one frame, and sends as much of the response as the stream accepts without blocking. Returns
/// `Broken` if the stream or an allocation failed, or if the response got too long; then nothing was appended.
fn send_frame<L: Stream>(
    stream: &mut L,
    answer: &mut PendingResponse,
    bytes: &[u8],
) -> Result<(), Broken>
    requires { length bytes.now ≤ MAX_FRAME }
    ensures goes_out { IsGoingOut (stream_of L.held L.taken L.failed) stream.old answer.old → IsGoingOut (stream_of L.held L.taken L.failed) stream.new answer.new }
    ensures said { IsGoingOut (stream_of L.held L.taken L.failed) stream.old answer.old → OnOk result (output_of answer.new.bytes.items ≡ output_of answer.old.bytes.items ++ bytes.now) }
    ensures unsaid { OnErr result (answer.new.bytes.items ≡ answer.old.bytes.items) }
{
    deliver(stream, answer)?;
    if answer.bytes.len() >= MAX_ANSWER {
        return Err(Broken);
    }
    match put_output(&mut answer.bytes, bytes) {
        Ok(()) => {
            // If the stream fails now, the next call reports it.
            let _ = deliver(stream, answer);
            Ok(())
        }
        Err(_) => Err(Broken),
    }
}

impl<L: Stream> Sink for FrameSink<L> {
    ghost taken = { λ o. said_through (stream_of L.held L.taken L.failed) o };

    ghost failed = { λ o. o.failed };

    fn put(&mut self, bytes: &[u8]) -> Result<usize, Broken> {
        let count = bytes.len().min(MAX_FRAME);
        match send_frame(&mut self.stream, &mut self.answer, &bytes[..count]) {
            Ok(()) => Ok(count),
            Err(Broken) => {
                self.failed += 1;
                Err(Broken)
            }
        }
    }

    fn failures(&self) -> u64 {
        self.failed
    }
}
