//! The head of a request.

ghost use Rattle.std.specs.Prelude.{◌≡◌, ◌+◌, ◌-◌, ◌^◌, ◌<◌, ◌≤◌, IfErr, IfNone, IfOk, IfSome, OnErr, OnOk, length, take};
ghost use Rattle.std.specs.Io.KnownBytes.{Consumes};
ghost use Rattle.httparse.specs.Spans.{IsRequestOf, IsRequestWithin};
ghost use Rattle.wire.specs.Requests.{HasRead};
ghost use Rattle.wire.specs.Heads.{HasNoHead, IsHeadIncomplete};

use httparse::Status;
use httparse::spans::{HeaderSpan, RequestSpans, parse_request};
use streams::{Broken, Source};

/// The maximum size of a head, in bytes.
pub const MAX_HEAD_BYTES: usize = 8192;

/// The maximum number of headers in a head.
pub const MAX_HEADERS: usize = 32;

/// The spans of a head in the buffer that it was read into, and how much of the buffer is filled by the head and the bytes
/// after it.
#[derive(Clone, Copy)]
pub(crate) struct Front {
    pub spans: RequestSpans,
    pub filled: usize,
}

/// Reads until a head is complete. Returns `None` as soon as it can't become one.
///
/// Returns `Broken` only if the source fails while the head is still incomplete; the source's failure count is then one higher.
pub(crate) fn read_head<R: Source>(
    reader: &mut R,
    buffer: &mut [u8],
    headers: &mut [HeaderSpan],
) -> Result<Option<Front>, Broken>
    requires room { length buffer.old ≡ MAX_HEAD_BYTES }
    requires places { length headers.old ≡ MAX_HEADERS }
    requires failures { R.failed reader.old < 2 ^ 64 - 1 }
    ensures filled { IfOk result (λ found. IfSome found (λ front. front.filled ≤ MAX_HEAD_BYTES)) }
    ensures consumed { IfOk result (λ found. IfSome found (λ front. Consumes (R.held reader.old) (R.held reader.new) (take front.filled buffer.new))) }
    ensures head { IfOk result (λ found. IfSome found (λ front. IsRequestOf (take front.filled buffer.new) headers.new front.spans)) }
    ensures within { IfOk result (λ found. IfSome found (λ front. IsRequestWithin (take front.filled buffer.new) headers.new front.spans)) }
    ensures none { IfOk result (λ found. IfNone found (IfSome (R.held reader.old) HasNoHead)) }
    ensures ok { OnOk result (R.failed reader.new ≡ R.failed reader.old) }
    ensures err { OnErr result (R.failed reader.new ≡ R.failed reader.old + 1) }
    ensures wanting { OnErr result (HasRead (R.held reader.old) (R.held reader.new) IsHeadIncomplete) }
{
    let mut filled = 0;
    'reading: loop {
        match parse_request(&buffer[..filled], headers) {
            Ok(Status::Complete(spans)) => return Ok(Some(Front { spans, filled })),
            Ok(Status::Partial) => {}
            Err(_) => return Ok(None),
        }
        if filled == buffer.len() {
            return Ok(None);
        }
        match reader.fetch(&mut buffer[filled..])? {
            0 => return Ok(None),
            n => filled += n,
        }
    }
}
