//! The message of an order, received piece by piece from its connection.

ghost use Rattle.std.specs.Prelude.{◌≡◌, ◌+◌, None, Err, IfOk, IfSome, Ok, length, take, true};
ghost use Rattle.std.specs.Int.{from_be_bytes, w64};
ghost use Rattle.connections.specs.Streams.{Receives, HasFailed, stream_of};
ghost use Rattle.server.specs.ServedOrders.{IsWholeMessage};
ghost use Rattle.server.specs.Servicing.{FailsOnlyAsLost, IsSameClient};

use connections::{Client, CloseReason, ReadProgress, Stream};
use order_protocol::read_message_head;

/// The size of the length field that precedes a message, in bytes.
pub const LENGTH: usize = 8;

/// Returns the total size of a message in bytes, given its first eight bytes; `None` if the message is too long.
fn message_len(front: [u8; LENGTH]) -> Option<usize>
    ensures { IfSome result (λ n. n ≡ 8 + from_be_bytes w64 front) }
{
    match read_message_head(front) {
        Some(len) => Some(LENGTH + len),
        None => None,
    }
}

/// Reads the length of a message; returns `None` if it hasn't arrived yet. A connection that ends before the length has arrived
/// is closed.
fn receive_length<L: Stream>(client: &mut Client<L>) -> Result<Option<[u8; LENGTH]>, CloseReason>
    requires { client.old.answer ≡ None }
    ensures receives { Receives (stream_of L.held L.taken L.failed) client.old.stream client.new.stream client.old.got.items client.new.got.items }
    ensures same { IsSameClient client.old client.new × (client.new.answer ≡ None) }
    ensures front { IfOk result (λ found. IfSome found (λ front. front ≡ take 8 client.new.got.items)) }
    ensures broken { result ≡ Err CloseReason.Broken → HasFailed (L.failed client.new.stream) }
    ensures lost { FailsOnlyAsLost result }
{
    match client.receive(LENGTH)? {
        ReadProgress::Enough => Ok(client.got.as_slice().first_chunk().copied()),
        ReadProgress::Waits => Ok(None),
        ReadProgress::Ended => Err(CloseReason::Unreadable),
    }
}

/// Reads the message of an order, and returns whether the message is complete. Closes the connection if it ends too early or if
/// the message is too long.
pub fn receive_message<L: Stream>(client: &mut Client<L>) -> Result<bool, CloseReason>
    requires { client.old.answer ≡ None }
    ensures receives { Receives (stream_of L.held L.taken L.failed) client.old.stream client.new.stream client.old.got.items client.new.got.items }
    ensures same { IsSameClient client.old client.new × (client.new.answer ≡ None) }
    ensures come { result ≡ Ok true → IsWholeMessage client.new.got.items }
    ensures broken { result ≡ Err CloseReason.Broken → HasFailed (L.failed client.new.stream) }
    ensures lost { FailsOnlyAsLost result }
{
    let Some(front) = receive_length(client)? else {
        return Ok(false);
    };
    let Some(wanted) = message_len(front) else {
        return Err(CloseReason::Unreadable);
    };
    match client.receive(wanted)? {
        ReadProgress::Enough => Ok(true),
        ReadProgress::Waits => Ok(false),
        ReadProgress::Ended => Err(CloseReason::Unreadable),
    }
}
