//! The length that precedes a message.

ghost use Rattle.std.specs.Prelude.{◌≡◌, ◌≤◌, ◌↔◌, ℕ, IfSome, IsTrue, Some};
ghost use Rattle.std.specs.Int.{from_be_bytes, to_be_bytes, w64};
ghost use Rattle.order_protocol.specs.Frames.{max_message};
ghost use Rattle.order_protocol.specs.Reading.{message_len_in};

/// The maximum number of bytes in an order that is sent to the server.
pub const MAX_MESSAGE: usize = 32 << 20;

/// Returns true if an order of the given length, or a part of one, can be sent to the server.
pub fn is_message_len(len: usize) -> bool
    ensures { IsTrue result ↔ (len ≤ max_message) }
{
    len <= MAX_MESSAGE
}

/// Returns the bytes that precede a message, which encode its length.
pub fn message_head(len: usize) -> [u8; 8]
    ensures { result ≡ to_be_bytes w64 len }
{
    (len as u64).to_be_bytes()
}

/// Decodes the length of a message. Returns `None` if it is too long.
pub fn read_message_head(bytes: [u8; 8]) -> Option<usize>
    ensures found { IfSome result (λ len. (len ≡ from_be_bytes w64 bytes) × (len ≤ max_message)) }
    // Every encoded length is decoded.
    ensures only { (len : ℕ) → len ≤ max_message → bytes ≡ to_be_bytes w64 len → result ≡ Some len }
    ensures exact { result ≡ message_len_in bytes }
{
    let len = u64::from_be_bytes(bytes) as usize;
    if len <= MAX_MESSAGE { Some(len) } else { None }
}
