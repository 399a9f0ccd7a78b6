//! The frames in which the server sends back the output of an order.

ghost use Rattle.std.specs.Prelude.{◌≡◌, ◌<◌, ◌^◌, ℕ, IfSome, Some, length, take};
ghost use Rattle.order_protocol.specs.Frames.{Frame, frame_bytes, frame_kind, head_bytes, kind_byte, max_frame, own_bytes};
ghost use Rattle.order_protocol.specs.Reading.{head_in, kind_in};

/// The maximum number of bytes of the output, or of the error output, in one frame.
pub const MAX_FRAME: usize = 65536;

/// The length of a frame's head, which consists of its kind and the number of bytes that follow.
pub const HEAD: usize = 5;

/// The kind of a frame.
#[derive(Clone, Copy, Debug, PartialEq, Eq)]
pub enum FrameKind {
    /// Bytes of the output.
    Output,
    /// The end: the status, followed by bytes of the error output.
    End,
    /// Bytes of the error output.
    ErrorOutput,
}

/// The head of a frame: its kind, and the number of bytes that follow.
#[derive(Clone, Copy, Debug, PartialEq, Eq)]
pub struct FrameHead {
    pub kind: FrameKind,
    pub len: u32,
}

impl FrameKind {
    /// Returns the byte for this kind.
    pub fn byte(self) -> u8
        ensures { result ≡ kind_byte self }
    {
        match self {
            FrameKind::Output => 1,
            FrameKind::End => 2,
            FrameKind::ErrorOutput => 3,
        }
    }
}

/// Returns the kind for the given byte, if there is one.
fn kind_of(byte: u8) -> Option<FrameKind>
    ensures { result ≡ kind_in byte }
{
    match byte {
        1 => Some(FrameKind::Output),
        2 => Some(FrameKind::End),
        3 => Some(FrameKind::ErrorOutput),
        _ => None,
    }
}

/// Decodes the head of a frame.
fn head_of(bytes: &[u8]) -> Option<FrameHead>
    requires { length bytes.now ≡ 5 }
    ensures found { IfSome result (λ head. bytes.now ≡ head_bytes head.kind head.len) }
    ensures exact { result ≡ head_in bytes.now }
{
    match kind_of(bytes[0]) {
        Some(kind) => {
            let len = u32::from_be_bytes([bytes[1], bytes[2], bytes[3], bytes[4]]);
            Some(FrameHead { kind, len })
        }
        None => None,
    }
}

/// Decodes the head of a frame. Returns `None` if the first byte is not a kind.
pub fn read_frame_head(bytes: [u8; 5]) -> Option<FrameHead>
    // Whatever is decoded has this encoding.
    ensures found { IfSome result (λ head. bytes ≡ head_bytes head.kind head.len) }
    // Every such encoding is decoded.
    ensures only { (kind : FrameKind) (len : ℕ) → len < 2 ^ 32 → bytes ≡ head_bytes kind len → result ≡ Some (record { kind = kind; len = len }) }
    // The first bytes of a frame determine its kind and the number of bytes that follow.
    ensures front { (frame : Frame) → length (own_bytes frame) < 2 ^ 32 → bytes ≡ take 5 (frame_bytes frame)
        → result ≡ Some (record { kind = frame_kind frame; len = length (own_bytes frame) }) }
    ensures exact { result ≡ head_in bytes }
{
    head_of(&bytes)
}

/// Returns as many of the first bytes as fit into one frame.
pub fn frame_part(bytes: &[u8]) -> &[u8]
    ensures { result.now ≡ take max_frame bytes.now }
{
    if bytes.len() > MAX_FRAME {
        &bytes[..MAX_FRAME]
    } else {
        bytes
    }
}
