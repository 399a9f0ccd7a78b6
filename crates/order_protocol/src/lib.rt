//! The protocol for sending an order to the server: the message, and the frames in which the output of the order is sent back.
//!
//! An [`OrderMessage`] has only one encoding, and whatever is decoded has that encoding.
#![tactic(auto)]

pub mod decoding;
pub mod encoding;
pub mod fault;
pub mod frames;
pub mod message_length;
pub mod order_message;

pub use decoding::decode_message;
pub use encoding::{encode_message, put_end_frame, put_error_frames, put_error_output, put_output};
pub use fault::{DecodeError, FormatError};
pub use frames::{FrameHead, FrameKind, MAX_FRAME, frame_part, read_frame_head};
pub use message_length::{MAX_MESSAGE, is_message_len, message_head, read_message_head};
pub use order_message::{MessagePart, OrderMessage};
