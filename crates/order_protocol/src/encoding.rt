//! Encoding messages and frames.

ghost use Rattle.std.specs.Prelude.{◌≡◌, ◌+◌, ◌<◌, ◌^◌, ◌++◌, ◌∷◌, [], length, take, IfOk, IfSome, OnErr, OnOk, option_map};
ghost use Rattle.order_protocol.specs.Frames.{AreWhole, IsOver, SaysMore, frame_bytes, kind_byte, over, said, said_err};
ghost use Rattle.order_protocol.specs.Messages.{Fits, PieceFits, PiecesFit, order_message_entry, optional, piece, message_part_entries, message_part_entry, pieces, encoding_of, string};

use crate::frames::{FrameKind, HEAD, frame_part};
use crate::order_message::{MessagePart, OrderMessage};
use std::alloc::{AllocError, Global};

fn put_string(out: &mut Vec<u8>, bytes: &[u8]) -> Result<(), AllocError>
    requires { length bytes.now < 2 ^ 32 }
    ensures { OnOk result (out.new.items ≡ out.old.items ++ string bytes.now) }
{
    out.extend_from_slice(&(bytes.len() as u32).to_be_bytes())?;
    out.extend_from_slice(bytes)?;
    Ok(())
}

fn put_optional(out: &mut Vec<u8>, bytes: Option<&[u8]>) -> Result<(), AllocError>
    requires { IfSome bytes (λ b. length b.now < 2 ^ 32) }
    ensures { OnOk result (out.new.items ≡ out.old.items ++ optional (option_map (λ b. b.now) bytes.entry)) }
{
    match bytes {
        None => {
            out.push(0)?;
            Ok(())
        }
        Some(bytes) => {
            out.push(1)?;
            put_string(out, bytes)
        }
    }
}

fn put_piece(out: &mut Vec<u8>, p: &MessagePart<'_>) -> Result<(), AllocError>
    requires { PieceFits (message_part_entry p.now) }
    ensures { OnOk result (out.new.items ≡ out.old.items ++ piece (message_part_entry p.now)) }
{
    put_string(out, p.name)?;
    put_optional(out, p.bytes)
}

fn put_pieces(out: &mut Vec<u8>, ps: &[MessagePart<'_>]) -> Result<(), AllocError>
    requires { PiecesFit (message_part_entries ps.now) }
    ensures { OnOk result (out.new.items ≡ out.old.items ++ pieces (message_part_entries ps.now)) }
{
    out.extend_from_slice(&(ps.len() as u32).to_be_bytes())?;
    for p in ps {
        put_piece(out, p)?;
    }
    Ok(())
}

/// Returns the encoding of an order.
pub fn encode_message(alloc: Global, message: &OrderMessage<'_>) -> Result<Vec<u8>, AllocError>
    requires { Fits (order_message_entry message.now) }
    ensures { IfOk result (λ v. v.items ≡ encoding_of (order_message_entry message.now)) }
{
    let mut out = Vec::new(alloc);
    put_string(&mut out, message.version)?;
    out.extend_from_slice(&message.device.to_be_bytes())?;
    out.extend_from_slice(&message.inode.to_be_bytes())?;
    put_string(&mut out, message.folder)?;
    put_pieces(&mut out, &message.words)?;
    put_pieces(&mut out, &message.files)?;
    Ok(out)
}

/// Appends a frame of the given kind that contains the given bytes.
fn put_frame(out: &mut Vec<u8>, kind: FrameKind, bytes: &[u8]) -> Result<(), AllocError>
    requires { length bytes.now < 2 ^ 32 }
    ensures put { OnOk result (out.new.items ≡ out.old.items ++ kind_byte kind ∷ string bytes.now) }
    ensures err { OnErr result (out.new.items ≡ out.old.items) }
{
    out.reserve(bytes.len() + HEAD)?;
    out.push(kind.byte())?;
    out.extend_from_slice(&(bytes.len() as u32).to_be_bytes())?;
    out.extend_from_slice(bytes)?;
    Ok(())
}

/// Appends the last frame, which contains a status and the given bytes.
fn put_end(out: &mut Vec<u8>, status: u8, err: &[u8]) -> Result<(), AllocError>
    requires { length err.now + 1 < 2 ^ 32 }
    ensures put { OnOk result (out.new.items ≡ out.old.items ++ frame_bytes (over status err.now)) }
    ensures kept { OnErr result (out.new.items ≡ out.old.items) }
{
    let length = err.len() as u32 + 1;
    out.reserve(err.len() + HEAD + 1)?;
    out.push(FrameKind::End.byte())?;
    out.extend_from_slice(&length.to_be_bytes())?;
    out.push(status)?;
    out.extend_from_slice(err)?;
    Ok(())
}

/// Appends a frame that contains bytes of the output.
pub fn put_output(out: &mut Vec<u8>, bytes: &[u8]) -> Result<(), AllocError>
    requires { length bytes.now < 2 ^ 32 }
    ensures said { OnOk result (out.new.items ≡ out.old.items ++ frame_bytes (said bytes.now)) }
    ensures decoded { OnOk result (AreWhole out.old.items → SaysMore out.old.items out.new.items bytes.now []) }
    ensures err { OnErr result (out.new.items ≡ out.old.items) }
{
    put_frame(out, FrameKind::Output, bytes)?;
    Ok(())
}

/// Appends a frame that contains bytes of the error output.
pub fn put_error_output(out: &mut Vec<u8>, bytes: &[u8]) -> Result<(), AllocError>
    requires { length bytes.now < 2 ^ 32 }
    ensures said { OnOk result (out.new.items ≡ out.old.items ++ frame_bytes (said_err bytes.now)) }
    ensures decoded { OnOk result (AreWhole out.old.items → SaysMore out.old.items out.new.items [] bytes.now) }
    ensures err { OnErr result (out.new.items ≡ out.old.items) }
{
    put_frame(out, FrameKind::ErrorOutput, bytes)?;
    Ok(())
}

/// Appends the last frame, which contains the status and bytes of the error output.
pub fn put_end_frame(out: &mut Vec<u8>, status: u8, err: &[u8]) -> Result<(), AllocError>
    requires { length err.now + 1 < 2 ^ 32 }
    ensures over { OnOk result (out.new.items ≡ out.old.items ++ frame_bytes (over status err.now)) }
    ensures decoded { OnOk result (AreWhole out.old.items → SaysMore out.old.items out.new.items [] err.now × IsOver out.new.items status err.now) }
    ensures kept { OnErr result (out.new.items ≡ out.old.items) }
{
    put_end(out, status, err)?;
    Ok(())
}

/// Appends frames that contain bytes of the error output, until an allocation fails.
fn put_err_parts(out: &mut Vec<u8>, bytes: &[u8]) -> Result<(), AllocError>
    ensures behind { take (length out.old.items) out.new.items ≡ out.old.items }
    ensures decoded { OnOk result (AreWhole out.old.items → SaysMore out.old.items out.new.items [] bytes.now) }
{
    let mut at = 0;
    while at < bytes.len() {
        let part = frame_part(&bytes[at..]);
        put_error_output(out, part)?;
        at += part.len();
    }
    Ok(())
}

/// Appends frames that contain bytes of the error output, at most 64 KiB each. If an allocation fails, appends nothing.
pub fn put_error_frames(out: &mut Vec<u8>, bytes: &[u8]) -> Result<(), AllocError>
    ensures begins { take (length out.old.items) out.new.items ≡ out.old.items }
    ensures decoded { OnOk result (AreWhole out.old.items → SaysMore out.old.items out.new.items [] bytes.now) }
    ensures err { OnErr result (out.new.items ≡ out.old.items) }
{
    let start = out.len();
    match put_err_parts(out, bytes) {
        Ok(()) => Ok(()),
        Err(error) => {
            out.truncate(start);
            Err(error)
        }
    }
}
