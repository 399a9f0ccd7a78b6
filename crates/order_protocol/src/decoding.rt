//! Decoding messages.

ghost use Rattle.std.specs.Prelude.{◌≡◌, length, IfOk, Ok, option_map};
ghost use Rattle.std.specs.Int.{w32, w64};
ghost use Rattle.order_protocol.specs.Messages.{OrderMessageEntry, Fits, order_message_entry, message_part_entries, message_part_entry, encoding_of};
ghost use Rattle.order_protocol.specs.Reading.{Gives, order_message_in, list_at, number_at, optional_at, piece_at, pieces_at, string_at};

use crate::fault::{DecodeError, FormatError};
use crate::order_message::{MessagePart, OrderMessage};
use std::alloc::Global;

fn u32_at(bytes: &[u8]) -> Result<(u32, &[u8]), DecodeError>
    ensures { Gives (λ x. (x.0, x.1.now)) result (number_at w32 bytes.now) }
{
    if bytes.len() < 4 {
        return Err(DecodeError::FormatError(FormatError::Short));
    }
    let (front, rest) = bytes.split_at(4);
    let number = u32::from_be_bytes([front[0], front[1], front[2], front[3]]);
    Ok((number, rest))
}

fn u64_at(bytes: &[u8]) -> Result<(u64, &[u8]), DecodeError>
    ensures { Gives (λ x. (x.0, x.1.now)) result (number_at w64 bytes.now) }
{
    if bytes.len() < 8 {
        return Err(DecodeError::FormatError(FormatError::Short));
    }
    let (front, rest) = bytes.split_at(8);
    let number = u64::from_be_bytes([
        front[0], front[1], front[2], front[3], front[4], front[5], front[6], front[7],
    ]);
    Ok((number, rest))
}

#[tactic(auto, unfolding(crate::specs::Reading::string_at))]
fn string_of(bytes: &[u8]) -> Result<(&[u8], &[u8]), DecodeError>
    ensures { Gives (λ x. (x.0.now, x.1.now)) result (string_at bytes.now) }
{
    let (len, rest) = u32_at(bytes)?;
    let len = len as usize;
    if rest.len() < len {
        return Err(DecodeError::FormatError(FormatError::Short));
    }
    Ok(rest.split_at(len))
}

#[tactic(auto, unfolding(crate::specs::Reading::optional_at))]
fn optional_of(bytes: &[u8]) -> Result<(Option<&[u8]>, &[u8]), DecodeError>
    ensures { Gives (λ x. (option_map (λ b. b.now) x.0, x.1.now)) result (optional_at bytes.now) }
{
    match bytes {
        [] => Err(DecodeError::FormatError(FormatError::Short)),
        [0, rest @ ..] => Ok((None, rest)),
        [1, rest @ ..] => {
            let (text, rest) = string_of(rest)?;
            Ok((Some(text), rest))
        }
        [_, ..] => Err(DecodeError::FormatError(FormatError::Flag)),
    }
}

#[tactic(auto, unfolding(crate::specs::Reading::piece_at))]
fn piece_of(bytes: &[u8]) -> Result<(MessagePart<'_>, &[u8]), DecodeError>
    ensures { Gives (λ x. (message_part_entry x.0, x.1.now)) result (piece_at bytes.now) }
{
    let (name, rest) = string_of(bytes)?;
    let (bytes, rest) = optional_of(rest)?;
    Ok((MessagePart { name, bytes }, rest))
}

fn pieces_of(
    alloc: Global,
    count: u32,
    bytes: &[u8],
) -> Result<(Vec<MessagePart<'_>>, &[u8]), DecodeError>
    ensures { Gives (λ x. (message_part_entries x.0.items, x.1.now)) result (pieces_at count bytes.now) }
{
    let mut pieces = Vec::new(alloc);
    let mut rest = bytes;
    for _ in 0..count {
        let (piece, after) = piece_of(rest)?;
        pieces.push(piece)?;
        rest = after;
    }
    Ok((pieces, rest))
}

#[tactic(auto, unfolding(crate::specs::Reading::list_at))]
fn list_of(alloc: Global, bytes: &[u8]) -> Result<(Vec<MessagePart<'_>>, &[u8]), DecodeError>
    ensures { Gives (λ x. (message_part_entries x.0.items, x.1.now)) result (list_at bytes.now) }
{
    let (count, rest) = u32_at(bytes)?;
    pieces_of(alloc, count, rest)
}

#[tactic(auto, unfolding(crate::specs::Reading::order_message_in))]
fn all(alloc: Global, bytes: &[u8]) -> Result<OrderMessage<'_>, DecodeError>
    ensures { Gives order_message_entry result (order_message_in bytes.now) }
{
    let (version, rest) = string_of(bytes)?;
    let (device, rest) = u64_at(rest)?;
    let (inode, rest) = u64_at(rest)?;
    let (folder, rest) = string_of(rest)?;
    let (words, rest) = list_of(alloc, rest)?;
    let (files, rest) = list_of(alloc, rest)?;
    if !rest.is_empty() {
        return Err(DecodeError::FormatError(FormatError::Trailing));
    }
    Ok(OrderMessage {
        version,
        device,
        inode,
        folder,
        words,
        files,
    })
}

/// Decodes an order, which must consist of exactly the given bytes.
pub fn decode_message(alloc: Global, bytes: &[u8]) -> Result<OrderMessage<'_>, DecodeError>
    // Whatever is decoded has this encoding.
    ensures found { IfOk result (λ h. Fits (order_message_entry h) × (bytes.now ≡ encoding_of (order_message_entry h))) }
    // Every such encoding is decoded, unless an allocation fails.
    ensures only { (h : OrderMessageEntry) → Fits h → bytes.now ≡ encoding_of h → Gives order_message_entry result (Ok h) }
    // Specifies which error is returned.
    ensures exact { Gives order_message_entry result (order_message_in bytes.now) }
{
    all(alloc, bytes)
}
