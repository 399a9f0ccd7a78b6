//! An order for a database that another program serves. The order is sent to that program, and the reply is printed as it
//! arrives.

ghost use Rattle.std.specs.Prelude.{◌≡◌, ◌≢◌, ◌-◌, ◌^◌, ◌<◌, ◌≤◌, Err, IfOk, IfSome, Ok, OnErr, length, true};
ghost use Rattle.order_protocol.specs.Messages.{PieceFits, PiecesFit, message_part_entries, message_part_entry};

use crate::order_files::{OrderFiles, OrderPart};
use crate::order_socket;
use desk::version::VERSION;
use desk::{Failure, tell_failure};
use order_protocol::{
    FrameHead, FrameKind, MAX_MESSAGE, MessagePart, OrderMessage, encode_message, is_message_len,
    message_head, read_frame_head,
};
use std::alloc::{AllocError, Global};
use std::io::{self, ErrorKind, Read, Write};
use std::os::unix::fs::MetadataExt;
use std::os::unix::net::UnixStream;
use std::{env, fs};
use store::Fault;
use streams::{Sink, put_all};

/// The maximum number of bytes to read from a frame at once.
const CHUNK: usize = 8192;

/// Returns a word or a file as part of a message; `None` if it is longer than a message may be.
fn piece_of(part: &OrderPart) -> Option<MessagePart<'_>>
    ensures { IfSome result (λ piece. PieceFits (message_part_entry piece)) }
{
    let name = part.name.as_bytes();
    if name.len() > MAX_MESSAGE {
        return None;
    }
    match &part.bytes {
        Some(bytes) if bytes.len() > MAX_MESSAGE => None,
        Some(bytes) => Some(MessagePart {
            name,
            bytes: Some(bytes.as_slice()),
        }),
        None => Some(MessagePart { name, bytes: None }),
    }
}

/// Returns the words or files as parts of a message; `None` if one of them is longer than a message may be, or if there are too
/// many.
fn fitting_parts(
    alloc: Global,
    parts: &[OrderPart],
) -> Result<Option<Vec<MessagePart<'_>>>, AllocError>
    ensures { IfOk result (λ found. IfSome found (λ pieces. PiecesFit (message_part_entries pieces.items))) }
{
    let mut pieces = Vec::new(alloc);
    for part in parts {
        match piece_of(part) {
            Some(piece) => pieces.push(piece)?,
            None => return Ok(None),
        }
    }
    if pieces.len() > MAX_MESSAGE {
        return Ok(None);
    }
    Ok(Some(pieces))
}

/// Returns the words or files as parts of a message, or why they can't be sent.
fn pieces_of(alloc: Global, parts: &[OrderPart]) -> Result<Vec<MessagePart<'_>>, Fault>
    ensures { IfOk result (λ pieces. PiecesFit (message_part_entries pieces.items)) }
{
    match fitting_parts(alloc, parts) {
        Ok(Some(pieces)) => Ok(pieces),
        Ok(None) => Err(Fault::Store),
        Err(AllocError) => Err(Fault::Memory),
    }
}

/// Returns the message with an order for the database at a path, or why there is none.
fn message_of(
    rt: &HostRuntime,
    database: &str,
    order_files: &OrderFiles,
) -> Result<Vec<u8>, Fault> {
    let Ok(found) = fs::metadata(rt, database) else {
        return Err(Fault::Store);
    };
    let Ok(folder) = env::current_dir(rt) else {
        return Err(Fault::Store);
    };
    if folder.as_str().len() > MAX_MESSAGE {
        return Err(Fault::Store);
    }
    let words = pieces_of(rt.alloc(), &order_files.words)?;
    let files = pieces_of(rt.alloc(), &order_files.files)?;
    let message = OrderMessage {
        version: VERSION.as_bytes(),
        device: found.dev(),
        inode: found.ino(),
        folder: folder.as_str().as_bytes(),
        words,
        files,
    };
    match encode_message(rt.alloc(), &message) {
        Ok(message) if is_message_len(message.len()) => Ok(message),
        Ok(_) => Err(Fault::Store),
        Err(_) => Err(Fault::Memory),
    }
}

/// Reads the head of the next frame. A frame of an unknown kind is an error.
fn frame_in(stream: &mut UnixStream) -> io::Result<FrameHead> {
    let mut head = [0; 5];
    stream.read_exact(&mut head)?;
    read_frame_head(head).ok_or(io::Error::from(ErrorKind::InvalidData))
}

/// Why printing a reply ended early.
#[derive(Clone, Copy)]
enum ReplyError {
    /// The server closed the connection, or sent something invalid.
    Server,
    /// The output failed.
    Output,
    /// An allocation for a line failed.
    Memory,
}

/// What has been received for the two outputs but not printed yet: for each, the beginning of a line.
#[derive(Drop)]
struct PartialLines {
    out: Vec<u8>,
    err: Vec<u8>,
}

/// Returns how many of the given bytes make up complete lines.
fn whole_lines(bytes: &[u8]) -> usize
    ensures { result ≤ length bytes.now }
{
    let mut whole = 0;
    for (place, byte) in bytes.iter().enumerate() {
        if *byte == b'\n' {
            whole = place + 1;
        }
    }
    whole
}

/// Appends bytes to an incomplete line, prints the lines that are now complete, and keeps the rest. If a reply is cut off, no
/// partial line is printed.
fn print_lines<O: Sink>(line: &mut Vec<u8>, bytes: &[u8], out: &mut O) -> Result<(), ReplyError>
    requires { O.failed out.old < 2 ^ 64 - 1 }
    ensures { result ≢ Err ReplyError.Output → O.failed out.new ≡ O.failed out.old }
{
    if line.extend_from_slice(bytes).is_err() {
        return Err(ReplyError::Memory);
    }
    let whole = whole_lines(line.as_slice());
    if put_all(out, &line[..whole]).is_err() {
        return Err(ReplyError::Output);
    }
    let rest = line.len() - whole;
    line.rotate_left(whole);
    line.truncate(rest);
    Ok(())
}

/// Prints the given number of bytes as they arrive, line by line.
fn print_output_frame<O: Sink>(
    stream: &mut UnixStream,
    len: u32,
    line: &mut Vec<u8>,
    out: &mut O,
) -> Result<(), ReplyError>
    requires { O.failed out.old < 2 ^ 64 - 1 }
    ensures { result ≢ Err ReplyError.Output → O.failed out.new ≡ O.failed out.old }
{
    let mut left = len as usize;
    let mut room = [0; CHUNK];
    while left > 0 {
        let wanted = left.min(CHUNK);
        match stream.read(&mut room[..wanted]) {
            Ok(0) | Err(_) => return Err(ReplyError::Server),
            Ok(count) => {
                print_lines(line, &room[..count], out)?;
                left -= count;
            }
        }
    }
    Ok(())
}

/// Prints the given number of bytes to the error output as they arrive. Returns whether the error output accepted them.
fn print_error<E: Sink>(
    stream: &mut UnixStream,
    len: u32,
    line: &mut Vec<u8>,
    err: &mut E,
) -> Result<bool, ReplyError>
    requires { E.failed err.old < 2 ^ 64 - 1 }
    ensures unfailed { result ≡ Ok true → E.failed err.new ≡ E.failed err.old }
    ensures err { OnErr result (E.failed err.new ≡ E.failed err.old) }
{
    match print_output_frame(stream, len, line, err) {
        Ok(()) => Ok(true),
        Err(ReplyError::Output) => Ok(false),
        Err(ReplyError::Server) => Err(ReplyError::Server),
        Err(ReplyError::Memory) => Err(ReplyError::Memory),
    }
}

/// Returns the status of an order from its last frame, after printing the rest of that frame to the error output, along with
/// any incomplete line of either output. If the error output fails, the status is 3.
fn print_end_frame<O: Sink, E: Sink>(
    stream: &mut UnixStream,
    len: u32,
    unfinished: &mut PartialLines,
    out: &mut O,
    err: &mut E,
) -> Result<u8, ReplyError>
    requires out { O.failed out.old < 2 ^ 64 - 1 }
    requires err { E.failed err.old < 2 ^ 64 - 1 }
    ensures { OnErr result (E.failed err.new ≡ E.failed err.old) }
{
    let mut status = [0];
    if stream.read_exact(&mut status).is_err() {
        return Err(ReplyError::Server);
    }
    if put_all(out, unfinished.out.as_slice()).is_err() {
        return Err(ReplyError::Output);
    }
    if !print_error(stream, len.saturating_sub(1), &mut unfinished.err, err)? {
        return Ok(3);
    }
    match put_all(err, unfinished.err.as_slice()) {
        Ok(()) => Ok(status[0]),
        Err(_) => Ok(3),
    }
}

/// Prints the reply to an order, line by line as it arrives, starting with its first frame, and returns the order's status.
fn print_frames<O: Sink, E: Sink>(
    alloc: Global,
    stream: &mut UnixStream,
    first: FrameHead,
    out: &mut O,
    err: &mut E,
) -> Result<u8, ReplyError>
    requires out { O.failed out.old < 2 ^ 64 - 1 }
    requires err { E.failed err.old < 2 ^ 64 - 1 }
    ensures { OnErr result (E.failed err.new ≡ E.failed err.old) }
{
    let mut unfinished = PartialLines {
        out: Vec::new(alloc),
        err: Vec::new(alloc),
    };
    let mut frame = first;
    for _ in 0..u64::MAX {
        match frame.kind {
            FrameKind::Output => print_output_frame(stream, frame.len, &mut unfinished.out, out)?,
            FrameKind::ErrorOutput => {
                if !print_error(stream, frame.len, &mut unfinished.err, err)? {
                    return Ok(3);
                }
            }
            FrameKind::End => return print_end_frame(stream, frame.len, &mut unfinished, out, err),
        }
        frame = match frame_in(stream) {
            Ok(next) => next,
            Err(_) => return Err(ReplyError::Server),
        };
    }
    Err(ReplyError::Server)
}

/// Sends a message, preceded by its length.
fn send(stream: &mut UnixStream, message: &[u8]) -> io::Result<()> {
    stream.write_all(&message_head(message.len()))?;
    stream.write_all(message)
}

/// The reply to an order: its connection, and its first frame.
#[derive(Drop)]
pub struct OrderReply {
    stream: UnixStream,
    first: FrameHead,
}

/// The outcome of sending an order.
#[derive(Drop)]
pub enum Sent {
    /// A server has begun to reply.
    Replying(OrderReply),
    /// No program serves the database; or the server closed the connection before it had read the whole order, and so can't
    /// have performed it.
    Unread,
    /// The order wasn't sent, because of this fault; or the server disconnected after it had read the order, and may have
    /// performed it.
    Failed(Fault),
}

/// Waits for the first frame of the reply. If the connection is reset, the server closed it before it had read the whole
/// message.
fn reply_in(mut stream: UnixStream) -> Sent {
    match frame_in(&mut stream) {
        Ok(first) => Sent::Replying(OrderReply { stream, first }),
        Err(error) if error.kind() == ErrorKind::ConnectionReset => Sent::Unread,
        Err(_) => Sent::Failed(Fault::Store),
    }
}

/// Sends an order for the database at a path to the program that serves it, and waits for the first frame of the reply.
pub fn send_order(rt: &HostRuntime, database: &str, order_files: &OrderFiles) -> Sent {
    let Some(mut stream) = order_socket::reach(rt, database) else {
        return Sent::Unread;
    };
    let message = match message_of(rt, database, order_files) {
        Ok(message) => message,
        Err(fault) => return Sent::Failed(fault),
    };
    // Even a server that stops reading may have said why in a reply, so the reply is read in any case.
    let _ = send(&mut stream, &message);
    reply_in(stream)
}

/// Prints the rest of a reply, and returns the order's status. If the server disconnects before the end, prints fault 102; the
/// order should then be sent again.
pub fn print_reply<O: Sink, E: Sink>(
    alloc: Global,
    reply: OrderReply,
    out: &mut O,
    err: &mut E,
) -> u8
    requires out { O.failed out.old < 2 ^ 64 - 1 }
    requires err { E.failed err.old < 2 ^ 64 - 1 }
{
    let OrderReply { mut stream, first } = reply;
    match print_frames(alloc, &mut stream, first, out, err) {
        Ok(status) => status,
        Err(ReplyError::Memory) => tell_failure(Failure::Office(Fault::Memory), err),
        Err(ReplyError::Server) => tell_failure(Failure::Office(Fault::Store), err),
        Err(ReplyError::Output) => tell_failure(Failure::Output, err),
    }
}
