//! What an order asks the server to do.

ghost use Rattle.std.specs.Prelude.{◌≡◌, ◌⊎◌, ◌↔◌, Bool, IfErr, IfOk, Option, map, true};
ghost use Rattle.std.specs.List.{list_all};
ghost use Rattle.std.specs.Str.{is_utf8};
ghost use Rattle.order_protocol.specs.Messages.{OrderMessageEntry, Fits, order_message_entry, encoding_of};
ghost use Rattle.server.specs.ServedOrders.{AsksSo, IsForFile, asks_for_record};

use crate::server_settings::FileNumbers;
use desk::version::VERSION;
use desk::{Failure, Job, MendOrder, Order, PublishOrder, Task, WordsFault, order};
use order_protocol::{DecodeError, MessagePart, OrderMessage, decode_message};
use std::alloc::Global;
use store::Fault;

/// What an order asks the server to do.
#[derive(Drop)]
pub enum ServedOrder<'a> {
    /// To do this job in the office.
    Do(Job<'a>),
    /// To copy the office to a new file at this path.
    Copy(&'a str),
    /// To print the journal of the office.
    Journal,
    /// A new office from that journal, in a new file, with some orders left out and others replaced.
    Mend(MendOrder<'a>),
    /// To compare the office with the second record in the file that was sent for this path.
    Second(&'a str),
    /// To print where the second record of the office is.
    Record,
    /// To publish the results in a new folder.
    Publish(PublishOrder<'a>),
    /// Nothing: the order isn't carried out, for the given reason.
    Refused(Failure),
    /// Nothing: its words aren't an order.
    Misread(WordsFault),
}

/// Decodes the order in a message. Fails if an allocation fails, or if the bytes aren't a message.
pub fn read_message<'b>(alloc: Global, message: &'b [u8]) -> Result<OrderMessage<'b>, Fault>
    ensures ok { IfOk result (λ h. Fits (order_message_entry h) × (message.now ≡ encoding_of (order_message_entry h))) }
    ensures err { IfErr result (λ fault. (fault ≡ Fault.Memory) ⊎ ((fault ≡ Fault.Store) × ((h : OrderMessageEntry) → Fits h → message.now ≡ encoding_of h → ⊥))) }
{
    match decode_message(alloc, message) {
        Ok(handed) => Ok(handed),
        Err(DecodeError::Memory) => Err(Fault::Memory),
        Err(DecodeError::FormatError(_)) => Err(Fault::Store),
    }
}

/// Returns the words of an order. Fails if an allocation fails, or if a word isn't UTF-8.
pub fn words_of<'b>(alloc: Global, words: &[MessagePart<'b>]) -> Result<Vec<&'b str>, Fault>
    ensures ok { IfOk result (λ texts. map (λ text. text.now) texts.items ≡ map (λ p. p.name.now) words.now) }
    ensures err { IfErr result (λ fault. (fault ≡ Fault.Memory) ⊎ ((fault ≡ Fault.Store) × (list_all is_utf8 (map (λ p. p.name.now) words.now) ≡ true → ⊥))) }
{
    let mut texts = Vec::new(alloc);
    for word in words {
        match str::from_utf8(word.name) {
            Ok(text) => {
                if texts.push(text).is_err() {
                    return Err(Fault::Memory);
                }
            }
            Err(_) => return Err(Fault::Store),
        }
    }
    Ok(texts)
}

/// Returns whether an order is from this version of the program, and for the file that is served.
pub fn is_for_file(handed: &OrderMessage<'_>, file: FileNumbers) -> bool
    ensures { (result ≡ true) ↔ IsForFile file (order_message_entry handed.now) }
{
    handed.version == VERSION.as_bytes()
        && handed.device == file.device
        && handed.inode == file.inode
}

/// Returns whether the words, after DB, are only `record`: where the second record of the office is. Nothing but a server has it, so this
/// isn't an order on the command line.
fn asks_for_record(words: &[&str]) -> bool
    ensures { result ≡ asks_for_record (map (λ word. word.now) words.now) }
{
    match words {
        [_, word] => *word == "record",
        _ => false,
    }
}

/// Returns what an order for the served file asks for. The orders `init`, `migrate`, `serve`, `codes` and `forms slips` are
/// refused, because the office is being served. (On the command line, the program carries out the last two without the server.)
pub fn served_order_by<'w>(alloc: Global, words: &'w [&'w str]) -> ServedOrder<'w>
    ensures { (whole : Option Bool) (recorded : Bool) → AsksSo whole recorded (map (λ word. word.now) words.entry.now) result }
{
    if asks_for_record(words) {
        return ServedOrder::Record;
    }
    match order(alloc, words) {
        Ok(Order::Perform(Task::InOffice(job))) => ServedOrder::Do(job),
        Ok(Order::Copy { path }) => ServedOrder::Copy(path),
        Ok(Order::Journal) => ServedOrder::Journal,
        Ok(Order::Mend(asked)) => ServedOrder::Mend(asked),
        Ok(Order::Second { path }) => ServedOrder::Second(path),
        Ok(Order::Publish(asked)) => ServedOrder::Publish(asked),
        Ok(
            Order::Perform(Task::Init | Task::Migrate)
            | Order::Serve { .. }
            | Order::Codes { .. }
            | Order::Slips { .. },
        ) => { ServedOrder::Refused(Failure::BeingServed) }
        Err(fault) => ServedOrder::Misread(fault),
    }
}
