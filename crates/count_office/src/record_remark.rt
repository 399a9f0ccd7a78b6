//! What the program says of the second record of a served office to a person who has just copied the office, or switched to a mended one.
//!
//! The program that serves the office is asked for it, by the word `record`: only that may try out how much room is left (disk_room.rt).

use crate::notices::{tell_record, tell_record_until_switch};
use crate::order_client::{Sent, print_reply, send_order};
use crate::order_files::words_alone;
use crate::record_note::recorded_in;
use desk::Order;
use streams::Counted;

/// The word that asks for the second record. It isn't an order on the command line.
const WORD: &str = "record";

/// What the reply begins with if there is a second record.
const FRONT: &str = "second record: ";

/// An order that a served office was given, after which the program says where the office's second record is.
#[derive(Clone, Copy)]
enum RecordRemark {
    AfterCopy,
    AfterSwitch,
}

/// Returns how the program says where the second record is after an order; `None` if it doesn't.
fn remark_of(order: &Order<'_>) -> Option<RecordRemark> {
    match order {
        Order::Copy { .. } => Some(RecordRemark::AfterCopy),
        Order::Mend(asked) if asked.takes_over => Some(RecordRemark::AfterSwitch),
        _ => None,
    }
}

/// Asks the program that serves the office in a database for the second record. Returns where that is, which is the rest of a line, and
/// the lines that warn; `None` if there is none, or it can't be found out.
fn record_told(rt: &HostRuntime, database: &str) -> Option<String> {
    let alloc = rt.alloc();
    let asked = words_alone(alloc, &[database, WORD]).ok()?;
    let Sent::Replying(reply) = send_order(rt, database, &asked) else {
        return None;
    };
    let (mut replies, mut errors) = (Vec::new(alloc), Vec::new(alloc));
    let status = print_reply(
        alloc,
        reply,
        &mut Counted::new(&mut replies),
        &mut Counted::new(&mut errors),
    );
    if status != 0 {
        return None;
    }
    let text = str::from_utf8(replies.as_slice()).ok()?;
    String::from_str(alloc, text.strip_prefix(FRONT)?).ok()
}

/// Returns what is to be said of the second record after an order, if the office in a database is served with one; `None` if nothing is.
/// It is asked for before the order is sent, since a switch ends the record.
pub fn record_kept(rt: &HostRuntime, database: &str, order: &Order<'_>) -> Option<String> {
    remark_of(order)?;
    recorded_in(rt, database).ok()??;
    record_told(rt, database)
}

/// Prints what is to be said of the second record, if a copy or a switch has ended with status 0.
pub fn tell_kept(rt: &HostRuntime, order: &Order<'_>, status: u8, kept: &str) {
    let Some((place, warnings)) = kept.split_once("\n") else {
        return;
    };
    match remark_of(order) {
        Some(RecordRemark::AfterCopy) if status == 0 => tell_record(rt, place, warnings),
        Some(RecordRemark::AfterSwitch) if status == 0 => tell_record_until_switch(rt, place),
        _ => {}
    }
}
