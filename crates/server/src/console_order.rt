//! The response to an order from the console. The order is processed in the open office, just like an order that is handed
//! over, and its output is returned in one response.

ghost use Rattle.std.specs.Prelude.{◌≡◌, [], IfOk, false, map, string_bytes, true};
ghost use Rattle.sqlite.specs.Held.{state};
ghost use Rattle.order_protocol.specs.Messages.{message_part_entries};
ghost use Rattle.wire.specs.ConsoleOrders.{console_file_entry, console_order_entry};
ghost use Rattle.wire.specs.Told.{IsTold};
ghost use Rattle.server.specs.RecordChanges.{change_of};
ghost use Rattle.server.specs.Settings.{settings_by};
ghost use Rattle.server.specs.ServedOrders.{Follows};
ghost use Rattle.server.specs.ConsoleOrders.{FollowsEntry, HasPrinted, printed_response, sent_file, typed_words};

use crate::order_response::{AttachedFiles, OrderContext, do_asked, order_or_reason};
use crate::served_file::ServedFile;
use crate::served_order::ServedOrder;
use crate::server_settings::ServerSettings;
use connections::VecSink;
use desk::{Failure, Recorder};
use office::Office;
use order_protocol::MessagePart;
use sqlite::Alter;
use std::alloc::{AllocError, Global};
use store::Fault;
use wire::{ConsoleFile, ConsoleOrder, Response};

/// The words of an order, as typed, and the files sent with it.
#[derive(Drop)]
struct ReadOrder<'a> {
    words: Vec<&'a str>,
    files: Vec<MessagePart<'a>>,
}

/// Returns the words of an order, as typed; the first one is DB. The only error is a failed allocation.
fn typed_words<'a>(alloc: Global, words: &'a [String]) -> Result<Vec<&'a str>, AllocError>
    ensures { IfOk result (λ texts. map (λ text. text.now) texts.items ≡ typed_words (map string_bytes words.now)) }
{
    let mut texts = vec![in alloc; "DB"]?;
    for word in words {
        texts.push(word.as_str())?;
    }
    Ok(texts)
}

/// Returns the files of an order, in the form that a message's files have. The only error is a failed allocation.
fn files_of<'a>(alloc: Global, files: &'a [ConsoleFile]) -> Result<Vec<MessagePart<'a>>, AllocError>
    ensures { IfOk result (λ parts. message_part_entries parts.items ≡ map sent_file (map console_file_entry files.now)) }
{
    let mut parts = Vec::new(alloc);
    for file in files {
        parts.push(MessagePart {
            name: file.name.as_bytes(),
            bytes: Some(file.text.as_bytes()),
        })?;
    }
    Ok(parts)
}

/// Returns the words of an order, as typed, and its files. The only error is a failed allocation.
fn read_order<'a>(alloc: Global, order: &'a ConsoleOrder) -> Result<ReadOrder<'a>, AllocError>
    ensures words { IfOk result (λ read. map (λ text. text.now) read.words.items ≡ typed_words (map string_bytes order.now.words.items)) }
    ensures files { IfOk result (λ read. message_part_entries read.files.items ≡ map sent_file (map console_file_entry order.now.files.items)) }
{
    let words = typed_words(alloc, &order.words)?;
    let files = files_of(alloc, &order.files)?;
    Ok(ReadOrder { words, files })
}

/// Returns the response with what an order printed to its two outputs, and with its status. If either output isn't UTF-8,
/// returns the response saying that the output failed (107).
fn printed_response(alloc: Global, status: u8, out: &[u8], err: &[u8]) -> Response
    ensures { IsTold (printed_response status out.now err.now) result }
{
    match str::from_utf8(out) {
        Ok(output) => match str::from_utf8(err) {
            Ok(errors) => Response::of_order(alloc, status, output, errors),
            Err(_) => Response::output_failed(),
        },
        Err(_) => Response::output_failed(),
    }
}

/// Carries out an order, and returns the response with its output.
fn follow_asked<A: ServedFile, S: Alter, R: Recorder>(
    order: &OrderContext<'_, A>,
    office: &mut Office<S>,
    recorder: &mut R,
) -> Response
    ensures followed { Follows (state S.Store) (change_of R.found R.failed recorder.old recorder.new) office.old (message_part_entries order.now.attached.files.now) order.now.asked.now
        (λ cut page. HasPrinted cut page result) office.new }
    ensures same { R.records recorder.new ≡ R.records recorder.old }
    ensures fails { R.failed recorder.old ≡ false → R.failed recorder.new ≡ true → R.records recorder.old ≡ true }
{
    let mut out = VecSink::new(order.alloc);
    let mut err = VecSink::new(order.alloc);
    let status = do_asked(order, office, recorder, &mut out, &mut err);
    let output = out.into_bytes();
    let errors = err.into_bytes();
    printed_response(order.alloc, status, output.as_slice(), errors.as_slice())
}

/// Returns the response to an order that isn't carried out because an allocation failed.
fn reject_out_of_memory<A: ServedFile, S: Alter, R: Recorder>(
    alloc: Global,
    served_file: &A,
    office: &mut Office<S>,
    recorder: &mut R,
) -> Response
    ensures followed { Follows (state S.Store) (change_of R.found R.failed recorder.old recorder.new) office.old [] (ServedOrder.Refused (Failure.Office Fault.Memory))
        (λ cut page. HasPrinted cut page result) office.new }
    ensures same { R.records recorder.new ≡ R.records recorder.old }
    ensures fails { R.failed recorder.old ≡ false → R.failed recorder.new ≡ true → R.records recorder.old ≡ true }
{
    let order = OrderContext {
        alloc,
        served_file,
        asked: &ServedOrder::Refused(Failure::Office(Fault::Memory)),
        attached: AttachedFiles {
            folder: None,
            files: &[],
        },
    };
    follow_asked(&order, office, recorder)
}

/// Processes an order from the console in the office, and returns the response with both its output and its error output. A
/// closed office stays as it is.
///
/// The files that the order names are those sent with it, and no others. A copy, a new office or a folder of results is made
/// only at a bare name, without a folder. The orders `init`, `migrate`, `serve`, `codes` and `forms slips` aren't carried out, because the office is
/// being served (111). If the record has failed, no job is carried out (112).
pub fn answer_console<A: ServedFile, S: Alter, R: Recorder>(
    alloc: Global,
    server_settings: ServerSettings<'_, A>,
    order: &ConsoleOrder,
    office: &mut Office<S>,
    recorder: &mut R,
) -> Response
    ensures followed { FollowsEntry (settings_by A.whole (R.records recorder.old) server_settings.entry) (state S.Store) (change_of R.found R.failed recorder.old recorder.new) office.old
        (console_order_entry order.now) (λ cut page. HasPrinted cut page result) office.new }
    ensures same { R.records recorder.new ≡ R.records recorder.old }
{
    let served_file = server_settings.served_file;
    let read = match read_order(alloc, order) {
        Ok(read) => read,
        Err(AllocError) => return reject_out_of_memory(alloc, served_file, office, recorder),
    };
    let asked = order_or_reason(alloc, &read.words, served_file, recorder);
    let handing = OrderContext {
        alloc,
        served_file,
        asked: &asked,
        attached: AttachedFiles {
            folder: None,
            files: &read.files,
        },
    };
    follow_asked(&handing, office, recorder)
}
