//! The response to an order that is handed over. The order is processed in the open office, and its output is sent in frames.
//! `console_order` uses the same code to process an order.

ghost use Rattle.std.specs.Prelude.{◌≡◌, ⊤, ◌-◌, ◌^◌, ◌<◌, ℕ, Bool, IfNone, IfOk, IfSome, List, Option, [], false, map, option_map, string_bytes, true};
ghost use Rattle.clap.specs.Words.{Text};
ghost use Rattle.sqlite.specs.State.{HasCleanDisk};
ghost use Rattle.sqlite.specs.Held.{state};
ghost use Rattle.office.specs.Answers.{IsReadAt, WhenOpenAt};
ghost use Rattle.connections.specs.Streams.{HasTaken, stream_of};
ghost use Rattle.connections.specs.Clients.{IsSent};
ghost use Rattle.order_protocol.specs.Messages.{order_message_entry, message_part_entries};
ghost use Rattle.desk.specs.Mends.{IsMendPage};
ghost use Rattle.desk.specs.Pages.{IsErrorTold, Shows, Tells, failed, outputs_of};
ghost use Rattle.desk.specs.Publications.{IsPublishTold};
ghost use Rattle.server.specs.Destinations.{EndsWhereAsked, destination_at, destination_entry, folder_typed_in, is_bare_name};
ghost use Rattle.server.specs.RecordChanges.{change_of};
ghost use Rattle.server.specs.Settings.{settings_by};
ghost use Rattle.server.specs.ServedOrders.{IsRecordText, IsRecordTold};
ghost use Rattle.server.specs.ServedOrders.{AgreesWithRecord, AsksSo, IsOrderOutcome, FollowsOrder, IsWholeMessage, IsCopyTold, IsMessage, IsResponseToOrder, folder_of, closed_office_page};

use crate::frame_sink::FrameSink;
use crate::order_arrival::LENGTH;
use crate::served_file::{Destination, ServedFile};
use crate::served_order::{ServedOrder, is_for_file, read_message, served_order_by, words_of};
use crate::server_settings::ServerSettings;
use connections::{PendingResponse, Stream, VecSink};
use desk::{
    Failure, Folder, MendOrder, PublishOrder, Recorder, WordsFault, follow_recorded, tell_failure,
    tell_words,
};
use office::Office;
use order_protocol::{MessagePart, OrderMessage};
use sqlite::Alter;
use std::alloc::{AllocError, Global};
use store::Fault;
use streams::Sink;

/// The line that follows if the second record of the office failed.
const FAILED_RECORD_LINE: &str =
    "it failed, and nothing more is accepted: end serve, and start it with a new file\n";

/// The files sent with an order, and the folder in which the order was typed; `None` for an order from the console. There is no
/// file at any other path.
#[derive(Clone, Copy)]
pub struct AttachedFiles<'b> {
    pub folder: Option<&'b [u8]>,
    pub files: &'b [MessagePart<'b>],
}

impl<'b> Folder for AttachedFiles<'b> {
    type File = &'b [u8];

    ghost held = { λ attached path. folder_of (message_part_entries attached.files.now) path };

    fn open(&self, path: &str) -> Option<&'b [u8]> {
        for file in self.files {
            if file.name == path.as_bytes() {
                return file.bytes;
            }
        }
        None
    }
}

/// An order being processed: what it asks for, the files sent with it, and what it needs besides the office.
pub struct OrderContext<'t, A> {
    pub alloc: Global,
    pub served_file: &'t A,
    pub asked: &'t ServedOrder<'t>,
    pub attached: AttachedFiles<'t>,
}

impl<A> Clone for OrderContext<'_, A> {
    ghost is_clone = { λ x y. y ≡ x };

    ghost is_infallible = { λ _. ⊤ };

    fn clone(&self) -> Result<Self, AllocError> {
        Ok(*self)
    }
}

impl<A> Copy for OrderContext<'_, A> {}

/// Prints the response of a closed office. It says that the office is closed if the order would otherwise be carried out; if not,
/// it says why the order isn't carried out.
fn print_closed<O: Sink, E: Sink>(asked: &ServedOrder<'_>, out: &mut O, err: &mut E) -> u8
    requires out { O.failed out.old < 2 ^ 64 - 1 }
    requires err { E.failed err.old < 2 ^ 64 - 1 }
    ensures { let outputs = outputs_of O.taken O.failed E.taken E.failed in Shows (outputs out.old err.old) (outputs out.new err.new) (closed_office_page asked.now) result }
{
    match asked {
        ServedOrder::Refused(failure) => tell_failure(*failure, err),
        ServedOrder::Misread(fault) => tell_words(fault, out, err),
        ServedOrder::Do(_) => tell_failure(Failure::Office(Fault::Closed), err),
        ServedOrder::Copy(_) => tell_failure(Failure::Office(Fault::Closed), err),
        ServedOrder::Journal => tell_failure(Failure::Office(Fault::Closed), err),
        ServedOrder::Mend(_) => tell_failure(Failure::Office(Fault::Closed), err),
        ServedOrder::Second(_) => tell_failure(Failure::Office(Fault::Closed), err),
        ServedOrder::Record => tell_failure(Failure::Office(Fault::Closed), err),
        ServedOrder::Publish(_) => tell_failure(Failure::Office(Fault::Closed), err),
    }
}

/// Returns whether a path is a bare name: not empty, and without a `/`.
fn is_bare_name(path: &str) -> bool
    ensures { result ≡ is_bare_name path.now }
{
    if path.is_empty() {
        return false;
    }
    !path.as_bytes().contains(&b'/')
}

/// Returns the destination of a copy, of a new office or of published results: a path relative to the folder in which the order was typed. For an order
/// from the console, that folder is empty, and the path must be a bare name. Returns `None` if it isn't, or if the folder's name
/// isn't UTF-8.
fn destination_of<'t>(folder: Option<&'t [u8]>, path: &'t str) -> Option<Destination<'t>>
    ensures { option_map destination_entry result ≡ destination_at (option_map (λ folder. folder.now) folder.entry) path.entry.now }
{
    match folder {
        Some(folder) => match str::from_utf8(folder) {
            Ok(folder) => Some(Destination { folder, path }),
            Err(_) => None,
        },
        None => {
            if is_bare_name(path) {
                Some(Destination { folder: "", path })
            } else {
                None
            }
        }
    }
}

/// Copies the office for an order, to the file that its path means. If it means none, only prints a failure.
fn copy_for_order<A: ServedFile, S: Alter, O: Sink, E: Sink>(
    order: &OrderContext<'_, A>,
    path: &str,
    office: &mut Office<S>,
    out: &mut O,
    err: &mut E,
) -> u8
    requires out { O.failed out.old < 2 ^ 64 - 1 }
    requires err { E.failed err.old < 2 ^ 64 - 1 }
    ensures told { let outputs = outputs_of O.taken O.failed E.taken E.failed in Tells (outputs out.old err.old) (outputs out.new err.new) result
        (λ _ page. WhenOpenAt (state S.Store) office.old office.new (λ s. IsCopyTold s page × IsReadAt s office.new.closed (state S.Store office.new.held))) }
    ensures somewhere { IfSome (destination_at (folder_typed_in order.now.attached) path.now) (λ to. A.ended order.now.served_file.now to.folder to.path result) }
    ensures nowhere { IfNone (destination_at (folder_typed_in order.now.attached) path.now) (IsErrorTold E.taken E.failed err.old err.new (failed Failure.CopyFailed).err 3 result) }
    ensures clean { HasCleanDisk (state S.Store office.new.held) → HasCleanDisk (state S.Store office.old.held) }
{
    match destination_of(order.attached.folder, path) {
        Some(to) => order.served_file.copy(office, to, out, err),
        None => tell_failure(Failure::CopyFailed, err),
    }
}

/// Makes a new office from the journal, in the file that the order's path means, and returns the status. If it means none, only
/// prints a failure.
fn mend_for_order<A: ServedFile, S: Alter, O: Sink, E: Sink>(
    order: &OrderContext<'_, A>,
    mending: &MendOrder<'_>,
    office: &mut Office<S>,
    out: &mut O,
    err: &mut E,
) -> u8
    requires out { O.failed out.old < 2 ^ 64 - 1 }
    requires err { E.failed err.old < 2 ^ 64 - 1 }
    ensures told { let outputs = outputs_of O.taken O.failed E.taken E.failed in Tells (outputs out.old err.old) (outputs out.new err.new) result
        (λ _ page. WhenOpenAt (state S.Store) office.old office.new (λ s. IsMendPage s mending.now page × IsReadAt s office.new.closed (state S.Store office.new.held))) }
    ensures somewhere { IfSome (destination_at (folder_typed_in order.now.attached) mending.now.path.now) (λ to. A.ended order.now.served_file.now to.folder to.path result) }
    ensures nowhere { IfNone (destination_at (folder_typed_in order.now.attached) mending.now.path.now) (IsErrorTold E.taken E.failed err.old err.new (failed Failure.CopyFailed).err 3 result) }
    ensures clean { HasCleanDisk (state S.Store office.new.held) → HasCleanDisk (state S.Store office.old.held) }
{
    match destination_of(order.attached.folder, mending.path) {
        Some(to) => order.served_file.mend(office, mending, to, out, err),
        None => tell_failure(Failure::CopyFailed, err),
    }
}

/// Publishes the results for an order, in the folder that its path means, and returns the status. If it means none, only prints a
/// failure.
fn publish_for_order<A: ServedFile, S: Alter, O: Sink, E: Sink>(
    order: &OrderContext<'_, A>,
    publishing: PublishOrder<'_>,
    office: &mut Office<S>,
    out: &mut O,
    err: &mut E,
) -> u8
    requires out { O.failed out.old < 2 ^ 64 - 1 }
    requires err { E.failed err.old < 2 ^ 64 - 1 }
    ensures told { let outputs = outputs_of O.taken O.failed E.taken E.failed in Tells (outputs out.old err.old) (outputs out.new err.new) result
        (λ _ page. WhenOpenAt (state S.Store) office.old office.new (λ s. IsPublishTold s publishing.entry page × IsReadAt s office.new.closed (state S.Store office.new.held))) }
    ensures somewhere { IfSome (destination_at (folder_typed_in order.now.attached) publishing.entry.path.now) (λ to. A.published order.now.served_file.now publishing.entry to.folder to.path result) }
    ensures nowhere { IfNone (destination_at (folder_typed_in order.now.attached) publishing.entry.path.now)
        (IsErrorTold E.taken E.failed err.old err.new (failed Failure.CopyFailed).err 3 result) }
    ensures clean { HasCleanDisk (state S.Store office.new.held) → HasCleanDisk (state S.Store office.old.held) }
{
    match destination_of(order.attached.folder, publishing.path) {
        Some(to) => order.served_file.publish(office, publishing, to, out, err),
        None => tell_failure(Failure::CopyFailed, err),
    }
}

/// Returns the text that says where the second record of the office is and, if it failed, that it did. The only error is a failed
/// allocation.
fn record_text<A: ServedFile>(
    alloc: Global,
    served_file: &A,
    has_failed: bool,
) -> Result<String, AllocError>
    ensures { IfOk result (λ text. IsRecordText (A.described served_file.now) has_failed (string_bytes text)) }
{
    let mut text = served_file.record_text(alloc)?;
    if has_failed {
        text.push_str(FAILED_RECORD_LINE)?;
    }
    Ok(text)
}

/// Prints where the second record of the office is and, if it failed, that it did. Returns the status.
fn tell_record<A: ServedFile, R: Recorder, O: Sink, E: Sink>(
    order: &OrderContext<'_, A>,
    recorder: &R,
    out: &mut O,
    err: &mut E,
) -> u8
    requires out { O.failed out.old < 2 ^ 64 - 1 }
    requires err { E.failed err.old < 2 ^ 64 - 1 }
    ensures { let outputs = outputs_of O.taken O.failed E.taken E.failed in Tells (outputs out.old err.old) (outputs out.new err.new) result
        (λ _ page. IsRecordTold (A.described order.now.served_file.now) (R.failed recorder.now) page) }
{
    match record_text(order.alloc, order.served_file, recorder.has_failed()) {
        Ok(text) => tell_words(&WordsFault::Words { text, status: 0 }, out, err),
        Err(AllocError) => tell_failure(Failure::Office(Fault::Memory), err),
    }
}

/// Carries out an order in an open office, and returns the status. Each request of a job that the office accepts is recorded
/// before it is acknowledged.
fn do_open<A: ServedFile, S: Alter, R: Recorder, O: Sink, E: Sink>(
    order: &OrderContext<'_, A>,
    office: &mut Office<S>,
    recorder: &mut R,
    out: &mut O,
    err: &mut E,
) -> u8
    requires out { O.failed out.old < 2 ^ 64 - 1 }
    requires err { E.failed err.old < 2 ^ 64 - 1 }
    ensures did { let outputs = outputs_of O.taken O.failed E.taken E.failed in Tells (outputs out.old err.old) (outputs out.new err.new) result
        (λ cut page. WhenOpenAt (state S.Store) office.old office.new
        (λ s. IsOrderOutcome (change_of R.found R.failed recorder.old recorder.new) (state S.Store office.old.held) office.new.closed (state S.Store office.new.held) (folder_of
        (message_part_entries order.now.attached.files.now)) s order.now.asked.now cut page)) }
    ensures recorded { order.now.asked.now ≡ ServedOrder.Record → (let outputs = outputs_of O.taken O.failed E.taken E.failed in
        Tells (outputs out.old err.old) (outputs out.new err.new) result (λ _ page. IsRecordTold (A.described order.now.served_file.now) (R.failed recorder.old) page)) }
    ensures ended { EndsWhereAsked (A.ended order.now.served_file.now) (A.published order.now.served_file.now) (IsErrorTold E.taken E.failed err.old err.new (failed Failure.CopyFailed).err 3 result)
        (folder_typed_in order.now.attached) order.now.asked.now result }
    ensures same { R.records recorder.new ≡ R.records recorder.old }
    ensures fails { R.failed recorder.old ≡ false → R.failed recorder.new ≡ true → R.records recorder.old ≡ true }
    ensures clean { HasCleanDisk (state S.Store office.new.held) → HasCleanDisk (state S.Store office.old.held) }
{
    match order.asked {
        ServedOrder::Refused(failure) => tell_failure(*failure, err),
        ServedOrder::Misread(fault) => tell_words(fault, out, err),
        ServedOrder::Do(job) => {
            let attached = &order.attached;
            let status = follow_recorded(order.alloc, office, job, attached, recorder, out, err);
            // called for its law: if the record failed, there is one
            let _ = recorder.has_failed();
            status
        }
        ServedOrder::Copy(path) => copy_for_order(order, path, office, out, err),
        ServedOrder::Journal => order.served_file.journal(office, out, err),
        ServedOrder::Mend(mending) => mend_for_order(order, mending, office, out, err),
        ServedOrder::Second(path) => {
            let attached = &order.attached;
            order.served_file.second(office, attached, path, out, err)
        }
        ServedOrder::Record => tell_record(order, &*recorder, out, err),
        ServedOrder::Publish(publishing) => {
            publish_for_order(order, *publishing, office, out, err)
        }
    }
}

/// Carries out an order in the office, open or closed, and returns the status. A closed office only reports that it is closed.
pub fn do_asked<A: ServedFile, S: Alter, R: Recorder, O: Sink, E: Sink>(
    order: &OrderContext<'_, A>,
    office: &mut Office<S>,
    recorder: &mut R,
    out: &mut O,
    err: &mut E,
) -> u8
    requires out { O.failed out.old < 2 ^ 64 - 1 }
    requires err { E.failed err.old < 2 ^ 64 - 1 }
    ensures did { let outputs = outputs_of O.taken O.failed E.taken E.failed in Tells (outputs out.old err.old) (outputs out.new err.new) result
        (λ cut page. WhenOpenAt (state S.Store) office.old office.new
        (λ s. IsOrderOutcome (change_of R.found R.failed recorder.old recorder.new) (state S.Store office.old.held) office.new.closed (state S.Store office.new.held) (folder_of
        (message_part_entries order.now.attached.files.now)) s order.now.asked.now cut page)
        × (office.old.closed ≡ true → page ≡ closed_office_page order.now.asked.now)) }
    ensures closed { office.old.closed ≡ true → office.new ≡ office.old }
    ensures closed_same { office.old.closed ≡ true → recorder.new ≡ recorder.old }
    ensures recorded { office.old.closed ≡ false → order.now.asked.now ≡ ServedOrder.Record → (let outputs = outputs_of O.taken O.failed E.taken E.failed in
        Tells (outputs out.old err.old) (outputs out.new err.new) result (λ _ page. IsRecordTold (A.described order.now.served_file.now) (R.failed recorder.old) page)) }
    ensures ended { office.old.closed ≡ false
        → EndsWhereAsked (A.ended order.now.served_file.now) (A.published order.now.served_file.now) (IsErrorTold E.taken E.failed err.old err.new (failed Failure.CopyFailed).err 3 result)
        (folder_typed_in order.now.attached) order.now.asked.now result }
    ensures same { R.records recorder.new ≡ R.records recorder.old }
    ensures fails { R.failed recorder.old ≡ false → R.failed recorder.new ≡ true → R.records recorder.old ≡ true }
    ensures clean { HasCleanDisk (state S.Store office.new.held) → HasCleanDisk (state S.Store office.old.held) }
{
    if office.is_closed() {
        return print_closed(order.asked, out, err);
    }
    do_open(order, office, recorder, out, err)
}

/// Carries out an order, sends its output in frames on its stream, and returns the stream. What the stream doesn't accept now
/// stays in the response, to be sent concurrently with others. If the allocation for the last frame fails, the response ends
/// without it.
fn respond_to_asked<L: Stream, A: ServedFile, S: Alter, R: Recorder>(
    order: &OrderContext<'_, A>,
    stream: L,
    office: &mut Office<S>,
    recorder: &mut R,
) -> (L, PendingResponse)
    requires { HasTaken (L.taken stream) [] }
    ensures told { IsSent (stream_of L.held L.taken L.failed) result.0 result.1.bytes.items result.1.sent }
    ensures followed { IsResponseToOrder (state S.Store) (change_of R.found R.failed recorder.old recorder.new) office.old (message_part_entries order.now.attached.files.now) order.now.asked.now
        result.1.bytes.items office.new }
    ensures same { R.records recorder.new ≡ R.records recorder.old }
    ensures fails { R.failed recorder.old ≡ false → R.failed recorder.new ≡ true → R.records recorder.old ≡ true }
{
    let mut out = FrameSink::new(order.alloc, stream);
    let mut err = VecSink::new(order.alloc);
    let status = do_asked(order, office, recorder, &mut out, &mut err);
    out.end(status, err.into_bytes().as_slice())
}

/// Returns what an order asks for. If it asks for a job and the office's file is gone or replaced, returns the reason for
/// refusing it instead.
fn unless_gone<'w, A: ServedFile>(asked: ServedOrder<'w>, served_file: &A) -> ServedOrder<'w>
    ensures { (words : List Text) (recorded : Bool) → AsksSo (A.whole served_file.now) recorded words asked.entry → AsksSo (A.whole served_file.now) recorded words result }
{
    match asked {
        ServedOrder::Do(job) => {
            if served_file.is_whole() {
                ServedOrder::Do(job)
            } else {
                ServedOrder::Refused(Failure::FileGone)
            }
        }
        other => other,
    }
}

/// Returns what an order asks for. If it asks for a job and the record has failed, returns the reason for refusing it instead.
fn unless_unrecorded<'w, R: Recorder>(asked: ServedOrder<'w>, recorder: &R) -> ServedOrder<'w>
    ensures asks { (whole : Option Bool) (words : List Text) → AsksSo whole (R.records recorder.now) words asked.entry → AsksSo whole (R.records recorder.now) words result }
    ensures agrees { (whole : Option Bool) (words : List Text) → AsksSo whole false words asked.entry → AgreesWithRecord (R.failed recorder.now) result }
{
    match asked {
        ServedOrder::Do(job) => {
            if recorder.has_failed() {
                ServedOrder::Refused(Failure::SecondRecord)
            } else {
                ServedOrder::Do(job)
            }
        }
        other => other,
    }
}

/// Returns what the words of an order ask for. If they ask for a job, and the office's file is gone or replaced or the record has
/// failed, returns the reason for refusing it instead.
pub fn order_or_reason<'w, A: ServedFile, R: Recorder>(
    alloc: Global,
    words: &'w [&'w str],
    served_file: &A,
    recorder: &R,
) -> ServedOrder<'w>
    ensures asks { AsksSo (A.whole served_file.now) (R.records recorder.now) (map (λ word. word.now) words.entry.now) result }
    ensures agrees { AgreesWithRecord (R.failed recorder.now) result }
{
    let asked = unless_gone(served_order_by(alloc, words), served_file);
    unless_unrecorded(asked, recorder)
}

/// Responds with the given fault to an order that isn't carried out.
fn tell_refused<L: Stream, A: ServedFile, S: Alter, R: Recorder>(
    alloc: Global,
    served_file: &A,
    fault: Fault,
    stream: L,
    office: &mut Office<S>,
    recorder: &mut R,
) -> (L, PendingResponse)
    requires { HasTaken (L.taken stream) [] }
    ensures told { IsSent (stream_of L.held L.taken L.failed) result.0 result.1.bytes.items result.1.sent }
    ensures followed { IsResponseToOrder (state S.Store) (change_of R.found R.failed recorder.old recorder.new) office.old [] (ServedOrder.Refused (Failure.Office fault)) result.1.bytes.items
        office.new }
    ensures same { R.records recorder.new ≡ R.records recorder.old }
    ensures fails { R.failed recorder.old ≡ false → R.failed recorder.new ≡ true → R.records recorder.old ≡ true }
{
    let order = OrderContext {
        alloc,
        served_file,
        asked: &ServedOrder::Refused(Failure::Office(fault)),
        attached: AttachedFiles {
            folder: None,
            files: &[],
        },
    };
    respond_to_asked(&order, stream, office, recorder)
}

/// Responds to an order whose message has been decoded: carries out the order, or prints why it isn't carried out.
fn respond_to_message<L: Stream, A: ServedFile, S: Alter, R: Recorder>(
    alloc: Global,
    server_settings: ServerSettings<'_, A>,
    message: &OrderMessage<'_>,
    stream: L,
    office: &mut Office<S>,
    recorder: &mut R,
) -> (L, PendingResponse)
    requires { HasTaken (L.taken stream) [] }
    ensures told { IsSent (stream_of L.held L.taken L.failed) result.0 result.1.bytes.items result.1.sent }
    ensures followed { (got : List ℕ) → IsMessage got (order_message_entry message.now)
        → FollowsOrder (settings_by A.whole (R.records recorder.old) server_settings.entry) (state S.Store) (change_of R.found R.failed recorder.old recorder.new) office.old got
        result.1.bytes.items office.new }
    ensures same { R.records recorder.new ≡ R.records recorder.old }
{
    let served_file = server_settings.served_file;
    if !is_for_file(message, server_settings.file) {
        return tell_refused(alloc, served_file, Fault::Store, stream, office, recorder);
    }
    let words = match words_of(alloc, &message.words) {
        Ok(words) => words,
        Err(fault) => return tell_refused(alloc, served_file, fault, stream, office, recorder),
    };
    let asked = order_or_reason(alloc, &words, served_file, recorder);
    let order = OrderContext {
        alloc,
        served_file,
        asked: &asked,
        attached: AttachedFiles {
            folder: Some(message.folder),
            files: &message.files,
        },
    };
    respond_to_asked(&order, stream, office, recorder)
}

/// Responds to an order whose message has been received: processes it in the office, sends its output in frames on its stream,
/// and returns the stream.
///
/// The response is fault 102, as for a file locked by another program, if the bytes aren't a message, or if the order comes
/// from another version of the program or is for another file. For `init`, `migrate`, `serve`, `codes` and `forms slips`,
/// the response says that the office is being served (111). If the record has failed, the response to a job says so (112).
pub fn answer_order<L: Stream, A: ServedFile, S: Alter, R: Recorder>(
    alloc: Global,
    server_settings: ServerSettings<'_, A>,
    got: &[u8],
    stream: L,
    office: &mut Office<S>,
    recorder: &mut R,
) -> (L, PendingResponse)
    requires fresh { HasTaken (L.taken stream) [] }
    requires whole { IsWholeMessage got.now }
    ensures told { IsSent (stream_of L.held L.taken L.failed) result.0 result.1.bytes.items result.1.sent }
    ensures followed { FollowsOrder (settings_by A.whole (R.records recorder.old) server_settings.entry) (state S.Store) (change_of R.found R.failed recorder.old recorder.new) office.old got.now
        result.1.bytes.items office.new }
    ensures same { R.records recorder.new ≡ R.records recorder.old }
{
    let served_file = server_settings.served_file;
    match read_message(alloc, &got[LENGTH..]) {
        Ok(message) => {
            respond_to_message(alloc, server_settings, &message, stream, office, recorder)
        }
        Err(fault) => tell_refused(alloc, served_file, fault, stream, office, recorder),
    }
}
