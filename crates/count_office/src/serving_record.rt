//! The order to serve, with or without a second record. The record's file is new, and begins with the office's journal.

ghost use Rattle.std.specs.Prelude.{◌≡◌, ◌≢◌, ◌-◌, ◌^◌, ◌<◌, IfErr, IfOk, false};
ghost use Rattle.sqlite.specs.Held.{state};
ghost use Rattle.tables.specs.Reading.{OnlyReads};
ghost use Rattle.connections.specs.Streams.{stream_of};
ghost use Rattle.desk.specs.Pages.{IsErrorTold};
ghost use Rattle.count_office.specs.Records.{has_failed, left_here};
ghost use Rattle.count_office.specs.Serving.{ServesInRecord, ServesWith};

use crate::host::Host;
use crate::second_file::SecondFile;
use crate::second_order::refuse_second;
use crate::serving::{Serving, serve};
use crate::timed_record::{TimedRecord, time_of_day};
use crate::{LockedDatabase, journal};
use desk::{Failure, NoRecord, tell_failure};
use sqlite::{Alter, Connection};
use std::alloc::AllocError;
use std::fs;
use store::Fault;
use streams::{Counted, Sink};

/// A locked database, and the path of a new second record of its office.
#[derive(Clone, Copy)]
struct RecordedPlace<'a> {
    place: LockedDatabase<'a>,
    path: &'a str,
}

/// Appends the line that follows the journal.
fn put_start(rt: &HostRuntime, text: &mut Vec<u8>) -> Result<(), AllocError> {
    let time = time_of_day(rt)?;
    text.extend_from_slice(b"# ")?;
    if !time.is_empty() {
        text.extend_from_slice(time.as_bytes())?;
        text.extend_from_slice(b": ")?;
    }
    text.extend_from_slice(b"from here on each request as it is accepted\n")
}

/// Returns the text with which a second record begins: the journal of the office on a connection, which is only read, and the line
/// that follows it. Otherwise prints why there is none, and returns the status.
fn beginning_of<S: Alter>(
    rt: &HostRuntime,
    conn: Connection<S>,
) -> (Result<Vec<u8>, u8>, Connection<S>)
    ensures reads { OnlyReads (state S.Store conn) (state S.Store result.1) }
    ensures refused { IfErr result.0 (λ status. status ≢ 0) }
{
    let mut text = Vec::new(rt.alloc());
    let mut stderr = Counted::new(rt.stderr());
    let (status, conn) = journal(rt, conn, &mut Counted::new(&mut text), &mut stderr);
    if status != 0 {
        return (Err(status), conn);
    }
    match put_start(rt, &mut text) {
        Ok(()) => (Ok(text), conn),
        Err(AllocError) => {
            let status = tell_failure(Failure::Office(Fault::Memory), &mut stderr);
            (Err(status), conn)
        }
    }
}

/// Begins a second record of the office on a connection, which is only read, in a new file. If that fails, prints why and returns the
/// status; nothing is left of the file then.
fn begin<'a, S: Alter>(
    asked: RecordedPlace<'a>,
    conn: Connection<S>,
) -> (Result<TimedRecord<'a, SecondFile<'a>>, u8>, Connection<S>)
    ensures reads { OnlyReads (state S.Store conn) (state S.Store result.1) }
    ensures whole { IfOk result.0 (λ its. has_failed its ≡ false) }
    ensures refused { IfErr result.0 (λ status. status ≢ 0) }
{
    let RecordedPlace { place, path } = asked;
    let rt = place.rt;
    let (text, conn) = beginning_of(rt, conn);
    let text = match text {
        Ok(text) => text,
        Err(status) => return (Err(status), conn),
    };
    match SecondFile::create(rt, path, text.as_slice()) {
        Ok(file) => (Ok(TimedRecord::new(rt, path, file)), conn),
        Err(why) => {
            let status = refuse_second(rt, path, why, &mut Counted::new(rt.stderr()));
            (Err(status), conn)
        }
    }
}

/// Serves as [`serve`] does, with a second record in a new file at a path. If it can't be begun, prints why, and serves nothing. If nothing is
/// served for another reason, the file is removed again.
fn serve_with_record<H: Host, S: Alter, E: Sink>(
    asked: RecordedPlace<'_>,
    host: &mut H,
    serving: Serving<'_>,
    conn: Connection<S>,
    err: &mut E,
) -> (u8, Connection<S>)
    requires { E.failed err.old < 2 ^ 64 - 1 }
    ensures { ServesInRecord left_here has_failed (IsErrorTold E.taken E.failed err.old err.new) (err.new ≡ err.old) result.0 serving.entry (H.codes_at host.old) (H.file host.old)
        (stream_of H.Sockets.Stream.held H.Sockets.Stream.taken H.Sockets.Stream.failed) (state S.Store) (H.known host.old) (H.known host.new) conn result.1 }
{
    let RecordedPlace { place, path } = asked;
    let (begun, conn) = begin(asked, conn);
    let recorder = match begun {
        Ok(recorder) => recorder,
        Err(status) => return (status, conn),
    };
    place.succession.is_open.set(false);
    let (status, conn, recorder) = serve(place.rt.alloc(), host, serving, conn, recorder, err);
    drop(recorder);
    if !place.succession.is_open.get() {
        let _ = fs::remove_file(place.rt, path);
    }
    (status, conn)
}

/// Serves as [`serve`] does, with a second record if the order names its file.
pub fn serve_in_place<H: Host, S: Alter, E: Sink>(
    place: LockedDatabase<'_>,
    host: &mut H,
    serving: Serving<'_>,
    conn: Connection<S>,
    err: &mut E,
) -> (u8, Connection<S>)
    requires { E.failed err.old < 2 ^ 64 - 1 }
    ensures { ServesWith place.entry.second (IsErrorTold E.taken E.failed err.old err.new) (err.new ≡ err.old) result.0 serving.entry (H.codes_at host.old) (H.file host.old)
        (stream_of H.Sockets.Stream.held H.Sockets.Stream.taken H.Sockets.Stream.failed) (state S.Store) (H.known host.old) (H.known host.new) conn result.1 }
{
    match place.second {
        Some(path) => serve_with_record(RecordedPlace { place, path }, host, serving, conn, err),
        None => {
            let (status, conn, NoRecord) = serve(
                place.rt.alloc(),
                host,
                serving,
                conn,
                NoRecord,
                err,
            );
            (status, conn)
        }
    }
}
