//! An order that is performed alone, on an office that has a second record: each request that the office accepts is appended to the
//! record's file, and flushed, before its reply is printed.

ghost use Rattle.std.specs.Prelude.{◌≡◌, ◌≢◌, ◌-◌, ◌^◌, ◌<◌, IfErr, OnOk};
ghost use Rattle.sqlite.specs.Held.{state};
ghost use Rattle.tables.specs.Reading.{OnlyReads};
ghost use Rattle.desk.specs.Pages.{IsErrorTold, failed};
ghost use Rattle.count_office.specs.Done.{IsDoneRecorded};

use crate::notices::{tell_second_unusable, warn_if_on_one_disk};
use crate::order_files::LocalFolder;
use crate::second_file::{SecondFault, SecondFile};
use crate::seconds::second;
use crate::timed_record::TimedRecord;
use desk::perform::perform_recorded;
use desk::{Failure, Task, tell_failure};
use sqlite::{Alter, Connection};
use streams::{Broken, Counted, Sink, put_all};

/// A task, the files that it names, the path of the office's database, and that of the second record.
#[derive(Clone, Copy)]
pub struct RecordedTask<'a> {
    pub paths: LocalFolder<'a>,
    pub task: &'a Task<'a>,
    pub database: &'a str,
    pub second: &'a str,
}

/// Prints fault 112, followed by a line that says why the file of a second record can't be used. Returns the status.
pub fn refuse_second<E: Sink>(rt: &HostRuntime, path: &str, why: SecondFault, err: &mut E) -> u8
    requires { E.failed err.old < 2 ^ 64 - 1 }
    ensures { IsErrorTold E.taken E.failed err.old err.new (failed Failure.SecondRecord).err 3 result }
{
    let status = tell_failure(Failure::SecondRecord, err);
    tell_second_unusable(rt, path, why);
    status
}

/// Prints how the office and a second record differ, and returns the status.
fn tell_apart<E: Sink>(errors: &[u8], status: u8, err: &mut E) -> u8
    requires { E.failed err.old < 2 ^ 64 - 1 }
    ensures { IsErrorTold E.taken E.failed err.old err.new errors.now status result }
{
    match put_all(err, errors) {
        Ok(()) => status,
        Err(Broken) => 3,
    }
}

/// Opens the file of a second record, if it holds the same as the office, which is only read; then nothing is printed. Otherwise prints
/// how they differ, or why the file can't be used, and returns the status.
fn open_record<'a, S: Alter, E: Sink>(
    paths: LocalFolder<'a>,
    path: &'a str,
    conn: Connection<S>,
    err: &mut E,
) -> (Result<SecondFile<'a>, u8>, Connection<S>)
    requires { E.failed err.old < 2 ^ 64 - 1 }
    ensures reads { OnlyReads (state S.Store conn) (state S.Store result.1) }
    ensures quiet { OnOk result.0 (err.new ≡ err.old) }
    ensures refused { IfErr result.0 (λ status. status ≢ 0) }
{
    let rt = paths.rt;
    let file = match SecondFile::open(rt, path) {
        Ok(file) => file,
        Err(why) => return (Err(refuse_second(rt, path, why, err)), conn),
    };
    let (mut replies, mut errors) = (Vec::new(rt.alloc()), Vec::new(rt.alloc()));
    let (status, conn) = second(
        paths,
        conn,
        path,
        &mut Counted::new(&mut replies),
        &mut Counted::new(&mut errors),
    );
    if status == 0 {
        (Ok(file), conn)
    } else {
        (Err(tell_apart(errors.as_slice(), status, err)), conn)
    }
}

/// Performs a task on an open connection to an office with a second record, prints the outcome, and returns the status.
///
/// If the record's file can't be used, or doesn't hold the same as the office, nothing is done, and this is printed. If recording an
/// accepted request fails, why is printed, and fault 112 in place of the reply; and nothing more is done. If the record is on the disk of
/// the office, a line says so.
pub fn perform_with_record<S: Alter, O: Sink, E: Sink>(
    asked: RecordedTask<'_>,
    conn: Connection<S>,
    out: &mut O,
    err: &mut E,
) -> (u8, Connection<S>)
    requires out { O.failed out.old < 2 ^ 64 - 1 }
    requires err { E.failed err.old < 2 ^ 64 - 1 }
    ensures { IsDoneRecorded (state S.Store) asked.entry.task.now result.0 conn result.1 }
{
    let rt = asked.paths.rt;
    let (opened, conn) = open_record(asked.paths, asked.second, conn, err);
    let file = match opened {
        Ok(file) => file,
        Err(status) => return (status, conn),
    };
    warn_if_on_one_disk(rt, asked.database, asked.second);
    let mut record = TimedRecord::new(rt, asked.second, file);
    perform_recorded(
        rt.alloc(),
        asked.task,
        conn,
        &asked.paths,
        &mut record,
        out,
        err,
    )
}
