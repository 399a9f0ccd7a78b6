//! Performs the task of an order on a connection to the office's database.

ghost use Rattle.std.specs.Prelude.{◌-◌, ◌^◌, ◌<◌};
ghost use Rattle.sqlite.specs.State.{HasCleanDisk};
ghost use Rattle.sqlite.specs.Held.{state};
ghost use Rattle.desk.specs.Folders.{Folder as Held};
ghost use Rattle.desk.specs.Headline.{Headline};
ghost use Rattle.desk.specs.Pages.{Tells, outputs_of};
ghost use Rattle.desk.specs.RecordedOrders.{HeadlineRecorded};

use crate::folders::Folder;
use crate::lines::{LineOutcome, tell};
use crate::order_running::follow_recorded;
use crate::orders::{Job, Task};
use crate::record::{NoRecord, Recorder};
use office::Office;
use sqlite::{Alter, Connection};
use std::alloc::Global;
use streams::Sink;

/// Opens the office on a connection and does a job in it, recording each accepted request.
fn in_office<S: Alter, F: Folder, R: Recorder, O: Sink, E: Sink>(
    alloc: Global,
    job: &Job<'_>,
    conn: Connection<S>,
    folder: &F,
    recorder: &mut R,
    out: &mut O,
    err: &mut E,
) -> (u8, Connection<S>)
    requires out { O.failed out.old < 2 ^ 64 - 1 }
    requires err { E.failed err.old < 2 ^ 64 - 1 }
    ensures { let outputs = outputs_of O.taken O.failed E.taken E.failed in Tells (outputs out.old err.old) (outputs out.new err.new) result.0
        (λ cut page. HasCleanDisk (state S.Store result.1) → HeadlineRecorded
        (record { there = R.records recorder.old; found_old = R.found recorder.old; found_new = R.found recorder.new; failed_old = R.failed recorder.old; failed_new = R.failed recorder.new })
        (F.held folder.now) (Task.InOffice job.now) cut page result.0 (state S.Store conn) (state S.Store result.1)) }
{
    match Office::open_from(alloc, conn) {
        Ok(mut office) => {
            let status = follow_recorded(alloc, &mut office, job, folder, recorder, out, err);
            // called for its law: if the record failed, there is one
            let _ = recorder.has_failed();
            (status, office.into_connection())
        }
        Err((fault, conn)) => (tell(None, &LineOutcome::Failed(fault), out, err), conn),
    }
}

/// Creates an office and prints the outcome.
fn make_office<S: Alter, O: Sink, E: Sink>(
    alloc: Global,
    conn: Connection<S>,
    out: &mut O,
    err: &mut E,
) -> (u8, Connection<S>)
    requires out { O.failed out.old < 2 ^ 64 - 1 }
    requires err { E.failed err.old < 2 ^ 64 - 1 }
    ensures { let outputs = outputs_of O.taken O.failed E.taken E.failed in Tells (outputs out.old err.old) (outputs out.new err.new) result.0
        (λ cut page. HasCleanDisk (state S.Store result.1) → (folder : Held) → Headline folder Task.Init cut page result.0 (state S.Store conn) (state S.Store result.1)) }
{
    match Office::create(alloc, conn) {
        Ok(office) => (
            tell(None, &LineOutcome::Ready, out, err),
            office.into_connection(),
        ),
        Err((fault, conn)) => (tell(None, &LineOutcome::Failed(fault), out, err), conn),
    }
}

/// Migrates an office created by an earlier version of the program to this version, and prints the outcome.
fn migrate_office<S: Alter, O: Sink, E: Sink>(
    alloc: Global,
    mut conn: Connection<S>,
    out: &mut O,
    err: &mut E,
) -> (u8, Connection<S>)
    requires out { O.failed out.old < 2 ^ 64 - 1 }
    requires err { E.failed err.old < 2 ^ 64 - 1 }
    ensures { let outputs = outputs_of O.taken O.failed E.taken E.failed in Tells (outputs out.old err.old) (outputs out.new err.new) result.0
        (λ cut page. HasCleanDisk (state S.Store result.1) → (folder : Held) → Headline folder Task.Migrate cut page result.0 (state S.Store conn) (state S.Store result.1)) }
{
    match Office::migrate(alloc, &mut conn) {
        Ok(migrated) => (tell(None, &LineOutcome::Migrated(migrated), out, err), conn),
        Err(fault) => (tell(None, &LineOutcome::Failed(fault), out, err), conn),
    }
}

/// Performs a task as [`perform`](self::perform) does, for an office with a second record. Each request that the office accepts is
/// recorded before its reply is printed.
///
/// If recording a request fails, it isn't acknowledged: fault 112 is printed, with status 3, and the task ends. The request remains in
/// effect in the office, and the record contains it or not.
///
/// Suppose that a stop before the task would have left a record of the office's state. Then a stop at any time leaves the office and
/// the record each in the state after the accepted requests in a prefix of all requests ever sent. Both prefixes contain every
/// answered request and at most one more. `init` and `migrate` record nothing.
pub fn perform_recorded<S: Alter, F: Folder, R: Recorder, O: Sink, E: Sink>(
    alloc: Global,
    task: &Task<'_>,
    conn: Connection<S>,
    folder: &F,
    recorder: &mut R,
    out: &mut O,
    err: &mut E,
) -> (u8, Connection<S>)
    requires out { O.failed out.old < 2 ^ 64 - 1 }
    requires err { E.failed err.old < 2 ^ 64 - 1 }
    ensures headline { let outputs = outputs_of O.taken O.failed E.taken E.failed in Tells (outputs out.old err.old) (outputs out.new err.new) result.0
        (λ cut page. HasCleanDisk (state S.Store result.1) → HeadlineRecorded
        (record { there = R.records recorder.old; found_old = R.found recorder.old; found_new = R.found recorder.new; failed_old = R.failed recorder.old; failed_new = R.failed recorder.new })
        (F.held folder.now) task.now cut page result.0 (state S.Store conn) (state S.Store result.1)) }
{
    match task {
        Task::Init => make_office(alloc, conn, out, err),
        Task::Migrate => migrate_office(alloc, conn, out, err),
        Task::InOffice(job) => in_office(alloc, job, conn, folder, recorder, out, err),
    }
}

/// Performs a task on an open connection, prints the resulting lines, and returns the exit status and the connection.
///
/// `folder` opens the file that the task names, once the office is open, and each import file that a script names, when it is
/// needed. A file is read to the end before any request from it is sent.
///
/// The status is 0 if all output was written to `out`: each reply, `office ready`, the outcome of a migration, a ward's status, an
/// overview, or one of a ward's texts. It is 1 if a request or the file was refused, and 3 on a fault; `err` says which. It is also
/// 3 if `out` or `err` itself failed, in which case only a prefix was written to it.
///
/// Every request that was answered before the first refusal or fault remains in effect. If the program is stopped at any time, what
/// remains is the state after the accepted requests in a prefix of all requests ever sent. The prefix contains every answered
/// request and at most one more. If the status is 0, all requests of the task were answered.
///
/// All lines of a script are parsed before its first order is sent. If any line isn't understood, the first such line is reported
/// with status 2, and nothing is sent. A refusal or fault of one of its orders ends the script and is printed after the line
/// number. The requests of a script are those of its orders up to that one. With `keep_going`, a refusal doesn't end the script:
/// each refusal is printed, and the status is 1 unless a fault ends the script.
///
/// If the database contains no office, or a newer, older or damaged one, the corresponding fault is reported, and the database
/// isn't changed. If it has a table with one of our names, `init` doesn't create an office: it reports fault 105 and changes
/// nothing. Only `migrate` accepts an older office. If it is interrupted, what remains is either the older office or the complete
/// new one, with exactly the same state.
///
/// If opening or reading the office reports fault 102, the store failed; or, when a database without a state is opened, its rowids
/// aren't distinct integers. The same applies to a request that isn't accepted.
pub fn perform<S: Alter, F: Folder, O: Sink, E: Sink>(
    alloc: Global,
    task: &Task<'_>,
    conn: Connection<S>,
    folder: &F,
    out: &mut O,
    err: &mut E,
) -> (u8, Connection<S>)
    requires out { O.failed out.old < 2 ^ 64 - 1 }
    requires err { E.failed err.old < 2 ^ 64 - 1 }
    ensures headline { let outputs = outputs_of O.taken O.failed E.taken E.failed in Tells (outputs out.old err.old) (outputs out.new err.new) result.0
        (λ cut page. HasCleanDisk (state S.Store result.1) → Headline (F.held folder.now) task.now cut page result.0 (state S.Store conn) (state S.Store result.1)) }
{
    perform_recorded(alloc, task, conn, folder, &mut NoRecord, out, err)
}
