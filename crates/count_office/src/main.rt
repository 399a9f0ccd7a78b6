//! The program `count-office`: it parses its words as an order, and performs the order on the database DB.
//!
//! The crate `desk` parses the words and performs the order. This crate provides the file that DB names, the files that the
//! order or a script names, and the two standard outputs.
//!
//! `main` opens the outputs, [`run`] reads the words, [`follow_words`] parses them as an order, and [`perform_at_path`] finds the path of
//! the database in them. `perform_with_retries` in `order_run.rt` attempts the order, repeatedly while another program has locked the
//! file; `perform_and_follow` does so again for each new office that takes the place of a served one, and `perform_and_remark` tells a
//! person at a terminal more. `attempt` checks what is at the path, and `lock_and_perform` locks the file or sends the order to the
//! program that serves it. Under the lock, `perform_locked` and `open_and_perform` open the database, and [`dispatch_order`] performs
//! the order on it.
//!
//! ```text
//! count-office town.db init
//! count-office town.db ward 7 2 Harbour --id w1
//! ```
#![tactic(auto)]

ghost use Rattle.std.specs.Prelude.{◌≡◌, ◌+◌, ◌-◌, ◌^◌, ◌<◌, ℕ, List, IfSome, None, Some};
ghost use Rattle.std.specs.Borrow.{Bor};
ghost use Rattle.sqlite.specs.Held.{state};
ghost use Rattle.tables.specs.Reading.{OnlyReads};
ghost use Rattle.desk.specs.Journals.{IsJournalTold};
ghost use Rattle.desk.specs.Mends.{IsMendPage};
ghost use Rattle.desk.specs.declared.orders.MendOrder.{MendOrder};
ghost use Rattle.desk.specs.declared.orders.PublishOrder.{PublishOrder};
ghost use Rattle.desk.specs.Pages.{IsErrorTold, Tells, outputs_of};
ghost use Rattle.desk.specs.Publications.{IsPublishTold};
ghost use Rattle.desk.specs.Seconds.{IsSecondPage};
ghost use Rattle.connections.specs.Streams.{stream_of};
ghost use Rattle.count_office.specs.Done.{IsDoneWith, IsReadingTold};
ghost use Rattle.count_office.specs.Serving.{ServesWith};
ghost use Rattle.sqlite_wal.specs.Reads.{AreClean};
ghost use Rattle.sqlite.specs.Closing.{IsCopied};

// the words of an order, and the files that it names
mod codes_file;
mod order_files;
// the path of a database, what exists there, and its lock
mod file_lock;
mod moved_note;
mod notices;
mod order_run;
mod path_note;
mod path_state;
// an order that is sent to the program that serves the database
mod order_client;
mod order_socket;
// the order to serve: on any host, and on this machine
mod gate;
mod host;
mod localhost;
mod public;
mod serving;
// what else is done while the office is served: copies, the journal, a new office from it, published results, and checks of its files
mod copies;
mod file_watch;
mod mends;
mod new_file;
mod new_folder;
mod publishing;
mod served_file;
// an office and a second record of it
mod disk_room;
mod record_note;
mod record_place;
mod record_remark;
mod second_file;
mod second_order;
mod second_words;
mod seconds;
mod serving_record;
mod timed_record;
// the two outputs
mod screen;
// what is printed in addition for a person at a terminal
mod remark_words;
mod remarks;

use codes_file::{NewCodes, make_codes_file, print_slips};
use copies::copy;
use desk::perform::perform;
use desk::{
    Failure, Order, ProgressSink, Task, WordsFault, journal_office, order, tell_failure, tell_words,
};
use file_lock::FileLock;
use host::Host;
use localhost::Succession;
use mends::{OldOffice, mend};
use order_files::{LocalFolder, OrderFiles};
use order_run::OrderRun;
use path_state::PathState;
use publishing::publish;
use remarks::perform_and_remark;
use screen::Screen;
use second_order::{RecordedTask, perform_with_record};
use second_words::{SplitWords, split_words};
use seconds::second;
use serving::Serving;
use serving_record::serve_in_place;
use sqlite::{Alter, Connection, ErrorCode, FileStore, Files};
use sqlite_disk::Disk;
use std::alloc::Global;
use std::cell::Cell;
use std::io::IsTerminal;
use std::process::ExitCode;
use std::{env, io};
use store::Fault;
use streams::{Counted, Sink};

/// A locked database: its path as given, what exists there, and its file; and those of the order's files that have already been
/// read, if any; and the path of a second record, if one was given. Also whether it is that of a new office, which takes the place of one
/// that was served, and what is left of that.
#[derive(Clone, Copy)]
pub struct LockedDatabase<'a> {
    pub rt: &'a HostRuntime,
    pub path: &'a str,
    pub found: &'a PathState,
    pub lock: &'a FileLock,
    pub brought: &'a Option<OrderFiles>,
    pub second: Option<&'a str>,
    pub is_successor: bool,
    pub succession: &'a Succession,
}

/// Returns the program's words, from DB on.
fn given_words(rt: &HostRuntime) -> Result<Vec<String>, WordsFault> {
    let all = match env::args(rt) {
        Ok(all) => all,
        Err(error) if error.kind() == io::ErrorKind::OutOfMemory => return Err(WordsFault::Memory),
        Err(_) => return Err(not_text(rt.alloc())),
    };
    match all.skip(1).collect(rt.alloc()) {
        Ok(words) => Ok(words),
        Err(_) => Err(WordsFault::Memory),
    }
}

fn not_text(alloc: Global) -> WordsFault {
    match String::from_str(alloc, "error: a word is not UTF-8\n") {
        Ok(text) => WordsFault::Words { text, status: 2 },
        Err(_) => WordsFault::Memory,
    }
}

/// Returns whether a person can see the error output, but not the replies to the records in a file.
fn wants_progress(rt: &HostRuntime, task: &Task<'_>) -> bool {
    task.file().is_some() && rt.stderr().is_terminal() && !rt.stdout().is_terminal()
}

/// Performs a task on an open connection to the office, using the files that the task names, and the second record if there is one.
fn perform_task<S: Alter, O: Sink, E: Sink>(
    place: LockedDatabase<'_>,
    task: &Task<'_>,
    conn: Connection<S>,
    out: &mut O,
    err: &mut E,
) -> (u8, Connection<S>)
    requires out { O.failed out.old < 2 ^ 64 - 1 }
    requires err { E.failed err.old < 2 ^ 64 - 1 }
    ensures { IsDoneWith place.entry.second (state S.Store) task.now result.0 conn result.1 }
{
    let paths = LocalFolder {
        rt: place.rt,
        brought: place.brought,
    };
    match place.second {
        Some(second) => {
            let asked = RecordedTask {
                paths,
                task,
                database: place.found.database(),
                second,
            };
            perform_with_record(asked, conn, out, err)
        }
        None => perform(place.rt.alloc(), task, conn, &paths, out, err),
    }
}

/// Performs a task as above, with progress if a person is watching.
fn perform_with_progress<S: Alter, O: Sink, E: Sink>(
    place: LockedDatabase<'_>,
    task: &Task<'_>,
    conn: Connection<S>,
    out: &mut O,
    err: &mut E,
) -> (u8, Connection<S>)
    requires out { O.failed out.old < 2 ^ 64 - 1 }
    requires err { E.failed err.old < 2 ^ 64 - 1 }
    ensures { IsDoneWith place.entry.second (state S.Store) task.now result.0 conn result.1 }
{
    let rt = place.rt;
    if wants_progress(rt, task) {
        let mut watched = ProgressSink::new(out, rt.stderr());
        return perform_task(place, task, conn, &mut watched, err);
    }
    perform_task(place, task, conn, out, err)
}

/// Performs an order on an open connection to the office in a locked database. An order to serve is performed on the host.
fn dispatch_order<H: Host, S: Alter, O: Sink, E: Sink>(
    place: LockedDatabase<'_>,
    host: &mut H,
    order: &Order<'_>,
    conn: Connection<S>,
    out: &mut O,
    err: &mut E,
) -> (u8, Connection<S>)
    requires out { O.failed out.old < 2 ^ 64 - 1 }
    requires err { E.failed err.old < 2 ^ 64 - 1 }
    ensures performs { (task : Task) → order.now ≡ Order.Perform task → IsDoneWith place.entry.second (state S.Store) task result.0 conn result.1 }
    ensures journals { order.now ≡ Order.Journal → (let outputs = outputs_of O.taken O.failed E.taken E.failed in
        Tells (outputs out.old err.old) (outputs out.new err.new) result.0 (λ _ page. IsReadingTold IsJournalTold page (state S.Store conn) (state S.Store result.1)))
        × OnlyReads (state S.Store conn) (state S.Store result.1) }
    ensures mends { (asked : MendOrder) → order.now ≡ Order.Mend asked → (let outputs = outputs_of O.taken O.failed E.taken E.failed in
        Tells (outputs out.old err.old) (outputs out.new err.new) result.0 (λ _ page. IsReadingTold (λ s. IsMendPage s asked) page (state S.Store conn) (state S.Store result.1)))
        × OnlyReads (state S.Store conn) (state S.Store result.1) }
    ensures publishes { (asked : PublishOrder) → order.now ≡ Order.Publish asked → (let outputs = outputs_of O.taken O.failed E.taken E.failed in
        Tells (outputs out.old err.old) (outputs out.new err.new) result.0 (λ _ page. IsReadingTold (λ s. IsPublishTold s asked) page (state S.Store conn) (state S.Store result.1)))
        × OnlyReads (state S.Store conn) (state S.Store result.1) }
    ensures seconds { (path : Bor (List ℕ)) → order.now ≡ Order.Second path → (let outputs = outputs_of O.taken O.failed E.taken E.failed in
        Tells (outputs out.old err.old) (outputs out.new err.new) result.0 (λ _ page. IsReadingTold (λ s. IsSecondPage s path.now) page (state S.Store conn) (state S.Store result.1)))
        × OnlyReads (state S.Store conn) (state S.Store result.1) }
    ensures serves { (serving : Serving) → order.now ≡ Order.Serve serving.port serving.connections serving.origin serving.codes serving.public
        → (out.new ≡ out.old) × ServesWith place.entry.second (IsErrorTold E.taken E.failed err.old err.new) (err.new ≡ err.old) result.0 serving (H.codes_at host.old) (H.file host.old)
        (stream_of H.Sockets.Stream.held H.Sockets.Stream.taken H.Sockets.Stream.failed) (state S.Store) (H.known host.old) (H.known host.new) conn result.1 }
{
    let rt = place.rt;
    match order {
        Order::Perform(task) => perform_with_progress(place, task, conn, out, err),
        Order::Serve {
            port,
            connections,
            origin,
            codes,
            public,
        } => {
            let serving = Serving {
                port: *port,
                connections: *connections,
                origin: *origin,
                codes: *codes,
                public: *public,
            };
            serve_in_place(place, host, serving, conn, err)
        }
        Order::Copy { path } => copy(rt, conn, path, out, err),
        Order::Journal => journal(rt, conn, out, err),
        Order::Second { path } => {
            let paths = LocalFolder {
                rt,
                brought: place.brought,
            };
            second(paths, conn, path, out, err)
        }
        Order::Mend(asked) => {
            let old = OldOffice {
                rt,
                database: place.found.database(),
            };
            mend(old, conn, asked, out, err)
        }
        Order::Publish(asked) => publish(rt, conn, *asked, out, err),
        Order::Codes {
            path,
            clerks,
            with_office,
        } => {
            let asked = NewCodes {
                path: *path,
                clerks: *clerks,
                with_office: *with_office,
            };
            (make_codes_file(rt, asked, out, err), conn)
        }
        Order::Slips { path, address } => (print_slips(rt, path, *address, out, err), conn),
    }
}

/// Prints the journal of the office, after replaying it in an empty office in memory. Only reads the office. Nothing is assumed
/// about that memory. If the status is 0, replaying what was printed produces exactly this office.
fn journal<S: Alter, O: Sink, E: Sink>(
    rt: &HostRuntime,
    mut conn: Connection<S>,
    out: &mut O,
    err: &mut E,
) -> (u8, Connection<S>)
    requires out { O.failed out.old < 2 ^ 64 - 1 }
    requires err { E.failed err.old < 2 ^ 64 - 1 }
    ensures told { let outputs = outputs_of O.taken O.failed E.taken E.failed in Tells (outputs out.old err.old) (outputs out.new err.new) result.0
        (λ _ page. IsReadingTold IsJournalTold page (state S.Store conn) (state S.Store result.1)) }
    ensures reads { OnlyReads (state S.Store conn) (state S.Store result.1) }
{
    match Connection::open_in_memory(rt.alloc()) {
        Ok(blank) => {
            let (status, _) = journal_office(rt.alloc(), &mut conn, blank, out, err);
            (status, conn)
        }
        Err(_) => {
            let status = tell_failure(Failure::Office(Fault::Memory), err);
            (status, conn)
        }
    }
}

/// Returns whether another program that uses SQLite has locked the file.
fn is_busy(error: &sqlite::Error) -> bool {
    matches!(error, sqlite::Error::SqliteFailure(ErrorCode::DatabaseBusy))
}

/// Copies the log into the database file and returns both files. DB alone is then the office, even after a stop. If copying
/// fails, the log still contains everything that was answered.
fn close<D: Disk + Drop>(conn: Connection<FileStore<D>>) -> Option<Files<D>>
    ensures copied { IfSome result (λ files. AreClean D.Disk files.log files.db → IsCopied conn files) }
{
    match conn.close_files() {
        Ok(files) => Some(files),
        Err((_, store)) => {
            drop(store.close());
            None
        }
    }
}

/// Performs an order on the database that the first word names, and returns the status.
fn perform_at_path<'a, O: Sink, E: Sink>(
    rt: &'a HostRuntime,
    given: &'a SplitWords<'a>,
    order: &'a Order<'a>,
    out: &mut O,
    err: &mut E,
) -> u8
    requires out { O.failed out.old < 2 ^ 64 - 1 }
    requires err { E.failed err.old < 2 ^ 64 - 1 }
{
    let succession = Succession {
        is_open: Cell::new(false),
        has_moved: Cell::new(false),
        is_noted: Cell::new(false),
        listeners: Cell::new(None),
    };
    let words = given.words.as_slice();
    let path = match words.first() {
        Some(path) => *path,
        None => "",
    };
    let request = OrderRun {
        rt,
        path,
        words,
        order,
        second: given.second.unwrap_or(""),
        is_successor: false,
        succession: &succession,
    };
    let status = perform_and_remark(request, out, err);
    drop(succession);
    status
}

/// Returns whether an order can have a second record: it serves an office that exists, or its requests, if any, change one.
fn takes_second(order: &Order<'_>) -> bool {
    matches!(
        order,
        Order::Perform(Task::InOffice(_)) | Order::Serve { .. }
    )
}

/// Returns whether an order must not have the second record that was given: the order can't have one, or the name of its file is empty.
fn is_second_refused(second: Option<&str>, order: &Order<'_>) -> bool {
    match second {
        Some(path) => path.is_empty() || !takes_second(order),
        None => false,
    }
}

/// Prints that an order must not have the second record that was given, and returns the status.
fn refuse_second<O: Sink, E: Sink>(alloc: Global, out: &mut O, err: &mut E) -> u8
    requires out { O.failed out.old < 2 ^ 64 - 1 }
    requires err { E.failed err.old < 2 ^ 64 - 1 }
{
    let text =
        "error: --second FILE goes with an order that changes or serves an office, and FILE with a name\n";
    match String::from_str(alloc, text) {
        Ok(text) => tell_words(&WordsFault::Words { text, status: 2 }, out, err),
        Err(_) => tell_words(&WordsFault::Memory, out, err),
    }
}

/// Does what the given words, starting with DB, ask for, and returns the status. Making codes and printing slips need no database.
fn follow_split<O: Sink, E: Sink>(
    rt: &HostRuntime,
    given: &SplitWords<'_>,
    out: &mut O,
    err: &mut E,
) -> u8
    requires out { O.failed out.old < 2 ^ 64 - 1 }
    requires err { E.failed err.old < 2 ^ 64 - 1 }
{
    match order(rt.alloc(), &given.words) {
        Ok(order) if is_second_refused(given.second, &order) => {
            refuse_second(rt.alloc(), out, err)
        }
        Ok(
            Order::Codes {
                path,
                clerks,
                with_office,
            },
        ) => {
            let asked = NewCodes {
                path,
                clerks,
                with_office,
            };
            make_codes_file(rt, asked, out, err)
        }
        Ok(Order::Slips { path, address }) => print_slips(rt, path, address, out, err),
        Ok(order) => perform_at_path(rt, &*given, &order, out, err),
        Err(fault) => tell_words(&fault, out, err),
    }
}

/// Does what the given words, starting with DB, ask for, and returns the status. They may have `--second FILE` in addition to an
/// order's own.
fn follow_words<O: Sink, E: Sink>(rt: &HostRuntime, words: &[&str], out: &mut O, err: &mut E) -> u8
    requires out { O.failed out.old < 2 ^ 64 - 1 }
    requires err { E.failed err.old < 2 ^ 64 - 1 }
{
    match split_words(rt.alloc(), words) {
        Ok(given) => follow_split(rt, &given, out, err),
        Err(_) => tell_words(&WordsFault::Memory, out, err),
    }
}

/// Prints the help for an order. If the word isn't the name of an order, it is read as DB, and the help for all orders is
/// printed.
fn tell_help_of<O: Sink, E: Sink>(rt: &HostRuntime, name: &str, out: &mut O, err: &mut E) -> u8
    requires out { O.failed out.old < 2 ^ 64 - 1 }
    requires err { E.failed err.old < 2 ^ 64 - 1 }
{
    let words = ["DB", name, "--help"];
    match order(rt.alloc(), &words) {
        Err(help) if matches!(help, WordsFault::Words { status: 0, .. }) => {
            tell_words(&help, out, err)
        }
        _ => follow_words(rt, &["DB", "--help"], out, err),
    }
}

/// Does what the program's words ask for, and returns the status. Help (including the help for a single order) and the version
/// are printed even without a database.
fn run<O: Sink, E: Sink>(rt: &HostRuntime, out: &mut O, err: &mut E) -> u8
    requires out { O.failed out.old < 2 ^ 64 - 1 }
    requires err { E.failed err.old < 2 ^ 64 - 1 }
{
    let given = match given_words(rt) {
        Ok(given) => given,
        Err(fault) => return tell_words(&fault, out, err),
    };
    let words: Vec<&str> = match given.iter().map(|word| word.as_str()).collect(rt.alloc()) {
        Ok(words) => words,
        Err(_) => return tell_failure(Failure::Office(Fault::Memory), err),
    };
    match words.as_slice() {
        ["--help" | "-h"] => follow_words(rt, &["DB", "--help"], out, err),
        ["--version" | "-V"] => follow_words(rt, &["DB", "--version"], out, err),
        [name, "--help" | "-h"] => tell_help_of(rt, name, out, err),
        all => follow_words(rt, all, out, err),
    }
}

fn main(rt: HostRuntime) -> ExitCode {
    let (stdout, stderr) = (rt.stdout(), rt.stderr());
    let (is_out, is_err) = (stdout.is_terminal(), stderr.is_terminal());
    let mut out = Screen::new(Counted::new(stdout), is_out);
    let mut err = Screen::new(Counted::new(stderr), is_err);
    ExitCode::from(run(&rt, &mut out, &mut err))
}
