//! Steps on an open database, and the output of each. This module names no store.

ghost use Rattle.std.specs.Prelude.{◌≡◌, ◌+◌, ◌-◌, ◌^◌, ◌<◌, ⊤, Some, true};

use super::clients::{Evening, LimitedWriter, Port, TestNetwork, joined, pages_of};
use super::loads::loads;
use codes::Codes;
use desk::perform::perform;
use desk::{
    Failure, Folder, MendOrder, Order, PublishOrder, copy_office, order, tell_failure, tell_words,
};
use office::{Answer, Office, ReadError, RunOutcome, Work};
use register::Request;
use server::{Destination, FileNumbers, ServeError, ServedFile, ServerSettings, serve_connections};
use sqlite::{Alter, Connection};
use std::alloc::{AllocError, Global};
use std::test::Fail;
use store::Fault;
use streams::{Broken, Counted, Sink};
use wire::{Gate, HttpSettings, Page};

/// One step of a script.
#[derive(Clone, Copy, Debug)]
pub enum Step<'a> {
    /// An order, given by its words. The file that they name doesn't exist.
    Order(&'a [&'a str]),
    /// Like `Order`, except that the file named by the words has the given bytes.
    FileOrder(&'a [&'a str], &'a [u8]),
    /// A script. Each file it names has the bytes next to its path, and no other file exists.
    Script(&'a [u8], TestFiles<'a>),
    /// Like `FileOrder`, but each of the two outputs accepts a limited number of bytes.
    BreakingOrder(&'a [&'a str], &'a [u8], OutputLimits),
    /// A list of requests to a new office; the answers are the output.
    List(&'a [Request]),
    /// A request to the open office for a clerk's work; the answer is the output.
    Work(u32),
    /// Reading a ward's papers and count from the open store; the values read are the output.
    Loads(u32),
    /// Serving clients of the open office; accepting a client may fail, and connections may break. The responses,
    /// separated by line feeds, are the output. The outcome of serving is the error output.
    Serve(Evening<'a>),
    /// Serving clients of the open office on a port, while the clock jumps by more than half a minute; the outcome is the output.
    Listen(&'a Port),
    /// SQL statements that may change the database in any way.
    Change(&'a str),
    /// Every row of every table, as the output.
    Contents,
}

/// Files in memory: the path and the bytes of each.
pub type TestFiles<'a> = &'a [(&'a str, &'a [u8])];

/// A folder with the given files, and the file named by the words.
#[derive(Clone, Copy)]
struct OpenTestFiles<'a> {
    named: Option<&'a str>,
    file: Option<&'a [u8]>,
    files: TestFiles<'a>,
}

impl<'a> Folder for OpenTestFiles<'a> {
    type File = &'a [u8];

    fn open(&self, path: &str) -> Option<&'a [u8]> {
        if self.named == Some(path) {
            return self.file;
        }
        for (name, bytes) in self.files {
            if *name == path {
                return Some(bytes);
            }
        }
        None
    }
}

/// The words of the order that runs a script.
const REPLAY: &[&str] = &["DB", "replay", "FILE"];

/// The number of bytes that the output accepts before it fails, and the number that the error output accepts.
#[derive(Clone, Copy, Debug)]
pub struct OutputLimits {
    pub out: usize,
    pub err: usize,
}

/// Outputs that don't fail.
const AMPLE: OutputLimits = OutputLimits {
    out: usize::MAX,
    err: usize::MAX,
};

/// A status, and what was printed to the output and the error output.
pub type StepExpected<'a> = (u8, &'a str, &'a str);

/// A step, and its expected result.
pub type Case<'a> = (Step<'a>, StepExpected<'a>);

/// The output of an order if the store stopped; this never reports a failed allocation.
pub const STOPPED: StepExpected<'static> = (3, "", "fault 102: store\n");

/// The response to a client if the store stopped.
pub const STOPPED_ANSWER: &str =
    "HTTP/1.1 503 Service Unavailable\r\nContent-Type: application/json\r\nContent-Length: 13\r\nConnection: close\r\n\r\n{\"fault\":102}";

/// What a step printed.
#[derive(Debug, Drop)]
pub struct StepPrinted {
    status: u8,
    out: String,
    err: String,
}

impl StepPrinted {
    pub fn printed_only(alloc: Global, out: String) -> StepPrinted {
        StepPrinted {
            status: 0,
            out,
            err: String::new(alloc),
        }
    }

    /// Returns whether the status is 0.
    pub fn is_done(&self) -> bool {
        self.status == 0
    }

    /// Returns whether an order or a response over HTTP reported that the store stopped.
    pub fn is_stopped(&self) -> bool {
        self.told() == STOPPED || self.out.as_str() == STOPPED_ANSWER
    }

    pub fn told(&self) -> StepExpected<'_> {
        (self.status, self.out.as_str(), self.err.as_str())
    }
}

/// Executes an order with a file, and returns the status.
fn give<S: Alter + Drop, O: Sink, E: Sink>(
    alloc: Global,
    conn: Connection<S>,
    words: &[&str],
    file: Option<&[u8]>,
    shelf: TestFiles<'_>,
    out: &mut O,
    err: &mut E,
) -> (u8, Connection<S>)
    requires out { O.failed out.old < 2 ^ 64 - 1 }
    requires err { E.failed err.old < 2 ^ 64 - 1 }
{
    match order(alloc, words) {
        Ok(Order::Perform(task)) => {
            let folder = OpenTestFiles {
                named: task.file(),
                file,
                files: shelf,
            };
            perform(alloc, &task, conn, &folder, out, err)
        }
        Ok(
            Order::Serve { .. }
            | Order::Copy { .. }
            | Order::Journal
            | Order::Second { .. }
            | Order::Mend(_)
            | Order::Publish(_)
            | Order::Codes { .. }
            | Order::Slips { .. },
        ) => { (tell_failure(Failure::Output, err), conn) }
        Err(fault) => (tell_words(&fault, out, err), conn),
    }
}

fn answered(alloc: Global, run: &RunOutcome) -> Result<String, AllocError> {
    let mut text = String::new(alloc);
    for answer in run.answers.iter() {
        let line = match answer {
            Answer::Done(reply) => format!(in alloc; "done: {reply}\n"),
            Answer::Kept(reply) => format!(in alloc; "kept: {reply}\n"),
            Answer::Refused(why) => format!(in alloc; "refused {}: {}\n", why.number(), why.text()),
        };
        text.push_str(line?.as_str())?;
    }
    if run.fault.is_some() {
        text.push_str("stopped\n")?;
    }
    Ok(text)
}

fn list<S: Alter + Drop>(
    alloc: Global,
    conn: Connection<S>,
    requests: &[Request],
) -> Result<(StepPrinted, Connection<S>), Fail> {
    let Ok(mut office) = Office::create(alloc, conn) else {
        return Err(Fail::from("no office is made"));
    };
    let run = office.run(requests);
    let conn = office.into_connection();
    Ok((
        StepPrinted::printed_only(alloc, answered(alloc, &run)?),
        conn,
    ))
}

/// Returns one line per batch of a clerk's work.
fn work_lines(alloc: Global, work: &[Work]) -> Result<String, AllocError> {
    let mut text = String::new(alloc);
    for one in work {
        let line = format!(in alloc;
            "batch {} ward {} {:?} size {} round {}: {}\n",
            one.batch,
            one.ward,
            one.columns.as_slice(),
            one.size,
            one.round,
            if one.keyed { "keyed" } else { "to key" }
        )?;
        text.push_str(line.as_str())?;
    }
    Ok(text)
}

fn work<S: Alter + Drop>(
    alloc: Global,
    conn: Connection<S>,
    clerk: u32,
) -> Result<(StepPrinted, Connection<S>), Fail> {
    let Ok(mut office) = Office::open_from(alloc, conn) else {
        return Err(Fail::from("no office is opened"));
    };
    let told = office.work(clerk);
    let conn = office.into_connection();
    let text = match told {
        Ok(work) => work_lines(alloc, &work)?,
        Err(ReadError::Refused(why)) => {
            format!(in alloc; "refused {}: {}\n", why.number(), why.text())?
        }
        Err(ReadError::Fault(_)) => return Err(Fail::from("the office returned no work")),
    };
    Ok((StepPrinted::printed_only(alloc, text), conn))
}

/// The settings for serving the test's file: no proxy, no codes, and no copies or journals.
pub const SERVER_SETTINGS: ServerSettings<'static, Unaided> = ServerSettings {
    http: HttpSettings {
        origin: None,
        gate: None,
        public: None,
    },
    file: FileNumbers {
        device: 7,
        inode: 12,
    },
    served_file: &Unaided,
};

/// Returns the codes of an evening, if it has any; no wrong code has been sent yet.
fn codes_of(alloc: Global, evening: Evening<'_>) -> Result<Option<Codes>, Fail> {
    let Some(text) = evening.codes else {
        return Ok(None);
    };
    let Ok(held) = Codes::read(alloc, text.as_bytes()) else {
        return Err(Fail::from("no codes are read"));
    };
    Ok(Some(held))
}

/// Returns the settings of a server with the given codes.
fn terms_of(held: &Option<Codes>) -> ServerSettings<'_, Unaided> {
    let gate = match held {
        Some(codes) => Some(Gate {
            codes,
            page: Page {
                text: "<p>keying</p>",
                policy: "default-src 'none'",
            },
            console: Page {
                text: "<p>console</p>",
                policy: "default-src 'self'",
            },
        }),
        None => None,
    };
    ServerSettings {
        http: HttpSettings {
            origin: None,
            gate,
            public: None,
        },
        file: SERVER_SETTINGS.file,
        served_file: SERVER_SETTINGS.served_file,
    }
}

/// A file that can have no copy, no journal and no published results, from which no new office can be made, and with which no second record can be compared.
#[derive(Clone, Copy)]
pub struct Unaided;

impl ServedFile for Unaided {
    ghost whole = { λ _. Some true };

    ghost moved = { λ _. ⊥ };

    ghost ended = { λ _ _ _ _. ⊤ };

    ghost published = { λ _ _ _ _ _. ⊤ };

    ghost described = { λ _ _. ⊥ };

    fn is_whole(&self) -> bool {
        true
    }

    fn has_moved(&self) -> bool {
        false
    }

    fn copy<S: Alter, O: Sink, E: Sink>(
        &self,
        _office: &mut Office<S>,
        _to: Destination<'_>,
        _out: &mut O,
        err: &mut E,
    ) -> u8 {
        tell_failure(Failure::CopyFailed, err)
    }

    fn journal<S: Alter, O: Sink, E: Sink>(
        &self,
        _office: &mut Office<S>,
        _out: &mut O,
        err: &mut E,
    ) -> u8 {
        tell_failure(Failure::Office(Fault::Memory), err)
    }

    fn mend<S: Alter, O: Sink, E: Sink>(
        &self,
        _office: &mut Office<S>,
        _asked: &MendOrder<'_>,
        _to: Destination<'_>,
        _out: &mut O,
        err: &mut E,
    ) -> u8 {
        tell_failure(Failure::CopyFailed, err)
    }

    fn publish<S: Alter, O: Sink, E: Sink>(
        &self,
        _office: &mut Office<S>,
        _asked: PublishOrder<'_>,
        _to: Destination<'_>,
        _out: &mut O,
        err: &mut E,
    ) -> u8 {
        tell_failure(Failure::CopyFailed, err)
    }

    fn second<S: Alter, F: Folder, O: Sink, E: Sink>(
        &self,
        _office: &mut Office<S>,
        _folder: &F,
        _path: &str,
        _out: &mut O,
        err: &mut E,
    ) -> u8 {
        tell_failure(Failure::Office(Fault::Memory), err)
    }

    fn record_text(&self, _alloc: Global) -> Result<String, AllocError> {
        Err(AllocError)
    }
}

/// Serves the clients of an evening, and returns their responses and the outcome.
fn serve<S: Alter + Drop>(
    alloc: Global,
    conn: Connection<S>,
    evening: Evening<'_>,
) -> Result<(StepPrinted, Connection<S>), Fail> {
    let pages = pages_of(alloc, evening.clients.len())?;
    let held = codes_of(alloc, evening)?;
    let mut office = match Office::open_from(alloc, conn) {
        Ok(office) => office,
        Err((fault, conn)) => {
            let out = String::new(alloc);
            let err = format!(in alloc; "fault {}: {}\n", fault.number(), fault.text())?;
            return Ok((
                StepPrinted {
                    status: 3,
                    out,
                    err,
                },
                conn,
            ));
        }
    };
    let served = {
        let mut coming = TestNetwork::new(evening, &pages);
        serve_connections(
            alloc,
            &mut coming,
            terms_of(&held),
            evening.connections,
            &mut office,
        )
    };
    let conn = office.into_connection();
    let out = joined(alloc, pages)?;
    let err = format!(in alloc; "{served:?}")?;
    Ok((
        StepPrinted {
            status: 0,
            out,
            err,
        },
        conn,
    ))
}

fn listen<S: Alter + Drop>(
    alloc: Global,
    conn: Connection<S>,
    port: &Port,
) -> Result<(StepPrinted, Connection<S>), Fail> {
    let Ok(mut office) = Office::open_from(alloc, conn) else {
        return Err(Fail::from("no office is opened"));
    };
    let most = Some(port.connections);
    let served = match port.network.try_borrow_mut() {
        Ok(mut network) => serve_connections(
            alloc,
            &mut *network,
            SERVER_SETTINGS,
            most,
            &mut office,
        ),
        Err(_) => Err(ServeError::Network),
    };
    let conn = office.into_connection();
    let text = format!(in alloc; "{served:?}")?;
    Ok((StepPrinted::printed_only(alloc, text), conn))
}

const TABLES: &str = "SELECT name FROM sqlite_schema WHERE type = 'table' ORDER BY name";

/// Returns every row of every table, ordered by table name.
fn contents<S: Alter + Drop>(alloc: Global, conn: &mut Connection<S>) -> Result<String, Fail> {
    let mut text = String::new(alloc);
    for found in conn.query_all(TABLES, &[])? {
        let name: String = found.get(0)?;
        writeln!(text, "{name}")?;
        let all = format!(in alloc; "SELECT * FROM {name}")?;
        for row in conn.query_all(all.as_str(), &[])? {
            writeln!(text, "{name} {row:?}")?;
        }
    }
    Ok(text)
}

fn ordered<S: Alter + Drop>(
    alloc: Global,
    conn: Connection<S>,
    words: &[&str],
    file: Option<&[u8]>,
    shelf: TestFiles<'_>,
    limits: OutputLimits,
) -> Result<(StepPrinted, Connection<S>), Fail> {
    let mut out = LimitedWriter::new(alloc, limits.out);
    let mut err = LimitedWriter::new(alloc, limits.err);
    let (status, conn) = {
        let mut out = Counted::new(&mut out);
        let mut err = Counted::new(&mut err);
        give(alloc, conn, words, file, shelf, &mut out, &mut err)
    };
    let (out, err) = (out.text()?, err.text()?);
    Ok((StepPrinted { status, out, err }, conn))
}

/// Copies the office from one connection to another.
pub fn copied<S: Alter + Drop, T: Alter + Drop>(
    alloc: Global,
    conn: &mut Connection<S>,
    copy: &mut Connection<T>,
) -> Result<StepPrinted, Fail> {
    let mut out = LimitedWriter::new(alloc, usize::MAX);
    let mut err = LimitedWriter::new(alloc, usize::MAX);
    let status = {
        let mut out = Counted::new(&mut out);
        let mut err = Counted::new(&mut err);
        copy_office(alloc, conn, copy, &mut out, &mut err).0
    };
    let (out, err) = (out.text()?, err.text()?);
    Ok(StepPrinted { status, out, err })
}

fn done<S: Alter + Drop>(
    alloc: Global,
    mut conn: Connection<S>,
    step: Step<'_>,
) -> Result<(StepPrinted, Connection<S>), Fail> {
    match step {
        Step::Order(words) => ordered(alloc, conn, words, None, &[], AMPLE),
        Step::FileOrder(words, file) => ordered(alloc, conn, words, Some(file), &[], AMPLE),
        Step::Script(script, shelf) => ordered(alloc, conn, REPLAY, Some(script), shelf, AMPLE),
        Step::BreakingOrder(words, file, limits) => {
            ordered(alloc, conn, words, Some(file), &[], limits)
        }
        Step::List(requests) => list(alloc, conn, requests),
        Step::Work(clerk) => work(alloc, conn, clerk),
        Step::Loads(ward) => loads(alloc, conn, ward),
        Step::Serve(evening) => serve(alloc, conn, evening),
        Step::Listen(port) => listen(alloc, conn, port),
        Step::Change(statements) => {
            conn.execute_batch(statements)?;
            Ok((StepPrinted::printed_only(alloc, String::new(alloc)), conn))
        }
        Step::Contents => {
            let text = contents(alloc, &mut conn)?;
            Ok((StepPrinted::printed_only(alloc, text), conn))
        }
    }
}

/// Runs the steps in turn, up to and including the first one that reports a stop.
pub fn play<S: Alter + Drop>(
    alloc: Global,
    mut conn: Connection<S>,
    script: &[Step<'_>],
) -> Result<(Vec<StepPrinted>, Connection<S>), Fail> {
    let mut said = Vec::new(alloc);
    for step in script {
        let (last, back) = done(alloc, conn, *step)?;
        conn = back;
        let stopped = last.is_stopped();
        said.push(last)?;
        if stopped {
            break;
        }
    }
    Ok((said, conn))
}
