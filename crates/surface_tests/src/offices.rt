//! The functions of `office` and `wire`: requests, reads, and serving one connection.

ghost use Rattle.std.specs.Prelude.{◌-◌, ◌^◌, ◌<◌};

use office::{Answer, Migrated, Office, Run, Status, Stop, Work};
use paper::Columns;
use register::{Command, Request};
use sqlite::{Alter, Connection};
use std::alloc::Global;
use store::Fault;
use votes::{Sink, Source};
use wire::Served;
use wire::plain::serve_one;

fn create<S: Alter>(
    alloc: Global,
    conn: Connection<S>,
) -> Result<Office<S>, (Fault, Connection<S>)> {
    Office::create(alloc, conn)
}

fn open_from<S: Alter>(
    alloc: Global,
    conn: Connection<S>,
) -> Result<Office<S>, (Fault, Connection<S>)> {
    Office::open_from(alloc, conn)
}

fn migrate<S: Alter>(alloc: Global, conn: &mut Connection<S>) -> Result<Migrated, Fault> {
    Office::migrate(alloc, conn)
}

fn into_connection<S: Alter>(office: Office<S>) -> Connection<S> {
    office.into_connection()
}

fn handle<S: Alter>(
    office: &mut Office<S>,
    actor: u32,
    id: &str,
    command: &Command,
) -> Result<Answer, Fault> {
    office.handle(actor, id, command)
}

fn run<S: Alter>(office: &mut Office<S>, requests: &[Request]) -> Run {
    office.run(requests)
}

fn sheet<S: Alter>(office: &mut Office<S>, ward: u32) -> Result<String, Stop> {
    office.sheet(ward)
}

fn declaration<S: Alter>(office: &mut Office<S>, ward: u32) -> Result<String, Stop> {
    office.result(ward)
}

fn status<S: Alter>(office: &mut Office<S>, ward: u32) -> Result<Status, Stop> {
    office.status(ward)
}

fn work<S: Alter>(office: &mut Office<S>, clerk: u32) -> Result<Vec<Work>, Stop> {
    office.work(clerk)
}

fn columns<S: Alter>(office: &mut Office<S>, batch: u32) -> Result<Columns, Stop> {
    office.columns(batch)
}

fn serve<R: Source, W: Sink, S: Alter>(
    alloc: Global,
    reader: &mut R,
    writer: &mut W,
    office: &mut Office<S>,
) -> Served
    requires reads { R.failed reader.old < 2 ^ 64 - 1 }
    requires writes { W.failed writer.old < 2 ^ 64 - 1 }
{
    serve_one(alloc, reader, writer, office)
}

/// Returns the status of the response, if one was sent.
fn status_of(served: Served) -> Option<u16> {
    match served {
        Served::Answered(status) => Some(status),
        Served::ReadFailed => None,
        Served::WriteFailed => None,
    }
}
