//! Performing an order with a single file that the caller has opened.

ghost use Rattle.std.specs.Prelude.{◌-◌, ◌^◌, ◌<◌, None, IfSome, IsSome};
ghost use Rattle.sqlite.specs.State.{HasCleanDisk};
ghost use Rattle.sqlite.specs.Held.{state};
ghost use Rattle.desk.specs.Headline.{Headline};
ghost use Rattle.desk.specs.Orders.{task_of};
ghost use Rattle.desk.specs.Pages.{Tells, outputs_of};

use crate::folders::Folder;
use crate::orders::Order;
use sqlite::{Alter, Connection};
use std::alloc::Global;
use std::cell::Cell;
use std::io::Read;
use streams::Sink;

/// A folder of one file, which it returns for the first path that is opened and for no other.
// No clause can express what a cell contains, so nothing is specified about the file's bytes.
#[derive(Drop)]
struct OneFile<R> {
    file: Cell<Option<R>>,
}

impl<R: Read + Drop> Folder for OneFile<R> {
    type File = R;

    fn open(&self, _path: &str) -> Option<R> {
        self.file.take()
    }
}

/// Performs an order on a connection with the file that the order names, prints its lines, and returns the status and the
/// connection.
///
/// `file` is `None` if the file couldn't be opened. This is [`perform`](crate::perform::perform) with a folder of that one file, so
/// the import files that a script names can't be opened. It accepts any order except those to serve, to copy, to print a journal, to
/// compare the office with a second record,
/// to mend, to publish, to make codes, or to print slips.
pub fn perform<S: Alter, R: Read + Drop, O: Sink, E: Sink>(
    alloc: Global,
    order: &Order<'_>,
    conn: Connection<S>,
    file: Option<R>,
    out: &mut O,
    err: &mut E,
) -> (u8, Connection<S>)
    requires out { O.failed out.old < 2 ^ 64 - 1 }
    requires err { E.failed err.old < 2 ^ 64 - 1 }
    requires task { IsSome (task_of order.now) }
    ensures headline { IfSome (task_of order.now) (λ task. let outputs = outputs_of O.taken O.failed E.taken E.failed in Tells (outputs out.old err.old) (outputs out.new err.new) result.0
        (λ cut page. HasCleanDisk (state S.Store result.1) → Headline (λ _. None) task cut page result.0 (state S.Store conn) (state S.Store result.1))) }
{
    let folder = OneFile {
        file: Cell::new(file),
    };
    match order {
        Order::Perform(task) => { crate::perform::perform(alloc, task, conn, &folder, out, err) }
        Order::Copy { .. } => unreachable!(),
        Order::Journal => unreachable!(),
        Order::Second { .. } => unreachable!(),
        Order::Mend(_) => unreachable!(),
        Order::Publish(_) => unreachable!(),
        Order::Codes { .. } => unreachable!(),
        Order::Slips { .. } => unreachable!(),
        Order::Serve { .. } => unreachable!(),
    }
}
