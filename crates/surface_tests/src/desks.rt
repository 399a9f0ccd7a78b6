//! The functions of `desk`: parsing words as an order, and executing the order on a connection and its file.

ghost use Rattle.std.specs.Prelude.{◌-◌, ◌^◌, ◌<◌, IsSome};
ghost use Rattle.desk.specs.Orders.{task_of};

use desk::plain::perform;
use desk::{Order, WordsFault, order};
use sqlite::{Alter, Connection};
use std::alloc::Global;
use std::io::Read;
use votes::Sink;

fn order_of<'a>(alloc: Global, words: &'a [&'a str]) -> Result<Order<'a>, WordsFault> {
    order(alloc, words)
}

fn performed<S: Alter, R: Read + Drop, O: Sink, E: Sink>(
    alloc: Global,
    order: &Order<'_>,
    conn: Connection<S>,
    file: Option<R>,
    out: &mut O,
    err: &mut E,
) -> (u8, Connection<S>)
    requires out { O.failed out.old < 2 ^ 64 - 1 }
    requires err { E.failed err.old < 2 ^ 64 - 1 }
    requires task { IsSome (task_of order.now) }
{
    perform(alloc, order, conn, file, out, err)
}
