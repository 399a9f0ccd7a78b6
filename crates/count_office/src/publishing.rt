//! Publishes the results of an office in a new folder on this machine: an office that an order opened, or one that is being served.

ghost use Rattle.std.specs.Prelude.{◌-◌, ◌^◌, ◌<◌};
ghost use Rattle.sqlite.specs.Held.{state};
ghost use Rattle.tables.specs.Reading.{OnlyReads};
ghost use Rattle.office.specs.Answers.{IsReadAt, WhenOpenAt};
ghost use Rattle.desk.specs.Pages.{Tells, outputs_of};
ghost use Rattle.desk.specs.Publications.{IsPublishTold};
ghost use Rattle.count_office.specs.Done.{IsReadingTold};

use crate::new_folder::NewFolder;
use desk::{Failure, PublishOrder, publish_open, tell_failure};
use office::Office;
use sqlite::{Alter, Connection};
use streams::Sink;

/// Publishes the results of an open office, which stays open and is only read, in a new folder at the path that the order names. If the folder isn't published, nothing is left there.
pub fn publish_served<S: Alter, O: Sink, E: Sink>(
    rt: &HostRuntime,
    office: &mut Office<S>,
    asked: PublishOrder<'_>,
    out: &mut O,
    err: &mut E,
) -> u8
    requires out { O.failed out.old < 2 ^ 64 - 1 }
    requires err { E.failed err.old < 2 ^ 64 - 1 }
    ensures told { let outputs = outputs_of O.taken O.failed E.taken E.failed in Tells (outputs out.old err.old) (outputs out.new err.new) result
        (λ _ page. WhenOpenAt (state S.Store) office.old office.new (λ s. IsPublishTold s asked.entry page)) }
    ensures stays { WhenOpenAt (state S.Store) office.old office.new (λ s. IsReadAt s office.new.closed (state S.Store office.new.held)) }
    ensures reads { OnlyReads (state S.Store office.old.held) (state S.Store office.new.held) }
{
    let mut folder = match NewFolder::make(rt, asked.path) {
        Ok(folder) => folder,
        Err(failure) => return tell_failure(failure, err),
    };
    let status = publish_open(rt.alloc(), office, asked, &mut folder, out, err);
    folder.close();
    status
}

/// Publishes the results of the office in a connection's database, which is only read.
pub fn publish<S: Alter, O: Sink, E: Sink>(
    rt: &HostRuntime,
    conn: Connection<S>,
    asked: PublishOrder<'_>,
    out: &mut O,
    err: &mut E,
) -> (u8, Connection<S>)
    requires out { O.failed out.old < 2 ^ 64 - 1 }
    requires err { E.failed err.old < 2 ^ 64 - 1 }
    ensures told { let outputs = outputs_of O.taken O.failed E.taken E.failed in Tells (outputs out.old err.old) (outputs out.new err.new) result.0
        (λ _ page. IsReadingTold (λ s. IsPublishTold s asked.entry) page (state S.Store conn) (state S.Store result.1)) }
    ensures reads { OnlyReads (state S.Store conn) (state S.Store result.1) }
{
    match Office::open_from(rt.alloc(), conn) {
        Ok(mut office) => {
            let status = publish_served(rt, &mut office, asked, out, err);
            (status, office.into_connection())
        }
        Err((fault, conn)) => (tell_failure(Failure::Office(fault), err), conn),
    }
}
