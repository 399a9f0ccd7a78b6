//! Compares an office with a second record of it, after replaying the record in memory. The office is only read.

ghost use Rattle.std.specs.Prelude.{◌-◌, ◌^◌, ◌<◌, IfOk};
ghost use Rattle.sqlite.specs.Held.{state};
ghost use Rattle.sqlite.specs.Steps.{IsEmpty, over_memory};
ghost use Rattle.tables.specs.Reading.{OnlyReads};
ghost use Rattle.office.specs.Answers.{IsReadAt, WhenOpenAt};
ghost use Rattle.desk.specs.Pages.{Tells, outputs_of};
ghost use Rattle.desk.specs.Seconds.{IsSecondPage};
ghost use Rattle.server.specs.ServedOrders.{IsSecondIn};
ghost use Rattle.count_office.specs.Done.{IsReadingTold};

use crate::order_files::LocalFolder;
use desk::{Failure, Folder, SecondTrial, second_open, tell_failure};
use office::Office;
use sqlite::{Alter, Connection, MemStore};
use std::alloc::{AllocError, Global};
use store::Fault;
use streams::Sink;

/// Returns two empty databases in memory.
fn trial_in_memory(alloc: Global) -> Result<SecondTrial<MemStore>, AllocError>
    ensures { IfOk result (λ trial. IsEmpty (state over_memory trial.same) × IsEmpty (state over_memory trial.other)) }
{
    let same = Connection::open_in_memory(alloc)?;
    let other = Connection::open_in_memory(alloc)?;
    Ok(SecondTrial { same, other })
}

/// Compares an open office, which stays open and is only read, with the second record in a file of a folder, and prints the outcome.
pub fn second_served<S: Alter, F: Folder, O: Sink, E: Sink>(
    alloc: Global,
    folder: &F,
    office: &mut Office<S>,
    path: &str,
    out: &mut O,
    err: &mut E,
) -> u8
    requires out { O.failed out.old < 2 ^ 64 - 1 }
    requires err { E.failed err.old < 2 ^ 64 - 1 }
    ensures told { let outputs = outputs_of O.taken O.failed E.taken E.failed in Tells (outputs out.old err.old) (outputs out.new err.new) result
        (λ _ page. WhenOpenAt (state S.Store) office.old office.new (λ s. IsSecondIn (F.held folder.now) s path.now page)) }
    ensures stays { WhenOpenAt (state S.Store) office.old office.new (λ s. IsReadAt s office.new.closed (state S.Store office.new.held)) }
    ensures reads { OnlyReads (state S.Store office.old.held) (state S.Store office.new.held) }
{
    let trial = match trial_in_memory(alloc) {
        Ok(trial) => trial,
        Err(AllocError) => return tell_failure(Failure::Office(Fault::Memory), err),
    };
    let (status, tried) = second_open(alloc, office, path, folder, trial, out, err);
    let SecondTrial { same: _, other: _ } = tried;
    status
}

/// Compares an open office, which stays open, with the second record in a file.
fn second_in<S: Alter, O: Sink, E: Sink>(
    paths: LocalFolder<'_>,
    office: &mut Office<S>,
    path: &str,
    out: &mut O,
    err: &mut E,
) -> u8
    requires out { O.failed out.old < 2 ^ 64 - 1 }
    requires err { E.failed err.old < 2 ^ 64 - 1 }
    ensures told { let outputs = outputs_of O.taken O.failed E.taken E.failed in Tells (outputs out.old err.old) (outputs out.new err.new) result
        (λ _ page. WhenOpenAt (state S.Store) office.old office.new (λ s. IsSecondPage s path.now page)) }
    ensures reads { OnlyReads (state S.Store office.old.held) (state S.Store office.new.held) }
{
    second_served(paths.rt.alloc(), &paths, office, path, out, err)
}

/// Compares the office in a connection's database, which is only read, with the second record in a file.
pub fn second<S: Alter, O: Sink, E: Sink>(
    paths: LocalFolder<'_>,
    conn: Connection<S>,
    path: &str,
    out: &mut O,
    err: &mut E,
) -> (u8, Connection<S>)
    requires out { O.failed out.old < 2 ^ 64 - 1 }
    requires err { E.failed err.old < 2 ^ 64 - 1 }
    ensures told { let outputs = outputs_of O.taken O.failed E.taken E.failed in Tells (outputs out.old err.old) (outputs out.new err.new) result.0
        (λ _ page. IsReadingTold (λ s. IsSecondPage s path.now) page (state S.Store conn) (state S.Store result.1)) }
    ensures reads { OnlyReads (state S.Store conn) (state S.Store result.1) }
{
    match Office::open_from(paths.rt.alloc(), conn) {
        Ok(mut office) => {
            let status = second_in(paths, &mut office, path, out, err);
            (status, office.into_connection())
        }
        Err((fault, conn)) => (tell_failure(Failure::Office(fault), err), conn),
    }
}
