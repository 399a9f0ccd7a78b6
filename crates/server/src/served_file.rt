//! The file of the office that is served, and what else an order needs: a new file for a copy or for another office, and empty
//! databases for a trial run of a journal.

ghost use Rattle.std.specs.Prelude.{◌≡◌, ◌≢◌, ◌-◌, ◌^◌, ◌<◌, Bool, IfOk, IfSome, List, Option, Some, string_bytes, true, ℕ};
ghost use Rattle.sqlite.specs.Held.{state};
ghost use Rattle.sqlite.specs.State.{HasCleanDisk};
ghost use Rattle.office.specs.Answers.{IsReadAt, WhenOpenAt};
ghost use Rattle.desk.specs.Journals.{IsJournalTold};
ghost use Rattle.desk.specs.Mends.{IsMendPage};
ghost use Rattle.desk.specs.Pages.{Tells, outputs_of};
ghost use Rattle.clap.specs.Words.{Text};
ghost use Rattle.desk.specs.Publications.{IsPublishTold};
ghost use Rattle.desk.specs.declared.orders.PublishOrder.{PublishOrder};
ghost use Rattle.server.specs.ServedOrders.{IsCopyTold, IsSecondIn};

use desk::{Folder, MendOrder, PublishOrder};
use office::Office;
use sqlite::Alter;
use std::alloc::{AllocError, Global};
use streams::Sink;

/// The destination of a copy, of a new office or of published results: a path relative to a folder.
#[derive(Clone, Copy)]
pub struct Destination<'a> {
    pub folder: &'a str,
    pub path: &'a str,
}

/// The file of the office that is served. It copies the open office to a new file, prints its journal, makes another office from
/// that journal in a new file, and publishes its results in a new folder. It also compares the office with a second record of it,
/// and says where the office's own record is. The office stays open and is only read. The implementing program chooses the files.
pub trait ServedFile {
    /// Whether the file of the office is permanently known to be whole, or permanently known not to be. Nothing is known about
    /// a real file on this machine.
    ghost whole: { Self → Option Bool };

    /// That a new office has taken the place of this one. An implementation for a file that can't move says that this never holds.
    /// Nothing is known about a real file on this machine.
    ghost moved: { Self → Type 0 };

    /// That an order which makes a file ended with a status, given the file's folder, its path, and that status.
    ghost ended: { Self → List ℕ → List ℕ → ℕ → Type 0 };

    /// That an order to publish, with this title and with or without ballots, ended with a status, given the folder in which that of the
    /// results is, its path, and that status.
    ghost published: { Self → PublishOrder → List ℕ → List ℕ → ℕ → Type 0 };

    /// What a text says of where the second record of the office is. Nothing is known about a real file on this machine.
    ghost described: { Self → Text → Type 0 };

    /// Returns whether the file of the office is still there, whole, and not replaced by another. If the answer is permanently
    /// known, returns that answer.
    fn is_whole(&self) -> bool
        ensures { IfSome (whole self.now) (λ known. result ≡ known) };

    /// Returns whether a new office has taken the place of this one. If so, the file isn't whole.
    fn has_moved(&self) -> bool
        ensures moved { result ≡ true → moved self.now }
        ensures gone { result ≡ true → whole self.now ≢ Some true };

    /// Copies the office to a new file, and prints how much the copy contains.
    fn copy<S: Alter, O: Sink, E: Sink>(
        &self,
        office: &mut Office<S>,
        to: Destination<'_>,
        out: &mut O,
        err: &mut E,
    ) -> u8
        requires out { O.failed out.old < 2 ^ 64 - 1 }
        requires err { E.failed err.old < 2 ^ 64 - 1 }
        ensures told { let outputs = outputs_of O.taken O.failed E.taken E.failed in Tells (outputs out.old err.old) (outputs out.new err.new) result
            (λ _ page. WhenOpenAt (state S.Store) office.old office.new (λ s. IsCopyTold s page)) }
        ensures stays { WhenOpenAt (state S.Store) office.old office.new (λ s. IsReadAt s office.new.closed (state S.Store office.new.held)) }
        ensures ended { ended self.now to.entry.folder.now to.entry.path.now result }
        ensures clean { HasCleanDisk (state S.Store office.new.held) → HasCleanDisk (state S.Store office.old.held) };

    /// Prints the journal of the office.
    fn journal<S: Alter, O: Sink, E: Sink>(
        &self,
        office: &mut Office<S>,
        out: &mut O,
        err: &mut E,
    ) -> u8
        requires out { O.failed out.old < 2 ^ 64 - 1 }
        requires err { E.failed err.old < 2 ^ 64 - 1 }
        ensures told { let outputs = outputs_of O.taken O.failed E.taken E.failed in Tells (outputs out.old err.old) (outputs out.new err.new) result
            (λ _ page. WhenOpenAt (state S.Store) office.old office.new (λ s. IsJournalTold s page)) }
        ensures stays { WhenOpenAt (state S.Store) office.old office.new (λ s. IsReadAt s office.new.closed (state S.Store office.new.held)) }
        ensures clean { HasCleanDisk (state S.Store office.new.held) → HasCleanDisk (state S.Store office.old.held) };

    /// Makes a new office from the journal of the open one, in a new file, and prints how it differs. If the order asks for it, the
    /// new office then takes the place of the open one.
    fn mend<S: Alter, O: Sink, E: Sink>(
        &self,
        office: &mut Office<S>,
        asked: &MendOrder<'_>,
        to: Destination<'_>,
        out: &mut O,
        err: &mut E,
    ) -> u8
        requires out { O.failed out.old < 2 ^ 64 - 1 }
        requires err { E.failed err.old < 2 ^ 64 - 1 }
        ensures told { let outputs = outputs_of O.taken O.failed E.taken E.failed in Tells (outputs out.old err.old) (outputs out.new err.new) result
            (λ _ page. WhenOpenAt (state S.Store) office.old office.new (λ s. IsMendPage s asked.now page)) }
        ensures stays { WhenOpenAt (state S.Store) office.old office.new (λ s. IsReadAt s office.new.closed (state S.Store office.new.held)) }
        ensures ended { ended self.now to.entry.folder.now to.entry.path.now result }
        ensures clean { HasCleanDisk (state S.Store office.new.held) → HasCleanDisk (state S.Store office.old.held) };

    /// Publishes the results of the office in a new folder, and prints how many wards and files that has.
    fn publish<S: Alter, O: Sink, E: Sink>(
        &self,
        office: &mut Office<S>,
        asked: PublishOrder<'_>,
        to: Destination<'_>,
        out: &mut O,
        err: &mut E,
    ) -> u8
        requires out { O.failed out.old < 2 ^ 64 - 1 }
        requires err { E.failed err.old < 2 ^ 64 - 1 }
        ensures told { let outputs = outputs_of O.taken O.failed E.taken E.failed in Tells (outputs out.old err.old) (outputs out.new err.new) result
            (λ _ page. WhenOpenAt (state S.Store) office.old office.new (λ s. IsPublishTold s asked.entry page)) }
        ensures stays { WhenOpenAt (state S.Store) office.old office.new (λ s. IsReadAt s office.new.closed (state S.Store office.new.held)) }
        ensures ended { published self.now asked.entry to.entry.folder.now to.entry.path.now result }
        ensures clean { HasCleanDisk (state S.Store office.new.held) → HasCleanDisk (state S.Store office.old.held) };

    /// Compares the office with a second record of it, in a file of a folder, and prints the outcome.
    fn second<S: Alter, F: Folder, O: Sink, E: Sink>(
        &self,
        office: &mut Office<S>,
        folder: &F,
        path: &str,
        out: &mut O,
        err: &mut E,
    ) -> u8
        requires out { O.failed out.old < 2 ^ 64 - 1 }
        requires err { E.failed err.old < 2 ^ 64 - 1 }
        ensures told { let outputs = outputs_of O.taken O.failed E.taken E.failed in Tells (outputs out.old err.old) (outputs out.new err.new) result
            (λ _ page. WhenOpenAt (state S.Store) office.old office.new (λ s. IsSecondIn (F.held folder.now) s path.now page)) }
        ensures stays { WhenOpenAt (state S.Store) office.old office.new (λ s. IsReadAt s office.new.closed (state S.Store office.new.held)) }
        ensures clean { HasCleanDisk (state S.Store office.new.held) → HasCleanDisk (state S.Store office.old.held) };

    /// Returns a text that says where the second record of the office is, or that there is none. The only error is a failed allocation.
    fn record_text(&self, alloc: Global) -> Result<String, AllocError>
        ensures { IfOk result (λ text. described self.now (string_bytes text)) };
}
