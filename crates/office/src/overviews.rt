//! Overviews for the office alone: the wards, a ward's batches and their doubtful papers, the differences between
//! a batch's keyings, how each paper in a batch counts, and the receipts. No read changes the state.
#![tactic(auto, using(crate::proofs::StopLemmas::stops_of_memory))]

ghost use Rattle.std.specs.Prelude.{◌≡◌, true, map, IfErr, Err};
ghost use Rattle.sqlite.specs.Held.{state};
ghost use Rattle.register.specs.Offices.{receipt_entry};
ghost use Rattle.tables.specs.Reading.{OnlyReads};
ghost use Rattle.store.specs.Overviews.{ward_view, batch_view, doubtful_papers_view, differences_view, papers_view};
ghost use Rattle.office.specs.Answers.{WhenOpenAt};
ghost use Rattle.office.specs.Reads.{ReadWhenOpen, ReadFailsBy, ClosesAt};
ghost use Rattle.office.specs.Overviews.{wards_answer, batches_answer, doubtful_answer, differences_answer, papers_answer, receipts_answer, may_have_receipts};

use crate::answers::ReadError;
use crate::open_office::Office;
use crate::reads::{read, refused};
use register::ranges::{is_batch_number, is_clerk, is_ward_number};
use register::{Reason, Receipt};
use sqlite::Alter;
use store::{BatchOverview, CountedPapers, Differences, DoubtfulPapers, Fault, WardOverview};

/// The office itself as an actor.
const OFFICE: u32 = 0;

/// Returns true if the given actor may have receipts, that is, if it is the office or a clerk. `None` stands for all
/// actors.
fn may_have_receipts(actor: Option<u32>) -> bool
    ensures { result ≡ may_have_receipts actor }
{
    match actor {
        Some(actor) => actor == OFFICE || is_clerk(actor),
        None => true,
    }
}

impl<S: Alter> Office<S> {
    /// Returns the overviews of all wards in numerical order, each with the elected candidates once the ward is
    /// declared.
    ///
    /// Nothing is changed. After `Memory` the office stays open; any other fault closes it. A closed office returns
    /// `Closed`.
    pub fn wards(&mut self) -> Result<Vec<WardOverview>, ReadError>
        ensures reads { ReadWhenOpen (state S.Store) self.old self.new (λ wards. map ward_view wards.items) (λ s. wards_answer s) result }
        ensures same { OnlyReads (state S.Store self.old.held) (state S.Store self.new.held) }
        ensures closes { IfErr result (ClosesAt self.new.closed) }
        ensures cause { WhenOpenAt (state S.Store) self.old self.new (λ s. IfErr result (ReadFailsBy (state S.Store self.old.held) (state S.Store self.new.held))) }
        ensures closed { self.old.closed ≡ true → (result ≡ Err (ReadError.Fault Fault.Closed)) × (self.new ≡ self.old) }
    {
        read!(self, true => load_wards())
    }

    /// Returns the overviews of a ward's batches in numerical order.
    ///
    /// Refused if the ward number is outside 1 to 99 or there is no such ward. Nothing is changed. After `Memory` the
    /// office stays open; any other fault closes it. A closed office returns `Closed`.
    pub fn batches(&mut self, ward: u32) -> Result<Vec<BatchOverview>, ReadError>
        ensures reads { ReadWhenOpen (state S.Store) self.old self.new (λ batches. map batch_view batches.items) (λ s. batches_answer s ward) result }
        ensures same { OnlyReads (state S.Store self.old.held) (state S.Store self.new.held) }
        ensures closes { IfErr result (ClosesAt self.new.closed) }
        ensures cause { WhenOpenAt (state S.Store) self.old self.new (λ s. IfErr result (ReadFailsBy (state S.Store self.old.held) (state S.Store self.new.held))) }
        ensures closed { self.old.closed ≡ true → (result ≡ Err (ReadError.Fault Fault.Closed)) × (self.new ≡ self.old) }
    {
        read!(self, is_ward_number(ward) => load_batches(ward), Reason::NoSuchWard)
    }

    /// Returns the doubtful papers in the taken batches of a ward, ordered by batch and paper, and the ward's
    /// candidates. Each paper is returned with how it counts and the verdict on it, if there is one.
    ///
    /// Refused if the ward number is outside 1 to 99 or there is no such ward. Nothing is changed. After `Memory` the
    /// office stays open; any other fault closes it. A closed office returns `Closed`.
    pub fn doubtful(&mut self, ward: u32) -> Result<DoubtfulPapers, ReadError>
        ensures reads { ReadWhenOpen (state S.Store) self.old self.new doubtful_papers_view (λ s. doubtful_answer s ward) result }
        ensures same { OnlyReads (state S.Store self.old.held) (state S.Store self.new.held) }
        ensures closes { IfErr result (ClosesAt self.new.closed) }
        ensures cause { WhenOpenAt (state S.Store) self.old self.new (λ s. IfErr result (ReadFailsBy (state S.Store self.old.held) (state S.Store self.new.held))) }
        ensures closed { self.old.closed ≡ true → (result ≡ Err (ReadError.Fault Fault.Closed)) × (self.new ≡ self.old) }
    {
        read!(self, is_ward_number(ward) => load_doubtful(ward), Reason::NoSuchWard)
    }

    /// Returns the papers of a batch on which the keyings of its current round differ.
    ///
    /// Refused if the batch number is outside 1 to 9999, there is no such batch, or its keyings don't differ. Nothing
    /// is changed. After `Memory` the office stays open; any other fault closes it. A closed office returns `Closed`.
    pub fn differences(&mut self, batch: u32) -> Result<Differences, ReadError>
        ensures reads { ReadWhenOpen (state S.Store) self.old self.new differences_view (λ s. differences_answer s batch) result }
        ensures same { OnlyReads (state S.Store self.old.held) (state S.Store self.new.held) }
        ensures closes { IfErr result (ClosesAt self.new.closed) }
        ensures cause { WhenOpenAt (state S.Store) self.old self.new (λ s. IfErr result (ReadFailsBy (state S.Store self.old.held) (state S.Store self.new.held))) }
        ensures closed { self.old.closed ≡ true → (result ≡ Err (ReadError.Fault Fault.Closed)) × (self.new ≡ self.old) }
    {
        if let Some(stop) = self.stop_before(is_batch_number(batch)) {
            return Err(stop);
        }
        match self.store.load_differences(batch) {
            Ok(Some(found)) if found.differs => Ok(found),
            Ok(Some(_)) => Err(refused(self.alloc, Reason::NoDifference)),
            Ok(None) => Err(refused(self.alloc, Reason::NoSuchBatch)),
            Err(fault) => Err(self.stopped_by(fault)),
        }
    }

    /// Returns the papers in a batch that is taken, in numerical order, each with how it counts, and its ward's
    /// candidates.
    ///
    /// Refused if the batch number is outside 1 to 9999, there is no such batch, or the batch isn't taken. Nothing is
    /// changed. After `Memory` the office stays open; any other fault closes it. A closed office returns `Closed`.
    pub fn papers(&mut self, batch: u32) -> Result<CountedPapers, ReadError>
        ensures reads { ReadWhenOpen (state S.Store) self.old self.new papers_view (λ s. papers_answer s batch) result }
        ensures same { OnlyReads (state S.Store self.old.held) (state S.Store self.new.held) }
        ensures closes { IfErr result (ClosesAt self.new.closed) }
        ensures cause { WhenOpenAt (state S.Store) self.old self.new (λ s. IfErr result (ReadFailsBy (state S.Store self.old.held) (state S.Store self.new.held))) }
        ensures closed { self.old.closed ≡ true → (result ≡ Err (ReadError.Fault Fault.Closed)) × (self.new ≡ self.old) }
    {
        if let Some(stop) = self.stop_before(is_batch_number(batch)) {
            return Err(stop);
        }
        match self.store.load_batch_papers(batch) {
            Ok(Some(found)) if found.taken => Ok(found),
            Ok(Some(_)) => Err(refused(self.alloc, Reason::NotTaken)),
            Ok(None) => Err(refused(self.alloc, Reason::NoSuchBatch)),
            Err(fault) => Err(self.stopped_by(fault)),
        }
    }

    /// Returns an actor's receipts, 0 for the office itself or the number of a clerk, or those of all actors if
    /// `actor` is `None`. They are ordered by actor and id.
    ///
    /// Refused if the number is above 999. Nothing is changed. After `Memory` the office stays open; any other fault
    /// closes it. A closed office returns `Closed`.
    pub fn receipts(&mut self, actor: Option<u32>) -> Result<Vec<Receipt>, ReadError>
        ensures reads { ReadWhenOpen (state S.Store) self.old self.new (λ receipts. map receipt_entry receipts.items) (λ s. receipts_answer s actor) result }
        ensures same { OnlyReads (state S.Store self.old.held) (state S.Store self.new.held) }
        ensures closes { IfErr result (ClosesAt self.new.closed) }
        ensures cause { WhenOpenAt (state S.Store) self.old self.new (λ s. IfErr result (ReadFailsBy (state S.Store self.old.held) (state S.Store self.new.held))) }
        ensures closed { self.old.closed ≡ true → (result ≡ Err (ReadError.Fault Fault.Closed)) × (self.new ≡ self.old) }
    {
        read!(self, may_have_receipts(actor) => load_receipts(actor))
    }
}
