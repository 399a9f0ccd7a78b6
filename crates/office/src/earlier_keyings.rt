//! Reading a clerk's own keying from an earlier round.
#![tactic(auto, using(crate::proofs::StopLemmas::stops_of_memory))]

ghost use Rattle.std.specs.Prelude.{◌≡◌, true, IfOk, IfErr, Some, Err, option_map};
ghost use Rattle.sqlite.specs.Held.{state};
ghost use Rattle.register.specs.Seen.{seen_by};
ghost use Rattle.tables.specs.Reading.{OnlyReads};
ghost use Rattle.store.specs.EarlierKeyings.{earlier_at, keyed_round_entry};
ghost use Rattle.office.specs.Answers.{WhenOpenAt};
ghost use Rattle.office.specs.Reads.{ReadWhenOpen, ReadFailsBy, ClosesAt};
ghost use Rattle.office.specs.EarlierKeyings.{earlier_answer};

use crate::answers::ReadError;
use crate::open_office::Office;
use crate::reads::{read, refused};
use register::Reason;
use register::ranges::{is_batch_number, is_clerk};
use sqlite::Alter;
use store::{Fault, KeyedRound};

impl<S: Alter> Office<S> {
    /// Returns a clerk's own keying of a batch in the most recent round that the clerk keyed before the current one:
    /// the round, and the papers in order. Returns `None` if the clerk didn't key any earlier round.
    ///
    /// The result depends only on what the clerk can see of the state, regardless of what others keyed. The read is
    /// refused if a number is out of range, there is no such batch, or the clerk isn't one of its clerks. Nothing is
    /// changed. After `Memory` the office stays open; any other fault closes it. A closed office returns `Closed`.
    pub fn earlier_keying(
        &mut self,
        clerk: u32,
        batch: u32,
    ) -> Result<Option<KeyedRound>, ReadError>
        ensures reads { ReadWhenOpen (state S.Store) self.old self.new (option_map keyed_round_entry) (λ s. earlier_answer s clerk batch) result }
        ensures blind { WhenOpenAt (state S.Store) self.old self.new
            (λ s. IfOk result (λ keyed. Some (option_map keyed_round_entry keyed) ≡ earlier_at (seen_by clerk s) clerk batch)) }
        ensures same { OnlyReads (state S.Store self.old.held) (state S.Store self.new.held) }
        ensures closes { IfErr result (ClosesAt self.new.closed) }
        ensures cause { WhenOpenAt (state S.Store) self.old self.new (λ s. IfErr result (ReadFailsBy (state S.Store self.old.held) (state S.Store self.new.held))) }
        ensures closed { self.old.closed ≡ true → (result ≡ Err (ReadError.Fault Fault.Closed)) × (self.new ≡ self.old) }
    {
        read!(self, is_clerk(clerk) && is_batch_number(batch) => load_earlier_keying(clerk, batch), Reason::NotItsClerk)
    }
}
