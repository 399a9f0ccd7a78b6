//! A clerk's own keying of a batch from an earlier round, read from the tables.

ghost use Rattle.std.specs.Prelude.{◌≡◌, option_map};
ghost use Rattle.register.specs.Offices.{batch_entry};
ghost use Rattle.store.specs.EarlierKeyings.{keyed_round_entry, last_keyed, earlier_for, earlier_at};
ghost use Rattle.store.specs.Loads.{Loads, IsOpen};

use crate::storage::Store;
use register::agreement::is_keyed;
use register::keyings::is_its_clerk;
use register::{Batch, KeyedPaper};
use sqlite::Alter;
use tables::Fault;

/// A round (1 to 99) of a batch that a clerk keyed, and the papers, in order, as the clerk keyed them.
#[derive(Drop)]
pub struct KeyedRound {
    pub round: u32,
    pub papers: Vec<KeyedPaper>,
}

impl<S: Alter> Store<S> {
    /// Returns the latest of a batch's first `rounds` rounds that the clerk keyed, if there is one.
    fn last_keyed(
        &mut self,
        batch: u32,
        clerk: u32,
        rounds: u32,
    ) -> Result<Option<KeyedRound>, Fault>
        requires { IsOpen S.Store self.old }
        ensures { Loads S.Store self.old self.new result (λ s found. option_map keyed_round_entry found ≡ last_keyed s batch clerk rounds) }
    {
        let mut round = rounds;
        while round > 0 {
            let papers = self.list_keying(batch, round, clerk)?;
            if is_keyed(&papers) {
                return Ok(Some(KeyedRound { round, papers }));
            }
            round -= 1;
        }
        Ok(None)
    }

    /// Returns a clerk's keying of a batch from the latest round before the current one that the clerk keyed.
    fn own_earlier(
        &mut self,
        batch: &Batch,
        clerk: u32,
    ) -> Result<Option<Option<KeyedRound>>, Fault>
        requires { IsOpen S.Store self.old }
        ensures { Loads S.Store self.old self.new result (λ s found. option_map (option_map keyed_round_entry) found ≡ earlier_for s clerk (batch_entry batch.now)) }
    {
        let third = self.find_third(batch.number)?;
        if !is_its_clerk(clerk, batch, &third) {
            return Ok(None);
        }
        let rounds = batch.round.saturating_sub(1);
        let keyed = self.last_keyed(batch.number, clerk, rounds)?;
        Ok(Some(keyed))
    }

    /// Returns a clerk's keying of the batch with the given number from the latest round before the current one that
    /// the clerk keyed: the round, and the papers in order. The inner `None` means that the clerk keyed no earlier
    /// round; the outer one, that there is no such batch, or that it isn't the clerk's. The rounds are read one after
    /// another, latest first. Changes nothing, and doesn't add to the states that a stop may leave behind. Returns
    /// `Memory` or `Store` if a row can't be read.
    pub fn load_earlier_keying(
        &mut self,
        clerk: u32,
        batch: u32,
    ) -> Result<Option<Option<KeyedRound>>, Fault>
        ensures { Loads S.Store self.old self.new result (λ s found. option_map (option_map keyed_round_entry) found ≡ earlier_at s clerk batch) }
    {
        let found = self.find_batch(batch)?;
        match found {
            Some(batch) => {
                let keyed = self.own_earlier(&batch, clerk)?;
                Ok(keyed)
            }
            None => Ok(None),
        }
    }
}
