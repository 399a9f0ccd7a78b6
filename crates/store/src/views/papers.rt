//! Ballot papers, read for a request.

ghost use Rattle.std.specs.Prelude.{◌≡◌, map, option_map};
ghost use Rattle.register.specs.Offices.{batch_entry, third_entry, keyed_entry, judged_entry, batch_at, third_at, keying_of, verdict_at, verdicts_of};
ghost use Rattle.register.specs.Agreement.{is_keyed, agreed, differ, keyings_now};
ghost use Rattle.register.specs.Polls.{pile_of};
ghost use Rattle.register.specs.Batches.{ward_for, candidates_for, third_for, keyings_for};
ghost use Rattle.register.specs.CommandInputs.{empty_input, input_entries};
ghost use Rattle.store.specs.Elections.{pile_by};
ghost use Rattle.store.specs.Keyings.{keying_for, keyings_by};
ghost use Rattle.store.specs.Loads.{Loads, IsOpen};

use crate::entries::keyings::KeyedPapers;
use crate::entries::verdicts::JudgedPapers;
use crate::storage::Store;
use register::agreement::{agreed, clerks_of, differ};
use register::{Batch, CommandInput, JudgedPaper, KeyedPaper, ThirdClerk};
use sqlite::Alter;
use tables::Fault;
use tables::finding::{entries_beginning, find_entry};
use tables::value_conversion::number;

/// The number of the first paper of a batch.
pub(crate) const FIRST_PAPER: u32 = 1;

/// The keyings of a batch's current round by its two or three clerks, ordered by the clerks' numbers; and the third
/// clerk, if one is assigned. The papers of each keying are in order; a missing keying is empty.
#[derive(Drop)]
pub(crate) struct Keyings {
    pub(crate) third_clerk: Option<ThirdClerk>,
    pub(crate) first: Vec<KeyedPaper>,
    pub(crate) second: Vec<KeyedPaper>,
    pub(crate) third: Vec<KeyedPaper>,
}

/// The papers of a batch: the keyings of its current round, and the verdicts on its papers.
#[derive(Drop)]
pub(crate) struct BatchPapers {
    pub(crate) keyings: Keyings,
    pub(crate) verdicts: Vec<JudgedPaper>,
}

impl Keyings {
    /// Returns the papers on which the keyings agree; empty if the batch isn't taken.
    pub(crate) fn agreed(&self) -> &[KeyedPaper]
        ensures { map keyed_entry result.now ≡ agreed (keyings_by self.now) }
    {
        agreed(&self.first, &self.second, &self.third)
    }

    /// Returns whether the keyings differ: there are at least two, and no two of them are equal.
    pub(crate) fn differ(&self) -> bool
        ensures { result ≡ differ (keyings_by self.now) }
    {
        differ(&self.first, &self.second, &self.third)
    }
}

impl<S: Alter> Store<S> {
    /// Returns whether the given clerk has keyed a batch in a round. A keying is never incomplete, so its first paper
    /// is enough to tell.
    pub(crate) fn has_keyed(&mut self, batch: u32, round: u32, clerk: u32) -> Result<bool, Fault>
        ensures { Loads S.Store self.old self.new result (λ s found. found ≡ is_keyed (keying_of s batch round clerk)) }
    {
        let key = [
            number(batch),
            number(round),
            number(clerk),
            number(FIRST_PAPER),
        ];
        let paper = find_entry::<KeyedPapers, S>(&mut self.conn, &key)?;
        Ok(paper.is_some())
    }

    /// Returns the papers that the given clerk keyed for a batch in its current round, in order; empty if there is no
    /// such clerk.
    fn keying_for(&mut self, batch: &Batch, clerk: Option<u32>) -> Result<Vec<KeyedPaper>, Fault>
        requires { IsOpen S.Store self.old }
        ensures { Loads S.Store self.old self.new result (λ s found. map keyed_entry found.items ≡ keying_for s batch.now.number batch.now.round clerk) }
    {
        match clerk {
            Some(clerk) => self.list_keying(batch.number, batch.round, clerk),
            None => Ok(Vec::new(self.allocator())),
        }
    }

    /// Returns the keyings of a batch's current round by its two clerks and by the given third clerk, if there is one.
    pub(crate) fn keyings_with(
        &mut self,
        batch: &Batch,
        third_clerk: Option<ThirdClerk>,
    ) -> Result<Keyings, Fault>
        ensures { Loads S.Store self.old self.new result
            (λ s found. (found.third_clerk ≡ third_clerk) × (option_map third_entry third_clerk ≡ third_at s batch.now.number → keyings_by found ≡ keyings_now s (batch_entry batch.now))) }
    {
        let clerks = clerks_of(batch, &third_clerk);
        let first = self.list_keying(batch.number, batch.round, clerks.first)?;
        let second = self.list_keying(batch.number, batch.round, clerks.second)?;
        let third = self.keying_for(batch, clerks.third)?;
        Ok(Keyings {
            third_clerk,
            first,
            second,
            third,
        })
    }

    /// Returns the third clerk of a batch, and the keyings of its current round.
    pub(crate) fn keyings_of(&mut self, batch: &Batch) -> Result<Keyings, Fault>
        ensures { Loads S.Store self.old self.new result
            (λ s found. (option_map third_entry found.third_clerk ≡ third_at s batch.now.number) × (keyings_by found ≡ keyings_now s (batch_entry batch.now))) }
    {
        let third = self.find_third(batch.number)?;
        let keyings = self.keyings_with(batch, third)?;
        Ok(keyings)
    }

    /// Returns the verdict on the paper with the given number in the given batch, if there is one.
    pub(crate) fn find_verdict(
        &mut self,
        batch: u32,
        paper: u32,
    ) -> Result<Option<JudgedPaper>, Fault>
        ensures { Loads S.Store self.old self.new result (λ s found. option_map judged_entry found ≡ verdict_at s batch paper) }
    {
        find_entry::<JudgedPapers, S>(&mut self.conn, &[number(batch), number(paper)])
    }

    /// Returns the verdicts on a batch's papers, ordered by paper.
    pub(crate) fn list_verdicts(&mut self, batch: u32) -> Result<Vec<JudgedPaper>, Fault>
        ensures { Loads S.Store self.old self.new result (λ s found. map judged_entry found.items ≡ verdicts_of s batch) }
    {
        entries_beginning::<JudgedPapers, S>(self.alloc, &mut self.conn, &[number(batch)])
    }

    /// Returns the papers of a batch.
    pub(crate) fn papers_of(&mut self, batch: &Batch) -> Result<BatchPapers, Fault>
        ensures { Loads S.Store self.old self.new result (λ s papers. pile_by papers ≡ pile_of s (batch_entry batch.now)) }
    {
        let keyings = self.keyings_of(batch)?;
        let verdicts = self.list_verdicts(batch.number)?;
        Ok(BatchPapers { keyings, verdicts })
    }

    /// Returns the input for a clerk's command: the batch, its ward with the candidates, its third clerk, and only the
    /// clerk's own keying.
    pub(crate) fn keying_part(
        &mut self,
        batch: u32,
        round: u32,
        clerk: u32,
    ) -> Result<CommandInput, Fault>
        ensures { Loads S.Store self.old self.new result
            (λ s part. input_entries part ≡ record empty_input {
              ward = ward_for s (batch_at s batch);
              candidates = candidates_for s (batch_at s batch);
              batch = batch_at s batch;
              third = third_for s (batch_at s batch);
              own = keying_of s batch round clerk;
            }) }
    {
        let own = self.list_keying(batch, round, clerk)?;
        let found = self.find_batch(batch)?;
        let Some(batch) = found else {
            return Ok(CommandInput {
                own,
                ..CommandInput::empty(self.allocator())
            });
        };
        let third_clerk = self.find_third(batch.number)?;
        let part = self.contest_part(batch.ward)?;
        Ok(CommandInput {
            batch: Some(batch),
            third_clerk,
            own,
            ..part
        })
    }

    /// Returns the input for a command about a doubtful paper: the batch, its ward with the candidates, the keyings of
    /// its round, and the verdict.
    pub(crate) fn verdict_part(&mut self, batch: u32, paper: u32) -> Result<CommandInput, Fault>
        ensures { Loads S.Store self.old self.new result
            (λ s part. input_entries part ≡ record empty_input {
              ward = ward_for s (batch_at s batch);
              candidates = candidates_for s (batch_at s batch);
              batch = batch_at s batch;
              keyings = keyings_for s (batch_at s batch);
              verdict = verdict_at s batch paper;
            }) }
    {
        let verdict = self.find_verdict(batch, paper)?;
        let found = self.find_batch(batch)?;
        let Some(batch) = found else {
            return Ok(CommandInput {
                verdict,
                ..CommandInput::empty(self.allocator())
            });
        };
        let Keyings {
            first,
            second,
            third,
            ..
        } = self.keyings_of(&batch)?;
        let part = self.contest_part(batch.ward)?;
        Ok(CommandInput {
            batch: Some(batch),
            first,
            second,
            third,
            verdict,
            ..part
        })
    }
}
