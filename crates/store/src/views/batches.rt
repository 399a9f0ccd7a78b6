//! Batches, read for a request.

ghost use Rattle.std.specs.Prelude.{◌≡◌, map, option_map};
ghost use Rattle.register.specs.Offices.{batch_entry, third_entry, ward_at, batch_at, third_at};
ghost use Rattle.register.specs.Agreement.{batches_of};
ghost use Rattle.register.specs.Batches.{ward_for, third_for, keyings_for};
ghost use Rattle.register.specs.CommandInputs.{empty_input, input_entries};
ghost use Rattle.store.specs.Loads.{Loads};

use crate::entries::batches::Batches;
use crate::entries::thirds::ThirdClerks;
use crate::storage::Store;
use crate::views::papers::Keyings;
use register::{Batch, CommandInput, ThirdClerk};
use sqlite::Alter;
use tables::finding::{entries_beginning, entries_referring, find_entry};
use tables::value_conversion::number;
use tables::{Fault, Reference};

impl<S: Alter> Store<S> {
    /// Returns the batch with the given number, if there is one.
    pub(crate) fn find_batch(&mut self, batch: u32) -> Result<Option<Batch>, Fault>
        ensures { Loads S.Store self.old self.new result (λ s found. option_map batch_entry found ≡ batch_at s batch) }
    {
        find_entry::<Batches, S>(&mut self.conn, &[number(batch)])
    }

    /// Returns the batches of a ward, ordered by number.
    pub(crate) fn list_batches(&mut self, ward: u32) -> Result<Vec<Batch>, Fault>
        ensures { Loads S.Store self.old self.new result (λ s found. map batch_entry found.items ≡ batches_of s ward) }
    {
        entries_referring::<Batches, S>(
            self.alloc,
            &mut self.conn,
            Reference::WardOfBatch,
            number(ward),
        )
    }

    /// Returns all batches, ordered by number.
    pub(crate) fn all_batches(&mut self) -> Result<Vec<Batch>, Fault>
        ensures { Loads S.Store self.old self.new result (λ s found. map batch_entry found.items ≡ s.batches) }
    {
        entries_beginning::<Batches, S>(self.alloc, &mut self.conn, &[])
    }

    /// Returns the third clerk of the batch with the given number, if one is assigned.
    pub(crate) fn find_third(&mut self, batch: u32) -> Result<Option<ThirdClerk>, Fault>
        ensures { Loads S.Store self.old self.new result (λ s found. option_map third_entry found ≡ third_at s batch) }
    {
        find_entry::<ThirdClerks, S>(&mut self.conn, &[number(batch)])
    }

    /// Returns the input for a command that needs a ward and a batch.
    pub(crate) fn new_batch_part(&mut self, ward: u32, batch: u32) -> Result<CommandInput, Fault>
        ensures { Loads S.Store self.old self.new result (λ s part. input_entries part ≡ record empty_input { ward = ward_at s ward; batch = batch_at s batch }) }
    {
        let part = self.ward_part(ward)?;
        let batch = self.find_batch(batch)?;
        Ok(CommandInput { batch, ..part })
    }

    /// Returns the input for a command that needs a batch, its ward, its third clerk and the keyings of its round.
    pub(crate) fn third_part(&mut self, batch: u32) -> Result<CommandInput, Fault>
        ensures { Loads S.Store self.old self.new result
            (λ s part. input_entries part ≡ record empty_input {
              ward = ward_for s (batch_at s batch);
              batch = batch_at s batch;
              third = third_for s (batch_at s batch);
              keyings = keyings_for s (batch_at s batch);
            }) }
    {
        let found = self.find_batch(batch)?;
        let Some(batch) = found else {
            return Ok(CommandInput::empty(self.allocator()));
        };
        let Keyings {
            third_clerk,
            first,
            second,
            third,
        } = self.keyings_of(&batch)?;
        let part = self.ward_part(batch.ward)?;
        Ok(CommandInput {
            batch: Some(batch),
            third_clerk,
            first,
            second,
            third,
            ..part
        })
    }

    /// Returns the input for a command that needs a batch, its ward and the keyings of its round.
    pub(crate) fn again_part(&mut self, batch: u32) -> Result<CommandInput, Fault>
        ensures { Loads S.Store self.old self.new result
            (λ s part. input_entries part ≡ record empty_input { ward = ward_for s (batch_at s batch); batch = batch_at s batch; keyings = keyings_for s (batch_at s batch) }) }
    {
        let part = self.third_part(batch)?;
        Ok(CommandInput {
            third_clerk: None,
            ..part
        })
    }
}
