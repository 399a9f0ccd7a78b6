//! The part of the state that a request needs, read from the tables.

ghost use Rattle.std.specs.Prelude.{◌≡◌, IfOk, IfErr, OnOk, IsTrue};
ghost use Rattle.sqlite.specs.State.{HasCleanDisk};
ghost use Rattle.sqlite.specs.Held.{state};
ghost use Rattle.register.specs.Offices.{OfficeState};
ghost use Rattle.register.specs.CommandInputs.{input_entries};
ghost use Rattle.register.specs.Machine.{part_of};
ghost use Rattle.register.specs.Tabulated.{IsCountFor};
ghost use Rattle.register.specs.Views.{IsViewOf};
ghost use Rattle.tables.specs.Reading.{OnlyReads, FailsBy};
ghost use Rattle.store.specs.StateTables.{IsAt};
ghost use Rattle.store.specs.Loads.{Loads};

mod batches;
mod candidates;
mod counts;
mod elections;
mod keyings;
pub(crate) mod papers;
mod receipts;
mod settled;
mod sheets;
mod stored_counts;
mod wards;

use crate::storage::Store;
use register::{
    BatchCommand, CandidateCommand, Command, CommandInput, CountCommand, View, WardCommand,
};
use sqlite::Alter;
use tables::Fault;

impl<S: Alter> Store<S> {
    /// Returns the part of the state that an actor's command needs, and the count to which a stage will be added.
    fn find_part(&mut self, actor: u32, command: &Command) -> Result<CommandInput, Fault>
        ensures { Loads S.Store self.old self.new result (λ s part. (input_entries part ≡ part_of s actor command.now) × IsCountFor s command.now part.count) }
    {
        match command {
            Command::Ward(WardCommand::Add { ward, .. }) => self.ward_part(*ward),
            Command::Ward(WardCommand::Close { ward }) => self.contest_part(*ward),
            Command::Candidate(
                CandidateCommand::Add {
                    ward,
                    candidate,
                    ..
                },
            ) => self.candidate_part(*ward, *candidate),
            Command::Candidate(CandidateCommand::Withdraw { ward, candidate }) => {
                self.candidate_part(*ward, *candidate)
            }
            Command::Batch(BatchCommand::Add { batch, ward, .. }) => {
                self.new_batch_part(*ward, *batch)
            }
            Command::Batch(BatchCommand::Again { batch }) => self.again_part(*batch),
            Command::Batch(BatchCommand::Third { batch, .. }) => self.third_part(*batch),
            Command::Keying(keying) => self.keying_part(keying.batch, keying.round, actor),
            Command::Verdict(judged) => self.verdict_part(judged.batch, judged.paper),
            Command::Count(CountCommand::Seal { ward }) => self.seal_part(*ward),
            Command::Count(CountCommand::Advance { ward }) => self.count_part(*ward),
            Command::Count(
                CountCommand::Lot {
                    ward,
                    candidate,
                    ..
                },
            ) => self.lot_part(*ward, *candidate),
            Command::Count(CountCommand::Declare { ward }) => self.count_part(*ward),
        }
    }

    /// Returns what the machine sees of the tables for one request. If the request already has a receipt, only that
    /// receipt is read.
    fn view_of<'a>(&mut self, actor: u32, id: &'a str, command: &Command) -> Result<View<'a>, Fault>
        ensures told { Loads S.Store self.old self.new result (λ s. IsViewOf s command.now) }
        ensures asked { IfOk result (λ view. (view.actor ≡ actor) × (view.id.now ≡ id.now)) }
    {
        let receipt = self.find_receipt(actor, id)?;
        if receipt.is_some() {
            return Ok(View {
                actor,
                id,
                receipt,
                part: CommandInput::empty(self.allocator()),
            });
        }
        let part = self.find_part(actor, command)?;
        Ok(View {
            actor,
            id,
            receipt,
            part,
        })
    }

    /// Returns what the machine sees of the state for one request. Changes nothing, and doesn't add to the states that
    /// a stop may leave behind. Returns `Memory` or `Store` if a row can't be read.
    pub fn load_view<'a>(
        &mut self,
        actor: u32,
        id: &'a str,
        command: &Command,
    ) -> Result<View<'a>, Fault>
        ensures shows { HasCleanDisk (state S.Store self.new) → (s : OfficeState) → IsAt s (state S.Store self.old) → IfOk result (IsViewOf s command.now) }
        ensures asked { IfOk result (λ view. (view.actor ≡ actor) × (view.id.now ≡ id.now)) }
        ensures cause { HasCleanDisk (state S.Store self.new) → (s : OfficeState) → IsAt s (state S.Store self.old) → IfErr result (FailsBy (state S.Store self.old) (state S.Store self.new)) }
        ensures opens { HasCleanDisk (state S.Store self.new) → OnOk result (IsTrue (state S.Store self.new).is_open) }
        ensures reads { OnlyReads (state S.Store self.old) (state S.Store self.new) }
        ensures keeps { HasCleanDisk (state S.Store self.new) → (s : OfficeState) → IsAt s (state S.Store self.old) → IsAt s (state S.Store self.new) }
    {
        self.view_of(actor, id, command)
    }
}
