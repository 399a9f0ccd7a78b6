//! Writes changes inside a transaction.

ghost use Rattle.std.specs.Prelude.{⊤};
ghost use Rattle.register.specs.Offices.{empty_office};
ghost use Rattle.register.specs.Effects.{effect_entry, change_entry, with_effect};
ghost use Rattle.register.specs.Tabulated.{addition_entries};
ghost use Rattle.tables.specs.Contents.{Contents, Sees};
ghost use Rattle.tables.specs.Making.{SeesNothing};
ghost use Rattle.tables.specs.Writing.{Alters};
ghost use Rattle.store.specs.StateTables.{tables_of, SeesState, ChangesTo};

pub(crate) mod copies;
mod counts;
pub(crate) mod older;

use crate::entries::batches::Batches;
use crate::entries::candidates::Candidates;
use crate::entries::keyings::KeyedPapers;
use crate::entries::lots::Lots;
use crate::entries::receipts::Receipts;
use crate::entries::thirds::ThirdClerks;
use crate::entries::verdicts::JudgedPapers;
use crate::entries::wards::Wards;
use crate::writing::counts::write_addition;
use register::{Change, Effect};
use sqlite::{Alter, Transaction};
use std::alloc::Global;
use tables::insertion::insert;
use tables::making::create_tables;
use tables::removal::remove;
use tables::replacement::set_value;
use tables::value_conversion::number;
use tables::writing::{add_entries, add_entry};
use tables::{Fault, SettableColumn, Table};

/// The schema version of this program's offices.
pub(crate) const VERSION: u32 = 2;

/// Writes the effect of a command on the state: inserts the row of a new entry, sets the columns that change in an
/// existing row, or deletes the row of a candidate.
fn write_effect<S: Alter>(
    alloc: Global,
    tx: &mut Transaction<'_, S>,
    effect: &Effect,
) -> Result<(), Fault>
    ensures { Alters S.Store tx.old.conn tx.new.conn result SeesState (λ x. SeesState (with_effect (effect_entry effect.now) x.0, x.1)) }
{
    match effect {
        Effect::WardAdded(ward) => add_entry::<Wards, S>(alloc, tx, ward),
        Effect::WardMoved { ward, phase } => {
            let values = [number(*ward), number(phase.number())];
            set_value(tx, SettableColumn::PhaseOfWard, &values)
        }
        Effect::CandidateAdded(candidate) => add_entry::<Candidates, S>(alloc, tx, candidate),
        Effect::CandidateWithdrawn { ward, candidate } => {
            remove(tx, Table::Candidate, &[number(*ward), number(*candidate)])
        }
        Effect::BatchAdded(batch) => add_entry::<Batches, S>(alloc, tx, batch),
        Effect::BatchReopened { batch, round } => {
            set_value(
                tx,
                SettableColumn::RoundOfBatch,
                &[number(*batch), number(*round)],
            )
        }
        Effect::ThirdSet(third) => add_entry::<ThirdClerks, S>(alloc, tx, third),
        Effect::PapersKeyed(papers) => add_entries::<KeyedPapers, S>(alloc, tx, papers),
        Effect::PaperJudged(judged) => add_entry::<JudgedPapers, S>(alloc, tx, judged),
        Effect::StageCounted { ward, done } => {
            set_value(
                tx,
                SettableColumn::DoneOfWard,
                &[number(*ward), number(*done)],
            )
        }
        Effect::LotDrawn(lot) => add_entry::<Lots, S>(alloc, tx, lot),
    }
}

/// Writes a change: its effect, what it adds to the tabulation, and the receipt.
pub(crate) fn write_change<S: Alter>(
    alloc: Global,
    tx: &mut Transaction<'_, S>,
    change: &Change,
) -> Result<(), Fault>
    ensures { Alters S.Store tx.old.conn tx.new.conn result
        (λ (p : Contents × Contents) s. ChangesTo (change_entry change.now) (addition_entries change.now.addition) p.0 p.1 × Sees p.0 s) (λ p. Sees p.1) }
{
    write_effect(alloc, tx, &change.effect)?;
    write_addition(alloc, tx, &change.addition)?;
    add_entry::<Receipts, S>(alloc, tx, &change.receipt)
}

/// Creates all tables of an empty office, and inserts the office row with this program's version.
pub(crate) fn write_new_office<S: Alter>(tx: &mut Transaction<'_, S>) -> Result<(), Fault>
    ensures { Alters S.Store tx.old.conn tx.new.conn result (λ (x : ⊤). SeesNothing) (λ x. Sees (tables_of empty_office)) }
{
    create_tables(tx)?;
    insert(tx, Table::Office, &[number(1), number(VERSION)])
}
