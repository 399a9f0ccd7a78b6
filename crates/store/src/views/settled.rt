//! The papers of a ward whose batches are all settled. If a batch was keyed by two clerks, its papers are read row by
//! row.

ghost use Rattle.std.specs.Prelude.{◌≡◌, [], map, Some, IfOk, IfErr};
ghost use Rattle.tables.specs.declared.fault.Fault.{Fault};
ghost use Rattle.register.specs.Offices.{batch_entry, third_entry, keyed_entry, judged_entry, third_at, keying_of};
ghost use Rattle.register.specs.Agreement.{taken_papers};
ghost use Rattle.register.specs.Polls.{lower_clerk, settled_papers, settled_judgements, ballots_by, StandFor};
ghost use Rattle.store.specs.Loads.{Loads, IsOpen};
ghost use Rattle.store.specs.Settled.{CountAfter};

use crate::entries::keyings::KeyedPapers;
use crate::storage::Store;
use paper::Columns;
use register::agreement::lower_clerk;
use register::{Ballots, Batch, JudgedPaper, KeepsPapers, KeyedPaper, ThirdClerk};
use sqlite::Alter;
use std::marker::{Brand, PhantomData};
use tables::Fault;
use tables::value_conversion::number;
use tables::walking::{Visitor, walk_beginning};

/// What is known when a walk through the papers of a batch starts; used only in its proof.
pub(crate) trait Start {
    ghost use Rattle.std.specs.Prelude.{ℕ, List};
    ghost use Rattle.register.specs.declared.polls.Judgement.{Judgement};
    ghost use Rattle.register.specs.Offices.{JudgedEntry};

    // The judgements that may have been counted before.
    ghost were_counted: { List Judgement → Type 0 };

    // The columns of the papers.
    ghost columns: { List ℕ };

    // The verdicts on the papers of the batch.
    ghost verdicts: { List JudgedEntry };
}

impl Start for Brand {
    ghost use Rattle.std.specs.Prelude.{[], ⊤};

    ghost were_counted = { λ js. ⊤ };

    ghost columns = { [] };

    ghost verdicts = { [] };
}

/// Counts the papers of a settled batch, one after another.
#[derive(Drop)]
struct SettledPapers<P, B> {
    ballots: Ballots<P>,
    columns: Columns,
    verdicts: Vec<JudgedPaper>,
    start: PhantomData<B>,
}

impl<P: KeepsPapers, B: Start> Visitor<KeyedPapers> for SettledPapers<P, B> {
    ghost HasVisited = { λ counter papers. (counter.columns ≡ B.columns) × (map judged_entry counter.verdicts.items ≡ B.verdicts)
        × CountAfter P.holds B.were_counted B.columns B.verdicts counter.ballots (map keyed_entry papers) };

    ghost Stops = { λ f. f ≡ Fault.Memory };

    fn visit(&mut self, keyed: KeyedPaper) -> Result<(), Fault> {
        match self
            .ballots
            .add_settled(self.columns, &self.verdicts, &keyed)
        {
            Ok(()) => Ok(()),
            Err(_) => Err(Fault::Memory),
        }
    }
}

/// Adds the papers of a settled batch's keying, one after another. The only error is `Memory`, after which the ballots
/// can't be used.
fn add_each<P: KeepsPapers>(
    ballots: &mut Ballots<P>,
    columns: Columns,
    verdicts: &[JudgedPaper],
    papers: &[KeyedPaper],
) -> Result<(), Fault>
    ensures adds { IfOk result (λ _. CountAfter P.holds (λ js. StandFor P.holds ballots.old (ballots_by js)) columns (map judged_entry verdicts.now) ballots.new (map keyed_entry papers.now)) }
    ensures cause { IfErr result (λ f. f ≡ Fault.Memory) }
{
    for keyed in papers {
        if ballots.add_settled(columns, verdicts, keyed).is_err() {
            return Err(Fault::Memory);
        }
    }
    Ok(())
}

impl<S: Alter> Store<S> {
    /// Adds the papers of a batch to the ballots, row by row, as keyed in its current round by the lower-numbered of
    /// its two clerks.
    fn walk_papers<P: KeepsPapers + Drop, B: Start>(
        &mut self,
        ballots: Ballots<P>,
        columns: Columns,
        batch: &Batch,
        verdicts: Vec<JudgedPaper>,
    ) -> Result<Ballots<P>, Fault>
        requires columns { columns ≡ B.columns }
        requires verdicts { map judged_entry verdicts.items ≡ B.verdicts }
        requires start { (js : _) → B.were_counted js → StandFor P.holds ballots (ballots_by js) }
        ensures { Loads S.Store self.old self.new result (λ s counted. CountAfter P.holds B.were_counted columns
            (map judged_entry verdicts.items) counted (keying_of s batch.now.number batch.now.round (lower_clerk (batch_entry batch.now)))) }
    {
        let counter = SettledPapers::<P, B> {
            ballots,
            columns,
            verdicts,
            start: PhantomData,
        };
        let key = [
            number(batch.number),
            number(batch.round),
            number(lower_clerk(batch)),
        ];
        let counted = walk_beginning::<KeyedPapers, SettledPapers<P, B>, S>(
            &mut self.conn,
            &key,
            counter,
        )?;
        Ok(counted.ballots)
    }

    /// Adds the papers of a batch that has a third clerk, with the given verdicts: the papers of the first keying that
    /// equals another.
    fn add_agreed<P: KeepsPapers + Drop>(
        &mut self,
        ballots: Ballots<P>,
        columns: Columns,
        batch: &Batch,
        third_clerk: ThirdClerk,
        verdicts: Vec<JudgedPaper>,
    ) -> Result<Ballots<P>, Fault>
        ensures { Loads S.Store self.old self.new result
            (λ s counted. Some (third_entry third_clerk) ≡ third_at s batch.now.number
            → CountAfter P.holds (λ js. StandFor P.holds ballots (ballots_by js)) columns (map judged_entry verdicts.items) counted (taken_papers s (batch_entry batch.now))) }
    {
        let mut counted = ballots;
        let keyings = self.keyings_with(batch, Some(third_clerk))?;
        add_each(&mut counted, columns, &verdicts, keyings.agreed())?;
        Ok(counted)
    }

    /// Adds the papers of a settled batch with the given verdicts.
    fn add_batch<P: KeepsPapers + Drop>(
        &mut self,
        ballots: Ballots<P>,
        columns: Columns,
        batch: &Batch,
        verdicts: Vec<JudgedPaper>,
    ) -> Result<Ballots<P>, Fault>
        ensures { Loads S.Store self.old self.new result
            (λ s counted. CountAfter P.holds (λ js. StandFor P.holds ballots (ballots_by js)) columns (map judged_entry verdicts.items) counted (settled_papers s (batch_entry batch.now))) }
    {
        let found = self.find_third(batch.number)?;
        match found {
            Some(third) => {
                let agreed = self.add_agreed(ballots, columns, batch, third, verdicts)?;
                Ok(agreed)
            }
            None => {
                let alike = self.walk_papers::<P, Brand>(ballots, columns, batch, verdicts)?;
                Ok(alike)
            }
        }
    }

    /// Returns the ballots of the given batches, all of them settled, added to `kept`, an empty collection.
    pub(crate) fn settled_ballots<P: KeepsPapers + Drop>(
        &mut self,
        kept: P,
        columns: Columns,
        batches: &[Batch],
    ) -> Result<Ballots<P>, Fault>
        requires none { P.holds kept [] }
        requires is_open { IsOpen S.Store self.old }
        ensures { Loads S.Store self.old self.new result (λ s ballots. StandFor P.holds ballots (ballots_by (settled_judgements s columns (map batch_entry batches.now)))) }
    {
        let mut ballots = Ballots::new(kept);
        for batch in batches {
            let verdicts = self.list_verdicts(batch.number)?;
            ballots = self.add_batch(ballots, columns, batch, verdicts)?;
        }
        Ok(ballots)
    }
}
