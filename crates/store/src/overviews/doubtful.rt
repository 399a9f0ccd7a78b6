//! The doubtful papers of a ward, read from the tables.

ghost use Rattle.std.specs.Prelude.{◌≡◌, ◌==◌, ◌++◌, map, option_map, IfOk};
ghost use Rattle.std.specs.List.{flat_map};
ghost use Rattle.register.specs.Offices.{batch_entry, keyed_entry, judged_entry};
ghost use Rattle.register.specs.Agreement.{is_doubtful};
ghost use Rattle.tables.specs.declared.fault.Fault.{Fault};
ghost use Rattle.store.specs.Overviews.{verdict_on, doubtful_view, doubtful_view_of, doubtful_among, doubtful_in, doubtful_papers, doubtful_papers_view, doubtful_at};
ghost use Rattle.store.specs.Loads.{Loads, IsOpen};

use crate::overviews::papers::CountedPaper;
use crate::storage::Store;
use paper::Columns;
use register::agreement::is_doubtful;
use register::marks::columns_of;
use register::polls::judgement_on;
use register::{Batch, Candidate, JudgedPaper, KeyedPaper};
use sqlite::Alter;
use std::alloc::AllocError;
use tables::Fault;

/// A doubtful paper of a taken batch, as it is counted, and the verdict on it, if there is one.
#[derive(Drop)]
pub struct DoubtfulPaper {
    pub counted: CountedPaper,
    pub verdict: Option<JudgedPaper>,
}

/// The candidates of a ward, and the doubtful papers of its taken batches, ordered by batch and paper.
#[derive(Drop)]
pub struct DoubtfulPapers {
    pub candidates: Vec<Candidate>,
    pub papers: Vec<DoubtfulPaper>,
}

/// Returns a copy of a verdict.
fn copy_of(judged: &JudgedPaper) -> Result<JudgedPaper, AllocError>
    ensures { IfOk result (λ copy. judged_entry copy ≡ judged_entry judged.now) }
{
    Ok(JudgedPaper {
        batch: judged.batch,
        paper: judged.paper,
        code: judged.code,
        marks: judged.marks.clone()?,
    })
}

/// Returns the verdict on the paper with the given number, if `verdicts` contains one.
fn verdict_on(verdicts: &[JudgedPaper], paper: u32) -> Result<Option<JudgedPaper>, AllocError>
    ensures { IfOk result (λ found. option_map judged_entry found ≡ verdict_on (map judged_entry verdicts.now) paper) }
{
    for judged in verdicts {
        if judged.paper == paper {
            return Ok(Some(copy_of(judged)?));
        }
    }
    Ok(None)
}

/// Returns a doubtful paper as it is counted with the columns of its ward, and the verdict on it, if `verdicts`
/// contains one.
fn doubtful_paper(
    columns: Columns,
    verdicts: &[JudgedPaper],
    keyed: &KeyedPaper,
) -> Result<DoubtfulPaper, AllocError>
    ensures { IfOk result (λ found. doubtful_view found ≡ doubtful_view_of columns (map judged_entry verdicts.now) (keyed_entry keyed.now)) }
{
    let counted = CountedPaper {
        batch: keyed.batch,
        paper: keyed.paper,
        judgement: judgement_on(columns, verdicts, keyed),
    };
    Ok(DoubtfulPaper {
        counted,
        verdict: verdict_on(verdicts, keyed.paper)?,
    })
}

/// Appends the doubtful papers among `papers` to `found`, each with the verdict on it, if `verdicts` contains one.
fn put_doubtful(
    found: &mut Vec<DoubtfulPaper>,
    columns: Columns,
    verdicts: &[JudgedPaper],
    papers: &[KeyedPaper],
) -> Result<(), AllocError>
    ensures { IfOk result (λ _. map doubtful_view found.new.items ≡ map doubtful_view found.old.items ++ doubtful_among columns (map judged_entry verdicts.now) (map keyed_entry papers.now)) }
{
    for keyed in papers {
        if is_doubtful(keyed) {
            found.push(doubtful_paper(columns, verdicts, keyed)?)?;
        }
    }
    Ok(())
}

impl<S: Alter> Store<S> {
    /// Appends the doubtful papers of a batch, if it is taken, to `before`. The columns are those of its ward.
    fn batch_doubtful(
        &mut self,
        before: Vec<DoubtfulPaper>,
        columns: Columns,
        batch: &Batch,
    ) -> Result<Vec<DoubtfulPaper>, Fault>
        ensures { Loads S.Store self.old self.new result (λ s found. map doubtful_view found.items ≡ map doubtful_view before.items ++ doubtful_in s columns (batch_entry batch.now)) }
    {
        let mut found = before;
        let papers = self.papers_of(batch)?;
        if put_doubtful(
            &mut found,
            columns,
            &papers.verdicts,
            papers.keyings.agreed(),
        )
        .is_err()
        {
            return Err(Fault::Memory);
        }
        Ok(found)
    }

    /// Returns the doubtful papers of the given batches, which are read one after another. The columns are those of
    /// their ward.
    fn all_doubtful(
        &mut self,
        columns: Columns,
        batches: &[Batch],
    ) -> Result<Vec<DoubtfulPaper>, Fault>
        requires { IsOpen S.Store self.old }
        ensures { Loads S.Store self.old self.new result (λ s found. map doubtful_view found.items ≡ flat_map (doubtful_in s columns) (map batch_entry batches.now)) }
    {
        let mut found = Vec::new(self.allocator());
        for batch in batches {
            found = self.batch_doubtful(found, columns, batch)?;
        }
        Ok(found)
    }

    /// Returns the candidates of a ward, and the doubtful papers of its batches.
    fn ward_doubtful(&mut self, ward: u32) -> Result<DoubtfulPapers, Fault>
        ensures { Loads S.Store self.old self.new result (λ s found. doubtful_papers_view found ≡ doubtful_papers s ward) }
    {
        let candidates = self.list_candidates(ward)?;
        let batches = self.list_batches(ward)?;
        let columns = columns_of(&candidates);
        let papers = self.all_doubtful(columns, &batches)?;
        Ok(DoubtfulPapers { candidates, papers })
    }

    /// Returns the doubtful papers of the taken batches of the ward with the given number, ordered by batch and paper,
    /// and the ward's candidates; `None` if there is no such ward. Each paper is returned as it is counted, with the
    /// verdict on it, if there is one. The ward's batches are read one after another, each with its keyings of the
    /// current round and the verdicts on its papers. Changes nothing, and doesn't add to the states that a stop may
    /// leave behind. Returns `Memory` or `Store` if a row can't be read.
    pub fn load_doubtful(&mut self, ward: u32) -> Result<Option<DoubtfulPapers>, Fault>
        ensures { Loads S.Store self.old self.new result (λ s found. option_map doubtful_papers_view found ≡ doubtful_at s ward) }
    {
        let found = self.find_ward(ward)?;
        match found {
            Some(ward) => {
                let papers = self.ward_doubtful(ward.number)?;
                Ok(Some(papers))
            }
            None => Ok(None),
        }
    }
}
