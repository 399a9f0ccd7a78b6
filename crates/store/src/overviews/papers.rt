//! The papers of a batch as they are counted, read from the tables.

ghost use Rattle.std.specs.Prelude.{◌≡◌, ℕ, map, option_map, IfOk, IfErr};
ghost use Rattle.std.specs.List.{flat_map};
ghost use Rattle.register.specs.Offices.{OfficeState, batch_entry, candidate_entry, keyed_entry, judged_entry, candidates_of};
ghost use Rattle.register.specs.Marks.{columns_of};
ghost use Rattle.register.specs.Agreement.{batches_of};
ghost use Rattle.register.specs.Polls.{judgements, piles_of};
ghost use Rattle.tables.specs.declared.fault.Fault.{Fault};
ghost use Rattle.store.specs.Elections.{pile_by};
ghost use Rattle.store.specs.Overviews.{paper_view, paper_view_of, papers_view, papers_by, papers_of, papers_at, judgements_told};
ghost use Rattle.store.specs.Loads.{Loads};

use crate::storage::Store;
use crate::views::papers::BatchPapers;
use paper::Columns;
use register::agreement::is_keyed;
use register::marks::columns_of;
use register::polls::judgement_on;
use register::{Batch, Candidate, JudgedPaper, Judgement, KeyedPaper};
use sqlite::Alter;
use std::alloc::{AllocError, Global};
use tables::Fault;

/// A ballot paper (1 to 500) of a taken batch (1 to 9999), and the judgement by which it is counted.
#[derive(Drop)]
pub struct CountedPaper {
    pub batch: u32,
    pub paper: u32,
    pub judgement: Judgement,
}

/// Whether a batch is taken; the candidates of its ward; and its papers as they are counted, ordered by number. It has
/// no papers if it isn't taken.
#[derive(Drop)]
pub struct CountedPapers {
    pub taken: bool,
    pub candidates: Vec<Candidate>,
    pub papers: Vec<CountedPaper>,
}

/// The law of papers shown as counted: the papers of a ward's batches, one batch after another, have the judgements on
/// which the ward's count is based. This is a lemma for callers.
pub fn papers_told_are_counted()
    ensures { (s : OfficeState) (ward : ℕ) → flat_map (judgements_told s) (batches_of s ward) ≡ judgements (columns_of (candidates_of s ward)) (piles_of s ward) }
{}

/// Returns the papers of a keying, each as counted with the columns of its ward and the verdicts on the papers of its
/// batch.
fn counted_among(
    alloc: Global,
    columns: Columns,
    verdicts: &[JudgedPaper],
    papers: &[KeyedPaper],
) -> Result<Vec<CountedPaper>, AllocError>
    ensures { IfOk result (λ found. map paper_view found.items ≡ map (paper_view_of columns (map judged_entry verdicts.now)) (map keyed_entry papers.now)) }
{
    let mut found = Vec::new(alloc);
    for keyed in papers {
        let judgement = judgement_on(columns, verdicts, keyed);
        found.push(CountedPaper {
            batch: keyed.batch,
            paper: keyed.paper,
            judgement,
        })?;
    }
    Ok(found)
}

/// Returns the papers of a batch as they are counted in a ward with the given candidates. The only error is `Memory`.
fn papers_by(
    alloc: Global,
    candidates: Vec<Candidate>,
    papers: &BatchPapers,
) -> Result<CountedPapers, Fault>
    ensures is { IfOk result (λ found. papers_view found ≡ papers_by (map candidate_entry candidates.items) (pile_by papers.now)) }
    ensures cause { IfErr result (λ f. f ≡ Fault.Memory) }
{
    let agreed = papers.keyings.agreed();
    let columns = columns_of(&candidates);
    let Ok(counted) = counted_among(alloc, columns, &papers.verdicts, agreed) else {
        return Err(Fault::Memory);
    };
    Ok(CountedPapers {
        taken: is_keyed(agreed),
        candidates,
        papers: counted,
    })
}

impl<S: Alter> Store<S> {
    /// Returns the papers of a batch as they are counted.
    fn batch_papers(&mut self, batch: &Batch) -> Result<CountedPapers, Fault>
        ensures { Loads S.Store self.old self.new result (λ s found. papers_view found ≡ papers_of s (batch_entry batch.now)) }
    {
        let candidates = self.list_candidates(batch.ward)?;
        let papers = self.papers_of(batch)?;
        let found = papers_by(self.allocator(), candidates, &papers)?;
        Ok(found)
    }

    /// Returns the papers of the batch with the given number as they are counted, with the candidates of its ward;
    /// `None` if there is no such batch. If the batch is taken, each paper has the judgement by which it is counted; if
    /// it isn't, there are no papers. The candidates, the keyings of the current round and the verdicts on the papers
    /// are read. Changes nothing, and doesn't add to the states that a stop may leave behind. Returns `Memory` or
    /// `Store` if a row can't be read.
    pub fn load_batch_papers(&mut self, batch: u32) -> Result<Option<CountedPapers>, Fault>
        ensures { Loads S.Store self.old self.new result (λ s found. option_map papers_view found ≡ papers_at s batch) }
    {
        let found = self.find_batch(batch)?;
        match found {
            Some(batch) => {
                let papers = self.batch_papers(&batch)?;
                Ok(Some(papers))
            }
            None => Ok(None),
        }
    }
}
