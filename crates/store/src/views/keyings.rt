//! A clerk's keying of a batch, read for a request.
//!
//! The papers of a keying are inserted in one transaction, in order. In most offices their rows are therefore adjacent,
//! and are read as a run, which takes half the time it takes to find each by its key. The rows themselves show whether
//! they are the keying. If they aren't, for example in an office whose rows were inserted in a different order, each
//! paper is found by its key.

ghost use Rattle.std.specs.Prelude.{◌≡◌, ◌&&◌, ⊤, map, IfSome};
ghost use Rattle.std.specs.List.{AllByRecursion, list_all};
ghost use Rattle.sqlite_rules.specs.Lists.{Has};
ghost use Rattle.register.specs.Offices.{keyed_entry, keying_of};
ghost use Rattle.register.specs.BatchConditions.{are_numbered, is_whole};
ghost use Rattle.store.specs.Keyings.{is_paper_of};
ghost use Rattle.store.specs.Loads.{Loads};

use crate::entries::keyings::KeyedPapers;
use crate::storage::Store;
use crate::views::papers::FIRST_PAPER;
use register::{Batch, KeyedPaper};
use sqlite::Alter;
use tables::finding::entries_beginning;
use tables::rowid_ranges::{entries_between, find_rowid};
use tables::value_conversion::number;
use tables::{Fault, Table};

#[tactic(auto, unfolding(register::specs::BatchConditions::are_numbered))]
/// Returns whether the papers are numbered consecutively, starting from 1.
fn are_numbered(papers: &[KeyedPaper]) -> bool
    ensures { result ≡ are_numbered 1 (map keyed_entry papers.now) }
{
    for (place, keyed) in papers.iter().enumerate() {
        if keyed.paper as usize != place + 1 {
            return false;
        }
    }
    true
}

/// Returns whether each of the given papers belongs to the given clerk's keying of a batch in a round.
fn are_papers_of(batch: u32, round: u32, clerk: u32, papers: &[KeyedPaper]) -> bool
    ensures { result ≡ list_all (λ k. is_paper_of batch round clerk (keyed_entry k)) papers.now }
{
    papers.iter().all(|keyed| {
        (keyed.batch == batch) & ((keyed.round == round) & (keyed.clerk == clerk))
    })
}

/// Returns whether the papers are those of the given clerk's keying of a batch in a round: each paper from 1 to `size`,
/// exactly once and in order.
fn is_keying(batch: u32, round: u32, clerk: u32, size: u32, papers: &[KeyedPaper]) -> bool
    ensures { result ≡ (is_whole size (map keyed_entry papers.now) && list_all (λ k. is_paper_of batch round clerk (keyed_entry k)) papers.now) }
{
    let full = papers.len() == size as usize;
    let whole = full & are_numbered(papers);
    whole & are_papers_of(batch, round, clerk, papers)
}

impl<S: Alter> Store<S> {
    /// Returns the papers that the given clerk keyed for a batch in a round, in order, each found by its key.
    fn list_by_key(&mut self, batch: u32, round: u32, clerk: u32) -> Result<Vec<KeyedPaper>, Fault>
        ensures { Loads S.Store self.old self.new result (λ s found. map keyed_entry found.items ≡ keying_of s batch round clerk) }
    {
        let key = [number(batch), number(round), number(clerk)];
        entries_beginning::<KeyedPapers, S>(self.alloc, &mut self.conn, &key)
    }

    /// Returns the rowid of the first paper of a keying, if that paper exists. Neither the state nor any clause
    /// determines the rowid: the rows read from there show whether they are the keying.
    fn find_first(&mut self, batch: u32, round: u32, clerk: u32) -> Result<Option<i64>, Fault>
        ensures { Loads S.Store self.old self.new result (λ s found. ⊤) }
    {
        let key = [
            number(batch),
            number(round),
            number(clerk),
            number(FIRST_PAPER),
        ];
        find_rowid(&mut self.conn, Table::Keying, &key)
    }

    /// Returns the keyed papers whose rowids are in the given range, both ends included. Each is a paper of the state.
    fn list_between(&mut self, low: i64, high: i64) -> Result<Vec<KeyedPaper>, Fault>
        ensures { Loads S.Store self.old self.new result (λ s found. AllByRecursion (Has s.keyings) (map keyed_entry found.items)) }
    {
        entries_between::<KeyedPapers, S>(self.alloc, &mut self.conn, low, high)
    }

    /// Returns as many papers as the batch has, starting with the first paper of a keying; empty if there is no such
    /// paper.
    fn list_run(&mut self, batch: &Batch, round: u32, clerk: u32) -> Result<Vec<KeyedPaper>, Fault>
        ensures { Loads S.Store self.old self.new result (λ s found. AllByRecursion (Has s.keyings) (map keyed_entry found.items)) }
    {
        let first = self.find_first(batch.number, round, clerk)?;
        let Some(place) = first else {
            return Ok(Vec::new(self.allocator()));
        };
        let last = place.saturating_add(i64::from(batch.size.saturating_sub(1)));
        let papers = self.list_between(place, last)?;
        Ok(papers)
    }

    /// Returns the papers that the given clerk keyed for a batch in a round, in order, if their rows are adjacent.
    fn find_run(
        &mut self,
        batch: u32,
        round: u32,
        clerk: u32,
    ) -> Result<Option<Vec<KeyedPaper>>, Fault>
        ensures { Loads S.Store self.old self.new result (λ s found. IfSome found (λ papers. map keyed_entry papers.items ≡ keying_of s batch round clerk)) }
    {
        let found = self.find_batch(batch)?;
        let Some(given) = found else {
            return Ok(None);
        };
        let papers = self.list_run(&given, round, clerk)?;
        if !is_keying(batch, round, clerk, given.size, &papers) {
            return Ok(None);
        }
        Ok(Some(papers))
    }

    /// Returns the papers that the given clerk keyed for a batch in a round, in order.
    pub(crate) fn list_keying(
        &mut self,
        batch: u32,
        round: u32,
        clerk: u32,
    ) -> Result<Vec<KeyedPaper>, Fault>
        ensures { Loads S.Store self.old self.new result (λ s found. map keyed_entry found.items ≡ keying_of s batch round clerk) }
    {
        let found = self.find_run(batch, round, clerk)?;
        if let Some(run) = found {
            return Ok(run);
        }
        let papers = self.list_by_key(batch, round, clerk)?;
        Ok(papers)
    }
}
