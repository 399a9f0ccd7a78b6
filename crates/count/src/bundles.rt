//! Equal papers stored once, in a tree that maps each list of preferences to the number of papers with it. A bundle is looked up by
//! its list, and iteration is in the order of the lists. The total number of papers is stored next to the tree, so it is known
//! without iterating.

ghost use Rattle.std.specs.Prelude.{◌≡◌, ℕ, ◌+◌, ◌<◌, ◌≤◌, List, [], ◌∷◌, ◌++◌, length, replicate, slice_get, Some, OnOk, OnErr};
ghost use Rattle.std.specs.List.Sorted.{IsPermutation};
ghost use Rattle.std.specs.Map.Iter.{ShowsInOrder, deref_pair};
ghost use Rattle.votes.specs.Units.{max_papers};
ghost use Rattle.count.specs.Bundles.{AreBundles, AreToldByPapers, papers_of, with_papers};

use paper::Prefs;
use std::alloc::{AllocError, Global};
use std::collections::BTreeMap;
use std::collections::btree_map::Iter;
use std::marker::Model;

/// Equal papers stored once, modelled as the list of their bundles: each list of preferences with the number of papers that have it,
/// at least 1, in the order of the lists. The total is at most `MAX_PAPERS` papers.
#[derive(Drop)]
pub struct Bundles {
    lists: BTreeMap<Prefs, u32>,
    papers: u32,
}

impl Model for Bundles {
    ghost use Rattle.std.specs.Prelude.{◌≡◌, ◌≤◌, List, length};
    ghost use Rattle.votes.specs.Units.{max_papers};
    ghost use Rattle.count.specs.Bundles.{Bundle, AreBundles, papers_of};

    ghost Value = { List Bundle };

    ghost view = { λ a. a.lists.entries };

    ghost invariant = { λ a. AreBundles a.lists.entries × (a.papers ≡ length (papers_of a.lists.entries)) × (a.papers ≤ max_papers) };
}

impl Bundles {
    /// Returns an empty set of bundles. Allocates nothing.
    pub fn new(alloc: Global) -> Bundles
        ensures { result ≡ [] }
    {
        Bundles {
            lists: BTreeMap::new(alloc),
            papers: 0,
        }
    }

    /// Adds one paper; there must be fewer than `MAX_PAPERS`. Allocates only for a new list; if that fails, nothing is changed.
    pub fn add(&mut self, list: Prefs) -> Result<(), AllocError>
        requires { length (papers_of self.old) < max_papers }
        ensures ok { OnOk result (self.new ≡ with_papers self.old list 1) }
        ensures adds { OnOk result (IsPermutation (list ∷ papers_of self.old) (papers_of self.new)) }
        ensures err { OnErr result (self.new ≡ self.old) }
    {
        self.add_papers(list, 1)
    }

    /// Adds one or more equal papers; the total must not exceed `MAX_PAPERS`. Allocates only for a new list; if that fails, nothing
    /// is changed.
    pub fn add_papers(&mut self, list: Prefs, papers: u32) -> Result<(), AllocError>
        requires some { 1 ≤ papers }
        requires few { length (papers_of self.old) + papers ≤ max_papers }
        ensures ok { OnOk result (self.new ≡ with_papers self.old list papers) }
        ensures adds { OnOk result (IsPermutation (replicate papers list ++ papers_of self.old) (papers_of self.new)) }
        ensures err { OnErr result (self.new ≡ self.old) }
    {
        // called for its postconditions: they tell the proof that the list is a nonempty ranking
        let _ = list.first();
        add_to(&mut self.lists, list, papers)?;
        self.papers += papers;
        Ok(())
    }

    /// Returns the number of papers, counting equal ones separately.
    pub fn papers(&self) -> u32
        ensures is { result ≡ length (papers_of self.now) }
        ensures few { result ≤ max_papers }
    {
        self.papers
    }

    /// Returns the number of bundles.
    pub fn len(&self) -> usize
        ensures is { result ≡ length self.now }
        ensures bundles { AreBundles self.now }
    {
        self.lists.len()
    }

    /// Returns the bundle at the given position in the order of the lists: its list and its number of papers. Walks from the first
    /// bundle; to visit all of them, use `iter`.
    pub fn get(&self, i: usize) -> (&Prefs, u32)
        requires { i < length self.now }
        ensures { slice_get self.now i ≡ Some (result.0.now, result.1) }
    {
        let (list, papers) = self.lists.iter().nth(i).unwrap();
        (list, *papers)
    }

    /// Iterates over the bundles in the order of their lists, by reference. The order in which papers were added makes no difference.
    pub fn iter(&self) -> Iter<'_, Prefs, u32>
        ensures rest { result ≡ self.now }
        ensures runs { ShowsInOrder (deref_pair {K = List ℕ} {X = ℕ}) }
        ensures bundles { AreBundles self.now }
        ensures told { AreToldByPapers self.now }
    {
        self.lists.iter()
    }
}

/// Adds equal papers to the tree. `AllocError` if an allocation fails; the tree is then unchanged.
fn add_to(lists: &mut BTreeMap<Prefs, u32>, list: Prefs, papers: u32) -> Result<(), AllocError>
    requires { length (papers_of lists.old.entries) + papers ≤ max_papers }
    ensures ok { OnOk result (lists.new.entries ≡ with_papers lists.old.entries list papers) }
    ensures err { OnErr result (lists.new.entries ≡ lists.old.entries) }
{
    *lists.entry(list)?.or_insert(0) += papers;
    Ok(())
}
