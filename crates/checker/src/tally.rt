//! The papers of a file while it is read: equal ones are counted together.
//!
//! Most papers of a large file have a list that was read before. A hash of the list leads to where it was added. Of a tree, in
//! contrast, each paper would read several nodes.

ghost use Rattle.std.specs.Prelude.{◌≡◌, ◌+◌, ◌<◌, ◌≤◌, Some, [], length, option_map, slice_get, slice_set, IfOk, IfSome, OnOk};
ghost use Rattle.std.specs.List.{AllByRecursion};
ghost use Rattle.count.specs.Bundles.{Bundle, AreBundles, IsBundle, papers_of, with_papers};
ghost use Rattle.paper.specs.Ranking.{IsRanking};
ghost use Rattle.votes.specs.Units.{max_papers};
ghost use Rattle.checker.specs.Tallies.{settled};

use count::Bundles;
use paper::Prefs;
use std::alloc::{AllocError, Global};
use std::marker::Model;
use std::mem;

/// The number of lists that are found by their hashes at once. Beyond it they go into the tree, which bounds their memory to 6 MB.
const MOST_RECENT: usize = 131072;

/// The number of slots when the first list is added.
const FIRST_SLOTS: usize = 1024;

/// The number of neighbouring slots in which a list may be.
const PROBES: usize = 8;

/// A slot that no list has.
const FREE: u32 = 4294967295;

/// Papers that are being added, modelled as their bundles.
#[derive(Drop)]
pub(crate) struct Tally {
    alloc: Global,
    /// The papers that are in a tree.
    bundles: Bundles,
    /// The other papers: lists, each with a number of papers.
    recent: Vec<(Prefs, u32)>,
    /// The probable positions of lists in `recent`, by their hashes. A wrong one costs time, and changes nothing.
    slots: Vec<u32>,
    /// The number of all papers.
    papers: u32,
}

impl Model for Tally {
    ghost use Rattle.std.specs.Prelude.{◌≡◌, ◌≤◌, List, length};
    ghost use Rattle.std.specs.List.{AllByRecursion};
    ghost use Rattle.votes.specs.Units.{max_papers};
    ghost use Rattle.count.specs.Bundles.{Bundle, AreBundles, IsBundle, papers_of};
    ghost use Rattle.checker.specs.Tallies.{settled};

    ghost Value = { List Bundle };

    ghost view = { λ a. settled a.bundles a.recent.items };

    ghost invariant = { λ a. AreBundles a.bundles × AllByRecursion IsBundle a.recent.items × (a.papers ≡ length (papers_of (settled a.bundles a.recent.items))) × (a.papers ≤ max_papers) };
}

/// Returns a number by which a list is looked up.
fn hash_of(list: &[u8]) -> u64 {
    let mut hash: u64 = 0;
    for c in list {
        hash = (hash ^ u64::from(*c)).wrapping_mul(11400714819323198485);
    }
    hash
}

/// Returns the preferences in a list.
fn prefs_of(list: &[u8]) -> Prefs
    requires named { 1 ≤ length list.now }
    requires ranking { IsRanking list.now }
    ensures { result ≡ list.now }
{
    Prefs::from_slice(list).unwrap()
}

/// Returns the slot for a hash that follows the first one by the given number of steps; the number of slots is a power of two.
fn slot_at(hash: u64, step: usize, slots: usize) -> usize {
    ((hash >> 32) as usize).wrapping_add(step) & slots.wrapping_sub(1)
}

/// Returns the position of a list, if a slot leads to it.
fn found(slots: &[u32], recent: &[(Prefs, u32)], hash: u64, list: &[u8]) -> Option<usize>
    ensures { IfSome result (λ i. option_map (λ b. b.0) (slice_get recent.now i) ≡ Some list.now) }
{
    for step in 0..PROBES {
        let i = match slots.get(slot_at(hash, step, slots.len())) {
            Some(slot) => *slot as usize,
            None => return None,
        };
        if i >= recent.len() {
            return None;
        }
        if recent[i].0.as_slice() == list {
            return Some(i);
        }
    }
    None
}

/// Stores the position of a list in a free slot, or else in its first one.
fn remember(slots: &mut [u32], hash: u64, i: usize) {
    let Ok(i) = u32::try_from(i) else {
        return;
    };
    let count = slots.len();
    for step in 0..PROBES {
        if let Some(slot) = slots.get_mut(slot_at(hash, step, count)) {
            if *slot == FREE {
                *slot = i;
                return;
            }
        }
    }
    if let Some(slot) = slots.get_mut(slot_at(hash, 0, count)) {
        *slot = i;
    }
}

/// Returns so many slots, with the positions of the given lists.
fn slots_for(alloc: Global, recent: &[(Prefs, u32)], count: usize) -> Result<Vec<u32>, AllocError> {
    let mut slots = Vec::new(alloc);
    slots.resize(count, FREE)?;
    for (i, bundle) in recent.iter().enumerate() {
        remember(&mut slots, hash_of(bundle.0.as_slice()), i);
    }
    Ok(slots)
}

/// Returns the slots of the given lists, or twice as many if half of them would be used up by another list.
fn with_room(
    alloc: Global,
    slots: Vec<u32>,
    recent: &[(Prefs, u32)],
) -> Result<Vec<u32>, AllocError> {
    if slots.len() / 2 > recent.len() {
        return Ok(slots);
    }
    slots_for(
        alloc,
        recent,
        slots.len().saturating_mul(2).max(FIRST_SLOTS),
    )
}

/// Adds papers to the list at the given position.
fn add_at(recent: &mut Vec<(Prefs, u32)>, i: usize, papers: u32)
    requires within { i < length recent.old.items }
    requires few { (b : Bundle) → slice_get recent.old.items i ≡ Some b → b.1 + papers ≤ max_papers }
    ensures { (b : Bundle) → slice_get recent.old.items i ≡ Some b → recent.new.items ≡ slice_set recent.old.items i (b.0, b.1 + papers) }
{
    let (list, own) = recent[i];
    recent[i] = (list, own + papers);
}

/// Adds lists with their papers to bundles.
fn settled(bundles: Bundles, recent: &[(Prefs, u32)]) -> Result<Bundles, AllocError>
    requires each { AllByRecursion IsBundle recent.now }
    requires few { length (papers_of (settled bundles recent.now)) ≤ max_papers }
    ensures { IfOk result (λ all. all ≡ settled bundles recent.now) }
{
    let mut all = bundles;
    for bundle in recent {
        all.add_papers(bundle.0, bundle.1)?;
    }
    Ok(all)
}

impl Tally {
    /// Returns a tally without papers. Allocates nothing.
    pub(crate) fn new(alloc: Global) -> Tally
        ensures { result ≡ [] }
    {
        let bundles = Bundles::new(alloc);
        // called for its postconditions
        let _ = bundles.len();
        Tally {
            alloc,
            bundles,
            recent: Vec::new(alloc),
            slots: Vec::new(alloc),
            papers: 0,
        }
    }

    /// Returns the number of papers.
    pub(crate) fn papers(&self) -> u32
        ensures is { result ≡ length (papers_of self.now) }
        ensures few { result ≤ max_papers }
    {
        self.papers
    }

    /// Returns the bundles of the papers.
    pub(crate) fn into_bundles(self) -> Result<Bundles, AllocError>
        ensures { IfOk result (λ bundles. bundles ≡ self) }
    {
        settled(self.bundles, &self.recent)
    }

    /// Returns the same papers, with all lists in the tree. The memory of the table is used again.
    fn into_tree(self) -> Result<Tally, AllocError>
        ensures { IfOk result (λ tally. tally ≡ self) }
    {
        let mut recent = self.recent;
        let mut slots = self.slots;
        let bundles = settled(self.bundles, &recent)?;
        // called for its postconditions
        let _ = bundles.len();
        recent.clear();
        let count = slots.len();
        slots.clear();
        slots.resize(count, FREE)?;
        Ok(Tally {
            alloc: self.alloc,
            bundles,
            recent,
            slots,
            papers: self.papers,
        })
    }

    /// Adds papers with a list that no slot leads to.
    fn add_list(&mut self, hash: u64, list: &[u8], papers: u32) -> Result<(), AllocError>
        requires some { 1 ≤ papers }
        requires few { length (papers_of self.old) + papers ≤ max_papers }
        requires named { 1 ≤ length list.now }
        requires ranking { IsRanking list.now }
        ensures { OnOk result (self.new ≡ with_papers self.old list.now papers) }
    {
        let prefs = prefs_of(list);
        let slots = mem::replace(&mut self.slots, Vec::new(self.alloc));
        self.slots = with_room(self.alloc, slots, &self.recent)?;
        remember(&mut self.slots, hash, self.recent.len());
        self.recent.push((prefs, papers))?;
        self.papers += papers;
        Ok(())
    }

    /// Adds one or more papers with the same list, which ranks at least one candidate; the total must not exceed `MAX_PAPERS`.
    pub(crate) fn add_papers(&mut self, list: &[u8], papers: u32) -> Result<(), AllocError>
        requires some { 1 ≤ papers }
        requires few { length (papers_of self.old) + papers ≤ max_papers }
        requires named { 1 ≤ length list.now }
        requires ranking { IsRanking list.now }
        ensures { OnOk result (self.new ≡ with_papers self.old list.now papers) }
    {
        let hash = hash_of(list);
        if let Some(i) = found(&self.slots, &self.recent, hash, list) {
            add_at(&mut self.recent, i, papers);
            self.papers += papers;
            return Ok(());
        }
        if self.recent.len() >= MOST_RECENT {
            let full = mem::replace(self, Tally::new(self.alloc));
            *self = full.into_tree()?;
        }
        self.add_list(hash, list, papers)
    }
}
