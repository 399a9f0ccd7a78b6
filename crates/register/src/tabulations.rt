//! The tabulation of an office's counts: the place of each bundle of equal ballot papers, and every figure of every stage.

ghost use Rattle.std.specs.Prelude.{◌≡◌, ◌==◌, ◌+◌, ◌≤◌, [], ◌++◌, ℕ, List, map, reverse, length, true, Some, IfOk, IfSome, IsSome, OnOk};
ghost use Rattle.std.specs.List.{AllByRecursion, filter};
ghost use Rattle.votes.specs.Units.{max_papers};
ghost use Rattle.paper.specs.Columns.{max_candidates};
ghost use Rattle.count.specs.Books.{placed};
ghost use Rattle.count.specs.Bundles.{Bundle, IsBundle, AreBundles, papers_of, with_papers};
ghost use Rattle.count.specs.StoredCounts.{IsStoredCountOf};
ghost use Rattle.count.specs.Law.Places.{Place};
ghost use Rattle.register.specs.Marks.{columns_of};
ghost use Rattle.register.specs.Offices.{OfficeState, WardEntry, ward_at, candidates_of};
ghost use Rattle.register.specs.Elections.{ElectionEntry, election_of, contest_of, stages_of};
ghost use Rattle.register.specs.StateConditions.{IsState};
ghost use Rattle.register.specs.Tabulated.{PlacedEntry, FigureEntry, TabulationRises, AreOfCount, has_stages, bundles_in, figures_in, tabulation_of};
ghost use Rattle.register.specs.Tabulated.{placed_at, figure_at, figures_to, placed_entry, figure_entry, bundle_of, placed_of, shown_of, addition_entries, no_addition};
ghost use Rattle.register.specs.WorkedTabulation.{WorkedTabulation};

use count::{Bundles, Figure, Placed, Stage, StoredCount, figures_of, stages_of_figures};
use paper::{Columns, Prefs};
use std::alloc::{AllocError, Global};
use votes::{MAX_PAPERS, Votes};

/// A bundle of equal ballot papers in a ward, with its place after the completed stages. It has the preferences, one candidate's
/// number (1 to 30) per byte, and the number of papers, at least 1. The holder is a candidate's number, or 0 for none. The value of
/// each paper is in units.
#[derive(PartialEq, Eq, Drop)]
pub struct PlacedBundle {
    pub ward: u32,
    pub list: Vec<u8>,
    pub papers: u32,
    pub holder: u32,
    pub value: u64,
}

/// A figure from a stage of a ward's count, as in `count::Figure`.
#[derive(Clone, Copy, PartialEq, Eq)]
pub struct StageFigure {
    pub ward: u32,
    pub stage: u32,
    pub candidate: u32,
    pub units: u64,
    pub mark: u32,
}

/// The complete tabulation: the bundles, ordered by ward and list, and the figures, ordered by ward, stage and candidate.
#[derive(Drop)]
pub struct Tabulation {
    pub bundles: Vec<PlacedBundle>,
    pub figures: Vec<StageFigure>,
}

/// What an accepted request adds to the tabulation: new bundles (all of them at a ward's first stage), bundles whose places have
/// changed, and the figures of the new stage. Empty unless the request counts a stage.
#[derive(Drop)]
pub struct Addition {
    pub placed: Vec<PlacedBundle>,
    pub moved: Vec<PlacedBundle>,
    pub figures: Vec<StageFigure>,
}

impl Addition {
    /// Returns an empty addition. Allocates nothing.
    pub fn none(alloc: Global) -> Addition
        ensures { addition_entries result ≡ no_addition }
    {
        Addition {
            placed: Vec::new(alloc),
            moved: Vec::new(alloc),
            figures: Vec::new(alloc),
        }
    }
}

impl Tabulation {
    /// Returns an empty tabulation. Allocates nothing.
    pub fn empty(alloc: Global) -> Tabulation
        ensures bundles { result.bundles.items ≡ [] }
        ensures figures { result.figures.items ≡ [] }
    {
        Tabulation {
            bundles: Vec::new(alloc),
            figures: Vec::new(alloc),
        }
    }

    /// Adds the completed stages of a ward's count: its bundles in their places, and the figures of its stages. Returns `AllocError`
    /// if an allocation fails; in that case, part of the count may already have been added.
    pub fn add(
        &mut self,
        alloc: Global,
        ward: u32,
        candidates: &Columns,
        bundles: &Bundles,
        places: &[Placed],
        stages: &[Stage],
    ) -> Result<(), AllocError>
        ensures bundles { OnOk result ((at : List ℕ → Place) → places.now ≡ map (λ (b : Bundle). placed (at b.0)) bundles.now
            → map placed_entry self.new.bundles.items ≡ map placed_entry self.old.bundles.items ++ map (λ (b : Bundle). placed_at ward b (at b.0)) bundles.now) }
        ensures figures { OnOk result (map figure_entry self.new.figures.items ≡ map figure_entry self.old.figures.items ++ figures_to ward candidates.now (reverse stages.now)) }
    {
        add_bundles(alloc, &mut self.bundles, ward, bundles, places)?;
        add_figures(alloc, &mut self.figures, ward, candidates, stages)?;
        Ok(())
    }
}

/// Returns a bundle of a ward with its place. Returns `AllocError` if an allocation fails.
pub(crate) fn placed_bundle(
    alloc: Global,
    ward: u32,
    list: &Prefs,
    papers: u32,
    at: &Placed,
) -> Result<PlacedBundle, AllocError>
    ensures { IfOk result (λ bundle. placed_entry bundle ≡ record { ward = ward; list = list.now; papers = papers; holder = at.now.holder; value = at.now.value }) }
{
    let list = Vec::from_slice(alloc, list.as_slice())?;
    Ok(PlacedBundle {
        ward,
        list,
        papers,
        holder: u32::from(at.holder),
        value: at.value.units(),
    })
}

/// Adds the bundles of a ward, each with its place.
fn add_bundles(
    alloc: Global,
    to: &mut Vec<PlacedBundle>,
    ward: u32,
    bundles: &Bundles,
    places: &[Placed],
) -> Result<(), AllocError>
    ensures { OnOk result ((at : List ℕ → Place) → places.now ≡ map (λ (b : Bundle). placed (at b.0)) bundles.now
        → map placed_entry to.new.items ≡ map placed_entry to.old.items ++ map (λ (b : Bundle). placed_at ward b (at b.0)) bundles.now) }
{
    let mut rest = places;
    for (list, papers) in bundles.iter() {
        if let Some((at, others)) = rest.split_first() {
            to.push(placed_bundle(alloc, ward, list, *papers, at)?)?;
            rest = others;
        }
    }
    Ok(())
}

/// Adds the figures of one stage of a ward.
pub(crate) fn add_stage_figures(
    to: &mut Vec<StageFigure>,
    ward: u32,
    stage: u32,
    figures: &[Figure],
) -> Result<(), AllocError>
    ensures { OnOk result (map figure_entry to.new.items ≡ map figure_entry to.old.items ++ map (figure_at ward stage) figures.now) }
{
    for figure in figures {
        to.push(StageFigure {
            ward,
            stage,
            candidate: figure.candidate,
            units: figure.units,
            mark: figure.mark,
        })?;
    }
    Ok(())
}

/// Adds the figures of all stages of a ward, starting with the first.
fn add_figures(
    alloc: Global,
    to: &mut Vec<StageFigure>,
    ward: u32,
    candidates: &Columns,
    stages: &[Stage],
) -> Result<(), AllocError>
    ensures { OnOk result (map figure_entry to.new.items ≡ map figure_entry to.old.items ++ figures_to ward candidates.now (reverse stages.now)) }
{
    for done in 0..stages.len() {
        // memory can't hold this many stages
        let Ok(stage) = u32::try_from(done + 1) else {
            return Err(AllocError);
        };
        let figures = figures_of(alloc, candidates, &stages[..=done])?;
        add_stage_figures(to, ward, stage, &figures)?;
    }
    Ok(())
}

/// The laws of the tabulation, for use by callers. In a state, the bundles are ordered by ward and list, and the figures by ward,
/// stage and candidate, without duplicates. The bundles and figures of a ward are those of its election. If a ward's count has at
/// least one stage, the count can be read back from them. For an election worked out by hand, they are as expected: before the first
/// stage there are none; after it, there is each bundle in its place, at its value, and the figures of each stage.
pub fn tabulations_are_ordered()
    ensures rise { (s : OfficeState) → IsState s → TabulationRises (tabulation_of s) }
    ensures bundles { (s : OfficeState) (w : WardEntry) → IsState s → ward_at s w.number ≡ Some w
        → filter (λ (b : PlacedEntry). b.ward == w.number) (tabulation_of s).bundles ≡ bundles_in (election_of s w) }
    ensures figures { (s : OfficeState) (w : WardEntry) → IsState s → ward_at s w.number ≡ Some w
        → filter (λ (f : FigureEntry). f.ward == w.number) (tabulation_of s).figures ≡ figures_in (election_of s w) }
    ensures counted { (s : OfficeState) (w : WardEntry) → IsState s → ward_at s w.number ≡ Some w → has_stages (election_of s w) ≡ true
        → AreOfCount (election_of s w) (columns_of (candidates_of s w.number)) w.seats (bundles_in (election_of s w)) (figures_in (election_of s w)) }
    ensures worked { WorkedTabulation }
{}

/// Adds a bundle to the given bundles. Returns false if its list isn't a valid list of preferences, it has no papers, or the total
/// number of papers would exceed `MAX_PAPERS`. Returns `AllocError` if an allocation fails.
fn add_bundle(bundles: &mut Bundles, bundle: &PlacedBundle) -> Result<bool, AllocError>
    ensures ok { IfOk result (λ added. added ≡ true → bundles.new ≡ with_papers bundles.old bundle.now.list.items bundle.now.papers) }
    ensures fits { IfOk result (λ added. IsBundle (bundle_of (placed_entry bundle.now)) → length (papers_of bundles.old) + bundle.now.papers ≤ max_papers → added ≡ true) }
{
    let Some(list) = Prefs::from_slice(&bundle.list) else {
        return Ok(false);
    };
    let room = MAX_PAPERS - bundles.papers();
    if bundle.papers < 1 || bundle.papers > room {
        return Ok(false);
    }
    bundles.add_papers(list, bundle.papers)?;
    Ok(true)
}

/// Returns the bundles of a ward, or `None` if the tabulated bundles are invalid or have too many papers. Returns `AllocError` if an
/// allocation fails.
fn bundles_of(alloc: Global, tabulated: &[PlacedBundle]) -> Result<Option<Bundles>, AllocError>
    ensures is { IfOk result (λ found. IfSome found (λ bundles. AreBundles (map bundle_of (map placed_entry tabulated.now)) → bundles ≡ map bundle_of (map placed_entry tabulated.now))) }
    ensures some { IfOk result (λ found. AreBundles (map bundle_of (map placed_entry tabulated.now))
        → length (papers_of (map bundle_of (map placed_entry tabulated.now))) ≤ max_papers → IsSome found) }
{
    let mut bundles = Bundles::new(alloc);
    for bundle in tabulated {
        if !add_bundle(&mut bundles, bundle)? {
            return Ok(None);
        }
    }
    Ok(Some(bundles))
}

/// Returns the places of a ward's bundles, or `None` if a holder isn't a candidate's number. Returns `AllocError` if an allocation
/// fails.
fn places_of(alloc: Global, tabulated: &[PlacedBundle]) -> Result<Option<Vec<Placed>>, AllocError>
    ensures is { IfOk result (λ found. IfSome found (λ places. places.items ≡ map placed_of (map placed_entry tabulated.now))) }
    ensures some { IfOk result (λ found. AllByRecursion (λ (at : Placed). at.holder ≤ max_candidates) (map placed_of (map placed_entry tabulated.now)) → IsSome found) }
{
    let mut places = Vec::with_capacity(alloc, tabulated.len())?;
    for bundle in tabulated {
        let Ok(holder) = u8::try_from(bundle.holder) else {
            return Ok(None);
        };
        places.push(Placed {
            holder,
            value: Votes::from_units(bundle.value),
        })?;
    }
    Ok(Some(places))
}

/// Returns the figures of a ward in the form used by the count, stage by stage. Returns `AllocError` if an allocation fails.
fn figures_shown(alloc: Global, tabulated: &[StageFigure]) -> Result<Vec<Figure>, AllocError>
    ensures { IfOk result (λ figures. figures.items ≡ map shown_of (map figure_entry tabulated.now)) }
{
    let mut figures = Vec::with_capacity(alloc, tabulated.len())?;
    for figure in tabulated {
        figures.push(Figure {
            candidate: figure.candidate,
            units: figure.units,
            mark: figure.mark,
        })?;
    }
    Ok(figures)
}

/// Returns the count of a ward, as determined by its tabulated bundles and figures, or `None` if they don't form a count. Returns
/// `AllocError` if an allocation fails.
pub fn count_of(
    alloc: Global,
    candidates: Columns,
    seats: u32,
    bundles: &[PlacedBundle],
    figures: &[StageFigure],
) -> Result<Option<StoredCount>, AllocError>
    ensures is { IfOk result (λ found. IfSome found (λ kept. (e : ElectionEntry) → AreOfCount e candidates seats (map placed_entry bundles.now) (map figure_entry figures.now)
        → IsStoredCountOf (contest_of e) (stages_of e) kept)) }
    ensures some { IfOk result (λ found. (e : ElectionEntry) → AreOfCount e candidates seats (map placed_entry bundles.now) (map figure_entry figures.now) → IsSome found) }
{
    let Ok(seats) = u8::try_from(seats) else {
        return Ok(None);
    };
    let Some(kept) = bundles_of(alloc, bundles)? else {
        return Ok(None);
    };
    let Some(places) = places_of(alloc, bundles)? else {
        return Ok(None);
    };
    let figures = figures_shown(alloc, figures)?;
    let Some(stages) = stages_of_figures(alloc, &candidates, &figures)? else {
        return Ok(None);
    };
    Ok(StoredCount::resume(candidates, seats, kept, places, stages))
}
