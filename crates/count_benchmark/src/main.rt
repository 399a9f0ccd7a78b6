//! Counts a made-up ward with 10 candidates and 4 seats.
//!
//! ```text
//! count_benchmark PAPERS [parcels|bundles [LISTS [STAGES]]]
//! ```
//!
//! Generates the given number of papers, either independently or, if LISTS isn't 0, by picking one of that many lists for each
//! paper. They are counted in parcels, the default, or in bundles, up to the given number of stages or to the end. Equal arguments
//! produce equal papers: the generator is deterministic, and lower numbers tend to be preferred.
#![tactic(auto)]

ghost use Rattle.std.specs.Prelude.{◌≡◌, []};

mod generator;
mod source;

use anyhow::{Result, bail};
use count::{
    BundleBook, Bundles, CountBook, Due, ParcelBook, Stage, bundles_can_be_counted, can_be_counted,
    count_to,
};
use paper::{Columns, Prefs};
use source::PaperSource;
use std::alloc::{AllocError, Global};
use std::env;
use votes::MAX_PAPERS;

const CANDIDATES: u8 = 10;

const SEATS: u8 = 4;

/// The maximum number of stages of a count with `CANDIDATES` candidates.
const ALL_STAGES: u32 = 11;

/// Returns the candidates 1 to 10.
fn candidates() -> Columns {
    let mut columns = Columns::empty();
    for c in 1..=CANDIDATES {
        columns = columns.with(c);
    }
    columns
}

/// Returns the given number of papers from the source, stored one by one.
fn listed(alloc: Global, source: &mut PaperSource, count: u32) -> Result<Vec<Prefs>, AllocError> {
    let mut papers = Vec::new(alloc);
    for _ in 0..count {
        if let Some(prefs) = source.next_paper() {
            papers.push(prefs)?;
        }
    }
    Ok(papers)
}

/// Returns the given number of papers from the source, with equal papers stored once.
fn bundled(alloc: Global, source: &mut PaperSource, count: u32) -> Result<Bundles, AllocError> {
    let mut bundles = Bundles::new(alloc);
    for _ in 0..count {
        if let Some(prefs) = source.next_paper() {
            if bundles.papers() < MAX_PAPERS {
                bundles.add(prefs)?;
            }
        }
    }
    Ok(bundles)
}

/// Prints the candidates elected at each stage, and the number of stages.
fn print_stages(rt: &impl Print, stages: &[Stage]) -> Result<()> {
    for (i, stage) in stages.iter().enumerate() {
        for c in stage.elected.as_slice() {
            println!(rt; "candidate {c} elected at stage {}", i.wrapping_add(1))?;
        }
    }
    println!(rt; "{} stages", stages.len())?;
    Ok(())
}

/// Counts up to the given number of stages in a new book, and prints them.
fn count_in<B: CountBook>(rt: &impl Print, book: &mut B, stages: u32) -> Result<()>
    requires { B.history book.old ≡ [] }
{
    count_to(book, &[], stages as usize)?;
    if let Due::Lot { stage, .. } = book.due() {
        bail!("a lot is needed at stage {stage}");
    }
    print_stages(rt, book.stages())
}

/// Parses the number in an argument, or returns the given default if there is no argument.
fn number_or(word: Option<&String>, other: u32) -> Result<u32> {
    match word {
        Some(word) => Ok(word.as_str().parse::<u32>()?),
        None => Ok(other),
    }
}

fn main(rt: HostRuntime) -> Result<()> {
    let words: Vec<String> = env::args(&rt)?.skip(1).collect(rt.alloc())?;
    let count = number_or(words.first(), 0)?;
    let lists = number_or(words.get(2), 0)?;
    let stages = number_or(words.get(3), ALL_STAGES)?;
    let mut source = PaperSource::new(rt.alloc(), lists)?;
    let candidates = candidates();
    if words.get(1).is_some_and(|word| word.as_str() == "bundles") {
        let bundles = bundled(rt.alloc(), &mut source, count)?;
        if !bundles_can_be_counted(&candidates, SEATS, &bundles) {
            bail!("no contest");
        }
        let mut book = BundleBook::new(rt.alloc(), candidates, SEATS, &bundles)?;
        return count_in(&rt, &mut book, stages);
    }
    let papers = listed(rt.alloc(), &mut source, count)?;
    if !can_be_counted(&candidates, SEATS, &papers) {
        bail!("too many papers");
    }
    let mut book = ParcelBook::new(rt.alloc(), candidates, SEATS, &papers)?;
    count_in(&rt, &mut book, stages)
}
