//! The source of the ward's papers.

use crate::generator::Generator;
use paper::Prefs;
use std::alloc::{AllocError, Global};

/// A source of papers, which are either generated independently or drawn from a fixed number of lists.
#[derive(Drop)]
pub struct PaperSource {
    generator: Generator,
    lists: Vec<Prefs>,
}

/// Returns a generated paper.
fn made_up(generator: &mut Generator) -> Option<Prefs> {
    let (order, len) = generator.next_paper();
    Prefs::from_slice(&order[..len])
}

impl PaperSource {
    /// Returns a source that draws from the given number of lists; if the number is 0, every paper is generated.
    pub fn new(alloc: Global, lists: u32) -> Result<PaperSource, AllocError> {
        let mut generator = Generator::new();
        let mut made = Vec::new(alloc);
        for _ in 0..lists {
            if let Some(prefs) = made_up(&mut generator) {
                made.push(prefs)?;
            }
        }
        Ok(PaperSource {
            generator,
            lists: made,
        })
    }

    /// Returns the next paper.
    pub fn next_paper(&mut self) -> Option<Prefs> {
        match u32::try_from(self.lists.len()) {
            Ok(0) | Err(_) => made_up(&mut self.generator),
            Ok(count) => {
                let place = self.generator.below(count) as usize;
                self.lists.get(place).copied()
            }
        }
    }
}
