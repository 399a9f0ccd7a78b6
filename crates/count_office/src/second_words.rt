//! The option `--second FILE`, which every order may have in addition to its own words.

ghost use Rattle.std.specs.Prelude.{◌≡◌, IfOk, position};
ghost use Rattle.count_office.specs.SecondWords.{SplitEntry, is_second, split_words};

use std::alloc::{AllocError, Global};

/// The words of an order without `--second FILE`; and FILE, if it was given.
#[derive(Drop)]
pub struct SplitWords<'a> {
    pub words: Vec<&'a str>,
    pub second: Option<&'a str>,
}

/// Returns the place of the first word `--second`.
fn place_of_second(given: &[&str]) -> Option<usize>
    ensures { result ≡ position (λ word. is_second word.now) given.now }
{
    given.iter().position(|word| *word == "--second")
}

/// Returns the words of an order without the first `--second` and the word after it, which is the file. A `--second` without a word after
/// it stays, and isn't understood later on.
pub fn split_words<'a>(alloc: Global, given: &[&'a str]) -> Result<SplitWords<'a>, AllocError>
    ensures { IfOk result (λ split. record { words = split.words.items; second = split.second } ≡ split_words (λ word. word.now) given.now) }
{
    let mut words = Vec::new(alloc);
    if let Some(place) = place_of_second(given) {
        if let Some(file) = given.get(place + 1) {
            words.extend_from_slice(&given[..place])?;
            words.extend_from_slice(&given[place + 2..])?;
            return Ok(SplitWords {
                words,
                second: Some(*file),
            });
        }
    }
    words.extend_from_slice(given)?;
    Ok(SplitWords {
        words,
        second: None,
    })
}
