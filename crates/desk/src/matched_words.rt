//! The values of matched words, and the reasons why words don't mean an order.
#![tactic(auto, unfolding(crate::specs::Orders::orders))]

ghost use Rattle.std.specs.Prelude.{◌≡◌, None, Some, codes, map, IfErr, IfOk, option_map, string_bytes};
ghost use Rattle.clap.specs.Words.{all_of, first_of, found_of, rows_of};
ghost use Rattle.keyfile.specs.Digests.{digest_bytes};
ghost use Rattle.origins.specs.Origins.{origin_text};
ghost use Rattle.desk.specs.Words.{digest_at, number_at, number_found, origin_at, text_at};
ghost use Rattle.desk.specs.Words.{flag_at, public_at, texts_at};

use crate::order_entry::{DIGEST, PUBLIC, TITLE, Word};
use clap::ArgMatches;
use keyfile::FileDigest;
use origins::Origin;
use std::alloc::{AllocError, Global};

/// The reason why matched words don't mean an order.
#[derive(Clone, Copy)]
pub(crate) enum NoOrder {
    /// The words don't name an order.
    Unknown,
    /// The word for a verdict is invalid.
    BadVerdict,
    /// The word for an origin is invalid.
    BadOrigin,
    /// The word for a digest is invalid.
    BadDigest,
    /// A title is given, but nothing is shown in public.
    TitleAlone,
    /// The words after `forms` name no form.
    BadForm,
    /// An allocation failed.
    Memory,
}

impl From<AllocError> for NoOrder {
    ghost use Rattle.desk.specs.declared.matched_words.NoOrder.TheVariants.{Memory};

    ghost from_gives = { λ _ why. why ≡ Memory };

    fn from(_: AllocError) -> NoOrder {
        NoOrder::Memory
    }
}

pub(crate) fn number_found_in(matches: &ArgMatches<'_>, word: Word) -> Option<u32>
    ensures { result ≡ number_found word.name.now (rows_of (found_of matches.now)) }
{
    matches.get_one::<u32>(word.name)
}

pub(crate) fn number_in(matches: &ArgMatches<'_>, word: Word) -> u32
    ensures { result ≡ number_at word.name.now (rows_of (found_of matches.now)) }
{
    number_found_in(matches, word).unwrap_or(0)
}

pub(crate) fn text_found_in<'a>(matches: &ArgMatches<'a>, word: Word) -> Option<&'a str>
    ensures { option_map (λ t. t.now) result ≡ first_of word.name.now (rows_of (found_of matches.now)) }
{
    matches.get_str(word.name)
}

fn texts_found_in<'m, 'a>(matches: &'m ArgMatches<'a>, word: Word) -> Option<&'m [&'a str]>
    ensures { option_map (λ texts. map (λ t. t.now) texts.now) result ≡ all_of word.name.now (rows_of (found_of matches.now)) }
{
    matches.get_strs(word.name)
}

pub(crate) fn text_in<'a>(matches: &ArgMatches<'a>, word: Word) -> &'a str
    ensures { result.now ≡ text_at word.name.now (rows_of (found_of matches.now)) }
{
    match text_found_in(matches, word) {
        Some(text) => text,
        None => "",
    }
}

pub(crate) fn text_copied(
    alloc: Global,
    matches: &ArgMatches<'_>,
    word: Word,
) -> Result<String, AllocError>
    ensures { IfOk result (λ text. string_bytes text ≡ text_at word.name.now (rows_of (found_of matches.now))) }
{
    String::from_str(alloc, text_in(matches, word))
}

/// Copies the texts that were matched for a word; empty if there are none.
pub(crate) fn texts_copied(
    alloc: Global,
    matches: &ArgMatches<'_>,
    word: Word,
) -> Result<Vec<String>, AllocError>
    ensures { IfOk result (λ texts. map string_bytes texts.items ≡ texts_at word.name.now (rows_of (found_of matches.now))) }
{
    let mut texts = Vec::new(alloc);
    if let Some(all) = texts_found_in(matches, word) {
        for text in all {
            texts.push(String::from_str(alloc, text)?)?;
        }
    }
    Ok(texts)
}

/// Returns true if a flag was matched. Its value is `true` if the flag is present.
pub(crate) fn flag_in(matches: &ArgMatches<'_>, word: Word) -> bool
    ensures { result ≡ flag_at word.name.now (rows_of (found_of matches.now)) }
{
    text_in(matches, word) == "true"
}

/// Returns the origin that was matched, if any.
pub(crate) fn origin_in<'a>(
    matches: &ArgMatches<'a>,
    word: Word,
) -> Result<Option<Origin<'a>>, NoOrder>
    ensures ok { IfOk result (λ found. origin_at word.name.now (rows_of (found_of matches.now)) ≡ option_map (λ o. Some (origin_text o)) found) }
    ensures err { IfErr result (λ why. (why ≡ NoOrder.BadOrigin) × (origin_at word.name.now (rows_of (found_of matches.now)) ≡ Some None)) }
{
    let Some(text) = text_found_in(matches, word) else {
        return Ok(None);
    };
    match Origin::parse(text) {
        Some(origin) => Ok(Some(origin)),
        None => Err(NoOrder::BadOrigin),
    }
}

/// Returns the digest that was matched, if any.
pub(crate) fn digest_in(matches: &ArgMatches<'_>) -> Result<Option<FileDigest>, NoOrder>
    ensures ok { IfOk result (λ found. digest_at (codes "sha256") (rows_of (found_of matches.now)) ≡ option_map (λ d. Some (digest_bytes d)) found) }
    ensures err { IfErr result (λ why. (why ≡ NoOrder.BadDigest) × (digest_at (codes "sha256") (rows_of (found_of matches.now)) ≡ Some None)) }
{
    let Some(text) = text_found_in(matches, DIGEST) else {
        return Ok(None);
    };
    match FileDigest::parse(text) {
        Some(digest) => Ok(Some(digest)),
        None => Err(NoOrder::BadDigest),
    }
}

/// Returns the title of what is shown in public; None if nothing is.
pub(crate) fn public_in<'a>(matches: &ArgMatches<'a>) -> Result<Option<&'a str>, NoOrder>
    ensures ok { IfOk result (λ found. public_at (rows_of (found_of matches.now)) ≡ Some (option_map (λ title. title.now) found)) }
    ensures err { IfErr result (λ why. (why ≡ NoOrder.TitleAlone) × (public_at (rows_of (found_of matches.now)) ≡ None)) }
{
    let title = text_in(matches, TITLE);
    if flag_in(matches, PUBLIC) {
        return Ok(Some(title));
    }
    if title.is_empty() {
        return Ok(None);
    }
    Err(NoOrder::TitleAlone)
}
