//! Comments that are ignored, and those that are rejected because they begin like ours.

ghost use Rattle.std.specs.Prelude.{◌≡◌};
ghost use Rattle.checker.specs.ForeignComments.{begins_as_ours, after_signs, first_letters, is_count_office_word, skip_foreign};

use crate::problem::BallotsFlaw;

/// Returns a text starting at its first letter or digit.
fn after_signs(text: &[u8]) -> &[u8]
    ensures { result.now ≡ after_signs text.now }
{
    for i in 0..text.len() {
        if text[i].is_ascii_alphanumeric() {
            return &text[i..];
        }
    }
    &[]
}

/// Returns the letters at the beginning of a text.
pub(crate) fn first_letters(text: &[u8]) -> &[u8]
    ensures { result.now ≡ first_letters text.now }
{
    for i in 0..text.len() {
        if !text[i].is_ascii_alphabetic() {
            return &text[..i];
        }
    }
    text
}

/// Returns whether the word is one of ours, ignoring case.
fn is_count_office_word(word: &[u8]) -> bool
    ensures { result ≡ is_count_office_word word.now }
{
    word.eq_ignore_ascii_case(b"Ward")
        || (word.eq_ignore_ascii_case(b"Rejected") || word.eq_ignore_ascii_case(b"Lot"))
}

/// Returns whether the comment begins with one of our words.
fn begins_as_ours(comment: &[u8]) -> bool
    ensures { result ≡ begins_as_ours comment.now }
{
    is_count_office_word(first_letters(after_signs(comment)))
}

/// Ignores a comment that isn't one of ours. Rejects one that begins like ours.
pub(crate) fn skip_foreign(comment: &[u8]) -> Result<(), BallotsFlaw>
    ensures { result ≡ skip_foreign comment.now }
{
    if begins_as_ours(comment) {
        return Err(BallotsFlaw::Astray);
    }
    Ok(())
}
