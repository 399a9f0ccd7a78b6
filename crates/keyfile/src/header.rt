//! The first field of a keying's header: `paper`, or `paper 12/4` for the keying of batch 12 by clerk 4.

ghost use Rattle.std.specs.Prelude.{◌≡◌, false, IfSome, ◌==◌, ◌<◌};
ghost use Rattle.std.specs.List.{after_first, before_first};
ghost use Rattle.keyfile.specs.Faults.{is_failed_read};
ghost use Rattle.keyfile.specs.Headers.{first_field_flaw, in_range, named_in};

use crate::fault::Flaw;
use paper::plain_number_in;

/// The highest batch number that the office assigns.
const HIGHEST_BATCH: u32 = 9999;

/// The highest clerk number that the office recognizes.
const HIGHEST_CLERK: u32 = 999;

/// Splits a text at the first occurrence of a character into the part before it and the part after it. If the character doesn't
/// occur, returns the whole text and an empty one.
fn parted(text: &str, mark: char) -> (&str, &str)
    requires { mark < 128 }
    ensures before { result.0.now ≡ before_first (λ b. b == mark) text.now }
    ensures behind { result.1.now ≡ after_first (λ b. b == mark) text.now }
{
    match text.split_once(mark) {
        Some((before, behind)) => (before, behind),
        None => (text, ""),
    }
}

/// Returns a batch and a clerk if both numbers are in range.
fn in_range(batch: Option<u32>, clerk: Option<u32>) -> Option<(u32, u32)>
    ensures { result ≡ in_range batch clerk }
{
    let (Some(batch), Some(clerk)) = (batch, clerk) else {
        return None;
    };
    if batch <= HIGHEST_BATCH && clerk <= HIGHEST_CLERK {
        Some((batch, clerk))
    } else {
        None
    }
}

/// Returns the batch and the clerk that a first field names, if any.
fn named_in(field: &str) -> Option<(u32, u32)>
    ensures { result ≡ named_in field.now }
{
    let (word, numbers) = parted(field, ' ');
    if word != "paper" {
        return None;
    }
    let (batch, clerk) = parted(numbers, '/');
    in_range(plain_number_in(batch), plain_number_in(clerk))
}

/// Returns what is wrong with the first field of a clerk's keying of a batch, if anything is. The flaw is `Header` if the field
/// is not `paper` and doesn't name a batch and a clerk in range, and `OtherKeying` if it names another batch or clerk.
pub(crate) fn first_field_flaw(field: &str, batch: u32, clerk: u32) -> Option<Flaw>
    ensures is { result ≡ first_field_flaw batch clerk field.now }
    ensures file { IfSome result (λ flaw. is_failed_read flaw ≡ false) }
{
    if field == "paper" {
        return None;
    }
    let Some((its_batch, its_clerk)) = named_in(field) else {
        return Some(Flaw::Header);
    };
    if its_batch == batch && its_clerk == clerk {
        return None;
    }
    Some(Flaw::OtherKeying {
        batch: its_batch,
        clerk: its_clerk,
    })
}
