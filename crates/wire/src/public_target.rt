//! What is shown in public, and its targets.

ghost use Rattle.std.specs.Prelude.{◌≡◌};
ghost use Rattle.wire.specs.PublicTargets.{page_after_prefix, public_by, ward_page_by};

use crate::office_read::{after_digits, leading_number};

/// The prefix of the targets of ward pages.
const WARDS: &[u8] = b"/wards/";

/// What is shown in public.
#[derive(Clone, Copy, Debug, PartialEq, Eq)]
pub enum PublicTarget {
    /// The page of all wards.
    Index,
    /// The page for the screen in the hall.
    Screen,
    /// All wards, as the page for the screen reads them.
    Wards,
    /// The page of a ward.
    Page { ward: u32 },
}

/// Returns the page of a ward, given the part of the target after the prefix.
fn page_after_prefix(behind: &[u8]) -> Option<PublicTarget>
    ensures { result ≡ page_after_prefix behind.now }
{
    if after_digits(behind) == "/page".as_bytes() {
        return match leading_number(behind) {
            Some(ward) => Some(PublicTarget::Page { ward }),
            None => None,
        };
    }
    None
}

/// Returns the page of a ward, if the target names one.
fn ward_page_by(target: &[u8]) -> Option<PublicTarget>
    ensures { result ≡ ward_page_by target.now }
{
    if target.starts_with(WARDS) {
        return page_after_prefix(&target[WARDS.len()..]);
    }
    None
}

/// Returns what is shown in public at a target, if anything.
pub(crate) fn public_by(target: &[u8]) -> Option<PublicTarget>
    ensures { result ≡ public_by target.now }
{
    if target == "/".as_bytes() {
        return Some(PublicTarget::Index);
    }
    if target == "/screen".as_bytes() {
        return Some(PublicTarget::Screen);
    }
    if target == "/screen/wards".as_bytes() {
        return Some(PublicTarget::Wards);
    }
    ward_page_by(target)
}
