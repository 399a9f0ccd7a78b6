//! The ballots of a ward, read back.

ghost use Rattle.checker.specs.BallotsRoundTrip.{AreCheckedAsTold, AreHinderedAsTold, AreReadBack};

/// States the law of reading, for its callers. The ballots of a ward, as printed by `ballots`, read back as exactly that ward, its
/// bundles and its lots. So the result of [`check`](crate::check) for a text and these ballots is the result of comparing the text
/// with the ward itself, and any problem is a problem of the ward's count.
pub fn ballots_read_back()
    ensures back { AreReadBack }
    ensures checked { AreCheckedAsTold }
    ensures hindered { AreHinderedAsTold }
{}
