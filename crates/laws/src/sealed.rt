//! What never changes once a ward is sealed.

ghost use Rattle.std.specs.Prelude.{◌≡◌, true};
ghost use Rattle.register.specs.Elections.{is_counted};
ghost use Rattle.laws.specs.Sealed.{PhaseStays, SealedPapersStay, SealedWardsStay};

use register::Phase;

/// The law of sealed papers, for lists of requests. Once a ward is sealed, no request changes its seats, its candidates or its
/// papers. The keyings of the current round remain unchanged, and so do the verdicts, the preferences of each valid paper and the
/// number of papers rejected with each code. The ward is never keyed again. Stages can only be added to those already counted, and
/// lots to those already drawn. Once a ward is declared, nothing about its election changes.
///
/// To a candidate, this means: the count depends only on what the tellers had keyed and the returning officer had judged when the
/// ward was sealed. A declared result is final. The law covers requests only: it doesn't cover changes made to the file by other
/// means, or to the ballot papers themselves.
pub fn sealed_wards_stay()
    ensures wards { SealedWardsStay }
    ensures papers { SealedPapersStay }
{}

/// Returns whether a ward in the given phase is past keying. No request changes the papers of such a ward.
pub fn is_past_keying(phase: Phase) -> bool
    ensures is { result ≡ is_counted phase }
    ensures stay { result ≡ true → PhaseStays phase }
{
    match phase {
        Phase::Nominations => false,
        Phase::Keying => false,
        Phase::Sealed => true,
        Phase::Declared => true,
    }
}
