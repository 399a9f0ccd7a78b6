//! The surpluses on a page, compared with the count.

ghost use Rattle.sheet_laws.specs.SurplusLaw.{AccountForFigures, AreOfEachSurplus, AreTheOnlyGroups, HaveAllPapers, HaveTransferValues};

/// States the law of the surpluses on a ward's page. It names papers for each stage that transfers a surplus, and for no other.
///
/// The papers that it names at a surplus are all that the candidate holds after the stages before it, in all and at each value. Each
/// passes on at its value times the share of the surplus, rounded down. No value is named twice, and the highest comes first.
/// There are no other papers and values of which all this is true.
///
/// At the stage of the surplus, the named values when received add up to the candidate's votes, of which the quota stays. The values
/// passed on add up to what all others gain, with the non-transferable votes, and the rest of the surplus is lost by fractions.
pub fn surpluses_are_of_the_count()
    ensures stages { AreOfEachSurplus }
    ensures papers { HaveAllPapers }
    ensures values { HaveTransferValues }
    ensures only { AreTheOnlyGroups }
    ensures figures { AccountForFigures }
{}
