//! The ballots of a ward, byte for byte.

ghost use Rattle.std.specs.Prelude.{◌-◌, ◌^◌, ◌<◌};

use crate::count_elections::bundles_of;
use crate::sheet_outputs::{Printed, candidates_of, prints};
use count::Bundles;
use sheet::{Poll, Ward, ballots_text, can_be_printed, write_ballots};
use std::alloc::Global;
use std::process::Abort;
use std::test::Fail;
use streams::{Broken, Sink};

/// Numbers 2, 4 and 5 have no candidate, and names contain quotation marks and backslashes, which are escaped.
const GAPS: &str = r#"6 2
-2 -4 -5
2 1 0
3 1 3 6 0
2 1 6 0
1 6 0
0
"Ann"
"withdrawn"
"B. \"Bob\" \\ Brün"
"withdrawn"
"withdrawn"
"Cy"
"Harbour # 7"
# Ward 7
# Rejected 1: 1, 2: 20, 3: 300, 4: 4000, 5: 50000
# Lot at stage 2: 3
# Lot at stage 4: 6
"#;

/// A ward's ballots.
#[derive(Drop)]
struct WardBallots<'a> {
    ward: &'a Ward<'a>,
    bundles: &'a Bundles,
    lots: &'a [(u8, u8)],
}

impl<'a> Printed for WardBallots<'a> {
    fn text(&self, alloc: Global) -> Result<String, Fail> {
        if !can_be_printed(self.ward) {
            return Err(Fail::from("no ward that can be printed"));
        }
        Ok(ballots_text(alloc, self.ward, self.bundles, self.lots)?)
    }

    fn write<W: Sink>(&self, sink: &mut W) -> Result<(), Broken> {
        if !can_be_printed(self.ward) {
            return Err(Broken);
        }
        write_ballots(sink, self.ward, self.bundles, self.lots)
    }
}

/// The ward's candidates.
const NAMED: [(u8, &str); 3] = [(1, "Ann"), (3, "B. \"Bob\" \\ Brün"), (6, "Cy")];

/// The ward's papers.
const PAPERS: [(u32, &[u8]); 4] = [(1, &[6]), (2, &[1, 6]), (3, &[1, 3, 6]), (2, &[1])];

fn prints_poll_of(
    rt: &(impl Abort + AllocGlobal),
    candidates: &[(u8, String)],
    bundles: &Bundles,
) -> Result<(), Fail> {
    let ward = Ward {
        number: 7,
        name: "Harbour # 7",
        seats: 2,
        candidates,
        poll: Some(Poll {
            valid: 8,
            rejected: [1, 20, 300, 4000, 50000],
        }),
    };
    let printed = WardBallots {
        ward: &ward,
        bundles,
        lots: &[(2, 3), (4, 6)],
    };
    prints(rt, &printed, GAPS)
}

fn prints_poll(rt: &(impl Abort + AllocGlobal)) -> Result<(), Fail> {
    let candidates = candidates_of(rt.alloc(), &NAMED)?;
    let bundles = bundles_of(rt.alloc(), &PAPERS)?;
    prints_poll_of(rt, &candidates, &bundles)
}

fn prints_uncontested(rt: &(impl Abort + AllocGlobal)) -> Result<(), Fail> {
    let ward = Ward {
        number: 7,
        name: "Harbour # 7",
        seats: 15,
        candidates: &[],
        poll: None,
    };
    let bundles = Bundles::new(rt.alloc());
    let printed = WardBallots {
        ward: &ward,
        bundles: &bundles,
        lots: &[],
    };
    prints(rt, &printed, "0 15\n0\n\"Harbour # 7\"\n# Ward 7\n")
}

#[test]
fn ballots(rt: HostRuntime) -> Result<(), Fail> {
    prints_poll(&rt)?;
    prints_uncontested(&rt)
}
