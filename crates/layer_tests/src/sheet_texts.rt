//! Sheets and declarations, byte for byte.

ghost use Rattle.std.specs.Prelude.{◌-◌, ◌^◌, ◌<◌};

use crate::sheet_outputs::{Printed, candidates_of, prints, three_stages};
use count::Stage;
use paper::Columns;
use sheet::{
    Poll, Ward, can_be_printed, declaration_text, sheet_text, write_declaration, write_sheet,
};
use std::alloc::Global;
use std::process::Abort;
use std::test::Fail;
use streams::{Broken, Sink};
use votes::MAX_PAPERS;

const HARBOUR: &str = "Ward 7 Harbour
Seats 2, valid 9, quota 4.00000
Rejected 1: 0, 2: 0, 3: 0, 4: 0, 5: 0
Stage 1: first preferences
 1       6.00000 E Ann
 2       1.00000 - Bob
 3       2.00000 - Cy
         0.00000 non-transferable
         0.00000 lost by fractions
Stage 2: surplus of 1
 1       4.00000 e Ann
 2       2.33332 - Bob
 3       2.66666 - Cy
         0.00000 non-transferable
         0.00002 lost by fractions
Stage 3: exclusion of 2, last vacancies
 1       4.00000 e Ann
 2       2.33332 x Bob
 3       2.66666 E Cy
         0.00000 non-transferable
         0.00002 lost by fractions
";

const SEALED: &str = "Ward 7 Harbour
Seats 2, valid 4999500, quota 1666501.00000
Rejected 1: 1, 2: 20, 3: 300, 4: 4000, 5: 50000
";

const DECLARATION: &str = "Ward 7 Harbour
Elected
 1 Ann
 3 Cy
";

/// A ward's sheet.
#[derive(Drop)]
struct SheetCase<'a> {
    ward: &'a Ward<'a>,
    stages: &'a [Stage],
}

impl<'a> Printed for SheetCase<'a> {
    fn text(&self, alloc: Global) -> Result<String, Fail> {
        if !can_be_printed(self.ward) {
            return Err(Fail::from("no ward that can be printed"));
        }
        Ok(sheet_text(alloc, self.ward, self.stages)?)
    }

    fn write<W: Sink>(&self, sink: &mut W) -> Result<(), Broken> {
        if !can_be_printed(self.ward) {
            return Err(Broken);
        }
        write_sheet(sink, self.ward, self.stages)
    }
}

/// A ward's declaration.
#[derive(Drop)]
struct WardDeclaration<'a> {
    ward: &'a Ward<'a>,
    elected: Columns,
}

impl<'a> Printed for WardDeclaration<'a> {
    fn text(&self, alloc: Global) -> Result<String, Fail> {
        if !can_be_printed(self.ward) {
            return Err(Fail::from("no ward that can be printed"));
        }
        Ok(declaration_text(alloc, self.ward, self.elected)?)
    }

    fn write<W: Sink>(&self, sink: &mut W) -> Result<(), Broken> {
        if !can_be_printed(self.ward) {
            return Err(Broken);
        }
        write_declaration(sink, self.ward, self.elected)
    }
}

/// Returns the ward with the given candidates and papers.
fn harbour<'a>(candidates: &'a [(u8, String)], valid: u32, rejected: [u32; 5]) -> Ward<'a> {
    Ward {
        number: 7,
        name: "Harbour",
        seats: 2,
        candidates,
        poll: Some(Poll { valid, rejected }),
    }
}

/// Prints the sheet and the declaration of a ward that has been counted.
fn prints_counted(
    rt: &(impl Abort + AllocGlobal),
    candidates: &[(u8, String)],
) -> Result<(), Fail> {
    let ward = harbour(candidates, 9, [0; 5]);
    let stages = three_stages();
    let sheet = SheetCase {
        ward: &ward,
        stages: &stages,
    };
    prints(rt, &sheet, HARBOUR)?;
    let declaration = WardDeclaration {
        ward: &ward,
        elected: Columns::empty().with(3).with(1),
    };
    prints(rt, &declaration, DECLARATION)
}

#[test]
fn sheets_and_declarations(rt: HostRuntime) -> Result<(), Fail> {
    let candidates = candidates_of(rt.alloc(), &[(1, "Ann"), (2, "Bob"), (3, "Cy")])?;
    prints_counted(&rt, &candidates)?;
    let ward = harbour(&candidates, MAX_PAPERS, [1, 20, 300, 4000, 50000]);
    let sheet = SheetCase {
        ward: &ward,
        stages: &[],
    };
    prints(&rt, &sheet, SEALED)
}
