//! The functions of `sheet` and `keyfile`: the texts of a ward, and import files.

ghost use Rattle.std.specs.Prelude.{◌-◌, ◌^◌, ◌<◌};
ghost use Rattle.sheet.specs.Wards.{CanBePrinted};

use count::Stage;
use keyfile::plain::{read_candidates, read_keying};
use keyfile::{CandidateRow, FileFault};
use paper::Columns;
use sheet::{Poll, Ward, can_be_printed, sheet_text, write_declaration, write_sheet};
use std::alloc::{AllocError, Global};
use std::io::Read;
use std::process::Abort;
use std::test::Fail;
use votes::{Broken, Sink};

fn put_sheet<W: Sink>(w: &mut W, ward: &Ward, stages: &[Stage]) -> Result<(), Broken>
    requires ward { CanBePrinted ward.now }
    requires failures { W.failed w.old < 2 ^ 64 - 1 }
{
    write_sheet(w, ward, stages)
}

fn put_declaration<W: Sink>(w: &mut W, ward: &Ward, elected: Columns) -> Result<(), Broken>
    requires ward { CanBePrinted ward.now }
    requires failures { W.failed w.old < 2 ^ 64 - 1 }
{
    write_declaration(w, ward, elected)
}

fn text_of(alloc: Global, ward: &Ward, stages: &[Stage]) -> Result<String, AllocError>
    requires { CanBePrinted ward.now }
{
    sheet_text(alloc, ward, stages)
}

/// Returns a ward without papers.
fn ward<'a>(name: &'a str, candidates: &'a [(u8, String)]) -> Ward<'a> {
    Ward {
        number: 7,
        name,
        seats: 2,
        candidates,
        poll: Some(Poll {
            valid: 0,
            rejected: [0; 5],
        }),
    }
}

#[test]
fn sheets_keep_their_calls(rt: HostRuntime) -> Result<(), Fail> {
    let ward = ward("Harbour", &[]);
    assert!(&rt; can_be_printed(&ward));
    let text = text_of(rt.alloc(), &ward, &[])?;
    assert!(&rt;
        text.as_str()
            .starts_with("Ward 7 Harbour\nSeats 2, valid 0")
    );
    Ok(())
}

fn candidates<R: Read + Drop>(alloc: Global, r: R) -> Result<Vec<CandidateRow>, FileFault> {
    read_candidates(alloc, r)
}

fn keying<R: Read + Drop>(alloc: Global, r: R, columns: Columns) -> Result<Vec<String>, FileFault> {
    read_keying(alloc, r, columns)
}

/// Returns the number of the fault in a file with a keying for candidate 1; 0 if there is none or an allocation failed.
fn fault_of(alloc: Global, file: &[u8]) -> u32 {
    match keying(alloc, file, Columns::empty().with(1)) {
        Ok(_) => 0,
        Err(fault) if fault.number() == 9 => 0,
        Err(fault) => fault.number(),
    }
}

#[test]
fn import_files_keep_their_calls(rt: HostRuntime) -> Result<(), Fail> {
    assert_eq!(&rt; fault_of(rt.alloc(), b"paper,1\n1,1\n"), 0);
    assert_eq!(&rt; fault_of(rt.alloc(), b"paper 12/4,1\n1,1\n"), 1);
    assert_eq!(&rt; fault_of(rt.alloc(), b"paper,1\n2,1\n"), 4);
    match candidates(rt.alloc(), b"ward,candidate,name\n7,1,Ann\n".as_slice()) {
        Ok(rows) => assert!(&rt; rows.len() == 1),
        Err(fault) => assert_eq!(&rt; fault.number(), 9),
    }
    Ok(())
}
