//! The files of a ward, other than its page.

ghost use Rattle.std.specs.Prelude.{◌≡◌, ◌++◌, ◌∷◌, [], map, IfOk, OnOk, decimal, string_bytes};
ghost use Rattle.std.specs.Option.{option_copied};
ghost use Rattle.publication.specs.Election.{ward_entry};
ghost use Rattle.publication.specs.Parts.{ballots_part, declaration_part, part_entry, ward_file, ward_parts};

use crate::election::WardTexts;
use crate::joining::joined;
use itoa::Buffer;
use std::alloc::{AllocError, Global};

/// A file of a ward: how its name ends, what links call it, and its text.
#[derive(Clone, Copy)]
pub struct WardPart<'a> {
    pub ending: &'static str,
    pub words: &'static str,
    pub text: &'a str,
}

/// Returns the name of a ward's file with the given ending: `ward-7-sheet.txt`.
pub fn ward_file(alloc: Global, number: u8, ending: &str) -> Result<String, AllocError>
    ensures { IfOk result (λ name. string_bytes name ≡ ward_file number ending.now) }
{
    joined(alloc, &["ward-", Buffer::new().format(number), ending])
}

/// Appends a file.
fn push_part<'a>(parts: &mut Vec<WardPart<'a>>, part: WardPart<'a>) -> Result<(), AllocError>
    ensures { OnOk result (map part_entry parts.new.items ≡ map part_entry parts.old.items ++ part_entry part.entry ∷ []) }
{
    parts.push(part)?;
    Ok(())
}

/// Appends the declaration, if the ward is declared.
fn push_declaration<'a>(
    parts: &mut Vec<WardPart<'a>>,
    declaration: Option<&'a str>,
) -> Result<(), AllocError>
    ensures { OnOk result (map part_entry parts.new.items ≡ map part_entry parts.old.items ++ declaration_part (option_copied declaration.entry)) }
{
    match declaration {
        Some(text) => push_part(
            parts,
            WardPart {
                ending: "-declaration.txt",
                words: "declaration",
                text,
            },
        ),
        None => Ok(()),
    }
}

/// Appends the ballots, if they are published.
fn push_ballots<'a>(
    parts: &mut Vec<WardPart<'a>>,
    ballots: Option<&'a str>,
) -> Result<(), AllocError>
    ensures { OnOk result (map part_entry parts.new.items ≡ map part_entry parts.old.items ++ ballots_part (option_copied ballots.entry)) }
{
    match ballots {
        Some(text) => push_part(
            parts,
            WardPart {
                ending: "-ballots.txt",
                words: "ballots",
                text,
            },
        ),
        None => Ok(()),
    }
}

/// Returns the files of a ward, other than its page.
pub fn ward_parts<'a>(alloc: Global, ward: &WardTexts<'a>) -> Result<Vec<WardPart<'a>>, AllocError>
    ensures { IfOk result (λ parts. map part_entry parts.items ≡ ward_parts (ward_entry ward.now)) }
{
    let mut parts = Vec::new(alloc);
    let sheet = WardPart {
        ending: "-sheet.txt",
        words: "stage sheet",
        text: ward.sheet,
    };
    push_part(&mut parts, sheet)?;
    push_declaration(&mut parts, ward.declaration)?;
    let table = WardPart {
        ending: "-table.csv",
        words: "table",
        text: ward.table,
    };
    push_part(&mut parts, table)?;
    push_ballots(&mut parts, ward.ballots)?;
    Ok(parts)
}
