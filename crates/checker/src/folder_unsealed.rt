//! A ward of a folder that isn't sealed, made again from its row on the page of all wards.

ghost use Rattle.std.specs.Prelude.{◌≡◌, ◌≤◌, if◌then◌else◌, true, decimal, string_bytes, ℕ, IfOk};
ghost use Rattle.std.specs.Str.{is_utf8};
ghost use Rattle.sheet.specs.Index.{listed};
ghost use Rattle.sheet.specs.Lines.{plain};
ghost use Rattle.checker.specs.Folders.{IsUnsealedText, UnsealedEntry, is_unsealed, listed_of};
ghost use Rattle.checker.specs.FolderWards.{IsUnsealedMade, OkUnless, row_listed};
ghost use Rattle.checker.specs.IndexPage.{row_entry};
ghost use Rattle.checker.specs.Tokens.{Text};

use crate::folder_election::MakeFault;
use crate::folder_index::{IndexRow, unescaped};
use crate::numbers::number_in;
use sheet::{ListedWard, WardStanding};
use std::alloc::Global;

/// Returns the text that a page shows by the given one, which may have entities.
pub(crate) fn shown_text(alloc: Global, escaped: &[u8]) -> Result<String, MakeFault>
    ensures { (text : Text) → escaped.now ≡ plain text → is_utf8 text ≡ true → OkUnless MakeFault.Memory result (λ made. string_bytes made ≡ text) }
{
    let Ok(bytes) = unescaped(alloc, escaped) else {
        return Err(MakeFault::Memory);
    };
    match String::from_utf8(bytes) {
        Ok(text) => Ok(text),
        Err(_) => Err(MakeFault::NotIndex),
    }
}

/// Parses the seats of a ward.
fn seats_in(seats: &[u8]) -> Result<u32, MakeFault>
    ensures { (n : ℕ) → seats.now ≡ decimal n → n ≤ 255 → result ≡ Ok n }
{
    match number_in(255, seats) {
        Ok(seats) => Ok(seats),
        Err(_) => Err(MakeFault::NotIndex),
    }
}

/// Returns the status of a ward that isn't sealed.
fn unsealed_standing(is_keying: bool) -> WardStanding
    ensures { result ≡ (if is_keying then WardStanding.Keying else WardStanding.Nominations) }
{
    if is_keying {
        WardStanding::Keying
    } else {
        WardStanding::Nominations
    }
}

/// Returns a ward that isn't sealed, as the page of all wards lists it.
pub(crate) fn unsealed_ward(
    alloc: Global,
    row: &IndexRow,
    is_keying: bool,
) -> Result<ListedWard, MakeFault>
    ensures made { IfOk result (λ ward. IsUnsealedMade (listed ward)) }
    ensures again { (ward : UnsealedEntry) → IsUnsealedText ward → row_entry row.now ≡ row_listed (listed_of (is_unsealed ward)) → is_keying ≡ ward.is_keying
        → OkUnless MakeFault.Memory result (λ made. listed made ≡ listed_of (is_unsealed ward)) }
{
    let name = shown_text(alloc, row.name)?;
    let seats = seats_in(row.seats)?;
    Ok(ListedWard {
        number: u32::from(row.number),
        name,
        seats,
        standing: unsealed_standing(is_keying),
        is_contested: false,
        elected: Vec::new(alloc),
    })
}
