//! The wording of a declaration.

ghost use Rattle.std.specs.Prelude.{◌≡◌, IfOk, map, string_bytes};
ghost use Rattle.forms.specs.Declarations.{declaration_body, declaration_head, declaration_page, vacancy_words};
ghost use Rattle.forms.specs.Lots.{candidate_shown};

use crate::candidates::{NamedCandidate, candidate_items};
use crate::escaping::named;
use crate::page::page;
use std::alloc::{AllocError, Global};

#[tactic(auto, unfolding(crate::specs::Declarations::vacancy_words))]
/// Returns the sentence that says how many seats remain vacant.
fn vacancy_words(alloc: Global, vacant: usize) -> Result<String, AllocError>
    ensures { IfOk result (λ text. string_bytes text ≡ vacancy_words vacant) }
{
    if vacant == 0 {
        return String::from_str(alloc, "</ul>\n<p>All seats are filled.</p>\n");
    }
    format!(in alloc; "</ul>\n<p class=\"large\">Seats that stay vacant: {vacant}.</p>\n")
}

#[tactic(auto, unfolding(crate::specs::Declarations::declaration_head))]
/// Returns the beginning of the declaration, with the ward and its seats, up to the elected candidates.
fn declaration_head(alloc: Global, ward: u32, name: &str, seats: u32) -> Result<String, AllocError>
    ensures { IfOk result (λ text. string_bytes text ≡ declaration_head ward name.now seats) }
{
    let ward = named(alloc, ward, name)?;
    format!(in alloc;
        "<h1>Declaration, ward {ward}</h1>\n<p>I, the returning officer, declare the result of the election of ward {ward}. Seats: {seats}. Duly elected are:</p>\n<ul>\n"
    )
}

#[tactic(auto, unfolding(crate::specs::Declarations::declaration_body))]
/// Returns the body of the declaration of a ward.
fn declaration_body(
    alloc: Global,
    ward: u32,
    name: &str,
    seats: u32,
    elected: &[NamedCandidate<'_>],
    vacant: usize,
) -> Result<String, AllocError>
    ensures { IfOk result (λ text. string_bytes text ≡ declaration_body ward name.now seats (map candidate_shown elected.now) vacant) }
{
    let head = declaration_head(alloc, ward, name, seats)?;
    let items = candidate_items(alloc, elected)?;
    let left = vacancy_words(alloc, vacant)?;
    format!(in alloc;
        "{head}{items}{left}<p class=\"line\">Date and time</p>\n<p class=\"line\">Returning officer</p>\n"
    )
}

#[tactic(auto, unfolding(crate::specs::Declarations::declaration_page))]
/// Returns a page with the declaration of a ward: who is elected to its seats, and how many seats remain vacant.
pub fn declaration_page(
    alloc: Global,
    ward: u32,
    name: &str,
    seats: u32,
    elected: &[NamedCandidate<'_>],
    vacant: usize,
) -> Result<String, AllocError>
    ensures { IfOk result (λ text. string_bytes text ≡ declaration_page ward name.now seats (map candidate_shown elected.now) vacant) }
{
    let body = declaration_body(alloc, ward, name, seats, elected, vacant)?;
    page(alloc, "Declaration", body.as_str())
}
