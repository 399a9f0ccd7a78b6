//! Pages, and the links before their end.

ghost use Rattle.std.specs.Prelude.{◌≡◌, map, IfOk, string_bytes};
ghost use Rattle.std.specs.List.{list_all};
ghost use Rattle.publication.specs.Election.{election_entry, ward_entry};
ghost use Rattle.publication.specs.Pages.{are_pages, front_of, is_page, linked};

use crate::election::{PublishedElection, WardTexts};
use crate::joining::joined;
use std::alloc::{AllocError, Global};

/// The end of each page.
const PAGE_END: &str = "</body>\n</html>\n";

/// Returns true if a text ends as pages do.
fn is_page(page: &str) -> bool
    ensures { result ≡ is_page page.now }
{
    page.ends_with(PAGE_END)
}

/// Returns true if the pages of all wards end as pages do.
fn are_ward_pages(wards: &[WardTexts]) -> bool
    ensures { result ≡ list_all (λ ward. is_page ward.page) (map ward_entry wards.now) }
{
    for ward in wards {
        if !is_page(ward.page) {
            return false;
        }
    }
    true
}

/// Returns true if all pages of an election end as pages do.
pub fn are_pages(election: &PublishedElection) -> bool
    ensures { result ≡ are_pages (election_entry election.now) }
{
    is_page(election.index) && are_ward_pages(election.wards)
}

/// Returns a page without its end.
fn front_of(page: &str) -> &str
    ensures { result.now ≡ front_of page.now }
{
    match page.strip_suffix(PAGE_END) {
        Some(front) => front,
        None => page,
    }
}

/// Returns a page with links before its end.
pub fn linked(alloc: Global, links: &str, page: &str) -> Result<String, AllocError>
    ensures { IfOk result (λ text. string_bytes text ≡ linked links.now page.now) }
{
    joined(alloc, &[front_of(page), links, PAGE_END])
}
