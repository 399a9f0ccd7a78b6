//! The links from a page to the other files of the folder.

ghost use Rattle.std.specs.Prelude.{◌≡◌, ◌++◌, map, IfOk, OnOk, string_bytes};
ghost use Rattle.std.specs.List.{flat_map};
ghost use Rattle.publication.specs.Election.{ward_entry};
ghost use Rattle.publication.specs.Links.{index_item, index_links, part_link, part_links, ward_links};
ghost use Rattle.publication.specs.Parts.{part_entry};

use crate::election::WardTexts;
use crate::escaping::plain_text;
use crate::joining::joined;
use crate::parts::{WardPart, ward_file, ward_parts};
use itoa::Buffer;
use std::alloc::{AllocError, Global};

/// Hides the links in print.
const OPENING: &str =
    "<style>\n@media print { .links { display: none; } }\n</style>\n<nav class=\"links\">\n";

/// Returns the link to a file of a ward, after a comma.
fn part_link(alloc: Global, number: u8, part: &WardPart) -> Result<String, AllocError>
    ensures { IfOk result (λ text. string_bytes text ≡ part_link number (part_entry part.now)) }
{
    let name = ward_file(alloc, number, part.ending)?;
    joined(
        alloc,
        &[", <a href=\"", name.as_str(), "\">", part.words, "</a>"],
    )
}

/// Appends the links to files of a ward.
fn push_part_links(
    alloc: Global,
    text: &mut String,
    number: u8,
    parts: &[WardPart],
) -> Result<(), AllocError>
    ensures { OnOk result (string_bytes text.new ≡ string_bytes text.old ++ flat_map (part_link number) (map part_entry parts.now)) }
{
    for part in parts {
        let link = part_link(alloc, number, part)?;
        text.push_str(link.as_str())?;
    }
    Ok(())
}

/// Returns the links to the files of a ward, other than its page.
fn part_links(alloc: Global, ward: &WardTexts) -> Result<String, AllocError>
    ensures { IfOk result (λ text. string_bytes text ≡ part_links (ward_entry ward.now)) }
{
    let parts = ward_parts(alloc, ward)?;
    let mut text = String::new(alloc);
    push_part_links(alloc, &mut text, ward.number, &parts)?;
    Ok(text)
}

/// Returns the links on the page of a ward.
pub fn ward_links(alloc: Global, ward: &WardTexts) -> Result<String, AllocError>
    ensures { IfOk result (λ text. string_bytes text ≡ ward_links (ward_entry ward.now)) }
{
    let links = part_links(alloc, ward)?;
    let parts = [
        OPENING,
        "<p><a href=\"index.html\">all wards</a>",
        links.as_str(),
        "</p>\n</nav>\n",
    ];
    joined(alloc, &parts)
}

/// Returns the line of a ward among the links on the page of all wards.
fn index_item(alloc: Global, ward: &WardTexts) -> Result<String, AllocError>
    ensures { IfOk result (λ text. string_bytes text ≡ index_item (ward_entry ward.now)) }
{
    let page = ward_file(alloc, ward.number, ".html")?;
    let name = plain_text(alloc, ward.name)?;
    let links = part_links(alloc, ward)?;
    let mut buffer = Buffer::new();
    let parts = [
        "<li><a href=\"",
        page.as_str(),
        "\">",
        buffer.format(ward.number),
        " <bdi>",
        name.as_str(),
        "</bdi></a>",
        links.as_str(),
        "</li>\n",
    ];
    joined(alloc, &parts)
}

/// Appends the lines of wards.
fn push_index_items(alloc: Global, text: &mut String, wards: &[WardTexts]) -> Result<(), AllocError>
    ensures { OnOk result (string_bytes text.new ≡ string_bytes text.old ++ flat_map index_item (map ward_entry wards.now)) }
{
    for ward in wards {
        let item = index_item(alloc, ward)?;
        text.push_str(item.as_str())?;
    }
    Ok(())
}

/// Returns the links on the page of all wards.
pub fn index_links(alloc: Global, wards: &[WardTexts]) -> Result<String, AllocError>
    ensures { IfOk result (λ text. string_bytes text ≡ index_links (map ward_entry wards.now)) }
{
    let mut items = String::new(alloc);
    push_index_items(alloc, &mut items, wards)?;
    let parts = [
        OPENING,
        "<h2>Files</h2>\n<ul>\n",
        items.as_str(),
        "</ul>\n<p><a href=\"results.json\">results of all wards (JSON)</a>, <a href=\"check.html\">how to check these files</a>, <a href=\"SHA256SUMS\">SHA256SUMS</a></p>\n</nav>\n",
    ];
    joined(alloc, &parts)
}
