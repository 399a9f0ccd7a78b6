//! The slips of clerks.

ghost use Rattle.std.specs.Prelude.{◌≡◌, IfOk, map, string_bytes};
ghost use Rattle.forms.specs.Slips.{all_slips, slip, slip_address, slip_entry, slip_head, slips_body, slips_page};

use crate::blocks::{Block, blocks};
use crate::escaping::{escaped, escaped_ascii};
use crate::page::page;
use std::alloc::{AllocError, Global};

/// A clerk's slip: the clerk's number and code, which is ASCII, and the origin of the keying pages.
#[derive(Clone, Copy)]
pub struct Slip<'a> {
    pub clerk: u32,
    pub code: &'a [u8],
    pub origin: &'a str,
}

#[tactic(auto, unfolding(crate::specs::Slips::slip_head))]
/// Returns the part of a slip with the clerk's number and code.
fn slip_head(alloc: Global, slip: &Slip<'_>) -> Result<String, AllocError>
    ensures { IfOk result (λ text. string_bytes text ≡ slip_head (slip_entry slip.now)) }
{
    let clerk = slip.clerk;
    let code = escaped_ascii(alloc, slip.code)?;
    format!(in alloc;
        "<div class=\"slip\">\n<p class=\"large\">Clerk {clerk}</p>\n<p>Code <span class=\"code\">{code}</span></p>\n"
    )
}

#[tactic(auto, unfolding(crate::specs::Slips::slip_address))]
/// Returns the part of a slip with the address of the clerk's page.
fn slip_address(alloc: Global, slip: &Slip<'_>) -> Result<String, AllocError>
    ensures { IfOk result (λ text. string_bytes text ≡ slip_address (slip_entry slip.now)) }
{
    let clerk = slip.clerk;
    let origin = escaped(alloc, slip.origin)?;
    format!(in alloc; "<p>Address <bdi>{origin}/clerks/{clerk}/</bdi></p>\n")
}

impl Block for Slip<'_> {
    ghost text = { λ s. slip (slip_entry s) };

    #[tactic(auto, unfolding(crate::specs::Slips::slip))]
    /// Returns the slip.
    fn block(&self, alloc: Global) -> Result<String, AllocError> {
        let head = slip_head(alloc, self)?;
        let address = slip_address(alloc, self)?;
        format!(in alloc;
            "{head}{address}<p>Sign in: the name is your number, the password your code. Show this slip to nobody, and give it back when you leave.</p>\n</div>\n"
        )
    }
}

#[tactic(auto, unfolding(crate::specs::Slips::all_slips))]
/// Returns the slips, one after another.
fn all_slips(alloc: Global, slips: &[Slip<'_>]) -> Result<String, AllocError>
    ensures { IfOk result (λ text. string_bytes text ≡ all_slips (map slip_entry slips.now)) }
{
    let all = blocks(alloc, slips)?;
    Ok(all)
}

#[tactic(auto, unfolding(crate::specs::Slips::slips_body))]
/// Returns the slips, laid out in columns.
fn slips_body(alloc: Global, slips: &[Slip<'_>]) -> Result<String, AllocError>
    ensures { IfOk result (λ text. string_bytes text ≡ slips_body (map slip_entry slips.now)) }
{
    let all = all_slips(alloc, slips)?;
    format!(in alloc; "<div class=\"slips\">\n{all}</div>\n")
}

#[tactic(auto, unfolding(crate::specs::Slips::slips_page))]
/// Returns a page with the slips of clerks, to be cut out.
pub fn slips_page(alloc: Global, slips: &[Slip<'_>]) -> Result<String, AllocError>
    ensures { IfOk result (λ text. string_bytes text ≡ slips_page (map slip_entry slips.now)) }
{
    let body = slips_body(alloc, slips)?;
    page(alloc, "Slips of clerks", body.as_str())
}
