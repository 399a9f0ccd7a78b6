//! Makes the slips of clerks from a file of codes.

ghost use Rattle.std.specs.Prelude.{◌≡◌, ◌⊎◌, IfErr, IfOk, List, Ok, Err, map, string_bytes};
ghost use Rattle.codes.specs.Files.{CodeEntry, code_entry, codes_in};
ghost use Rattle.codes.specs.declared.fault.CodesError.TheVariants.{Fault, Memory};
ghost use Rattle.codes.specs.declared.fault.CodesFault.{CodesFault};
ghost use Rattle.origins.specs.Origins.{origin_text};
ghost use Rattle.desk.specs.Forms.{slips_form};

use codes::{CodeLine, CodesError, entries_of, lines_of};
use forms::{Slip, slips_page};
use origins::Origin;
use std::alloc::{AllocError, Global};

/// Returns the page with the slips for the clerks on these lines.
fn page_of(alloc: Global, origin: &str, lines: &[CodeLine<'_>]) -> Result<String, AllocError>
    ensures { IfOk result (λ page. string_bytes page ≡ slips_form origin.now (map code_entry lines.now)) }
{
    let mut slips = Vec::new(alloc);
    for line in lines {
        slips.push(Slip {
            clerk: line.clerk,
            code: line.code,
            origin,
        })?;
    }
    slips_page(alloc, slips.as_slice())
}

/// Returns the page with a slip for each clerk of a file of codes, given the origin of the keying pages. The error is that an
/// allocation failed, or the first line that is wrong.
pub fn slips_of(alloc: Global, origin: Origin<'_>, text: &[u8]) -> Result<String, CodesError>
    ensures ok { IfOk result (λ page. (entries : List CodeEntry) × (codes_in text.now ≡ Ok entries) × (string_bytes page ≡ slips_form (origin_text origin.entry) entries)) }
    ensures err { IfErr result (λ why. (why ≡ Memory) ⊎ ((fault : CodesFault) × (why ≡ Fault fault) × (codes_in text.now ≡ Err fault))) }
{
    let lines = lines_of(alloc, text)?;
    let found = entries_of(alloc, lines.as_slice())?;
    let page = page_of(alloc, origin.text(), found.clerks.as_slice())?;
    Ok(page)
}
