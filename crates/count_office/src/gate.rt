//! The gate of an office that is being served: the codes, the page on which clerks key, and the officer's console.

ghost use Rattle.std.specs.Prelude.{◌≡◌, IfErr, IfOk, option_map};
ghost use Rattle.wire.specs.Gates.{gate_entry};
ghost use Rattle.count_office.specs.Serving.{IsGateFor, IsUngated, gate_at};

use crate::host::Host;
use codes::{Codes, CodesError};
use std::alloc::Global;
use wire::{Gate, Page};

/// The files of a gate: the codes, and the two pages with their policies.
#[derive(Drop)]
pub struct GateFiles {
    pub codes: Codes,
    pub page: String,
    pub policy: String,
    pub console: String,
    pub console_policy: String,
}

/// Reads the file of codes at a path, and builds the pages and their policies. Returns `None` if no path is given.
pub fn read_gate_files<H: Host>(
    alloc: Global,
    host: &H,
    path: Option<&str>,
) -> Result<Option<GateFiles>, CodesError>
    ensures gate { IfOk result (λ gate_files. IsGateFor (H.codes_at host.now) (option_map (λ text. text.now) path.entry) (option_map gate_at gate_files)) }
    ensures unread { IfErr result (λ why. IsUngated (H.codes_at host.now) (option_map (λ text. text.now) path.entry) why) }
{
    let Some(path) = path else {
        return Ok(None);
    };
    let codes = host.read_codes(path)?;
    let page = keying_page::page_text(alloc)?;
    let policy = keying_page::policy_text(alloc)?;
    let console = console_page::page_text(alloc)?;
    let console_policy = console_page::policy_text(alloc)?;
    Ok(Some(GateFiles {
        codes,
        page,
        policy,
        console,
        console_policy,
    }))
}

/// Returns the gate with the given codes and pages; `None` if there are none.
pub fn gate_of(gate_files: &Option<GateFiles>) -> Option<Gate<'_>>
    ensures { option_map gate_entry result ≡ option_map gate_at gate_files.now }
{
    match gate_files {
        Some(gate_files) => Some(Gate {
            codes: &gate_files.codes,
            page: Page {
                text: gate_files.page.as_str(),
                policy: gate_files.policy.as_str(),
            },
            console: Page {
                text: gate_files.console.as_str(),
                policy: gate_files.console_policy.as_str(),
            },
        }),
        None => None,
    }
}
