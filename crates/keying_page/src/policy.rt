//! The policy of the page: what it is allowed to do in a browser.

ghost use Rattle.std.specs.Prelude.{◌≡◌, IfOk, string_bytes};
ghost use Rattle.keying_page.specs.Page.{policy_text};
ghost use Rattle.keying_page.specs.Policies.{hash_source};

use crate::script::script_text;
use crate::stylesheet::STYLE;
use base64::engine::general_purpose::STANDARD;
use sha2::{Digest, Sha256};
use std::alloc::{AllocError, Global};

#[tactic(auto, unfolding(crate::specs::Policies::hash_source))]
/// Returns the policy source that allows a browser to use one text: its SHA-256, in base64.
fn hash_source(alloc: Global, text: &[u8]) -> Result<String, AllocError>
    ensures { IfOk result (λ source. string_bytes source ≡ hash_source text.now) }
{
    let digest: [u8; 32] = Sha256::digest(text);
    let encoded = STANDARD.encode(alloc, &digest)?;
    format!(in alloc; "'sha256-{encoded}'")
}

#[tactic(auto, unfolding(crate::specs::Page::policy_text, crate::specs::Policies::policy_of))]
/// Returns the policy of the page, for the header `Content-Security-Policy`. It makes a browser run no other script, use no other
/// style, and send no requests elsewhere. The only error is a failed allocation.
pub fn policy_text(alloc: Global) -> Result<String, AllocError>
    ensures { IfOk result (λ policy. string_bytes policy ≡ policy_text) }
{
    let text = script_text(alloc)?;
    let script = hash_source(alloc, text.as_bytes())?;
    let style = hash_source(alloc, STYLE.as_bytes())?;
    format!(in alloc;
        "default-src 'none'; script-src {script}; style-src {style}; img-src data:; connect-src 'self'; \
base-uri 'none'; form-action 'none'; frame-ancestors 'none'; require-trusted-types-for 'script'; trusted-types 'none'"
    )
}
