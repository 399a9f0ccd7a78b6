//! What is shown in public while an office is served: the title of the election, and the page for the screen in the hall.

ghost use Rattle.std.specs.Prelude.{◌≡◌, IfOk, option_map};
ghost use Rattle.wire.specs.Gates.{public_entry};
ghost use Rattle.count_office.specs.Serving.{public_at, public_with};

use std::alloc::{AllocError, Global};
use wire::{Page, Public};

/// The texts that are shown in public in any state: the title, and the page for the screen with its policy.
#[derive(Drop)]
pub struct PublicTexts<'a> {
    pub title: &'a str,
    pub screen: String,
    pub policy: String,
}

/// Builds the page for the screen and its policy, if there is a title. The only error is a failed allocation.
pub fn make_public_texts<'a>(
    alloc: Global,
    title: Option<&'a str>,
) -> Result<Option<PublicTexts<'a>>, AllocError>
    ensures { IfOk result (λ texts. option_map public_at texts ≡ option_map (λ its. public_with its.now) title.entry) }
{
    let Some(title) = title else {
        return Ok(None);
    };
    let screen = screen_page::page_text(alloc)?;
    let policy = screen_page::policy_text(alloc)?;
    Ok(Some(PublicTexts {
        title,
        screen,
        policy,
    }))
}

/// Returns the settings for showing the given texts; `None` if there are none.
pub fn public_of<'a>(texts: &'a Option<PublicTexts<'a>>) -> Option<Public<'a>>
    ensures { option_map public_entry result ≡ option_map public_at texts.now }
{
    match texts {
        Some(texts) => Some(Public {
            title: texts.title,
            screen: Page {
                text: texts.screen.as_str(),
                policy: texts.policy.as_str(),
            },
        }),
        None => None,
    }
}
