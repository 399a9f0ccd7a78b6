//! The markup of the page, around its style and its script.

ghost use Rattle.std.specs.Prelude.{◌≡◌, IfOk, string_bytes};
ghost use Rattle.screen_page.specs.Page.{page_of};

use std::alloc::{AllocError, Global};

/// The markup before the style.
const HEAD: &str = r#"<!DOCTYPE html>
<html lang="en">
<head>
<meta charset="utf-8">
<meta name="viewport" content="width=device-width, initial-scale=1">
<title>The count</title>
<link rel="icon" href="data:,">
"#;

/// The markup between the style and the script.
const BODY: &str = r#"
</head>
<body>
<header>
<p id="title"></p>
<p id="clock"></p>
<h1 id="which"></h1>
</header>
<p id="down" role="alert" hidden></p>
<main id="view"><noscript><p class="large">This screen needs JavaScript. Turn JavaScript on for this address, then reload the page.</p></noscript></main>
<footer>
<p id="changed"></p>
<p id="keys" hidden>Held. Press space to go on.</p>
<p id="place"></p>
</footer>
"#;

/// The markup after the script.
const TAIL: &str = r#"
</body>
</html>
"#;

#[tactic(auto, unfolding(crate::specs::Page::page_of))]
/// Returns the page with the given style and script. The only error is a failed allocation.
pub(crate) fn page_around(alloc: Global, style: &str, script: &str) -> Result<String, AllocError>
    ensures { IfOk result (λ text. string_bytes text ≡ page_of style.now script.now) }
{
    format!(in alloc; "{HEAD}<style>{style}</style>{BODY}<script>{script}</script>{TAIL}")
}
