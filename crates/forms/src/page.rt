//! The page around a form.

ghost use Rattle.std.specs.Prelude.{◌≡◌, IfOk, string_bytes};
ghost use Rattle.forms.specs.Pages.{page, style as style_text};

use std::alloc::{AllocError, Global};

/// Returns the style sheet of a form.
fn style() -> &'static str
    ensures { result.now ≡ style_text }
{
    "\
@page { size: A4; margin: 15mm; }
body { color: #000; background: #fff; font: 12pt/1.4 sans-serif; margin: 0 1pt; }
h1 { font-size: 26pt; line-height: 1.2; margin: 0 0 4mm; }
h1, p, li, td { overflow-wrap: anywhere; }
.sheet { break-after: page; }
.sheet:last-child { break-after: auto; }
.large { font-size: 20pt; margin: 0 0 4mm; }
table { border-collapse: collapse; width: 100%; }
th, td { border: 1pt solid #000; padding: 2mm 3mm; text-align: left; vertical-align: top; }
th { font-weight: normal; }
tr { break-inside: avoid; }
.rounds td { height: 16mm; width: 28%; }
.verdicts td { height: 11mm; }
.verdicts .marks { width: 45%; }
ul { font-size: 16pt; list-style: none; padding: 0; }
li { break-inside: avoid; }
.names { font-size: 11pt; columns: 3; }
.slips { display: grid; grid-template-columns: 1fr 1fr; }
.slip { border: 1pt dashed #000; padding: 6mm; break-inside: avoid; }
.slip p { margin: 0 0 2mm; }
.code { font: bold 15pt monospace; }
.line { border-bottom: 1pt solid #000; margin: 0; padding: 11mm 0 1mm; break-inside: avoid; }
"
}

#[tactic(auto, unfolding(crate::specs::Pages::page))]
/// Returns a page that contains a form, with a title for the browser.
pub(crate) fn page(alloc: Global, title: &str, body: &str) -> Result<String, AllocError>
    ensures { IfOk result (λ text. string_bytes text ≡ page title.now body.now) }
{
    let style = style();
    format!(in alloc;
        "<!DOCTYPE html>\n<html lang=\"en\">\n<head>\n<meta charset=\"utf-8\">\n<title>{title}</title>\n<style>\n{style}</style>\n</head>\n<body>\n{body}</body>\n</html>\n"
    )
}
