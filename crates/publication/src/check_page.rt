//! The page that says how to check the folder.

ghost use Rattle.std.specs.Prelude.{◌≡◌, IfOk, string_bytes};
ghost use Rattle.publication.specs.CheckPage.{after_title as after_title_text, before_title as before_title_text, check_page};

use crate::escaping::plain_text;
use crate::joining::joined;
use std::alloc::{AllocError, Global};

/// Returns the page up to the title of the election.
fn before_title() -> &'static str
    ensures { result.now ≡ before_title_text }
{
    "\
<!DOCTYPE html>
<html lang=\"en\">
<head>
<meta charset=\"utf-8\">
<meta name=\"viewport\" content=\"width=device-width, initial-scale=1\">
<title>How to check these files</title>
<style>
body { color: #000; background: #fff; font: 1rem/1.4 sans-serif; max-width: 44rem; margin: 1rem auto; padding: 0 1rem; overflow-wrap: anywhere; }
h1 { font-size: 2.2rem; line-height: 1.2; margin: .2rem 0 .4rem; }
h2 { font-size: 1.2rem; margin: 1.4rem 0 .4rem; }
pre { border: 1px solid #888; padding: .4rem .6rem; white-space: pre-wrap; }
</style>
</head>
<body>
<p dir=\"auto\">"
}

/// Returns the page after the title.
fn after_title() -> &'static str
    ensures { result.now ≡ after_title_text }
{
    "\
</p>
<h1>How to check these files</h1>
<p>Download the whole folder, and open a terminal in it.</p>
<h2>Are the files complete and unchanged?</h2>
<pre>sha256sum -c SHA256SUMS</pre>
<p>It prints the name of each file, followed by OK if the file has the digest that SHA256SUMS lists for it.
Anyone who changes a file can change SHA256SUMS too.
So compare the digest of SHA256SUMS itself with that of somebody else's copy:</p>
<pre>sha256sum SHA256SUMS</pre>
<h2>Do the ballots give these results?</h2>
<p>If the ballots are published, the folder has a file of them for each ward with a poll, such as ward-7-ballots.txt.
The program count-office counts them again, and compares each sheet, declaration, page and table with what results:</p>
<pre>count-office - check .</pre>
<p>It needs nothing but this folder. It compares a single sheet or declaration like this:</p>
<pre>count-office - check ward-7-ballots.txt ward-7-sheet.txt</pre>
<p>This doesn't prove that these are the voters' ballots: compare the numbers of valid and rejected papers with those that were announced when the ward was sealed.</p>
<h2>By hand</h2>
<p>A stage sheet can be checked with a pocket calculator:</p>
<ul>
<li>The quota is the number of valid papers, divided by one more than the number of seats; the whole part of that, plus 1.</li>
<li>At every stage, the votes of all candidates, the non-transferable votes and those lost by fractions add up to the number of valid papers.</li>
<li>A surplus is the candidate's votes minus the quota.
A paper's transfer value is the surplus, times the value at which the candidate received the paper, divided by the candidate's votes, cut off after the fifth decimal.</li>
<li>If nobody has a surplus and a seat is left, the candidate with the fewest votes is excluded, and those papers keep their values.</li>
</ul>
<p><a href=\"index.html\">all wards</a></p>
</body>
</html>\n"
}

/// Returns the page, with the title of the election.
pub fn check_page(alloc: Global, title: &str) -> Result<String, AllocError>
    ensures { IfOk result (λ page. string_bytes page ≡ check_page title.now) }
{
    let title = plain_text(alloc, title)?;
    joined(alloc, &[before_title(), title.as_str(), after_title()])
}
