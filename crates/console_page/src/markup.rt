//! The markup of the page, around its style and its script.

ghost use Rattle.std.specs.Prelude.{◌≡◌, IfOk, string_bytes};
ghost use Rattle.console_page.specs.Page.{page_of};

use std::alloc::{AllocError, Global};

/// What precedes the style.
const HEAD: &str = r#"<!DOCTYPE html>
<html lang="en">
<head>
<meta charset="utf-8">
<meta name="viewport" content="width=device-width, initial-scale=1">
<title>Count office</title>
<link rel="icon" href="data:,">
"#;

/// The markup between the style and the script.
const BODY: &str = r#"
</head>
<body>
<header id="top">
<div class="topbar"><h1>Count office</h1>
<p id="health" role="status"></p>
<p id="copied"></p>
<p id="recorded"></p></div>
<nav id="tabs" aria-label="Sections"></nav>
<noscript><p class="warning">This console needs JavaScript. Turn JavaScript on for this address, then reload the page.</p></noscript>
<p id="unkept" class="warning" role="alert" hidden>This browser can&rsquo;t store data for this page.
If you close the page while an order is being sent, check the overview before you send the order again.</p>
<div id="unsent" class="warning" role="alert" hidden></div>
<div id="other" class="warning" role="alert" hidden></div>
<div id="result" role="status" hidden></div>
</header>

<main>
<section id="overview" aria-labelledby="overview-title" hidden>
<h2 id="overview-title" tabindex="-1">What to do next</h2>
<ol id="steps"></ol>
<h3>Wards</h3>
<div id="wards"></div>
<h3>Still to key</h3>
<div id="waiting"></div>
</section>

<section id="nominations" aria-labelledby="nominations-title" hidden>
<div class="head"><h2 id="nominations-title" tabindex="-1">Nominations</h2><div class="pick" data-pick="nominations"></div></div>
<div id="nominated"></div>
<div id="nominate" class="columns" hidden>
<form id="add-candidate"><h3>Add a candidate</h3>
<p><label>Number on the ballot paper <input id="candidate-number" type="text" inputmode="numeric" autocomplete="off" size="3" data-draft></label></p>
<p><label>Name on the ballot paper <input id="candidate-name" type="text" autocomplete="off" class="long" data-draft></label></p>
<p class="acts"><button type="submit" class="main">Add candidate</button></p></form>
<div id="drop-candidates" class="drop"><h3>Import candidates</h3>
<p>Drop a CSV file here. Its first line must be <b>ward,candidate,name</b>, followed by one line for each candidate.
You can check the list before anything is added.</p>
<p class="acts"><label class="button">Choose file <input id="candidates-file" type="file" accept=".csv,text/csv,text/plain" class="unseen"></label></p></div>
</div>
<div id="preview" hidden></div>
<form id="add-ward"><h3>Add a ward</h3>
<p class="row"><label>Ward number <input id="ward-number" type="text" inputmode="numeric" autocomplete="off" size="3" data-draft></label>
<label>Seats <input id="ward-seats" type="text" inputmode="numeric" autocomplete="off" size="3" data-draft></label>
<label>Name <input id="ward-name" type="text" autocomplete="off" data-draft></label>
<button type="submit">Add ward</button></p></form>
</section>

<section id="batches" aria-labelledby="batches-title" hidden>
<div class="head"><h2 id="batches-title" tabindex="-1">Batches</h2><div class="pick" data-pick="batches"></div></div>
<p id="batches-note"></p>
<details id="give"><summary>Give out batches</summary>
<form id="give-out">
<p class="row"><label>First batch <input id="give-from" type="text" inputmode="numeric" autocomplete="off" size="5" data-draft></label>
<label>Number of batches <input id="give-count" type="text" inputmode="numeric" autocomplete="off" size="5" data-draft></label>
<label>Papers per batch <input id="give-size" type="text" inputmode="numeric" autocomplete="off" size="4" data-draft></label>
<label>In the last batch, if different <input id="give-last" type="text" inputmode="numeric" autocomplete="off" size="4" data-draft></label></p>
<p class="row"><label>Tellers, in pairs <input id="give-clerks" type="text" autocomplete="off" class="long" data-draft></label></p>
<p class="hint">The pairs take turns. For example, with 4 9 5 6 the first batch goes to tellers 4 and 9, the second to tellers 5 and 6, and the third to tellers 4 and 9 again.</p>
<div id="give-preview"></div>
<p class="acts"><button type="submit" class="main">Give out batches</button></p></form></details>
<details id="bring"><summary>Import keyings</summary>
<div id="drop-keyings" class="drop"><p>Drop one or more of the tellers&rsquo; files here. The first line of each file must name its batch and its teller,
for example <b>paper 12/4</b> for batch 12 and teller 4.</p>
<p class="acts"><label class="button">Choose files <input id="keyings-files" type="file" multiple accept=".csv,text/csv,text/plain" class="unseen"></label></p></div>
<div id="brought"></div></details>
<p id="batch-forms" class="acts"></p>
<div id="batch-filter" class="row"></div>
<div id="batch-list"></div>
<div id="batch-more"></div>
</section>

<section id="doubtful" aria-labelledby="doubtful-title" hidden>
<div class="head"><h2 id="doubtful-title" tabindex="-1">Doubtful papers</h2><div class="pick" data-pick="doubtful"></div></div>
<div id="judging"></div>
<p id="doubtful-forms" class="acts"></p>
<div id="judged"></div>
</section>

<section id="count" aria-labelledby="count-title" hidden>
<div class="head"><h2 id="count-title" tabindex="-1">Count and result</h2><div class="pick" data-pick="count"></div></div>
<div id="count-now"></div>
<div id="count-chart"></div>
<div id="count-result"></div>
</section>

<section id="journal" aria-labelledby="journal-title" hidden>
<h2 id="journal-title" tabindex="-1">Journal and copies</h2>
<div class="columns">
<div><h3>Copies</h3><div id="copies"></div></div>
<div><h3>Downloads</h3><div id="files"></div></div>
</div>
<h3>Results for everyone</h3>
<div id="publication"></div>
<div id="mending"></div>
<h3>Accepted orders</h3>
<p class="row"><label>Search <input id="receipt-search" type="search" autocomplete="off"></label>
<label>Sent by <select id="receipt-actor"><option value="">anyone</option><option value="0">the office</option></select></label></p>
<div id="receipts"></div>
<h3>Sent from this browser</h3>
<div id="log"></div>
</section>
</main>

<footer><p><button id="sign-out" type="button">Sign out</button>
<span id="keys-hint">Keyboard: <kbd>1</kbd> to <kbd>6</kbd> open the sections, <kbd>Tab</kbd> and <kbd>Enter</kbd> select, <kbd>Enter</kbd> in a field moves to the next, <kbd>Esc</kbd> leaves a field, then returns to the overview.</span></p></footer>
<dialog id="ask" aria-labelledby="ask-title"><h2 id="ask-title" tabindex="-1"></h2><div id="ask-text"></div>
<p class="acts"><button id="ask-no" type="button">Cancel (Esc)</button> <button id="ask-yes" type="button" class="main"></button></p></dialog>
<div id="paper"></div>
"#;

/// What follows the script.
const TAIL: &str = r#"
</body>
</html>
"#;

#[tactic(auto, unfolding(crate::specs::Page::page_of))]
/// Returns the page with the given style and script. The only error is a failed allocation.
pub(crate) fn page_around(alloc: Global, style: &str, script: &str) -> Result<String, AllocError>
    ensures { IfOk result (λ text. string_bytes text ≡ page_of style.now script.now) }
{
    format!(in alloc; "{HEAD}<style>{style}</style>{BODY}<script>{script}</script>{TAIL}")
}
