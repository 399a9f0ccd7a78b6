//! The markup of the page, around its style and its script.

ghost use Rattle.std.specs.Prelude.{◌≡◌, IfOk, string_bytes};
ghost use Rattle.keying_page.specs.Page.{page_of};

use std::alloc::{AllocError, Global};

/// What precedes the style.
const HEAD: &str = r#"<!DOCTYPE html>
<html lang="en">
<head>
<meta charset="utf-8">
<meta name="viewport" content="width=device-width, initial-scale=1">
<title>Keying</title>
<link rel="icon" href="data:,">
"#;

/// The markup between the style and the script.
const BODY: &str = r#"
</head>
<body>
<header><h1>Keying: <span id="who"></span></h1>
<p id="unkept" class="warning" role="alert" hidden>This browser doesn&rsquo;t store what you key. If you close this page, it is lost. Send the batch first, or use another browser.</p>
<noscript><p class="warning">This page needs JavaScript. Switch it on for this address, or ask the returning officer.</p></noscript>
</header>
<main>

<section id="batches" aria-labelledby="batches-title">
<h2 id="batches-title" tabindex="-1">Your batches</h2>
<p id="asked" role="status"></p>
<ul id="list"></ul>
<p class="acts"><button id="look" type="button">Refresh</button> <button id="go-away" type="button">Sign out</button></p>
</section>

<section id="start" aria-labelledby="start-title" hidden>
<h2 id="start-title" tabindex="-1"></h2>
<ol>
<li>Check that your pile is batch <b id="start-batch"></b>.</li>
<li>Count its papers. There must be <b id="start-size"></b>. If there are more or fewer, key nothing, and tell the returning officer.</li>
<li>Leave the papers in their order. The one on top is paper 1.</li>
<li>Key exactly what is marked on each paper. Correct nothing.</li>
<li id="anew"></li>
</ol>
<p class="acts"><button id="through" type="button" class="main">Go through your own keying (Enter)</button>
<button id="begin" type="button" class="main">Begin (Enter)</button> <button id="not-now" type="button">Your batches</button></p>
</section>

<section id="papers" aria-labelledby="which" hidden>
<div class="top">
<h2 id="which" tabindex="-1"></h2>
<p class="where"><b id="paper"></b> <span id="state"></span> <span id="done"></span></p>
<p id="cursor"></p>
</div>
<div id="read" role="status" hidden><p id="read-what"></p><ul id="read-marks"></ul></div>
<div class="wide"><table id="table">
<caption class="unseen">The papers, one in each row, with a column for each candidate</caption>
<thead id="heads"></thead><tbody id="rows"></tbody></table></div>
<p id="away" class="warning" role="alert" hidden>Keys don&rsquo;t reach this page now. Click on it.</p>
<p id="notice" role="alert"></p>
<details id="keys"><summary>The keys</summary>
<dl>
<dt><kbd>1</kbd> to <kbd>9</kbd></dt><dd>a number next to the candidate; the cursor moves on</dd>
<dt><kbd>0</kbd> or the space bar</dt><dd>no number next to the candidate; the cursor moves on</dd>
<dt><kbd>.</kbd> or <kbd>,</kbd> and two digits</dt><dd>a number from 10 to 99</dd>
<dt><kbd>/</kbd> and a candidate&rsquo;s number</dt><dd>moves the cursor to that candidate; if another digit may follow, <kbd>Enter</kbd> ends the number</dd>
<dt><kbd>D</kbd> or <kbd>*</kbd></dt><dd>the paper is doubtful: no official mark, a number that can&rsquo;t be read or is over 99, a name, a signature, a drawing</dd>
<dt><kbd>Enter</kbd></dt><dd>finishes the paper and shows the next one</dd>
<dt><kbd>Enter</kbd>, in your own keying</dt><dd>the paper says just what is shown; hold it down, and it counts once</dd>
<dt><kbd>0</kbd> and <kbd>Enter</kbd></dt><dd>a paper without any number</dd>
<dt><kbd>Backspace</kbd></dt><dd>undoes the last key, also Enter</dd>
<dt><kbd>Delete</kbd></dt><dd>clears this paper, so that you can key it again</dd>
<dt><kbd>&larr;</kbd> <kbd>&rarr;</kbd> <kbd>Home</kbd></dt><dd>to another candidate</dd>
<dt><kbd>&uarr;</kbd> <kbd>&darr;</kbd></dt><dd>to another paper</dd>
<dt><kbd>End</kbd></dt><dd>to the paper that comes next, or to the end of the batch</dd>
<dt><kbd>G</kbd>, a number, <kbd>Enter</kbd></dt><dd>to the paper of that number</dd>
<dt><kbd>Insert</kbd></dt><dd>adds a paper before this one, if you left one out</dd>
<dt><kbd>Shift</kbd>+<kbd>Delete</kbd></dt><dd>removes this paper, if you keyed it twice</dd>
</dl></details>
<p class="tools"><button id="doubt" type="button">Doubtful (D)</button>
<button id="put-in" type="button">Add a paper (Insert)</button>
<button id="take-out" type="button">Remove this paper (Shift+Delete)</button>
<label>Go to paper (G) <input id="go" type="text" inputmode="numeric" autocomplete="off" size="4"></label>
<button id="leave-papers" type="button">Your batches</button></p>
<dialog id="out" aria-labelledby="out-text"><p id="out-text"></p>
<p class="acts"><button id="out-no" type="button">Keep it</button> <button id="out-yes" type="button">Remove it</button></p></dialog>
</section>

<section id="end" aria-labelledby="end-title" hidden>
<h2 id="end-title" tabindex="-1"></h2>
<div id="check"><p>Have you reached the end of the pile? If a paper is left over, or one is missing, don&rsquo;t send. Go back, find where the screen and the pile differ, and add or remove a paper there.</p>
<ul id="summary"></ul></div>
<p id="said" role="status"></p>
<p class="acts"><button id="send" type="button" class="main">Send (S)</button>
<button id="back" type="button">Back to the papers (&uarr;)</button> <button id="leave" type="button">Your batches</button></p>
</section>

</main>
"#;

/// What follows the script.
const TAIL: &str = r#"
</body>
</html>
"#;

#[tactic(auto, unfolding(crate::specs::Page::page_of))]
/// Returns the page with the given style and script. The only error is a failed allocation.
pub(crate) fn page_around(alloc: Global, style: &str, script: &str) -> Result<String, AllocError>
    ensures { IfOk result (λ text. string_bytes text ≡ page_of style.now script.now) }
{
    format!(in alloc; "{HEAD}<style>{style}</style>{BODY}<script>{script}</script>{TAIL}")
}
