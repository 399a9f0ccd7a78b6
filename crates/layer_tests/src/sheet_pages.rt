//! The pages of wards, and the page of all wards, compared byte for byte except for their style, which its definition
//! gives.

ghost use Rattle.std.specs.Prelude.{◌-◌, ◌^◌, ◌<◌};

use crate::sheet_outputs::{Printed, candidates_of, is_text, print, stage_of, three_stages};
use count::{Action, Stage};
use paper::Columns;
use sheet::{
    CountShown, ListedWard, PassedOn, Poll, Ward, WardStanding, can_be_printed, index_text,
    page_text, write_index, write_page,
};
use std::alloc::{AllocError, Global};
use std::process::Abort;
use std::test::Fail;
use streams::{Broken, Sink};
use votes::Votes;

/// The text before the style, on a page with a title.
const TITLED_HEAD: &str = r##"<!DOCTYPE html>
<html lang="en">
<head>
<meta charset="utf-8">
<meta name="viewport" content="width=device-width, initial-scale=1">
<title>Ward 7 &lt;Harbour&gt;, Vote &amp; &lt;Council&gt;</title>
"##;

/// The text before the style, on a page without a title.
const HEAD: &str = r##"<!DOCTYPE html>
<html lang="en">
<head>
<meta charset="utf-8">
<meta name="viewport" content="width=device-width, initial-scale=1">
<title>Ward 7 &lt;Harbour&gt;</title>
"##;

/// The text after the style, on the page of a declared ward.
const DECLARED: &str = r##"
</head>
<body>
<p class="running" aria-hidden="true"><span>Ward 7 <bdi>&lt;Harbour&gt;</bdi></span> <bdi>Vote &amp; &lt;Council&gt;</bdi></p>
<p class="title" dir="auto">Vote &amp; &lt;Council&gt;</p>
<h1>Ward 7 <bdi>&lt;Harbour&gt;</bdi></h1>
<p class="declared"><strong>Declared</strong></p>
<h2>Elected</h2>
<ul class="names">
<li><b>1 <bdi>Ann &lt;b&gt;</bdi></b> <span>6.00000 votes, elected at stage 1</span></li>
<li><b>3 <bdi>רות</bdi></b> <span>2.66666 votes, elected at stage 3</span></li>
</ul>
<h2>Votes of each candidate</h2>
<svg class="patterns" width="0" height="0" aria-hidden="true"><defs><pattern id="later" width="4" height="4" patternUnits="userSpaceOnUse" patternTransform="rotate(45)"><rect width="4" height="4" fill="#fff"/><rect width="1.6" height="4" fill="#000"/></pattern></defs></svg><p class="key"><span class="elected"><svg class="bar" aria-hidden="true"><rect class="first" width="100%" height="100%"/></svg> votes at stage 1, elected</span> <span class="excluded"><svg class="bar" aria-hidden="true"><rect class="first" width="100%" height="100%"/></svg> votes at stage 1, excluded</span> <span class="neither"><svg class="bar" aria-hidden="true"><rect class="first" width="100%" height="100%"/></svg> votes at stage 1, neither</span> <span class="gained"><svg class="bar" aria-hidden="true"><rect class="later" width="100%" height="100%"/></svg> votes gained later</span> <span><svg class="bar" aria-hidden="true"><rect class="quota" x="45%" width="3" height="100%"/></svg> the quota, 4.00000</span></p>
<ul class="chart">
<li class="elected"><span class="who">1 <bdi>Ann &lt;b&gt;</bdi></span><svg class="bar" aria-hidden="true"><rect class="first" width="100%" height="100%"/><rect class="later" x="100%" width="0%" height="100%"/><rect class="quota" x="66%" width="3" height="100%"/></svg><span class="had">6.00000 at stage 1</span><span class="end"><b>elected</b> at stage 1, with 6.00000</span></li>
<li class="excluded"><span class="who">2 <bdi>&quot;Bob&quot; &amp; &#39;Co&#39;</bdi></span><svg class="bar" aria-hidden="true"><rect class="first" width="16%" height="100%"/><rect class="later" x="16%" width="22%" height="100%"/><rect class="quota" x="66%" width="3" height="100%"/></svg><span class="had">1.00000 at stage 1</span><span class="end">excluded at stage 3, with 2.33332</span></li>
<li class="elected"><span class="who">3 <bdi>רות</bdi></span><svg class="bar" aria-hidden="true"><rect class="first" width="33%" height="100%"/><rect class="later" x="33%" width="11%" height="100%"/><rect class="quota" x="66%" width="3" height="100%"/></svg><span class="had">2.00000 at stage 1</span><span class="end"><b>elected</b> at stage 3, with 2.66666</span></li>
</ul>
<div class="top">
<div>
<h2>Papers</h2>
<table class="papers">
<tr><th scope="row">Seats</th><td>2</td></tr>
<tr><th scope="row">Valid papers</th><td>9</td></tr>
<tr><th scope="row">Quota, in votes</th><td>4.00000</td></tr>
<tr><th scope="row">Rejected, code 1: no first preference</th><td>1</td></tr>
<tr><th scope="row">Rejected, code 2: several first preferences</th><td>20</td></tr>
<tr><th scope="row">Rejected, code 3: no official mark</th><td>300</td></tr>
<tr><th scope="row">Rejected, code 4: voter identifiable</th><td>4000</td></tr>
<tr><th scope="row">Rejected, code 5: void for uncertainty</th><td>50000</td></tr>
<tr><th scope="row">Rejected papers in all</th><td>54321</td></tr>
<tr><th scope="row">Papers in all</th><td>54330</td></tr>
</table>
</div>
<div>
<h2>Ties and lots</h2>
<ul>
</ul>
<ul>
<li>Lot at stage 3 between 2 <bdi>&quot;Bob&quot; &amp; &#39;Co&#39;</bdi>: excluded 2 <bdi>&quot;Bob&quot; &amp; &#39;Co&#39;</bdi></li>
</ul>
<h2>Surpluses</h2>
<ul>
<li>Stage 2, surplus of 1 <bdi>Ann &lt;b&gt;</bdi>, 2.00000 of 6.00000 votes: 5 papers received at 1.00000 pass on at 0.33333.</li>
<li>Stage 2, surplus of 1 <bdi>Ann &lt;b&gt;</bdi>, 2.00000 of 6.00000 votes: 1 paper received at 0.50000 passes on at 0.16666.</li>
</ul>
</div>
</div>
<h2>Stages</h2>
<div class="wide" role="region" tabindex="0" aria-label="Stages 1 to 3">
<table class="stages">
<caption>Stages 1 to 3</caption>
<thead>
<tr><th scope="col">Candidate</th>
<th scope="col">Stage 1<br>first preferences</th>
<th scope="col">Stage 2<br>surplus of 1 <bdi>Ann &lt;b&gt;</bdi></th>
<th scope="col">Stage 3<br>exclusion of 2 <bdi>&quot;Bob&quot; &amp; &#39;Co&#39;</bdi>, last vacancies</th>
</tr>
</thead>
<tbody>
<tr><th scope="row">1 <bdi>Ann &lt;b&gt;</bdi></th>
<td>6.00000 <b>elected</b></td>
<td>4.00000 <i>&minus;2.00000</i> <small>elected</small></td>
<td>4.00000 <small>elected</small></td>
</tr>
<tr><th scope="row">2 <bdi>&quot;Bob&quot; &amp; &#39;Co&#39;</bdi></th>
<td>1.00000</td>
<td>2.33332 <i>+1.33332</i></td>
<td>2.33332 <b>excluded</b></td>
</tr>
<tr><th scope="row">3 <bdi>רות</bdi></th>
<td>2.00000</td>
<td>2.66666 <i>+0.66666</i></td>
<td>2.66666 <b>elected</b></td>
</tr>
<tr class="sum"><th scope="row">non-transferable</th>
<td>0.00000</td>
<td>0.00000</td>
<td>0.00000</td>
</tr>
<tr class="sum"><th scope="row">lost by fractions</th>
<td>0.00000</td>
<td>0.00002</td>
<td>0.00002</td>
</tr>
</tbody>
</table>
</div>
<div class="sign">
<h2>Ward 7 <bdi>&lt;Harbour&gt;</bdi>: elected</h2>
<ul>
<li><b>1 <bdi>Ann &lt;b&gt;</bdi></b> <span>6.00000 votes, elected at stage 1</span></li>
<li><b>3 <bdi>רות</bdi></b> <span>2.66666 votes, elected at stage 3</span></li>
</ul>
<h2>Signed</h2>
<p>Date</p>
<p>Returning officer</p>
<p>First witness</p>
<p>Second witness</p>
</div>
</body>
</html>
"##;

/// The text after the style, on the page of a ward before the first stage.
const NO_STAGE: &str = r##"
</head>
<body>
<p class="running" aria-hidden="true"><span>Ward 7 <bdi>&lt;Harbour&gt;</bdi></span> <bdi></bdi></p>
<h1>Ward 7 <bdi>&lt;Harbour&gt;</bdi></h1>
<p class="open"><strong>This is not a declared result.</strong> The ward is not declared yet, and this page may change.</p>
<h2>Elected</h2>
<ul class="names">
</ul>
<p>Seats not yet filled: 2</p>
<div class="top">
<div>
<h2>Papers</h2>
<table class="papers">
<tr><th scope="row">Seats</th><td>2</td></tr>
<tr><th scope="row">Valid papers</th><td>9</td></tr>
<tr><th scope="row">Quota, in votes</th><td>4.00000</td></tr>
<tr><th scope="row">Rejected, code 1: no first preference</th><td>0</td></tr>
<tr><th scope="row">Rejected, code 2: several first preferences</th><td>0</td></tr>
<tr><th scope="row">Rejected, code 3: no official mark</th><td>0</td></tr>
<tr><th scope="row">Rejected, code 4: voter identifiable</th><td>0</td></tr>
<tr><th scope="row">Rejected, code 5: void for uncertainty</th><td>0</td></tr>
<tr><th scope="row">Rejected papers in all</th><td>0</td></tr>
<tr><th scope="row">Papers in all</th><td>9</td></tr>
</table>
</div>
<div>
<h2>Ties and lots</h2>
<ul>
</ul>
<p>No lot was drawn.</p>
<h2>Surpluses</h2>
<p>No surplus was transferred.</p>
</div>
</div>
<h2>Stages</h2>
<p>No stage is done yet.</p>
</body>
</html>
"##;

/// The text after the style, on the page of an uncontested ward, which has one more seat than candidates.
const UNCONTESTED: &str = r##"
</head>
<body>
<p class="running" aria-hidden="true"><span>Ward 7 <bdi>&lt;Harbour&gt;</bdi></span> <bdi></bdi></p>
<h1>Ward 7 <bdi>&lt;Harbour&gt;</bdi></h1>
<p class="declared"><strong>Declared</strong></p>
<h2>Elected</h2>
<ul class="names">
<li><b>1 <bdi>Ann &lt;b&gt;</bdi></b></li>
<li><b>2 <bdi>&quot;Bob&quot; &amp; &#39;Co&#39;</bdi></b></li>
<li><b>3 <bdi>רות</bdi></b></li>
<li class="empty">empty seat</li>
</ul>
<p>Seats: 4. The ward is uncontested: there is no poll, and all its candidates are elected.</p>
<div class="sign">
<h2>Ward 7 <bdi>&lt;Harbour&gt;</bdi>: elected</h2>
<ul>
<li><b>1 <bdi>Ann &lt;b&gt;</bdi></b></li>
<li><b>2 <bdi>&quot;Bob&quot; &amp; &#39;Co&#39;</bdi></b></li>
<li><b>3 <bdi>רות</bdi></b></li>
<li class="empty">empty seat</li>
</ul>
<h2>Signed</h2>
<p>Date</p>
<p>Returning officer</p>
<p>First witness</p>
<p>Second witness</p>
</div>
</body>
</html>
"##;

/// The text after the style, on the page of that ward before its declaration: even without a count, it is known that a
/// seat stays empty.
const NOT_DECLARED: &str = r##"
</head>
<body>
<p class="running" aria-hidden="true"><span>Ward 7 <bdi>&lt;Harbour&gt;</bdi></span> <bdi></bdi></p>
<h1>Ward 7 <bdi>&lt;Harbour&gt;</bdi></h1>
<p class="open"><strong>This is not a declared result.</strong> The ward is not declared yet, and this page may change.</p>
<h2>Elected</h2>
<ul class="names">
<li><b>1 <bdi>Ann &lt;b&gt;</bdi></b></li>
<li><b>2 <bdi>&quot;Bob&quot; &amp; &#39;Co&#39;</bdi></b></li>
<li><b>3 <bdi>רות</bdi></b></li>
<li class="empty">empty seat</li>
</ul>
<p>Seats: 4. The ward is uncontested: there is no poll, and all its candidates are elected.</p>
</body>
</html>
"##;

/// The text before the style, on the page of all wards.
const INDEX_HEAD: &str = r##"<!DOCTYPE html>
<html lang="en">
<head>
<meta charset="utf-8">
<meta name="viewport" content="width=device-width, initial-scale=1">
<title>Wards, Vote &amp; &lt;Council&gt;</title>
"##;

/// The text after the style, on the page of all wards.
const INDEX: &str = r##"
</head>
<body class="wards">
<p class="running" aria-hidden="true"><span>Wards</span> <bdi>Vote &amp; &lt;Council&gt;</bdi></p>
<p class="title" dir="auto">Vote &amp; &lt;Council&gt;</p>
<h1>Wards</h1>
<table class="index">
<thead>
<tr><th scope="col">Ward</th><th scope="col">Seats</th><th scope="col">Status</th><th scope="col">Elected</th></tr>
</thead>
<tbody>
<tr><th scope="row">7 <bdi>&lt;Harbour&gt;</bdi></th><td>2</td><td><b>declared</b></td><td>
<ul>
<li>1 <bdi>Ann &lt;b&gt;</bdi></li>
<li>3 <bdi>רות</bdi></li>
</ul>
</td></tr>
<tr><th scope="row">8 <bdi>Quay</bdi></th><td>4</td><td>its papers are being counted</td><td>
<ul>
</ul>
</td></tr>
<tr><th scope="row">9 <bdi>Mill</bdi></th><td>1</td><td>its papers are being keyed</td><td>
<ul>
</ul>
</td></tr>
<tr><th scope="row">10 <bdi>Hill</bdi></th><td>1</td><td>nominations are open</td><td>
<ul>
</ul>
</td></tr>
<tr><th scope="row">11 <bdi>Holm</bdi></th><td>2</td><td>uncontested, not declared yet</td><td>
<ul>
</ul>
</td></tr>
<tr><th scope="row">12 <bdi>Isle</bdi></th><td>2</td><td><b>declared</b> uncontested</td><td>
<ul>
<li class="empty">empty seat</li>
<li class="empty">empty seat</li>
</ul>
</td></tr>
</tbody>
</table>
</body>
</html>
"##;

/// A title that looks like markup.
const TITLE: &str = "Vote & <Council>";

/// Strings that would load something from another site.
const FOREIGN: [&str; 5] = ["//", "@import", "<script", "<link", "<img"];

/// The page of a ward.
#[derive(Drop)]
struct WardPage<'a> {
    ward: &'a Ward<'a>,
    title: &'a str,
    is_declared: bool,
    count: CountShown<'a>,
}

impl<'a> Printed for WardPage<'a> {
    fn text(&self, alloc: Global) -> Result<String, Fail> {
        if !can_be_printed(self.ward) {
            return Err(Fail::from("no ward that can be printed"));
        }
        Ok(page_text(alloc, self.ward, self.title, self.is_declared, &self.count)?)
    }

    fn write<W: Sink>(&self, sink: &mut W) -> Result<(), Broken> {
        if !can_be_printed(self.ward) {
            return Err(Broken);
        }
        write_page(sink, self.ward, self.title, self.is_declared, &self.count)
    }
}

/// The page of all wards.
#[derive(Drop)]
struct WardsPage<'a> {
    title: &'a str,
    wards: &'a [ListedWard],
}

impl<'a> Printed for WardsPage<'a> {
    fn text(&self, alloc: Global) -> Result<String, Fail> {
        Ok(index_text(alloc, self.title, self.wards)?)
    }

    fn write<W: Sink>(&self, sink: &mut W) -> Result<(), Broken> {
        write_index(sink, self.title, self.wards)
    }
}

/// Returns a page's text before its style, and the text after it.
fn around_style(text: &str) -> Option<(&str, &str)> {
    let (above, behind) = text.split_once("<style>")?;
    let (_, below) = behind.split_once("</style>")?;
    Some((above, below))
}

/// Returns whether a page loads anything from another site.
fn is_foreign(text: &str) -> bool {
    for word in &FOREIGN {
        if text.contains(*word) {
            return true;
        }
    }
    false
}

/// Compares a page with the text before and after its style, and checks that it loads nothing from another site.
fn compare(rt: &impl Abort, text: &str, above: &str, body: &str) -> Result<(), Fail> {
    match around_style(text) {
        Some((head, below)) => {
            is_text(rt, head, above);
            is_text(rt, below, body);
            assert!(rt; !is_foreign(text));
            Ok(())
        }
        None => Err(Fail::from("no style")),
    }
}

/// Prints a page, and compares it with the expected texts.
fn prints_page<P: Printed>(
    rt: &(impl Abort + AllocGlobal),
    printed: &P,
    above: &str,
    body: &str,
) -> Result<(), Fail> {
    let text = print(rt, printed)?;
    compare(rt, text.as_str(), above, body)
}

/// Checks that a page contains the given words.
fn has_words<P: Printed>(
    rt: &(impl Abort + AllocGlobal),
    printed: &P,
    words: &[&str],
) -> Result<(), Fail> {
    let text = printed.text(rt.alloc())?;
    for some in words {
        assert!(rt; text.as_str().contains(*some));
    }
    Ok(())
}

/// The words of two tables, one with eight stages and one with a single stage.
const TABLES: [&str; 4] = [
    " aria-label=\"Stages 1 to 8\">",
    "<caption>Stages 1 to 8</caption>",
    " aria-label=\"Stage 9\">",
    "<caption>Stage 9</caption>",
];

/// The words for a lot among three candidates, and for a lot whose stage hasn't been counted yet.
const LOTS: [&str; 2] = [
    "<li>Lot at stage 2 between 1 <bdi>Ann &lt;b&gt;</bdi>, 2 <bdi>&quot;Bob&quot; &amp; &#39;Co&#39;</bdi> and 3 <bdi>רות</bdi>: excluded 3 <bdi>רות</bdi></li>",
    "<li>Lot at stage 3 between 1 <bdi>Ann &lt;b&gt;</bdi> and 2 <bdi>&quot;Bob&quot; &amp; &#39;Co&#39;</bdi>: drawn 1 <bdi>Ann &lt;b&gt;</bdi></li>",
];

/// The words for two ties that the first stage settled.
const TIES: [&str; 2] = [
    "<li>Stage 3, exclusion of 3 <bdi>רות</bdi>: 1 <bdi>Ann &lt;b&gt;</bdi> also had 3.00000 votes. At stage 1, the most recent at which they differed, 3 <bdi>רות</bdi> had 2.00000 and 1 <bdi>Ann &lt;b&gt;</bdi> 4.00000.</li>",
    "<li>Stage 3, exclusion of 3 <bdi>רות</bdi>: 2 <bdi>&quot;Bob&quot; &amp; &#39;Co&#39;</bdi> also had 3.00000 votes. At stage 1, the most recent at which they differed, 3 <bdi>רות</bdi> had 2.00000 and 2 <bdi>&quot;Bob&quot; &amp; &#39;Co&#39;</bdi> 3.00000.</li>",
];

/// Returns the page of a ward that has no title and isn't declared.
fn undeclared<'a>(ward: &'a Ward<'a>, stages: &'a [Stage], lots: &'a [(u8, u8)]) -> WardPage<'a> {
    WardPage {
        ward,
        title: "",
        is_declared: false,
        count: CountShown {
            stages,
            lots,
            surpluses: &[],
        },
    }
}

/// The number, name, seats and status of a ward, and whether it is contested.
type Told = (u32, &'static str, u32, WardStanding, bool);

/// Returns a ward for the page of all wards.
fn listed(alloc: Global, told: Told) -> Result<ListedWard, AllocError> {
    let (number, name, seats, standing, is_contested) = told;
    Ok(ListedWard {
        number,
        name: String::from_str(alloc, name)?,
        seats,
        standing,
        is_contested,
        elected: Vec::new(alloc),
    })
}

/// Returns a declared ward, with its elected candidates.
fn declared(alloc: Global) -> Result<ListedWard, AllocError> {
    let mut ward = listed(alloc, (7, "<Harbour>", 2, WardStanding::Declared, true))?;
    for (c, name) in &[(1, "Ann <b>"), (3, "רות")] {
        ward.elected.push((*c, String::from_str(alloc, *name)?))?;
    }
    Ok(ward)
}

/// Wards without elected candidates; the last one is declared, and its seats stay empty.
const OTHERS: [Told; 5] = [
    (8, "Quay", 4, WardStanding::Sealed, true),
    (9, "Mill", 1, WardStanding::Keying, true),
    (10, "Hill", 1, WardStanding::Nominations, false),
    (11, "Holm", 2, WardStanding::Sealed, false),
    (12, "Isle", 2, WardStanding::Declared, false),
];

/// Returns all wards.
fn wards_of(alloc: Global) -> Result<Vec<ListedWard>, AllocError> {
    let mut wards = Vec::new(alloc);
    wards.push(declared(alloc)?)?;
    for told in &OTHERS {
        wards.push(listed(alloc, *told)?)?;
    }
    Ok(wards)
}

fn prints_index(rt: &(impl Abort + AllocGlobal)) -> Result<(), Fail> {
    let wards = wards_of(rt.alloc())?;
    let printed = WardsPage {
        title: TITLE,
        wards: &wards,
    };
    prints_page(rt, &printed, INDEX_HEAD, INDEX)
}

/// Returns the ward with the given candidates.
fn harbour<'a>(candidates: &'a [(u8, String)], seats: u8, poll: Option<Poll>) -> Ward<'a> {
    Ward {
        number: 7,
        name: "<Harbour>",
        seats,
        candidates,
        poll,
    }
}

/// Returns the poll with the given numbers of rejected papers.
fn poll_of(rejected: [u32; 5]) -> Option<Poll> {
    Some(Poll { valid: 9, rejected })
}

/// Returns the ward of a poll that has rejected papers for each code.
fn with_rejected<'a>(candidates: &'a [(u8, String)]) -> Ward<'a> {
    harbour(candidates, 2, poll_of([1, 20, 300, 4000, 50000]))
}

/// Prints nine stages in two tables, and lots.
fn prints_tables_and_lots(
    rt: &(impl Abort + AllocGlobal),
    candidates: &[(u8, String)],
) -> Result<(), Fail> {
    let ward = with_rejected(candidates);
    let nobody = Columns::empty();
    let equal = stage_of(Action::First, [300000; 3], nobody, 0);
    let excluded = stage_of(Action::Exclude(3), [300000, 300000, 0], nobody, 0);
    let nine = [excluded; 9];
    has_words(rt, &undeclared(&ward, &nine, &[]), &TABLES)?;
    let stages = [equal, excluded];
    has_words(rt, &undeclared(&ward, &stages, &[(2, 3), (3, 1)]), &LOTS)
}

/// Prints ties that an earlier stage settled.
fn prints_ties(rt: &(impl Abort + AllocGlobal), candidates: &[(u8, String)]) -> Result<(), Fail> {
    let ward = with_rejected(candidates);
    let nobody = Columns::empty();
    let first = stage_of(Action::First, [400000, 300000, 200000], nobody, 0);
    let level = stage_of(Action::Surplus(1), [300000; 3], nobody, 0);
    let excluded = stage_of(Action::Exclude(3), [300000, 300000, 0], nobody, 0);
    has_words(
        rt,
        &undeclared(&ward, &[first, level, excluded], &[]),
        &TIES,
    )
}

/// Returns papers that pass on with the surplus of candidate 1 at stage 2.
fn passed_on(papers: u32, received: u64, passed: u64) -> PassedOn {
    PassedOn {
        stage: 2,
        candidate: 1,
        surplus: Votes::from_units(200000),
        votes: Votes::from_units(600000),
        papers,
        received: Votes::from_units(received),
        passed: Votes::from_units(passed),
    }
}

/// Prints the page of a declared ward, and its pages before the first stage and after later ones.
fn prints_contested(
    rt: &(impl Abort + AllocGlobal),
    candidates: &[(u8, String)],
) -> Result<(), Fail> {
    let ward = with_rejected(candidates);
    let stages = three_stages();
    let surpluses = [passed_on(5, 100000, 33333), passed_on(1, 50000, 16666)];
    let printed = WardPage {
        ward: &ward,
        title: TITLE,
        is_declared: true,
        count: CountShown {
            stages: &stages,
            lots: &[(3, 2)],
            surpluses: &surpluses,
        },
    };
    prints_page(rt, &printed, TITLED_HEAD, DECLARED)?;
    prints_tables_and_lots(rt, candidates)?;
    prints_ties(rt, candidates)?;
    let ward = harbour(candidates, 2, poll_of([0; 5]));
    prints_page(rt, &undeclared(&ward, &[], &[]), HEAD, NO_STAGE)
}

/// Prints the pages of an uncontested ward.
fn prints_uncontested(
    rt: &(impl Abort + AllocGlobal),
    candidates: &[(u8, String)],
) -> Result<(), Fail> {
    let ward = harbour(candidates, 4, None);
    let stages = three_stages();
    let printed = WardPage {
        ward: &ward,
        title: "",
        is_declared: true,
        count: CountShown {
            stages: &stages,
            lots: &[],
            surpluses: &[],
        },
    };
    prints_page(rt, &printed, HEAD, UNCONTESTED)?;
    prints_page(rt, &undeclared(&ward, &[], &[]), HEAD, NOT_DECLARED)
}

/// Candidates whose names look like markup or are written from right to left.
const NAMED: [(u8, &str); 3] = [(1, "Ann <b>"), (2, "\"Bob\" & 'Co'"), (3, "רות")];

#[test]
fn pages(rt: HostRuntime) -> Result<(), Fail> {
    let candidates = candidates_of(rt.alloc(), &NAMED)?;
    prints_contested(&rt, &candidates)?;
    prints_uncontested(&rt, &candidates)?;
    prints_index(&rt)
}
