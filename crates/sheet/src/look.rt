//! The look of a page, on screen and in print, without external resources.

ghost use Rattle.std.specs.Prelude.{◌≡◌};
ghost use Rattle.sheet.specs.Look.{legend as legend_text, patterns as patterns_text, style as style_text};

/// Returns the style of a page.
pub fn style() -> &'static str
    ensures { result.now ≡ style_text }
{
    "\
body { color: #000; background: #fff; font: 1rem/1.4 sans-serif; max-width: 68rem; margin: 1rem auto; padding: 0 1rem; }
h1 { font-size: 2.2rem; line-height: 1.2; margin: .2rem 0 .4rem; }
h2 { font-size: 1.2rem; margin: 1.4rem 0 .4rem; }
h1, h2, caption, .key { break-after: avoid; }
h1, p, li, th[scope=row], .stages th { overflow: hidden; overflow-wrap: anywhere; }
ul { list-style: none; margin: 0; padding: 0; }
table { border-collapse: separate; border-spacing: 0; border: solid #888; border-width: 0 1px 1px 0; }
caption { text-align: left; font-weight: bold; padding: .6rem 0 .2rem; }
th, td { border: solid #888; border-width: 1px 0 0 1px; padding: .15rem .35rem; vertical-align: top; text-align: right; font-variant-numeric: tabular-nums; }
th { font-weight: normal; background: #fff; }
th[scope=row], th:first-child { text-align: left; }
.title { font-size: 1.2rem; margin: 0; }
.running { display: none; }
.declared strong { display: inline-block; border: 3px solid #000; padding: .1rem .8rem; font-size: 1.5rem; }
.open { border: 2px dashed #000; padding: .4rem .6rem; }
.names li { margin: .3rem 0; }
.names b, .names .empty { font-size: 1.7rem; line-height: 1.2; }
.names span { margin-left: .5rem; }
.empty { font-style: italic; }
.top { display: grid; grid-template-columns: 2fr 3fr; gap: 0 2rem; }
.top table { width: 100%; }
.top li { margin-bottom: .4rem; }
.patterns { position: absolute; }
.bar { display: block; width: 100%; height: 1rem; overflow: visible; forced-color-adjust: none; }
.key .bar { display: inline-block; width: 1.6rem; height: .8rem; }
.key span { display: inline-block; margin-right: 1rem; }
.key:not(:has(+ .chart .elected)) .elected { display: none; }
.key:not(:has(+ .chart .excluded)) .excluded { display: none; }
.key:not(:has(+ .chart .neither)) .neither { display: none; }
.key:not(:has(+ .chart .later:not([width=\"0%\"]))) .gained { display: none; }
.bar .first { fill: #757575; }
.elected .first { fill: #000; }
.excluded .first { fill: #fff; stroke: #000; }
.bar .later { fill: url(#later); stroke: #000; }
.bar .quota { fill: #000; stroke: #fff; }
.chart li { display: grid; grid-template-columns: minmax(12rem, 2fr) 2fr 10.5rem 17rem; gap: 0 .8rem; align-items: center; }
.chart li { border-bottom: 1px solid #bbb; padding: .2rem 0; font-size: .9rem; break-inside: avoid; }
.had { text-align: right; font-variant-numeric: tabular-nums; }
.end { font-variant-numeric: tabular-nums; }
.stages { font-size: .8rem; }
.stages th[scope=row] { min-width: 8rem; }
.stages th[scope=col] { min-width: 6.2rem; }
.stages th:first-child { position: sticky; left: 0; border-right-width: 1px; }
.sum th, .sum td { border-top-style: dashed; }
td i, td b, td small { display: block; font-size: inherit; white-space: nowrap; }
td small { color: #444; }
.wide { overflow-x: auto; }
.wards { max-width: none; }
.index { width: 100%; font-size: 1.2rem; }
.index th, .index td { text-align: left; padding: .4rem .6rem; }
.sign p { border-bottom: 1px solid #000; max-width: 34rem; margin: 0; padding: 2.2rem 0 .1rem; }
@media screen and (min-width: 100rem) {
.index { font-size: 1.6rem; }
}
@media screen and (max-width: 50rem) {
.top { display: block; }
.chart li { grid-template-columns: 1fr auto; }
.chart .bar { order: 1; grid-column: 1 / -1; }
.chart .end { order: 2; grid-column: 1 / -1; }
.stages th:first-child { max-width: 38vw; }
.index, .index tbody, .index tr, .index td, .index th[scope=row] { display: block; border-width: 0; }
.index thead { display: none; }
.index tr { border-bottom: 1px solid #888; padding: .4rem 0; }
.index td, .index th[scope=row] { padding: 0 .2rem; }
.index th[scope=row] { font-weight: bold; }
.index td:nth-child(2)::before { content: \"Seats: \"; }
}
@page { size: A4 landscape; margin: 10mm 12mm 14mm; }
@page { @bottom-right { content: \"sheet \" counter(page) \" of \" counter(pages); font: 10pt sans-serif; } }
@media print {
html { font-size: 10pt; }
body { display: table; table-layout: fixed; width: 100%; max-width: none; margin: 0; padding: 0; }
.running { display: table-header-group; break-inside: avoid; }
.running > bdi { float: right; }
.wide { overflow: visible; break-inside: avoid; }
.stages { width: 100%; line-height: 1.2; table-layout: fixed; }
.stages th[scope] { min-width: 0; position: static; padding: 1pt 2pt; }
.stages td { padding: 1pt 2pt; overflow-wrap: anywhere; }
.stages th:first-child { width: 20%; }
tr, .sign { break-inside: avoid; }
.chart li { padding: 0; line-height: 1.25; }
.bar { height: .8rem; }
* { -webkit-print-color-adjust: exact; print-color-adjust: exact; }
}
"
}

/// Returns the pattern for the votes gained after the first stage, which all bars of a page share.
pub fn patterns() -> &'static str
    ensures { result.now ≡ patterns_text }
{
    "\
<svg class=\"patterns\" width=\"0\" height=\"0\" aria-hidden=\"true\"><defs>\
<pattern id=\"later\" width=\"4\" height=\"4\" patternUnits=\"userSpaceOnUse\" patternTransform=\"rotate(45)\">\
<rect width=\"4\" height=\"4\" fill=\"#fff\"/>\
<rect width=\"1.6\" height=\"4\" fill=\"#000\"/></pattern></defs></svg>"
}

/// Returns the legend for the bars of a chart, up to the quota. The style hides what no bar shows.
pub fn legend() -> &'static str
    ensures { result.now ≡ legend_text }
{
    "\
<p class=\"key\"><span class=\"elected\">\
<svg class=\"bar\" aria-hidden=\"true\">\
<rect class=\"first\" width=\"100%\" height=\"100%\"/></svg> votes at stage 1, elected</span> \
<span class=\"excluded\">\
<svg class=\"bar\" aria-hidden=\"true\">\
<rect class=\"first\" width=\"100%\" height=\"100%\"/></svg> votes at stage 1, excluded</span> \
<span class=\"neither\">\
<svg class=\"bar\" aria-hidden=\"true\">\
<rect class=\"first\" width=\"100%\" height=\"100%\"/></svg> votes at stage 1, neither</span> \
<span class=\"gained\">\
<svg class=\"bar\" aria-hidden=\"true\">\
<rect class=\"later\" width=\"100%\" height=\"100%\"/></svg> votes gained later</span> \
<span>\
<svg class=\"bar\" aria-hidden=\"true\">\
<rect class=\"quota\" x=\"45%\" width=\"3\" height=\"100%\"/></svg> the quota, "
}
