//! The style of the page, as CSS: first what all sections share, then the tables, lists and charts of each.

/// The style.
pub(crate) const STYLE: &str = r#"
* { box-sizing: border-box; }
html { font-size: 20px; }
body { margin: 0 auto; max-width: 72rem; padding: 0 .8rem 2rem; font: 1rem/1.4 sans-serif; color: #111; background: #fff; }
[hidden] { display: none !important; }
bdi { unicode-bidi: isolate; overflow-wrap: anywhere; }
section { scroll-margin-top: 100vh; }
h1 { font-size: 1rem; margin: 0; white-space: nowrap; }
h2 { font-size: 1.5rem; margin: .6rem 0 .4rem; overflow-wrap: anywhere; }
h3 { font-size: 1.1rem; margin: 1.2rem 0 .3rem; }
h2:focus { outline: none; }
p { margin: .4rem 0; }
ul, ol { margin: .3rem 0; padding-left: 1.4rem; }
li { margin: .2rem 0; }
code { font: .85rem/1.3 monospace; overflow-wrap: anywhere; }
pre { font: 1rem/1.35 monospace; white-space: pre-wrap; overflow-wrap: anywhere; }
small { font-size: .8rem; }
kbd { padding: 0 .25rem; border: 1px solid currentColor; border-radius: .2rem; font: .8rem sans-serif; }
.unseen { position: absolute; width: 1px; height: 1px; overflow: hidden; clip-path: inset(50%); white-space: nowrap; }
.person { overflow-wrap: anywhere; }
.said { font-size: 1.25rem; font-weight: bold; overflow-wrap: anywhere; }
.hint, .quiet { color: #444; }
.hint { font-size: .9rem; }

button, input, select, .button { font: inherit; color: inherit; }
button, .button { padding: .4rem .8rem; border: 2px solid #174a8b; border-radius: .35rem; background: #fff; color: #174a8b; cursor: pointer; }
button:hover, .button:hover { background: #e8eff9; }
button.main { background: #174a8b; color: #fff; font-weight: bold; }
button.main:hover { background: #0e3569; }
button:disabled, button.main:disabled { border-color: #767676; background: #eee; color: #595959; cursor: default; font-weight: normal; }
button.here { background: #111; border-color: #111; color: #fff; }
button.quiet { border-color: transparent; background: transparent; text-decoration: underline; color: inherit; }
input, select { padding: .35rem .45rem; border: 2px solid #595959; border-radius: .25rem; background: #fff; max-width: 100%; }
input.long { width: 22rem; max-width: calc(100% - .25rem); }
label > input, label > select { margin-left: .25rem; }
input.over { border-color: #9a1500; background: #fff0ed; }
:focus-visible, .button:focus-within { outline: 4px solid #e08a00; outline-offset: 1px; }
.acts, .row { display: flex; flex-wrap: wrap; gap: .5rem .8rem; align-items: center; }
.row > label { min-width: 0; max-width: 100%; }
.columns { display: grid; grid-template-columns: 1fr 1fr; gap: .5rem 2rem; }
.warning { border: 3px solid #9a1500; border-radius: .35rem; padding: .4rem .7rem; background: #fff0ed; }
.busy main button:not(.quiet), .busy #ask-yes { opacity: .5; }

.stale main { opacity: .4; pointer-events: none; }

#top { position: sticky; top: 0; z-index: 3; background: #fff; padding: .3rem 0 .1rem; }
.topbar { display: flex; flex-wrap: wrap; gap: 0 1.2rem; align-items: baseline; font-size: .85rem; }
.topbar p { margin: 0; color: #444; }
.topbar #copied { margin-left: auto; }
.topbar .down { flex-basis: 100%; order: 3; color: #fff; background: #9a1500; padding: .3rem .6rem; font-size: 1rem; font-weight: bold; }
#tabs { display: flex; flex-wrap: wrap; gap: 0 .3rem; margin-top: .3rem; border-bottom: 3px solid #111; }
#tabs button { border-width: 2px 2px 0; border-radius: .35rem .35rem 0 0; border-color: #bbb; padding: .35rem .6rem; color: #111; }
#tabs button.here { border-color: #111; color: #fff; }
.badge { display: inline-block; margin-left: .3rem; min-width: 1.5em; padding: 0 .35em; border-radius: 1em; background: #9a1500; color: #fff; text-align: center; font-size: .85em; font-weight: bold; }

#result, #unsent, #other { margin: .5rem 0; padding: .3rem .8rem; }
#result { display: flex; justify-content: space-between; align-items: start; gap: 1rem; border: 3px solid #1c6b2a; border-radius: .35rem; background: #edf8ee; }
#result.refused { border-color: #9a1500; background: #fff0ed; }
#result .said { font-size: 1.1rem; margin: 0; }
#result .quiet { padding: .1rem .5rem; }
#result.done .said::before { content: '\2713\a0'; color: #1c6b2a; }
#result.refused .said::before { content: '\2717\a0'; color: #9a1500; }
#result p { margin: .15rem 0; }

.head { display: flex; flex-wrap: wrap; justify-content: space-between; align-items: center; gap: .3rem 1rem; }
.pick { min-width: 0; max-width: 100%; }
.pick label { display: flex; gap: .5rem; align-items: center; }
.pick select { font-weight: bold; min-width: 0; max-width: 26rem; }
details { margin: .6rem 0; border: 2px solid #bbb; border-radius: .35rem; padding: .4rem .8rem; }
summary { font-weight: bold; cursor: pointer; }
#brought li b + b { color: #9a1500; }
.drop { border: 2px dashed #767676; border-radius: .35rem; padding: .2rem .8rem .6rem; }
.drop.over { background: #e8eff9; border-color: #174a8b; }
#preview, #add-ward { border: 2px solid #bbb; border-radius: .35rem; padding: 0 .8rem .6rem; margin: .8rem 0; }
#preview h3, #add-ward h3 { margin-top: .5rem; }
footer { margin-top: 2rem; border-top: 1px solid #bbb; font-size: .85rem; color: #444; }

dialog { width: min(46rem, 96vw); max-height: 92vh; overflow: auto; border: 4px solid #111; border-radius: .5rem; padding: .6rem 1.4rem 1rem; }
dialog::backdrop { background: rgb(0 0 0 / .55); }
dialog .acts { justify-content: flex-end; margin-top: 1rem; }
dialog p { margin: .5rem 0; }
dialog .names { font-size: 1.25rem; }

@media (min-width: 1600px) {
html { font-size: 26px; }
}
@media (max-width: 900px) {
html { font-size: 18px; }
#tabs { gap: 0 .15rem; }
#tabs button { font-size: .84rem; padding: .35rem .28rem; }
#tabs .badge { margin-left: .1rem; }
.columns { grid-template-columns: 1fr; }
}
@media (max-width: 640px) {
html { font-size: 16px; }
body { padding: 0 .5rem 2rem; }
#tabs kbd, #keys-hint { display: none; }
#tabs button { padding: .3rem .4rem; font-size: .9rem; }
#top { position: static; }
}
#paper { display: none; }
@media print {
.printing > * { display: none; }
.printing > #paper { display: block; }
#paper h1 { font-size: 1.2rem; white-space: normal; }
html { font-size: 12pt; }
.acts, nav, footer, #health, #copied, #recorded { display: none; }
#top { position: static; }
}

.wide { overflow-x: auto; max-width: 100%; }
table { border-collapse: collapse; width: 100%; }
table.plain { width: auto; }
th, td { padding: .35rem .5rem; border-bottom: 1px solid #bbb; text-align: left; vertical-align: baseline; }
thead th { font-size: .8rem; color: #444; border-bottom: 2px solid #111; vertical-align: bottom; }
tbody th { font-weight: bold; }
th.figure { text-align: right; }
td.figure { text-align: right; font-variant-numeric: tabular-nums; white-space: nowrap; }
.small, td.small { font-size: .85rem; }
tr.urgent > * { background: #fff0ed; }
tr.sum > * { border-top: 2px solid #111; font-weight: bold; }
.bad { color: #9a1500; font-weight: bold; }

#steps { list-style: none; padding: 0; margin: 0 0 1rem; }
#steps li { display: flex; flex-wrap: wrap; gap: .3rem 1rem; justify-content: space-between; align-items: center; }
#steps li { margin: .4rem 0; padding: .4rem .8rem; border: 2px solid #bbb; border-left: .5rem solid #174a8b; border-radius: .35rem; }
#steps li.urgent { border-color: #9a1500; background: #fff0ed; }
#steps li.quiet { border-left-color: #bbb; }
#steps .what { font-size: 1.15rem; flex: 1 1 18rem; overflow-wrap: anywhere; }
.wards thead th { padding: .35rem .3rem; }
.wards td, .wards tbody th { padding: .4rem .3rem; }
.wards tbody th { min-width: 8rem; max-width: 14rem; }
.wards td.figure { font-size: 1.1rem; }
.wards td.none { color: #767676; }
.wards input { width: 5rem; text-align: right; }
.wards .next { font-size: .85rem; max-width: 13rem; }
.wards .next button { margin-right: .4rem; font-size: 1rem; white-space: nowrap; }
.wards .next span { display: block; color: #444; }
@media (min-width: 641px) {
.wards.close .next span, .wards.close .phase span { display: none; }
.wards.close td, .wards.close tbody th { padding: .1rem .3rem; vertical-align: middle; }
.wards.close .next button { padding: .1rem .5rem; }
.wards.close input { padding: .1rem .3rem; }
}
.wards td.phase { font-size: .85rem; max-width: 8rem; }

.batches th[scope=row] { font-size: 1.15rem; }
.keyed, .unkeyed { white-space: nowrap; }
.unkeyed { color: #6b4300; }
.keyed small { color: #444; }
b.differing, b.waiting { color: #9a1500; }
b.waiting { color: #6b4300; }
b.taken { color: #1c6b2a; }
tr.below > td { padding: .2rem .5rem 1rem 2rem; background: #f5f5f5; }
#batch-more { margin-top: .5rem; }

.case { border: 3px solid #174a8b; border-radius: .5rem; padding: .4rem 1rem .8rem; margin: .5rem 0; }
.which { font-size: 1.7rem; font-weight: bold; margin: 0; overflow-wrap: anywhere; }
.case .columns { grid-template-columns: 3fr 2fr; }
.case h3 { margin-top: .6rem; }
.candidates { columns: 13rem; column-gap: .35rem; }
.candidates.few { columns: 1; }
button.candidate { display: flex; gap: .6rem; align-items: center; width: 100%; margin-bottom: .35rem; break-inside: avoid; }
button.candidate { text-align: left; font-size: 1.15rem; color: #111; border-color: #767676; overflow-wrap: anywhere; }
button.candidate bdi { flex: 1; min-width: 0; }
button.candidate.chosen { background: #e8eff9; border-color: #174a8b; font-weight: bold; }
button.candidate .badge { background: #174a8b; font-size: 1.15rem; }
.rejects { display: flex; flex-direction: column; gap: .35rem; align-items: stretch; }
.rejects button { text-align: left; border-color: #9a1500; color: #9a1500; }
.ballot { min-height: 5.5rem; }
.names { list-style: none; padding: 0; font-size: 1.15rem; }
.preference { display: inline-block; margin-right: .9rem; }
.preference i { font-style: normal; color: #444; }

.checks { list-style: none; padding: 0; }
.checks li { padding: .25rem .6rem; border-left: .5rem solid #1c6b2a; margin: .3rem 0; }
.checks li b { display: inline-block; min-width: 3.4rem; color: #1c6b2a; }
.checks li.wrong { border-color: #9a1500; background: #fff0ed; }
.checks li.wrong b { color: #9a1500; }

fieldset { min-width: 0; border: 2px solid #767676; border-radius: .35rem; margin: .6rem 0; }
legend { font-weight: bold; padding: 0 .4rem; }
.choice { display: flex; gap: .6rem; align-items: center; padding: .4rem; font-size: 1.25rem; }
.choice input { width: 1.3rem; height: 1.3rem; flex: none; margin: 0; }
.figures { display: flex; flex-wrap: wrap; gap: .3rem 2rem; }
.figures b { font-size: 1.25rem; }
.stagehead { display: flex; flex-wrap: wrap; justify-content: space-between; align-items: center; gap: .5rem; }
.stagehead h3 { flex: 1 1 16rem; text-align: center; margin: .3rem 0; overflow-wrap: anywhere; }
.stage th, .stage td { vertical-align: middle; }
.stage thead th { vertical-align: bottom; }
.stage tbody th { width: 30%; font-weight: normal; }
.stage td.chart { width: 36%; }
.stage thead th:nth-child(3), .stage thead th:nth-child(4) { text-align: right; }
.stage tr.elected th { font-weight: bold; }
.stage tr.excluded { color: #595959; }
.stage tr.others { font-size: .85rem; color: #444; }
.track { position: relative; display: block; height: 1.5rem; background: #f0f0f0; }
.bar.continuing, .bar.elected, .bar.excluded { display: block; height: 100%; background: #6c8ebf; }
.track .bar.elected { background: #111; }
.track .bar.excluded { background: #fff; border: 2px solid #767676; }
.track .quota { position: absolute; top: -.2rem; bottom: -.2rem; width: 0; border-left: 3px solid #e08a00; }
.aloud { border: 4px double #111; padding: .5rem 1.2rem; margin: .6rem 0; font-size: 1.5rem; line-height: 1.5; }
.aloud h3 { margin: 0; font-size: 1rem; font-weight: normal; color: #444; }

.phase-here { display: none; font-weight: normal; }
@media (min-width: 641px) and (max-width: 900px) {
.wards .next span, .wards .phase, .wards thead th:nth-child(2), .wards .sum td:nth-child(2) { display: none; }
.phase-here { display: block; }
.wards tbody th { width: 30%; }
.wards input { width: 4.2rem; padding: .3rem .2rem; }
.wards td, .wards tbody th, .wards thead th { padding: .3rem .2rem; }
.wards td.figure { font-size: .95rem; }
.wards .next button { padding: .3rem .5rem; margin: 0; }
}
@media (max-width: 900px) {
.case .columns { grid-template-columns: 1fr; }
}
@media (min-width: 641px) and (max-width: 900px) {
.case .columns:has(.few) { grid-template-columns: 1fr 1fr; gap: .5rem 1rem; }
}
.judging #tabs kbd, .judging #keys-hint { display: none; }
@media (max-width: 640px) {
.wards thead { position: absolute; clip-path: inset(50%); }
.wards, .wards tbody { display: block; }
.wards tr { display: grid; grid-template-columns: repeat(3, 1fr); gap: 0 .5rem; border: 2px solid #bbb; border-radius: .35rem; margin: .5rem 0; padding: .3rem .5rem; }
.wards tbody th, .wards tbody td { display: block; border: 0; padding: .1rem 0; max-width: none; }
.wards tr.urgent { background: #fff0ed; }
.wards tr.urgent > *, .wards tr > * { background: none; }
.wards tbody th, .wards tbody td.phase, .wards tbody td.next { grid-column: 1 / -1; min-width: 0; max-width: none; }
.wards th.figure { text-align: right; }
td.figure { text-align: left; white-space: normal; }
.wards td.figure::after { content: ' ' attr(data-label); font-size: .75rem; color: #444; }
.wards td.none, .wards td:empty { display: none; }
.stage td.chart { min-width: 8rem; }
}
"#;
