//! The style of the page, as CSS: for widths of 400 pixels or more, with nothing conveyed by colour alone.

/// The style.
pub(crate) const STYLE: &str = r#"
* { box-sizing: border-box; }
body { margin: 0 auto; max-width: 100rem; padding: 0 .75rem 2rem; font: 1rem/1.4 sans-serif; color: #000; background: #fff; }
h1 { font-size: 1rem; margin: .5rem 0; }
h2 { font-size: 1.15rem; margin: .25rem 0; overflow-wrap: anywhere; }
p { margin: .5rem 0; }
h2:focus { outline: none; }
[hidden] { display: none; }
bdi { unicode-bidi: isolate; }
.unseen { position: absolute; width: 1px; height: 1px; overflow: hidden; clip-path: inset(50%); white-space: nowrap; }
.warning { border: 3px solid #8a1500; padding: .4rem .6rem; }
button, input { font: inherit; color: inherit; }
button { padding: .3rem .7rem; border: 2px solid #1b4f91; border-radius: .3rem; background: #fff; color: #1b4f91; }
button.main { background: #1b4f91; color: #fff; }
button:disabled { border-color: #767676; background: #eee; color: #595959; }
:focus-visible { outline: 3px solid #1b4f91; outline-offset: 1px; }
#list { list-style: none; padding: 0; }
#list li { margin: .5rem 0; }
li { margin: .25rem 0; }

.top { position: sticky; top: 0; z-index: 2; background: #fff; padding: .25rem 0; }
.where { margin: 0; }
.where b { font-size: 2.2rem; line-height: 1.2; }
.where span { margin-left: .75rem; }
#cursor { margin: 0 0 .25rem; min-height: 1.9rem; font-size: 1.35rem; font-weight: bold; overflow-wrap: anywhere; }
#notice { min-height: 3rem; margin: .25rem 0; padding: .3rem .5rem; border: 3px solid transparent; }
#said:not(:empty) { padding: .4rem .6rem; border: 3px solid #1b4f91; }
#notice.refused { border-color: #8a1500; }

p, li, dl, dialog { max-width: 62rem; }
#read { padding: .3rem .6rem; border: 3px solid #1b4f91; }
#read p { margin: 0; font-weight: bold; }
#read-marks { columns: 18rem; margin: .2rem 0; padding: 0; list-style: none; font-size: 1.5rem; }
#read-marks li { display: flex; gap: .75rem; margin: .1rem 0; break-inside: avoid; overflow-wrap: anywhere; }
#read-marks b { flex: none; width: 2.2rem; text-align: right; font-variant-numeric: tabular-nums; }

.wide { overflow-x: auto; max-width: 100%; }
table { border-collapse: separate; border-spacing: 0; }
th, td { width: var(--field); min-width: var(--field); max-width: var(--field); height: 2rem; padding: 0; border: solid #999; border-width: 0 1px 1px 0; }
th, td { text-align: center; background: #fff; font-size: 1.1rem; font-variant-numeric: tabular-nums; }
td[colspan] { max-width: none; }
table .number { --field: 3.4rem; position: sticky; left: 0; z-index: 1; border-left-width: 1px; font-weight: bold; }
table .end { --field: 4rem; border-color: transparent; }
thead th { padding-top: .15rem; vertical-align: top; border-top-width: 1px; font-weight: normal; font-size: .85rem; }
thead th b { display: block; }
thead th span { display: block; overflow: hidden; text-overflow: ellipsis; }
.across thead th span { display: -webkit-box; -webkit-box-orient: vertical; -webkit-line-clamp: 6; padding: 0 .2rem; overflow-wrap: anywhere; }
.upright thead th span { writing-mode: vertical-rl; max-height: min(22rem, 36vh); margin: 0 auto; white-space: nowrap; }
thead .here { background: #1b4f91; color: #fff; }
tbody td { color: #444; }
tbody .now th { font-size: 1.35rem; background: #ffe9a8; }
tbody .now td { border-bottom: 2px solid #000; color: #000; }
tbody .now th { border-bottom: 2px solid #000; }
tbody .open th { text-decoration: underline wavy #8a1500; }
tbody .tenth > * { border-bottom-width: 3px; }
.doubtful { text-align: left; padding-left: .5rem; font-weight: bold; }
td input { display: block; width: 100%; height: 2.2rem; padding: 0; border: 0; border-radius: 0; background: transparent; text-align: center; font-weight: bold; font-size: 1.25rem; }
td input:focus { outline: 3px solid #1b4f91; outline-offset: -3px; background: #ffe9a8; }
td input::placeholder { color: #595959; opacity: 1; }
#end-key { display: block; margin: 0 .15rem; padding: .25rem 0; border: 1px solid #767676; border-radius: .3rem; font-size: .9rem; }
#end-key:focus { outline: 3px solid #1b4f91; background: #ffe9a8; }

#papers:not([hidden]) { display: flex; flex-direction: column; }
#keys { order: 1; }
.tools, .acts { display: flex; flex-wrap: wrap; gap: .5rem; align-items: center; }
dl { display: grid; grid-template-columns: max-content 1fr; gap: .15rem .75rem; margin: .5rem 0; }
dd { margin: 0; }
kbd { padding: 0 .3rem; border: 1px solid #767676; border-radius: .2rem; font: inherit; }
dialog { max-width: 30rem; border: 3px solid #8a1500; }

@media (max-width: 640px) {
.where b { font-size: 1.8rem; }
table .number { --field: 2.8rem; }
dl { grid-template-columns: 1fr; gap: 0; }
dd { margin-bottom: .4rem; }
}
"#;
