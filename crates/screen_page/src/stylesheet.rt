//! The style of the page, as CSS. All lengths scale with the window: a screen of 1920 by 1080 pixels is 96 by 54 rem.

/// The style.
pub(crate) const STYLE: &str = r#"
* { box-sizing: border-box; margin: 0; padding: 0; }
html { font-size: min(calc(100vh / 54), calc(100vw / 96)); }
body { display: flex; flex-direction: column; height: 100vh; overflow: hidden; cursor: none; }
body { font: 1.5rem/1.2 sans-serif; color: #000; background: #fff; }
[hidden] { display: none; }
ol { list-style: none; }
bdi { unicode-bidi: isolate; overflow-wrap: anywhere; }
small { font-size: .72em; }

header { flex: none; display: grid; grid-template-columns: minmax(0, 1fr) auto; align-items: center; column-gap: 2rem; padding: .5rem 2rem .3rem; }
header { color: #fff; background: #000; }
#title { height: 2.2rem; font-size: calc(1.6rem * var(--fit, 1)); white-space: nowrap; overflow: hidden; }
#clock { font-size: 1.8rem; font-variant-numeric: tabular-nums; }
h1 { grid-column: 1 / -1; height: 5.2rem; font-size: calc(4.2rem * var(--fit, 1)); line-height: 1.2; overflow: hidden; }
#down { padding: .5rem 2rem; font-size: 2.2rem; font-weight: bold; color: #fff; background: #9a1500; }
footer { flex: none; display: flex; justify-content: space-between; align-items: center; height: 2.8rem; padding: 0 2rem; border-top: .1rem solid #000; }
#keys { padding: 0 .8rem; font-weight: bold; color: #fff; background: #000; }

main { flex: 1; display: flex; flex-direction: column; min-height: 0; padding: .6rem 2rem .4rem; overflow: hidden; }
.large { flex: 1; display: flex; flex-direction: column; justify-content: center; align-items: center; gap: 1.5rem; min-height: 0; }
.large { font-size: calc(5.5rem * var(--fit, 1)); font-weight: bold; text-align: center; }
.large .more, .large table { font-size: .5em; font-weight: normal; }
.large th, .large td { padding: .1em .6em; text-align: left; font-weight: normal; }
.large td { text-align: right; font-weight: bold; font-variant-numeric: tabular-nums; }

#what { flex: none; height: 7.2rem; font-size: calc(1.7rem * var(--fit, 1)); overflow: hidden; }
#what h2 { font-size: 1.3em; }
#figures { flex: none; display: flex; justify-content: space-between; gap: 1rem; padding-top: .3rem; font-size: 1.35rem; white-space: nowrap; }

#bars { flex: 1; display: grid; gap: 0 2.5rem; min-height: 0; overflow: hidden; }
#bars { font-size: min(2rem, 22.5rem / var(--rows)); }
#bars.two { grid-template-columns: repeat(2, minmax(0, 1fr)); font-size: min(1.6rem, 22.5rem / var(--rows)); }
.column { display: flex; flex-direction: column; min-width: 0; min-height: 0; }
.column ol { flex: 1; display: grid; grid-auto-rows: minmax(0, 1fr); min-height: 0; max-height: calc(var(--rows) * 4.6rem); }
.column li, .head { display: grid; grid-template-columns: 1.8em minmax(0, 1fr) var(--bar) var(--votes) var(--change) 7.2em; column-gap: .45em; }
.column li { align-items: center; border-top: 1px solid #999; }
.one { --bar: 28rem; }
.two { --bar: 9rem; }
.two .column li, .two .head { grid-template-columns: 1.8em minmax(0, 1fr) var(--bar) var(--votes) 5.4em; }
.two .change, .two .standing small { display: none; }
.head { flex: none; height: 1.9rem; }
.head .track { grid-column: 3; background: none; }
.head .quota { font-size: 1.4rem; line-height: 1.8rem; }
.number { text-align: right; font-variant-numeric: tabular-nums; }
.name { display: grid; align-content: center; align-self: stretch; min-width: 0; min-height: 0; overflow: hidden; }
.name { font-size: calc(1em * var(--fit, 1)); font-weight: bold; line-height: 1.1; }
.name bdi { justify-self: start; }
.track { position: relative; align-self: stretch; background: #eee; }
.bar { position: absolute; left: 0; top: 14%; bottom: 14%; background: #2b67b5; transition: width 1.8s ease-in-out; }
.elected .bar { background: #000; }
.excluded .bar { box-shadow: inset 0 0 0 .15rem #555; background: repeating-linear-gradient(45deg, #fff 0 .4rem, #999 .4rem .6rem); }
.quota { position: absolute; top: 0; bottom: 0; border-left: .25rem solid #d04a00; font-style: normal; font-weight: bold; color: #a33a00; }
.quota { padding-left: .4rem; white-space: nowrap; }
.quota.left { padding: 0 .4rem 0 0; border-left: 0; border-right: .25rem solid #d04a00; transform: translateX(-100%); }
.votes, .change { text-align: right; white-space: nowrap; font-variant-numeric: tabular-nums; }
.votes { font-weight: bold; }
.change { font-size: .75em; }
.standing { font-size: .84em; white-space: nowrap; padding-left: .4em; }
.standing b { padding: 0 .3em; border: .15rem solid #000; }
.elected .standing b { color: #fff; background: #000; }
.excluded .name, .excluded .votes, .excluded .number { font-weight: normal; color: #444; }

#wards, #people { flex: 1; display: grid; grid-auto-flow: column; gap: 0 3rem; min-height: 0; overflow: hidden; }
#wards { grid-template-rows: repeat(var(--rows), minmax(0, 6rem)); font-size: min(3.2rem, 24rem / var(--rows)); }
#people { align-content: center; grid-template-rows: repeat(var(--rows), minmax(0, 8rem)); font-size: min(4.4rem, 24rem / var(--rows)); }
#wards.two, #people.two { grid-auto-columns: minmax(0, 1fr); }
#wards li, #people li { display: grid; grid-template-columns: 2em minmax(0, 1fr) auto; column-gap: .6em; align-items: center; min-width: 0; min-height: 0; }
#wards li { border-top: 1px solid #999; }
#wards .declared .state { font-weight: bold; }
.state { font-size: .8em; }
#people .state { font-size: .5em; }
h2.elected { font-size: 3.4rem; }
.more { font-size: 1.8rem; }

@media (prefers-reduced-motion: reduce) {
.bar { transition: none; }
}
"#;
