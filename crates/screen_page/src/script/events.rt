//! Part of the script: what happens on key presses and as time passes.

/// Connects keys and timers with the declarations of the other parts, and starts the page.
pub(crate) const EVENTS: &str = r#"// ---- events: only this part runs anything when it is loaded

const toggleHold = () => {
  shown.hold = shown.hold ? '' : 'ward';
  shown.left = secondsFor();
};

// A presenter's remote sends Page Down and Page Up.
const KEYS = {
  ArrowRight: () => goBy(1), ArrowLeft: () => goBy(-1), PageDown: () => goBy(1), PageUp: () => goBy(-1),
  ArrowDown: () => stepBy(1), ArrowUp: () => stepBy(-1), ' ': toggleHold,
};

const onKey = (event) => {
  const act = KEYS[event.key];
  if (!act || event.ctrlKey || event.metaKey || event.altKey) return;
  event.preventDefault();
  act();
  draw();
};

const tick = () => {
  const before = `${shown.ward} ${shown.part}`;
  pass();
  if (before === `${shown.ward} ${shown.part}`) drawClock();
  else draw();
  setTimeout(tick, 1000);
};

const keepLooking = async () => {
  await look(() => { meetChange(); draw(); });
  setTimeout(keepLooking, 1000 * BETWEEN);
};

// The browser is asked to keep the screen on.
const stayAwake = () => navigator.wakeLock?.request('screen').catch(() => {});

document.addEventListener('keydown', onKey);
document.addEventListener('visibilitychange', () => { if (!document.hidden) stayAwake(); });
addEventListener('resize', () => { chart.key = ''; draw(); });

draw();
stayAwake();
tick();
keepLooking();
"#;
