//! Part of the script: the requests to the office, and what is known about the office.

/// Declares the requests. While the office doesn't respond, the data read last stays on the screen.
pub(crate) const REQUESTS: &str = r#"// ---- requests to the office

// How many seconds pass between two looks at the office, and how long it may take to respond.
const BETWEEN = 5, PATIENCE = 20;

// What is known of the office. `counts` has what was read of each ward that is sealed.
const office = {title: '', wards: [], counts: new Map(), text: null, heard: Date.now(), since: 0, changed: 0, isDown: false};

const isCounted = ({phase}) => phase === 'sealed' || phase === 'declared';
const wardAt = (number) => office.wards.find((it) => it.ward === number);

// Returns the text that is at a target, or null if the office doesn't send it. No code is ever sent.
const ask = async (target) => {
  const end = new AbortController();
  const timer = setTimeout(() => end.abort(), 1000 * PATIENCE);
  try {
    const answer = await fetch(location.origin + target, {cache: 'no-store', credentials: 'omit', redirect: 'error', signal: end.signal});
    return answer.status === 200 ? await answer.text() : null;
  } catch {
    return null;
  } finally {
    clearTimeout(timer);
  }
};

// Reads the count of a ward, unless nothing changed since it was read. Returns whether it is known now.
const readCount = async ({ward, phase, stages}) => {
  const key = `${phase} ${stages}`;
  if (office.counts.get(ward)?.key === key) return true;
  const sheet = await ask(`/wards/${ward}/sheet`);
  const declaration = sheet !== null && phase === 'declared' ? await ask(`/wards/${ward}/result`) : '';
  if (sheet === null || declaration === null) return false;
  try {
    office.counts.set(ward, {key, ...sheetIn(sheet), isDeclared: phase === 'declared', elected: electedIn(declaration)});
    return true;
  } catch {
    return false;
  }
};

const takeWards = (text) => {
  const {title, wards} = JSON.parse(text);
  const now = Date.now();
  if (office.text === null) office.since = now;
  else if (office.text !== text) office.changed = now;
  Object.assign(office, {title, wards, text});
  for (const ward of [...office.counts.keys()]) if (!wards.some((it) => it.ward === ward && isCounted(it))) office.counts.delete(ward);
};

// Looks at the office once. `show` is called after each change.
const look = async (show) => {
  const text = await ask('/screen/wards');
  let isKnown = text !== null;
  try {
    if (isKnown) takeWards(text);
  } catch {
    isKnown = false;
  }
  if (isKnown) show();
  for (const ward of isKnown ? office.wards.filter(isCounted) : []) {
    const {key} = office.counts.get(ward.ward) ?? {};
    isKnown = await readCount(ward);
    if (!isKnown) break;
    if (office.counts.get(ward.ward).key !== key) show();
  }
  if (isKnown) office.heard = Date.now();
  office.isDown = !isKnown;
  show();
};

"#;
