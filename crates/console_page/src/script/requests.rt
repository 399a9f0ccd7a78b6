//! Part of the script: the requests to the office, and the data read from it.

/// Declares the requests. Data remains valid as long as the text of the list of wards doesn't change.
pub(crate) const REQUESTS: &str = r#"// ---- requests to the office

const PATIENCE = 120;

// Sends a request. Returns the status of the response, its text and its JSON, or null if there was none or it wasn't JSON.
const ask = async (target, body) => {
  const end = new AbortController();
  const timer = setTimeout(() => end.abort(), 1000 * PATIENCE);
  const sent = body === undefined ? {} : {method: 'POST', headers: {'Content-Type': 'application/json'}, body};
  try {
    const answer = await fetch(HERE + target, {...sent, cache: 'no-store', redirect: 'error', signal: end.signal});
    const text = await answer.text();
    return {status: answer.status, text, says: JSON.parse(text)};
  } catch {
    return null;
  } finally {
    clearTimeout(timer);
  }
};

// What was last read: the list of wards and its text. Each accepted order changes that text, so other reads stay valid while it is the same.
const office = {receipts: -1, text: '', wards: [], reads: new Map(), at: 0, down: ''};

const wardAt = (number) => office.wards.find((it) => it.ward === number);

// Returns what was found under a key since the list of wards changed, or finds it. What failed is tried again next time.
const once = async (key, find) => {
  const {reads} = office;
  if (!reads.has(key)) reads.set(key, find());
  const result = await reads.get(key);
  if (result.why && result.status !== 409) reads.delete(key);
  return result;
};

// Reads a target. Returns {says}, or {why} if it couldn't be read.
const readNow = async (target) => {
  const answer = await ask(target);
  return answer?.status === 200 ? {says: answer.says} : {why: explainedAnswer(answer), status: answer?.status, says: null};
};
const read = (target) => once(target, () => readNow(target));
const readDoubtful = (ward) => read(`wards/${ward}/doubtful`);

// Sends an order that only prints, such as `sheet`. Returns {output}, or {why} if it failed.
const outputOf = async (...words) => {
  const answer = await ask('orders', JSON.stringify({files: {}, words: words.map(String)}));
  if (answer?.status !== 200) return {why: explainedAnswer(answer)};
  const {status, output, errors} = answer.says;
  return status === 0 ? {output} : {why: `${said(explainedError(errors).line)} ${explainedError(errors).todo}`};
};

// Like outputOf, but sends the order once until the list of wards changes.
const outputOnce = (...words) => once(`print ${words.join(' ')}`, () => outputOf(...words));

// Downloads a text as a file.
const saveAs = (name, text, type = 'text/plain') => {
  const address = URL.createObjectURL(new Blob([text], {type: `${type};charset=utf-8`}));
  const link = Object.assign(document.createElement('a'), {href: address, download: name});
  link.click();
  setTimeout(() => URL.revokeObjectURL(address), 60000);
};

// Returns the text of a file, or null if it isn't UTF-8. Nothing in the text is replaced or left out.
const textOf = async (file) => {
  try { return new TextDecoder('utf-8', {fatal: true, ignoreBOM: true}).decode(await file.arrayBuffer()); } catch { return null; }
};

"#;
