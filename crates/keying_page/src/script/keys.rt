//! Part of the script: the effect of each key on the draft.

/// Declares what each key does. For a key without effect, the result is a message that says why; nothing is corrected.
pub(crate) const KEYS: &str = r#"// ---- a paper, key by key

// The draft that is keyed, and the candidates of its columns.
let draft = null;
let candidates = [];
// Digits that are still to come, of a mark or of a candidate's number.
let pending = null;
// A key was pressed after the last candidate, so the paper must be checked again.
let extra = false;
// The last key was a mark, and the cursor moved by itself.
let wentOn = false;

const width = () => draft.columns.length;
const row = () => draft.rows[draft.at];
const paper = () => draft.at + 1;
const isDoubtful = () => row().text === 'D';
const isBehind = () => row().column === width();
// How many papers there are to key: too many only until one is taken out.
const count = () => Math.max(draft.size, draft.rows.length);

// After each of these no number is half typed.
const settle = () => { pending = null; extra = false; wentOn = false; };

const write = (column, mark) => {
  const fields = row().text.split(',');
  fields[column] = mark;
  row().text = fields.join(',');
  if (row().state !== KEYED) row().state = BEGUN;
};

const refuseBehind = () => {
  if (row().state === EARLIER) return `Paper ${paper()} is as you keyed it in round ${draft.from}. Enter, if the paper says so. Else arrows go to a mark; Delete empties the paper.`;
  extra = true;
  return row().state === KEYED
    ? `Paper ${paper()} is keyed. Arrows go to a mark; Delete empties the paper.`
    : `Paper ${paper()} is at its end, and another key came. Look at the paper again. Backspace undoes that key.`;
};

// Enters a mark for the candidate at the cursor, or none, and moves the cursor on.
const mark = (text) => {
  if (isBehind()) return refuseBehind();
  write(row().column, text);
  row().column += 1;
  wentOn = true;
};

const beginNumber = (what) => {
  if (what === 'mark' && isBehind()) return refuseBehind();
  if (isDoubtful()) return `Paper ${paper()} is doubtful. Delete empties it.`;
  pending = {what, digits: ''};
};

const goToCandidate = (number) => {
  settle();
  const column = draft.columns.indexOf(number);
  if (column < 0) return `No candidate has the number ${number}.`;
  row().column = column;
};

// A digit of a candidate's number. If another one may follow, Enter ends it.
const jump = (digits) => {
  if (digits.length === 2 || Number(digits) * 10 > draft.columns.at(-1)) return goToCandidate(Number(digits));
  pending.digits = digits;
};

// A digit of a number of two digits.
const digit = (key) => {
  const digits = pending.digits + key;
  if (pending.what === 'candidate') return jump(digits);
  if (digits === '0') return 'A mark never begins with 0.';
  if (digits.length < 2) {
    pending.digits = digits;
    return undefined;
  }
  pending = null;
  return mark(digits);
};

const doubt = () => {
  settle();
  Object.assign(row(), {text: 'D', column: width(), state: row().state === KEYED ? KEYED : BEGUN});
};

const empty = () => {
  settle();
  draft.rows[draft.at] = {...newRow(draft.columns), was: row().was};
};

// At the start of a paper, Backspace undoes Enter: it reopens the previous paper.
const reopen = () => {
  if (draft.at === 0 || draft.rows[draft.at - 1].state !== KEYED) return;
  draft.at -= 1;
  row().state = BEGUN;
};

// Takes back the last key.
const back = () => {
  if (pending || extra) return settle();
  if (isDoubtful()) return empty();
  if ((row().state === NEW && row().column === 0) || (row().state === EARLIER && isBehind())) return reopen();
  row().column = Math.max(row().column - 1, 0);
  write(row().column, '');
  if (row().column === 0 && !/[0-9]/.test(row().text)) row().state = NEW;
};

const moveTo = (column) => {
  settle();
  if (!isDoubtful()) row().column = Math.min(Math.max(column, 0), width());
};

// Moves the cursor to another paper, among those that have been keyed.
const goTo = (index) => {
  settle();
  const {rows} = draft;
  if (index < 0 || index >= count()) return undefined;
  if (index > rows.length || (index === rows.length && rows.at(-1).state !== KEYED)) return `Paper ${firstOpen() + 1} comes first.`;
  if (index === rows.length) rows.push(newRow(draft.columns));
  draft.at = index;
  if (row().state === KEYED) row().column = width();
};

// The first paper that isn't keyed, or none.
const firstOpen = () => {
  const index = draft.rows.findIndex((it) => it.state !== KEYED);
  if (index >= 0) return index;
  return draft.rows.length < draft.size ? draft.rows.length : -1;
};

const tooMany = () => `${draft.rows.length} papers are keyed here, and the batch has ${draft.size}. Go to the one that you keyed twice, and take it out.`;

const goOn = () => {
  if (isWhole(draft)) return askToSend();
  return firstOpen() < 0 ? tooMany() : goTo(firstOpen());
};

// Goes to the first paper that isn't keyed, or to the end of the batch. If that paper is at the cursor and begun, Enter must end it first.
const toNext = () => (row().state === BEGUN && firstOpen() === draft.at ? `Paper ${paper()} isn\u2019t ended. Enter ends it.` : goOn());

// Finishes a paper and goes to the next; after the last, to the first that was left out.
const finish = () => {
  if (pending?.what === 'candidate' && pending.digits) return goToCandidate(Number(pending.digits));
  if (pending) return 'Type two digits. Backspace undoes the key.';
  if (extra) return refuseBehind();
  if (row().state === NEW) return `Nothing is keyed for paper ${paper()}. Has it no number at all? Then press 0, and Enter.`;
  row().state = KEYED;
  return paper() < count() ? goTo(draft.at + 1) : goOn();
};

// A paper that was left out is put in before this one.
const putIn = () => {
  settle();
  const {rows, at, size} = draft;
  if (rows.length >= size && rows.at(-1).state === NEW) rows.pop();
  rows.splice(at, 0, newRow(draft.columns));
};

// A paper that was keyed twice is taken out.
const takeOut = () => {
  settle();
  draft.rows.splice(draft.at, 1);
  if (!row()) draft.rows.push(newRow(draft.columns));
};

const STEPS = {
  Enter: finish, Backspace: back, Delete: empty, Insert: putIn, Escape: settle,
  ArrowLeft: () => moveTo(row().column - 1), ArrowRight: () => moveTo(row().column + 1), Home: () => moveTo(0),
  ArrowUp: () => goTo(draft.at - 1), PageUp: () => goTo(draft.at - 1),
  ArrowDown: () => goTo(draft.at + 1), PageDown: () => goTo(draft.at + 1), End: toNext,
  ' ': () => mark(''), '0': () => mark(''), '.': () => beginNumber('mark'), ',': () => beginNumber('mark'),
  '/': () => beginNumber('candidate'), d: doubt, D: doubt, '*': doubt,
};

const isMarkKey = (key) => /^[1-9]$/.test(key);
const isDigitKey = (key) => /^[0-9]$/.test(key);

// The reason why a key isn't accepted, or nothing if it is.
const press = (key) => {
  wentOn = false;
  if (pending && isDigitKey(key)) return digit(key);
  if (pending && key.length === 1) return 'Type a digit. Backspace undoes the key.';
  if (isMarkKey(key)) return mark(key);
  return STEPS[key] ? STEPS[key]() : `The key ${key} means nothing here.`;
};

"#;
