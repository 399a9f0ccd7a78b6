//! Part of the script: the drafts that the browser stores. A draft is what a clerk has keyed so far for a batch in one round.

/// Declares drafts, and how they are stored, checked and removed.
pub(crate) const DRAFTS: &str = r#"'use strict';

// ---- what this browser keeps

const HERE = location.origin + location.pathname;
const CLERK = location.pathname.split('/').at(-2);
// How far a paper is: of an earlier round it has what was keyed then, and wasn't looked at in this one.
const NEW = 0, BEGUN = 1, KEYED = 2, EARLIER = 3;
const LETTERS = 'abcdefghijklmnopqrstuvwxyz0123456789';

const randomWord = (length) =>
  Array.from(crypto.getRandomValues(new Uint8Array(length)), (byte) => LETTERS[byte % LETTERS.length]).join('');

// Of several windows in which one batch is open, the last one keys.
const WINDOW = randomWord(8);

// Whether the browser kept what it was last asked to keep.
let keeps = true;

const FRONT = `keying ${CLERK} `;
const draftName = (batch, round) => `${FRONT}${batch} ${round}`;

const keptAt = (name) => {
  try { return JSON.parse(localStorage.getItem(name)); } catch { return null; }
};

const keepAt = (name, value) => {
  try { localStorage.setItem(name, JSON.stringify(value)); keeps = true; } catch { keeps = false; }
};

const forget = (name) => {
  try { localStorage.removeItem(name); } catch { keeps = false; }
};

// The names of this clerk's drafts. Those of other clerks are never looked at.
const draftNames = () => {
  try { return Object.keys(localStorage).filter((name) => name.startsWith(FRONT)); } catch { return []; }
};

const newRow = (columns) => ({text: ','.repeat(columns.length - 1), state: NEW, column: 0});

// A keying's own id, under which it is sent as often as it has to be.
const newId = (batch, round) => `page-${batch}-${round}-${randomWord(16)}`;

const newDraft = ({batch, ward, round, size, columns}) => ({
  id: newId(batch, round), window: WINDOW, sent: false,
  batch, ward, round, size, columns, at: 0, rows: [newRow(columns)],
});

const isMark = (text) => /^([1-9][0-9]?)?$/.test(text);

const isMarksText = (text, columns) =>
  text === 'D' || (typeof text === 'string' && text.split(',').length === columns.length && text.split(',').every(isMark));

const isRow = (row, columns) =>
  isMarksText(row?.text, columns) && [NEW, BEGUN, KEYED, EARLIER].includes(row.state) && Number.isInteger(row.column)
  && row.column >= (row.text === 'D' ? columns.length : 0) && row.column <= columns.length;

// Whether a draft is for this batch and round, with the same candidates. The number of papers may have been put right since.
const isDraftOf = (draft, {batch, round, columns}) =>
  draft?.batch === batch && draft.round === round && String(draft.columns) === String(columns)
  && /^[a-z0-9-]{1,40}$/.test(draft.id) && Array.isArray(draft.rows)
  && draft.rows[draft.at] !== undefined && draft.rows.every((row) => isRow(row, columns));

const isWhole = ({rows, size}) => rows.length === size && rows.every((row) => row.state === KEYED);

// Whether a clerk did nothing in a draft yet, neither keyed a paper nor looked at one of an earlier round.
const isUntouched = ({rows}) => rows.every((row) => row.state === EARLIER) || (rows.length === 1 && rows[0].state === NEW);

const keyedIn = ({rows}) => rows.filter((row) => row.state === KEYED).length;

"#;
