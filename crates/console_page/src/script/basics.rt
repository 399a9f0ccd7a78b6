//! Part of the script: what every part uses, such as elements, the browser's storage, ids, and typed numbers.

/// Declares what every other part uses.
pub(crate) const BASICS: &str = r#"'use strict';

// ---- shared by every part

const HERE = `${location.origin}/office/`;
const FRONT = 'console ';

const at = (id) => document.getElementById(id);

const made = (name, properties, ...inner) => {
  const {data, ...others} = properties;
  const element = Object.assign(document.createElement(name), others);
  Object.assign(element.dataset, data);
  element.append(...inner.flat().filter((it) => it !== null && it !== undefined && it !== false));
  return element;
};

const button = (text, act, {key, main = false, ...others} = {}) => {
  const element = made('button', {type: 'button', className: main ? 'main' : '', data: key ? {key} : {}, ...others}, ...[text].flat());
  element.addEventListener('click', act);
  return element;
};

const row = (...cells) => made('tr', {}, ...cells.map((it) => (it instanceof Element && /^T[DH]$/.test(it.tagName) ? it : made('td', {}, it))));
const headRow = (...cells) => made('thead', {}, made('tr', {}, ...cells.map((it) => made('th', {scope: 'col'}, it))));
const numeric = (value) => made('td', {className: 'figure'}, String(value));

// Returns a table. The heading of a column of figures is right-aligned, as the figures are.
const table = (properties, heads, rows) => {
  const head = headRow(...heads);
  [...head.rows[0].cells].forEach((cell, place) => cell.classList.toggle('figure', rows[0]?.cells[place]?.classList.contains('figure') === true));
  return made('div', {className: 'wide'}, made('table', properties, head, made('tbody', {}, ...rows)));
};

// Replaces the content of an element. Does nothing if the content is the same, so that an open list stays open and selected text stays
// selected. The focus stays where it was, and so does what was typed into the focused field.
const fill = (element, ...inner) => {
  const next = document.createElement(element.tagName);
  next.append(...inner.flat().filter((it) => it !== null && it !== undefined && it !== false));
  const [before, after] = [[...element.childNodes], [...next.childNodes]];
  if (before.length === after.length && before.every((it, place) => it.isEqualNode(after[place]))) return;
  const old = element.contains(document.activeElement) ? document.activeElement : null;
  const {key} = old?.dataset ?? {};
  const {value, selectionStart, selectionEnd} = old ?? {};
  element.replaceChildren(...after);
  const found = key && [...element.querySelectorAll('[data-key]')].find((it) => it.dataset.key === key);
  if (!found) return;
  if (old.tagName === 'INPUT' && /^(text|search)$/.test(old.type)) {
    found.value = value;
    found.setSelectionRange(selectionStart, selectionEnd);
  }
  found.focus({preventScroll: true});
};

// ---- the browser's storage

let stores = true;

const stored = (name, otherwise = null) => {
  try { return JSON.parse(localStorage.getItem(FRONT + name)) ?? otherwise; } catch { return otherwise; }
};

const store = (name, value) => {
  try { localStorage.setItem(FRONT + name, JSON.stringify(value)); stores = true; } catch { stores = false; }
};

const unstore = (name) => {
  try { localStorage.removeItem(FRONT + name); } catch { stores = false; }
};

const storedNames = (front) => {
  try { return Object.keys(localStorage).filter((it) => it.startsWith(FRONT + front)).map((it) => it.slice(FRONT.length)); } catch { return []; }
};

// ---- ids

const LETTERS = 'abcdefghijkmnpqrstuvwxyz';
const WINDOW = Array.from(crypto.getRandomValues(new Uint8Array(2)), (byte) => LETTERS[byte % LETTERS.length]).join('');
let lastTime = 0;

// Returns an id that no other order has: the time, and two letters for this window. Two orders in one millisecond get different times.
const newId = () => {
  lastTime = Math.max(Date.now(), lastTime + 1);
  return `c-${lastTime.toString(36)}-${WINDOW}`;
};

// ---- typed numbers

// Returns the number from 1 to `most` that a text holds, or 0.
const numberIn = (text, most) => {
  const trimmed = text.trim();
  return /^[1-9][0-9]{0,5}$/.test(trimmed) && Number(trimmed) <= most ? Number(trimmed) : 0;
};

const numbersIn = (text) => text.trim().split(/[\s,;+]+/).filter(Boolean).map((it) => numberIn(it, 999));

"#;
