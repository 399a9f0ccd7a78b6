//! Part of the script: what every part uses, such as elements, names, and fitting text to its space.

/// Declares what every other part uses.
pub(crate) const BASICS: &str = r#"'use strict';

// ---- shared by every part

const at = (id) => document.getElementById(id);
const some = (parts) => parts.flat().filter((it) => it !== null && it !== undefined && it !== false);

const made = (name, properties, ...inner) => {
  const element = Object.assign(document.createElement(name), properties);
  element.append(...some(inner));
  return element;
};

const fill = (element, ...inner) => element.replaceChildren(...some(inner));

// ---- names, numbers and times

const TURNING = /[\u202a-\u202e\u2066-\u2069]/g;
// Returns a name without the marks that change the direction of the text next to it. Control characters are replaced.
const shownName = (name) => name.replace(TURNING, '').replace(/[\u0080-\u009f\u2028\u2029]/g, '\ufffd');
const isolated = (name) => made('bdi', {}, shownName(name));
const withNumber = ({candidate, name}) => made('span', {className: 'person'}, made('b', {}, String(candidate)), ' ', isolated(name));
const wardName = ({ward, name}) => made('span', {className: 'person'}, `Ward ${ward} `, isolated(name));

const many = (count, one, more = `${one}s`) => `${count.toLocaleString('en')} ${count === 1 ? one : more}`;

// Returns a list for a sentence: 1, 2 and 3.
const listed = (parts, last = 'and') => parts.flatMap((it, place) => (place === 0 ? [it] : [place === parts.length - 1 ? ` ${last} ` : ', ', it]));

const clock = (time) => new Date(time).toTimeString().slice(0, 5);

// ---- text that fits

const shrink = (element, fits) => {
  for (let size = 100; size >= 20; size -= 4) {
    element.style.setProperty('--fit', String(size / 100));
    if (fits()) return;
  }
};

// Shrinks the text of an element until all of it is visible.
const fit = (element) => shrink(element, () => element.scrollHeight <= element.clientHeight && element.scrollWidth <= element.clientWidth);

// Shrinks each name in a list until all of it is visible in its row.
const fitNames = (list) => list.querySelectorAll('.name').forEach((place) => shrink(place, () => {
  const {height, width} = place.firstChild.getBoundingClientRect();
  return height <= place.clientHeight && width <= place.clientWidth + 1;
}));

"#;
