//! Part of the script: the rows in which papers are shown.

/// Declares how papers are drawn: one row each, with the current one always at the same height. Names are never treated as markup.
pub(crate) const ROWS: &str = r#"// ---- how papers are shown

const ABOVE = 3, BELOW = 2;
const DASH = '\u2013';

const at = (id) => document.getElementById(id);

const made = (name, properties, ...inner) => {
  const element = Object.assign(document.createElement(name), properties);
  element.append(...inner);
  return element;
};

// A name is isolated from the text around it, whatever its direction.
const isolated = (name) => made('bdi', {}, name);
const papersOf = (count) => `${count} paper${count === 1 ? '' : 's'}`;
const wardOf = ({ward}) => (wardNames.get(ward) ? [`ward ${ward} `, isolated(wardNames.get(ward))] : [`ward ${ward}`]);
const spoken = ({number, name}) => `${number} \u2068${name}\u2069`;

let sound = null;

// A low tone, since a clerk looks at the paper while keying, and not at the screen.
const beep = () => {
  try {
    sound ??= new AudioContext();
    const tone = sound.createOscillator();
    tone.frequency.value = 220;
    tone.connect(sound.destination);
    tone.start();
    tone.stop(sound.currentTime + 0.15);
  } catch { sound = null; }
};

const say = (text) => {
  at('notice').textContent = text;
  at('notice').className = '';
};

const refuse = (text) => {
  say(text);
  at('notice').className = 'refused';
  beep();
};

const head = () => made('tr', {},
  made('th', {scope: 'col', className: 'number'}, 'Paper'),
  ...candidates.map(({number, name}) => made('th', {scope: 'col', title: spoken({number, name})}, made('b', {}, String(number)), ' ', made('span', {}, isolated(name)))),
  made('td', {className: 'end'}));

// The text of a field: a mark; a dash, if the cursor has passed it; or nothing yet.
const shownMark = (it, mark, column) => mark || (it.state === KEYED || column < it.column ? DASH : '');

const keyedCells = (it) => {
  if (it.text === 'D') return [made('td', {colSpan: width(), className: 'doubtful'}, 'D: doubtful')];
  return it.text.split(',').map((mark, column) => made('td', {}, shownMark(it, mark, column)));
};

const field = (column) => made('td', {}, made('input', {
  type: 'text', inputMode: 'numeric', autocomplete: 'off', spellcheck: false, maxLength: 3,
  ariaLabel: `Paper ${paper()}, candidate ${spoken(candidates[column])}`,
}));

const endCell = (inner) => made('td', {className: 'end'}, ...inner);

const endKey = () => {
  const key = made('span', {id: 'end-key', tabIndex: 0, role: 'button', ariaLabel: `End of paper ${paper()}: Enter goes on`}, 'Enter');
  key.addEventListener('click', () => take('Enter'));
  return key;
};

const rowAt = (index) => {
  const it = draft.rows[index];
  const isNow = index === draft.at;
  const number = made('th', {scope: 'row', className: 'number'}, index < 0 || index >= count() ? '' : String(index + 1));
  if (!it) return made('tr', {}, number, made('td', {colSpan: width()}), endCell([]));
  const cells = isNow && it.text !== 'D' ? candidates.map((_, column) => field(column)) : keyedCells(it);
  const classes = [isNow ? 'now' : it.state === KEYED || (it.state === EARLIER && index > draft.at) ? '' : 'open', (index + 1) % 10 === 0 ? 'tenth' : ''];
  const line = made('tr', {className: classes.join(' ').trim()}, number, ...cells, endCell(isNow ? [endKey()] : []));
  if (!isNow) line.addEventListener('click', () => take(() => goTo(index)));
  return line;
};

const inputs = () => [...at('rows').querySelectorAll('input')];

// What was drawn last: while it stays, fields alone are written anew.
let drawn = null;

const drawRows = () => {
  if (drawn && drawn.row === row() && drawn.at === draft.at && drawn.isDoubtful === isDoubtful()) return;
  drawn = {row: row(), at: draft.at, isDoubtful: isDoubtful()};
  at('rows').replaceChildren(...Array.from({length: ABOVE + 1 + BELOW}, (_, place) => rowAt(draft.at - ABOVE + place)));
};

const writeFields = () => {
  const marks = row().text.split(',');
  inputs().forEach((input, column) => {
    const isPending = pending?.what === 'mark' && column === row().column;
    input.value = isPending ? `.${pending.digits}` : marks[column];
    input.placeholder = shownMark(row(), '', column);
  });
  [...at('heads').rows[0].cells].forEach((cell, place) => cell.classList.toggle('here', place === row().column + 1 && !isBehind()));
};

const cursorText = () => {
  if (extra) return ['A key too many'];
  if (pending?.what === 'candidate') return [`To candidate ${pending.digits}_`];
  if (!isBehind()) return [`${candidates[row().column].number} `, isolated(candidates[row().column].name)];
  if (row().state === EARLIER) return [`Does paper ${paper()} say just this? Then Enter`];
  return [paper() < count() ? `Enter: on to paper ${paper() + 1}` : 'Enter: the last paper is keyed'];
};

const writeHeading = () => {
  at('paper').textContent = `Paper ${paper()} of ${draft.size}`;
  at('state').textContent = row().state === KEYED ? doneWord(draft) : '';
  at('cursor').replaceChildren(...cursorText());
  at('done').textContent = `${keyedIn(draft)} of ${draft.size} ${doneWord(draft)}`;
};

const putCursor = () => {
  const target = isBehind() ? at('end-key') : inputs()[row().column];
  target.focus({preventScroll: true});
  const isRead = draft.from && isBehind();
  (isRead ? at('read') : target).scrollIntoView({block: 'nearest', inline: 'center'});
};

const showPapers = () => {
  drawRows();
  writeFields();
  writeHeading();
  writeRead();
  putCursor();
};

// The columns have the room that there is. Their names are across, if a column has room for words, and else upright.
const fitColumns = () => {
  const rem = parseFloat(getComputedStyle(document.documentElement).fontSize) || 16;
  const room = document.body.clientWidth / rem - 9.5;
  const width = Math.min(Math.max(room / candidates.length, 1.75), 16);
  at('table').className = width >= 5.5 ? 'across' : 'upright';
  at('table').style.setProperty('--field', `${width}rem`);
};

// The heads, once for a batch.
const drawHeads = () => {
  drawn = null;
  at('heads').replaceChildren(head());
  at('which').replaceChildren(`Batch ${draft.batch}, round ${draft.round}, `, ...wardOf(draft));
};

"#;
