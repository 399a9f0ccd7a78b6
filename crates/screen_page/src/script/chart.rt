//! Part of the script: the chart of a stage.

/// Declares the chart of a stage, whose bars move from stage to stage.
pub(crate) const CHART: &str = r#"// ---- the chart of a stage

// With more candidates than these, the chart has two columns.
const ONE_COLUMN = 12;

// The chart that is shown, and the elements of each candidate's row.
const chart = {element: null, key: '', rows: new Map()};

// Returns a value as the sheet has it, with small decimals.
const figure = (value) => [value.split('.')[0], made('small', {}, `.${value.split('.')[1]}`)];

const shareOf = (units, most) => `${98 * units / most}%`;

// Returns the most votes of anybody at any stage, or the quota if that is more.
const mostIn = ({quota, stages}) => Math.max(unitsOf(quota), ...stages.flatMap(({rows}) => rows.map((it) => it.units)));

// Returns the line at the quota; at the head of a column it has its name.
const quotaLine = ({quota}, most, isHead) => {
  const units = unitsOf(quota), line = made('i', {className: units * 2 > most ? 'quota left' : 'quota'}, isHead && `Quota ${quota}`);
  line.style.left = shareOf(units, most);
  return line;
};

const rowOf = (it, count, most) => {
  const bar = made('span', {className: 'bar'}), votes = made('span', {className: 'votes'});
  const change = made('span', {className: 'change'}), standing = made('span', {className: 'standing'});
  const track = made('span', {className: 'track', ariaHidden: 'true'}, bar, quotaLine(count, most));
  const row = made('li', {}, made('b', {className: 'number'}, String(it.candidate)), made('span', {className: 'name'}, isolated(it.name)), track,
    votes, change, standing);
  chart.rows.set(it.candidate, {row, bar, votes, change, standing});
  return row;
};

// Makes the chart of a ward, with the bars as they are before a stage.
const makeChart = (count, key, part) => {
  const most = mostIn(count), {rows} = count.stages[0];
  const columns = rows.length > ONE_COLUMN ? 2 : 1, length = Math.ceil(rows.length / columns);
  Object.assign(chart, {key, rows: new Map()});
  const columnFrom = (first) => made('div', {className: 'column'}, made('p', {className: 'head'}, made('span', {className: 'track'},
    quotaLine(count, most, true))), made('ol', {}, ...rows.slice(first, first + length).map((it) => rowOf(it, count, most))));
  chart.element = made('div', {id: 'bars', className: columns === 2 ? 'two' : 'one'}, ...[0, length].slice(0, columns).map(columnFrom));
  chart.element.style.setProperty('--rows', String(length));
  // The width of a figure, in digits: those before the point, and six small signs, which are as wide as four digits. In some fonts bold
  // digits are a tenth wider. A change has a sign, but isn't bold.
  const digits = String(Math.floor(most / 100000)).length;
  chart.element.style.setProperty('--votes', `${1.1 * (digits + 4)}ch`);
  chart.element.style.setProperty('--change', `${0.75 * (digits + 5.4)}ch`);
  for (const it of rows) {
    const units = part > 1 ? votesAt(count.stages[part - 2], it.candidate) : 0;
    chart.rows.get(it.candidate).bar.style.width = shareOf(units, most);
  }
};

const changeOf = (units, before) => {
  const by = Math.abs(units - before), text = `${Math.floor(by / 100000)}.${String(by % 100000).padStart(5, '0')}`;
  return by ? [units > before ? '+' : '\u2212', ...figure(text)] : [];
};

const standingOf = ({candidate, letter}, count, part) => {
  const {stages} = count;
  if (letter === '-') return part === stages.length && isFinished(count) ? ['Not elected'] : [];
  const word = letter === 'x' ? 'Excluded' : 'Elected', stage = settledAt(stages, candidate);
  return stage === part ? [made('b', {}, word)] : [word, ' ', made('small', {}, `stage ${stage}`)];
};

// Moves the bars to where they are after a stage.
const moveBars = (count, part) => {
  const {stages} = count, most = mostIn(count), before = stages[part - 2];
  for (const it of stages[part - 1].rows) {
    const {row, bar, votes, change, standing} = chart.rows.get(it.candidate);
    row.className = {E: 'elected', e: 'elected', x: 'excluded', '-': 'continuing'}[it.letter];
    bar.style.width = shareOf(it.units, most);
    fill(votes, ...figure(it.votes));
    fill(change, ...(before ? changeOf(it.units, votesAt(before, it.candidate)) : []));
    fill(standing, ...standingOf(it, count, part));
  }
};

// ---- what a stage did

const actionText = ({action, candidate, rows}) => {
  const who = candidate ? withNumber(rows.find((it) => it.candidate === candidate)) : '';
  if (action === 'first') return ['first preferences'];
  if (action === 'surplus') return ['the surplus of ', who, ' is transferred'];
  if (action === 'exclusion') return [who, ' is excluded, and the papers go to their next preferences'];
  return [who, ' is excluded, and the last seats are filled'];
};

const tieText = ({isSurplus, tied, settled}, isDue) => {
  const names = listed(tied.map(withNumber));
  if (settled) return ['There was a tie between ', ...names, `. The votes at stage ${settled} settled it.`];
  if (!isDue) return ['There was a tie between ', ...names, ' at every stage. It was settled by lot.'];
  return [...names, ` are tied at every stage. A lot decides ${isSurplus ? 'whose surplus is transferred first' : 'who is excluded'}.`];
};

const isFinished = ({seats, stages}) => stages.length > 0 && stages.at(-1).rows.filter((it) => /[Ee]/.test(it.letter)).length === seats;

// Returns what there is to say of a stage: a tie that was settled for it, who is elected at it, and what comes next.
const notesOf = (count, part) => {
  const {stages, isDeclared} = count, {rows} = stages[part - 1];
  const before = part > 1 ? tieAfter(count, stages.slice(0, part - 1)) : null, elected = rows.filter((it) => it.letter === 'E');
  const due = part === stages.length && !isDeclared ? tieAfter(count, stages) : null;
  return some([
    before && made('p', {}, ...tieText(before, false)),
    elected.length > 0 && made('p', {}, made('b', {}, 'Elected: '), ...listed(elected.map(withNumber))),
    due?.settled === 0 && made('p', {}, ...tieText(due, true)),
    part === stages.length && !isDeclared && isFinished(count) && made('p', {}, 'All seats are filled. The declaration follows.'),
  ]);
};

const figuresOf = ({seats, valid, quota, rejected}) => [
  ['Seats', String(seats)], ['Valid papers', valid.toLocaleString('en')],
  ['Rejected papers', rejected.reduce((sum, it) => sum + it, 0).toLocaleString('en')], ['Quota', quota],
];

const drawStage = (ward, count, part) => {
  const {stages, isDeclared} = count, stage = stages[part - 1], view = at('view');
  const key = JSON.stringify([ward.ward, count.quota, stages[0].rows]), isNew = chart.key !== key || !view.contains(chart.element);
  if (isNew) makeChart(count, key, part);
  const place = part < stages.length || isDeclared ? `Stage ${part} of ${stages.length}` : `Stage ${part}`;
  const what = made('div', {id: 'what'}, made('h2', {}, `${place}: `, ...actionText(stage)), ...notesOf(count, part));
  const sums = [['Non-transferable', stage.sums[0]], ['Lost by fractions', stage.sums[1]]];
  const figures = made('p', {id: 'figures'}, ...[...figuresOf(count), ...sums].map(([name, value]) => made('span', {}, `${name} `, made('b', {}, value))));
  if (isNew) fill(view, what, chart.element, figures);
  else [view.firstChild, view.lastChild].forEach((it, which) => it.replaceWith([what, figures][which]));
  fit(what);
  fitNames(chart.element);
  moveBars(count, part);
};

"#;
