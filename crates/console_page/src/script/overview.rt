//! Part of the script: the overview of all wards.

/// Declares the overview: what to do next, how far each ward has got, and which tellers still have to key.
pub(crate) const OVERVIEW: &str = r#"// ---- the overview

const COPY_AFTER = 45 * 60000;
const MOST_STEPS = 8;
// If there are more wards than this, each of them has one line.
const MOST_ROOMY = 12;

const expectedOf = (ward) => stored(`expected ${ward}`, 0);

// Returns what a ward needs next: how urgent it is, its text, the section for it, and the text of the button.
const stepOf = (ward, next) => {
  const {phase} = ward;
  if (phase === 'nominations') return {rank: 5,
    text: ward.candidates ? `${many(ward.candidates, 'candidate')} so far. Close nominations when all have been added` : 'Add candidates', to: 'nominations',
    button: 'Nominations'};
  if (phase === 'declared') return {rank: 9, text: 'Declared', to: 'count', button: 'Result', isDone: true};
  if (phase === 'sealed' && isUncontested(ward)) return {rank: 4, text: 'Uncontested: declare the result', to: 'count', button: 'Declare'};
  if (phase === 'sealed' && next?.step === 'lot') return {rank: 2, text: `Stage ${next.stage} needs a lot`, to: 'count', button: 'Draw lot', isUrgent: true};
  if (phase === 'sealed' && next?.step === 'declaration') return {rank: 4, text: 'Count finished: declare the result', to: 'count', button: 'Declare'};
  if (phase === 'sealed') return {rank: 4, text: next?.stage ? `Count stage ${next.stage}` : 'Count the next stage', to: 'count', button: 'Count'};
  if (ward.differing) return {rank: 1, text: `${batchesOf(ward.differing)} ${ward.differing === 1 ? 'differs' : 'differ'}: key again, or add a third teller`,
    to: 'batches', button: 'Resolve', isUrgent: true};
  if (ward.doubtful_open) return {rank: 2, text: `${many(ward.doubtful_open, 'doubtful paper')} to judge`, to: 'doubtful', button: 'Judge', isUrgent: true};
  if (!ward.batches) return {rank: 5, text: 'Give out batches', to: 'batches', button: 'Give out'};
  const waiting = ward.batches - ward.taken;
  if (waiting) return {rank: 8, text: `${batchesOf(waiting)} being keyed`, to: 'batches', button: 'Batches', isWaiting: true};
  const expected = expectedOf(ward.ward);
  const left = expected - (papersFor(ward)?.givenOut ?? expected);
  if (left > 0) return {rank: 5, text: `Give out the remaining ${papersOf(left)}`, to: 'batches', button: 'Give out'};
  const twins = twinsIn(detailOf(ward).batches ?? []);
  if (twins.length) return {rank: 2, text: `${twinsText(twins)}: check the piles before you seal the ward`, to: 'count', button: 'Check', isUrgent: true};
  return {rank: 3, text: 'All batches agreed, all doubtful papers judged: seal the ward', to: 'count', button: 'Seal'};
};

const copyStep = () => {
  const copy = stored('copy');
  if (copy && Date.now() - copy.at < COPY_AFTER) return null;
  const text = copy ? `Last copy: ${ago(copy.at)}` : 'No copy made from this browser yet';
  return made('li', {}, made('span', {className: 'what'}, text), button('Make a copy', () => go('journal'), {key: 'step copy'}));
};

const stepEntry = ({ward, step}) => made('li', {className: step.isUrgent ? 'urgent' : ''},
  made('span', {className: 'what'}, made('b', {}, wardName(ward)), ': ', step.text),
  button(step.button, () => go(step.to, ward.ward), {main: true, key: `step ${step.to} ${ward.ward}`, ariaLabel: `${step.button}: ward ${ward.ward}`}));

// A ward whose batches differ may also have doubtful papers to judge.
const alsoDue = ({ward}) => (ward.differing && ward.doubtful_open
  ? [{ward, step: {rank: 2, text: `${many(ward.doubtful_open, 'doubtful paper')} to judge`, to: 'doubtful', button: 'Judge', isUrgent: true}}] : []);

const drawSteps = (steps) => {
  const due = steps.flatMap((it) => [it, ...alsoDue(it)]).filter(({step}) => !step.isDone && !step.isWaiting).sort((one, other) =>
    one.step.rank - other.step.rank || one.ward.ward - other.ward.ward);
  const waiting = steps.filter(({step}) => step.isWaiting);
  const shown = due.slice(0, MOST_STEPS).map(stepEntry);
  if (due.length > MOST_STEPS) shown.push(made('li', {className: 'quiet'}, `And ${many(due.length - MOST_STEPS, 'more step')}: see the list of wards below`));
  if (!due.length && waiting.length) shown.push(made('li', {className: 'quiet'},
    `${batchesOf(waiting.reduce((sum, {ward}) => sum + ward.batches - ward.taken, 0))} being keyed. You have nothing to do for now.`));
  if (!steps.length) shown.push(made('li', {}, made('span', {className: 'what'}, 'Add the wards of this election.'),
    button('Add a ward', () => go('nominations'), {main: true, key: 'step none'})));
  if (steps.length && steps.every(({step}) => step.isDone)) shown.push(made('li', {className: 'quiet'},
    'All wards are declared. Make a final copy and download the journal.'));
  fill(at('steps'), shown, steps.length ? copyStep() : '');
};

// Returns the field for the number of papers expected in a ward. The browser stores it.
const expectedField = (ward) => {
  const field = made('input', {
    type: 'text', inputMode: 'numeric', size: 6, autocomplete: 'off', defaultValue: String(expectedOf(ward.ward) || ''),
      ariaLabel: `Papers expected in ward ${ward.ward}`,
    data: {key: `expected ${ward.ward}`},
  });
  field.addEventListener('input', () => {
    if (numberIn(field.value, 999999)) store(`expected ${ward.ward}`, numberIn(field.value, 999999)); else unstore(`expected ${ward.ward}`);
    compareExpected(field, ward);
  });
  compareExpected(field, ward);
  return field;
};

const compareExpected = (field, ward) => {
  const expected = expectedOf(ward.ward);
  field.classList.toggle('over', expected > 0 && expected < (papersFor(ward)?.givenOut ?? 0));
};

// Returns the cell of a figure. One that isn't read yet has an ellipsis.
const figure = (text, value, className = '') =>
  made('td', {className: `figure ${className}`.trim(), data: {label: text}}, value === null ? '\u2026' : value.toLocaleString('en'));

const differing = (count) => figure(noun(count, 'differing batch', 'differing batches'), count, count ? 'bad' : '');
const toJudge = (count) => figure(noun(count, 'paper to judge', 'papers to judge'), count, count ? 'bad' : '');

const phaseWord = (ward) => (ward.phase === 'sealed' && isUncontested(ward) ? 'Uncontested' : PHASES[ward.phase]);

// Returns the cell with the phase of a ward and, if there is room, its progress.
const phaseCell = (ward) => {
  const keyed = ward.phase === 'keying' && ward.batches ? `: ${ward.taken} of ${batchesOf(ward.batches)} agreed` : '';
  const counted = ward.phase === 'sealed' && !isUncontested(ward) ? `: ${many(ward.stages, 'stage')} counted` : '';
  return made('td', {className: 'phase', data: {label: ''}}, phaseWord(ward), made('span', {}, keyed || counted));
};

const wardRow = ({ward, step}) => {
  const isKeyed = ward.phase === 'keying';
  const isPolled = ward.phase !== 'nominations' && !isUncontested(ward);
  const dash = (text) => made('td', {className: 'figure none', data: {label: text}}, '\u2013');
  const papers = papersFor(ward);
  const cell = (text, member) => (isPolled ? figure(text, papers ? papers[member] : null) : dash(text));
  return made('tr', {className: step.isUrgent ? 'urgent' : ''},
    made('th', {scope: 'row'}, wardName(ward), made('small', {className: 'phase-here'}, phaseWord(ward))),
    phaseCell(ward),
    made('td', {className: expectedOf(ward.ward) || ward.phase === 'nominations' || isKeyed ? 'figure' : 'figure none', data: {label: 'expected'}},
      ward.phase === 'nominations' || isKeyed ? expectedField(ward) : expectedOf(ward.ward) && isPolled ? expectedOf(ward.ward).toLocaleString('en') : '\u2013'),
    cell('given out', 'givenOut'), cell('keyed', 'keyed'), cell('agreed', 'agreed'),
    isKeyed ? differing(ward.differing) : dash('differing batches'), isKeyed ? toJudge(ward.doubtful_open) : dash('papers to judge'),
    made('td', {className: 'next', data: {label: ''}},
      button(step.button, () => go(step.to, ward.ward), {key: `row ${ward.ward}`, ariaLabel: `${step.button}: ward ${ward.ward}`}), made('span', {}, step.text)));
};

const WARD_HEADS = ['Ward', 'Phase', 'Papers expected', 'Given out', 'Keyed', 'Agreed', 'Differing batches', 'Papers to judge', 'Next step'];

const sumRow = () => {
  const sum = (member) => office.wards.reduce((total, it) => total + it[member], 0);
  const polled = office.wards.filter((it) => it.phase !== 'nominations' && !isUncontested(it));
  const expected = polled.every((it) => expectedOf(it.ward)) ? polled.reduce((total, it) => total + expectedOf(it.ward), 0) : 0;
  const read = polled.map(papersFor);
  const papers = (member) => (read.includes(null) ? null : read.reduce((total, it) => total + it[member], 0));
  return made('tr', {className: 'sum'}, made('th', {scope: 'row'}, 'All wards'), made('td', {}, ''), figure('expected', expected || '\u2013'),
    figure('given out', papers('givenOut')), figure('keyed', papers('keyed')), figure('agreed', papers('agreed')),
    differing(sum('differing')), toJudge(sum('doubtful_open')), made('td', {}, ''));
};

const MOST_TELLERS = 40;

const tellerRow = ({clerk, batches}) => row(made('th', {scope: 'row'}, `Teller ${clerk}`), numeric(batches.length), firstOf(batches));

const drawWaiting = () => {
  const tellers = tellersWaiting();
  const isUnread = office.wards.some((it) => it.phase === 'keying' && !papersFor(it));
  const rows = tellers.slice(0, MOST_TELLERS).map(tellerRow);
  const more = tellers.length > MOST_TELLERS ? made('p', {}, `And ${many(tellers.length - MOST_TELLERS, 'more teller')}`) : '';
  fill(at('waiting'), tellers.length ? table({className: 'plain'}, ['Teller', 'Batches', 'Batch numbers'], rows) : isUnread ? '' : made('p', {}, 'No batch is waiting for a teller.'),
    isUnread ? made('p', {}, 'Reading the batches\u2026') : more);
};

// Draws what is known of each ward. What isn't up to date is read by and by.
DRAW.overview = async () => {
  const steps = office.wards.map((ward) => ({ward, step: stepOf(ward, nextOf(ward))}));
  drawSteps(steps);
  fill(at('wards'), steps.length
    ? table({className: steps.length > MOST_ROOMY ? 'wards close' : 'wards'}, WARD_HEADS, [...steps.map(wardRow), ...(steps.length > 1 ? [sumRow()] : [])])
    : noWards());
  drawWaiting();
};

"#;
