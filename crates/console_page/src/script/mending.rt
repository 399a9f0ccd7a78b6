//! Part of the script: orders that are put right in a new office.

/// Declares how orders are left out or replaced in a new office, and how its report is shown.
pub(crate) const MENDING: &str = r#"// ---- putting orders right

// The orders of the office that can be replaced, each with what follows its subject. All others can only be left out.
const REPLACEABLE = {
  ward: 'The number of seats, and the name in double quotes.',
  candidate: 'The name in double quotes.',
  batch: 'The ward, the number of papers, and the two tellers.',
  third: 'The third teller.',
  judge: 'accept: and the mark of each candidate in order, with commas between, such as accept:1,,2; or reject: and 3 (no official mark), 4 (voter identifiable) or 5 (void for uncertainty).',
  lot: 'The number of the candidate drawn.',
};

// Returns how `mend` names an order: a teller's by the teller and the id.
const orderName = ({actor, id}) => (actor ? `${actor}:${id}` : id);
const senderOf = ({actor}) => (actor ? `Teller ${actor}` : 'Office');
const isSame = (one, other) => orderName(one) === orderName(other);

// What is to be put right: the name of the new office's file, and the orders, each with whether another one replaces it, and with the words
// that follow the subject of that one.
const wishes = () => stored('mending', {name: '', list: []});
const storeWishes = (changed) => store('mending', {...wishes(), ...changed});
const storeWish = (it, changed) => storeWishes({list: wishes().list.map((each) => (isSame(each, it) ? {...each, ...changed} : each))});

// Returns the words of a line of the journal. What is in quotes is part of one word.
const wordsIn = (line) => line.match(/(?:"[^"]*"|'[^']*'|[^\s"'])+/g) ?? [];

// Returns the words that follow the subject of an order in the journal, without its id, or an empty text.
const wordsAfter = (journal, {id, subject}) => {
  for (const line of journal.split('\n').filter((it) => it.startsWith(`${subject} `))) {
    const words = wordsIn(line);
    const place = words.findIndex((it, at) => it === `--id=${id}` || (it === '--id' && words[at + 1] === id));
    if (place < 0) continue;
    words.splice(place, words[place] === '--id' ? 2 : 1);
    return words.slice(subject.split(' ').length).join(' ');
  }
  return '';
};

const restOf = (it) => wishes().list.find((each) => isSame(each, it))?.rest;

// Adds an order to those that are to be put right.
const putRight = async (it, isReplaceable) => {
  const {name, list} = wishes();
  if (!list.some((each) => isSame(each, it))) {
    storeWishes({name: name || `mended-${timeText()}.db`, list: [...list, {...it, isReplaceable, isReplaced: false, rest: ''}]});
  }
  await draw();
  at('mending').scrollIntoView({block: 'nearest'});
  if (!isReplaceable || restOf(it)) return;
  const {output, why} = await outputOnce('journal');
  if (why) tell('refused', 'The words of the order couldn\u2019t be read. To replace it, type them.', why);
  else if (!restOf(it)) storeWish(it, {rest: wordsAfter(output, it)});
  await draw();
};

const dropWish = (it) => {
  storeWishes({list: wishes().list.filter((each) => !isSame(each, it))});
  draw();
};

// Returns an order as a line of a script. The id is after the order's name, since a name that begins with a hyphen must be last.
const lineOf = ({subject, rest}, id) => {
  const [kind, ...numbers] = subject.split(' ');
  return [kind, '--id', id, ...numbers, rest.trim()].join(' ');
};

const wishText = (it) => [made('b', {}, `${senderOf(it)}, ${it.id}: ${it.subject}`), ` (${it.reply}): `,
  ...(it.isReplaced ? ['replaced by ', made('code', {}, `${it.subject} ${it.rest.trim()}`)] : ['left out'])];

const choiceOf = (it, isReplaced, text) => {
  const key = `${isReplaced ? 'replace' : 'leave'} ${orderName(it)}`;
  const input = made('input', {type: 'radio', name: `wish ${orderName(it)}`, defaultChecked: it.isReplaced === isReplaced, data: {key}});
  input.addEventListener('change', () => { storeWish(it, {isReplaced}); draw(); });
  return made('label', {className: 'choice'}, input, ' ', text);
};

const restField = (it) => {
  const field = made('input', {type: 'text', autocomplete: 'off', spellcheck: false, className: 'long', defaultValue: it.rest, data: {key: `rest ${orderName(it)}`},
    ariaLabel: `What follows ${it.subject}`});
  field.addEventListener('input', () => storeWish(it, {rest: field.value}));
  return [made('p', {className: 'row'}, made('label', {}, made('code', {}, it.subject), ' ', field)),
    made('p', {className: 'hint'}, REPLACEABLE[it.subject.split(' ')[0]])];
};

const wishEntry = (it) => made('fieldset', {}, made('legend', {}, `${senderOf(it)}, ${it.id}: ${it.subject}`), made('p', {}, it.reply),
  choiceOf(it, false, 'Leave it out, with whatever depended on it'),
  it.isReplaceable ? choiceOf(it, true, 'Replace it by another order') : made('p', {className: 'hint'}, it.actor ? 'The teller keys the batch again in the new office.'
    : 'This order can\u2019t be replaced.'),
  it.isReplaceable && it.isReplaced ? restField(it) : '',
  made('p', {className: 'acts'}, button('Remove', () => dropWish(it), {key: `drop ${orderName(it)}`, ariaLabel: `Don\u2019t put ${it.subject} right`})));

const isFileName = (name) => name.length > 0 && name.length < 200 && !/^[-.]|[/\u0000-\u001f]/.test(name);

const FILE_NAME_ADVICE = 'Enter a name for the file of the new office, such as town-2.db. It has no slash, and doesn\u2019t begin with a hyphen or a dot.';

const nameField = (key, name, storeName) => {
  const field = made('input', {type: 'text', autocomplete: 'off', spellcheck: false, className: 'long', defaultValue: name, data: {key}});
  field.addEventListener('input', () => storeName(field.value.trim()));
  return made('label', {}, 'File of the new office ', field);
};

// Makes the new office. This one is only read.
const makeMended = async () => {
  const {name, list} = wishes();
  if (!isFileName(name)) return tell('refused', 'No office was made.', FILE_NAME_ADVICE);
  if (list.some((it) => it.isReplaced && !it.rest.trim())) return tell('refused', 'No office was made.', 'Enter the order that takes the place of the other one.');
  const isSure = await askFirst(`Make the new office ${name}?`, 'Make it', made('ul', {}, ...list.map((it) => made('li', {}, ...wishText(it)))),
    'This office isn\u2019t changed. The report says what else the new office lacks: read it before you do anything with the new office.');
  if (!isSure) return undefined;
  const options = list.map((it) => (it.isReplaced ? `--with=${lineOf(it, newId())}` : `--without=${orderName(it)}`));
  return order(`make the new office ${name}`, ['mend', name, ...options]);
};

// Stores what the program printed about a new office, so that it is shown until the officer closes it. The next one needs another name.
// `told` is the last report with these options that has the orders which the new office lacks.
const storeMended = ({words: [kind, name, ...options]}, {status, output, errors}) => {
  const told = kind === 'mend' || status === 0 ? output : stored('mended')?.told;
  store('mended', {at: Date.now(), kind, name, options, status, output, errors, told});
  if (status === 0 && wishes().name === name) storeWishes({name: `mended-${timeText()}.db`});
};

const closeMended = () => {
  unstore('mended');
  draw();
};

const forgetWishes = () => {
  unstore('mending');
  draw();
};

// Returns how many orders were accepted here after a new office was made from the journal. Its last line has the number of those before.
const acceptedSince = (output) => {
  const counts = /^mended: (\d+) orders kept, (\d+) replaced, (\d+) left out$/m.exec(output)?.slice(1).map(Number);
  return counts ? office.receipts - counts.reduce((sum, it) => sum + it, 0) : 0;
};

const sinceWarning = (since) => (since > 0 ? warningText(`The new office lacks what was accepted here since it was made: ${many(since, 'order')}. `,
  made('b', {}, 'Go over to it'), ` includes ${since === 1 ? 'it' : 'them'}.`) : null);

// A new office may have been made although a fault followed: its log couldn't be merged into its file.
const madeText = ({status, output}) => (status === 0 ? 'New office' : /^mended: /m.test(output) ? 'New office, with a fault' : 'Not made');

// Returns what follows the report of `mend`.
const afterMended = (report) => {
  const {status, output, errors} = report;
  if (status === 0) return [sinceWarning(acceptedSince(output)), ...offerSwitch(report, 'This office is as it was. Read every line above first.')];
  return [explainedError(errors).fault === 109
    ? made('p', {}, 'If the reply to this order was lost before, the office may have been made then. Make it again under another name to see its report.') : ''];
};

const drawReport = (report) => {
  const {name, output, errors, at: when} = report;
  const text = made('pre', {}, shownName(output + errors));
  return [
    made('p', {className: 'said'}, `${isSwitch(report) ? switchedText(report) : madeText(report)}: ${name}, ${clock(when)}`), text,
    ...(isAwaited(report) && report.sent ? afterLost(report) : isSwitch(report) ? afterSwitch(report) : afterMended(report)),
    made('p', {className: 'acts'}, button('Print report', () => printText(`New office ${name}`, text.cloneNode(true)), {key: 'print-mended'}),
      button('Close report', closeMended, {key: 'close-mended'})),
  ];
};

const drawWishes = ({name, list}) => [
  made('p', {}, 'A new office is made from the accepted orders of this one, in a file next to it. This office isn\u2019t changed, and tellers can continue. '
    + 'You can put several orders right at once: choose them from the list below.'),
  ...list.map(wishEntry), made('p', {className: 'row'}, nameField('mended-name', name, (changed) => storeWishes({name: changed}))),
  made('p', {className: 'acts'}, button('Make the new office', makeMended, {main: true, key: 'make-mended'}), button('Cancel', forgetWishes, {key: 'forget-wishes'})),
];

const drawMending = () => {
  const report = stored('mended');
  const {name, list} = wishes();
  fill(at('mending'), report || list.length ? made('div', {className: 'case'}, made('h3', {}, 'Put right in a new office'), ...(report ? drawReport(report) : []),
    ...(list.length ? drawWishes({name, list}) : [])) : '');
};

// Returns the button that puts an accepted order right.
const putRightButton = (it, receipts) => {
  const isReplaceable = it.subject.split(' ')[0] in REPLACEABLE && receipts.filter(({subject}) => subject === it.subject).length === 1;
  return button('Put right', () => putRight(it, isReplaceable), {key: `right ${orderName(it)}`, ariaLabel: `Put right ${it.subject}`});
};

"#;
