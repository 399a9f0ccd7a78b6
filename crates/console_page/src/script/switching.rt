//! Part of the script: how the console goes over to a new office.

/// Declares how the console has a new office take the place of the served one, and how it notices that this was done.
pub(crate) const SWITCHING: &str = r#"// ---- going over to a new office

const WAITS_FOR_NEW = 'The console is waiting for the new office. If this takes longer than a few seconds, check that serve is running.';

// The report of `mend` is shown until `switch` has a reply; `sent` is the name that was sent. The report of `switch` is `isServed` once the
// new office was seen.
const isSwitch = (report) => report?.kind === 'switch';
const isSwitched = (report) => isSwitch(report) && report.status === 0;
const isAwaited = (report) => !report?.isServed && (Boolean(report?.sent) || isSwitched(report));

// Returns whether the office has confirmed that it goes over to a new one, which wasn't seen yet.
const isGoingOver = () => isSwitched(stored('mended')) && isAwaited(stored('mended'));

const awaitSwitch = ({words: [, sent]}) => store('mended', {...stored('mended'), sent, next: undefined});

// Returns whether these receipts are those of the new office. It has as many as its report says, or more, and lacks an order that the report
// names. The old office has all of these orders.
const isOfNew = (told, receipts) => {
  const [, kept = 0, replaced = 0] = /^mended: (\d+) orders kept, (\d+) replaced, /m.exec(told) ?? [];
  const names = new Set(receipts.map(orderName));
  const lacks = [...told.matchAll(/^(?:left out|replaced) (\S+), /gm)].some(([, name]) => !names.has(name));
  return lacks && receipts.length >= Number(kept) + Number(replaced);
};

// Returns the report of an awaited switch if its office is the one that is served now, or null.
const doneSwitch = async () => {
  const report = stored('mended');
  if (!isAwaited(report)) return null;
  const {says} = await readNow('receipts');
  return says && isOfNew(report.told ?? '', says.receipts) ? report : null;
};

// Continues with the new office, as the officer asked for. The report is kept. The switch itself may still be stored as an order.
const acceptSwitch = (report) => {
  const [names, list] = [unfitting(lastSeen()).filter((it) => it !== 'mended' && stored(it).words?.[0] !== 'switch'), dropped];
  const texts = discardedTexts(names, list);
  const name = report.sent ?? report.name;
  acceptOffice(names, list);
  store('mended', {...report, name, kind: 'switch', isServed: true});
  tell('done', `The office is now ${name}.`, texts.length ? `What belonged to the previous office was discarded: ${listed(texts).join('')}.` : '');
};

// Reads everything again, since another window may have gone over to a new office.
const readAgain = () => {
  details.clear();
  office.text = '';
  refresh(true);
};

// Says that the new office is awaited, or that the outcome isn't known, unless the new office was seen meanwhile. If the officer discarded
// the switch, which wasn't accepted, it is forgotten.
const tellSwitch = ({open, given}) => {
  if (given && !open && stored('mended')?.sent) store('mended', {...stored('mended'), sent: undefined});
  const report = stored('mended');
  drawMending();
  if (!isAwaited(report)) return undefined;
  if (!report.sent) return tell('done', `Going over to ${report.name}.`, WAITS_FOR_NEW);
  return tell('refused', `It isn\u2019t known whether the office went over to ${report.sent}.`, 'Open Journal: it says how to find out.');
};

// Returns what an option of `switch` changes.
const changeOf = (option) => (option.startsWith('--with=') ? ['Put in place: ', made('code', {}, option.slice(7).replace(/ --id \S+/, ''))]
  : ['Left out: ', made('code', {}, option.slice(10))]);

// Returns the name that is suggested after another one, which is taken: town-5-2.db after town-5.db.
const nameAfter = (name) => name.replace(/(\.[^.]*)?$/, '-2$1');

const nextName = ({name, sent, next}) => next ?? nameAfter(sent ?? name);

const goOver = async () => {
  const {options} = stored('mended');
  const next = nextName(stored('mended'));
  if (!isFileName(next)) return tell('refused', 'The office didn\u2019t go over.', FILE_NAME_ADVICE);
  const isSure = await askFirst(`Go over to the new office ${next}?`, 'Go over', made('ul', {}, ...options.map((it) => made('li', {}, ...changeOf(it)))),
    'The new office is made once more, with these changes, from everything accepted until then. The tellers keep working, and nothing they sent is lost.',
    warningText('The old file stays as it is, and isn\u2019t served any more. The console can\u2019t go back to it.'));
  return isSure ? order(`go over to the new office ${next}`, ['switch', next, ...options]) : undefined;
};

const offerSwitch = (report, text) => [
  made('p', {}, text, ' To continue with the new office, choose ', made('b', {}, 'Go over to it'), ': a new office is made once more, with the same changes, '
    + 'from everything accepted until then. The tellers keep working, and nothing they sent is lost. The old file stays as it is, and isn\u2019t served any more.'),
  made('p', {className: 'row'}, nameField('next-name', nextName(report), (changed) => store('mended', {...stored('mended'), next: changed}))),
  made('p', {className: 'acts'}, button('Go over to it', goOver, {main: true, key: 'go-over'}))];

const switchedText = ({status, isServed}) => (isServed ? 'The office is now' : status === 0 ? 'Going over' : 'The office didn\u2019t go over');

// Returns what follows the report while it isn't known whether the office went over.
const afterLost = (report) => (current ? [] : [
  warningText(`It isn\u2019t known whether the office went over to ${report.sent}: there was no reply. If it did, the console says so within seconds. `
    + 'If the console doesn\u2019t, look into the folder of the office\u2019s file: the office went over if a file of the same name with -moved at the end is there.'),
  ...offerSwitch(report, 'If there is none, this office is as it was, and you can try again.')]);

// Returns what follows the report of `switch`.
const afterSwitch = (report) => {
  const {name, status, sent, isServed} = report;
  if (isServed) return [made('p', {}, sent ? 'The report above is the earlier one, since that of the new office was lost. ' : 'Read every line above. ',
    `Make a copy soon. If you type orders in a terminal, type them on ${name} from now on.`)];
  return status === 0 ? [made('p', {}, WAITS_FOR_NEW)] : offerSwitch(report, 'This office is as it was.');
};

"#;
