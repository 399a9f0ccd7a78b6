//! Part of the script: wards and candidates.

/// Declares how wards and candidates are added, including candidates from a file, and how nominations are closed.
pub(crate) const NOMINATIONS: &str = r#"// ---- wards and candidates

const MOST_CANDIDATES = 30;
const SHOWN_RECORDS = 60;
const NAME_BYTES = 120;

const isName = (name) => name.length > 0 && new TextEncoder().encode(name).length <= NAME_BYTES && !/[\u0000-\u001f\u007f]/.test(name);

// The file of candidates that was dropped, or null: its name, what is wrong with it, and its records, each with its fault.
let dropped = null;

const faultOf = ([ward, candidate, name, ...more], seen, known) => {
  const key = `${ward} ${candidate}`;
  const isSeen = seen.has(key);
  seen.add(key);
  if (name === undefined || more.length) return 'The line has too many or too few commas';
  if (!/^[1-9][0-9]?$/.test(ward) || !wardAt(Number(ward))) return 'There is no such ward';
  if (wardAt(Number(ward)).phase !== 'nominations') return 'Nominations for this ward are closed';
  if (!/^[1-9][0-9]?$/.test(candidate) || Number(candidate) > MOST_CANDIDATES) return 'The number must be 1 to 30';
  if (isSeen) return 'This number is in the file twice';
  if (!isName(name)) return 'The name must have 1 to 120 bytes';
  const other = known.get(key);
  return other === undefined || other === name ? '' : `This number belongs to ${spokenName(other)}`;
};

// Returns the names of the candidates that the wards of a file already have, by ward and number.
const knownIn = async (records) => {
  const wards = [...new Set(records.map(([ward]) => Number(ward)))].filter((it) => wardAt(it));
  const lists = await Promise.all(wards.map(async (ward) => (await readWard(ward)).says?.candidates.map((it) => [`${ward} ${it.candidate}`, it.name]) ?? []));
  return new Map(lists.flat());
};

const csvField = (text) => (/[",\r\n]/.test(text) ? `"${text.replaceAll('"', '""')}"` : text);

const dropCandidates = async ([file]) => {
  if (!file) return;
  const text = await textOf(file);
  if (text === null) return tell('refused', `${file.name} isn\u2019t UTF-8. Nothing was added.`, 'Save the file as CSV (UTF-8), then drop it again.');
  const [header, ...records] = csvRows(text);
  const seen = new Set();
  const isHeaded = String(header) === 'ward,candidate,name';
  await refresh();
  const known = await knownIn(records);
  dropped = {
    name: file.name, fault: isHeaded ? '' : 'The first line must be ward,candidate,name. Correct the file, then drop it again.',
    records: records.map((record, place) => ({record, line: place + 2, fault: faultOf(record, seen, known), isThere: known.has(`${record[0]} ${record[1]}`)})),
  };
  drawPreview();
  at('preview').scrollIntoView({block: 'nearest'});
};

// Returns the records to send. Candidates who were already added, perhaps from this file, are left out.
const newRecords = () => dropped.records.filter((it) => !it.isThere);

const sendDropped = async () => {
  const records = newRecords();
  const text = ['ward,candidate,name', ...records.map(({record}) => record.map(csvField).join(','))].map((it) => `${it}\n`).join('');
  const title = `add ${many(records.length, 'candidate')} from ${dropped.name}`;
  const printed = await order(title, ['import-candidates', 'candidates.csv', '--id', newId()], {'candidates.csv': text});
  if (isAccepted(printed)) dropped = null;
  drawPreview();
};

const recordRow = (it) => {
  const [ward = '', candidate = '', name] = it.record;
  return made('tr', {className: it.fault ? 'urgent' : ''}, numeric(it.line), numeric(ward), numeric(candidate), made('td', {}, isolated(name)),
    made('td', {}, it.fault || (it.isThere ? 'Already added' : 'Will be added')));
};

const drawPreview = () => {
  at('preview').hidden = !dropped;
  if (!dropped) return fill(at('preview'));
  const {records, fault, name} = dropped;
  const wrong = records.filter((it) => it.fault);
  const shown = [...wrong, ...records.filter((it) => !it.fault)].slice(0, SHOWN_RECORDS);
  const more = records.length > shown.length ? made('p', {}, `And ${many(records.length - shown.length, 'more line')}`) : '';
  const count = newRecords().length;
  const sends = !fault && !wrong.length && count > 0;
  const putAway = () => { dropped = null; drawPreview(); };
  return fill(at('preview'), made('h3', {}, `${name}: ${many(records.length, 'candidate')}`), fault ? warningText(fault) : '',
    wrong.length ? warningText(`${many(wrong.length, 'line')} can\u2019t be added. Correct the file, then drop it again.`) : '',
    made('div', {className: 'acts'},
      button(`Add ${many(count, 'candidate')}`, sendDropped, {main: true, key: 'send-file', disabled: !sends}),
      button('Discard file', putAway, {key: 'put-away'})),
    table({className: 'plain'}, ['Line', 'Ward', 'Number', 'Name', ''], shown.map(recordRow)), more);
};

const withdraw = async (ward, each) => {
  const isSure = await askFirst(['Withdraw ', withNumber(each), '?'], 'Withdraw', made('p', {}, wardName(ward)),
    'The number becomes free. You can add the candidate again until nominations close.');
  if (isSure) await orderWithId(`withdraw candidate ${each.candidate} ${spokenName(each.name)} from ward ${ward.ward}`, ['withdraw', ward.ward, each.candidate]);
};

const closeNominations = async (ward, candidates) => {
  const isPolled = candidates.length > ward.seats;
  const outcome = isPolled ? 'There are more candidates than seats, so there will be a poll.'
    : `There are no more candidates than seats, so there will be no poll: ${candidates.length === 1 ? 'the only candidate is' : 'all candidates are'} elected.`;
  const isSure = await askFirst(['Close nominations for ', wardName(ward), '?'], 'Close nominations',
    made('p', {}, `${many(candidates.length, 'candidate')} for ${many(ward.seats, 'seat')}. Read the names aloud:`),
    made('ol', {className: 'names'}, ...candidates.map((it) => made('li', {}, withNumber(it)))), made('p', {}, made('b', {}, outcome)),
    warningText('After this, no candidate can be added or withdrawn. This can\u2019t be undone.'));
  if (isSure) await orderWithId(`close nominations for ward ${ward.ward}`, ['close', ward.ward]);
};

const candidateRow = (ward, isOpen) => (each) => row(numeric(each.candidate), isolated(each.name),
  isOpen ? button('Withdraw', () => withdraw(ward, each),
    {key: `withdraw ${each.candidate}`, ariaLabel: `Withdraw candidate ${each.candidate} ${spokenName(each.name)}`}) : '');

const addCandidate = async (event) => {
  event.preventDefault();
  const number = numberIn(at('candidate-number').value, MOST_CANDIDATES);
  const name = at('candidate-name').value.trim();
  if (!number || !isName(name)) return tell('refused', 'The candidate wasn\u2019t added.', 'Enter a number from 1 to 30, and a name of 1 to 120 bytes.');
  const printed = await orderWithId(`add candidate ${number} ${spokenName(name)} to ward ${chosen}`, ['candidate', chosen, number, name]);
  if (!isAccepted(printed)) return undefined;
  clearInputs('candidate-number', 'candidate-name');
  await draw();
  return at('candidate-name').focus();
};

const addWard = async (event) => {
  event.preventDefault();
  const number = numberIn(at('ward-number').value, 99), seats = numberIn(at('ward-seats').value, 15), name = at('ward-name').value.trim();
  if (!number || !seats || !isName(name)) return tell('refused', 'The ward wasn\u2019t added.',
    'Enter a number from 1 to 99, 1 to 15 seats, and a name of 1 to 120 bytes.');
  const isSure = await askFirst(['Add ward ', String(number), ' ', isolated(name), '?'], 'Add ward',
    `${many(seats, 'seat')}. You can\u2019t change the number, the seats or the name afterwards.`);
  if (!isSure) return undefined;
  const printed = await orderWithId(`add ward ${number} ${spokenName(name)}`, ['ward', number, seats, name]);
  if (!isAccepted(printed)) return undefined;
  clearInputs('ward-number', 'ward-seats', 'ward-name');
  return go('nominations', number);
};

// The number that was suggested last. If the officer hasn't changed it, the next number replaces it.
let suggested = '';

const suggestNumber = (candidates) => {
  if (![suggested, ''].includes(at('candidate-number').value) || document.activeElement === at('candidate-number')) return;
  const free = Array.from({length: MOST_CANDIDATES}, (_, place) => place + 1).find((it) => !candidates.some(({candidate}) => candidate === it));
  suggested = String(free ?? '');
  at('candidate-number').value = suggested;
};

DRAW.nominations = async (isNow) => {
  const ward = wardOf();
  const {says, why} = ward ? await readWard(ward.ward) : {};
  if (!isNow()) return;
  const isOpen = ward?.phase === 'nominations';
  at('nominate').hidden = !isOpen;
  if (!says) return fill(at('nominated'), made('p', {}, why ?? 'There are no wards yet. Add the first one below.'));
  const {candidates} = says;
  if (isOpen) suggestNumber(candidates);
  const state = isOpen ? `${many(candidates.length, 'candidate')} for ${many(ward.seats, 'seat')} so far`
    : `Nominations are closed: ${many(candidates.length, 'candidate')} for ${many(ward.seats, 'seat')}${isUncontested(ward) ? ', uncontested' : ''}`;
  fill(at('nominated'), made('p', {className: 'said'}, wardName(ward), `: ${state}`),
    isOpen ? made('p', {className: 'acts'},
      button('Close nominations', () => closeNominations(ward, candidates), {key: 'close', main: candidates.length > 0, disabled: !candidates.length})) : '',
    candidates.length ? table({className: 'plain'}, ['Number', 'Name', ''], candidates.map(candidateRow(ward, isOpen))) : '');
};

"#;
