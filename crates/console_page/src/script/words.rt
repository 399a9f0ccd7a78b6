//! Part of the script: how names, numbers and times are written.

/// Declares how the console writes names, numbers, lists and times, and how it parses CSV.
pub(crate) const WORDS: &str = r#"// ---- names, numbers, lists and times

const TURNING = /[\u202a-\u202e\u2066-\u2069]/g;
// Returns a name without the marks that change the direction of the text next to it. Control characters are replaced.
const shownName = (name) => String(name ?? '').replace(TURNING, '').replace(/[\u0080-\u009f]/g, '\ufffd');
// Returns a name for plain text, set apart so that its direction doesn't affect the text around it.
const spokenName = (name) => `\u2068${shownName(name)}\u2069`;
const isolated = (name) => made('bdi', {}, shownName(name));
const withNumber = ({candidate, name}) => made('span', {className: 'person'}, made('b', {}, String(candidate)), ' ', isolated(name));
const wardName = (ward) => made('span', {className: 'person'}, `Ward ${ward.ward} `, isolated(ward.name));

const noun = (count, one, more = `${one}s`) => (count === 1 ? one : more);
const many = (count, one, more) => `${count.toLocaleString('en')} ${noun(count, one, more)}`;
const papersOf = (count) => many(count, 'paper');
const batchesOf = (count) => many(count, 'batch', 'batches');

// Returns a list for a sentence: 1, 2 and 3.
const listed = (parts, last = 'and') => parts.flatMap((it, place) => (place === 0 ? [it] : [place === parts.length - 1 ? ` ${last} ` : ', ', it]));

// Returns the first numbers of a list, and how many more there are.
const firstOf = (numbers, most = 12) => numbers.slice(0, most).join(', ') + (numbers.length > most ? ` and ${numbers.length - most} more` : '');

const ORDINALS = ['First', 'Second', 'Third', 'Fourth', 'Fifth', 'Sixth', 'Seventh', 'Eighth', 'Ninth', 'Tenth'];
const ordinal = (number) => ORDINALS[number - 1] ?? `${number}th`;

const REJECTIONS = {
  1: 'no first preference', 2: 'more than one first preference', 3: 'no official mark', 4: 'voter identifiable', 5: 'void for uncertainty',
};
const PHASES = {nominations: 'Nominations', keying: 'Keying', sealed: 'Sealed', declared: 'Declared'};

const nameIn = (candidates, number) => candidates.find((it) => it.candidate === number) ?? {candidate: number, name: ''};
const namesOf = (candidates, numbers) => numbers.map((it) => withNumber(nameIn(candidates, it)));
const preferencesOf = (candidates, numbers) =>
  made('span', {className: 'preferences'},
    ...numbers.map((it, place) => made('span', {className: 'preference'}, made('i', {}, `${place + 1}.`), ' ', isolated(nameIn(candidates, it).name))));

const isUncontested = (ward) => ward.phase !== 'nominations' && ward.candidates <= ward.seats;
const wasSealed = (ward) => ward?.phase === 'sealed' || ward?.phase === 'declared';

// Returns how long ago something was.
const ago = (time) => {
  const minutes = Math.floor((Date.now() - time) / 60000);
  if (minutes < 1) return 'just now';
  if (minutes < 60) return `${many(minutes, 'minute')} ago`;
  const hours = Math.floor(minutes / 60);
  return hours < 48 ? `${many(hours, 'hour')} ago` : `${many(Math.floor(hours / 24), 'day')} ago`;
};

const two = (number) => String(number).padStart(2, '0');

// Returns the time for a file's name.
const timeText = () => {
  const now = new Date();
  return `${now.getFullYear()}-${two(now.getMonth() + 1)}-${two(now.getDate())}-${two(now.getHours())}${two(now.getMinutes())}${two(now.getSeconds())}`;
};

const clock = (time) => new Date(time).toLocaleTimeString('en-GB', {hour: '2-digit', minute: '2-digit'});

// Returns the rows of a CSV text. Fields in double quotes may hold commas, line breaks and doubled quotes.
const csvRows = (text) => {
  const rows = [[]];
  let field = '', quoted = false, begun = false;
  const endField = () => { rows.at(-1).push(field); field = ''; begun = false; };
  for (let place = text.charCodeAt(0) === 0xfeff ? 1 : 0; place < text.length; place += 1) {
    const sign = text[place];
    if (quoted && sign === '"' && text[place + 1] === '"') { field += '"'; place += 1; }
    else if (sign === '"' && (quoted || !begun)) { quoted = !quoted; begun = true; }
    else if (!quoted && sign === ',') endField();
    else if (!quoted && /[\r\n]/.test(sign)) { if (rows.at(-1).length || begun) { endField(); rows.push([]); } }
    else { field += sign; begun = true; }
  }
  if (rows.at(-1).length || begun) endField();
  return rows.filter((it) => it.length);
};

"#;
