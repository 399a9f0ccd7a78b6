//! Part of the script: how batches are given out.

/// Declares how several batches are given out at once to pairs of tellers.
pub(crate) const GIVING: &str = r#"// ---- giving out batches

const MOST_GIVEN = 400;

// Returns the batches that the form describes: {list}, or {why} if it isn't complete.
const givenBatches = () => {
  const from = numberIn(at('give-from').value, 9999), count = numberIn(at('give-count').value || '1', MOST_GIVEN);
  const size = numberIn(at('give-size').value, 500), last = at('give-last').value.trim() ? numberIn(at('give-last').value, 500) : size;
  const clerks = numbersIn(at('give-clerks').value);
  if (!at('give-from').value.trim()) return {why: 'Enter the number of the first batch.'};
  if (!from || !count || from + count - 1 > 9999) return {why: `Batches are numbered 1 to 9999. You can give out at most ${MOST_GIVEN} at once.`};
  if (!size || !last) return {why: 'Enter the number of papers per batch, 1 to 500.'};
  if (clerks.length < 2 || clerks.includes(0)) return {why: 'Enter the numbers of two or more tellers, 1 to 999.'};
  if (clerks.length % 2) return {why: 'One teller has no partner. Enter an even number of tellers.'};
  if (clerks.some((it, place) => place % 2 === 0 && it === clerks[place + 1])) return {why: 'The two tellers of a batch must be different.'};
  return {list: Array.from({length: count}, (_, place) => {
    const pair = 2 * place % clerks.length;
    return {batch: from + place, size: place === count - 1 ? last : size, first: clerks[pair], second: clerks[pair + 1]};
  })};
};

const givenRow = ({batch, size, first, second}) => row(made('th', {scope: 'row'}, `Batch ${batch}`), numeric(papersOf(size)), `Tellers ${first} and ${second}`);

const givenTable = (list) => {
  const shown = list.length > 8 ? [...list.slice(0, 6).map(givenRow), row('\u2026', '', ''), givenRow(list.at(-1))] : list.map(givenRow);
  return table({className: 'plain'}, ['Batch', 'Papers', 'Keyed by'], shown);
};

const sumOf = (list) => list.reduce((sum, it) => sum + it.size, 0);
const sumText = (list) => `${batchesOf(list.length)}, ${papersOf(sumOf(list))}`;

const expectedText = (ward, list) => {
  const expected = expectedOf(ward.ward);
  const sum = (papersFor(ward)?.givenOut ?? 0) + sumOf(list);
  if (!expected) return '';
  const text = `With these batches, ${sum.toLocaleString('en')} of ${expected.toLocaleString('en')} expected papers are given out.`;
  return sum > expected ? warningText(text, ' That is more than expected: check the batch sizes.') : made('p', {}, text);
};

const drawGiven = () => {
  const ward = wardOf();
  const isEmpty = !at('give-from').value.trim() && !at('give-clerks').value.trim();
  const {list, why} = givenBatches();
  if (!ward || isEmpty) return fill(at('give-preview'));
  return fill(at('give-preview'),
    list ? [made('p', {className: 'said'}, sumText(list)), givenTable(list), expectedText(ward, list)] : made('p', {className: 'hint'}, why));
};

// Gives out the batches by one script, in which each line has an id of its own.
const giveOut = async (event) => {
  event.preventDefault();
  const ward = wardOf();
  const {list, why} = givenBatches();
  if (why) return tell('refused', 'The batches weren\u2019t given out.', why);
  const isSure = await askFirst(['Give out ', sumText(list), ' in ', wardName(ward), '?'], 'Give out', givenTable(list), expectedText(ward, list) || null,
    warningText('You can\u2019t change a batch afterwards. Read the ward, the sizes and the tellers aloud before you confirm.'));
  if (!isSure) return undefined;
  const id = newId();
  const lines = list.map((it, place) => `batch ${it.batch} ${ward.ward} ${it.size} ${it.first} ${it.second} --id ${id}-${place + 1}\n`);
  const title = `give out ${list.length === 1 ? `batch ${list[0].batch}` : `batches ${list[0].batch} to ${list.at(-1).batch}`} in ward ${ward.ward}`;
  const printed = await order(title, ['replay', 'batches.txt'], {'batches.txt': lines.join('')});
  if (!printed) return undefined;
  const done = printed.output.split('\n').filter(Boolean).length;
  if (isAccepted(printed)) {
    clearInputs('give-count', 'give-last');
    at('give').open = false;
  } else if (done) {
    // The rest goes to the tellers whose turn it is.
    const clerks = numbersIn(at('give-clerks').value);
    setInput('give-count', list.length - done);
    setInput('give-clerks', clerks.map((_, place) => clerks[(place + 2 * done) % clerks.length]).join(' '));
  }
  if (done) setInput('give-from', list[0].batch + done);
  return drawGiven();
};

const suggestBatch = (batches) => {
  if (at('give-from').value || document.activeElement === at('give-from')) return;
  const most = Math.max(0, ...batches.map((it) => it.batch));
  if (most && most < 9999) at('give-from').value = most + 1;
};

"#;
