//! Part of the script: the batches of a ward.

/// Declares the list of batches, and what the officer can do about a batch whose keyings differ.
pub(crate) const BATCHES: &str = r#"// ---- the batches of a ward

const ON_PAGE = 40;
const STANDINGS = [['', 'All'], ['differing', 'Differ'], ['waiting', 'Being keyed'], ['taken', 'Agreed']];
const STANDING_TEXTS = {differing: 'The keyings differ', waiting: 'Being keyed', taken: 'Agreed'};
const RANKS = {differing: 0, waiting: 1, taken: 2};

const filter = {standing: '', search: '', page: 0};

// What is shown below a batch: its number, and `differences` or `papers`. Null if nothing is.
let opened = null;

const again = async (ward, it) => {
  const isSure = await askFirst(`Have batch ${it.batch} keyed again?`, 'Key again',
    made('p', {}, wardName(ward), `: ${papersOf(it.size)}, keyed by tellers `, ...listed(it.clerks.map(({clerk}) => String(clerk))), '.'),
    `All of them key the whole batch again from the papers, in round ${it.round + 1}. Give the pile back to them. Don\u2019t tell them which papers differ.`);
  if (isSure) await orderOnce(`have batch ${it.batch} keyed again`, ['again', it.batch], `${it.batch}-${it.round + 1}`);
};

const third = async (ward, it) => {
  const field = made('input', {type: 'text', inputMode: 'numeric', autocomplete: 'off', size: 4, ariaLabel: 'Third teller'});
  field.addEventListener('keydown', (event) => { if (event.key === 'Enter') { event.preventDefault(); closeAsked(true); } });
  const isSure = await askFirst(`Give batch ${it.batch} to a third teller?`, 'Give to this teller',
    made('p', {className: 'row'}, made('label', {}, 'Third teller\u2019s number ', field)),
    'Tellers '.concat(it.clerks.map(({clerk}) => clerk).join(' and '),
      ' keyed this batch. The third teller also keys it from the papers, in this round and in all later ones. The batch is agreed once two of the three keyings match.'));
  const clerk = numberIn(field.value, 999);
  if (!isSure) return;
  if (!clerk || it.clerks.some((each) => each.clerk === clerk)) tell('refused', 'No third teller was added.',
    'Enter the number, 1 to 999, of a teller who doesn\u2019t key this batch yet.');
  else await orderWithId(`give batch ${it.batch} to teller ${clerk} as the third teller`, ['third', it.batch, clerk]);
};

const differencesText = (it, {papers, shifted_clerk: clerk, shifted_from: from}) =>
  [made('p', {}, `The keyings differ on ${papers.length === 1 ? 'paper' : `${papers.length} papers:`} ${firstOf(papers, 40)}. Don\u2019t tell the tellers.`),
    from ? made('p', {}, made('b', {}, `From paper ${from} on they agree when the papers of teller ${clerk} are moved by one: a paper may have been left out or keyed twice there.`)) : ''];

const paperText = (candidates, it) => {
  if (it.state === 'valid') return preferencesOf(candidates, it.preferences);
  return it.state === 'open' ? 'Doubtful, not yet judged' : `Rejected: ${REJECTIONS[it.code]}`;
};

const papersTable = ({candidates, papers}) =>
  table({className: 'plain'}, ['Paper', 'Counted as'], papers.map((it) => row(numeric(it.paper), paperText(candidates, it))));

const openBatch = async (what, it) => {
  opened = opened?.batch === it.batch && opened.what === what ? null : {batch: it.batch, what};
  await draw();
};

const readOpened = async (it) => {
  if (opened?.batch !== it.batch) return null;
  if (opened.what !== (it.standing === 'taken' ? 'papers' : 'differences') || it.standing === 'waiting') {
    opened = null;
    return null;
  }
  const {says, why} = await read(`batches/${it.batch}/${opened.what}`);
  if (why) return [made('p', {}, why)];
  if (opened.what === 'differences') return differencesText(it, says);
  return [made('p', {className: 'acts'}, button('Print list', () => printText(`Papers of batch ${it.batch}`, papersTable(says)))), papersTable(says)];
};

const tellerText = ({clerk, keyed}) => made('span', {className: keyed ? 'keyed' : 'unkeyed'}, `${clerk} `, made('small', {}, keyed ? 'keyed' : 'not keyed'));

const actsOf = (ward, it) => {
  if (ward.phase !== 'keying' && it.standing !== 'taken') return '';
  const acts = [];
  if (it.standing === 'differing') {
    acts.push(button('Differences', () => openBatch('differences', it), {key: `where ${it.batch}`, ariaLabel: `Differences in batch ${it.batch}`}));
    acts.push(button('Key again', () => again(ward, it), {key: `again ${it.batch}`, ariaLabel: `Key batch ${it.batch} again`, main: it.clerks.length > 2}));
    if (it.clerks.length < 3) acts.push(button('Third teller', () => third(ward, it),
      {key: `third ${it.batch}`, ariaLabel: `Third teller for batch ${it.batch}`, main: true}));
  }
  if (it.standing === 'taken') acts.push(button('Papers', () => openBatch('papers', it), {key: `papers ${it.batch}`, ariaLabel: `Papers of batch ${it.batch}`}));
  return made('span', {className: 'acts'}, ...acts);
};

const batchRows = async (ward, it) => {
  const notes = [it.round > 1 ? `round ${it.round}` : '', it.doubtful_open ? `${many(it.doubtful_open, 'doubtful paper')} to judge` : '',
    it.twin ? `same papers as batch ${it.twin}: check that one pile wasn\u2019t keyed as two batches` : ''].filter(Boolean);
  const line = made('tr', {className: it.standing === 'differing' || it.twin ? 'urgent' : ''}, made('th', {scope: 'row'}, String(it.batch)), numeric(it.size),
    made('td', {className: 'tellers'}, ...it.clerks.flatMap((each, place) => [place ? ', ' : '', tellerText(each)])),
    made('td', {}, made('b', {className: it.standing}, STANDING_TEXTS[it.standing]), notes.length ? made('small', {}, ` ${notes.join('; ')}`) : ''),
      made('td', {}, actsOf(ward, it)));
  const below = await readOpened(it);
  return below ? [line, made('tr', {className: 'below'}, made('td', {colSpan: 5}, ...below))] : [line];
};

const isShown = (it) => {
  const word = filter.search.trim();
  if (filter.standing && it.standing !== filter.standing) return false;
  return !word || String(it.batch) === word || it.clerks.some(({clerk}) => String(clerk) === word);
};

const drawFilter = (batches) => {
  const countOf = (standing) => batches.filter((it) => !standing || it.standing === standing).length;
  const search = made('input', {type: 'search', size: 8, autocomplete: 'off', defaultValue: filter.search, data: {key: 'search'}});
  search.addEventListener('input', () => { Object.assign(filter, {search: search.value, page: 0}); draw(); });
  fill(at('batch-filter'), ...STANDINGS.map(([standing, text]) =>
    button(`${text}: ${countOf(standing).toLocaleString('en')}`, () => { Object.assign(filter, {standing, page: 0}); draw(); },
    {key: `filter ${standing}`, className: filter.standing === standing ? 'here' : '', ariaPressed: String(filter.standing === standing)})),
      made('label', {}, 'Batch or teller ', search));
};

const drawPages = (count) => {
  const pages = Math.ceil(count / ON_PAGE);
  if (pages < 2) return fill(at('batch-more'));
  const turnTo = (page) => { filter.page = page; draw(); at('batch-filter').scrollIntoView({block: 'nearest'}); };
  return fill(at('batch-more'), made('p', {className: 'acts'}, button('Previous', () => turnTo(filter.page - 1), {key: 'previous', disabled: filter.page === 0}),
    `Page ${filter.page + 1} of ${pages}`, button('Next', () => turnTo(filter.page + 1), {key: 'next', disabled: filter.page === pages - 1})));
};

DRAW.batches = async (isNow) => {
  const ward = wardOf();
  const isPolled = ward && ward.phase !== 'nominations' && !isUncontested(ward);
  const {says, why} = isPolled ? await readBatches(ward.ward) : {};
  if (!isNow()) return;
  at('give').hidden = at('bring').hidden = ward?.phase !== 'keying';
  const note = !ward ? 'There are no wards yet.' : why
    ?? (ward.phase === 'nominations' ? 'Nominations are still open. You can give out batches once they are closed.' : isUncontested(ward)
    ? 'This ward is uncontested, so it has no batches.' : '');
  const {batches = []} = says ?? {};
  const expected = expectedOf(ward?.ward) ? `, ${expectedOf(ward.ward).toLocaleString('en')} expected` : '';
  const progress = isPolled ? `${batchesOf(batches.length)} given out: ${papersOf(papersIn(batches).givenOut)}${expected}, ${papersIn(batches).agreed.toLocaleString('en')} agreed` : '';
  fill(at('batches-note'), note || progress);
  suggestBatch(batches);
  if (ward?.phase === 'keying' && !batches.length) at('give').open = true;
  drawGiven();
  fill(at('batch-filter'));
  fill(at('batch-forms'), batches.length ? formButton('Download batch covers', 'covers', ward.ward) : '');
  if (!batches.length) { fill(at('batch-list')); return fill(at('batch-more')); }
  drawFilter(batches);
  const shown = batches.filter(isShown).sort((one, other) => RANKS[one.standing] - RANKS[other.standing] || one.batch - other.batch);
  filter.page = Math.min(filter.page, Math.max(0, Math.ceil(shown.length / ON_PAGE) - 1));
  const rows = await Promise.all(shown.slice(filter.page * ON_PAGE, (filter.page + 1) * ON_PAGE).map((it) => batchRows(ward, it)));
  if (!isNow()) return undefined;
  fill(at('batch-list'), rows.length ? table({className: 'batches'}, ['Batch', 'Papers', 'Tellers', 'Status', ''], rows.flat())
    : made('p', {}, 'No batches match.'));
  return drawPages(shown.length);
};

"#;
