//! Part of the script: the tabs, the choice of a ward, and how the page is kept up to date.

/// Declares the tabs, how a tab is opened and drawn, and how the page is refreshed.
pub(crate) const FRAME: &str = r#"// ---- sections

const TABS = [
  ['overview', 'Overview'], ['nominations', 'Nominations'], ['batches', 'Batches'], ['doubtful', 'Doubtful papers'], ['count', 'Count'],
  ['journal', 'Journal'],
];
// Seconds between two refreshes, and the most of them.
const SECONDS = 3;
const LONGEST_PAUSE = 30;
// Each section adds the function that draws it: overview, nominations, and so on.
const DRAW = {};

let view = 'overview';
let chosen = 0;
let turn = 0;

const wardOf = () => wardAt(chosen);

// Opens a section. The address names the section and the ward, so that a reload or the Back button leads there.
const go = (part, ward = chosen) => {
  const address = ward && part !== 'overview' && part !== 'journal' ? `${part}/${ward}` : part;
  if (location.hash.slice(1) === address) route(); else location.hash = address;
};

const drawTabs = () => {
  const open = {doubtful: office.wards.reduce((sum, it) => sum + it.doubtful_open, 0), batches: office.wards.reduce((sum, it) => sum + it.differing, 0)};
  fill(at('tabs'), TABS.map(([part, text], place) => button(
    [made('kbd', {}, String(place + 1)), ` ${text}`,
      open[part] ? made('span', {className: 'badge', title: part === 'batches' ? 'batches that differ' : 'papers to judge'}, String(open[part])) : ''],
    () => go(part), {key: `tab ${part}`, className: part === view ? 'here' : '', ariaCurrent: part === view ? 'page' : null})));
};

// Draws the list from which the officer chooses a ward.
const drawPicks = () => {
  for (const place of document.querySelectorAll('[data-pick]')) {
    const part = place.dataset.pick;
    const options = office.wards.map((it) => made('option', {value: String(it.ward), defaultSelected: it.ward === chosen}, `${it.ward} ${spokenName(it.name)}`));
    const select = made('select', {ariaLabel: 'Ward', data: {key: `ward ${part}`}}, ...options);
    select.addEventListener('change', () => go(part, Number(select.value)));
    fill(place, office.wards.length ? made('label', {}, 'Ward ', select) : '');
  }
};

const drawHealth = () => {
  const {down, at: when} = office;
  at('health').className = down ? 'down' : '';
  at('health').textContent = down ? `${down}${when ? ` This page shows the state at ${clock(when)}.` : ''}` : `Updated at ${clock(Date.now())}`;
  const copy = stored('copy');
  at('unkept').hidden = stores;
  at('copied').replaceChildren(copy ? `Last copy: ${ago(copy.at)}` : 'No copy made from this browser yet');
};

const draw = async () => {
  turn += 1;
  const now = turn;
  if (!wardOf()) chosen = office.wards[0]?.ward ?? 0;
  drawTabs();
  drawPicks();
  await DRAW[view](() => now === turn);
  if (now === turn) document.body.classList.remove('stale');
};

const route = () => {
  const [part, ward] = location.hash.slice(1).split('/');
  const before = view, wardBefore = chosen;
  view = DRAW[part] ? part : 'overview';
  if (wardAt(Number(ward))) chosen = Number(ward);
  for (const [name, text] of TABS) {
    at(name).hidden = name !== view;
    if (name === view) document.title = `${text} - Count office`;
  }
  // Until the new section or ward is read, the old one is still shown, and the officer can't use it.
  if (view !== before || chosen !== wardBefore) {
    document.body.classList.add('stale');
    forgetTold();
  }
  if (view !== before) {
    document.body.classList.remove('judging');
    scrollTo(0, 0);
    at(`${view}-title`).focus({preventScroll: true});
  }
  draw();
};

const isOther = () => !at('other').hidden;

const wardTexts = () => office.wards.map((it) => `${it.ward} ${it.seats} ${it.name}`);

const OFFICE_TEXTS = {title: 'the election\u2019s title', copy: 'the time of the last copy', log: 'the list of orders sent from this browser',
  mending: 'the orders chosen to be put right', mended: 'the report on a new office'};

// Returns how the officer knows what is stored under a name.
const storedText = (name) => {
  const [kind, ...more] = name.split(' ');
  if (kind === 'expected') return `the papers expected in ward ${more[0]}`;
  if (kind === 'draft') return `the preferences chosen for batch ${more[2]}, paper ${more[3]}`;
  return OFFICE_TEXTS[name] ?? `an order that isn\u2019t confirmed: ${stored(name)?.title}`;
};

// Returns the names of what is stored for the previous office and doesn't fit this one. The papers expected in a ward fit if both have that
// ward, and the title fits if they have any ward in common. What was typed into a form is always kept.
const unfitting = (seen) => {
  const shared = wardTexts().filter((it) => seen.wards.includes(it)).map((it) => `expected ${it.split(' ')[0]}`);
  const names = [...storedNames(PENDING), ...storedNames('expected').filter((it) => !shared.includes(it)), ...storedNames('draft verdict'), 'copy', 'log', 'mending', 'mended'];
  return [...names, ...(shared.length ? [] : ['title'])].filter((it) => stored(it));
};

const acceptOffice = (names, list) => {
  names.forEach(unstore);
  if (dropped === list) dropped = null;
  judging.ward = 0;
  details.clear();
  store('seen', {receipts: office.receipts, wards: wardTexts()});
  at('other').hidden = true;
  giveUp();
  drawPreview();
  refresh(true);
};

const lastSeen = () => stored('seen', {receipts: 0, wards: []});

// Returns how the officer knows what is discarded: what is stored under these names, and a list of candidates.
const discardedTexts = (names, list) => [...names.map(storedText), ...(list ? [`the candidates of the file ${list.name}, which aren\u2019t added yet`] : [])];

// An office only grows: it loses no receipt, and no ward changes. If this browser saw more before, this is another file or an older copy.
const compareOffice = () => {
  const seen = lastSeen();
  const wards = wardTexts();
  const same = office.receipts >= seen.receipts && seen.wards.every((it) => wards.includes(it));
  if (same && !isOther()) return store('seen', {receipts: office.receipts, wards});
  const [names, list] = [unfitting(seen), dropped];
  const texts = discardedTexts(names, list);
  at('other').hidden = false;
  return at('other').replaceChildren(
    made('p', {className: 'said'}, 'This isn\u2019t the office that this browser used last.'),
    made('p', {}, `This office has ${many(office.receipts, 'accepted order')} and ${many(wards.length, 'ward')}. `,
      `The previous one had ${seen.receipts.toLocaleString('en')} and ${seen.wards.length}. `,
      'Another file may be served, or an older copy. Check that this is the right office before you continue.'),
    made('p', {}, texts.length ? 'If you confirm, the following is discarded, because it belongs to the previous office. Everything else that you typed is kept.'
      : 'If you confirm, everything that you typed is kept.'),
    texts.length ? made('ul', {}, ...texts.map((it) => made('li', {}, it))) : '',
    made('p', {className: 'acts'}, button('This is the right office', () => acceptOffice(names, list), {key: 'right-office'})));
};

let refreshing = null;

// Takes what was read of all wards. `switched` is the report of the switch that has led to this office since the last look, or null.
const takeWards = ({text, says: {receipts, wards}}, switched) => {
  office.reads.clear();
  Object.assign(office, {receipts, text, wards});
  if (switched) acceptSwitch(switched); else if (!isGoingOver()) compareOffice();
};

const refreshOnce = async (isForced) => {
  const switched = await doneSwitch();
  const answer = await ask('wards');
  const isFirst = office.receipts < 0;
  office.down = answer?.status === 200 ? '' : isGoingOver() ? WAITS_FOR_NEW : explainedAnswer(answer);
  if (!office.down) {
    office.at = Date.now();
    const isChanged = switched !== null || answer.text !== office.text;
    if (isChanged) takeWards(answer, switched);
    if (isFirst) route(); else if (isChanged || isForced) await draw();
  }
  drawHealth();
  if (!office.down) readRecord();
};

// Reads all wards, and draws the section again if anything changed.
const refresh = (isForced = false) => {
  refreshing = (refreshing ?? Promise.resolve()).catch(() => {}).then(() => refreshOnce(isForced));
  return refreshing;
};

// Refreshes the page every few seconds, and less often if the office takes long to reply. Once a minute it is drawn even if nothing changed,
// to update the times shown.
const keepFresh = async () => {
  for (let turns = 1; ; turns += 1) {
    const began = Date.now();
    if (!document.hidden && turns > 1) await refresh(turns % 20 === 0).catch(() => {});
    await catchUp().catch(() => {});
    const spent = office.down ? 0 : (Date.now() - began) / 1000;
    const pause = Math.max(SECONDS, Math.min(5 * spent, LONGEST_PAUSE));
    await new Promise((resolve) => setTimeout(resolve, 1000 * pause));
  }
};

const noWards = () => made('p', {}, 'There are no wards yet. ', button('Add a ward', () => go('nominations'), {main: true}));

"#;
