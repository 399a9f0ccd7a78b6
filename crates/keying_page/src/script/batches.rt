//! Part of the script: the list of batches, and how a batch is opened.

/// Declares the list of batches, how a batch is opened, and how a clerk signs out.
pub(crate) const BATCHES: &str = r#"// ---- the batches

// The address names the batch, so that a reload leads back to it.
const lead = (batch) => {
  if (location.hash === `#${batch}`) route(); else location.hash = batch;
};

const MISFIT = ' What this browser keeps of it is of a batch with other candidates. Tell the returning officer. ';

const forgetButton = (name) => {
  const button = made('button', {type: 'button'}, 'Forget it');
  button.addEventListener('click', () => { forget(name); route(); });
  return button;
};

const entryOf = (work) => {
  const what = [...wardOf(work), `, round ${work.round}, ${papersOf(work.size)}.`];
  if (work.keyed) return made('li', {}, `Batch ${work.batch}: `, ...what, ' The office has your keying.');
  const name = draftName(work.batch, work.round);
  const kept = keptAt(name);
  const begun = isDraftOf(kept, work) ? ` ${keyedIn(kept)} ${doneWord(kept)} here${kept.sent ? ', sent, and not answered yet' : ''}.` : '';
  const misfit = kept && !begun ? [MISFIT, forgetButton(name)] : [];
  const button = made('button', {type: 'button', className: 'main', value: work.batch}, `Batch ${work.batch}`);
  button.addEventListener('click', () => lead(work.batch));
  return made('li', {}, button, ' ', ...what, begun, ...misfit);
};

// The office may no longer need a draft: its round is keyed or over, or its ward isn't in keying.
const leftOver = (list) => draftNames().filter((name) => {
  const [batch, round] = name.slice(FRONT.length).split(' ').map(Number);
  const work = list.find((it) => it.batch === batch);
  if (work && (work.keyed || work.round > round)) forget(name);
  return !work;
});

const leftEntry = (name) => {
  const [batch, round] = name.slice(FRONT.length).split(' ');
  return made('li', {}, `Batch ${batch}, round ${round} is kept in this browser. The office doesn\u2019t ask for it now. `, forgetButton(name));
};

// A text that stays isn't written again: a screen reader would read it again.
const sayAsked = (text) => { if (at('asked').textContent !== text) at('asked').textContent = text; };

// Shows entries in the list. The button of a batch keeps the focus; without one the first gets it.
const showList = (entries, text) => {
  const {value} = document.activeElement;
  const stays = document.activeElement === at('go-away');
  at('list').replaceChildren(...entries);
  sayAsked(text);
  const buttons = [...at('list').querySelectorAll('.main')];
  if (!stays) (buttons.find((it) => it.value === value) ?? buttons[0] ?? at('look')).focus();
};

// Asks for the names of wards that aren't known yet, by a batch of each. Returns whether there were any.
const nameWards = async (list) => {
  const unknown = list.filter(({ward}, place) => !wardNames.has(ward) && list.findIndex((it) => it.ward === ward) === place);
  for (const work of unknown) if ((await askNames(work)).why) return false;
  return unknown.length > 0;
};

const REFRESH = 30;

// Asks for the list again in half a minute, and so on while it is shown. It is drawn anew only if it changed.
const refreshLater = (shown, text) => {
  const turn = turns;
  const refresh = async () => {
    const {list, why, waits} = await askWork();
    if (turn !== turns) return undefined;
    if (list && JSON.stringify(list) !== shown) return showBatches(list, shown ? 'The list of your batches has changed.' : '');
    sayAsked(why ? told(why) : text);
    return list || waits ? refreshLater(shown, text) : undefined;
  };
  timer = setTimeout(refresh, 1000 * REFRESH);
};

const showBatches = async (list, said) => {
  const turn = turns;
  const text = told([said, list.length ? '' : 'You have no batches at the moment.']);
  const draw = () => showList([...list.map(entryOf), ...leftOver(list).map(leftEntry)], text);
  draw();
  const isNamed = await nameWards(list);
  if (turn !== turns) return;
  if (isNamed) draw();
  refreshLater(JSON.stringify(list), text);
};

const showStart = (work) => {
  at('start-title').replaceChildren(`Batch ${work.batch}, round ${work.round}, `, ...wardOf(work));
  at('start-size').textContent = work.size;
  at('start-batch').textContent = work.batch;
  at('anew').hidden = work.round === 1;
  at('anew').textContent = earlier
    ? `This is a new round. Go through your own keying of round ${earlier.round}: the page shows it paper by paper. Press Enter only if the paper says just that. If it doesn\u2019t, correct it.`
    : 'This is a new round. Key every paper again, from the paper itself.';
  at('through').hidden = !earlier;
  at('begin').textContent = earlier ? 'Key every paper again' : 'Begin (Enter)';
  at('begin').className = earlier ? '' : 'main';
  show('start', at(earlier ? 'through' : 'begin'));
};

// The number of papers was put right after a draft was begun: what was keyed is kept.
const resize = (kept, size) => {
  while (kept.rows.length > Math.max(size, 1) && kept.rows.at(-1).state === NEW) kept.rows.pop();
  kept.at = Math.min(kept.at, kept.rows.length - 1);
  const text = kept.size === size ? '' : `The batch has ${papersOf(size)} now, and had ${kept.size} when you began it. Count your pile. `;
  kept.size = size;
  return text;
};

// What this browser keeps of a batch that was begun, or nothing.
const begunOf = (work) => {
  const kept = keptAt(draftName(work.batch, work.round));
  return kept && !(isDraftOf(kept, work) && isUntouched(kept)) ? kept : null;
};

const openBatch = async (work, turn) => {
  const names = await askNames(work);
  const own = begunOf(work) ? {} : await askKeyed(work);
  if (turn !== turns) return undefined;
  const kept = begunOf(work);
  const why = names.why ?? own.why ?? (kept && !isDraftOf(kept, work) ? [] : null);
  if (why) return showList([entryOf(work)], told([`Batch ${work.batch} can\u2019t be opened.`, ...why]));
  candidates = names.candidates;
  earlier = own.keyed ?? null;
  draft = kept ?? newDraft(work);
  draft.window = WINDOW;
  const resized = resize(draft, work.size);
  settle();
  save();
  drawHeads();
  if (draft.sent || isWhole(draft)) return askToSend();
  if (!kept) return showStart(work);
  return backToPapers(`${resized}Go on at paper ${paper()}. See that it is on top of your pile.`);
};

// Opens the batch that the address names; without one, or if it can't be keyed, lists all batches.
const route = async (text = '') => {
  clearTimeout(timer);
  turns += 1;
  const turn = turns;
  draft = null;
  const wanted = Number(location.hash.slice(1));
  at('asked').textContent = 'The office is asked.';
  show('batches', at('batches-title'));
  const {list, why, waits} = await askWork();
  if (turn !== turns) return undefined;
  if (why) showList([], told(why));
  if (why) return waits ? refreshLater('', '') : undefined;
  const work = list.find((it) => it.batch === wanted && !it.keyed);
  if (work) return openBatch(work, turn);
  return showBatches(list, text);
};

const toBatches = (text = '') => {
  history.replaceState(null, '', HERE);
  route(text);
};

// Signing out makes the browser forget the clerk's code, as far as possible. The clerk's drafts are kept.
const goAway = async () => {
  clearTimeout(timer);
  turns += 1;
  const answer = await ask('leave');
  const code = answer?.status === 200 ? 'This browser was asked to forget your code. If it opens your page again without asking for it, close' : 'Close';
  const isKept = draftNames().some((name) => keptAt(name)?.rows?.some?.(({state}) => state === BEGUN || state === KEYED));
  const kept = isKept ? 'What you keyed and didn\u2019t send is kept in this browser for you. ' : '';
  document.body.replaceChildren(made('p', {}, `Clerk ${CLERK} has left. ${kept}${code} all windows of the browser.`));
};

"#;
