//! Part of the script: what is shown besides the chart: the list of wards, a ward before its first stage, and the elected candidates.

/// Declares how everything except the chart is drawn.
pub(crate) const VIEWS: &str =
    r#"// ---- the list of wards, a ward before its first stage, and the declaration

const REJECTIONS = ['no first preference', 'more than one first preference', 'no official mark', 'voter identifiable', 'void for uncertainty'];
const EARLIER = {nominations: 'Nominations are open', keying: 'Votes are being entered'};

// Returns in a few words how far a ward is.
const stateOf = (ward) => {
  const count = office.counts.get(ward.ward);
  if (!isCounted(ward)) return EARLIER[ward.phase] ?? '';
  if (ward.phase === 'declared') return 'Declared';
  if (!count) return 'Sealed';
  if (!count.contested) return 'No poll, to be declared';
  if (isFinished(count)) return 'Counted, to be declared';
  return count.stages.length ? `Stage ${count.stages.length} counted` : 'Sealed, to be counted';
};

// Returns the wards on the page of the list that is shown.
const wardsOfList = () => {
  const page = Math.min(shown.part, Math.ceil(office.wards.length / LISTED) - 1);
  return office.wards.slice(page * LISTED, (page + 1) * LISTED);
};

const listName = () => {
  const {wards} = office, these = wardsOfList();
  return these.length < wards.length ? `Wards ${these[0].ward} to ${these.at(-1).ward}` : wards.length ? 'All wards' : '';
};

const drawList = () => {
  const listedWards = wardsOfList();
  const rows = listedWards.map((it) => made('li', {className: it.phase}, made('b', {className: 'number'}, String(it.ward)),
    made('span', {className: 'name'}, isolated(it.name)), made('span', {className: 'state'}, stateOf(it))));
  const list = made('ol', {id: 'wards', className: rows.length > ONE_COLUMN ? 'two' : 'one'}, ...rows);
  list.style.setProperty('--rows', String(rows.length > ONE_COLUMN ? Math.ceil(rows.length / 2) : rows.length));
  fill(at('view'), list);
  fitNames(list);
};

const drawLarge = (...inner) => {
  const large = made('div', {className: 'large'}, ...inner);
  fill(at('view'), large);
  fit(large);
};

// Draws a ward that is sealed and has no stage yet.
const drawSealed = (count) => {
  if (!count.contested) {
    drawLarge(made('p', {}, 'No poll'), made('p', {className: 'more'}, 'There are no more candidates than seats. The declaration follows.'));
    return;
  }
  const reasons = count.rejected.map((it, place) => it && `${it.toLocaleString('en')} ${REJECTIONS[place]}`).filter(Boolean);
  const rows = figuresOf(count).map(([name, value]) => made('tr', {}, made('th', {scope: 'row'}, name), made('td', {}, value)));
  drawLarge(made('p', {}, 'The papers are sealed'), made('table', {}, made('tbody', {}, ...rows)),
    made('p', {className: 'more'}, reasons.length ? `Rejected: ${reasons.join(', ')}.` : ''), made('p', {className: 'more'}, 'The count follows.'));
};

// Draws who is elected.
const drawElected = ({contested, seats, stages, elected}) => {
  const stageText = (it) => contested && made('span', {className: 'state'}, `at stage ${settledAt(stages, it.candidate)}`);
  const people = elected.map((it) => made('li', {}, made('b', {className: 'number'}, String(it.candidate)),
    made('span', {className: 'name'}, isolated(it.name)), stageText(it)));
  const empty = seats - elected.length;
  const list = made('ol', {id: 'people', className: people.length > 8 ? 'two' : 'one'}, ...people);
  const notes = [!contested && 'There was no poll: there are no more candidates than seats.', empty > 0 && `${many(empty, 'seat')} ${empty === 1 ? 'stays' : 'stay'} empty.`];
  list.style.setProperty('--rows', String(people.length > 8 ? Math.ceil(people.length / 2) : people.length));
  fill(at('view'), made('h2', {className: 'elected'}, 'Elected'), list, made('p', {className: 'more'}, some(notes).join(' ')));
  fitNames(list);
};

const drawWard = (ward) => {
  const count = office.counts.get(ward.ward);
  const {part} = shown;
  if (!isCounted(ward)) return drawLarge(made('p', {}, stateOf(ward)));
  if (!count) return drawLarge(made('p', {}, 'The papers are sealed'));
  if (part > count.stages.length) return drawElected(count);
  return part ? drawStage(ward, count, part) : drawSealed(count);
};

const drawView = () => {
  const ward = wardAt(shown.ward);
  if (office.text === null) return drawLarge(made('p', {}, 'Waiting for the office'));
  if (!office.wards.length) return drawLarge(made('p', {}, 'There are no wards yet'));
  return ward ? drawWard(ward) : drawList();
};

// ---- around the view

const drawClock = () => {
  const down = office.text === null ? 'Not connected' : `Not connected since ${clock(office.heard)}. What is shown may have changed.`;
  at('clock').textContent = clock(Date.now());
  at('down').textContent = office.isDown ? down : '';
  at('down').hidden = !office.isDown;
};

const draw = () => {
  const ward = wardAt(shown.ward), declared = office.wards.filter((it) => it.phase === 'declared').length;
  document.title = office.title || 'The count';
  at('title').textContent = shownName(office.title);
  fill(at('which'), ward ? wardName(ward) : listName());
  for (const id of ['title', 'which']) fit(at(id));
  at('changed').textContent = office.changed ? `Last change at ${clock(office.changed)}` : office.since ? `No change since ${clock(office.since)}` : '';
  at('place').textContent = office.wards.length ? `${declared} of ${many(office.wards.length, 'ward')} declared` : '';
  at('keys').hidden = !shown.hold;
  drawClock();
  drawView();
};

"#;
