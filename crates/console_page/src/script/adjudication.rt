//! Part of the script: the decision on a doubtful paper.

/// Declares how a doubtful paper is accepted or rejected, by mouse or by keyboard.
pub(crate) const ADJUDICATION: &str = r#"// ---- doubtful papers

// The paper that is shown, and the numbers of the candidates chosen for it so far, first preference first.
const judging = {ward: 0, batch: 0, paper: 0, chosen: [], candidates: [], digits: ''};

// Up to this many candidates are in one column, as on the ballot paper. More are in several columns.
const FEW = 9;

const draftOfVerdict = () => `draft verdict ${judging.ward} ${judging.batch} ${judging.paper}`;

const choosePaper = (ward, it) => {
  Object.assign(judging, {ward, batch: it.batch, paper: it.paper, chosen: [], digits: ''});
  judging.chosen = stored(draftOfVerdict(), []);
};

const changeChosen = (numbers) => {
  judging.chosen = numbers;
  judging.digits = '';
  if (numbers.length) store(draftOfVerdict(), numbers); else unstore(draftOfVerdict());
  return draw();
};

const choose = (number) => {
  if (current) return;
  if (judging.chosen.includes(number)) changeChosen(judging.chosen.filter((it) => it !== number));
  else changeChosen([...judging.chosen, number]);
};

// Returns the verdict in the form that the program expects, with a field for each candidate.
const verdictOf = () => `accept:${judging.candidates.map(({candidate}) => { const place = judging.chosen.indexOf(candidate); return place < 0 ? '' : place + 1; }).join(',')}`;

const chosenText = (numbers = judging.chosen) =>
  made('ol', {className: 'names'}, ...numbers.map((it, place) => made('li', {}, `${ordinal(place + 1)} preference: `, withNumber(nameIn(judging.candidates, it)))));

const paperName = () => `Batch ${judging.batch}, paper ${judging.paper}`;

const sendVerdict = async (title, verdict) => {
  const name = draftOfVerdict();
  const printed = await orderWithId(title, ['judge', judging.batch, judging.paper, verdict]);
  if (isAccepted(printed)) unstore(name);
};

const accept = async () => {
  if (!judging.chosen.length) return tell('refused', 'The paper wasn\u2019t accepted.',
    'No candidate is chosen. Choose the voter\u2019s first preference. If there is none, reject the paper.');
  const isSure = await askFirst(`${paperName()}: accept with these preferences?`, 'Accept', 'Read aloud:', chosenText(),
    warningText('A verdict is final and can\u2019t be undone.'));
  if (!isSure) return undefined;
  const names = judging.chosen.map((it) => spokenName(nameIn(judging.candidates, it).name)).join(', ');
  return sendVerdict(`accept batch ${judging.batch}, paper ${judging.paper}: ${names}`, verdictOf());
};

const reject = async (code) => {
  const isSure = await askFirst(`${paperName()}: reject?`, 'Reject', made('p', {}, 'Read aloud: rejected, ', made('b', {}, REJECTIONS[code]), '.'),
    warningText('A verdict is final and can\u2019t be undone.'));
  if (isSure) await sendVerdict(`reject batch ${judging.batch}, paper ${judging.paper}: ${REJECTIONS[code]}`, `reject:${code}`);
};

const candidateButton = (each) => {
  const place = judging.chosen.indexOf(each.candidate);
  return button([made('b', {}, String(each.candidate)), ' ', isolated(each.name), place < 0 ? '' : made('span', {className: 'badge'}, String(place + 1))],
    () => choose(each.candidate),
    {key: `choose ${each.candidate}`, className: place < 0 ? 'candidate' : 'candidate chosen', ariaPressed: String(place >= 0)});
};

const drawPaper = (ward, open) => {
  const next = ORDINALS[judging.chosen.length] ? `${ORDINALS[judging.chosen.length]} preference` : 'Next preference';
  return [
    made('div', {className: 'case'},
      made('p', {className: 'which'}, `Batch ${judging.batch}, paper ${judging.paper}`),
      made('p', {}, wardName(ward), `: ${many(open.length, 'doubtful paper')} to judge. Take this paper out of its pile and show it to the agents.`),
      made('div', {className: 'columns'},
        made('div', {}, made('h3', {}, `${next}: ${/\d/.test(judging.digits) ? `${judging.digits}_, then Enter` : 'choose a candidate'}`),
          made('div', {className: judging.candidates.length > FEW ? 'candidates' : 'candidates few'}, ...judging.candidates.map(candidateButton))),
        made('div', {}, made('h3', {}, 'Accept with these preferences'),
          made('div', {className: 'ballot', ariaLive: 'polite'}, judging.chosen.length ? chosenText() : made('p', {className: 'hint'}, 'No candidate chosen yet.')),
          made('p', {className: 'acts'}, button('Accept (Enter)', accept, {key: 'accept', main: true, disabled: !judging.chosen.length}),
            button('Undo (Backspace)', () => changeChosen(judging.chosen.slice(0, -1)), {key: 'undo', disabled: !judging.chosen.length})),
          made('h3', {}, 'Or reject'),
          made('div', {className: 'rejects'},
            ...[3, 4, 5].map((code) => button([made('kbd', {}, `R ${code}`), ` ${REJECTIONS[code]}`], () => reject(code), {key: `reject ${code}`}))),
          open.length > 1 ? made('p', {}, made('label', {}, 'Paper to judge ', otherPapers(open))) : '',
          made('p', {className: 'hint'}, 'Keyboard: type a candidate\u2019s number to choose, Backspace to undo, Enter to accept. To reject, press R, then 3, 4 or 5. '
            + 'Esc returns to the overview.')))),
  ];
};

const otherPapers = (open) => {
  const select = made('select', {data: {key: 'other-paper'}},
    ...open.slice(0, 500).map((it, place) =>
    made('option', {value: String(place), defaultSelected: it.batch === judging.batch && it.paper === judging.paper}, `Batch ${it.batch}, paper ${it.paper}`)));
  select.addEventListener('change', () => { choosePaper(judging.ward, open[Number(select.value)]); draw(); });
  return select;
};

// Returns whether Enter is for the paper. On a button Enter presses the button, except on a candidate who is already chosen: an officer who
// clicks on candidates can then accept by keyboard.
const isForPaper = (target) =>
  !/^(BUTTON|SELECT|INPUT)$/.test(target.tagName) || Boolean(judging.digits) || (/^choose /.test(target.dataset.key) && target.ariaPressed === 'true');

// Handles the keys of this section: digits, up to the number of a candidate; Backspace; Enter; R and a code.
const onDoubtfulKey = (event) => {
  const {key} = event;
  if (at('judging').querySelector('.case') === null || document.body.classList.contains('stale')) return false;
  if (key === 'r' || key === 'R') judging.digits = 'r';
  else if (/^[345]$/.test(key) && judging.digits === 'r') { judging.digits = ''; reject(Number(key)); }
  else if (/^[0-9]$/.test(key)) typeDigit(key);
  else if (key === 'Backspace') { if (judging.digits) judging.digits = ''; else changeChosen(judging.chosen.slice(0, -1)); }
  else if (key === 'Enter' && isForPaper(event.target)) endDigits();
  else return false;
  event.preventDefault();
  return true;
};

const isCandidate = (text) => judging.candidates.some((it) => String(it.candidate) === text);

const typeDigit = (digit) => {
  judging.digits = judging.digits === 'r' ? digit : judging.digits + digit;
  const longer = judging.candidates.some((it) => String(it.candidate).startsWith(judging.digits) && String(it.candidate) !== judging.digits);
  if (longer) draw();
  else if (isCandidate(judging.digits)) choose(Number(judging.digits));
  else { judging.digits = ''; tell('refused', 'There is no candidate with this number.', 'Type a number from the list.'); }
};

const endDigits = () => {
  if (isCandidate(judging.digits)) choose(Number(judging.digits));
  else accept();
};

"#;
