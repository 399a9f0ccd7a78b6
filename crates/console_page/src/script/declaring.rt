//! Part of the script: the declaration, and what is printed and downloaded.

/// Declares how a result is declared, and how a ward's texts are printed and downloaded.
pub(crate) const DECLARING: &str = r#"// ---- the declaration

// Returns who is elected in a ward whose count is finished: all candidates if the ward is uncontested, otherwise those elected at the last
// stage.
const electedNow = async (ward, candidates) => {
  if (isUncontested(ward)) return candidates.map((it) => it.candidate);
  const {output} = await outputOnce('table', ward.ward);
  return output ? (stagesIn(output, candidates).at(-1)?.candidates ?? []).filter((it) => it.standing === 'elected').map((it) => it.candidate) : [];
};

const nameList = (candidates, numbers) => made('ol', {className: 'names'}, ...numbers.map((it) => made('li', {}, withNumber(nameIn(candidates, it)))));

const emptyText = (ward, elected) =>
  (ward.seats > elected.length ? made('p', {}, `${many(ward.seats - elected.length, 'seat')} ${ward.seats - elected.length === 1 ? 'remains' : 'remain'} empty.`) : '');

const declare = async (ward, candidates, elected) => {
  const isSure = await askFirst(['Declare the result for ', wardName(ward), '?'], 'Declare', 'Elected:', nameList(candidates, elected),
    emptyText(ward, elected) || null, warningText('A declaration can\u2019t be undone.'));
  if (isSure) await orderWithId(`declare ward ${ward.ward} ${spokenName(ward.name)}`, ['declare', ward.ward]);
};

const drawDeclare = async (ward, candidates) => {
  const elected = await electedNow(ward, candidates);
  return [
    made('p', {className: 'said'}, isUncontested(ward) ? 'Next: the declaration. The ward is uncontested.' : 'Next: the declaration. The count is finished.'),
    made('p', {}, elected.length === 1 ? 'This candidate will be declared elected:' : 'These candidates will be declared elected:'), nameList(candidates, elected),
      emptyText(ward, elected),
    made('p', {className: 'acts'}, button('Declare result', () => declare(ward, candidates, elected), {key: 'declare', main: true, disabled: !elected.length})),
  ];
};

const drawDeclared = (ward, candidates) => [
  made('div', {className: 'aloud'}, made('h3', {}, 'Read aloud'),
    made('p', {}, 'I declare that ', ...listed(ward.elected.map((it) => made('b', {}, isolated(nameIn(candidates, it).name)))),
      ward.elected.length === 1 ? ' is' : ' are', ' duly elected for ', made('b', {}, isolated(ward.name)), '.'),
    isUncontested(ward) ? made('p', {}, 'There was no poll, because there were no more candidates than seats.') : '', emptyText(ward, ward.elected)),
];

const printOutput = async (title, ...words) => {
  const {output, why} = await outputOnce(...words);
  if (output) printText(title, made('pre', {}, shownName(output))); else tell('refused', 'The text couldn\u2019t be printed.', why);
};

const saveOutput = async (name, type, ...words) => {
  const {output, why} = await outputOnce(...words);
  if (output) saveAs(name, output, type); else tell('refused', 'The file couldn\u2019t be downloaded.', why);
};

// Returns the field for the election's title. The browser stores it.
const titleField = (key) => {
  const field = made('input', {type: 'text', autocomplete: 'off', className: 'long', defaultValue: stored('title', ''), data: {key}});
  field.addEventListener('input', () => store('title', field.value));
  return made('label', {}, 'Election title, for printed pages ', field);
};

// Downloads an HTML page with the election's title. A page that this one opened would have this one's policy, and so lose its style.
const savePage = (name, ...words) => saveOutput(name, 'text/html', ...words, ...(stored('title') ? [`--title=${stored('title')}`] : []));

// Returns the button that downloads a form of a ward, to print and fill in.
const formButton = (text, form, ward) => button(text, () => saveOutput(`${form}-${ward}.html`, 'text/html', 'forms', form, ward), {key: `form ${form}`});

const printsOf = (ward) => {
  const {ward: number} = ward;
  return [made('h3', {}, 'Print and download'), made('p', {className: 'row'}, titleField('title page')), made('p', {className: 'acts'},
    button('Download result page', () => savePage(`result-${number}.html`, 'page', number), {key: 'page', main: ward.phase === 'declared'}),
    ward.phase === 'declared' ? button('Print declaration', () => printOutput('Declaration', 'result', number), {key: 'print-result'}) : '',
    ward.phase === 'declared' ? formButton('Download declaration form', 'declaration', number) : '',
    button('Print stage sheet', () => printOutput('Stage sheet', 'sheet', number), {key: 'print-sheet'}),
    button('Download stage sheet', () => saveOutput(`sheet-${number}.txt`, 'text/plain', 'sheet', number), {key: 'save-sheet'}),
    isUncontested(ward) ? '' : button('Download ballots', () => saveOutput(`ballots-${number}.txt`, 'text/plain', 'ballots', number), {key: 'save-ballots'})),
  made('p', {className: 'hint'}, 'Open a downloaded page in the browser to print it. Sign the result page.')];
};

"#;
