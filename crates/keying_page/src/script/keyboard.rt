//! Part of the script: the views of the page, and keyboard input for a paper.

/// Declares how the views change, and what keyboard input does in the view with papers.
pub(crate) const VIEWS: &str = r#"// ---- what is shown

const VIEWS = ['batches', 'start', 'papers', 'end'];
let view = 'batches';
let timer = 0;
let turns = 0;
let tries = 0;

const show = (name, focused) => {
  view = name;
  VIEWS.forEach((id) => { at(id).hidden = id !== name; });
  focused.focus();
};

const save = (which = draft) => {
  keepAt(draftName(which.batch, which.round), which);
  at('unkept').hidden = keeps;
};

const told = (why) => why.filter(Boolean).join(' ');

// ---- a paper

// Processes a key or another input, and stores and shows the result.
const take = (act) => {
  const why = typeof act === 'string' ? press(act) : act();
  at('go').value = '';
  if (!draft) return;
  save();
  if (view !== 'papers') return;
  showPapers();
  if (why) refuse(why); else say('');
};

const askPaper = () => at('go').focus();

const askTakeOut = () => {
  at('out-text').textContent = `Remove paper ${paper()}? Each later paper moves up by one.`;
  at('out').showModal();
  at('out-no').focus();
};

const isForPaper = () => view === 'papers' && !at('out').open && (document.activeElement === document.body || at('table').contains(document.activeElement));

// Spreadsheet users press Tab after each number. The cursor has already moved, so Tab moves it no further.
const isSpareTab = ({key, shiftKey}) => key === 'Tab' && !shiftKey && wentOn;

const isNumLockOff = ({code, key}) => code.startsWith('Numpad') && key.length > 1 && key !== 'Enter';

const onPaperKey = (event) => {
  const {key} = event;
  if (event.ctrlKey || event.metaKey || event.altKey || event.isComposing) return;
  if (isSpareTab(event)) {
    event.preventDefault();
    wentOn = false;
    return;
  }
  const isOff = isNumLockOff(event);
  if (key.length > 1 && !isOff && !Object.hasOwn(STEPS, key)) return;
  event.preventDefault();
  if (event.repeat && !key.startsWith('Arrow')) return;
  if (isOff) refuse('Num Lock is off, so this key is no digit. Switch it on.');
  else if (key === 'g' || key === 'G') askPaper();
  else if (key === 'Delete' && event.shiftKey) askTakeOut();
  else take(key);
};

// An on-screen keyboard reports what it types, and no key.
const onPaperInput = (event) => {
  event.preventDefault();
  if (event.inputType === 'deleteContentBackward') take('Backspace');
  else if (event.data?.length === 1) take(event.data);
};

const onPaperFocus = ({target}) => {
  const column = target.id === 'end-key' ? width() : inputs().indexOf(target);
  if (column >= 0 && column !== row().column) take(() => moveTo(column));
};

// Whether a key is meant for the paper, while something else has the focus.
const isLost = ({key}) => view === 'papers' && !at('out').open && document.activeElement !== at('go') && /^[0-9.,/*dD]$/.test(key);

const onLostKey = (event) => {
  event.preventDefault();
  putCursor();
  refuse('The cursor wasn\u2019t in the paper, so that key had no effect. It is in the paper now.');
};

const backToPapers = (text) => {
  clearTimeout(timer);
  show('papers', at('which'));
  fitColumns();
  showPapers();
  say(text);
};

"#;
