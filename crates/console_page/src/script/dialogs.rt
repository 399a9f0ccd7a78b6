//! Part of the script: questions before an order is sent, drafts of forms, dropped files, and printing.

/// Declares the question before an order, and what forms, files and printing share.
pub(crate) const DIALOGS: &str = r#"// ---- confirmation, forms, files and printing

let answerAsked = () => {};

const closeAsked = (isYes) => {
  const answer = answerAsked;
  answerAsked = () => {};
  if (at('ask').open) at('ask').close();
  answer(isYes);
};

// Asks for confirmation. The focus is on the question, so Enter does nothing, and Y confirms. If the dialog has a field, the focus is on
// the field, and Enter confirms.
const askFirst = (title, yes, ...text) => new Promise((resolve) => {
  closeAsked(false);
  answerAsked = resolve;
  at('ask-title').replaceChildren(...[title].flat());
  at('ask-text').replaceChildren(...text.filter(Boolean).map((it) => (it instanceof Element && /^(P|UL|OL|DIV|TABLE)$/.test(it.tagName) ? it : made('p', {}, it))));
  const field = at('ask-text').querySelector('input');
  at('ask-yes').textContent = `${yes} (${field ? 'Enter' : 'Y'})`;
  at('ask').showModal();
  (field ?? at('ask-title')).focus();
});

const onAskKey = (event) => {
  if (event.ctrlKey || event.altKey || event.metaKey || event.repeat || event.target.tagName === 'INPUT') return;
  if (/^y$/i.test(event.key)) {
    event.preventDefault();
    closeAsked(true);
  }
};

const warningText = (...text) => made('p', {className: 'warning'}, ...text);

// Restores what was typed into a form, and stores it, until the form is sent.
const keepDrafts = () => {
  for (const input of document.querySelectorAll('[data-draft]')) {
    input.value = stored(`draft ${input.id}`, '');
    input.addEventListener('input', () => store(`draft ${input.id}`, input.value));
  }
};

const clearInputs = (...ids) => {
  for (const id of ids) {
    at(id).value = '';
    unstore(`draft ${id}`);
  }
};

const setInput = (id, value) => {
  at(id).value = value;
  store(`draft ${id}`, String(value));
};

// Handles files that are dropped on an element or chosen in it.
const takeFiles = (place, input, act) => {
  at(place).addEventListener('dragover', (event) => { event.preventDefault(); at(place).classList.add('over'); });
  at(place).addEventListener('dragleave', () => at(place).classList.remove('over'));
  at(place).addEventListener('drop', (event) => {
    event.preventDefault();
    at(place).classList.remove('over');
    act([...event.dataTransfer.files]);
  });
  at(input).addEventListener('change', () => {
    act([...at(input).files]);
    at(input).value = '';
  });
};

// Prints one text alone: a sheet, a declaration or a list. Afterwards the page is as before.
const printText = (title, ...inner) => {
  at('paper').replaceChildren(made('h1', {}, ...[title].flat()), ...inner);
  document.body.classList.add('printing');
  setTimeout(() => window.print(), 50);
};

const endPrinting = () => {
  document.body.classList.remove('printing');
  at('paper').replaceChildren();
};

"#;
