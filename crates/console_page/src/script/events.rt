//! Part of the script: what the buttons, forms and keys do.

/// Connects buttons, forms and keys with what the other parts declare, and starts the page.
pub(crate) const EVENTS: &str = r#"// ---- events: only this part runs anything when it is loaded

const isTyping = ({target}) => /^(INPUT|TEXTAREA|SELECT)$/.test(target.tagName) && target.type !== 'radio';

// Moves the focus from a field to what the Tab key reaches next.
const leaveField = (field) => {
  const reached = [...document.querySelectorAll('button, input, select, summary')].filter((it) => !it.disabled && it.offsetParent);
  (reached[reached.indexOf(field) + 1] ?? at('sign-out')).focus();
};

// Handles the keys of a field: Enter leaves it as Tab does, so that no form is sent from a field, and Escape leaves all fields.
const onFieldKey = (event) => {
  const {key, target} = event;
  if (at('ask').contains(target) || event.isComposing) return;
  if (key === 'Escape') target.blur();
  if (key !== 'Enter' || !/^(text|search)$/.test(target.type)) return;
  event.preventDefault();
  leaveField(target);
};

const onKey = (event) => {
  // While Enter is held down, it doesn't press the button that it has reached.
  if (event.key === 'Enter' && event.repeat) event.preventDefault();
  if (event.ctrlKey || event.metaKey || event.altKey || event.repeat) return;
  if (isTyping(event)) { onFieldKey(event); return; }
  if (at('ask').open) { onAskKey(event); return; }
  if (view === 'doubtful' && onDoubtfulKey(event)) return;
  const tab = TABS[Number(event.key) - 1];
  if (/^[1-6]$/.test(event.key)) { event.preventDefault(); go(tab[0]); }
  if (event.key === 'Escape') go('overview');
};

document.addEventListener('keydown', onKey);
at('ask-yes').addEventListener('click', () => closeAsked(true));
at('ask-no').addEventListener('click', () => closeAsked(false));
at('ask').addEventListener('close', () => closeAsked(false));
at('ask').addEventListener('cancel', () => closeAsked(false));

at('add-candidate').addEventListener('submit', addCandidate);
at('add-ward').addEventListener('submit', addWard);
at('give-out').addEventListener('submit', giveOut);
at('give-out').addEventListener('input', drawGiven);
takeFiles('drop-candidates', 'candidates-file', dropCandidates);
takeFiles('drop-keyings', 'keyings-files', bringKeyings);
// If a file is dropped anywhere else, the browser must not open it in place of the console.
for (const name of ['dragover', 'drop']) addEventListener(name, (event) => event.preventDefault());

at('receipt-search').addEventListener('input', () => { Object.assign(receiptFilter, {search: at('receipt-search').value, most: MOST_SHOWN}); draw(); });
at('receipt-actor').addEventListener('change', () => { Object.assign(receiptFilter, {actor: at('receipt-actor').value, most: MOST_SHOWN}); draw(); });

at('sign-out').addEventListener('click', async () => {
  const answer = await ask('leave');
  const text = answer?.status === 200 ? 'If this address opens again without asking for the code, close' : 'Close';
  document.body.replaceChildren(made('p', {className: 'said'}, `You have signed out. ${text} all browser windows.`));
});

addEventListener('hashchange', route);
addEventListener('afterprint', endPrinting);
document.addEventListener('visibilitychange', () => { if (!document.hidden) refresh(); });
addEventListener('storage', ({key}) => { if (key?.startsWith(`${FRONT}expected`) || key === `${FRONT}copy`) draw(); });
addEventListener('storage', ({key}) => { if (key === `${FRONT}mended` && stored('mended')?.isServed) readAgain(); });
addEventListener('beforeunload', (event) => { if (current && !stores) event.preventDefault(); });
addEventListener('pagehide', () => document.body.replaceChildren());
addEventListener('pageshow', ({persisted}) => { if (persisted) location.reload(); });

const start = async () => {
  keepDrafts();
  await refresh();
  await resume();
  keepFresh();
};

start();
"#;
