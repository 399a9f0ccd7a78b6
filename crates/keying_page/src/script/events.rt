//! The last part of the script: the event listeners. Only this part runs code when it is loaded; the other parts contain only
//! declarations.

/// Adds the event listeners, and shows the first view.
pub(crate) const EVENTS: &str = r#"// ---- what leads where

const onClick = (id, act) => at(id).addEventListener('click', act);

onClick('look', () => route());
onClick('go-away', goAway);
onClick('begin', () => backToPapers(''));
onClick('through', goThrough);
onClick('not-now', () => toBatches());
onClick('leave', () => toBatches());
onClick('leave-papers', () => toBatches());
onClick('send', () => sendNow());
onClick('back', () => backToPapers(''));
onClick('doubt', () => take('D'));
onClick('put-in', () => take('Insert'));
onClick('take-out', askTakeOut);
onClick('out-no', () => at('out').close());
onClick('out-yes', () => { at('out').close(); take(takeOut); });
at('out').addEventListener('close', () => { if (view === 'papers') putCursor(); });

at('go').addEventListener('keydown', (event) => {
  const {value} = at('go');
  event.stopPropagation();
  if (event.key === 'Enter') take(() => (/^[1-9][0-9]*$/.test(value) && value <= count() ? goTo(value - 1) : 'There is no paper with that number.'));
  if (event.key === 'Escape') showPapers();
});

const isOffered = (id) => !at(id).disabled && !at(id).hidden;

document.addEventListener('keydown', (event) => {
  const isPlain = !(event.ctrlKey || event.metaKey || event.altKey || event.repeat);
  if (isForPaper()) onPaperKey(event);
  else if (isPlain && isLost(event)) onLostKey(event);
  else if (view === 'end' && isPlain && /^s$/i.test(event.key) && isOffered('send')) sendNow();
  else if (view === 'end' && isPlain && event.key === 'ArrowUp' && isOffered('back')) backToPapers('');
});
at('rows').addEventListener('beforeinput', onPaperInput);
at('rows').addEventListener('input', () => writeFields());
at('rows').addEventListener('focusin', onPaperFocus);

addEventListener('hashchange', () => route());
addEventListener('storage', ({key}) => {
  if (draft && key === draftName(draft.batch, draft.round)) toBatches(`Batch ${draft.batch} was opened in another window of this browser. Key it there, or open it here again.`);
});
addEventListener('blur', () => { at('away').hidden = view !== 'papers'; });
addEventListener('resize', () => {
  if (view === 'papers') fitColumns();
  if (isForPaper()) putCursor();
});
addEventListener('focus', () => {
  at('away').hidden = true;
  if (isForPaper()) putCursor();
});
addEventListener('beforeunload', (event) => { if (draft && !keeps) event.preventDefault(); });
// The browser's button Back can't bring a clerk's papers back.
addEventListener('pagehide', () => document.body.replaceChildren());
addEventListener('pageshow', ({persisted}) => { if (persisted) location.reload(); });

at('who').textContent = `clerk ${CLERK}`;
document.title = `Clerk ${CLERK}: keying`;
at('keys').open = innerWidth >= 700;
route();
"#;
