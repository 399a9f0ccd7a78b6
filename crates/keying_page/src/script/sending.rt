//! Part of the script: the view of a finished batch, and how it is sent.

/// Declares what is shown for a finished batch while it is being sent, repeated, refused or kept.
pub(crate) const SENDING: &str = r#"// ---- the end of a batch

const numbersOf = (isMeant) => draft.rows.flatMap((it, index) => (isMeant(it.text, it.was) ? [index + 1] : []));

// Counts the papers that match, and lists the first of them.
const counted = (what, numbers) => {
  const first = numbers.slice(0, 20).join(', ') + (numbers.length > 20 ? ', ..' : '');
  return `${what}: ${papersOf(numbers.length)}${numbers.length ? `, by number ${first}` : ''}`;
};

const showEnd = (text, {sends, goesBack, isKept = false}) => {
  at('said').textContent = text;
  at('send').hidden = isKept;
  at('back').hidden = isKept;
  at('check').hidden = text !== '';
  at('send').disabled = !sends;
  at('back').disabled = !goesBack;
};

const askToSend = () => {
  settle();
  at('end-title').textContent = `Batch ${draft.batch}, round ${draft.round}: ${papersOf(draft.rows.length)} ${doneWord(draft)}`;
  at('summary').replaceChildren(
    made('li', {}, counted('Doubtful', numbersOf((text) => text === 'D'))),
    made('li', {}, counted('Without any number', numbersOf((text) => !/[0-9D]/.test(text)))),
    ...(draft.from ? [made('li', {}, counted('Corrected', numbersOf((text, was) => text !== was)))] : []));
  tries = 0;
  show('end', at('end-title'));
  showEnd('', {sends: true, goesBack: true});
  if (draft.sent) sendNow();
};

const sendNow = async () => {
  clearTimeout(timer);
  const sent = draft;
  showEnd('Sending ..', {sends: false, goesBack: false});
  const {kept, why, isOpen, waits, refusal} = await send();
  if (draft !== sent) return undefined;
  if (kept) return showKept(kept);
  if (waits) return waitToSend(told(why));
  if (refusal === 18) return backToPapers(told(why));
  return showEnd(told(why), {sends: true, goesBack: !isOpen});
};

const showKept = (reply) => {
  forget(draftName(draft.batch, draft.round));
  draft = null;
  showEnd(`The office has kept it: ${reply}.`, {sends: false, goesBack: false, isKept: true});
  at('leave').focus();
};

const waitToSend = (why) => {
  const seconds = WAITS[Math.min(tries, WAITS.length - 1)];
  tries += 1;
  timer = setTimeout(sendNow, 1000 * seconds);
  showEnd(`${why} Nothing is lost. It may have been kept, so it can\u2019t be changed now. It is sent again as it is every ${seconds} seconds, and kept once.`, {sends: true, goesBack: false});
};

"#;
