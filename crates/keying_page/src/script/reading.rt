//! Part of the script: how a clerk reviews an earlier keying of the batch, paper by paper.

/// Declares the drafts that start from an earlier keying, and how a paper in such a draft is shown.
pub(crate) const READING: &str = r#"// ---- an earlier keying, gone through

// What the clerk keyed in an earlier round of the batch that is open, or nothing.
let earlier = null;

const doneWord = ({from}) => (from ? 'looked at' : 'keyed');

// Begins the new round's draft with the earlier keying. Each paper must be looked at: its own Enter, or keys that mend it, end it.
const goThrough = () => {
  const {round, papers} = earlier;
  draft.from = round;
  draft.rows = papers.map((text) => ({text, was: text, state: EARLIER, column: width()}));
  save();
  backToPapers('');
};

const readText = () => {
  const what = row().state === EARLIER ? `Paper ${paper()}, as you keyed it in round ${draft.from}` : `Paper ${paper()}, as it is now`;
  if (isDoubtful()) return `${what}: D, doubtful`;
  return /[0-9]/.test(row().text) ? `${what}:` : `${what}: no number at all`;
};

// Shows the paper large, with names: each number and its candidate, in the order of the ballot paper.
const writeRead = () => {
  at('read').hidden = !draft.from;
  if (!draft.from) return;
  const marks = isDoubtful() ? [] : row().text.split(',');
  const lines = marks.flatMap((mark, column) => (mark ? [made('li', {}, made('b', {}, mark), ' ', isolated(candidates[column].name))] : []));
  at('read-what').textContent = readText();
  at('read-marks').replaceChildren(...lines);
};

"#;
