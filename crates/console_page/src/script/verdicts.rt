//! Part of the script: the verdicts of a ward.

/// Declares the list of verdicts, and what follows the last of them.
pub(crate) const VERDICTS: &str = r#"// ---- verdicts

const MOST_VERDICTS = 200;

const verdictText = (candidates, it) => {
  if (it.verdict === 'open') return made('b', {className: 'waiting'}, 'To judge');
  if (it.verdict === 'rejected') return [made('b', {}, 'Rejected: '), REJECTIONS[it.code]];
  return [made('b', {}, 'Accepted: '), preferencesOf(candidates, it.preferences)];
};

const verdictTable = (candidates, papers) => table({className: 'plain'}, ['Batch', 'Paper', 'Verdict'],
  papers.map((it) => row(numeric(it.batch), numeric(it.paper), made('td', {}, ...[verdictText(candidates, it)].flat()))));

const verdictList = (ward, {candidates, papers}) => {
  const judged = papers.filter((it) => it.verdict !== 'open');
  if (!judged.length) return [];
  const accepted = judged.filter((it) => it.verdict === 'accepted').length;
  const shown = judged.slice(0, MOST_VERDICTS);
  return [
    made('h3', {}, 'Verdicts'),
    made('p', {className: 'acts'}, `${accepted} accepted, ${judged.length - accepted} rejected. Compare each verdict with its paper once more.`,
      button('Print list', () => printText(['Doubtful papers: ', wardName(ward)], verdictTable(candidates, judged)), {key: 'print-verdicts'})),
    verdictTable(candidates, shown), judged.length > shown.length ? made('p', {}, `And ${judged.length - shown.length} more on the printed list`) : '',
  ];
};

// Returns the buttons for what comes after the last verdict of a ward: doubtful papers of other wards, or the seal.
const afterJudging = (ward) => {
  const elsewhere = office.wards.filter((it) => it.doubtful_open && it.ward !== ward.ward);
  if (elsewhere.length) {
    return elsewhere.slice(0, 5).map((it) => made('p', {},
      button([`${many(it.doubtful_open, 'doubtful paper')} in `, wardName(it)], () => go('doubtful', it.ward), {main: true, key: `elsewhere ${it.ward}`})));
  }
  const isReady = ward.phase === 'keying' && ward.batches > 0 && ward.taken === ward.batches;
  return [made('p', {className: 'acts'}, isReady ? button('Continue to the seal', () => go('count'), {main: true, key: 'to-seal'}) : '',
    button('Overview', () => go('overview'), {key: 'to-overview'}))];
};

const noDoubtful = (ward, papers) => {
  const waiting = ward.phase === 'keying' && ward.batches > ward.taken ? ' More may follow as batches are agreed.' : '';
  const judged = papers.length === 1 ? 'The one doubtful paper of this ward is judged.' : `All ${papers.length} doubtful papers of this ward are judged.`;
  const text = papers.length ? judged : 'The agreed batches of this ward have no doubtful papers.';
  return [made('p', {className: 'said'}, text + waiting), ...afterJudging(ward)];
};

DRAW.doubtful = async (isNow) => {
  const ward = wardOf();
  const {says, why} = ward ? await readDoubtful(ward.ward) : {};
  if (!isNow()) return;
  if (!says) {
    fill(at('judging'), made('p', {}, why ?? 'There are no wards yet.'));
    fill(at('doubtful-forms'));
    return fill(at('judged'));
  }
  const open = says.papers.filter((it) => it.verdict === 'open');
  document.body.classList.toggle('judging', open.length > 0);
  judging.candidates = says.candidates;
  const isOpen = open.some((it) => it.batch === judging.batch && it.paper === judging.paper) && judging.ward === ward.ward;
  if (!isOpen && open.length) choosePaper(ward.ward, open[0]);
  fill(at('judging'), open.length ? drawPaper(ward, open) : noDoubtful(ward, says.papers));
  fill(at('doubtful-forms'), says.papers.length ? formButton('Download form for the verdicts', 'adjudication', ward.ward) : '');
  return fill(at('judged'), verdictList(ward, says));
};

"#;
