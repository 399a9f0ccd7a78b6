//! Part of the script: the totals of the papers of each ward, and which tellers still have to key.

/// Declares how the wards are read one after another, so that reading never keeps the office busy.
pub(crate) const PAPERS: &str = r#"// ---- the papers of each ward, and who is still to key

// Between two polls, wards are read for this many milliseconds, but one of them at least.
const SPENT = 100;

// What was last read of each ward: its batches while it is keyed, its next step after the seal, and its papers. Each with the ward's entry
// in the list of wards and with the number of receipts at that time.
const details = new Map();

const detailOf = ({ward}) => details.get(ward) ?? {entry: '', receipts: -1};
const isCurrent = (ward) => detailOf(ward).entry === JSON.stringify(ward);
const keepDetail = (ward, receipts, detail) => details.set(ward.ward, {entry: JSON.stringify(ward), receipts, ...detail});

const sizesOf = (batches, ...standings) => batches.reduce((sum, it) => sum + (standings.includes(it.standing) ? it.size : 0), 0);
const papersIn = (batches) => ({
  givenOut: sizesOf(batches, 'waiting', 'differing', 'taken'), keyed: sizesOf(batches, 'differing', 'taken'), agreed: sizesOf(batches, 'taken'),
});

// Returns the numbers of batches that have the same papers, a list for each such group. One of them may be in another ward.
const twinsIn = (batches) => {
  const groups = new Map();
  for (const {batch, twin} of batches.filter((it) => it.twin)) {
    const first = Math.min(batch, twin);
    groups.set(first, new Set([...groups.get(first) ?? [], batch, twin]));
  }
  return [...groups.values()].map((group) => [...group].sort((one, other) => one - other));
};

const twinsText = (groups) => groups.map((group) => `Batches ${listed(group.map(String)).join('')} have the same papers`).join('. ');

const readBatches = async (number) => {
  const [ward, {receipts}] = [wardAt(number), office];
  const found = await read(`wards/${number}/batches`);
  if (found.says && ward?.phase === 'keying') keepDetail(ward, receipts, {batches: found.says.batches, papers: papersIn(found.says.batches)});
  return found;
};

const readWard = async (number) => {
  const [ward, {receipts}] = [wardAt(number), office];
  const found = await read(`wards/${number}`);
  if (!found.says || !wasSealed(ward)) return found;
  const {next, papers_agreed: agreed, papers_given_out: givenOut} = found.says;
  keepDetail(ward, receipts, {next, papers: {givenOut, keyed: givenOut, agreed}});
  return found;
};

// Returns the papers of a ward that were given out, keyed and agreed when it was last read, or null if it wasn't read yet.
const papersFor = (ward) => detailOf(ward).papers ?? (ward.phase === 'keying' && !ward.batches ? papersIn([]) : null);

// Returns what comes next in a ward after its seal, or nothing if that isn't known.
const nextOf = (ward) => (isCurrent(ward) ? detailOf(ward).next : undefined);

// Returns whether a ward may have changed since it was read. After its seal only a lot leaves its entry in the list as it was.
const isStale = (ward) => {
  const {phase} = ward;
  if (phase === 'keying' ? !ward.batches : !wasSealed(ward) || isUncontested(ward)) return false;
  return !isCurrent(ward) || ((phase === 'keying' || nextOf(ward)?.step === 'lot') && detailOf(ward).receipts !== office.receipts);
};

// Reads the wards of which something may have changed, first those whose entry in the list changed. Then draws the overview.
const catchUp = async () => {
  const began = Date.now();
  const stale = office.wards.filter(isStale).sort((one, other) =>
    isCurrent(one) - isCurrent(other) || detailOf(one).receipts - detailOf(other).receipts);
  for (const {ward, phase} of stale) {
    const {why} = await (phase === 'keying' ? readBatches(ward) : readWard(ward));
    if (why || Date.now() - began > SPENT) break;
  }
  if (stale.length && view === 'overview') await draw();
};

// Returns the tellers who haven't keyed the current round of a batch that waits for them, each with those batches.
const tellersWaiting = () => {
  const found = new Map();
  for (const ward of office.wards.filter((it) => it.phase === 'keying')) {
    for (const {batch, clerks} of (detailOf(ward).batches ?? []).filter((it) => it.standing === 'waiting')) {
      for (const {clerk} of clerks.filter((it) => !it.keyed)) found.set(clerk, [...found.get(clerk) ?? [], batch]);
    }
  }
  return [...found].map(([clerk, batches]) => ({clerk, batches: batches.sort((one, other) => one - other)}))
    .sort((one, other) => other.batches.length - one.batches.length || one.clerk - other.clerk);
};

"#;
