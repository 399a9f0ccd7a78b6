//! Part of the script: keyings from files.

/// Declares how tellers' keyings are imported from files.
pub(crate) const KEYINGS: &str = r#"// ---- keyings from tellers' files

// The files that were dropped last, each with its result.
let brought = [];

// Returns the batch and the teller that the first field of a file names, such as `paper 12/4`, or null.
const headingOf = (text) => {
  const [, batch, clerk] = /^\ufeff?"?paper ([1-9]\d{0,3})\/([1-9]\d{0,2})"?[,\r\n]/.exec(text) ?? [];
  return batch ? {batch: Number(batch), clerk: Number(clerk)} : null;
};

// Returns the current round of a batch, or 0 if no ward in keying has the batch. Looks first where the batch was when it was last read.
const roundOf = async (batch) => {
  const had = (ward) => Boolean(detailOf(ward).batches?.some((it) => it.batch === batch));
  for (const {ward} of office.wards.filter((it) => it.phase === 'keying').sort((one, other) => had(other) - had(one))) {
    const found = (await readBatches(ward)).says?.batches.find((it) => it.batch === batch);
    if (found) return found.round;
  }
  return 0;
};

// Asks whether a file is of a later round than the first. No file says which round it is of, so one of an earlier round could be dropped again.
const isOfRound = ({name}, {batch, clerk}, round) => askFirst(`Import teller ${clerk}\u2019s keying of batch ${batch} for round ${round}?`, 'Import',
  made('p', {}, 'File: ', isolated(name)),
  `The file doesn\u2019t say which round it is of. Import it only if teller ${clerk} keyed the batch from the papers in round ${round}.`,
  warningText('If it is the file of an earlier round, cancel.'));

const bringFile = async (file) => {
  const text = await textOf(file);
  const heading = text === null ? null : headingOf(text);
  if (text === null) return {name: file.name, text: 'The file isn\u2019t UTF-8. Save it as CSV (UTF-8), then drop it again.', isWrong: true};
  if (!heading) {
    return {name: file.name, text: 'The file doesn\u2019t name its batch and teller. Its first line must begin with, for example, paper 12/4.', isWrong: true};
  }
  const round = await roundOf(heading.batch);
  if (!round) {
    const why = `No ward that is being keyed has batch ${heading.batch}. Check the number in the file\u2019s first line.`;
    return {name: file.name, text: why, isWrong: true};
  }
  const what = `Batch ${heading.batch}, teller ${heading.clerk}, round ${round}`;
  if (round > 1 && !await isOfRound(file, heading, round)) return {name: file.name, text: `${what}: canceled`, isWrong: true};
  const name = `k${heading.clerk}-${heading.batch}.csv`;
  const printed = await order(`import the keying of batch ${heading.batch}, round ${round}, by teller ${heading.clerk}`,
    ['import-keying', heading.clerk, heading.batch, round, name, '--id', newId()], {[name]: text});
  if (isAccepted(printed)) return {name: file.name, text: `${what}: accepted`};
  return {name: file.name, text: `${what}: ${printed ? `${explainedError(printed.errors).line}. ${explainedError(printed.errors).todo}` : 'not sent'}`, isWrong: true};
};

const bringKeyings = async (files) => {
  brought = [];
  await refresh();
  for (const file of files) {
    brought.push(await bringFile(file));
    fill(at('brought'), made('ul', {}, ...brought.map((it) =>
      made('li', {}, made('b', {}, isolated(it.name), ':'), ' ', it.isWrong ? made('b', {}, 'Not imported. ') : '', it.text))));
  }
};

"#;
