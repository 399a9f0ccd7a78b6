//! Part of the script: the results are published in a folder.

/// Declares how the results of all sealed wards are published, for everyone to see and check.
pub(crate) const PUBLISHING: &str = r#"// ---- publishing the results

const WITH_BALLOTS = 'publish ballots';

// Publishes the results in a new folder, whose name is that of no other.
const publishResults = async () => {
  const folder = `results-${timeText()}`, title = stored('title', ''), withBallots = stored(WITH_BALLOTS, false);
  const sealed = office.wards.filter(wasSealed), open = sealed.filter((it) => it.phase !== 'declared');
  const isSure = await askFirst('Publish the results?', 'Publish', made('ul', {},
    made('li', {}, 'Folder: ', made('code', {}, folder), ', next to the office\u2019s file'),
    made('li', {}, 'Title: ', title ? isolated(title) : 'none'),
    made('li', {}, withBallots ? 'With the ballots of each ward' : 'Without ballots'),
    made('li', {}, sealed.length === 1 ? 'Ward: ' : 'Wards: ', ...listed(sealed.map((it) => String(it.ward))))),
  open.length ? warningText(open.length === 1 ? 'Not declared yet: ward ' : 'Not declared yet: wards ', ...listed(open.map((it) => String(it.ward))), '. What is published shows the count so far.')
    : null, 'Everyone who uses this computer may read the folder.');
  if (isSure) await order(`publish the results in ${folder}`, ['publish', folder, ...(title ? [`--title=${title}`] : []), ...(withBallots ? ['--ballots'] : [])]);
};

const ballotsChoice = () => {
  const box = made('input', {type: 'checkbox', defaultChecked: stored(WITH_BALLOTS, false), data: {key: 'publish-ballots'}});
  box.addEventListener('change', () => store(WITH_BALLOTS, box.checked));
  return made('label', {className: 'choice'}, box, ' Publish the ballots too, so that anyone can count them again');
};

const drawPublication = () => {
  const folders = stored('log', []).filter((it) => it.words.startsWith('publish ') && it.status === 0).slice(0, 5);
  fill(at('publication'),
    made('p', {}, 'A folder for the council\u2019s web site: the index of all wards and, for each sealed ward, its page, stage sheet, table and results, with which anyone can check the count. '
      + 'It is stored in the same folder as the office\u2019s file.'),
    ...(office.wards.some(wasSealed) ? [made('p', {className: 'row'}, titleField('title publication')), ballotsChoice(),
      made('p', {className: 'acts'}, button('Publish', publishResults, {key: 'publish'}))] : [made('p', {className: 'hint'}, 'No ward is sealed yet.')]),
    made('ul', {}, ...folders.map((it) => made('li', {}, made('code', {}, it.words.split(' ')[1]), ` at ${clock(it.at)}: ${it.reply.trim()}`))));
};

"#;
