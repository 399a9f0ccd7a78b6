//! Part of the script: the chart of a stage.

/// Declares the chart and the figures of each stage of a count.
pub(crate) const CHART: &str = r#"// ---- the chart and the figures of a stage

// The stage that is shown; 0 means the last one counted.
const shown = {ward: 0, stage: 0};

// Returns the stages of a ward from its table: what was done at each stage, and the votes and the standing of each candidate.
const stagesIn = (text, known) => {
  const [heads, ...rows] = csvRows(text);
  const count = (heads.length - 2) / 4;
  const cell = (record, place) => ({votes: record[2 + 4 * place], gained: record[3 + 4 * place], lost: record[4 + 4 * place], standing: record[5 + 4 * place]});
  const candidates = rows.filter((it) => it[0]), sums = rows.filter((it) => !it[0]);
  return Array.from({length: count}, (_, place) => ({
    what: heads[2 + 4 * place].replace(/^Stage \d+: /, ''),
    candidates: candidates.map((it) => ({candidate: Number(it[0]), name: nameIn(known, Number(it[0])).name, ...cell(it, place)})),
    sums: sums.map((it) => ({name: it[1], ...cell(it, place)})),
  }));
};

// Returns the description of a stage, such as `surplus of 1`, with the name of the candidate.
const stageText = (what, candidates) => {
  const [, before, number, after] = /^(surplus of |exclusion of )(\d+)(.*)$/.exec(what) ?? [];
  return number ? [before, withNumber(nameIn(candidates, Number(number))), after] : [what];
};

// Returns the seats, the valid papers, the quota and the rejected papers of a stage sheet.
const sheetFigures = (text) => {
  const [, seats, valid, quota] = /^Seats (\d+), valid (\d+), quota ([\d.]+)$/m.exec(text) ?? [];
  const rejected = /^Rejected (.*)$/m.exec(text)?.[1].split(', ').map((it) => it.split(': ').map(Number)) ?? [];
  return {seats: Number(seats), valid: Number(valid), quota, rejected};
};

const moved = ({gained, lost}) => (Number(gained) ? `+${gained}` : Number(lost) ? `\u2212${lost}` : '');

const barOf = (votes, most, quota, standing) => {
  const bar = made('span', {className: votes ? `bar ${standing}` : ''});
  bar.style.width = `${Math.min(100, 100 * votes / most)}%`;
  const line = made('span', {className: 'quota'});
  line.style.left = `${Math.min(100, 100 * quota / most)}%`;
  return made('span', {className: 'track', ariaHidden: 'true'}, bar, line);
};

const wordOf = (each, before) => {
  if (each.standing === 'continuing') return '';
  return each.standing === before?.standing ? each.standing : made('b', {}, `${each.standing} now`);
};

const stageTable = (stages, place, quota) => {
  const most = Math.max(Number(quota), ...stages.flatMap((stage) => stage.candidates.map((it) => Number(it.votes)))) * 1.02;
  const {candidates, sums} = stages[place];
  const before = place ? stages[place - 1].candidates : [];
  const rows = candidates.map((it, index) =>
    made('tr', {className: it.standing}, made('th', {scope: 'row'}, withNumber(it)),
    made('td', {className: 'chart'}, barOf(Number(it.votes), most, Number(quota), it.standing)),
    numeric(it.votes), made('td', {className: 'figure small'}, place ? moved(it) : ''), made('td', {}, wordOf(it, before[index]))));
  const others = sums.map((it) =>
    made('tr', {className: 'others'}, made('th', {scope: 'row'}, it.name), made('td', {}, ''), numeric(it.votes),
    made('td', {className: 'figure small'}, place ? moved(it) : ''), made('td', {}, '')));
  return table({className: 'stage'}, ['Candidate', `Chart (the line marks the quota, ${quota})`, 'Votes', place ? 'Change' : '', 'Standing'], [...rows, ...others]);
};

const stageHead = (stages, place, turnTo) => made('div', {className: 'stagehead'},
  button('\u25c0 Previous stage', () => turnTo(place - 1), {key: 'stage-before', disabled: place === 0}),
  made('h3', {}, `Stage ${place + 1} of ${stages.length}: `, ...stageText(stages[place].what, stages[place].candidates)),
  button('Next stage \u25b6', () => turnTo(place + 1), {key: 'stage-after', disabled: place === stages.length - 1}));

const rejectedText = (rejected) => rejected.filter(([, count]) => count).map(([code, count]) => `${count} ${REJECTIONS[code]}`).join(', ') || 'none';

const drawChart = async (ward) => {
  if (isUncontested(ward)) return [];
  const [sheet, stageList, {says, why}] = await Promise.all([outputOnce('sheet', ward.ward), outputOnce('table', ward.ward), readWard(ward.ward)]);
  if (!sheet.output || !stageList.output || !says) return [made('p', {}, sheet.why ?? stageList.why ?? why)];
  const {valid, quota, rejected} = sheetFigures(sheet.output);
  const stages = stagesIn(stageList.output, says.candidates);
  const total = rejected.reduce((sum, [, count]) => sum + count, 0);
  const figures = made('p', {className: 'figures'}, made('span', {}, made('b', {}, valid.toLocaleString('en')), ' valid papers'),
    made('span', {}, made('b', {}, total.toLocaleString('en')), ` rejected (${rejectedText(rejected)})`),
    made('span', {}, made('b', {}, quota), ' quota'), made('span', {}, made('b', {}, String(ward.seats)), ward.seats === 1 ? ' seat' : ' seats'));
  if (!stages.length) return [figures];
  if (shown.ward !== ward.ward) Object.assign(shown, {ward: ward.ward, stage: 0});
  const place = (shown.stage && shown.stage <= stages.length ? shown.stage : stages.length) - 1;
  const turnTo = (to) => { shown.stage = to === stages.length - 1 ? 0 : to + 1; draw(); };
  return [figures, stageHead(stages, place, turnTo), stageTable(stages, place, quota)];
};

"#;
