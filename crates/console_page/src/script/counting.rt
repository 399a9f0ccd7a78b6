//! Part of the script: the count of a ward.

/// Declares how stages are counted and how a lot is recorded.
pub(crate) const COUNTING: &str = r#"// ---- the count

// The candidate chosen for a lot that isn't recorded yet.
let drawn = {ward: 0, stage: 0, candidate: 0};

const actionText = (next, candidates) => {
  const who = next.candidate ? withNumber(nameIn(candidates, next.candidate)) : '';
  if (next.action === 'first') return ['the first preferences are counted'];
  if (next.action === 'surplus') return ['the surplus of ', who, ' is transferred'];
  if (next.action === 'exclusion') return [who, ' has the fewest votes and is excluded, and the candidate\u2019s papers go to their next preferences'];
  return [who, ' is excluded, and the last vacancies are filled'];
};

const advance = async (ward, next, candidates) => {
  const isSure = await askFirst(`Count stage ${next.stage}?`, 'Count stage', made('p', {}, wardName(ward)),
    made('p', {}, 'At this stage, ', ...actionText(next, candidates), '.'), 'A stage can\u2019t be undone once it is counted.');
  if (!isSure) return;
  shown.stage = 0;
  await orderOnce(`count stage ${next.stage} of ward ${ward.ward}`, ['advance', ward.ward], `${ward.ward}-${next.stage}`);
};

const countOn = async (ward, next) => {
  const isSure = await askFirst(`Count from stage ${next.stage} on?`, 'Count', made('p', {}, wardName(ward)),
    'All stages up to the next lot or the end are counted. You can view each of them afterwards.', 'A stage can\u2019t be undone once it is counted.');
  if (!isSure) return;
  shown.stage = 0;
  await orderOnce(`count ward ${ward.ward} up to the next lot or the end`, ['count', ward.ward], `${ward.ward}-${next.stage}`);
};

const lotTexts = {
  exclusion: ['Who is excluded?', 'is excluded', 'who is excluded'],
  surplus: ['Whose surplus is transferred first?', 'has the surplus that is transferred first', 'whose surplus is transferred first'],
};

const recordLot = async (ward, next, candidates) => {
  const who = nameIn(candidates, drawn.candidate);
  const isSure = await askFirst('Record this lot?', 'Record lot',
    made('p', {}, wardName(ward), `, stage ${next.stage}: a lot was drawn among `, ...listed(namesOf(candidates, next.tied)), '.'),
    made('p', {className: 'said'}, withNumber(who), ` ${lotTexts[next.decides][1]}.`),
      warningText('Read this aloud to the witnesses. A lot can\u2019t be undone.'));
  if (isSure) await orderWithId(`record the lot at stage ${next.stage} of ward ${ward.ward}: ${who.candidate} ${spokenName(who.name)}`,
    ['lot', ward.ward, next.stage, who.candidate]);
};

const drawLot = (ward, next, candidates) => {
  if (drawn.ward !== ward.ward || drawn.stage !== next.stage) drawn = {ward: ward.ward, stage: next.stage, candidate: 0};
  const choices = next.tied.map((number) => {
    const input = made('input', {type: 'radio', name: 'lot', value: String(number), defaultChecked: drawn.candidate === number, data: {key: `lot ${number}`}});
    input.addEventListener('change', () => { drawn.candidate = number; draw(); });
    return made('label', {className: 'choice'}, input, ' ', withNumber(nameIn(candidates, number)));
  });
  return [
    made('p', {className: 'said'}, `Next: a lot, for stage ${next.stage}`),
    made('p', {}, ...listed(namesOf(candidates, next.tied)),
      ` had equal votes at every stage. Draw a lot among them in front of witnesses to decide ${lotTexts[next.decides][2]}. Then choose that candidate.`),
    made('fieldset', {}, made('legend', {}, lotTexts[next.decides][0]), ...choices),
    made('p', {className: 'acts'}, button('Record lot', () => recordLot(ward, next, candidates), {key: 'lot', main: true, disabled: !drawn.candidate}),
      formButton('Download form for the lot', 'lots', ward.ward)),
  ];
};

const drawStage = (ward, next, candidates) => [
  made('p', {className: 'said'}, `Next: stage ${next.stage}`), made('p', {}, 'At this stage, ', ...actionText(next, candidates), '.'),
  made('p', {className: 'acts'}, button(`Count stage ${next.stage}`, () => advance(ward, next, candidates), {key: 'advance', main: true}),
    button('Count up to the next lot or the end', () => countOn(ward, next), {key: 'count'})),
];

const notYet = (ward) => [made('p', {className: 'said'}, 'Nominations are still open. There is nothing to count yet.'),
  made('p', {className: 'acts'}, button('Nominations', () => go('nominations'), {key: 'to-nominations', main: true}))];

const drawNow = (ward, {next, candidates}) => {
  if (ward.phase === 'nominations') return notYet(ward);
  if (ward.phase === 'keying') return drawSeal(ward);
  if (next.step === 'lot') return drawLot(ward, next, candidates);
  if (next.step === 'stage') return drawStage(ward, next, candidates);
  if (next.step === 'declaration') return drawDeclare(ward, candidates);
  return drawDeclared(ward, candidates);
};

DRAW.count = async (isNow) => {
  const ward = wardOf();
  const {says, why} = ward ? await readWard(ward.ward) : {};
  if (!isNow()) return;
  if (!says) {
    for (const id of ['count-result', 'count-chart']) fill(at(id));
    return fill(at('count-now'), made('p', {}, why ?? 'There are no wards yet.'));
  }
  const isSealed = wasSealed(ward);
  const [now, chart] = [await drawNow(ward, says), isSealed ? await drawChart(ward) : []];
  if (!isNow()) return undefined;
  const isDeclared = ward.phase === 'declared';
  fill(at('count-now'), made('div', {className: isDeclared ? '' : 'case'}, made('p', {className: 'which'}, wardName(ward)), ...now),
    isDeclared ? printsOf(ward) : []);
  fill(at('count-result'), isSealed && !isDeclared ? printsOf(ward) : []);
  return fill(at('count-chart'), chart);
};

"#;
