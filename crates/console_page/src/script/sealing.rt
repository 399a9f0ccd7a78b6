//! Part of the script: the seal of a ward.

/// Declares what is checked before a ward is sealed, and the seal itself.
pub(crate) const SEALING: &str = r#"// ---- the seal

const check = (isRight, ...text) => made('li', {className: isRight ? 'right' : 'wrong'}, made('b', {}, isRight ? 'OK' : 'Check'), ' ', ...text);

const sealField = (ward) => {
  const field = expectedField(ward);
  field.dataset.key = 'expected-seal';
  field.addEventListener('input', () => draw());
  return made('label', {}, 'Papers expected, from the ballot boxes ', field);
};

// Returns what must be true before a ward is sealed, and what only the officer can check.
const sealChecks = (ward, batches) => {
  const expected = expectedOf(ward.ward);
  const twins = twinsIn(batches);
  const copy = stored('copy');
  const isCopied = Boolean(copy) && Date.now() - copy.at < COPY_AFTER;
  const {givenOut} = papersIn(batches);
  const differs = expected - givenOut;
  const isWhole = expected > 0 && !differs;
  const compared = !expected ? 'The number of expected papers is missing. Enter it above.'
    : differs ? `${papersOf(givenOut)} given out, but ${expected.toLocaleString('en')} expected: ${papersOf(Math.abs(differs))} too ${differs > 0 ? 'few' : 'many'}.`
      : `All expected papers were given out: ${expected.toLocaleString('en')}`;
  return {
    isReady: ward.taken === ward.batches && !ward.doubtful_open, isSure: isWhole && !twins.length, isWhole, twins,
    list: made('ul', {className: 'checks'},
      check(ward.taken === ward.batches, `${ward.taken} of ${batchesOf(ward.batches)} agreed`),
      check(!ward.doubtful_open, ward.doubtful_open ? `${many(ward.doubtful_open, 'doubtful paper')} still to judge` : 'All doubtful papers are judged'),
      check(isWhole, compared),
      twins.length ? check(false, twinsText(twins)) : '',
      check(isCopied, isCopied ? `Copy made ${ago(copy.at)}` : 'No recent copy. Make one before you seal the ward.')),
  };
};

const twinsWarning = ({twins}) => (twins.length
  ? warningText(made('b', {}, twinsText(twins)), '. If one pile was keyed as two batches, its papers count twice. Compare the piles before you seal the ward.') : null);

const seal = async (ward, checks) => {
  const isSure = await askFirst(['Seal ', wardName(ward), '?'], checks.isSure ? 'Seal' : 'Seal anyway', checks.list.cloneNode(true),
    twinsWarning(checks), checks.isWhole ? null : warningText('Some checks failed. A batch that is missing now can never be counted.'),
    'After the seal, no batch can be added and no paper can be changed. This can\u2019t be undone.');
  if (isSure) await orderWithId(`seal ward ${ward.ward} ${spokenName(ward.name)}`, ['seal', ward.ward]);
};

const drawSeal = async (ward) => {
  const {says, why} = await readBatches(ward.ward);
  if (!says) return [made('p', {}, why)];
  const checks = sealChecks(ward, says.batches);
  const acts = [];
  if (ward.differing || ward.taken < ward.batches
    || !ward.batches || checks.twins.length) acts.push(button('Batches', () => go('batches'), {key: 'to-batches', main: ward.differing > 0}));
  if (ward.doubtful_open) acts.push(button('Doubtful papers', () => go('doubtful'), {key: 'to-doubtful', main: true}));
  return [
    made('p', {className: 'said'}, checks.isReady && ward.batches ? 'Next: the seal' : 'Not ready to seal yet'),
    twinsWarning(checks), made('p', {className: 'row'}, sealField(ward)), checks.list,
    made('p', {className: 'acts'},
      button(`Seal ward ${ward.ward}`, () => seal(ward, checks), {key: 'seal', main: checks.isReady && checks.isSure, disabled: !checks.isReady}), ...acts,
      button('Make a copy', makeCopy, {key: 'copy-first'})),
  ];
};

"#;
