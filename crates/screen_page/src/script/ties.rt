//! Part of the script: ties, as a stage sheet shows them.

/// Declares how to tell which candidates were tied for the action of a stage, and what settled the tie.
pub(crate) const TIES: &str = r#"// ---- ties

const votesAt = (stage, candidate) => stage.rows.find((it) => it.candidate === candidate).units;

// Returns those of some candidates who have the most votes at a stage, or the fewest.
const extreme = (stage, candidates, isMost) => {
  const wanted = Math[isMost ? 'max' : 'min'](...candidates.map((it) => votesAt(stage, it.candidate)));
  return candidates.filter((it) => votesAt(stage, it.candidate) === wanted);
};

// Returns who ties for what comes after some stages, or null if nobody does: the highest surplus, or else the fewest votes. The latest stage
// at which their votes differed settles a tie; of those still equal there, earlier stages do. `settled` is the number of the last stage
// that was needed, or 0 if a lot decides, and then `tied` are those among whom it is drawn.
const tieAfter = ({seats, quota}, stages) => {
  const {rows} = stages.at(-1);
  const elected = rows.filter((it) => /[Ee]/.test(it.letter)), continuing = rows.filter((it) => it.letter === '-');
  if (elected.length >= seats || !continuing.length) return null;
  const over = elected.filter((it) => it.units > unitsOf(quota));
  const isSurplus = over.length > 0;
  const tied = extreme(stages.at(-1), isSurplus ? over : continuing, isSurplus);
  let left = tied;
  for (let place = stages.length - 2; place >= 0 && left.length > 1; place -= 1) {
    left = extreme(stages[place], left, isSurplus);
    if (left.length === 1) return {isSurplus, tied, settled: place + 1};
  }
  return left.length > 1 ? {isSurplus, tied: left, settled: 0} : null;
};

"#;
