//! Part of the script: the contents of stage sheets and declarations.

/// Declares the parsers of a stage sheet and of a declaration.
pub(crate) const SHEETS: &str = r#"// ---- stage sheets and declarations

const HEAD = /^Ward (\d+) (.*)$/s;
const FIGURES = /^Seats (\d+), (?:uncontested|valid (\d+), quota ([\d.]+))$/;
const STAGE = /^Stage (\d+): (first preferences|surplus of (\d+)|exclusion of (\d+)(, last vacancies)?)$/;
const CANDIDATE = /^([ \d]\d) ([ \d.]{13}) ([-Eex]) (.*)$/s;
const SUM = /^ {3}([ \d.]{13}) (?:non-transferable|lost by fractions)$/;
const ELECTED = /^([ \d]\d) (.*)$/s;

// Returns a value in hundred-thousandths of a vote, as a whole number.
const unitsOf = (value) => Number(value.replace('.', ''));

const linesOf = (text) => text.split('\n').slice(0, -1);

const actionIn = ([, , what, surplus, excluded, last]) => ({
  action: what === 'first preferences' ? 'first' : surplus ? 'surplus' : last ? 'last exclusion' : 'exclusion',
  candidate: Number(surplus ?? excluded ?? 0),
});

// Returns what a stage sheet says. A stage has its action, a row for each candidate, and the two sums. Fails if it isn't a sheet.
const sheetIn = (text) => {
  const [head, second, third, ...lines] = linesOf(text);
  const [, ward, name] = HEAD.exec(head);
  const [, seats, valid, quota] = FIGURES.exec(second);
  const stages = [];
  for (const line of lines) {
    const stage = STAGE.exec(line), row = CANDIDATE.exec(line);
    if (stage) stages.push({...actionIn(stage), rows: [], sums: []});
    else if (row) stages.at(-1).rows.push({candidate: Number(row[1]), votes: row[2].trim(), units: unitsOf(row[2]), letter: row[3], name: row[4]});
    else stages.at(-1).sums.push(SUM.exec(line)[1].trim());
  }
  const rejected = quota ? third.slice('Rejected '.length).split(', ').map((it) => Number(it.split(': ')[1])) : [];
  return {ward: Number(ward), name, seats: Number(seats), contested: Boolean(quota), valid: Number(valid ?? 0), quota, rejected, stages};
};

// Returns who is elected according to a declaration.
const electedIn = (text) => linesOf(text).slice(2).map((line) => {
  const [, candidate, name] = ELECTED.exec(line);
  return {candidate: Number(candidate), name};
});

// The number of the stage at which a candidate was elected or excluded, or 0.
const settledAt = (stages, candidate) =>
  1 + stages.findIndex(({rows}) => rows.find((it) => it.candidate === candidate)?.letter !== '-');

"#;
