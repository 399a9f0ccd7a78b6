//! The stages of a ward, as a table for a spreadsheet.

ghost use Rattle.std.specs.Prelude.{◌≡◌, ◌+◌, ◌-◌, ◌++◌, [], ◌∷◌, map, string_bytes, IfOk, OnOk};
ghost use Rattle.csv.specs.Writing.{row_text};
ghost use Rattle.votes.specs.Text.{votes_text};
ghost use Rattle.std.specs.List.{flat_map};
ghost use Rattle.sheet.specs.Cells.{each_after};
ghost use Rattle.sheet.specs.Entries.{shown};
ghost use Rattle.sheet.specs.Spreadsheet.{begins_formula as begins_formula_of, candidate_row as candidate_row_of, head_row as head_row_of, name_cell as name_cell_of, stage_cells};
ghost use Rattle.sheet.specs.Spreadsheet.{stage_heads, standing as standing_of, standing_word as standing_word_of, sum_row as sum_row_of, spreadsheet, value_before as value_before_of};
ghost use Rattle.sheet.specs.Spreadsheet.{value_in as value_in_of, writer};
ghost use Rattle.sheet.specs.Wards.{CanBePrinted};

use crate::stage::{Fate, fate_at, votes_of};
use crate::ward::Ward;
use count::Stage;
use csv::{QuoteStyle, WriterBuilder};
use std::alloc::{AllocError, Global};
use votes::Votes;

/// Returns the standing of a candidate after a stage, in one word.
fn standing_word(fate: Fate) -> &'static str
    ensures { result.now ≡ standing_word_of fate }
{
    match fate {
        Fate::NewlyElected | Fate::Elected => "elected",
        Fate::NewlyExcluded | Fate::Excluded => "excluded",
        Fate::Continuing => "continuing",
    }
}

/// The subject of a row of the table.
#[derive(Clone, Copy)]
enum Line {
    /// The votes of the candidate with the given number.
    Candidate(u8),
    /// The running total of the non-transferable votes.
    NonTransferable,
    /// The running total of the loss by fractions.
    Lost,
}

impl Line {
    /// Returns the value of the line at the given stage.
    fn value_in(self, stage: &Stage) -> Votes
        ensures { result ≡ value_in_of self stage.now }
    {
        match self {
            Line::Candidate(c) => votes_of(stage, c),
            Line::NonTransferable => stage.non_transferable,
            Line::Lost => stage.lost,
        }
    }

    /// Returns the value of the line at the last of the given stages; 0 before the first.
    fn value_before(self, earlier: &[Stage]) -> Votes
        ensures { result ≡ value_before_of self earlier.now }
    {
        match earlier.last() {
            None => Votes::from_units(0),
            Some(stage) => self.value_in(stage),
        }
    }

    /// Returns the standing after the given stage, if the line is a candidate's.
    fn standing(self, earlier: &[Stage], stage: &Stage) -> &'static str
        ensures { result.now ≡ standing_of self earlier.now stage.now }
    {
        match self {
            Line::Candidate(c) => standing_word(fate_at(earlier, stage, c)),
            Line::NonTransferable | Line::Lost => "",
        }
    }
}

/// Returns the difference between two values, or 0 if it is negative.
fn less(value: Votes, other: Votes) -> Votes
    ensures { result ≡ value - other }
{
    Votes::from_units(value.units().saturating_sub(other.units()))
}

/// Appends a cell; `AllocError` if an allocation fails.
fn push_text(alloc: Global, row: &mut Vec<String>, text: &str) -> Result<(), AllocError>
    ensures { OnOk result (map string_bytes row.new.items ≡ map string_bytes row.old.items ++ text.now ∷ []) }
{
    row.push(String::from_str(alloc, text)?)?;
    Ok(())
}

/// Appends the cell of a value; `AllocError` if an allocation fails.
fn push_value(alloc: Global, row: &mut Vec<String>, value: Votes) -> Result<(), AllocError>
    ensures { OnOk result (map string_bytes row.new.items ≡ map string_bytes row.old.items ++ votes_text value ∷ []) }
{
    row.push(format!(in alloc; "{value}")?)?;
    Ok(())
}

/// Appends the cells of the line at the given stage; `AllocError` if an allocation fails.
fn push_cells(
    alloc: Global,
    row: &mut Vec<String>,
    line: Line,
    earlier: &[Stage],
    stage: &Stage,
) -> Result<(), AllocError>
    ensures { OnOk result (map string_bytes row.new.items ≡ map string_bytes row.old.items ++ stage_cells line earlier.now stage.now) }
{
    let value = line.value_in(stage);
    let before = line.value_before(earlier);
    push_value(alloc, row, value)?;
    push_value(alloc, row, less(value, before))?;
    push_value(alloc, row, less(before, value))?;
    push_text(alloc, row, line.standing(earlier, stage))
}

/// Appends the cells of the line at all stages; `AllocError` if an allocation fails.
fn push_all_cells(
    alloc: Global,
    row: &mut Vec<String>,
    line: Line,
    stages: &[Stage],
) -> Result<(), AllocError>
    ensures { OnOk result (map string_bytes row.new.items ≡ map string_bytes row.old.items ++ each_after (stage_cells line) [] stages.now) }
{
    for k in 0..stages.len() {
        push_cells(alloc, row, line, &stages[..k], &stages[k])?;
    }
    Ok(())
}

/// Appends the column heads of the given stage; `AllocError` if an allocation fails.
fn push_heads(
    alloc: Global,
    row: &mut Vec<String>,
    earlier: &[Stage],
    stage: &Stage,
) -> Result<(), AllocError>
    ensures { OnOk result (map string_bytes row.new.items ≡ map string_bytes row.old.items ++ stage_heads earlier.now stage.now) }
{
    let k = earlier.len() as u64 + 1;
    let action = stage.action;
    row.push(format!(in alloc; "Stage {k}: {action}")?)?;
    row.push(format!(in alloc; "Stage {k} gained")?)?;
    row.push(format!(in alloc; "Stage {k} lost")?)?;
    row.push(format!(in alloc; "Stage {k} standing")?)?;
    Ok(())
}

/// Appends the column heads of all stages; `AllocError` if an allocation fails.
fn push_all_heads(alloc: Global, row: &mut Vec<String>, stages: &[Stage]) -> Result<(), AllocError>
    ensures { OnOk result (map string_bytes row.new.items ≡ map string_bytes row.old.items ++ each_after stage_heads [] stages.now) }
{
    for k in 0..stages.len() {
        push_heads(alloc, row, &stages[..k], &stages[k])?;
    }
    Ok(())
}

/// Returns the row with the column heads; `AllocError` if an allocation fails.
fn head_row(alloc: Global, stages: &[Stage]) -> Result<Vec<String>, AllocError>
    ensures { IfOk result (λ row. map string_bytes row.items ≡ head_row_of stages.now) }
{
    let mut row = Vec::new(alloc);
    push_text(alloc, &mut row, "candidate")?;
    push_text(alloc, &mut row, "name")?;
    push_all_heads(alloc, &mut row, stages)?;
    Ok(row)
}

/// Returns whether a spreadsheet reads a cell with the given first byte as a formula.
fn begins_formula(byte: u8) -> bool
    ensures { result ≡ begins_formula_of byte }
{
    byte == b'=' || byte == b'+' || byte == b'-' || byte == b'@' || byte == 0xEF
}

/// Returns a name as a cell that isn't read as a formula; `AllocError` if an allocation fails.
fn name_cell(alloc: Global, name: &str) -> Result<String, AllocError>
    ensures { IfOk result (λ cell. string_bytes cell ≡ name_cell_of name.now) }
{
    match name.as_bytes().first() {
        Some(byte) if begins_formula(*byte) => format!(in alloc; "'{name}"),
        _ => String::from_str(alloc, name),
    }
}

/// Returns the row of a candidate, given the number and the name; `AllocError` if an allocation fails.
fn candidate_row(
    alloc: Global,
    stages: &[Stage],
    candidate: &(u8, String),
) -> Result<Vec<String>, AllocError>
    ensures { IfOk result (λ row. map string_bytes row.items ≡ candidate_row_of stages.now (candidate.now.0, string_bytes candidate.now.1)) }
{
    let (c, name) = candidate;
    let mut row = Vec::new(alloc);
    row.push(format!(in alloc; "{c}")?)?;
    row.push(name_cell(alloc, name.as_str())?)?;
    push_all_cells(alloc, &mut row, Line::Candidate(*c), stages)?;
    Ok(row)
}

/// Returns the row of a running total; `AllocError` if an allocation fails.
fn sum_row(
    alloc: Global,
    stages: &[Stage],
    line: Line,
    what: &str,
) -> Result<Vec<String>, AllocError>
    ensures { IfOk result (λ row. map string_bytes row.items ≡ sum_row_of stages.now line what.now) }
{
    let mut row = Vec::new(alloc);
    push_text(alloc, &mut row, "")?;
    push_text(alloc, &mut row, what)?;
    push_all_cells(alloc, &mut row, line, stages)?;
    Ok(row)
}

/// Returns the cells of a row as bytes; `AllocError` if an allocation fails.
fn fields_of<'a>(alloc: Global, row: &'a [String]) -> Result<Vec<&'a [u8]>, AllocError>
    ensures { IfOk result (λ fields. map (λ field. field.now) fields.items ≡ map string_bytes row.now) }
{
    let mut fields = Vec::new(alloc);
    for cell in row {
        fields.push(cell.as_bytes())?;
    }
    Ok(fields)
}

/// Returns the line for a row.
fn line_of(alloc: Global, fields: &[&[u8]]) -> Result<Vec<u8>, csv::Error>
    ensures { IfOk result (λ line. line.items ≡ row_text writer (map (λ field. field.now) fields.now)) }
{
    let mut line = WriterBuilder::new()
        .quote_style(QuoteStyle::Always)
        .from_writer(Vec::new(alloc));
    line.write_fields(fields)?;
    match line.into_inner() {
        Ok(bytes) => Ok(bytes),
        Err(error) => Err(error.into_error()),
    }
}

/// Appends the line for a row. A writer to memory fails only if an allocation fails.
#[tactic(auto, using(crate::proofs::Rows::rows))]
fn push_row(alloc: Global, text: &mut String, row: &[String]) -> Result<(), AllocError>
    ensures { OnOk result (string_bytes text.new ≡ string_bytes text.old ++ row_text writer (map string_bytes row.now)) }
{
    let fields = fields_of(alloc, row)?;
    match line_of(alloc, &fields) {
        Ok(line) => text.push_str(String::from_utf8(line).unwrap().as_str()),
        Err(_) => Err(AllocError),
    }
}

/// Appends the rows of all candidates; `AllocError` if an allocation fails.
fn push_candidate_rows(
    alloc: Global,
    text: &mut String,
    ward: &Ward,
    stages: &[Stage],
) -> Result<(), AllocError>
    ensures { OnOk result (string_bytes text.new ≡ string_bytes text.old ++ flat_map (row_text writer) (map (candidate_row_of stages.now) (shown ward.now).candidates)) }
{
    for candidate in ward.candidates {
        push_row(alloc, text, &candidate_row(alloc, stages, candidate)?)?;
    }
    Ok(())
}

/// Returns the stages of a ward as a table for a spreadsheet, in comma-separated values. It has one row per candidate, with the
/// votes, gain, loss and standing at each stage, followed by the running totals. For an uncontested ward it shows no stages.
///
/// The only error is a failed allocation.
pub fn spreadsheet_text(alloc: Global, ward: &Ward, stages: &[Stage]) -> Result<String, AllocError>
    requires { CanBePrinted ward.now }
    ensures { IfOk result (λ text. string_bytes text ≡ spreadsheet (shown ward.now) stages.now) }
{
    let mut text = String::new(alloc);
    push_row(alloc, &mut text, &head_row(alloc, stages)?)?;
    push_candidate_rows(alloc, &mut text, ward, stages)?;
    let non_transferable = sum_row(alloc, stages, Line::NonTransferable, "non-transferable")?;
    push_row(alloc, &mut text, &non_transferable)?;
    let lost = sum_row(alloc, stages, Line::Lost, "lost by fractions")?;
    push_row(alloc, &mut text, &lost)?;
    Ok(text)
}
