//! The files that a script names, for a client that sends them along with the script.

ghost use Rattle.std.specs.Prelude.{◌≡◌, IfOk, map, string_bytes};
ghost use Rattle.desk.specs.ScriptFiles.{AreNamedIn, files_of};
ghost use Rattle.desk.specs.Scripts.{part_read};

use crate::lexer::part_read;
use crate::scripts::{ScriptFault, ScriptStep, lines_in, script_steps, typed_lines};
use std::alloc::{AllocError, Global};

/// Returns the paths of the files that steps read, in order, including repeats.
fn files_of(alloc: Global, turns: &[ScriptStep<'_>]) -> Result<Vec<String>, AllocError>
    ensures { IfOk result (λ paths. map string_bytes paths.items ≡ files_of turns.now) }
{
    let mut paths = Vec::new(alloc);
    for turn in turns {
        if let Some(path) = turn.errand.file() {
            paths.push(String::from_str(alloc, path)?)?;
        }
    }
    Ok(paths)
}

/// Returns the paths of the files that a script's lines name, in order; with `cut`, its whole lines. If a line isn't understood, there
/// are none: the order reports that line and opens no files. Fails if an allocation fails.
pub fn files_named_in(alloc: Global, script: &[u8], cut: bool) -> Result<Vec<String>, AllocError>
    ensures { IfOk result (λ paths. AreNamedIn (part_read cut script.now) (map string_bytes paths.items)) }
{
    let lines = lines_in(alloc, part_read(script, cut))?;
    let said = typed_lines(alloc, &lines)?;
    match script_steps(alloc, &said) {
        Ok(turns) => files_of(alloc, &turns),
        Err(ScriptFault::Memory) => Err(AllocError),
        Err(ScriptFault::ScriptLine(_, _)) => Ok(Vec::new(alloc)),
    }
}
