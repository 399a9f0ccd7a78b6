//! Orders and their output, as text.
//!
//! ```text
//! $ import-keying 4 12 1 FILE --id k1
//! < paper,1,2,3
//! < 1,1,2,
//! batch 12 round 1 keyed
//! $ declare 7 --id d1
//! 1| refused 9: wrong phase
//! # UPDATE ward SET phase = 2
//! ```
//!
//! A line `$ ..` contains the words after DB, separated by single spaces; `# ..` contains SQL statements for any
//! database. The lines below it are those of the file named by the words, those of the output, and, after a status,
//! those of the error output.

use super::steps::{Case, Step};
use std::alloc::{AllocError, Global};
use std::test::Fail;

/// An order with the file it names, and its expected result.
#[derive(Drop)]
pub struct Typed<'a> {
    is_order: bool,
    line: &'a str,
    words: Vec<&'a str>,
    file: Option<String>,
    status: u8,
    out: String,
    err: String,
}

fn add_line(text: &mut String, line: &str) -> Result<(), AllocError> {
    text.push_str(line)?;
    text.push('\n')
}

impl<'a> Typed<'a> {
    fn new(alloc: Global, is_order: bool, line: &'a str) -> Result<Typed<'a>, AllocError> {
        let mut words = vec![in alloc; "DB"]?;
        for word in line.split(' ') {
            words.push(word)?;
        }
        Ok(Typed {
            is_order,
            line,
            words,
            file: None,
            status: 0,
            out: String::new(alloc),
            err: String::new(alloc),
        })
    }

    /// Adds a line that follows the words.
    fn take(&mut self, alloc: Global, line: &str) -> Result<(), Fail> {
        if let Some(row) = line.strip_prefix("< ") {
            let mut file = match self.file.take() {
                Some(file) => file,
                None => String::new(alloc),
            };
            add_line(&mut file, row)?;
            self.file = Some(file);
        } else if let Some((status, told)) = line.split_once("| ") {
            self.status = status.parse()?;
            add_line(&mut self.err, told)?;
        } else {
            add_line(&mut self.out, line)?;
        }
        Ok(())
    }

    pub fn case(&self) -> Case<'_> {
        let words = self.words.as_slice();
        let step = match (self.is_order, &self.file) {
            (true, None) => Step::Order(words),
            (true, Some(file)) => Step::FileOrder(words, file.as_bytes()),
            (false, _) => Step::Change(self.line),
        };
        (step, (self.status, self.out.as_str(), self.err.as_str()))
    }
}

/// Returns the orders of a transcript, in order.
pub fn read(alloc: Global, transcript: &str) -> Result<Vec<Typed<'_>>, Fail> {
    let mut asked: Vec<Typed<'_>> = Vec::new(alloc);
    for line in transcript.lines() {
        if let Some(words) = line.strip_prefix("$ ") {
            asked.push(Typed::new(alloc, true, words)?)?;
        } else if let Some(statements) = line.strip_prefix("# ") {
            asked.push(Typed::new(alloc, false, statements)?)?;
        } else if let Some(last) = asked.last_mut() {
            last.take(alloc, line)?;
        }
    }
    Ok(asked)
}
