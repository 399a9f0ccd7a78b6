//! Printing the human-readable texts of a ward and the page listing all wards.

ghost use Rattle.sqlite.specs.Held.{state};
ghost use Rattle.office.specs.Index.{index_answer};
ghost use Rattle.office.specs.Sheets.{text_answer};
ghost use Rattle.tables.specs.Reading.{OnlyReads};
ghost use Rattle.office.specs.Answers.{WhenOpenAt};
ghost use Rattle.desk.specs.Parts.{IsFound};
ghost use Rattle.desk.specs.Pages.{page_of, printed};

use crate::lines::LineOutcome;
use office::{Office, ReadError, WardText};
use sqlite::Alter;

/// Returns one of a ward's texts, or the reason why it isn't available.
pub(crate) fn text_of<S: Alter>(office: &mut Office<S>, ward: u32, text: WardText) -> LineOutcome
    ensures found { WhenOpenAt (state S.Store) office.old office.new
        (λ s. IsFound s printed (text_answer text.entry s ward) (page_of result) office.new.closed (state S.Store office.old.held) (state S.Store office.new.held)) }
    ensures same { OnlyReads (state S.Store office.old.held) (state S.Store office.new.held) }
{
    let told = match text {
        // needs less of the office's data than the other texts
        WardText::Declaration => office.result(ward),
        _ => office.text(ward, text),
    };
    match told {
        Ok(text) => LineOutcome::Printed(text),
        Err(ReadError::Refused(refusal)) => LineOutcome::Refused(refusal),
        Err(ReadError::Fault(fault)) => LineOutcome::Failed(fault),
    }
}

/// Returns the page listing all wards, or the reason why it isn't available.
pub(crate) fn index_of<S: Alter>(office: &mut Office<S>, title: &str) -> LineOutcome
    ensures found { WhenOpenAt (state S.Store) office.old office.new
        (λ s. IsFound s printed (index_answer title.now s) (page_of result) office.new.closed (state S.Store office.old.held) (state S.Store office.new.held)) }
    ensures same { OnlyReads (state S.Store office.old.held) (state S.Store office.new.held) }
{
    match office.index(title) {
        Ok(text) => LineOutcome::Printed(text),
        Err(ReadError::Refused(refusal)) => LineOutcome::Refused(refusal),
        Err(ReadError::Fault(fault)) => LineOutcome::Failed(fault),
    }
}
