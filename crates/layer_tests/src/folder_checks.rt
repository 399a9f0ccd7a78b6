//! A published folder, checked by its own files: it is confirmed as it was published, and no changed byte, missing file or added
//! name goes unnoticed, nor does a lot that can't have been drawn yet.

use crate::checker_texts::BALLOTS;
use crate::sheet_outputs::candidates_of;
use checker::{
    CountText, CountedText, FolderChecked, InputFiles, NotRead, check_folder, count_ballots,
};
use publication::{PublishedElection, PublishedFile, WardTexts, published_files};
use sheet::{
    CountShown, ListedWard, Poll, Ward, WardStanding, can_be_printed, index_text, page_text,
    results_text, sheet_text, spreadsheet_text,
};
use std::alloc::{AllocError, Global};
use std::process::Abort;
use std::test::Fail;

const TITLE: &str = "City \"A\" & 'B' <C>";

/// How many bytes of each file are changed, one at a time. A check makes the whole folder again, so there are few.
const STEPS: usize = 2;

/// The ballots of a ward whose count is waiting for a lot.
const TIED: &str = r#"3 1
2 1 0
1 2 0
1 3 0
0
"Ann <b> & "
"Bob"
"Cy"
"Hill"
# Ward 9
# Rejected 1: 1, 2: 0, 3: 0, 4: 0, 5: 0
"#;

/// The ballots of an uncontested ward, one of whose candidates withdrew.
const UNCONTESTED: &str = r#"3 3
-2
0
"Dee"
"withdrawn"
"Eve"
"Quay"
# Ward 12
"#;

/// The ballots of a sealed ward none of whose stages is done yet.
const UNCOUNTED: &str = r#"2 1
2 1 0
1 2 1 0
0
"Flo"
"Gus"
"Sound"
# Ward 15
# Rejected 1: 0, 2: 0, 3: 0, 4: 0, 5: 2
"#;

/// The ballots of the tied ward, with the lot that is drawn at its second stage.
const EARLY: &str = r#"3 1
2 1 0
1 2 0
1 3 0
0
"Ann <b> & "
"Bob"
"Cy"
"Hill"
# Ward 9
# Rejected 1: 1, 2: 0, 3: 0, 4: 0, 5: 0
# Lot at stage 2: 3
"#;

/// What is different in a folder from what was published.
#[derive(Clone, Copy)]
enum Change {
    Nothing,
    /// A byte of a file, given by its position in that file.
    Byte { file: usize, at: usize },
    /// A file that is missing.
    Missing { file: usize },
    /// Another name.
    Added,
}

/// A folder in memory.
#[derive(Clone, Copy)]
struct MemoryFolder<'a> {
    alloc: Global,
    files: &'a [PublishedFile],
    change: Change,
}

impl MemoryFolder<'_> {
    /// Returns whether the given file is missing.
    fn is_missing(&self, number: usize) -> bool {
        matches!(self.change, Change::Missing { file } if file == number)
    }

    /// Returns the names in the folder.
    fn listed(&self) -> Result<Vec<String>, AllocError> {
        let mut names = Vec::new(self.alloc);
        for (number, file) in self.files.iter().enumerate() {
            if !self.is_missing(number) {
                names.push(String::from_str(self.alloc, file.name.as_str())?)?;
            }
        }
        if matches!(self.change, Change::Added) {
            names.push(String::from_str(self.alloc, "notes.txt")?)?;
        }
        Ok(names)
    }

    /// Returns the bytes of the given file.
    fn changed(&self, number: usize, file: &PublishedFile) -> Result<Vec<u8>, AllocError> {
        let mut bytes = Vec::from_slice(self.alloc, file.text.as_bytes())?;
        let Change::Byte { file, at } = self.change else {
            return Ok(bytes);
        };
        if file != number {
            return Ok(bytes);
        }
        if let Some(byte) = bytes.get_mut(at) {
            *byte ^= 1;
        }
        Ok(bytes)
    }

    /// Returns the bytes of the file with the given name; none if there is no such file.
    fn content(&self, name: &str) -> Result<Vec<u8>, AllocError> {
        for (number, file) in self.files.iter().enumerate() {
            if file.name.as_str() == name {
                return self.changed(number, file);
            }
        }
        Ok(Vec::new(self.alloc))
    }
}

impl InputFiles for MemoryFolder<'_> {
    fn read(&self, _path: &str) -> Result<Vec<u8>, NotRead> {
        Err(NotRead::Memory)
    }

    fn names(&self, _path: &str) -> Result<Vec<String>, NotRead> {
        match self.listed() {
            Ok(names) => Ok(names),
            Err(AllocError) => Err(NotRead::Memory),
        }
    }

    fn read_inside(&self, _path: &str, name: &str) -> Result<Vec<u8>, NotRead> {
        match self.content(name) {
            Ok(bytes) => Ok(bytes),
            Err(AllocError) => Err(NotRead::Memory),
        }
    }
}

/// Returns a text of the count of a ward.
fn text_of(alloc: Global, ballots: &str, text: &CountText) -> Result<String, Fail> {
    match count_ballots(alloc, ballots.as_bytes(), &[], text) {
        Ok(CountedText { text, .. }) => Ok(text),
        Err(_) => Err(Fail::from("the ballots aren't counted")),
    }
}

/// The texts of a ward.
#[derive(Drop)]
struct OwnTexts {
    page: String,
    sheet: String,
    declaration: String,
    table: String,
    results: String,
}

/// Returns the texts of a ward.
fn texts_of(alloc: Global, ballots: &str) -> Result<OwnTexts, Fail> {
    Ok(OwnTexts {
        page: text_of(alloc, ballots, &CountText::Page(TITLE))?,
        sheet: text_of(alloc, ballots, &CountText::Sheet)?,
        declaration: text_of(alloc, ballots, &CountText::Declaration)?,
        table: text_of(alloc, ballots, &CountText::Table)?,
        results: text_of(alloc, ballots, &CountText::Results)?,
    })
}

/// Returns the texts of a sealed ward none of whose stages is done yet, with the given lots.
fn texts_before(alloc: Global, ward: &Ward, lots: &[(u8, u8)]) -> Result<OwnTexts, Fail> {
    if !can_be_printed(ward) {
        return Err(Fail::from("the ward isn't printed"));
    }
    let shown = CountShown {
        stages: &[],
        lots,
        surpluses: &[],
    };
    Ok(OwnTexts {
        page: page_text(alloc, ward, TITLE, false, &shown)?,
        sheet: sheet_text(alloc, ward, &[])?,
        declaration: String::new(alloc),
        table: spreadsheet_text(alloc, ward, &[])?,
        results: results_text(alloc, ward, false, &[], lots)?,
    })
}

/// Returns the texts of the tied ward as if none of its stages were done, though its lot is drawn.
fn early_texts(alloc: Global) -> Result<OwnTexts, Fail> {
    let candidates = candidates_of(alloc, &[(1, "Ann <b> & "), (2, "Bob"), (3, "Cy")])?;
    let ward = Ward {
        number: 9,
        name: "Hill",
        seats: 1,
        candidates: &candidates,
        poll: Some(Poll {
            valid: 4,
            rejected: [1, 0, 0, 0, 0],
        }),
    };
    texts_before(alloc, &ward, &[(2, 3)])
}

/// Returns the texts of the ward none of whose stages is done yet.
fn uncounted_texts(alloc: Global) -> Result<OwnTexts, Fail> {
    let candidates = candidates_of(alloc, &[(1, "Flo"), (2, "Gus")])?;
    let ward = Ward {
        number: 15,
        name: "Sound",
        seats: 1,
        candidates: &candidates,
        poll: Some(Poll {
            valid: 3,
            rejected: [0, 0, 0, 0, 2],
        }),
    };
    texts_before(alloc, &ward, &[])
}

/// Returns what is published of a ward.
fn published<'a>(
    number: u8,
    name: &'a str,
    ballots: Option<&'a str>,
    texts: &'a OwnTexts,
) -> WardTexts<'a> {
    let declaration = if texts.declaration.is_empty() {
        None
    } else {
        Some(texts.declaration.as_str())
    };
    WardTexts {
        number,
        name,
        page: texts.page.as_str(),
        sheet: texts.sheet.as_str(),
        declaration,
        table: texts.table.as_str(),
        results: texts.results.as_str(),
        ballots,
    }
}

/// The wards on the page of all wards: number, name, seats, status, whether it is contested, and who is elected.
const LISTED: [(u32, &str, u32, WardStanding, bool, &[(u32, &str)]); 6] = [
    (3, "Open <1>", 4, WardStanding::Nominations, true, &[]),
    (
        7,
        "Harbour",
        2,
        WardStanding::Declared,
        true,
        &[(1, "Ann"), (3, "Cy")],
    ),
    (9, "Hill", 1, WardStanding::Sealed, true, &[]),
    (
        12,
        "Quay",
        3,
        WardStanding::Declared,
        false,
        &[(1, "Dee"), (3, "Eve")],
    ),
    (15, "Sound", 1, WardStanding::Sealed, true, &[]),
    (20, "Lane & Co", 1, WardStanding::Keying, true, &[]),
];

/// Returns the given candidates.
fn elected_of(alloc: Global, elected: &[(u32, &str)]) -> Result<Vec<(u32, String)>, AllocError> {
    let mut all = Vec::new(alloc);
    for (number, name) in elected {
        all.push((*number, String::from_str(alloc, *name)?))?;
    }
    Ok(all)
}

/// Returns the page of all wards.
fn index_of(alloc: Global) -> Result<String, AllocError> {
    let mut wards = Vec::new(alloc);
    for (number, name, seats, standing, is_contested, elected) in &LISTED {
        wards.push(ListedWard {
            number: *number,
            name: String::from_str(alloc, *name)?,
            seats: *seats,
            standing: *standing,
            is_contested: *is_contested,
            elected: elected_of(alloc, *elected)?,
        })?;
    }
    index_text(alloc, TITLE, &wards)
}

/// Returns the files of the folder, with or without ballots.
fn files_of(alloc: Global, with_ballots: bool) -> Result<Vec<PublishedFile>, Fail> {
    let (seven, nine, twelve) = (
        texts_of(alloc, BALLOTS)?,
        texts_of(alloc, TIED)?,
        texts_of(alloc, UNCONTESTED)?,
    );
    let fifteen = uncounted_texts(alloc)?;
    let index = index_of(alloc)?;
    let ballots = |text| if with_ballots { Some(text) } else { None };
    let wards = [
        published(7, "Harbour", ballots(BALLOTS), &seven),
        published(9, "Hill", ballots(TIED), &nine),
        published(12, "Quay", ballots(UNCONTESTED), &twelve),
        published(15, "Sound", ballots(UNCOUNTED), &fifteen),
    ];
    let election = PublishedElection {
        title: TITLE,
        index: index.as_str(),
        wards: &wards,
    };
    Ok(published_files(alloc, &election)?)
}

/// Returns the files of the folder with ballots, if a lot is shown before the stages up to it are.
fn early_files(alloc: Global) -> Result<Vec<PublishedFile>, Fail> {
    let (seven, nine, twelve) = (
        texts_of(alloc, BALLOTS)?,
        early_texts(alloc)?,
        texts_of(alloc, UNCONTESTED)?,
    );
    let fifteen = uncounted_texts(alloc)?;
    let index = index_of(alloc)?;
    let ballots = |text| Some(text);
    let wards = [
        published(7, "Harbour", ballots(BALLOTS), &seven),
        published(9, "Hill", ballots(EARLY), &nine),
        published(12, "Quay", ballots(UNCONTESTED), &twelve),
        published(15, "Sound", ballots(UNCOUNTED), &fifteen),
    ];
    let election = PublishedElection {
        title: TITLE,
        index: index.as_str(),
        wards: &wards,
    };
    Ok(published_files(alloc, &election)?)
}

/// Returns the lines about a folder; `None` if it is confirmed.
fn lines_of(
    alloc: Global,
    files: &[PublishedFile],
    change: Change,
) -> Result<Option<String>, Fail> {
    let folder = MemoryFolder {
        alloc,
        files,
        change,
    };
    match check_folder(alloc, &folder, "results") {
        Ok(FolderChecked::Confirmed { .. }) => Ok(None),
        Ok(FolderChecked::Differs { lines }) => Ok(Some(lines)),
        Err(_) => Err(Fail::from("the folder isn't read")),
    }
}

/// Checks that a folder with a change isn't confirmed, and that a line names the file.
fn is_noticed(
    rt: &(impl Abort + AllocGlobal),
    files: &[PublishedFile],
    name: &str,
    change: Change,
) -> Result<(), Fail> {
    match lines_of(rt.alloc(), files, change)? {
        None => Err(Fail::from("a change isn't noticed")),
        Some(lines) => {
            assert!(rt; lines.as_str().contains(name));
            Ok(())
        }
    }
}

/// Checks that changed bytes of a file are noticed: the first, and others at equal distances.
fn are_bytes_noticed(
    rt: &(impl Abort + AllocGlobal),
    files: &[PublishedFile],
    number: usize,
    file: &PublishedFile,
) -> Result<(), Fail> {
    let step = file.text.len() / STEPS + 1;
    for place in 0..STEPS {
        let at = place * step;
        if at >= file.text.len() {
            break;
        }
        let change = Change::Byte { file: number, at };
        is_noticed(rt, files, file.name.as_str(), change)?;
    }
    Ok(())
}

#[test]
fn checks_a_folder(rt: HostRuntime) -> Result<(), Fail> {
    let files = files_of(rt.alloc(), true)?;
    assert!(&rt; lines_of(rt.alloc(), &files, Change::Nothing)?.is_none());
    for (number, file) in files.iter().enumerate() {
        are_bytes_noticed(&rt, &files, number, file)?;
        let change = Change::Missing { file: number };
        is_noticed(&rt, &files, file.name.as_str(), change)?;
    }
    is_noticed(&rt, &files, "notes.txt", Change::Added)?;
    let bare = files_of(rt.alloc(), false)?;
    is_noticed(&rt, &bare, "no ballots", Change::Nothing)?;
    let early = early_files(rt.alloc())?;
    is_noticed(
        &rt,
        &early,
        "a lot is recorded for stage 2",
        Change::Nothing,
    )
}
