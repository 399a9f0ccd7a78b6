//! Import files that are read in full or refused, and the texts of their faults.

use crate::sheet_outputs::is_text;
use keyfile::{CandidateRow, FileDigest, FileFault, Flaw, read_candidates, read_keying};
use paper::Columns;
use std::alloc::{AllocError, Global};
use std::fmt::Write;
use std::io;
use std::io::{ErrorKind, Read};
use std::process::Abort;
use std::test::Fail;

/// A reader that returns its bytes one at a time, and then fails.
#[derive(Drop)]
struct TornFile<'a> {
    left: &'a [u8],
}

impl<'a> Read for TornFile<'a> {
    fn read(&mut self, room: &mut [u8]) -> io::Result<usize> {
        match self.left {
            [] => Err(io::Error::from(ErrorKind::BrokenPipe)),
            [byte, others @ ..] => {
                if room.is_empty() {
                    return Ok(0);
                }
                room[0] = *byte;
                self.left = others;
                Ok(1)
            }
        }
    }
}

/// Returns the columns of the keyings.
fn three() -> Columns {
    Columns::empty().with(1).with(2).with(3)
}

/// Returns the papers, each preceded by a bar.
fn papers_text(alloc: Global, papers: &[String]) -> Result<String, AllocError> {
    let mut text = String::new(alloc);
    for paper in papers {
        text.push('|')?;
        text.push_str(paper.as_str())?;
    }
    Ok(text)
}

/// Returns the papers in clerk 4's keying of batch 12, or the fault, as text. The error is a failed allocation.
fn keying_text<R: Read + Drop>(
    alloc: Global,
    file: R,
    digest: Option<FileDigest>,
) -> Result<String, AllocError> {
    match read_keying(alloc, file, three(), 12, 4, digest) {
        Ok(papers) => papers_text(alloc, &papers),
        Err(fault) => fault_text(alloc, fault),
    }
}

/// Returns the candidates, each preceded by a bar.
fn rows_text(alloc: Global, rows: &[CandidateRow]) -> Result<String, AllocError> {
    let mut text = String::new(alloc);
    for row in rows {
        let name = row.name.as_str();
        write!(text, "|{} {} {name}", row.ward, row.candidate)?;
    }
    Ok(text)
}

/// Returns the candidates of a file, or the fault, as text. The error is a failed allocation.
fn candidates_text<R: Read + Drop>(alloc: Global, file: R) -> Result<String, AllocError> {
    match read_candidates(alloc, file, None) {
        Ok(rows) => rows_text(alloc, &rows),
        Err(fault) => fault_text(alloc, fault),
    }
}

/// Returns the text of a fault. The error is a failed allocation.
fn fault_text(alloc: Global, fault: FileFault) -> Result<String, AllocError> {
    if fault.flaw == Flaw::Memory {
        return Err(AllocError);
    }
    format!(in alloc; "{fault}")
}

/// Files with a keying for candidates 1, 2 and 3, and the result of each: its papers or its fault. `~` and `^`
/// represent the bytes FF and FE, which never occur in UTF-8.
const KEYINGS: [(&str, &str); 22] = [
    ("paper,1,2,3\n1,1,2,\n2,D,,\n", "|1,2,|D"),
    (
        "paper,1,2,3\n1,1,2,\n2,D",
        "file fault 2 at record 2: record length",
    ),
    ("paper,1,2,3\n1,1,2,\n", "|1,2,"),
    ("", "file fault 1 at record 0: header"),
    ("paper,1,3,2\n", "file fault 1 at record 0: header"),
    ("paper,1,2,3\n01,1,2,\n", "file fault 3 at record 1: number"),
    (
        "paper,1,2,3\n2,1,2,\n",
        "file fault 4 at record 1: paper order",
    ),
    (
        "paper,1,2,3\n1,\"1,2\",,\n",
        "file fault 5 at record 1: marks",
    ),
    (
        "paper,1,2,3\n1,~,,\n",
        "file fault 6 at record 1: not UTF-8",
    ),
    // The header may name the batch and the clerk.
    ("paper 12/4,1,2,3\n1,1,2,\n", "|1,2,"),
    (
        "paper 13/9,1,2,3\n1,1,2,\n",
        "file fault 10 at record 0: the file is of batch 13, clerk 9",
    ),
    (
        "paper 12/04,1,2,3\n1,1,2,\n",
        "file fault 1 at record 0: header",
    ),
    // Files as other programs save them: with a byte order mark, different line endings, quotes, empty or blank lines
    // or lines of commas at the end, different separators, or in UTF-16.
    ("\u{feff}paper,1,2,3\n1,1,2,\n", "|1,2,"),
    ("paper,1,2,3\r\n1,1,2,\r\n2,D,,\r\n", "|1,2,|D"),
    ("paper,1,2,3\r1,1,2,\r2,D,,", "|1,2,|D"),
    (
        "\"paper\",\"1\",\"2\",\"3\"\n\"1\",\"1\",\"2\",\"\"\n",
        "|1,2,",
    ),
    ("paper,1,2,3\n1,1,2,\n\n\r\n\n", "|1,2,"),
    (
        "paper,1,2,3\n1,1,2,\n \n",
        "file fault 2 at record 2: record length",
    ),
    (
        "paper,1,2,3\n1,1,2,\n,,,\n",
        "file fault 3 at record 2: number",
    ),
    ("paper;1;2;3\n1;1;2;\n", "file fault 1 at record 0: header"),
    (
        "paper\t1\t2\t3\n1\t1\t2\t\n",
        "file fault 1 at record 0: header",
    ),
    (
        "~^p\u{0}a\u{0}p\u{0}e\u{0}r\u{0},\u{0}1\u{0}\n\u{0}",
        "file fault 1 at record 0: header",
    ),
];

/// The digest of a file with the lines `paper,1,2,3` and `1,1,2,`.
const DIGEST: &str = "A07A0DF7acf3e17b2096413e8f3ac12de041078e12e444496ea6ad4fca589c35";

/// Files that must have this [`DIGEST`], and the result of each.
const DIGESTED: [(&str, &str); 3] = [
    ("paper,1,2,3\n1,1,2,\n", "|1,2,"),
    (
        "paper,1,2,3\n1,2,1,\n",
        "file fault 11 at record 0: not the file of this digest",
    ),
    (
        "names",
        "file fault 11 at record 0: not the file of this digest",
    ),
];

/// Returns the bytes of a text, with `~` and `^` replaced by two bytes that never occur in UTF-8.
fn bytes_of(alloc: Global, text: &str) -> Result<Vec<u8>, AllocError> {
    let mut bytes = Vec::new(alloc);
    for byte in text.as_bytes() {
        bytes.push(match *byte {
            b'~' => 0xff,
            b'^' => 0xfe,
            byte => byte,
        })?;
    }
    Ok(bytes)
}

/// Checks that reading a file results in the given papers, or in the given fault.
fn gives<R: Read + Drop>(
    rt: &(impl Abort + AllocGlobal),
    file: R,
    digest: Option<FileDigest>,
    wanted: &str,
) -> Result<(), Fail> {
    let text = keying_text(rt.alloc(), file, digest)?;
    is_text(rt, text.as_str(), wanted);
    Ok(())
}

/// Checks the result for each file.
fn all_give(
    rt: &(impl Abort + AllocGlobal),
    files: &[(&str, &str)],
    digest: Option<FileDigest>,
) -> Result<(), Fail> {
    for (file, wanted) in files {
        let bytes = bytes_of(rt.alloc(), *file)?;
        gives(rt, bytes.as_slice(), digest, *wanted)?;
    }
    Ok(())
}

/// Checks the candidates read from a file.
fn gives_candidates(rt: &(impl Abort + AllocGlobal), file: &str, wanted: &str) -> Result<(), Fail> {
    let text = candidates_text(rt.alloc(), file.as_bytes())?;
    is_text(rt, text.as_str(), wanted);
    Ok(())
}

/// Returns a file with a keying of 501 papers, one more than is allowed.
fn long_file(alloc: Global) -> Result<String, AllocError> {
    let mut file = String::from_str(alloc, "paper,1,2,3\n")?;
    for number in 1..502 {
        write!(file, "{number},1,2,\n")?;
    }
    Ok(file)
}

/// Checks that a failed read is reported with its record number.
fn break_off(rt: &(impl Abort + AllocGlobal), digest: Option<FileDigest>) -> Result<(), Fail> {
    let left = b"paper,1,2,3\n1,,,\n2,,".as_slice();
    gives(
        rt,
        TornFile { left },
        None,
        "file fault 8 at record 2: read failed",
    )?;
    gives(
        rt,
        TornFile { left },
        digest,
        "file fault 8 at record 0: read failed",
    )
}

#[test]
fn files_are_read_whole_or_refused(rt: HostRuntime) -> Result<(), Fail> {
    all_give(&rt, &KEYINGS, None)?;
    let digest = FileDigest::parse(DIGEST);
    assert!(&rt; digest.is_some() && FileDigest::parse("a07a0df7").is_none());
    all_give(&rt, &DIGESTED, digest)?;
    let candidates = "ward,candidate,name\n7,1,Ann\n7,2,\"Bob, jr\"\n";
    gives_candidates(&rt, candidates, "|7 1 Ann|7 2 Bob, jr")?;
    let file = long_file(rt.alloc())?;
    let wanted = "file fault 7 at record 501: too many records";
    gives(&rt, file.as_bytes(), None, wanted)?;
    break_off(&rt, digest)?;
    let fault = FileFault {
        flaw: Flaw::ReadFailed,
        record_number: 2,
    };
    assert_eq!(&rt; fault.number(), 8);
    Ok(())
}
