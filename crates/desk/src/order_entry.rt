//! The words of orders, and the entries of the table of orders.

/// The kind of value that an order's word has.
#[derive(Clone, Copy)]
pub(crate) enum Kind {
    /// A number from 0 to 4294967295.
    Number,
    /// A number from 0 to 4294967295, optional.
    NumberOrNone,
    /// A port, 1 to 65535.
    Port,
    /// A number of connections, 1 to 1000000, optional.
    Connections,
    /// Any text.
    Text,
    /// A verdict: `accept:` followed by a marks text, or `reject:` followed by a number from 0 to 4294967295.
    Verdict,
    /// Any text after `--id`.
    Id,
    /// An origin as a browser writes it, after `--origin`; optional.
    Origin,
    /// The path of a codes file, after `--codes`; optional.
    CodesFile,
    /// Any text after `--title`; empty by default.
    Title,
    /// A digest of 64 hexadecimal digits, after `--sha256`; optional.
    Digest,
    /// A number from 0 to 4294967295, after `--papers`; optional.
    Papers,
    /// Zero or more texts, after the other words.
    Texts,
    /// Zero or more texts, each after `--` and the name.
    Options,
    /// A flag: `--` followed by its name; optional.
    Flag,
}

/// A word of an order, with its help line.
#[derive(Clone, Copy)]
pub(crate) struct Word {
    pub(crate) name: &'static str,
    pub(crate) kind: Kind,
    pub(crate) help: &'static str,
}

/// The help heading under which an order is listed.
#[derive(Clone, Copy)]
pub(crate) enum Heading {
    /// The orders of an election.
    Election,
    /// The orders for the office alone, which are listed at the end of the help.
    Office,
    /// The orders that anyone can use to check a result, which are also listed at the end of the help.
    Everyone,
}

/// An order's name and words, with its help, which ends with an example.
#[derive(Clone, Copy)]
pub(crate) struct Entry {
    pub(crate) name: &'static str,
    pub(crate) words: &'static [Word],
    pub(crate) help: &'static str,
    pub(crate) heading: Heading,
}

/// Makes a word of an order from its kind, its name and its help line.
macro_rules! word {
    ($kind:ident $name:literal, $help:literal) => {
        Word {
            name: $name,
            kind: Kind::$kind,
            help: $help,
        }
    };
}

pub(crate) const WARD: Word = word!(Number "WARD", "The ward's number, 1 to 99");

pub(crate) const SEATS: Word = word!(Number "SEATS", "How many candidates it elects, 1 to 15");

pub(crate) const NAME: Word =
    word!(Text "NAME", "The name, 1 to 120 bytes of UTF-8; in quotes if it contains spaces");

pub(crate) const CANDIDATE: Word =
    word!(Number "CANDIDATE", "The candidate's number in the ward, 1 to 30");

pub(crate) const BATCH: Word =
    word!(Number "BATCH", "The batch's number, over all wards, 1 to 9999");

pub(crate) const SIZE: Word = word!(Number "SIZE", "How many papers it has, 1 to 500");

pub(crate) const FIRST_CLERK: Word = word!(Number "FIRST_CLERK", "A clerk who keys it, 1 to 999");

pub(crate) const SECOND_CLERK: Word =
    word!(Number "SECOND_CLERK", "The other clerk who keys it, 1 to 999");

pub(crate) const CLERK: Word = word!(Number "CLERK", "The clerk who keys it, 1 to 999");

pub(crate) const ACTOR: Word =
    word!(NumberOrNone "ACTOR", "Whose receipts, a clerk's number, 1 to 999, or 0 for the office;\nwithout it, those of all");

pub(crate) const ITS_CLERK: Word =
    word!(NumberOrNone "CLERK", "A clerk of the batch, 1 to 999: prints the candidates' names as on the clerk's page;\nwithout it, their numbers alone");

pub(crate) const ROUND: Word =
    word!(Number "ROUND", "The round that the batch is in, 1 to 99; it begins with 1");

pub(crate) const MARKS: Word =
    word!(Texts "MARKS", "The marks of its papers in order, one word per paper: a field for each candidate,\nseparated by commas, or D if the paper is doubtful");

pub(crate) const PAPERS: Word =
    word!(Papers "papers", "How many papers the ward is to have, by the count of its boxes;\nif as many weren't given out, nothing is sent");

pub(crate) const PAPER: Word = word!(Number "PAPER", "The paper's number in the batch, 1 to 500");

pub(crate) const VERDICT: Word =
    word!(Verdict "VERDICT", "accept: and the marks, a field for each candidate, separated by commas; or\nreject: and 3 no official mark, 4 voter identifiable, 5 void for uncertainty");

pub(crate) const STAGE: Word =
    word!(Number "STAGE", "The stage of the count that waits for the lot, 2 to 31");

pub(crate) const FILE: Word =
    word!(Text "FILE", "The path of an import file; docs/formats/files.md has its form");

pub(crate) const FORM: Word =
    word!(Text "FORM", "Which form: covers, adjudication, lots or declaration, of a ward; or slips");

pub(crate) const SOURCE: Word =
    word!(Text "SOURCE", "The ward's number, 1 to 99; for slips, the path of a file of codes");

pub(crate) const ADDRESS: Word =
    word!(Origin "address", "For slips, where clerks reach the office, as http://127.0.0.1:8080");

pub(crate) const NEW: Word =
    word!(Text "NEW", "The path of the copy; there must be nothing at it yet");

pub(crate) const FOLDER: Word =
    word!(Text "FOLDER", "The path of the folder; there must be nothing at it yet");

pub(crate) const WITH_BALLOTS: Word =
    word!(Flag "ballots", "Publishes the ballots of each ward too, so that anyone can count them again");

pub(crate) const NEW_OFFICE: Word =
    word!(Text "NEW", "The path of the new office; there must be nothing at it yet");

pub(crate) const WITHOUT: Word =
    word!(Options "without", "The id of an order to leave out, as v1; of a clerk's with the clerk, as 4:k1;\nmay be given several times");

pub(crate) const WITH: Word =
    word!(Options "with", "An order, as a line of a script, in the place of the one about the same thing,\nas \"judge 13 6 reject:4 --id v2\"; may be given several times");

pub(crate) const SCRIPT: Word =
    word!(Text "FILE", "The path of a script; docs/formats/files.md has its form");

pub(crate) const KEEP_GOING: Word =
    word!(Flag "keep-going", "Continues after refusals, each printed with its line, and then ends with status 1");

pub(crate) const CUT: Word =
    word!(Flag "cut", "Leaves out what follows the last line end, which was cut by a stop, and says so");

pub(crate) const RECORD: Word =
    word!(Text "FILE", "The path of a second record of the office, one request per line; such as its journal");

pub(crate) const ID: Word =
    word!(Id "id", "An id that you choose for this order, 1 to 40 of a-z, 0-9 and -;\nan order sent again under the same id is done only once");

/// The highest port number.
pub(crate) const MAX_PORT: i64 = 65535;

pub(crate) const PORT: Word = word!(Port "PORT", "The port of this machine, 1 to 65535");

/// The maximum number of connections that one order serves.
pub(crate) const MAX_CONNECTIONS: i64 = 1_000_000;

pub(crate) const CONNECTIONS: Word =
    word!(Connections "CONNECTIONS", "The number of connections to serve, 1 to 1000000;\nwithout it, no limit");

pub(crate) const ORIGIN: Word =
    word!(Origin "origin", "The origin of pages that ask through a proxy, such as https://count.example.org;\nwithout it, pages from other machines are rejected");

pub(crate) const CODES: Word =
    word!(CodesFile "codes", "The path of a file of codes; with it, each clerk signs in with a code;\nwithout it, a clerk needs only a number");

pub(crate) const CODES_FILE: Word =
    word!(Text "FILE", "The path of the file of codes; there must be nothing at it yet");

pub(crate) const CLERKS: Word =
    word!(Text "CLERKS", "The clerks from one number to another, 1 to 999, such as 1-40");

pub(crate) const WITH_OFFICE: Word =
    word!(Flag "office", "Also writes a code for the office, for its console in the browser");

pub(crate) const PUBLIC: Word =
    word!(Flag "public", "Shows the count to everyone: /, /screen and the page of each ward;\nwithout it, none of them is there");

pub(crate) const TITLE: Word =
    word!(Title "title", "The title, such as the names of the election and the council;\nin quotes if it contains spaces");

pub(crate) const DIGEST: Word =
    word!(Digest "sha256", "The SHA-256 of FILE, 64 hexadecimal digits, as sha256sum prints it;\nif FILE has another, nothing of it is sent");
