//! The orders that the program accepts.

ghost use Rattle.std.specs.Prelude.{◌≡◌, option_map};
ghost use Rattle.desk.specs.Requests.{file_of, file_of_task};
ghost use Rattle.desk.specs.Scripts.{sends_requests};

use keyfile::FileDigest;
use office::WardText;
use origins::Origin;
use register::Request;

/// A clerk's keying of a batch, read from a file.
#[derive(Clone, Copy, Debug)]
pub struct KeyingFile<'a> {
    pub clerk: u32,
    pub batch: u32,
    pub round: u32,
    pub file: &'a str,
    pub id: &'a str,
    /// The digest that the file must have, if one is given.
    pub digest: Option<FileDigest>,
}

/// The seal of a ward, provided that the expected number of papers was given out to the ward's batches.
#[derive(Clone, Copy, Debug)]
pub struct ExpectedSeal<'a> {
    pub ward: u32,
    pub papers: u32,
    pub id: &'a str,
}

/// An order to run the errands of a script one after the other, up to the first refusal; with `keep_going`, also after refusals. With
/// `cut`, only the whole lines of the file are read: its last line was cut by a stop.
#[derive(Clone, Copy, Debug)]
pub struct ReplayOrder<'a> {
    pub file: &'a str,
    pub keep_going: bool,
    pub cut: bool,
}

/// A form of a ward, to be printed and filled in by hand.
#[derive(Clone, Copy, Debug)]
pub enum Form {
    /// A cover for each batch.
    Covers,
    /// The doubtful papers, with room for the verdicts.
    Adjudication,
    /// The lot that the count waits for.
    Lots,
    /// The wording of the declaration.
    Declaration,
}

/// A question that only the office asks.
#[derive(Clone, Copy, Debug)]
pub enum Question {
    /// The status of each ward.
    Wards,
    /// The status of each batch in a ward.
    Batches { ward: u32 },
    /// The doubtful papers in a ward.
    Doubtful { ward: u32 },
    /// The papers on which a batch's keyings differ.
    Differences { batch: u32 },
    /// How each paper in a batch counts.
    Papers { batch: u32 },
    /// The fields of a batch's papers: with the candidates' names, as one of its clerks sees them; otherwise with their numbers.
    Fields { batch: u32, clerk: Option<u32> },
    /// The receipts of one actor, or of all actors.
    Receipts { actor: Option<u32> },
    /// A form of a ward.
    Form { form: Form, ward: u32 },
}

/// What an order sends to an open office, or asks it for. Numbers are kept as given, whether or not they are in range.
#[derive(Debug, Drop)]
pub enum Errand<'a> {
    /// Send this request, which is either the office's or a clerk's keying.
    Send(Request),
    /// Add the candidates in a file. The id of each request is this id, a hyphen, and the record number. If a digest is given, the
    /// file must have it.
    ImportCandidates {
        file: &'a str,
        id: &'a str,
        digest: Option<FileDigest>,
    },
    /// Give out the batches in a file. The id of each request is this id, a hyphen, and the record number. If a digest is given,
    /// the file must have it.
    ImportBatches {
        file: &'a str,
        id: &'a str,
        digest: Option<FileDigest>,
    },
    /// Store a clerk's keying of a batch, read from a file.
    ImportKeying(KeyingFile<'a>),
    /// Seal a ward if the expected number of papers was given out.
    SealExpected(ExpectedSeal<'a>),
    /// Count a ward's stages until a lot is needed or the count ends. The id of each request is this id, a hyphen, and its
    /// number within this order.
    Count {
        ward: u32,
        id: &'a str,
    },
    /// Print a ward's status.
    PrintStatus {
        ward: u32,
    },
    /// Print what comes next in a ward's election.
    PrintNext {
        ward: u32,
    },
    /// Print one of a ward's texts.
    Print {
        ward: u32,
        text: WardText<'a>,
    },
    /// Print the page listing all wards, with this title.
    PrintIndex {
        title: &'a str,
    },
    /// Print the answer to this question.
    Ask(Question),
}

impl<'a> Errand<'a> {
    /// Returns the path of the file that the errand reads, if any.
    pub fn file(&self) -> Option<&'a str>
        ensures { option_map (λ path. path.now) result ≡ file_of self.now }
    {
        match self {
            Errand::ImportCandidates { file, .. } => Some(file),
            Errand::ImportBatches { file, .. } => Some(file),
            Errand::ImportKeying(keying) => Some(keying.file),
            _ => None,
        }
    }

    /// Returns true if the errand sends requests. Only such errands are allowed in a script.
    pub(crate) fn sends(&self) -> bool
        ensures { result ≡ sends_requests self.now }
    {
        matches!(
            self,
            Errand::Send(_)
                | Errand::ImportCandidates { .. }
                | Errand::ImportBatches { .. }
                | Errand::ImportKeying(_)
                | Errand::SealExpected(_)
                | Errand::Count { .. }
        )
    }
}

/// A job that is done in an open office.
#[derive(Debug, Drop)]
pub enum Job<'a> {
    /// Run this errand.
    Run(Errand<'a>),
    /// Run the errands of a script.
    Replay(ReplayOrder<'a>),
}

/// A task that needs nothing but a connection to the office's database.
#[derive(Debug, Drop)]
pub enum Task<'a> {
    /// Create an office.
    Init,
    /// Migrate an office created by an earlier version of the program to this version.
    Migrate,
    /// Open the office and do this job in it.
    InOffice(Job<'a>),
}

impl<'a> Task<'a> {
    /// Returns the path of the file that the task reads, if any.
    pub fn file(&self) -> Option<&'a str>
        ensures { option_map (λ path. path.now) result ≡ file_of_task self.now }
    {
        match self {
            Task::InOffice(Job::Run(errand)) => errand.file(),
            Task::InOffice(Job::Replay(script)) => Some(script.file),
            Task::Init | Task::Migrate => None,
        }
    }
}

/// An order to mend: the path of the new office, the names of the orders to leave out, and the orders that replace others, each as a
/// line of a script. Also whether the new office then takes the place of the old one.
#[derive(Debug, Drop)]
pub struct MendOrder<'a> {
    pub path: &'a str,
    pub without: Vec<String>,
    pub instead: Vec<String>,
    pub takes_over: bool,
}

/// An order to publish the results: the path of the folder, the title of its pages, and whether it also has the ballots.
#[derive(Clone, Copy, Debug)]
pub struct PublishOrder<'a> {
    pub path: &'a str,
    pub title: &'a str,
    pub with_ballots: bool,
}

/// What the program is asked to do.
#[derive(Debug, Drop)]
pub enum Order<'a> {
    /// Perform this task on the office's database.
    Perform(Task<'a>),
    /// Copy the office into a file that doesn't exist yet.
    Copy {
        path: &'a str,
    },
    /// Print the journal of the office.
    Journal,
    /// Compare the office with a second record of it, in the file at this path.
    Second {
        path: &'a str,
    },
    /// Make a new office, in a file that doesn't exist yet, from this one's journal, with some orders left out and others replaced.
    /// If it takes over, it then takes the place of this office.
    Mend(MendOrder<'a>),
    /// Publish the results of all sealed wards, in a folder that doesn't exist yet.
    Publish(PublishOrder<'a>),
    /// Write a new codes file, which must not exist yet, for the clerks that a word names, and for the office too if requested.
    Codes {
        path: &'a str,
        clerks: &'a str,
        with_office: bool,
    },
    /// Print a slip for each clerk of a file of codes, with the address at which the clerk reaches the office.
    Slips {
        path: &'a str,
        address: Origin<'a>,
    },
    /// Serve connections on a local port. If an origin is given, its pages are also served through a proxy. Serving
    /// ends after this many connections, or continues forever if no number is given. Clerks need codes if the path of a codes file
    /// is given. If a title is given, the count is shown in public with that title.
    Serve {
        port: u32,
        connections: Option<u32>,
        origin: Option<Origin<'a>>,
        codes: Option<&'a str>,
        public: Option<&'a str>,
    },
}
