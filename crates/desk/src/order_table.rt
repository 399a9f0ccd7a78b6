//! The table of orders.
//!
//! To add an order, add an entry to [`ORDERS_TO_SEAL`] or [`ORDERS_FROM_SEAL`] and a match arm that returns what its words mean: in
//! [`command_named`](crate::order_commands::command_named) if the order sends a command, and otherwise in order_meanings.rt. The meaning of
//! the order is defined by an entry of `orders` in specs/Orders.antt.
#![tactic(auto, unfolding(crate::specs::Orders::orders))]

ghost use Rattle.std.specs.Prelude.{◌≡◌, drop, map, take};
ghost use Rattle.desk.specs.Orders.{orders, words_of};

use crate::order_entry::{
    ACTOR, ADDRESS, BATCH, CANDIDATE, CLERK, CLERKS, CODES, CODES_FILE, CONNECTIONS, CUT, DIGEST,
    Entry, FILE, FIRST_CLERK, FOLDER, FORM, Heading, ID, ITS_CLERK, KEEP_GOING, MARKS, NAME, NEW,
    NEW_OFFICE, ORIGIN, PAPER, PAPERS, PORT, PUBLIC, RECORD, ROUND, SCRIPT, SEATS, SECOND_CLERK,
    SIZE, SOURCE, STAGE, TITLE, VERDICT, WARD, WITH, WITH_BALLOTS, WITH_OFFICE, WITHOUT,
};

/// Makes the entry of an order from its heading in the help, its name, its words in order, and its help.
macro_rules! order {
    ($heading:ident $name:literal [$($word:ident),*], $help:literal) => {
        Entry {
            name: $name,
            words: &[$($word),*],
            help: $help,
            heading: Heading::$heading,
        }
    };
}

/// The orders up to the seal of a ward, in the order in which an election uses them. They form a table of their own because a proof
/// evaluates each table as a whole.
#[rattlefmt::skip]
const ORDERS_TO_SEAL: [Entry; 13] = [
    order!(Election "init" [], "Makes an office in DB, a new file or an empty one:\ncount-office town.db init"),
    order!(Election "ward" [WARD, SEATS, NAME, ID], "Adds a ward, its nominations open:\ncount-office town.db ward 7 2 Harbour --id w1"),
    order!(Election "candidate" [WARD, CANDIDATE, NAME, ID], "Adds a candidate to a ward:\ncount-office town.db candidate 7 1 Ann --id c1"),
    order!(Election "import-candidates" [FILE, ID, DIGEST], "Adds the candidates of a file, the first under ID-1:\ncount-office town.db import-candidates names.csv --id c"),
    order!(Election "withdraw" [WARD, CANDIDATE, ID], "Withdraws a candidate, while nominations are open:\ncount-office town.db withdraw 7 5 --id x1"),
    order!(Election "close" [WARD, ID], "Closes the nominations of a ward:\ncount-office town.db close 7 --id n1"),
    order!(Election "batch" [BATCH, WARD, SIZE, FIRST_CLERK, SECOND_CLERK, ID], "Gives out a batch of papers of a ward to two clerks, who key it:\ncount-office town.db batch 12 7 8 4 9 --id b1"),
    order!(Election "import-batches" [FILE, ID, DIGEST], "Gives out the batches of a file, the first under ID-1:\ncount-office town.db import-batches batches.csv --id b"),
    order!(Election "import-keying" [CLERK, BATCH, ROUND, FILE, ID, DIGEST],
        "Stores a clerk's keying of a batch, in a round, from a file:\ncount-office town.db import-keying 4 12 1 k4-12.csv --id k1"),
    order!(Election "key" [CLERK, BATCH, ROUND, MARKS, ID], "Stores a clerk's keying of a batch, in a round, one word per paper:\ncount-office town.db key 4 14 1 1,2,, ,1,,2 D --id k3"),
    order!(Election "again" [BATCH, ID], "Opens the next round of a batch whose keyings differ:\ncount-office town.db again 13 --id r1"),
    order!(Election "third" [BATCH, CLERK, ID], "Gives a batch whose keyings differ to a third clerk too:\ncount-office town.db third 13 5 --id t1"),
    order!(Election "judge" [BATCH, PAPER, VERDICT, ID], "Keeps the verdict on a doubtful paper of a batch that is taken:\ncount-office town.db judge 12 6 accept:1,,, --id v1"),
];

/// The other orders: those from the seal on, in the same order; then `migrate`; then those for the office alone; and then those for
/// everyone.
#[rattlefmt::skip]
const ORDERS_FROM_SEAL: [Entry; 31] = [
    order!(Election "seal" [WARD, ID, PAPERS], "Seals a ward whose papers are all agreed and judged:\ncount-office town.db seal 7 --id s1"),
    order!(Election "advance" [WARD, ID], "Counts the one stage that is due in a sealed ward:\ncount-office town.db advance 7 --id a1"),
    order!(Election "count" [WARD, ID], "Counts a sealed ward up to a lot or the end, its first stage under ID-1:\ncount-office town.db count 7 --id a"),
    order!(Election "lot" [WARD, STAGE, CANDIDATE, ID], "Records the candidate whom the lot for a stage named:\ncount-office town.db lot 7 3 4 --id l1"),
    order!(Election "declare" [WARD, ID], "Declares the result of a ward whose count is finished:\ncount-office town.db declare 7 --id d1"),
    order!(Election "status" [WARD], "Prints the status of a ward:\ncount-office town.db status 7"),
    order!(Election "next" [WARD], "Prints what comes next in a ward, with names:\ncount-office town.db next 7"),
    order!(Election "sheet" [WARD], "Prints the stage sheet of a sealed ward:\ncount-office town.db sheet 7"),
    order!(Election "result" [WARD], "Prints the declaration of a declared ward:\ncount-office town.db result 7"),
    order!(Election "serve" [PORT, CONNECTIONS, ORIGIN, CODES, PUBLIC, TITLE], "Serves clerks over HTTP on this machine, until it is stopped:\ncount-office town.db serve 8080"),
    order!(Election "migrate" [], "Migrates an office that an earlier version made:\ncount-office town.db migrate"),
    order!(Office "wards" [], "Prints the status of each ward, and what is left to do:\ncount-office town.db wards"),
    order!(Office "batches" [WARD], "Prints each batch of a ward: who has keyed it, and its status:\ncount-office town.db batches 7"),
    order!(Office "doubtful" [WARD], "Prints the doubtful papers of a ward, each open or with its verdict:\ncount-office town.db doubtful 7"),
    order!(Office "differences" [BATCH], "Prints on which papers a batch differs, which no clerk may see:\ncount-office town.db differences 13"),
    order!(Office "papers" [BATCH], "Prints how each paper of a taken batch counts, with the candidates' names:\ncount-office town.db papers 12"),
    order!(Office "fields" [BATCH, ITS_CLERK], "Prints how many fields the marks of each paper of a batch have, and for whom:\ncount-office town.db fields 12"),
    order!(Office "receipts" [ACTOR], "Prints what was accepted, under which id, of an actor or of all:\ncount-office town.db receipts 0"),
    order!(Office "journal" [], "Prints the accepted orders of the office as a script, whole:\ncount-office town.db journal"),
    order!(Office "second" [RECORD], "Says whether a second record, such as a journal, holds the same as the office:\ncount-office town.db second town.script"),
    order!(Office "replay" [SCRIPT, KEEP_GOING, CUT], "Sends the orders of a text file, one per line, up to a refusal:\ncount-office town.db replay evening.txt"),
    order!(Office "copy" [NEW], "Makes a copy of the office, in a file that isn't there yet:\ncount-office town.db copy evening.db"),
    order!(Office "mend" [NEW_OFFICE, WITHOUT, WITH],
        "Makes a new office from the journal, without some orders, or with others in their place:\ncount-office town.db mend new.db --with \"judge 13 6 reject:4 --id v2\""),
    order!(Office "switch" [NEW_OFFICE, WITHOUT, WITH],
        "Makes a new office as mend does, and puts it in the place of this one, also while it is served:\ncount-office town.db switch new.db --with \"judge 13 6 reject:4 --id v2\""),
    order!(Office "codes" [CODES_FILE, CLERKS, WITH_OFFICE], "Writes a new file of codes, one for each of these clerks:\ncount-office town.db codes codes.txt 1-40"),
    order!(Office "forms" [FORM, SOURCE, ADDRESS], "Prints a form of a ward, or slips of clerks, as a page for a browser:\ncount-office town.db forms covers 7"),
    order!(Everyone "ballots" [WARD], "Prints the ballots of a sealed ward, in a form that counting programs read:\ncount-office town.db ballots 7"),
    order!(Everyone "page" [WARD, TITLE], "Prints the result of a sealed ward as a page for a browser, to print and sign:\ncount-office town.db page 7"),
    order!(Everyone "table" [WARD], "Prints the stages of a sealed ward as a table for a spreadsheet:\ncount-office town.db table 7"),
    order!(Everyone "index" [TITLE], "Prints the status of all wards, and who is elected, as a page to hang at the door:\ncount-office town.db index"),
    order!(Everyone "publish" [FOLDER, TITLE, WITH_BALLOTS], "Makes a folder with the results of all sealed wards, for a web site:\ncount-office town.db publish results"),
];

/// Returns the orders up to the seal, which are the first 13.
pub(crate) fn entries_to_seal() -> &'static [Entry]
    ensures { map words_of result.now ≡ map (λ e. e.typed) (take 13 orders) }
{
    &ORDERS_TO_SEAL
}

/// Returns the orders from the seal on.
pub(crate) fn entries_from_seal() -> &'static [Entry]
    ensures { map words_of result.now ≡ map (λ e. e.typed) (drop 13 orders) }
{
    &ORDERS_FROM_SEAL
}
