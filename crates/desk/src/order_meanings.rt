//! The orders that matched words mean.
//!
//! An order that isn't just a command has its match arm here: in [`question_named`] if it asks a question, and in [`order_named`]
//! otherwise. It may also need a new variant of [`Errand`](crate::orders::Errand).
#![tactic(auto, unfolding(crate::specs::Orders::orders))]

ghost use Rattle.std.specs.Prelude.{◌≡◌, ◌⊎◌, false, Err, None, Some, codes, IfErr, IfOk, IfSome};
ghost use Rattle.clap.specs.Words.{found_of, rows_of, subcommand_rows_of};
ghost use Rattle.desk.specs.Orders.{ask, form_meant, form_of_ward, no_digest, no_form, no_origin, no_verdict, title_alone, told, told_errand, told_text, ward_form_in};
ghost use Rattle.desk.specs.Numbers.{number_in as number_of};
ghost use Rattle.origins.specs.Origins.{origin_text};
ghost use Rattle.desk.specs.Words.{is_order_name, is_question_name, meaning, meaning_of, mended_at, names_order, number_at, sent};

use crate::matched_words::{
    NoOrder, digest_in, flag_in, number_found_in, number_in, origin_in, public_in, text_copied,
    text_found_in, text_in, texts_copied,
};
use crate::order_commands::command_named;
use crate::order_entry::{
    ACTOR, ADDRESS, BATCH, CLERK, CLERKS, CODES, CODES_FILE, CONNECTIONS, CUT, FILE, FOLDER, FORM,
    ID, ITS_CLERK, KEEP_GOING, MARKS, NEW, NEW_OFFICE, ORIGIN, PAPERS, PORT, RECORD, ROUND, SCRIPT,
    SOURCE, TITLE, WARD, WITH, WITH_BALLOTS, WITH_OFFICE, WITHOUT,
};
use crate::orders::{
    Errand, ExpectedSeal, Form, Job, KeyingFile, MendOrder, Order, PublishOrder, Question,
    ReplayOrder, Task,
};
use crate::requests::{by_clerk, by_office};
use clap::ArgMatches;
use office::WardText;
use origins::Origin;
use register::{Command, CountCommand, KeyingCommand};
use std::alloc::Global;

/// Returns the order that runs an errand in an open office.
fn in_office<'a>(errand: Errand<'a>) -> Order<'a>
    ensures { told result ≡ told_errand errand.entry }
{
    Order::Perform(Task::InOffice(Job::Run(errand)))
}

/// Returns the order that sends a command from the office under the matched id.
fn sending<'a>(
    alloc: Global,
    matches: &ArgMatches<'a>,
    command: Command,
) -> Result<Order<'a>, NoOrder>
    ensures ok { IfOk result (λ o. told o ≡ sent (rows_of (found_of matches.now)) command) }
    ensures err { IfErr result (λ why. why ≡ NoOrder.Memory) }
{
    let id = text_copied(alloc, matches, ID)?;
    Ok(in_office(Errand::Send(by_office(id, command))))
}

fn import_candidates<'a>(matches: &ArgMatches<'a>) -> Result<Order<'a>, NoOrder>
    ensures ok { IfOk result (λ o. meaning_of (codes "import-candidates") (rows_of (found_of matches.now)) ≡ Some (told o)) }
    ensures err { IfErr result (λ why. (why ≡ NoOrder.BadDigest) × (meaning_of (codes "import-candidates") (rows_of (found_of matches.now)) ≡ Some no_digest)) }
{
    Ok(in_office(Errand::ImportCandidates {
        file: text_in(matches, FILE),
        id: text_in(matches, ID),
        digest: digest_in(matches)?,
    }))
}

fn import_batches<'a>(matches: &ArgMatches<'a>) -> Result<Order<'a>, NoOrder>
    ensures ok { IfOk result (λ o. meaning_of (codes "import-batches") (rows_of (found_of matches.now)) ≡ Some (told o)) }
    ensures err { IfErr result (λ why. (why ≡ NoOrder.BadDigest) × (meaning_of (codes "import-batches") (rows_of (found_of matches.now)) ≡ Some no_digest)) }
{
    Ok(in_office(Errand::ImportBatches {
        file: text_in(matches, FILE),
        id: text_in(matches, ID),
        digest: digest_in(matches)?,
    }))
}

fn import_keying<'a>(matches: &ArgMatches<'a>) -> Result<Order<'a>, NoOrder>
    ensures ok { IfOk result (λ o. meaning_of (codes "import-keying") (rows_of (found_of matches.now)) ≡ Some (told o)) }
    ensures err { IfErr result (λ why. (why ≡ NoOrder.BadDigest) × (meaning_of (codes "import-keying") (rows_of (found_of matches.now)) ≡ Some no_digest)) }
{
    Ok(in_office(Errand::ImportKeying(KeyingFile {
        clerk: number_in(matches, CLERK),
        batch: number_in(matches, BATCH),
        round: number_in(matches, ROUND),
        file: text_in(matches, FILE),
        id: text_in(matches, ID),
        digest: digest_in(matches)?,
    })))
}

/// Returns the order that sends a clerk's keying of the matched papers.
fn key<'a>(alloc: Global, matches: &ArgMatches<'a>) -> Result<Order<'a>, NoOrder>
    ensures ok { IfOk result (λ o. meaning_of (codes "key") (rows_of (found_of matches.now)) ≡ Some (told o)) }
    ensures err { IfErr result (λ why. why ≡ NoOrder.Memory) }
{
    let id = text_copied(alloc, matches, ID)?;
    let command = KeyingCommand {
        batch: number_in(matches, BATCH),
        round: number_in(matches, ROUND),
        papers: texts_copied(alloc, matches, MARKS)?,
    };
    let clerk = number_in(matches, CLERK);
    Ok(in_office(Errand::Send(by_clerk(clerk, id, Command::Keying(command)))))
}

/// Returns the order that seals a ward, conditional on the matched number of papers if there is one.
fn seal<'a>(alloc: Global, matches: &ArgMatches<'a>) -> Result<Order<'a>, NoOrder>
    ensures ok { IfOk result (λ o. meaning_of (codes "seal") (rows_of (found_of matches.now)) ≡ Some (told o)) }
    ensures err { IfErr result (λ why. why ≡ NoOrder.Memory) }
{
    let ward = number_in(matches, WARD);
    match number_found_in(matches, PAPERS) {
        Some(papers) => Ok(in_office(Errand::SealExpected(ExpectedSeal {
            ward,
            papers,
            id: text_in(matches, ID),
        }))),
        None => sending(alloc, matches, Command::Count(CountCommand::Seal { ward })),
    }
}

fn counting<'a>(matches: &ArgMatches<'a>) -> Order<'a>
    ensures { meaning_of (codes "count") (rows_of (found_of matches.now)) ≡ Some (told result) }
{
    in_office(Errand::Count {
        ward: number_in(matches, WARD),
        id: text_in(matches, ID),
    })
}

fn replay<'a>(matches: &ArgMatches<'a>) -> Order<'a>
    ensures { meaning_of (codes "replay") (rows_of (found_of matches.now)) ≡ Some (told result) }
{
    Order::Perform(Task::InOffice(Job::Replay(ReplayOrder {
        file: text_in(matches, SCRIPT),
        keep_going: flag_in(matches, KEEP_GOING),
        cut: flag_in(matches, CUT),
    })))
}

/// Returns the order that makes a new office from this one's journal, and says whether the new one takes over.
fn mending<'a>(
    alloc: Global,
    matches: &ArgMatches<'a>,
    takes_over: bool,
) -> Result<Order<'a>, NoOrder>
    ensures ok { IfOk result (λ o. told o ≡ mended_at (rows_of (found_of matches.now)) takes_over) }
    ensures err { IfErr result (λ why. why ≡ NoOrder.Memory) }
{
    Ok(Order::Mend(MendOrder {
        path: text_in(matches, NEW_OFFICE),
        without: texts_copied(alloc, matches, WITHOUT)?,
        instead: texts_copied(alloc, matches, WITH)?,
        takes_over,
    }))
}

fn making_codes<'a>(matches: &ArgMatches<'a>) -> Order<'a>
    ensures { meaning_of (codes "codes") (rows_of (found_of matches.now)) ≡ Some (told result) }
{
    Order::Codes {
        path: text_in(matches, CODES_FILE),
        clerks: text_in(matches, CLERKS),
        with_office: flag_in(matches, WITH_OFFICE),
    }
}

fn publishing<'a>(matches: &ArgMatches<'a>) -> Order<'a>
    ensures { meaning_of (codes "publish") (rows_of (found_of matches.now)) ≡ Some (told result) }
{
    Order::Publish(PublishOrder {
        path: text_in(matches, FOLDER),
        title: text_in(matches, TITLE),
        with_ballots: flag_in(matches, WITH_BALLOTS),
    })
}

fn serve<'a>(matches: &ArgMatches<'a>) -> Result<Order<'a>, NoOrder>
    ensures ok { IfOk result (λ o. meaning_of (codes "serve") (rows_of (found_of matches.now)) ≡ Some (told o)) }
    ensures bad_origin { result ≡ Err NoOrder.BadOrigin → meaning_of (codes "serve") (rows_of (found_of matches.now)) ≡ Some no_origin }
    ensures title_alone { result ≡ Err NoOrder.TitleAlone → meaning_of (codes "serve") (rows_of (found_of matches.now)) ≡ Some title_alone }
    ensures err { IfErr result (λ why. (why ≡ NoOrder.BadOrigin) ⊎ (why ≡ NoOrder.TitleAlone)) }
{
    Ok(Order::Serve {
        port: number_in(matches, PORT),
        connections: number_found_in(matches, CONNECTIONS),
        origin: origin_in(matches, ORIGIN)?,
        codes: text_found_in(matches, CODES),
        public: public_in(matches)?,
    })
}

/// Returns the order that prints a text of the matched ward.
fn printing<'a>(matches: &ArgMatches<'a>, text: WardText<'a>) -> Order<'a>
    ensures { told result ≡ told_text (number_at (codes "WARD") (rows_of (found_of matches.now))) text.entry }
{
    in_office(Errand::Print {
        ward: number_in(matches, WARD),
        text,
    })
}

fn page<'a>(matches: &ArgMatches<'a>) -> Order<'a>
    ensures { meaning_of (codes "page") (rows_of (found_of matches.now)) ≡ Some (told result) }
{
    printing(matches, WardText::Page(text_in(matches, TITLE)))
}

fn index<'a>(matches: &ArgMatches<'a>) -> Order<'a>
    ensures { meaning_of (codes "index") (rows_of (found_of matches.now)) ≡ Some (told result) }
{
    in_office(Errand::PrintIndex {
        title: text_in(matches, TITLE),
    })
}

fn asking<'a>(question: Question) -> Order<'a>
    ensures { told result ≡ ask question }
{
    in_office(Errand::Ask(question))
}

/// Returns the form of a ward with this name, if there is one.
fn ward_form_in(name: &str) -> Option<Form>
    ensures { result ≡ ward_form_in name.now }
{
    match name {
        "covers" => Some(Form::Covers),
        "adjudication" => Some(Form::Adjudication),
        "lots" => Some(Form::Lots),
        "declaration" => Some(Form::Declaration),
        _ => None,
    }
}

/// Parses a number; `None` if the text isn't one.
fn number_of(text: &str) -> Option<u32>
    ensures { result ≡ number_of text.now }
{
    match text.parse::<u32>() {
        Ok(number) => Some(number),
        Err(_) => None,
    }
}

/// Returns the order that prints the form of the ward with this number, if there are both.
fn form_of_ward<'a>(form: Option<Form>, ward: Option<u32>) -> Result<Order<'a>, NoOrder>
    ensures ok { IfOk result (λ o. told o ≡ form_of_ward form ward) }
    ensures err { IfErr result (λ why. (why ≡ NoOrder.BadForm) × (form_of_ward form ward ≡ no_form)) }
{
    let Some(form) = form else {
        return Err(NoOrder::BadForm);
    };
    match ward {
        Some(ward) => Ok(asking(Question::Form { form, ward })),
        None => Err(NoOrder::BadForm),
    }
}

/// Returns the order for the form with this name, given the word after the name, if there is no address.
fn form_named<'a>(name: &str, word: &str) -> Result<Order<'a>, NoOrder>
    ensures ok { IfOk result (λ o. told o ≡ form_meant name.now word.now None) }
    ensures err { IfErr result (λ why. (why ≡ NoOrder.BadForm) × (form_meant name.now word.now None ≡ no_form)) }
{
    form_of_ward(ward_form_in(name), number_of(word))
}

/// Returns the order for the form with this name, given the word after the name and an address.
fn form_with_address<'a>(
    name: &str,
    word: &'a str,
    address: Origin<'a>,
) -> Result<Order<'a>, NoOrder>
    ensures ok { IfOk result (λ o. told o ≡ form_meant name.now word.now (Some (origin_text address.entry))) }
    ensures err { IfErr result (λ why. (why ≡ NoOrder.BadForm) × (form_meant name.now word.now (Some (origin_text address.entry)) ≡ no_form)) }
{
    if name == "slips" {
        Ok(Order::Slips {
            path: word,
            address,
        })
    } else {
        Err(NoOrder::BadForm)
    }
}

/// Returns the order that prints a form of a ward, or slips of a file of codes.
fn forms<'a>(matches: &ArgMatches<'a>) -> Result<Order<'a>, NoOrder>
    ensures ok { IfOk result (λ o. meaning_of (codes "forms") (rows_of (found_of matches.now)) ≡ Some (told o)) }
    ensures bad_origin { result ≡ Err NoOrder.BadOrigin → meaning_of (codes "forms") (rows_of (found_of matches.now)) ≡ Some no_origin }
    ensures bad_form { result ≡ Err NoOrder.BadForm → meaning_of (codes "forms") (rows_of (found_of matches.now)) ≡ Some no_form }
    ensures err { IfErr result (λ why. (why ≡ NoOrder.BadOrigin) ⊎ (why ≡ NoOrder.BadForm)) }
{
    let name = text_in(matches, FORM);
    let word = text_in(matches, SOURCE);
    match origin_in(matches, ADDRESS)? {
        Some(address) => {
            let order = form_with_address(name, word, address)?;
            Ok(order)
        }
        None => {
            let order = form_named(name, word)?;
            Ok(order)
        }
    }
}

/// Returns the question that the order of this name asks, with the matched values; `None` if it asks none.
fn question_named(name: &str, matches: &ArgMatches<'_>) -> Option<Question>
    ensures some { IfSome result (λ question. meaning_of name.now (rows_of (found_of matches.now)) ≡ Some (ask question)) }
    ensures none { result ≡ None → is_question_name name.now ≡ false }
{
    let ward = number_in(matches, WARD);
    let batch = number_in(matches, BATCH);
    let actor = number_found_in(matches, ACTOR);
    match name {
        "wards" => Some(Question::Wards),
        "batches" => Some(Question::Batches { ward }),
        "doubtful" => Some(Question::Doubtful { ward }),
        "differences" => Some(Question::Differences { batch }),
        "papers" => Some(Question::Papers { batch }),
        "fields" => Some(Question::Fields {
            batch,
            clerk: number_found_in(matches, ITS_CLERK),
        }),
        "receipts" => Some(Question::Receipts { actor }),
        _ => None,
    }
}

/// Returns the order with the given name, with the matched values.
fn order_named<'a>(
    alloc: Global,
    name: &str,
    matches: &ArgMatches<'a>,
) -> Result<Order<'a>, NoOrder>
    ensures ok { IfOk result (λ o. meaning_of name.now (rows_of (found_of matches.now)) ≡ Some (told o)) }
    ensures unknown { result ≡ Err NoOrder.Unknown → is_order_name name.now ≡ false }
    ensures bad { result ≡ Err NoOrder.BadVerdict → meaning_of name.now (rows_of (found_of matches.now)) ≡ Some no_verdict }
    ensures bad_origin { result ≡ Err NoOrder.BadOrigin → meaning_of name.now (rows_of (found_of matches.now)) ≡ Some no_origin }
    ensures bad_digest { result ≡ Err NoOrder.BadDigest → meaning_of name.now (rows_of (found_of matches.now)) ≡ Some no_digest }
    ensures title_alone { result ≡ Err NoOrder.TitleAlone → meaning_of name.now (rows_of (found_of matches.now)) ≡ Some title_alone }
    ensures bad_form { result ≡ Err NoOrder.BadForm → meaning_of name.now (rows_of (found_of matches.now)) ≡ Some no_form }
{
    let ward = number_in(matches, WARD);
    match name {
        "init" => Ok(Order::Perform(Task::Init)),
        "migrate" => Ok(Order::Perform(Task::Migrate)),
        "import-candidates" => import_candidates(matches),
        "import-batches" => import_batches(matches),
        "import-keying" => import_keying(matches),
        "key" => key(alloc, matches),
        "seal" => seal(alloc, matches),
        "count" => Ok(counting(matches)),
        "next" => Ok(in_office(Errand::PrintNext { ward })),
        "status" => Ok(in_office(Errand::PrintStatus { ward })),
        "sheet" => Ok(printing(matches, WardText::Sheet)),
        "result" => Ok(printing(matches, WardText::Declaration)),
        "ballots" => Ok(printing(matches, WardText::Ballots)),
        "page" => Ok(page(matches)),
        "table" => Ok(printing(matches, WardText::Table)),
        "index" => Ok(index(matches)),
        "serve" => serve(matches),
        "forms" => forms(matches),
        "journal" => Ok(Order::Journal),
        "replay" => Ok(replay(matches)),
        "second" => Ok(Order::Second {
            path: text_in(matches, RECORD),
        }),
        "copy" => Ok(Order::Copy {
            path: text_in(matches, NEW),
        }),
        "mend" => mending(alloc, matches, false),
        "switch" => mending(alloc, matches, true),
        "codes" => Ok(making_codes(matches)),
        "publish" => Ok(publishing(matches)),
        _ => match question_named(name, matches) {
            Some(question) => Ok(asking(question)),
            None => sending(alloc, matches, command_named(alloc, name, matches)?),
        },
    }
}

/// Returns the order that the matched words mean.
pub(crate) fn order_in<'a>(alloc: Global, matches: &ArgMatches<'a>) -> Result<Order<'a>, NoOrder>
    ensures ok { IfOk result (λ o. meaning (subcommand_rows_of matches.now) ≡ Some (told o)) }
    ensures unknown { result ≡ Err NoOrder.Unknown → names_order (subcommand_rows_of matches.now) ≡ false }
    ensures bad { result ≡ Err NoOrder.BadVerdict → meaning (subcommand_rows_of matches.now) ≡ Some no_verdict }
    ensures bad_origin { result ≡ Err NoOrder.BadOrigin → meaning (subcommand_rows_of matches.now) ≡ Some no_origin }
    ensures bad_digest { result ≡ Err NoOrder.BadDigest → meaning (subcommand_rows_of matches.now) ≡ Some no_digest }
    ensures title_alone { result ≡ Err NoOrder.TitleAlone → meaning (subcommand_rows_of matches.now) ≡ Some title_alone }
    ensures bad_form { result ≡ Err NoOrder.BadForm → meaning (subcommand_rows_of matches.now) ≡ Some no_form }
{
    match matches.subcommand() {
        Some((name, inner)) => order_named(alloc, name, inner),
        None => Err(NoOrder::Unknown),
    }
}
