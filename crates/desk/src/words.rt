//! Parsing the words of the command line into an order.

ghost use Rattle.std.specs.Prelude.{◌≡◌, ◌≢◌, ◌⊎◌, ◌∷◌, true, false, [], Some, map, string_bytes, IfOk, IfErr};
ghost use Rattle.clap.specs.Words.{app_of, rule_of, subcommand_of, takes, with_rule, with_subcommand};
ghost use Rattle.clap.specs.declared.builder.command.Command.TheViews.{out-Command as fields_of};
ghost use Rattle.desk.specs.Orders.{no_digest, no_form, no_origin, no_verdict, title_alone, told, words_of};
ghost use Rattle.desk.specs.Versions.{version_text};
ghost use Rattle.desk.specs.Words.{IsNoneMeant, IsOwnText, IsToldOf, TellsOwnText, TellsRefusal, meaning, status_of_kind, wrong_with};
ghost use Rattle.desk.specs.Words.{office_words, order_words, rule_of_kind, start_words, with_orders};

use crate::matched_words::NoOrder;
use crate::order_entry::{Entry, Heading, Kind, MAX_CONNECTIONS, MAX_PORT, Word};
use crate::order_meanings::order_in;
use crate::order_table::{entries_from_seal, entries_to_seal};
use crate::orders::Order;
use crate::version::{VERSION, version_text};
use clap::error::ErrorKind;
use clap::{Arg, ArgAction, Command, Error, value_parser};
use std::alloc::{AllocError, Global};
use std::fmt::Display;

const USAGE_NAME: &str = "count-office DB";

const ABOUT: &str = "Runs the office of an election by the single transferable vote of Scotland.

An office is one database file, DB. It keeps the wards of the election with their
candidates, their batches of papers as the clerks keyed them, and a receipt of each request
that it accepted: the same request, sent again under the same id, prints the same reply and
changes nothing.";

/// The end of the help text: the orders of [`Heading::Office`] and of [`Heading::Everyone`], and the outcomes of orders.
const END_OF_HELP: &str =
    "For the office alone. The first nine change nothing, and no clerk may see what they print:
  wards              The status of each ward, and what is left to do
  batches WARD       Who has keyed each batch of a ward, its status, and which other
                     batch has the very same papers
  doubtful WARD      Which papers of a ward are doubtful, each open or with its verdict
  differences BATCH  On which papers a batch differs
  papers BATCH       How each paper of a taken batch counts, with the candidates' names
  fields BATCH [CLERK]  How many fields the marks of a batch's papers have, and for whom
  receipts [ACTOR]   What was accepted, by id: of an actor, 0 for the office, or of all
  journal            What was accepted, as a script of orders that makes the same office
  second FILE        Whether a second record, such as a journal, holds the same as the office
  replay FILE        Sends the orders of a text file, one per line, up to a refusal
  copy NEW           Makes a copy of the office, in a file that isn't there yet
  mend NEW           Makes a new office without some orders, or with others in their place
  switch NEW         The same, and puts it in the place of this one, also while it is served
  codes FILE CLERKS  Writes a new file of codes for clerks, such as 1-40, to cut into slips
  forms FORM SOURCE  A form as a page to print (HTML): covers, adjudication, lots or declaration
                     of a ward, or slips of a file of codes

For everyone who wants to see or check a count, once the ward is sealed:
  ballots WARD       Its ballots, in a form that counting programs read (BLT)
  page WARD          Its result as a page for a browser, to print and sign (HTML)
  table WARD         Its stages as a table for a spreadsheet (CSV)
  index              The status of all wards, sealed or not, and who is elected, as a page
                     to hang at the door (HTML)
  publish FOLDER     All of these, of each sealed ward, as a folder for a web site

Each order's help ends with an example. Its words, with their ranges, are shown by
  count-office DB ORDER --help

A reply goes to standard output, with status 0. What the office refuses goes to standard
error, with status 1; words that are not understood with 2, and faults with 3.

docs/officer/by-words.md leads through an election, order by order.
docs/officer/when-it-says-no.md says what refusals and faults mean, and what to do.";

/// The fallback message for words that aren't understood.
const NOT_UNDERSTOOD: &str = "error: the words are not understood\n";

/// The message for an invalid word after `--origin`.
pub(crate) const BAD_ORIGIN: &str =
    "error: an origin is http:// or https://, a host in small letters, and its port where it isn't the usual one, as https://count.example.org\n";

/// The message for an invalid word after `--sha256`.
pub(crate) const BAD_DIGEST: &str =
    "error: a digest is 64 hexadecimal digits, as sha256sum prints them\n";

/// The message for a title without `--public`.
pub(crate) const BAD_TITLE: &str =
    "error: --title is the title of what is shown in public, so it needs --public\n";

/// What is printed if the words after `forms` name no form.
pub(crate) const BAD_FORM: &str =
    "error: a form is covers, adjudication, lots or declaration, and a ward's number; or slips, a file of codes, and --address\n";

/// The reason why the words aren't an order.
#[derive(Drop)]
pub enum WordsFault {
    /// An allocation failed.
    Memory,
    /// The word for a verdict is invalid.
    Verdict,
    /// The word after `--origin` is invalid.
    Origin,
    /// The word after `--sha256` is invalid.
    Digest,
    /// `--title` is given without `--public`.
    TitleAlone,
    /// The words after `forms` name no form.
    Form,
    /// The text to print and the exit status: 0 if help was requested, 2 if the words aren't understood.
    Words { text: String, status: u8 },
}

/// Returns the `clap` rule for a word.
fn arg_of<'a>(alloc: Global, word: Word) -> Arg<'a>
    ensures rule { rule_of result ≡ rule_of_kind word.kind word.name.now }
    ensures local { result.global ≡ false }
{
    let arg = Arg::new(alloc, word.name).help(word.help);
    match word.kind {
        Kind::Number => arg.value_parser(value_parser!(u32)).required(true),
        Kind::NumberOrNone => arg.value_parser(value_parser!(u32)),
        Kind::Port => {
            let port = value_parser!(u32).range(1..=MAX_PORT);
            arg.value_parser(port).required(true)
        }
        Kind::Connections => {
            let connections = value_parser!(u32).range(1..=MAX_CONNECTIONS);
            arg.value_parser(connections)
        }
        Kind::Text | Kind::Verdict => arg.required(true),
        Kind::Id => arg.long(word.name).value_name("ID").required(true),
        Kind::Origin => arg.long(word.name).value_name("ORIGIN"),
        Kind::CodesFile => arg.long(word.name).value_name("FILE"),
        Kind::Title => arg.long(word.name).value_name("TEXT"),
        Kind::Digest => arg.long(word.name).value_name("HEX"),
        Kind::Papers => {
            let arg = arg.long(word.name).value_name("COUNT");
            arg.value_parser(value_parser!(u32))
        }
        Kind::Texts => arg.action(ArgAction::Append),
        Kind::Options => {
            let value = arg.long(word.name).value_name("TEXT");
            value.action(ArgAction::Append)
        }
        Kind::Flag => arg.long(word.name).action(ArgAction::SetTrue),
    }
}

/// Adds a word to a command.
fn with_word<'a>(alloc: Global, command: Command<'a>, word: Word) -> Result<Command<'a>, AllocError>
    ensures app { IfOk result (λ c. app_of c ≡ with_rule (app_of command.entry) (rule_of_kind word.kind word.name.now)) }
    ensures local { (fields_of command.entry).has_globals ≡ false → IfOk result (λ c. (fields_of c).has_globals ≡ false) }
{
    command.arg(arg_of(alloc, word))
}

/// Returns the `clap` command for a single order.
fn order_command<'a>(alloc: Global, entry: Entry) -> Result<Command<'a>, AllocError>
    ensures app { IfOk result (λ c. app_of c ≡ order_words (words_of entry)) }
    ensures local { IfOk result (λ c. (fields_of c).has_globals ≡ false) }
{
    let mut command = Command::new(alloc, entry.name)
        .about(entry.help)
        .hide(!matches!(entry.heading, Heading::Election));
    for word in entry.words {
        command = with_word(alloc, command, *word)?;
    }
    Ok(command)
}

fn start_command<'a>(alloc: Global) -> Command<'a>
    ensures app { app_of result ≡ start_words }
    ensures local { (fields_of result).has_globals ≡ false }
{
    Command::new(alloc, "count-office")
        .about(ABOUT)
        .version(VERSION)
        .after_help(END_OF_HELP)
        .subcommand_required(true)
        .arg_required_else_help(true)
        .disable_help_subcommand(true)
}

/// Makes the usage line show the program's name in place of DB.
fn named<'a>(command: Command<'a>) -> Result<Command<'a>, AllocError>
    ensures app { IfOk result (λ c. app_of c ≡ app_of command.entry) }
    ensures local { (fields_of command.entry).has_globals ≡ false → IfOk result (λ c. (fields_of c).has_globals ≡ false) }
{
    command.bin_name(USAGE_NAME)
}

fn with_order<'a>(
    alloc: Global,
    command: Command<'a>,
    entry: Entry,
) -> Result<Command<'a>, AllocError>
    ensures app { IfOk result (λ c. app_of c ≡ with_subcommand (app_of command.entry) (order_words (words_of entry)).top) }
    ensures local { (fields_of command.entry).has_globals ≡ false → IfOk result (λ c. (fields_of c).has_globals ≡ false) }
{
    command.subcommand(order_command(alloc, entry)?)
}

/// Adds the orders of a table to a command.
fn with_orders<'a>(
    alloc: Global,
    mut command: Command<'a>,
    entries: &[Entry],
) -> Result<Command<'a>, AllocError>
    ensures app { IfOk result (λ c. app_of c ≡ with_orders (app_of command.entry) (map words_of entries.now)) }
    ensures local { (fields_of command.entry).has_globals ≡ false → IfOk result (λ c. (fields_of c).has_globals ≡ false) }
{
    for entry in entries {
        command = with_order(alloc, command, *entry)?;
    }
    Ok(command)
}

#[tactic(auto, unfolding(crate::specs::Words::office_words))]
/// Returns the `clap` command for all orders.
fn office_command<'a>(alloc: Global) -> Result<Command<'a>, AllocError>
    ensures app { IfOk result (λ c. app_of c ≡ office_words) }
    ensures local { IfOk result (λ c. (fields_of c).has_globals ≡ false) }
{
    let command = with_orders(alloc, named(start_command(alloc))?, entries_to_seal())?;
    with_orders(alloc, command, entries_from_seal())
}

/// Returns the exit status for words that ask for help or the version, or that aren't understood.
fn status_of(kind: ErrorKind) -> u8
    ensures { result ≡ status_of_kind kind }
{
    match kind {
        ErrorKind::DisplayHelp | ErrorKind::DisplayVersion => 0,
        _ => 2,
    }
}

/// Returns the displayed text of a value, or the fallback message if that text is empty.
fn text_of<D: Display>(alloc: Global, shown: &D) -> Result<String, AllocError>
    ensures some { IfOk result (λ text. string_bytes text ≢ []) }
    ensures own { IfOk result (λ text. IsOwnText (D.output shown.now) (string_bytes text)) }
{
    let text = format!(in alloc; "{shown}")?;
    if text.is_empty() {
        String::from_str(alloc, NOT_UNDERSTOOD)
    } else {
        Ok(text)
    }
}

/// Returns what is printed for words that `clap` rejects: the text that its error displays, with the status for the kind of error.
///
/// `clap` guarantees nothing about that text, so the error may be any value that implements Display, and nothing else is assumed
/// about it.
fn refused<D: Display>(alloc: Global, kind: ErrorKind, shown: &D) -> WordsFault
    ensures memory { kind ≡ ErrorKind.OutOfMemory → result ≡ WordsFault.Memory }
    ensures told { TellsRefusal kind result }
    ensures own { TellsOwnText (D.output shown.now) result }
{
    if kind == ErrorKind::OutOfMemory {
        return WordsFault::Memory;
    }
    match text_of(alloc, shown) {
        Ok(text) => WordsFault::Words {
            text,
            status: status_of(kind),
        },
        Err(_) => WordsFault::Memory,
    }
}

/// Returns what is printed when the version is requested.
fn version_told(alloc: Global) -> WordsFault
    ensures told { TellsRefusal ErrorKind.DisplayVersion result }
    ensures text { TellsOwnText (Some version_text) result }
{
    match version_text(alloc) {
        Ok(text) => WordsFault::Words { text, status: 0 },
        Err(_) => WordsFault::Memory,
    }
}

/// Returns what is printed for words that `clap` rejects: the version if they ask for it, otherwise the text that its error
/// displays.
fn denied(alloc: Global, kind: ErrorKind, error: &Error) -> WordsFault
    ensures memory { kind ≡ ErrorKind.OutOfMemory → result ≡ WordsFault.Memory }
    ensures told { TellsRefusal kind result }
    ensures version { kind ≡ ErrorKind.DisplayVersion → TellsOwnText (Some version_text) result }
{
    if kind == ErrorKind::DisplayVersion {
        return version_told(alloc);
    }
    refused(alloc, kind, error)
}

/// Parses the words, the first of which is DB, into an order.
///
/// The order and its values are those that `clap` matches in the words, according to the table of orders. Words that `clap` accepts
/// are refused only if an allocation fails, if a verdict, an origin or a digest is invalid, if words after `forms` name no form, or
/// if `serve` is given a title but shows nothing in public. Words that `clap` rejects aren't an order: a nonempty text is printed
/// for them, with status 0 if their first error is that they ask for help or the version, and with status 2 otherwise. If an
/// allocation fails, that is reported.
pub fn order<'a>(alloc: Global, words: &'a [&'a str]) -> Result<Order<'a>, WordsFault>
    ensures accepts { IfOk result (λ _. wrong_with (map (λ s. s.now) words.entry.now) ≡ []) }
    ensures denies { IfErr result (IsToldOf (wrong_with (map (λ s. s.now) words.entry.now))) }
    ensures none { IfErr result (IsNoneMeant (meaning (subcommand_of office_words (map (λ s. s.now) words.entry.now)))) }
    ensures version { wrong_with (map (λ s. s.now) words.entry.now) ≡ ErrorKind.DisplayVersion ∷ [] → IfErr result (TellsOwnText (Some version_text)) }
    ensures ok { IfOk result (λ o. meaning (subcommand_of office_words (map (λ s. s.now) words.entry.now)) ≡ Some (told o)) }
    ensures err { takes office_words (map (λ s. s.now) words.entry.now) ≡ true → IfErr result (λ e. (e ≡ WordsFault.Memory)
        ⊎ (((e ≡ WordsFault.Verdict) × (meaning (subcommand_of office_words (map (λ s. s.now) words.entry.now)) ≡ Some no_verdict))
        ⊎ (((e ≡ WordsFault.Origin) × (meaning (subcommand_of office_words (map (λ s. s.now) words.entry.now)) ≡ Some no_origin))
        ⊎ (((e ≡ WordsFault.Digest) × (meaning (subcommand_of office_words (map (λ s. s.now) words.entry.now)) ≡ Some no_digest))
        ⊎ (((e ≡ WordsFault.TitleAlone) × (meaning (subcommand_of office_words (map (λ s. s.now) words.entry.now)) ≡ Some title_alone))
        ⊎ ((e ≡ WordsFault.Form) × (meaning (subcommand_of office_words (map (λ s. s.now) words.entry.now)) ≡ Some no_form))))))) }
{
    let command = match office_command(alloc) {
        Ok(command) => command,
        Err(_) => return Err(WordsFault::Memory),
    };
    let matches = match command.try_get_matches_from(words) {
        Ok(matches) => matches,
        Err(error) => return Err(denied(alloc, error.kind(), &error)),
    };
    match order_in(alloc, &matches) {
        Ok(order) => Ok(order),
        Err(NoOrder::Memory) => Err(WordsFault::Memory),
        Err(NoOrder::BadVerdict) => Err(WordsFault::Verdict),
        Err(NoOrder::BadOrigin) => Err(WordsFault::Origin),
        Err(NoOrder::BadDigest) => Err(WordsFault::Digest),
        Err(NoOrder::TitleAlone) => Err(WordsFault::TitleAlone),
        Err(NoOrder::BadForm) => Err(WordsFault::Form),
        Err(NoOrder::Unknown) => Err(WordsFault::Words {
            text: String::new(alloc),
            status: 2,
        }),
    }
}
