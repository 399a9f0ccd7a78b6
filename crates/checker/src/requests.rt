//! The arguments of a request to count ballots.

ghost use Rattle.std.specs.Prelude.{◌≡◌, Ok, map, option_map, string_bytes, IfOk, IfErr};
ghost use Rattle.checker.specs.BallotsComments.{is_word as is_word_of};
ghost use Rattle.checker.specs.Counts.{text_of};
ghost use Rattle.checker.specs.Requests.{count_request, done_as, form_asked, is_option, lot_in_word, lot_of, nothing_asked, request_at, text_asked, text_option};
ghost use Rattle.checker.specs.Requests.{with_any, with_ballots, with_candidate, with_lot, with_name, with_seats, with_text, with_title, with_word};
ghost use Rattle.checker.specs.RequestViews.{IsRequest, form_told, request_told, words_told};

use crate::ballot_counts::CountText;
use crate::comments::small_in;
use crate::names::MAX_NAME;
use crate::records_ward::RecordsWard;
use crate::tokens::{Separator, pieces_of};
use paper::MAX_CANDIDATES;
use std::alloc::{AllocError, Global};
use votes::MAX_SEATS;

/// The meaning of the next word.
#[derive(Clone, Copy)]
pub(crate) enum NextWord {
    /// An option, or the path of the ballots.
    Any,
    /// The title of a page.
    Title,
    /// A lot.
    Lot,
    /// The number of seats in the ward.
    Seats,
    /// The name of the ward.
    Name,
    /// The name of a candidate.
    Candidate,
}

/// An option that requests a text other than the sheet.
#[derive(Clone, Copy)]
pub(crate) enum TextOption {
    Declaration,
    Page,
    Table,
    Results,
    Ballots,
}

/// The reason why the words aren't understood.
#[derive(Clone, Copy)]
pub enum WordsFlaw {
    /// The path of the ballots is missing.
    NoBallots,
    /// There are two paths.
    SecondBallots,
    /// There is no such option.
    UnknownOption,
    /// Two texts are requested.
    SecondText,
    /// The last option has no value.
    NoValue,
    /// A lot isn't a stage and a candidate.
    Lot,
    /// There is a title, but no page is requested.
    TitleAlone,
    /// An option that may be given only once is given twice.
    SecondTime,
    /// The number of seats isn't a number, or is out of range.
    Seats,
    /// A candidate's name is empty or too long, or there are too many candidates.
    Candidates,
    /// The seats or the name of the ward is missing, although the other or a candidate is given.
    HalfWard,
}

/// A request to count ballots.
#[derive(Drop)]
pub(crate) struct CountRequest<'a> {
    /// The path of the ballots.
    pub(crate) ballots: &'a str,
    /// The ward of the cast-vote records; `None` for a BLT file.
    pub(crate) ward: Option<RecordsWard<'a>>,
    pub(crate) text: CountText<'a>,
    /// The lots to add to those in the file.
    pub(crate) lots: Vec<(u8, u8)>,
}

/// The request in the words so far.
#[derive(Drop)]
pub(crate) struct CountWords<'a> {
    next: NextWord,
    ballots: Option<&'a str>,
    text: Option<TextOption>,
    title: Option<&'a str>,
    lots: Vec<(u8, u8)>,
    seats: Option<u8>,
    name: Option<&'a str>,
    candidates: Vec<&'a str>,
}

/// Returns the text that an option requests.
fn text_option(word: &str) -> Option<TextOption>
    ensures { result ≡ text_option word.now }
{
    if word == "--declaration" {
        return Some(TextOption::Declaration);
    }
    if word == "--page" {
        return Some(TextOption::Page);
    }
    if word == "--table" {
        return Some(TextOption::Table);
    }
    if word == "--results" {
        return Some(TextOption::Results);
    }
    if word == "--ballots" {
        return Some(TextOption::Ballots);
    }
    None
}

/// Parses the stage and the candidate of a lot.
fn lot_of(words: &[&[u8]]) -> Option<(u8, u8)>
    ensures { result ≡ lot_of (map (λ w. w.now) words.now) }
{
    let [stage, candidate] = words else {
        return None;
    };
    Some((small_in(stage)?, small_in(candidate)?))
}

/// Parses a lot: its stage, a colon, and its candidate.
fn lot_in_word(alloc: Global, word: &str) -> Result<Option<(u8, u8)>, AllocError>
    ensures { IfOk result (λ lot. lot ≡ lot_in_word word.now) }
{
    let words = pieces_of(alloc, Separator::Colon, word.as_bytes())?;
    Ok(lot_of(&words))
}

/// Returns whether the word begins with a hyphen and isn't just a hyphen.
fn is_option(word: &str) -> bool
    ensures { result ≡ is_option word.now }
{
    match word.as_bytes() {
        [byte, _, ..] => *byte == b'-',
        _ => false,
    }
}

impl<'a> CountWords<'a> {
    /// Returns an empty request.
    fn new(alloc: Global) -> CountWords<'a>
        ensures { words_told result ≡ nothing_asked }
    {
        CountWords {
            next: NextWord::Any,
            ballots: None,
            text: None,
            title: None,
            lots: Vec::new(alloc),
            seats: None,
            name: None,
            candidates: Vec::new(alloc),
        }
    }

    /// Stores the requested text.
    fn take_text(&mut self, text: TextOption) -> Result<(), WordsFlaw>
        ensures { done_as result (words_told self.new) ≡ with_text (words_told self.old) text }
    {
        if self.text.is_some() {
            return Err(WordsFlaw::SecondText);
        }
        self.next = NextWord::Any;
        self.text = Some(text);
        Ok(())
    }

    /// Stores the path of the ballots.
    fn take_ballots(&mut self, path: &'a str) -> Result<(), WordsFlaw>
        ensures { done_as result (words_told self.new) ≡ with_ballots (words_told self.old) path.now }
    {
        if is_option(path) {
            return Err(WordsFlaw::UnknownOption);
        }
        if self.ballots.is_some() {
            return Err(WordsFlaw::SecondBallots);
        }
        self.next = NextWord::Any;
        self.ballots = Some(path);
        Ok(())
    }

    /// Stores a title.
    fn take_title(&mut self, title: &'a str) -> Result<(), WordsFlaw>
        ensures { done_as result (words_told self.new) ≡ with_title (words_told self.old) title.now }
    {
        if self.title.is_some() {
            return Err(WordsFlaw::SecondTime);
        }
        self.next = NextWord::Any;
        self.title = Some(title);
        Ok(())
    }

    /// Stores the number of seats.
    fn take_seats(&mut self, word: &str) -> Result<(), WordsFlaw>
        ensures { done_as result (words_told self.new) ≡ with_seats (words_told self.old) word.now }
    {
        if self.seats.is_some() {
            return Err(WordsFlaw::SecondTime);
        }
        let Some(seats) = small_in(word.as_bytes()) else {
            return Err(WordsFlaw::Seats);
        };
        self.next = NextWord::Any;
        self.seats = Some(seats);
        Ok(())
    }

    /// Stores the name of the ward.
    fn take_name(&mut self, name: &'a str) -> Result<(), WordsFlaw>
        ensures { done_as result (words_told self.new) ≡ with_name (words_told self.old) name.now }
    {
        if self.name.is_some() {
            return Err(WordsFlaw::SecondTime);
        }
        self.next = NextWord::Any;
        self.name = Some(name);
        Ok(())
    }

    /// Stores the name of a candidate.
    fn take_candidate(&mut self, name: &'a str) -> Result<Result<(), WordsFlaw>, AllocError>
        ensures { IfOk result (λ told. done_as told (words_told self.new) ≡ with_candidate (words_told self.old) name.now) }
    {
        if name.is_empty() || name.len() > MAX_NAME {
            return Ok(Err(WordsFlaw::Candidates));
        }
        self.candidates.push(name)?;
        self.next = NextWord::Any;
        Ok(Ok(()))
    }

    /// Stores a lot, if the word is one.
    fn take_lot(&mut self, lot: Option<(u8, u8)>) -> Result<Result<(), WordsFlaw>, AllocError>
        ensures { IfOk result (λ told. done_as told (words_told self.new) ≡ with_lot (words_told self.old) lot) }
    {
        let Some(lot) = lot else {
            return Ok(Err(WordsFlaw::Lot));
        };
        self.lots.push(lot)?;
        self.next = NextWord::Any;
        Ok(Ok(()))
    }

    /// Processes an option or the path of the ballots.
    fn take_any(&mut self, word: &'a str) -> Result<(), WordsFlaw>
        ensures { done_as result (words_told self.new) ≡ with_any (words_told self.old) word.now }
    {
        if word == "--lot" {
            self.next = NextWord::Lot;
            return Ok(());
        }
        if word == "--title" {
            self.next = NextWord::Title;
            return Ok(());
        }
        if word == "--seats" {
            self.next = NextWord::Seats;
            return Ok(());
        }
        if word == "--name" {
            self.next = NextWord::Name;
            return Ok(());
        }
        if word == "--candidate" {
            self.next = NextWord::Candidate;
            return Ok(());
        }
        match text_option(word) {
            Some(text) => self.take_text(text),
            None => self.take_ballots(word),
        }
    }

    /// Processes a word.
    fn take(&mut self, alloc: Global, word: &'a str) -> Result<Result<(), WordsFlaw>, AllocError>
        ensures { IfOk result (λ told. done_as told (words_told self.new) ≡ with_word (words_told self.old) word.now) }
    {
        match self.next {
            NextWord::Any => Ok(self.take_any(word)),
            NextWord::Title => Ok(self.take_title(word)),
            NextWord::Lot => {
                let lot = lot_in_word(alloc, word)?;
                self.take_lot(lot)
            }
            NextWord::Seats => Ok(self.take_seats(word)),
            NextWord::Name => Ok(self.take_name(word)),
            NextWord::Candidate => self.take_candidate(word),
        }
    }

    /// Returns the request made up of the words so far.
    fn into_request(self) -> Result<CountRequest<'a>, WordsFlaw>
        ensures ok { IfOk result (λ request. request_at self.entry.next (words_told self.entry) ≡ Ok (request_told request)) }
        ensures err { IfErr result (λ flaw. request_at self.entry.next (words_told self.entry) ≡ Err flaw) }
    {
        match self.next {
            NextWord::Any => {}
            NextWord::Title
            | NextWord::Lot
            | NextWord::Seats
            | NextWord::Name
            | NextWord::Candidate => {
                return Err(WordsFlaw::NoValue);
            }
        }
        let Some(ballots) = self.ballots else {
            return Err(WordsFlaw::NoBallots);
        };
        let text = text_asked(self.text, self.title)?;
        let ward = ward_asked(self.seats, self.name, self.candidates)?;
        Ok(CountRequest {
            ballots,
            ward,
            text,
            lots: self.lots,
        })
    }
}

/// Returns the text that a request asks for; only a page may have a title.
fn text_asked<'a>(
    text: Option<TextOption>,
    title: Option<&'a str>,
) -> Result<CountText<'a>, WordsFlaw>
    ensures ok { IfOk result (λ asked. text_asked text (option_map (λ t. t.now) title.entry) ≡ Ok (text_of asked)) }
    ensures err { IfErr result (λ flaw. text_asked text (option_map (λ t. t.now) title.entry) ≡ Err flaw) }
{
    match (text, title) {
        (Some(TextOption::Page), Some(title)) => Ok(CountText::Page(title)),
        (_, Some(_)) => Err(WordsFlaw::TitleAlone),
        (None, None) => Ok(CountText::Sheet),
        (Some(TextOption::Declaration), None) => Ok(CountText::Declaration),
        (Some(TextOption::Page), None) => Ok(CountText::Page("")),
        (Some(TextOption::Table), None) => Ok(CountText::Table),
        (Some(TextOption::Results), None) => Ok(CountText::Results),
        (Some(TextOption::Ballots), None) => Ok(CountText::Ballots),
    }
}

/// Returns the ward of cast-vote records if its seats and name are given.
fn ward_asked<'a>(
    seats: Option<u8>,
    name: Option<&'a str>,
    candidates: Vec<&'a str>,
) -> Result<Option<RecordsWard<'a>>, WordsFlaw>
    ensures ok { IfOk result (λ ward. form_asked seats (option_map (λ t. t.now) name.entry) (map (λ c. c.now) candidates.entry.items) ≡ Ok (form_told ward)) }
    ensures err { IfErr result (λ flaw. form_asked seats (option_map (λ t. t.now) name.entry) (map (λ c. c.now) candidates.entry.items) ≡ Err flaw) }
{
    match (seats, name) {
        (None, None) => {
            if candidates.is_empty() {
                Ok(None)
            } else {
                Err(WordsFlaw::HalfWard)
            }
        }
        (Some(seats), Some(name)) => {
            if seats < 1 || seats > MAX_SEATS {
                return Err(WordsFlaw::Seats);
            }
            if candidates.len() > MAX_CANDIDATES {
                return Err(WordsFlaw::Candidates);
            }
            Ok(Some(RecordsWard {
                seats,
                name,
                candidates,
            }))
        }
        (Some(_), None) | (None, Some(_)) => Err(WordsFlaw::HalfWard),
    }
}

/// Parses the words of a request.
pub(crate) fn count_request(
    alloc: Global,
    words: &[String],
) -> Result<Result<CountRequest<'_>, WordsFlaw>, AllocError>
    ensures { IfOk result (λ told. IsRequest (count_request (map string_bytes words.now)) told) }
{
    let mut asked = CountWords::new(alloc);
    for word in words {
        if let Err(flaw) = asked.take(alloc, word.as_str())? {
            return Ok(Err(flaw));
        }
    }
    Ok(asked.into_request())
}
