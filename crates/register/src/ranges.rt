//! The ranges of numbers, names, ids and replies.

ghost use Rattle.std.specs.Prelude.{◌≡◌};
ghost use Rattle.std.specs.List.{list_all};
ghost use Rattle.register.specs.Ranges.{is_between, is_office, is_clerk, is_ward_number, is_seat_number, is_candidate_number, is_batch_number, is_paper_number, is_lot_stage, is_round, is_name_byte};
ghost use Rattle.register.specs.Ranges.{is_id_byte, is_line_byte, is_name, is_id, is_reply};

use paper::MAX_CANDIDATES;
use votes::MAX_SEATS;

/// The office itself, as an actor.
const OFFICE: u32 = 0;

/// The highest clerk number.
pub const LAST_CLERK: u32 = 999;

/// The highest ward number.
pub const LAST_WARD: u32 = 99;

/// The most seats a ward can have.
pub const MOST_SEATS: u32 = MAX_SEATS as u32;

/// The highest candidate number in a ward.
pub const LAST_CANDIDATE: u32 = MAX_CANDIDATES as u32;

/// The highest batch number, across all wards.
pub const LAST_BATCH: u32 = 9999;

/// The most papers a batch can have.
pub const MOST_PAPERS: u32 = 500;

/// The highest round of keying.
pub const LAST_ROUND: u32 = 99;

/// The first stage of a count for which a lot may be drawn.
pub const FIRST_LOT_STAGE: u32 = 2;

/// The last stage of a count for which a lot may be drawn.
pub const LAST_LOT_STAGE: u32 = 31;

const SPACE: u8 = 32;

const DELETE: u8 = 127;

const LONGEST_NAME: usize = 120;

const LINE_END: u8 = 10;

const LONGEST_ID: usize = 40;

const LONGEST_REPLY: usize = 200;

/// Returns whether a number is within a range, including both ends.
pub fn is_between(low: u32, high: u32, n: u32) -> bool
    ensures { result ≡ is_between low high n }
{
    low <= n && n <= high
}

/// Returns whether an actor is the office itself, which has number 0.
pub fn is_office(actor: u32) -> bool
    ensures { result ≡ is_office actor }
{
    actor == OFFICE
}

/// Returns whether an actor is a clerk, with a number from 1 to 999.
pub fn is_clerk(actor: u32) -> bool
    ensures { result ≡ is_clerk actor }
{
    is_between(1, LAST_CLERK, actor)
}

/// Returns whether a number is in the range of ward numbers: 1 to 99.
pub fn is_ward_number(n: u32) -> bool
    ensures { result ≡ is_ward_number n }
{
    is_between(1, LAST_WARD, n)
}

/// Returns whether a ward may have the given number of seats: 1 to 15.
pub fn is_seat_number(n: u32) -> bool
    ensures { result ≡ is_seat_number n }
{
    is_between(1, MOST_SEATS, n)
}

/// Returns whether a number is in the range of candidate numbers: 1 to 30.
pub fn is_candidate_number(n: u32) -> bool
    ensures { result ≡ is_candidate_number n }
{
    is_between(1, LAST_CANDIDATE, n)
}

/// Returns whether a number is in the range of batch numbers: 1 to 9999.
pub fn is_batch_number(n: u32) -> bool
    ensures { result ≡ is_batch_number n }
{
    is_between(1, LAST_BATCH, n)
}

/// Returns whether a number is in the range of batch sizes, which is also the range of paper numbers within a
/// batch: 1 to 500.
pub fn is_paper_number(n: u32) -> bool
    ensures { result ≡ is_paper_number n }
{
    is_between(1, MOST_PAPERS, n)
}

/// Returns whether a number is in the range of stages for which a lot may be drawn: 2 to 31.
pub fn is_lot_stage(n: u32) -> bool
    ensures { result ≡ is_lot_stage n }
{
    is_between(FIRST_LOT_STAGE, LAST_LOT_STAGE, n)
}

/// Returns whether a number is in the range of keying rounds: 1 to 99.
pub fn is_round(n: u32) -> bool
    ensures { result ≡ is_round n }
{
    is_between(1, LAST_ROUND, n)
}

fn is_length(most: usize, n: usize) -> bool
    ensures { result ≡ is_between 1 most n }
{
    1 <= n && n <= most
}

fn is_name_byte(b: u8) -> bool
    ensures { result ≡ is_name_byte b }
{
    SPACE <= b && b != DELETE
}

fn is_id_byte(b: u8) -> bool
    ensures { result ≡ is_id_byte b }
{
    b.is_ascii_lowercase() || b.is_ascii_digit() || b == b'-'
}

fn are_name_bytes(bytes: &[u8]) -> bool
    ensures { result ≡ list_all is_name_byte bytes.now }
{
    bytes.iter().all(|b| is_name_byte(*b))
}

fn are_id_bytes(bytes: &[u8]) -> bool
    ensures { result ≡ list_all is_id_byte bytes.now }
{
    bytes.iter().all(|b| is_id_byte(*b))
}

/// Returns whether a text is a name: 1 to 120 bytes without control characters.
pub fn is_name(text: &str) -> bool
    ensures { result ≡ is_name text.now }
{
    let bytes = text.as_bytes();
    let fits = is_length(LONGEST_NAME, bytes.len());
    fits & are_name_bytes(bytes)
}

/// Returns whether a text is an id: 1 to 40 characters from `a-z`, `0-9` and `-`.
pub fn is_id(text: &str) -> bool
    ensures { result ≡ is_id text.now }
{
    let bytes = text.as_bytes();
    let fits = is_length(LONGEST_ID, bytes.len());
    fits & are_id_bytes(bytes)
}

fn is_line_byte(b: u8) -> bool
    ensures { result ≡ is_line_byte b }
{
    b != LINE_END
}

fn are_line_bytes(bytes: &[u8]) -> bool
    ensures { result ≡ list_all is_line_byte bytes.now }
{
    bytes.iter().all(|b| is_line_byte(*b))
}

/// Returns whether a text is a reply: at most 200 bytes, without a newline.
pub fn is_reply(text: &str) -> bool
    ensures { result ≡ is_reply text.now }
{
    let bytes = text.as_bytes();
    let fits = bytes.len() <= LONGEST_REPLY;
    fits & are_line_bytes(bytes)
}
