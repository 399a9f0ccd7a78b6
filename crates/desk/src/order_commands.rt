//! The commands that orders send.
#![tactic(auto, unfolding(crate::specs::Orders::orders))]

ghost use Rattle.std.specs.Prelude.{◌≡◌, ◌⊎◌, false, Err, Some, codes, IfErr, IfOk};
ghost use Rattle.clap.specs.Words.{found_of, rows_of};
ghost use Rattle.desk.specs.Orders.{no_digest, no_form, no_origin, no_verdict, title_alone};
ghost use Rattle.desk.specs.Words.{is_command_name, meaning_of, sent};

use crate::matched_words::{NoOrder, number_in, text_copied, text_in};
use crate::order_entry::{
    BATCH, CANDIDATE, CLERK, FIRST_CLERK, NAME, PAPER, SEATS, SECOND_CLERK, SIZE, STAGE, VERDICT,
    WARD,
};
use crate::verdicts::verdict_in;
use clap::ArgMatches;
use register::{
    BatchCommand, CandidateCommand, Command, CountCommand, VerdictCommand, WardCommand,
};
use std::alloc::Global;

fn batch_command(matches: &ArgMatches<'_>) -> Command
    ensures { meaning_of (codes "batch") (rows_of (found_of matches.now)) ≡ Some (sent (rows_of (found_of matches.now)) result) }
{
    Command::Batch(BatchCommand::Add {
        batch: number_in(matches, BATCH),
        ward: number_in(matches, WARD),
        size: number_in(matches, SIZE),
        first_clerk: number_in(matches, FIRST_CLERK),
        second_clerk: number_in(matches, SECOND_CLERK),
    })
}

fn verdict_command(alloc: Global, matches: &ArgMatches<'_>) -> Result<Command, NoOrder>
    ensures ok { IfOk result (λ command. meaning_of (codes "judge") (rows_of (found_of matches.now)) ≡ Some (sent (rows_of (found_of matches.now)) command)) }
    ensures err { IfErr result (λ why. (why ≡ NoOrder.Memory) ⊎ ((why ≡ NoOrder.BadVerdict) × (meaning_of (codes "judge") (rows_of (found_of matches.now)) ≡ Some no_verdict))) }
{
    match verdict_in(alloc, text_in(matches, VERDICT))? {
        Some(verdict) => Ok(Command::Verdict(VerdictCommand {
            batch: number_in(matches, BATCH),
            paper: number_in(matches, PAPER),
            verdict,
        })),
        None => Err(NoOrder::BadVerdict),
    }
}

/// Returns the command that the order with the given name sends, with the matched values.
pub(crate) fn command_named(
    alloc: Global,
    name: &str,
    matches: &ArgMatches<'_>,
) -> Result<Command, NoOrder>
    ensures ok { IfOk result (λ command. meaning_of name.now (rows_of (found_of matches.now)) ≡ Some (sent (rows_of (found_of matches.now)) command)) }
    ensures unknown { result ≡ Err NoOrder.Unknown → is_command_name name.now ≡ false }
    ensures bad { result ≡ Err NoOrder.BadVerdict → meaning_of name.now (rows_of (found_of matches.now)) ≡ Some no_verdict }
    ensures bad_origin { result ≡ Err NoOrder.BadOrigin → meaning_of name.now (rows_of (found_of matches.now)) ≡ Some no_origin }
    ensures bad_digest { result ≡ Err NoOrder.BadDigest → meaning_of name.now (rows_of (found_of matches.now)) ≡ Some no_digest }
    ensures title_alone { result ≡ Err NoOrder.TitleAlone → meaning_of name.now (rows_of (found_of matches.now)) ≡ Some title_alone }
    ensures bad_form { result ≡ Err NoOrder.BadForm → meaning_of name.now (rows_of (found_of matches.now)) ≡ Some no_form }
{
    let ward = number_in(matches, WARD);
    let candidate = number_in(matches, CANDIDATE);
    let batch = number_in(matches, BATCH);
    match name {
        "ward" => Ok(Command::Ward(WardCommand::Add {
            ward,
            seats: number_in(matches, SEATS),
            name: text_copied(alloc, matches, NAME)?,
        })),
        "candidate" => Ok(Command::Candidate(CandidateCommand::Add {
            ward,
            candidate,
            name: text_copied(alloc, matches, NAME)?,
        })),
        "withdraw" => Ok(Command::Candidate(CandidateCommand::Withdraw { ward, candidate })),
        "close" => Ok(Command::Ward(WardCommand::Close { ward })),
        "batch" => Ok(batch_command(matches)),
        "again" => Ok(Command::Batch(BatchCommand::Again { batch })),
        "third" => Ok(Command::Batch(BatchCommand::Third {
            batch,
            clerk: number_in(matches, CLERK),
        })),
        "judge" => verdict_command(alloc, matches),
        "advance" => Ok(Command::Count(CountCommand::Advance { ward })),
        "lot" => Ok(Command::Count(CountCommand::Lot {
            ward,
            stage: number_in(matches, STAGE),
            candidate,
        })),
        "declare" => Ok(Command::Count(CountCommand::Declare { ward })),
        _ => Err(NoOrder::Unknown),
    }
}
