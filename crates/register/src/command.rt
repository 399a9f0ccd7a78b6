//! Commands, and the requests that carry them.

ghost use Rattle.std.specs.Prelude.{◌≡◌};

use crate::batches::BatchCommand;
use crate::candidates::CandidateCommand;
use crate::counts::CountCommand;
use crate::keyings::KeyingCommand;
use crate::verdicts::{Verdict, VerdictCommand};
use crate::wards::WardCommand;

/// What an actor asks the office to do, by subject. The numbers are exactly as the actor sent them, so they may
/// be out of range.
#[derive(Debug, Drop)]
pub enum Command {
    /// A command for a ward.
    Ward(WardCommand),
    /// A command for a candidate.
    Candidate(CandidateCommand),
    /// A command for a batch of ballot papers.
    Batch(BatchCommand),
    /// A clerk's keying of a batch.
    Keying(KeyingCommand),
    /// A verdict on a doubtful paper.
    Verdict(VerdictCommand),
    /// A command for the count of a ward.
    Count(CountCommand),
}

/// One constructor per command.
impl Command {
    /// Returns the command that adds a ward with `seats` seats.
    pub fn add_ward(ward: u32, seats: u32, name: String) -> Command
        ensures { result ≡ Command.Ward (WardCommand.Add ward seats name) }
    {
        Command::Ward(WardCommand::Add { ward, seats, name })
    }

    /// Returns the command that adds a candidate to a ward.
    pub fn add_candidate(ward: u32, candidate: u32, name: String) -> Command
        ensures { result ≡ Command.Candidate (CandidateCommand.Add ward candidate name) }
    {
        Command::Candidate(CandidateCommand::Add {
            ward,
            candidate,
            name,
        })
    }

    /// Returns the command that withdraws a candidate.
    pub fn withdraw(ward: u32, candidate: u32) -> Command
        ensures { result ≡ Command.Candidate (CandidateCommand.Withdraw ward candidate) }
    {
        Command::Candidate(CandidateCommand::Withdraw { ward, candidate })
    }

    /// Returns the command that closes the nominations of a ward.
    pub fn close_nominations(ward: u32) -> Command
        ensures { result ≡ Command.Ward (WardCommand.Close ward) }
    {
        Command::Ward(WardCommand::Close { ward })
    }

    /// Returns the command that assigns a batch of `size` papers to clerks `a` and `b`.
    pub fn add_batch(batch: u32, ward: u32, size: u32, a: u32, b: u32) -> Command
        ensures { result ≡ Command.Batch (BatchCommand.Add batch ward size a b) }
    {
        Command::Batch(BatchCommand::Add {
            batch,
            ward,
            size,
            first_clerk: a,
            second_clerk: b,
        })
    }

    /// Returns the command that records a clerk's keying of a batch, with one marks text per paper.
    pub fn key(batch: u32, round: u32, papers: Vec<String>) -> Command
        ensures { result ≡ Command.Keying (record { batch = batch; round = round; papers = papers }) }
    {
        Command::Keying(KeyingCommand {
            batch,
            round,
            papers,
        })
    }

    /// Returns the command that opens the next round of a batch.
    pub fn again(batch: u32) -> Command
        ensures { result ≡ Command.Batch (BatchCommand.Again batch) }
    {
        Command::Batch(BatchCommand::Again { batch })
    }

    /// Returns the command that assigns a batch to a third clerk.
    pub fn third(batch: u32, clerk: u32) -> Command
        ensures { result ≡ Command.Batch (BatchCommand.Third batch clerk) }
    {
        Command::Batch(BatchCommand::Third { batch, clerk })
    }

    /// Returns the command that records a verdict on a paper.
    pub fn adjudicate(batch: u32, paper: u32, verdict: Verdict) -> Command
        ensures { result ≡ Command.Verdict (record { batch = batch; paper = paper; verdict = verdict }) }
    {
        Command::Verdict(VerdictCommand {
            batch,
            paper,
            verdict,
        })
    }

    /// Returns the command that seals a ward.
    pub fn seal(ward: u32) -> Command
        ensures { result ≡ Command.Count (CountCommand.Seal ward) }
    {
        Command::Count(CountCommand::Seal { ward })
    }

    /// Returns the command that counts the next stage of a ward.
    pub fn advance(ward: u32) -> Command
        ensures { result ≡ Command.Count (CountCommand.Advance ward) }
    {
        Command::Count(CountCommand::Advance { ward })
    }

    /// Returns the command that records which candidate was drawn by lot for a stage.
    pub fn lot(ward: u32, stage: u32, candidate: u32) -> Command
        ensures { result ≡ Command.Count (CountCommand.Lot ward stage candidate) }
    {
        Command::Count(CountCommand::Lot {
            ward,
            stage,
            candidate,
        })
    }

    /// Returns the command that declares the result of a ward.
    pub fn declare(ward: u32) -> Command
        ensures { result ≡ Command.Count (CountCommand.Declare ward) }
    {
        Command::Count(CountCommand::Declare { ward })
    }
}

/// A command, with the actor who sends it (0 for the office, 1 to 999 for a clerk) and its id.
#[derive(Debug, Drop)]
pub struct Request {
    pub actor: u32,
    pub id: String,
    pub command: Command,
}
