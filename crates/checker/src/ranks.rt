//! The preferences on a line of papers.

ghost use Rattle.std.specs.Prelude.{◌≡◌, ◌≤◌, [], length, map, not, IfOk};
ghost use Rattle.std.specs.List.{list_any};
ghost use Rattle.paper.specs.Columns.{max_candidates};
ghost use Rattle.paper.specs.Ranking.{IsRanking};
ghost use Rattle.checker.specs.Outcomes.{outcome, told_as};
ghost use Rattle.checker.specs.Ranks.{is_zero, named_in, named_of, standing_from, with_alone, with_candidate, with_each, with_rank, with_rank_word, with_word, without};
ghost use Rattle.checker.specs.Tokens.{parts};
ghost use Rattle.checker.specs.Values.{ranks_of};

use crate::numbers::candidate_in;
use crate::problem::BallotsFlaw;
use crate::tokens::{Separator, pieces_of};
use paper::Columns;
use std::alloc::{AllocError, Global};

/// The position of the next word in a line of papers.
#[derive(Clone, Copy)]
pub(crate) enum NextWord {
    /// At the preferences.
    Preference,
    /// After a shared rank: later preferences are ignored.
    BehindShared,
    /// After the 0.
    BehindZero,
}

/// The candidates in a line of papers so far, first preference first, and the position of the next word.
#[derive(Drop)]
pub(crate) struct Ranks {
    named: Vec<u8>,
    next: NextWord,
}

/// Returns whether the word is the 0 that ends a line.
pub(crate) fn is_zero(word: &[u8]) -> bool
    ensures { result ≡ is_zero word.now }
{
    word == b"0".as_slice()
}

/// Returns whether the word has no equals sign, so it is the number of a candidate who doesn't share a rank.
fn is_alone(word: &[u8]) -> bool
    ensures { not result ≡ list_any (parts Separator.Equals) word.now }
{
    for byte in word {
        if *byte == b'=' {
            return false;
        }
    }
    true
}

/// Returns how many of the candidates in the given words haven't withdrawn.
fn standing_in(highest: u8, withdrawn: &Columns, words: &[&[u8]]) -> Result<usize, BallotsFlaw>
    ensures { result ≡ standing_from highest withdrawn.now 0 (map (λ w. w.now) words.now) }
{
    let mut standing = 0;
    for word in words {
        if withdrawn.has(candidate_in(highest, word)?) {
            continue;
        }
        standing += 1;
    }
    Ok(standing)
}

impl Ranks {
    /// Appends one candidate.
    fn add(&mut self, highest: u8, word: &[u8]) -> Result<Result<(), BallotsFlaw>, AllocError>
        requires { highest ≤ max_candidates }
        ensures is { IfOk result (λ told. outcome told (ranks_of self.new) ≡ with_candidate highest (ranks_of self.old) word.now) }
        ensures ranking { IfOk result (λ _. IsRanking self.old.named.items → IsRanking self.new.named.items) }
    {
        let c = match candidate_in(highest, word) {
            Ok(c) => c,
            Err(flaw) => return Ok(Err(flaw)),
        };
        if self.named.contains(&c) {
            return Ok(Err(BallotsFlaw::CandidateTwice));
        }
        self.named.push(c)?;
        Ok(Ok(()))
    }

    /// Appends several candidates in order.
    fn add_each(
        &mut self,
        highest: u8,
        words: &[&[u8]],
    ) -> Result<Result<(), BallotsFlaw>, AllocError>
        requires { highest ≤ max_candidates }
        ensures is { IfOk result (λ told. outcome told (ranks_of self.new) ≡ with_each highest (ranks_of self.old) (map (λ w. w.now) words.now)) }
        ensures ranking { IfOk result (λ _. IsRanking self.old.named.items → IsRanking self.new.named.items) }
    {
        for word in words {
            if let Err(flaw) = self.add(highest, word)? {
                return Ok(Err(flaw));
            }
        }
        Ok(Ok(()))
    }

    /// Processes a rank, given how many of its candidates haven't withdrawn.
    fn add_rank(
        &mut self,
        highest: u8,
        words: &[&[u8]],
        standing: usize,
    ) -> Result<Result<(), BallotsFlaw>, AllocError>
        requires { highest ≤ max_candidates }
        ensures is { IfOk result (λ told. outcome told (ranks_of self.new) ≡ with_rank self.old.next highest (ranks_of self.old) (map (λ w. w.now) words.now) standing) }
        ensures ranking { IfOk result (λ _. IsRanking self.old.named.items → IsRanking self.new.named.items) }
    {
        match self.next {
            NextWord::Preference => {}
            NextWord::BehindShared => return Ok(Ok(())),
            NextWord::BehindZero => return Ok(Err(BallotsFlaw::NoZero)),
        }
        if standing > 1 {
            self.next = NextWord::BehindShared;
            return Ok(Ok(()));
        }
        self.add_each(highest, words)
    }

    /// Processes the number of a candidate who doesn't share a rank.
    fn take_alone(
        &mut self,
        highest: u8,
        word: &[u8],
    ) -> Result<Result<(), BallotsFlaw>, AllocError>
        requires { highest ≤ max_candidates }
        ensures is { IfOk result (λ told. outcome told (ranks_of self.new) ≡ with_alone self.old.next highest (ranks_of self.old) word.now) }
        ensures ranking { IfOk result (λ _. IsRanking self.old.named.items → IsRanking self.new.named.items) }
    {
        match self.next {
            NextWord::Preference => self.add(highest, word),
            NextWord::BehindShared => match candidate_in(highest, word) {
                Ok(_) => Ok(Ok(())),
                Err(flaw) => Ok(Err(flaw)),
            },
            NextWord::BehindZero => Ok(Err(BallotsFlaw::NoZero)),
        }
    }

    /// Processes the word of a rank, which several candidates may share.
    fn take_shared(
        &mut self,
        alloc: Global,
        highest: u8,
        withdrawn: &Columns,
        word: &[u8],
    ) -> Result<Result<(), BallotsFlaw>, AllocError>
        requires { highest ≤ max_candidates }
        ensures is { IfOk result (λ told. outcome told (ranks_of self.new) ≡ with_rank_word highest withdrawn.now (ranks_of self.old) word.now) }
        ensures ranking { IfOk result (λ _. IsRanking self.old.named.items → IsRanking self.new.named.items) }
    {
        let words = pieces_of(alloc, Separator::Equals, word)?;
        match standing_in(highest, withdrawn, &words) {
            Ok(standing) => self.add_rank(highest, &words, standing),
            Err(flaw) => Ok(Err(flaw)),
        }
    }

    /// Processes one word.
    fn take(
        &mut self,
        alloc: Global,
        highest: u8,
        withdrawn: &Columns,
        word: &[u8],
    ) -> Result<Result<(), BallotsFlaw>, AllocError>
        requires { highest ≤ max_candidates }
        ensures is { IfOk result (λ told. outcome told (ranks_of self.new) ≡ with_word highest withdrawn.now (ranks_of self.old) word.now) }
        ensures ranking { IfOk result (λ _. IsRanking self.old.named.items → IsRanking self.new.named.items) }
    {
        if let NextWord::BehindZero = self.next {
            return Ok(Err(BallotsFlaw::NoZero));
        }
        if is_zero(word) {
            self.next = NextWord::BehindZero;
            return Ok(Ok(()));
        }
        // most words are single numbers: they need no list of candidates who share the rank
        if is_alone(word) {
            return self.take_alone(highest, word);
        }
        self.take_shared(alloc, highest, withdrawn, word)
    }

    /// Returns the candidates in a complete line.
    fn into_named(self) -> Result<Vec<u8>, BallotsFlaw>
        ensures is { told_as (λ named. named.items) result ≡ named_of (ranks_of self) }
        ensures ranking { IfOk result (λ named. named ≡ self.named) }
    {
        match self.next {
            NextWord::BehindZero => Ok(self.named),
            NextWord::Preference | NextWord::BehindShared => Err(BallotsFlaw::NoZero),
        }
    }
}

/// Returns the candidates in the words that follow a number of papers, in order, up to a shared rank or the 0.
pub(crate) fn named_in(
    alloc: Global,
    highest: u8,
    withdrawn: &Columns,
    words: &[&[u8]],
) -> Result<Result<Vec<u8>, BallotsFlaw>, AllocError>
    requires { highest ≤ max_candidates }
    ensures is { IfOk result (λ told. told_as (λ named. named.items) told ≡ named_in highest withdrawn.now (map (λ w. w.now) words.now)) }
    ensures ranking { IfOk result (λ told. IfOk told (λ named. IsRanking named.items)) }
{
    let mut ranks = Ranks {
        named: Vec::with_capacity(alloc, words.len())?,
        next: NextWord::Preference,
    };
    for word in words {
        if let Err(flaw) = ranks.take(alloc, highest, withdrawn, word)? {
            return Ok(Err(flaw));
        }
    }
    Ok(ranks.into_named())
}

/// Returns the candidates who haven't withdrawn.
fn without(alloc: Global, withdrawn: &Columns, named: &[u8]) -> Result<Vec<u8>, AllocError>
    ensures is { IfOk result (λ list. list.items ≡ without withdrawn.now named.now) }
    ensures ranking { IfOk result (λ list. IsRanking named.now → IsRanking list.items) }
{
    let mut list = Vec::new(alloc);
    for c in named {
        if withdrawn.has(*c) {
            continue;
        }
        list.push(*c)?;
    }
    Ok(list)
}

/// Returns the candidates who haven't withdrawn. Allocates nothing if nobody has withdrawn, as in most files.
#[tactic(auto, using(crate::proofs::RankLemmas::none_withdrawn))]
pub(crate) fn standing_of(
    alloc: Global,
    withdrawn: &Columns,
    named: Vec<u8>,
) -> Result<Vec<u8>, AllocError>
    ensures is { IfOk result (λ list. list.items ≡ without withdrawn.now named.items) }
    ensures ranking { IfOk result (λ list. IsRanking named.items → IsRanking list.items) }
{
    if withdrawn.len() == 0 {
        return Ok(named);
    }
    without(alloc, withdrawn, &named)
}
