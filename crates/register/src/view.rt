//! The part of the state that a request needs.

ghost use Rattle.std.specs.Prelude.{◌≡◌};
ghost use Rattle.register.specs.CommandInputs.{input_entries, empty_input};

use crate::batches::{Batch, ThirdClerk};
use crate::candidates::Candidate;
use crate::elections::Count;
use crate::keyings::KeyedPaper;
use crate::polls::PollTally;
use crate::receipt::Receipt;
use crate::verdicts::JudgedPaper;
use crate::wards::Ward;
use count::Due;
use paper::Columns;
use std::alloc::Global;

/// What a command may need from the state. Each item is present only if the command needs it and the state has it. For
/// nominations: the ward that the command names, or to which the named batch belongs; the candidate that the command
/// names; and the ward's candidates, ordered by number. For papers: the batch that the command names, and its third
/// clerk; the actor's own keying of that batch; the keyings in its current round by its clerks, two or three; and the
/// verdict on the named paper. For the count: the poll of the ward; what is due, given the recorded lots; the candidates
/// elected in the completed stages; and the count to which a stage will be added. The keyings are ordered by clerk
/// number, and a missing one is empty. The papers of a keying are in order.
#[derive(Drop)]
pub struct CommandInput {
    pub ward: Option<Ward>,
    pub candidate: Option<Candidate>,
    pub candidates: Vec<Candidate>,
    pub batch: Option<Batch>,
    pub third_clerk: Option<ThirdClerk>,
    pub own: Vec<KeyedPaper>,
    pub first: Vec<KeyedPaper>,
    pub second: Vec<KeyedPaper>,
    pub third: Vec<KeyedPaper>,
    pub verdict: Option<JudgedPaper>,
    pub poll: Option<PollTally>,
    pub due: Option<Due>,
    pub elected: Columns,
    pub count: Option<Count>,
}

impl CommandInput {
    /// Returns an empty part, to be filled with what a command needs. Allocates nothing.
    pub fn empty(alloc: Global) -> CommandInput
        ensures { input_entries result ≡ empty_input }
    {
        CommandInput {
            ward: None,
            candidate: None,
            candidates: Vec::new(alloc),
            batch: None,
            third_clerk: None,
            own: Vec::new(alloc),
            first: Vec::new(alloc),
            second: Vec::new(alloc),
            third: Vec::new(alloc),
            verdict: None,
            poll: None,
            due: None,
            elected: Columns::empty(),
            count: None,
        }
    }
}

/// What the machine sees when it decides a request: the actor and id; the receipt for that actor and id, if there is one;
/// and the part of the state that the command needs.
#[derive(Drop)]
pub struct View<'a> {
    pub actor: u32,
    pub id: &'a str,
    pub receipt: Option<Receipt>,
    pub part: CommandInput,
}
