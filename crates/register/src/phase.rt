//! The phases of a ward's election.

ghost use Rattle.std.specs.Prelude.{◌≡◌, ◌≢◌, IfSome, IfNone};
ghost use Rattle.register.specs.Phases.{phase_number};

/// The phase of a ward's election.
#[derive(Clone, Copy, PartialEq, Eq)]
pub enum Phase {
    Nominations,
    Keying,
    Sealed,
    Declared,
}

impl Phase {
    /// Returns the number of the phase, from 1 to 4, in the order in which a ward goes through the phases.
    pub fn number(self) -> u32
        ensures { result ≡ phase_number self }
    {
        match self {
            Phase::Nominations => 1,
            Phase::Keying => 2,
            Phase::Sealed => 3,
            Phase::Declared => 4,
        }
    }

    /// Returns the phase with the given number, or `None` if the number isn't between 1 and 4.
    pub fn from_number(n: u32) -> Option<Phase>
        ensures found { IfSome result (λ phase. phase_number phase ≡ n) }
        ensures none { IfNone result ((phase : Phase) → phase_number phase ≢ n) }
    {
        match n {
            1 => Some(Phase::Nominations),
            2 => Some(Phase::Keying),
            3 => Some(Phase::Sealed),
            4 => Some(Phase::Declared),
            _ => None,
        }
    }
}
