//! A deterministic generator of papers.

ghost use Rattle.std.specs.Prelude.{◌≤◌, ◌<◌};

/// An xorshift generator with a fixed seed.
#[derive(Drop)]
pub struct Generator {
    state: u32,
}

impl Generator {
    pub fn new() -> Generator {
        Generator { state: 2463534242 }
    }

    /// Returns a number below the given bound.
    pub fn below(&mut self, bound: u32) -> u32
        requires { 0 < bound }
        ensures { result < bound }
    {
        self.state ^= self.state << 13;
        self.state ^= self.state >> 17;
        self.state ^= self.state << 5;
        self.state % bound
    }

    /// Returns the numbers 1 to 10 in random order, and how many of them a paper lists.
    pub fn next_paper(&mut self) -> ([u8; 10], usize)
        ensures { result.1 ≤ 10 }
    {
        let mut order = [1u8, 2, 3, 4, 5, 6, 7, 8, 9, 10];
        for place in 0..10usize {
            let left = 10 - place as u32;
            // the lower of two draws, so that lower numbers tend to come earlier
            let drawn = self.below(left).min(self.below(left)) as usize;
            let chosen = order[place + drawn];
            order[place + drawn] = order[place];
            order[place] = chosen;
        }
        let len = self.below(10) as usize + 1;
        (order, len)
    }
}
