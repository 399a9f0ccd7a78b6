//! Small elections, counted by hand stage by stage.

use count::Action;

/// An expected stage: its action, the figures of candidates 1, 2 and so on, the newly elected candidates, and the
/// non-transferable votes and the votes lost to fractions, in units.
pub struct Expected {
    pub action: Action,
    pub votes: &'static [u64],
    pub elected: &'static [u8],
    pub sums: (u64, u64),
}

/// A small election: groups of equal papers, the recorded lots, and the expected stages.
pub struct Worked {
    pub name: &'static str,
    pub candidates: u8,
    pub seats: u8,
    pub papers: &'static [(u32, &'static [u8])],
    pub lots: &'static [(u8, u8)],
    pub stages: &'static [Expected],
}

/// Returns all worked elections. (A proof that uses this function sees none of their contents, so it is short.)
pub fn elections() -> &'static [Worked] {
    &WORKED
}

static WORKED: [Worked; 10] = [
    Worked {
        name: "values cut to 0.33333",
        candidates: 3,
        seats: 2,
        papers: &[(4, &[1, 2]), (2, &[1, 3]), (1, &[2]), (2, &[3])],
        lots: &[],
        stages: &[
            Expected {
                action: Action::First,
                votes: &[600000, 100000, 200000],
                elected: &[1],
                sums: (0, 0),
            },
            Expected {
                action: Action::Surplus(1),
                votes: &[400000, 233332, 266666],
                elected: &[],
                sums: (0, 2),
            },
            Expected {
                action: Action::ExcludeLast(2),
                votes: &[400000, 233332, 266666],
                elected: &[3],
                sums: (0, 2),
            },
        ],
    },
    Worked {
        name: "a surplus of papers at two values",
        candidates: 5,
        seats: 3,
        papers: &[
            (7, &[1, 2, 3]),
            (1, &[1, 4]),
            (3, &[2, 3]),
            (1, &[3]),
            (2, &[4]),
            (1, &[5]),
        ],
        lots: &[],
        stages: &[
            Expected {
                action: Action::First,
                votes: &[800000, 300000, 100000, 200000, 100000],
                elected: &[1],
                sums: (0, 0),
            },
            Expected {
                action: Action::Surplus(1),
                votes: &[400000, 650000, 100000, 250000, 100000],
                elected: &[2],
                sums: (0, 0),
            },
            Expected {
                action: Action::Surplus(2),
                votes: &[400000, 400000, 349993, 250000, 100000],
                elected: &[],
                sums: (0, 7),
            },
            Expected {
                action: Action::Exclude(5),
                votes: &[400000, 400000, 349993, 250000, 0],
                elected: &[],
                sums: (100000, 7),
            },
            Expected {
                action: Action::ExcludeLast(4),
                votes: &[400000, 400000, 349993, 250000, 0],
                elected: &[3],
                sums: (100000, 7),
            },
        ],
    },
    Worked {
        name: "a tie that the first stage settles",
        candidates: 4,
        seats: 1,
        papers: &[(5, &[1]), (3, &[2]), (2, &[3]), (1, &[4, 3])],
        lots: &[],
        stages: &[
            Expected {
                action: Action::First,
                votes: &[500000, 300000, 200000, 100000],
                elected: &[],
                sums: (0, 0),
            },
            Expected {
                action: Action::Exclude(4),
                votes: &[500000, 300000, 300000, 0],
                elected: &[],
                sums: (0, 0),
            },
            Expected {
                action: Action::Exclude(3),
                votes: &[500000, 300000, 0, 0],
                elected: &[],
                sums: (300000, 0),
            },
            Expected {
                action: Action::ExcludeLast(2),
                votes: &[500000, 300000, 0, 0],
                elected: &[1],
                sums: (300000, 0),
            },
        ],
    },
    Worked {
        name: "a tie of three that two stages settle in turn",
        candidates: 6,
        seats: 1,
        papers: &[
            (9, &[1]),
            (2, &[2]),
            (3, &[3]),
            (4, &[4]),
            (1, &[5, 2]),
            (1, &[6, 2]),
            (1, &[6, 3]),
        ],
        lots: &[],
        stages: &[
            Expected {
                action: Action::First,
                votes: &[900000, 200000, 300000, 400000, 100000, 200000],
                elected: &[],
                sums: (0, 0),
            },
            Expected {
                action: Action::Exclude(5),
                votes: &[900000, 300000, 300000, 400000, 0, 200000],
                elected: &[],
                sums: (0, 0),
            },
            Expected {
                action: Action::Exclude(6),
                votes: &[900000, 400000, 400000, 400000, 0, 0],
                elected: &[],
                sums: (0, 0),
            },
            Expected {
                action: Action::Exclude(2),
                votes: &[900000, 0, 400000, 400000, 0, 0],
                elected: &[],
                sums: (400000, 0),
            },
            Expected {
                action: Action::Exclude(3),
                votes: &[900000, 0, 0, 400000, 0, 0],
                elected: &[],
                sums: (800000, 0),
            },
            Expected {
                action: Action::ExcludeLast(4),
                votes: &[900000, 0, 0, 400000, 0, 0],
                elected: &[1],
                sums: (800000, 0),
            },
        ],
    },
    Worked {
        name: "a lot for an exclusion",
        candidates: 3,
        seats: 1,
        papers: &[(4, &[1]), (2, &[2]), (2, &[3])],
        lots: &[(2, 3)],
        stages: &[
            Expected {
                action: Action::First,
                votes: &[400000, 200000, 200000],
                elected: &[],
                sums: (0, 0),
            },
            Expected {
                action: Action::Exclude(3),
                votes: &[400000, 200000, 0],
                elected: &[],
                sums: (200000, 0),
            },
            Expected {
                action: Action::ExcludeLast(2),
                votes: &[400000, 200000, 0],
                elected: &[1],
                sums: (200000, 0),
            },
        ],
    },
    Worked {
        name: "a lot for a surplus",
        candidates: 5,
        seats: 3,
        papers: &[(5, &[1, 3]), (5, &[2, 4]), (2, &[3]), (1, &[4]), (1, &[5])],
        lots: &[(2, 1)],
        stages: &[
            Expected {
                action: Action::First,
                votes: &[500000, 500000, 200000, 100000, 100000],
                elected: &[1, 2],
                sums: (0, 0),
            },
            Expected {
                action: Action::Surplus(1),
                votes: &[400000, 500000, 300000, 100000, 100000],
                elected: &[],
                sums: (0, 0),
            },
            Expected {
                action: Action::Surplus(2),
                votes: &[400000, 400000, 300000, 200000, 100000],
                elected: &[],
                sums: (0, 0),
            },
            Expected {
                action: Action::Exclude(5),
                votes: &[400000, 400000, 300000, 200000, 0],
                elected: &[],
                sums: (100000, 0),
            },
            Expected {
                action: Action::ExcludeLast(4),
                votes: &[400000, 400000, 300000, 200000, 0],
                elected: &[3],
                sums: (100000, 0),
            },
        ],
    },
    Worked {
        name: "all seats filled at the first stage",
        candidates: 3,
        seats: 2,
        papers: &[(4, &[1, 3]), (4, &[2, 3]), (1, &[3])],
        lots: &[],
        stages: &[Expected {
            action: Action::First,
            votes: &[400000, 400000, 100000],
            elected: &[1, 2],
            sums: (0, 0),
        }],
    },
    Worked {
        name: "papers pass over one elected earlier",
        candidates: 5,
        seats: 3,
        papers: &[(6, &[1, 2, 3]), (5, &[2]), (1, &[3]), (2, &[4]), (1, &[5])],
        lots: &[],
        stages: &[
            Expected {
                action: Action::First,
                votes: &[600000, 500000, 100000, 200000, 100000],
                elected: &[1, 2],
                sums: (0, 0),
            },
            Expected {
                action: Action::Surplus(1),
                votes: &[400000, 500000, 299998, 200000, 100000],
                elected: &[],
                sums: (0, 2),
            },
            Expected {
                action: Action::Surplus(2),
                votes: &[400000, 400000, 299998, 200000, 100000],
                elected: &[],
                sums: (100000, 2),
            },
            Expected {
                action: Action::Exclude(5),
                votes: &[400000, 400000, 299998, 200000, 0],
                elected: &[],
                sums: (200000, 2),
            },
            Expected {
                action: Action::ExcludeLast(4),
                votes: &[400000, 400000, 299998, 200000, 0],
                elected: &[3],
                sums: (200000, 2),
            },
        ],
    },
    Worked {
        name: "a tie that the most recent unequal stage settles",
        candidates: 5,
        seats: 1,
        papers: &[
            (10, &[1]),
            (5, &[2]),
            (4, &[3]),
            (2, &[4, 3]),
            (2, &[5]),
            (1, &[5, 2]),
        ],
        lots: &[],
        stages: &[
            Expected {
                action: Action::First,
                votes: &[1000000, 500000, 400000, 200000, 300000],
                elected: &[],
                sums: (0, 0),
            },
            Expected {
                action: Action::Exclude(4),
                votes: &[1000000, 500000, 600000, 0, 300000],
                elected: &[],
                sums: (0, 0),
            },
            Expected {
                action: Action::Exclude(5),
                votes: &[1000000, 600000, 600000, 0, 0],
                elected: &[],
                sums: (200000, 0),
            },
            Expected {
                action: Action::Exclude(2),
                votes: &[1000000, 0, 600000, 0, 0],
                elected: &[],
                sums: (800000, 0),
            },
            Expected {
                action: Action::ExcludeLast(3),
                votes: &[1000000, 0, 600000, 0, 0],
                elected: &[1],
                sums: (800000, 0),
            },
        ],
    },
    Worked {
        name: "no papers",
        candidates: 2,
        seats: 1,
        papers: &[],
        lots: &[(2, 1)],
        stages: &[
            Expected {
                action: Action::First,
                votes: &[0, 0],
                elected: &[],
                sums: (0, 0),
            },
            Expected {
                action: Action::ExcludeLast(1),
                votes: &[0, 0],
                elected: &[2],
                sums: (0, 0),
            },
        ],
    },
];
