//! Initial states of the office in tests, and the requests that its clients send.

use super::test_host::Act;

/// Ward 7, with three candidates and two seats.
pub const NOMINATED: &str = "$ init
office ready
$ ward 7 2 Harbour --id w1
ward 7 added
$ import-candidates FILE --id c
< ward,candidate,name
< 7,1,Ann
< 7,2,Bob
< 7,3,Cy
candidate 1 of ward 7 added
candidate 2 of ward 7 added
candidate 3 of ward 7 added
";

/// Nominations are closed, and batch 12, with two papers, is assigned to clerks 4 and 9.
pub const GIVEN_OUT: &str = "$ close 7 --id n1
ward 7 polled
$ batch 12 7 2 4 9 --id b1
batch 12 added
";

/// Clerks 4 and 9 key batch 12 differently.
pub const DIFFERING: &str = "$ import-keying 4 12 1 FILE --id k1
< paper,1,2,3
< 1,1,2,
< 2,D,,
batch 12 round 1 keyed
$ import-keying 9 12 1 FILE --id k1
< paper,1,2,3
< 1,2,1,
< 2,D,,
batch 12 round 1 keyed
";

/// After two different keyings: clerk 5 can't key the batch yet, and becomes its third clerk.
pub const SET: &str = "$ import-keying 5 12 1 FILE --id k1
< paper,1,2,3
< 1,1,2,
< 2,D,,
1| refused 14: clerk not of this batch
$ third 12 9 --id t1
1| refused 13: clerks not different
$ third 12 5 --id t1
batch 12 third clerk 5
";

/// Each of the third clerk's papers equals one of the other clerks', and yet the batch differs: keyings are compared as a whole.
pub const PAPER_BY_PAPER: &str = "$ import-keying 5 12 1 FILE --id k1
< paper,1,2,3
< 1,1,2,
< 2,,1,
batch 12 round 1 keyed
$ status 7
ward 7 keying: 3 candidates, 1 batches, 0 taken, 1 differing, 0 doubtful open, 0 stages
$ judge 12 2 reject:3 --id j1
1| refused 20: batch not taken
$ seal 7 --id s1
1| refused 24: not ready to seal
$ again 12 --id a1
batch 12 round 2 open
";

/// Clerks 5 and 9 agree in the next round. A later keying by clerk 4 is stored, and the batch remains taken with the
/// papers on which 5 and 9 agree.
pub const FOUR_COMES_LATE: &str = "$ import-keying 5 12 2 FILE --id k2
< paper,1,2,3
< 1,1,2,
< 2,D,,
batch 12 round 2 keyed
$ third 12 6 --id t2
1| refused 19: keyings don't differ
$ import-keying 9 12 2 FILE --id k2
< paper,1,2,3
< 1,1,2,
< 2,D,,
batch 12 round 2 keyed
$ status 7
ward 7 keying: 3 candidates, 1 batches, 1 taken, 0 differing, 1 doubtful open, 0 stages
$ judge 12 2 accept:,,1 --id j1
batch 12 paper 2 accepted
$ import-keying 4 12 2 FILE --id k2
< paper,1,2,3
< 1,2,1,
< 2,D,,
batch 12 round 2 keyed
$ status 7
ward 7 keying: 3 candidates, 1 batches, 1 taken, 0 differing, 0 doubtful open, 0 stages
$ again 12 --id a2
1| refused 19: keyings don't differ
";

/// Ward 7, with one seat, in keying.
pub const POLLING: &str = "$ init
office ready
$ ward 7 1 Harbour --id w1
ward 7 added
$ import-candidates FILE --id c
< ward,candidate,name
< 7,1,Ann
< 7,2,Bob
< 7,3,Cy
candidate 1 of ward 7 added
candidate 2 of ward 7 added
candidate 3 of ward 7 added
$ close 7 --id n1
ward 7 polled
";

/// Nominations for ward 7, and a batch of nine papers.
pub const OPENED: Act = Act::Typed(
    "$ init
office ready
$ ward 7 2 Harbour --id w1
ward 7 added
$ import-candidates FILE --id c
< ward,candidate,name
< 7,1,Ann
< 7,2,Bob
< 7,3,Cy
candidate 1 of ward 7 added
candidate 2 of ward 7 added
candidate 3 of ward 7 added
$ close 7 --id n0
ward 7 polled
$ batch 12 7 9 4 9 --id b1
batch 12 added
",
);

/// Both clerks key the papers.
pub const PAPERS: Act = Act::Keyed(
    "paper,1,2,3
1,1,2,
2,1,2,
3,1,2,
4,1,2,
5,1,,2
6,1,,2
7,,1,
8,,,1
9,,,1
",
);

/// Seals the ward.
pub const SEAL: Act = Act::Typed(
    "$ seal 7 --id s1
ward 7 sealed: 9 valid, 0 rejected, quota 4.00000
",
);

/// Ward 7, with nine papers, up to and including its seal.
pub const SEALED: &[Act] = &[OPENED, PAPERS, SEAL];

/// The first two stages of that ward's count.
pub const TWO_STAGES: Act = Act::Typed(
    "$ advance 7 --id n1
ward 7 stage 1 first preferences
$ advance 7 --id n2
ward 7 stage 2 surplus of 1
",
);

/// Nominations of five candidates for ward 7's three seats.
pub const OPENED_FOR_FIVE: Act = Act::Typed(
    "$ init
office ready
$ ward 7 3 Harbour --id w1
ward 7 added
$ import-candidates FILE --id c
< ward,candidate,name
< 7,1,Ann
< 7,2,Bob
< 7,3,Cy
< 7,4,Dee
< 7,5,Eve
candidate 1 of ward 7 added
candidate 2 of ward 7 added
candidate 3 of ward 7 added
candidate 4 of ward 7 added
candidate 5 of ward 7 added
$ close 7 --id n0
ward 7 polled
",
);

/// Papers that give two candidates equal surpluses.
pub const FOURTEEN: Act = Act::Typed(
    "$ batch 12 7 14 4 9 --id b1
batch 12 added
",
);

pub const EQUAL_SURPLUSES: Act = Act::Keyed(
    "paper,1,2,3,4,5
1,1,,2,,
2,1,,2,,
3,1,,2,,
4,1,,2,,
5,1,,2,,
6,,1,,2,
7,,1,,2,
8,,1,,2,
9,,1,,2,
10,,1,,2,
11,,,1,,
12,,,1,,
13,,,,1,
14,,,,,1
",
);

/// Seals the ward and counts its first stage.
pub const FIRST_OF_FOURTEEN: Act = Act::Typed(
    "$ seal 7 --id s1
ward 7 sealed: 14 valid, 0 rejected, quota 4.00000
$ advance 7 --id n1
ward 7 stage 1 first preferences
",
);

/// A count that waits for a lot between two equal surpluses.
pub const WAITING_FOR_A_LOT: &[Act] = &[
    OPENED_FOR_FIVE,
    FOURTEEN,
    EQUAL_SURPLUSES,
    FIRST_OF_FOURTEEN,
];

/// A count after its first surplus. Some of its papers are transferred in that surplus and again in the second.
pub const AFTER_A_SURPLUS: &[Act] = &[
    OPENED_FOR_FIVE,
    Act::Typed(
        "$ batch 12 7 15 4 9 --id b1
batch 12 added
",
    ),
    Act::Keyed(
        "paper,1,2,3,4,5
1,1,2,3,,
2,1,2,3,,
3,1,2,3,,
4,1,2,3,,
5,1,2,3,,
6,1,2,3,,
7,1,2,3,,
8,1,,,2,
9,,1,2,,
10,,1,2,,
11,,1,2,,
12,,,1,,
13,,,,1,
14,,,,1,
15,,,,,1
",
    ),
    Act::Typed(
        "$ seal 7 --id s1
ward 7 sealed: 15 valid, 0 rejected, quota 4.00000
$ advance 7 --id n1
ward 7 stage 1 first preferences
$ advance 7 --id n2
ward 7 stage 2 surplus of 1
",
    ),
];

/// Ward 7 in keying, with batch 12, of two papers, assigned to clerks 4 and 9.
pub const BEGUN: &[Act] = &[Act::Typed(NOMINATED), Act::Typed(GIVEN_OUT)];

/// Clerk 4's keying of that batch.
pub const KEYING: &str =
    "POST /clerks/4/batches/12/keying HTTP/1.1\r\nContent-Length: 43\r\n\r\n{\"id\":\"h1\",\"round\":1,\"papers\":[\"1,2,\",\"D\"]}";

/// The response to that keying.
pub const KEYED: &str =
    "HTTP/1.1 200 OK\r\nContent-Type: application/json\r\nContent-Length: 34\r\nConnection: close\r\n\r\n{\"reply\":\"batch 12 round 1 keyed\"}";

pub const BAD_REQUEST: &str =
    "HTTP/1.1 400 Bad Request\r\nContent-Type: application/json\r\nContent-Length: 23\r\nConnection: close\r\n\r\n{\"error\":\"bad request\"}";
