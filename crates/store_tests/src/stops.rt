//! A store that stops at each of its calls in turn while one order is executed. After a restart it has either the old
//! rows or all the changes made by the order; the same order, repeated, ends as if the store had never stopped. A
//! client that connects after the one whose request hit the stop gets a response saying that the office is closed.

mod counts;

use super::begun::{BEGUN, KEYED, KEYING, NOMINATED};
use super::clients::{Evening, TestClient};
use super::disks::Disks;
use super::steps::{Case, STOPPED, STOPPED_ANSWER, Step, StepExpected};
use super::test_host::{Act, File, TestHost, expect, expect_unchanged, rows, run_parts};
use super::transcripts::read;
use std::process::Abort;
use std::test::Fail;

/// More calls than an order makes on either file.
pub const CALLS: u64 = 2000;

/// The number of papers in the largest batch.
const PAPERS: u32 = 500;

/// The output of `init` if the office already exists.
const MADE: StepExpected<'static> = (3, "", "fault 105: wrong database\n");

/// The output of `migrate` for an office that already has this version.
const MIGRATED: StepExpected<'static> = (0, "office is at version 2\n", "");

/// Returns the expected output of a repeated order, given whether all its changes had already been stored.
fn expect_repeated<'a>(case: Case<'a>, whole: bool) -> StepExpected<'a> {
    match case {
        (Step::Order(["DB", "init"]), _) if whole => MADE,
        (Step::Order(["DB", "migrate"]), _) if whole => MIGRATED,
        (_, told) => told,
    }
}

/// The rows of every table before and after an order, and the ward's sheet afterwards, if there is one.
#[derive(Drop)]
struct Sides {
    before: String,
    after: String,
    sheet: Option<String>,
}

const SHEET: Step<'static> = Step::Order(&["DB", "sheet", "7"]);

/// Executes an order on disks that don't stop, and returns the rows before and after it, and the disks. When repeated
/// three times, the order must leave the rows unchanged.
fn sides_of<M: TestHost + Drop>(
    rt: &(impl Abort + AllocGlobal),
    host: M,
    case: Case<'_>,
) -> Result<(Sides, M), Fail> {
    let (before, host) = rows(rt.alloc(), host)?;
    let (after, host) = rows(rt.alloc(), expect(rt, host, &[case])?)?;
    let again = (case.0, expect_repeated(case, true));
    let host = expect_unchanged(rt, host, &[again, again, again])?;
    let (said, host) = host.play(rt.alloc(), &[SHEET])?;
    let sheet = match said.as_slice() {
        [said] if said.is_done() => Some(String::from_str(rt.alloc(), said.told().1)?),
        _ => None,
    };
    let sides = Sides {
        before,
        after,
        sheet,
    };
    Ok((sides, host))
}

/// Executes an order on disks, one of which stops after a number of calls. Returns whether the order was acknowledged,
/// and the disks.
fn stop_under<M: TestHost + Drop>(
    rt: &(impl Abort + AllocGlobal),
    host: M,
    case: Case<'_>,
) -> Result<(bool, M), Fail> {
    let (order, reply) = case;
    let (said, left) = host.play(rt.alloc(), &[order])?;
    let answered = match said.as_slice() {
        [] => false,
        [said] if said.is_stopped() => false,
        [said] => {
            assert_eq!(rt; said.told(), reply, "{order:?}");
            true
        }
        _ => return Err(Fail::from("more was said than was asked")),
    };
    Ok((answered, left))
}

/// Executes an order on disks, one of which stops after a number of calls, restarts them, and checks the rows: they
/// must be those before the order or those after it, and only those after it if it was acknowledged. When repeated, the
/// order must end as it does without the stop, and the ward's sheet must be the same. Returns whether the order was
/// acknowledged.
fn stop_once<M: TestHost + Drop>(
    rt: &(impl Abort + AllocGlobal),
    host: M,
    case: Case<'_>,
    sides: &Sides,
) -> Result<bool, Fail> {
    let (order, _) = case;
    let (answered, left) = stop_under(rt, host, case)?;
    let again = [Step::Contents, order, Step::Contents, SHEET];
    let steps = if sides.sheet.is_some() { 4 } else { 3 };
    let (said, _) = left.restarted().play(rt.alloc(), &again[..steps])?;
    let [found, told, end, sheets @ ..] = said.as_slice() else {
        return Err(Fail::from("a step is missing"));
    };
    let (_, found, _) = found.told();
    let whole = sides.after.as_str() == found;
    assert!(rt;
        whole || (!answered && sides.before.as_str() == found),
        "{order:?} left rows of neither side"
    );
    let (status, out, err) = told.told();
    let (wanted, page, fault) = expect_repeated(case, whole);
    assert!(rt; status == wanted, "{order:?} given again");
    assert!(rt;
        out.as_bytes() == page.as_bytes() && err.as_bytes() == fault.as_bytes(),
        "{order:?} given again"
    );
    assert_eq!(rt;
        end.told(),
        (0, sides.after.as_str(), ""),
        "{order:?} given again"
    );
    if let Some(sheet) = &sides.sheet {
        assert!(rt;
            matches!(sheets, [said] if said.told() == (0, sheet.as_str(), "")),
            "{order:?}: {sheets:?}"
        );
    }
    Ok(answered)
}

/// Stops an order at each call on one file, until it finishes without a stop. Returns the disks after the order.
fn stop_each<M: TestHost + Drop>(
    rt: &(impl Abort + AllocGlobal),
    host: M,
    case: Case<'_>,
    file: File,
) -> Result<M, Fail> {
    let lasting = host.copied(rt.alloc(), file, u64::MAX)?;
    let (sides, done) = sides_of(rt, lasting, case)?;
    for calls in 0..CALLS {
        let stopping = host.copied(rt.alloc(), file, calls)?;
        if stop_once(rt, stopping, case, &sides)? {
            return Ok(done);
        }
    }
    Err(Fail::from("no run was long enough"))
}

/// The first orders to an office, on new files.
const FIRST: &str = "$ init
office ready
$ ward 7 2 Harbour --id w1
ward 7 added
";

/// The orders from nominations to a batch; each is one request. (An import of candidates is one request per record, so
/// after a stop only some of them may be stored.)
const TO_BATCH: &str = "$ withdraw 7 3 --id x1
candidate 3 of ward 7 withdrawn
$ candidate 7 3 Cy --id c4
candidate 3 of ward 7 added
$ close 7 --id n1
ward 7 polled
$ batch 12 7 1 4 9 --id b1
batch 12 added
";

/// The orders from a batch in keying to its verdict.
const TO_VERDICT: &str = "$ import-keying 4 12 1 FILE --id k1
< paper,1,2,3
< 1,D,,
batch 12 round 1 keyed
$ key 9 12 1 --id k1 D
batch 12 round 1 keyed
$ judge 12 1 reject:3 --id j1
batch 12 paper 1 rejected 3
";

/// A batch whose two keyings differ.
const DIFFERING: &str = "$ close 7 --id n1
ward 7 polled
$ batch 12 7 1 4 9 --id b1
batch 12 added
$ import-keying 4 12 1 FILE --id k1
< paper,1,2,3
< 1,1,2,
batch 12 round 1 keyed
$ import-keying 9 12 1 FILE --id k1
< paper,1,2,3
< 1,2,1,
batch 12 round 1 keyed
";

/// The batch gets a third clerk and a new round.
const NEW_ROUND: &str = "$ third 12 5 --id t1
batch 12 third clerk 5
$ again 12 --id g1
batch 12 round 2 open
";

/// Stops a keying over HTTP at each call on one file.
fn stop_client<M: TestHost + Drop>(
    rt: &(impl Abort + AllocGlobal),
    file: File,
) -> Result<(), Fail> {
    let client = [Some(TestClient::whole(KEYING.as_bytes()))];
    let case = (Step::Serve(Evening::of(&client)), (0, KEYED, "Ok(())"));
    let host: M = run_parts(rt, BEGUN)?;
    stop_each(rt, host, case, file)?;
    Ok(())
}

/// Stops the orders of a new round at each call on one file.
fn stop_new_round<M: TestHost + Drop>(
    rt: &(impl Abort + AllocGlobal),
    file: File,
) -> Result<(), Fail> {
    let before = [Act::Typed(NOMINATED), Act::Typed(DIFFERING)];
    stop_orders::<M>(rt, &before, NEW_ROUND, file)
}

/// Stops orders, each at each call on one file.
pub fn stop_orders<M: TestHost + Drop>(
    rt: &(impl Abort + AllocGlobal),
    before: &[Act],
    orders: &str,
    file: File,
) -> Result<(), Fail> {
    let mut host: M = run_parts(rt, before)?;
    for order in &read(rt.alloc(), orders)? {
        host = stop_each(rt, host, order.case(), file)?;
    }
    Ok(())
}

// A test may run for 60 seconds, so the many calls on the log are split across several tests.
#[test]
fn the_first_orders_stop_whole_at_their_log(rt: HostRuntime) -> Result<(), Fail> {
    stop_orders::<Disks>(&rt, &[], FIRST, File::Log)
}

#[test]
fn an_order_stops_whole_at_its_log(rt: HostRuntime) -> Result<(), Fail> {
    stop_new_round::<Disks>(&rt, File::Log)?;
    stop_client::<Disks>(&rt, File::Log)
}

#[test]
fn orders_to_a_batch_stop_whole_at_their_log(rt: HostRuntime) -> Result<(), Fail> {
    stop_orders::<Disks>(&rt, &[Act::Typed(NOMINATED)], TO_BATCH, File::Log)
}

#[test]
fn orders_to_a_verdict_stop_whole_at_their_log(rt: HostRuntime) -> Result<(), Fail> {
    let before = [Act::Typed(NOMINATED), Act::Typed(TO_BATCH)];
    stop_orders::<Disks>(&rt, &before, TO_VERDICT, File::Log)
}

#[test]
fn an_order_stops_whole_at_its_database(rt: HostRuntime) -> Result<(), Fail> {
    stop_orders::<Disks>(&rt, &[], FIRST, File::Database)?;
    stop_new_round::<Disks>(&rt, File::Database)?;
    stop_client::<Disks>(&rt, File::Database)
}

#[test]
fn orders_stop_whole_at_their_database(rt: HostRuntime) -> Result<(), Fail> {
    stop_orders::<Disks>(&rt, &[Act::Typed(NOMINATED)], TO_BATCH, File::Database)?;
    let batch = [Act::Typed(NOMINATED), Act::Typed(TO_BATCH)];
    stop_orders::<Disks>(&rt, &batch, TO_VERDICT, File::Database)
}

/// A batch with as many papers as a batch may have.
const GIVEN_OUT_WHOLE: &str = "$ close 7 --id n1
ward 7 polled
$ batch 12 7 500 4 9 --id b1
batch 12 added
";

#[test]
fn a_large_keying_stops_whole(rt: HostRuntime) -> Result<(), Fail> {
    let mut keying = String::from_str(
        rt.alloc(),
        "$ import-keying 4 12 1 FILE --id k1\n< paper,1,2,3\n",
    )?;
    for paper in 1..=PAPERS {
        writeln!(keying, "< {paper},1,2,")?;
    }
    keying.push_str("batch 12 round 1 keyed\n")?;
    let before = [Act::Typed(NOMINATED), Act::Typed(GIVEN_OUT_WHOLE)];
    for file in [File::Log, File::Database] {
        stop_orders::<Disks>(&rt, &before, keying.as_str(), file)?;
    }
    Ok(())
}

/// The response to a second client: the office is closed.
const CLOSED_ANSWER: &str =
    "\nHTTP/1.1 503 Service Unavailable\r\nContent-Type: application/json\r\nContent-Length: 13\r\nConnection: close\r\n\r\n{\"fault\":104}";

/// When the store stopped during two clients' keyings, one after the other.
enum StoreStop {
    AtTheOpening,
    AtTheFirst,
    BehindTheFirst,
}

/// Two clients key on disks whose log stops after `calls` calls. If the first gets the fault for the stop, the second
/// gets a response saying that the office is closed.
fn stop_twice<M: TestHost + Drop>(
    rt: &(impl Abort + AllocGlobal),
    host: &M,
    calls: u64,
) -> Result<StoreStop, Fail> {
    let keying = TestClient::whole(KEYING.as_bytes());
    let stopping = host.copied(rt.alloc(), File::Log, calls)?;
    let clients = [Some(keying), Some(keying)];
    let (said, _) = stopping.play(rt.alloc(), &[Step::Serve(Evening::of(&clients))])?;
    let Some(said) = said.first() else {
        return Ok(StoreStop::AtTheOpening);
    };
    let (_, out, _) = said.told();
    if out.starts_with(KEYED) {
        return Ok(StoreStop::BehindTheFirst);
    }
    let Some(second) = out.strip_prefix(STOPPED_ANSWER) else {
        assert_eq!(rt; said.told(), STOPPED);
        return Ok(StoreStop::AtTheOpening);
    };
    assert_eq!(rt; second, CLOSED_ANSWER);
    Ok(StoreStop::AtTheFirst)
}

fn closed_says_so<M: TestHost + Drop>(rt: &(impl Abort + AllocGlobal)) -> Result<(), Fail> {
    let host: M = run_parts(rt, BEGUN)?;
    let mut closed = false;
    for calls in 0..CALLS {
        match stop_twice(rt, &host, calls)? {
            StoreStop::AtTheOpening => {}
            StoreStop::AtTheFirst => closed = true,
            StoreStop::BehindTheFirst => break,
        }
    }
    assert!(rt; closed, "the store never stopped under a client");
    Ok(())
}

#[test]
fn a_closed_office_says_so(rt: HostRuntime) -> Result<(), Fail> {
    closed_says_so::<Disks>(&rt)
}
