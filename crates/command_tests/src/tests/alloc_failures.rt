//! Calls whose memory runs out, and that are made again then. `tests/crashes/refused-memory` runs these tests again and
//! again, and refuses each request for memory between an announcement and its answer in turn. Where none is refused,
//! they show the answers of calls that have all memory.

use super::answers::proposers;
use super::shelf::{CLEANED, CROSSED, IN_TIME, LATE, TWO};
use super::verdicts::{decided, said};
use alt_graph::{Solved, Times, check_chain, solve};
use cell_control::{Controller, Dues, ScanDues, TourneyDues};
use cell_hub::{Hub, HubFault, Ticket};
use command_answers::load;
use orlib_read::read_instance;
use plan_decide::{Aim, DecideFault, Decided, Objective};
use plan_seek::{NotFound, Proposer, SeekFault, seek};
use plan_text::{PlanFault, plan_document, read_plan};
use plan_verifier::{Verdict, Verified, verify};
use shop_base::{Moment, Node, Plan, Shaped, Shop, shape};
use std::alloc::{AllocError, Global};
use std::process::Abort;
use std::test::Fail;

/// Announces a call: requests for memory are counted from here on.
fn asks(rt: &impl Eprint) {
    let _ = eprintln!(rt; "asked");
}

/// Writes the answer to it: whether memory ran out.
fn answers(rt: &impl Eprint, ran_out: bool) {
    let _ = eprintln!(rt; "{}", if ran_out { "ran out" } else { "had" });
}

fn two_jobs(alloc: Global) -> Result<Shop, Fail> {
    Ok(read_instance(alloc, TWO)?.shop)
}

fn shaped(alloc: Global, plan: &[u8]) -> Result<Shaped, Fail> {
    Ok(shape(two_jobs(alloc)?, read_plan(alloc, plan)?)?)
}

fn accepted(alloc: Global) -> Result<Verified, Fail> {
    Ok(load(alloc, TWO, None, IN_TIME)?.accepted()?)
}

/// Whether these are the two jobs, and the plan of the text.
fn is_given(alloc: Global, shop: &Shop, plan: &Plan, text: &[u8]) -> Result<bool, PlanFault> {
    Ok(plan_document(alloc, plan)?.as_bytes() == text && shop.work() == 10)
}

/// Whether this is the plan of the text, for the two jobs.
fn is_whole(alloc: Global, shaped: &Shaped, plan: &[u8]) -> Result<bool, PlanFault> {
    is_given(alloc, shaped.shop(), shaped.plan(), plan)
}

/// Whether this is the plan in time, with what was found of it.
fn is_accepted(alloc: Global, verified: &Verified) -> Result<bool, PlanFault> {
    Ok(verified.makespan() == 10 && is_whole(alloc, verified.shaped(), IN_TIME)?)
}

/// The plan that came back, if it is that of the text.
fn whole(alloc: Global, back: Shaped, plan: &[u8]) -> Result<Shaped, Fail> {
    match is_whole(alloc, &back, plan) {
        Ok(true) => Ok(back),
        _ => {
            drop(back);
            Err("another plan came back".into())
        }
    }
}

/// The verdict on the plan, once more where memory ran out, with what came back.
fn judged(rt: &(impl AllocGlobal + Eprint), plan: &[u8]) -> Result<Verdict, Fail> {
    let shaped = shaped(rt.alloc(), plan)?;
    asks(rt);
    let answer = verify(rt.alloc(), shaped);
    answers(rt, answer.is_err());
    match answer {
        Ok(verdict) => Ok(verdict),
        Err((_, back)) => Ok(verify(rt.alloc(), whole(rt.alloc(), back, plan)?)?),
    }
}

#[test]
fn a_plan_comes_back_unjudged(rt: HostRuntime) -> Result<(), Fail> {
    for (plan, text) in [(IN_TIME, "accepted"), (CROSSED, "cycle"), (LATE, "late")] {
        let verdict = judged(&rt, plan)?;
        let is = said(&verdict) == text;
        drop(verdict);
        assert!(rt; is);
    }
    Ok(())
}

/// The graph of the plan, solved once more where memory ran out.
fn solved(rt: &(impl AllocGlobal + Eprint), plan: &[u8]) -> Result<Solved, Fail> {
    let shaped = shaped(rt.alloc(), plan)?;
    asks(rt);
    let answer = solve(rt.alloc(), &shaped);
    answers(rt, answer.is_err());
    let solved = match answer {
        Ok(solved) => Ok(solved),
        Err(_) => solve(rt.alloc(), &shaped),
    };
    drop(shaped);
    Ok(solved?)
}

/// The times of the plan in time.
fn times(rt: &(impl AllocGlobal + Eprint)) -> Result<Times, Fail> {
    match solved(rt, IN_TIME)? {
        Solved::Ordered(times) => Ok(times),
        Solved::Cyclic(_) => Err("the graph has a cycle".into()),
    }
}

const fn node(job: u32, place: u32) -> Node {
    Node { job, place }
}

/// Whether the graph has this cycle.
fn has_cycle(solved: &Solved, cycle: &[Node]) -> bool {
    match solved {
        Solved::Ordered(_) => false,
        Solved::Cyclic(nodes) => nodes.as_slice() == cycle,
    }
}

#[test]
fn a_graph_is_solved(rt: HostRuntime) -> Result<(), Fail> {
    let times = times(&rt)?;
    let leavings = (times.earliest(node(0, 2)), times.earliest(node(1, 2)));
    drop(times);
    let crossed = solved(&rt, CROSSED)?;
    let crosses = has_cycle(&crossed, &[node(0, 1), node(1, 1)]);
    drop(crossed);
    assert!(rt; leavings == (Some(5), Some(10)) && crosses);
    Ok(())
}

/// A longest chain to the leaving of job 1, written once more where memory ran out.
fn chain(rt: &(impl AllocGlobal + Eprint), times: &Times) -> Result<Option<Vec<Node>>, AllocError> {
    asks(rt);
    let answer = times.chain(rt.alloc(), node(1, 2));
    answers(rt, answer.is_err());
    match answer {
        Ok(chain) => Ok(chain),
        Err(_) => times.chain(rt.alloc(), node(1, 2)),
    }
}

/// The length of the nodes where they are a chain of the plan in time.
fn length(alloc: Global, nodes: &[Node]) -> Result<Option<Moment>, Fail> {
    let shaped = shaped(alloc, IN_TIME)?;
    let length = check_chain(&shaped, nodes);
    drop(shaped);
    Ok(length)
}

#[test]
fn a_longest_chain_is_found(rt: HostRuntime) -> Result<(), Fail> {
    let times = times(&rt)?;
    let chain = chain(&rt, &times);
    drop(times);
    let nodes = chain?.ok_or("the node has no chain")?;
    let length = length(rt.alloc(), &nodes);
    drop(nodes);
    assert!(rt; length? == Some(10));
    Ok(())
}

/// The plan in time that came back, if it is that with what was found of it.
fn still_accepted(alloc: Global, back: Verified) -> Result<Verified, Fail> {
    match is_accepted(alloc, &back) {
        Ok(true) => Ok(back),
        _ => {
            drop(back);
            Err("another plan came back".into())
        }
    }
}

/// The controller of the plan in time, made once more where memory ran out, of what came back.
fn controller<D: Dues>(rt: &(impl AllocGlobal + Eprint)) -> Result<Controller<D>, Fail> {
    let verified = accepted(rt.alloc())?;
    asks(rt);
    let answer: Result<Controller<D>, _> = Controller::new(rt.alloc(), verified);
    answers(rt, answer.is_err());
    match answer {
        Ok(cell) => Ok(cell),
        Err((_, back)) => Ok(Controller::new(rt.alloc(), still_accepted(rt.alloc(), back)?)?),
    }
}

fn a_plan_comes_back<D: Dues>(rt: &(impl Abort + AllocGlobal + Eprint)) -> Result<(), Fail> {
    let cell: Controller<D> = controller(rt)?;
    let left = cell.reports_left();
    drop(cell);
    assert!(rt; left == 6);
    Ok(())
}

#[test]
fn a_plan_comes_back_without_a_controller(rt: HostRuntime) -> Result<(), Fail> {
    a_plan_comes_back::<ScanDues>(&rt)?;
    a_plan_comes_back::<TourneyDues>(&rt)
}

/// The least of due moments of which there are none yet, made once more where memory ran out.
fn least<D: Dues>(rt: &(impl AllocGlobal + Eprint)) -> Result<Option<Moment>, AllocError> {
    asks(rt);
    let answer = D::sized(rt.alloc(), 5);
    answers(rt, answer.is_err());
    let dues = match answer {
        Ok(dues) => dues,
        Err(_) => D::sized(rt.alloc(), 5)?,
    };
    let least = dues.least();
    drop(dues);
    Ok(least)
}

#[test]
fn due_moments_have_room_or_none(rt: HostRuntime) -> Result<(), Fail> {
    assert!(rt; (least::<ScanDues>(&rt)?, least::<TourneyDues>(&rt)?) == (None, None));
    Ok(())
}

/// Whether the ticket has a cell without a report.
fn has_cell<D: Dues>(hub: &Hub<D>, ticket: Ticket) -> bool {
    match hub.cell(ticket) {
        Some(cell) => cell.reports_left() == 6,
        None => false,
    }
}

/// Whether exactly the first so many tickets have a cell.
fn has_cells<D: Dues>(hub: &Hub<D>, count: usize) -> bool {
    for slot in 0..5 {
        let serial = slot as u64;
        if has_cell(hub, Ticket { slot, serial }) != (slot < count) {
            return false;
        }
    }
    true
}

/// The ticket of one more cell. Where memory runs out at first, the hub stays as it is.
fn admitted<D: Dues>(
    rt: &(impl Abort + AllocGlobal + Eprint),
    hub: &mut Hub<D>,
    count: usize,
) -> Result<Ticket, Fail> {
    let verified = accepted(rt.alloc())?;
    asks(rt);
    let answer = hub.admit(verified);
    answers(rt, answer.is_err());
    match answer {
        Ok(ticket) => Ok(ticket),
        Err((fault, back)) => {
            let back = still_accepted(rt.alloc(), back)?;
            let stayed = has_cells(hub, count);
            let ticket = hub.admit(back);
            assert!(rt; fault == HubFault::Memory && stayed);
            Ok(ticket?)
        }
    }
}

/// Admits five cells, and answers whether each gets the next ticket, and the hub one more cell.
fn follow(
    rt: &(impl Abort + AllocGlobal + Eprint),
    hub: &mut Hub<TourneyDues>,
) -> Result<bool, Fail> {
    for slot in 0..5 {
        let ticket = admitted(rt, hub, slot)?;
        let serial = slot as u64;
        if ticket != (Ticket { slot, serial }) || !has_cells(hub, slot + 1) {
            return Ok(false);
        }
    }
    Ok(true)
}

#[test]
fn a_serial_that_was_not_given_is_the_next(rt: HostRuntime) -> Result<(), Fail> {
    let mut hub: Hub<TourneyDues> = Hub::new(rt.alloc());
    let followed = follow(&rt, &mut hub);
    drop(hub);
    assert!(rt; followed?);
    Ok(())
}

/// Whether the one cell is dismissed.
fn dismissed(rt: &impl Eprint, hub: &mut Hub<TourneyDues>, first: Ticket) -> bool {
    asks(rt);
    let dismissed = hub.dismiss(first).is_ok();
    // a dismissal asks for no memory, so no request can be refused to it
    answers(rt, false);
    dismissed
}

/// Whether a cell that is admitted once the first one is dismissed has its slot, and the next serial.
fn takes_its_slot(
    rt: &(impl Abort + AllocGlobal + Eprint),
    hub: &mut Hub<TourneyDues>,
) -> Result<bool, Fail> {
    let first = admitted(rt, hub, 0)?;
    let dismissed = dismissed(rt, hub, first);
    let second = admitted(rt, hub, 0)?;
    Ok(dismissed && second == Ticket { slot: 0, serial: 1 } && has_cell(hub, second))
}

#[test]
fn a_slot_is_used_again(rt: HostRuntime) -> Result<(), Fail> {
    let mut hub: Hub<TourneyDues> = Hub::new(rt.alloc());
    let used = takes_its_slot(&rt, &mut hub);
    drop(hub);
    assert!(rt; used?);
    Ok(())
}

/// The numbers of the plan that is looked for, where all came back: the two jobs, and what the text says.
fn handed_back(alloc: Global, refused: NotFound, given: &[u8]) -> Result<(Shop, Plan), Fail> {
    let NotFound {
        fault: _,
        shop,
        release,
        budget,
        clean,
    } = refused;
    let plan = Plan {
        release,
        budget,
        order: Vec::new(alloc),
        clean,
    };
    if is_given(alloc, &shop, &plan, given) == Ok(true) {
        return Ok((shop, plan));
    }
    drop(shop);
    drop(plan);
    Err("another shop or plan came back".into())
}

/// Looks for a plan with these numbers.
fn sought(
    alloc: Global,
    shop: Shop,
    plan: Plan,
    proposers: &[Box<dyn Proposer>],
) -> Result<Verified, NotFound> {
    let Plan {
        release,
        budget,
        order: _,
        clean,
    } = plan;
    seek(alloc, shop, release, budget, clean, proposers, 2)
}

fn ran_out(answer: &Result<Verified, NotFound>) -> bool {
    match answer {
        Ok(_) => false,
        Err(refused) => refused.fault == SeekFault::Memory,
    }
}

/// What is found where memory ran out: looked for once more, with what came back.
fn found_again(
    alloc: Global,
    refused: NotFound,
    given: &[u8],
    proposers: &[Box<dyn Proposer>],
) -> Result<Result<Verified, NotFound>, Fail> {
    if refused.fault != SeekFault::Memory {
        return Ok(Err(refused));
    }
    let (shop, plan) = handed_back(alloc, refused, given)?;
    Ok(sought(alloc, shop, plan, proposers))
}

/// What is found with the numbers of the text.
fn found(
    rt: &(impl AllocGlobal + Eprint),
    given: &[u8],
    proposers: &[Box<dyn Proposer>],
) -> Result<Result<Verified, NotFound>, Fail> {
    let alloc = rt.alloc();
    let shop = two_jobs(alloc)?;
    let plan = read_plan(alloc, given)?;
    asks(rt);
    let answer = sought(alloc, shop, plan, proposers);
    answers(rt, ran_out(&answer));
    match answer {
        Ok(verified) => Ok(Ok(verified)),
        Err(refused) => found_again(alloc, refused, given, proposers),
    }
}

/// Whether this is the plan of the text, or there is none where the text says so.
fn is_found(
    alloc: Global,
    found: &Result<Verified, NotFound>,
    wanted: &[u8],
) -> Result<bool, PlanFault> {
    match found {
        Ok(verified) => is_whole(alloc, verified.shaped(), wanted),
        Err(refused) => Ok(
            refused.fault == SeekFault::Exhausted && wanted == b"exhausted".as_slice(),
        ),
    }
}

/// The numbers of plans, without orders, and the plans that are found.
const SEARCHES: &[(&[u8], &[u8])] = &[
    (
        b"release = [0, 0]\nbudget = [10, 5]\norder = []\n",
        b"release = [0, 0]\nbudget = [10, 5]\norder = [[1, 0], [1, 0]]\n",
    ),
    (
        b"version = 2\nrelease = [0, 0]\nbudget = [5, 12]\norder = []\nclean = [0, 2]\n",
        CLEANED,
    ),
    (
        b"release = [0, 0]\nbudget = [4, 4]\norder = []\n",
        b"exhausted",
    ),
];

/// Each search by these planners finds what it should.
fn finds_each(
    rt: &(impl Abort + AllocGlobal + Eprint),
    proposers: &[Box<dyn Proposer>],
) -> Result<(), Fail> {
    for &(given, wanted) in SEARCHES {
        let answer = found(rt, given, proposers)?;
        let is = is_found(rt.alloc(), &answer, wanted);
        drop(answer);
        assert!(rt; is?);
    }
    Ok(())
}

#[test]
fn all_comes_back_from_a_search(rt: HostRuntime) -> Result<(), Fail> {
    let proposers = proposers(rt.alloc())?;
    let found = finds_each(&rt, &proposers);
    drop(proposers);
    found
}

/// What is decided of the plan, once more where memory ran out.
fn decided_at_last(
    rt: &(impl AllocGlobal + Eprint),
    plan: &[u8],
    aim: Aim,
) -> Result<Result<Decided, DecideFault>, Fail> {
    let shaped = shaped(rt.alloc(), plan)?;
    asks(rt);
    let mut answer = decided(rt.alloc(), &shaped, aim);
    answers(rt, answer.is_err());
    if let Err(DecideFault::Memory) = answer {
        answer = decided(rt.alloc(), &shaped, aim);
    }
    drop(shaped);
    Ok(answer)
}

/// What is said of the promises.
fn decision(decided: &Result<Decided, DecideFault>) -> &'static str {
    match decided {
        Ok(Decided::Kept(_)) => "kept",
        Ok(Decided::Best(_, within)) if within.at_least == 10 && within.at_most == 10 => "best",
        Ok(Decided::Never(_)) => "never",
        _ => "another decision",
    }
}

#[test]
fn a_plan_is_only_lent_to_be_decided(rt: HostRuntime) -> Result<(), Fail> {
    let makespan = Aim::Least(Objective::Makespan);
    for (plan, aim, wanted) in [
        (IN_TIME, Aim::Promises, "kept"),
        (IN_TIME, makespan, "best"),
        (IN_TIME, Aim::Least(Objective::Leaving(1)), "best"),
        (LATE, makespan, "never"),
    ] {
        let answer = decided_at_last(&rt, plan, aim)?;
        let is = decision(&answer) == wanted;
        drop(answer);
        assert!(rt; is);
    }
    Ok(())
}

/// The text of the plan, written once more where memory ran out.
fn document(rt: &(impl AllocGlobal + Eprint), plan: &Plan) -> Result<String, PlanFault> {
    asks(rt);
    let answer = plan_document(rt.alloc(), plan);
    answers(rt, answer.is_err());
    match answer {
        Err(PlanFault::Memory) => plan_document(rt.alloc(), plan),
        answer => answer,
    }
}

#[test]
fn a_plan_is_only_lent_to_be_written(rt: HostRuntime) -> Result<(), Fail> {
    for text in [IN_TIME, CLEANED] {
        let plan = read_plan(rt.alloc(), text)?;
        let written = document(&rt, &plan);
        drop(plan);
        let written = written?;
        let is = written.as_bytes() == text;
        drop(written);
        assert!(rt; is);
    }
    Ok(())
}
