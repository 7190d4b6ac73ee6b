//! What the search for a plan answers, and what its planners propose. What they find stands in `tests/commands/runs`.

use super::plans::{FT06, TWO, is_text, two_jobs};
use super::scripted::{ASKED, Answer, Scripted};
use orlib_read::read_instance;
use plan_seek::{GreedyProposer, NotFound, Proposer, SeekFault, ShiftProposer, seek};
use plan_text::read_plan;
use plan_verifier::Verified;
use shop_base::{JobNo, Plan, Shop};
use std::alloc::{AllocError, Global};
use std::cell::Cell;
use std::rc::Rc;
use std::test::Fail;

fn planner(
    alloc: Global,
    questions: &Rc<Cell<u32>>,
    answer: Answer,
    first: u32,
    place: u32,
) -> Result<Box<dyn Proposer>, AllocError> {
    let questions = questions.clone()?;
    let planner = Scripted {
        answer,
        first,
        place,
        questions,
    };
    let boxed: Box<dyn Proposer> = Box::new(alloc, planner)?;
    Ok(boxed)
}

/// The planners, each in its place.
fn planners(
    alloc: Global,
    questions: &Rc<Cell<u32>>,
    answers: [Answer; 3],
    first: u32,
) -> Result<Vec<Box<dyn Proposer>>, AllocError> {
    let mut planners = Vec::new(alloc);
    for place in 0..ASKED {
        let answer = answers[place as usize];
        planners.push(planner(alloc, questions, answer, first, place)?)?;
    }
    Ok(planners)
}

/// Whether this is the text of the fault, and shop and numbers come back.
fn is_refused(alloc: Global, refused: NotFound, given: &[u8], wanted: &str) -> Result<bool, Fail> {
    let NotFound {
        fault,
        shop,
        release,
        budget,
        clean,
    } = refused;
    let plan = Plan {
        release,
        budget,
        order: Vec::new(alloc),
        clean,
    };
    let work = shop.work();
    drop(shop);
    let same = is_text(alloc, &plan, given);
    drop(plan);
    Ok(same? && work == 10 && says(alloc, fault, wanted)?)
}

fn says(alloc: Global, fault: SeekFault, text: &str) -> Result<bool, AllocError> {
    Ok(fault.to_string(alloc)?.as_str() == text)
}

/// Looks for a plan with these numbers.
fn sought(
    alloc: Global,
    shop: Shop,
    numbers: Plan,
    proposers: &[Box<dyn Proposer>],
    rounds: u32,
) -> Result<Verified, NotFound> {
    let Plan {
        release,
        budget,
        order: _,
        clean,
    } = numbers;
    seek(alloc, shop, release, budget, clean, proposers, rounds)
}

/// Whether this is answered: the plan, or why there is none.
fn is_answer(
    alloc: Global,
    answer: Result<Verified, NotFound>,
    given: &[u8],
    wanted: &str,
) -> Result<bool, Fail> {
    match answer {
        Ok(verified) => {
            let is = is_text(alloc, verified.shaped().plan(), wanted.as_bytes());
            drop(verified);
            Ok(is?)
        }
        Err(refused) => is_refused(alloc, refused, given, wanted),
    }
}

/// Whether the search for the two jobs with these numbers answers this: the plan, or why there is none.
fn is_found(
    alloc: Global,
    given: &[u8],
    proposers: &[Box<dyn Proposer>],
    rounds: u32,
    wanted: &str,
) -> Result<bool, Fail> {
    let shop = two_jobs(alloc)?;
    let numbers = read_plan(alloc, given)?;
    let answer = sought(alloc, shop, numbers, proposers, rounds);
    is_answer(alloc, answer, given, wanted)
}

/// Any plan of the two jobs one after the other is in time.
const AMPLE: &[u8] = b"release = [0, 0]\nbudget = [5, 10]\norder = []\n";

const SERIAL: &str = "release = [0, 0]\nbudget = [5, 10]\norder = [[0, 1], [0, 1]]\n";

/// Job 1 is to be out first.
const SWAPPED: &[u8] = b"release = [0, 0]\nbudget = [10, 5]\norder = []\n";

const TURNED: &str = "release = [0, 0]\nbudget = [10, 5]\norder = [[1, 0], [1, 0]]\n";

/// No plan has both jobs out by then.
const TIGHT: &[u8] = b"release = [0, 0]\nbudget = [4, 4]\norder = []\n";

const ONE_RELEASE: &[u8] = b"release = [0]\nbudget = [5, 10]\norder = []\n";

const LONG_CLEANING: &[u8] =
    b"version = 2\nrelease = [0, 0]\nbudget = [5, 10]\norder = []\nclean = [0, 1000001]\n";

const SILENT: Answer = Answer::Silent;

const SHOWN: Answer = Answer::Shown;

const HUNGRY: Answer = Answer::Hungry;

/// Planners that propose nothing that is accepted.
const WRONG: [Answer; 3] = [Answer::Short, Answer::Stranger, Answer::Crossed];

/// The numbers of a plan, the planners, the first round in which they propose something, the rounds, the answer, and
/// how often planners are asked.
type Search = (&'static [u8], [Answer; 3], u32, u32, &'static str, u32);

const SEARCHES: &[Search] = &[
    // Each planner is asked once a round, in its turn, until there is a plan.
    (SWAPPED, [SHOWN, SILENT, SILENT], 0, 20, TURNED, 1),
    (SWAPPED, [SILENT, SILENT, SHOWN], 0, 20, TURNED, 3),
    (SWAPPED, [SILENT, SHOWN, SILENT], 24, 25, TURNED, 74),
    (SWAPPED, [SILENT, SHOWN, SILENT], 24, 24, "Exhausted", 72),
    (
        SWAPPED,
        [SHOWN, SILENT, SILENT],
        1000,
        1000,
        "Exhausted",
        3000,
    ),
    (AMPLE, [SILENT, SILENT, SILENT], 0, 2, SERIAL, 6),
    (AMPLE, [SHOWN, SILENT, SILENT], 0, 0, SERIAL, 0),
    // Wrong proposals do no harm.
    (AMPLE, WRONG, 0, 20, SERIAL, 60),
    (TIGHT, WRONG, 0, 20, "Exhausted", 60),
    (AMPLE, [HUNGRY, SILENT, SILENT], 0, 20, "Memory", 1),
    (AMPLE, [SILENT, Answer::Crossed, HUNGRY], 0, 20, "Memory", 3),
    // None is asked for what is refused. Bad numbers are answered before too many rounds.
    (
        ONE_RELEASE,
        [HUNGRY, SILENT, SILENT],
        0,
        20,
        "BadNumbers ReleaseCount",
        0,
    ),
    (
        LONG_CLEANING,
        WRONG,
        0,
        1001,
        "BadNumbers CleanTooLarge machine 1",
        0,
    ),
    (AMPLE, [HUNGRY, SILENT, SILENT], 0, 1001, "TooManyRounds", 0),
];

/// The same by these planners, which are dropped then.
fn is_found_by(
    alloc: Global,
    given: &[u8],
    planners: Result<Vec<Box<dyn Proposer>>, AllocError>,
    rounds: u32,
    wanted: &str,
) -> Result<bool, Fail> {
    let planners = planners?;
    let is = is_found(alloc, given, &planners, rounds, wanted);
    drop(planners);
    is
}

/// Whether the search answers this, and how often planners are asked.
fn searched(
    alloc: Global,
    given: &[u8],
    answers: [Answer; 3],
    first: u32,
    rounds: u32,
    wanted: &str,
) -> Result<(bool, u32), Fail> {
    let questions = Rc::new(alloc, Cell::new(0))?;
    let planners = planners(alloc, &questions, answers, first);
    let is = is_found_by(alloc, given, planners, rounds, wanted);
    let count = questions.get();
    drop(questions);
    Ok((is?, count))
}

#[test]
fn a_search_answers_by_numbers_planners_and_rounds(rt: HostRuntime) -> Result<(), Fail> {
    for &(given, answers, first, rounds, wanted, count) in SEARCHES {
        let found = searched(rt.alloc(), given, answers, first, rounds, wanted)?;
        assert!(rt; found == (true, count));
    }
    assert!(rt; is_found(rt.alloc(), AMPLE, &[], 0, SERIAL)?);
    Ok(())
}

fn are_printed(
    alloc: Global,
    orders: &Option<Vec<Vec<JobNo>>>,
    wanted: &str,
) -> Result<bool, Fail> {
    Ok(format!(in alloc; "{orders:?}")?.as_str() == wanted)
}

fn is_proposed(
    alloc: Global,
    planner: &impl Proposer,
    shop: &Shop,
    round: u32,
    wanted: &str,
) -> Result<bool, Fail> {
    let orders = planner.propose(alloc, shop, round)?;
    let are = are_printed(alloc, &orders, wanted);
    drop(orders);
    are
}

/// Whether a planner proposes this in a round for an instance.
fn proposes(
    alloc: Global,
    planner: &impl Proposer,
    instance: &[u8],
    round: u32,
    wanted: &str,
) -> Result<bool, Fail> {
    let named = read_instance(alloc, instance)?;
    let is = is_proposed(alloc, planner, &named.shop, round, wanted);
    drop(named);
    is
}

#[test]
fn planners_propose_orders(rt: HostRuntime) -> Result<(), Fail> {
    let (shift, greedy) = (ShiftProposer::new(), GreedyProposer::new());
    let shifted = proposes(rt.alloc(), &shift, TWO, 1, "Some([[1, 0], [1, 0]])")?;
    let first = proposes(rt.alloc(), &greedy, TWO, 0, "Some([[0, 1], [0, 1]])")?;
    // no command asks in so late a round
    let wanted =
        "Some([[3, 5, 4, 0, 2, 1], [5, 3, 4, 1, 0, 2], [4, 2, 3, 5, 0, 1], [5, 2, 3, 4, 0, 1], [4, 5, 3, 1, 2, 0], [5, 4, 2, 3, 1, 0]])";
    let last = proposes(rt.alloc(), &greedy, FT06, 1000, wanted)?;
    assert!(rt; (shifted, first, last) == (true, true, true));
    Ok(())
}
