//! What the search for a better plan makes of the answers of its improvers. What the annealing finds stands in
//! `tests/commands/command-lines`.

ghost use Rattle.std.specs.Prelude.{None};

use super::plans::{CROSSED, IN_SERIES, TWO, is_text, planned};
use super::scripted::{ASKED, Answer, Scripted};
use plan_improve::{ImproveFault, Improver, NotImproved, Watch, improve};
use plan_text::PlanFault;
use plan_verifier::Verdict;
use shop_base::Moment;
use std::alloc::{AllocError, Global};
use std::cell::Cell;
use std::rc::Rc;
use std::test::Fail;

/// Counts the rounds that are reported to it.
#[derive(Drop)]
struct Watched {
    /// How many there were. One that is reported out of turn counts as a million.
    rounds: u32,
}

impl Watch for Watched {
    ghost reported = { λ _. None };

    fn round(&mut self, round: u32, _late: Moment, _makespan: Moment, _at_least: Moment) {
        let counted = if round == self.rounds { 1 } else { 1_000_000 };
        self.rounds = self.rounds.saturating_add(counted);
    }
}

fn improver(
    alloc: Global,
    questions: &Rc<Cell<u32>>,
    answer: Answer,
    place: u32,
) -> Result<Box<dyn Improver>, AllocError> {
    let questions = questions.clone()?;
    let improver = Scripted {
        answer,
        first: 0,
        place,
        questions,
    };
    let boxed: Box<dyn Improver> = Box::new(alloc, improver)?;
    Ok(boxed)
}

/// The improvers, each in its place.
fn improvers(
    alloc: Global,
    questions: &Rc<Cell<u32>>,
    answers: [Answer; 3],
) -> Result<Vec<Box<dyn Improver>>, AllocError> {
    let mut improvers = Vec::new(alloc);
    for place in 0..ASKED {
        improvers.push(improver(alloc, questions, answers[place as usize], place)?)?;
    }
    Ok(improvers)
}

/// Whether this plan comes out, and whether it is accepted; or whether it comes back, and the fault.
type End = (bool, Result<bool, ImproveFault>);

fn is_end(
    alloc: Global,
    answer: &Result<Verdict, NotImproved>,
    plan: &[u8],
) -> Result<End, PlanFault> {
    match answer {
        Ok(Verdict::Accepted(verified)) => {
            Ok((is_text(alloc, verified.shaped().plan(), plan)?, Ok(true)))
        }
        Ok(Verdict::Refused(shaped, _)) => Ok((is_text(alloc, shaped.plan(), plan)?, Ok(false))),
        Err(refused) => {
            Ok((
                is_text(alloc, refused.start.plan(), plan)?,
                Err(refused.fault),
            ))
        }
    }
}

/// How the search from the plan that is given ends, where the other one is to come out or back.
fn improved(
    alloc: Global,
    plans: [&[u8]; 2],
    improvers: &[Box<dyn Improver>],
    rounds: u32,
    watch: &mut Watched,
) -> Result<End, Fail> {
    let start = planned(alloc, TWO, plans[0])?;
    let answer = improve(alloc, start, improvers, rounds, watch);
    let end = is_end(alloc, &answer, plans[1]);
    drop(answer);
    Ok(end?)
}

/// Job 1 has to be out first.
const LATE: &[u8] = b"release = [0, 0]\nbudget = [10, 5]\norder = [[0, 1], [0, 1]]\n";

const TURNED: &[u8] = b"release = [0, 0]\nbudget = [10, 5]\norder = [[1, 0], [1, 0]]\n";

/// While machine 0 is cleaned, job 0 waits for it.
const CLEANED: &[u8] =
    b"version = 2\nrelease = [0, 0]\nbudget = [15, 15]\norder = [[1, 0], [1, 0]]\nclean = [5, 0]\n";

const CLEANED_SERIAL: &[u8] =
    b"version = 2\nrelease = [0, 0]\nbudget = [15, 15]\norder = [[0, 1], [0, 1]]\nclean = [5, 0]\n";

/// No plan has job 1 out before 10.
const AT_ITS_BOUND: &[u8] = b"release = [0, 5]\nbudget = [10, 10]\norder = [[0, 1], [0, 1]]\n";

const ABOVE_IT: &[u8] = b"release = [0, 5]\nbudget = [15, 15]\norder = [[1, 0], [1, 0]]\n";

const DOWN_TO_IT: &[u8] = b"release = [0, 5]\nbudget = [15, 15]\norder = [[0, 1], [0, 1]]\n";

const SILENT: Answer = Answer::Silent;

const SERIAL: Answer = Answer::Serial;

/// A plan, the improvers, the rounds, the plan that comes out or back, whether it is accepted or the fault, how many
/// rounds are reported to the watch, and how often improvers are asked.
type Search = (
    &'static [u8],
    [Answer; 3],
    u32,
    &'static [u8],
    Result<bool, ImproveFault>,
    u32,
    u32,
);

const SEARCHES: &[Search] = &[
    // An answer is kept where it is better.
    (
        LATE,
        [Answer::Turned, SILENT, SILENT],
        2,
        TURNED,
        Ok(true),
        2,
        6,
    ),
    (
        LATE,
        [Answer::Shown, SILENT, SILENT],
        2,
        TURNED,
        Ok(true),
        2,
        6,
    ),
    (
        LATE,
        [SERIAL, Answer::Crossed, Answer::Short],
        2,
        LATE,
        Ok(false),
        2,
        6,
    ),
    (
        LATE,
        [Answer::Stranger, SILENT, SILENT],
        2,
        LATE,
        Ok(false),
        2,
        6,
    ),
    (
        IN_SERIES,
        [Answer::Turned, SILENT, SILENT],
        2,
        IN_SERIES,
        Ok(true),
        2,
        6,
    ),
    (
        CLEANED,
        [Answer::Turned, SILENT, SILENT],
        2,
        CLEANED,
        Ok(true),
        2,
        6,
    ),
    (
        CLEANED,
        [SILENT, Answer::Short, SERIAL],
        1,
        CLEANED_SERIAL,
        Ok(true),
        1,
        3,
    ),
    // Each improver is asked once in each round, in its turn. A plan that would lock becomes the serial one.
    (
        CROSSED,
        [Answer::Crossed, SILENT, SILENT],
        0,
        IN_SERIES,
        Ok(true),
        0,
        0,
    ),
    (
        CROSSED,
        [Answer::Crossed, SILENT, SILENT],
        1,
        IN_SERIES,
        Ok(true),
        1,
        3,
    ),
    (
        CROSSED,
        [SILENT, SILENT, SILENT],
        1000,
        IN_SERIES,
        Ok(true),
        1000,
        3000,
    ),
    // Once the best plan meets its bound, no round is reported, and nobody is asked, in a round that has begun either.
    (
        AT_ITS_BOUND,
        [Answer::Hungry, SILENT, SILENT],
        2,
        AT_ITS_BOUND,
        Ok(true),
        0,
        0,
    ),
    (
        ABOVE_IT,
        [SERIAL, SILENT, SILENT],
        2,
        DOWN_TO_IT,
        Ok(true),
        1,
        1,
    ),
    // On a fault the plan comes back as it was.
    (
        CROSSED,
        [SERIAL, SILENT, SILENT],
        1001,
        CROSSED,
        Err(ImproveFault::TooManyRounds),
        0,
        0,
    ),
    (
        CROSSED,
        [Answer::Hungry, SILENT, SILENT],
        2,
        CROSSED,
        Err(ImproveFault::Memory),
        1,
        1,
    ),
    (
        CLEANED,
        [SERIAL, Answer::Hungry, SILENT],
        1,
        CLEANED,
        Err(ImproveFault::Memory),
        1,
        2,
    ),
];

/// How the search by improvers that count their questions ends, and how many rounds are reported.
fn end_and_rounds(
    alloc: Global,
    plans: [&[u8]; 2],
    answers: [Answer; 3],
    rounds: u32,
    questions: &Rc<Cell<u32>>,
) -> Result<(End, u32), Fail> {
    let improvers = improvers(alloc, questions, answers)?;
    let mut watch = Watched { rounds: 0 };
    let end = improved(alloc, plans, &improvers, rounds, &mut watch);
    drop(improvers);
    Ok((end?, watch.rounds))
}

/// The same, and how many questions there were.
fn searched(
    alloc: Global,
    plans: [&[u8]; 2],
    answers: [Answer; 3],
    rounds: u32,
) -> Result<(End, u32, u32), Fail> {
    let questions = Rc::new(alloc, Cell::new(0))?;
    let found = end_and_rounds(alloc, plans, answers, rounds, &questions);
    let count = questions.get();
    drop(questions);
    let (end, reported) = found?;
    Ok((end, reported, count))
}

#[test]
fn answers_are_kept_where_they_are_better(rt: HostRuntime) -> Result<(), Fail> {
    for &(given, answers, rounds, plan, end, reported, count) in SEARCHES {
        let found = searched(rt.alloc(), [given, plan], answers, rounds)?;
        assert!(rt; found == ((true, end), reported, count));
    }
    Ok(())
}

#[test]
fn without_improvers_a_plan_stays(rt: HostRuntime) -> Result<(), Fail> {
    let mut watch = Watched { rounds: 0 };
    let end = improved(rt.alloc(), [CLEANED, CLEANED], &[], 2, &mut watch)?;
    assert!(rt; end == (true, Ok(true)));
    Ok(())
}

/// Whether this is the text of the fault.
fn says(alloc: Global, fault: ImproveFault, text: &str) -> Result<bool, AllocError> {
    Ok(fault.to_string(alloc)?.as_str() == text)
}

#[test]
fn faults_have_a_text(rt: HostRuntime) -> Result<(), Fail> {
    let memory = says(rt.alloc(), ImproveFault::Memory, "Memory")?;
    assert!(rt; memory && says(rt.alloc(), ImproveFault::TooManyRounds, "TooManyRounds")?);
    Ok(())
}
