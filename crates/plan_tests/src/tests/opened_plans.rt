//! What the large neighbourhood search finds from serial plans, alone and by turns with the annealing. The makespans are
//! the least ones, which `decide --least` proves.

ghost use Rattle.std.specs.Prelude.{None};

use super::plans::{FT06, planned};
use plan_improve::{AlternatingImprover, Improver, OpeningImprover, Watch, improve};
use plan_verifier::Verdict;
use shop_base::Moment;
use std::alloc::{AllocError, Global};
use std::test::Fail;

/// The least makespan of FT06 is 69.
const FT06_SERIAL: &[u8] =
    b"release = [0, 0, 0, 0, 0, 0]\nbudget = [200, 200, 200, 200, 200, 200]\norder = [\
    [0, 1, 2, 3, 4, 5], [0, 1, 2, 3, 4, 5], [0, 1, 2, 3, 4, 5], \
    [0, 1, 2, 3, 4, 5], [0, 1, 2, 3, 4, 5], [0, 1, 2, 3, 4, 5]]\n";

/// The cell of `tests/generators/robot-cell 4 4 3 2 instance 10`: machine 0 is a robot. The least makespan is 429.
const CELL: &[u8] = b"cell\n4 4 recrc\n0 10 1 47 0 10 3 22 0 10 2 95 0 10\n\
    0 10 3 78 0 10 2 28 0 10 1 78 0 10\n\
    0 10 1 82 0 10 3 51 0 10 2 93 0 10\n\
    0 10 3 65 0 10 2 35 0 10 1 5 0 10\n";

const CELL_SERIAL: &[u8] = b"release = [0, 0, 0, 0]\nbudget = [1000, 1000, 1000, 1000]\norder = [\
    [0, 0, 0, 0, 1, 1, 1, 1, 2, 2, 2, 2, 3, 3, 3, 3], [0, 1, 2, 3], [0, 1, 2, 3], [0, 1, 2, 3]]\n";

/// A watch that looks at nothing.
#[derive(Drop)]
struct Unwatched;

impl Watch for Unwatched {
    ghost reported = { λ _. None };

    fn round(&mut self, _round: u32, _late: Moment, _makespan: Moment, _at_least: Moment) {}
}

/// The large neighbourhood search, alone or by turns with the annealing.
fn search(alloc: Global, by_turns: bool) -> Result<Vec<Box<dyn Improver>>, AllocError> {
    let improver: Box<dyn Improver> = if by_turns {
        Box::new(alloc, AlternatingImprover::new(alloc, 0))?
    } else {
        Box::new(alloc, OpeningImprover::new(alloc, 0))?
    };
    let mut improvers = Vec::new(alloc);
    improvers.push(improver)?;
    Ok(improvers)
}

/// The makespan of the accepted plan that comes of a plan in so many rounds.
fn makespan_after(
    alloc: Global,
    texts: [&[u8]; 2],
    by_turns: bool,
    rounds: u32,
) -> Result<Option<Moment>, Fail> {
    let start = planned(alloc, texts[0], texts[1])?;
    let improvers = search(alloc, by_turns)?;
    match improve(alloc, start, &improvers, rounds, &mut Unwatched) {
        Ok(Verdict::Accepted(verified)) => Ok(Some(verified.makespan())),
        _ => Ok(None),
    }
}

#[test]
fn few_rounds_find_the_least_makespan_of_a_small_shop(rt: HostRuntime) -> Result<(), Fail> {
    let texts = [FT06, FT06_SERIAL];
    assert!(rt; makespan_after(rt.alloc(), texts, false, 0)? == Some(152));
    assert!(rt; makespan_after(rt.alloc(), texts, false, 2)? == Some(69));
    assert!(rt; makespan_after(rt.alloc(), texts, true, 2)? == Some(69));
    Ok(())
}

#[test]
fn few_rounds_find_the_least_makespan_of_a_robot_cell(rt: HostRuntime) -> Result<(), Fail> {
    let texts = [CELL, CELL_SERIAL];
    assert!(rt; makespan_after(rt.alloc(), texts, false, 0)? == Some(839));
    assert!(rt; makespan_after(rt.alloc(), texts, false, 4)? == Some(429));
    assert!(rt; makespan_after(rt.alloc(), texts, true, 4)? == Some(429));
    Ok(())
}
