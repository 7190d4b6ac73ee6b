//! The cells of the tests: their plans, which are accepted, and their controllers.

use cell_control::{Controller, Dues};
use orlib_read::read_instance;
use plan_text::read_plan;
use plan_verifier::{Verdict, Verified, verify};
use shop_base::{Shaped, shape};
use std::alloc::Global;
use std::test::Fail;

/// The texts of an instance and of a plan for it.
pub(super) type Texts = (&'static [u8], &'static [u8]);

/// Two jobs that cross on two machines.
const TWO: &[u8] = b"two\n2 2\n0 3 1 2\n1 4 0 1\n";

/// The two jobs, job 0 before job 1.
pub(super) const CROSSING: Texts = (
    TWO,
    b"release = [0, 0]\nbudget = [5, 10]\norder = [[0, 1], [0, 1]]\n",
);

/// The same, where machine 1 has to be cleaned for 2 after each job.
pub(super) const CLEANED: Texts = (
    TWO,
    b"version = 2\nrelease = [0, 0]\nbudget = [5, 12]\norder = [[0, 1], [0, 1]]\nclean = [0, 2]\n",
);

/// Three jobs that follow one another over three machines.
pub(super) const FOLLOWING: Texts = (
    b"chain\n3 3\n0 1 1 1 2 5\n0 1 1 1 2 1\n0 1 1 1 2 1\n",
    b"release = [0, 0, 0]\nbudget = [7, 8, 9]\norder = [[0, 1, 2], [0, 1, 2], [0, 1, 2]]\n",
);

/// A rack is rinsed in a tank, machine 0, dipped into a bath, machine 1, and rinsed again. Another one is rinsed once.
pub(super) const RACKS: &[u8] = b"rinse\n2 2 recrc\n0 3 1 2 0 3\n0 3\n";

/// The rack that is rinsed again goes first. The tank has to be cleaned for 6 after each rinsing: so it is out at
/// 3 + 6 + 3, not at the 8 that its own times come to, and the other one 6 + 3 behind it.
pub(super) const RINSED: Texts = (
    RACKS,
    b"version = 2\nrelease = [0, 0]\nbudget = [12, 21]\norder = [[0, 0, 1], [0]]\nclean = [6, 0]\n",
);

/// One job on one machine, which takes no time.
pub(super) const INSTANT: Texts = (
    b"z\n1 1\n0 0\n",
    b"release = [0]\nbudget = [0]\norder = [[0]]\n",
);

/// The plan of the texts.
pub(super) fn shaped(alloc: Global, texts: Texts) -> Result<Shaped, Fail> {
    let shop = read_instance(alloc, texts.0)?.shop;
    Ok(shape(shop, read_plan(alloc, texts.1)?)?)
}

/// The plan of a verdict that accepts it.
fn accepted_by(verdict: Verdict) -> Result<Verified, Verdict> {
    match verdict {
        Verdict::Accepted(verified) => Ok(verified),
        refused => Err(refused),
    }
}

/// The plan of the texts, which is accepted.
pub(super) fn accepted(alloc: Global, texts: Texts) -> Result<Verified, Fail> {
    let verdict = verify(alloc, shaped(alloc, texts)?)?;
    Ok(accepted_by(verdict)?)
}

/// A controller of the plan.
pub(super) fn controller<D: Dues>(alloc: Global, texts: Texts) -> Result<Controller<D>, Fail> {
    Ok(Controller::new(alloc, accepted(alloc, texts)?)?)
}
