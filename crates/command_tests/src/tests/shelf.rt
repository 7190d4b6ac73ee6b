//! The texts of the worked examples, and the files of a command, in memory.

use command_answers::{CommandFault, InputPaths, Texts};
use std::alloc::Global;

/// Two jobs on two machines.
pub(super) const TWO: &[u8] = b"two\n2 2\n0 3 1 2\n1 4 0 1\n";

/// Plans for the two jobs, as `plan_document` writes them: job 0 first on each machine, with its leavings as
/// budgets, and with a budget that it doesn't keep.
pub(super) const IN_TIME: &[u8] = b"release = [0, 0]\nbudget = [5, 10]\norder = [[0, 1], [0, 1]]\n";

pub(super) const LATE: &[u8] = b"release = [0, 0]\nbudget = [5, 9]\norder = [[0, 1], [0, 1]]\n";

/// The same, where machine 1 is cleaned.
pub(super) const CLEANED: &[u8] =
    b"version = 2\nrelease = [0, 0]\nbudget = [5, 12]\norder = [[0, 1], [0, 1]]\nclean = [0, 2]\n";

/// Each of the two jobs waits for the machine that the other one is on.
pub(super) const CROSSED: &[u8] =
    b"release = [0, 0]\nbudget = [100, 100]\norder = [[0, 1], [1, 0]]\n";

/// The files of a command: the instance's, the plan's and the log's. Each other path gives none.
#[derive(Drop)]
pub(super) struct Shelf {
    pub(super) instance: &'static [u8],
    pub(super) plan: &'static [u8],
    pub(super) log: &'static [u8],
}

/// The files of the instance and of the plan.
pub(super) const PAIR: InputPaths<'static> = InputPaths {
    instance: "instance",
    name: None,
    plan: "plan",
};

impl Texts for Shelf {
    ghost gives = { λ _ _ _ _. Unit {0} };

    fn text(&mut self, alloc: Global, path: &str) -> Result<Vec<u8>, CommandFault> {
        let text = match path {
            "instance" => self.instance,
            "plan" => self.plan,
            "log" => self.log,
            _ => return Err(CommandFault::Read),
        };
        if text.len() > 67_108_864 {
            return Err(CommandFault::InputTooLong);
        }
        match text.to_vec(alloc) {
            Ok(copy) => Ok(copy),
            Err(_) => Err(CommandFault::Memory),
        }
    }
}
