//! Instances and plans that several tests take, as texts.

use orlib_read::read_instance;
use plan_text::{PlanFault, plan_document, read_plan};
use shop_base::{Plan, Shaped, Shop, shape};
use std::alloc::Global;
use std::test::Fail;

/// Two jobs on two machines, crossing: job 0 on machine 0 and then 1, job 1 the other way round.
pub(crate) const TWO: &[u8] = b"two\n2 2\n0 3 1 2\n1 4 0 1\n";

/// The instance of Fisher and Thompson, 6 by 6.
pub(crate) const FT06: &[u8] = b"ft06\n6 6\n2 1 0 3 1 6 3 7 5 3 4 6\n1 8 2 5 4 10 5 10 0 10 3 4\n\
    2 5 3 4 5 8 0 9 1 1 4 7\n1 5 0 5 2 5 3 3 4 8 5 9\n2 9 1 3 4 5 5 4 0 3 3 1\n1 3 3 3 5 9 0 10 4 4 2 1\n";

/// Of the two jobs, job 0 first on both machines.
pub(crate) const IN_SERIES: &[u8] =
    b"release = [0, 0]\nbudget = [5, 10]\norder = [[0, 1], [0, 1]]\n";

/// The same, with 2 for the cleaning of machine 1.
pub(crate) const CLEANED: &[u8] =
    b"version = 2\nrelease = [0, 0]\nbudget = [5, 12]\norder = [[0, 1], [0, 1]]\nclean = [0, 2]\n";

/// Job 0 first on machine 0, and job 1 on machine 1.
pub(crate) const CROSSED: &[u8] = b"release = [0, 0]\nbudget = [5, 10]\norder = [[0, 1], [1, 0]]\n";

/// Whether this is the text of the plan.
pub(crate) fn is_text(alloc: Global, plan: &Plan, text: &[u8]) -> Result<bool, PlanFault> {
    Ok(plan_document(alloc, plan)?.as_bytes() == text)
}

pub(crate) fn two_jobs(alloc: Global) -> Result<Shop, Fail> {
    Ok(read_instance(alloc, TWO)?.shop)
}

/// The plan of a text, shaped for the instance of the other.
pub(crate) fn planned(alloc: Global, instance: &[u8], plan: &[u8]) -> Result<Shaped, Fail> {
    let shop = read_instance(alloc, instance)?.shop;
    Ok(shape(shop, read_plan(alloc, plan)?)?)
}
