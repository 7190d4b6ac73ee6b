//! Shops and shaped plans, as far as no command shows them. What is no shop, and what doesn't fit
//! one, stands in `tests/commands/command-lines`.

use super::plans::{CLEANED, TWO, is_text, planned, two_jobs};
use plan_text::read_plan;
use shop_base::{NotShaped, Plan, Shaped, Shop, Step, shape};
use std::alloc::{AllocError, Global};
use std::test::Fail;

/// The routes of a job with one step, and of one without any.
fn routes(alloc: Global) -> Result<Vec<Vec<Step>>, AllocError> {
    let step = Step {
        machine: 0,
        nominal: 1,
    };
    let mut routes = Vec::new(alloc);
    routes.push([step].to_vec(alloc)?)?;
    routes.push(Vec::new(alloc))?;
    Ok(routes)
}

/// Whether the routes make no shop, and this is why.
fn is_no_shop(alloc: Global, routes: Vec<Vec<Step>>, text: &str) -> Result<bool, AllocError> {
    match Shop::new(1, routes).err() {
        Some(fault) => Ok(fault.to_string(alloc)?.as_str() == text),
        None => Ok(false),
    }
}

#[test]
fn a_job_without_a_step_makes_no_shop(rt: HostRuntime) -> Result<(), Fail> {
    let routes = routes(rt.alloc())?;
    assert!(rt; is_no_shop(rt.alloc(), routes, "EmptyRoute job 1")?);
    Ok(())
}

/// Plans that aren't well shaped for the two jobs, each with its first fault.
const NOT_SHAPED: &[(&[u8], &str)] = &[
    (
        b"release = [0, 0]\nbudget = [5, 10]\norder = [[0, 1], [0]]\n",
        "JobMissing machine 1 job 1",
    ),
    (
        b"version = 2\nrelease = [0, 0]\nbudget = [5, 10]\norder = [[2], []]\nclean = [0, 1000001]\n",
        "CleanTooLarge machine 1",
    ),
];

/// Whether these are the two jobs, and the plan of the text.
fn are_whole(alloc: Global, shop: &Shop, plan: &Plan, text: &[u8]) -> Result<bool, Fail> {
    Ok(shop.work() == 10 && is_text(alloc, plan, text)?)
}

/// Whether the plan isn't well shaped by this first fault, and comes back with the shop.
fn comes_back(
    alloc: Global,
    shaped: &Result<Shaped, NotShaped>,
    plan: &[u8],
    text: &str,
) -> Result<bool, Fail> {
    match shaped {
        Ok(_) => Ok(false),
        Err(refused) => {
            Ok(
                refused.fault.to_string(alloc)?.as_str() == text
                    && are_whole(alloc, &refused.shop, &refused.plan, plan)?,
            )
        }
    }
}

fn is_refused(alloc: Global, plan: &[u8], text: &str) -> Result<bool, Fail> {
    let shop = two_jobs(alloc)?;
    let answer = shape(shop, read_plan(alloc, plan)?);
    let is = comes_back(alloc, &answer, plan, text);
    drop(answer);
    is
}

/// Whether a plan that is shaped comes apart into the two jobs and the plan of the text.
fn are_parts_whole(alloc: Global, plan: &[u8]) -> Result<bool, Fail> {
    let (shop, parts) = planned(alloc, TWO, plan)?.into_parts();
    let are = are_whole(alloc, &shop, &parts, plan);
    drop(shop);
    drop(parts);
    are
}

#[test]
fn the_shop_and_the_plan_come_back(rt: HostRuntime) -> Result<(), Fail> {
    for &(plan, text) in NOT_SHAPED {
        assert!(rt; is_refused(rt.alloc(), plan, text)?);
    }
    assert!(rt; are_parts_whole(rt.alloc(), CLEANED)?);
    Ok(())
}
