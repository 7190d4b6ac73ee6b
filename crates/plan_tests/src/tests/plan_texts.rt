//! Plans that are read and written again. Texts that are no plans, the spellings of TOML and the
//! greatest plan stand in `tests/commands/command-lines`; usual plans are read and written in `alloc_failures.rt` of
//! `command_tests`.

use super::plans::{IN_SERIES, is_text};
use plan_text::{PlanFault, plan_document, read_plan};
use shop_base::{Moment, Plan};
use std::alloc::{AllocError, Global};
use std::test::Fail;

/// Texts as they are written. The counts aren't looked at here.
const WRITTEN: &[&[u8]] = &[
    // A plan of version 2 stays one without any cleaning time above 0.
    b"version = 2\nrelease = []\nbudget = []\norder = []\nclean = []\n",
    b"release = [9223372036854775807]\nbudget = [0, 1, 2]\norder = [[], [4294967295], [3, 3]]\n",
    GREATER,
];

/// Each number is greater than the kind of number before it takes.
const GREATER: &[u8] =
    b"version = 2\nrelease = [4294967296]\nbudget = [4294967297]\norder = [[4294967295]]\nclean = [4294967298]\n";

/// Whether the plan of the text is written as that text again.
fn is_written_again(alloc: Global, text: &[u8]) -> Result<bool, PlanFault> {
    let plan = read_plan(alloc, text)?;
    let is = is_text(alloc, &plan, text);
    drop(plan);
    is
}

fn is_printed(alloc: Global, plan: &Plan, printed: &str) -> Result<bool, Fail> {
    Ok(format!(in alloc; "{plan:?}")?.as_str() == printed)
}

fn is_refused(alloc: Global, text: &[u8], fault: PlanFault) -> bool {
    read_plan(alloc, text).err() == Some(fault)
}

/// Whether the plan of the text is read so.
fn is_read(alloc: Global, text: &[u8], printed: &str) -> Result<bool, Fail> {
    let plan = read_plan(alloc, text)?;
    let is = is_printed(alloc, &plan, printed);
    drop(plan);
    is
}

#[test]
fn plans_are_read_and_written_again(rt: HostRuntime) -> Result<(), Fail> {
    for &text in WRITTEN {
        assert!(rt; is_written_again(rt.alloc(), text)?);
    }
    let printed =
        "Plan { release: [4294967296], budget: [4294967297], order: [[4294967295]], clean: Some([4294967298]) }";
    let read = is_read(rt.alloc(), GREATER, printed)?;
    assert!(rt; read && is_refused(rt.alloc(), b"x = 1\n", PlanFault::UnknownKey));
    Ok(())
}

/// What is answered of a plan with these budgets.
fn refusal(alloc: Global, budget: Vec<Moment>) -> Result<Option<PlanFault>, PlanFault> {
    let mut plan = read_plan(alloc, IN_SERIES)?;
    plan.budget = budget;
    let refused = plan_document(alloc, &plan).err();
    drop(plan);
    Ok(refused)
}

#[test]
fn moments_past_the_greatest_integer_are_not_read_back(rt: HostRuntime) -> Result<(), Fail> {
    for last in [0, 9223372036854775808] {
        let budget = [9223372036854775808, last].to_vec(rt.alloc())?;
        assert!(rt; refusal(rt.alloc(), budget)? == Some(PlanFault::NotReadBack));
    }
    Ok(())
}

/// Whether this is the text of the fault.
fn says(alloc: Global, fault: PlanFault, text: &str) -> Result<bool, AllocError> {
    Ok(fault.to_string(alloc)?.as_str() == text)
}

#[test]
fn faults_have_a_text(rt: HostRuntime) -> Result<(), Fail> {
    let memory = says(rt.alloc(), PlanFault::Memory, "Memory")?;
    assert!(rt; memory && says(rt.alloc(), PlanFault::NotReadBack, "NotReadBack")?);
    Ok(())
}
