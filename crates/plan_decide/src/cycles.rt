//! Whether any plan is without a cycle.

ghost use Rattle.std.specs.Prelude.{◌≡◌, IfOk, IsTrue, true, false};
ghost use Rattle.alt_graph.specs.Solved.{HasCycle};
ghost use Rattle.plan_verifier.specs.Accepted.{HasNoCycle};
ghost use Rattle.plan_decide.specs.Settings.{case_in};
ghost use Rattle.plan_decide.specs.Found.{IsAcyclic, is_unfound};

use crate::asked::{Asked, limits_for};
use crate::asker::{Asker, Watch};
use crate::keeping::keeps;
use crate::setting::Setting;
use alt_graph::Solved;
use arc_choice::Choose;
use cell_tables::Rest;
use plan_limits::LimitsAnswer;
use plan_verifier::earliest_moments;
use shop_base::Planned;
use std::alloc::{AllocError, Global};

/// What is found of plans without a cycle.
#[derive(Clone, Copy)]
pub(crate) enum Acyclic {
    /// There is none.
    Never,
    /// There is one.
    Found,
    /// That isn't decided.
    Open,
}

/// Whether none is found.
pub(crate) fn is_unfound(acyclic: Acyclic) -> bool
    ensures { result ≡ is_unfound acyclic }
{
    match acyclic {
        Acyclic::Found => false,
        Acyclic::Never => true,
        Acyclic::Open => true,
    }
}

/// Asks for a plan without a cycle: for the given one, and where it has one, for any.
pub(crate) fn ask_acyclic<P: Planned, C: Choose, W: Watch>(
    alloc: Global,
    setting: &Setting<'_, P>,
    asker: &mut Asker<'_, C, W>,
) -> Result<Acyclic, AllocError>
    ensures is { IfOk result (IsAcyclic (case_in setting.now)) }
    ensures given { IfOk result (λ acyclic. is_unfound acyclic ≡ true → HasCycle setting.now.plan) }
{
    let is_found = is_acyclic(alloc, setting.rest())?;
    if is_found {
        return Ok(Acyclic::Found);
    }
    ask_any_acyclic(alloc, setting, asker)
}

/// Asks for any plan without a cycle, by a search in which nobody's promise is asked for.
fn ask_any_acyclic<P: Planned, C: Choose, W: Watch>(
    alloc: Global,
    setting: &Setting<'_, P>,
    asker: &mut Asker<'_, C, W>,
) -> Result<Acyclic, AllocError>
    ensures { IfOk result (IsAcyclic (case_in setting.now)) }
{
    let limits = limits_for(alloc, setting, Asked::Nobody)?;
    match asker.ask_limits(alloc, setting, &limits)? {
        LimitsAnswer::Never => Ok(Acyclic::Never),
        LimitsAnswer::Open => Ok(Acyclic::Open),
        LimitsAnswer::Orders(order) => {
            if keeps(alloc, setting, &limits, order)? {
                Ok(Acyclic::Found)
            } else {
                Ok(Acyclic::Open)
            }
        }
    }
}

/// Whether the plan of the rest has no cycle.
fn is_acyclic<P: Planned>(alloc: Global, rest: &Rest<P>) -> Result<bool, AllocError>
    ensures none { IfOk result (λ is. IsTrue is → HasNoCycle rest.now.plan) }
    ensures some { IfOk result (λ is. is ≡ false → HasCycle rest.now.plan) }
{
    match earliest_moments(alloc, rest)? {
        Solved::Ordered(times) => {
            drop(times);
            Ok(true)
        }
        Solved::Cyclic(nodes) => {
            drop(nodes);
            Ok(false)
        }
    }
}
