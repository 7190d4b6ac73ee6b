//! The instance and the plan that a command reads first, and its other files.

ghost use Rattle.std.specs.Prelude.{◌≡◌, IfOk, IfErr};
ghost use Rattle.shop_base.specs.Plan.{PlannedShop, IsWellShaped};
ghost use Rattle.shop_base.specs.ShapeFault.{IsFirstShapeFault};
ghost use Rattle.command_answers.specs.Steps.{IsOrMemory};
ghost use Rattle.command_answers.specs.Serial.{serially};
ghost use Rattle.command_answers.specs.Commands.{ReadsBoth, Shapes};

use crate::answer::CommandResult;
use crate::parsing::{instance, plan};
use crate::texts::Texts;
use plan_seek::serial_orders;
use shop_base::{JobNo, Moment, Plan, ShapeFault, Shaped, Shop, shape};
use std::alloc::Global;
use std::marker::Model;

/// The paths of an instance and of a plan for it. Without a name the first holds one instance, else a collection with
/// an instance of this name.
#[derive(Drop)]
pub struct InputPaths<'a> {
    pub instance: &'a str,
    pub name: Option<&'a [u8]>,
    pub plan: &'a str,
}

impl<'a> Model for InputPaths<'a> {
    ghost use Rattle.std.specs.Option.{option_copied};
    ghost use Rattle.command_answers.specs.Commands.{InputPaths};

    ghost Value = { InputPaths };

    ghost view = { λ p. record { path = p.instance.now; name = option_copied p.name; plan = p.plan.now } };
}

/// The files of an instance and of a plan for it, and that of the names for people, if one is given.
#[derive(Drop)]
pub struct Files<'a> {
    pub inputs: InputPaths<'a>,
    pub names: Option<&'a str>,
}

/// The files of a run of which something is asked: those of its plan and of names, and its log, if it has begun; and the
/// present moment, if another one than the log's last is given. Without a log the moment isn't looked at.
#[derive(Drop)]
pub struct RunFiles<'a> {
    pub files: Files<'a>,
    pub log: Option<&'a str>,
    pub at: Option<Moment>,
}

impl<'a> Model for RunFiles<'a> {
    ghost use Rattle.std.specs.Option.{option_copied};
    ghost use Rattle.command_answers.specs.Commands.{RunPaths};

    ghost Value = { RunPaths };

    ghost view = { λ r.
        record { inputs = r.files.inputs; names = option_copied r.files.names; log = option_copied r.log; at = r.at } };
}

/// A shop and a plan for it, as two texts give them.
#[derive(Drop)]
pub(crate) struct ParsedInputs {
    pub shop: Shop,
    pub plan: Plan,
}

impl Model for ParsedInputs {
    ghost use Rattle.shop_base.specs.Plan.{PlannedShop};

    ghost Value = { PlannedShop };

    ghost view = { λ b. record { shop = b.shop; plan = b.plan } };
}

impl ParsedInputs {
    /// The plan, if it is well shaped, else its first fault.
    pub(crate) fn shaped(self) -> Result<Shaped, ShapeFault>
        ensures shaped { IfOk result (λ shaped. (shaped ≡ self) × IsWellShaped self) }
        ensures first_fault { IfErr result (IsFirstShapeFault self) }
    {
        match shape(self.shop, self.plan) {
            Ok(shaped) => Ok(shaped),
            Err(refused) => Err(refused.fault),
        }
    }
}

/// The instance and the plan in the two files.
pub(crate) fn read_inputs<T: Texts>(
    alloc: Global,
    texts: &mut T,
    inputs: &InputPaths<'_>,
) -> CommandResult<ParsedInputs>
    ensures { ReadsBoth T.gives inputs.now texts.old result texts.new }
{
    let shop = instance(alloc, texts, inputs.instance, inputs.name)?.shop;
    let plan = plan(alloc, texts, inputs.plan)?;
    Ok(ParsedInputs { shop, plan })
}

/// The plan of a file, if it is well shaped for the instance of another, else its first fault.
pub fn shape_files<T: Texts>(
    alloc: Global,
    texts: &mut T,
    inputs: &InputPaths<'_>,
) -> CommandResult<Result<Shaped, ShapeFault>>
    ensures { Shapes T.gives inputs.now texts.old result texts.new }
{
    let parsed = read_inputs(alloc, texts, inputs)?;
    Ok(parsed.shaped())
}

/// The serial plan with the numbers of this one, whose orders are dropped.
pub(crate) fn serially(alloc: Global, parsed: ParsedInputs) -> CommandResult<ParsedInputs>
    ensures { IsOrMemory (λ serial. serial ≡ serially parsed) result }
{
    let (serial, order) = serially_beside(alloc, parsed)?;
    drop(order);
    Ok(serial)
}

/// The serial plan with the numbers of this one, and the orders that this one has.
pub(crate) fn serially_beside(
    alloc: Global,
    parsed: ParsedInputs,
) -> CommandResult<(ParsedInputs, Vec<Vec<JobNo>>)>
    ensures { IsOrMemory (λ both. both.0 ≡ serially parsed) result }
{
    let ParsedInputs { shop, plan } = parsed;
    let serial = serial_orders(alloc, &shop)?;
    let Plan {
        release,
        budget,
        order,
        clean,
    } = plan;
    let plan = Plan {
        release,
        budget,
        order: serial,
        clean,
    };
    Ok((ParsedInputs { shop, plan }, order))
}
