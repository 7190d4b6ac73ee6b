//! An instance and a plan, read and judged.

ghost use Rattle.std.specs.Prelude.{◌≡◌, IsOk};
ghost use Rattle.std.specs.Option.{option_copied};
ghost use Rattle.shop_base.specs.Plan.{IsWellShaped};
ghost use Rattle.command_answers.specs.Parsed.{AreTextsAnswered};
ghost use Rattle.command_answers.specs.Checks.{IsLoaded, accepted_in};
ghost use Rattle.command_answers.specs.Shapes.{IsShapedOrNot};
ghost use Rattle.command_answers.specs.Steps.{IsOrMemory};
ghost use Rattle.command_answers.specs.Commands.{Loads};

use crate::answer::CommandResult;
use crate::command_fault::CommandFault;
use crate::inputs::{InputPaths, ParsedInputs, read_inputs};
use crate::parsing::{load_instance, load_plan};
use crate::texts::Texts;
use plan_verifier::{Verdict, Verified, verify};
use shop_base::{ShapeFault, Shaped};
use std::alloc::Global;

/// Whether a plan is well shaped for an instance, and the verdict on it if it is.
#[derive(Debug, Drop)]
pub enum Loaded {
    /// It isn't well shaped.
    NotShaped(ShapeFault),
    /// It is well shaped, and this is the verdict on it.
    Judged(Verdict),
}

impl Loaded {
    /// The accepted plan; what is to be said of any other comes back.
    pub fn accepted(self) -> Result<Verified, Loaded>
        ensures { result ≡ accepted_in self }
    {
        match self {
            Loaded::Judged(Verdict::Accepted(verified)) => Ok(verified),
            other => Err(other),
        }
    }
}

/// The verdict on a plan for an instance, both given as texts. Without a name the first text is one instance, else a
/// collection with an instance of this name.
pub fn load(
    alloc: Global,
    instance: &[u8],
    name: Option<&[u8]>,
    plan: &[u8],
) -> CommandResult<Loaded>
    ensures { AreTextsAnswered instance.now (option_copied name.entry) plan.now IsLoaded result }
{
    let shop = load_instance(alloc, instance, name)?.shop;
    let plan = load_plan(alloc, plan)?;
    judged(alloc, ParsedInputs { shop, plan })
}

/// The plan for an instance, both given as texts, if it is well shaped, else the first fault of its shape. Without a
/// name the first text is one instance, else a collection with an instance of this name.
pub fn load_shaped(
    alloc: Global,
    instance: &[u8],
    name: Option<&[u8]>,
    plan: &[u8],
) -> CommandResult<Result<Shaped, ShapeFault>>
    ensures { AreTextsAnswered instance.now (option_copied name.entry) plan.now IsShapedOrNot result }
{
    let named = load_instance(alloc, instance, name)?;
    let read = load_plan(alloc, plan)?;
    let parsed = ParsedInputs {
        shop: named.shop,
        plan: read,
    };
    Ok(parsed.shaped())
}

/// The verdict on the plan of a file for the instance of another.
pub fn load_files<T: Texts>(
    alloc: Global,
    texts: &mut T,
    inputs: &InputPaths<'_>,
) -> CommandResult<Loaded>
    ensures { Loads T.gives inputs.now texts.old result texts.new }
{
    let parsed = read_inputs(alloc, texts, inputs)?;
    judged(alloc, parsed)
}

/// The verdict on a plan for a shop.
pub(crate) fn judged(alloc: Global, parsed: ParsedInputs) -> CommandResult<Loaded>
    ensures loaded { IsOrMemory (IsLoaded parsed) result }
    ensures not_shaped { ¬ (IsWellShaped parsed) → IsOk result }
{
    match parsed.shaped() {
        Ok(shaped) => match verify(alloc, shaped) {
            Ok(verdict) => Ok(Loaded::Judged(verdict)),
            Err((error, back)) => {
                drop(back);
                Err(CommandFault::from(error))
            }
        },
        Err(fault) => Ok(Loaded::NotShaped(fault)),
    }
}
