//! Instance and plan texts, read for the commands.

ghost use Rattle.std.specs.Option.{option_copied};
ghost use Rattle.command_answers.specs.Parsed.{IsInstanceRead, IsPlanRead};
ghost use Rattle.command_answers.specs.Commands.{ReadsInstance, ReadsPlan};

use crate::answer::CommandResult;
use crate::texts::Texts;
use orlib_read::{Named, read_from_collection, read_instance};
use plan_text::read_plan;
use shop_base::Plan;
use std::alloc::Global;

/// The instance in the text.
pub(crate) fn load_instance(alloc: Global, text: &[u8], name: Option<&[u8]>) -> CommandResult<Named>
    ensures { IsInstanceRead text.now (option_copied name.entry) result }
{
    match name {
        Some(name) => Ok(read_from_collection(alloc, text, name)?),
        None => Ok(read_instance(alloc, text)?),
    }
}

/// The plan in the text.
pub(crate) fn load_plan(alloc: Global, text: &[u8]) -> CommandResult<Plan>
    ensures { IsPlanRead text.now result }
{
    Ok(read_plan(alloc, text)?)
}

/// The instance in the file of this path.
pub(crate) fn instance<T: Texts>(
    alloc: Global,
    texts: &mut T,
    path: &str,
    name: Option<&[u8]>,
) -> CommandResult<Named>
    ensures { ReadsInstance T.gives path.now (option_copied name.entry) texts.old result texts.new }
{
    let text = texts.text(alloc, path)?;
    load_instance(alloc, &text, name)
}

/// The plan in the file of this path.
pub(crate) fn plan<T: Texts>(alloc: Global, texts: &mut T, path: &str) -> CommandResult<Plan>
    ensures { ReadsPlan T.gives path.now texts.old result texts.new }
{
    let text = texts.text(alloc, path)?;
    load_plan(alloc, &text)
}
