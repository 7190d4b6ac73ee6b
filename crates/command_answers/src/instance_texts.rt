//! The text of an instance as an answer.

ghost use Rattle.std.specs.Prelude.{[]};
ghost use Rattle.command_answers.specs.InstanceTexts.{IsInstanceAnswer};

use crate::answer::{Answer, Answered, GOOD};
use crate::command_fault::CommandFault;
use orlib_read::{NotWritten, instance_document};
use shop_base::Shop;
use std::alloc::Global;

/// The text of an instance, without its description where that isn't read back.
pub(crate) fn instance_answer(alloc: Global, description: &[u8], shop: &Shop) -> Answered
    ensures { IsInstanceAnswer description.now shop.now result }
{
    match instance_document(alloc, description, shop) {
        Ok(text) => Ok(Answer { text, status: GOOD }),
        Err(NotWritten::NotReadBack) => undescribed_answer(alloc, shop),
        Err(fault) => Err(CommandFault::from(fault)),
    }
}

/// The text of an instance without a description.
fn undescribed_answer(alloc: Global, shop: &Shop) -> Answered
    ensures { IsInstanceAnswer [] shop.now result }
{
    match instance_document(alloc, b"", shop) {
        Ok(text) => Ok(Answer { text, status: GOOD }),
        Err(fault) => Err(CommandFault::from(fault)),
    }
}
