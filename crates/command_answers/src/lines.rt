//! The texts of answers.

ghost use Rattle.std.specs.Prelude.{◌≡◌, ◌++◌, IfOk, OnOk, codes, decimal};
ghost use Rattle.command_answers.specs.Documents.{IsDocumentAnswer, IsHeadedAnswer};
ghost use Rattle.command_answers.specs.LogLines.{log_refused_line};

use crate::answer::{Answer, Answered, REFUSED};
use plan_text::plan_document;
use shop_base::Plan;
use std::alloc::{AllocError, Global};

/// Adds the word, and after it the number in decimal.
pub(crate) fn push_fact(text: &mut Vec<u8>, word: &[u8], number: u64) -> Result<(), AllocError>
    ensures { OnOk result (text.new.items ≡ text.old.items ++ word.now ++ decimal number) }
{
    let mut digits = itoa::Buffer::new();
    text.extend_from_slice(word)?;
    text.extend_from_slice(digits.format(number).as_bytes())?;
    Ok(())
}

/// The text of a plan, with this status.
pub(crate) fn document_answer(alloc: Global, plan: &Plan, status: u8) -> Answered
    ensures { IsDocumentAnswer plan.now status result }
{
    let text = plan_document(alloc, plan)?.into_bytes();
    Ok(Answer { text, status })
}

/// A line and the text of a plan behind it, with this status.
pub(crate) fn headed_answer(alloc: Global, line: &[u8], plan: &Plan, status: u8) -> Answered
    ensures { IsHeadedAnswer line.now plan.now status result }
{
    let document = document_answer(alloc, plan, status)?;
    let mut answer = line_answer(alloc, line, status)?;
    answer.text.extend_from_slice(&document.text)?;
    Ok(answer)
}

/// A line, with this status.
pub(crate) fn line_answer(alloc: Global, line: &[u8], status: u8) -> Result<Answer, AllocError>
    ensures { IfOk result (λ answer. (answer.text.items ≡ line.now) × (answer.status ≡ status)) }
{
    let mut text = Vec::new(alloc);
    text.extend_from_slice(line)?;
    Ok(Answer { text, status })
}

/// The line of a log that is refused: the number of its first bad line, and the name of the fault.
pub fn log_refused(alloc: Global, line: u64, name: &str) -> Result<Answer, AllocError>
    ensures { IfOk result (λ answer. (answer.text.items ≡ log_refused_line line name.now) × (answer.status ≡ 1)) }
{
    let (mut text, status) = (Vec::new(alloc), REFUSED);
    push_fact(&mut text, b"log refused ", line)?;
    text.push(b' ')?;
    text.extend_from_slice(name.as_bytes())?;
    text.push(b'\n')?;
    Ok(Answer { text, status })
}
