//! The command `digest`.

ghost use Rattle.std.specs.Prelude.{◌≡◌, IfOk};
ghost use Rattle.command_answers.specs.Digests.{digest_line};
ghost use Rattle.command_answers.specs.Commands.{RunsDigest};

use crate::answer::{Answer, Answered, GOOD};
use crate::inputs::{InputPaths, shape_files};
use crate::lines::line_answer;
use crate::shapes::unshaped_answer;
use crate::texts::Texts;
use event_lines::put_digits;
use run_log::run_digits;
use shop_base::Shaped;
use std::alloc::{AllocError, Global};
use text_lines::LineText;

/// The bytes of the line.
const ROOM: usize = 44;

/// The digits by which a log knows the plan of a file and the shop of another. A plan that isn't well shaped has its
/// first fault in their place.
pub fn digest_answer<T: Texts>(alloc: Global, texts: &mut T, inputs: &InputPaths<'_>) -> Answered
    ensures { RunsDigest T.gives inputs.now texts.old result texts.new }
{
    match shape_files(alloc, texts, inputs)? {
        Ok(shaped) => {
            let answer = digits_answer(alloc, &shaped);
            drop(shaped);
            Ok(answer?)
        }
        Err(fault) => unshaped_answer(alloc, fault),
    }
}

/// The line of the digits.
fn digits_answer(alloc: Global, shaped: &Shaped) -> Result<Answer, AllocError>
    ensures { IfOk result (λ answer. (answer.text.items ≡ digest_line shaped.now) × (answer.status ≡ 0)) }
{
    let digits = run_digits(alloc, shaped.shop(), shaped.plan())?;
    let mut line = LineText::<ROOM>::ended();
    put_digits(&mut line, &digits);
    line_answer(alloc, line.bytes(), GOOD)
}
