//! Files, read whole.

ghost use Rattle.std.specs.Prelude.{◌≡◌, ◌<◌, ◌≤◌, IfOk, IfErr, IfSome, IsErrAnd, vec_len};
ghost use Rattle.command_answers.specs.declared.command_fault.CommandFault.TheVariants.{InputTooLong};
ghost use Rattle.command_answers.specs.FileFaults.{IsFaultOfSystem};
ghost use Rattle.command_answers.specs.Texts.{AreTooMany, IsFileFault};

use crate::answer::CommandResult;
use crate::command_fault::CommandFault;
use std::alloc::Global;
use std::io::{self, Read};
use text_lines::MAX_INPUT;

/// The bytes that a reader gives until its end. There is room at first for as many as are expected, since room that
/// grows is copied. No clause says what bytes the kit's files have, and a body that always answered `Read` would meet
/// these clauses too: only tests show that what can be read is read.
pub fn read_whole<R: Read + Drop>(alloc: Global, reader: R, expected: u64) -> CommandResult<Vec<u8>>
    ensures within { IfOk result (λ bytes. vec_len bytes ≤ MAX_INPUT) }
    ensures whole { IfOk result (λ bytes. IfSome (R.remaining reader) (λ all. bytes.items ≡ all)) }
    ensures fault { IfErr result IsFileFault }
    ensures too_long { IfErr result (λ fault. fault ≡ InputTooLong → IfSome (R.remaining reader) AreTooMany) }
{
    let room = expected.min(MAX_INPUT as u64) as usize + 1;
    let mut bytes = Vec::with_capacity(alloc, room)?;
    let mut limited = reader.take(MAX_INPUT as u64 + 1);
    let read = limited.read_to_end(&mut bytes);
    whole_of(read, bytes)
}

/// The bytes that were read to the end, or why they can't be had.
fn whole_of(read: io::Result<usize>, bytes: Vec<u8>) -> CommandResult<Vec<u8>>
    ensures within { IfOk read (λ _. vec_len bytes ≤ MAX_INPUT → result ≡ Ok bytes) }
    ensures beyond { IfOk read (λ _. MAX_INPUT < vec_len bytes → result ≡ Err InputTooLong) }
    ensures fault { IfErr read (λ error. IsErrAnd result (IsFaultOfSystem error)) }
{
    match read {
        Ok(_) if bytes.len() > MAX_INPUT => Err(CommandFault::InputTooLong),
        Ok(_) => Ok(bytes),
        Err(error) => Err(CommandFault::from(error)),
    }
}
