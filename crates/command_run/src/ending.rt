//! How the program ends.

ghost use Rattle.std.specs.Prelude.{◌≡◌, IfOk, IfErr};
ghost use Rattle.command_run.specs.Streams.{Output, errors_of, output_of};
ghost use Rattle.command_run.specs.Ending.{WasPrinted, IsRefusalLine, IsErrorLine, IsTextRefusal, IsTextLine};
ghost use Rattle.command_run.specs.Ending.{IsFaultPrinted, IsPrinted, Ends, EndsAside};

use crate::devices::Streams;
use cell_drive::{BufferedSink, Source};
use command_answers::{Answer, Answered, CommandFault, CommandResult};
use run_log::{Sink, put_all};
use std::alloc::{AllocError, Global};

/// Prints the answer or the fault, and returns the status that the program ends with.
pub(crate) fn end<R: Source, W: BufferedSink, E: Sink>(
    alloc: Global,
    outcome: Answered,
    streams: &mut Streams<R, W>,
    errors: &mut E,
) -> u8
    ensures ends { Ends outcome streams.old.output streams.new.output (errors_of E.Sink errors.old)
        (errors_of E.Sink errors.new) result }
    ensures input { streams.new.input ≡ streams.old.input }
{
    match outcome {
        Ok(answer) => {
            let printed = print(&answer, &mut streams.output);
            drop(answer);
            match printed {
                Ok(status) => status,
                Err(fault) => print_fault(alloc, &fault, errors),
            }
        }
        Err(fault) => print_fault(alloc, &fault, errors),
    }
}

/// The same where a picture is asked for: what is answered in its place is printed on the standard error.
pub(crate) fn end_aside<E: Sink>(alloc: Global, outcome: Answered, errors: &mut E) -> u8
    ensures { (output : Output)
        → EndsAside outcome output output (errors_of E.Sink errors.old) (errors_of E.Sink errors.new) result }
{
    match outcome {
        Ok(answer) => print_line(errors, &answer.text, answer.status),
        Err(fault) => print_fault(alloc, &fault, errors),
    }
}

/// Prints an answer, and shows it.
fn print<W: BufferedSink>(answer: &Answer, output: &mut W) -> CommandResult<u8>
    ensures { IsPrinted answer.now (output_of W.Sink W.pending output.old)
        (output_of W.Sink W.pending output.new) result }
{
    match put_all(output, &answer.text) {
        Ok(()) => match output.flush() {
            Ok(()) => Ok(answer.status),
            Err(_) => Err(CommandFault::Write),
        },
        Err(_) => Err(CommandFault::Write),
    }
}

/// Says on the standard error why there is no answer, and returns the status that the program ends with. If that can't
/// be written, nothing is left to do. If memory runs out for the line of a refused text, it says that instead.
pub fn print_fault<E: Sink>(alloc: Global, fault: &CommandFault, errors: &mut E) -> u8
    ensures { IsFaultPrinted fault.now (errors_of E.Sink errors.old) (errors_of E.Sink errors.new) result }
{
    match text_line(alloc, fault) {
        Ok(line) => print_line(errors, error_line(fault, &line), fault.status()),
        Err(error) => {
            let no_memory = CommandFault::from(error);
            print_line(errors, error_line(&no_memory, b""), no_memory.status())
        }
    }
}

/// The line of a refused text. For another fault it is empty, and takes no memory.
fn text_line(alloc: Global, fault: &CommandFault) -> Result<Vec<u8>, AllocError>
    ensures line { IfOk result (λ line. IsTextLine fault.now line.items) }
    ensures no_memory { IfErr result (λ _. IsTextRefusal fault.now) }
{
    match fault {
        CommandFault::Instance(fault) => {
            refusal_line(alloc, b"cellplan: instance: ", fault.to_string(alloc))
        }
        CommandFault::Plan(fault) => {
            refusal_line(alloc, b"cellplan: plan: ", fault.to_string(alloc))
        }
        CommandFault::Names(fault) => {
            refusal_line(alloc, b"cellplan: names: ", fault.to_string(alloc))
        }
        _ => Ok(Vec::new(alloc)),
    }
}

/// A line: what is refused, and the words that say why.
fn refusal_line(
    alloc: Global,
    what: &[u8],
    words: Result<String, AllocError>,
) -> Result<Vec<u8>, AllocError>
    ensures { IfOk result (λ line. IsRefusalLine what.now line.items) }
{
    let words = words?;
    let mut line = Vec::new(alloc);
    line.extend_from_slice(what)?;
    line.extend_from_slice(words.as_bytes())?;
    line.push(b'\n')?;
    Ok(line)
}

/// What is said of a fault. The line is a refused text's.
fn error_line<'a>(fault: &CommandFault, line: &'a [u8]) -> &'a [u8]
    requires { IsTextLine fault.now line.now }
    ensures { IsErrorLine fault.now result.now }
{
    match fault {
        CommandFault::Instance(_) | CommandFault::Plan(_) | CommandFault::Names(_) => line,
        CommandFault::Read => b"cellplan: read\n",
        CommandFault::Write => b"cellplan: write\n",
        CommandFault::InputTooLong => b"cellplan: input too long\n",
        CommandFault::Log => b"cellplan: log\n",
        CommandFault::LogInUse => b"cellplan: log in use\n",
        CommandFault::Memory => b"cellplan: out of memory\n",
    }
}

/// Writes as much of a line as can be written, and gives the status.
pub(crate) fn print_line<E: Sink>(errors: &mut E, line: &[u8], status: u8) -> u8
    ensures printed { WasPrinted line.now (errors_of E.Sink errors.old) (errors_of E.Sink errors.new) }
    ensures status { result ≡ status }
{
    let _ = put_all(errors, line);
    status
}
