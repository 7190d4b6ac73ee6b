//! The lines of plans whose shape has a fault.

ghost use Rattle.std.specs.Prelude.{◌≡◌, ◌++◌, IfOk, OnOk, codes};
ghost use Rattle.command_answers.specs.Shapes.{IsLineOfFault, one_fact, shape_fault_words, two_facts};

use crate::answer::{Answer, REFUSED};
use crate::lines::push_fact;
use shop_base::{MachineNo, ShapeFault};
use std::alloc::{AllocError, Global};

/// The line of a fault of a plan's shape, after these words.
pub(crate) fn fault_answer(
    alloc: Global,
    what: &[u8],
    fault: ShapeFault,
) -> Result<Answer, AllocError>
    ensures { IfOk result (IsLineOfFault what.now fault) }
{
    let (mut text, status) = (Vec::new(alloc), REFUSED);
    text.extend_from_slice(what)?;
    push_shape_fault(&mut text, fault)?;
    text.push(b'\n')?;
    Ok(Answer { text, status })
}

/// The line of numbers that are too few, too many or over a limit, with their first fault.
pub(crate) fn bad_numbers_answer(alloc: Global, fault: ShapeFault) -> Result<Answer, AllocError>
    ensures { IfOk result (IsLineOfFault (codes "bad numbers ") fault) }
{
    fault_answer(alloc, b"bad numbers ", fault)
}

/// Adds the words of the fault.
fn push_shape_fault(text: &mut Vec<u8>, fault: ShapeFault) -> Result<(), AllocError>
    ensures { OnOk result (text.new.items ≡ text.old.items ++ shape_fault_words fault) }
{
    match fault {
        ShapeFault::ReleaseCount => push_word(text, b"ReleaseCount"),
        ShapeFault::BudgetCount => push_word(text, b"BudgetCount"),
        ShapeFault::OrderCount => push_word(text, b"OrderCount"),
        ShapeFault::CleanCount => push_word(text, b"CleanCount"),
        ShapeFault::ReleaseTooLarge { job } => push_one_fact(text, b"ReleaseTooLarge job ", job),
        ShapeFault::BudgetTooLarge { job } => push_one_fact(text, b"BudgetTooLarge job ", job),
        ShapeFault::CleanTooLarge { machine } => {
            push_one_fact(text, b"CleanTooLarge machine ", machine)
        }
        ShapeFault::JobOutOfRange { machine, place } => {
            push_place(text, b"JobOutOfRange machine ", machine, place)
        }
        ShapeFault::NotOnRoute { machine, place } => {
            push_place(text, b"NotOnRoute machine ", machine, place)
        }
        ShapeFault::JobTwice { machine, place } => {
            push_place(text, b"JobTwice machine ", machine, place)
        }
        ShapeFault::JobMissing { machine, job } => push_two_facts(
            text,
            b"JobMissing machine ",
            machine,
            b" job ",
            u64::from(job),
        ),
    }
}

/// Adds the word.
fn push_word(text: &mut Vec<u8>, word: &[u8]) -> Result<(), AllocError>
    ensures { OnOk result (text.new.items ≡ text.old.items ++ word.now) }
{
    text.extend_from_slice(word)?;
    Ok(())
}

/// Adds the word, and after it the number of a job or a machine.
fn push_one_fact(text: &mut Vec<u8>, word: &[u8], number: u32) -> Result<(), AllocError>
    ensures { OnOk result (text.new.items ≡ text.old.items ++ one_fact word.now number) }
{
    push_fact(text, word, u64::from(number))
}

/// Adds the word, the machine, and a place of its order.
fn push_place(
    text: &mut Vec<u8>,
    word: &[u8],
    machine: MachineNo,
    place: usize,
) -> Result<(), AllocError>
    ensures { OnOk result (text.new.items ≡ text.old.items ++ two_facts word.now machine (codes " place ") place) }
{
    push_two_facts(text, word, machine, b" place ", place as u64)
}

/// Adds the word and the machine, and after them another word and number.
fn push_two_facts(
    text: &mut Vec<u8>,
    word: &[u8],
    machine: MachineNo,
    next: &[u8],
    other: u64,
) -> Result<(), AllocError>
    ensures { OnOk result (text.new.items ≡ text.old.items ++ two_facts word.now machine next.now other) }
{
    push_fact(text, word, u64::from(machine))?;
    push_fact(text, next, other)
}
