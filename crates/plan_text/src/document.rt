//! The text of a plan.

ghost use Rattle.std.specs.Prelude.{◌≡◌, ◌⊎◌, ◌++◌, Err, IfOk, OnOk, IfErr, MatchBool, string_bytes};
ghost use Rattle.shop_base.specs.Vectors.{lists_of};
ghost use Rattle.plan_text.specs.Documents.{IsPlanText};
ghost use Rattle.plan_text.specs.Lines.{list_text, after_first, numbers_text, lists_text, key_line};
ghost use Rattle.plan_text.specs.Lines.{three_lines, version_line, plan_lines};

use crate::compare::is_same;
use crate::keys::{PlanKey, VERSION};
use crate::plan_fault::PlanFault;
use crate::read::read_plan;
use itoa::{Buffer, Integer};
use shop_base::{JobNo, Moment, Plan};
use std::alloc::{AllocError, Global};

fn push_number<I: Integer>(text: &mut String, number: I) -> Result<(), AllocError>
    ensures { OnOk result (string_bytes text.new ≡ string_bytes text.old ++ I.text number) }
{
    let mut buffer = Buffer::new();
    text.push_str(buffer.format(number))
}

fn push_more_numbers<I: Integer>(text: &mut String, numbers: &[I]) -> Result<(), AllocError>
    ensures { OnOk result (string_bytes text.new ≡ string_bytes text.old ++ after_first I.text numbers.now) }
{
    for number in numbers {
        text.push_str(", ")?;
        push_number(text, *number)?;
    }
    Ok(())
}

fn push_numbers<I: Integer>(text: &mut String, numbers: &[I]) -> Result<(), AllocError>
    ensures { OnOk result (string_bytes text.new ≡ string_bytes text.old ++ list_text I.text numbers.now) }
{
    let [first, rest @ ..] = numbers else {
        return text.push_str("[]");
    };
    text.push_str("[")?;
    push_number(text, *first)?;
    push_more_numbers(text, rest)?;
    text.push_str("]")
}

fn push_more_rows(text: &mut String, rows: &[Vec<JobNo>]) -> Result<(), AllocError>
    ensures { OnOk result
        (string_bytes text.new ≡ string_bytes text.old ++ after_first numbers_text (lists_of rows.now)) }
{
    for row in rows {
        text.push_str(", ")?;
        push_numbers(text, row.as_slice())?;
    }
    Ok(())
}

fn push_rows(text: &mut String, rows: &[Vec<JobNo>]) -> Result<(), AllocError>
    ensures { OnOk result (string_bytes text.new ≡ string_bytes text.old ++ lists_text (lists_of rows.now)) }
{
    let [first, rest @ ..] = rows else {
        return text.push_str("[]");
    };
    text.push_str("[")?;
    push_numbers(text, first.as_slice())?;
    push_more_rows(text, rest)?;
    text.push_str("]")
}

fn push_line(text: &mut String, key: PlanKey, numbers: &[Moment]) -> Result<(), AllocError>
    ensures { OnOk result (string_bytes text.new ≡ string_bytes text.old ++ key_line key (numbers_text numbers.now)) }
{
    text.push_str(key.name())?;
    text.push_str(" = ")?;
    push_numbers(text, numbers)?;
    text.push_str("\n")
}

fn push_order_line(text: &mut String, rows: &[Vec<JobNo>]) -> Result<(), AllocError>
    ensures { OnOk result
        (string_bytes text.new ≡ string_bytes text.old ++ key_line PlanKey.Order (lists_text (lists_of rows.now))) }
{
    text.push_str(PlanKey::Order.name())?;
    text.push_str(" = ")?;
    push_rows(text, rows)?;
    text.push_str("\n")
}

/// The three lines of every plan.
fn push_three_lines(text: &mut String, plan: &Plan) -> Result<(), AllocError>
    ensures { OnOk result (string_bytes text.new ≡ string_bytes text.old ++ three_lines plan.now) }
{
    push_line(text, PlanKey::Release, &plan.release)?;
    push_line(text, PlanKey::Budget, &plan.budget)?;
    push_order_line(text, &plan.order)
}

/// The line of version 2, the version of plans with cleaning.
fn push_version(text: &mut String) -> Result<(), AllocError>
    ensures { OnOk result (string_bytes text.new ≡ string_bytes text.old ++ version_line) }
{
    text.push_str(VERSION)?;
    text.push_str(" = 2\n")
}

/// The lines of a plan: the text of [`plan_document`], whether it is read back as the plan or not.
pub fn plan_lines(alloc: Global, plan: &Plan) -> Result<String, AllocError>
    ensures { IfOk result (λ text. string_bytes text ≡ plan_lines plan.now) }
{
    let mut text = String::new(alloc);
    let Some(times) = &plan.clean else {
        push_three_lines(&mut text, plan)?;
        return Ok(text);
    };
    push_version(&mut text)?;
    push_three_lines(&mut text, plan)?;
    push_line(&mut text, PlanKey::Clean, times)?;
    Ok(text)
}

/// Writes a plan as the text of a TOML document, in three lines, or five for a plan with cleaning.
///
/// The text is read again, and returned only if that gives the same plan. It doesn't if a moment is greater than TOML's
/// greatest integer.
pub fn plan_document(alloc: Global, plan: &Plan) -> Result<String, PlanFault>
    // The text is the plan's lines, and they are read as this plan.
    ensures lines { IfOk result (λ text. string_bytes text ≡ plan_lines plan.now) }
    ensures read_back { OnOk result (IsPlanText (plan_lines plan.now) plan.now) }

    // A refusal says that they aren't, or that memory ran out.
    ensures not_read_back { result ≡ Err PlanFault.NotReadBack → IsPlanText (plan_lines plan.now) plan.now → ⊥ }
    ensures refusals { IfErr result (λ fault. (fault ≡ PlanFault.NotReadBack) ⊎ (fault ≡ PlanFault.Memory)) }
{
    let text = plan_lines(alloc, plan)?;
    if is_read_back(alloc, text.as_bytes(), plan)? {
        Ok(text)
    } else {
        Err(PlanFault::NotReadBack)
    }
}

/// Whether a text is read as this plan.
fn is_read_back(alloc: Global, text: &[u8], plan: &Plan) -> Result<bool, PlanFault>
    ensures decided { IfOk result
        (λ same. MatchBool same (IsPlanText text.now plan.now) (IsPlanText text.now plan.now → ⊥)) }
    ensures memory { IfErr result (λ fault. fault ≡ PlanFault.Memory) }
{
    match read_plan(alloc, text) {
        Ok(back) => Ok(is_same(&back, plan)),
        Err(fault) => match fault {
            PlanFault::Memory => Err(fault),
            _ => Ok(false),
        },
    }
}
