//! The readers of instance texts.

ghost use Rattle.std.specs.Prelude.{◌≡◌, ◌≢◌, ◌⊎◌, Result, IfOk, IfErr, OnOk};
ghost use Rattle.shop_base.specs.Shop.{IsShop};
ghost use Rattle.shop_base.specs.Vectors.{lists_of};
ghost use Rattle.orlib_read.specs.declared.or_fault.OrFault.{OrFault};
ghost use Rattle.orlib_read.specs.Kinds.{unfilled_lines, first_line, IsJobLine};
ghost use Rattle.orlib_read.specs.Instance.{IsInstance, IsInstanceOf};
ghost use Rattle.orlib_read.specs.Faults.{IsInstanceFault, IsInstanceOfFault, IsOddLine, IsWordLine};
ghost use Rattle.orlib_read.specs.Answers.{ReadsEach, ReadsRoute, IsRefusedInstance, Answers};
ghost use Rattle.orlib_read.specs.Reading.{Content, Gives, instance_at, section_at};
ghost use Rattle.orlib_read.specs.Views.{content_of, IsShopFault};

use crate::lines::{Line, Lines};
use crate::named::{Draft, Named};
use crate::or_fault::OrFault;
use crate::reading::{read_draft, route_of};
use shop_base::{Shop, Step};
use std::alloc::Global;

/// Reads one instance: a description, if there is one, the size line, and a line per job. Behind a description the size
/// line may have the word `recrc`: a job of the shop may visit a machine again.
///
/// Lines of `+` signs alone and lines without words are skipped everywhere, instance lines only before the first
/// other line.
pub fn read_instance(alloc: Global, text: &[u8]) -> Result<Named, OrFault>
    // What is read is the text's instance, and the text's instance is read.
    ensures found { IfOk result (λ named. IsInstance text.now named.description.items named.shop) }
    ensures only { ReadsEach result (IsInstance text.now) }

    // A fault is what is wrong first, and what is wrong first is the fault.
    ensures fault { IfErr result (λ fault. fault ≢ OrFault.Memory → IsInstanceFault text.now fault) }
    ensures first { (fault : OrFault) → IsInstanceFault text.now fault → IsRefusedInstance result fault }
{
    named(alloc, instance_draft(alloc, text))
}

/// Reads one instance of a collection: the lines between the first instance line of this name and the next instance
/// line. What comes before them, or after the last job line, isn't read.
pub fn read_from_collection(alloc: Global, text: &[u8], name: &[u8]) -> Result<Named, OrFault>
    // What is read is the instance of that name, and the instance of that name is read.
    ensures found { IfOk result (λ named. IsInstanceOf text.now name.now named.description.items named.shop) }
    ensures only { ReadsEach result (IsInstanceOf text.now name.now) }

    // A fault is what is wrong first, and what is wrong first is the fault.
    ensures fault { IfErr result (λ fault. fault ≢ OrFault.Memory → IsInstanceOfFault text.now name.now fault) }
    ensures first { (fault : OrFault) → IsInstanceOfFault text.now name.now fault → IsRefusedInstance result fault }
{
    named(alloc, section_draft(alloc, text, name))
}

/// Reads the route on a job's line: pairs of machine and nominal time. The line's number is assumed to be 1.
pub fn read_route(alloc: Global, line: &[u8]) -> Result<Vec<Step>, OrFault>
    // What is read is the line's route, and the line's route is read.
    ensures found { IfOk result (λ route. IsJobLine (first_line line.now) route.items) }
    ensures only { ReadsRoute result (IsJobLine (first_line line.now)) }

    // A fault is what is wrong first.
    ensures fault { IfErr result (λ fault.
        fault ≢ OrFault.Memory → IsOddLine (first_line line.now) fault ⊎ IsWordLine (first_line line.now) fault) }
{
    route_of(
        alloc,
        Line {
            number: 1,
            bytes: line,
        },
    )
}

#[tactic(auto, unfolding(crate::specs::Reading::instance_at))]
fn instance_draft(alloc: Global, text: &[u8]) -> Result<Draft<'_>, OrFault>
    ensures { Gives content_of result (instance_at (unfilled_lines text.now)) }
{
    let (draft, lines) = read_draft(alloc, Lines::of(text))?;
    if let Some((line, _)) = lines.next_unfilled() {
        return Err(OrFault::Extra { line: line.number });
    }
    Ok(draft)
}

#[tactic(auto, unfolding(crate::specs::Reading::section_at))]
fn section_draft<'a>(alloc: Global, text: &'a [u8], name: &[u8]) -> Result<Draft<'a>, OrFault>
    ensures { Gives content_of result (section_at name.now (unfilled_lines text.now)) }
{
    let Some(lines) = Lines::of_section(text, name) else {
        return Err(OrFault::NoInstance);
    };
    let (draft, _) = read_draft(alloc, lines)?;
    Ok(draft)
}

fn named(alloc: Global, draft: Result<Draft, OrFault>) -> Result<Named, OrFault>
    ensures { (reading : Result Content OrFault) → Gives content_of draft.entry reading → Answers result reading }
{
    let draft = draft?;
    let shop = shop_with(draft.machines, draft.routes, draft.recirculates)?;
    let description = Vec::from_slice(alloc, draft.description)?;
    Ok(Named { description, shop })
}

fn shop_with(machines: u32, routes: Vec<Vec<Step>>, recirculates: bool) -> Result<Shop, OrFault>
    ensures shop { IfOk result (λ shop. shop ≡ record { machines = machines; routes = lists_of routes.items; recirculates = recirculates }) }
    ensures sound { OnOk result (IsShop (record { machines = machines; routes = lists_of routes.items; recirculates = recirculates })) }
    ensures fault { IfErr result (IsShopFault machines recirculates (lists_of routes.items)) }
{
    Shop::of_kind(machines, routes, recirculates).map_err(OrFault::Shop)
}
