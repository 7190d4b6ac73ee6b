//! The text of an instance.

ghost use Rattle.std.specs.Prelude.{◌≡◌, ◌++◌, Err, IfOk, OnOk, IfErr, MatchBool, decimal};
ghost use Rattle.orlib_read.specs.Instance.{IsInstance};
ghost use Rattle.orlib_read.specs.Lines.{instance_lines, written_description, description_line, sizes_line, step_text};
ghost use Rattle.orlib_read.specs.Lines.{more_steps, job_line, job_lines};

use crate::compare::{is_same, route_of};
use crate::or_fault::OrFault;
use crate::readers::read_instance;
use itoa::Buffer;
use shop_base::{Shop, Step};
use std::alloc::{AllocError, Global};
use thiserror::Error;

/// Why an instance isn't written.
#[derive(Clone, Copy, Debug, PartialEq, Eq, Error)]
pub enum NotWritten {
    /// The text would be read as another instance, or as none.
    #[error("NotReadBack")]
    NotReadBack,
    /// Out of memory.
    #[error("Memory")]
    Memory,
}

impl From<AllocError> for NotWritten {
    ghost use Rattle.std.specs.Prelude.{◌≡◌};
    ghost use Rattle.orlib_read.specs.declared.document.NotWritten.TheVariants.{Memory};

    ghost from_gives = { λ _ fault. fault ≡ Memory };

    fn from(_error: AllocError) -> NotWritten {
        NotWritten::Memory
    }
}

/// Writes an instance: a line for the description where it has bytes, the sizes, and a line per job with machine and
/// nominal time by turns, one blank between. In a shop with recirculation the sizes have the word `recrc` behind them,
/// and a description that is empty is `recirculation`.
///
/// The text is read again, and returned only if that gives the same description and shop. It doesn't for some
/// descriptions: one that ends in a carriage return, has a line feed in it, or is a line of another kind.
pub fn instance_document(
    alloc: Global,
    description: &[u8],
    shop: &Shop,
) -> Result<Vec<u8>, NotWritten>
    // The text is the instance's lines, and they are read as this instance.
    ensures lines { IfOk result (λ text. text.items ≡ instance_lines description.now shop.now) }
    ensures read_back { OnOk result
        (IsInstance (instance_lines description.now shop.now) (written_description description.now shop.now) shop.now) }

    // A refusal says that they aren't, or that memory ran out.
    ensures not_read_back { result ≡ Err NotWritten.NotReadBack
        → IsInstance (instance_lines description.now shop.now) (written_description description.now shop.now) shop.now → ⊥ }
{
    let text = instance_lines(alloc, description, shop)?;
    if is_read_back(alloc, &text, written_description(description, shop), shop)? {
        Ok(text)
    } else {
        Err(NotWritten::NotReadBack)
    }
}

/// Whether a text is read as this instance.
fn is_read_back(
    alloc: Global,
    text: &[u8],
    description: &[u8],
    shop: &Shop,
) -> Result<bool, NotWritten>
    ensures decided { let is = IsInstance text.now description.now shop.now in
        IfOk result (λ same. MatchBool same is (is → ⊥)) }
    ensures memory { IfErr result (λ fault. fault ≡ NotWritten.Memory) }
{
    match read_instance(alloc, text) {
        Ok(named) => Ok(is_same(&named, description, shop)),
        Err(fault) => match fault {
            OrFault::Memory => Err(NotWritten::Memory),
            _ => Ok(false),
        },
    }
}

/// The lines of an instance: the text of [`instance_document`], whether it is read back as the instance or not.
pub fn instance_lines(alloc: Global, description: &[u8], shop: &Shop) -> Result<Vec<u8>, AllocError>
    ensures { IfOk result (λ text. text.items ≡ instance_lines description.now shop.now) }
{
    let mut text = Vec::new(alloc);
    push_lines(&mut text, description, shop)?;
    Ok(text)
}

fn push_lines(text: &mut Vec<u8>, description: &[u8], shop: &Shop) -> Result<(), AllocError>
    ensures { OnOk result (text.new.items ≡ text.old.items ++ instance_lines description.now shop.now) }
{
    push_description(text, written_description(description, shop))?;
    push_number(text, u64::from(shop.jobs()))?;
    text.push(b' ')?;
    push_number(text, u64::from(shop.machines()))?;
    let end = if shop.recirculates() {
        b" recrc\n".as_slice()
    } else {
        b"\n".as_slice()
    };
    text.extend_from_slice(end)?;
    push_jobs(text, shop)
}

/// The description that is written: one that is empty is `recirculation` in a shop with recirculation, whose size line
/// has to stand behind a description.
fn written_description<'a>(description: &'a [u8], shop: &Shop) -> &'a [u8]
    ensures { result.now ≡ written_description description.now shop.now }
{
    if description.is_empty() && shop.recirculates() {
        b"recirculation"
    } else {
        description
    }
}

fn push_description(text: &mut Vec<u8>, description: &[u8]) -> Result<(), AllocError>
    ensures { OnOk result (text.new.items ≡ text.old.items ++ description_line description.now) }
{
    if description.is_empty() {
        return Ok(());
    }
    text.extend_from_slice(description)?;
    text.push(b'\n')?;
    Ok(())
}

fn push_jobs(text: &mut Vec<u8>, shop: &Shop) -> Result<(), AllocError>
    ensures { OnOk result (text.new.items ≡ text.old.items ++ job_lines shop.now.routes) }
{
    for job in 0..shop.jobs() {
        let route = route_of(shop, job);
        push_job(text, route)?;
    }
    Ok(())
}

fn push_job(text: &mut Vec<u8>, route: &[Step]) -> Result<(), AllocError>
    ensures { OnOk result (text.new.items ≡ text.old.items ++ job_line route.now) }
{
    if let [first, rest @ ..] = route {
        push_step(text, *first)?;
        push_more_steps(text, rest)?;
    }
    text.push(b'\n')?;
    Ok(())
}

fn push_more_steps(text: &mut Vec<u8>, steps: &[Step]) -> Result<(), AllocError>
    ensures { OnOk result (text.new.items ≡ text.old.items ++ more_steps steps.now) }
{
    for step in steps {
        text.push(b' ')?;
        push_step(text, *step)?;
    }
    Ok(())
}

fn push_step(text: &mut Vec<u8>, step: Step) -> Result<(), AllocError>
    ensures { OnOk result (text.new.items ≡ text.old.items ++ step_text step) }
{
    push_number(text, u64::from(step.machine))?;
    text.push(b' ')?;
    push_number(text, step.nominal)
}

fn push_number(text: &mut Vec<u8>, number: u64) -> Result<(), AllocError>
    ensures { OnOk result (text.new.items ≡ text.old.items ++ decimal number) }
{
    let mut digits = Buffer::new();
    text.extend_from_slice(digits.format(number).as_bytes())
}
