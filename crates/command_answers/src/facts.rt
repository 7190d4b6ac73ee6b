//! The command `facts`.

ghost use Rattle.std.specs.Prelude.{◌≡◌, IfOk};
ghost use Rattle.std.specs.Option.{option_copied};
ghost use Rattle.command_answers.specs.Facts.{facts_line};
ghost use Rattle.command_answers.specs.Parsed.{AreFactsAnswered};
ghost use Rattle.command_answers.specs.Commands.{RunsFacts};

use crate::answer::{Answer, Answered, GOOD};
use crate::lines::push_fact;
use crate::parsing::load_instance;
use crate::texts::Texts;
use shop_base::Shop;
use std::alloc::{AllocError, Global};

/// The facts of an instance that is given as a text: how many jobs, machines, operations and reports there are, and the
/// work, which is the sum of the nominal times. Without a name the text is one instance, else a collection with an
/// instance of this name.
pub fn facts_of(alloc: Global, text: &[u8], name: Option<&[u8]>) -> Answered
    ensures { AreFactsAnswered text.now (option_copied name.entry) result }
{
    let named = load_instance(alloc, text, name)?;
    let text = facts_text(alloc, &named.shop)?;
    Ok(Answer { text, status: GOOD })
}

/// The facts of the instance in the file of this path.
pub fn facts_answer<T: Texts>(
    alloc: Global,
    texts: &mut T,
    path: &str,
    name: Option<&[u8]>,
) -> Answered
    ensures { RunsFacts T.gives path.now (option_copied name.entry) texts.old result texts.new }
{
    let text = texts.text(alloc, path)?;
    facts_of(alloc, &text, name)
}

fn facts_text(alloc: Global, shop: &Shop) -> Result<Vec<u8>, AllocError>
    ensures { IfOk result (λ text. text.items ≡ facts_line shop.now) }
{
    let jobs = u64::from(shop.jobs());
    let mut text = Vec::new(alloc);
    push_fact(&mut text, b"jobs ", jobs)?;
    push_fact(&mut text, b" machines ", u64::from(shop.machines()))?;
    push_fact(&mut text, b" operations ", shop.operations())?;
    push_fact(&mut text, b" reports ", jobs + shop.operations())?;
    push_fact(&mut text, b" work ", shop.work())?;
    text.push(b'\n')?;
    Ok(text)
}
