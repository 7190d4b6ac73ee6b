//! The names by which a command prints for people.

ghost use Rattle.std.specs.Prelude.{◌≡◌, IsOkAnd};
ghost use Rattle.std.specs.Option.{option_copied};
ghost use Rattle.command_answers.specs.Naming.{AreNamesRead, ReadsNames, ReadsNamesOf};
ghost use Rattle.command_answers.specs.Steps.{Concludes, Then};
ghost use Rattle.command_answers.specs.Texts.{Asks};

use crate::answer::CommandResult;
use crate::texts::Texts;
use people_names::{Names, read_names};
use shop_base::Shaped;
use std::alloc::Global;

/// The names by which a command prints for people, and the bytes of a log.
#[derive(Drop)]
pub(crate) struct NamesAndLog {
    pub names: Names,
    pub log: Vec<u8>,
}

/// The names in the text, for the shop of this plan.
fn load_names(alloc: Global, text: &[u8], shaped: &Shaped) -> CommandResult<Names>
    ensures { AreNamesRead shaped.now text.now result }
{
    let jobs = shaped.job_count() as usize;
    let machines = shaped.machine_count() as usize;
    Ok(read_names(alloc, text, jobs, machines)?)
}

/// The names in the file of this path, for the shop of this plan. Without a path there are none, and no file is asked
/// for.
pub(crate) fn names_of<T: Texts>(
    alloc: Global,
    texts: &mut T,
    path: Option<&str>,
    shaped: &Shaped,
) -> CommandResult<Names>
    ensures { ReadsNames T.gives (option_copied path.entry) shaped.now texts.old result texts.new }
{
    match path {
        Some(path) => names_in(alloc, texts, path, shaped),
        None => Ok(Names::none(alloc)),
    }
}

/// The names in the file of this path, for the shop of this plan.
fn names_in<T: Texts>(
    alloc: Global,
    texts: &mut T,
    path: &str,
    shaped: &Shaped,
) -> CommandResult<Names>
    ensures { ReadsNamesOf T.gives path.now shaped.now texts.old result texts.new }
{
    let text = texts.text(alloc, path)?;
    load_names(alloc, &text, shaped)
}

/// The names in the file of a path, if there is one, and then the log in that of another.
pub(crate) fn names_and_log<T: Texts>(
    alloc: Global,
    texts: &mut T,
    shaped: &Shaped,
    names: Option<&str>,
    log: &str,
) -> CommandResult<NamesAndLog>
    ensures { Then (ReadsNames T.gives (option_copied names.entry) shaped.now)
        (λ book. Then (Asks T.gives log.now)
        (λ bytes. Concludes (λ read. IsOkAnd read (λ both. (both.names ≡ book) × (both.log.items ≡ bytes)))))
        texts.old result texts.new }
{
    let names = names_of(alloc, texts, names, shaped)?;
    let log = texts.text(alloc, log)?;
    Ok(NamesAndLog { names, log })
}
