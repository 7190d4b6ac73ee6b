//! The plans of the command `hub`.

ghost use Rattle.std.specs.Prelude.{◌≡◌, [], ◌∷◌, ◌++◌, OnOk};
ghost use Rattle.std.specs.Option.{option_copied};
ghost use Rattle.command_answers.specs.{Checks.accepted_in, Steps.IsOrMemory};
ghost use Rattle.command_answers.specs.Cells.{IsCellLine, paths_of, AddsCell, IsAdded, LoadsOne, LoadsFor, LoadsEach};
ghost use Rattle.command_answers.specs.Cells.{IsReadBefore, IsShopRead, LoadsCells};

use crate::answer::{Answer, CommandResult};
use crate::checks::loaded_answer;
use crate::command_fault::CommandFault;
use crate::inputs::ParsedInputs;
use crate::lines::push_fact;
use crate::loading::{Loaded, judged};
use crate::parsing::{load_instance, plan};
use crate::texts::Texts;
use cell_control::LeanPlan;
use plan_verifier::Verified;
use shop_base::{SharedShop, Shop};
use std::alloc::{AllocError, Global};

/// Several plans that are accepted, or the line of one that isn't.
#[derive(Drop)]
pub enum Cells {
    /// All are accepted.
    Accepted(Vec<LeanPlan>),
    /// The line of the first that isn't.
    Line(Answer),
}

/// The verdicts on the plans of these files, for the instance in the file of a path. A plan's file is asked for once
/// the plan before it is accepted.
pub fn load_cells<T: Texts>(
    alloc: Global,
    texts: &mut T,
    path: &str,
    name: Option<&[u8]>,
    plans: &[String],
) -> CommandResult<Cells>
    ensures { LoadsCells T.gives path.now (option_copied name.entry) (paths_of plans.now) texts.old result texts.new }
{
    let text = texts.text(alloc, path)?;
    load_each(alloc, texts, &text, name, plans)
}

/// The verdicts on the plans of these files, for the instance in the text.
fn load_each<T: Texts>(
    alloc: Global,
    texts: &mut T,
    text: &[u8],
    name: Option<&[u8]>,
    plans: &[String],
) -> CommandResult<Cells>
    ensures { LoadsEach T.gives text.now (option_copied name.entry) [] (paths_of plans.now) texts.old result texts.new }
{
    let (mut shop, mut cells) = (None, Vec::new(alloc));
    for path in plans {
        match add_cell(
            alloc,
            texts,
            text,
            name,
            path.as_str(),
            &mut shop,
            &mut cells,
        ) {
            None => {}
            Some(ended) => {
                drop(cells);
                return ended;
            }
        }
    }
    Ok(Cells::Accepted(cells))
}

/// Adds the plan of a file, if it is accepted, for the instance in the text, which is read once; else gives what the
/// loading ends with.
fn add_cell<T: Texts>(
    alloc: Global,
    texts: &mut T,
    text: &[u8],
    name: Option<&[u8]>,
    path: &str,
    shop: &mut Option<SharedShop>,
    cells: &mut Vec<LeanPlan>,
) -> Option<CommandResult<Cells>>
    requires { IsReadBefore text.now (option_copied name) shop.old }
    ensures read { IsReadBefore text.now (option_copied name.entry) shop.new }
    ensures added { AddsCell T.gives text.now (option_copied name.entry) cells.old.items path.now
        texts.old result cells.new.items texts.new }
{
    match load_one(alloc, texts, text, name, path, shop) {
        Ok(loaded) => add_loaded(alloc, loaded, cells),
        Err(fault) => Some(Err(fault)),
    }
}

/// Adds a plan, if it is accepted; else gives what the loading ends with: its line, or that memory ran out.
fn add_loaded(
    alloc: Global,
    loaded: Loaded,
    cells: &mut Vec<LeanPlan>,
) -> Option<CommandResult<Cells>>
    ensures { IsAdded cells.old.items (accepted_in loaded) result cells.new.items }
{
    match loaded.accepted() {
        Ok(verified) => match add_lean(alloc, verified, cells) {
            Ok(()) => None,
            Err(error) => Some(Err(CommandFault::from(error))),
        },
        Err(other) => Some(cell_line(alloc, cells.len() as u64, other)),
    }
}

/// Adds an accepted plan, of which no more is kept than its cell needs.
fn add_lean(alloc: Global, verified: Verified, cells: &mut Vec<LeanPlan>) -> Result<(), AllocError>
    ensures { OnOk result (cells.new.items ≡ cells.old.items ++ verified ∷ []) }
{
    let plan = LeanPlan::of(alloc, verified)?;
    cells.push(plan).map_err(AllocError::from)
}

/// The verdict on the plan of a file, for the instance in the text.
fn load_one<T: Texts>(
    alloc: Global,
    texts: &mut T,
    text: &[u8],
    name: Option<&[u8]>,
    path: &str,
    shop: &mut Option<SharedShop>,
) -> CommandResult<Loaded>
    requires { IsReadBefore text.now (option_copied name) shop.old }
    ensures read { IsReadBefore text.now (option_copied name.entry) shop.new }
    ensures loaded { LoadsOne T.gives text.now (option_copied name.entry) path.now texts.old result texts.new }
{
    let shop = shop_of(alloc, text, name, shop)?;
    load_for(alloc, texts, shop, path)
}

/// The verdict on the plan of a file, for this shop.
fn load_for<T: Texts>(alloc: Global, texts: &mut T, shop: Shop, path: &str) -> CommandResult<Loaded>
    ensures { LoadsFor T.gives shop path.now texts.old result texts.new }
{
    let plan = plan(alloc, texts, path)?;
    judged(alloc, ParsedInputs { shop, plan })
}

/// The shop of the instance in the text, which is read only if it hasn't been. All plans' shops read the same routes.
fn shop_of(
    alloc: Global,
    text: &[u8],
    name: Option<&[u8]>,
    shop: &mut Option<SharedShop>,
) -> CommandResult<Shop>
    requires { IsReadBefore text.now (option_copied name) shop.old }
    ensures kept { IsReadBefore text.now (option_copied name.entry) shop.new }
    ensures read { IsShopRead text.now (option_copied name.entry) result }
{
    if let Some(shared) = shop.as_ref() {
        return one_of(alloc, shared);
    }
    let shared = read_shared(alloc, text, name)?;
    let one = one_of(alloc, &shared);
    *shop = Some(shared);
    one
}

/// The shared shop once more.
fn one_of(alloc: Global, shared: &SharedShop) -> CommandResult<Shop>
    ensures { IsOrMemory (λ shop. shop ≡ shared.now) result }
{
    match shared.shop(alloc) {
        Ok(shop) => Ok(shop),
        Err(error) => Err(CommandFault::from(error)),
    }
}

/// The shop of the instance in the text, ready to be shared.
fn read_shared(alloc: Global, text: &[u8], name: Option<&[u8]>) -> CommandResult<SharedShop>
    ensures { IsShopRead text.now (option_copied name.entry) result }
{
    let named = load_instance(alloc, text, name)?;
    match SharedShop::new(alloc, named.shop) {
        Ok(shared) => Ok(shared),
        Err(error) => Err(CommandFault::from(error)),
    }
}

/// The line of the plan of this number, which isn't accepted: the number, a space, and the line of the plan alone.
fn cell_line(alloc: Global, number: u64, loaded: Loaded) -> CommandResult<Cells>
    ensures { IsCellLine number loaded result }
{
    let line = loaded_answer(alloc, loaded)?;
    let (mut text, status) = (Vec::new(alloc), line.status);
    push_fact(&mut text, b"", number)?;
    text.extend_from_slice(b" ")?;
    text.extend_from_slice(&line.text)?;
    Ok(Cells::Line(Answer { text, status }))
}
