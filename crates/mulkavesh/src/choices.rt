//! What an order says of names: of custom sections, of exports, of functions, and of modules and names that functions are imported from.

ghost use Rattle.std.specs.Option.{option_to_list};
ghost use Rattle.std.specs.Prelude.{◌≡◌, ◌∷◌, ◌++◌, [], IfOk, option_map};
ghost use Rattle.mulkavesh.specs.Choices.{all_choices, choice_by, choices_about, functions_of, going, imports_of, modules_of, roots_of, sections_of, staying, texts_said, where_said};
ghost use Rattle.walrus_sections.specs.Choice.{choice_seen, choices_seen};
ghost use Rattle.walrus_tools.specs.FunctionMeaning.{texts};

use crate::order::{Named, Naming, Order};
use std::alloc::{AllocError, Global};
use walrus_sections::Choice;
use walrus_tools::Meant;

/// What the NAMEs are names of that choices are made of.
#[derive(Clone, Copy, PartialEq, Eq)]
pub(crate) enum About {
    /// Custom sections.
    Sections,
    /// Exports, which are roots.
    Roots,
    /// Modules that functions are imported from.
    Modules,
    /// Imports of functions in them.
    Imports,
}

// What has such a name goes.
fn going(name: &str) -> Choice<'_>
    ensures { choice_seen result ≡ going name.now }
{
    Choice {
        is_kept: false,
        name: name.as_bytes(),
    }
}

// It stays.
fn staying(name: &str) -> Choice<'_>
    ensures { choice_seen result ≡ staying name.now }
{
    Choice {
        is_kept: true,
        name: name.as_bytes(),
    }
}

// What the value says behind its option, if it is about these.
fn choice_by<'a>(about: About, named: &'a Named) -> Option<Choice<'a>>
    ensures { option_to_list (option_map choice_seen result) ≡ choice_by about named.now }
{
    let name = named.value.text();
    match (about, named.naming) {
        (About::Roots, Naming::Keep) => Some(staying(name)),
        (About::Sections, Naming::Section)
        | (About::Roots, Naming::Drop)
        | (About::Modules, Naming::Module)
        | (About::Imports, Naming::Import) => Some(going(name)),
        _ => None,
    }
}

// What all values say that are about these, in their order.
fn choices_about<'a>(
    alloc: Global,
    about: About,
    values: &'a [Named],
) -> Result<Vec<Choice<'a>>, AllocError>
    ensures { IfOk result (λ v. choices_seen v.items ≡ choices_about about values.now) }
{
    let mut choices = Vec::new(alloc);
    'values: for named in values {
        if let Some(choice) = choice_by(about, named) {
            choices.push(choice)?;
        }
    }
    Ok(choices)
}

/// Which exports stay roots.
pub(crate) fn roots_of<'a>(alloc: Global, order: &'a Order) -> Result<Vec<Choice<'a>>, AllocError>
    ensures { IfOk result (λ v. choices_seen v.items ≡ roots_of order.now) }
{
    choices_about(alloc, About::Roots, &order.values)
}

/// From which modules functions are imported that trap.
pub(crate) fn modules_of<'a>(alloc: Global, order: &'a Order) -> Result<Vec<Choice<'a>>, AllocError>
    ensures { IfOk result (λ v. choices_seen v.items ≡ modules_of order.now) }
{
    choices_about(alloc, About::Modules, &order.values)
}

/// Under which names; if there are none, under any name.
pub(crate) fn imports_of<'a>(alloc: Global, order: &'a Order) -> Result<Vec<Choice<'a>>, AllocError>
    ensures { IfOk result (λ v. choices_seen v.items ≡ imports_of order.now) }
{
    choices_about(alloc, About::Imports, &order.values)
}

// The texts of functions that values are.
fn texts_said<'a>(alloc: Global, values: &'a [Named]) -> Result<Vec<Meant<'a>>, AllocError>
    ensures { IfOk result (λ v. texts v.items ≡ texts_said values.now) }
{
    let mut functions = Vec::new(alloc);
    'values: for named in values {
        if named.naming == Naming::Function {
            functions.push(Meant {
                name: named.value.text(),
            })?;
        }
    }
    Ok(functions)
}

/// Which functions trap.
pub(crate) fn functions_of<'a>(
    alloc: Global,
    order: &'a Order,
) -> Result<Vec<Meant<'a>>, AllocError>
    ensures { IfOk result (λ v. texts v.items ≡ functions_of order.now) }
{
    texts_said(alloc, &order.values)
}

/// Which custom sections go.
pub(crate) fn sections_of<'a>(
    alloc: Global,
    order: &'a Order,
) -> Result<Vec<Choice<'a>>, AllocError>
    ensures { IfOk result (λ v. choices_seen v.items ≡ sections_of order.now) }
{
    let mut choices = choices_about(alloc, About::Sections, &order.values)?;
    add_where(&mut choices, order.gone.names, "name")?;
    add_where(&mut choices, order.gone.producers, "producers")?;
    add_where(&mut choices, order.gone.debug, ".debug*")?;
    add_all_where(&mut choices, order.is_all)?;
    Ok(choices)
}

// Such sections go too, where the order says so.
fn add_where<'a>(
    choices: &mut Vec<Choice<'a>>,
    is_said: bool,
    name: &'a str,
) -> Result<(), AllocError>
    ensures { IfOk result (λ unit. choices_seen choices.new.items ≡
        choices_seen choices.old.items ++ where_said is_said (going name.now ∷ [])) }
{
    if is_said {
        choices.push(going(name))?;
    }
    Ok(())
}

// All sections go that can, where the order says so.
fn add_all_where(choices: &mut Vec<Choice<'_>>, is_said: bool) -> Result<(), AllocError>
    ensures { IfOk result (λ unit. choices_seen choices.new.items ≡
        choices_seen choices.old.items ++ where_said is_said all_choices) }
{
    if is_said {
        choices.push(going("*"))?;
        choices.push(staying("dylink"))?;
        choices.push(staying("dylink.0"))?;
        choices.push(staying("target_features"))?;
    }
    Ok(())
}
