//! What an order asks of the library: each call, with what the order says of names.

ghost use Rattle.std.specs.Prelude.{◌≡◌};
ghost use Rattle.mulkavesh.specs.Choices.{functions_of, imports_of, modules_of, roots_of, sections_of};
ghost use Rattle.mulkavesh.specs.Subcommands.{operand_bytes};
ghost use Rattle.walrus_tools.specs.ChosenModule.{AnswersChosen, KeepsChosen, RefusesChosen};
ghost use Rattle.walrus_tools.specs.DroppedList.{AnswersDropped};
ghost use Rattle.walrus_tools.specs.ExportList.{AnswersExports};
ghost use Rattle.walrus_tools.specs.FunctionList.{AnswersListed};
ghost use Rattle.walrus_tools.specs.ImportList.{AnswersImports};
ghost use Rattle.walrus_tools.specs.ReasonAnswers.{AnswersCallers, AnswersWhy};
ghost use Rattle.walrus_sections.specs.StripAnswers.{AnswersStripped};
ghost use Rattle.walrus_tools.specs.StubMatching.{AnswersMatching, RefusesMatching, StubsMatching};
ghost use Rattle.walrus_tools.specs.TrapEdit.{AnswersMeant, RefusesMeant, SnipsMeant};
ghost use Rattle.walrus_tools.specs.Wanted.{config_wanted};
ghost use Rattle.walrus_tools.specs.Weigh.{AnswersReport, AnswersWeighed};

use crate::choices::{functions_of, imports_of, modules_of, roots_of, sections_of};
use crate::order::Order;
use std::alloc::Global;
use walrus_sections::strip;
use walrus_tools::{
    Error, Exported, Imported, Link, Listed, Reason, Smaller, Weighed, callers, dropped, exports,
    gc_chosen, gc_counted, imports, list, report, snip_counted, snip_functions, stub_counted,
    stub_matching, why,
};

// ---- modules

/// The module of the exports that stay roots, without what nothing reaches.
pub(crate) fn call_gc(alloc: Global, order: &Order, bytes: &[u8]) -> Result<Vec<u8>, Error>
    ensures { AnswersChosen (config_wanted order.now.wanted) bytes.now (roots_of order.now) result }
{
    let roots = roots_of(alloc, order)?;
    gc_chosen(alloc, bytes, order.wanted, &roots)
}

/// That module, with what is told of it.
pub(crate) fn call_gc_weighed(alloc: Global, order: &Order, bytes: &[u8]) -> Result<Smaller, Error>
    ensures { AnswersWeighed (KeepsChosen (roots_of order.now)) (RefusesChosen (roots_of order.now))
        (config_wanted order.now.wanted) bytes.now result }
{
    let roots = roots_of(alloc, order)?;
    gc_counted(alloc, bytes, order.wanted, &roots)
}

/// The module in which functions trap that the order means, without what nothing reaches.
pub(crate) fn call_snip(alloc: Global, order: &Order, bytes: &[u8]) -> Result<Vec<u8>, Error>
    ensures { AnswersMeant (config_wanted order.now.wanted) bytes.now (functions_of order.now) result }
{
    let functions = functions_of(alloc, order)?;
    snip_functions(alloc, bytes, order.wanted, &functions)
}

/// That module, with what is told of it.
pub(crate) fn call_snip_weighed(
    alloc: Global,
    order: &Order,
    bytes: &[u8],
) -> Result<Smaller, Error>
    ensures { AnswersWeighed (SnipsMeant (functions_of order.now)) (RefusesMeant (functions_of order.now))
        (config_wanted order.now.wanted) bytes.now result }
{
    let functions = functions_of(alloc, order)?;
    snip_counted(alloc, bytes, order.wanted, &functions)
}

/// The module in which functions trap that were imported as the order says, without what nothing reaches.
pub(crate) fn call_stub(alloc: Global, order: &Order, bytes: &[u8]) -> Result<Vec<u8>, Error>
    ensures { AnswersMatching (config_wanted order.now.wanted) bytes.now
        (modules_of order.now) (imports_of order.now) result }
{
    let modules = modules_of(alloc, order)?;
    let names = imports_of(alloc, order)?;
    stub_matching(alloc, bytes, order.wanted, &modules, &names)
}

/// That module, with what is told of it.
pub(crate) fn call_stub_weighed(
    alloc: Global,
    order: &Order,
    bytes: &[u8],
) -> Result<Smaller, Error>
    ensures { AnswersWeighed (StubsMatching (modules_of order.now) (imports_of order.now))
        (RefusesMatching (modules_of order.now) (imports_of order.now))
        (config_wanted order.now.wanted) bytes.now result }
{
    let modules = modules_of(alloc, order)?;
    let names = imports_of(alloc, order)?;
    stub_counted(alloc, bytes, order.wanted, &modules, &names)
}

/// What is left without the custom sections that go.
pub(crate) fn call_strip(alloc: Global, order: &Order, bytes: &[u8]) -> Result<Vec<u8>, Error>
    ensures { AnswersStripped bytes.now (sections_of order.now) result }
{
    let choices = sections_of(alloc, order)?;
    strip(alloc, bytes, &choices)
}

// ---- values

/// How many items and bytes stay, and how many go.
pub(crate) fn call_report(alloc: Global, order: &Order, bytes: &[u8]) -> Result<Weighed, Error>
    ensures { AnswersReport (config_wanted order.now.wanted) bytes.now (roots_of order.now) result }
{
    let roots = roots_of(alloc, order)?;
    report(alloc, bytes, order.wanted, &roots)
}

/// The functions with a body that stay.
pub(crate) fn call_list(alloc: Global, order: &Order, bytes: &[u8]) -> Result<Vec<Listed>, Error>
    ensures { AnswersListed (config_wanted order.now.wanted) bytes.now (roots_of order.now) result }
{
    let roots = roots_of(alloc, order)?;
    list(alloc, bytes, order.wanted, &roots)
}

/// Those that go.
pub(crate) fn call_dropped(alloc: Global, order: &Order, bytes: &[u8]) -> Result<Vec<Listed>, Error>
    ensures { AnswersDropped (config_wanted order.now.wanted) bytes.now (roots_of order.now) result }
{
    let roots = roots_of(alloc, order)?;
    dropped(alloc, bytes, order.wanted, &roots)
}

/// The exports that stay.
pub(crate) fn call_exports(
    alloc: Global,
    order: &Order,
    bytes: &[u8],
) -> Result<Vec<Exported>, Error>
    ensures { AnswersExports (config_wanted order.now.wanted) bytes.now (roots_of order.now) result }
{
    let roots = roots_of(alloc, order)?;
    exports(alloc, bytes, order.wanted, &roots)
}

/// The imports that stay.
pub(crate) fn call_imports(
    alloc: Global,
    order: &Order,
    bytes: &[u8],
) -> Result<Vec<Imported>, Error>
    ensures { AnswersImports (config_wanted order.now.wanted) bytes.now (roots_of order.now) result }
{
    let roots = roots_of(alloc, order)?;
    imports(alloc, bytes, order.wanted, &roots)
}

// What the order is about; where that is nothing, an empty text.
fn operand_in(order: &Order) -> &str
    ensures { result.now ≡ operand_bytes order.now.operand }
{
    match &order.operand {
        Some(operand) => operand.as_str(),
        None => "",
    }
}

/// Why the item stays that the order is about.
pub(crate) fn call_why(alloc: Global, order: &Order, bytes: &[u8]) -> Result<Reason, Error>
    ensures { AnswersWhy (config_wanted order.now.wanted) bytes.now (roots_of order.now)
        (operand_bytes order.now.operand) result }
{
    let roots = roots_of(alloc, order)?;
    why(alloc, bytes, order.wanted, &roots, operand_in(order))
}

/// What refers to it.
pub(crate) fn call_callers(alloc: Global, order: &Order, bytes: &[u8]) -> Result<Vec<Link>, Error>
    ensures { AnswersCallers (config_wanted order.now.wanted) bytes.now (roots_of order.now)
        (operand_bytes order.now.operand) result }
{
    let roots = roots_of(alloc, order)?;
    callers(alloc, bytes, order.wanted, &roots, operand_in(order))
}
