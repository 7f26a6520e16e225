//! What C calls: each call goes from bytes to bytes for which the caller has room, and answers a status.
//! include/mulkavesh.h declares them, and says what the caller owes.
//!
//! Read first: `src/lib.rt` (the calls) and `src/answer.rt` (status, room and length).
//! Main clause: `mulkavesh_gc`, with `GivesChosen` of `specs/ChosenRoots.antt`, which is `Gives` of `specs/Answer.antt` under a choice of exports: what each
//! status says of the answer, the room and the told length.
#![tactic(auto)]

mod answer;
mod choices;
mod edits;
mod flags;
mod names;
mod question;

ghost use Rattle.std.specs.Prelude.{◌≡◌, ◌↔◌, true, ⊤};
ghost use Rattle.walrus_tools.specs.Faults.{AnswersFault};
ghost use Rattle.walrus_sections.specs.PartList.{AnswersPartList};
ghost use Rattle.walrus_sections.specs.Choice.{AllGo, IsList};
ghost use Rattle.walrus_tools.specs.ChosenModule.{AnswersChosen};
ghost use Rattle.walrus_tools.specs.DroppedList.{AnswersDroppedList};
ghost use Rattle.walrus_tools.specs.ExportList.{AnswersExportList};
ghost use Rattle.walrus_tools.specs.FunctionList.{AnswersFunctions};
ghost use Rattle.walrus_tools.specs.ImportList.{AnswersImportList};
ghost use Rattle.walrus_sections.specs.Sections.{AnswersSections};
ghost use Rattle.walrus_sections.specs.StripAnswers.{AnswersStripped};
ghost use Rattle.walrus_tools.specs.StubMatching.{AnswersMatching};
ghost use Rattle.walrus_tools.specs.TrapEdit.{AnswersMeant};
ghost use Rattle.walrus_tools.specs.Wanted.{config_wanted};
ghost use Rattle.walrus_edits.specs.Edited.{AnswersEdit};
ghost use Rattle.walrus_edits.specs.Items.{AnswersItems};
ghost use Rattle.mulkavesh_c.specs.Answer.{Gives, NoNumber};
ghost use Rattle.mulkavesh_c.specs.ChosenRoots.{GivesChosen};
ghost use Rattle.mulkavesh_c.specs.Edits.{GivesEdited};
ghost use Rattle.mulkavesh_c.specs.Flags.{IsKnown, IsKnownOfEdits, collects, wanted};
ghost use Rattle.mulkavesh_c.specs.Names.{AreLists, UnderChoices, UnderLists, UnderTexts};
ghost use Rattle.mulkavesh_c.specs.Questions.{AnswersCallers, AnswersLines, AnswersTo, AnswersWhy};

use crate::answer::{Made, UNKNOWN_FLAG, put, refused};
use crate::flags::{collects, edit_wanted_by, wanted_by};
use crate::question::Question;
use std::alloc::Global;
use walrus_sections::{all_go, are_choices};

/// The version: the major number times 2^16, the minor one times 2^8, and the patch.
const VERSION: u32 = 256;

/// The version of the interface and of what stands behind it.
#[unsafe(no_mangle)]
pub extern "C" fn mulkavesh_version() -> u32
    ensures { result ≡ 256 }
{
    VERSION
}

// Whether both are lists of choices.
fn are_lists(bytes: &[u8], others: &[u8]) -> bool
    ensures { (result ≡ true) ↔ AreLists bytes.now others.now }
{
    are_choices(bytes) && are_choices(others)
}

// ---- under a choice of exports

// The answer to a question, put into the room.
fn give(
    alloc: Global,
    question: Question<'_>,
    input: &[u8],
    flags: u32,
    choice: &[u8],
    output: &mut [u8],
    length: &mut usize,
) -> u32
    ensures { GivesChosen flags input.now choice.now (λ c. AnswersTo question.entry c input.now)
        output.old output.new length.new result }
{
    let Some(wanted) = wanted_by(flags) else {
        return refused(length, UNKNOWN_FLAG);
    };
    if !are_choices(choice) {
        return refused(length, UNKNOWN_FLAG);
    }
    let made = choices::answer_to(alloc, question, input, wanted, choice);
    put(made, output, length)
}

/// The module without what nothing reaches: `walrus_tools::gc_chosen`.
#[unsafe(no_mangle)]
pub extern "C" fn mulkavesh_gc(
    alloc: Global,
    input: &[u8],
    flags: u32,
    choice: &[u8],
    output: &mut [u8],
    length: &mut usize,
) -> u32
    ensures { GivesChosen flags input.now choice.now (λ c. AnswersChosen c input.now)
        output.old output.new length.new result }
{
    give(
        alloc,
        Question::Smaller,
        input,
        flags,
        choice,
        output,
        length,
    )
}

/// What is kept and dropped, in lines: `walrus_tools::report` and `report_lines`.
#[unsafe(no_mangle)]
pub extern "C" fn mulkavesh_report(
    alloc: Global,
    input: &[u8],
    flags: u32,
    choice: &[u8],
    output: &mut [u8],
    length: &mut usize,
) -> u32
    ensures { GivesChosen flags input.now choice.now (λ c. AnswersLines c input.now)
        output.old output.new length.new result }
{
    give(
        alloc,
        Question::Report,
        input,
        flags,
        choice,
        output,
        length,
    )
}

/// The functions with a body that stay, with what each costs and its name: `walrus_tools::function_list`.
#[unsafe(no_mangle)]
pub extern "C" fn mulkavesh_list(
    alloc: Global,
    input: &[u8],
    flags: u32,
    choice: &[u8],
    output: &mut [u8],
    length: &mut usize,
) -> u32
    ensures { GivesChosen flags input.now choice.now (λ c. AnswersFunctions c input.now)
        output.old output.new length.new result }
{
    give(
        alloc,
        Question::Listed,
        input,
        flags,
        choice,
        output,
        length,
    )
}

/// The functions with a body that go, with what each had and its name: `walrus_tools::dropped_list`.
#[unsafe(no_mangle)]
pub extern "C" fn mulkavesh_dropped(
    alloc: Global,
    input: &[u8],
    flags: u32,
    choice: &[u8],
    output: &mut [u8],
    length: &mut usize,
) -> u32
    ensures { GivesChosen flags input.now choice.now (λ c. AnswersDroppedList c input.now)
        output.old output.new length.new result }
{
    give(
        alloc,
        Question::Dropped,
        input,
        flags,
        choice,
        output,
        length,
    )
}

/// The exports that stay: `walrus_tools::export_list`.
#[unsafe(no_mangle)]
pub extern "C" fn mulkavesh_exports(
    alloc: Global,
    input: &[u8],
    flags: u32,
    choice: &[u8],
    output: &mut [u8],
    length: &mut usize,
) -> u32
    ensures { GivesChosen flags input.now choice.now (λ c. AnswersExportList c input.now)
        output.old output.new length.new result }
{
    give(
        alloc,
        Question::Exports,
        input,
        flags,
        choice,
        output,
        length,
    )
}

/// The imports that stay: `walrus_tools::import_list`.
#[unsafe(no_mangle)]
pub extern "C" fn mulkavesh_imports(
    alloc: Global,
    input: &[u8],
    flags: u32,
    choice: &[u8],
    output: &mut [u8],
    length: &mut usize,
) -> u32
    ensures { GivesChosen flags input.now choice.now (λ c. AnswersImportList c input.now)
        output.old output.new length.new result }
{
    give(
        alloc,
        Question::Imports,
        input,
        flags,
        choice,
        output,
        length,
    )
}

/// By which references a function stays, or what is exported: `walrus_tools::reason_list`.
#[unsafe(no_mangle)]
pub extern "C" fn mulkavesh_why(
    alloc: Global,
    input: &[u8],
    flags: u32,
    choice: &[u8],
    function: &[u8],
    output: &mut [u8],
    length: &mut usize,
) -> u32
    ensures { GivesChosen flags input.now choice.now (λ c. AnswersWhy function.now c input.now)
        output.old output.new length.new result }
{
    give(
        alloc,
        Question::Why(function),
        input,
        flags,
        choice,
        output,
        length,
    )
}

/// What stays and refers to a function, or to what is exported: `walrus_tools::caller_list`.
#[unsafe(no_mangle)]
pub extern "C" fn mulkavesh_callers(
    alloc: Global,
    input: &[u8],
    flags: u32,
    choice: &[u8],
    function: &[u8],
    output: &mut [u8],
    length: &mut usize,
) -> u32
    ensures { GivesChosen flags input.now choice.now (λ c. AnswersCallers function.now c input.now)
        output.old output.new length.new result }
{
    give(
        alloc,
        Question::Callers(function),
        input,
        flags,
        choice,
        output,
        length,
    )
}

// ---- others

/// What is wrong with the bytes, in eight bytes: `walrus_tools::fault`.
#[unsafe(no_mangle)]
pub extern "C" fn mulkavesh_diagnose(
    alloc: Global,
    input: &[u8],
    flags: u32,
    output: &mut [u8],
    length: &mut usize,
) -> u32
    ensures { Gives (IsKnown flags) (AnswersFault (config_wanted (wanted flags)) input.now) NoNumber
        output.old output.new length.new result }
{
    let Some(wanted) = wanted_by(flags) else {
        return refused(length, UNKNOWN_FLAG);
    };
    let made = walrus_tools::fault(alloc, input, wanted);
    put(Made::of(made), output, length)
}

/// The bytes without the custom sections that go by a list of choices: `walrus_sections::strip`.
#[unsafe(no_mangle)]
pub extern "C" fn mulkavesh_strip(
    alloc: Global,
    input: &[u8],
    choice: &[u8],
    output: &mut [u8],
    length: &mut usize,
) -> u32
    ensures { Gives (IsList choice.now) (UnderChoices choice.now (AnswersStripped input.now)) NoNumber
        output.old output.new length.new result }
{
    if !are_choices(choice) {
        return refused(length, UNKNOWN_FLAG);
    }
    let made = names::stripped(alloc, input, choice);
    put(Made::of(made), output, length)
}

/// The sections, with the place and the size of each, whatever they hold: `walrus_sections::section_list`.
#[unsafe(no_mangle)]
pub extern "C" fn mulkavesh_sections(
    alloc: Global,
    input: &[u8],
    output: &mut [u8],
    length: &mut usize,
) -> u32
    ensures { Gives ⊤ (AnswersSections input.now) NoNumber output.old output.new length.new result }
{
    let made = walrus_sections::section_list(alloc, input);
    put(Made::of(made), output, length)
}

/// The sections of a module and what stands in them, with the place and the size of each: `walrus_sections::part_list`.
#[unsafe(no_mangle)]
pub extern "C" fn mulkavesh_parts(
    alloc: Global,
    input: &[u8],
    output: &mut [u8],
    length: &mut usize,
) -> u32
    ensures { Gives ⊤ (AnswersPartList input.now) NoNumber output.old output.new length.new result }
{
    let made = walrus_sections::part_list(alloc, input);
    put(Made::of(made), output, length)
}

/// The module in which the functions trap that a list of texts means: `walrus_tools::snip_functions`.
#[unsafe(no_mangle)]
pub extern "C" fn mulkavesh_snip(
    alloc: Global,
    input: &[u8],
    flags: u32,
    function: &[u8],
    output: &mut [u8],
    length: &mut usize,
) -> u32
    ensures { Gives (IsKnown flags × AllGo function.now)
        (UnderTexts function.now (AnswersMeant (config_wanted (wanted flags)) input.now)) NoNumber
        output.old output.new length.new result }
{
    let Some(wanted) = wanted_by(flags) else {
        return refused(length, UNKNOWN_FLAG);
    };
    if !all_go(function) {
        return refused(length, UNKNOWN_FLAG);
    }
    let made = names::snipped(alloc, input, wanted, function);
    put(Made::of(made), output, length)
}

/// The module in which the functions trap that were imported from modules and under names of two lists: `walrus_tools::stub_matching`.
#[unsafe(no_mangle)]
pub extern "C" fn mulkavesh_stub(
    alloc: Global,
    input: &[u8],
    flags: u32,
    module: &[u8],
    name: &[u8],
    output: &mut [u8],
    length: &mut usize,
) -> u32
    ensures { Gives (IsKnown flags × AreLists «module».now name.now)
        (UnderLists «module».now name.now (AnswersMatching (config_wanted (wanted flags)) input.now)) NoNumber
        output.old output.new length.new result }
{
    let Some(wanted) = wanted_by(flags) else {
        return refused(length, UNKNOWN_FLAG);
    };
    if !are_lists(module, name) {
        return refused(length, UNKNOWN_FLAG);
    }
    let made = names::stubbed(alloc, input, wanted, module, name);
    put(Made::of(made), output, length)
}

// ---- a module changed

/// The items of the module, each with its id, as records: `walrus_edits::items`.
#[unsafe(no_mangle)]
pub extern "C" fn mulkavesh_read(
    alloc: Global,
    input: &[u8],
    flags: u32,
    output: &mut [u8],
    length: &mut usize,
) -> u32
    ensures { Gives (IsKnown flags) (AnswersItems (config_wanted (wanted flags)) input.now) NoNumber
        output.old output.new length.new result }
{
    let Some(wanted) = wanted_by(flags) else {
        return refused(length, UNKNOWN_FLAG);
    };
    let made = walrus_edits::items(alloc, input, wanted);
    put(Made::of(made), output, length)
}

/// The module that the edits of a list make of the input, each in its turn: `walrus_edits::edit`.
#[unsafe(no_mangle)]
pub extern "C" fn mulkavesh_edit(
    alloc: Global,
    input: &[u8],
    flags: u32,
    edits: &[u8],
    output: &mut [u8],
    length: &mut usize,
) -> u32
    ensures { GivesEdited (IsKnownOfEdits flags)
        (AnswersEdit (config_wanted (wanted flags)) (collects flags) input.now edits.now)
        output.old output.new length.new result }
{
    let Some(wanted) = edit_wanted_by(flags) else {
        return refused(length, UNKNOWN_FLAG);
    };
    match walrus_edits::edit(alloc, input, edits, wanted, collects(flags)) {
        Ok(bytes) => put(Made::of(Ok(bytes)), output, length),
        Err(refusal) => edits::refuse(&refusal, length),
    }
}
