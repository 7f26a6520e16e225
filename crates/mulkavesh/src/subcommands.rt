//! What each subcommand makes of the bytes of a module.

ghost use Rattle.std.specs.Prelude.{◌≡◌, IfOk, false};
ghost use Rattle.mulkavesh.specs.Subcommands.{AnswersGc, AnswersOrder, AnswersSnip, AnswersStub, Lists, ListsFunctions, Notes, NotesNothing, Reports, TellsWhy};
ghost use Rattle.walrus_tools.specs.Wanted.{config_wanted};

use crate::calls::{
    call_callers, call_dropped, call_exports, call_gc, call_gc_weighed, call_imports, call_list,
    call_report, call_snip, call_snip_weighed, call_strip, call_stub, call_stub_weighed, call_why,
};
use crate::entries::first_of;
use crate::notes::note_of;
use crate::order::{Order, Work};
use crate::{entries, reasons, reports, rows, sections, verdicts};
use std::alloc::{AllocError, Global};
use walrus_tools::{Error, Smaller};

/// What a subcommand makes.
#[derive(Drop)]
pub struct Made {
    /// What is written.
    pub output: Vec<u8>,
    /// What is said on standard error behind it, whole lines.
    pub note: Vec<u8>,
    /// Whether it says that the module isn't accepted.
    pub is_refused: bool,
}

// Bytes, and nothing else to be said.
fn only(alloc: Global, output: Vec<u8>) -> Made
    ensures output { result.output ≡ output }
    ensures accepted { result.is_refused ≡ false }
    ensures alone { NotesNothing result }
{
    Made {
        output,
        note: Vec::new(alloc),
        is_refused: false,
    }
}

// The output, and what is said of what was dropped.
fn noted(alloc: Global, made: Smaller) -> Result<Made, AllocError>
    ensures { IfOk result (Notes made) }
{
    let note = note_of(alloc, &made.told)?;
    Ok(Made {
        output: made.output,
        note,
        is_refused: false,
    })
}

/// What the order makes of the bytes.
pub(crate) fn make(alloc: Global, order: &Order, bytes: &[u8]) -> Result<Made, Error>
    ensures { AnswersOrder order.now bytes.now result }
{
    match order.work {
        Work::Gc => smaller(alloc, order, bytes),
        Work::Report => Ok(only(alloc, reported(alloc, order, bytes)?)),
        Work::List => Ok(only(alloc, listed(alloc, order, bytes)?)),
        Work::Check => verdicts::checked(alloc, order, bytes),
        Work::Sections => sections::told(alloc, order, bytes),
        Work::Strip => Ok(only(alloc, call_strip(alloc, order, bytes)?)),
        Work::Snip => snipped(alloc, order, bytes),
        Work::Stub => stubbed(alloc, order, bytes),
        Work::Why => Ok(only(alloc, reasoned(alloc, order, bytes)?)),
    }
}

// ---- what writes a module

// The module of the exports that stay roots, without what nothing reaches; and what was dropped, where the order isn't quiet.
fn smaller(alloc: Global, order: &Order, bytes: &[u8]) -> Result<Made, Error>
    ensures { AnswersGc order.now (config_wanted order.now.wanted) bytes.now result }
{
    if order.is_quiet {
        return Ok(only(alloc, call_gc(alloc, order, bytes)?));
    }
    let made = call_gc_weighed(alloc, order, bytes)?;
    Ok(noted(alloc, made)?)
}

// The module in which functions trap that the order means, likewise.
fn snipped(alloc: Global, order: &Order, bytes: &[u8]) -> Result<Made, Error>
    ensures { AnswersSnip order.now (config_wanted order.now.wanted) bytes.now result }
{
    if order.is_quiet {
        return Ok(only(alloc, call_snip(alloc, order, bytes)?));
    }
    let made = call_snip_weighed(alloc, order, bytes)?;
    Ok(noted(alloc, made)?)
}

// And that in which functions trap that were imported as the order says.
fn stubbed(alloc: Global, order: &Order, bytes: &[u8]) -> Result<Made, Error>
    ensures { AnswersStub order.now (config_wanted order.now.wanted) bytes.now result }
{
    if order.is_quiet {
        return Ok(only(alloc, call_stub(alloc, order, bytes)?));
    }
    let made = call_stub_weighed(alloc, order, bytes)?;
    Ok(noted(alloc, made)?)
}

// ---- what writes a text

// How many items and bytes stay, and how many go.
fn reported(alloc: Global, order: &Order, bytes: &[u8]) -> Result<Vec<u8>, Error>
    ensures { Reports order.now (config_wanted order.now.wanted) bytes.now result }
{
    let weighed = call_report(alloc, order, bytes)?;
    Ok(reports::told(alloc, order.is_json, &weighed)?)
}

// Which exports, imports or functions stay, or which functions go.
fn listed(alloc: Global, order: &Order, bytes: &[u8]) -> Result<Vec<u8>, Error>
    ensures { Lists order.now.listing.exports order.now.listing.imports order.now
        (config_wanted order.now.wanted) bytes.now result }
{
    let count = order.listing.count;
    if order.listing.exports {
        let all = call_exports(alloc, order, bytes)?;
        return Ok(rows::told(alloc, order.is_json, first_of(&all, count))?);
    }
    if order.listing.imports {
        let all = call_imports(alloc, order, bytes)?;
        return Ok(rows::told(alloc, order.is_json, first_of(&all, count))?);
    }
    functions(alloc, order, bytes)
}

// Which functions stay, or which go.
fn functions(alloc: Global, order: &Order, bytes: &[u8]) -> Result<Vec<u8>, Error>
    ensures { ListsFunctions order.now.listing.dropped order.now (config_wanted order.now.wanted)
        bytes.now result }
{
    if order.listing.dropped {
        let gone = call_dropped(alloc, order, bytes)?;
        return Ok(entries::told(alloc, order.is_json, order.listing, gone)?);
    }
    let left = call_list(alloc, order, bytes)?;
    Ok(entries::told(alloc, order.is_json, order.listing, left)?)
}

// Why an item stays, or what refers to it.
fn reasoned(alloc: Global, order: &Order, bytes: &[u8]) -> Result<Vec<u8>, Error>
    ensures { TellsWhy order.now.listing.callers order.now (config_wanted order.now.wanted) bytes.now
        result }
{
    if order.listing.callers {
        let links = call_callers(alloc, order, bytes)?;
        return Ok(rows::told(alloc, order.is_json, &links)?);
    }
    let reason = call_why(alloc, order, bytes)?;
    Ok(reasons::told(alloc, order.is_json, &reason)?)
}
