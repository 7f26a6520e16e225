//! Reading a module ("Binary Format > Modules").
ghost use Rattle.std.specs.Prelude.{IfOk, IfErr};
ghost use Rattle.walrus_model.specs.Config.{Config};
ghost use Rattle.std.specs.Fn.{FnReturnsAt};
ghost use Rattle.walrus_functions.specs.ReadFunction.{GivenIf};
ghost use Rattle.walrus_reading.specs.Parsed.{AreLocated, HasTypesRead, IsParsed, IsReadWith, ItemsAtOwnIds, KeepsCustoms, RefusesBytes, TakenFrom, read_view};

use crate::customs::keep_sections;
use crate::input::Input;
use crate::names::read_named;
use crate::numbers::check_room;
use std::alloc::Global;
use std::rc::Rc;
use walrus_bodies::Features;
use walrus_code::InstrLocId;
use walrus_contents::Contents;
use walrus_items::{RawCustomSection, Result};
use wasm_frames::read_module;
use wasm_wire::check;

/// What is read of a module ("Binary Format > Modules").
#[derive(Drop)]
pub struct ReadModule {
    /// What it holds, custom sections aside.
    pub contents: Contents,
    /// Its custom sections but those of names, of producers and of debug information, in their order.
    pub customs: Vec<RawCustomSection>,
    /// How many of its types are the input's; behind them stand those that legacy handlers need.
    pub type_count: usize,
}

/// The module that the bytes are ("Binary Format > Modules"), where bodies may use these proposals. Each item gets the id of
/// its index, and each operator the location that `locate` gives for the place of its first byte; with `as_texts` plain bodies are kept as they
/// stand in the input, and the location of each of their operators is that place. The locals stand function by function, of each its parameters and then all that
/// it declares. Each type that a legacy handler needs is found among the types, or stands behind those that were read. Names are those that the
/// custom sections called `name` give ("Appendix > Custom Sections > Name Section"), and where `synthetic` says so, functions and locals that
/// have none then get one of their index. Of each custom section called `producers` the fields that stand whole before its first fault are held,
/// and this program with them. Those whose names begin with `.debug` are passed over, and all others are kept as they were read. Where the same bytes
/// may be shared, as `whole`, plain bodies are kept within these; else they are copied.
///
/// # Errors
///
/// `InvalidWasm` exactly where the bytes are no module, and `Memory`.
pub fn read<L: Fn(&usize) -> InstrLocId>(
    alloc: Global,
    bytes: &[u8],
    whole: Option<&Rc<Vec<u8>>>,
    features: Features,
    synthetic: bool,
    as_texts: bool,
    locate: &L,
) -> Result<ReadModule>
    requires callable { L.IsAlwaysCallable locate.now }
    ensures found { (c : Config) → IsReadWith c features synthetic
        → IfOk result (λ m. IsParsed c bytes.now (read_view m)) }
    ensures refused { (c : Config) → IsReadWith c features synthetic
        → IfErr result (RefusesBytes c bytes.now) }
    ensures taken { IfOk result (λ m. TakenFrom features bytes.now m.contents) }
    ensures own_ids { IfOk result (λ m. ItemsAtOwnIds m.contents) }
    ensures located { IfOk result (λ m. AreLocated (GivenIf as_texts (FnReturnsAt L.Fn locate.now)) bytes.now
        m.contents.funcs) }
    ensures kept { IfOk result (λ m. KeepsCustoms bytes.now m.customs.items) }
    ensures counted { IfOk result (λ m. HasTypesRead bytes.now m.type_count) }
{
    let mut raw = read_module(alloc, bytes)?;
    check(alloc, &raw)?;
    check_room(&raw)?;
    let customs = keep_sections(alloc, &raw.customs)?;
    let input = Input { bytes, whole };
    let (contents, type_count) = read_named(
        alloc, input, &mut raw, &features, synthetic, as_texts, locate,
    )?;
    Ok(ReadModule {
        contents,
        customs,
        type_count,
    })
}
