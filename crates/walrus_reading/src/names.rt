//! The names of a module that is read: the namings of its sections called `name`, and names for what has none.
ghost use Rattle.std.specs.Prelude.{◌≡◌, IfOk, length, ◌∷◌, [], map, OnOk, IsOkUnless};
ghost use Rattle.std.specs.Fn.{FnReturnsAt};
ghost use Rattle.wasm_frames.specs.Record.{sections, custom_record};
ghost use Rattle.walrus_items.specs.Functions.{functions};
ghost use Rattle.walrus_groups.specs.Groups.{types_from};
ghost use Rattle.walrus_functions.specs.ReadFunction.{GivenIf};
ghost use Rattle.walrus_reading.specs.Named.{TakesNamed, first_told};
ghost use Rattle.walrus_reading.specs.Numbers.{FitsIndices};
ghost use Rattle.walrus_reading.specs.Parsed.{ItemsAtOwnIds};
ghost use Rattle.walrus_reading.specs.Producers.{HoldsProducers};
ghost use Rattle.walrus_reading.specs.Sections.{Rules};
ghost use Rattle.walrus_reading.specs.Taken.{AreLocatedIn};
ghost use Rattle.walrus_items.specs.Errors.{out_of_memory};
ghost use Rattle.walrus_reading.specs.Shown.{shown};
ghost use Rattle.walrus_reading.specs.Sink.{bounds_of};
ghost use Rattle.walrus_reading.specs.Synthetic.{AreNamed, finished};
ghost use Rattle.walrus_reading.specs.TakenNames.{TakesNames};

use crate::contents::read_contents;
use crate::input::Input;
use crate::sink::{NameBounds, Namer};
use crate::synthetic::fill_names;
use std::alloc::Global;
use walrus_bodies::Features;
use walrus_code::InstrLocId;
use walrus_contents::Contents;
use walrus_items::Result;
use wasm_frames::{Raw, RawCustom};
use wasm_payloads::read_names;
use wasm_wire::CustomGroup;

/// What sections that keep the rules hold, where bodies may use these proposals and `locate` gives each operator its location, with the names
/// that the sections called `name` give, and where `synthetic` says so those that functions and locals without a name are given; and how many
/// types were read. Records are let go once they are read.
///
/// # Errors
///
/// `InvalidWasm` exactly where a body isn't read, and `Memory`.
pub(crate) fn read_named<L: Fn(&usize) -> InstrLocId>(
    alloc: Global,
    input: Input<'_>,
    raw: &mut Raw<'_>,
    features: &Features,
    synthetic: bool,
    as_texts: bool,
    locate: &L,
) -> Result<(Contents, usize)>
    requires rules { Rules (sections raw.old) }
    requires room { FitsIndices (sections raw.old) }
    requires callable { L.IsAlwaysCallable locate.now }
    ensures taken { TakesNamed features.now synthetic (sections raw.old) (first_told result) }
    ensures own_ids { IfOk result (λ m. ItemsAtOwnIds m.0) }
    ensures located { IfOk result (λ m. AreLocatedIn (GivenIf as_texts (FnReturnsAt L.Fn locate.now))
        (sections raw.old) (functions m.0.funcs)) }
    ensures produced { IfOk result (λ m. HoldsProducers (sections raw.old) m.0.producers) }
    ensures counted { IfOk result (λ m. m.1 ≡ length (types_from 0 (sections raw.old).types)) }
{
    let (contents, starts, types) = read_contents(alloc, input, raw, features, as_texts, locate)?;
    let bounds = NameBounds {
        types,
        starts,
        synthetic,
    };
    let named = add_names(alloc, &raw.customs, bounds, contents)?;
    Ok((named, types))
}

// Takes the namings of a custom section, if it is called `name`. A fault in its payload refuses nothing: the namings before it are taken.
fn take_section(custom: &RawCustom<'_>, namer: &mut Namer) -> Result<()>
    ensures taken { OnOk result (TakesNames (bounds_of namer.old.bounds) (custom_record custom.now ∷ [])
        (shown namer.old.contents) (shown namer.new.contents)) }
    ensures same { OnOk result (bounds_of namer.new.bounds ≡ bounds_of namer.old.bounds) }
    ensures fails { IsOkUnless result out_of_memory }
{
    if !CustomGroup::Names.has(custom.name) {
        return Ok(());
    }
    read_names(custom.bytes, namer)?;
    Ok(())
}

// Takes the namings of all these sections, in order.
fn take_sections(customs: &[RawCustom<'_>], namer: &mut Namer) -> Result<()>
    ensures taken { OnOk result (TakesNames (bounds_of namer.old.bounds) (map custom_record customs.now)
        (shown namer.old.contents) (shown namer.new.contents)) }
    ensures same { OnOk result (bounds_of namer.new.bounds ≡ bounds_of namer.old.bounds) }
    ensures fails { IsOkUnless result out_of_memory }
{
    'sections: for custom in customs {
        take_section(custom, namer)?;
    }
    Ok(())
}

// Where names are to be given, each local function and each of its locals has one then.
fn finish(namer: &mut Namer) -> Result<()>
    ensures finished { OnOk result (shown namer.new.contents
        ≡ finished (bounds_of namer.old.bounds) (shown namer.old.contents)) }
    ensures fails { IsOkUnless result out_of_memory }
{
    if !namer.bounds.synthetic {
        return Ok(());
    }
    fill_names(namer.alloc, &namer.bounds.starts, &mut namer.contents)
}

/// Names what a module holds by its sections called `name`, in order: by each the namings that stand whole before its first fault. Of
/// several names the last one counts, and a naming of what isn't there is passed over. Where names are to be given, an empty name of a local
/// is passed over too, and each local function, and each local of one, that has no name gets one made of its index: `f7`, `arg0` for a
/// parameter and `l2` for another local. Nothing else changes.
///
/// # Errors
///
/// `Memory` alone.
pub fn add_names(
    alloc: Global,
    customs: &[RawCustom<'_>],
    bounds: NameBounds,
    contents: Contents,
) -> Result<Contents>
    ensures named { IfOk result (λ c. AreNamed (bounds_of bounds) (map custom_record customs.now)
        (shown contents) (shown c)) }
    ensures fails { IsOkUnless result out_of_memory }
{
    let mut namer = Namer {
        alloc,
        bounds,
        contents,
    };
    take_sections(customs, &mut namer)?;
    finish(&mut namer)?;
    Ok(namer.contents)
}
