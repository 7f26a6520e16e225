//! What becomes of a module that was edited: what nothing reaches goes, the module is written, and what is told of it is counted.

ghost use Rattle.std.specs.Prelude.{◌≡◌, ◌<◌, ◌^◌};
ghost use Rattle.walrus.specs.Items.Functions.{functions};
ghost use Rattle.walrus_sections.specs.Parts.{part_record};
ghost use Rattle.walrus_tools.specs.Weigh.{is_debug, is_dropped};
ghost use Rattle.walrus.specs.Ready.{IsReady};
ghost use Rattle.walrus_tools.specs.WeighSteps.{WeighsInput, WeighsReady, is_left, size_if, sizes};

use crate::kinds::{Kinds, kinds_of};
use std::alloc::Global;
use walrus::passes::gc;
use walrus::{CustomSection, FunctionId, Module, ModuleFunctions, Result};
use walrus_sections::{Part, section_parts};
use wasm_wire::is_debug;

/// What is told of a module that became smaller.
#[derive(Clone, Copy, Debug, PartialEq, Eq)]
pub struct Weighed {
    /// How many items of each kind were read.
    pub before: Kinds,
    /// How many of them are left.
    pub after: Kinds,
    /// How many bytes were read.
    pub read: usize,
    /// How many bytes were written.
    pub written: usize,
    /// How many bytes of the input the bodies of functions have that are dropped.
    pub bodies: usize,
    /// How many bytes of the input its debug information has: whole custom sections, of names that begin with `.debug`.
    pub debug: usize,
}

/// A module without what nothing reaches, and what is told of it.
#[derive(Drop)]
pub struct Smaller {
    /// Its bytes.
    pub output: Vec<u8>,
    /// How many items and bytes there were, and how many are left.
    pub told: Weighed,
}

// ---- bytes of the input

// How many bytes go with the part, as the body of a function that isn't there.
fn body_gone(all: &ModuleFunctions, part: Part<'_>) -> usize
    ensures { result ≡ size_if (is_dropped (is_left (functions all.now))) (part_record part.entry) }
{
    let Part::Function(function) = part else {
        return 0;
    };
    if all.contains(FunctionId::at(function.index)) {
        return 0;
    }
    function.size
}

// How many bytes the part has as debug information.
fn debug_size(part: Part<'_>) -> usize
    ensures { result ≡ size_if is_debug (part_record part.entry) }
{
    let Part::Section(piece) = part else {
        return 0;
    };
    let Some(name) = piece.name else {
        return 0;
    };
    if !is_debug(name) {
        return 0;
    }
    piece.bytes.len()
}

// How many bytes the bodies of functions have that aren't there, and debug information.
fn weigh_parts(all: &ModuleFunctions, parts: &[Part<'_>]) -> (usize, usize)
    requires bodies { sizes (is_dropped (is_left (functions all.now))) parts.now < 2 ^ 64 }
    requires debug { sizes is_debug parts.now < 2 ^ 64 }
    ensures bodies { result.0 ≡ sizes (is_dropped (is_left (functions all.now))) parts.now }
    ensures debug { result.1 ≡ sizes is_debug parts.now }
{
    let mut bodies = 0;
    let mut debug = 0;
    'each: for part in parts {
        bodies += body_gone(all, *part);
        debug += debug_size(*part);
    }
    (bodies, debug)
}

// How many of these the bytes of a module have.
fn weigh_input(alloc: Global, bytes: &[u8], all: &ModuleFunctions) -> Result<(usize, usize)>
    ensures { WeighsInput bytes.now (functions all.now) result }
{
    let parts = section_parts(alloc, bytes)?;
    Ok(weigh_parts(all, &parts))
}

// ---- the whole way

/// The bytes of the module without what nothing reaches, and what is told of it: these bytes were read as so many items, and edited to the module.
pub(crate) fn finished_weighed(
    alloc: Global,
    bytes: &[u8],
    before: Kinds,
    mut module: Module,
) -> Result<Smaller>
    requires { IsReady ⟦<dyn CustomSection as CustomSection>⟧ «module» }
    ensures { WeighsReady ⟦<dyn CustomSection as CustomSection>⟧ bytes.now before «module» result }
{
    gc::run(alloc, &mut module)?;
    let (bodies, debug) = weigh_input(alloc, bytes, &module.funcs)?;
    let after = kinds_of(&module);
    let output = module.emit_whole(alloc)?;
    let told = Weighed {
        before,
        after,
        read: bytes.len(),
        written: output.len(),
        bodies,
        debug,
    };
    Ok(Smaller { output, told })
}
