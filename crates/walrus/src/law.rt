//! The laws of whole calls, as contracts of functions in which nothing runs; and a function that makes the calls of which one of them speaks.
ghost use Rattle.std.specs.Prelude.{IfOk};
ghost use Rattle.walrus.specs.PlacesLaws.{BecomesByState, WritesByState};
ghost use Rattle.walrus.specs.Whole.{ParsedIsWritten};
ghost use Rattle.walrus_module.specs.Flags.{config_of, flags};
ghost use Rattle.walrus_theorem.specs.Whole.{ComesWhole};

use std::alloc::Global;
use walrus_module::{CustomSection, Module, ModuleConfig, Result};

/// Bytes that are parsed and emitted as they are, without gc, come whole: what [`ModuleConfig::parse`](crate::ModuleConfig::parse)
/// says of the module that it answers, and what [`emit_wasm`](crate::Module::emit_wasm) says of this and of the bytes that it
/// answers, gives one relation of the two modules of indices. The parameter only names the type of custom sections.
pub fn parsed_is_written(_module: &Module)
    ensures { ParsedIsWritten ⟦<dyn CustomSection as CustomSection>⟧ }
{}

/// The bytes of what these bytes are read as, without gc and without an edit: they come whole, as [`parsed_is_written`] says. So that law
/// hangs on the contracts of the two calls.
///
/// # Errors
///
/// Those of [`ModuleConfig::parse`](crate::ModuleConfig::parse) and of [`emit_wasm`](crate::Module::emit_wasm).
pub fn written_as_parsed(alloc: Global, bytes: &[u8], config: &ModuleConfig) -> Result<Vec<u8>>
    ensures { IfOk result (λ output.
        ComesWhole (config_of (flags config.now)) bytes.now output.items) }
{
    let mut module = config.parse(alloc, bytes)?;
    module.emit_wasm(alloc)
}

/// What a [`PlacesSection`](crate::PlacesSection) writes, and what a code transform makes of its state, is said by its state alone, whatever value has
/// that state: so it is known too of one that followed the code in a box.
pub fn places_are_said_by_their_state()
    ensures writes { WritesByState }
    ensures becomes { BecomesByState }
{}
