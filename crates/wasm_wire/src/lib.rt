//! The bytes of a WebAssembly module and its records, over all sections: the rules on the whole (Validation > Modules), and writing a module.
//! It hands on reading, the writer, and the payloads of names and producers, so that callers name one crate.
//!
//! Read first: `src/rules.rt` (checking) and `specs/Rules.antt` (the rules on a whole module).
//! Main clause: `check` of `src/rules.rt` promises `Rules`: it passes only where they hold, and answers `Malformed` only where they don't.
//! Otherwise memory ran out.
#![tactic(auto)]

mod places;
mod rules;
mod written;

pub use places::code_places;
pub use rules::{BrokenRule, Counts, broken_rule, check, rules_are_these};
pub use wasm_entries::{
    RawComp, RawConst, RawData, RawDataMode, RawDesc, RawElement, RawElementMode, RawExport,
    RawExportKind, RawExpression, RawFieldType, RawFuncType, RawGlobal, RawGlobalType, RawGroup,
    RawImport, RawItems, RawLimits, RawStorage, RawSub, RawTable, RawTableType,
};
pub use wasm_forms::{RawHeap, RawRef, RawVal, WireError, leb128_len};
pub use wasm_frames::{Raw, RawBody, RawCustom, one_record, read_module};
pub use wasm_payloads::{
    NameSink, NameSpace, Naming, RawField, fields_once, names_once, read_names, read_producers,
};
pub use wasm_writer::{CodePlaces, Section, Writer, measure, measure_code, written_frames};
pub use written::{CustomGroup, is_debug, written_module, written_module_frames};
