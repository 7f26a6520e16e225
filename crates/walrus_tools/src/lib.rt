//! Callers of the library: what linkers, binding generators, instrumenters, stubbers and snippers do with it.
//! The C interface stands on them. Each goes from bytes to bytes, to a text, or to values.
//! What each promises follows from what the library promises of its calls.
//! In `src/tool` a file has the name of its call. Callers that show one thing each stand in `walrus_examples`.
//!
//! Read first: `src/tool/gc.rt` (the program's own work) and `src/tool/snip_functions.rt` (a snipper's).
//! Main clause: `gc` in `src/tool/gc.rt`, with `RunsOn` (walrus): what a run makes of known bytes, or why it refuses them.
#![tactic(auto)]

mod export_groups;
mod function_meaning;
mod functions;
mod goers;
mod import_choice;
mod import_traps;
mod item_meaning;
mod item_names;
mod keep;
mod kinds;
mod lines;
mod links;
mod marks;
mod named_exports;
mod reasons;
mod referrers;
mod roots;
mod spelled;
mod tool;
mod trap_bodies;
mod traps;
mod weigh;

pub use function_meaning::Meant;
pub use functions::function_at;
pub use goers::Alone;
pub use import_traps::trap_import;
pub use kinds::Kinds;
pub use lines::{Chain, chain_lines, chain_report, item_index, item_word};
pub use links::Link;
pub use reasons::Reason;
pub use roots::Root;
pub use tool::callers::callers;
pub use tool::diagnose::{diagnose, fault, fault_words};
pub use tool::dropped::{dropped, dropped_list};
pub use tool::exports::{Exported, export_list, exports};
pub use tool::gc::gc;
pub use tool::gc_chosen::{gc_chosen, none_is_chosen};
pub use tool::gc_counted::gc_counted;
pub use tool::imports::{Imported, import_list, imports};
pub use tool::list::{Listed, function_list, list};
pub use tool::reason_list::{caller_list, reason_list};
pub use tool::report::report;
pub use tool::report_lines::{report_lines, rest_of};
pub use tool::snip_counted::snip_counted;
pub use tool::snip_functions::snip_functions;
pub use tool::stub_counted::stub_counted;
pub use tool::stub_matching::stub_matching;
pub use tool::unfit::unfit;
pub use tool::why::why;
pub use traps::put_trap;
pub use walrus::below::Fault;
pub use walrus::tool::{
    DeviceFailed, FromWrite, ReadAllError, Sink, Source, ToolError, read_all, write_all,
};
pub use walrus::{Error, ErrorKind, ItemId, Result, Wanted};
pub use wasm_wire::BrokenRule;
pub use weigh::{Smaller, Weighed};
