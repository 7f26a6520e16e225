//! A module's items as a list, and a module changed by a list of edits: for callers of other languages.
//!
//! Read first: `src/change.rt` (a module of another one, by a list of edits) and `src/item_list.rt` (the list of a module's items).
//! Main clause: `edit` of `src/change.rt` promises `AnswersEdit`: on Ok the edits that the bytes say were made of what was parsed, each in its turn, and
//! what they made is well made and written. Refused, it says which of the input, an edit and the whole is why.
#![tactic(auto)]

mod change;
mod ending;
mod item_list;
mod local_names;
mod name_records;
mod producer_records;
mod put;
mod records;
mod refusal;
mod section_records;
mod type_records;

pub use change::edit;
pub use item_list::items;
pub use refusal::Refusal;
pub use walrus::{Flaw, Wanted, rule_number};
pub use wasm_wire::BrokenRule;
