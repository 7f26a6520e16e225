//! A list of edits, read from bytes, and a module changed by them, each in its turn.
//!
//! Read first: `src/edit.rt` (what an edit is), `specs/Edits.antt` (which bytes say it) and `specs/Makes.antt` (what it makes of a module).
//! Main clause: `apply_all` of `src/list.rt` promises `AppliesAll`: the bytes are a list of edits, each of which was made of what the one before left;
//! refused, so many are, and the next one isn't one, or can't be made of that.
#![tactic(auto)]

mod apply;
mod beside;
mod bring;
mod constants;
mod customs;
mod data;
mod edit;
mod elements;
mod exports;
mod front;
mod functions;
mod globals;
mod ids;
mod imports;
mod joined;
mod law;
mod list;
mod memories;
mod names;
pub mod numbers;
mod producers;
mod read;
mod read_names;
mod read_settings;
mod start;
mod types;

pub use beside::Beside;
pub use edit::{Deletion, Edit, Naming, Replacement};
pub use law::{bodies_read_are_formed, edits_keep_fine, one_list, sets_stay_formed};
pub use list::{Refusal, apply_all};
pub use read::read_edit;
