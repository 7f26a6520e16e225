//! What is asked of a module's bytes by the framing of its sections: which sections, functions and data segments they are, what they begin as,
//! and the bytes without some custom sections. No `Module` is made for it. And choices by name, which these calls and those of
//! `walrus_tools` take.
//! In `src/tool` a file has the name of its call.
//!
//! Read first: `src/tool/sections.rt` (the sections of bytes, whatever they hold) and `src/tool/strip.rt` (what a packager does).
//! Main clause: `section_list` in `src/tool/sections.rt`, with `AnswersSections`: which sections stand in the bytes, or why they can't be told.
#![tactic(auto)]

mod beginnings;
mod choice;
mod chooser;
mod name_lists;
mod numbers;
mod parts;
mod tool;

pub use beginnings::{
    Beginning, beginning_number, beginning_of, beginning_words, begins_as, has_one_beginning,
};
pub use choice::{Choice, all_go, are_choices, goes, read_choices};
pub use chooser::{Chooser, chooser_of, is_chosen};
pub use name_lists::first_unfit;
pub use numbers::{NO_NAME, add_number, add_text, narrow};
pub use parts::{Item, Part, one_part_list};
pub use tool::fits::fits;
pub use tool::section_parts::{part_list, section_parts};
pub use tool::sections::{section_list, sections};
pub use tool::strip::strip;
pub use walrus_items::{Error, ErrorKind, Result};
pub use wasm_frames::{Pieced, RawPiece};
