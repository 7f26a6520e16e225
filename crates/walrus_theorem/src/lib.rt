//! The words of the main theorem at full breadth, and the laws that show that these words leave nothing open, as functions with empty bodies.
//! The definitions stand in `specs/`: what bytes read as, the steps to what is written, its one spelling, causes of refusals, and the settled form.
//! Where a definition says "there is", a law here says that there is one only.
//!
//! Read first: `specs/Headline.antt` (what bytes read as, and what a run comes to) and `src/steps.rt` (the laws of one run).
//! Main clause: `one_run` of `src/steps.rt` promises `OneOutput`: under one configuration, bytes come to one output and no other.
#![tactic(auto)]

mod again;
mod edits;
mod engines;
mod rules;
mod run;
mod settled;
mod spelling;
mod steps;
mod well_made;
mod written;

pub use again::writes_again;
pub use edits::{
    bodies_swapped, customs_edited, exports_edited, imports_edited, items_edited, leads_live,
    well_made_is_sound,
};
pub use engines::{no_engine_tells, worked_engine};
pub use rules::{accepts_read, references_agree, rules_agree};
pub use run::runs_come_out;
pub use settled::{one_report, settles_again, worked_report};
pub use spelling::{has_alternatives, reads_once, spelled_once, spelled_reads, worked_row};
pub use steps::{
    brought_lives, one_run, steps_come_out, worked_declared, worked_handler, worked_run,
    worked_sections,
};
pub use well_made::{few_refusals, parsed_well, well_made_stays};
pub use written::{ok_reads, written_holds, written_once};
