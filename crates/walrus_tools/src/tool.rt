//! Tools for programs to call, as `mulkavesh` does for its subcommands, and the C interface. A file has the name of its call.

pub mod callers;
pub mod diagnose;
pub mod dropped;
pub mod exports;
pub mod gc;
pub mod gc_chosen;
pub mod gc_counted;
pub mod imports;
pub mod list;
pub mod reason_list;
pub mod report;
pub mod report_lines;
pub mod snip_counted;
pub mod snip_functions;
pub mod stub_counted;
pub mod stub_matching;
pub mod unfit;
pub mod why;
