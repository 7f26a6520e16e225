//! The entries of a module's sections (Binary Format > Types, Binary Format > Modules): their records, read and written exactly.
//!
//! Read first: `src/record.rt` (the records) and `specs/TypeForms.antt` (the bytes of types, groups and limits, as forms).
//! Main clause: `read_groups` of `src/group.rt` promises `group_form`: it gives just the groups that this form reads in front of the bytes.
//! It answers `Malformed` only where the form reads none.
#![tactic(auto, using(wasm_forms::proofs::Keeping::keeps_on))]

mod composite;
mod constant;
mod entry;
mod entry_law;
mod group;
mod law;
mod limits;
mod operator;
mod record;
mod segment;

pub use constant::{read_expression, read_expressions};
pub use entry_law::{
    data_spelling_stands, element_spelling_stands, export_spelling_stands,
    expression_spelling_stands, global_spelling_stands, import_spelling_stands,
    table_spelling_stands,
};
pub use group::{read_group, read_groups, write_group, write_groups};
pub use law::{
    global_type_spelling_stands, group_spelling_stands, groups_spelling_stands,
    memory_type_spelling_stands, table_type_spelling_stands, tag_type_spelling_stands,
};
pub use limits::{
    read_global_type, read_memory_type, read_table_type, read_table_type_from, read_tag_type,
    write_global_type, write_limits, write_table_type,
};
pub use operator::{write_expression, write_expressions};
pub use record::{
    RawComp, RawConst, RawData, RawDataMode, RawDesc, RawElement, RawElementMode, RawExport,
    RawExportKind, RawExpression, RawFieldType, RawFuncType, RawGlobal, RawGlobalType, RawGroup,
    RawImport, RawItems, RawLimits, RawStorage, RawSub, RawTable, RawTableType,
};
