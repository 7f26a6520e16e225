//! The laws of entries, as contracts: what is written for an entry is a text of the grammar with that value.

ghost use Rattle.wasm_forms.specs.Grammar.{Is};
ghost use Rattle.wasm_entries.specs.Record.{Expression, Import, Table, Global, Export, Element, Segment};
ghost use Rattle.wasm_entries.specs.Forms.{expression_form, import_form, table_form, global_form, export_form, element_form, data_form};
ghost use Rattle.wasm_entries.specs.Spelling.{expression_bytes, import_bytes, table_bytes, global_bytes, export_bytes, element_bytes, data_bytes, ImportFits, TableFits, ExportFits, ElementFits, DataFits, ExpressionStands, ImportStands, TableStands, GlobalStands, ExportStands, ElementStands, DataStands};

/// What is written for a constant expression is a text of the grammar with that value.
pub fn expression_spelling_stands()
    ensures { (e : Expression) → ExpressionStands e → Is expression_form (expression_bytes e) e }
{}

/// What is written for an import is a text of the grammar with that value.
pub fn import_spelling_stands()
    ensures { (x : Import) → ImportFits x → ImportStands x → Is import_form (import_bytes x) x }
{}

/// What is written for a table is a text of the grammar with that value.
pub fn table_spelling_stands()
    ensures { (x : Table) → TableFits x → TableStands x → Is table_form (table_bytes x) x }
{}

/// What is written for a global is a text of the grammar with that value.
pub fn global_spelling_stands()
    ensures { (x : Global) → GlobalStands x → Is global_form (global_bytes x) x }
{}

/// What is written for an export is a text of the grammar with that value.
pub fn export_spelling_stands()
    ensures { (x : Export) → ExportFits x → ExportStands x → Is export_form (export_bytes x) x }
{}

/// What is written for a segment of elements is a text of the grammar with that value.
pub fn element_spelling_stands()
    ensures { (x : Element) → ElementFits x → ElementStands x → Is element_form (element_bytes x) x }
{}

/// What is written for a segment of data is a text of the grammar with that value.
pub fn data_spelling_stands()
    ensures { (x : Segment) → DataFits x → DataStands x → Is data_form (data_bytes x) x }
{}
