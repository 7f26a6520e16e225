//! What is written stands in the grammar, as contracts.

ghost use Rattle.std.specs.Prelude.{ℕ, List, ◌∷◌, ◌<◌, ◌^◌, All};
ghost use Rattle.wasm_forms.specs.Grammar.{Is, Vector};
ghost use Rattle.wasm_forms.specs.Spelling.{number_bytes, vector_bytes};
ghost use Rattle.wasm_forms.specs.Writing.{FitsVector};
ghost use Rattle.wasm_entries.specs.declared.record.RawLimits.{RawLimits};
ghost use Rattle.wasm_entries.specs.declared.record.RawTableType.{RawTableType};
ghost use Rattle.wasm_entries.specs.declared.record.RawGlobalType.{RawGlobalType};
ghost use Rattle.wasm_entries.specs.Record.{Group};
ghost use Rattle.wasm_entries.specs.TypeForms.{group_form, memory_type, table_type, global_type, tag_type};
ghost use Rattle.wasm_entries.specs.TypeSpelling.{group_bytes, limits_bytes, table_type_bytes, global_type_bytes, GroupFits, GroupStands, LimitsFit, LimitsStand, TableTypeStands, GlobalTypeStands};

/// What is written for a group of types is a text of the grammar with that value.
pub fn group_spelling_stands()
    ensures { (g : Group) → GroupFits g → GroupStands g → Is group_form (group_bytes g) g }
{}

/// What is written for the groups of a type section is a text of the grammar with that value.
pub fn groups_spelling_stands()
    ensures { (gs : List Group) → FitsVector GroupFits gs → All GroupStands gs → Is (Vector group_form)
        (vector_bytes group_bytes gs) gs }
{}

/// What is written for limits is a text of the grammar, a memory type with that value.
pub fn memory_type_spelling_stands()
    ensures { (l : RawLimits) → LimitsFit l → LimitsStand l → Is memory_type (limits_bytes l) l }
{}

/// What is written for a table type is a text of the grammar with that value.
pub fn table_type_spelling_stands()
    ensures { (t : RawTableType) → LimitsFit t.limits → TableTypeStands t
        → Is table_type (table_type_bytes t) t }
{}

/// What is written for a global type is a text of the grammar with that value.
pub fn global_type_spelling_stands()
    ensures { (g : RawGlobalType) → GlobalTypeStands g → Is global_type (global_type_bytes g) g }
{}

/// A byte 00 and what is written for an index is a text of the grammar, a tag type with that value.
pub fn tag_type_spelling_stands()
    ensures { (n : ℕ) → n < 2 ^ 32 → Is tag_type (0 ∷ number_bytes n) n }
{}
