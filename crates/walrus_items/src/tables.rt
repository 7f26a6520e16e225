//! The tables of a module ("Structure > Modules > Tables").
ghost use Rattle.std.specs.Prelude.{◌≡◌, [], Some, None, IsTrue, ◌↔◌, IsOkUnless, count_by, is_some, slice_set, option_map, IsOk, OnOk, length};
ghost use Rattle.std.specs.Borrow.{sem};
ghost use Rattle.std.specs.Iterator.{YieldsFirstBy, item_count};
ghost use Rattle.walrus_base.specs.Id.{place};
ghost use Rattle.walrus_base.specs.Arena.{HasRoom, item_at, IsLive, items, entries, kept_by};
ghost use Rattle.walrus_items.specs.Errors.{out_of_memory};
ghost use Rattle.walrus_items.specs.Added.{IsAdded, no_segments};
ghost use Rattle.std.specs.Result.{result_map_both};
ghost use Rattle.walrus_base.specs.Value.{ref_type};
ghost use Rattle.walrus_items.specs.Tables.{is_function_reference};

use crate::error::{Error, Result};
use crate::items::{Fresh, Item, ItemEntries, ItemIter, Items, Marked};
use crate::sets::no_ids;
use walrus_base::{
    AbstractHeapType, ConstExpr, ElementKey, HeapType, IdHashSet, ImportId, RefType, TableId,
    TableKey,
};

/// A table of a module.
#[derive(Drop)]
pub struct Table {
    id: TableId,
    /// How many elements it has at first, and at least.
    pub initial: u64,
    /// How many elements it can have at most.
    pub maximum: Option<u64>,
    /// The type of its elements.
    pub element_ty: RefType,
    /// What its elements are at first; null where there is none.
    pub init: Option<ConstExpr>,
    /// The import that brings it in, if one does.
    pub import: Option<ImportId>,
    /// Whether its indices have 64 bits.
    pub table64: bool,
    /// The element segments that are kept as long as the table is.
    pub elem_segments: IdHashSet<ElementKey>,
    /// The name that the name section gives it.
    pub name: Option<String>,
}

impl Table {
    ghost use Rattle.walrus_items.specs.Tables.{table_value};

    /// The id under which the table was added.
    pub fn id(&self) -> TableId
        ensures { place result ≡ (table_value self.now).id }
    {
        self.id
    }
}

// Whether null and functions are of this type, and nothing else.
fn is_funcref(ty: RefType) -> bool
    ensures { result ≡ is_function_reference (ref_type ty) }
{
    ty.nullable && matches!(ty.heap_type, HeapType::Abstract(AbstractHeapType::Func))
}

impl Item for Table {
    ghost use Rattle.walrus_items.specs.Tables.{TableValue, table_value};

    ghost Seen = { TableValue };

    ghost value = { table_value };
}

impl Fresh for Table {}

impl Marked for Table {}

/// The tables of a module, by their ids. Deleted ids are never used again.
pub type ModuleTables = Items<TableKey, Table>;

impl Items<TableKey, Table> {
    ghost use Rattle.walrus_items.specs.Tables.{TableValue, table_value, tables, tables_left, table_entries_left, function_tables, main_table};

    /// Adds a table that this import brings in, without a name, an initialiser and segments. `Memory` is the only error;
    /// then nothing changes.
    pub fn add_import(
        &mut self,
        table64: bool,
        initial: u64,
        maximum: Option<u64>,
        element_ty: RefType,
        import: ImportId,
    ) -> Result<TableId>
        ensures added { IsAdded result (tables self.old) (tables self.new) (λ own. record {
          id = own;
          table64 = table64;
          initial = initial;
          maximum = maximum;
          element = ref_type element_ty;
          initialiser = None;
          imported_by = Some (place «import»);
          segments = no_segments;
          name = None;
        }) }
        ensures succeeds { HasRoom self.old.arena 1 → IsOk result }
    {
        let id = self.arena.next_id();
        Ok(
            self.arena.alloc(Table {
                id,
                table64,
                initial,
                maximum,
                element_ty,
                init: None,
                import: Some(import),
                elem_segments: no_ids(self.alloc),
                name: None,
            })?,
        )
    }

    /// Adds a table whose elements are null at first, without a name and segments. `Memory` is the only error; then
    /// nothing changes.
    pub fn add_local(
        &mut self,
        table64: bool,
        initial: u64,
        maximum: Option<u64>,
        element_ty: RefType,
    ) -> Result<TableId>
        ensures { IsAdded result (tables self.old) (tables self.new) (λ own. record {
          id = own;
          table64 = table64;
          initial = initial;
          maximum = maximum;
          element = ref_type element_ty;
          initialiser = None;
          imported_by = None;
          segments = no_segments;
          name = None;
        }) }
    {
        self.add_local_with_init(table64, initial, maximum, element_ty, None)
    }

    /// Adds a table with this initialiser, if there is one, without a name and segments. `Memory` is the only error; then
    /// nothing changes.
    pub fn add_local_with_init(
        &mut self,
        table64: bool,
        initial: u64,
        maximum: Option<u64>,
        element_ty: RefType,
        init: Option<ConstExpr>,
    ) -> Result<TableId>
        ensures { IsAdded result (tables self.old) (tables self.new) (λ own. record {
          id = own;
          table64 = table64;
          initial = initial;
          maximum = maximum;
          element = ref_type element_ty;
          initialiser = init;
          imported_by = None;
          segments = no_segments;
          name = None;
        }) }
    {
        let id = self.arena.next_id();
        Ok(
            self.arena.alloc(Table {
                id,
                table64,
                initial,
                maximum,
                element_ty,
                init,
                import: None,
                elem_segments: no_ids(self.alloc),
                name: None,
            })?,
        )
    }

    /// The own id of the only table of functions, if there is one; `SeveralFunctionTables` where there are more. A table of
    /// functions is one whose elements are functions or null.
    pub fn main_function_table(&self) -> Result<Option<TableId>>
        ensures { result_map_both (option_map place) (λ e. e) result
            ≡ main_table (function_tables (items (tables self.now))) }
    {
        let mut main = None;
        for table in self.iter() {
            if is_funcref(table.element_ty) {
                if main.is_some() {
                    return Err(Error::SeveralFunctionTables);
                }
                main = Some(table.id);
            }
        }
        Ok(main)
    }
}

/// The tables of a module, by rising id.
pub type TableIter<'a> = ItemIter<'a, TableKey, Table>;

/// The tables of a module with their ids, by rising id.
pub type TableEntries<'a> = ItemEntries<'a, TableKey, Table>;
