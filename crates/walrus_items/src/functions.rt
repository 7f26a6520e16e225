//! The functions of a module ("Structure > Modules > Functions").
ghost use Rattle.std.specs.Prelude.{◌≡◌, ◌++◌, ◌∷◌, [], length, Some, None, IsTrue, ◌↔◌, MatchResult, IfOk, IsOkUnless, count_by, is_some, slice_set, option_map, IsOk, OnOk};
ghost use Rattle.std.specs.Borrow.{sem};
ghost use Rattle.std.specs.Iterator.{YieldsFirstBy, item_count};
ghost use Rattle.std.specs.String.{string_bytes};
ghost use Rattle.walrus_base.specs.Id.{place};
ghost use Rattle.walrus_base.specs.Arena.{HasRoom, item_at, IsLive, items, entries, kept_by};
ghost use Rattle.walrus_items.specs.Errors.{out_of_memory};
ghost use Rattle.walrus_ir.specs.Function.{name_of};
ghost use Rattle.walrus_items.specs.FunctionKinds.{kind_type};
ghost use Rattle.walrus_items.specs.Seen.{text_of, text_is};
ghost use Rattle.walrus_items.specs.Searches.{first};

use crate::error::Result;
use crate::function_kind::{FunctionKind, ImportedFunction};
use crate::items::{Item, ItemEntries, ItemIter, Items, Marked};
use std::alloc::{AllocError, Global};
use std::result;
use walrus_base::{ArenaIter, FunctionId, FunctionKey, ImportId, TombstoneArena, TypeId, ValType};
use walrus_ir::LocalFunction;

/// The types of a function's parameters, in order.
pub type FuncParams = Vec<ValType>;

/// The types of a function's results, in order.
pub type FuncResults = Vec<ValType>;

/// A function of a module.
#[derive(Drop)]
pub struct Function {
    id: FunctionId,
    /// Where the function comes from.
    pub kind: FunctionKind,
    /// The name that the name section gives it.
    pub name: Option<String>,
}

impl Function {
    ghost use Rattle.walrus_items.specs.Functions.{function_value};

    /// The id under which the function was added.
    pub fn id(&self) -> FunctionId
        ensures { place result ≡ (function_value self.now).id }
    {
        self.id
    }

    /// The id of its type.
    pub fn ty(&self) -> TypeId
        ensures { result ≡ kind_type self.now.kind }
    {
        match &self.kind {
            FunctionKind::Import(imported) => imported.ty,
            FunctionKind::Local(local) => local.ty(),
            FunctionKind::Uninitialized(ty) => *ty,
        }
    }
}

// A text like this one, if there is one.
fn copied(text: Option<&String>) -> result::Result<Option<String>, AllocError>
    ensures { IfOk result (λ t. text_of t ≡ option_map (λ s. string_bytes s.now) text.entry) }
{
    match text {
        Some(text) => Ok(Some(text.clone()?)),
        None => Ok(None),
    }
}

// Whether there is a text, and it is this one.
fn is_text(text: &Option<String>, name: &str) -> bool
    ensures { result ≡ text_is name.now (text_of text.now) }
{
    match text {
        Some(text) => text.as_str() == name,
        None => false,
    }
}

impl Item for Function {
    ghost use Rattle.walrus_items.specs.Functions.{FunctionValue, function_value};

    ghost Seen = { FunctionValue };

    ghost value = { function_value };
}

impl Marked for Function {}

/// The functions of a module, by their ids. Deleted ids are never used again.
pub type ModuleFunctions = Items<FunctionKey, Function>;

impl Items<FunctionKey, Function> {
    ghost use Rattle.walrus_items.specs.Functions.{FunctionValue, function_value, functions, functions_left, function_entries_left, locals_left, local_functions, is_called};

    /// No functions. `Memory` is the only error.
    pub fn new(alloc: Global) -> Result<ModuleFunctions>
        ensures value { IfOk result (λ all. functions all ≡ []) }
        ensures fails { IsOkUnless result out_of_memory }
    {
        Ok(Items {
            arena: TombstoneArena::new(alloc),
            alloc,
        })
    }

    /// Adds a function that this import brings in, without a name. `Memory` is the only error; then nothing changes.
    pub fn add_import(&mut self, ty: TypeId, import: ImportId) -> Result<FunctionId>
        ensures added { MatchResult result
            (λ id. (place id ≡ length (functions self.old))
            × (functions self.new ≡ functions self.old
            ++ Some (record {
              id = place id;
              kind = FunctionKind.Import
                  (record { ty = ty; import = «import» });
              name = None;
            }) ∷ []))
            (λ e. (e ≡ out_of_memory) × (functions self.new ≡ functions self.old)) }
        ensures succeeds { HasRoom self.old.arena 1 → IsOk result }
    {
        let id = self.arena.next_id();
        Ok(
            self.arena.alloc(Function {
                id,
                kind: FunctionKind::Import(ImportedFunction { ty, import }),
                name: None,
            })?,
        )
    }

    /// Adds a function with this body; its name becomes the function's. `Memory` is the only error; then nothing
    /// changes.
    pub fn add_local(&mut self, local: LocalFunction) -> Result<FunctionId>
        ensures { MatchResult result
            (λ id. (place id ≡ length (functions self.old))
            × (functions self.new ≡ functions self.old
            ++ Some (record { id = place id; kind = FunctionKind.Local local; name = name_of local }) ∷
            []))
            (λ e. (e ≡ out_of_memory) × (functions self.new ≡ functions self.old)) }
    {
        let name = copied(local.name())?;
        let id = self.arena.next_id();
        Ok(
            self.arena.alloc(Function {
                id,
                kind: FunctionKind::Local(local),
                name,
            })?,
        )
    }

    /// The functions with a body, with their ids, by rising id.
    pub fn iter_local(&self) -> LocalFunctionIter<'_>
        ensures { locals_left result ≡ local_functions (entries (functions self.now)) }
    {
        LocalFunctionIter {
            rest: self.arena.iter(),
        }
    }

    /// The first function of this name, which is that of the name section and not that of an export.
    pub fn by_name(&self, name: &str) -> Option<FunctionId>
        ensures { option_map place result ≡ option_map (λ e. e.0)
            (first (is_called name.now) (functions self.now)) }
    {
        for (id, function) in self.arena.iter() {
            if is_text(&function.name, name) {
                return Some(id);
            }
        }
        None
    }
}

/// The functions of a module, by rising id.
pub type FunctionIter<'a> = ItemIter<'a, FunctionKey, Function>;

/// The functions of a module with their ids, by rising id.
pub type FunctionEntries<'a> = ItemEntries<'a, FunctionKey, Function>;

/// The functions of a module that have a body, with their ids, by rising id.
#[derive(Drop)]
pub struct LocalFunctionIter<'a> {
    rest: ArenaIter<'a, FunctionKey, Function>,
}

impl<'a> Iterator for LocalFunctionIter<'a> {
    type Item = (FunctionId, &'a LocalFunction);

    ghost use Rattle.walrus_items.specs.Functions.{locals_left};

    ghost next_gives = { YieldsFirstBy (λ f. (place f.0, f.1.now)) locals_left };

    ghost remaining = { item_count locals_left };

    fn next(&mut self) -> Option<(FunctionId, &'a LocalFunction)> {
        while let Some((id, function)) = self.rest.next() {
            if let FunctionKind::Local(local) = &function.kind {
                return Some((id, local));
            }
        }
        None
    }
}
