//! How segments are used, and what element segments hold ("Structure > Modules").
ghost use Rattle.std.specs.Prelude.{◌≡◌, IfOk, IsOkUnless};
ghost use Rattle.std.specs.List.{AllZip};
ghost use Rattle.walrus_base.specs.ConstOps.{SameExpr};
ghost use Rattle.walrus_items.specs.Errors.{out_of_memory};

use crate::error::Result;
use std::alloc::Global;
use walrus_base::{ConstExpr, FunctionId, MemoryId, RefType, TableId};

/// How a data segment is used.
#[derive(Drop)]
pub enum DataKind {
    /// Copied into a memory when the module is instantiated.
    Active {
        /// The memory.
        memory: MemoryId,
        /// Where in the memory it begins.
        offset: ConstExpr,
    },
    /// Copied by operators alone.
    Passive,
}

/// How an element segment is used.
#[derive(Drop)]
pub enum ElementKind {
    /// Copied by operators alone.
    Passive,
    /// Never copied: it declares the functions that `ref.func` may name.
    Declared,
    /// Copied into a table when the module is instantiated.
    Active {
        /// The table.
        table: TableId,
        /// Where in the table it begins.
        offset: ConstExpr,
    },
}

impl ElementKind {
    ghost use Rattle.walrus_items.specs.Segments.{SameElementKind};

    /// An equal kind. `Memory` is the only error.
    pub fn try_clone(&self, alloc: Global) -> Result<ElementKind>
        ensures same { IfOk result (λ copy. SameElementKind self.now copy) }
        ensures fails { IsOkUnless result out_of_memory }
    {
        match self {
            ElementKind::Passive => Ok(ElementKind::Passive),
            ElementKind::Declared => Ok(ElementKind::Declared),
            ElementKind::Active { table, offset } => Ok(ElementKind::Active {
                table: *table,
                offset: offset.try_clone(alloc)?,
            }),
        }
    }
}

/// What an element segment holds.
#[derive(Drop)]
pub enum ElementItems {
    /// References to these functions.
    Functions(Vec<FunctionId>),
    /// The values of these expressions, each of the type.
    Expressions(RefType, Vec<ConstExpr>),
}

// Equal expressions, in their order.
fn copy_of_all(alloc: Global, all: &[ConstExpr]) -> Result<Vec<ConstExpr>>
    ensures same { IfOk result (λ copy. AllZip SameExpr all.now copy.items) }
    ensures fails { IsOkUnless result out_of_memory }
{
    let mut copy = Vec::new(alloc);
    'copied: for expression in all {
        copy.push(expression.try_clone(alloc)?)?;
    }
    Ok(copy)
}

impl ElementItems {
    ghost use Rattle.walrus_items.specs.Segments.{SameElementItems};

    /// Equal items. `Memory` is the only error.
    pub fn try_clone(&self, alloc: Global) -> Result<ElementItems>
        ensures same { IfOk result (λ copy. SameElementItems self.now copy) }
        ensures fails { IsOkUnless result out_of_memory }
    {
        match self {
            ElementItems::Functions(all) => Ok(ElementItems::Functions(all.to_vec(alloc)?)),
            ElementItems::Expressions(ty, all) => Ok(ElementItems::Expressions(
                *ty,
                copy_of_all(alloc, all.as_slice())?,
            )),
        }
    }
}
