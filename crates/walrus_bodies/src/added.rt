//! Locals that are added to those of a module, where nobody asks for their ids (Binary Format > Modules > Code Section).
ghost use Rattle.std.specs.Prelude.{List, IfOk, replicate};
ghost use Rattle.walrus_base.specs.Locals.{locals};
ghost use Rattle.walrus_base.specs.declared.id.Id.{Id};
ghost use Rattle.walrus_base.specs.declared.keys.LocalKey.{LocalKey};
ghost use Rattle.walrus_code.specs.Indices.{ids_at};
ghost use Rattle.walrus_bodies.specs.BodyRead.{AddsLocals, Declares, Grows};
ghost use Rattle.walrus_bodies.specs.Declarations.{declarations_of};

use crate::declarations::Declaration;
use std::alloc::AllocError;
use walrus_base::{ModuleLocals, ValType};
use walrus_code::{IndicesToIds, IrError, name_value};

/// Adds a local of each type to those of the module, in order.
///
/// # Errors
///
/// `AllocError` where no memory is left, or 2^32 locals are there. Those that were added stay then.
pub fn add_types(types: &[ValType], module_locals: &mut ModuleLocals) -> Result<(), AllocError>
    ensures added { IfOk result (λ _. (ids : List (Id LocalKey)) × AddsLocals (locals module_locals.old)
        (locals module_locals.new) ids types.now) }
    ensures stays { Grows (locals module_locals.old) (locals module_locals.new) }
{
    'types: for ty in types {
        module_locals.add(*ty)?;
    }
    Ok(())
}

// Adds so many locals of a type.
fn add_times(ty: ValType, count: u32, module_locals: &mut ModuleLocals) -> Result<(), AllocError>
    ensures added { IfOk result (λ _. (ids : List (Id LocalKey)) × AddsLocals (locals module_locals.old)
        (locals module_locals.new) ids (replicate count ty)) }
    ensures stays { Grows (locals module_locals.old) (locals module_locals.new) }
{
    'turns: for _turn in 0..count {
        module_locals.add(ty)?;
    }
    Ok(())
}

/// Adds the locals that a body declares to those of the module, in order.
///
/// # Errors
///
/// [`IrError::Malformed`] where a type isn't declared, also one of which there are no locals; [`IrError::Memory`] where no memory is left, or
/// 2^32 locals are there. Locals may be added then; what was there stays.
pub fn add_declared(
    declarations: &[Declaration],
    indices: &IndicesToIds,
    module_locals: &mut ModuleLocals,
) -> Result<(), IrError>
    ensures declared { (ids : List (Id LocalKey)) × Declares (ids_at indices.now)
        (declarations_of declarations.now) (locals module_locals.old) (locals module_locals.new)
        (λ _. ids) result }
    ensures stays { Grows (locals module_locals.old) (locals module_locals.new) }
{
    'declarations: for declaration in declarations {
        let Some(ty) = name_value(declaration.value, indices) else {
            return Err(IrError::Malformed);
        };
        add_times(ty, declaration.count, module_locals)?;
    }
    Ok(())
}
