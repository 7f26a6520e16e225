//! Reading the locals that a body declares (Binary Format > Modules > Code Section).
ghost use Rattle.std.specs.Prelude.{◌≡◌, ℕ, map, IfOk, IfSome, ◌∷◌, ◌++◌, replicate};
ghost use Rattle.wasm_forms.specs.Grammar.{Vector, U32, ◌then◌, at};
ghost use Rattle.wasm_forms.specs.Types.{value_type};
ghost use Rattle.wasm_forms.specs.declared.types.RawVal.{RawVal as DeclaredVal};
ghost use Rattle.walrus_base.specs.Value.{val_type};
ghost use Rattle.walrus_code.specs.Indices.{ids_at};
ghost use Rattle.walrus_bodies.specs.Body.{declarations, declared_types};
ghost use Rattle.walrus_bodies.specs.Declarations.{declaration, declarations_of, ReadsDeclarations, spelling};
ghost use Rattle.walrus_bodies.specs.Reader.{Gives};

use std::alloc::{AllocError, Global};
use walrus_base::ValType;
use walrus_code::{IndicesToIds, IrError, name_value};
use wasm_forms::{
    Element, RawVal, WireError, Written, read_u32, read_value_type, read_vector, write_u32,
};

/// Locals of one type that a body declares.
#[derive(Clone, Copy, Debug, PartialEq, Eq)]
pub struct Declaration {
    /// How many.
    pub count: u32,
    /// Their type.
    pub value: RawVal,
}

impl<'a> Element<'a> for Declaration {
    ghost Seen = { ℕ × DeclaredVal };

    ghost view = { declaration };

    ghost form = { U32 then value_type };

    fn read(_alloc: Global, bytes: &'a [u8]) -> Result<(Declaration, &'a [u8]), WireError> {
        let (count, rest) = read_u32(bytes)?;
        let (value, rest) = read_value_type(rest)?;
        Ok((Declaration { count, value }, rest))
    }
}

impl Written for Declaration {
    ghost spelled = { spelling };

    ghost Fits = { λ _. Unit {0} };

    fn write(&self, to: &mut Vec<u8>) -> Result<(), WireError> {
        write_u32(to, self.count)?;
        self.value.write(to)
    }
}

/// Reads the locals that a body declares, and gives them with the bytes after them.
///
/// Refused as [`IrError::Malformed`] where the bytes don't begin with such declarations. Memory is taken as declarations are read, and
/// none for a count alone.
pub fn read_declarations(alloc: Global, bytes: &[u8]) -> Result<(Vec<Declaration>, &[u8]), IrError>
    ensures gives { Gives (λ r. (declarations_of r.0.items, r.1.now)) result (at declarations bytes.now) }
    ensures found { ReadsDeclarations (λ r. (declarations_of r.0.items, r.1.now)) bytes.now result }
{
    take_declarations(alloc, bytes)
}

// The same, by the list function alone.
#[tactic(auto, unfolding(crate::specs::Body::declarations))]
fn take_declarations(alloc: Global, bytes: &[u8]) -> Result<(Vec<Declaration>, &[u8]), IrError>
    ensures { Gives (λ r. (declarations_of r.0.items, r.1.now)) result (at declarations bytes.now) }
{
    if let Some(rest) = behind_zero(bytes) {
        return Ok((Vec::new(alloc), rest));
    }
    Ok(read_vector::<Declaration>(alloc, bytes)?)
}

// The bytes behind a first one that is 0.
#[inline]
fn behind_zero(bytes: &[u8]) -> Option<&[u8]>
    ensures { IfSome result (λ rest. bytes.now ≡ 0 ∷ rest.now) }
{
    match bytes.split_first() {
        Some((first, rest)) if *first == 0 => Some(rest),
        _ => None,
    }
}

// The types of the locals that these declare, one for each.
pub(crate) fn name_types(
    alloc: Global,
    declarations: &[Declaration],
    indices: &IndicesToIds,
) -> Result<Vec<ValType>, IrError>
    ensures { Gives (λ types. map val_type types.items) result
        (declared_types (ids_at indices.now) (declarations_of declarations.now)) }
{
    let mut types = Vec::new(alloc);
    for declaration in declarations {
        let Some(ty) = name_value(declaration.value, indices) else {
            return Err(IrError::Malformed);
        };
        push_times(&mut types, ty, declaration.count)?;
    }
    Ok(types)
}

// Appends a type so many times.
fn push_times(types: &mut Vec<ValType>, ty: ValType, count: u32) -> Result<(), AllocError>
    ensures { IfOk result (λ _. types.new.items ≡ types.old.items ++ replicate count ty) }
{
    for _turn in 0..count {
        types.push(ty)?;
    }
    Ok(())
}

// The rank of a type in the order in which locals are declared; none of a reference.
fn rank_of(value: RawVal) -> Option<u8> {
    match value {
        RawVal::I32 => Some(0),
        RawVal::I64 => Some(1),
        RawVal::F32 => Some(2),
        RawVal::F64 => Some(3),
        RawVal::V128 => Some(4),
        RawVal::Ref(_) => None,
    }
}

/// The index of the first local that is declared behind so many parameters, if these locals stand by the ranks of their types: numbers and
/// vectors in the order in which a body that is written declares them. None where they don't, or one is a reference.
pub fn first_ranked(params: u32, declarations: &[Declaration]) -> Option<u32> {
    let mut least = 0;
    for declaration in declarations {
        let rank = rank_of(declaration.value)?;
        if rank < least {
            return None;
        }
        least = rank;
    }
    Some(params)
}
