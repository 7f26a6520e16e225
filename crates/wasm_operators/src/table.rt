//! The table of operators (Binary Format > Instructions), by their numbers.

ghost use Rattle.std.specs.Prelude.{◌≡◌, slice_index_or, option_map};
ghost use Rattle.wasm_operators.specs.declared.shape.Shape.TheVariants.{Free};
ghost use Rattle.wasm_operators.specs.Table.{kinds_of, listed};
ghost use Rattle.wasm_operators.specs.Shape.{kinds_of_shape};

use crate::kind::Kind;
use crate::shape::Shape;
use crate::shape::Shape::{
    Access, Bare, Block, Byte, Cast, Data, DataMemory, ElemTable, Element, F32, F64, Free,
    Function, Global, Heap, Label, Labels, Lane, Local, Memories, Memory, S32, S64, Sixteen, Table,
    Tables, Tag, Try, Type, TypeData, TypeElem, TypeNumber, TypeTable, Types, Values,
};
use wasm_opcodes::one_byte::{PREFIX_FB, PREFIX_FC, PREFIX_FD, PREFIX_FE};

/// The operators that are one byte.
static BYTES: [Shape; 256] = [
    Bare, Bare, Block, Block, Block, Bare, Block, Tag, Tag, Label, Bare, Bare, Label, Label,
    Labels, Bare, Function, TypeTable, Function, TypeTable, Type, Type, Free, Free, Label, Bare,
    Bare, Bare, Values, Free, Free, Try, Local, Local, Local, Global, Global, Table, Table, Free,
    Access, Access, Access, Access, Access, Access, Access, Access, Access, Access, Access, Access,
    Access, Access, Access, Access, Access, Access, Access, Access, Access, Access, Access, Memory,
    Memory, S32, S64, F32, F64, Bare, Bare, Bare, Bare, Bare, Bare, Bare, Bare, Bare, Bare, Bare,
    Bare, Bare, Bare, Bare, Bare, Bare, Bare, Bare, Bare, Bare, Bare, Bare, Bare, Bare, Bare, Bare,
    Bare, Bare, Bare, Bare, Bare, Bare, Bare, Bare, Bare, Bare, Bare, Bare, Bare, Bare, Bare, Bare,
    Bare, Bare, Bare, Bare, Bare, Bare, Bare, Bare, Bare, Bare, Bare, Bare, Bare, Bare, Bare, Bare,
    Bare, Bare, Bare, Bare, Bare, Bare, Bare, Bare, Bare, Bare, Bare, Bare, Bare, Bare, Bare, Bare,
    Bare, Bare, Bare, Bare, Bare, Bare, Bare, Bare, Bare, Bare, Bare, Bare, Bare, Bare, Bare, Bare,
    Bare, Bare, Bare, Bare, Bare, Bare, Bare, Bare, Bare, Bare, Bare, Bare, Bare, Bare, Bare, Bare,
    Bare, Bare, Bare, Bare, Bare, Bare, Bare, Bare, Bare, Bare, Bare, Bare, Bare, Bare, Bare, Bare,
    Bare, Bare, Bare, Bare, Bare, Free, Free, Free, Free, Free, Free, Free, Free, Free, Free, Free,
    Heap, Bare, Function, Bare, Bare, Label, Label, Free, Free, Free, Free, Free, Free, Free, Free,
    Free, Free, Free, Free, Free, Free, Free, Free, Free, Free, Free, Free, Free, Free, Free, Free,
    Free, Free, Free, Free, Free, Free, Free, Free, Free, Free, Free, Free, Free, Free, Free, Free,
    Free,
];

/// The operators behind the byte FB.
static BEHIND_FB: [Shape; 31] = [
    Type, Type, TypeNumber, TypeNumber, TypeNumber, TypeNumber, Type, Type, TypeNumber, TypeData,
    TypeElem, Type, Type, Type, Type, Bare, Type, Types, TypeData, TypeElem, Heap, Heap, Heap,
    Heap, Cast, Cast, Bare, Bare, Bare, Bare, Bare,
];

/// The operators behind the byte FC.
static BEHIND_FC: [Shape; 23] = [
    Bare, Bare, Bare, Bare, Bare, Bare, Bare, Bare, DataMemory, Data, Memories, Memory, ElemTable,
    Element, Tables, Table, Table, Table, Free, Bare, Bare, Bare, Bare,
];

/// The operators behind the byte FD.
static BEHIND_FD: [Shape; 276] = [
    Access, Access, Access, Access, Access, Access, Access, Access, Access, Access, Access, Access,
    Sixteen, Sixteen, Bare, Bare, Bare, Bare, Bare, Bare, Bare, Byte, Byte, Byte, Byte, Byte, Byte,
    Byte, Byte, Byte, Byte, Byte, Byte, Byte, Byte, Bare, Bare, Bare, Bare, Bare, Bare, Bare, Bare,
    Bare, Bare, Bare, Bare, Bare, Bare, Bare, Bare, Bare, Bare, Bare, Bare, Bare, Bare, Bare, Bare,
    Bare, Bare, Bare, Bare, Bare, Bare, Bare, Bare, Bare, Bare, Bare, Bare, Bare, Bare, Bare, Bare,
    Bare, Bare, Bare, Bare, Bare, Bare, Bare, Bare, Bare, Lane, Lane, Lane, Lane, Lane, Lane, Lane,
    Lane, Access, Access, Bare, Bare, Bare, Bare, Bare, Bare, Bare, Bare, Bare, Bare, Bare, Bare,
    Bare, Bare, Bare, Bare, Bare, Bare, Bare, Bare, Bare, Bare, Bare, Bare, Bare, Bare, Bare, Bare,
    Bare, Bare, Bare, Bare, Bare, Bare, Bare, Bare, Bare, Bare, Bare, Bare, Bare, Bare, Bare, Bare,
    Bare, Bare, Bare, Bare, Bare, Bare, Bare, Bare, Bare, Bare, Bare, Bare, Bare, Bare, Bare, Bare,
    Bare, Bare, Bare, Bare, Bare, Bare, Bare, Bare, Bare, Bare, Bare, Bare, Bare, Bare, Bare, Bare,
    Bare, Bare, Bare, Bare, Bare, Bare, Bare, Bare, Bare, Bare, Bare, Bare, Bare, Bare, Bare, Bare,
    Bare, Bare, Bare, Bare, Bare, Bare, Bare, Bare, Bare, Bare, Bare, Bare, Bare, Bare, Bare, Bare,
    Bare, Bare, Bare, Bare, Bare, Bare, Bare, Bare, Bare, Bare, Bare, Bare, Bare, Bare, Bare, Bare,
    Bare, Bare, Bare, Bare, Bare, Bare, Bare, Bare, Bare, Bare, Bare, Bare, Bare, Bare, Bare, Bare,
    Bare, Bare, Bare, Bare, Bare, Bare, Bare, Bare, Bare, Bare, Bare, Bare, Bare, Bare, Bare, Bare,
    Bare, Bare, Bare, Bare, Bare, Bare, Bare, Bare, Bare, Bare, Bare, Bare, Bare, Bare, Bare, Bare,
    Bare, Bare, Bare, Bare, Bare, Bare, Bare, Bare, Bare, Bare,
];

/// The operators behind the byte FE.
static BEHIND_FE: [Shape; 79] = [
    Access, Access, Access, Byte, Free, Free, Free, Free, Free, Free, Free, Free, Free, Free, Free,
    Free, Access, Access, Access, Access, Access, Access, Access, Access, Access, Access, Access,
    Access, Access, Access, Access, Access, Access, Access, Access, Access, Access, Access, Access,
    Access, Access, Access, Access, Access, Access, Access, Access, Access, Access, Access, Access,
    Access, Access, Access, Access, Access, Access, Access, Access, Access, Access, Access, Access,
    Access, Access, Access, Access, Access, Access, Access, Access, Access, Access, Access, Access,
    Access, Access, Access, Access,
];

/// The entry of this number; past the end there is no operator.
#[inline]
fn entry(entries: &[Shape], number: u32) -> Shape
    ensures { result ≡ slice_index_or entries.now number Free }
{
    match entries.get(number as usize) {
        Some(shape) => *shape,
        None => Shape::Free,
    }
}

/// What stands behind an operator.
fn shape_of(op: u32) -> Shape
    ensures { kinds_of_shape result ≡ kinds_of op }
{
    let number = op % 65_536;
    match op / 65_536 {
        0 => entry(&BYTES, number),
        PREFIX_FB => entry(&BEHIND_FB, number),
        PREFIX_FC => entry(&BEHIND_FC, number),
        PREFIX_FD => entry(&BEHIND_FD, number),
        PREFIX_FE => entry(&BEHIND_FE, number),
        _ => Shape::Free,
    }
}

/// The kinds of the arguments of an operator (Binary Format > Instructions), in their order, and then `Nothing`; none where there
/// is no such operator. The operator is its byte, or its prefix byte times 65,536 and the number behind it.
pub fn kinds(op: u32) -> Option<[Kind; 4]>
    ensures { option_map listed result ≡ kinds_of op }
{
    shape_of(op).kinds()
}
