//! Operators by what a scan has to look at behind their first byte (Binary Format > Instructions).

ghost use Rattle.std.specs.Prelude.{◌≡◌, slice_index_or};
ghost use Rattle.wasm_text.specs.declared.class.Class.TheVariants as class;
ghost use Rattle.wasm_text.specs.Bodies.{Turns};
ghost use Rattle.wasm_text.specs.Classes.{Fits};

use crate::class::Class::{
    Access, Bare, Block, Else, End, F32, F64, Function, Global, Label, Labels, Local, Memory,
    Other, Prefix, S32, S64, Table, Type, TypeTable,
};

// What stands behind the first byte of an operator.
#[derive(Clone, Copy)]
pub(crate) enum Class {
    // No plain operator begins with the byte, or none that is scanned.
    Other,
    // A number, and what that leads to.
    Prefix,
    // No argument, and no block that is opened or closed.
    Bare,
    // `else`.
    Else,
    // `end`.
    End,
    // The type of a block, which opens.
    Block,
    // A label.
    Label,
    // Labels, and a label.
    Labels,
    // A function.
    Function,
    // A type.
    Type,
    // A type and a table.
    TypeTable,
    // A local.
    Local,
    // A global.
    Global,
    // A table.
    Table,
    // An access to memory.
    Access,
    // A memory.
    Memory,
    // A signed number of 32 bits.
    S32,
    // A signed number of 64 bits.
    S64,
    // An f32.
    F32,
    // An f64.
    F64,
}

// The class of each byte.
static CLASSES: [Class; 256] = [
    Bare, Bare, Block, Block, Block, Else, Other, Other, Other, Other, Bare, End, Label, Label,
    Labels, Bare, Function, TypeTable, Function, TypeTable, Type, Type, Other, Other, Other, Other,
    Bare, Bare, Other, Other, Other, Other, Local, Local, Local, Global, Global, Table, Table,
    Other, Access, Access, Access, Access, Access, Access, Access, Access, Access, Access, Access,
    Access, Access, Access, Access, Access, Access, Access, Access, Access, Access, Access, Access,
    Memory, Memory, S32, S64, F32, F64, Bare, Bare, Bare, Bare, Bare, Bare, Bare, Bare, Bare, Bare,
    Bare, Bare, Bare, Bare, Bare, Bare, Bare, Bare, Bare, Bare, Bare, Bare, Bare, Bare, Bare, Bare,
    Bare, Bare, Bare, Bare, Bare, Bare, Bare, Bare, Bare, Bare, Bare, Bare, Bare, Bare, Bare, Bare,
    Bare, Bare, Bare, Bare, Bare, Bare, Bare, Bare, Bare, Bare, Bare, Bare, Bare, Bare, Bare, Bare,
    Bare, Bare, Bare, Bare, Bare, Bare, Bare, Bare, Bare, Bare, Bare, Bare, Bare, Bare, Bare, Bare,
    Bare, Bare, Bare, Bare, Bare, Bare, Bare, Bare, Bare, Bare, Bare, Bare, Bare, Bare, Bare, Bare,
    Bare, Bare, Bare, Bare, Bare, Bare, Bare, Bare, Bare, Bare, Bare, Bare, Bare, Bare, Bare, Bare,
    Bare, Bare, Bare, Bare, Bare, Bare, Bare, Bare, Bare, Bare, Bare, Bare, Bare, Bare, Bare, Bare,
    Bare, Bare, Bare, Bare, Bare, Bare, Other, Other, Other, Other, Other, Other, Other, Other,
    Other, Other, Other, Other, Bare, Other, Bare, Bare, Label, Label, Other, Other, Other, Other,
    Other, Other, Other, Other, Other, Other, Other, Other, Other, Other, Other, Other, Other,
    Other, Other, Other, Other, Other, Other, Other, Other, Other, Other, Other, Other, Other,
    Other, Other, Other, Other, Other, Other, Other, Prefix, Other, Other, Other,
];

// The entry of this byte.
#[inline]
fn entry(classes: &[Class], byte: u8) -> Class
    ensures { result ≡ slice_index_or classes.now byte class.Other }
{
    match classes.get(usize::from(byte)) {
        Some(class) => *class,
        None => Class::Other,
    }
}

// The class of an operator's first byte.
#[inline]
pub(crate) fn class_of(byte: u8) -> Class
    ensures fits { Fits result byte }
    ensures turns { Turns result byte }
{
    entry(&CLASSES, byte)
}
