//! Constant expressions (Valid > Instructions > Expressions > Constant Expressions).
ghost use Rattle.std.specs.Prelude.{◌≡◌, IfOk};

use crate::keys::{FunctionId, GlobalId, TypeId};
use crate::value::{HeapType, RefType};
use std::alloc::{AllocError, Global};

/// A number or a vector (Structure > Values).
#[derive(Clone, Copy, Debug, PartialEq, Eq)]
pub enum Value {
    /// An integer of 32 bits.
    I32(i32),
    /// An integer of 64 bits.
    I64(i64),
    /// The bits of a floating-point number of 32 bits.
    F32(u32),
    /// The bits of a floating-point number of 64 bits.
    F64(u64),
    /// The bytes of a vector, the lowest first.
    V128([u8; 16]),
}

/// An operator that may stand in a constant expression (Valid > Instructions > Expressions > Constant Expressions).
#[derive(Clone, Copy, Debug, PartialEq, Eq)]
pub enum ConstOp {
    /// `global.get`.
    GlobalGet(GlobalId),
    /// `i32.const`.
    I32Const(i32),
    /// `i64.const`.
    I64Const(i64),
    /// `f32.const`, with the bits of its number.
    F32Const(u32),
    /// `f64.const`, with the bits of its number.
    F64Const(u64),
    /// `v128.const`, with the bytes of its vector, the lowest first.
    V128Const([u8; 16]),
    /// `i32.add`.
    I32Add,
    /// `i32.sub`.
    I32Sub,
    /// `i32.mul`.
    I32Mul,
    /// `i64.add`.
    I64Add,
    /// `i64.sub`.
    I64Sub,
    /// `i64.mul`.
    I64Mul,
    /// `ref.null`.
    RefNull(HeapType),
    /// `ref.func`.
    RefFunc(FunctionId),
    /// `struct.new`.
    StructNew(TypeId),
    /// `struct.new_default`.
    StructNewDefault(TypeId),
    /// `array.new`.
    ArrayNew(TypeId),
    /// `array.new_default`.
    ArrayNewDefault(TypeId),
    /// `array.new_fixed`, with the number of elements.
    ArrayNewFixed(TypeId, u32),
    /// `any.convert_extern`.
    AnyConvertExtern,
    /// `extern.convert_any`.
    ExternConvertAny,
    /// `ref.i31`.
    RefI31,
}

/// A constant expression, without the `end` that closes it.
#[derive(Debug, Drop, PartialEq, Eq)]
pub enum ConstExpr {
    /// A constant.
    Value(Value),
    /// The value of a global.
    Global(GlobalId),
    /// The null of a reference type.
    RefNull(RefType),
    /// A reference to a function.
    RefFunc(FunctionId),
    /// Any operators.
    Extended(Vec<ConstOp>),
}

impl ConstExpr {
    ghost use Rattle.walrus_base.specs.ConstOps.{SameExpr, const_ops};

    /// An equal expression.
    pub fn try_clone(&self, alloc: Global) -> Result<ConstExpr, AllocError>
        ensures same { IfOk result (λ copy. SameExpr self.now copy) }
        ensures operators { IfOk result (λ copy. const_ops copy ≡ const_ops self.now) }
    {
        match self {
            ConstExpr::Value(value) => Ok(ConstExpr::Value(*value)),
            ConstExpr::Global(id) => Ok(ConstExpr::Global(*id)),
            ConstExpr::RefNull(ty) => Ok(ConstExpr::RefNull(*ty)),
            ConstExpr::RefFunc(id) => Ok(ConstExpr::RefFunc(*id)),
            ConstExpr::Extended(ops) => Ok(ConstExpr::Extended(ops.to_vec(alloc)?)),
        }
    }
}
