//! Composite types, and what they are made of (Structure > Types).
ghost use Rattle.std.specs.Prelude.{◌≡◌, ◌≤◌, map, take, drop, length, IfOk};

use crate::keys::TypeId;
use crate::value::ValType;
use std::alloc::{AllocError, Global};

/// What a field holds (Structure > Types > Composite Types): a value, or a packed integer.
#[derive(Clone, Copy, Debug, PartialEq, Eq, PartialOrd, Ord, Hash)]
pub enum StorageType {
    /// A value of a value type.
    Val(ValType),
    /// An integer packed into 8 bits.
    I8,
    /// An integer packed into 16 bits.
    I16,
}

/// The type of a field of a struct, or of the elements of an array (Structure > Types > Composite Types).
#[derive(Clone, Copy, Debug, PartialEq, Eq, PartialOrd, Ord, Hash)]
pub struct FieldType {
    /// What the field holds.
    pub element_type: StorageType,
    /// Whether it can be written.
    pub mutable: bool,
}

/// What a function takes and gives back (Structure > Types > Composite Types).
#[derive(Debug, Drop, PartialEq, Eq, PartialOrd, Ord)]
pub struct FunctionType {
    // How many parameters it has.
    param_count: usize,
    // The types of its parameters, and behind them those of its results.
    values: Vec<ValType>,
    ghost within: { param_count ≤ length values.items },
}

impl FunctionType {
    ghost use Rattle.walrus_base.specs.Composite.{function_type, function_of};
    ghost use Rattle.walrus_base.specs.Value.{val_type};

    /// The type of a function whose parameters are the first so many of these values, or all where there are fewer, and whose
    /// results are the others.
    pub fn of(values: Vec<ValType>, param_count: usize) -> FunctionType
        ensures { function_type result
            ≡ function_of (take param_count values.items) (drop param_count values.items) }
    {
        FunctionType {
            param_count: param_count.min(values.len()),
            values,
        }
    }

    /// The type of a function with these parameters and results.
    pub fn new(
        alloc: Global,
        params: &[ValType],
        results: &[ValType],
    ) -> Result<FunctionType, AllocError>
        ensures { IfOk result (λ f. function_type f ≡ function_of params.now results.now) }
    {
        let mut values = Vec::with_capacity(alloc, params.len().saturating_add(results.len()))?;
        values.extend_from_slice(params)?;
        values.extend_from_slice(results)?;
        Ok(FunctionType::of(values, params.len()))
    }

    /// An equal type.
    pub fn try_clone(&self, alloc: Global) -> Result<FunctionType, AllocError>
        ensures { IfOk result (λ copy. function_type copy ≡ function_type self.now) }
    {
        let values = self.values.to_vec(alloc)?;
        Ok(FunctionType::of(values, self.param_count))
    }

    /// The types of its parameters, in order.
    pub fn params(&self) -> &[ValType]
        ensures { map val_type result.now ≡ (function_type self.now).params }
    {
        let (params, _results) = self.values.as_slice().split_at(self.param_count);
        params
    }

    /// The types of its results, in order.
    pub fn results(&self) -> &[ValType]
        ensures { map val_type result.now ≡ (function_type self.now).results }
    {
        let (_params, results) = self.values.as_slice().split_at(self.param_count);
        results
    }
}

/// The fields of a struct, in order (Structure > Types > Composite Types).
#[derive(Debug, Drop, PartialEq, Eq)]
pub struct StructType {
    /// The types of the fields.
    pub fields: Vec<FieldType>,
}

/// The type of an array (Structure > Types > Composite Types).
#[derive(Clone, Copy, Debug, PartialEq, Eq)]
pub struct ArrayType {
    /// The type of its elements.
    pub field: FieldType,
}

/// The type of a function, a struct or an array (Structure > Types > Composite Types).
#[derive(Debug, Drop, PartialEq, Eq)]
pub enum CompositeType {
    /// A function.
    Function(FunctionType),
    /// A struct.
    Struct(StructType),
    /// An array.
    Array(ArrayType),
}

/// A member of a group of types that is to be added (Structure > Types > Recursive Types).
#[derive(Debug, Drop, PartialEq, Eq)]
pub struct NewType {
    /// Whether no other type may be a subtype of it.
    pub is_final: bool,
    /// The type that it is a subtype of.
    pub supertype: Option<TypeId>,
    /// What it is a type of.
    pub comp: CompositeType,
}
