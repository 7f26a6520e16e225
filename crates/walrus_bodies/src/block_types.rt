//! The types of the blocks of a body (Structure > Instructions > Control Instructions).
#![tactic(auto, unfolding(crate::specs::PlainCode::limits_in, crate::specs::Function::name_of, crate::specs::Function::as_text, crate::specs::Function::body_of, crate::specs::Function::locations_of, crate::specs::Function::args_of, crate::specs::Function::handlers_in, crate::specs::Function::listed_in, crate::specs::Function::located_in))]

ghost use Rattle.std.specs.Prelude.{◌≡◌, ◌≢◌, false, IfOk, IsFalse};
ghost use Rattle.std.specs.List.{All, list_all};
ghost use Rattle.wasm_text.specs.Marks.{AreInOrder, HasArgument, args_at, kind_of};
ghost use Rattle.wasm_text.specs.declared.mark.TheConstants.{MARK_BLOCK as BLOCK_KIND};
ghost use Rattle.walrus_bodies.specs.Blocks.{block_holds, blocks_hold};
ghost use Rattle.walrus_base.specs.Operators.{Block};
ghost use Rattle.walrus_code.specs.Code.{arg_of, block_of};
ghost use Rattle.walrus_code.specs.FromRaw as from_raw;
ghost use Rattle.walrus_bodies.specs.Names.{OfArgument};
ghost use Rattle.walrus_bodies.specs.Text.{ops_in};

use crate::place::place_arg;
use crate::text::Text;
use crate::types::FunctionTypes;
use std::alloc::AllocError;
use walrus_code::{Arg, BlockType};
use wasm_text::{MARK_BLOCK, read_at_mark};

// Whether the type of a block is a function type, or none of the module's.
fn type_holds<T: FunctionTypes>(types: &T, block: BlockType) -> bool
    ensures { result ≡ block_holds (T.function_types types.now) (Block (block_of block)) }
{
    match block {
        BlockType::OfType(id) => types.is_function_type(id),
        BlockType::NoResult | BlockType::OneResult(_) => true,
    }
}

// Whether an argument is no type of a block, or one that is a function type or none of the module's.
fn arg_holds<T: FunctionTypes>(types: &T, arg: Arg) -> bool
    ensures { result ≡ block_holds (T.function_types types.now) (arg_of arg) }
{
    match arg {
        Arg::Block(block) => type_holds(types, block),
        _ => true,
    }
}

// Whether the type of a block that stands at a mark is a function type, or none of the module's.
#[inline(never)]
fn read_holds<T: FunctionTypes>(types: &T, bytes: &[u8], mark: u32) -> Result<bool, AllocError>
    requires { HasArgument bytes.now mark }
    ensures { IfOk result (λ holds. OfArgument bytes.now mark
        (λ arg. holds ≡ block_holds (T.function_types types.now) (from_raw.arg_of arg))) }
{
    let (arg, _rest) = read_at_mark(bytes, mark)?;
    Ok(arg_holds(types, place_arg(&arg, 0)))
}

// Whether what stands at a mark is no type of a block, or one that is a function type or none of the module's.
#[inline]
fn mark_holds<T: FunctionTypes>(types: &T, bytes: &[u8], mark: u32) -> Result<bool, AllocError>
    requires { HasArgument bytes.now mark }
    ensures { IfOk result (λ holds. OfArgument bytes.now mark
        (λ arg. holds ≡ block_holds (T.function_types types.now) (from_raw.arg_of arg))) }
{
    if mark % 16 == MARK_BLOCK {
        return read_holds(types, bytes, mark);
    }
    Ok(true)
}

// Whether there was one before, or this mark is that of a type of a block.
#[inline]
fn or_block(found: bool, mark: u32) -> bool
    ensures { IsFalse result → (found ≡ false) × (kind_of mark ≢ BLOCK_KIND) }
{
    found || mark % 16 == MARK_BLOCK
}

// Whether one of these marks is that of a type of a block.
fn has_blocks(marks: &[u32]) -> bool
    ensures { IsFalse result → All (λ mark. kind_of mark ≢ BLOCK_KIND) marks.now }
{
    let mut found = false;
    'marks: for mark in marks {
        found = or_block(found, *mark);
    }
    found
}

// Whether what stands at each mark is no type of a block, or one that is a function type or none of the module's.
#[inline(never)]
fn marks_hold<T: FunctionTypes>(types: &T, bytes: &[u8], marks: &[u32]) -> Result<bool, AllocError>
    requires { AreInOrder bytes.now 0 marks.now }
    ensures { IfOk result (λ hold. hold
        ≡ list_all (λ arg. block_holds (T.function_types types.now) (from_raw.arg_of arg))
        (args_at bytes.now marks.now)) }
{
    'marks: for mark in marks {
        if !mark_holds(types, bytes, *mark)? {
            return Ok(false);
        }
    }
    Ok(true)
}

impl Text {
    /// Whether each type of a block in it is a function type.
    ///
    /// # Errors
    ///
    /// `AllocError` where no memory is left.
    pub fn blocks_hold<T: FunctionTypes>(&self, types: &T) -> Result<bool, AllocError>
        ensures { IfOk result (λ hold. hold ≡ blocks_hold (T.function_types types.now) (ops_in self.now)) }
    {
        let marks = self.marks();
        if !has_blocks(marks) {
            return Ok(true);
        }
        marks_hold(types, self.bytes(), marks)
    }
}
