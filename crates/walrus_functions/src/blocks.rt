//! Which legacy `try` is the innermost block at a place of a body (Instructions > Control Instructions of the legacy exception handling
//! proposal).
ghost use Rattle.std.specs.Prelude.{◌≡◌, ◌∷◌, [], IfOk, None, map, option_map};
ghost use Rattle.walrus_code.specs.Code.{arg_of, block_of, op_of};
ghost use Rattle.walrus_functions.specs.Signatures.{first_opened, opened, opened_after, opened_type, try_type, without_first};

use std::alloc::{AllocError, Global};
use walrus_code::{Arg, BlockType, Operator};
use wasm_opcodes::one_byte::{BLOCK, DELEGATE, END, IF, LOOP, TRY, TRY_TABLE};

/// An open block.
#[derive(Clone, Copy)]
pub(crate) enum Opened {
    /// A legacy `try` of this type.
    Try(BlockType),
    /// Any other block. The function itself is such a block.
    Other,
}

/// The blocks that are open at a place of a body. Contracts see a list, the innermost block first.
#[derive(Drop)]
pub(crate) struct OpenBlocks {
    blocks: Vec<Opened>,
}

impl OpenBlocks {
    // The function itself is open, and no block in it.
    pub(crate) fn new(alloc: Global) -> Result<OpenBlocks, AllocError>
        ensures { IfOk result (λ blocks. opened blocks ≡ None ∷ []) }
    {
        let mut blocks = Vec::new(alloc);
        blocks.push(Opened::Other)?;
        Ok(OpenBlocks { blocks })
    }

    // The type of the innermost block, if it is a legacy try.
    pub(crate) fn innermost_try(&self) -> Option<BlockType>
        ensures { option_map block_of result ≡ first_opened (opened self.now) }
    {
        match self.blocks.last() {
            Some(Opened::Try(block)) => Some(*block),
            _ => None,
        }
    }

    // Steps over an operator of a body.
    pub(crate) fn step(&mut self, operator: &Operator) -> Result<(), AllocError>
        ensures { IfOk result (λ _. opened self.new ≡ opened_after (opened self.old) (op_of operator.now)) }
    {
        match operator.op {
            TRY => self.open(Opened::Try(block_type(operator.args.as_slice()))),
            BLOCK | LOOP | IF | TRY_TABLE => self.open(Opened::Other),
            END | DELEGATE => {
                self.close();
                Ok(())
            }
            _ => Ok(()),
        }
    }

    // A block opens in the innermost one.
    fn open(&mut self, block: Opened) -> Result<(), AllocError>
        ensures { IfOk result (λ _. opened self.new ≡ try_type block ∷ opened self.old) }
    {
        self.blocks.push(block)?;
        Ok(())
    }

    // The innermost block closes.
    fn close(&mut self)
        ensures { opened self.new ≡ without_first (opened self.old) }
    {
        let _closed = self.blocks.pop();
    }
}

// The type of the block that an operator with these arguments opens.
fn block_type(args: &[Arg]) -> BlockType
    ensures { block_of result ≡ opened_type (map arg_of args.now) }
{
    match args.first() {
        Some(Arg::Block(block)) => *block,
        _ => BlockType::NoResult,
    }
}
