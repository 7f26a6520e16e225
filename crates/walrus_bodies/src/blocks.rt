//! Which blocks are open at a place of a body (Structure > Instructions > Control Instructions).
ghost use Rattle.std.specs.Prelude.{◌≡◌, ◌-◌, ◌∷◌, [], MatchOption, IfOk, map};
ghost use Rattle.std.specs.List.{list_all};
ghost use Rattle.walrus_code.specs.Code.{arg_of};
ghost use Rattle.walrus_bodies.specs.Blocks.{is_none_open, blocks_behind, behind_else, behind_catch, behind_catch_all, behind_delegate, behind_end, blocks_meant, blocks_after, labels_below, label_below};
ghost use Rattle.walrus_bodies.specs.OpenBlocks.{opened, Steps};

use std::alloc::{AllocError, Global};
use walrus_code::Arg;
use wasm_opcodes::one_byte::{
    BLOCK, CATCH, CATCH_ALL, DELEGATE, ELSE, END, IF, LOOP, TRY, TRY_TABLE,
};

/// An open block, by what may still stand directly in it.
#[derive(Clone, Copy, Debug, PartialEq, Eq)]
pub enum Opened {
    /// Nothing but what may stand in any block. The function itself is such a block.
    Plain,
    /// An `if` without its `else`.
    If,
    /// A `try` without its `catch_all`: handlers may stand in it.
    Try,
    /// A `try` behind its `catch_all`.
    Handled,
}

/// The blocks that are open at a place of a body. Contracts see a list, the innermost block first.
#[derive(Drop)]
pub struct OpenBlocks {
    blocks: Vec<Opened>,
}

impl OpenBlocks {
    /// The function itself is open, and no block in it.
    pub fn new(alloc: Global) -> Result<OpenBlocks, AllocError>
        ensures { IfOk result (λ blocks. opened blocks ≡ Opened.Plain ∷ []) }
    {
        let mut blocks = Vec::new(alloc);
        blocks.push(Opened::Plain)?;
        Ok(OpenBlocks { blocks })
    }

    /// Whether no block is open: the function is at its end.
    pub fn is_closed(&self) -> bool
        ensures { result ≡ is_none_open (opened self.now) }
    {
        self.blocks.is_empty()
    }

    /// Steps over an operator, and answers whether it may stand here: in an open block, with labels that mean open blocks, and in its
    /// order. Where it may not, or where memory runs out, the blocks mean nothing from then on.
    pub fn step(&mut self, op: u32, args: &[Arg]) -> Result<bool, AllocError>
        ensures { Steps (blocks_after op (map arg_of args.now) (opened self.old)) (opened self.new) result }
    {
        if self.is_closed() || !labels_below(self.meant(op), args) {
            return Ok(false);
        }
        self.turn(op)
    }

    // How many blocks a label of the operator can mean.
    fn meant(&self, op: u32) -> usize
        ensures { result ≡ blocks_meant op (opened self.now) }
    {
        if op == DELEGATE {
            self.blocks.len().saturating_sub(1)
        } else {
            self.blocks.len()
        }
    }

    // Opens or closes what the operator does, and answers whether it may stand here in its order; labels aren't looked at. Where it may
    // not, or where memory runs out, the blocks mean nothing from then on.
    fn turn(&mut self, op: u32) -> Result<bool, AllocError>
        ensures { Steps (blocks_behind op (opened self.old)) (opened self.new) result }
    {
        match op {
            BLOCK | LOOP | TRY_TABLE => self.open(Opened::Plain),
            IF => self.open(Opened::If),
            TRY => self.open(Opened::Try),
            ELSE => self.take_else(),
            CATCH => self.take_catch(),
            CATCH_ALL => self.take_catch_all(),
            DELEGATE => Ok(self.take_delegate()),
            END => Ok(self.take_end()),
            _ => Ok(true),
        }
    }

    // A block opens in the innermost one.
    fn open(&mut self, block: Opened) -> Result<bool, AllocError>
        ensures { Steps (Some (block ∷ opened self.old)) (opened self.new) result }
    {
        self.blocks.push(block)?;
        Ok(true)
    }

    // The innermost block, which closes.
    fn close(&mut self) -> Option<Opened>
        ensures { MatchOption result (opened self.old ≡ []) (λ block. opened self.old
            ≡ block ∷ opened self.new) }
    {
        self.blocks.pop()
    }

    fn take_else(&mut self) -> Result<bool, AllocError>
        ensures { Steps (behind_else (opened self.old)) (opened self.new) result }
    {
        match self.close() {
            Some(Opened::If) => self.open(Opened::Plain),
            _ => Ok(false),
        }
    }

    fn take_catch(&mut self) -> Result<bool, AllocError>
        ensures { Steps (behind_catch (opened self.old)) (opened self.new) result }
    {
        match self.close() {
            Some(Opened::Try) => self.open(Opened::Try),
            _ => Ok(false),
        }
    }

    fn take_catch_all(&mut self) -> Result<bool, AllocError>
        ensures { Steps (behind_catch_all (opened self.old)) (opened self.new) result }
    {
        match self.close() {
            Some(Opened::Try) => self.open(Opened::Handled),
            _ => Ok(false),
        }
    }

    fn take_delegate(&mut self) -> bool
        ensures { Steps {E = ⊥} (behind_delegate (opened self.old)) (opened self.new) (Ok result) }
    {
        matches!(self.close(), Some(Opened::Try | Opened::Handled))
    }

    fn take_end(&mut self) -> bool
        ensures { Steps {E = ⊥} (behind_end (opened self.old)) (opened self.new) (Ok result) }
    {
        self.close().is_some()
    }
}

// Whether each label among the arguments is below this count.
fn labels_below(count: usize, args: &[Arg]) -> bool
    ensures { result ≡ labels_below count (map arg_of args.now) }
{
    for arg in args {
        if !label_below(count, arg) {
            return false;
        }
    }
    true
}

// Whether the argument is no label, or one below this count.
fn label_below(count: usize, arg: &Arg) -> bool
    ensures { result ≡ label_below count (arg_of arg.now) }
{
    match arg {
        Arg::Label(label) => (*label as usize) < count,
        _ => true,
    }
}
