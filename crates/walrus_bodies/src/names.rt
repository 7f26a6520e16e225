//! What the operators of a body name (Structure > Modules > Indices).
#![tactic(auto, unfolding(crate::specs::PlainCode::limits_in, crate::specs::Function::name_of, crate::specs::Function::as_text, crate::specs::Function::body_of, crate::specs::Function::locations_of, crate::specs::Function::args_of, crate::specs::Function::handlers_in, crate::specs::Function::listed_in, crate::specs::Function::located_in))]

ghost use Rattle.std.specs.Prelude.{◌≡◌, ◌≢◌, ◌++◌, flat_map, map, option_to_list, OnOk};
ghost use Rattle.wasm_text.specs.Marks.{AreInOrder, HasArgument, args_at, kind_of};
ghost use Rattle.wasm_text.specs.declared.mark.TheConstants.{MARK_ACCESS, MARK_BLOCK};
ghost use Rattle.walrus_base.specs.Operators.{names_of};
ghost use Rattle.walrus_code.specs.Code.{item_of};
ghost use Rattle.walrus_bodies.specs.Names.{OfArgument, PutsAt, PutsThese, items_named, memory_if};
ghost use Rattle.walrus_bodies.specs.Text.{ops_in};

use crate::place::place_arg;
use crate::text::Text;
use std::alloc::AllocError;
use walrus_base::Id;
use walrus_code::{Args, ItemId, Operator, push_names};
use wasm_text::{
    MARK_ACCESS, MARK_BLOCK, MARK_FUNCTION, MARK_GLOBAL, MARK_MEMORY, MARK_TABLE, MARK_TYPE,
    number_at, read_at_mark,
};

// The item that an index names, which stands at a mark; none for an argument of another kind.
#[inline]
fn item_at(bytes: &[u8], mark: u32) -> Option<ItemId>
    requires accesses { kind_of mark ≢ MARK_ACCESS }
    requires blocks { kind_of mark ≢ MARK_BLOCK }
    ensures { OfArgument bytes.now mark (λ arg. map item_of (option_to_list result) ≡ items_named arg) }
{
    let at = (mark / 16) as usize;
    match mark % 16 {
        MARK_FUNCTION => Some(ItemId::Function(Id::at(number_at(bytes, at) as usize))),
        MARK_GLOBAL => Some(ItemId::Global(Id::at(number_at(bytes, at) as usize))),
        MARK_TYPE => Some(ItemId::Type(Id::at(number_at(bytes, at) as usize))),
        MARK_TABLE => Some(ItemId::Table(Id::at(number_at(bytes, at) as usize))),
        MARK_MEMORY => Some(ItemId::Memory(Id::at(number_at(bytes, at) as usize))),
        _ => None,
    }
}

// Puts the item that the argument at a mark names behind the others, whatever its kind.
#[inline(never)]
fn push_read(to: &mut Vec<ItemId>, bytes: &[u8], mark: u32) -> Result<(), AllocError>
    requires { HasArgument bytes.now mark }
    ensures { OnOk result (PutsAt bytes.now mark to.old.items to.new.items) }
{
    let (arg, _rest) = read_at_mark(bytes, mark)?;
    let named = Operator::new(0, Args::One(place_arg(&arg, 0)));
    push_names(to, &named)
}

// Puts the item that the argument at a mark names behind the others.
#[inline]
fn push_item(to: &mut Vec<ItemId>, bytes: &[u8], mark: u32) -> Result<(), AllocError>
    requires { HasArgument bytes.now mark }
    ensures { OnOk result (PutsAt bytes.now mark to.old.items to.new.items) }
{
    match mark % 16 {
        MARK_ACCESS if number_at(bytes, (mark / 16) as usize) < 64 => {
            to.push(ItemId::Memory(Id::at(0)))?;
            Ok(())
        }
        MARK_ACCESS | MARK_BLOCK => push_read(to, bytes, mark),
        _ => {
            if let Some(item) = item_at(bytes, mark) {
                to.push(item)?;
            }
            Ok(())
        }
    }
}

// Puts the items that the arguments at marks name behind the others, in order.
fn push_items(to: &mut Vec<ItemId>, bytes: &[u8], marks: &[u32]) -> Result<(), AllocError>
    requires { AreInOrder bytes.now 0 marks.now }
    ensures { OnOk result (map item_of to.new.items ≡ map item_of to.old.items
        ++ flat_map items_named (args_at bytes.now marks.now)) }
{
    'marks: for mark in marks {
        push_item(to, bytes, *mark)?;
    }
    Ok(())
}

// Puts memory 0 behind the others, if it is to be put.
#[inline]
fn push_memory(to: &mut Vec<ItemId>, accessed: bool) -> Result<(), AllocError>
    ensures { OnOk result (map item_of to.new.items ≡ map item_of to.old.items ++ memory_if accessed) }
{
    if accessed {
        to.push(ItemId::Memory(Id::at(0)))?;
    }
    Ok(())
}

impl Text {
    /// Puts the items that its operators name behind those of `to`, each once or more often. Where memory runs out, some may stand there.
    ///
    /// # Errors
    ///
    /// `AllocError` where no memory is left.
    pub fn push_names(&self, to: &mut Vec<ItemId>) -> Result<(), AllocError>
        ensures { OnOk result (PutsThese to.old.items to.new.items (names_of (ops_in self.now))) }
    {
        push_memory(to, self.left_out().accessed)?;
        push_items(to, self.bytes(), self.marks())
    }
}
