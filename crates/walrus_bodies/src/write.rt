//! Writing a body with new numbers (Binary Format > Instructions).
#![tactic(auto, unfolding(crate::specs::PlainCode::limits_in, crate::specs::Function::name_of, crate::specs::Function::as_text, crate::specs::Function::body_of, crate::specs::Function::locations_of, crate::specs::Function::args_of, crate::specs::Function::handlers_in, crate::specs::Function::listed_in, crate::specs::Function::located_in))]

ghost use Rattle.std.specs.Prelude.{◌≡◌, ◌+◌, ◌<◌, ◌≤◌, ℕ, List, None, Option, Some, length, map, slice_index_or, true, IfOk, IsTrue};
ghost use Rattle.std.specs.List.{range_with_len};
ghost use Rattle.wasm_forms.specs.Number.{AreBytes};
ghost use Rattle.wasm_text.specs.Filling.{Answers};
ghost use Rattle.walrus_base.specs.Operators.{Memories};
ghost use Rattle.walrus_code.specs.Names.{Lookup};
ghost use Rattle.walrus_code.specs.Indices.{index_of, local_index};
ghost use Rattle.walrus_bodies.specs.Emitting.{EmitsOperators};
ghost use Rattle.walrus_bodies.specs.declared.features.Features.{Features as Proposals};
ghost use Rattle.walrus_bodies.specs.Numbers.{item_number, kept_numbers_in, numbering, numbers_in};
ghost use Rattle.walrus_bodies.specs.Text.{first_local_of, left_out_of, local_count_of, ops_in};

use crate::emit::append_operators;
use crate::features::Features;
use crate::text::Text;
use std::alloc::{AllocError, Global};
use walrus_base::Id;
use walrus_code::{IdsToIndices, IrError, LocalNumbers};
use wasm_text::{
    MARK_FUNCTION, MARK_GLOBAL, MARK_LOCAL, MARK_MEMORY, MARK_TABLE, MARK_TYPE, NO_NUMBER, Numbers,
    append_filled,
};

// The new numbers of what a body names: its locals lie from a place on, and stand in a table in that order.
#[derive(Drop)]
pub(crate) struct BodyNumbers<'a> {
    pub(crate) indices: &'a IdsToIndices,
    pub(crate) table: &'a [Option<u32>],
    pub(crate) first_local: u32,
}

// The same where its locals keep their indices.
#[derive(Drop)]
pub(crate) struct KeptNumbers<'a> {
    pub(crate) indices: &'a IdsToIndices,
    pub(crate) first_local: u32,
}

// The number, or the one that stands for none.
#[inline]
fn number_or_none(number: Option<u32>) -> u64
    ensures { Answers result number }
{
    match number {
        Some(number) => u64::from(number),
        None => NO_NUMBER,
    }
}

// The new numbers of so many locals from a place on.
fn new_numbers(
    alloc: Global,
    locals: &LocalNumbers,
    first: u32,
    count: u32,
) -> Result<Vec<Option<u32>>, AllocError>
    ensures { IfOk result (λ table. table.items
        ≡ map (local_index locals.now) (range_with_len first count)) }
{
    let mut table = Vec::with_capacity(alloc, count as usize)?;
    'locals: for offset in 0..count {
        let place = first as usize + offset as usize;
        table.push(locals.get(Id::at(place)))?;
    }
    Ok(table)
}

// What a table has at an index; none behind its end.
#[inline]
fn entry_at(table: &[Option<u32>], index: u32) -> Option<u32>
    ensures { result ≡ slice_index_or table.now index None }
{
    let place = index as usize;
    if place < table.len() {
        table[place]
    } else {
        None
    }
}

// The new number of an item, by the kind of a mark; none for other kinds.
#[inline]
fn item_number(indices: &IdsToIndices, kind: u32, index: u32) -> Option<u32>
    ensures { result ≡ item_number (index_of indices.now) kind index }
{
    let place = index as usize;
    match kind {
        MARK_FUNCTION => indices.get_func_index(Id::at(place)),
        MARK_GLOBAL => indices.get_global_index(Id::at(place)),
        MARK_TYPE => indices.get_type_index(Id::at(place)),
        MARK_TABLE => indices.get_table_index(Id::at(place)),
        MARK_MEMORY => indices.get_memory_index(Id::at(place)),
        _ => None,
    }
}

impl<'a> Numbers for BodyNumbers<'a> {
    ghost number = { numbers_in };

    #[inline]
    fn new_number(&self, kind: u32, index: u32) -> u64 {
        if kind == MARK_LOCAL {
            return number_or_none(entry_at(self.table, index));
        }
        number_or_none(item_number(self.indices, kind, index))
    }
}

impl<'a> Numbers for KeptNumbers<'a> {
    ghost number = { kept_numbers_in };

    #[inline]
    fn new_number(&self, kind: u32, index: u32) -> u64 {
        if kind == MARK_LOCAL {
            return u64::from(index);
        }
        number_or_none(item_number(self.indices, kind, index))
    }
}

// What the code holds as bytes is in their ranges.
fn bytes_are_held(bytes: &[u8])
    ensures { AreBytes bytes.now }
{}

// Appends the operators of a text with these numbers, each argument in its one spelling. What stands without a mark has to keep its number.
fn append_numbered<N: Numbers>(text: &Text, to: &mut Vec<u8>, numbers: &N) -> Result<(), IrError>
    ensures { (names : Lookup) (given locals : ℕ → Option ℕ) (features : Proposals)
        → N.number numbers.now ≡ numbering names given (first_local_of text.now)
        → ((n : ℕ) → (left_out_of text.now).first ≤ n → n < local_count_of text.now
        → given (first_local_of text.now + n) ≡ Some n)
        → ((left_out_of text.now).accessed ≡ true → names Memories 0 ≡ Some 0)
        → ((i : ℕ) → i < local_count_of text.now
        → given (first_local_of text.now + i) ≡ locals (first_local_of text.now + i))
        → (places : List ℕ) × EmitsOperators names locals features (ops_in text.now) to.old.items
        to.new.items (λ _. places) result }
{
    let bytes = text.bytes();
    let marks = text.marks();
    bytes_are_held(bytes);
    if append_filled(to, bytes, marks, numbers)? {
        Ok(())
    } else {
        Err(IrError::NoIndex)
    }
}

impl Text {
    /// Appends its operators with the indices of what they name, each argument in its one spelling (Binary Format > Instructions).
    ///
    /// # Errors
    ///
    /// [`IrError::NoIndex`] where an item or a local that they name has no index, and `Memory`. What was appended means nothing then.
    pub fn append(
        &self,
        to: &mut Vec<u8>,
        indices: &IdsToIndices,
        locals: &LocalNumbers,
    ) -> Result<(), IrError>
        ensures { (features : Proposals) → (places : List ℕ) × EmitsOperators (index_of indices.now)
            (local_index locals.now) features (ops_in self.now) to.old.items to.new.items
            (λ _. places) result }
    {
        let alloc = *to.allocator();
        let table = new_numbers(alloc, locals, self.first_local, self.local_count())?;
        if !self.memory_stays(indices) || !are_kept(&table, self.left_out().first) {
            return self.append_listed(alloc, to, indices, locals);
        }
        let numbers = BodyNumbers {
            indices,
            table: table.as_slice(),
            first_local: self.first_local,
        };
        append_numbered(self, to, &numbers)
    }

    /// The same, where each local keeps its index.
    ///
    /// # Errors
    ///
    /// [`IrError::NoIndex`] where an item that they name has no index, and `Memory`. What was appended means nothing then.
    pub fn append_kept(&self, to: &mut Vec<u8>, indices: &IdsToIndices) -> Result<(), IrError>
        ensures { (locals : ℕ → Option ℕ) (features : Proposals)
            → ((i : ℕ) → i < local_count_of self.now → locals (first_local_of self.now + i) ≡ Some i)
            → (places : List ℕ) × EmitsOperators (index_of indices.now) locals features (ops_in self.now)
            to.old.items to.new.items (λ _. places) result }
    {
        if !self.memory_stays(indices) {
            let alloc = *to.allocator();
            let locals = same_numbers(alloc, self.first_local, self.local_count())?;
            return self.append_listed(alloc, to, indices, &locals);
        }
        let numbers = KeptNumbers {
            indices,
            first_local: self.first_local,
        };
        append_numbered(self, to, &numbers)
    }

    // Whether it accesses memory 0 nowhere without a mark, or that keeps its index.
    fn memory_stays(&self, indices: &IdsToIndices) -> bool
        ensures { IsTrue result → (left_out_of self.now).accessed ≡ true
            → index_of indices.now Memories 0 ≡ Some 0 }
    {
        !self.left_out().accessed || indices.get_memory_index(Id::at(0)) == Some(0)
    }

    // Appends its operators one by one, whatever the proposals are.
    fn append_listed(
        &self,
        alloc: Global,
        to: &mut Vec<u8>,
        indices: &IdsToIndices,
        locals: &LocalNumbers,
    ) -> Result<(), IrError>
        ensures { (features : Proposals) → (places : List ℕ) × EmitsOperators (index_of indices.now)
            (local_index locals.now) features (ops_in self.now) to.old.items to.new.items
            (λ _. places) result }
    {
        let operators = self.operators(alloc)?;
        let listed = operators.as_slice();
        let features = Features {
            legacy_exceptions: false,
            only_stable: true,
        };
        let _placed = append_operators(alloc, to, listed, indices, locals, &features, false)?;
        Ok(())
    }
}

// Whether this is the number of an index, which it keeps.
#[inline]
fn is_kept(number: Option<u32>, index: usize) -> bool
    ensures { IsTrue result → number ≡ Some index }
{
    match number {
        Some(number) => number as usize == index,
        None => false,
    }
}

// Whether each local from one on keeps its index.
fn are_kept(table: &[Option<u32>], first: u32) -> bool
    ensures { IsTrue result → (n : ℕ) → first ≤ n → n < length table.now
        → slice_index_or table.now n None ≡ Some n }
{
    'table: for index in first as usize..table.len() {
        if !is_kept(table[index], index) {
            return false;
        }
    }
    true
}

// The numbers of so many locals from a place on, of which each keeps its index.
fn same_numbers(alloc: Global, first: u32, count: u32) -> Result<LocalNumbers, AllocError>
    ensures { IfOk result (λ numbers. (i : ℕ) → i < count → local_index numbers (first + i) ≡ Some i) }
{
    let mut numbers = LocalNumbers::new(alloc);
    'locals: for offset in 0..count {
        numbers.push(Id::at(first as usize + offset as usize))?;
    }
    Ok(numbers)
}
