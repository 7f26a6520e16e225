//! The locals that a body names.
#![tactic(auto, unfolding(crate::specs::PlainCode::limits_in, crate::specs::Function::name_of, crate::specs::Function::as_text, crate::specs::Function::body_of, crate::specs::Function::locations_of, crate::specs::Function::args_of, crate::specs::Function::handlers_in, crate::specs::Function::listed_in, crate::specs::Function::located_in))]

ghost use Rattle.std.specs.Prelude.{◌≡◌, ◌↔◌, ◌⊎◌, ◌<◌, ◌≤◌, ◌+◌, ◌++◌, [], List, ℕ, false, flat_map, length, map, slice_index_or, true, Contains, IfOk, IfSome, IsTrue};
ghost use Rattle.wasm_text.specs.Marks.{AreInOrder, args_at};
ghost use Rattle.walrus_base.specs.Operators.{arg_locals, locals_of};
ghost use Rattle.walrus_code.specs.FromRaw as from_raw;
ghost use Rattle.walrus_bodies.specs.Locals.{AreMarked, Flags, indices_named};
ghost use Rattle.walrus_bodies.specs.Names.{OfArgument};
ghost use Rattle.walrus_bodies.specs.Text.{first_local_of, local_count_of, ops_in};

use crate::text::Text;
use std::alloc::{AllocError, Global};
use wasm_text::{MARK_LOCAL, number_at};

// Flags the local that the argument at a mark names, if it names one that has a flag.
#[inline]
fn flag_mark(flags: &mut Vec<bool>, bytes: &[u8], mark: u32)
    ensures flagged { OfArgument bytes.now mark
        (λ arg. Flags flags.old.items flags.new.items (indices_named arg)) }
    ensures as_many { length flags.new.items ≡ length flags.old.items }
{
    if mark % 16 != MARK_LOCAL {
        return;
    }
    let index = number_at(bytes, (mark / 16) as usize) as usize;
    if index < flags.len() {
        flags[index] = true;
    }
}

// Flags the locals that the arguments at marks name, as far as they have flags.
fn flag_marks(flags: &mut Vec<bool>, bytes: &[u8], marks: &[u32])
    requires { AreInOrder bytes.now 0 marks.now }
    ensures flagged { Flags flags.old.items flags.new.items
        (flat_map indices_named (args_at bytes.now marks.now)) }
    ensures as_many { length flags.new.items ≡ length flags.old.items }
{
    'marks: for mark in marks {
        flag_mark(flags, bytes, *mark);
    }
}

// Flags all from one on.
fn flag_from(flags: &mut Vec<bool>, first: u32)
    ensures flagged { (x : ℕ) → (slice_index_or flags.new.items x false ≡ true)
        ↔ ((slice_index_or flags.old.items x false ≡ true) ⊎ ((first ≤ x) × (x < length flags.old.items))) }
    ensures as_many { length flags.new.items ≡ length flags.old.items }
{
    'flags: for index in first as usize..flags.len() {
        flags[index] = true;
    }
}

impl Text {
    /// Whether its operators name each local of the function from this index on, as far as that is told without a look at them.
    #[inline]
    pub fn names_from(&self, index: usize) -> bool
        ensures { IsTrue result → (x : ℕ) → index ≤ x → x < local_count_of self.now
            → Contains (locals_of (ops_in self.now)) (first_local_of self.now + x) }
    {
        self.left_out().first as usize <= index
    }

    /// A flag for each local of the function, parameters and then declared ones: whether its operators name it.
    ///
    /// # Errors
    ///
    /// `AllocError` where no memory is left.
    pub fn used_locals(&self, alloc: Global) -> Result<Vec<bool>, AllocError>
        ensures flags { IfOk result (λ flags. AreMarked (first_local_of self.now) flags.items
            (locals_of (ops_in self.now))) }
        ensures as_many { IfOk result (λ flags. length flags.items ≡ local_count_of self.now) }
    {
        let mut flags = Vec::new(alloc);
        flags.resize(self.local_count() as usize, false)?;
        flag_marks(&mut flags, self.bytes(), self.marks());
        flag_from(&mut flags, self.left_out().first);
        Ok(flags)
    }
}
