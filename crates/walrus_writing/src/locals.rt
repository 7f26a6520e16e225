//! The names of the used locals of functions, lent ("Appendix > Custom Sections > Name Section").
ghost use Rattle.std.specs.Prelude.{[], ◌∷◌, ◌≡◌, ◌<◌, ◌≤◌, ◌^◌, ◌++◌, IfOk, IsOkUnless, OnOk, length, map};
ghost use Rattle.wasm_payloads.specs.Lent.{entry, locals_entry, text_of};
ghost use Rattle.walrus_base.specs.Arena.{entries_from};
ghost use Rattle.walrus_base.specs.Id.{place};
ghost use Rattle.walrus_base.specs.Locals.{locals};
ghost use Rattle.walrus_items.specs.Errors.{out_of_memory};
ghost use Rattle.walrus_writing.specs.Names.{local_name, local_names, used_among, used_listed};
ghost use Rattle.walrus_writing.specs.Pushed.{with_map};

use crate::names::lent;
use std::alloc::Global;
use walrus_base::{LocalId, ModuleLocals};
use walrus_items::Result;
use wasm_payloads::{RawLocals, RawName};

// The name of the local of this id, if it is there and has one.
fn name_of_local(all: &ModuleLocals, id: LocalId) -> Option<&str>
    ensures { text_of result ≡ local_name (locals all.now) (place id) }
{
    if !all.contains(id) {
        return None;
    }
    lent(&all.get(id).name)
}

// Puts the name of a local behind others, under its index, where the local is used and has one.
fn push_name<'a>(
    to: &mut Vec<RawName<'a>>,
    all: &'a ModuleLocals,
    used: bool,
    index: usize,
    id: LocalId,
) -> Result<()>
    requires { index < 2 ^ 32 }
    ensures value { OnOk result (map entry to.new.items ≡ map entry to.old.items
        ++ local_names (locals all.now) (entries_from index (used_among (place id ∷ []) (used ∷ [])))) }
    ensures fails { IsOkUnless result out_of_memory }
{
    if !used {
        return Ok(());
    }
    let Some(name) = name_of_local(all, id) else {
        return Ok(());
    };
    to.push(RawName {
        index: index as u32,
        name,
    })?;
    Ok(())
}

// Of a function's locals, by their indices, the names of those that are used and have one.
fn named_locals<'a>(
    alloc: Global,
    all: &'a ModuleLocals,
    order: &[LocalId],
    used: &[bool],
) -> Result<Vec<RawName<'a>>>
    requires few { length order.now ≤ 2 ^ 32 }
    requires as_many { length used.now ≡ length order.now }
    ensures value { IfOk result (λ raw. map entry raw.items
        ≡ local_names (locals all.now) (used_listed (map place order.now) used.now)) }
    ensures fails { IsOkUnless result out_of_memory }
{
    let mut raw = Vec::new(alloc);
    let mut index: usize = 0;
    'locals: for id in order {
        push_name(&mut raw, all, used[index], index, *id)?;
        index += 1;
    }
    Ok(raw)
}

// Puts the names of a function's locals behind others, where there are any.
fn push_locals<'a>(
    to: &mut Vec<RawLocals<'a>>,
    function: u32,
    names: Vec<RawName<'a>>,
) -> Result<()>
    ensures value { OnOk result (map locals_entry to.new.items
        ≡ with_map (map locals_entry to.old.items) function (map entry names.entry.items)) }
    ensures fails { IsOkUnless result out_of_memory }
{
    if names.is_empty() {
        return Ok(());
    }
    to.push(RawLocals { function, names })?;
    Ok(())
}

/// Puts the names of a function's used locals behind others, where there are any: of its locals, which are given by their indices, with which
/// of them are used. They aren't looked for where no local of the module has a name. Want of memory is the only refusal.
pub fn push_local_names<'a>(
    alloc: Global,
    all: &'a ModuleLocals,
    function: u32,
    order: &[LocalId],
    used: &[bool],
    to: &mut Vec<RawLocals<'a>>,
) -> Result<()>
    requires few { length order.now ≤ 2 ^ 32 }
    requires as_many { length used.now ≡ length order.now }
    ensures value { OnOk result (map locals_entry to.new.items
        ≡ with_map (map locals_entry to.old.items) function
        (local_names (locals all.now) (used_listed (map place order.now) used.now))) }
    ensures fails { IsOkUnless result out_of_memory }
{
    if all.are_unnamed() {
        return Ok(());
    }
    let names = named_locals(alloc, all, order, used)?;
    push_locals(to, function, names)
}
