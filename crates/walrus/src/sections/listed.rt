//! A custom section that lists functions which are to be kept.
ghost use Rattle.std.specs.Prelude.{◌≡◌, ◌++◌, [], false, IfOk, IsOkUnless};
ghost use Rattle.std.specs.String.{string_bytes};
ghost use Rattle.walrus_items.specs.Errors.{out_of_memory};
ghost use Rattle.walrus_items.specs.Roots.{places};
ghost use Rattle.walrus.specs.Listed.{found_bytes, listed_contents, listed_functions, listed_name, listed_roots};

use std::alloc::Global;
use walrus_ir::{FunctionId, IdsToIndices};
use walrus_items::{CodeTransform, CustomSection, Result, Roots};

/// A custom section that lists functions, which it asks to keep.
///
/// It is written as four bytes a function, in the order in which they were given: the index that the function comes to have, the lowest byte first. A
/// function that isn't in the module has no index, and is left out. A section of dynamic linking (`dylink`, `dylink.0`) is asked for its data before
/// there are indices, and so lists none.
#[derive(Drop)]
pub struct ListedSection {
    alloc: Global,
    name: String,
    ids: Vec<FunctionId>,
}

impl ListedSection {
    /// A section of this name that lists these functions.
    pub fn new(alloc: Global, name: String, ids: Vec<FunctionId>) -> ListedSection
        ensures name { listed_name result ≡ string_bytes name }
        ensures functions { listed_functions result ≡ places ids.items }
    {
        ListedSection { alloc, name, ids }
    }
}

// Puts the index behind the bytes, where there is one.
fn put_index(bytes: &mut Vec<u8>, index: Option<u32>) -> Result<()>
    ensures value { IfOk result (λ _. bytes.new.items ≡ bytes.old.items ++ found_bytes index) }
    ensures fails { IsOkUnless result out_of_memory }
{
    if let Some(found) = index {
        let four = found.to_le_bytes();
        bytes.extend_from_slice(&four)?;
    }
    Ok(())
}

impl CustomSection for ListedSection {
    ghost section_name = { listed_name };

    ghost state = { λ _. [] };

    ghost own_roots = { λ s. listed_roots (listed_functions s) };

    ghost may_refuse = { λ _. false };

    ghost contents = { λ s indices. listed_contents (listed_functions s) indices };

    ghost state_after = { λ _ _. [] };

    fn name(&self) -> &str {
        self.name.as_str()
    }

    fn data(&self, indices: &IdsToIndices) -> Result<Vec<u8>> {
        let mut bytes = Vec::new(self.alloc);
        'ids: for id in &self.ids {
            put_index(&mut bytes, indices.get_func_index(*id))?;
        }
        Ok(bytes)
    }

    fn add_gc_roots(&self, roots: &mut Roots) -> Result<()> {
        'ids: for id in &self.ids {
            roots.push_func(*id)?;
        }
        Ok(())
    }

    fn apply_code_transform(&mut self, _transform: &CodeTransform) -> Result<()> {
        Ok(())
    }
}
