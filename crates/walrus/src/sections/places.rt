//! A custom section of places of operators, which follows the code.
ghost use Rattle.std.specs.Prelude.{◌≡◌, ◌++◌, ◌∷◌, [], IfOk, OnOk, OnErr, IsOkUnless, false, map, nat_eq};
ghost use Rattle.std.specs.HashMap.{get};
ghost use Rattle.std.specs.String.{string_bytes};
ghost use Rattle.walrus_items.specs.Errors.{out_of_memory};
ghost use Rattle.walrus.specs.Places.{moved_by, new_pair, pairs_of, places_after, places_contents, places_name, places_state, written_at};

use crate::sections::moves::{fitting, moves_by_place};
use std::alloc::Global;
use std::collections::HashMap;
use walrus_ir::IdsToIndices;
use walrus_items::{CodeTransform, CustomSection, Result, Roots};

// A place in the input, what stands for it, and where the operator stands that began there, once that was told.
#[derive(Clone, Copy)]
struct PlacedPair {
    place: u32,
    value: u32,
    now: Option<u32>,
}

/// A custom section of places: pairs of a place in the input and a number that stands for it, as a line of a source text.
///
/// A place is the number of an operator's location: the offset of its first byte from the front of the bytes that were parsed, unless
/// [`on_instr_loc`](crate::ModuleConfig::on_instr_loc) gave it another. The section is written as eight bytes a pair, in the order in
/// which the pairs came: the offset of the operator's first byte from the front of the bytes that are written, and then the number, each in four
/// bytes, the lowest first. A pair is left out whose operator wasn't written, whose place is none of an operator's, or whose new place has more
/// than 32 bits; and each one until a code transform was handed to the section, so without
/// [`preserve_code_transform`](crate::ModuleConfig::preserve_code_transform), and where its name is one of dynamic linking. Handed another one, as at
/// a second emission, it looks for the same places anew.
#[derive(Drop)]
pub struct PlacesSection {
    alloc: Global,
    name: String,
    pairs: Vec<PlacedPair>,
}

impl PlacesSection {
    /// A section of this name with no pairs.
    pub fn new(alloc: Global, name: String) -> PlacesSection
        ensures name { places_name result ≡ string_bytes name }
        ensures pairs { pairs_of result ≡ [] }
    {
        PlacesSection {
            alloc,
            name,
            pairs: Vec::new(alloc),
        }
    }

    /// Adds a place in the input and the number that stands for it, behind the others. `Memory` is the only error; then nothing changes.
    pub fn add(&mut self, place: u32, value: u32) -> Result<()>
        ensures name { places_name self.new ≡ places_name self.old }
        ensures added { OnOk result (pairs_of self.new ≡ pairs_of self.old ++ new_pair place value ∷ []) }
        ensures refused { OnErr result (pairs_of self.new ≡ pairs_of self.old) }
        ensures fails { IsOkUnless result out_of_memory }
    {
        let now = None;
        self.pairs.push(PlacedPair { place, value, now })?;
        Ok(())
    }
}

// Puts a new place and what stands for it behind the bytes, where there is one.
fn put_pair(bytes: &mut Vec<u8>, now: Option<u32>, value: u32) -> Result<()>
    ensures value { IfOk result (λ _. bytes.new.items ≡ bytes.old.items ++ written_at now value) }
    ensures fails { IsOkUnless result out_of_memory }
{
    if let Some(place) = now {
        let four = place.to_le_bytes();
        bytes.extend_from_slice(&four)?;
        let behind = value.to_le_bytes();
        bytes.extend_from_slice(&behind)?;
    }
    Ok(())
}

// The pair with the new place that its place has.
fn moved(pair: PlacedPair, new: &HashMap<u32, usize>) -> PlacedPair
    ensures { result ≡ moved_by (get nat_eq new.now) pair }
{
    let now = match new.get(&pair.place) {
        Some(place) => fitting(*place),
        None => None,
    };
    PlacedPair { now, ..pair }
}

// The pairs with the new places that their places have.
fn all_moved(
    alloc: Global,
    pairs: &[PlacedPair],
    new: &HashMap<u32, usize>,
) -> Result<Vec<PlacedPair>>
    ensures value { IfOk result (λ all. all.items ≡ map (moved_by (get nat_eq new.now)) pairs.now) }
    ensures fails { IsOkUnless result out_of_memory }
{
    let mut all = Vec::new(alloc);
    'pairs: for pair in pairs {
        all.push(moved(*pair, new))?;
    }
    Ok(all)
}

impl CustomSection for PlacesSection {
    ghost section_name = { places_name };

    ghost state = { places_state };

    ghost own_roots = { λ _. [] };

    ghost may_refuse = { λ _. false };

    ghost contents = { λ s _. places_contents s };

    ghost state_after = { places_after };

    fn name(&self) -> &str {
        self.name.as_str()
    }

    fn data(&self, _indices: &IdsToIndices) -> Result<Vec<u8>> {
        let mut bytes = Vec::new(self.alloc);
        'pairs: for pair in &self.pairs {
            put_pair(&mut bytes, pair.now, pair.value)?;
        }
        Ok(bytes)
    }

    fn add_gc_roots(&self, _roots: &mut Roots) -> Result<()> {
        Ok(())
    }

    fn apply_code_transform(&mut self, transform: &CodeTransform) -> Result<()> {
        let new = moves_by_place(self.alloc, &transform.instruction_map)?;
        self.pairs = all_moved(self.alloc, &self.pairs, &new)?;
        Ok(())
    }
}
