//! What plain bodies may name.
#![tactic(auto, unfolding(crate::specs::PlainCode::limits_in, crate::specs::Function::name_of, crate::specs::Function::as_text, crate::specs::Function::body_of, crate::specs::Function::locations_of, crate::specs::Function::args_of, crate::specs::Function::handlers_in, crate::specs::Function::listed_in, crate::specs::Function::located_in))]

ghost use Rattle.std.specs.Prelude.{◌≡◌, ◌<◌, ℕ, Some, slice_get};
ghost use Rattle.walrus_code.specs.Indices.{ids_at, places_of};
ghost use Rattle.walrus_bodies.specs.Scanned.{AreInPlace};

use walrus_code::{IndexSpace, IndicesToIds};
use wasm_text::Limits;

// How many items of a space stand in front each of which is at the place of its index; at most 2^32 - 1.
fn count_in_place<K>(space: &IndexSpace<K>) -> u32
    ensures { (index : ℕ) → index < result → slice_get (places_of space.now) index ≡ Some index }
{
    u32::try_from(space.in_front()).unwrap_or(u32::MAX)
}

/// The counts below which each index is the place of its item; of locals and blocks there are none.
pub fn limits_of(indices: &IndicesToIds) -> Limits
    ensures { AreInPlace result (ids_at indices.now) }
{
    Limits {
        functions: count_in_place(&indices.functions),
        globals: count_in_place(&indices.globals),
        types: count_in_place(&indices.types),
        tables: count_in_place(&indices.tables),
        memories: count_in_place(&indices.memories),
        locals: 0,
        labels: 0,
    }
}
