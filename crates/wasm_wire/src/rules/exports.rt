//! The names of the exports (Validation > Modules > Exports).

ghost use Rattle.std.specs.Bool.{Decides};
ghost use Rattle.std.specs.List.Sorted.{IsPermutation, IsSorted};
ghost use Rattle.std.specs.Ordering.{nat_cmp};
ghost use Rattle.std.specs.Prelude.{◌≡◌, ◌≢◌, ◌≤◌, ◌<◌, ◌-◌, ◌/◌, ◌^◌, All, IfOk, length, map, not, slice_index};
ghost use Rattle.wasm_entries.specs.Record.{export_entry};
ghost use Rattle.wasm_wire.specs.Keys.{AllDiffer, IsKeyIn, key_of, keys_from, name_at, number_of};
ghost use Rattle.wasm_wire.specs.Names.{NeighboursDiffer, by_bytes};
ghost use Rattle.wasm_wire.specs.Rules.{NamesDiffer, Checks};

use std::alloc::{AllocError, Global};
use wasm_entries::RawExport;
use wasm_forms::WireError;

/// Whether no two exports have one name.
pub fn check_names(alloc: Global, exports: &[RawExport<'_>]) -> Result<(), WireError>
    ensures { Checks result (NamesDiffer (map export_entry exports.now)) }
{
    let differ = names_differ(alloc, exports)?;
    if !differ {
        return Err(WireError::Malformed);
    }
    Ok(())
}

/// Whether no two exports have one name, by the keys of their names. These have no room for places of more than 32 bits: so many names are
/// compared by themselves.
fn names_differ(alloc: Global, exports: &[RawExport<'_>]) -> Result<bool, AllocError>
    ensures { IfOk result (λ differ. Decides differ (AllDiffer (map (λ e. e.name.now) exports.now))) }
{
    if exports.len() > 1 << 32 {
        return Ok(all_differ(all_names(alloc, exports)?));
    }
    let keys = sorted_keys(alloc, exports)?;
    runs_differ(alloc, exports, keys.as_slice())
}

/// A number that goes by the bytes of a name alone (FNV-1a).
#[inline]
fn number_of(name: &str) -> u32
    ensures { result ≡ number_of name.now }
{
    let mut number: u32 = 2_166_136_261;
    'bytes: for byte in name.as_bytes() {
        number = (number ^ u32::from(*byte)).wrapping_mul(16_777_619);
    }
    number
}

/// What exports are sorted by: the number of the name, and behind it the place.
#[inline]
fn key_of(name: &str, place: u64) -> u64
    requires { place < 2 ^ 32 }
    ensures { result ≡ key_of name.now place }
{
    (u64::from(number_of(name)) << 32) | place
}

/// The keys of exports, in order.
fn sorted_keys(alloc: Global, exports: &[RawExport<'_>]) -> Result<Vec<u64>, AllocError>
    requires { length exports.now ≤ 2 ^ 32 }
    ensures all { IfOk result (λ keys.
        IsPermutation (keys_from 0 (map (λ e. e.name.now) exports.now)) keys.items) }
    ensures sorted { IfOk result (λ keys. IsSorted nat_cmp keys.items) }
{
    let mut keys = Vec::with_capacity(alloc, exports.len())?;
    let mut place: u64 = 0;
    'exports: for export in exports {
        keys.push(key_of(export.name, place))?;
        place += 1;
    }
    keys.sort_unstable();
    Ok(keys)
}

/// Where the keys end that follow one another from `begin` on and have one number.
fn end_of_run(keys: &[u64], begin: usize) -> usize
    requires { begin < length keys.now }
    ensures beyond { begin < result }
    ensures within { result ≤ length keys.now }
    ensures apart { result < length keys.now
        → slice_index keys.now (result - 1) / 2 ^ 32 ≢ slice_index keys.now result / 2 ^ 32 }
{
    'keys: for end in begin + 1..keys.len() {
        if keys[end - 1] >> 32 != keys[end] >> 32 {
            return end;
        }
    }
    keys.len()
}

/// Whether the names differ to which keys lead that stand in order: those of one number are compared, run by run.
fn runs_differ(alloc: Global, exports: &[RawExport<'_>], keys: &[u64]) -> Result<bool, AllocError>
    requires held { All (IsKeyIn (map (λ e. e.name.now) exports.now)) keys.now }
    requires sorted { IsSorted nat_cmp keys.now }
    ensures { IfOk result (λ differ. Decides differ
        (AllDiffer (map (name_at (map (λ e. e.name.now) exports.now)) keys.now))) }
{
    let mut begin: usize = 0;
    'runs: while begin < keys.len() {
        let end = end_of_run(keys, begin);
        let differ = run_differs(alloc, exports, &keys[begin..end])?;
        if !differ {
            return Ok(false);
        }
        begin = end;
    }
    Ok(true)
}

/// Whether the names differ to which these keys lead.
fn run_differs(alloc: Global, exports: &[RawExport<'_>], keys: &[u64]) -> Result<bool, AllocError>
    requires held { All (IsKeyIn (map (λ e. e.name.now) exports.now)) keys.now }
    ensures { IfOk result (λ differ. Decides differ
        (AllDiffer (map (name_at (map (λ e. e.name.now) exports.now)) keys.now))) }
{
    if keys.len() < 2 {
        return Ok(true);
    }
    let names = names_at(alloc, exports, keys)?;
    Ok(all_differ(names))
}

/// The names to which these keys lead.
fn names_at<'a>(
    alloc: Global,
    exports: &[RawExport<'a>],
    keys: &[u64],
) -> Result<Vec<&'a str>, AllocError>
    requires held { All (IsKeyIn (map (λ e. e.name.now) exports.now)) keys.now }
    ensures { IfOk result (λ names. map (λ n. n.now) names.items
        ≡ map (name_at (map (λ e. e.name.now) exports.now)) keys.now) }
{
    let mut names = Vec::with_capacity(alloc, keys.len())?;
    'keys: for key in keys {
        names.push(exports[(*key % (1 << 32)) as usize].name)?;
    }
    Ok(names)
}

/// The names of all exports.
fn all_names<'a>(alloc: Global, exports: &[RawExport<'a>]) -> Result<Vec<&'a str>, AllocError>
    ensures { IfOk result (λ names. map (λ n. n.now) names.items ≡ map (λ e. e.name.now) exports.now) }
{
    let mut names = Vec::with_capacity(alloc, exports.len())?;
    'exports: for export in exports {
        names.push(export.name)?;
    }
    Ok(names)
}

/// Whether no two of these are one name.
fn all_differ(mut names: Vec<&str>) -> bool
    ensures { Decides result (AllDiffer (map (λ n. n.now) names.entry.items)) }
{
    names.sort_unstable();
    !has_neighbours_alike(names.as_slice())
}

/// Whether a name stands next to one like it.
fn has_neighbours_alike(names: &[&str]) -> bool
    ensures { Decides (not result) (NeighboursDiffer names.now) }
{
    for index in 1..names.len() {
        if names[index - 1] == names[index] {
            return true;
        }
    }
    false
}
