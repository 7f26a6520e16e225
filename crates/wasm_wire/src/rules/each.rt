//! A rule on every item of a list.

ghost use Rattle.std.specs.Prelude.{ℕ, All, map, ◌≡◌, ◌+◌};
ghost use Rattle.wasm_wire.specs.Gathering.{Makes};
ghost use Rattle.wasm_wire.specs.Indices.{AllFrom};
ghost use Rattle.wasm_wire.specs.Rules.{Checks};

use std::alloc::AllocError;
use wasm_forms::WireError;

/// A rule on single items. `Seen` is the type of what an item is without where it lies in memory, `view` takes it there.
pub trait Rule<T> {
    ghost Seen: { Type 0 };

    ghost view: { T → Seen };

    ghost Holds: { Self → Seen → Type 0 };

    /// Whether the rule holds of this item.
    fn check(&self, item: &T) -> Result<(), WireError>
        ensures { Checks result (Holds self.now (view item.now)) };
}

/// Whether the rule holds of all of them, as they lie in memory.
fn check_each<T, R: Rule<T>>(rule: &R, items: &[T]) -> Result<(), WireError>
    ensures { Checks result (All (λ x. R.Holds rule.now (R.view x)) items.now) }
{
    for item in items {
        rule.check(item)?;
    }
    Ok(())
}

/// Whether the rule holds of all of them.
pub fn check_all<T, R: Rule<T>>(rule: &R, items: &[T]) -> Result<(), WireError>
    ensures plain { Checks result (All (λ x. R.Holds rule.now (R.view x)) items.now) }
    ensures viewed { Checks result (All (R.Holds rule.now) (map R.view items.now)) }
{
    check_each(rule, items)
}

/// A rule on single items and their numbers.
pub trait NumberedRule<T> {
    ghost Seen: { Type 0 };

    ghost view: { T → Seen };

    ghost Holds: { Self → ℕ → Seen → Type 0 };

    /// Whether the rule holds of this item with this number.
    fn check(&self, number: usize, item: &T) -> Result<(), WireError>
        ensures { Checks result (Holds self.now number (view item.now)) };
}

/// A sum of two counts of what lies in memory.
pub fn add(a: usize, b: usize) -> Result<usize, WireError>
    ensures { Makes result (λ n. n ≡ a + b) }
{
    match a.checked_add(b) {
        Some(sum) => Ok(sum),
        None => Err(WireError::Memory(AllocError)),
    }
}

/// Whether the rule holds of all of them as they lie in memory, numbered from the first on.
fn check_each_from<T, R: NumberedRule<T>>(
    rule: &R,
    first: usize,
    items: &[T],
) -> Result<(), WireError>
    ensures { Checks result (AllFrom (λ n x. R.Holds rule.now n (R.view x)) first items.now) }
{
    for place in 0..items.len() {
        rule.check(add(first, place)?, &items[place])?;
    }
    Ok(())
}

/// Whether the rule holds of all of them, numbered from the first on.
pub fn check_from<T, R: NumberedRule<T>>(
    rule: &R,
    first: usize,
    items: &[T],
) -> Result<(), WireError>
    ensures { Checks result (AllFrom (R.Holds rule.now) first (map R.view items.now)) }
{
    check_each_from(rule, first, items)
}
