//! Parts of lists.
#![tactic(auto, unfolding(crate::specs::PlainCode::limits_in, crate::specs::Function::name_of, crate::specs::Function::as_text, crate::specs::Function::body_of, crate::specs::Function::locations_of, crate::specs::Function::args_of, crate::specs::Function::handlers_in, crate::specs::Function::listed_in, crate::specs::Function::located_in))]

ghost use Rattle.std.specs.Prelude.{◌≡◌, IsTrue};
ghost use Rattle.wasm_text.specs.Places.{between};

use wasm_text::rest_from;

// What stands from one place to another, as far as it is there.
#[inline]
pub(crate) fn bytes_between(bytes: &[u8], begin: usize, end: usize) -> &[u8]
    ensures { result.now ≡ between begin end bytes.now }
{
    let rest = rest_from(bytes, begin);
    let length = end.saturating_sub(begin).min(rest.len());
    let (front, _behind) = rest.split_at(length);
    front
}

// The same of marks.
#[inline]
pub(crate) fn marks_between(marks: &[u32], begin: usize, end: usize) -> &[u32]
    ensures { result.now ≡ between begin end marks.now }
{
    let (_front, rest) = marks.split_at(begin.min(marks.len()));
    let length = end.saturating_sub(begin).min(rest.len());
    let (front, _behind) = rest.split_at(length);
    front
}

// Whether these are the same bytes.
pub(crate) fn are_same(bytes: &[u8], others: &[u8]) -> bool
    ensures { IsTrue result → bytes.now ≡ others.now }
{
    bytes == others
}
