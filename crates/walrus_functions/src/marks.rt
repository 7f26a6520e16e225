//! The locals that operators name, by marks in a window over their places.
ghost use Rattle.std.specs.Prelude.{◌≡◌, ◌≤◌, ◌<◌, ◌+◌, ◌*◌, ◌^◌, ◌++◌, ◌∷◌, [], ℕ, flat_map, length, map, option_to_list, IfOk, IsTrue};
ghost use Rattle.walrus_base.specs.Id.{place};
ghost use Rattle.walrus_base.specs.Operators.{arg_locals, locals_of};
ghost use Rattle.walrus_code.specs.Code.{arg_of, ops_of};
ghost use Rattle.walrus_functions.specs.Marked.{AreMarked, Marks, is_marked, marked};

use std::alloc::{AllocError, Global};
use walrus_base::LocalId;
use walrus_code::{Arg, Operator};

// The local that an argument names.
fn local_of(arg: &Arg) -> Option<LocalId>
    ensures { map place (option_to_list result) ≡ arg_locals (arg_of arg.now) }
{
    match *arg {
        Arg::Local(id) => Some(id),
        Arg::Function(_)
        | Arg::Type(_)
        | Arg::Table(_)
        | Arg::Memory(_)
        | Arg::Global(_)
        | Arg::Tag(_)
        | Arg::Element(_)
        | Arg::Data(_)
        | Arg::Label(_)
        | Arg::Count(_)
        | Arg::Number(_)
        | Arg::Byte(_)
        | Arg::S32(_)
        | Arg::S64(_)
        | Arg::F32(_)
        | Arg::F64(_)
        | Arg::Value(_)
        | Arg::Heap(_)
        | Arg::Block(_)
        | Arg::Access { .. } => None,
    }
}

// A range of places, from the first one to one past the last, and those of the locals that arguments name.
fn widened(range: (usize, usize), args: &[Arg]) -> (usize, usize)
    ensures { (result.0 ≤ range.0) × (range.1 ≤ result.1) }
{
    let (mut first, mut past) = range;
    for arg in args {
        if let Some(id) = local_of(arg) {
            first = first.min(id.index());
            past = past.max(id.index().saturating_add(1));
        }
    }
    (first, past)
}

// The first place of the locals that operators name, and how many places lie from there to the last one; no place where they lie
// far apart.
pub(crate) fn named_window(operators: &[Operator]) -> (usize, usize)
    ensures few { result.1 ≤ 8 * length operators.now + 7 }
    ensures room { result.0 + result.1 < 2 ^ 64 }
{
    let mut range = (usize::MAX, 0);
    for operator in operators {
        range = widened(range, operator.args.as_slice());
    }
    let (first, past) = range;
    let span = past.saturating_sub(first);
    if span / 8 <= operators.len() {
        (first, span)
    } else {
        (first, 0)
    }
}

// A window with no place marked.
pub(crate) fn no_marks(alloc: Global, span: usize) -> Result<Vec<bool>, AllocError>
    ensures none { IfOk result (λ marks. (first : ℕ) → AreMarked first marks.items []) }
    ensures span { IfOk result (λ marks. length marks.items ≡ span) }
{
    let mut marks = Vec::new(alloc);
    marks.resize(span, false)?;
    Ok(marks)
}

// Marks a place, if the window has it.
fn mark(marks: &mut Vec<bool>, first: usize, place: usize) -> bool
    ensures marks { IsTrue result → Marks first marks.old.items marks.new.items (place ∷ []) }
    ensures span { length marks.new.items ≡ length marks.old.items }
{
    let Some(offset) = place.checked_sub(first) else {
        return false;
    };
    if offset >= marks.len() {
        return false;
    }
    marks[offset] = true;
    true
}

// Marks the local that an argument names, if the window has it.
fn mark_arg(marks: &mut Vec<bool>, first: usize, arg: &Arg) -> bool
    ensures marks { IsTrue result → Marks first marks.old.items marks.new.items
        (arg_locals (arg_of arg.now)) }
    ensures span { length marks.new.items ≡ length marks.old.items }
{
    match local_of(arg) {
        Some(id) => mark(marks, first, id.index()),
        None => true,
    }
}

// Marks the locals that arguments name, if the window has them.
fn mark_args(marks: &mut Vec<bool>, first: usize, args: &[Arg]) -> bool
    ensures marks { IsTrue result → Marks first marks.old.items marks.new.items
        (flat_map arg_locals (map arg_of args.now)) }
    ensures span { length marks.new.items ≡ length marks.old.items }
{
    for arg in args {
        if !mark_arg(marks, first, arg) {
            return false;
        }
    }
    true
}

// Marks the locals that operators name, if the window has them.
pub(crate) fn mark_named(marks: &mut Vec<bool>, first: usize, operators: &[Operator]) -> bool
    ensures marks { IsTrue result → Marks first marks.old.items marks.new.items
        (locals_of (ops_of operators.now)) }
    ensures span { length marks.new.items ≡ length marks.old.items }
{
    for operator in operators {
        if !mark_args(marks, first, operator.args.as_slice()) {
            return false;
        }
    }
    true
}

// Marks locals, if the window has them.
pub(crate) fn mark_ids(marks: &mut Vec<bool>, first: usize, ids: &[LocalId]) -> bool
    ensures marks { IsTrue result → Marks first marks.old.items marks.new.items (map place ids.now) }
    ensures span { length marks.new.items ≡ length marks.old.items }
{
    'ids: for id in ids {
        if !mark(marks, first, id.index()) {
            return false;
        }
    }
    true
}

// The place of the first of these locals, and how many places lie from there to the last one; no place where they lie far apart. They stand by
// rising place.
pub(crate) fn window_of(ids: &[LocalId]) -> (usize, usize) {
    let (Some(first), Some(last)) = (ids.first(), ids.last()) else {
        return (0, 0);
    };
    let span = last.index().saturating_sub(first.index());
    if span / 8 <= ids.len() {
        (first.index(), span.saturating_add(1))
    } else {
        (first.index(), 0)
    }
}

// The marked places, as locals.
pub(crate) fn marked_locals(
    alloc: Global,
    first: usize,
    marks: &[bool],
) -> Result<Vec<LocalId>, AllocError>
    requires { first + length marks.now < 2 ^ 64 }
    ensures { IfOk result (λ named. map place named.items ≡ marked first marks.now) }
{
    let mut named = Vec::with_capacity(alloc, marks.len())?;
    'places: for offset in 0..marks.len() {
        push_if(&mut named, marks[offset], first + offset)?;
    }
    Ok(named)
}

// Takes a place as a local, if it is marked.
fn push_if(named: &mut Vec<LocalId>, is_marked: bool, index: usize) -> Result<(), AllocError>
    ensures { IfOk result (λ _. map place named.new.items
        ≡ map place named.old.items ++ marked index (is_marked ∷ [])) }
{
    if is_marked {
        named.push(LocalId::at(index))?;
    }
    Ok(())
}

// Whether a place is marked.
fn is_marked(first: usize, marks: &[bool], place: usize) -> bool
    ensures { result ≡ is_marked first marks.now place }
{
    match place.checked_sub(first) {
        Some(offset) => offset < marks.len() && marks[offset],
        None => false,
    }
}

// Whether each of these locals is marked.
pub(crate) fn which_marked(
    alloc: Global,
    first: usize,
    marks: &[bool],
    ids: &[LocalId],
) -> Result<Vec<bool>, AllocError>
    ensures { IfOk result (λ used. used.items ≡ map (λ id. is_marked first marks.now (place id)) ids.now) }
{
    let mut used = Vec::with_capacity(alloc, ids.len())?;
    'ids: for id in ids {
        used.push(is_marked(first, marks, id.index()))?;
    }
    Ok(used)
}
