//! Which operators bytes spell (Binary Format > Instructions).

ghost use Rattle.std.specs.Prelude.{◌≡◌, List, Option, option_map, true};
ghost use Rattle.wasm_operators.specs.declared.operator.RawArg.{RawArg as Arg};
ghost use Rattle.wasm_operators.specs.declared.kind.Kind.TheVariants as kind_of;
ghost use Rattle.wasm_operators.specs.Operators.{op_of};
ghost use Rattle.wasm_operators.specs.Table.{listed};
ghost use Rattle.wasm_operators.specs.Pushing as pushing;
ghost use Rattle.wasm_operators.specs.Standing as standing;
ghost use Rattle.wasm_operators.specs.Standing.{heap_spells, value_spells, block_spells, spells};

use crate::kind::Kind;
use crate::list::{CatchEntry, LabelEntry, ValueEntry};
use crate::operator::{RawArg, RawBlock, RawOperator};
use crate::table::kinds;
use wasm_forms::{RawHeap, RawVal};
use wasm_opcodes::types::{HEAP_EXN, HEAP_NO_EXN};

/// Whether a heap type is spelled: an abstract one by one of its bytes.
fn spells_heap(heap: &RawHeap) -> bool
    ensures { result ≡ heap_spells heap.now }
{
    match heap {
        RawHeap::Abstract(byte) => HEAP_EXN <= *byte && *byte <= HEAP_NO_EXN,
        RawHeap::Index(_) => true,
    }
}

/// Whether a value type is spelled.
fn spells_value(value: &RawVal) -> bool
    ensures { result ≡ value_spells value.now }
{
    match value {
        RawVal::Ref(reference) => spells_heap(&reference.heap),
        RawVal::I32 | RawVal::I64 | RawVal::F32 | RawVal::F64 | RawVal::V128 => true,
    }
}

/// Whether the type of a block is spelled.
fn spells_block(block: &RawBlock) -> bool
    ensures { result ≡ block_spells block.now }
{
    match block {
        RawBlock::OneResult(value) => spells_value(value),
        RawBlock::NoResult | RawBlock::OfType(_) => true,
    }
}

/// Whether the argument is a number of 32 bits of this kind.
fn is_number_of(kind: Kind, arg: &RawArg) -> bool
    requires { pushing.is_number kind ≡ true }
    ensures { result ≡ standing.is_of kind arg.now }
{
    match kind {
        Kind::Function => matches!(arg, RawArg::Function(_)),
        Kind::Type => matches!(arg, RawArg::Type(_)),
        Kind::Table => matches!(arg, RawArg::Table(_)),
        Kind::Memory => matches!(arg, RawArg::Memory(_)),
        Kind::Global => matches!(arg, RawArg::Global(_)),
        Kind::Tag => matches!(arg, RawArg::Tag(_)),
        Kind::Element => matches!(arg, RawArg::Element(_)),
        Kind::Data => matches!(arg, RawArg::Data(_)),
        Kind::Local => matches!(arg, RawArg::Local(_)),
        Kind::Label => matches!(arg, RawArg::Label(_)),
        Kind::Number => matches!(arg, RawArg::Number(_)),
        _ => unreachable!(),
    }
}

/// Whether the argument is one of this kind, and spelled.
fn is_of(kind: Kind, arg: &RawArg) -> bool
    ensures { result ≡ standing.is_of kind arg.now }
{
    if kind.is_number() {
        return is_number_of(kind, arg);
    }
    match (kind, arg) {
        (Kind::Block, RawArg::Block(block)) => spells_block(block),
        (Kind::Access, RawArg::Access { flags, .. }) => *flags / 64 % 2 != 1,
        (Kind::Heap, RawArg::Heap(heap)) => spells_heap(heap),
        (Kind::Byte, RawArg::Byte(_))
        | (Kind::S32, RawArg::S32(_))
        | (Kind::S64, RawArg::S64(_))
        | (Kind::F32, RawArg::F32(_))
        | (Kind::F64, RawArg::F64(_)) => true,
        _ => false,
    }
}

/// The arguments behind one of this kind.
fn behind_one(kind: Kind, args: &[RawArg]) -> Option<&[RawArg]>
    ensures { option_map (λ r. r.now) result ≡ standing.behind_one kind args.now }
{
    let (arg, rest) = args.split_first()?;
    if is_of(kind, arg) { Some(rest) } else { None }
}

/// What a list holds. `behind` gives the arguments behind those of an entry, where such arguments stand in front.
trait Listed {
    ghost behind: { List Arg → Option (List Arg) };

    /// The arguments behind an entry.
    fn skip(args: &[RawArg]) -> Option<&[RawArg]>
        ensures { option_map (λ r. r.now) result ≡ behind args.now };
}

impl Listed for LabelEntry {
    ghost behind = { standing.behind_one kind_of.Label };

    fn skip(args: &[RawArg]) -> Option<&[RawArg]> {
        behind_one(Kind::Label, args)
    }
}

/// A byte.
struct ByteEntry;

impl Listed for ByteEntry {
    ghost behind = { standing.behind_one kind_of.Byte };

    fn skip(args: &[RawArg]) -> Option<&[RawArg]> {
        behind_one(Kind::Byte, args)
    }
}

impl Listed for ValueEntry {
    ghost behind = { standing.behind_value };

    fn skip(args: &[RawArg]) -> Option<&[RawArg]> {
        let (arg, rest) = args.split_first()?;
        match arg {
            RawArg::Value(value) if spells_value(value) => Some(rest),
            _ => None,
        }
    }
}

impl Listed for CatchEntry {
    ghost behind = { standing.behind_catch };

    fn skip(args: &[RawArg]) -> Option<&[RawArg]> {
        let (arg, rest) = args.split_first()?;
        let RawArg::Byte(first) = arg else {
            return None;
        };
        if *first < 2 {
            return behind_one(Kind::Label, behind_one(Kind::Tag, rest)?);
        }
        if *first < 4 {
            return behind_one(Kind::Label, rest);
        }
        None
    }
}

/// The arguments behind so many entries.
fn behind_entries<E: Listed>(count: u32, args: &[RawArg]) -> Option<&[RawArg]>
    ensures { option_map (λ r. r.now) result ≡ standing.behind_entries E.behind count args.now }
{
    let mut rest = args;
    'entries: for _taken in 0..count {
        let Some(after) = E::skip(rest) else {
            return None;
        };
        rest = after;
    }
    Some(rest)
}

/// The arguments behind a count and that many entries.
fn behind_counted<E: Listed>(args: &[RawArg]) -> Option<&[RawArg]>
    ensures { option_map (λ r. r.now) result ≡ standing.behind_counted E.behind args.now }
{
    let (arg, rest) = args.split_first()?;
    match arg {
        RawArg::Count(count) => behind_entries::<E>(*count, rest),
        _ => None,
    }
}

/// The arguments behind those of one kind.
fn behind_kind(kind: Kind, args: &[RawArg]) -> Option<&[RawArg]>
    ensures { option_map (λ r. r.now) result ≡ standing.behind_kind kind args.now }
{
    if kind.is_one() {
        return behind_one(kind, args);
    }
    match kind {
        Kind::Nothing => Some(args),
        Kind::Catches => behind_counted::<CatchEntry>(args),
        Kind::Labels => behind_counted::<LabelEntry>(args),
        Kind::Values => behind_counted::<ValueEntry>(args),
        Kind::SixteenBytes => behind_entries::<ByteEntry>(16, args),
        _ => unreachable!(),
    }
}

/// The arguments behind those of these kinds, up to the first `Nothing`.
fn behind_kinds<'a>(listed_kinds: &[Kind], args: &'a [RawArg]) -> Option<&'a [RawArg]>
    ensures { option_map (λ r. r.now) result ≡ standing.behind_kinds (listed listed_kinds.now) args.now }
{
    let mut rest = args;
    'kinds: for kind in listed_kinds {
        if !kind.is_argument() {
            return Some(rest);
        }
        let Some(after) = behind_kind(*kind, rest) else {
            return None;
        };
        rest = after;
    }
    Some(rest)
}

/// Whether bytes spell the operator (Binary Format > Instructions): it is in the table, and its arguments are those that the table says,
/// each of them a value that is spelled. Takes no memory.
pub fn is_operator(operator: &RawOperator) -> bool
    ensures { result ≡ spells (op_of operator.now) }
{
    let Some(listed_kinds) = kinds(operator.op) else {
        return false;
    };
    match behind_kinds(&listed_kinds, operator.args.as_slice()) {
        Some(rest) => rest.is_empty(),
        None => false,
    }
}
