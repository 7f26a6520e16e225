//! Lists of arguments, read: a count, and that many entries (Binary Format > Conventions > Lists, and Instructions).

ghost use Rattle.std.specs.Prelude.{◌∷◌, [], List, flat_map, map, ℕ};
ghost use Rattle.wasm_forms.specs.Reading.{Gives};
ghost use Rattle.wasm_forms.specs.Grammar.{Bytes, Form, Made, Row, U32, at};
ghost use Rattle.wasm_forms.specs.Types.{value_type};
ghost use Rattle.wasm_forms.specs.declared.types.RawVal.{RawVal as ValueType};
ghost use Rattle.wasm_operators.specs.declared.operator.RawArg.{RawArg as Arg};
ghost use Rattle.wasm_operators.specs.declared.operator.RawArg.TheVariants as args;
ghost use Rattle.wasm_operators.specs.Forms.{catch_from, catch_clause, several};
ghost use Rattle.wasm_operators.specs.Pushing.{push_at};

use crate::operator::RawArg;
use wasm_forms::{WireError, read_byte, read_bytes, read_u32, read_value_type};

/// What a list is read of. `form` is the form of an entry's text, `Seen` the type of its values, and `make` gives the arguments that
/// stand for such a value.
pub(crate) trait Entry {
    ghost Seen: { Type 0 };

    ghost form: { Form Seen };

    ghost make: { Seen → List Arg };

    /// Reads an entry, puts its arguments behind those of `to`, and gives the bytes after it.
    fn push<'a>(to: &mut Vec<RawArg>, bytes: &'a [u8]) -> Result<&'a [u8], WireError>
        ensures { Gives (λ r. (to.new.items, r.now)) result
            (push_at to.old.items (Made make form) bytes.now) };
}

/// A label.
pub(crate) struct LabelEntry;

impl Entry for LabelEntry {
    ghost Seen = { ℕ };

    ghost form = { U32 };

    ghost make = { λ l. args.Label l ∷ [] };

    fn push<'a>(to: &mut Vec<RawArg>, bytes: &'a [u8]) -> Result<&'a [u8], WireError> {
        let (label, rest) = read_u32(bytes)?;
        to.push(RawArg::Label(label))?;
        Ok(rest)
    }
}

/// A value type.
pub(crate) struct ValueEntry;

impl Entry for ValueEntry {
    ghost Seen = { ValueType };

    ghost form = { value_type };

    ghost make = { λ v. args.Value v ∷ [] };

    fn push<'a>(to: &mut Vec<RawArg>, bytes: &'a [u8]) -> Result<&'a [u8], WireError> {
        let (value, rest) = read_value_type(bytes)?;
        to.push(RawArg::Value(value))?;
        Ok(rest)
    }
}

/// What stands behind the first byte of a catch clause.
#[tactic(auto, unfolding(crate::specs::Forms::catch_from))]
fn push_catch_from<'a>(
    to: &mut Vec<RawArg>,
    first: u8,
    bytes: &'a [u8],
) -> Result<&'a [u8], WireError>
    ensures { Gives (λ r. (to.new.items, r.now)) result (push_at to.old.items (catch_from first) bytes.now) }
{
    if first < 2 {
        let (tag, behind) = read_u32(bytes)?;
        let (label, rest) = read_u32(behind)?;
        to.push(RawArg::Byte(first))?;
        to.push(RawArg::Tag(tag))?;
        to.push(RawArg::Label(label))?;
        return Ok(rest);
    }
    if first < 4 {
        let (label, rest) = read_u32(bytes)?;
        to.push(RawArg::Byte(first))?;
        to.push(RawArg::Label(label))?;
        return Ok(rest);
    }
    Err(WireError::Malformed)
}

/// A catch clause.
pub(crate) struct CatchEntry;

impl Entry for CatchEntry {
    ghost Seen = { List Arg };

    ghost form = { catch_clause };

    ghost make = { λ x. x };

    #[tactic(auto, unfolding(crate::specs::Forms::catch_clause))]
    fn push<'a>(to: &mut Vec<RawArg>, bytes: &'a [u8]) -> Result<&'a [u8], WireError> {
        let (first, behind) = read_byte(bytes)?;
        push_catch_from(to, first, behind)
    }
}

/// So many entries, behind the arguments of `to`.
fn push_entries<'a, E: Entry>(
    to: &mut Vec<RawArg>,
    count: u32,
    bytes: &'a [u8],
) -> Result<&'a [u8], WireError>
    ensures { Gives (λ r. (to.new.items, r.now)) result
        (push_at to.old.items (Made (flat_map E.make) (Row E.form count)) bytes.now) }
{
    let mut rest = bytes;
    'entries: for _taken in 0..count {
        rest = E::push(to, rest)?;
    }
    Ok(rest)
}

/// A count and that many entries, behind the arguments of `to`.
pub(crate) fn push_counted<'a, E: Entry>(
    to: &mut Vec<RawArg>,
    bytes: &'a [u8],
) -> Result<&'a [u8], WireError>
    ensures { Gives (λ r. (to.new.items, r.now)) result
        (push_at to.old.items (several E.make E.form) bytes.now) }
{
    let (count, rest) = read_u32(bytes)?;
    to.push(RawArg::Count(count))?;
    push_entries::<E>(to, count, rest)
}

/// Sixteen bytes, behind the arguments of `to`.
pub(crate) fn push_sixteen<'a>(to: &mut Vec<RawArg>, bytes: &'a [u8]) -> Result<&'a [u8], WireError>
    ensures { Gives (λ r. (to.new.items, r.now)) result
        (push_at to.old.items (Made (map args.Byte) (Bytes 16)) bytes.now) }
{
    let (sixteen, rest) = read_bytes(bytes, 16)?;
    'sixteen: for byte in sixteen {
        to.push(RawArg::Byte(*byte))?;
    }
    Ok(rest)
}
