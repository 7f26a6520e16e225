//! The payload of the name section (Appendix > Custom Sections > Name Section).

ghost use Rattle.std.specs.Prelude.{◌≡◌, List};
ghost use Rattle.wasm_payloads.specs.Names.{Named, Names, NamesOnce, named, part_of};
ghost use Rattle.wasm_payloads.specs.Sink.{Handed};
ghost use Rattle.wasm_payloads.specs.Steps.{Hands, front_of, owned, entry_at, map_at, function_at, locals_at, module_at, content_at, subsection_at};

use crate::front::{front_entry, front_name, front_subsection, front_u32};
use crate::naming::{NameSpace, Naming, Owner, Part};
use crate::sink::NameSink;
use wasm_forms::WireError;

/// The naming of an index in a name map.
fn owned_naming<'a>(owner: Owner, index: u32, name: &'a str) -> Naming<'a>
    ensures { named result ≡ owned owner index name.now }
{
    match owner {
        Owner::Items(space) => Naming::Item(space, index, name),
        Owner::Function(function) => Naming::Local(function, index, name),
    }
}

/// Tells the name of an index, and gives the bytes behind it, or `None` at a fault.
#[tactic(auto, unfolding(crate::specs::Steps::entry_at, crate::specs::Steps::behind_at))]
fn tell_entry<'a, S: NameSink>(
    owner: Owner,
    bytes: &'a [u8],
    sink: &mut S,
) -> Result<Option<&'a [u8]>, WireError>
    ensures hands { Hands S.seen S.after S.refuses front_of sink.old sink.new result
        (entry_at (owned owner) bytes.now) }
    ensures same_known { S.known sink.new ≡ S.known sink.old }
{
    let Some(((index, name), rest)) = front_entry(bytes) else {
        return Ok(None);
    };
    sink.naming(owned_naming(owner, index, name))?;
    Ok(Some(rest))
}

/// Tells the names of a name map, and gives the bytes behind it, or `None` at a fault.
#[tactic(auto, unfolding(crate::specs::Steps::map_at, crate::specs::Steps::counted_at, crate::specs::Steps::behind_at))]
fn tell_map<'a, S: NameSink>(
    owner: Owner,
    bytes: &'a [u8],
    sink: &mut S,
) -> Result<Option<&'a [u8]>, WireError>
    ensures hands { Hands S.seen S.after S.refuses front_of sink.old sink.new result
        (map_at (owned owner) bytes.now) }
    ensures same_known { S.known sink.new ≡ S.known sink.old }
{
    let Some((count, behind)) = front_u32(bytes) else {
        return Ok(None);
    };
    let mut rest = behind;
    'entries: for _taken in 0..count {
        let Some(after) = tell_entry(owner, rest, sink)? else {
            return Ok(None);
        };
        rest = after;
    }
    Ok(Some(rest))
}

/// Tells the names of a function's locals, and gives the bytes behind them, or `None` at a fault.
#[tactic(auto, unfolding(crate::specs::Steps::function_at, crate::specs::Steps::behind_at))]
fn tell_function<'a, S: NameSink>(
    bytes: &'a [u8],
    sink: &mut S,
) -> Result<Option<&'a [u8]>, WireError>
    ensures hands { Hands S.seen S.after S.refuses front_of sink.old sink.new result
        (function_at (S.known sink.old) bytes.now) }
    ensures same_known { S.known sink.new ≡ S.known sink.old }
{
    let Some((function, behind)) = front_u32(bytes) else {
        return Ok(None);
    };
    if !sink.function_known(function) {
        return Ok(None);
    }
    tell_map(Owner::Function(function), behind, sink)
}

/// Tells the names of locals, and gives the bytes behind them, or `None` at a fault.
#[tactic(auto, unfolding(crate::specs::Steps::locals_at, crate::specs::Steps::counted_at, crate::specs::Steps::behind_at))]
fn tell_locals<'a, S: NameSink>(
    bytes: &'a [u8],
    sink: &mut S,
) -> Result<Option<&'a [u8]>, WireError>
    ensures hands { Hands S.seen S.after S.refuses front_of sink.old sink.new result
        (locals_at (S.known sink.old) bytes.now) }
    ensures same_known { S.known sink.new ≡ S.known sink.old }
{
    let Some((count, behind)) = front_u32(bytes) else {
        return Ok(None);
    };
    let mut rest = behind;
    'functions: for _taken in 0..count {
        let Some(after) = tell_function(rest, sink)? else {
            return Ok(None);
        };
        rest = after;
    }
    Ok(Some(rest))
}

/// Tells the module's name, where it is all of the bytes.
#[tactic(auto, unfolding(crate::specs::Steps::module_at, crate::specs::Steps::behind_at))]
fn tell_module<'a, S: NameSink>(
    bytes: &'a [u8],
    sink: &mut S,
) -> Result<Option<&'a [u8]>, WireError>
    ensures hands { Hands S.seen S.after S.refuses front_of sink.old sink.new result (module_at bytes.now) }
    ensures same_known { S.known sink.new ≡ S.known sink.old }
{
    let Some((name, rest)) = front_name(bytes) else {
        return Ok(None);
    };
    if !rest.is_empty() {
        return Ok(None);
    }
    sink.naming(Naming::Module(name))?;
    Ok(Some(rest))
}

/// What a subsection of this id names.
fn part_with_id(id: u8) -> Part
    ensures { result ≡ part_of id }
{
    match id {
        0 => Part::Module,
        1 => Part::Items(NameSpace::Functions),
        2 => Part::Locals,
        4 => Part::Items(NameSpace::Types),
        5 => Part::Items(NameSpace::Tables),
        6 => Part::Items(NameSpace::Memories),
        7 => Part::Items(NameSpace::Globals),
        8 => Part::Items(NameSpace::Elements),
        9 => Part::Items(NameSpace::DataSegments),
        11 => Part::Items(NameSpace::Tags),
        _ => Part::Other,
    }
}

/// Tells the names of a subsection's content, and gives the bytes left of it, or `None` at a fault.
#[tactic(auto, unfolding(crate::specs::Steps::content_at))]
fn tell_content<'a, S: NameSink>(
    part: Part,
    content: &'a [u8],
    sink: &mut S,
) -> Result<Option<&'a [u8]>, WireError>
    ensures hands { Hands S.seen S.after S.refuses front_of sink.old sink.new result
        (content_at (S.known sink.old) part content.now) }
    ensures same_known { S.known sink.new ≡ S.known sink.old }
{
    match part {
        Part::Module => tell_module(content, sink),
        Part::Locals => tell_locals(content, sink),
        Part::Items(space) => tell_map(Owner::Items(space), content, sink),
        Part::Other => Ok(Some(&[])),
    }
}

/// Tells the names of a subsection, and gives the bytes behind it, or `None` at a fault.
#[tactic(auto, unfolding(crate::specs::Steps::subsection_at, crate::specs::Steps::behind_at, crate::specs::Steps::inside_at))]
fn tell_subsection<'a, S: NameSink>(
    bytes: &'a [u8],
    sink: &mut S,
) -> Result<Option<&'a [u8]>, WireError>
    ensures hands { Hands S.seen S.after S.refuses front_of sink.old sink.new result
        (subsection_at (S.known sink.old) bytes.now) }
    ensures same_known { S.known sink.new ≡ S.known sink.old }
{
    let Some(((id, content), rest)) = front_subsection(bytes) else {
        return Ok(None);
    };
    match tell_content(part_with_id(id), content, sink)? {
        Some([]) => Ok(Some(rest)),
        _ => Ok(None),
    }
}

/// Hands the sink the namings of a payload that stand whole before its first fault, in order, in range or not. The locals of a
/// function are told only where [`NameSink::function_known`] knows it; a function that isn't known is a fault.
///
/// # Errors
///
/// What the sink refuses with, which ends the reading: it then took the namings before. No fault refuses.
pub fn read_names<S: NameSink>(bytes: &[u8], sink: &mut S) -> Result<(), WireError>
    ensures handed { (names : List Named) × (Names (S.known sink.old) bytes.now names
        × Handed S.seen S.after S.refuses sink.old sink.new names result) }
    ensures same_known { S.known sink.new ≡ S.known sink.old }
{
    let mut rest = bytes;
    while !rest.is_empty() {
        let Some(after) = tell_subsection(rest, sink)? else {
            return Ok(());
        };
        rest = after;
    }
    Ok(())
}

/// No payload has two lists of namings.
pub fn names_once()
    ensures { NamesOnce }
{}
