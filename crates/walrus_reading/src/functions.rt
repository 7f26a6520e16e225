//! The functions of a module that is read, by their types and bodies.
ghost use Rattle.std.specs.Prelude.{true, ◌≡◌, ◌<◌, [], length, map, zip, All, IfOk, IfSome, OnOk, Some};
ghost use Rattle.std.specs.Fn.{FnReturnsAt};
ghost use Rattle.walrus_base.specs.Id.{place};
ghost use Rattle.walrus_base.specs.Locals.{locals};
ghost use Rattle.walrus_base.specs.ModuleTypes.{type_slots};
ghost use Rattle.walrus_base.specs.Operators.{Types};
ghost use Rattle.walrus_code.specs.Indices.{ids_at};
ghost use Rattle.walrus_bodies.specs.FunctionTypes.{is_function_at};
ghost use Rattle.walrus_functions.specs.PlainCode.{limits_in};
ghost use Rattle.walrus_model.specs.Scanned.{AreInPlace};
ghost use Rattle.walrus_functions.specs.Known.{IsOfTypes};
ghost use Rattle.walrus_functions.specs.ReadFunction.{Given};
ghost use Rattle.walrus_functions.specs.Signatures.{slots_of};
ghost use Rattle.walrus_items.specs.Functions.{functions};
ghost use Rattle.walrus_items.specs.Tags.{tags};
ghost use Rattle.walrus_model.specs.Reads.{declared};
ghost use Rattle.walrus_reading.specs.Taken.{AddLocated, AddsLocated, AreThere, TakesFunction, TakesFunctions, context_under, tags_under, types_in};
ghost use Rattle.wasm_frames.specs.Record.{body_record};

use crate::bodies::{first_starts, read_located};
use crate::unread::{Unread, unread_at};
use std::alloc::Global;
use std::rc::Rc;
use std::result;
use walrus_base::{ModuleLocals, ModuleTypes, TypeId};
use walrus_bodies::{Features, PlainCode};
use walrus_code::{IndicesToIds, InstrLocId};
use walrus_functions::HandlerTypes;
use walrus_items::ModuleFunctions;
use wasm_frames::RawBody;

// What bodies are read under: the proposals that they may use, what indices name, the types of tags by their places, the code of those that
// are kept as they stand in the input, and what gives the operators of others their locations.
#[derive(Drop)]
pub struct Under<'a, L> {
    pub(crate) alloc: Global,
    pub(crate) features: &'a Features,
    pub(crate) indices: &'a IndicesToIds,
    pub(crate) tag_types: &'a [TypeId],
    pub(crate) texts: Option<Rc<PlainCode>>,
    pub(crate) locate: &'a L,
}

// Reads the body of a function of this type. The function gets the next id; its locals are its parameters, and behind them
// those that the body declares. The types of its legacy handlers are found among the types, or added to them.
fn add_function<L: Fn(&usize) -> InstrLocId>(
    under: &Under<'_, L>,
    index: u32,
    body: &RawBody<'_>,
    types: &mut ModuleTypes,
    all: &mut ModuleLocals,
    funcs: &mut ModuleFunctions,
    number: u32,
    handlers: &mut HandlerTypes,
) -> result::Result<(), Unread>
    requires callable { L.IsAlwaysCallable under.now.locate.now }
    requires in_place { IfSome under.now.texts (λ code.
        AreInPlace (limits_in code.value) (ids_at under.now.indices.now)) }
    requires declared { ids_at under.now.indices.now Types index ≡ Some index }
    requires typed { is_function_at types.old index ≡ true }
    requires known { IsOfTypes (type_slots types.old) handlers.old }
    ensures taken { TakesFunction (context_under under.now types.old) (types_in types.old)
        (tags_under under.now) (index, body_record body.now) (slots_of types.old) (slots_of types.new)
        (locals all.old) (locals all.new) (functions funcs.old) (functions funcs.new) result }
    ensures located { OnOk result (AddsLocated (Given under.now.texts (FnReturnsAt L.Fn under.now.locate.now))
        (body_record body.now) (functions funcs.old) (functions funcs.new)) }
    ensures known { OnOk result (IsOfTypes (type_slots types.new) handlers.new) }
{
    let Some(ty) = under.indices.get_type(index) else {
        unreachable!();
    };
    let read = read_located(under, ty, body, types, all, number, handlers);
    match read {
        Ok(function) => {
            funcs.add_local(function)?;
            Ok(())
        }
        Err(e) => Err(unread_at(funcs.next_id().index(), e)),
    }
}

// Reads the bodies of the functions of these types, which get the next ids. The module has no other locals. Answers where the locals of each
// function begin, and behind them the end. Refused, it tells the first function whose body isn't read.
pub fn add_functions<L: Fn(&usize) -> InstrLocId>(
    under: &Under<'_, L>,
    of_types: &[u32],
    bodies: &[RawBody<'_>],
    types: &mut ModuleTypes,
    all: &mut ModuleLocals,
    funcs: &mut ModuleFunctions,
) -> result::Result<Vec<usize>, Unread>
    requires callable { L.IsAlwaysCallable under.now.locate.now }
    requires in_place { IfSome under.now.texts (λ code.
        AreInPlace (limits_in code.value) (ids_at under.now.indices.now)) }
    requires no_locals { locals all.old ≡ [] }
    requires as_many { length bodies.now ≡ length of_types.now }
    requires declared { All (λ t. ids_at under.now.indices.now Types t ≡ Some t) of_types.now }
    requires typed { All (λ t. is_function_at types.old t ≡ true) of_types.now }
    requires there { AreThere (ids_at under.now.indices.now) (tags_under under.now) (type_slots types.old) }
    ensures taken { TakesFunctions (context_under under.now types.old) (types_in types.old)
        (tags_under under.now) (zip of_types.now (map body_record bodies.now)) all.new
        (slots_of types.old) (slots_of types.new) (functions funcs.old) (functions funcs.new) result }
    ensures located { IfOk result (λ _. AddLocated
        (Given under.now.texts (FnReturnsAt L.Fn under.now.locate.now))
        (map body_record bodies.now) (functions funcs.old) (functions funcs.new)) }
{
    funcs.reserve(of_types.len())?;
    let mut starts = first_starts(under.alloc, funcs)?;
    let mut number: u32 = 0;
    let mut handlers = HandlerTypes::new(under.alloc);
    for place in 0..of_types.len() {
        let body = &bodies[place];
        add_function(
            under,
            of_types[place],
            body,
            types,
            all,
            funcs,
            number,
            &mut handlers,
        )?;
        number = number.wrapping_add(1);
        let end = all.next_id().index();
        starts.push(end)?;
    }
    Ok(starts)
}
