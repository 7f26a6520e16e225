//! Functions that `ref.func` names and that nothing declares (Valid > Modules: the context's references).
ghost use Rattle.std.specs.Prelude.{◌≡◌, ◌≤◌, ◌<◌, ◌++◌, ◌||◌, ◌==◌, ℕ, true, not, false, filter, filter_map, map, option_map, IfOk, IsOkUnless, OnOk};
ghost use Rattle.walrus_base.specs.Arena.{items};
ghost use Rattle.walrus_base.specs.Id.{place};
ghost use Rattle.walrus_base.specs.Marks.{is_marked, mark_places, places_marked};
ghost use Rattle.walrus_code.specs.Code.{arg_of, op_of, ops_of};
ghost use Rattle.walrus_items.specs.Function.{body_of};
ghost use Rattle.walrus_items.specs.Functions.{functions};
ghost use Rattle.walrus_items.specs.Globals.{global_init, globals};
ghost use Rattle.walrus_items.specs.Elements.{elements};
ghost use Rattle.walrus_items.specs.Exports.{exports};
ghost use Rattle.walrus_base.specs.ConstOps.{const_op, const_ops};
ghost use Rattle.walrus_base.specs.PlaceList.{has};
ghost use Rattle.walrus_items.specs.Errors.{out_of_memory};
ghost use Rattle.walrus_model.specs.Declared.{AreUndeclared};
ghost use Rattle.walrus_model.specs.Live.{IsLive};
ghost use Rattle.walrus_contents.specs.References.{arg_ref, args_ref, op_ref, kind_refs, function_refs, init_refs, global_refs, named_refs, declared_refs, export_refs, listed_in, listed_refs, only_ref};
ghost use Rattle.walrus_contents.specs.View.{parts_view};

use crate::parts::Parts;
use std::alloc::{AllocError, Global};
use walrus_base::{ConstExpr, ConstOp, FunctionId, FunctionKey, Marks};
use walrus_bodies::LocalFunction;
use walrus_code::{Arg, Operator};
use walrus_items::{
    ElementItems, Error, ExportItem, FunctionKind, GlobalKind, ModuleElements, ModuleExports,
    ModuleFunctions, ModuleGlobals, Result,
};
use wasm_opcodes::one_byte::REF_FUNC;

// The function that the argument names.
fn arg_ref(arg: &Arg) -> Option<FunctionId>
    ensures { option_map place result ≡ arg_ref (arg_of arg.now) }
{
    match *arg {
        Arg::Function(id) => Some(id),
        _ => None,
    }
}

// The same of the one argument, where there is just one.
fn args_ref(args: &[Arg]) -> Option<FunctionId>
    ensures { option_map place result ≡ args_ref (map arg_of args.now) }
{
    match args {
        [arg] => arg_ref(arg),
        _ => None,
    }
}

// The function that the operator names, if it is `ref.func`.
fn operator_ref(operator: &Operator) -> Option<FunctionId>
    ensures { option_map place result ≡ op_ref (op_of operator.now) }
{
    if operator.op != REF_FUNC {
        return None;
    }
    args_ref(operator.args.as_slice())
}

// Puts the functions that `ref.func` names in a body behind `to`, in order.
fn push_body_refs(function: &LocalFunction, to: &mut Vec<FunctionId>) -> Result<()>
    ensures puts { OnOk result (map place to.new.items ≡ map place to.old.items
        ++ filter_map op_ref (body_of function.now)) }
    ensures fails { IsOkUnless result out_of_memory }
{
    if let Some(text) = function.text() {
        text.is_plain();
        return Ok(());
    }
    push_listed_refs(function.listed(), to)
}

// The same for the operators of a list.
fn push_listed_refs(operators: &[Operator], to: &mut Vec<FunctionId>) -> Result<()>
    ensures puts { OnOk result (map place to.new.items ≡ map place to.old.items
        ++ filter_map op_ref (ops_of operators.now)) }
    ensures fails { IsOkUnless result out_of_memory }
{
    for operator in operators {
        if let Some(id) = operator_ref(operator) {
            to.push(id)?;
        }
    }
    Ok(())
}

// The same for a function of this kind.
fn push_kind_refs(kind: &FunctionKind, to: &mut Vec<FunctionId>) -> Result<()>
    ensures puts { OnOk result (map place to.new.items ≡ map place to.old.items ++ kind_refs kind.now) }
    ensures fails { IsOkUnless result out_of_memory }
{
    match kind {
        FunctionKind::Local(local) => push_body_refs(local, to),
        FunctionKind::Import(_) | FunctionKind::Uninitialized(_) => Ok(()),
    }
}

// The same for all functions.
fn push_function_refs(funcs: &ModuleFunctions, to: &mut Vec<FunctionId>) -> Result<()>
    ensures puts { OnOk result (map place to.new.items ≡ map place to.old.items
        ++ function_refs (items (functions funcs.now))) }
    ensures fails { IsOkUnless result out_of_memory }
{
    for function in funcs.iter() {
        push_kind_refs(&function.kind, to)?;
    }
    Ok(())
}

// The function that the operator of a constant expression names, if it is `ref.func`.
fn const_ref(operator: &ConstOp) -> Option<FunctionId>
    ensures { option_map place result ≡ op_ref (const_op operator.now) }
{
    match *operator {
        ConstOp::RefFunc(id) => Some(id),
        _ => None,
    }
}

// Puts the functions that `ref.func` names in these operators behind `to`, in order.
fn push_const_refs(operators: &[ConstOp], to: &mut Vec<FunctionId>) -> Result<()>
    ensures puts { OnOk result (map place to.new.items ≡ map place to.old.items
        ++ filter_map op_ref (map const_op operators.now)) }
    ensures fails { IsOkUnless result out_of_memory }
{
    for operator in operators {
        if let Some(id) = const_ref(operator) {
            to.push(id)?;
        }
    }
    Ok(())
}

// The same for a constant expression.
#[tactic(auto, using(crate::proofs::ExportedRefs::value_refs))]
fn push_expr_refs(expr: &ConstExpr, to: &mut Vec<FunctionId>) -> Result<()>
    ensures puts { OnOk result (map place to.new.items ≡ map place to.old.items
        ++ filter_map op_ref (const_ops expr.now)) }
    ensures fails { IsOkUnless result out_of_memory }
{
    match expr {
        ConstExpr::RefFunc(id) => Ok(to.push(*id)?),
        ConstExpr::Extended(operators) => push_const_refs(operators.as_slice(), to),
        ConstExpr::Value(_) | ConstExpr::Global(_) | ConstExpr::RefNull(_) => Ok(()),
    }
}

// The same for where a global comes from: an import, which names nothing, or its initialiser.
fn push_initialiser_refs(kind: &GlobalKind, to: &mut Vec<FunctionId>) -> Result<()>
    ensures puts { OnOk result (map place to.new.items ≡ map place to.old.items
        ++ init_refs (option_map const_ops (global_init kind.now))) }
    ensures fails { IsOkUnless result out_of_memory }
{
    match kind {
        GlobalKind::Import(_) => Ok(()),
        GlobalKind::Local(initialiser) => push_expr_refs(initialiser, to),
    }
}

// The same for all globals.
fn push_global_refs(all_globals: &ModuleGlobals, to: &mut Vec<FunctionId>) -> Result<()>
    ensures puts { OnOk result (map place to.new.items ≡ map place to.old.items
        ++ global_refs (items (globals all_globals.now))) }
    ensures fails { IsOkUnless result out_of_memory }
{
    for global in all_globals.iter() {
        push_initialiser_refs(&global.kind, to)?;
    }
    Ok(())
}

// The functions that `ref.func` names in bodies and in the initialisers of globals.
fn named_functions(alloc: Global, parts: Parts<'_>) -> Result<Vec<FunctionId>>
    ensures names { IfOk result (λ named. map place named.items
        ≡ named_refs (items (functions parts.entry.funcs.now)) (items (globals parts.entry.globals.now))) }
    ensures fails { IsOkUnless result out_of_memory }
{
    let mut named = Vec::new(alloc);
    push_function_refs(parts.funcs, &mut named)?;
    push_global_refs(parts.globals, &mut named)?;
    Ok(named)
}

// So many places, or more, so that the id's is one of them. Of more than a `usize` counts there is no memory for marks.
fn with_place(places: usize, id: FunctionId) -> Result<usize>
    ensures more { IfOk result (λ more. places ≤ more) }
    ensures room { IfOk result (λ more. place id < more) }
    ensures fails { IsOkUnless result out_of_memory }
{
    if id.index() < places {
        return Ok(places);
    }
    match id.index().checked_add(1) {
        Some(more) => Ok(more),
        None => Err(Error::Memory(AllocError)),
    }
}

// As many places as lie below the one behind the last of the ids, which needn't be live.
fn places_for(ids: &[FunctionId]) -> Result<usize>
    ensures room { IfOk result (λ places. (f : ℕ) → has (map place ids.now) f ≡ true → f < places) }
    ensures fails { IsOkUnless result out_of_memory }
{
    let mut places = 0;
    'ids: for id in ids {
        places = with_place(places, *id)?;
    }
    Ok(places)
}

// Marks one.
fn mark_one(marks: &mut Marks<FunctionKey>, id: FunctionId)
    requires { place id < mark_places marks.old }
    ensures marks { (f : ℕ) → is_marked marks.new f ≡ ((place id == f) || is_marked marks.old f) }
    ensures places { mark_places marks.new ≡ mark_places marks.old }
{
    let _is_new = marks.mark(id);
}

// Marks of these ids.
fn marks_of(alloc: Global, ids: &[FunctionId]) -> Result<Marks<FunctionKey>>
    ensures marks { IfOk result (λ marks. (f : ℕ) → is_marked marks f ≡ has (map place ids.now) f) }
    ensures fails { IsOkUnless result out_of_memory }
{
    let mut marks = Marks::new(alloc, places_for(ids)?)?;
    'ids: for id in ids {
        mark_one(&mut marks, *id);
    }
    Ok(marks)
}

// Puts the functions that are exported behind `to`, in order.
fn push_exported(all: &ModuleExports, to: &mut Vec<FunctionId>) -> Result<()>
    ensures puts { OnOk result (map place to.new.items ≡ map place to.old.items
        ++ export_refs (items (exports all.now))) }
    ensures fails { IsOkUnless result out_of_memory }
{
    for export in all.iter() {
        if let ExportItem::Function(exported) = export.item {
            to.push(exported)?;
        }
    }
    Ok(())
}

// The function that `ref.func` names, which stands alone in the constant expression.
fn only_ref(expr: &ConstExpr) -> Option<FunctionId>
    ensures { option_map place result ≡ only_ref (const_ops expr.now) }
{
    match expr {
        ConstExpr::RefFunc(id) => Some(*id),
        ConstExpr::Extended(operators) => match operators.as_slice() {
            [operator] => const_ref(operator),
            _ => None,
        },
        ConstExpr::Value(_) | ConstExpr::Global(_) | ConstExpr::RefNull(_) => None,
    }
}

// Puts these functions behind `to`, in order.
fn push_ids(ids: &[FunctionId], to: &mut Vec<FunctionId>) -> Result<()>
    ensures puts { OnOk result (map place to.new.items ≡ map place to.old.items ++ map place ids.now) }
    ensures fails { IsOkUnless result out_of_memory }
{
    for id in ids {
        to.push(*id)?;
    }
    Ok(())
}

// The same for those that `ref.func` alone names in expressions.
fn push_only_refs(expressions: &[ConstExpr], to: &mut Vec<FunctionId>) -> Result<()>
    ensures puts { OnOk result (map place to.new.items ≡ map place to.old.items
        ++ filter_map only_ref (map const_ops expressions.now)) }
    ensures fails { IsOkUnless result out_of_memory }
{
    for expression in expressions {
        if let Some(id) = only_ref(expression) {
            to.push(id)?;
        }
    }
    Ok(())
}

// The same for those that a segment of elements lists.
fn push_listed(held: &ElementItems, to: &mut Vec<FunctionId>) -> Result<()>
    ensures puts { OnOk result (map place to.new.items ≡ map place to.old.items ++ listed_in held.now) }
    ensures fails { IsOkUnless result out_of_memory }
{
    match held {
        ElementItems::Functions(functions) => push_ids(functions.as_slice(), to),
        ElementItems::Expressions(_, expressions) => push_only_refs(expressions.as_slice(), to),
    }
}

// The same for all segments.
fn push_all_listed(all: &ModuleElements, to: &mut Vec<FunctionId>) -> Result<()>
    ensures puts { OnOk result (map place to.new.items ≡ map place to.old.items
        ++ listed_refs (items (elements all.now))) }
    ensures fails { IsOkUnless result out_of_memory }
{
    for segment in all.iter() {
        push_listed(&segment.items, to)?;
    }
    Ok(())
}

// The functions that are exported, and those that segments list.
fn declared_functions(alloc: Global, parts: Parts<'_>) -> Result<Vec<FunctionId>>
    ensures names { IfOk result (λ declared. map place declared.items
        ≡ declared_refs (items (exports parts.entry.exports.now))
        (items (elements parts.entry.elements.now))) }
    ensures fails { IsOkUnless result out_of_memory }
{
    let mut declared = Vec::new(alloc);
    push_exported(parts.exports, &mut declared)?;
    push_all_listed(parts.elements, &mut declared)?;
    Ok(declared)
}

// The ids that are marked, but for those that are marked beside, by rising place.
fn marked_without(
    alloc: Global,
    marks: &Marks<FunctionKey>,
    without: &Marks<FunctionKey>,
) -> Result<Vec<FunctionId>>
    ensures are { IfOk result (λ found. map place found.items
        ≡ filter (λ f. not (is_marked without.now f)) (places_marked marks.now)) }
    ensures fails { IsOkUnless result out_of_memory }
{
    let mut found = Vec::new(alloc);
    'ids: for id in marks.iter() {
        if !without.is_marked(id) {
            found.push(id)?;
        }
    }
    Ok(found)
}

/// The functions that `ref.func` names in a body or in the initialiser of a global and that nothing declares, neither an export nor a
/// segment of elements, by rising id, those that aren't there included. It takes time and memory by the largest id that is named or
/// declared; where none is named what is declared isn't looked at. `Memory` is the only error.
pub fn undeclared_functions(alloc: Global, parts: Parts<'_>) -> Result<Vec<FunctionId>>
    ensures undeclared { IfOk result (λ ids. AreUndeclared (IsLive (parts_view parts.entry))
        (parts_view parts.entry) (map place ids.items)) }
    ensures fails { IsOkUnless result out_of_memory }
{
    let named = named_functions(alloc, parts)?;
    if named.is_empty() {
        return Ok(named);
    }
    let declared = declared_functions(alloc, parts)?;
    let named_marks = marks_of(alloc, named.as_slice())?;
    let declared_marks = marks_of(alloc, declared.as_slice())?;
    marked_without(alloc, &named_marks, &declared_marks)
}
