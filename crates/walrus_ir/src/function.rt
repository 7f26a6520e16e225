//! Functions that are being built.
ghost use Rattle.std.specs.Prelude.{◌≡◌, ◌∷◌, ◌++◌, [], None, map, pos, IfOk, OnOk, MatchResult};
ghost use Rattle.std.specs.Borrow.{sem};
ghost use Rattle.walrus_base.specs.Id.{place};
ghost use Rattle.walrus_base.specs.Alone.{FoundOrAdded};
ghost use Rattle.walrus_base.specs.Composite.{function_of};
ghost use Rattle.walrus_base.specs.ModuleTypes.{type_slots, type_names};
ghost use Rattle.walrus_base.specs.TypeDef.{name_bytes};
ghost use Rattle.walrus_bodies.specs.Function.{function_type, name_of, body_of, locations_of, args_of, handlers_in};
ghost use Rattle.walrus_ir.specs.Instructions.{end_op, i32_const_op, drop_op, nowhere};
ghost use Rattle.walrus_bodies.specs.Location.{location};
ghost use Rattle.walrus_ir.specs.Sequence.{built, located};

use crate::sequence::InstrSeqBuilder;
use std::alloc::{AllocError, Global};
use walrus_base::{LocalId, ModuleTypes, TypeId, ValType};
use walrus_bodies::LocalFunction;

/// A function with a body that is being built (Structure > Modules > Functions).
#[derive(Drop)]
pub struct FunctionBuilder {
    name: Option<String>,
    ty: TypeId,
    body: InstrSeqBuilder,
    alloc: Global,
}

impl FunctionBuilder {
    ghost use Rattle.walrus_ir.specs.Building.{builder_name, builder_type, builder_body, with_name};
    ghost use Rattle.walrus_ir.specs.LendsBody.{LendsBody};

    /// A function with these parameters and results, without a name, whose body has no operators yet. Its type is the one that
    /// `ModuleTypes::add` answers. Where memory runs out, the types stay.
    pub fn new(
        alloc: Global,
        types: &mut ModuleTypes,
        params: &[ValType],
        results: &[ValType],
    ) -> Result<FunctionBuilder, AllocError>
        ensures ty { MatchResult result
            (λ b. FoundOrAdded (function_of params.now results.now) (type_slots types.old)
            (type_slots types.new) (type_names types.old) (type_names types.new) (place (builder_type b)))
            (λ _. (type_slots types.new ≡ type_slots types.old)
            × (type_names types.new ≡ type_names types.old)) }
        ensures name { IfOk result (λ b. builder_name b ≡ None) }
        ensures body { IfOk result (λ b. built (builder_body b) ≡ []) }
        ensures locations { IfOk result (λ b. located (builder_body b) ≡ []) }
    {
        let ty = types.add(params, results)?;
        Ok(FunctionBuilder {
            name: None,
            ty,
            body: InstrSeqBuilder::new(alloc),
            alloc,
        })
    }

    /// Gives the function a name, and changes nothing else.
    pub fn name(&mut self, name: String) -> &mut FunctionBuilder
        ensures same_reference { result.ghost_name ≡ self.entry.ghost_name }
        ensures value { result.now ≡ with_name self.old name }
    {
        self.name = Some(name);
        self
    }

    /// The body, to put operators into it.
    pub fn func_body(&mut self) -> &mut InstrSeqBuilder
        ensures* writes_back { sem 𝓛 (LendsBody self.entry result) }
        ensures value { result.now ≡ builder_body self.old }
    {
        &mut self.body
    }

    /// The function of this name and type with these argument locals. Its body is the operators that were built, and behind them
    /// the last `0B`, which came from nowhere. It has no handlers.
    #[tactic(auto, unfolding(walrus_bodies::specs::Function::name_of, walrus_bodies::specs::Function::body_of, walrus_bodies::specs::Function::locations_of, walrus_bodies::specs::Function::args_of, walrus_bodies::specs::Function::handlers_in))]
    pub fn local_func(self, args: Vec<LocalId>) -> Result<LocalFunction, AllocError>
        ensures name { IfOk result (λ f. name_of f ≡ name_bytes (builder_name self)) }
        ensures ty { IfOk result (λ f. function_type f ≡ builder_type self) }
        ensures args { IfOk result (λ f. args_of f ≡ map place args.items) }
        ensures body { IfOk result (λ f. body_of f ≡ built (builder_body self) ++ end_op ∷ []) }
        ensures locations { IfOk result (λ f. map location (locations_of f) ≡ located (builder_body self)
            ++ nowhere ∷ []) }
        ensures handler_types { IfOk result (λ f. handlers_in f ≡ []) }
    {
        let FunctionBuilder {
            name,
            ty,
            body,
            alloc,
        } = self;
        body.into_named(alloc, ty, args, name)
    }
}

// An example: puts `i32.const 1234`, `drop` behind the operators of a sequence.
fn push_const_and_drop(body: &mut InstrSeqBuilder) -> Result<(), AllocError>
    ensures { OnOk result (built body.new ≡ built body.old ++ i32_const_op (pos 1234) ∷ drop_op ∷ []) }
{
    body.i32_const(1234)?.drop_()?;
    Ok(())
}

// An example: a function without parameters and results, whose body is these two operators.
fn const_and_drop(alloc: Global, types: &mut ModuleTypes) -> Result<LocalFunction, AllocError>
    ensures { IfOk result (λ f. body_of f ≡ i32_const_op (pos 1234) ∷ drop_op ∷ end_op ∷ []) }
{
    let mut builder = FunctionBuilder::new(alloc, types, &[], &[])?;
    push_const_and_drop(builder.func_body())?;
    builder.local_func(Vec::new(alloc))
}
