//! Sequences of operators, built one behind another.
ghost use Rattle.std.specs.Prelude.{◌≡◌, ◌∷◌, ◌++◌, [], None, length, map, IfOk, OnOk, OnErr};
ghost use Rattle.walrus_base.specs.Id.{place};
ghost use Rattle.walrus_base.specs.TypeDef.{name_bytes};
ghost use Rattle.walrus_bodies.specs.Code.{block_of, op_of, ops_of};
ghost use Rattle.walrus_bodies.specs.Function.{function_type, name_of, body_of, locations_of, args_of, handlers_in};
ghost use Rattle.walrus_bodies.specs.Location.{location};
ghost use Rattle.walrus_ir.specs.Instructions.{bare_op, unreachable_op, block_op, loop_op, if_op, else_op, end_op, br_op, br_if_op, return_op, call_op, call_indirect_op, ref_func_op, drop_op, select_op, local_get_op, local_set_op, local_tee_op, global_get_op, global_set_op, i32_const_op, i64_const_op, f32_const_op, f64_const_op, access_op, nowhere};

use std::alloc::{AllocError, Global};
use walrus_base::{FunctionId, GlobalId, LocalId, MemoryId, TableId, TypeId};
use walrus_bodies::LocalFunction;
use walrus_code::{Arg, Args, BlockType, Operator};
use wasm_opcodes::one_byte::{
    BLOCK, BR, BR_IF, CALL, CALL_INDIRECT, DROP, ELSE, F32_CONST, F64_CONST, GLOBAL_GET,
    GLOBAL_SET, I32_CONST, I64_CONST, IF, LOCAL_GET, LOCAL_SET, LOCAL_TEE, LOOP, REF_FUNC, RETURN,
    SELECT, UNREACHABLE,
};

/// A sequence of operators that is being built (Structure > Instructions > Expressions).
#[derive(Drop)]
pub struct InstrSeqBuilder {
    operators: Vec<Operator>,
    alloc: Global,
}

impl InstrSeqBuilder {
    ghost use Rattle.walrus_ir.specs.Sequence.{built, located, locations, Stays};

    /// A sequence without operators. Takes no memory until the first one comes.
    pub fn new(alloc: Global) -> InstrSeqBuilder
        ensures value { built result ≡ [] }
        ensures locations { located result ≡ [] }
    {
        InstrSeqBuilder {
            operators: Vec::new(alloc),
            alloc,
        }
    }

    /// How many operators were built.
    pub fn len(&self) -> usize
        ensures { result ≡ length (built self.now) }
    {
        self.operators.len()
    }

    /// The operators that were built, in order.
    pub fn operators(&self) -> &[Operator]
        ensures value { ops_of result.now ≡ built self.now }
        ensures locations { locations result.now ≡ located self.now }
    {
        self.operators.as_slice()
    }

    /// The function of this type with these argument locals, without a name. Its body is the operators that were built, and behind
    /// them the last `0B`, which came from nowhere. It has no handlers.
    pub fn into_function(
        self,
        alloc: Global,
        ty: TypeId,
        args: Vec<LocalId>,
    ) -> Result<LocalFunction, AllocError>
        ensures name { IfOk result (λ f. name_of f ≡ None) }
        ensures ty { IfOk result (λ f. function_type f ≡ ty) }
        ensures args { IfOk result (λ f. args_of f ≡ map place args.items) }
        ensures body { IfOk result (λ f. body_of f ≡ built self ++ end_op ∷ []) }
        ensures locations { IfOk result (λ f. map location (locations_of f) ≡ located self ++ nowhere ∷ []) }
        ensures handler_types { IfOk result (λ f. handlers_in f ≡ []) }
    {
        self.into_named(alloc, ty, args, None)
    }

    // The same with this name, if there is one.
    pub(crate) fn into_named(
        self,
        alloc: Global,
        ty: TypeId,
        args: Vec<LocalId>,
        name: Option<String>,
    ) -> Result<LocalFunction, AllocError>
        ensures name { IfOk result (λ f. name_of f ≡ name_bytes name) }
        ensures ty { IfOk result (λ f. function_type f ≡ ty) }
        ensures args { IfOk result (λ f. args_of f ≡ map place args.items) }
        ensures body { IfOk result (λ f. body_of f ≡ built self ++ end_op ∷ []) }
        ensures locations { IfOk result (λ f. map location (locations_of f) ≡ located self ++ nowhere ∷ []) }
        ensures handler_types { IfOk result (λ f. handlers_in f ≡ []) }
    {
        let mut body = self;
        body.push(Operator::new(Operator::END, Args::None))?;
        LocalFunction::new(alloc, ty, args, body.operators, name)
    }

    // Puts an operator behind those that are there. Where memory runs out, it is dropped, and nothing changes.
    pub(crate) fn push(&mut self, operator: Operator) -> Result<(), AllocError>
        ensures value { OnOk result (built self.new ≡ built self.old ++ op_of operator ∷ []) }
        ensures locations { OnOk result (located self.new ≡ located self.old ++ location operator.loc ∷ []) }
        ensures refused { OnErr result (Stays self.old self.new) }
    {
        self.operators.push(operator)?;
        Ok(())
    }

    /// Puts an operator behind those that are there. Where memory runs out, it is dropped, and nothing changes.
    pub fn instr(&mut self, operator: Operator) -> Result<&mut InstrSeqBuilder, AllocError>
        ensures same_reference { IfOk result (λ b. b.ghost_name ≡ self.entry.ghost_name) }
        ensures value { IfOk result (λ b. built b.now ≡ built self.old ++ op_of operator ∷ []) }
        ensures locations { IfOk result (λ b. located b.now ≡ located self.old
            ++ location operator.loc ∷ []) }
    {
        self.push(operator)?;
        Ok(self)
    }

    /// Puts `unreachable` behind them. It came from nowhere. Where memory runs out, nothing changes.
    pub fn unreachable(&mut self) -> Result<&mut InstrSeqBuilder, AllocError>
        ensures same_reference { IfOk result (λ b. b.ghost_name ≡ self.entry.ghost_name) }
        ensures value { IfOk result (λ b. built b.now ≡ built self.old ++ unreachable_op ∷ []) }
        ensures locations { IfOk result (λ b. located b.now ≡ located self.old ++ nowhere ∷ []) }
    {
        self.instr(Operator::new(UNREACHABLE, Args::None))
    }

    /// Puts `i32.const` with this value behind them. It came from nowhere. Where memory runs out, nothing changes.
    pub fn i32_const(&mut self, value: i32) -> Result<&mut InstrSeqBuilder, AllocError>
        ensures same_reference { IfOk result (λ b. b.ghost_name ≡ self.entry.ghost_name) }
        ensures value { IfOk result (λ b. built b.now ≡ built self.old ++ i32_const_op value ∷ []) }
        ensures locations { IfOk result (λ b. located b.now ≡ located self.old ++ nowhere ∷ []) }
    {
        self.instr(Operator::new(I32_CONST, Args::One(Arg::S32(value))))
    }

    /// Puts `drop` behind them. It came from nowhere. Where memory runs out, nothing changes.
    pub fn drop_(&mut self) -> Result<&mut InstrSeqBuilder, AllocError>
        ensures same_reference { IfOk result (λ b. b.ghost_name ≡ self.entry.ghost_name) }
        ensures value { IfOk result (λ b. built b.now ≡ built self.old ++ drop_op ∷ []) }
        ensures locations { IfOk result (λ b. located b.now ≡ located self.old ++ nowhere ∷ []) }
    {
        self.instr(Operator::new(DROP, Args::None))
    }

    /// Puts `call` of this function behind them. It came from nowhere. Where memory runs out, nothing changes.
    pub fn call(&mut self, function: FunctionId) -> Result<&mut InstrSeqBuilder, AllocError>
        ensures same_reference { IfOk result (λ b. b.ghost_name ≡ self.entry.ghost_name) }
        ensures value { IfOk result (λ b. built b.now ≡ built self.old ++ call_op (place function) ∷ []) }
        ensures locations { IfOk result (λ b. located b.now ≡ located self.old ++ nowhere ∷ []) }
    {
        self.instr(Operator::new(CALL, Args::One(Arg::Function(function))))
    }

    /// Puts `local.get` of this local behind them. It came from nowhere. Where memory runs out, nothing changes.
    pub fn local_get(&mut self, local: LocalId) -> Result<&mut InstrSeqBuilder, AllocError>
        ensures same_reference { IfOk result (λ b. b.ghost_name ≡ self.entry.ghost_name) }
        ensures value { IfOk result (λ b. built b.now ≡ built self.old ++ local_get_op (place local) ∷ []) }
        ensures locations { IfOk result (λ b. located b.now ≡ located self.old ++ nowhere ∷ []) }
    {
        self.instr(Operator::new(LOCAL_GET, Args::One(Arg::Local(local))))
    }

    /// Puts the operator of this number, which has no arguments, behind them. It came from nowhere. Where memory runs out,
    /// nothing changes.
    pub fn op(&mut self, number: u32) -> Result<&mut InstrSeqBuilder, AllocError>
        ensures same_reference { IfOk result (λ b. b.ghost_name ≡ self.entry.ghost_name) }
        ensures value { IfOk result (λ b. built b.now ≡ built self.old ++ bare_op number ∷ []) }
        ensures locations { IfOk result (λ b. located b.now ≡ located self.old ++ nowhere ∷ []) }
    {
        self.instr(Operator::new(number, Args::None))
    }

    /// Puts `block` of this type behind them; `end` closes it. It came from nowhere. Where memory runs out, nothing changes.
    pub fn block(&mut self, ty: BlockType) -> Result<&mut InstrSeqBuilder, AllocError>
        ensures same_reference { IfOk result (λ b. b.ghost_name ≡ self.entry.ghost_name) }
        ensures value { IfOk result (λ b. built b.now ≡ built self.old ++ block_op (block_of ty) ∷ []) }
        ensures locations { IfOk result (λ b. located b.now ≡ located self.old ++ nowhere ∷ []) }
    {
        self.instr(Operator::new(BLOCK, Args::One(Arg::Block(ty))))
    }

    /// Puts `loop` of this type behind them; `end` closes it. It came from nowhere. Where memory runs out, nothing changes.
    pub fn loop_(&mut self, ty: BlockType) -> Result<&mut InstrSeqBuilder, AllocError>
        ensures same_reference { IfOk result (λ b. b.ghost_name ≡ self.entry.ghost_name) }
        ensures value { IfOk result (λ b. built b.now ≡ built self.old ++ loop_op (block_of ty) ∷ []) }
        ensures locations { IfOk result (λ b. located b.now ≡ located self.old ++ nowhere ∷ []) }
    {
        self.instr(Operator::new(LOOP, Args::One(Arg::Block(ty))))
    }

    /// Puts `if` of this type behind them; `end` closes it, and its `else`, if it has one. It came from nowhere. Where memory
    /// runs out, nothing changes.
    pub fn if_(&mut self, ty: BlockType) -> Result<&mut InstrSeqBuilder, AllocError>
        ensures same_reference { IfOk result (λ b. b.ghost_name ≡ self.entry.ghost_name) }
        ensures value { IfOk result (λ b. built b.now ≡ built self.old ++ if_op (block_of ty) ∷ []) }
        ensures locations { IfOk result (λ b. located b.now ≡ located self.old ++ nowhere ∷ []) }
    {
        self.instr(Operator::new(IF, Args::One(Arg::Block(ty))))
    }

    /// Puts `else` behind them. It came from nowhere. Where memory runs out, nothing changes.
    pub fn else_(&mut self) -> Result<&mut InstrSeqBuilder, AllocError>
        ensures same_reference { IfOk result (λ b. b.ghost_name ≡ self.entry.ghost_name) }
        ensures value { IfOk result (λ b. built b.now ≡ built self.old ++ else_op ∷ []) }
        ensures locations { IfOk result (λ b. located b.now ≡ located self.old ++ nowhere ∷ []) }
    {
        self.instr(Operator::new(ELSE, Args::None))
    }

    /// Puts `end` behind them, which closes a block. The one of the function comes with the function. It came from nowhere. Where
    /// memory runs out, nothing changes.
    pub fn end(&mut self) -> Result<&mut InstrSeqBuilder, AllocError>
        ensures same_reference { IfOk result (λ b. b.ghost_name ≡ self.entry.ghost_name) }
        ensures value { IfOk result (λ b. built b.now ≡ built self.old ++ end_op ∷ []) }
        ensures locations { IfOk result (λ b. located b.now ≡ located self.old ++ nowhere ∷ []) }
    {
        self.instr(Operator::new(Operator::END, Args::None))
    }

    /// Puts `br` behind them, over so many open blocks. It came from nowhere. Where memory runs out, nothing changes.
    pub fn br(&mut self, label: u32) -> Result<&mut InstrSeqBuilder, AllocError>
        ensures same_reference { IfOk result (λ b. b.ghost_name ≡ self.entry.ghost_name) }
        ensures value { IfOk result (λ b. built b.now ≡ built self.old ++ br_op label ∷ []) }
        ensures locations { IfOk result (λ b. located b.now ≡ located self.old ++ nowhere ∷ []) }
    {
        self.instr(Operator::new(BR, Args::One(Arg::Label(label))))
    }

    /// Puts `br_if` behind them, over so many open blocks. It came from nowhere. Where memory runs out, nothing changes.
    pub fn br_if(&mut self, label: u32) -> Result<&mut InstrSeqBuilder, AllocError>
        ensures same_reference { IfOk result (λ b. b.ghost_name ≡ self.entry.ghost_name) }
        ensures value { IfOk result (λ b. built b.now ≡ built self.old ++ br_if_op label ∷ []) }
        ensures locations { IfOk result (λ b. located b.now ≡ located self.old ++ nowhere ∷ []) }
    {
        self.instr(Operator::new(BR_IF, Args::One(Arg::Label(label))))
    }

    /// Puts `return` behind them. It came from nowhere. Where memory runs out, nothing changes.
    pub fn return_(&mut self) -> Result<&mut InstrSeqBuilder, AllocError>
        ensures same_reference { IfOk result (λ b. b.ghost_name ≡ self.entry.ghost_name) }
        ensures value { IfOk result (λ b. built b.now ≡ built self.old ++ return_op ∷ []) }
        ensures locations { IfOk result (λ b. located b.now ≡ located self.old ++ nowhere ∷ []) }
    {
        self.instr(Operator::new(RETURN, Args::None))
    }

    /// Puts `call_indirect` of a function of this type in this table behind them. It came from nowhere. Where memory runs out,
    /// nothing changes.
    pub fn call_indirect(
        &mut self,
        ty: TypeId,
        table: TableId,
    ) -> Result<&mut InstrSeqBuilder, AllocError>
        ensures same_reference { IfOk result (λ b. b.ghost_name ≡ self.entry.ghost_name) }
        ensures value { IfOk result (λ b. built b.now ≡ built self.old
            ++ call_indirect_op (place ty) (place table) ∷ []) }
        ensures locations { IfOk result (λ b. located b.now ≡ located self.old ++ nowhere ∷ []) }
    {
        let args = vec![in self.alloc; Arg::Type(ty), Arg::Table(table)]?;
        self.instr(Operator::new(CALL_INDIRECT, Args::from_vec(args)))
    }

    /// Puts `ref.func` of this function behind them. It came from nowhere. Where memory runs out, nothing changes.
    pub fn ref_func(&mut self, function: FunctionId) -> Result<&mut InstrSeqBuilder, AllocError>
        ensures same_reference { IfOk result (λ b. b.ghost_name ≡ self.entry.ghost_name) }
        ensures value { IfOk result (λ b. built b.now ≡ built self.old ++ ref_func_op (place function) ∷ []) }
        ensures locations { IfOk result (λ b. located b.now ≡ located self.old ++ nowhere ∷ []) }
    {
        self.instr(Operator::new(REF_FUNC, Args::One(Arg::Function(function))))
    }

    /// Puts `select` behind them, the one that lists no type. It came from nowhere. Where memory runs out, nothing changes.
    pub fn select(&mut self) -> Result<&mut InstrSeqBuilder, AllocError>
        ensures same_reference { IfOk result (λ b. b.ghost_name ≡ self.entry.ghost_name) }
        ensures value { IfOk result (λ b. built b.now ≡ built self.old ++ select_op ∷ []) }
        ensures locations { IfOk result (λ b. located b.now ≡ located self.old ++ nowhere ∷ []) }
    {
        self.instr(Operator::new(SELECT, Args::None))
    }

    /// Puts `local.set` of this local behind them. It came from nowhere. Where memory runs out, nothing changes.
    pub fn local_set(&mut self, local: LocalId) -> Result<&mut InstrSeqBuilder, AllocError>
        ensures same_reference { IfOk result (λ b. b.ghost_name ≡ self.entry.ghost_name) }
        ensures value { IfOk result (λ b. built b.now ≡ built self.old ++ local_set_op (place local) ∷ []) }
        ensures locations { IfOk result (λ b. located b.now ≡ located self.old ++ nowhere ∷ []) }
    {
        self.instr(Operator::new(LOCAL_SET, Args::One(Arg::Local(local))))
    }

    /// Puts `local.tee` of this local behind them. It came from nowhere. Where memory runs out, nothing changes.
    pub fn local_tee(&mut self, local: LocalId) -> Result<&mut InstrSeqBuilder, AllocError>
        ensures same_reference { IfOk result (λ b. b.ghost_name ≡ self.entry.ghost_name) }
        ensures value { IfOk result (λ b. built b.now ≡ built self.old ++ local_tee_op (place local) ∷ []) }
        ensures locations { IfOk result (λ b. located b.now ≡ located self.old ++ nowhere ∷ []) }
    {
        self.instr(Operator::new(LOCAL_TEE, Args::One(Arg::Local(local))))
    }

    /// Puts `global.get` of this global behind them. It came from nowhere. Where memory runs out, nothing changes.
    pub fn global_get(&mut self, global: GlobalId) -> Result<&mut InstrSeqBuilder, AllocError>
        ensures same_reference { IfOk result (λ b. b.ghost_name ≡ self.entry.ghost_name) }
        ensures value { IfOk result (λ b. built b.now ≡ built self.old ++ global_get_op (place global) ∷ []) }
        ensures locations { IfOk result (λ b. located b.now ≡ located self.old ++ nowhere ∷ []) }
    {
        self.instr(Operator::new(GLOBAL_GET, Args::One(Arg::Global(global))))
    }

    /// Puts `global.set` of this global behind them. It came from nowhere. Where memory runs out, nothing changes.
    pub fn global_set(&mut self, global: GlobalId) -> Result<&mut InstrSeqBuilder, AllocError>
        ensures same_reference { IfOk result (λ b. b.ghost_name ≡ self.entry.ghost_name) }
        ensures value { IfOk result (λ b. built b.now ≡ built self.old ++ global_set_op (place global) ∷ []) }
        ensures locations { IfOk result (λ b. located b.now ≡ located self.old ++ nowhere ∷ []) }
    {
        self.instr(Operator::new(GLOBAL_SET, Args::One(Arg::Global(global))))
    }

    /// Puts `i64.const` with this value behind them. It came from nowhere. Where memory runs out, nothing changes.
    pub fn i64_const(&mut self, value: i64) -> Result<&mut InstrSeqBuilder, AllocError>
        ensures same_reference { IfOk result (λ b. b.ghost_name ≡ self.entry.ghost_name) }
        ensures value { IfOk result (λ b. built b.now ≡ built self.old ++ i64_const_op value ∷ []) }
        ensures locations { IfOk result (λ b. located b.now ≡ located self.old ++ nowhere ∷ []) }
    {
        self.instr(Operator::new(I64_CONST, Args::One(Arg::S64(value))))
    }

    /// Puts `f32.const` with the value of these bits behind them. It came from nowhere. Where memory runs out, nothing changes.
    pub fn f32_const(&mut self, bits: u32) -> Result<&mut InstrSeqBuilder, AllocError>
        ensures same_reference { IfOk result (λ b. b.ghost_name ≡ self.entry.ghost_name) }
        ensures value { IfOk result (λ b. built b.now ≡ built self.old ++ f32_const_op bits ∷ []) }
        ensures locations { IfOk result (λ b. located b.now ≡ located self.old ++ nowhere ∷ []) }
    {
        self.instr(Operator::new(F32_CONST, Args::One(Arg::F32(bits))))
    }

    /// Puts `f64.const` with the value of these bits behind them. It came from nowhere. Where memory runs out, nothing changes.
    pub fn f64_const(&mut self, bits: u64) -> Result<&mut InstrSeqBuilder, AllocError>
        ensures same_reference { IfOk result (λ b. b.ghost_name ≡ self.entry.ghost_name) }
        ensures value { IfOk result (λ b. built b.now ≡ built self.old ++ f64_const_op bits ∷ []) }
        ensures locations { IfOk result (λ b. located b.now ≡ located self.old ++ nowhere ∷ []) }
    {
        self.instr(Operator::new(F64_CONST, Args::One(Arg::F64(bits))))
    }

    /// Puts the load of this number behind them, as `i32.load8_u`, from this memory, aligned to two to the power of `alignment`
    /// bytes. It came from nowhere. Where memory runs out, nothing changes.
    pub fn load(
        &mut self,
        number: u32,
        memory: MemoryId,
        alignment: u32,
        offset: u64,
    ) -> Result<&mut InstrSeqBuilder, AllocError>
        ensures same_reference { IfOk result (λ b. b.ghost_name ≡ self.entry.ghost_name) }
        ensures value { IfOk result (λ b. built b.now ≡ built self.old
            ++ access_op number alignment (place memory) offset ∷ []) }
        ensures locations { IfOk result (λ b. located b.now ≡ located self.old ++ nowhere ∷ []) }
    {
        let source = Arg::Access {
            flags: alignment,
            memory,
            offset,
        };
        self.instr(Operator::new(number, Args::One(source)))
    }

    /// Puts the store of this number behind them, as `i64.store32`, to this memory, aligned to two to the power of `alignment`
    /// bytes. It came from nowhere. Where memory runs out, nothing changes.
    pub fn store(
        &mut self,
        number: u32,
        memory: MemoryId,
        alignment: u32,
        offset: u64,
    ) -> Result<&mut InstrSeqBuilder, AllocError>
        ensures same_reference { IfOk result (λ b. b.ghost_name ≡ self.entry.ghost_name) }
        ensures value { IfOk result (λ b. built b.now ≡ built self.old
            ++ access_op number alignment (place memory) offset ∷ []) }
        ensures locations { IfOk result (λ b. located b.now ≡ located self.old ++ nowhere ∷ []) }
    {
        let target = Arg::Access {
            flags: alignment,
            memory,
            offset,
        };
        self.instr(Operator::new(number, Args::One(target)))
    }
}
