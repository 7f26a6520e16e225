//! Functions with a body.
#![tactic(auto, unfolding(crate::specs::PlainCode::limits_in, crate::specs::Function::name_of, crate::specs::Function::as_text, crate::specs::Function::body_of, crate::specs::Function::locations_of, crate::specs::Function::args_of, crate::specs::Function::handlers_in, crate::specs::Function::listed_in, crate::specs::Function::located_in))]

ghost use Rattle.std.specs.Borrow.{sem};
ghost use Rattle.std.specs.Prelude.{◌≡◌, ◌++◌, [], None, IfOk, IfSome, OnOk, MatchResult, map, option_map};
ghost use Rattle.std.specs.List.{range_with_len};
ghost use Rattle.std.specs.String.{string_bytes};
ghost use Rattle.walrus_base.specs.Id.{place};
ghost use Rattle.walrus_base.specs.TypeDef.{name_bytes};
ghost use Rattle.walrus_code.specs.Code.{ops_of};
ghost use Rattle.walrus_bodies.specs.Results.{locations};
ghost use Rattle.walrus_bodies.specs.Text.{first_local_of, locations_in, ops_in};
ghost use Rattle.walrus_bodies.specs.Function.{function_type, with_type, name_of, as_text, body_of, locations_of, size_of, args_of, arg_count_of, handlers_in, located_in, listed_in, Becomes, KeepsBody, KeepsOthers};
ghost use Rattle.walrus_bodies.specs.LendsOperators.{LendsOperators};

use crate::lent::Operators;
use crate::listed::Listed;
use crate::text::Text;
use std::alloc::{AllocError, Global};
use walrus_base::{LocalId, TypeId};
use walrus_code::Operator;

// A body.
#[derive(Drop)]
enum Body {
    // As it stands in the input, with so many parameters, which are the first of its locals.
    Text { params: u32, text: Text },
    // A list, with what only such a function has.
    List(Box<Listed>),
}

/// A function with a body (Structure > Modules > Functions).
#[derive(Drop)]
pub struct LocalFunction {
    ty: TypeId,
    body: Body,
}

// The ids of so many locals, from a place on.
pub(crate) fn ids_from(alloc: Global, first: u32, count: u32) -> Result<Vec<LocalId>, AllocError>
    ensures { IfOk result (λ ids. map place ids.items ≡ range_with_len first count) }
{
    let mut ids = Vec::with_capacity(alloc, count as usize)?;
    'locals: for offset in 0..count {
        ids.push(LocalId::at(first as usize + offset as usize))?;
    }
    Ok(ids)
}

impl LocalFunction {
    /// A function of a type with these parameters and this body, whose last operator is the `0B` that closes it, and with this name, if
    /// there is one; without handlers.
    ///
    /// # Errors
    ///
    /// `AllocError` where no memory is left.
    pub fn new(
        alloc: Global,
        ty: TypeId,
        args: Vec<LocalId>,
        operators: Vec<Operator>,
        name: Option<String>,
    ) -> Result<LocalFunction, AllocError>
        ensures ty { IfOk result (λ f. function_type f ≡ ty) }
        ensures args { IfOk result (λ f. args_of f ≡ map place args.items) }
        ensures body { IfOk result (λ f. body_of f ≡ ops_of operators.items) }
        ensures locations { IfOk result (λ f. locations_of f ≡ locations operators.items) }
        ensures name { IfOk result (λ f. name_of f ≡ name_bytes name) }
        ensures handler_types { IfOk result (λ f. handlers_in f ≡ []) }
    {
        let listed = Listed {
            args,
            operators,
            room: 0,
            handler_types: Vec::new(alloc),
            name,
        };
        Ok(LocalFunction {
            ty,
            body: Body::List(Box::new(alloc, listed)?),
        })
    }

    /// A function of a type with a body that stands as in the input, whose parameters are the first so many of its locals; without a
    /// name and without handlers.
    pub fn of_text(ty: TypeId, params: u32, text: Text) -> LocalFunction
        ensures ty { function_type result ≡ ty }
        ensures args { args_of result ≡ range_with_len (first_local_of text) params }
        ensures body { body_of result ≡ ops_in text }
        ensures locations { locations_of result ≡ locations_in text }
        ensures name { name_of result ≡ None }
        ensures handler_types { handlers_in result ≡ [] }
    {
        LocalFunction {
            ty,
            body: Body::Text { params, text },
        }
    }

    /// The name that it was built with. A function that is added to a module gets it for its own.
    pub fn name(&self) -> Option<&String>
        ensures { option_map (λ name. string_bytes name.now) result ≡ name_of self.now }
    {
        match &self.body {
            Body::Text { .. } => None,
            Body::List(listed) => listed.name.as_ref(),
        }
    }

    /// The id of its type.
    pub fn ty(&self) -> TypeId
        ensures { result ≡ function_type self.now }
    {
        self.ty
    }

    /// Exchanges its type, and nothing else.
    pub fn set_ty(&mut self, ty: TypeId)
        ensures { self.new ≡ with_type self.old ty }
    {
        self.ty = ty;
    }

    /// Its body as it stands in the input, if it is kept so.
    pub fn text(&self) -> Option<&Text>
        ensures is { option_map (λ text. text.now) result ≡ as_text self.now }
        ensures body { IfSome result (λ text. body_of self.now ≡ ops_in text.now) }
        ensures locations { IfSome result (λ text. locations_of self.now ≡ locations_in text.now) }
    {
        match &self.body {
            Body::Text { text, .. } => Some(text),
            Body::List(_) => None,
        }
    }

    /// Its body, where it isn't kept as it stands in the input.
    pub fn listed(&self) -> &[Operator]
        requires { as_text self.now ≡ None }
        ensures body { ops_of result.now ≡ body_of self.now }
        ensures locations { locations result.now ≡ locations_of self.now }
    {
        match &self.body {
            Body::List(listed) => listed.as_slice(),
            Body::Text { .. } => unreachable!(),
        }
    }

    /// How many parameters it has.
    #[tactic(auto, using(crate::proofs::RangeLemmas::as_many), unfolding(crate::specs::Function::args_of))]
    pub fn arg_count(&self) -> usize
        ensures { result ≡ arg_count_of self.now }
    {
        match &self.body {
            Body::Text { params, .. } => *params as usize,
            Body::List(listed) => listed.args.len(),
        }
    }

    /// Its parameters, in order.
    ///
    /// # Errors
    ///
    /// `AllocError` where no memory is left.
    pub fn args(&self, alloc: Global) -> Result<Vec<LocalId>, AllocError>
        ensures { IfOk result (λ ids. map place ids.items ≡ args_of self.now) }
    {
        match &self.body {
            Body::Text { params, text } => ids_from(alloc, text.first_local(), *params),
            Body::List(listed) => listed.args.to_vec(alloc),
        }
    }

    /// Its body, lent where it is a list, else made. The last operator is the `0B` that closes the function.
    ///
    /// # Errors
    ///
    /// `AllocError` where no memory is left.
    pub fn operators(&self, alloc: Global) -> Result<Operators<'_>, AllocError>
        ensures body { IfOk result (λ all. listed_in all ≡ body_of self.now) }
        ensures locations { IfOk result (λ all. located_in all ≡ locations_of self.now) }
    {
        match &self.body {
            Body::Text { text, .. } => Ok(Operators::Made(text.operators(alloc)?)),
            Body::List(listed) => Ok(Operators::Lent(listed.as_slice())),
        }
    }

    // Makes its body a list. Refused, nothing changes.
    fn list(&mut self, alloc: Global) -> Result<(), AllocError>
        ensures { MatchResult result (λ _. Becomes self.old self.new) (λ _. self.new ≡ self.old) }
    {
        if let Body::Text { params, text } = &self.body {
            let args = ids_from(alloc, text.first_local(), *params)?;
            let operators = text.operators(alloc)?;
            let listed = Listed {
                args,
                operators,
                room: 0,
                handler_types: Vec::new(alloc),
                name: None,
            };
            self.body = Body::List(Box::new(alloc, listed)?);
        }
        Ok(())
    }

    /// Its body, for writing. One that is kept as it stands in the input becomes a list. Refused for memory, nothing changes.
    ///
    /// # Errors
    ///
    /// `AllocError` where no memory is left.
    pub fn operators_mut(&mut self, alloc: Global) -> Result<&mut Vec<Operator>, AllocError>
        ensures* writes_back { sem 𝓛 (LendsOperators self.entry result) }
        ensures body { IfOk result (λ r. ops_of r.now.items ≡ body_of self.old) }
        ensures locations { IfOk result (λ r. locations r.now.items ≡ locations_of self.old) }
    {
        self.list(alloc)?;
        match &mut self.body {
            Body::List(listed) => {
                listed.settle();
                Ok(&mut listed.operators)
            }
            Body::Text { .. } => unreachable!(),
        }
    }

    /// Puts operators in front of its body, which becomes a list where it is kept as it stands in the input. Many one behind another take as
    /// long as all of them together. Refused for memory, its operators stay.
    ///
    /// # Errors
    ///
    /// `AllocError` where no memory is left.
    pub fn put_front(&mut self, alloc: Global, front: Vec<Operator>) -> Result<(), AllocError>
        ensures body { MatchResult result
            (λ _. body_of self.new ≡ ops_of front.items ++ body_of self.old)
            (λ _. body_of self.new ≡ body_of self.old) }
        ensures locations { MatchResult result
            (λ _. locations_of self.new ≡ locations front.items ++ locations_of self.old)
            (λ _. locations_of self.new ≡ locations_of self.old) }
        ensures others { KeepsOthers self.old self.new }
    {
        self.list(alloc)?;
        match &mut self.body {
            Body::List(listed) => listed.put_front(alloc, front),
            Body::Text { .. } => unreachable!(),
        }
    }

    /// How many operators its body has, the last `0B` counted.
    pub fn size(&self) -> usize
        ensures { result ≡ size_of self.now }
    {
        match &self.body {
            Body::Text { text, .. } => text.size(),
            Body::List(listed) => listed.as_slice().len(),
        }
    }

    /// The types of the handlers of its legacy exceptions (Instructions > Control Instructions of the legacy exception handling proposal).
    pub fn handler_types(&self) -> &[TypeId]
        ensures { map place result.now ≡ handlers_in self.now }
    {
        match &self.body {
            Body::Text { .. } => &[],
            Body::List(listed) => listed.handler_types.as_slice(),
        }
    }

    /// Exchanges the types of its handlers, and nothing else. A body that is kept as it stands in the input becomes a list. Refused for
    /// memory, nothing changes.
    ///
    /// # Errors
    ///
    /// `AllocError` where no memory is left.
    pub fn set_handler_types(&mut self, alloc: Global, types: Vec<TypeId>) -> Result<(), AllocError>
        ensures handlers { OnOk result (handlers_in self.new ≡ map place types.items) }
        ensures others { MatchResult result (λ _. KeepsBody self.old self.new) (λ _. self.new ≡ self.old) }
    {
        self.list(alloc)?;
        match &mut self.body {
            Body::List(listed) => listed.handler_types = types,
            Body::Text { .. } => unreachable!(),
        }
        Ok(())
    }
}
