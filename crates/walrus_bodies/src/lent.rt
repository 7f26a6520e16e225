//! The operators of a function.
#![tactic(auto, unfolding(crate::specs::PlainCode::limits_in, crate::specs::Function::name_of, crate::specs::Function::as_text, crate::specs::Function::body_of, crate::specs::Function::locations_of, crate::specs::Function::args_of, crate::specs::Function::handlers_in, crate::specs::Function::listed_in, crate::specs::Function::located_in))]

ghost use Rattle.std.specs.Prelude.{◌≡◌};
ghost use Rattle.walrus_code.specs.Code.{ops_of};
ghost use Rattle.walrus_bodies.specs.Results.{locations};
ghost use Rattle.walrus_bodies.specs.Function.{listed_in, located_in};

use walrus_code::Operator;

/// The operators of a body: lent where it is a list, else made of what stands in the input.
#[derive(Drop)]
pub enum Operators<'a> {
    /// Those of a list.
    Lent(&'a [Operator]),
    /// A copy.
    Made(Vec<Operator>),
}

impl<'a> Operators<'a> {
    /// The operators, one after another.
    pub fn as_slice(&self) -> &[Operator]
        ensures body { ops_of result.now ≡ listed_in self.now }
        ensures locations { locations result.now ≡ located_in self.now }
    {
        match self {
            Operators::Lent(operators) => operators,
            Operators::Made(operators) => operators.as_slice(),
        }
    }
}
