//! Which types are function types (Structure > Types > Composite Types).
ghost use Rattle.std.specs.Prelude.{◌≡◌, ℕ, Bool};
ghost use Rattle.walrus_base.specs.Id.{place};
ghost use Rattle.walrus_code.specs.Code.{ops_of};
ghost use Rattle.walrus_bodies.specs.Blocks.{blocks_hold};
ghost use Rattle.walrus_bodies.specs.FunctionTypes.{is_function_at};

use crate::read::args_hold;
use walrus_base::{ModuleTypes, TypeId};
use walrus_code::Operator;

/// The types of a module, of which a body asks only which are function types. `function_types` says so by place.
pub trait FunctionTypes {
    ghost function_types: { Self → ℕ → Bool };

    /// Whether the type is a function type.
    fn is_function_type(&self, id: TypeId) -> bool
        ensures { result ≡ function_types self.now (place id) };
}

impl FunctionTypes for ModuleTypes {
    ghost function_types = { is_function_at };

    fn is_function_type(&self, id: TypeId) -> bool {
        if !self.contains(id) {
            return false;
        }
        self.get(id).is_function()
    }
}

/// Whether each type of a block in the operators is a function type (Binary Format > Instructions > Control Instructions).
pub fn blocks_hold<T: FunctionTypes>(types: &T, operators: &[Operator]) -> bool
    ensures { result ≡ blocks_hold (T.function_types types.now) (ops_of operators.now) }
{
    for operator in operators {
        if !args_hold(types, operator.args.as_slice()) {
            return false;
        }
    }
    true
}
