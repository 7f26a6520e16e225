//! The locals of a body that stands as in the input lie one behind another (Structure > Modules > Functions).
#![tactic(auto, unfolding(crate::specs::PlainCode::limits_in, crate::specs::Function::name_of, crate::specs::Function::as_text, crate::specs::Function::body_of, crate::specs::Function::locations_of, crate::specs::Function::args_of, crate::specs::Function::handlers_in, crate::specs::Function::listed_in, crate::specs::Function::located_in))]

ghost use Rattle.std.specs.Prelude.{◌≡◌, IfOk, IfSome, map};
ghost use Rattle.std.specs.List.{range_with_len};
ghost use Rattle.walrus_base.specs.Id.{place};
ghost use Rattle.walrus_bodies.specs.Function.{as_text, args_of, arg_count_of};
ghost use Rattle.walrus_bodies.specs.Text.{first_local_of, local_count_of};

use crate::function::{LocalFunction, ids_from};
use crate::text::Text;
use std::alloc::{AllocError, Global};
use walrus_base::LocalId;

impl Text {
    /// The function's locals, in order: its parameters, and then those that it declares.
    ///
    /// # Errors
    ///
    /// `AllocError` where no memory is left.
    #[tactic(auto, unfolding(crate::specs::Text::first_local_of, crate::specs::Text::local_count_of))]
    pub fn locals(&self, alloc: Global) -> Result<Vec<LocalId>, AllocError>
        ensures { IfOk result (λ ids. map place ids.items
            ≡ range_with_len (first_local_of self.now) (local_count_of self.now)) }
    {
        ids_from(alloc, self.first_local, self.local_count())
    }
}

impl LocalFunction {
    /// That its parameters are the first of its locals, if its body stands as in the input. Nothing runs.
    pub fn args_are_first(&self)
        ensures { IfSome (as_text self.now) (λ text. args_of self.now
            ≡ range_with_len (first_local_of text) (arg_count_of self.now)) }
    {}
}
