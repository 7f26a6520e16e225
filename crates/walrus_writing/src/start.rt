//! The start section of a module that is written.
ghost use Rattle.std.specs.Prelude.{◌≡◌, option_and_then, option_map};
ghost use Rattle.walrus_base.specs.Id.{place};
ghost use Rattle.walrus_base.specs.Operators.{Functions};
ghost use Rattle.walrus_code.specs.Indices.{index_of};

use walrus_base::FunctionId;
use walrus_code::IdsToIndices;

// The index of the start function, if there is one that has an index.
pub fn raw_start(start: Option<FunctionId>, indices: &IdsToIndices) -> Option<u32>
    ensures { result ≡ option_and_then (index_of indices.now Functions) (option_map place start) }
{
    indices.get_func_index(start?)
}
