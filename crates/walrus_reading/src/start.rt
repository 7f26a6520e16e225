//! The start function of a module that is read.
ghost use Rattle.std.specs.Prelude.{◌≡◌, ◌<◌, option_and_then, option_map};
ghost use Rattle.walrus_base.specs.Id.{place};
ghost use Rattle.walrus_base.specs.Operators.{Functions};
ghost use Rattle.walrus_code.specs.Indices.{ids_at};

use walrus_base::FunctionId;
use walrus_code::IndicesToIds;

// The function that the start section names, if there is one.
pub fn start_named(raw: Option<u32>, indices: &IndicesToIds) -> Option<FunctionId>
    ensures { option_map place result ≡ option_and_then (ids_at indices.now Functions) raw }
{
    indices.get_func(raw?)
}
