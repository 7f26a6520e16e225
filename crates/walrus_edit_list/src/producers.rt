//! Producers that come and go.

ghost use Rattle.std.specs.Prelude.{◌≡◌, MatchResult};
ghost use Rattle.walrus_module.specs.View.{contents_of};
ghost use Rattle.walrus_edit_list.specs.Producing.{ClearsProducers, PutsProducer, RefusesProducer};

use walrus_items::{Error, ErrorKind, Result};
use walrus_module::Module;
use walrus_producers::ModuleProducers;

/// Puts a producer of this name and version into this field: the first one of its name is replaced, else it goes last.
///
/// # Errors
///
/// `InvalidWasm` exactly where the field is none of `language`, `processed-by` and `sdk`, and `Memory`.
pub(crate) fn add_producer(
    field: &str,
    name: &str,
    version: &str,
    all: &mut ModuleProducers,
) -> Result<()>
    ensures { MatchResult result
        (λ _. PutsProducer field.now name.now version.now all.old all.new)
        (RefusesProducer field.now) }
{
    match field {
        "language" => Ok(all.add_language(name, version)?),
        "processed-by" => Ok(all.add_processed_by(name, version)?),
        "sdk" => Ok(all.add_sdk(name, version)?),
        _ => Err(Error::InvalidWasm(ErrorKind::InvalidWasm)),
    }
}

/// Takes all producers away.
pub(crate) fn clear_producers<S>(module: &mut Module<S>)
    ensures { ClearsProducers (contents_of «module».old) (contents_of «module».new) }
{
    module.producers.clear();
}
