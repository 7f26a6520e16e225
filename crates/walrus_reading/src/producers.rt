//! The producers sections of a module (tool-conventions, "Producers Section").
ghost use Rattle.std.specs.Prelude.{◌≡◌, ◌++◌, ◌∷◌, [], map, OnOk, IsOkUnless};
ghost use Rattle.wasm_frames.specs.Record.{custom_record};
ghost use Rattle.wasm_payloads.specs.Producers.{field_record};
ghost use Rattle.walrus_producers.specs.Seen.{producers};
ghost use Rattle.walrus_model.specs.Producers.{produced};
ghost use Rattle.walrus_theorem.specs.Headline.{field_of};
ghost use Rattle.walrus_items.specs.Errors.{out_of_memory};
ghost use Rattle.walrus_reading.specs.Producers.{AddsSections, HoldsProducers, only_customs};

use std::alloc::Global;
use walrus_items::Result;
use walrus_producers::ModuleProducers;
use wasm_frames::RawCustom;
use wasm_payloads::{RawField, read_producers};
use wasm_wire::CustomGroup;

// These fields go behind the others.
fn push_fields(fields: &[RawField<'_>], made: &mut ModuleProducers) -> Result<()>
    ensures added { OnOk result (producers made.new
        ≡ producers made.old ++ map field_of (map field_record fields.now)) }
    ensures fails { IsOkUnless result out_of_memory }
{
    'fields: for field in fields {
        made.push_field(field.name, &field.values)?;
    }
    Ok(())
}

// The fields of a custom section go behind the others, if it is called `producers`. A fault in its payload refuses nothing: the fields before
// it are held.
fn add_fields(alloc: Global, custom: &RawCustom<'_>, made: &mut ModuleProducers) -> Result<()>
    ensures added { OnOk result (AddsSections (custom_record custom.now ∷ []) (producers made.old)
        (producers made.new)) }
    ensures fails { IsOkUnless result out_of_memory }
{
    if !CustomGroup::Producers.has(custom.name) {
        return Ok(());
    }
    let fields = read_producers(alloc, custom.bytes)?;
    push_fields(&fields, made)?;
    Ok(())
}

// The fields of all these sections that are called `producers` go behind the others, in order.
fn add_sections(alloc: Global, customs: &[RawCustom<'_>], made: &mut ModuleProducers) -> Result<()>
    ensures added { OnOk result (AddsSections (map custom_record customs.now) (producers made.old)
        (producers made.new)) }
    ensures fails { IsOkUnless result out_of_memory }
{
    'sections: for custom in customs {
        add_fields(alloc, custom, made)?;
    }
    Ok(())
}

// Puts this program into the producers.
fn add_own_producer(made: &mut ModuleProducers) -> Result<()>
    ensures value { OnOk result (producers made.new ≡ produced (producers made.old)) }
    ensures fails { IsOkUnless result out_of_memory }
{
    made.add_processed_by("walrus", "0.28.0")?;
    Ok(())
}

/// Adds the fields of the sections called `producers`, of each those that stand whole before its first fault, and puts this program into
/// them.
pub(crate) fn add_producers(
    alloc: Global,
    customs: &[RawCustom<'_>],
    made: &mut ModuleProducers,
) -> Result<()>
    requires none { producers made.old ≡ [] }
    ensures held { OnOk result
        (HoldsProducers (only_customs (map custom_record customs.now)) made.new) }
    ensures fails { IsOkUnless result out_of_memory }
{
    add_sections(alloc, customs, made)?;
    add_own_producer(made)?;
    Ok(())
}
