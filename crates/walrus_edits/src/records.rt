//! Records that tell of items: a byte, a size and so many bytes. docs/FORMATS.md has their forms.

ghost use Rattle.std.specs.Prelude.{◌≡◌, ◌∷◌, [], map};
ghost use Rattle.walrus.specs.Forms.Spelling.{block_bytes, number_bytes};
ghost use Rattle.wasm_forms.specs.Writing.{Adds, FitsLength};
ghost use Rattle.walrus_edits.specs.ItemSteps.{PutsAll};
ghost use Rattle.walrus_edits.specs.ItemRecords.{PayloadFits, Told, ToldFits, number_of, payload, told_bytes};

use std::alloc::Global;
use std::result;
use wasm_forms::{WireError, write_block, write_u64};

/// The byte of a record that tells the name of a local, behind those of edits.
pub const LOCAL_NAME: u8 = 24;

/// What a record tells of; contracts see of it what is `told`.
pub(crate) trait Tells {
    ghost told: { Self → Told };

    /// The byte of its record.
    fn number(&self) -> u8
        ensures { result ≡ number_of (told self.now) };

    /// Puts what its record holds behind the bytes. Refused, what was appended behind them means nothing.
    fn write_payload(&self, alloc: Global, to: &mut Vec<u8>) -> result::Result<(), WireError>
        ensures { Adds result to.old.items to.new.items (payload (told self.now))
            (PayloadFits (told self.now)) };
}

/// Puts a byte behind the bytes.
pub(crate) fn put_byte(to: &mut Vec<u8>, byte: u8) -> result::Result<(), WireError>
    ensures { Adds result to.old.items to.new.items (byte ∷ []) (Unit {0}) }
{
    to.push(byte)?;
    Ok(())
}

/// Puts a number behind the bytes, in its shortest spelling.
pub(crate) fn put_number(to: &mut Vec<u8>, number: u64) -> result::Result<(), WireError>
    ensures { Adds result to.old.items to.new.items (number_bytes number) (Unit {0}) }
{
    write_u64(to, number)?;
    Ok(())
}

/// Puts a record behind the bytes.
fn write_record(to: &mut Vec<u8>, number: u8, held: &[u8]) -> result::Result<(), WireError>
    ensures { Adds result to.old.items to.new.items (number ∷ block_bytes held.now) (FitsLength held.now) }
{
    put_byte(to, number)?;
    write_block(to, held)
}

/// Puts the byte of an item, the size of what its record holds and that behind the bytes.
pub(crate) fn write_told<T: Tells>(
    alloc: Global,
    to: &mut Vec<u8>,
    item: &T,
) -> result::Result<(), WireError>
    ensures { Adds result to.old.items to.new.items (told_bytes (T.told item.now))
        (ToldFits (T.told item.now)) }
{
    let mut held = Vec::new(alloc);
    item.write_payload(alloc, &mut held)?;
    write_record(to, item.number(), &held)
}

/// Puts the record of an item behind the bytes.
pub(crate) fn tell<T: Tells>(
    alloc: Global,
    to: &mut Vec<u8>,
    item: &T,
) -> result::Result<(), WireError>
    ensures { PutsAll result to.old.items to.new.items (T.told item.now ∷ []) }
{
    write_told(alloc, to, item)
}

/// Puts the records of items behind the bytes, one behind another.
pub(crate) fn tell_all<T: Tells>(
    alloc: Global,
    to: &mut Vec<u8>,
    all: &[T],
) -> result::Result<(), WireError>
    ensures { PutsAll result to.old.items to.new.items (map T.told all.now) }
{
    'items: for item in all {
        tell(alloc, to, item)?;
    }
    Ok(())
}
