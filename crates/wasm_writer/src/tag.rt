//! Writing the tag section (Binary Format > Modules > Tag Section).

ghost use Rattle.std.specs.Prelude.{◌≡◌};
ghost use Rattle.wasm_forms.specs.Writing.{Adds, Keeps, TakesRoom, FitsLength};
ghost use Rattle.wasm_forms.specs.Spelling.{row_bytes, vector_bytes};
ghost use Rattle.wasm_writer.specs.Spelling.{tag_bytes};

use wasm_forms::{WireError, write_u32};

/// Writes a tag: 00 and the index of its type.
fn write_tag(to: &mut Vec<u8>, ty: u32) -> Result<(), WireError>
    ensures adds { Adds result to.old.items to.new.items (tag_bytes ty) (Unit {0}) }
    ensures room { TakesRoom result to.old to.new (tag_bytes ty) }
    ensures keeps { Keeps to.old.items to.new.items }
{
    to.push(0)?;
    write_u32(to, ty)?;
    Ok(())
}

/// Writes tags one after another.
#[tactic(auto, using(wasm_forms::proofs::Keeping::keeps_on))]
fn write_each(to: &mut Vec<u8>, tags: &[u32]) -> Result<(), WireError>
    ensures adds { Adds result to.old.items to.new.items (row_bytes tag_bytes tags.now) (Unit {0}) }
    ensures room { TakesRoom result to.old to.new (row_bytes tag_bytes tags.now) }
    ensures keeps { Keeps to.old.items to.new.items }
{
    'tags: for tag in tags {
        write_tag(to, *tag)?;
    }
    Ok(())
}

/// Writes the count of the tags and each tag (Binary Format > Modules > Tag Section). Refused, the bytes written before stay, and what
/// was appended behind them means nothing.
///
/// [`WireError::TooLarge`] where there are 2^32 tags or more.
pub fn write_tags(to: &mut Vec<u8>, tags: &[u32]) -> Result<(), WireError>
    ensures adds { Adds result to.old.items to.new.items (vector_bytes tag_bytes tags.now)
        (FitsLength tags.now) }
    ensures room { TakesRoom result to.old to.new (vector_bytes tag_bytes tags.now) }
    ensures keeps { Keeps to.old.items to.new.items }
{
    let Ok(count) = u32::try_from(tags.len()) else {
        return Err(WireError::TooLarge);
    };
    write_u32(to, count)?;
    write_each(to, tags)
}
