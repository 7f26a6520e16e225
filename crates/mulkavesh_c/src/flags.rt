//! What the flags of a call ask for.

ghost use Rattle.std.specs.Prelude.{◌≡◌, Some, None, if◌then◌else◌};
ghost use Rattle.mulkavesh_c.specs.Flags.{collects, is_known, is_known_of_edits, wanted};

use walrus_tools::Wanted;

const NO_NAMES: u32 = 1;

const NO_PRODUCERS: u32 = 2;

const NO_LEGACY: u32 = 4;

/// Of mulkavesh_edit alone.
const GC: u32 = 8;

// What these flags ask for.
fn wanted_of(flags: u32) -> Wanted
    ensures { result ≡ wanted flags }
{
    Wanted {
        names: flags & NO_NAMES == 0,
        producers: flags & NO_PRODUCERS == 0,
        legacy: flags & NO_LEGACY == 0,
    }
}

/// What the flags ask for, or none where there is one that isn't known.
pub(crate) fn wanted_by(flags: u32) -> Option<Wanted>
    ensures { result ≡ (if is_known flags then Some (wanted flags) else None) }
{
    if flags > NO_NAMES + NO_PRODUCERS + NO_LEGACY {
        return None;
    }
    Some(wanted_of(flags))
}

/// What the flags of a list of edits ask for beside gc, or none where there is one that isn't known.
pub(crate) fn edit_wanted_by(flags: u32) -> Option<Wanted>
    ensures { result ≡ (if is_known_of_edits flags then Some (wanted flags) else None) }
{
    if flags > NO_NAMES + NO_PRODUCERS + NO_LEGACY + GC {
        return None;
    }
    Some(wanted_of(flags))
}

/// Whether the flags of a list of edits ask for gc.
pub(crate) fn collects(flags: u32) -> bool
    ensures { result ≡ collects flags }
{
    flags & GC != 0
}
