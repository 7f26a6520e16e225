//! What the types of legacy exception handlers are made of (Instructions > Control Instructions of the legacy exception handling proposal).
ghost use Rattle.std.specs.Prelude.{◌≡◌, option_map};
ghost use Rattle.walrus_base.specs.Id.{place};
ghost use Rattle.walrus_functions.specs.Known.{is_below};

use walrus_base::{TypeId, ValType};
use walrus_code::BlockType;

/// The type of a legacy `try`, which is that of a block.
#[derive(Clone, Copy, PartialEq, Eq, PartialOrd, Ord)]
pub(crate) enum TryType {
    /// It takes and gives nothing.
    NoResult,
    /// It takes nothing, and gives one value.
    OneResult(ValType),
    /// A function type.
    OfType(TypeId),
}

impl TryType {
    ghost use Rattle.std.specs.Prelude.{◌≡◌};
    ghost use Rattle.walrus_code.specs.Code.{block_of};
    ghost use Rattle.walrus_functions.specs.Known.{block_is_below};
    ghost use Rattle.walrus_functions.specs.Signatures.{try_block};

    // The type of a try that is a block of this type.
    fn of(block: BlockType) -> TryType
        ensures { try_block result ≡ block_of block }
    {
        match block {
            BlockType::NoResult => TryType::NoResult,
            BlockType::OneResult(value) => TryType::OneResult(value),
            BlockType::OfType(id) => TryType::OfType(id),
        }
    }

    // Whether the type that it names, if it names one, stands below a bound.
    fn is_below(&self, bound: usize) -> bool
        ensures { result ≡ block_is_below bound (try_block self.now) }
    {
        match *self {
            TryType::OfType(id) => id.index() < bound,
            _ => true,
        }
    }
}

/// What the type of a legacy handler is made of: it takes the parameters of its tag's type, and gives the results of its try. A `catch_all` has no
/// tag and takes nothing, and so does a `catch` whose tag has no type.
#[derive(Clone, Copy, PartialEq, Eq, PartialOrd, Ord)]
pub(crate) struct TagAndTry {
    pub(crate) tag_type: Option<TypeId>,
    pub(crate) try_type: TryType,
}

impl TagAndTry {
    ghost use Rattle.std.specs.Prelude.{◌≡◌, option_map};
    ghost use Rattle.walrus_base.specs.Id.{place};
    ghost use Rattle.walrus_code.specs.Code.{block_of};
    ghost use Rattle.walrus_functions.specs.Known.{are_below};
    ghost use Rattle.walrus_functions.specs.Signatures.{pair_of};

    // That of a handler whose tag has this type, in a try that is a block of this type.
    pub(crate) fn new(tag_type: Option<TypeId>, block: BlockType) -> TagAndTry
        ensures { pair_of result ≡ (option_map place tag_type, block_of block) }
    {
        TagAndTry {
            tag_type,
            try_type: TryType::of(block),
        }
    }

    // Whether the types that it names stand below a bound.
    pub(crate) fn is_below(&self, bound: usize) -> bool
        ensures { result ≡ are_below bound (pair_of self.now) }
    {
        is_id_below(self.tag_type, bound) && self.try_type.is_below(bound)
    }
}

// Whether a type, if there is one, stands below a bound.
fn is_id_below(id: Option<TypeId>, bound: usize) -> bool
    ensures { result ≡ is_below bound (option_map place id) }
{
    match id {
        Some(id) => id.index() < bound,
        None => true,
    }
}
