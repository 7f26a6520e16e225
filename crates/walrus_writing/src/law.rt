//! The law of code transforms, as a contract. Nothing runs here.
ghost use Rattle.walrus_writing.specs.Transform.{OneTransform};

/// No bytes have two code transforms: of a module in memory, a configuration and the locations of its operators, what
/// [`code_transform`](crate::code_transform) promises leaves one.
pub fn one_transform()
    ensures { OneTransform }
{}
