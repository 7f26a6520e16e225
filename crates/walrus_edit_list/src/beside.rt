//! What lies beside a module while it is edited.

use walrus_items::RawCustomSection;

/// What lies beside a module while it is edited.
#[derive(Drop)]
pub struct Beside {
    /// Its custom sections, each at the place of its id. One that was deleted is none.
    pub customs: Vec<Option<RawCustomSection>>,
    /// Whether a body was read: then no type comes any more, since a body may add types of its own.
    pub has_read: bool,
}
