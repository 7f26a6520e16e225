//! What a call asks of a module under a choice of exports.

/// What is asked. Each has a call of `walrus_tools` that answers bytes.
#[derive(Clone, Copy)]
pub(crate) enum Question<'a> {
    /// The module without what nothing reaches.
    Smaller,
    /// What is kept and dropped, in lines.
    Report,
    /// The functions that stay.
    Listed,
    /// The functions that go.
    Dropped,
    /// The exports that stay.
    Exports,
    /// The imports that stay.
    Imports,
    /// Why what this text means stays.
    Why(&'a [u8]),
    /// What stays and refers to what this text means.
    Callers(&'a [u8]),
}
