//! What a caller asks of a module that is read and written, as the words of the program do.

/// What is written, and what is read.
#[derive(Clone, Copy, Debug)]
pub struct Wanted {
    /// Whether names are written: the program's `--no-names` turns it off.
    pub names: bool,
    /// Whether producers are written: `--no-producers` turns it off.
    pub producers: bool,
    /// Whether bodies with legacy exceptions are read: `--no-legacy` turns it off.
    pub legacy: bool,
}
