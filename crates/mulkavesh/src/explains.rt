//! A source or a sink that says what went wrong with it.

ghost use Rattle.std.specs.Prelude.{◌≡◌, Bool, List, ℕ};

/// A stream with a name, which says of a call that failed why it did.
pub trait Explains {
    ghost name: { Self → List ℕ };

    ghost trouble: { Self → List ℕ };

    ghost is_left: { Self → Bool };

    /// What people call it.
    fn name(&self) -> &str
        ensures { result.now ≡ name self.now };

    /// Why the last call on it failed.
    fn trouble(&self) -> &str
        ensures { result.now ≡ trouble self.now };

    /// Whether that is because its reader went away, of which nothing is said.
    fn is_left(&self) -> bool
        ensures { result ≡ is_left self.now };
}
