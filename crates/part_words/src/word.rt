//! What can be kept for 16 bytes of address space.

ghost use Rattle.std.specs.Prelude.{◌≡◌, ◌≢◌, true, false};

/// A word that `Words` can keep (this project's own).
pub trait Word: Copy {
    ghost UNWRITTEN: { Self };

    /// The word of an address for which none was written yet.
    const UNWRITTEN: Self;

    /// Whether it is that word.
    fn is_unwritten(&self) -> bool
        ensures unwritten { result ≡ true → self.now ≡ UNWRITTEN }
        ensures written { result ≡ false → self.now ≢ UNWRITTEN };
}
