// What is asked of a profile.

/// A profile that may inherit from another.
pub trait Inherits {
    ghost use Rattle.std.specs.Prelude.{◌≡◌, ℕ, List, Option};
    ghost use Rattle.std.specs.Option.{option_copied};

    ghost name_of: { Self → List ℕ };

    ghost parent_of: { Self → Option (List ℕ) };

    /// Its name.
    fn name(&self) -> &str
        ensures { result.now ≡ name_of self.now };

    /// The name of the parent that it sets, if it sets one.
    fn inherits(&self) -> Option<&str>
        ensures { option_copied result ≡ parent_of self.now };
}
