//! Sets of units that a search may visit.

ghost use Rattle.std.specs.Prelude.{◌≡◌, ◌<◌, ℕ, Bool};

/// A set of units, given by a membership test.
pub trait Inside {
    /// The number of units of the graph. The test accepts only units below this number.
    ghost units: { Self → ℕ };

    /// The membership test, as a function for proofs.
    ghost inside: { Self → ℕ → Bool };

    /// Returns true if the unit is in the set.
    fn holds(&self, unit: u32) -> bool
        requires { unit < units self.now }
        ensures { result ≡ inside self.now unit };
}
