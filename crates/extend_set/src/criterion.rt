//! What decides whether a set may grow.
use bit_rows::BitRow;

/// A criterion that sets of probes meet or not. A set grows by one that each subset of a set that meets it meets, too.
pub trait Criterion {
    ghost use Rattle.std.specs.Prelude.{◌≡◌, ℕ, Bool, List, length};

    /// What a call works in.
    type Work;

    // Whether the set meets the criterion.
    ghost meets: { Self → List Bool → Bool };

    // A call may work in this, for sets of numbers below n.
    ghost serves: { Self → Self.Work → ℕ → Type 0 };

    /// Whether the set meets the criterion.
    fn is_met(&self, work: &mut Self::Work, set: &BitRow) -> bool
        requires { serves self.now work.old (length set.now) }
        ensures stays { work.new ≡ work.old }
        ensures met { result ≡ meets self.now set.now };
}
