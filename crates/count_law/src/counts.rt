//! What counts are.
ghost use Rattle.std.specs.Prelude.{◌≡◌, ◌^◌, ◌↔◌, ℕ, Bool, IsTrue, List, length, All, count_by, sum_by};
ghost use Rattle.count_law.specs.Counts.{are_same_bits, assignments, count};

/// The assignments of n random bits are the 2^n lists of n bits, each once.
pub fn assignments_are_all()
    ensures long { (n : ℕ) → All (λ w. length w ≡ n) (assignments n) }
    ensures once { (w : List Bool) → count_by (are_same_bits w) (assignments (length w)) ≡ 1 }
    ensures number { (n : ℕ) → length (assignments n) ≡ 2 ^ n }
{}

/// Lists that have the same bits, and as many, are equal.
pub fn same_bits_are_equal()
    ensures { (bits others : List Bool) → IsTrue (are_same_bits bits others) ↔ (bits ≡ others) }
{}

/// Each assignment gives one observation: where each gives k bits, the counts of all lists of k bits sum to 2^n.
pub fn counts_add_up()
    ensures { (n k : ℕ) (observe : List Bool → List Bool)
        → ((w : List Bool) → length w ≡ n → length (observe w) ≡ k)
        → sum_by (count n observe) (assignments k) ≡ 2 ^ n }
{}
