//! What a reader may want to know of the definitions. Each law is a contract; its body does nothing.

ghost use Rattle.std.specs.Prelude.{ℕ, ◌≡◌, ◌<◌, ◌≤◌, ◌+◌, ◌-◌, [], ◌∷◌};
ghost use Rattle.rtlil_tree.specs.Text.{Stands};
ghost use Rattle.rtlil_print.specs.Printable.{IsPrintable};
ghost use Rattle.rtlil_print.specs.Printed.{printed};
ghost use Rattle.gadget_maker.specs.Gadget.{pair_count, pair_number, crossing, crossings_at, gadget};

/// Two shares and their mirror have one random.
pub fn mirrors_have_one_random()
    ensures { (d i j : ℕ) → i < j → (n : ℕ)
        × (crossings_at d i j ≡ crossing i j n ∷ []) × (crossings_at d j i ≡ crossing j i n ∷ []) }
{}

/// The pairs are numbered from 0, by the first share and then by the second, and no number is left out; each has a
/// bit of the wire of randoms.
pub fn pairs_are_numbered_in_order()
    ensures first { (d : ℕ) → pair_number d 0 1 ≡ 0 }
    ensures along { (d i j : ℕ) → i < j → pair_number d i (j + 1) ≡ pair_number d i j + 1 }
    ensures down { (d i : ℕ) → i + 2 < d → pair_number d (i + 1) (i + 2) ≡ pair_number d i (d - 1) + 1 }
    ensures within { (d i j : ℕ) → i < j → j < d → pair_number d i j < pair_count d }
{}

/// A gadget is printable, and its printed text stands for it, with its lines.
pub fn gadgets_are_printable()
    ensures printable { (seed d : ℕ) → d ≤ 16 → IsPrintable (gadget seed d) }
    ensures reads { (seed d : ℕ) → d ≤ 16 → Stands (printed (gadget seed d)) (gadget seed d) }
{}
