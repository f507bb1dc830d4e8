//! What a reader may want to know of the definitions. The law is a contract; its body is empty.
ghost use Rattle.std.specs.Prelude.{◌≡◌, ◌<◌, ℕ, List, length, true};
ghost use Rattle.std.specs.List.{list_any};
ghost use Rattle.circuit_types.specs.Nets.{AreNets};
ghost use Rattle.circuit_types.specs.declared.nets.Nets.{Nets as AnyNets};
ghost use Rattle.circuit_types.specs.declared.tree.Item.{Item as AnyItem};
ghost use Rattle.net_build.specs.Names.{has_bit};

/// Each bit of a module's nets is one of a wire's, and so has a name.
pub fn each_bit_is_of_a_wire()
    ensures { (items : List AnyItem) (nets : AnyNets) (bit : ℕ) → AreNets items nets → bit < length nets.sources
        → list_any (has_bit bit) nets.wires ≡ true }
{}
