//! What a reader may want to know of the definitions. Each law is a contract; its body is empty.
ghost use Rattle.std.specs.Prelude.{◌≡◌, List};
ghost use Rattle.circuit_types.specs.Due.{IsClear, IsDue};
ghost use Rattle.circuit_types.specs.Held.{HeldIsByCells};
ghost use Rattle.circuit_types.specs.Nets.{net_causes};
ghost use Rattle.circuit_types.specs.Order.{OrderStandsAfter, SettledIsLeast, SettledIsLevelled};
ghost use Rattle.circuit_types.specs.Stable.{StableIsByCells};
ghost use Rattle.circuit_types.specs.Value.{ValueIsByCells};
ghost use Rattle.circuit_types.specs.declared.refusal.Refusal.{Refusal as AnyRefusal};
ghost use Rattle.circuit_types.specs.declared.tree.Item.{Item as AnyItem};

/// At most one refusal of a module is due, and none where no cause holds.
pub fn one_refusal()
    ensures one { (items : List AnyItem) (r s : AnyRefusal)
        → IsDue (net_causes items) r → IsDue (net_causes items) s → r ≡ s }
    ensures none { (items : List AnyItem) (r : AnyRefusal)
        → IsClear (net_causes items) → IsDue (net_causes items) r → ⊥ }
{}

/// The cells of the order are the least set that holds each cell whose sources are constants, inputs or cells
/// of the set.
pub fn settled_is_least()
    ensures { SettledIsLeast }
{}

/// The order lists cells of the netlist, each once and after the sources that it waits for.
pub fn order_stands_after()
    ensures { OrderStandsAfter }
{}

/// Where every cell is settled, every gate is levelled.
pub fn settled_is_levelled()
    ensures { SettledIsLevelled }
{}

/// Where every cell is settled, each source has the value that its kind gives it of the sources that it reads.
pub fn value_is_by_cells()
    ensures { ValueIsByCells }
{}

/// Where every gate is levelled, the stable sources are those of the cells: of a register itself, and of a gate
/// those behind its inputs.
pub fn stable_is_by_cells()
    ensures { StableIsByCells }
{}

/// Where every gate is levelled, a buffer is held at what it reads, an inverter at the opposite, and no other cell
/// is held.
pub fn held_is_by_cells()
    ensures { HeldIsByCells }
{}
