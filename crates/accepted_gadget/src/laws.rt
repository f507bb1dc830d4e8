//! What is proved of the texts of gadgets. Each law is a contract; its body does nothing.

ghost use Rattle.std.specs.Prelude.{ℕ, ◌≡◌, ◌<◌, ◌≤◌, ◌-◌, ◌^◌, min};
ghost use Rattle.accepted_netlist.specs.Netlist.{Netlist, IsAcceptedAs};
ghost use Rattle.circuit_types.specs.declared.nets.Nets.{Nets as AnyNets};
ghost use Rattle.circuit_types.specs.declared.circuit.Timing.TheVariants.{Settled};
ghost use Rattle.circuit_types.specs.declared.probes.Model.TheVariants.{Glitch};
ghost use Rattle.circuit_types.specs.Items.{top_items};
ghost use Rattle.expr_table.specs.declared.instance.Notion.TheVariants.{Probing};
ghost use Rattle.gadget_maker.specs.Gadget.{gadget};
ghost use Rattle.net_build.specs.Built.{IsAccepted};
ghost use Rattle.rtlil_print.specs.Printed.{printed};

/// The module of a gadget has nets, and no refusal of a module is due.
pub fn gadgets_build()
    ensures { (seed d : ℕ) → 2 ≤ d → d ≤ 16 → (nets : AnyNets) × IsAccepted (top_items (gadget seed d)) nets }
{}

/// The text of each gadget of 2 to 16 shares is accepted as it is tried: for probing security with glitches, against two
/// probes, or one where there are two shares, once all is settled. So no refusal is due for it.
pub fn gadgets_are_accepted()
    ensures { (seed d : ℕ) → seed < 2 ^ 64 → 2 ≤ d → d ≤ 16
        → (n : Netlist) × IsAcceptedAs (record { notion = Probing; order = min (d - 1) 2; model = Glitch; timing = Settled })
        (printed (gadget seed d)) n }
{}
