//! At what a bit is held, followed back through buffers and inverters.
ghost use Rattle.std.specs.Prelude.{◌≡◌, ◌<◌, ℕ, not, All, IfOk, None, length, map, slice_index_or};
ghost use Rattle.std.specs.Option.{option_map, option_and_then};
ghost use Rattle.cell_kinds.specs.declared.kind.CellKind.TheVariants.{Gate};
ghost use Rattle.cell_kinds.specs.declared.kind.GateKind.TheVariants.{Buf as BufGate};
ghost use Rattle.circuit_types.specs.DataSources.{pin_sources, gate_sources, IsWired};
ghost use Rattle.circuit_types.specs.Held.{held_cell};
ghost use Rattle.circuit_types.specs.InputBits.{held_bit, role_in, FitsNets};
ghost use Rattle.circuit_types.specs.Order.{order_of, AllLevelled};
ghost use Rattle.circuit_types.specs.declared.roles.InputRole.{InputRole as AnyInput};
ghost use Rattle.level_unroll.specs.Shown.{kept_value, IsKept, ShowsHeld};

use cell_kinds::{CellKind, GateKind};
use circuit_types::{InputRole, NetCell, Nets, NoMemory, Role, Roles, Source};
use std::alloc::Global;

/// At what value each input bit and each cell is held, if it is.
#[derive(Drop)]
pub struct Held {
    bits: Vec<Option<bool>>,
    cells: Vec<Option<bool>>,
}

impl Held {
    /// Goes through the cells in an order in which each gate stands after its inputs.
    pub fn new(alloc: Global, nets: &Nets, roles: &Roles, order: &[u32]) -> Result<Held, NoMemory>
        requires wired { IsWired nets.now }
        requires roles { FitsNets roles.now nets.now }
        requires order { order.now ≡ order_of gate_sources nets.now }
        requires levelled { AllLevelled nets.now }
        ensures { IfOk result (ShowsHeld roles.now nets.now) }
    {
        let mut held = Held {
            bits: held_bits(
                alloc,
                nets.sources.as_slice().len(),
                roles.inputs.as_slice(),
            )?,
            cells: vec![in alloc; None; nets.cells.as_slice().len()]?,
        };
        for cell in order {
            let value = held.of_cell(&nets.cells.as_slice()[*cell as usize]);
            held.cells[*cell as usize] = value;
        }
        Ok(held)
    }

    /// The value at which the source is held.
    pub fn of(&self, source: Source) -> Option<bool>
        requires { IsKept self.now source }
        ensures { result ≡ kept_value self.now source }
    {
        match source {
            Source::Zero => Some(false),
            Source::One => Some(true),
            Source::Input(bit) => self.bits[bit as usize],
            Source::Cell(cell) => self.cells[cell as usize],
            Source::Unknown | Source::Missing => None,
        }
    }

    /// A buffer passes on what it reads, an inverter the opposite, and no other cell is held.
    fn of_cell(&self, cell: &NetCell) -> Option<bool>
        requires { All (IsKept self.now) (pin_sources cell.now) }
        ensures { result ≡ held_cell cell.now.kind (map (kept_value self.now) (pin_sources cell.now)) }
    {
        match cell.kind {
            CellKind::Gate(GateKind::Buf) => self.of_first(cell),
            CellKind::Gate(GateKind::Not) => negated(self.of_first(cell)),
            _ => None,
        }
    }

    /// The value at which the first input is held.
    fn of_first(&self, cell: &NetCell) -> Option<bool>
        requires { All (IsKept self.now) (pin_sources cell.now) }
        ensures { result ≡ held_cell (Gate BufGate) (map (kept_value self.now) (pin_sources cell.now)) }
    {
        match cell.pins.as_slice() {
            [pin, ..] => self.of(pin.source),
            [] => None,
        }
    }
}

fn negated(value: Option<bool>) -> Option<bool>
    ensures { result ≡ option_map not value }
{
    match value {
        Some(value) => Some(!value),
        None => None,
    }
}

/// By number, at what value each input bit is held.
fn held_bits(
    alloc: Global,
    count: usize,
    inputs: &[InputRole],
) -> Result<Vec<Option<bool>>, NoMemory>
    requires { All (λ (i : AnyInput). i.bit < count) inputs.now }
    ensures len { IfOk result (λ bits. length bits.items ≡ count) }
    ensures each { IfOk result (λ bits. (b : ℕ) → b < count
        → slice_index_or bits.items b None ≡ option_and_then held_bit (role_in inputs.now b)) }
{
    let mut bits = vec![in alloc; None; count]?;
    let mut rest = inputs.len();
    while rest > 0 {
        rest -= 1;
        let input = inputs[rest];
        bits[input.bit as usize] = held_bit(input.role);
    }
    Ok(bits)
}

fn held_bit(role: Role) -> Option<bool>
    ensures { result ≡ held_bit role }
{
    match role {
        Role::Held(value) => Some(value),
        _ => None,
    }
}
