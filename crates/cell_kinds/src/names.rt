//! From a name in the text to the kind of its cell.
ghost use Rattle.std.specs.Prelude.{◌≡◌, ◌≢◌, ◌↔◌, ◌++◌, ℕ, List, Bool, true, false, IfSome, IfNone, MatchOption};
ghost use Rattle.cell_kinds.specs.Cells.{gate, family, flop_name, cell_name};
ghost use Rattle.cell_kinds.specs.Names.{level_of, bit_of, letters_of, reset_of, enable_of, flop_of as flop_of_letters, gate_named, kind_named};
ghost use Rattle.cell_kinds.specs.declared.kind.CellKind.{CellKind as AnyKind};
ghost use Rattle.cell_kinds.specs.declared.kind.GateKind.{GateKind as AnyGate};
ghost use Rattle.cell_kinds.specs.declared.kind.Flop.{Flop as AnyFlop};

use crate::kind::{CellKind, Flop, GateKind, Reset};

/// The cell of that name, or None where the name is not in the table.
pub fn kind_of(name: &[u8]) -> Option<CellKind>
    ensures table { (kind : AnyKind) → (result ≡ Some kind) ↔ (cell_name kind ≡ name.now) }
    ensures value { result ≡ kind_named name.now }
{
    if let Some(gate) = gate_of(name) {
        return Some(CellKind::Gate(gate));
    }
    match flop_of(name) {
        Some(flop) => Some(CellKind::Flop(flop)),
        None => None,
    }
}

const GATES: [GateKind; 16] = [
    GateKind::Buf,
    GateKind::Not,
    GateKind::And,
    GateKind::Nand,
    GateKind::Or,
    GateKind::Nor,
    GateKind::Xor,
    GateKind::Xnor,
    GateKind::Andnot,
    GateKind::Ornot,
    GateKind::Mux,
    GateKind::Nmux,
    GateKind::Aoi3,
    GateKind::Oai3,
    GateKind::Aoi4,
    GateKind::Oai4,
];

fn gate_of(name: &[u8]) -> Option<GateKind>
    ensures { result ≡ gate_named name.now }
{
    GATES.iter().copied().find(|kind| gate_name(*kind) == name)
}

fn gate_name(kind: GateKind) -> &'static [u8]
    ensures { result.now ≡ (gate kind).name }
{
    match kind {
        GateKind::Buf => b"$_BUF_",
        GateKind::Not => b"$_NOT_",
        GateKind::And => b"$_AND_",
        GateKind::Nand => b"$_NAND_",
        GateKind::Or => b"$_OR_",
        GateKind::Nor => b"$_NOR_",
        GateKind::Xor => b"$_XOR_",
        GateKind::Xnor => b"$_XNOR_",
        GateKind::Andnot => b"$_ANDNOT_",
        GateKind::Ornot => b"$_ORNOT_",
        GateKind::Mux => b"$_MUX_",
        GateKind::Nmux => b"$_NMUX_",
        GateKind::Aoi3 => b"$_AOI3_",
        GateKind::Oai3 => b"$_OAI3_",
        GateKind::Aoi4 => b"$_AOI4_",
        GateKind::Oai4 => b"$_OAI4_",
    }
}

fn flop_of(name: &[u8]) -> Option<Flop>
    ensures named { IfSome result (λ flop. flop_name flop ≡ name.now) }
    ensures unnamed { IfNone result ((flop : AnyFlop) → flop_name flop ≢ name.now) }
{
    let family = family_of(name)?;
    let letters = Letters::new(family.enabled, family.letters)?;
    letters.flop(family.synchronous)
}

/// What a flip-flop's name says before its letters, and these.
#[derive(Clone, Copy)]
struct Family<'a> {
    synchronous: bool,
    enabled: bool,
    letters: &'a [u8],
}

fn family_of(name: &[u8]) -> Option<Family<'_>>
    ensures { MatchOption result
        ((synchronous enabled : Bool) (letters : List ℕ) → name.now ≢ family synchronous enabled ++ letters)
        (λ f. name.now ≡ family f.synchronous f.enabled ++ f.letters.now) }
{
    if let Some(letters) = name.strip_prefix(b"$_DFF_") {
        return Some(Family {
            synchronous: false,
            enabled: false,
            letters,
        });
    }
    if let Some(letters) = name.strip_prefix(b"$_DFFE_") {
        return Some(Family {
            synchronous: false,
            enabled: true,
            letters,
        });
    }
    if let Some(letters) = name.strip_prefix(b"$_SDFF_") {
        return Some(Family {
            synchronous: true,
            enabled: false,
            letters,
        });
    }
    if let Some(letters) = name.strip_prefix(b"$_SDFFE_") {
        return Some(Family {
            synchronous: true,
            enabled: true,
            letters,
        });
    }
    None
}

/// The letters of a flip-flop's name, by their places.
#[derive(Clone, Copy)]
struct Letters {
    clock: u8,
    reset: Option<(u8, u8)>,
    enable: Option<u8>,
    last: u8,
}

impl Letters {
    fn new(enabled: bool, letters: &[u8]) -> Option<Letters>
        ensures { result ≡ letters_of enabled letters.now }
    {
        if enabled {
            Letters::with_enable(letters)
        } else {
            Letters::without_enable(letters)
        }
    }

    fn with_enable(letters: &[u8]) -> Option<Letters>
        ensures { result ≡ letters_of true letters.now }
    {
        match letters {
            [clock, enable, last] => Some(Letters {
                clock: *clock,
                reset: None,
                enable: Some(*enable),
                last: *last,
            }),
            [clock, high, value, enable, last] => Some(Letters {
                clock: *clock,
                reset: Some((*high, *value)),
                enable: Some(*enable),
                last: *last,
            }),
            _ => None,
        }
    }

    fn without_enable(letters: &[u8]) -> Option<Letters>
        ensures { result ≡ letters_of false letters.now }
    {
        match letters {
            [clock, last] => Some(Letters {
                clock: *clock,
                reset: None,
                enable: None,
                last: *last,
            }),
            [clock, high, value, last] => Some(Letters {
                clock: *clock,
                reset: Some((*high, *value)),
                enable: None,
                last: *last,
            }),
            _ => None,
        }
    }

    /// The flip-flop that the letters say; its reset, if it has one, is synchronous or not.
    fn flop(&self, synchronous: bool) -> Option<Flop>
        ensures { result ≡ flop_of_letters synchronous self.now }
    {
        if self.last != b'_' {
            return None;
        }
        let rising = level(self.clock)?;
        let reset = reset_of_letters(self.reset, synchronous)?;
        let enable = enable_of_letter(self.enable)?;
        Some(Flop {
            rising,
            reset,
            enable,
        })
    }
}

fn reset_of_letters(letters: Option<(u8, u8)>, synchronous: bool) -> Option<Option<Reset>>
    ensures { result ≡ reset_of synchronous letters }
{
    match letters {
        None if synchronous => None,
        None => Some(None),
        Some((high, value)) => {
            let high = level(high)?;
            let value = bit(value)?;
            Some(Some(Reset {
                high,
                value,
                synchronous,
            }))
        }
    }
}

fn enable_of_letter(letter: Option<u8>) -> Option<Option<bool>>
    ensures { result ≡ enable_of letter }
{
    match letter {
        None => Some(None),
        Some(letter) => {
            let high = level(letter)?;
            Some(Some(high))
        }
    }
}

/// P is a rising edge or an active high level, N a falling edge or an active low one.
fn level(letter: u8) -> Option<bool>
    ensures { result ≡ level_of letter }
{
    match letter {
        b'P' => Some(true),
        b'N' => Some(false),
        _ => None,
    }
}

fn bit(letter: u8) -> Option<bool>
    ensures { result ≡ bit_of letter }
{
    match letter {
        b'1' => Some(true),
        b'0' => Some(false),
        _ => None,
    }
}
