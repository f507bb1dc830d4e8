//! Inputs and outputs, whose secrets are apart.
ghost use Rattle.std.specs.Prelude.{◌≡◌};
ghost use Rattle.share_notes.specs.Shares.{has_direction};

use circuit_types::Port;

/// Whether ports lead into their module or out of it.
#[derive(Clone, Copy)]
pub enum Direction {
    Input,
    Output,
}

impl Direction {
    /// Whether the port has this direction.
    pub fn has(self, port: Port) -> bool
        ensures { result ≡ has_direction self port }
    {
        match self {
            Direction::Input => match port {
                Port::Input(_) => true,
                _ => false,
            },
            Direction::Output => match port {
                Port::Output(_) => true,
                _ => false,
            },
        }
    }
}
