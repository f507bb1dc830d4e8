//! Which line is due.
ghost use Rattle.std.specs.Prelude.{◌≡◌};
ghost use Rattle.cert_check.specs.Stages.{is_done};

use bit_rows::BitRow;
use probe_family::Family;

/// Which line of a certificate is due.
#[derive(Drop)]
pub enum Due {
    Title,
    Run,
    Counts,
    /// A hull, or the last line.
    Hull,
    /// The cuts for a family under this hull.
    Cuts { family: Family, hull: BitRow },
    /// None: the last line is read.
    Nothing,
}

impl Due {
    /// Whether all lines are read.
    pub fn is_done(&self) -> bool
        ensures { result ≡ is_done self.now }
    {
        match self {
            Due::Nothing => true,
            _ => false,
        }
    }
}
