//! The rule of a deque as its steps keep it, and what each kind of step tells its pass.

ghost use Rattle.std.specs.Prelude.{[]};
ghost use Rattle.deque_reach.specs.Rule.{untold, Keeps};
ghost use Rattle.deque_reach.specs.Steps.{Tells, Begins, IsUntold, Pushes, Takes, Balances, without_part, with_one_part, both_views, spent};

use crate::pass_view::PassView;
use crossbeam_deque::protocol::{Join, Outcome, Protocol, Split};
use probe_family::Family;

/// The rule of a deque.
pub struct Balanced;

impl Protocol<Family, PassView> for Balanced {
    ghost holds = { Keeps };

    ghost first = { untold };

    ghost guest = { untold };
}

/// The push of the family that tells what later ones fit.
pub struct TellStep;

impl Outcome<Family, PassView> for TellStep {
    ghost then = { Tells };
}

/// The pop of that family.
pub struct BeginStep;

impl Outcome<Family, PassView> for BeginStep {
    ghost then = { Begins };

    ghost empty = { IsUntold };
}

/// A push.
pub struct PushStep;

impl Outcome<Family, PassView> for PushStep {
    ghost then = { Pushes };
}

/// A pop or a steal.
pub struct TakeStep;

impl Outcome<Family, PassView> for TakeStep {
    ghost then = { Takes };
}

/// A pop with a pass that knows the whole.
pub struct DrainStep;

impl Outcome<Family, PassView> for DrainStep {
    ghost then = { Takes };

    ghost empty = { λ v. Balances v [] };
}

/// Makes a pass with one part.
pub struct OnePart;

impl Split<PassView> for OnePart {
    ghost left = { without_part };

    ghost right = { with_one_part };
}

/// Brings two passes together.
pub struct Together;

impl Join<PassView> for Together {
    ghost both = { both_views };

    ghost spent = { spent };
}
