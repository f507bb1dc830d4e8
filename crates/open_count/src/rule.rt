//! The rule of the words as the table keeps it, and what each kind of step tells its seat.

ghost use Rattle.std.specs.Prelude.{◌-◌};
ghost use Rattle.open_count.specs.Views.{newcomer, newcomer_with, after_another};
ghost use Rattle.open_count.specs.Rule.{IsKept};
ghost use Rattle.open_count.specs.Steps.{Splits, Closes, LoadsOpen, Fails, LoadsBest, Stops, LoadsStop};

use crate::view::CountView;
use atomic_table::{Play, Split, TableRule};

/// What the table is told when it is made.
#[derive(Drop)]
pub struct Setup {
    /// How many families are open at first.
    pub roots: u64,
    /// How many seats there are to be.
    pub workers: u32,
}

/// The rule of the words.
pub struct Words;

impl TableRule<(), CountView, Setup> for Words {
    ghost holds = { IsKept };

    ghost first = { λ setup. newcomer_with (setup.workers - 1) };
}

/// Adds on the open word.
pub struct SplitStep;

impl Play<(), CountView> for SplitStep {
    ghost then = { Splits };
}

/// Subtracts on the open word.
pub struct CloseStep;

impl Play<(), CountView> for CloseStep {
    ghost then = { Closes };
}

/// Loads the open word.
pub struct OpenStep;

impl Play<(), CountView> for OpenStep {
    ghost then = { LoadsOpen };
}

/// Lowers the best word.
pub struct FailStep;

impl Play<(), CountView> for FailStep {
    ghost then = { Fails };
}

/// Loads the best word.
pub struct BestStep;

impl Play<(), CountView> for BestStep {
    ghost then = { LoadsBest };
}

/// Sets the stop word.
pub struct StopStep;

impl Play<(), CountView> for StopStep {
    ghost then = { Stops };
}

/// Loads the stop word.
pub struct StoppedStep;

impl Play<(), CountView> for StoppedStep {
    ghost then = { LoadsStop };
}

/// Makes one of the seats that may still be made.
pub struct Newcomer;

impl Split<CountView> for Newcomer {
    ghost left = { after_another };

    ghost right = { λ v. newcomer };
}
