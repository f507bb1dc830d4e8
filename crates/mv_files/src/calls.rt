//! The calls that were made to an object in memory, and which of them are to fail.

ghost use Rattle.std.specs.Prelude.{◌≡◌};
ghost use Rattle.mv_files.specs.Calls.{is_failing, after_call};

use std::marker::Model;

/// Counts calls from 0, up to `u64::MAX`, and knows the numbers of those that are to fail.
#[derive(Debug, Drop)]
pub struct Calls {
    failing: Vec<u64>,
    made: u64,
}

impl Model for Calls {
    ghost use Rattle.mv_files.specs.Calls.{CallCount};

    ghost Value = { CallCount };

    ghost view = { λ c. record { failing = c.failing.items; made = c.made } };
}

impl Calls {
    /// No call was made yet.
    pub fn make(failing: Vec<u64>) -> Calls
        ensures { result ≡ record { failing = failing.items; made = 0 } }
    {
        Calls { failing, made: 0 }
    }

    /// Counts a call, and answers whether it is to fail.
    pub fn fails(&mut self) -> bool
        ensures answer { result ≡ is_failing self.old }
        ensures counts { self.new ≡ after_call self.old }
    {
        let fails = self.failing.contains(&self.made);
        self.made = self.made.saturating_add(1);
        fails
    }
}
