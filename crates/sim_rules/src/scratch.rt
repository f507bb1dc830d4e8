//! Work lists that a caller makes once.
ghost use Rattle.std.specs.Prelude.{◌≡◌, IfOk, length};

use expr_table::{Instance, NoMemory};
use live_rows::LiveRows;
use std::alloc::Global;
use std::marker::Model;

/// Work lists for tables of so many rows, which contracts see. Between calls nothing is live in them.
#[derive(Drop)]
pub struct Scratch {
    pub(crate) live: LiveRows,
}

impl Model for Scratch {
    ghost use Rattle.std.specs.Prelude.{ℕ, length};
    ghost use Rattle.live_rows.specs.State.{IsClear};

    ghost Value = { ℕ };

    ghost view = { λ s. length s.live.marks };

    ghost invariant = { λ s. IsClear s.live };
}

impl Scratch {
    /// Work lists for this instance.
    pub fn make(alloc: Global, instance: &Instance) -> Result<Scratch, NoMemory>
        ensures { IfOk result (λ scratch. scratch ≡ length instance.now.table.nodes) }
    {
        Scratch::of_rows(alloc, instance.table.rows())
    }

    /// Work lists for tables of so many rows.
    pub fn of_rows(alloc: Global, rows: u32) -> Result<Scratch, NoMemory>
        ensures { IfOk result (λ scratch. scratch ≡ rows) }
    {
        let live = LiveRows::make(alloc, rows)?;
        Ok(Scratch { live })
    }

    /// Threads may share work lists, and hand them to each other. This call does nothing; that it is there
    /// shows it.
    pub fn is_for_threads(&self) {
        is_shared(self)
    }
}

/// What threads may share, and hand to each other.
fn is_shared<T: Send + Sync>(_: &T) {}
