//! Names that were seen.

ghost use Rattle.std.specs.Prelude.{◌≡◌, [], not, IfOk, OnOk};
ghost use Rattle.rtlil_tree.specs.Names.{is_among};
ghost use Rattle.rtlil_tree.specs.Inner.Seen.{HasOneMore};

use name_table::NameTable;
use std::alloc::{AllocError, Global};
use std::marker::Model;

/// A set of names; contracts see them in no stated order.
#[derive(Drop)]
pub struct Names<'a> {
    seen: NameTable<'a, ()>,
}

impl<'a> Model for Names<'a> {
    ghost use Rattle.std.specs.Prelude.{ℕ, List, map};

    ghost Value = { List (List ℕ) };

    ghost view = { λ n. map (λ p. p.0) n.seen };
}

impl<'a> Names<'a> {
    pub fn new(alloc: Global) -> Names<'a>
        ensures { result ≡ [] }
    {
        Names {
            seen: NameTable::new(alloc),
        }
    }

    /// Adds a name; answers whether it is new.
    pub fn add(&mut self, name: &'a [u8]) -> Result<bool, AllocError>
        ensures new { IfOk result (λ added. added ≡ not (is_among name.now self.old)) }
        ensures names { OnOk result (HasOneMore self.old self.new name.now) }
    {
        let added = self.seen.add(name, ())?;
        Ok(added)
    }
}
