//! What a reader may want to know of the table. Each law is a contract over the whole table; its body
//! is empty.
ghost use Rattle.std.specs.Prelude.{◌≡◌, ◌↔◌, ℕ, List, Some};
ghost use Rattle.cell_kinds.specs.Cells.{cell_name};
ghost use Rattle.cell_kinds.specs.Names.{kind_named};
ghost use Rattle.cell_kinds.specs.declared.kind.CellKind.{CellKind};

/// A name stands for a cell exactly where the table gives it to this cell; so no two cells share one.
pub fn names_and_cells()
    ensures { (name : List ℕ) (kind : CellKind) → (kind_named name ≡ Some kind) ↔ (cell_name kind ≡ name) }
{}
