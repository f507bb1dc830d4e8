//! What a reader may want to know of the definitions. Each law is a contract; its body does nothing.

ghost use Rattle.std.specs.Prelude.{◌≡◌, ℕ, List, IsSome};
ghost use Rattle.circuit_types.specs.Top.{top_of};
ghost use Rattle.circuit_types.specs.declared.tree.Tree.{Tree};
ghost use Rattle.rtlil_tree.specs.Text.{Stands};
ghost use Rattle.rtlil_print.specs.Printable.{IsPrintable};
ghost use Rattle.rtlil_print.specs.Printed.{printed};
ghost use Rattle.rtlil_print.specs.PrintedLines.{with_printed_lines};

/// A tree that a text stands for is printable, if it has a top module.
pub fn what_stands_is_printable()
    ensures { (bytes : List ℕ) (t : Tree) → Stands bytes t → IsSome (top_of t) → IsPrintable t }
{}

/// The printed text of a printable tree stands for that tree, with the numbers of the lines of the printed text.
pub fn reads_as_printed()
    ensures { (t : Tree) → IsPrintable t → Stands (printed t) (with_printed_lines t) }
{}

/// The numbers of lines are not printed.
pub fn lines_are_not_printed()
    ensures { (t : Tree) → printed (with_printed_lines t) ≡ printed t }
{}
