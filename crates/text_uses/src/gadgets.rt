//! Gadgets of few and of many shares.

use circuit_types::{Item, Tree};
use gadget_maker::make;
use rtlil_print::print_tree;
use std::test::Fail;

const GADGET: &str = r#"attribute \top 1
module \gadget
  attribute \mask "clock"
  wire input 1 \clk
  attribute \mask "shares a"
  wire width 2 input 2 \a
  attribute \mask "shares b"
  wire width 2 input 3 \b
  attribute \mask "random"
  wire input 4 \r
  attribute \mask "shares c"
  wire width 2 output 5 \c
  wire \p_0_0
  wire \p_0_1
  wire \p_1_0
  wire \p_1_1
  wire \q_0_1
  wire \q_1_0
  wire \z_0_1
  wire \z_1_0
  cell $_AND_ $g$0
    connect \A \a [0]
    connect \B \b [0]
    connect \Y \p_0_0
  end
  cell $_AND_ $g$1
    connect \A \a [0]
    connect \B \b [1]
    connect \Y \p_0_1
  end
  cell $_AND_ $g$2
    connect \A \a [1]
    connect \B \b [0]
    connect \Y \p_1_0
  end
  cell $_AND_ $g$3
    connect \A \a [1]
    connect \B \b [1]
    connect \Y \p_1_1
  end
  cell $_XOR_ $g$4
    connect \A \p_0_1
    connect \B \r
    connect \Y \q_0_1
  end
  cell $_XOR_ $g$5
    connect \A \p_1_0
    connect \B \r
    connect \Y \q_1_0
  end
  cell $_DFF_P_ $g$6
    connect \C \clk
    connect \D \q_0_1
    connect \Q \z_0_1
  end
  cell $_DFF_P_ $g$7
    connect \C \clk
    connect \D \q_1_0
    connect \Q \z_1_0
  end
  cell $_XOR_ $g$8
    connect \A \p_0_0
    connect \B \z_0_1
    connect \Y \c [0]
  end
  cell $_XOR_ $g$9
    connect \A \p_1_1
    connect \B \z_1_0
    connect \Y \c [1]
  end
end
"#;

/// The items of the only module.
fn items<'a>(tree: &'a Tree<'static>) -> &'a [Item<'static>] {
    match tree.modules.as_slice() {
        [unit] => unit.items.as_slice(),
        _ => &[],
    }
}

/// The line of a cell, or 0 of any other item.
fn cell_line(item: &Item<'_>) -> u32 {
    match item {
        Item::Cell(cell) => cell.line,
        _ => 0,
    }
}

/// How many cells are of this kind.
fn count_of(items: &[Item<'_>], kind: &[u8]) -> u32 {
    let mut count: u32 = 0;
    for item in items {
        if let Item::Cell(cell) = item {
            if cell.kind.as_slice() == kind {
                count = count.saturating_add(1);
            }
        }
    }
    count
}

#[test]
fn prints_the_gadget_of_two_shares(rt: HostRuntime) -> Result<(), Fail> {
    let tree = make(rt.alloc(), 0, 2)?;
    let text = print_tree(rt.alloc(), &tree)?;
    assert_eq!(rt; text.as_slice(), GADGET.as_bytes());
    Ok(())
}

#[test]
fn has_the_stated_cells(rt: HostRuntime) -> Result<(), Fail> {
    let rows: [(u64, u32, usize, u32, u32); 4] = [
        (0, 2, 23, 66, 0),
        (7, 3, 56, 167, 6),
        (2, 3, 56, 167, 2),
        (u64::MAX, 16, 1941, 5848, 240),
    ];
    for (seed, shares, count, last, negated) in rows {
        assert!(&rt; 2 <= shares);
        assert!(&rt; shares <= 16);
        let tree = make(rt.alloc(), seed, shares)?;
        let items = items(&tree);
        assert_eq!(&rt; items.len(), count);
        assert_eq!(&rt; items.last().map_or(0, cell_line), last);
        assert_eq!(&rt; count_of(items, b"$_XNOR_"), negated);
    }
    Ok(())
}
