//! Rows with an only live parent.
ghost use Rattle.std.specs.Prelude.{◌≡◌, ◌≢◌, ◌<◌, ◌++◌, ◌∷◌, [], ℕ, List, IsTrue, MatchOption, length};
ghost use Rattle.expr_table.specs.declared.node.Node.{Node};
ghost use Rattle.once_random.specs.Live.{is_live_parent, live_parents};
ghost use Rattle.live_rows.specs.Marks.{is_spare, mark_at};
ghost use Rattle.live_rows.specs.Shown.{Shows};

use crate::live_rows::LiveRows;
use expr_table::Row;

impl LiveRows {
    /// Takes a row out of those that may serve a cut; None exactly where there is none.
    pub fn take_alone(&mut self) -> Option<Row>
        ensures marks { self.new.marks ≡ self.old.marks }
        ensures found { self.new.found ≡ self.old.found }
        ensures taken { MatchOption result ((self.old.alone ≡ []) × (self.new.alone ≡ []))
            (λ row. self.old.alone ≡ self.new.alone ++ row.0 ∷ []) }
        ensures spare { MatchOption result (self.old.alone ≡ [])
            (λ row. (row.0 < length self.new.marks) × IsTrue (is_spare (mark_at self.new.marks row.0))) }
    {
        match self.alone.pop() {
            Some(row) => Some(Row(row)),
            None => None,
        }
    }

    /// The live row that alone reads this row; None exactly where there are more, or none.
    pub fn only_parent(&self, row: Row) -> Option<Row>
        requires { row.0 < length self.now.marks }
        ensures { (nodes : List Node) (roots cuts : List ℕ) → Shows nodes roots cuts self.now.marks
            → MatchOption result (live_parents nodes roots cuts row.0 ≢ 1)
            (λ parent. (live_parents nodes roots cuts row.0 ≡ 1)
            × (parent.0 < length nodes)
            × IsTrue (is_live_parent nodes roots cuts row.0 parent.0)) }
    {
        let mark = self.marks[row.0 as usize];
        if mark.parents == 1 {
            Some(Row(mark.mixed))
        } else {
            None
        }
    }
}
