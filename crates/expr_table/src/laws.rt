//! What a reader may want to know of the definitions. Each law is a contract over all terms or all
//! tables; its body is empty.
ghost use Rattle.std.specs.Prelude.{◌≡◌, ◌↔◌, ◌&&◌, ℕ, Bool, List};
ghost use Rattle.std.specs.Cmp.{IsTotalOrder};
ghost use Rattle.std.specs.declared.cmp.Ordering.TheVariants.{Equal};
ghost use Rattle.expr_table.specs.Table.{Table, IsTable, IsRowOf, most_rows, terms, nodes_of};
ghost use Rattle.expr_table.specs.Term.{Term, term_cmp, xor_of, and_of};
ghost use Rattle.expr_table.specs.Values.{xor, eval};
ghost use Rattle.expr_table.specs.declared.table.TheConstants.{MOST_ROWS};

/// The structural order is a total order on terms, and only a term is equal to itself in it.
pub fn structural_order()
    ensures total { IsTotalOrder term_cmp }
    ensures equal { (s t : Term) → (term_cmp s t ≡ Equal) ↔ (s ≡ t) }
{}

/// The simplified exclusive or of two terms does not depend on which stands first.
pub fn exclusive_or()
    ensures { (a b : Term) → xor_of a b ≡ xor_of b a }
{}

/// The simplified conjunction of two terms does not depend on which stands first.
pub fn conjunction()
    ensures { (a b : Term) → and_of a b ≡ and_of b a }
{}

/// The simplified gates have the values of the gates, whatever bits the leaves have.
pub fn gates_keep_values()
    ensures xor { (inputs randoms : List Bool) (a b : Term)
        → eval inputs randoms (xor_of a b) ≡ xor (eval inputs randoms a) (eval inputs randoms b) }
    ensures and { (inputs randoms : List Bool) (a b : Term)
        → eval inputs randoms (and_of a b) ≡ (eval inputs randoms a && eval inputs randoms b) }
{}

/// The limit of the code is that of the definitions.
pub fn limits()
    ensures { MOST_ROWS ≡ most_rows }
{}

/// A term has at most one row in a table.
pub fn one_row_each()
    ensures { (table : Table) (row other : ℕ) (t : Term)
        → IsTable table → IsRowOf table.nodes row t → IsRowOf table.nodes other t → row ≡ other }
{}

/// The terms of a table's rows determine its nodes: each is that of its term, its sides where they stand
/// among the terms.
pub fn terms_give_nodes()
    ensures { (table : Table) → IsTable table → table.nodes ≡ nodes_of (terms table.nodes) }
{}
