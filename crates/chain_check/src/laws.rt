//! What a reader may want to know of the definitions. Each law is a contract over all instances; its body
//! is empty.
ghost use Rattle.std.specs.Prelude.{◌≡◌, ◌↔◌, ℕ, List};
ghost use Rattle.expr_table.specs.declared.instance.Instance.{Instance};
ghost use Rattle.expr_table.specs.declared.node.Row.{Row};
ghost use Rattle.once_random.specs.Provable.{IsProvable};
ghost use Rattle.chain_check.specs.declared.answer.ChainAnswer.{ChainAnswer};
ghost use Rattle.chain_check.specs.declared.answer.ChainAnswer.TheVariants.{Holds};
ghost use Rattle.chain_check.specs.Answer.{IsAnswer};

/// At most one answer is right.
pub fn one_answer()
    ensures { (x : Instance) (roots : List ℕ) (m : ℕ) (cuts : List Row) (answer other : ChainAnswer)
        → IsAnswer x roots m cuts answer → IsAnswer x roots m cuts other → answer ≡ other }
{}

/// Roots are provable within a bound exactly where some list of cuts holds for them.
pub fn chains_prove()
    ensures { (x : Instance) (roots : List ℕ) (m : ℕ)
        → IsProvable x roots m ↔ ((cuts : List Row) × IsAnswer x roots m cuts Holds) }
{}
