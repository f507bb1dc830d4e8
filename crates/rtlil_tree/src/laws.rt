//! What a reader may want to know of the definitions. Each law is a contract over all bytes; its body does nothing.

ghost use Rattle.std.specs.Prelude.{◌≡◌, ◌⊎◌, ℕ, List, None};
ghost use Rattle.rtlil_lex.specs.Tokens.{AreTokens};
ghost use Rattle.rtlil_lex.specs.declared.token.Token.{Token};
ghost use Rattle.circuit_types.specs.Top.{top_of};
ghost use Rattle.circuit_types.specs.declared.refusal.Refusal.{Refusal};
ghost use Rattle.circuit_types.specs.declared.tree.Tree.{Tree};
ghost use Rattle.rtlil_tree.specs.Refusals.{IsRefused};
ghost use Rattle.rtlil_tree.specs.Text.{Stands};

/// At most one tree stands for given bytes.
pub fn one_tree()
    ensures { (bytes : List ℕ) (t u : Tree) → Stands bytes t → Stands bytes u → t ≡ u }
{}

/// A text has at most one refusal, and none where a tree with a top module stands for it.
pub fn one_refusal()
    ensures one { (bytes : List ℕ) (r s : Refusal) → IsRefused bytes r → IsRefused bytes s → r ≡ s }
    ensures no_top { (bytes : List ℕ) (t : Tree) (r : Refusal) → Stands bytes t → IsRefused bytes r → top_of t ≡ None }
{}

/// A text that has tokens has a tree or a refusal.
pub fn tree_or_refusal()
    ensures { (bytes : List ℕ) (tokens : List Token) → AreTokens bytes tokens
        → ((t : Tree) × Stands bytes t) ⊎ ((r : Refusal) × IsRefused bytes r) }
{}
