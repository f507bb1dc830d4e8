//! What a reader may want to know of the definitions. Each law is a contract; its body makes no call that does anything.
ghost use Rattle.term_build.specs.Laws.{OneInstance, RootsHaveValues, SharesJoin, TermsHaveValues};
ghost use Rattle.term_build.specs.SourceTerms.{TermIsByCells};

/// The term of a source has the source's value, in each world and each cycle.
pub fn terms_have_values()
    ensures { TermsHaveValues }
{}

/// The roots of each probe have the values that the probe sees, in each world.
pub fn roots_have_values()
    ensures { RootsHaveValues }
{
    terms_have_values();
}

/// Where the secrets are given, the terms of all shares of a secret bit join to the secret bit.
pub fn shares_join()
    ensures { SharesJoin }
{}

/// Where every cell is settled, each source has the term that its kind gives it of the sources that it reads.
pub fn term_is_by_cells()
    ensures { TermIsByCells }
{}

/// A circuit with its roles and probes has one instance under a notion.
pub fn one_instance()
    ensures { OneInstance }
{
    expr_table::terms_give_nodes();
}
