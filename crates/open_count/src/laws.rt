//! What the rule of the words says of them.

ghost use Rattle.open_count.specs.Rule.{ViewsGiveWords};

/// The views give the words: there is one open, one best and one stop word that obey the rule with them.
pub fn views_give_words()
    ensures { ViewsGiveWords }
{}
