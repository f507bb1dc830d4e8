//! The words that statements are made with.

ghost use Rattle.std.specs.Prelude.{◌≡◌};
ghost use Rattle.rtlil_tree.specs.Lexemes.{spelling};
ghost use Rattle.rtlil_tree.specs.Said.{keyword_of};

/// A word of a statement.
#[derive(Clone, Copy, Debug, PartialEq, Eq)]
pub enum Keyword {
    Attribute,
    Autoidx,
    Cell,
    Connect,
    End,
    Inout,
    Input,
    Memory,
    Module,
    Offset,
    Output,
    Parameter,
    Process,
    Real,
    Signed,
    Upto,
    Width,
    Wire,
}

/// All words, in the order in which they are tried.
const KEYWORDS: [Keyword; 18] = [
    Keyword::Connect,
    Keyword::End,
    Keyword::Cell,
    Keyword::Wire,
    Keyword::Attribute,
    Keyword::Parameter,
    Keyword::Width,
    Keyword::Input,
    Keyword::Output,
    Keyword::Module,
    Keyword::Offset,
    Keyword::Upto,
    Keyword::Signed,
    Keyword::Real,
    Keyword::Autoidx,
    Keyword::Memory,
    Keyword::Process,
    Keyword::Inout,
];

/// How the word is written.
pub fn spelling(keyword: Keyword) -> &'static [u8]
    ensures { result.now ≡ spelling keyword }
{
    match keyword {
        Keyword::Connect => b"connect",
        Keyword::End => b"end",
        Keyword::Cell => b"cell",
        Keyword::Wire => b"wire",
        Keyword::Attribute => b"attribute",
        Keyword::Parameter => b"parameter",
        Keyword::Width => b"width",
        Keyword::Input => b"input",
        Keyword::Output => b"output",
        Keyword::Module => b"module",
        Keyword::Offset => b"offset",
        Keyword::Upto => b"upto",
        Keyword::Signed => b"signed",
        Keyword::Real => b"real",
        Keyword::Autoidx => b"autoidx",
        Keyword::Memory => b"memory",
        Keyword::Process => b"process",
        Keyword::Inout => b"inout",
    }
}

/// The word that the text is.
#[tactic(auto, unfolding(crate::specs::Said::keyword_of))]
pub fn keyword_of(text: &[u8]) -> Option<Keyword>
    ensures { result ≡ keyword_of text.now }
{
    KEYWORDS
        .iter()
        .copied()
        .find(|keyword| text == spelling(*keyword))
}
