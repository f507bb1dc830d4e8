//! The words for notions and models.

ghost use Rattle.std.specs.Prelude.{◌≡◌, ◌++◌, List, ℕ, MatchOption};
ghost use Rattle.expr_table.specs.declared.instance.Notion.{Notion as AnyNotion};
ghost use Rattle.circuit_types.specs.declared.probes.Model.{Model as AnyModel};
ghost use Rattle.certificate.specs.Lines.{model_word, notion_word};
ghost use Rattle.certificate.specs.Parts.{ModelAfter, NotionAfter};

use crate::number::after;
use circuit_types::Model;
use expr_table::Notion;

/// The word for a notion.
pub fn notion_word(notion: Notion) -> &'static str
    ensures { result.now ≡ notion_word notion }
{
    match notion {
        Notion::Probing => "probing",
        Notion::Ni => "ni",
        Notion::Sni => "sni",
    }
}

/// The word for a model.
pub fn model_word(model: Model) -> &'static str
    ensures { result.now ≡ model_word model }
{
    match model {
        Model::Value => "value",
        Model::Glitch => "glitch",
    }
}

/// The notion whose word comes after another word, and what follows.
pub fn notion_after<'a>(bytes: &'a [u8], word: &[u8]) -> Option<(Notion, &'a [u8])>
    ensures { MatchOption result ((notion : AnyNotion) (rest : List ℕ) → NotionAfter word.now bytes.now notion rest → ⊥)
        (λ found. NotionAfter word.now bytes.now found.0 found.1.now) }
{
    let text = after(bytes, word)?;
    if let Some(rest) = after(text, b"probing") {
        return Some((Notion::Probing, rest));
    }
    if let Some(rest) = after(text, b"ni") {
        return Some((Notion::Ni, rest));
    }
    if let Some(rest) = after(text, b"sni") {
        return Some((Notion::Sni, rest));
    }
    None
}

/// The model whose word comes after another word, and what follows.
pub fn model_after<'a>(bytes: &'a [u8], word: &[u8]) -> Option<(Model, &'a [u8])>
    ensures { MatchOption result ((model : AnyModel) (rest : List ℕ) → ModelAfter word.now bytes.now model rest → ⊥)
        (λ found. ModelAfter word.now bytes.now found.0 found.1.now) }
{
    let text = after(bytes, word)?;
    if let Some(rest) = after(text, b"value") {
        return Some((Model::Value, rest));
    }
    if let Some(rest) = after(text, b"glitch") {
        return Some((Model::Glitch, rest));
    }
    None
}
