//! The words for options, and which notions and models words are for.

ghost use Rattle.std.specs.Prelude.{◌≡◌, ◌≢◌, IfSome, IfNone};
ghost use Rattle.expr_table.specs.declared.instance.Notion.{Notion as AnyNotion};
ghost use Rattle.circuit_types.specs.declared.probes.Model.{Model as AnyModel};
ghost use Rattle.command_words.specs.Names.{option_word};
ghost use Rattle.verify_question.specs.Words.{model_word, notion_word};

use circuit_types::Model;
use expr_table::Notion;

/// An option of `verify`.
#[derive(Clone, Copy)]
pub enum OptionName {
    /// The number of workers.
    Workers,
    /// The file for a certificate.
    Certificate,
    /// The seed of a schedule.
    Schedule,
}

/// The name of an option, as words have it.
pub fn option_word(name: OptionName) -> &'static str
    ensures { result.now ≡ option_word name }
{
    match name {
        OptionName::Workers => "--workers",
        OptionName::Certificate => "--certificate",
        OptionName::Schedule => "--schedule",
    }
}

/// The notion that a word is for.
pub fn notion_named(word: &str) -> Option<Notion>
    ensures named { IfSome result (λ notion. word.now ≡ notion_word notion) }
    ensures other { IfNone result ((notion : AnyNotion) → word.now ≢ notion_word notion) }
{
    if word == "probing" {
        return Some(Notion::Probing);
    }
    if word == "ni" {
        return Some(Notion::Ni);
    }
    if word == "sni" {
        return Some(Notion::Sni);
    }
    None
}

/// The model that a word is for.
pub fn model_named(word: &str) -> Option<Model>
    ensures named { IfSome result (λ model. word.now ≡ model_word model) }
    ensures other { IfNone result ((model : AnyModel) → word.now ≢ model_word model) }
{
    if word == "value" {
        return Some(Model::Value);
    }
    if word == "glitch" {
        return Some(Model::Glitch);
    }
    None
}
