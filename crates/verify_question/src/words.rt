//! The words for notions and models.

ghost use Rattle.std.specs.Prelude.{◌≡◌};
ghost use Rattle.verify_question.specs.Words.{model_word, notion_word};

use circuit_types::Model;
use expr_table::Notion;

/// The word for a notion.
pub fn notion_word(notion: Notion) -> &'static str
    ensures { result.now ≡ notion_word notion }
{
    match notion {
        Notion::Probing => "probing",
        Notion::Ni => "ni",
        Notion::Sni => "sni",
    }
}

/// The word for a model.
pub fn model_word(model: Model) -> &'static str
    ensures { result.now ≡ model_word model }
{
    match model {
        Model::Value => "value",
        Model::Glitch => "glitch",
    }
}
