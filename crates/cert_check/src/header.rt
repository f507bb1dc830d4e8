//! What the first lines have to say.
ghost use Rattle.std.specs.Prelude.{◌≡◌, length};
ghost use Rattle.expr_table.specs.Instance.{IsFitting};
ghost use Rattle.cert_check.specs.Closing.{header_of};
ghost use Rattle.cert_check.specs.Stages.{same_model, same_notion};

use certificate::Header;
use circuit_types::Model;
use expr_table::{Instance, Notion};
use tuple_rank::Binomials;

pub fn header_of(instance: &Instance, counts: &Binomials, model: Model, order: u32) -> Header
    requires fitting { IsFitting instance.now }
    requires counted { counts.now ≡ record { n = length instance.now.probes; t = order } }
    ensures { result ≡ header_of instance.now model order }
{
    Header {
        notion: instance.notion,
        order,
        model,
        probes: instance.probes.as_slice().len() as u32,
        rows: instance.table.rows(),
        tuples: counts.total(),
    }
}

pub fn same_notion(a: Notion, b: Notion) -> bool
    ensures { result ≡ same_notion a b }
{
    match a {
        Notion::Probing => match b {
            Notion::Probing => true,
            _ => false,
        },
        Notion::Ni => match b {
            Notion::Ni => true,
            _ => false,
        },
        Notion::Sni => match b {
            Notion::Sni => true,
            _ => false,
        },
    }
}

pub fn same_model(a: Model, b: Model) -> bool
    ensures { result ≡ same_model a b }
{
    match a {
        Model::Value => match b {
            Model::Value => true,
            Model::Glitch => false,
        },
        Model::Glitch => match b {
            Model::Value => false,
            Model::Glitch => true,
        },
    }
}
