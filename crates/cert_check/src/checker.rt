//! The check of a certificate.
ghost use Rattle.std.specs.Prelude.{◌≡◌, ◌≤◌, IfOk, length};
ghost use Rattle.expr_table.specs.Instance.{IsFitting};
ghost use Rattle.certificate.specs.declared.reader.TheConstants.{MOST_BYTES};
ghost use Rattle.cert_check.specs.Outcome.{IsDue};

use crate::checked::Checked;
use crate::header::header_of;
use crate::state::State;
use certificate::{Why, read_line};
use circuit_types::Model;
use expr_table::Instance;
use sequences::NoMemory;
use std::alloc::Global;
use tuple_rank::Binomials;

/// Whether these bytes are a certificate that proves every tuple of at most `order` probes of the instance; else the first
/// line with which something is wrong, and what it is.
#[tactic(auto, using(crate::proofs::Checks::begun, crate::proofs::Checks::one_further, crate::proofs::Checks::no_line, crate::proofs::Checks::bad_line, crate::proofs::Checks::more_follows, crate::proofs::Checks::all_right, crate::proofs::RightLines::moves_on, crate::proofs::RightLines::stays_within, crate::proofs::RightLines::less_left))]
pub fn check(
    alloc: Global,
    instance: &Instance,
    counts: &Binomials,
    model: Model,
    order: u32,
    bytes: &[u8],
) -> Result<Checked, NoMemory>
    requires fitting { IsFitting instance.now }
    requires counted { counts.now ≡ record { n = length instance.now.probes; t = order } }
    requires few { order ≤ 8 }
    requires short { length bytes.now ≤ MOST_BYTES }
    ensures { IfOk result (IsDue instance.now model order bytes.now) }
{
    let header = header_of(instance, counts, model, order);
    let mut state = State::begin(alloc, instance, order)?;
    let mut place = 0;
    let mut number = 0;
    while !state.due.is_done() {
        let Some((line, after)) = read_line(alloc, bytes, place)? else {
            return Ok(Checked::Rejected {
                line: number + 1,
                why: Why::Form,
            });
        };
        number += 1;
        if let Some(why) = state.take(alloc, instance, &header, line)? {
            return Ok(Checked::Rejected { line: number, why });
        }
        place = after;
    }
    if place < bytes.len() {
        return Ok(Checked::Rejected {
            line: number + 1,
            why: Why::Extra,
        });
    }
    Ok(Checked::Accepted {
        families: state.closed,
    })
}
