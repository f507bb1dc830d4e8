//! The hulls of the probes of a refresh.
ghost use Rattle.std.specs.Prelude.{◌≡◌, ◌<◌, ℕ, List, [], ◌∷◌, All, IfOk, length};
ghost use Rattle.expr_table.specs.declared.node.Row.{Row};
ghost use Rattle.expr_table.specs.Instance.{IsFitting, rows_of};
ghost use Rattle.probe_family.specs.Families.{IsFamily};

use crate::samples::refresh;
use bit_rows::BitRow;
use expr_table::{ExprTable, Instance, Notion, ProbeRoots, Row};
use extend_set::{Scratch, hull};
use family_split::children;
use probe_family::{Family, NoMemory, roots};
use sequences::Sequence;
use std::alloc::Global;
use std::fmt::Write;
use std::process::Abort;
use std::test::Fail;

/// Adds the members of a set.
fn write_set(text: &mut String, set: &BitRow) -> Result<(), Fail> {
    for p in 0..set.len() {
        if set.get(p) {
            write!(text, " {p}")?;
        }
    }
    Ok(())
}

/// The hull, and behind it the parts of the children under it; or the least tuple, which is not provable.
fn text_of(alloc: Global, family: &Family, found: Option<()>, out: &BitRow) -> Result<String, Fail>
    requires { IsFamily (length out.now) family.now }
{
    let mut text = String::new(alloc);
    if found.is_none() {
        text.push_str("none but")?;
        write_set(&mut text, out)?;
        return Ok(text);
    }
    text.push_str("hull")?;
    write_set(&mut text, out)?;
    for child in children(alloc, family, out)? {
        for part in child.parts.as_slice() {
            let take = part.take;
            write!(text, ", {take} of")?;
            write_set(&mut text, &part.set)?;
        }
    }
    Ok(text)
}

#[test]
fn finds_the_hulls_of_a_refresh(rt: HostRuntime) -> Result<(), Fail> {
    let alloc = rt.alloc();
    let instance = refresh(&rt, alloc)?;
    let mut scratch = Scratch::make(alloc, &instance)?;
    let mut out = BitRow::make(alloc, 5)?;
    out.set(4);
    // of two probes, x0 and x + x0 come first
    let want = ["hull 0 2 3, 1 of 1 4", "none but 0 1"];
    let families = roots(alloc, &instance, 2)?;
    assert_eq!(rt; families.len(), want.len());
    for (family, want) in families.iter().zip(want) {
        let found = hull(&instance, &mut scratch, family, &mut out);
        assert_eq!(rt; text_of(alloc, family, found, &out)?.as_str(), want);
    }
    Ok(())
}
