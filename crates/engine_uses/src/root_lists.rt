//! The roots for each notion.
ghost use Rattle.std.specs.Prelude.{◌≡◌, ◌+◌, IfOk, length};

use expr_table::{ExprTable, Instance, Notion, ProbeRoots};
use probe_family::{Family, roots};
use sequences::Sequence;
use std::alloc::Global;
use std::fmt::Write;
use std::test::Fail;
use tuple_rank::Binomials;

/// An instance whose probes see nothing; a true flag stands for the probe of an output share.
fn instance_of(alloc: Global, notion: Notion, outputs: &[bool]) -> Result<Instance, Fail>
    ensures { IfOk result (λ instance. length instance.probes ≡ length outputs.now) }
{
    let mut probes = Vec::new(alloc);
    for output in outputs {
        probes.push(ProbeRoots {
            rows: Sequence::from_vec(Vec::new(alloc)),
            output: *output,
        })?;
    }
    Ok(Instance {
        notion,
        table: ExprTable::make(alloc, 0, 0)?,
        probes: Sequence::from_vec(probes),
        groups: Sequence::from_vec(Vec::new(alloc)),
    })
}

/// Each family on a line: its size, its bound, and its parts, as `1 of 0 2`.
fn text_of(alloc: Global, families: &[Family]) -> Result<String, Fail> {
    let mut text = String::new(alloc);
    for family in families {
        let size = family.size;
        let bound = family.bound;
        write!(text, "size {size} bound {bound}:")?;
        for part in family.parts.as_slice() {
            let take = part.take;
            write!(text, " {take} of")?;
            for p in 0..part.set.len() {
                if part.set.get(p) {
                    write!(text, " {p}")?;
                }
            }
        }
        text.push_str("\n")?;
    }
    Ok(text)
}

#[test]
fn lists_the_roots_of_each_notion(rt: HostRuntime) -> Result<(), Fail> {
    let some = [false, false, false, true, true].as_slice();
    let cases = [
        (Notion::Probing, some, 1, "size 1 bound 0: 1 of 0 1 2 3 4\n"),
        (
            Notion::Ni,
            some,
            2,
            "size 1 bound 1: 1 of 0 1 2 3 4\nsize 2 bound 2: 2 of 0 1 2 3 4\n",
        ),
        (
            Notion::Sni,
            some,
            2,
            "size 1 bound 0: 1 of 3 4\nsize 1 bound 1: 1 of 0 1 2\nsize 2 bound 0: 2 of 3 4\nsize 2 bound 1: 1 of 0 1 2 1 of 3 4\nsize 2 bound 2: 2 of 0 1 2\n",
        ),
        (
            Notion::Sni,
            [true, true].as_slice(),
            8,
            "size 1 bound 0: 1 of 0 1\nsize 2 bound 0: 2 of 0 1\n",
        ),
        (
            Notion::Sni,
            [false, true].as_slice(),
            2,
            "size 1 bound 0: 1 of 1\nsize 1 bound 1: 1 of 0\nsize 2 bound 1: 1 of 0 1 of 1\n",
        ),
        (
            Notion::Probing,
            [false, false].as_slice(),
            8,
            "size 1 bound 0: 1 of 0 1\nsize 2 bound 0: 2 of 0 1\n",
        ),
        (Notion::Ni, [].as_slice(), 8, ""),
    ];
    for (notion, outputs, order, want) in cases {
        assert!(rt; outputs.len() < 6);
        assert!(rt; order <= 8);
        let instance = instance_of(rt.alloc(), notion, outputs)?;
        let families = roots(rt.alloc(), &instance, order)?;
        assert_eq!(rt; text_of(rt.alloc(), &families)?.as_str(), want);
    }
    Ok(())
}

#[test]
fn counts_the_tuples_of_roots(rt: HostRuntime) -> Result<(), Fail> {
    let instance = instance_of(
        rt.alloc(),
        Notion::Sni,
        [false, true, false, true, false].as_slice(),
    )?;
    let counts = Binomials::make(rt.alloc(), 5, 2)?;
    let families = roots(rt.alloc(), &instance, 2)?;
    let want = [
        (2, [1].as_slice()),
        (3, [0].as_slice()),
        (1, [1, 3].as_slice()),
        (6, [0, 1].as_slice()),
        (3, [0, 2].as_slice()),
    ];
    assert_eq!(rt; families.len(), want.len());
    for (family, (weight, least)) in families.iter().zip(want) {
        assert!(rt; family.size <= 2);
        assert_eq!(rt; family.weight(&counts), weight);
        assert_eq!(rt; family.least().as_slice(), least);
    }
    Ok(())
}
