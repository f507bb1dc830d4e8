//! The children of families made by hand.
ghost use Rattle.std.specs.Prelude.{◌≡◌, ◌≤◌, IfOk, All, AllPairs, length};
ghost use Rattle.std.specs.Bool.{OnTrue};
ghost use Rattle.probe_family.specs.Families.{AreDisjoint, IsFamily, IsPart, total_take};

use bit_rows::BitRow;
use family_split::children;
use probe_family::{Family, NoMemory, Part, Parts};
use std::alloc::Global;
use std::fmt::Write;
use std::test::Fail;

/// The families of these tests are over the numbers below this one.
const PROBES: u32 = 16;

/// A set of these numbers.
fn set_of(alloc: Global, members: &[u32]) -> Result<BitRow, NoMemory>
    ensures { IfOk result (λ set. length set ≡ PROBES) }
{
    let mut set = BitRow::make(alloc, PROBES)?;
    for member in members {
        if *member < PROBES {
            set.set(*member);
        }
    }
    Ok(set)
}

/// A family of parts that take so many of these numbers.
fn family_of(alloc: Global, bound: u32, parts: &[(u32, &[u32])]) -> Result<Family, NoMemory> {
    let mut size = 0u32;
    let mut all = Vec::new(alloc);
    for (take, members) in parts {
        size = size.wrapping_add(*take);
        let set = set_of(alloc, members)?;
        all.push(Part { take: *take, set })?;
    }
    Ok(Family {
        size,
        bound,
        parts: Parts::from_vec(all),
    })
}

/// Whether the part takes some of its numbers.
fn is_part(part: &Part) -> bool
    ensures { OnTrue result (IsPart PROBES part.now) }
{
    part.set.len() == PROBES && part.take >= 1 && part.take <= part.set.count()
}

/// Whether each part takes some of its numbers.
fn are_parts(parts: &[Part]) -> bool
    ensures { OnTrue result (All (IsPart PROBES) parts.now) }
{
    for part in parts {
        if !is_part(part) {
            return false;
        }
    }
    true
}

/// Whether no number is in both sets.
fn are_apart(part: &Part, other: &Part) -> bool
    ensures { OnTrue result (AreDisjoint part.now other.now) }
{
    for p in 0..part.set.len().min(other.set.len()) {
        if part.set.get(p) && other.set.get(p) {
            return false;
        }
    }
    true
}

/// Whether no number of the part is in the others.
fn is_apart(part: &Part, others: &[Part]) -> bool
    ensures { OnTrue result (All (AreDisjoint part.now) others.now) }
{
    for other in others {
        if !are_apart(part, other) {
            return false;
        }
    }
    true
}

/// Whether no number is in two of the parts.
fn are_disjoint(parts: &[Part]) -> bool
    ensures { OnTrue result (AllPairs AreDisjoint parts.now) }
{
    match parts {
        [] => true,
        [first, others @ ..] => is_apart(first, others) && are_disjoint(others),
    }
}

/// How many numbers few parts take.
fn total_take(parts: &[Part]) -> u64
    requires { length parts.now ≤ 8 }
    ensures { result ≡ total_take parts.now }
{
    parts.iter().map(|part| u64::from(part.take)).sum()
}

/// Whether it is a family.
fn is_family(family: &Family) -> bool
    ensures { OnTrue result (IsFamily PROBES family.now) }
{
    let parts = family.parts.as_slice();
    let size = family.size;
    if parts.is_empty() || parts.len() > 8 || size > 8 || total_take(parts) != u64::from(size) {
        return false;
    }
    are_parts(parts) && are_disjoint(parts)
}

/// Each family on a line, as `1 of 0 2, 3 of 4 5 7`.
fn text_of(alloc: Global, families: &[Family]) -> Result<String, Fail> {
    let mut text = String::new(alloc);
    for family in families {
        let mut between = "";
        for part in family.parts.as_slice() {
            let take = part.take;
            write!(text, "{between}{take} of")?;
            for p in 0..part.set.len() {
                if part.set.get(p) {
                    write!(text, " {p}")?;
                }
            }
            between = ", ";
        }
        text.push_str("\n")?;
    }
    Ok(text)
}

#[test]
fn splits_by_how_many_lie_inside(rt: HostRuntime) -> Result<(), Fail> {
    let alloc = rt.alloc();
    let cases: [(&[(u32, &[u32])], &[u32], &str); 10] = [
        // one of two inside, or none: a set from which nothing is taken is dropped
        (
            &[(2, &[0, 1, 2, 3])],
            &[0, 1],
            "1 of 0 1, 1 of 2 3\n2 of 2 3\n",
        ),
        // nothing lies outside
        (&[(2, &[0, 1, 2, 3])], &[0, 1, 2, 3], ""),
        (&[(2, &[0, 1, 2, 3])], &[0, 1, 2, 3, 4, 5], ""),
        // nothing lies inside
        (&[(2, &[0, 1, 2, 3])], &[], "2 of 0 1 2 3\n"),
        (&[(2, &[0, 1, 2, 3])], &[4, 15], "2 of 0 1 2 3\n"),
        // one number outside: two of it cannot be taken
        (&[(2, &[0, 1, 2, 3])], &[0, 2, 3], "1 of 0 2 3, 1 of 1\n"),
        // one number inside: the same
        (
            &[(2, &[0, 1, 2, 3])],
            &[2],
            "1 of 2, 1 of 0 1 3\n2 of 0 1 3\n",
        ),
        // more inside stands first
        (
            &[(3, &[0, 1, 2, 3, 4, 5])],
            &[0, 2, 4],
            "2 of 0 2 4, 1 of 1 3 5\n1 of 0 2 4, 2 of 1 3 5\n3 of 1 3 5\n",
        ),
        // part by part, the first counts most
        (
            &[(2, &[0, 1, 2, 3]), (1, &[4, 5])],
            &[0, 1, 4],
            "2 of 0 1, 1 of 5\n1 of 0 1, 1 of 2 3, 1 of 4\n1 of 0 1, 1 of 2 3, 1 of 5\n2 of 2 3, 1 of 4\n2 of 2 3, 1 of 5\n",
        ),
        // a part that lies outside and one that lies inside
        (
            &[(1, &[8, 9]), (1, &[10, 15])],
            &[10, 15],
            "1 of 8 9, 1 of 10 15\n",
        ),
    ];
    for (parts, hull, want) in cases {
        let family = family_of(alloc, 5, parts)?;
        let hull = set_of(alloc, hull)?;
        assert!(rt; is_family(&family));
        let families = children(alloc, &family, &hull)?;
        assert_eq!(rt; text_of(alloc, &families)?.as_str(), want);
        for child in families {
            assert_eq!(rt; (child.size, child.bound), (family.size, 5));
        }
    }
    Ok(())
}

/// The numbers of eight pairs, one of each: the first where the bit stands in `inside`, and else the second.
fn write_choice(text: &mut String, inside: u32) -> Result<(), Fail> {
    let mut between = "";
    for i in 0u32..8 {
        let p = if inside >> (7 - i) & 1 == 1 {
            2 * i
        } else {
            2 * i + 1
        };
        write!(text, "{between}1 of {p}")?;
        between = ", ";
    }
    text.push_str("\n")?;
    Ok(())
}

#[test]
fn eight_parts_have_255_children(rt: HostRuntime) -> Result<(), Fail> {
    let alloc = rt.alloc();
    let pairs: [(u32, &[u32]); 8] = [
        (1, &[0, 1]),
        (1, &[2, 3]),
        (1, &[4, 5]),
        (1, &[6, 7]),
        (1, &[8, 9]),
        (1, &[10, 11]),
        (1, &[12, 13]),
        (1, &[14, 15]),
    ];
    let family = family_of(alloc, 0, &pairs)?;
    let hull = set_of(alloc, &[0, 2, 4, 6, 8, 10, 12, 14])?;
    assert!(rt; is_family(&family));
    let families = children(alloc, &family, &hull)?;
    assert_eq!(rt; families.len(), 255);
    let mut want = String::new(alloc);
    for inside in (0..255).rev() {
        write_choice(&mut want, inside)?;
    }
    assert_eq!(rt; text_of(alloc, &families)?.as_str(), want.as_str());
    Ok(())
}
