//! Names that are found, and names that are not.
use name_table::NameTable;
use std::alloc::{AllocError, Global};
use std::process::Abort;
use std::test::Fail;

/// Names that are added, and whether each is new.
const ADDED: [(&[u8], bool); 7] = [
    (b"\\a", true),
    (b"", true),
    (b"\\a", false),
    (b"a", true),
    (b"\\a_name_of_more_than_sixteen_bytes_1", true),
    (b"\\a_name_of_more_than_sixteen_bytes_2", true),
    (b"\\a_name_of_more_than_sixteen_bytes_1", false),
];

/// Names, and the place at which each was added first.
const FOUND: [(&[u8], Option<usize>); 6] = [
    (b"\\a", Some(0)),
    (b"", Some(1)),
    (b"a", Some(3)),
    (b"\\a_name_of_more_than_sixteen_bytes_2", Some(5)),
    (b"\\b", None),
    (b"\\a_name_of_more_than_sixteen_bytes_3", None),
];

/// Adds each name with its place among them.
fn add_all<'a>(
    rt: &impl Abort,
    table: &mut NameTable<'a, usize>,
    names: &[(&'a [u8], bool)],
) -> Result<(), Fail> {
    for (place, (name, new)) in names.iter().enumerate() {
        assert_eq!(rt; table.add(name, place)?, *new);
    }
    Ok(())
}

fn find_all(rt: &impl Abort, table: &NameTable<'_, usize>, names: &[(&[u8], Option<usize>)]) {
    for (name, place) in names {
        assert_eq!(rt; table.find(name), *place);
    }
}

#[test]
fn finds_what_was_added_first(rt: HostRuntime) -> Result<(), Fail> {
    let mut table = NameTable::new(rt.alloc());
    assert_eq!(rt; table.find(b"\\a"), None);
    add_all(&rt, &mut table, &ADDED)?;
    find_all(&rt, &table, &FOUND);
    Ok(())
}

/// Adds these names, which all are new, and finds each of them.
fn finds_each(rt: &impl Abort, alloc: Global, names: &[&[u8]]) -> Result<(), Fail> {
    let mut table = NameTable::new(alloc);
    for (place, name) in names.iter().enumerate() {
        assert!(rt; table.add(name, place)?);
    }
    for (place, name) in names.iter().enumerate() {
        assert_eq!(rt; table.find(name), Some(place));
        assert!(rt; !table.add(name, 0)?);
    }
    assert_eq!(rt; table.find(&[64, 0]), None);
    Ok(())
}

/// 4,096 names of two bytes, in the order of their numbers.
fn names(alloc: Global) -> Result<Vec<[u8; 2]>, AllocError> {
    let mut names = Vec::new(alloc);
    for high in 0u8..64 {
        for low in 0u8..64 {
            names.push([high, low])?;
        }
    }
    Ok(names)
}

#[test]
fn finds_each_of_many(rt: HostRuntime) -> Result<(), Fail> {
    let bytes = names(rt.alloc())?;
    let mut names = Vec::new(rt.alloc());
    for name in &bytes {
        names.push(name.as_slice())?;
    }
    finds_each(&rt, rt.alloc(), &names)
}

/// Names of one slot, also where there are 256: more than fill it.
const CROWD: [&[u8]; 36] = [
    b"!&", b"&>", b",|", b"-F", b"/(", b"/7", b"/d", b"1?", b"1R", b"1l", b"3p", b"7N", b":)",
    b":e", b"A-", b"A@", b"C1", b"FX", b"MU", b"Nb", b"Pj", b"QY", b"XV", b"Yc", b"Zt", b"aC",
    b"bL", b"ca", b"f[", b"ir", b"l$", b"on", b"p0", b"sz", b"v,", b"zw",
];

#[test]
fn finds_each_of_a_crowd(rt: HostRuntime) -> Result<(), Fail> {
    finds_each(&rt, rt.alloc(), &CROWD)
}
