//! Which module is the top one, by its attributes.
use circuit_types::{Attribute, BitValue, Bits, Module, Name, Tree, Value, top};
use sequences::Sequence;
use std::alloc::{AllocError, Global};
use std::test::Fail;

/// One value of an attribute, in short.
#[derive(Clone, Copy)]
enum Short {
    Number(i32),
    Bits(&'static [BitValue]),
    Text(&'static str),
}

fn value(alloc: Global, short: Short) -> Result<Value, AllocError> {
    match short {
        Short::Number(number) => Ok(Value::Number(number)),
        Short::Bits(bits) => Ok(Value::Bits(Bits {
            width: 9,
            written: Sequence::from_vec(Vec::from_slice(alloc, bits)?),
        })),
        Short::Text(text) => Ok(Value::Text(Sequence::from_vec(Vec::from_slice(
            alloc,
            text.as_bytes(),
        )?))),
    }
}

/// A module with these attributes.
fn module(
    alloc: Global,
    attributes: &[(&'static str, Short)],
) -> Result<Module<'static>, AllocError> {
    let mut list = Vec::new(alloc);
    for (name, short) in attributes {
        list.push(Attribute {
            name: Name::in_text(name.as_bytes()),
            value: value(alloc, *short)?,
        })?;
    }
    Ok(Module {
        line: 1,
        name: Name::in_text(b"".as_slice()),
        attributes: Sequence::from_vec(list),
        items: Sequence::from_vec(Vec::new(alloc)),
    })
}

const ONE: Short = Short::Number(1);

const SET: (&str, Short) = ("\\top", ONE);

const UNSET: (&str, Short) = ("\\top", Short::Number(0));

/// The attributes of each module, and the place of the top one.
const CASES: [(&[&[(&str, Short)]], Option<usize>); 12] = [
    (&[], None),
    (&[&[]], Some(0)),
    (&[&[UNSET]], Some(0)),
    (&[&[], &[]], None),
    (&[&[], &[SET]], Some(1)),
    (&[&[SET], &[SET]], None),
    (&[&[], &[UNSET, SET, UNSET], &[UNSET]], Some(1)),
    (&[&[], &[("\\top", Short::Number(-3))]], Some(1)),
    (
        &[
            &[("\\top", Short::Bits(&[BitValue::X, BitValue::One]))],
            &[("\\top", Short::Bits(&[BitValue::X, BitValue::Zero]))],
        ],
        Some(0),
    ),
    (&[&[("\\top", Short::Text("1"))], &[]], None),
    (&[&[("$top", ONE)], &[("\\top2", ONE)]], None),
    (&[&[SET, SET], &[("\\src", ONE)]], Some(0)),
];

#[test]
fn finds_the_top_module(rt: HostRuntime) -> Result<(), Fail> {
    for (modules, expected) in CASES {
        let mut list = Vec::new(rt.alloc());
        for attributes in modules {
            list.push(module(rt.alloc(), attributes)?)?;
        }
        let tree = Tree {
            modules: Sequence::from_vec(list),
        };
        assert_eq!(rt; top(&tree), expected);
    }
    Ok(())
}
