//! The words of commands, and gadgets that are made.
use crate::answers::{Faults, NEVER, NO_FAULTS, answers, outcome};
use crate::texts::{GADGET, ORDER_2, ORDER_8, REFRESH, SECURE, SECURE_GADGET, USAGE};
use std::test::Fail;

#[test]
fn reads_the_words(rt: HostRuntime) -> Result<(), Fail> {
    let alloc = rt.alloc();
    for (command, status, report) in [
        ("", 2, USAGE),
        ("verify probing 1 value f.il", 0, SECURE),
        ("verify probing 01 value f.il", 0, SECURE),
        ("verify probing 08 value f.il", 1, ORDER_8),
        ("verify probing 9 value f.il", 2, USAGE),
        ("verify probing 1 value none.il", 4, ""),
        ("verify probing 1 value f.il --workers 0", 2, USAGE),
        ("verify probing 1 value f.il --workers 65", 2, USAGE),
        ("verify probing 1 value f.il --workers 2", 0, SECURE),
        (
            "verify probing 1 value f.il --workers 3 --schedule 5",
            0,
            SECURE,
        ),
        (
            "verify --workers=64 probing 1 --schedule=18446744073709551615 value f.il",
            0,
            SECURE,
        ),
        ("verify probing 1 value none.il --schedule=5", 4, ""),
        ("verify probing 1 value f.il --certificate f.il", 2, USAGE),
        ("verify probing 2 value f.il --certificate c", 1, ORDER_2),
        ("verify probing 1 value none.il --certificate=c", 4, ""),
        ("check probing 1 value none.il c", 4, ""),
        ("check probing 1 value f.il c", 4, ""),
        ("check probing 1 value f.il f.il", 2, USAGE),
    ] {
        let bytes = Vec::from_slice(alloc, REFRESH.as_bytes())?;
        answers(&rt, alloc, command, bytes, status, report)?;
    }
    Ok(())
}

#[test]
fn makes_and_tries_a_gadget(rt: HostRuntime) -> Result<(), Fail> {
    let alloc = rt.alloc();
    for (command, status, report) in [
        ("generate 0 2", 0, GADGET),
        ("generate 0 17", 2, USAGE),
        ("trial 0 2", 0, SECURE_GADGET),
        ("trial 18446744073709551616 2", 2, USAGE),
    ] {
        answers(&rt, alloc, command, Vec::new(alloc), status, report)?;
    }
    Ok(())
}

/// What a trial of three shares writes, up to the number of families.
const SECURE_THREE: &str =
    "Secure\nnotion probing order 2 model glitch\nprobes 36\ntuples 666\nfamilies ";

#[test]
fn tries_what_it_generates(rt: HostRuntime) -> Result<(), Fail> {
    let alloc = rt.alloc();
    let (code, netlist) = outcome(alloc, "generate 7 3", Vec::new(alloc), NO_FAULTS)?;
    assert_eq!(rt; code, 0);
    let (code, tried) = outcome(alloc, "trial 7 3", Vec::new(alloc), NO_FAULTS)?;
    let (_, again) = outcome(alloc, "trial 7 3", Vec::new(alloc), NO_FAULTS)?;
    assert_eq!(rt; code, 0);
    assert_eq!(rt; tried.as_slice(), again.as_slice());
    assert!(rt; tried.as_slice().starts_with(SECURE_THREE.as_bytes()));
    for options in [
        "--schedule=0",
        "--workers=2",
        "--workers=2 --schedule=1",
        "--workers=64 --schedule=2",
    ] {
        let command = format!(in alloc; "verify probing 2 glitch f.il {options}")?;
        let bytes = Vec::from_slice(alloc, netlist.as_slice())?;
        let (code, written) = outcome(alloc, command.as_str(), bytes, NO_FAULTS)?;
        assert_eq!(rt; code, 0, "{options}");
        assert_eq!(rt; written.as_slice(), tried.as_slice(), "{options}");
    }
    Ok(())
}

#[test]
fn tries_many_shares(rt: HostRuntime) -> Result<(), Fail> {
    let alloc = rt.alloc();
    for (command, report) in [
        (
            "trial 1 5",
            "Secure\nnotion probing order 2 model glitch\nprobes 105\ntuples 5565\nfamilies ",
        ),
        (
            "trial 1 8",
            "Secure\nnotion probing order 2 model glitch\nprobes 276\ntuples 38226\nfamilies ",
        ),
    ] {
        let (code, written) = outcome(alloc, command, Vec::new(alloc), NO_FAULTS)?;
        assert_eq!(rt; code, 0, "{command}");
        assert!(rt;
            written.as_slice().starts_with(report.as_bytes()),
            "{command}"
        );
    }
    Ok(())
}

#[test]
fn names_the_fault(rt: HostRuntime) -> Result<(), Fail> {
    let alloc = rt.alloc();
    // The file is opened, read, and read once more at its end; the sink is called until it took the whole text.
    for (files, sink, piece, status, written_text) in [
        (0, NEVER, 4096, 5, ""),
        (1, NEVER, 4096, 5, ""),
        (2, NEVER, 4096, 5, ""),
        (3, NEVER, 4096, 0, SECURE),
        (NEVER, 2, 4, 6, "Secure\nn"),
        (NEVER, 0, 4, 6, ""),
        (NEVER, 1, 4096, 0, SECURE),
    ] {
        let faults = Faults { files, sink, piece };
        let bytes = Vec::from_slice(alloc, REFRESH.as_bytes())?;
        let (code, written) = outcome(alloc, "verify probing 1 value f.il", bytes, faults)?;
        assert_eq!(rt; code, status, "{files} {sink}");
        assert_eq!(rt;
            written.as_slice(),
            written_text.as_bytes(),
            "{files} {sink}"
        );
    }
    Ok(())
}
