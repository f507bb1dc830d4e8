//! Certificates, kept and checked.
use crate::answers::{NEVER, NO_FAULTS, edited, outcome, words_of};
use crate::texts::{ORDER_2, REFRESH, SECURE};
use maskverif_cli::run_plain;
use mv_files::{MemoryFiles, MemorySink, write_whole};
use sequences::NoMemory;
use std::alloc::Global;
use std::process::Abort;
use std::test::Fail;

/// The certificate of the refresh.
const CERTIFICATE: &str = "maskverif certificate 1
notion probing order 1 model value
probes 5 rows 8 tuples 5
hull 0 2 3
cuts
hull 1 4
cuts 5 7
end 2
";

const VERIFY: &str = "verify probing 1 value f.il --certificate c";

const CHECK: &str = "check probing 1 value f.il c";

const ACCEPTED: &str = "Accepted\nfamilies 2\n";

/// Files that give and take so many bytes a call, with this netlist in `f.il`. One more may be created, and a call fails.
fn files_with(
    alloc: Global,
    netlist: &[u8],
    piece: usize,
    failing: u64,
) -> Result<MemoryFiles, NoMemory> {
    let name = String::from_str(alloc, "f.il")?;
    let listed = vec![in alloc; (name, Vec::from_slice(alloc, netlist)?)]?;
    let failing = vec![in alloc; failing]?;
    MemoryFiles::make(alloc, listed, piece.max(1), failing, 1, 65536)
}

/// The exit status and the bytes that were written, for a command over these files.
fn over(alloc: Global, command: &str, files: &mut MemoryFiles) -> Result<(u8, Vec<u8>), NoMemory> {
    let words = words_of(alloc, command)?;
    let failing = vec![in alloc; NEVER]?;
    let mut out = MemorySink::make(alloc, 4096, failing, 4096)?;
    let status = run_plain(alloc, words.as_slice(), files, &mut out);
    Ok((status.code(), Vec::from_slice(alloc, out.written())?))
}

/// Compares the answer to a command over these files with what is due.
fn answers_over(
    rt: &impl Abort,
    alloc: Global,
    command: &str,
    files: &mut MemoryFiles,
    status: u8,
    report: &str,
) -> Result<(), NoMemory> {
    let (code, written) = over(alloc, command, files)?;
    assert_eq!(rt; code, status, "{command}: {report}");
    assert_eq!(rt;
        written.as_slice(),
        report.as_bytes(),
        "{command}: {report}"
    );
    Ok(())
}

#[test]
fn keeps_a_certificate_and_checks_it(rt: HostRuntime) -> Result<(), Fail> {
    let alloc = rt.alloc();
    let mut files = files_with(alloc, REFRESH.as_bytes(), 4096, NEVER)?;
    answers_over(&rt, alloc, VERIFY, &mut files, 0, SECURE)?;
    assert_eq!(rt; files.bytes_of("c"), Some(CERTIFICATE.as_bytes()));
    answers_over(&rt, alloc, CHECK, &mut files, 0, ACCEPTED)?;
    let mut files = files_with(alloc, REFRESH.as_bytes(), 4096, NEVER)?;
    let unproved = "verify probing 2 value f.il --certificate c";
    answers_over(&rt, alloc, unproved, &mut files, 1, ORDER_2)?;
    assert!(rt; files.bytes_of("c").is_none());
    answers_over(&rt, alloc, CHECK, &mut files, 4, "")?;
    Ok(())
}

/// Compares the answer to a check of a certificate with what is due.
fn checks(
    rt: &impl Abort,
    alloc: Global,
    command: &str,
    certificate: &[u8],
    status: u8,
    report: &str,
) -> Result<(), NoMemory> {
    let mut files = files_with(alloc, REFRESH.as_bytes(), 4096, NEVER)?;
    assert!(rt; write_whole(&mut files, "c", certificate).is_ok());
    answers_over(rt, alloc, command, &mut files, status, report)
}

#[test]
fn rejects_a_certificate(rt: HostRuntime) -> Result<(), Fail> {
    let alloc = rt.alloc();
    for (line, other, status, report) in [
        (7, "cuts 7 5\n", 0, ACCEPTED),
        (7, "cuts 7 7\n", 1, "Rejected line 7 Cuts\n"),
        (7, "cuts 7\n", 1, "Rejected line 7 Bound\n"),
        (8, "end 2\nend 2\n", 1, "Rejected line 9 Extra\n"),
        (8, "end 3\n", 1, "Rejected line 8 Count\n"),
        (8, "", 1, "Rejected line 8 Form\n"),
        (4, "hull 0 2 4294967295\n", 1, "Rejected line 4 Hull\n"),
        (4, "hull\n", 1, "Rejected line 4 Form\n"),
    ] {
        let bytes = edited(alloc, CERTIFICATE, [(line, other)].as_slice())?;
        checks(&rt, alloc, CHECK, bytes.as_slice(), status, report)?;
    }
    let open = edited(
        alloc,
        CERTIFICATE,
        [(6, ""), (7, ""), (8, "end 1\n")].as_slice(),
    )?;
    checks(
        &rt,
        alloc,
        CHECK,
        open.as_slice(),
        1,
        "Rejected line 6 Open\n",
    )?;
    checks(
        &rt,
        alloc,
        "check probing 2 value f.il c",
        CERTIFICATE.as_bytes(),
        1,
        "Rejected line 2 Header\n",
    )?;
    Ok(())
}

#[test]
fn names_the_fault_of_a_certificate(rt: HostRuntime) -> Result<(), Fail> {
    let alloc = rt.alloc();
    // The netlist is opened, and read in pieces and once more at its end; then the certificate is created and written.
    let reads = (REFRESH.len() as u64).div_ceil(8) + 1;
    for (failing, kept) in [(reads + 1, None), (reads + 3, Some("maskveri"))] {
        let mut files = files_with(alloc, REFRESH.as_bytes(), 8, failing)?;
        answers_over(&rt, alloc, VERIFY, &mut files, 6, "")?;
        let bytes = kept.map(|text| text.as_bytes());
        assert_eq!(rt; files.bytes_of("c"), bytes);
    }
    // A certificate is created and written; the netlist is opened, read, and read at its end; and so is the certificate.
    for (failing, status, report) in [
        (4, 5, ""),
        (5, 5, ""),
        (6, 5, ""),
        (7, 5, ""),
        (8, 0, ACCEPTED),
    ] {
        let mut files = files_with(alloc, REFRESH.as_bytes(), 4096, failing)?;
        assert!(rt; write_whole(&mut files, "c", CERTIFICATE.as_bytes()).is_ok());
        answers_over(&rt, alloc, CHECK, &mut files, status, report)?;
    }
    Ok(())
}

#[test]
fn keeps_one_certificate(rt: HostRuntime) -> Result<(), Fail> {
    let alloc = rt.alloc();
    let (_, netlist) = outcome(alloc, "generate 7 3", Vec::new(alloc), NO_FAULTS)?;
    let verify = "verify probing 2 glitch f.il --certificate c";
    let mut first = files_with(alloc, netlist.as_slice(), 4096, NEVER)?;
    let (code, _) = over(alloc, verify, &mut first)?;
    assert_eq!(rt; code, 0);
    for seed in 0..3_u64 {
        let mut files = files_with(alloc, netlist.as_slice(), 4096, NEVER)?;
        let command = format!(in alloc; "{verify} --workers 2 --schedule {seed}")?;
        let (code, _) = over(alloc, command.as_str(), &mut files)?;
        assert_eq!(rt; code, 0);
        assert_eq!(rt; files.bytes_of("c"), first.bytes_of("c"));
    }
    let (code, written) = over(alloc, "check probing 2 glitch f.il c", &mut first)?;
    assert_eq!(rt; code, 0);
    assert!(rt; written.as_slice().starts_with(b"Accepted\nfamilies "));
    Ok(())
}
