//! Verdicts and refusals of netlists.
use crate::answers::{edited, expect, refuses};
use crate::texts::{
    GADGET, ORDER_2, RANDOM, RANDOM_813, RANDOM_65536, REFRESH, SECURE, SECURE_GADGET, WIDE,
};
use std::test::Fail;

#[test]
fn answers_by_order(rt: HostRuntime) -> Result<(), Fail> {
    let alloc = rt.alloc();
    for (text, asked, status, report) in [
        (REFRESH, "probing 1 value", 0, SECURE),
        (WIDE, "probing 1 value", 0, SECURE),
        (REFRESH, "probing 2 value", 1, ORDER_2),
        (
            REFRESH,
            "sni 1 value",
            0,
            "Secure\nnotion sni order 1 model value\nprobes 5\ntuples 5\nfamilies 4\n",
        ),
        (
            REFRESH,
            "ni 2 value",
            0,
            "Secure\nnotion ni order 2 model value\nprobes 5\ntuples 15\nfamilies 3\n",
        ),
        (
            "module \\e\nend\n",
            "probing 3 value",
            0,
            "Secure\nnotion probing order 3 model value\nprobes 0\ntuples 0\nfamilies 0\n",
        ),
        (
            RANDOM,
            "probing 8 value",
            0,
            "Secure\nnotion probing order 8 model value\nprobes 1\ntuples 1\nfamilies 1\n",
        ),
        (
            RANDOM_813,
            "probing 8 value",
            3,
            "Refused 14 Limit Tuples\n",
        ),
        (
            RANDOM_65536,
            "probing 8 value",
            3,
            "Refused 14 Limit Probes\n",
        ),
    ] {
        let bytes = Vec::from_slice(alloc, text.as_bytes())?;
        expect(&rt, alloc, asked, bytes, status, report)?;
    }
    Ok(())
}

#[test]
fn decides_an_edited_refresh(rt: HostRuntime) -> Result<(), Fail> {
    let alloc = rt.alloc();
    let leaky = edited(alloc, REFRESH, [(23, "    connect \\B \\x0\n")].as_slice())?;
    expect(
        &rt,
        alloc,
        "probing 1 value",
        leaky,
        1,
        "Unproved\nnotion probing order 1 model value\nprobes 5\ntuples 5\nrank 4\nprobe y1\n",
    )?;
    let unread = edited(
        alloc,
        REFRESH,
        [(15, "  wire output 5 \\y1\n  wire \\w\n  connect \\w 1'x\n")].as_slice(),
    )?;
    expect(&rt, alloc, "probing 1 value", unread, 0, SECURE)?;
    let chosen = edited(
        alloc,
        REFRESH,
        [
            (15, "  wire output 5 \\y1\n  wire \\n\n"),
            (
                16,
                "  cell $_NOT_ $not$1\n    connect \\A \\x0\n    connect \\Y \\n\n  end\n  cell $_MUX_ $mux$1\n",
            ),
            (18, "    connect \\B \\n\n    connect \\S \\r\n"),
        ]
        .as_slice(),
    )?;
    expect(
        &rt,
        alloc,
        "sni 1 value",
        chosen,
        1,
        "Unproved\nnotion sni order 1 model value\nprobes 6\ntuples 6\nrank 4\nprobe y0\n",
    )?;
    Ok(())
}

#[test]
fn decides_a_gadget(rt: HostRuntime) -> Result<(), Fail> {
    let alloc = rt.alloc();
    let plain = edited(alloc, GADGET, [].as_slice())?;
    expect(&rt, alloc, "probing 1 glitch", plain, 0, SECURE_GADGET)?;
    let again = edited(alloc, GADGET, [].as_slice())?;
    expect(
        &rt,
        alloc,
        "sni 1 glitch",
        again,
        1,
        "Unproved\nnotion sni order 1 model glitch\nprobes 15\ntuples 15\nrank 13\nprobe c[0]\n",
    )?;
    let registered = edited(
        alloc,
        GADGET,
        [
            (20, "  wire \\z_1_0\n  wire \\s_0\n  wire \\s_1\n"),
            (64, "    connect \\Y \\s_0\n"),
            (69, "    connect \\Y \\s_1\n"),
            (
                71,
                "  cell $_DFF_P_ $g$10\n    connect \\C \\clk\n    connect \\D \\s_0\n    connect \\Q \\c [0]\n  end\n  cell $_DFF_P_ $g$11\n    connect \\C \\clk\n    connect \\D \\s_1\n    connect \\Q \\c [1]\n  end\nend\n",
            ),
        ]
        .as_slice(),
    )?;
    expect(
        &rt,
        alloc,
        "sni 1 glitch",
        registered,
        0,
        "Secure\nnotion sni order 1 model glitch\nprobes 17\ntuples 17\nfamilies 8\n",
    )?;
    let reset = edited(
        alloc,
        GADGET,
        [
            (
                12,
                "  wire width 2 output 5 \\c\n  attribute \\mask \"held 1\"\n  wire input 6 \\rst\n",
            ),
            (51, "  cell $_DFF_PN0_ $g$6\n"),
            (54, "    connect \\Q \\z_0_1\n    connect \\R \\rst\n"),
        ]
        .as_slice(),
    )?;
    expect(&rt, alloc, "probing 1 glitch", reset, 0, SECURE_GADGET)?;
    Ok(())
}

#[test]
fn decides_a_gadget_without_registers(rt: HostRuntime) -> Result<(), Fail> {
    let alloc = rt.alloc();
    for (model, status, report) in [
        (
            "glitch",
            1,
            "Unproved\nnotion probing order 1 model glitch\nprobes 13\ntuples 13\nrank 11\nprobe c[0]\n",
        ),
        (
            "value",
            0,
            "Secure\nnotion probing order 1 model value\nprobes 13\ntuples 13\nfamilies 5\n",
        ),
    ] {
        let bytes = edited(
            alloc,
            GADGET,
            [
                (51, ""),
                (52, ""),
                (53, ""),
                (54, ""),
                (55, ""),
                (56, ""),
                (57, ""),
                (58, ""),
                (59, ""),
                (60, ""),
                (63, "    connect \\B \\q_0_1\n"),
                (68, "    connect \\B \\q_1_0\n"),
            ]
            .as_slice(),
        )?;
        let asked = format!(in alloc; "probing 1 {model}")?;
        expect(&rt, alloc, asked.as_str(), bytes, status, report)?;
    }
    Ok(())
}

#[test]
fn refuses_a_refresh(rt: HostRuntime) -> Result<(), Fail> {
    let alloc = rt.alloc();
    for (line, other, report) in [
        (
            23,
            "    connect \\B 1'x\n",
            "Refused 13 UnknownBit line 23\n",
        ),
        (26, "", "Refused 2 BadForm line 26\n"),
        (
            24,
            "    connect \\Y \\y0\n",
            "Refused 11 TwoDrivers line 24\n",
        ),
        (
            18,
            "    connect \\B \\y0\n",
            "Refused 20 GateLoop line 16\n",
        ),
        (
            8,
            "  attribute \\mask \"share x 2\"\n",
            "Refused 17 ShareGap line 7\n",
        ),
        (
            11,
            "  wire input 3 \\r\n  attribute \\mask \"share x 1\"\n  wire input 6 \\x9\n",
            "Refused 18 ShareDouble line 13\n",
        ),
        (10, "", "Refused 16 NoteMissing line 10\n"),
    ] {
        let bytes = edited(alloc, REFRESH, [(line, other)].as_slice())?;
        refuses(&rt, alloc, bytes, report)?;
    }
    Ok(())
}

#[test]
fn refuses_a_gadget(rt: HostRuntime) -> Result<(), Fail> {
    let alloc = rt.alloc();
    for (line, other, report) in [
        (
            53,
            "    connect \\D \\c [0]\n",
            "Refused 21 RegisterLoop line 51\n",
        ),
        (
            22,
            "    connect \\A \\clk\n",
            "Refused 19 ClockUse line 22\n",
        ),
        (1, "?\n", "Refused 1 BadToken line 1\n"),
    ] {
        let bytes = edited(alloc, GADGET, [(line, other)].as_slice())?;
        refuses(&rt, alloc, bytes, report)?;
    }
    let held = edited(
        alloc,
        GADGET,
        [
            (
                12,
                "  wire width 2 output 5 \\c\n  attribute \\mask \"held 0\"\n  wire input 6 \\rst\n",
            ),
            (51, "  cell $_DFF_PN0_ $g$6\n"),
            (54, "    connect \\Q \\z_0_1\n    connect \\R \\rst\n"),
        ]
        .as_slice(),
    )?;
    refuses(&rt, alloc, held, "Refused 22 ResetNotHeld line 53\n")?;
    refuses(&rt, alloc, Vec::new(alloc), "Refused 3 NoTop\n")?;
    Ok(())
}

#[test]
fn refuses_a_long_file(rt: HostRuntime) -> Result<(), Fail> {
    let alloc = rt.alloc();
    let bytes = vec![in alloc; b' '; 67_108_865]?;
    refuses(&rt, alloc, bytes, "Refused 14 Limit FileBytes\n")?;
    Ok(())
}
