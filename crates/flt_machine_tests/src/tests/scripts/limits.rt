use super::*;

/// A piece, this many times.
fn repeated(alloc: Global, piece: &str, times: usize) -> Result<String, AllocError> {
    let mut text = String::new(alloc);
    for _ in 0..times {
        text.push_str(piece)?;
    }
    Ok(text)
}

/// Event lines with DTCs from 000001 on.
fn events(alloc: Global, count: u32) -> Result<String, AllocError> {
    let mut text = String::new(alloc);
    for number in 0..count {
        let dtc = number.wrapping_add(1);
        text.push_str(format!(in alloc; "event {number} dtc {dtc:06X}\n")?.as_str())?;
    }
    Ok(text)
}

/// Pieces that are repeated, as often as a script may have them, and how many bytes are reported of the script.
static AS_MANY: [(&str, usize, usize); 5] = [
    ("#", 512, 0),
    ("#\n", 524_288, 0),
    ("cycle 0\n", 65_536, 524_288),
    ("power\n", 255, 255),
    ("drain\n", 1_024, 6_144),
];

/// This many bytes are reported of the script.
fn is_as_long(rt: &impl Abort, alloc: Global, script: String, length: usize) -> Result<(), Fail> {
    let told = outcome(alloc, script.as_bytes())?;
    holds_at(rt, told.len() == length, "how long", length);
    Ok(())
}

#[test]
fn limits(rt: HostRuntime) -> Result<(), Fail> {
    for case in &AS_MANY {
        is_as_long(
            &rt,
            rt.alloc(),
            repeated(rt.alloc(), case.0, case.1)?,
            case.2,
        )?;
    }
    is_as_long(&rt, rt.alloc(), events(rt.alloc(), 256)?, 0)
}

/// Pieces that are repeated, what follows them, and what is reported of both.
static REPEATED: [(&str, usize, &str, &str); 25] = [
    ("#", 512, "\r\n#", ""),
    ("#", 513, "", "script line 1 long"),
    ("#", 512, "\u{1}", "script line 1 long"),
    ("#", 1_048_577, "", "script line 0 large"),
    ("\u{1}", 1_048_577, "", "script line 0 large"),
    ("cycle 0\n", 65_536, "cycle 0", "script line 65537 many"),
    ("cycle 0\n", 65_536, "save", "script line 65537 many"),
    ("cycle 0\n", 65_536, "cycle 4", "script line 65537 range"),
    ("cycle 0\n", 65_536, "cycle", "script line 65537 form"),
    ("cycle 0\n", 65_536, "config 0", "script line 65537 order"),
    ("cycle 0\n", 65_536, "power\nsave", "script line 65538 many"),
    ("power\n", 255, "power", "script line 256 many"),
    ("power\n", 255, "power 1", "script line 256 form"),
    ("cut 1 all\n", 64, "mute 0 0 1", "script line 65 many"),
    (
        "mute 0 0 1\npower\n",
        64,
        "fault 1 odd",
        "script line 129 many",
    ),
    ("fault 2 none\n", 64, "cut 0 all", "script line 65 range"),
    ("fault 2 none\n", 64, "cut 1 al", "script line 65 form"),
    (
        "cut 1 all\n",
        64,
        "par\nlane\nmute 0 0 1",
        "script line 67 many",
    ),
    ("power\n", 255, "par\nlane\npower", "script line 258 many"),
    (
        "cycle 0\n",
        65_536,
        "par\nlane\ncycle 0",
        "script line 65539 many",
    ),
    (
        "cycle 0\n",
        65_536,
        "par\nlane\nend\nsave",
        "script line 65540 many",
    ),
    ("drain\n", 1_024, "drain", "script line 1025 many"),
    ("drain\n", 1_024, "power\ndrain", "script line 1026 many"),
    (
        "par\nlane\ndrain\nend\n",
        1_024,
        "drain",
        "script line 4097 many",
    ),
    (
        "drain\n",
        1_024,
        "par\nlane\nsave\nlane\ndrain",
        "script line 1029 many",
    ),
];

/// A script with this after it is reported so.
fn is_told(
    rt: &impl Abort,
    alloc: Global,
    mut script: String,
    behind: &str,
    told: &str,
) -> Result<(), Fail> {
    script.push_str(behind)?;
    let found = outcome(alloc, script.as_bytes())?;
    compare(rt, behind, found.as_str(), told);
    Ok(())
}

/// Each piece, repeated and with what follows it, is reported as its case says.
#[test]
fn repeated_pieces_are_told(rt: HostRuntime) -> Result<(), Fail> {
    for case in &REPEATED {
        is_told(
            &rt,
            rt.alloc(),
            repeated(rt.alloc(), case.0, case.1)?,
            case.2,
            case.3,
        )?;
    }
    Ok(())
}

/// After as many events as there may be.
static BEHIND_EVENTS: [(&str, &str); 2] = [
    ("event 256 dtc 000101 prio 25", "script line 257 many"),
    ("event 256 dtc 000101 prio 256", "script line 257 range"),
];

#[test]
fn one_event_too_many(rt: HostRuntime) -> Result<(), Fail> {
    for case in &BEHIND_EVENTS {
        is_told(&rt, rt.alloc(), events(rt.alloc(), 256)?, case.0, case.1)?;
    }
    Ok(())
}

#[test]
fn a_power_up_is_no_arm_and_no_step(rt: HostRuntime) -> Result<(), Fail> {
    let mut script = repeated(rt.alloc(), "fault 2 none\n", 64)?;
    script.push_str("power\nsave")?;
    let told = outcome(rt.alloc(), script.as_bytes())?;
    let has_both = told.as_str().ends_with("fault 2 none.|save.");
    holds(&rt, has_both, "the steps behind the arms");
    Ok(())
}

#[test]
fn a_power_up_leaves_room_for_each_step(rt: HostRuntime) -> Result<(), Fail> {
    let mut script = repeated(rt.alloc(), "power\n", 255)?;
    script.push_str(repeated(rt.alloc(), "cycle 0\n", 65_536)?.as_str())?;
    is_as_long(&rt, rt.alloc(), script, 524_543)
}
