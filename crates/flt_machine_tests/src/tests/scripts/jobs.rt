use super::*;
use arrayvec::ArrayVec;

/// Scripts with jobs for application blocks, and what is reported of each.
static CASES: [(&str, &str); 18] = [
    (
        "post 3 01 aF\nurge 0 00\n post\t007 0a\ndrain\nget 3\nask 07",
        "post 3 01 AF.urge 0 00.post 7 0A.drain.get 3.ask 7.",
    ),
    (
        "post 0 00 11 22 33 44 55 66 77 88 99 AA BB CC DD EE FF 10 21 32 43 54 65 76 87 98 A9 BA CB DC ED FE 0F",
        "post 0 00 11 22 33 44 55 66 77 88 99 AA BB CC DD EE FF 10 21 32 43 54 65 76 87 98 A9 BA CB DC ED FE 0F.",
    ),
    (
        "post 0 00 11 22 33 44 55 66 77 88 99 AA BB CC DD EE FF 10 21 32 43 54 65 76 87 98 A9 BA CB DC ED FE 0F 00",
        "script line 1 form",
    ),
    ("post 0", "script line 1 form"),
    ("post 8", "script line 1 form"),
    ("post", "script line 1 form"),
    ("post x 01", "script line 1 form"),
    ("urge 0 1", "script line 1 form"),
    ("urge 0 01 0x1", "script line 1 form"),
    ("post 8 01", "script line 1 range"),
    ("urge 9999999999 01", "script line 1 range"),
    ("urges 0 01", "script line 1 word"),
    ("drain 1", "script line 1 form"),
    ("drain\nblocks 1", "script line 2 order"),
    ("blocks 0\nget 0", "script line 2 range"),
    ("blocks 40\nget 39\nask 40", "script line 3 range"),
    ("get", "script line 1 form"),
    ("ask 0 0", "script line 1 form"),
];

#[test]
fn jobs(rt: HostRuntime) -> Result<(), Fail> {
    all_are_told(&rt, rt.alloc(), &CASES)
}

fn job(urgent: bool, block: u8, written: &[u8]) -> Part {
    let mut bytes = ArrayVec::new();
    let _full = bytes.try_extend_from_slice(written);
    Part::One(Step::Post {
        urgent,
        block,
        bytes,
    })
}

#[test]
fn jobs_are_made_as_written(rt: HostRuntime) -> Result<(), Fail> {
    let script = parse(rt.alloc(), b"post 3 01 af\nurge 0 7F", &table())?;
    let wanted = [job(false, 3, &[0x01, 0xAF]), job(true, 0, &[0x7F])];
    let is_made = script.lives.len() == 1 && has_parts(&script.lives, 0, &wanted);
    holds(&rt, is_made, "the jobs of the life");
    Ok(())
}
