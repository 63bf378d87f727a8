use super::*;

/// Scripts with blocks of lanes, and what is reported of each.
static CASES: [(&str, &str); 38] = [
    ("par", "script line 1 block"),
    ("par\n# x\n\n", "script line 3 block"),
    ("par\nlane\nmemory 0", "script line 3 order"),
    ("memory 0\npar\nlane", "script line 3 block"),
    ("par x", "script line 1 form"),
    ("par\nlane 1", "script line 2 form"),
    ("par\nlane\nend of block", "script line 3 form"),
    ("par\nend", "script line 2 block"),
    ("lane", "script line 1 block"),
    ("end", "script line 1 block"),
    ("par\nlane\nend\nlane", "script line 4 block"),
    ("par\nlane\nend\nend", "script line 4 block"),
    ("par\ncycle 0", "script line 2 block"),
    ("par\nsave", "script line 2 block"),
    ("par\npower", "script line 2 block"),
    ("par\npar", "script line 2 block"),
    ("par\ncycle 4", "script line 2 range"),
    ("par\nlane\npower", "script line 3 block"),
    ("par\nlane\ncut 1 none", "script line 3 block"),
    ("par\nlane\nfault 1 none", "script line 3 block"),
    ("par\nlane\nmute 0 0 1", "script line 3 block"),
    ("par\nlane\npar", "script line 3 block"),
    ("par\nlane\ntick 0", "script line 3 range"),
    ("par\nlane\nmute 0 0 0", "script line 3 range"),
    ("par\nlane\nend", "[:]"),
    (
        "par\r\n\tlane \n# x\ncycle 0\n\nlane\nlane\ntick 1\nsig 0 1\nend\nsave\npower\nt A 3E 00\npar\nlane\nt B 3E 00\nend",
        "[:cycle 0.::tick 1.sig 0 1.]save.|t A 3E 00.[:t B 3E 00.]",
    ),
    (
        "par\nlane\nlane\nlane\nlane\nlane\nlane\nlane\nlane\ntick 1\nend",
        "[::::::::tick 1.]",
    ),
    (
        "par\nlane\nlane\nlane\nlane\nlane\nlane\nlane\nlane\nlane",
        "script line 10 many",
    ),
    (
        "par\nlane\nsave\ndrain\nget 0\nsave\nend",
        "[:save.drain.get 0.save.]",
    ),
    ("par\nlane\nsave\nlane\nget 0\nend", "script line 5 block"),
    (
        "par\nlane\ndrain\nlane\ntick 1\nlane\nsave\nend",
        "script line 7 block",
    ),
    ("par\nlane\nget 0\nlane\ndrain", "script line 5 block"),
    ("par\nlane\nget 0\nlane\nget 8", "script line 5 range"),
    (
        "par\nlane\npost 0 01\nask 0\nlane\nurge 1 02\nget 1\nlane\nask 1\npost 1 03\nend",
        "[:post 0 01.ask 0.:urge 1 02.get 1.:ask 1.post 1 03.]",
    ),
    (
        "par\nlane\nsave\nend\npar\nlane\nlane\nget 0\nend",
        "[:save.][::get 0.]",
    ),
    ("par\ndrain", "script line 2 block"),
    ("par\nlane\nend\nmemory 1", "script line 4 order"),
    ("par\nmemory 1", "script line 2 order"),
];

#[test]
fn blocks_of_lanes(rt: HostRuntime) -> Result<(), Fail> {
    all_are_told(&rt, rt.alloc(), &CASES)
}
