use super::configuration::{has, plain_event};
use super::*;
use flt_config::Config;

/// The life that shows each event.
const SHOWN: &str =
    "|show 0.show 1.show 2.show 3.show 4.show 5.show 6.show 7.show 8.show 9.show 10.show 11.show 12.show 13.show 14.show 15.";

/// Loads by how many reports they have and whether in lanes, and their first life.
static LOADS: [(u32, bool, &str); 3] = [
    (
        4,
        true,
        "cycle 0.[:fail 1.:prepass 6.:prefail 11.:prefail 15.]save.",
    ),
    (
        5,
        true,
        "cycle 0.[:fail 3.fail 1.:pass 5.:prefail 8.:pass 13.]save.",
    ),
    (
        6,
        false,
        "cycle 0.prepass 2.prefail 2.prepass 7.pass 5.prefail 10.pass 12.save.",
    ),
];

/// Whether a configuration is that of a load: 16 events of which only the DTC is written, from 000100 on.
fn is_of_load(config: &Config) -> bool {
    let mut dtc = 0x0100u32;
    for event in &config.events {
        if *event != plain_event(dtc) {
            return false;
        }
        dtc = dtc.wrapping_add(1);
    }
    has(config, 1, 16, 0, 512) && dtc == 0x0110
}

/// Whether a load has the configuration of a load, this first life, and a life that shows each event.
fn is_loaded(alloc: Global, count: u32, lanes: bool, first_life: &str) -> Result<bool, Fail> {
    let script = load(alloc, count.clamp(1, 60_000), lanes)?;
    let told = told_of(alloc, &script.lives)?;
    Ok(is_of_load(script.config.config()) && told.as_str().strip_prefix(first_life) == Some(SHOWN))
}

#[test]
fn loads(rt: HostRuntime) -> Result<(), Fail> {
    for (count, lanes, first_life) in &LOADS {
        let is_loaded = is_loaded(rt.alloc(), *count, *lanes, first_life)?;
        holds_at(&rt, is_loaded, "a load of", *count as usize);
    }
    Ok(())
}
